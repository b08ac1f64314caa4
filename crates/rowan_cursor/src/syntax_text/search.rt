//! Searches in texts that are borrowed from their tree.
ghost use Rattle.std.specs.Prelude.{◌↔◌, ◌≤◌, ℕ, IsTrue};
ghost use Rattle.std.specs.Str.{IsCharBoundary};
ghost use Rattle.rowan_table.specs.SyntaxText.{slice_text, slice_len, HasChar, FindsChar};
ghost use Rattle.rowan_table.specs.SyntaxText.{ReadsChar};

use super::SyntaxTextRef;
use rowan_green::text::TextSize;

impl<'tree> SyntaxTextRef<'tree> {
    ghost use Rattle.rowan_cursor.specs.RefTexts.{text_slice};

    /// Whether a character is in the text.
    pub fn contains_char(&self, c: char) -> bool
        ensures { IsTrue result ↔ ((i : ℕ) × HasChar (slice_text (text_slice self.now)) i c) }
    {
        self.find_char(c).is_some()
    }

    /// The offset at which a character first begins.
    pub fn find_char(&self, c: char) -> Option<TextSize>
        ensures { FindsChar (slice_text (text_slice self.now)) c result }
    {
        let mut passed = 0;
        for chunk in self.chunks() {
            if let Some(place) = chunk.find(c) {
                return Some(TextSize::from((passed + place) as u32));
            }
            passed += chunk.len();
        }
        None
    }

    /// Whether an offset is at most the length and not inside a character.
    pub fn is_border(&self, offset: TextSize) -> bool
        ensures border { let text = slice_text (text_slice self.now) in
            IsTrue result ↔ IsCharBoundary text offset }
        ensures within { IsTrue result → offset ≤ slice_len (text_slice self.now) }
    {
        match self.chunk_at(offset) {
            Some((chunk, place)) => chunk.is_char_boundary(place),
            None => offset == self.len(),
        }
    }

    /// The character that begins at an offset: none past the end or inside a character.
    pub fn char_at(&self, offset: TextSize) -> Option<char>
        ensures { ReadsChar (slice_text (text_slice self.now)) offset result }
    {
        let (chunk, place) = self.chunk_at(offset)?;
        if !chunk.is_char_boundary(place) {
            return None;
        }
        chunk[place..].chars().next()
    }
}
