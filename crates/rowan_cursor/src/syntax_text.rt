//! Texts of nodes, and slices of them. A text is read in chunks, which the tree lends: one for each
//! token that it meets.
mod chunks;
mod range;
mod search;
mod text_ref;

ghost use Rattle.std.specs.Prelude.{◌≡◌, ◌↔◌, ◌≤◌, ℕ, IfOk, IfErr, IsTrue, string_bytes};
ghost use Rattle.std.specs.Str.{IsCharBoundary};
ghost use Rattle.rowan_table.specs.Chunks.{slice_of, IsSliceOf};
ghost use Rattle.rowan_cursor.specs.Folds.{FoldsUntilErr, VisitsUntilErr, VisitsAll};
ghost use Rattle.rowan_table.specs.SyntaxText.{slice_text, slice_len, chunks, part_of};
ghost use Rattle.rowan_table.specs.SyntaxText.{first_of, last_of, CanCut, HasChar, FindsChar};
ghost use Rattle.rowan_table.specs.SyntaxText.{ReadsChar};

pub use chunks::SyntaxTextChunks;
pub use range::SyntaxTextRange;
use rowan_green::fault::Fault;
use rowan_green::text::TextSize;
use rowan_table::table::{Slice, Table};
use std::alloc::AllocError;
use std::fmt;
use std::marker::Model;
use std::rc::Rc;
pub use text_ref::SyntaxTextRef;

/// The text of a node, or a slice of it. A clone shares the tree. Offsets into it are bytes from
/// its start.
#[derive(Drop)]
pub struct SyntaxText {
    table: Rc<Table>,
    slice: Slice,
}

impl Model for SyntaxText {
    ghost use Rattle.rowan_table.specs.SyntaxText.{TextSlice};
    ghost use Rattle.rowan_cursor.specs.TextCode.{coded_slice};

    ghost Value = { TextSlice };

    ghost coded = { coded_slice };

    ghost use Rattle.rowan_table.specs.Chunks.{slice_of, IsSliceOf};

    ghost view = { λ t. slice_of t.table.value t.slice };

    ghost invariant = { λ t. IsSliceOf t.table.value t.slice };
}

impl SyntaxText {
    ghost use Rattle.rowan_cursor.specs.RefTexts.{text_slice};

    // A slice of the text of a node.
    fn new(table: &Rc<Table>, slice: Slice) -> Result<SyntaxText, AllocError>
        requires { IsSliceOf table.now.value slice }
        ensures { IfOk result (λ text. text ≡ slice_of table.now.value slice) }
    {
        let table = table.clone()?;
        Ok(SyntaxText { table, slice })
    }

    /// The text, borrowed from its tree.
    pub fn as_ref(&self) -> SyntaxTextRef<'_>
        ensures { text_slice result ≡ self.now }
    {
        SyntaxTextRef::new(&self.table, self.slice)
    }

    /// The number of bytes.
    pub fn len(&self) -> TextSize
        ensures { result ≡ slice_len self.now }
    {
        self.as_ref().len()
    }

    /// Whether there are no bytes.
    pub fn is_empty(&self) -> bool
        ensures { IsTrue result ↔ (self.now.range.start ≡ self.now.range.end) }
    {
        self.as_ref().is_empty()
    }

    /// Whether a character is in the text. Takes no memory.
    pub fn contains_char(&self, c: char) -> bool
        ensures { IsTrue result ↔ ((i : ℕ) × HasChar (slice_text self.now) i c) }
    {
        self.as_ref().contains_char(c)
    }

    /// The offset at which a character first begins. Takes no memory.
    pub fn find_char(&self, c: char) -> Option<TextSize>
        ensures { FindsChar (slice_text self.now) c result }
    {
        self.as_ref().find_char(c)
    }

    /// Whether an offset is at most the length and not inside a character. Takes no memory.
    pub fn is_border(&self, offset: TextSize) -> bool
        ensures border { IsTrue result ↔ IsCharBoundary (slice_text self.now) offset }
        ensures within { IsTrue result → offset ≤ slice_len self.now }
    {
        self.as_ref().is_border(offset)
    }

    /// The character that begins at an offset: none past the end or inside a character. Takes no
    /// memory.
    pub fn char_at(&self, offset: TextSize) -> Option<char>
        ensures { ReadsChar (slice_text self.now) offset result }
    {
        self.as_ref().char_at(offset)
    }

    /// Whether this is the text. Takes no memory.
    pub fn eq_str(&self, text: &str) -> bool
        ensures { IsTrue result ↔ (slice_text self.now ≡ text.now) }
    {
        self.as_ref().eq_str(text)
    }

    /// The part in a range, whose ends are counted in bytes from the start of the text. They are in
    /// order, at most the length, and not inside a character, of which `is_border` tells. Refused
    /// only for want of memory.
    pub fn slice<R: SyntaxTextRange>(&self, range: R) -> Result<SyntaxText, Fault>
    where
        R: Drop,
        requires { CanCut self.now (first_of (R.first range)) (last_of self.now (R.last range)) }
        ensures ok { IfOk result (λ text. text
            ≡ part_of self.now (first_of (R.first range)) (last_of self.now (R.last range))) }
        ensures err { IfErr result (λ e. e ≡ Fault.Memory) }
    {
        self.as_ref().slice(range).to_owned()
    }

    /// What a closure makes of a first value and the chunks in their order: each call takes the
    /// value so far and the next chunk. The first `Err` that the closure answers ends it. Takes no
    /// memory of its own.
    pub fn try_fold_chunks<T, F: FnMut(T, &str) -> Result<T, E>, E>(
        &self,
        init: T,
        f: F,
    ) -> Result<T, E>
        requires { F.IsAlwaysCallable f }
        ensures { (last : F) × FoldsUntilErr F.FnMut f init (chunks self.now) result last }
    {
        self.as_ref().try_fold_chunks(init, f)
    }

    /// Calls a closure at each chunk, in their order, up to the first `Err` that it answers. Takes
    /// no memory of its own.
    pub fn try_for_each_chunk<F: FnMut(&str) -> Result<(), E>, E>(&self, f: F) -> Result<(), E>
        requires { F.IsAlwaysCallable f }
        ensures { (last : F) × VisitsUntilErr F.FnMut f (chunks self.now) result last }
    {
        self.as_ref().try_for_each_chunk(f)
    }

    /// Calls a closure at each chunk, in their order. Takes no memory of its own.
    pub fn for_each_chunk<F: FnMut(&str)>(&self, f: F)
        requires { F.IsAlwaysCallable f }
        ensures { (last : F) × VisitsAll F.FnMut f (chunks self.now) last }
    {
        self.as_ref().for_each_chunk(f)
    }

    /// The text as a string of its own. Refused only for want of memory.
    pub fn to_text(&self) -> Result<String, Fault>
        ensures ok { IfOk result (λ text. string_bytes text ≡ slice_text self.now) }
        ensures err { IfErr result (λ e. e ≡ Fault.Memory) }
    {
        self.as_ref().to_text()
    }
}

impl Clone for SyntaxText {
    ghost is_clone = { λ text copy. copy ≡ text };

    fn clone(&self) -> Result<SyntaxText, AllocError> {
        SyntaxText::new(&self.table, self.slice)
    }
}

impl PartialEq for SyntaxText {
    ghost use Rattle.std.specs.Cmp.{partial_equiv_from_equiv};
    ghost use Rattle.rowan_table.specs.SyntaxText.{same_text, same_text-laws};

    ghost eq = { same_text };

    ghost laws = { partial_equiv_from_equiv same_text-laws };

    fn eq(&self, other: &SyntaxText) -> bool {
        self.as_ref() == other.as_ref()
    }
}

impl Eq for SyntaxText {
    ghost use Rattle.rowan_table.specs.SyntaxText.{same_text-laws};

    ghost laws = { same_text-laws };
}

impl fmt::Display for SyntaxText {
    ghost use Rattle.std.specs.Prelude.{Some};
    ghost use Rattle.rowan_table.specs.SyntaxText.{slice_text};

    ghost output = { λ text. Some (slice_text text) };

    fn fmt<W: fmt::Write>(&self, f: &mut fmt::Formatter<W>) -> fmt::Result {
        fmt::Display::fmt(&self.as_ref(), f)
    }
}

impl fmt::Debug for SyntaxText {
    fn fmt<W: fmt::Write>(&self, f: &mut fmt::Formatter<W>) -> fmt::Result {
        fmt::Debug::fmt(&self.as_ref(), f)
    }
}
