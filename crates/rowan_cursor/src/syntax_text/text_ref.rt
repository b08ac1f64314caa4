//! Texts that are borrowed from their tree.
ghost use Rattle.std.specs.Prelude.{◌≡◌, ◌≤◌, ◌↔◌, IfOk, IfErr, IsTrue, MatchOption, length};
ghost use Rattle.std.specs.Prelude.{string_bytes};
ghost use Rattle.rowan_table.specs.Chunks.{slice_of, IsSliceOf, IsByteIn};
ghost use Rattle.rowan_cursor.specs.Folds.{FoldsUntilErr, VisitsUntilErr, VisitsAll};
ghost use Rattle.rowan_table.specs.SyntaxText.{slice_text, slice_len, chunks, whole_text, part_of};
ghost use Rattle.rowan_table.specs.SyntaxText.{first_of, last_of, CanCut, same_text};
ghost use Rattle.rowan_table.specs.TableView.{IsNodeIn, cursor_of};

use super::chunks::SyntaxTextChunks;
use super::{SyntaxText, SyntaxTextRange};
use rowan_green::fault::Fault;
use rowan_green::text::TextSize;
use rowan_table::table::{Slice, Table};
use std::rc::Rc;
use std::{cmp, fmt};

/// The text of a node, or a slice of it, borrowed from the tree. Offsets into it are bytes from its
/// start. No call but `to_text` and `to_owned` takes memory or is refused.
#[derive(Clone, Copy)]
pub struct SyntaxTextRef<'tree> {
    table: &'tree Rc<Table>,
    slice: Slice,
    ghost within: { IsSliceOf table.now.value slice },
}

impl<'tree> SyntaxTextRef<'tree> {
    ghost use Rattle.rowan_cursor.specs.RefTexts.{text_slice, rest_of_chunks};

    // The text of the node with a number.
    pub(crate) fn whole(table: &'tree Rc<Table>, node: usize) -> SyntaxTextRef<'tree>
        requires { IsNodeIn table.now.value node }
        ensures { text_slice result ≡ whole_text (cursor_of table.now.value node) }
    {
        let slice = Slice::new(node, table.text_range(node));
        SyntaxTextRef { table, slice }
    }

    // A slice of the text of a node.
    pub(super) fn new(table: &'tree Rc<Table>, slice: Slice) -> SyntaxTextRef<'tree>
        requires { IsSliceOf table.now.value slice }
        ensures { text_slice result ≡ slice_of table.now.value slice }
    {
        SyntaxTextRef { table, slice }
    }

    /// The number of bytes.
    pub fn len(&self) -> TextSize
        ensures { result ≡ slice_len (text_slice self.now) }
    {
        TextSize::from(self.slice.end - self.slice.start)
    }

    /// Whether there are no bytes.
    pub fn is_empty(&self) -> bool
        ensures { let range = (text_slice self.now).range in
            IsTrue result ↔ (range.start ≡ range.end) }
    {
        self.slice.start == self.slice.end
    }

    /// Whether this is the text.
    pub fn eq_str(&self, text: &str) -> bool
        ensures { IsTrue result ↔ (slice_text (text_slice self.now) ≡ text.now) }
    {
        let mut rest = text;
        for chunk in self.chunks() {
            match rest.strip_prefix(chunk) {
                Some(after) => rest = after,
                None => return false,
            }
        }
        rest.is_empty()
    }

    /// The part in a range, whose ends are counted in bytes from the start of the text. They are in
    /// order, at most the length, and not inside a character, of which `is_border` tells.
    pub fn slice<R: SyntaxTextRange>(&self, range: R) -> SyntaxTextRef<'tree>
    where
        R: Drop,
        requires { let whole = text_slice self.now in
            CanCut whole (first_of (R.first range)) (last_of whole (R.last range)) }
        ensures { let whole = text_slice self.now in text_slice result
            ≡ part_of whole (first_of (R.first range)) (last_of whole (R.last range)) }
    {
        let start = range.start().unwrap_or(TextSize::from(0));
        let end = range.end().unwrap_or(self.len());
        let slice = self.slice.part(self.table, start, end);
        SyntaxTextRef::new(self.table, slice)
    }

    /// The chunks in their order, each lent for as long as the tree is.
    pub fn chunks(&self) -> SyntaxTextChunks<'tree>
        ensures { rest_of_chunks result ≡ chunks (text_slice self.now) }
    {
        SyntaxTextChunks::new(self.table, self.slice.chunk_walk(self.table))
    }

    // The chunk with the byte at an offset, and the place of the byte in it. A search in the table
    // leads to its token, so that the first chunk of the walk has it.
    pub(super) fn chunk_at(&self, offset: TextSize) -> Option<(&'tree str, usize)>
        ensures { let text = slice_text (text_slice self.now) in
            MatchOption result (length text ≤ offset)
            (λ found. IsByteIn text offset found.0.now found.1) }
    {
        if self.len() <= offset {
            return None;
        }
        let walk = self.slice.walk_over(self.table, offset);
        let mut place = (u32::from(offset) - walk.passed()) as usize;
        for chunk in SyntaxTextChunks::new(self.table, walk) {
            if place < chunk.len() {
                return Some((chunk, place));
            }
            place -= chunk.len();
        }
        None
    }

    /// What a closure makes of a first value and the chunks in their order: each call takes the
    /// value so far and the next chunk. The first `Err` that the closure answers ends it.
    pub fn try_fold_chunks<T, F: FnMut(T, &str) -> Result<T, E>, E>(
        &self,
        init: T,
        mut f: F,
    ) -> Result<T, E>
        requires { F.IsAlwaysCallable f }
        ensures { (last : F)
            × FoldsUntilErr F.FnMut f init (chunks (text_slice self.now)) result last }
    {
        let mut total = init;
        for chunk in self.chunks() {
            match f(total, chunk) {
                Ok(next) => total = next,
                Err(refusal) => return Err(refusal),
            }
        }
        Ok(total)
    }

    /// Calls a closure at each chunk, in their order, up to the first `Err` that it answers.
    pub fn try_for_each_chunk<F: FnMut(&str) -> Result<(), E>, E>(&self, mut f: F) -> Result<(), E>
        requires { F.IsAlwaysCallable f }
        ensures { (last : F) × VisitsUntilErr F.FnMut f (chunks (text_slice self.now)) result last }
    {
        for chunk in self.chunks() {
            match f(chunk) {
                Ok(()) => {}
                Err(refusal) => return Err(refusal),
            }
        }
        Ok(())
    }

    /// Calls a closure at each chunk, in their order.
    pub fn for_each_chunk<F: FnMut(&str)>(&self, mut f: F)
        requires { F.IsAlwaysCallable f }
        ensures { (last : F) × VisitsAll F.FnMut f (chunks (text_slice self.now)) last }
    {
        for chunk in self.chunks() {
            f(chunk);
        }
    }

    // Whether two texts have the same bytes, however their tokens cut them.
    fn has_text_of(&self, other: &SyntaxTextRef<'_>) -> bool
        ensures { result ≡ same_text (text_slice self.now) (text_slice other.now) }
    {
        if self.len() != other.len() {
            return false;
        }
        let mut others = other.chunks();
        let mut theirs: &[u8] = &[];
        for chunk in self.chunks() {
            let mut mine = chunk.as_bytes();
            while !mine.is_empty() {
                if theirs.is_empty() {
                    match others.next() {
                        Some(next) => theirs = next.as_bytes(),
                        None => return false,
                    }
                    continue;
                }
                let len = cmp::min(mine.len(), theirs.len());
                let (front, back) = mine.split_at(len);
                let (their_front, their_back) = theirs.split_at(len);
                if front != their_front {
                    return false;
                }
                mine = back;
                theirs = their_back;
            }
        }
        true
    }

    /// The text as a string of its own. Refused only for want of memory.
    pub fn to_text(&self) -> Result<String, Fault>
        ensures ok { IfOk result (λ text. string_bytes text ≡ slice_text (text_slice self.now)) }
        ensures err { IfErr result (λ e. e ≡ Fault.Memory) }
    {
        let len = u32::from(self.len()) as usize;
        let mut text = String::with_capacity(self.table.allocator(), len)?;
        for chunk in self.chunks() {
            text.push_str(chunk)?;
        }
        Ok(text)
    }

    /// The text with a share of the tree. `Err(Fault::Memory)` where the count of the tree's owners
    /// is full.
    pub fn to_owned(&self) -> Result<SyntaxText, Fault>
        ensures ok { IfOk result (λ text. text ≡ text_slice self.now) }
        ensures err { IfErr result (λ e. e ≡ Fault.Memory) }
    {
        Ok(SyntaxText::new(self.table, self.slice)?)
    }
}

impl PartialEq for SyntaxTextRef<'_> {
    ghost use Rattle.std.specs.Cmp.{on_equiv, partial_equiv_from_equiv};
    ghost use Rattle.rowan_cursor.specs.RefTexts.{text_slice};
    ghost use Rattle.rowan_table.specs.SyntaxText.{same_text, same_text-laws};

    ghost eq = { λ r s. same_text (text_slice r) (text_slice s) };

    ghost laws = { partial_equiv_from_equiv (on_equiv text_slice same_text-laws) };

    fn eq(&self, other: &Self) -> bool {
        self.has_text_of(other)
    }
}

impl Eq for SyntaxTextRef<'_> {
    ghost use Rattle.std.specs.Cmp.{on_equiv};
    ghost use Rattle.rowan_cursor.specs.RefTexts.{text_slice};
    ghost use Rattle.rowan_table.specs.SyntaxText.{same_text-laws};

    ghost laws = { on_equiv text_slice same_text-laws };
}

impl fmt::Display for SyntaxTextRef<'_> {
    ghost use Rattle.std.specs.Prelude.{Some};
    ghost use Rattle.rowan_table.specs.SyntaxText.{slice_text};
    ghost use Rattle.rowan_cursor.specs.RefTexts.{text_slice};

    ghost output = { λ text. Some (slice_text (text_slice text)) };

    fn fmt<W: fmt::Write>(&self, f: &mut fmt::Formatter<W>) -> fmt::Result {
        for chunk in self.chunks() {
            f.write_str(chunk)?;
        }
        Ok(())
    }
}

impl fmt::Debug for SyntaxTextRef<'_> {
    fn fmt<W: fmt::Write>(&self, f: &mut fmt::Formatter<W>) -> fmt::Result {
        f.write_char('"')?;
        for chunk in self.chunks() {
            for c in chunk.chars() {
                if c == '\'' {
                    f.write_char(c)?;
                } else {
                    fmt::Display::fmt(&c.escape_debug(), f)?;
                }
            }
        }
        f.write_char('"')
    }
}
