//! Equality of elements, and what of them is hashed and shown.
ghost use Rattle.std.specs.Prelude.{◌≡◌};
ghost use Rattle.std.specs.List.{fold};
ghost use Rattle.rowan_table.specs.Equal.{same_place, fed_place};
ghost use Rattle.rowan_table.specs.TableView.{cursor_of, IsWithin};

use super::Table;
use std::fmt;
use std::hash::{Hash, Hasher};

impl Table {
    /// Whether an element has an equal green value as one of a tree, and their texts start at the
    /// same offset.
    pub fn has_equal(&self, number: usize, other: &Table, other_number: usize) -> bool
        requires number { IsWithin self.now number }
        requires other_number { IsWithin other.now other_number }
        ensures { result
            ≡ same_place (cursor_of self.now number) (cursor_of other.now other_number) }
    {
        self.start(number) == other.start(other_number)
            && self.element(number) == other.element(other_number)
    }

    /// Feeds a hasher where the text of an element starts, its kind, the length of its text and the
    /// number of its children, all of which are read without a walk.
    pub fn hash_element<H: Hasher>(&self, number: usize, state: &mut H)
        requires { IsWithin self.now number }
        ensures { state.new ≡ fold H.write state.old (fed_place (cursor_of self.now number)) }
    {
        let element = self.element(number);
        let children = self.child_numbers(number);
        u32::from(self.start(number)).hash(state);
        element.kind().0.hash(state);
        u32::from(element.text_len()).hash(state);
        (children.end - children.start).hash(state);
    }

    /// Writes the kind of an element and the range of its text, under the name of a type.
    pub fn show_element<W: fmt::Write>(
        &self,
        number: usize,
        name: &str,
        f: &mut fmt::Formatter<W>,
    ) -> fmt::Result
        requires { IsWithin self.now number }
    {
        f.debug_struct(name)
            .field("kind", &self.element(number).kind())
            .field("text_range", &self.text_range(number))
            .finish()
    }
}
