//! Which value a path leads to.
ghost use Rattle.std.specs.Prelude.{◌≡◌, IfSome};
ghost use Rattle.std.specs.Option.{option_map};
ghost use Rattle.toml_values.specs.Find.{place_at, step_to};

use crate::value::{Item, ValueRef, Values};
use toml_path::{Path, Step};

impl Values {
    /// The value to which a path leads, if it leads to one.
    pub fn find(&self, path: &Path) -> Option<ValueRef<'_>>
        ensures place { option_map (λ value. value.place) result
            ≡ place_at self.now.slots.items path.now.steps.items }
        ensures document { IfSome result (λ value. value.values.now ≡ self.now) }
    {
        let mut place = Some(0);
        for step in path.steps.iter() {
            place = place.and_then(|place| self.step_to(place, step));
        }
        place.map(|place| ValueRef {
            values: self,
            place,
        })
    }

    /// The place to which a step leads from the value at a place.
    fn step_to(&self, place: usize, step: &Step) -> Option<usize>
        ensures { result ≡ step_to self.now.slots.items step.now place }
    {
        let slot = self.slots.get(place)?;
        match (&slot.item, step) {
            (Item::Table(entries), Step::Key(key)) => entries.get(key.as_str()).copied(),
            (Item::Array(elements), Step::Index(index)) => elements.get(*index).copied(),
            _ => None,
        }
    }
}
