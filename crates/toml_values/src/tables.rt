//! Which tables headers and dotted keys make, and which they may not.
ghost use Rattle.std.specs.Prelude.{◌≡◌, ◌+◌, IfOk, None, Some, cond, is_none, length, string_bytes};
ghost use Rattle.toml_values.specs.Tables.{by_own_header, dots_lead, goes_on, header_element, header_leads, header_table};
ghost use Rattle.toml_values.specs.Tables.{of_key, on_by_dots, on_by_header, table_of};

use crate::keys::{KeyPart, Way};
use crate::problem::{Problem, ProblemKind};
use crate::value::{Item, Made, Origin, Slot, Values};
use indexmap::IndexMap;
use rowan_green::TextRange;
use std::alloc::{AllocError, Global};

/// The tables of a document, while it is read.
#[derive(Drop)]
pub struct Tables {
    pub alloc: Global,
    pub values: Values,
    pub problems: Vec<Problem>,
}

impl Tables {
    /// The table to which a header's key leads before its last part, if it leads to one. Where it does
    /// not, that is noted.
    pub fn above_header(&mut self, path: &[KeyPart]) -> Result<Option<usize>, AllocError> {
        let mut table: usize = 0;
        for part in path.iter() {
            match self.through_header(table, part)? {
                Some(next) => table = next,
                None => return Ok(None),
            }
        }
        Ok(Some(table))
    }

    /// The table to which a dotted key leads before its last part, from the table at a place. Where
    /// it leads to none, that is noted.
    pub fn above_entry(
        &mut self,
        base: usize,
        path: &[KeyPart],
    ) -> Result<Option<usize>, AllocError> {
        let mut table = base;
        for part in path.iter() {
            match self.through_dotted(table, part)? {
                Some(next) => table = next,
                None => return Ok(None),
            }
        }
        Ok(Some(table))
    }

    /// Whether a key may be added to a table. Where it stands there already, that is noted.
    pub fn is_free(&mut self, table: usize, key: &KeyPart) -> Result<bool, AllocError>
        ensures answer { IfOk result (λ free.
            free ≡ is_none (of_key self.old.values.slots.items table (string_bytes key.now.name))) }
        ensures values { self.new.values ≡ self.old.values }
    {
        match self.place_of(table, key.name.as_str()) {
            Some(old) => {
                self.note(ProblemKind::DuplicateKey, key.range, old)?;
                Ok(false)
            }
            None => Ok(true),
        }
    }

    /// A step of a header to a table that is not its own.
    fn through_header(&mut self, table: usize, part: &KeyPart) -> Result<Option<usize>, AllocError>
        ensures { IfOk result (λ next.
            next ≡ header_leads self.old.values.slots.items table (string_bytes part.now.name)) }
    {
        let Some(place) = self.place_of(table, part.name.as_str()) else {
            return self.add_way(table, part, Made::OnTheWay).map(Some);
        };
        self.values.add_key(place, part.range)?;
        match self.way_of_header(place) {
            Way::Table(next) => Ok(Some(next)),
            Way::Wrong(kind) => {
                self.note(kind, part.range, place)?;
                Ok(None)
            }
        }
    }

    fn way_of_header(&self, place: usize) -> Way
        ensures { table_of result ≡ goes_on self.now.values.slots.items on_by_header place }
    {
        let Some(slot) = self.values.slots.get(place) else {
            return Way::Wrong(ProblemKind::ThroughValue);
        };
        match (&slot.item, slot.origin.made) {
            (Item::Table(_) | Item::Array(_), Made::Value) => Way::Wrong(ProblemKind::IntoInline),
            (Item::Table(_), _) => Way::Table(place),
            (Item::Array(elements), _) => match elements.as_slice().last() {
                Some(last) => Way::Table(*last),
                None => Way::Wrong(ProblemKind::IntoInline),
            },
            _ => Way::Wrong(ProblemKind::ThroughValue),
        }
    }

    /// A step of a dotted key to a table.
    fn through_dotted(&mut self, table: usize, part: &KeyPart) -> Result<Option<usize>, AllocError>
        ensures { IfOk result (λ next.
            next ≡ dots_lead self.old.values.slots.items table (string_bytes part.now.name)) }
    {
        let Some(place) = self.place_of(table, part.name.as_str()) else {
            return self.add_way(table, part, Made::Dotted).map(Some);
        };
        self.values.add_key(place, part.range)?;
        match self.way_of_dotted(place) {
            Way::Table(next) => Ok(Some(next)),
            Way::Wrong(kind) => {
                self.note(kind, part.range, place)?;
                Ok(None)
            }
        }
    }

    /// A table that stood only on the way of headers is from now on one of dotted keys, which can
    /// have no header.
    fn way_of_dotted(&mut self, place: usize) -> Way
        ensures { table_of result ≡ goes_on self.old.values.slots.items on_by_dots place }
    {
        let Some(slot) = self.values.slots.get_mut(place) else {
            return Way::Wrong(ProblemKind::ThroughValue);
        };
        match (&slot.item, slot.origin.made) {
            (Item::Table(_) | Item::Array(_), Made::Value) => Way::Wrong(ProblemKind::IntoInline),
            (Item::Table(_), Made::Header) => Way::Wrong(ProblemKind::IntoHeader),
            (Item::Table(_), _) => {
                slot.origin.made = Made::Dotted;
                Way::Table(place)
            }
            (Item::Array(_), _) => Way::Wrong(ProblemKind::IntoArray),
            _ => Way::Wrong(ProblemKind::ThroughValue),
        }
    }

    /// The table of a header `[key]` whose key stands at a range, and whose last part is a key of the
    /// table at a place. Where there can be none, that is noted, and the table stands nowhere.
    pub fn table(
        &mut self,
        table: usize,
        last: &KeyPart,
        range: TextRange,
    ) -> Result<usize, AllocError>
        ensures { IfOk result (λ place.
            place ≡ header_table self.old.values.slots.items table (string_bytes last.now.name)) }
    {
        let place = match self.place_of(table, last.name.as_str()) {
            None => self.add_table(table, last, Made::Header)?,
            Some(place) => match self.table_problem(place) {
                None => place,
                Some(kind) => {
                    self.note(kind, last.range, place)?;
                    return self.nowhere(range);
                }
            },
        };
        self.set_origin(place, last.range, range);
        self.values.add_key(place, last.range)?;
        Ok(place)
    }

    /// Why a header can't be that of a value that is there, if it can't.
    fn table_problem(&self, place: usize) -> Option<ProblemKind>
        ensures { cond (is_none result) (Some place) None
            ≡ goes_on self.now.values.slots.items by_own_header place }
    {
        let Some(slot) = self.values.slots.get(place) else {
            return Some(ProblemKind::DuplicateKey);
        };
        match (&slot.item, slot.origin.made) {
            (Item::Table(_), Made::OnTheWay) => None,
            (Item::Table(_), Made::Header | Made::Dotted) => Some(ProblemKind::DuplicateTable),
            (Item::Array(_), Made::Header) => Some(ProblemKind::TableOfArray),
            _ => Some(ProblemKind::DuplicateKey),
        }
    }

    fn set_origin(&mut self, place: usize, key: TextRange, range: TextRange) {
        if let Some(slot) = self.values.slots.get_mut(place) {
            slot.origin = Origin {
                made: Made::Header,
                key,
                range,
            };
        }
    }

    /// The new element of a header `[[key]]`, as `table` gives the table of one `[key]`.
    pub fn element(
        &mut self,
        table: usize,
        last: &KeyPart,
        range: TextRange,
    ) -> Result<usize, AllocError>
        ensures { IfOk result (λ place.
            place ≡ header_element self.old.values.slots.items table (string_bytes last.now.name)) }
    {
        let array = match self.place_of(table, last.name.as_str()) {
            None => {
                let item = Item::Array(Vec::new(self.alloc));
                self.add_copy(table, last, item, Made::Header)?
            }
            Some(place) if self.is_array_of_tables(place) => place,
            Some(place) => {
                self.note(ProblemKind::ArrayOfTable, last.range, place)?;
                return self.nowhere(range);
            }
        };
        let place = self.nowhere(range)?;
        self.set_origin(place, last.range, range);
        self.push(array, place)?;
        self.values.add_key(array, last.range)?;
        Ok(place)
    }

    fn is_array_of_tables(&self, place: usize) -> bool {
        match self.values.slots.get(place) {
            Some(slot) => match &slot.item {
                Item::Array(_) => slot.origin.made == Made::Header,
                _ => false,
            },
            None => false,
        }
    }

    /// A table that stands in no other one.
    pub fn nowhere(&mut self, range: TextRange) -> Result<usize, AllocError>
        ensures { IfOk result (λ place. place ≡ length self.old.values.slots.items) }
    {
        let origin = Origin {
            made: Made::Header,
            key: range,
            range,
        };
        self.values
            .add(Item::Table(IndexMap::new(self.alloc)), origin)
    }

    /// Adds a table to which a part of a key leads that is not its last one.
    fn add_way(&mut self, table: usize, key: &KeyPart, made: Made) -> Result<usize, AllocError>
        ensures { IfOk result (λ place. place ≡ length self.old.values.slots.items) }
    {
        let place = self.add_table(table, key, made)?;
        self.values.add_key(place, key.range)?;
        Ok(place)
    }

    fn add_table(&mut self, table: usize, key: &KeyPart, made: Made) -> Result<usize, AllocError>
        ensures { IfOk result (λ place. place ≡ length self.old.values.slots.items) }
    {
        let item = Item::Table(IndexMap::new(self.alloc));
        self.add_copy(table, key, item, made)
    }

    fn add_copy(
        &mut self,
        table: usize,
        key: &KeyPart,
        item: Item,
        made: Made,
    ) -> Result<usize, AllocError>
        ensures place { IfOk result (λ place. place ≡ length self.old.values.slots.items) }
        ensures count { IfOk result (λ place. length self.new.values.slots.items ≡ place + 1) }
    {
        let range = key.range;
        let name = String::from_str(self.alloc, key.name.as_str())?;
        self.add(table, KeyPart { name, range }, item, made, range)
    }

    /// Adds a value to a table, and gives its place.
    pub fn add(
        &mut self,
        table: usize,
        key: KeyPart,
        item: Item,
        made: Made,
        range: TextRange,
    ) -> Result<usize, AllocError>
        ensures place { IfOk result (λ place. place ≡ length self.old.values.slots.items) }
        ensures count { IfOk result (λ place. length self.new.values.slots.items ≡ place + 1) }
    {
        let KeyPart { name, range: key } = key;
        let place = self.values.add(item, Origin { made, key, range })?;
        match self.values.slots.get_mut(table) {
            Some(slot) => put(slot, name, place)?,
            None => {}
        }
        Ok(place)
    }

    /// Adds a value to an array.
    pub fn push(&mut self, array: usize, place: usize) -> Result<(), AllocError> {
        match self.values.slots.get_mut(array) {
            Some(slot) => push_to(slot, place),
            None => Ok(()),
        }
    }

    /// The place of the value of a key in a table.
    fn place_of(&self, table: usize, name: &str) -> Option<usize>
        ensures { result ≡ of_key self.now.values.slots.items table name.now }
    {
        match &self.values.slots.get(table)?.item {
            Item::Table(entries) => entries.get(name).copied(),
            _ => None,
        }
    }

    /// Notes what is wrong at a range, and where what is in the way stands.
    fn note(&mut self, kind: ProblemKind, range: TextRange, old: usize) -> Result<(), AllocError>
        ensures { self.new.values ≡ self.old.values }
    {
        let first = self.values.slots.get(old).map(key_range);
        self.problems.push(Problem { kind, range, first })?;
        Ok(())
    }
}

fn key_range(slot: &Slot) -> TextRange {
    slot.origin.key
}

fn put(slot: &mut Slot, name: String, place: usize) -> Result<(), AllocError> {
    match &mut slot.item {
        Item::Table(entries) => {
            entries.insert(name, place)?;
        }
        _ => {}
    }
    Ok(())
}

fn push_to(slot: &mut Slot, place: usize) -> Result<(), AllocError> {
    match &mut slot.item {
        Item::Array(elements) => elements.push(place)?,
        _ => {}
    }
    Ok(())
}
