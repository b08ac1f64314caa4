//! The values of a document. All of them stand in one list and name each other by their places
//! there, so that no nesting, however deep, needs a recursion.
ghost use Rattle.std.specs.Prelude.{◌≡◌, ◌++◌, ◌∷◌, [], IfOk, IfSome, None, OnErr, OnOk, Some, length, slice_get, slice_set};
ghost use Rattle.std.specs.Option.{option_and_then, option_copied, option_map};
ghost use Rattle.indexmap.specs.IndexMap.{get_by_text};
ghost use Rattle.toml_values.specs.Keys.{key_ranges_of, with_key};
ghost use Rattle.toml_values.specs.Shown.{Shows, as_shown, slot_of};

use indexmap::IndexMap;
use rowan_green::{TextRange, TextSize};
use std::alloc::{AllocError, Global};
use toml_datetime::Datetime;

/// A value of a document.
#[derive(Drop)]
pub enum Item {
    /// The values of the keys, in the order of the text.
    Table(IndexMap<String, usize>),
    Array(Vec<usize>),
    String(String),
    Integer(i64),
    Float(f64),
    Boolean(bool),
    Datetime(Datetime),
}

/// How a table or an array was made.
#[derive(Clone, Copy, Debug, PartialEq, Eq, Hash)]
pub enum Made {
    /// By a header of its own; an array of tables by those of its elements.
    Header,
    /// On the way of a header to another table.
    OnTheWay,
    /// By a dotted key.
    Dotted,
    /// In brackets or braces, or as a value of one token.
    Value,
}

/// Where a value comes from.
#[derive(Clone, Copy)]
pub struct Origin {
    pub made: Made,
    /// Where its key, or its header, stands first.
    pub key: TextRange,
    /// Where it stands: of a value the value, and of a table with a header the header's key.
    pub range: TextRange,
}

/// A value and where it comes from.
#[derive(Drop)]
pub struct Slot {
    pub item: Item,
    pub origin: Origin,
}

/// A part of a key that leads to a value.
#[derive(Clone, Copy)]
pub struct Key {
    pub range: TextRange,
    /// The place among all keys of the one ahead of it that leads to the same value.
    pub earlier: Option<usize>,
}

/// The values of a document.
#[derive(Drop)]
pub struct Values {
    /// The first one is the table of the document.
    pub slots: Vec<Slot>,
    /// The parts of all keys.
    pub keys: Vec<Key>,
    /// Of each value the place of the last key that leads to it.
    pub last_keys: Vec<Option<usize>>,
}

/// A value of a document, by its sort.
#[derive(Clone, Copy)]
pub enum Value<'a> {
    Table(TableRef<'a>),
    Array(ArrayRef<'a>),
    String(&'a str),
    Integer(i64),
    Float(f64),
    Boolean(bool),
    Datetime(Datetime),
}

/// A value in its document.
#[derive(Clone, Copy)]
pub struct ValueRef<'a> {
    pub values: &'a Values,
    /// Its place in the list of the values.
    pub place: usize,
}

/// A table in its document.
#[derive(Clone, Copy)]
pub struct TableRef<'a> {
    pub values: &'a Values,
    /// The places of its values by their keys.
    pub entries: &'a IndexMap<String, usize>,
}

/// An array in its document, also one of tables.
#[derive(Clone, Copy)]
pub struct ArrayRef<'a> {
    pub values: &'a Values,
    /// The places of its elements.
    pub elements: &'a [usize],
}

impl Values {
    /// The values of a document without any: an empty table.
    pub fn new(alloc: Global) -> Result<Values, AllocError> {
        let mut values = Values {
            slots: Vec::new(alloc),
            keys: Vec::new(alloc),
            last_keys: Vec::new(alloc),
        };
        let start = nowhere();
        let origin = Origin {
            made: Made::Header,
            key: start,
            range: start,
        };
        values.add(Item::Table(IndexMap::new(alloc)), origin)?;
        Ok(values)
    }

    /// Adds a value that stands in no other one, and gives its place.
    ///
    /// Errors: only when an allocation failed; then no value is added.
    pub fn add(&mut self, item: Item, origin: Origin) -> Result<usize, AllocError>
        ensures place { IfOk result (λ place. place ≡ length self.old.slots.items) }
        ensures added { OnOk result (self.new.slots.items
            ≡ self.old.slots.items ++ record { item = item; origin = origin } ∷ []) }
        ensures unnamed { OnOk result (self.new.last_keys.items
            ≡ self.old.last_keys.items ++ None ∷ []) }
        ensures keys { self.new.keys ≡ self.old.keys }
        ensures err { OnErr result (self.new.slots.items ≡ self.old.slots.items) }
    {
        let place = self.slots.len();
        self.last_keys.reserve(1)?;
        self.slots.push(Slot { item, origin })?;
        self.last_keys.push(None)?;
        Ok(place)
    }

    /// Notes a part of a key that leads to the value at a place.
    ///
    /// Errors: only when an allocation failed; then nothing is noted.
    pub fn add_key(&mut self, place: usize, range: TextRange) -> Result<(), AllocError>
        ensures slots { self.new.slots ≡ self.old.slots }
        ensures keys { OnOk result (self.new.keys.items
            ≡ with_key self.old.keys.items self.old.last_keys.items place range) }
        ensures last { OnOk result (self.new.last_keys.items
            ≡ slice_set self.old.last_keys.items place (Some (length self.old.keys.items))) }
        ensures err { OnErr result (self.new.keys.items ≡ self.old.keys.items) }
    {
        let number = self.keys.len();
        if let Some(last) = self.last_keys.get_mut(place) {
            self.keys.push(Key {
                range,
                earlier: *last,
            })?;
            *last = Some(number);
        }
        Ok(())
    }

    fn key_at(&self, number: Option<usize>) -> Option<&Key>
        ensures { option_copied result ≡ option_and_then (slice_get self.now.keys.items) number }
    {
        self.keys.get(number?)
    }

    /// How many values there are, with the tables and arrays around them.
    pub fn count(&self) -> usize
        ensures { result ≡ length self.now.slots.items }
    {
        self.slots.len()
    }

    /// The table of the document.
    pub fn root(&self) -> ValueRef<'_>
        ensures place { result.place ≡ 0 }
        ensures document { result.values.now ≡ self.now }
    {
        ValueRef {
            values: self,
            place: 0,
        }
    }
}

impl<'a> ValueRef<'a> {
    /// The value.
    pub fn value(self) -> Value<'a>
        ensures { IfSome (slot_of self.entry) (λ slot. Shows slot.item result) }
    {
        let values = self.values;
        match values.slots.get(self.place) {
            Some(slot) => value_of(values, &slot.item),
            None => Value::Boolean(false),
        }
    }

    /// Where it stands in the text, in bytes: of a value the value, of a table with a header the
    /// key of the header, and of one that only keys and headers of other tables name the first of
    /// their parts that does. The document's table has an empty range at 0.
    pub fn range(self) -> TextRange
        ensures { IfSome (slot_of self.entry) (λ slot. result ≡ slot.origin.range) }
    {
        match self.values.slots.get(self.place) {
            Some(slot) => slot.origin.range,
            None => nowhere(),
        }
    }
}

impl ValueRef<'_> {
    /// How it was made. The document's table is one with a header.
    pub fn made(self) -> Made
        ensures { IfSome (slot_of self.entry) (λ slot. result ≡ slot.origin.made) }
    {
        match self.values.slots.get(self.place) {
            Some(slot) => slot.origin.made,
            None => Made::Value,
        }
    }

    /// Where the last part of its key stands first, in bytes; of an element of an array the element.
    pub fn key_range(self) -> TextRange
        ensures { IfSome (slot_of self.entry) (λ slot. result ≡ slot.origin.key) }
    {
        match self.values.slots.get(self.place) {
            Some(slot) => slot.origin.key,
            None => nowhere(),
        }
    }

    /// Where the parts of keys stand that lead to it: its own key, and those in headers and in dotted
    /// keys of what is in it. The last one in the text comes first.
    ///
    /// Errors: only when an allocation failed.
    pub fn key_ranges(self, alloc: Global) -> Result<Vec<TextRange>, AllocError>
        ensures { IfOk result (λ ranges. ranges.items ≡ key_ranges_of self.entry) }
    {
        let mut ranges = Vec::new(alloc);
        let mut next = self.values.last_keys.get(self.place).copied().flatten();
        for _turn in self.values.keys.iter() {
            let Some(key) = self.values.key_at(next) else {
                break;
            };
            ranges.push(key.range)?;
            next = key.earlier;
        }
        Ok(ranges)
    }
}

fn value_of<'a>(values: &'a Values, item: &'a Item) -> Value<'a>
    ensures { Shows item.now result }
{
    match item {
        Item::Table(entries) => Value::Table(TableRef { values, entries }),
        Item::Array(elements) => Value::Array(ArrayRef {
            values,
            elements: elements.as_slice(),
        }),
        Item::String(text) => Value::String(text.as_str()),
        Item::Integer(number) => Value::Integer(*number),
        Item::Float(number) => Value::Float(*number),
        Item::Boolean(answer) => Value::Boolean(*answer),
        Item::Datetime(when) => Value::Datetime(*when),
    }
}

impl<'a> TableRef<'a> {
    /// How many keys it has.
    pub fn len(self) -> usize
        ensures { result ≡ length self.entry.entries.now.entries }
    {
        self.entries.len()
    }

    pub fn is_empty(self) -> bool {
        self.len() == 0
    }

    /// The value of a key, which is decoded: without quotes and escapes.
    pub fn get(self, key: &str) -> Option<ValueRef<'a>>
        ensures place { option_map (λ value. value.place) result ≡ get_by_text self.entry.entries.now key.now }
        ensures document { IfSome result (λ value. value.values.now ≡ self.entry.values.now) }
    {
        let place = *self.entries.get(key)?;
        Some(ValueRef {
            values: self.values,
            place,
        })
    }

    /// The key and the value at a place in the order of the text, the first at 0.
    pub fn at(self, index: usize) -> Option<(&'a str, ValueRef<'a>)>
        ensures entry { option_map (λ entry. (entry.0.now, entry.1.place)) result
            ≡ as_shown self.entry.entries.now.entries index }
        ensures document { IfSome result (λ entry. entry.1.values.now ≡ self.entry.values.now) }
    {
        let (key, place) = self.entries.get_index(index)?;
        let value = ValueRef {
            values: self.values,
            place: *place,
        };
        Some((key.as_str(), value))
    }
}

impl<'a> ArrayRef<'a> {
    /// How many elements it has.
    pub fn len(self) -> usize
        ensures { result ≡ length self.entry.elements.now }
    {
        self.elements.len()
    }

    pub fn is_empty(self) -> bool {
        self.len() == 0
    }

    /// The element at a place, the first at 0.
    pub fn at(self, index: usize) -> Option<ValueRef<'a>>
        ensures place { option_map (λ value. value.place) result ≡ slice_get self.entry.elements.now index }
        ensures document { IfSome result (λ value. value.values.now ≡ self.entry.values.now) }
    {
        let place = *self.elements.get(index)?;
        Some(ValueRef {
            values: self.values,
            place,
        })
    }
}

/// An empty range at the start of the text.
fn nowhere() -> TextRange {
    TextRange::new(TextSize::from(0), TextSize::from(0))
}
