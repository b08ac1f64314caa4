//! How far a path leads.
use toml_document::{Value, ValueRef, Values};
use toml_path::{Path, Step};

/// The value to which the first steps of a path lead, and how many these are.
#[derive(Clone, Copy)]
pub(crate) struct Way<'a> {
    pub(crate) value: ValueRef<'a>,
    pub(crate) steps: usize,
}

/// How far a path leads: as far as there are values.
pub(crate) fn way_of<'a>(values: &'a Values, path: &Path) -> Way<'a> {
    let mut value = values.root();
    let mut steps: usize = 0;
    for step in path.steps.iter() {
        match value_behind(value, step) {
            Some(next) => value = next,
            None => return Way { value, steps },
        }
        steps = steps.saturating_add(1);
    }
    Way { value, steps }
}

/// The value to which a step leads.
pub(crate) fn value_behind<'a>(value: ValueRef<'a>, step: &Step) -> Option<ValueRef<'a>> {
    match (value.value(), step) {
        (Value::Table(table), Step::Key(key)) => table.get(key.as_str()),
        (Value::Array(array), Step::Index(index)) => array.at(*index),
        _ => None,
    }
}
