//! The values of a document beside those of the kit's `toml`, which knows nothing of trees.
use anyhow::{Context, Result, bail};
use std::alloc::Global;
use toml::Value as KitValue;
use toml_document::{ArrayRef, TableRef, Value, ValueRef, Values};

/// A value, and what the kit's `toml` has in its place.
#[derive(Clone, Copy)]
struct Pair<'a> {
    ours: ValueRef<'a>,
    kits: &'a KitValue,
}

/// Sees that the kit's `toml` reads the same values of a text.
pub(crate) fn check(alloc: Global, name: &str, text: &str, values: &Values) -> Result<()> {
    let table = toml::table_from_str(alloc, text).context("the kit's toml")?;
    let kits = KitValue::Table(table);
    let mut left: Vec<Pair<'_>> = Vec::new(alloc);
    left.push(Pair {
        ours: values.root(),
        kits: &kits,
    })?;
    for _value in 0..values.count() {
        let Some(pair) = left.pop() else {
            return Ok(());
        };
        if !is_same(&mut left, pair)? {
            bail!(
                "{name}: the kit's toml reads another value at {:?}",
                pair.ours.range()
            );
        }
    }
    if !left.is_empty() {
        bail!("{name}: the kit's toml reads more values");
    }
    Ok(())
}

/// Whether both are the same value, but for what is in them, which is left to be compared.
fn is_same<'a>(left: &mut Vec<Pair<'a>>, pair: Pair<'a>) -> Result<bool> {
    match (pair.ours.value(), pair.kits) {
        (Value::Table(table), KitValue::Table(kits)) if table.len() == kits.len() => {
            push_table(left, table, kits)
        }
        (Value::Array(array), KitValue::Array(kits)) if array.len() == kits.len() => {
            push_array(left, array, kits.as_slice())
        }
        (ours, kits) => Ok(is_same_word(ours, kits)),
    }
}

fn is_same_word(ours: Value<'_>, kits: &KitValue) -> bool {
    match (ours, kits) {
        (Value::String(text), KitValue::String(other)) => text == other.as_str(),
        (Value::Integer(number), KitValue::Integer(other)) => number == *other,
        (Value::Float(number), KitValue::Float(other)) => {
            number == *other || number.is_nan() && other.is_nan()
        }
        (Value::Boolean(answer), KitValue::Boolean(other)) => answer == *other,
        (Value::Datetime(when), KitValue::Datetime(other)) => when == *other,
        _ => false,
    }
}

fn push_table<'a>(
    left: &mut Vec<Pair<'a>>,
    table: TableRef<'a>,
    kits: &'a toml::Table,
) -> Result<bool> {
    for index in 0..table.len() {
        let Some((key, ours)) = table.at(index) else {
            return Ok(false);
        };
        let Some(kits) = kits.get(key) else {
            return Ok(false);
        };
        left.push(Pair { ours, kits })?;
    }
    Ok(true)
}

fn push_array<'a>(
    left: &mut Vec<Pair<'a>>,
    array: ArrayRef<'a>,
    kits: &'a [KitValue],
) -> Result<bool> {
    for (index, kits) in kits.iter().enumerate() {
        let Some(ours) = array.at(index) else {
            return Ok(false);
        };
        left.push(Pair { ours, kits })?;
    }
    Ok(true)
}
