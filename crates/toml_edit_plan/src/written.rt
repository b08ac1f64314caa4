//! Texts of keys and of typed values.
ghost use Rattle.std.specs.Prelude.{IfOk, string_bytes};
ghost use Rattle.toml_edit_plan.specs.Written.{IsTextOf};

use rowan::Fault;
use std::alloc::{AllocError, Global};
use std::fmt;
use toml_document::{ArrayRef, TableRef, Value, ValueRef};
use toml_path::Step;
use toml_writer::{write_float, write_key, write_string};

/// A new value.
#[derive(Clone, Copy)]
pub enum NewValue<'a> {
    /// A text, which has to be one value of TOML.
    Text(&'a str),
    /// A value, which is written as TOML has it.
    Typed(Value<'a>),
}

/// The text of a new value.
///
/// Errors: `Memory` if an allocation failed.
pub fn value_text(alloc: Global, value: NewValue<'_>) -> Result<String, Fault>
    ensures { IfOk result (λ text. IsTextOf value.entry (string_bytes text)) }
{
    match value {
        NewValue::Text(text) => Ok(String::from_str(alloc, text)?),
        NewValue::Typed(value) => Ok(typed_text(alloc, value)?),
    }
}

/// The text of a dotted key: its parts without quotes where they need none. Indexes are left out.
///
/// Errors: `Memory` if an allocation failed.
pub fn key_text(alloc: Global, steps: &[Step]) -> Result<String, Fault> {
    let mut text = String::new(alloc);
    for step in steps {
        if let Step::Key(key) = step {
            if !text.is_empty() {
                text.push('.')?;
            }
            let part = Part(key.as_str());
            text.push_str(&format!(in alloc; "{part}")?)?;
        }
    }
    Ok(text)
}

/// A part of a key.
#[derive(Clone, Copy)]
struct Part<'a>(&'a str);

impl fmt::Display for Part<'_> {
    fn fmt<W: fmt::Write>(&self, f: &mut fmt::Formatter<W>) -> fmt::Result {
        write_key(f, self.0)
    }
}

/// A value that is no table and no array.
#[derive(Clone, Copy)]
struct Word<'a>(Value<'a>);

impl fmt::Display for Word<'_> {
    fn fmt<W: fmt::Write>(&self, f: &mut fmt::Formatter<W>) -> fmt::Result {
        match self.0 {
            Value::String(text) => write_string(f, text),
            Value::Integer(number) => write!(f, "{number}"),
            Value::Float(number) => write_float(f, number),
            Value::Boolean(answer) => write!(f, "{answer}"),
            Value::Datetime(when) => write!(f, "{when}"),
            Value::Table(_) | Value::Array(_) => Ok(()),
        }
    }
}

/// What is open, and how many of its values are written.
#[derive(Clone, Copy)]
enum Open<'a> {
    Table(TableRef<'a>, usize),
    Array(ArrayRef<'a>, usize),
}

/// A value in one line. Tables and arrays that are open stand in a list, so no depth is too much.
fn typed_text(alloc: Global, value: Value<'_>) -> Result<String, AllocError> {
    let mut out = String::new(alloc);
    let mut open: Vec<Open<'_>> = Vec::new(alloc);
    let steps = begin(&mut out, &mut open, value)?;
    for _step in 0..steps {
        let Some(innermost) = open.pop() else {
            break;
        };
        step(&mut out, &mut open, innermost)?;
    }
    Ok(out)
}

/// Writes a value; of a table or an array its opening bracket. Gives how many steps it takes at most
/// to write what is in it.
fn begin<'a>(
    out: &mut String,
    open: &mut Vec<Open<'a>>,
    value: Value<'a>,
) -> Result<usize, AllocError> {
    match value {
        Value::Table(table) => {
            out.push('{')?;
            open.push(Open::Table(table, 0))?;
            Ok(table.values.count().saturating_mul(2))
        }
        Value::Array(array) => {
            out.push('[')?;
            open.push(Open::Array(array, 0))?;
            Ok(array.values.count().saturating_mul(2))
        }
        value => {
            let word = Word(value);
            out.push_str(&format!(in *out.allocator(); "{word}")?)?;
            Ok(0)
        }
    }
}

/// Writes the next value of what is open, or its end.
fn step<'a>(
    out: &mut String,
    open: &mut Vec<Open<'a>>,
    innermost: Open<'a>,
) -> Result<(), AllocError> {
    match innermost {
        Open::Table(table, index) => match table.at(index) {
            Some((key, value)) => {
                push_key(out, index, key)?;
                next(
                    out,
                    open,
                    Open::Table(table, index.saturating_add(1)),
                    value,
                )
            }
            None if index == 0 => out.push('}'),
            None => out.push_str(" }"),
        },
        Open::Array(array, index) => match array.at(index) {
            Some(value) => {
                out.push_str(if index == 0 { "" } else { ", " })?;
                next(
                    out,
                    open,
                    Open::Array(array, index.saturating_add(1)),
                    value,
                )
            }
            None => out.push(']'),
        },
    }
}

fn next<'a>(
    out: &mut String,
    open: &mut Vec<Open<'a>>,
    rest: Open<'a>,
    value: ValueRef<'a>,
) -> Result<(), AllocError> {
    open.push(rest)?;
    begin(out, open, value.value())?;
    Ok(())
}

fn push_key(out: &mut String, index: usize, key: &str) -> Result<(), AllocError> {
    let part = Part(key);
    let before = if index == 0 { " " } else { ", " };
    out.push_str(&format!(in *out.allocator(); "{before}{part} = ")?)
}
