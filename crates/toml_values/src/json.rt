//! Values as JSON. Tables and arrays that are open stand in a list, so no depth is too much.
use crate::value::{ArrayRef, TableRef, Value, ValueRef};
use std::alloc::{AllocError, Global};
use toml_datetime::Datetime;

/// How values are written.
#[derive(Clone, Copy, PartialEq, Eq)]
pub enum Form {
    /// A value that is no table and no array as its type and its text.
    Tagged,
    /// As JSON has it; dates, times, infinite floats and those that are no number as strings.
    Plain,
}

impl ValueRef<'_> {
    /// The value as JSON, on one line.
    ///
    /// Errors: only when an allocation failed.
    pub fn to_json(self, alloc: Global, form: Form) -> Result<String, AllocError> {
        let mut out = String::new(alloc);
        push_value(&mut out, self, form)?;
        Ok(out)
    }

    /// The text of a string, and of another value its JSON.
    ///
    /// Errors: only when an allocation failed.
    pub fn to_text(self, alloc: Global) -> Result<String, AllocError> {
        let mut out = String::new(alloc);
        match self.value() {
            Value::String(text) => out.push_str(text)?,
            Value::Table(_) | Value::Array(_) => push_value(&mut out, self, Form::Plain)?,
            value => push_word(&mut out, value)?,
        }
        Ok(out)
    }
}

/// What is open, and how many of its values are written.
#[derive(Clone, Copy)]
enum Open<'a> {
    Table(TableRef<'a>, usize),
    Array(ArrayRef<'a>, usize),
}

/// Appends a value with all that is in it.
fn push_value(out: &mut String, value: ValueRef<'_>, form: Form) -> Result<(), AllocError> {
    let mut open: Vec<Open<'_>> = Vec::new(*out.allocator());
    begin(out, &mut open, value, form)?;
    let steps = value.values.count().saturating_mul(2);
    for _step in 0..steps {
        let Some(innermost) = open.pop() else {
            break;
        };
        step(out, &mut open, innermost, form)?;
    }
    Ok(())
}

/// Writes the next value of what is open, or its end.
fn step<'a>(
    out: &mut String,
    open: &mut Vec<Open<'a>>,
    innermost: Open<'a>,
    form: Form,
) -> Result<(), AllocError> {
    match innermost {
        Open::Table(table, index) => match table.at(index) {
            Some((key, value)) => {
                push_comma(out, index)?;
                push_quoted(out, key)?;
                out.push_str(": ")?;
                open.push(Open::Table(table, index.saturating_add(1)))?;
                begin(out, open, value, form)
            }
            None => out.push('}'),
        },
        Open::Array(array, index) => match array.at(index) {
            Some(value) => {
                push_comma(out, index)?;
                open.push(Open::Array(array, index.saturating_add(1)))?;
                begin(out, open, value, form)
            }
            None => out.push(']'),
        },
    }
}

fn push_comma(out: &mut String, index: usize) -> Result<(), AllocError> {
    match index {
        0 => Ok(()),
        _ => out.push_str(", "),
    }
}

/// Writes a value; of a table or an array its opening bracket.
fn begin<'a>(
    out: &mut String,
    open: &mut Vec<Open<'a>>,
    value: ValueRef<'a>,
    form: Form,
) -> Result<(), AllocError> {
    match value.value() {
        Value::Table(table) => {
            out.push('{')?;
            open.push(Open::Table(table, 0))?;
        }
        Value::Array(array) => {
            out.push('[')?;
            open.push(Open::Array(array, 0))?;
        }
        value if form == Form::Tagged => push_tagged(out, value)?,
        value => push_plain(out, value)?,
    }
    Ok(())
}

fn push_tagged(out: &mut String, value: Value<'_>) -> Result<(), AllocError> {
    out.push_str("{\"type\": \"")?;
    out.push_str(type_of(value))?;
    out.push_str("\", \"value\": ")?;
    match value {
        Value::String(text) => push_quoted(out, text)?,
        value => {
            out.push('"')?;
            push_word(out, value)?;
            out.push('"')?;
        }
    }
    out.push('}')?;
    Ok(())
}

fn push_plain(out: &mut String, value: Value<'_>) -> Result<(), AllocError> {
    match value {
        Value::String(text) => push_quoted(out, text)?,
        Value::Integer(_) | Value::Boolean(_) => push_word(out, value)?,
        Value::Float(number) if number.is_finite() => push_word(out, value)?,
        _ => {
            out.push('"')?;
            push_word(out, value)?;
            out.push('"')?;
        }
    }
    Ok(())
}

fn type_of(value: Value<'_>) -> &'static str {
    match value {
        Value::Table(_) => "table",
        Value::Array(_) => "array",
        Value::String(_) => "string",
        Value::Integer(_) => "integer",
        Value::Float(_) => "float",
        Value::Boolean(_) => "bool",
        Value::Datetime(when) => type_of_datetime(when),
    }
}

fn type_of_datetime(when: Datetime) -> &'static str {
    match (when.date, when.time, when.offset) {
        (_, _, Some(_)) => "datetime",
        (Some(_), Some(_), None) => "datetime-local",
        (Some(_), None, None) => "date-local",
        _ => "time-local",
    }
}

/// Appends a value of one word that is no string.
fn push_word(out: &mut String, value: Value<'_>) -> Result<(), AllocError> {
    match value {
        Value::Integer(number) => write!(out, "{number}")?,
        Value::Float(number) => push_float(out, number)?,
        Value::Boolean(answer) => write!(out, "{answer}")?,
        Value::Datetime(when) => write!(out, "{when}")?,
        _ => {}
    }
    Ok(())
}

fn push_float(out: &mut String, number: f64) -> Result<(), AllocError> {
    if number.is_nan() {
        out.push_str("nan")?;
    } else if number.is_finite() {
        write!(out, "{number:?}")?;
    } else if number > 0.0 {
        out.push_str("inf")?;
    } else {
        out.push_str("-inf")?;
    }
    Ok(())
}

/// Appends a text in quotes, as JSON has it.
///
/// Errors: only when an allocation failed.
pub fn push_quoted(out: &mut String, text: &str) -> Result<(), AllocError> {
    out.push('"')?;
    for character in text.chars() {
        match character {
            '"' => out.push_str("\\\"")?,
            '\\' => out.push_str("\\\\")?,
            '\n' => out.push_str("\\n")?,
            '\u{0}'..='\u{1f}' | '\u{7f}' => write!(out, "\\u{:04x}", u32::from(character))?,
            character => out.push(character)?,
        }
    }
    out.push('"')?;
    Ok(())
}
