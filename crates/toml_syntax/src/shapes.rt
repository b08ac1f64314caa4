//! What a value in one word is, by its shape. Whether it is right in it is told later.
use crate::kinds::Kind;
use crate::scanning::{blanks_len, key_len, line_end_len, string_at};

/// The length in bytes of the word with which a text begins: the one blank between a date and a
/// time is in it.
pub(crate) fn value_len(text: &str) -> usize {
    let len = part_len(text);
    if !is_date(text.get(..len).unwrap_or("")) {
        return len;
    }
    match text.get(len..) {
        Some(rest) if begins_time(rest.strip_prefix(' ').unwrap_or("")) => {
            let time = rest.strip_prefix(' ').unwrap_or("");
            len.saturating_add(1).saturating_add(part_len(time))
        }
        _ => len,
    }
}

fn part_len(text: &str) -> usize {
    text.bytes().take_while(is_in_value).count()
}

fn is_in_value(byte: &u8) -> bool {
    byte.is_ascii_alphanumeric() || matches!(byte, b'_' | b'-' | b'+' | b'.' | b':')
}

/// Whether these are four digits, two and two, between dashes.
fn is_date(word: &str) -> bool {
    word.len() == 10 && begins_date(word)
}

fn begins_date(word: &str) -> bool {
    has_shape(word, b"dddd-dd-dd")
}

/// Whether a text begins with two digits and a colon.
fn begins_time(text: &str) -> bool {
    has_shape(text, b"dd:")
}

/// Whether a text begins with what a shape has, where `d` is any digit.
fn has_shape(text: &str, shape: &[u8]) -> bool {
    let bytes = text.as_bytes();
    if bytes.len() < shape.len() {
        return false;
    }
    bytes.iter().zip(shape).all(|(byte, wanted)| match wanted {
        b'd' => byte.is_ascii_digit(),
        _ => byte == wanted,
    })
}

/// The kind of a word that stands as a value.
pub(crate) fn kind_of_word(word: &str) -> Kind {
    if begins_date(word) {
        return kind_of_date(word.get(10..).unwrap_or(""));
    }
    if begins_time(word) {
        return Kind::LocalTime;
    }
    match word {
        "true" | "false" => Kind::Boolean,
        _ => kind_of_number(word),
    }
}

/// The kind of what has this behind its date.
fn kind_of_date(time: &str) -> Kind {
    if time.is_empty() {
        Kind::LocalDate
    } else if time.contains(['Z', 'z', '+', '-']) {
        Kind::OffsetDateTime
    } else {
        Kind::LocalDateTime
    }
}

fn kind_of_number(word: &str) -> Kind {
    let digits = word.trim_start_matches(['+', '-']);
    if matches!(digits, "inf" | "nan") {
        return Kind::Float;
    }
    if !digits.as_bytes().first().is_some_and(u8::is_ascii_digit) {
        return Kind::Unknown;
    }
    let has_base = digits.starts_with("0x") || digits.starts_with("0o") || digits.starts_with("0b");
    if !has_base && digits.contains(['.', 'e', 'E']) {
        Kind::Float
    } else {
        Kind::Integer
    }
}

/// Whether a line can't go on in brackets, and begins as a header or an entry: a header with a bare
/// key that is no value, or a key and `=` where no entry may stand.
pub(crate) fn begins_section_or_entry(line: &str, may_be_entry: bool) -> bool {
    let line = line.get(blanks_len(line)..).unwrap_or("");
    match line.strip_prefix('[') {
        Some(inner) => is_header(inner.strip_prefix('[').unwrap_or(inner)),
        None => !may_be_entry && is_entry(line),
    }
}

/// Whether this is the rest of a header's line.
fn is_header(text: &str) -> bool {
    let first = text.get(blanks_len(text)..).unwrap_or("");
    let key = first.get(..key_len(first)).unwrap_or("");
    if key.is_empty() || kind_of_word(key) != Kind::Unknown {
        return false;
    }
    let Some(rest) = behind_key(text).and_then(behind_bracket) else {
        return false;
    };
    let rest = rest.strip_prefix(']').unwrap_or(rest);
    let rest = rest.get(blanks_len(rest)..).unwrap_or("");
    rest.is_empty() || rest.starts_with('#') || line_end_len(rest) > 0
}

fn behind_bracket(text: &str) -> Option<&str> {
    text.strip_prefix(']')
}

fn is_entry(line: &str) -> bool {
    behind_key(line).is_some_and(|rest| rest.starts_with('='))
}

/// What is behind the key with which a text begins, and behind the blanks there.
fn behind_key(text: &str) -> Option<&str> {
    let mut rest = text;
    for _part in 0..text.len() {
        rest = rest.get(blanks_len(rest)..)?;
        let len = match string_at(rest) {
            Some(string) => string.len,
            None => key_len(rest),
        };
        if len == 0 {
            return None;
        }
        rest = rest.get(len..)?;
        rest = rest.get(blanks_len(rest)..)?;
        match rest.strip_prefix('.') {
            Some(next) => rest = next,
            None => return Some(rest),
        }
    }
    None
}
