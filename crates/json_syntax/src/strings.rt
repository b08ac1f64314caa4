//! Strings of JSON.
use crate::scanning::Scan;

const CONTROL: &str = "expected no control character in a string";

const ESCAPE: &str = "expected `\"`, `\\`, `/`, `b`, `f`, `n`, `r`, `t` or `u` after `\\`";

const DIGITS: &str = "expected four hexadecimal digits after `\\u`";

const HALF: &str = "expected both halves of a surrogate pair";

/// The string at the start of a text, with its quotes. `None` where its line ends before it does.
pub fn scan_string(text: &str, allows_lone_surrogates: bool) -> Option<Scan<'_>> {
    let mut scan = Scan::new(text);
    scan.take(1);
    for _ in 0..text.len() {
        take_plain(&mut scan);
        match scan.next()? {
            b'\r' | b'\n' => return None,
            b'"' => {
                scan.take(1);
                return Some(scan);
            }
            b'\\' => take_escape(&mut scan, allows_lone_surrogates),
            _ => {
                scan.complain(CONTROL);
                scan.take(1);
            }
        }
    }
    None
}

/// Takes bytes of characters that stand for themselves.
fn take_plain(scan: &mut Scan<'_>) {
    let plain = scan.rest().iter().take_while(|byte| is_plain(**byte));
    scan.take(plain.count());
}

fn is_plain(byte: u8) -> bool {
    byte >= b' ' && byte != b'"' && byte != b'\\'
}

/// Takes a backslash and what it escapes, which is no end of a line.
fn take_escape(scan: &mut Scan<'_>, allows_lone_surrogates: bool) {
    scan.take(1);
    match scan.next() {
        Some(b'"' | b'\\' | b'/' | b'b' | b'f' | b'n' | b'r' | b't') => scan.take(1),
        Some(b'u') => {
            scan.take(1);
            take_unit(scan, allows_lone_surrogates);
        }
        Some(b'\r' | b'\n') | None => {}
        Some(_) => {
            scan.complain(ESCAPE);
            scan.take(1);
        }
    }
}

/// Takes the digits behind `\u`, and the second half of a pair behind the first.
fn take_unit(scan: &mut Scan<'_>, allows_lone_surrogates: bool) {
    let Some(unit) = unit_in(scan.rest()) else {
        scan.complain(DIGITS);
        return;
    };
    scan.take(4);
    match unit {
        0xd800..=0xdbff if is_low_half(scan.rest()) => scan.take(6),
        0xd800..=0xdfff if !allows_lone_surrogates => scan.complain(HALF),
        _ => {}
    }
}

/// The value of four hexadecimal digits, where a text begins with them.
fn unit_in(text: &[u8]) -> Option<u32> {
    let mut unit: u32 = 0;
    for digit in text.get(..4)? {
        let digit = char::from(*digit).to_digit(16)?;
        unit = unit.wrapping_mul(16).wrapping_add(digit);
    }
    Some(unit)
}

/// Whether a text begins with the escape of the second half of a pair.
fn is_low_half(text: &[u8]) -> bool {
    match text {
        [b'\\', b'u', digits @ ..] => matches!(unit_in(digits), Some(0xdc00..=0xdfff)),
        _ => false,
    }
}
