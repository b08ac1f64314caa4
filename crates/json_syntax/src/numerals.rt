//! Numbers of JSON.
use crate::lexer::is_in_word;
use crate::scanning::Scan;

/// The number at the start of a text. All that could stand in a number or a word belongs to it, so
/// `1.2.3` is one number, with an error.
pub fn scan_number(text: &str) -> Scan<'_> {
    let mut scan = Scan::new(text);
    scan.eat(b'-');
    take_whole(&mut scan);
    if scan.eat(b'.') {
        take_digits(&mut scan, "expected a digit after `.`");
    }
    if scan.eat(b'e') || scan.eat(b'E') {
        if !scan.eat(b'+') {
            scan.eat(b'-');
        }
        take_digits(&mut scan, "expected a digit in the exponent");
    }
    take_others(&mut scan);
    scan
}

/// Takes the digits before the point.
fn take_whole(scan: &mut Scan<'_>) {
    let starts_with_zero = matches!(scan.next(), Some(b'0'));
    let count = take_digits(scan, "expected a digit after `-`");
    if starts_with_zero && count > 1 {
        scan.complain("expected no leading zero");
    }
}

/// Takes digits, and counts them. Where there is none, this is the message.
fn take_digits(scan: &mut Scan<'_>, message: &'static str) -> usize {
    let digits = scan.rest().iter().take_while(|byte| byte.is_ascii_digit());
    let count = digits.count();
    if count == 0 {
        scan.complain(message);
    }
    scan.take(count);
    count
}

/// Takes what stands at a number and has no place in it.
fn take_others(scan: &mut Scan<'_>) {
    let others = scan.rest().iter().take_while(|byte| is_in_word(byte));
    let count = others.count();
    if count > 0 {
        scan.complain("expected the end of the number");
    }
    scan.take(count);
}
