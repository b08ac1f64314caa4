//! How a number and a string are read.

/// A token that is read from its start: how long it is so far, in bytes, and the first thing that
/// is wrong with it.
#[derive(Drop)]
pub struct Scan<'text> {
    bytes: &'text [u8],
    pub len: usize,
    pub message: Option<&'static str>,
}

impl<'text> Scan<'text> {
    pub fn new(text: &'text str) -> Scan<'text> {
        Scan {
            bytes: text.as_bytes(),
            len: 0,
            message: None,
        }
    }

    /// What stands behind the token so far.
    pub fn rest(&self) -> &'text [u8] {
        self.bytes.get(self.len..).unwrap_or(&[])
    }

    pub fn next(&self) -> Option<u8> {
        self.bytes.get(self.len).copied()
    }

    /// Takes so many bytes more.
    pub fn take(&mut self, count: usize) {
        self.len = self.len.saturating_add(count);
    }

    /// Takes this byte, where it is next.
    pub fn eat(&mut self, byte: u8) -> bool {
        let is_next = matches!(self.next(), Some(next) if next == byte);
        if is_next {
            self.take(1);
        }
        is_next
    }

    pub fn complain(&mut self, message: &'static str) {
        self.message = self.message.or(Some(message));
    }
}
