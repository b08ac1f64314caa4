ghost use Rattle.std.specs.Prelude.{◌≡◌, ◌≤◌, ◌↔◌, length, IfSome, IsSome, IsUtf8};

use std::marker::Model;
use std::str;

// The longest text that takes no memory of its own: most words, names and blanks of a source.
const SHORT_LEN: usize = 19;

// A text of a few bytes, which lie in the value itself. Its length takes one byte, so that a
// token's kind and text fit in 24.
#[derive(Drop)]
pub(super) struct ShortText {
    len: u8,
    bytes: [u8; SHORT_LEN],
}

impl Model for ShortText {
    ghost use Rattle.std.specs.Prelude.{◌≤◌, List, ℕ, take, IsUtf8};

    ghost Value = { List ℕ };

    ghost view = { λ t. take t.len t.bytes };

    ghost invariant = { λ t. (t.len ≤ 19) × ∥ IsUtf8 (take t.len t.bytes) ∥₁ };
}

impl ShortText {
    // The text, where it is short.
    pub(super) fn new(text: &str) -> Option<ShortText>
        ensures { IfSome result (λ t. t ≡ text.now) }
    {
        if text.len() > SHORT_LEN {
            return None;
        }
        let mut bytes = [0; SHORT_LEN];
        bytes[..text.len()].copy_from_slice(text.as_bytes());
        Some(ShortText {
            len: text.len() as u8,
            bytes,
        })
    }

    fn as_bytes(&self) -> &[u8]
        ensures text { result.now ≡ self.now }
        ensures utf8 { IsUtf8 result.now }
    {
        &self.bytes[..self.len as usize]
    }

    pub(super) fn as_str(&self) -> &str
        ensures { result.now ≡ self.now }
    {
        // The bytes are those of a text, which the check proves here.
        unsafe { str::from_utf8_unchecked(self.as_bytes()) }
    }
}
