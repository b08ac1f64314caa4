//! The newest token of each text of one byte, by its number in the cache.
ghost use Rattle.std.specs.Prelude.{◌≡◌, ◌<◌, [], ◌∷◌, IfSome};
ghost use Rattle.rowan_builder.specs.Bytes.{IsNumberOf, ComesFrom, ComesFromOrIs};
ghost use Rattle.rowan_green.specs.Link.{link_limit};

use rowan_green::link::Link;
use std::alloc::{AllocError, Global};

// How many values a byte has.
const BYTES: usize = 256;

// Of each byte, the number of the newest token that has it as its whole text. Most tokens of a
// source are marks and blanks of one byte: these are found without a hash, and their texts are not
// compared.
#[derive(Drop)]
pub(super) struct ByteTokens {
    // No places before the first such token comes.
    pub(super) newest: Vec<Link>,
}

impl ByteTokens {
    pub(super) fn new(alloc: Global) -> ByteTokens
        ensures { result.newest.items ≡ [] }
    {
        ByteTokens {
            newest: Vec::new(alloc),
        }
    }

    // The number for a text, if that is one byte and has one.
    pub(super) fn number(&self, text: &str) -> Option<u32>
        ensures { IfSome result (λ n. IsNumberOf self.now.newest.items text.now n) }
    {
        let Some(byte) = only_byte(text) else {
            return None;
        };
        let Some(newest) = self.newest.get(byte as usize) else {
            return None;
        };
        newest.number()
    }

    // Makes room for the number of a text. A refused call changes nothing.
    pub(super) fn reserve(&mut self, text: &str) -> Result<(), AllocError>
        ensures { ComesFrom self.old.newest.items self.new.newest.items }
    {
        if only_byte(text).is_some() && self.newest.is_empty() {
            self.newest.resize(BYTES, Link::none())?;
        }
        Ok(())
    }

    // Sets the number for a text, if that is one byte and there is room for it.
    pub(super) fn set(&mut self, text: &str, number: u32)
        requires { number < link_limit }
        ensures { ComesFromOrIs text.now number self.old.newest.items self.new.newest.items }
    {
        let Some(byte) = only_byte(text) else {
            return;
        };
        if let Some(newest) = self.newest.get_mut(byte as usize) {
            *newest = Link::to(number);
        }
    }
}

// The byte that is the whole text.
fn only_byte(text: &str) -> Option<u8>
    ensures { IfSome result (λ byte. text.now ≡ byte ∷ []) }
{
    let bytes = text.as_bytes();
    if bytes.len() != 1 {
        return None;
    }
    Some(bytes[0])
}
