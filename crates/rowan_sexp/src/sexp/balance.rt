//! Which texts are one list.
ghost use Rattle.std.specs.Prelude.{◌≡◌, ◌↔◌, ◌<◌, ◌+◌, ◌^◌, IsTrue, [], ◌∷◌};
ghost use Rattle.rowan_sexp.specs.Grammar.{count_of, IsBalanced};

/// Whether a text is that of one list: it begins with `(`, and the number of `(` less that of `)`
/// becomes 0 at its last byte and nowhere before. Takes no memory.
pub fn is_balanced(text: &str) -> bool
    ensures { IsTrue result ↔ IsBalanced text.now }
{
    let bytes = text.as_bytes();
    if bytes.first() != Some(&b'(') {
        return false;
    }
    let mut depth = 0;
    for (i, byte) in bytes.iter().enumerate() {
        depth = open_behind(depth, *byte);
        if depth == 0 {
            return i + 1 == bytes.len();
        }
    }
    false
}

/// How many lists are open behind one more byte.
fn open_behind(depth: usize, byte: u8) -> usize
    requires room { depth + 1 < 2 ^ 64 }
    requires some { byte ≡ 41 → 0 < depth }

    ensures { count_of 41 (byte ∷ []) + result ≡ depth + count_of 40 (byte ∷ []) }
{
    match byte {
        b'(' => depth + 1,
        b')' => depth - 1,
        _ => depth,
    }
}
