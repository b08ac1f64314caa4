//! Texts of nodes, and parts of them.
ghost use Rattle.std.specs.Prelude.{◌≡◌, ◌≤◌, ◌↔◌, length, IfOk, IsTrue};
ghost use Rattle.rowan.specs.Fits.{byte_limit};
ghost use Rattle.rowan.specs.Folds.{VisitsAll};
ghost use Rattle.rowan.specs.SyntaxText.{CanCut, chunks, part_of, slice_text};

use rowan::{Fault, SyntaxText, TextSize};

/// The part from one offset to another.
pub fn part(text: &SyntaxText, from: TextSize, to: TextSize) -> Result<SyntaxText, Fault>
    requires { CanCut text.now from to }
    ensures { IfOk result (λ part. part ≡ part_of text.now from to) }
{
    text.slice(from..to)
}

/// Whether a text is this one.
pub fn is_text(text: &SyntaxText, expected: &str) -> bool
    ensures { IsTrue result ↔ (slice_text text.now ≡ expected.now) }
{
    text.eq_str(expected)
}

/// The number of bytes of a short text.
pub fn size(text: &str) -> TextSize
    requires { length text.now ≤ byte_limit }
    ensures { result ≡ length text.now }
{
    TextSize::of(text)
}

/// Shows each chunk of a text to a closure.
pub fn visit<F: FnMut(&str)>(text: &SyntaxText, f: F)
    requires { F.IsAlwaysCallable f }
    ensures { (last : F) × VisitsAll F.FnMut f (chunks text.now) last }
{
    text.for_each_chunk(f)
}
