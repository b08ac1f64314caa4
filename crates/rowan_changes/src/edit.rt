//! An edit as an editor keeps it.
ghost use Rattle.std.specs.Prelude.{◌≡◌, ◌≤◌, [], ◌∷◌, ◌++◌, IfOk, IfErr};
ghost use Rattle.rowan_green.specs.Fits.{byte_limit};
ghost use Rattle.rowan_green.specs.Term.{sum_of_lens};
ghost use Rattle.rowan_changes.specs.Edit.{lies_before};
ghost use Rattle.rowan_changes.specs.GreenEditor.{ArePairs};

use crate::changes::Change;
use rowan_green::fault::Fault;
use rowan_green::green::GreenElement;
use rowan_green::text::{TextRange, TextSize};
use std::alloc::Global;

/// The children of a node from one index to another, where they lie in the text of the root, and
/// the elements that take their place.
#[derive(Drop)]
pub struct Splice {
    pub parent: Vec<usize>,
    pub start: usize,
    pub end: usize,
    pub range: TextRange,
    pub new: Vec<GreenElement>,
}

/// The change of each edit. Only where the new elements' texts are past the limit together, its new
/// length is not theirs. Refused only for want of memory.
pub fn changes_of(alloc: Global, edits: &[Splice]) -> Result<Vec<Change>, Fault>
    ensures ok { IfOk result (λ changes. ArePairs edits.now changes.items) }
    ensures err { IfErr result (λ e. e ≡ Fault.Memory) }
{
    let mut changes = Vec::new(alloc);
    changes.reserve(edits.len())?;
    for edit in edits {
        changes.push(Change {
            range: edit.range,
            new_len: len_of(&edit.new),
        })?;
    }
    Ok(changes)
}

/// The length of the texts of elements, one after the other, or the greatest one where it is past
/// the limit.
pub fn len_of(elements: &[GreenElement]) -> TextSize
    ensures { sum_of_lens elements.now ≤ byte_limit → result ≡ sum_of_lens elements.now }
{
    let mut sum = TextSize::from(0);
    for element in elements {
        let Some(more) = sum.checked_add(element.text_len()) else {
            return TextSize::from(u32::MAX);
        };
        sum = more;
    }
    sum
}

/// Whether what ends at an index among the children of the node at a path lies before an index
/// among those of another.
pub fn lies_before(parent: &[usize], end: usize, other: &[usize], start: usize) -> bool
    ensures { result ≡ lies_before parent.now end (other.now ++ start ∷ []) }
{
    for (depth, place) in parent.iter().enumerate() {
        let Some(there) = other.get(depth) else {
            return *place < start;
        };
        if *place != *there {
            return *place < *there;
        }
    }
    match other.get(parent.len()) {
        Some(there) => end <= *there,
        None => end <= start,
    }
}
