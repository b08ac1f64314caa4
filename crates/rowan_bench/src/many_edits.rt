//! 100,000 edits of one tree by an editor, which are added in different orders.
use crate::turns;
use anyhow::Result;
use rowan::{Fault, GreenElement, GreenNode, GreenToken, SyntaxKind, TextSize};
use rowan_edit::{GreenEditor, Refusal, TreeCursor};
use std::alloc::Global;
use std::time::Duration;

/// How many edits are added in one turn. Of them those are taken that are of different tokens.
const EDITS: usize = 100_000;

/// In a mixed order each edit comes so many further on than the one before, around the end of the text. It has no divisor
/// in common with the number of edits, so each comes once.
const STEP: usize = 38_197;

/// What is timed, in each of many turns.
#[derive(Clone, Copy, PartialEq, Eq)]
pub enum Operation {
    /// The edits are added in the order of the text.
    Forwards,
    /// They are added from the last to the first.
    Backwards,
    /// They are added in a mixed order.
    Mixed,
    /// They are added in a mixed order, and made.
    Finish,
}

impl Operation {
    /// The operation of that name.
    pub fn from_word(word: &str) -> Option<Operation> {
        match word {
            "forwards" => Some(Operation::Forwards),
            "backwards" => Some(Operation::Backwards),
            "mixed" => Some(Operation::Mixed),
            "finish" => Some(Operation::Finish),
            _ => None,
        }
    }

    /// Which edit is the n-th that is added.
    fn place(self, n: usize) -> usize {
        match self {
            Operation::Forwards => n,
            Operation::Backwards => (EDITS - 1).saturating_sub(n),
            _ => n.wrapping_mul(STEP) % EDITS,
        }
    }
}

/// A token that is replaced: the path of its node, and its index.
#[derive(Drop)]
struct Place {
    parent: Vec<usize>,
    index: usize,
}

/// The tokens with so many bytes of the text, which are spread over it.
fn places(alloc: Global, tree: &GreenNode) -> Result<Vec<Place>, Fault> {
    let step = (u32::from(tree.text_len()) as usize / EDITS).max(1);
    let mut places = Vec::with_capacity(alloc, EDITS)?;
    for offset in (0..u32::from(tree.text_len())).step_by(step).take(EDITS) {
        let mut cursor = TreeCursor::new(alloc, tree);
        if !cursor.goto_offset(TextSize::from(offset))? {
            continue;
        }
        let mut parent = cursor.path(alloc)?;
        if let Some(index) = parent.pop() {
            places.push(Place { parent, index })?;
        }
    }
    Ok(places)
}

/// What a turn needs, which is made before the time is taken.
#[derive(Drop)]
struct Turn {
    tree: GreenNode,
    places: Vec<Place>,
    mark: GreenToken,
    operation: Operation,
}

impl Turn {
    /// An editor to which the edits are added. Of two edits of one token the first is taken.
    fn editor(&self, alloc: Global) -> Result<GreenEditor, Fault> {
        let mut editor = GreenEditor::new(alloc, &self.tree)?;
        for n in 0..EDITS {
            let Some(place) = self.places.get(self.operation.place(n)) else {
                continue;
            };
            let new = vec![in alloc; GreenElement::from(self.mark.clone()?)]?;
            let end = place.index.saturating_add(1);
            match editor.splice(&place.parent, place.index..end, new) {
                Err(Refusal::Memory) => return Err(Fault::Memory),
                _ => (),
            }
        }
        Ok(editor)
    }
}

impl turns::Turn for Turn {
    fn take(&self, alloc: Global) -> Result<Option<GreenNode>, Fault> {
        let editor = self.editor(alloc)?;
        if self.operation == Operation::Finish {
            return Ok(Some(editor.finish()?.green));
        }
        Ok(None)
    }
}

/// Times an operation over a tree, and answers the time of all turns and how many marks the last tree has, if one was made.
pub fn time(
    rt: &HostRuntime,
    tree: &GreenNode,
    operation: Operation,
    turns: usize,
) -> Result<(Duration, usize)> {
    let alloc = rt.alloc();
    let turn = Turn {
        tree: tree.clone()?,
        places: places(alloc, tree)?,
        mark: GreenToken::new(alloc, SyntaxKind(0), "#")?,
        operation,
    };
    turns::time(rt, &turn, turns)
}
