//! Splices of a tree, and the tree with all of them made.
ghost use Rattle.std.specs.Prelude.{IfOk, OnOk};
ghost use Rattle.std.specs.List.{AllByRecursion};
ghost use Rattle.rowan.specs.Refs.{node_place};
ghost use Rattle.rowan_edit.specs.TextEdits.{IsEdited};
ghost use Rattle.toml_edit_plan.specs.Splices.{edits_of, IsIn};

use crate::error::TomlEditError;
use crate::places::Node;
use rowan::GreenElement;
use rowan_edit::{Edited, SyntaxEditor};
use std::alloc::Global;

/// New elements in place of children of a node, which stand side by side. `start` and `end` are
/// indexes among all children of the node, the one at `end` not included.
#[derive(Drop)]
pub struct Splice<'tree> {
    pub parent: Node<'tree>,
    pub start: usize,
    pub end: usize,
    pub new: Vec<GreenElement>,
}

/// The tree of a root with splices made, in one pass.
///
/// Errors: `Refused` with `Conflict` where one takes away what another one takes away, too, or is
/// inside of that; `Failed` where a node would pass a limit or an allocation failed.
pub fn made(
    alloc: Global,
    root: Node<'_>,
    splices: Vec<Splice<'_>>,
) -> Result<Edited, TomlEditError>
    ensures edited { IfOk result
        (IsEdited (node_place root.entry).root (edits_of splices.entry.items)) }
    ensures tree { let root = (node_place root.entry).root in
        OnOk result (AllByRecursion (IsIn root) splices.entry.items) }
{
    let mut editor = SyntaxEditor::new(alloc, root)?;
    for splice in splices {
        let Splice {
            parent,
            start,
            end,
            new,
        } = splice;
        editor.splice(parent, start..end, new)?;
    }
    Ok(editor.finish()?)
}
