//! Printed forms: the debug tree and JSON.
ghost use Rattle.std.specs.Prelude.{◌≡◌, IfOk, string_bytes};
ghost use Rattle.rowan.specs.JsonText.{compact_text};
ghost use Rattle.rowan.specs.Printed.{raw_name, tree_json, IsDebugTree};
ghost use Rattle.rowan_examples.specs.Kinds.{kind_of, name_of};

use crate::kinds::Lists;
use rowan::{Fault, SyntaxNode};
use std::alloc::Global;

/// The lines of a tree.
pub fn lines(alloc: Global, node: &SyntaxNode<Lists>) -> Result<String, Fault>
    ensures { IfOk result (λ lines.
        IsDebugTree (raw_name name_of kind_of) node.now (string_bytes lines)) }
{
    node.debug_tree(alloc)
}

/// The JSON of a tree, on one line.
pub fn json(alloc: Global, node: &SyntaxNode<Lists>) -> Result<String, Fault>
    ensures { IfOk result (λ json.
        string_bytes json ≡ compact_text (tree_json (raw_name name_of kind_of) node.now)) }
{
    node.to_json_string(alloc)
}
