//! Pointers to nodes, which outlive their trees.
ghost use Rattle.std.specs.Prelude.{◌≡◌, ◌≤◌, IfOk, Some};
ghost use Rattle.std.specs.Option.{option_map};
ghost use Rattle.rowan.specs.Pointer.{Resolves, means_kind, pointer_to};
ghost use Rattle.rowan.specs.Refs.{node_place};
ghost use Rattle.rowan_examples.specs.Kinds.{kind_of, same_kind};

use crate::kinds::Lists;
use rowan::ast::SyntaxNodePtr;
use rowan::{Fault, SyntaxNode, SyntaxNodeRef, TextRange, TextSize};

/// The pointer to a node.
pub fn pointer(node: &SyntaxNode<Lists>) -> SyntaxNodePtr<Lists>
    ensures { pointer_to kind_of node.now ≡ Some result }
{
    SyntaxNodePtr::new(node)
}

/// The node of a pointer in a tree.
pub fn find(
    pointer: SyntaxNodePtr<Lists>,
    root: &SyntaxNode<Lists>,
) -> Result<Option<SyntaxNode<Lists>>, Fault>
    ensures { let means = means_kind kind_of same_kind pointer.kind in
        IfOk result (Resolves means pointer.range root.now) }
{
    pointer.try_to_node(root)
}

/// The pointer once `len` bytes were put at a place of the text. What ends before it stays.
pub fn after_insert(
    pointer: SyntaxNodePtr<Lists>,
    place: TextSize,
    len: TextSize,
) -> Option<SyntaxNodePtr<Lists>>
    ensures { pointer.range.end ≤ place → result ≡ Some pointer }
{
    pointer.after_edit(TextRange::new(place, place), len)
}

/// The node of a pointer in a borrowed tree.
pub fn find_in<'tree>(
    pointer: SyntaxNodePtr<Lists>,
    root: SyntaxNodeRef<'tree, Lists>,
) -> Option<SyntaxNodeRef<'tree, Lists>>
    ensures { let means = means_kind kind_of same_kind pointer.kind in
        Resolves means pointer.range (node_place root.entry) (option_map node_place result) }
{
    pointer.try_to_node_ref(root)
}
