//! Pointers to nodes of an edited tree.
ghost use Rattle.std.specs.Prelude.{◌≡◌, ◌≢◌, true, false, [], IfOk, IfErr, OnOk};
ghost use Rattle.std.specs.Option.{option_map};
ghost use Rattle.rowan_table.specs.Moves.{cursor_at, element_below};
ghost use Rattle.rowan_api.specs.Refs.{node_place, element_place};
ghost use Rattle.rowan_changes.specs.Pointers.{IsPointerTo, IsPointerAfter, WhyNoPointer};

use crate::changes::Edited;
use crate::edit_error::EditError;
use crate::refusal::Refusal;
use rowan::ast::SyntaxNodePtr;
use rowan::{Language, SyntaxElementRef, SyntaxNodeRef};
use rowan_green::fault::Fault;
use rowan_green::green::GreenNode;
use rowan_green::utility_types::NodeOrToken;
use std::alloc::{AllocError, Global};

impl Edited {
    /// The pointer in the new tree to the node to which a pointer leads in the old one. `None`
    /// where it leads to none there, and where an edit took that node away or replaced it, or
    /// something around it.
    ///
    /// A node inside of which edits were made is still there, with its new range. What was put
    /// beside it is outside of it. What is answered leads to the node itself: so it is `None`, too,
    /// where a pointer of the node's kind and new range leads to another one, as where a list has
    /// one list in it, and nothing else is left in the outer one.
    ///
    /// `old` and `new` are nodes of the old tree and of the new one, any of each. The time is that
    /// of the ways down to the node in both trees, and of a binary search among the edits.
    ///
    /// Errors: `Refused(OtherTree)` if `old` or `new` is in another tree; `Failed(Memory)` if an
    /// allocation failed.
    pub fn moved_pointer<L: Language>(
        &self,
        alloc: Global,
        pointer: SyntaxNodePtr<L>,
        old: SyntaxNodeRef<'_, L>,
        new: SyntaxNodeRef<'_, L>,
    ) -> Result<Option<SyntaxNodePtr<L>>, EditError>
        ensures ok { IfOk result (IsPointerAfter L.meaning L.Kind.eq self.now pointer) }
        ensures old { OnOk result ((node_place old.entry).root ≡ self.now.sites.root) }
        ensures new { OnOk result ((node_place new.entry).root ≡ self.now.green) }
        ensures err { IfErr result
            (WhyNoPointer self.now (node_place old.entry).root (node_place new.entry).root) }
    {
        if !is_in_tree(old, self.sites.root()) {
            return Err(EditError::Refused(Refusal::OtherTree));
        }
        if !is_in_tree(new, &self.green) {
            return Err(EditError::Refused(Refusal::OtherTree));
        }
        let Some(node) = pointer.try_to_node_ref(old.tree_top()) else {
            return Ok(None);
        };
        let path = path_to(alloc, node)?;
        let Some(moved) = self.sites.moved_path(alloc, &path)? else {
            return Ok(None);
        };
        Ok(pointer_to(alloc, new.tree_top(), &moved)?)
    }
}

/// Whether the tree of a node has this root: they are shared, or equal.
fn is_in_tree<L>(node: SyntaxNodeRef<'_, L>, root: &GreenNode) -> bool
    ensures same { result ≡ true → (node_place node.entry).root ≡ root.now }
    ensures other { result ≡ false → (node_place node.entry).root ≢ root.now }
{
    *node.tree_top().green() == *root
}

/// A pointer that leads to the node at a path of a tree, if there is one. Refused only for want of
/// memory.
fn pointer_to<L: Language>(
    alloc: Global,
    root: SyntaxNodeRef<'_, L>,
    path: &[usize],
) -> Result<Option<SyntaxNodePtr<L>>, Fault>
    requires { (node_place root).path ≡ [] }
    ensures ok { IfOk result (IsPointerTo L.meaning L.Kind.eq
        (cursor_at (node_place root.entry).root path.now)) }
    ensures err { IfErr result (λ e. e ≡ Fault.Memory) }
{
    let Some(element) = element_below(root, path) else {
        return Ok(None);
    };
    let NodeOrToken::Node(node) = element else {
        return Ok(None);
    };
    let pointer = SyntaxNodePtr::from_ref(node);
    let Some(found) = pointer.try_to_node_ref(root) else {
        return Ok(None);
    };
    let to = path_to(alloc, found)?;
    if to.as_slice() != path {
        return Ok(None);
    }
    Ok(Some(pointer))
}

/// The element to which a path leads from a node.
fn element_below<'tree, L>(
    node: SyntaxNodeRef<'tree, L>,
    path: &[usize],
) -> Option<SyntaxElementRef<'tree, L>>
    ensures { option_map element_place result ≡ element_below (node_place node.entry) path.now }
{
    let mut element = NodeOrToken::Node(node);
    for place in path {
        let NodeOrToken::Node(parent) = element else {
            return None;
        };
        let Some(child) = parent.child_or_token_at_index(*place) else {
            return None;
        };
        element = child;
    }
    Some(element)
}

/// The path of a node: the indexes on the way down to it.
#[doc(hidden)]
pub fn path_to<L: Language>(
    alloc: Global,
    node: SyntaxNodeRef<'_, L>,
) -> Result<Vec<usize>, AllocError>
    ensures { IfOk result (λ path. path.items ≡ (node_place node.entry).path) }
{
    let mut path = Vec::new(alloc);
    let mut at = node;
    while let Some(parent) = at.parent() {
        path.push(at.index())?;
        at = parent;
    }
    path.reverse();
    Ok(path)
}
