//! Nodes that are borrowed from their tree, and their moves.
mod equal;
mod search;
mod text;
mod walks;

ghost use Rattle.rowan_table.specs.TableView.{IsNodeIn};

use crate::cursor::climb::Climb;
use crate::cursor::row::Row;
use crate::cursor::{
    AncestorsRef, SiblingsRef, SiblingsWithTokensRef, SyntaxElementChildrenRef, SyntaxElementRef,
    SyntaxNode, SyntaxNodeChildrenRef, SyntaxTokenRef, element_ref,
};
use rowan_green::fault::Fault;
use rowan_green::green::{GreenNode, SyntaxKind};
use rowan_green::text::TextRange;
use rowan_green::utility_types::Direction;
use rowan_table::table::Table;
use std::rc::Rc;

/// A node that is borrowed from its tree: what [`SyntaxNode`] is, for as long as another cursor
/// keeps the tree. It is a number beside a reference. So it is copied at will, a move has a plain
/// answer, and no call asks for memory but those that answer something owned.
#[derive(Clone, Copy)]
pub struct SyntaxNodeRef<'tree> {
    table: &'tree Rc<Table>,
    number: usize,
    ghost stands: { IsNodeIn table.now.value number },
}

impl<'tree> SyntaxNodeRef<'tree> {
    ghost use Rattle.std.specs.Prelude.{◌≡◌, ◌^◌, ◌<◌, [], length, IfOk, IfErr, IfSome, Some};
    ghost use Rattle.std.specs.Option.{option_map};
    ghost use Rattle.rowan_green.specs.declared.utility_types.NodeOrToken.TheVariants.{Node};
    ghost use Rattle.rowan_table.specs.Cursor.{StandsAt, index, kind, text_range};
    ghost use Rattle.rowan_table.specs.TableView.{cursor_of, IsNodeIn};
    ghost use Rattle.rowan_table.specs.Moves.{tree_top, parent, first_child, last_child};
    ghost use Rattle.rowan_table.specs.Moves.{first_child_or_token, last_child_or_token};
    ghost use Rattle.rowan_table.specs.Moves.{child_or_token_at_index, next_sibling, prev_sibling};
    ghost use Rattle.rowan_table.specs.Moves.{next_sibling_or_token, prev_sibling_or_token};
    ghost use Rattle.rowan_table.specs.Moves.{first_token, last_token, children};
    ghost use Rattle.rowan_table.specs.Moves.{children_with_tokens, siblings};
    ghost use Rattle.rowan_table.specs.Moves.{siblings_with_tokens, ancestors};
    ghost use Rattle.rowan_cursor.specs.Kinds.{first_child_by_kind, next_sibling_by_kind};
    ghost use Rattle.rowan_cursor.specs.Kinds.{first_token_of_kind};
    ghost use Rattle.rowan_cursor.specs.Refs.{node_place, token_place, element_place};
    ghost use Rattle.rowan_cursor.specs.Refs.{rest_of_nodes, rest_of_elements, rest_of_ancestors};
    ghost use Rattle.rowan_table.specs.Replacement.{IsReplacement, KeepsTheRest, WhyNoReplacement};

    // The node with a number.
    pub(super) fn at(table: &'tree Rc<Table>, number: usize) -> SyntaxNodeRef<'tree>
        requires { IsNodeIn table.now.value number }
        ensures { node_place result ≡ cursor_of table.now.value number }
    {
        SyntaxNodeRef { table, number }
    }

    // The node with the number that a move found, if it found one.
    pub(super) fn found(
        table: &'tree Rc<Table>,
        number: Option<usize>,
    ) -> Option<SyntaxNodeRef<'tree>>
        requires { IfSome number (IsNodeIn table.now.value) }
        ensures { option_map node_place result ≡ option_map (cursor_of table.now.value) number }
    {
        match number {
            Some(number) => Some(SyntaxNodeRef::at(table, number)),
            None => None,
        }
    }

    /// The node as a cursor that keeps the tree. `Err(Fault::Memory)` where the count of the tree's
    /// owners is full.
    pub fn to_owned(&self) -> Result<SyntaxNode, Fault>
        ensures ok { IfOk result (λ n. n ≡ node_place self.now) }
        ensures err { IfErr result (λ e. e ≡ Fault.Memory) }
    {
        Ok(SyntaxNode::at(self.table, self.number)?)
    }

    /// The root of a new tree, which has the green node of this one. It visits each node and token
    /// below this one once. `Err(Fault::Memory)` for want of memory.
    pub fn clone_subtree(&self) -> Result<SyntaxNode, Fault>
        ensures ok { IfOk result (λ n. StandsAt (node_place self.now) n.root) }
        ensures top { IfOk result (λ n. n.path ≡ []) }
        ensures err { IfErr result (λ e. e ≡ Fault.Memory) }
    {
        SyntaxNode::new_root(self.table.allocator(), self.green().clone()?)
    }

    /// The root of a new tree: of the tree of this node, with another green node in its place. For
    /// each ancestor one new node is made, and all other children are shared. Nothing is changed in
    /// place: this tree and all its cursors answer as before. For a root it is the replacement
    /// itself.
    ///
    /// `Err(Fault::OtherKind)` where the replacement is of another kind, which is looked at before
    /// all else; `Err(Fault::TextTooLong)` where a node of the new tree would have more than
    /// 4,294,967,295 bytes of text; `Err(Fault::Memory)` for want of memory.
    pub fn replace_with(&self, replacement: GreenNode) -> Result<GreenNode, Fault>
        ensures ok { IfOk result (IsReplacement (node_place self.now) (Node replacement)) }
        ensures rest { IfOk result (KeepsTheRest (node_place self.now) (Node replacement)) }
        ensures own { StandsAt (node_place self.now) replacement
            → IfOk result (λ n. n ≡ (node_place self.now).root) }
        ensures err { IfErr result (WhyNoReplacement (node_place self.now) (Node replacement)) }
    {
        if replacement.kind() != self.kind() {
            return Err(Fault::OtherKind);
        }
        self.table.replace_node(self.number, replacement)
    }

    /// The kind of the node.
    pub fn kind(&self) -> SyntaxKind
        ensures { kind (node_place self.now) ≡ Some result.0 }
    {
        self.green().kind()
    }

    /// Where the node's text lies in the text of the root, in bytes.
    pub fn text_range(&self) -> TextRange
        ensures { result ≡ text_range (node_place self.now) }
    {
        self.table.text_range(self.number)
    }

    /// The place of the node among all children of its parent, tokens counted; 0 for a root.
    pub fn index(&self) -> usize
        ensures { result ≡ index (node_place self.now) }
    {
        self.table.index(self.number)
    }

    /// The green node at this place, lent for as long as the tree is.
    pub fn green(&self) -> &'tree GreenNode
        ensures { StandsAt (node_place self.now) result.now }
    {
        self.table.node(self.number)
    }

    /// The root of the tree.
    pub fn tree_top(&self) -> SyntaxNodeRef<'tree>
        ensures { node_place result ≡ tree_top (node_place self.now) }
    {
        SyntaxNodeRef::at(self.table, 0)
    }

    /// The parent, or `None` of a root.
    pub fn parent(&self) -> Option<SyntaxNodeRef<'tree>>
        ensures { option_map node_place result ≡ parent (node_place self.now) }
    {
        SyntaxNodeRef::found(self.table, self.table.parent(self.number))
    }

    /// The first child that is a node.
    pub fn first_child(&self) -> Option<SyntaxNodeRef<'tree>>
        ensures { option_map node_place result ≡ first_child (node_place self.now) }
    {
        SyntaxNodeRef::found(self.table, self.table.first_child(self.number))
    }

    /// The last child that is a node.
    pub fn last_child(&self) -> Option<SyntaxNodeRef<'tree>>
        ensures { option_map node_place result ≡ last_child (node_place self.now) }
    {
        SyntaxNodeRef::found(self.table, self.table.last_child(self.number))
    }

    /// The first child.
    pub fn first_child_or_token(&self) -> Option<SyntaxElementRef<'tree>>
        ensures { option_map element_place result ≡ first_child_or_token (node_place self.now) }
    {
        element_ref::found(self.table, self.table.first_child_or_token(self.number))
    }

    /// The last child.
    pub fn last_child_or_token(&self) -> Option<SyntaxElementRef<'tree>>
        ensures { option_map element_place result ≡ last_child_or_token (node_place self.now) }
    {
        element_ref::found(self.table, self.table.last_child_or_token(self.number))
    }

    /// The child at an index among all children, or `None` past the last one.
    pub fn child_or_token_at_index(&self, index: usize) -> Option<SyntaxElementRef<'tree>>
        ensures { option_map element_place result
            ≡ child_or_token_at_index (node_place self.now) index }
    {
        element_ref::found(self.table, self.table.child_at(self.number, index))
    }

    /// The next sibling that is a node.
    pub fn next_sibling(&self) -> Option<SyntaxNodeRef<'tree>>
        ensures { option_map node_place result ≡ next_sibling (node_place self.now) }
    {
        SyntaxNodeRef::found(self.table, self.table.next_sibling(self.number))
    }

    /// The nearest sibling before this one that is a node.
    pub fn prev_sibling(&self) -> Option<SyntaxNodeRef<'tree>>
        ensures { option_map node_place result ≡ prev_sibling (node_place self.now) }
    {
        SyntaxNodeRef::found(self.table, self.table.prev_sibling(self.number))
    }

    /// The next sibling.
    pub fn next_sibling_or_token(&self) -> Option<SyntaxElementRef<'tree>>
        ensures { option_map element_place result ≡ next_sibling_or_token (node_place self.now) }
    {
        element_ref::found(self.table, self.table.next_sibling_or_token(self.number))
    }

    /// The sibling before this one.
    pub fn prev_sibling_or_token(&self) -> Option<SyntaxElementRef<'tree>>
        ensures { option_map element_place result ≡ prev_sibling_or_token (node_place self.now) }
    {
        element_ref::found(self.table, self.table.prev_sibling_or_token(self.number))
    }

    /// The first token of all that are in this node, also an empty one.
    pub fn first_token(&self) -> Option<SyntaxTokenRef<'tree>>
        ensures { option_map token_place result ≡ first_token (node_place self.now) }
    {
        SyntaxTokenRef::found(self.table, self.table.first_token(self.number))
    }

    /// The last token of all that are in this node, also an empty one.
    pub fn last_token(&self) -> Option<SyntaxTokenRef<'tree>>
        ensures { option_map token_place result ≡ last_token (node_place self.now) }
    {
        SyntaxTokenRef::found(self.table, self.table.last_token(self.number))
    }

    /// The first child that is a node of a kind.
    pub fn first_child_by_kind(&self, kind: SyntaxKind) -> Option<SyntaxNodeRef<'tree>>
        ensures { option_map node_place result ≡ first_child_by_kind kind.0 (node_place self.now) }
    {
        self.children().next_by_kind(kind)
    }

    /// The next sibling that is a node of a kind.
    pub fn next_sibling_by_kind(&self, kind: SyntaxKind) -> Option<SyntaxNodeRef<'tree>>
        ensures { option_map node_place result ≡ next_sibling_by_kind kind.0 (node_place self.now) }
    {
        let behind = Row::following(self.table, self.number);
        SyntaxNodeChildrenRef::new(self.table, behind).next_by_kind(kind)
    }

    /// The first child that is a token of a kind.
    pub fn first_token_of_kind(&self, kind: SyntaxKind) -> Option<SyntaxTokenRef<'tree>>
        ensures { option_map token_place result ≡ first_token_of_kind kind.0 (node_place self.now) }
    {
        self.children_with_tokens().first_token_by_kind(kind)
    }

    /// The node and the nodes above it, up to the root.
    pub fn ancestors(&self) -> AncestorsRef<'tree>
        ensures { rest_of_ancestors result ≡ ancestors (node_place self.now) }
    {
        AncestorsRef::new(self.table, Climb::new(Some(self.number)))
    }

    /// The children that are nodes.
    pub fn children(&self) -> SyntaxNodeChildrenRef<'tree>
        ensures list { rest_of_nodes result ≡ children (node_place self.now) }
        ensures count { length (rest_of_nodes result) < 2 ^ 64 }
    {
        SyntaxNodeChildrenRef::new(self.table, Row::children(self.table, self.number))
    }

    /// The children.
    pub fn children_with_tokens(&self) -> SyntaxElementChildrenRef<'tree>
        ensures list { rest_of_elements result ≡ children_with_tokens (node_place self.now) }
        ensures count { length (rest_of_elements result) < 2 ^ 64 }
    {
        SyntaxElementChildrenRef::new(self.table, Row::children(self.table, self.number))
    }

    /// The node, and then its siblings in a direction that are nodes, nearest first. A root has
    /// none.
    pub fn siblings(&self, direction: Direction) -> SiblingsRef<'tree>
        ensures list { rest_of_nodes result ≡ siblings direction (node_place self.now) }
        ensures count { length (rest_of_nodes result) < 2 ^ 64 }
    {
        SiblingsRef::new(
            self.table,
            Row::siblings(self.table, self.number, direction),
        )
    }

    /// The node, and then its siblings in a direction, nearest first. A root has none.
    pub fn siblings_with_tokens(&self, direction: Direction) -> SiblingsWithTokensRef<'tree>
        ensures list { rest_of_elements result
            ≡ siblings_with_tokens direction (node_place self.now) }
        ensures count { length (rest_of_elements result) < 2 ^ 64 }
    {
        SiblingsWithTokensRef::new(
            self.table,
            Row::siblings(self.table, self.number, direction),
        )
    }
}
