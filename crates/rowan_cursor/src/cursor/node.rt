//! Nodes of a tree, as cursors, and their moves.
mod search;
mod text;

ghost use Rattle.std.specs.Prelude.{◌≡◌, [], IfOk, IfErr, IfSome, Some};
ghost use Rattle.std.specs.Option.{option_map};
ghost use Rattle.rowan_green.specs.declared.utility_types.NodeOrToken.TheVariants.{Node};
ghost use Rattle.rowan_table.specs.Cursor.{StandsAt, index, kind, text_range};
ghost use Rattle.rowan_table.specs.TableView.{cursor_of, IsNodeIn};
ghost use Rattle.rowan_table.specs.Moves.{tree_top, parent, first_child, last_child};
ghost use Rattle.rowan_table.specs.Moves.{first_child_or_token, last_child_or_token};
ghost use Rattle.rowan_table.specs.Moves.{child_or_token_at_index, next_sibling, prev_sibling};
ghost use Rattle.rowan_table.specs.Moves.{next_sibling_or_token, prev_sibling_or_token};
ghost use Rattle.rowan_table.specs.Moves.{first_token, last_token, children, children_with_tokens};
ghost use Rattle.rowan_table.specs.Moves.{siblings, siblings_with_tokens, ancestors};
ghost use Rattle.rowan_cursor.specs.Refs.{node_place};
ghost use Rattle.rowan_table.specs.Replacement.{IsReplacement, KeepsTheRest, WhyNoReplacement};

mod walks;

use crate::cursor::climb::Climb;
use crate::cursor::row::Row;
use crate::cursor::{
    Ancestors, Siblings, SiblingsWithTokens, SyntaxElement, SyntaxElementChildren,
    SyntaxNodeChildren, SyntaxNodeRef, SyntaxToken, element,
};
use rowan_green::fault::Fault;
use rowan_green::green::{GreenNode, SyntaxKind};
use rowan_green::text::TextRange;
use rowan_green::utility_types::Direction;
use rowan_table::table::Table;
use std::alloc::{AllocError, Global};
use std::fmt;
use std::hash::{Hash, Hasher};
use std::marker::Model;
use std::rc::Rc;

/// A node in a tree: a root, and the way from it to the node.
///
/// All cursors of one tree share it, and it lives as long as one of them. A move goes by a table of
/// the tree, which `new_root` fills, and asks for no memory. Two nodes are equal if they have equal
/// green nodes and their texts start at the same offset.
///
/// # Errors
///
/// A move answers `Err(Fault::Memory)` where the count of the tree's owners is full. An iterator
/// gives that `Err` as an item, and then it ends.
///
/// ```rust
/// // `green` is the node of `f(x)`: a token `f`, and a node with the tokens `(`, `x` and `)`
/// let call = SyntaxNode::new_root(alloc, green)?;
/// if let Some(arguments) = call.first_child()? {
///     assert_eq!(rt; arguments.index(), 1);
///     let range = TextRange::new(TextSize::from(1), TextSize::from(4));
///     assert_eq!(rt; arguments.text_range(), range);
///     assert_eq!(rt; arguments.parent()?, Some(call));
///     for element in arguments.children_with_tokens() {
///         let kind = element?.kind();
///     }
/// }
/// ```
#[derive(Drop)]
pub struct SyntaxNode {
    table: Rc<Table>,
    number: usize,
}

impl Model for SyntaxNode {
    ghost use Rattle.rowan_table.specs.Cursor.{Cursor};
    ghost use Rattle.rowan_cursor.specs.CursorCode.{coded_cursor};

    ghost Value = { Cursor };

    ghost coded = { coded_cursor };

    ghost use Rattle.rowan_table.specs.TableView.{cursor_of, IsNodeIn};

    ghost view = { λ n. cursor_of n.table.value n.number };

    ghost invariant = { λ n. IsNodeIn n.table.value n.number };
}

impl SyntaxNode {
    // The cursor at the node with a number.
    pub(super) fn at(table: &Rc<Table>, number: usize) -> Result<SyntaxNode, AllocError>
        requires { IsNodeIn table.now.value number }
        ensures { IfOk result (λ node. node ≡ cursor_of table.now.value number) }
    {
        let table = table.clone()?;
        Ok(SyntaxNode { table, number })
    }

    // The cursor at the node with the number that a move found, if it found one.
    pub(super) fn option_at(
        table: &Rc<Table>,
        number: Option<usize>,
    ) -> Result<Option<SyntaxNode>, AllocError>
        requires { IfSome number (IsNodeIn table.now.value) }
        ensures { IfOk result (λ found. found ≡ option_map (cursor_of table.now.value) number) }
    {
        match number {
            Some(number) => Ok(Some(SyntaxNode::at(table, number)?)),
            None => Ok(None),
        }
    }

    /// The cursor at the root of a green tree. It visits each node and token once.
    /// `Err(Fault::Memory)` for want of memory, and where the tree has more than 4,294,967,295
    /// nodes and tokens, whose table would take 100 GB.
    pub fn new_root(alloc: Global, green: GreenNode) -> Result<SyntaxNode, Fault>
        ensures ok { IfOk result (λ n. n ≡ record { root = green; path = [] }) }
        ensures err { IfErr result (λ e. e ≡ Fault.Memory) }
    {
        let table = Rc::new(alloc, Table::new(alloc, green)?)?;
        Ok(SyntaxNode { table, number: 0 })
    }

    /// The node, borrowed from its tree: its moves are refused for nothing.
    pub fn as_ref(&self) -> SyntaxNodeRef<'_>
        ensures { node_place result ≡ self.now }
    {
        SyntaxNodeRef::at(&self.table, self.number)
    }

    /// The root of a new tree, which has the green node of this one. It visits each node and token
    /// below this one once. `Err(Fault::Memory)` for want of memory.
    pub fn clone_subtree(&self) -> Result<SyntaxNode, Fault>
        ensures ok { IfOk result (λ n. StandsAt self.now n.root) }
        ensures top { IfOk result (λ n. n.path ≡ []) }
        ensures err { IfErr result (λ e. e ≡ Fault.Memory) }
    {
        self.as_ref().clone_subtree()
    }

    /// The root of a new tree: of the tree of this cursor, with another green node in place of the
    /// one at this cursor. For each ancestor one new node is made, and all other children are
    /// shared. Nothing is changed in place: this tree and all its cursors answer as before. For a
    /// root it is the replacement itself.
    ///
    /// `Err(Fault::OtherKind)` where the replacement is of another kind, which is looked at before
    /// all else; `Err(Fault::TextTooLong)` where a node of the new tree would have more than
    /// 4,294,967,295 bytes of text; `Err(Fault::Memory)` for want of memory.
    pub fn replace_with(&self, replacement: GreenNode) -> Result<GreenNode, Fault>
        ensures ok { IfOk result (IsReplacement self.now (Node replacement)) }
        ensures rest { IfOk result (KeepsTheRest self.now (Node replacement)) }
        ensures own { StandsAt self.now replacement → IfOk result (λ n. n ≡ self.now.root) }
        ensures err { IfErr result (WhyNoReplacement self.now (Node replacement)) }
    {
        self.as_ref().replace_with(replacement)
    }

    /// The kind of the node.
    pub fn kind(&self) -> SyntaxKind
        ensures { kind self.now ≡ Some result.0 }
    {
        self.green().kind()
    }

    /// Where the node's text lies in the text of the root, in bytes.
    pub fn text_range(&self) -> TextRange
        ensures { result ≡ text_range self.now }
    {
        self.table.text_range(self.number)
    }

    /// The place of the node among all children of its parent, tokens counted; 0 for a root.
    pub fn index(&self) -> usize
        ensures { result ≡ index self.now }
    {
        self.table.index(self.number)
    }

    /// The green node at this place.
    pub fn green(&self) -> &GreenNode
        ensures { StandsAt self.now result.now }
    {
        self.table.node(self.number)
    }

    /// The root of the tree.
    pub fn tree_top(&self) -> Result<SyntaxNode, Fault>
        ensures ok { IfOk result (λ n. n ≡ tree_top self.now) }
        ensures err { IfErr result (λ e. e ≡ Fault.Memory) }
    {
        Ok(SyntaxNode::at(&self.table, 0)?)
    }

    /// The parent, or `None` of a root.
    pub fn parent(&self) -> Result<Option<SyntaxNode>, Fault>
        ensures ok { IfOk result (λ found. found ≡ parent self.now) }
        ensures err { IfErr result (λ e. e ≡ Fault.Memory) }
    {
        Ok(SyntaxNode::option_at(&self.table, self.table.parent(self.number))?)
    }

    /// The first child that is a node.
    pub fn first_child(&self) -> Result<Option<SyntaxNode>, Fault>
        ensures ok { IfOk result (λ found. found ≡ first_child self.now) }
        ensures err { IfErr result (λ e. e ≡ Fault.Memory) }
    {
        Ok(SyntaxNode::option_at(&self.table, self.table.first_child(self.number))?)
    }

    /// The last child that is a node.
    pub fn last_child(&self) -> Result<Option<SyntaxNode>, Fault>
        ensures ok { IfOk result (λ found. found ≡ last_child self.now) }
        ensures err { IfErr result (λ e. e ≡ Fault.Memory) }
    {
        Ok(SyntaxNode::option_at(&self.table, self.table.last_child(self.number))?)
    }

    /// The first child.
    pub fn first_child_or_token(&self) -> Result<Option<SyntaxElement>, Fault>
        ensures ok { IfOk result (λ found. found ≡ first_child_or_token self.now) }
        ensures err { IfErr result (λ e. e ≡ Fault.Memory) }
    {
        Ok(element::option_at(&self.table, self.table.first_child_or_token(self.number))?)
    }

    /// The last child.
    pub fn last_child_or_token(&self) -> Result<Option<SyntaxElement>, Fault>
        ensures ok { IfOk result (λ found. found ≡ last_child_or_token self.now) }
        ensures err { IfErr result (λ e. e ≡ Fault.Memory) }
    {
        Ok(element::option_at(&self.table, self.table.last_child_or_token(self.number))?)
    }

    /// The child at an index among all children, or `None` past the last one.
    pub fn child_or_token_at_index(&self, index: usize) -> Result<Option<SyntaxElement>, Fault>
        ensures ok { IfOk result (λ found. found ≡ child_or_token_at_index self.now index) }
        ensures err { IfErr result (λ e. e ≡ Fault.Memory) }
    {
        Ok(element::option_at(&self.table, self.table.child_at(self.number, index))?)
    }

    /// The next sibling that is a node.
    pub fn next_sibling(&self) -> Result<Option<SyntaxNode>, Fault>
        ensures ok { IfOk result (λ found. found ≡ next_sibling self.now) }
        ensures err { IfErr result (λ e. e ≡ Fault.Memory) }
    {
        Ok(SyntaxNode::option_at(&self.table, self.table.next_sibling(self.number))?)
    }

    /// The nearest sibling before this one that is a node.
    pub fn prev_sibling(&self) -> Result<Option<SyntaxNode>, Fault>
        ensures ok { IfOk result (λ found. found ≡ prev_sibling self.now) }
        ensures err { IfErr result (λ e. e ≡ Fault.Memory) }
    {
        Ok(SyntaxNode::option_at(&self.table, self.table.prev_sibling(self.number))?)
    }

    /// The next sibling.
    pub fn next_sibling_or_token(&self) -> Result<Option<SyntaxElement>, Fault>
        ensures ok { IfOk result (λ found. found ≡ next_sibling_or_token self.now) }
        ensures err { IfErr result (λ e. e ≡ Fault.Memory) }
    {
        Ok(element::option_at(&self.table, self.table.next_sibling_or_token(self.number))?)
    }

    /// The sibling before this one.
    pub fn prev_sibling_or_token(&self) -> Result<Option<SyntaxElement>, Fault>
        ensures ok { IfOk result (λ found. found ≡ prev_sibling_or_token self.now) }
        ensures err { IfErr result (λ e. e ≡ Fault.Memory) }
    {
        Ok(element::option_at(&self.table, self.table.prev_sibling_or_token(self.number))?)
    }

    /// The first token of all that are in this node, also an empty one.
    pub fn first_token(&self) -> Result<Option<SyntaxToken>, Fault>
        ensures ok { IfOk result (λ found. found ≡ first_token self.now) }
        ensures err { IfErr result (λ e. e ≡ Fault.Memory) }
    {
        Ok(SyntaxToken::option_at(&self.table, self.table.first_token(self.number))?)
    }

    /// The last token of all that are in this node, also an empty one.
    pub fn last_token(&self) -> Result<Option<SyntaxToken>, Fault>
        ensures ok { IfOk result (λ found. found ≡ last_token self.now) }
        ensures err { IfErr result (λ e. e ≡ Fault.Memory) }
    {
        Ok(SyntaxToken::option_at(&self.table, self.table.last_token(self.number))?)
    }

    /// The node and the nodes above it, up to the root.
    pub fn ancestors(&self) -> Ancestors
        ensures ok { IfOk result (λ list. list ≡ ancestors self.now) }
        ensures err { IfErr result (λ e. e ≡ Fault.Memory) }
    {
        Ancestors::new(&self.table, Climb::new(Some(self.number)))
    }

    /// The children that are nodes.
    pub fn children(&self) -> SyntaxNodeChildren
        ensures ok { IfOk result (λ list. list ≡ children self.now) }
        ensures err { IfErr result (λ e. e ≡ Fault.Memory) }
    {
        SyntaxNodeChildren::new(&self.table, Row::children(&self.table, self.number))
    }

    /// The children.
    pub fn children_with_tokens(&self) -> SyntaxElementChildren
        ensures ok { IfOk result (λ list. list ≡ children_with_tokens self.now) }
        ensures err { IfErr result (λ e. e ≡ Fault.Memory) }
    {
        SyntaxElementChildren::new(&self.table, Row::children(&self.table, self.number))
    }

    /// The node, and then its siblings in a direction that are nodes, nearest first. A root has
    /// none.
    pub fn siblings(&self, direction: Direction) -> Siblings
        ensures ok { IfOk result (λ list. list ≡ siblings direction self.now) }
        ensures err { IfErr result (λ e. e ≡ Fault.Memory) }
    {
        Siblings::new(
            &self.table,
            Row::siblings(&self.table, self.number, direction),
        )
    }

    /// The node, and then its siblings in a direction, nearest first. A root has none.
    pub fn siblings_with_tokens(&self, direction: Direction) -> SiblingsWithTokens
        ensures ok { IfOk result (λ list. list ≡ siblings_with_tokens direction self.now) }
        ensures err { IfErr result (λ e. e ≡ Fault.Memory) }
    {
        SiblingsWithTokens::new(
            &self.table,
            Row::siblings(&self.table, self.number, direction),
        )
    }
}

impl Clone for SyntaxNode {
    ghost is_clone = { λ node copy. copy ≡ node };

    fn clone(&self) -> Result<SyntaxNode, AllocError> {
        let table = self.table.clone()?;
        Ok(SyntaxNode {
            table,
            number: self.number,
        })
    }
}

impl PartialEq for SyntaxNode {
    ghost use Rattle.std.specs.Cmp.{partial_equiv_from_equiv};
    ghost use Rattle.rowan_table.specs.Equal.{same_place, same_place-laws};

    ghost eq = { same_place };

    ghost laws = { partial_equiv_from_equiv same_place-laws };

    fn eq(&self, other: &SyntaxNode) -> bool {
        self.as_ref() == other.as_ref()
    }
}

impl Eq for SyntaxNode {
    ghost use Rattle.rowan_table.specs.Equal.{same_place-laws};

    ghost laws = { same_place-laws };
}

impl Hash for SyntaxNode {
    ghost use Rattle.rowan_table.specs.Equal.{fed_place, fed_place-same};

    ghost hash_input = { fed_place };

    ghost respects_eq = { fed_place-same };

    fn hash<H: Hasher>(&self, state: &mut H) {
        self.as_ref().hash(state);
    }
}

impl fmt::Display for SyntaxNode {
    ghost use Rattle.rowan_table.specs.Cursor.{text_at};

    ghost output = { λ n. Some (text_at n) };

    fn fmt<W: fmt::Write>(&self, f: &mut fmt::Formatter<W>) -> fmt::Result {
        self.green().fmt(f)
    }
}

impl fmt::Debug for SyntaxNode {
    fn fmt<W: fmt::Write>(&self, f: &mut fmt::Formatter<W>) -> fmt::Result {
        self.table.show_element(self.number, "SyntaxNode", f)
    }
}
