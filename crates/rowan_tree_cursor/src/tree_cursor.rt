//! A cursor over a borrowed green tree, which keeps the nodes above itself in a stack of its own.
ghost use Rattle.std.specs.Prelude.{◌≡◌, [], length, take, true, IfOk, IfErr};
ghost use Rattle.std.specs.Prelude.{OnOk, OnErr, Some, ◌≤◌, ◌-◌};
ghost use Rattle.rowan_green.specs.declared.utility_types.NodeOrToken.TheVariants.{Node};
ghost use Rattle.rowan_green.specs.Fits.{FitsNode};
ghost use Rattle.rowan_green.specs.Lent.{pointee};
ghost use Rattle.rowan_terms.specs.Path.{begins};
ghost use Rattle.rowan_table.specs.Cursor.{index, kind, term_at, text_range};
ghost use Rattle.rowan_table.specs.Moves.{parent, first_child_or_token, last_child_or_token};
ghost use Rattle.rowan_table.specs.Moves.{next_sibling_or_token, prev_sibling_or_token};
ghost use Rattle.rowan_table.specs.Moves.{child_or_token_at_index, child_count, cursor_at};
ghost use Rattle.rowan_table.specs.Replacement.{with_replacement, KeepsTheRest};
ghost use Rattle.rowan_table.specs.Search.{Covers};
ghost use Rattle.rowan_tree_cursor.specs.TreeCursorMoves.{Goes, GoesTo, GoesToChild, GoesToCovering};
ghost use Rattle.rowan_tree_cursor.specs.TreeCursorMoves.{GoesToByte, WhyNotReplaced};

use rowan_green::fault::Fault;
use rowan_green::green::{GreenElement, GreenElementRef, GreenNode, SyntaxKind};
use rowan_green::steps::Steps;
use rowan_green::text::{TextRange, TextSize};
use rowan_green::utility_types::NodeOrToken;
use std::alloc::Global;
use std::marker::Model;

/// A node above a cursor: where its text starts in that of the root, and which of its children is
/// on the way down.
#[derive(Clone, Copy)]
pub(crate) struct Frame<'tree> {
    node: &'tree GreenNode,
    start: TextSize,
    index: usize,
}

/// A place in a green tree that is lent. A cursor costs one frame for each node above its place,
/// and no table of the tree: to make one takes no memory. Only a move down may ask for memory.
#[derive(Drop)]
pub struct TreeCursor<'tree> {
    root: &'tree GreenNode,
    above: Vec<Frame<'tree>>,
    element: GreenElementRef<'tree>,
    start: TextSize,
}

impl<'tree> Model for TreeCursor<'tree> {
    ghost use Rattle.rowan_table.specs.Cursor.{Cursor};
    ghost use Rattle.rowan_cursor.specs.CursorCode.{coded_cursor};

    ghost Value = { Cursor };

    ghost coded = { coded_cursor };

    ghost use Rattle.rowan_green.specs.Lent.{pointee};
    ghost use Rattle.rowan_tree_cursor.specs.TreeCursor.{path_of, IsPlaced};

    ghost view = { λ c. record { root = c.root.now; path = path_of c.above.items } };

    ghost invariant = { λ c. IsPlaced c.root.now c.above.items (pointee c.element) c.start };
}

impl<'tree> TreeCursor<'tree> {
    /// A cursor at the root.
    pub fn new(alloc: Global, root: &'tree GreenNode) -> TreeCursor<'tree>
        ensures { result ≡ cursor_at root.now [] }
    {
        // A tree is within the limits, and with it each offset of the text.
        let _text_len = root.text_len();
        TreeCursor {
            root,
            above: Vec::new(alloc),
            element: NodeOrToken::Node(root),
            start: TextSize::from(0),
        }
    }

    /// The root of the tree.
    pub fn root(&self) -> &'tree GreenNode
        ensures { result.now ≡ self.now.root }
    {
        self.root
    }

    /// The node or token at which the cursor stands.
    pub fn element(&self) -> GreenElementRef<'tree>
        ensures { term_at self.now ≡ Some (pointee result) }
    {
        self.element
    }

    /// The kind of the element.
    pub fn kind(&self) -> SyntaxKind
        ensures { kind self.now ≡ Some result.0 }
    {
        self.element.kind()
    }

    /// Where the element's text lies in the text of the root, in bytes.
    pub fn text_range(&self) -> TextRange
        ensures { result ≡ text_range self.now }
    {
        TextRange::at(self.start, self.element.text_len())
    }

    /// How many nodes stand above the element: 0 for the root.
    pub fn depth(&self) -> usize
        ensures { result ≡ length self.now.path }
    {
        self.above.len()
    }

    /// The index of the element among all children of its parent, tokens counted; 0 for the root.
    pub fn index(&self) -> usize
        ensures { result ≡ index self.now }
    {
        let Some(frame) = self.above.last().copied() else {
            return 0;
        };
        frame.index
    }

    /// The way from the root to the element: of each child on it the index among all children of
    /// its parent. None for the root. Refused only for want of memory.
    pub fn path(&self, alloc: Global) -> Result<Vec<usize>, Fault>
        ensures ok { IfOk result (λ path. path.items ≡ self.now.path) }
        ensures err { IfErr result (λ e. e ≡ Fault.Memory) }
    {
        let mut path = Vec::with_capacity(alloc, self.above.len())?;
        for frame in &self.above {
            path.push(frame.index)?;
        }
        Ok(path)
    }

    /// Goes to the child at an index among all children. `false` of a token, and past the last
    /// child. Refused only for want of memory, and then the cursor stays.
    pub fn goto_child_at_index(&mut self, index: usize) -> Result<bool, Fault>
        ensures ok { IfOk result (λ moved.
            GoesTo (child_or_token_at_index self.old index) self.old moved self.new) }
        ensures err { IfErr result (λ e. e ≡ Fault.Memory) }
        ensures unchanged { OnErr result (self.new ≡ self.old) }
    {
        let NodeOrToken::Node(node) = self.element else {
            return Ok(false);
        };
        let Some(found) = node.child_ref(index) else {
            return Ok(false);
        };
        let start = self.start;
        let child_start = TextRange::at(start, found.0).end();
        self.above.reserve(1)?;
        self.above.push_reserved(Frame { node, start, index });
        self.element = found.1;
        self.start = child_start;
        Ok(true)
    }

    /// Goes to the child at a range of the root's text, in bytes: the child that has all bytes of
    /// the range. An empty range is a place between bytes. The child there is the one with bytes
    /// on both sides of it, else the last one that ends there, else the first one, if it begins
    /// there. `false` where no child has the whole range. Refused only for want of memory, and
    /// then the cursor stays.
    pub fn goto_child_at_range(&mut self, range: TextRange) -> Result<bool, Fault>
        ensures ok { IfOk result (λ moved. GoesToChild range self.old moved self.new) }
        ensures err { IfErr result (λ e. e ≡ Fault.Memory) }
        ensures unchanged { OnErr result (self.new ≡ self.old) }
    {
        let NodeOrToken::Node(node) = self.element() else {
            return Ok(false);
        };
        let start = self.text_range().start();
        if range.start() < start {
            return Ok(false);
        }
        let mut steps = Steps::new();
        let Some(found) = node.child_at_range(range_from(range, start), &mut steps) else {
            return Ok(false);
        };
        self.goto_child_at_index(found.0)
    }

    /// Goes down to the element that covers a range of the root's text, in bytes: to the child at
    /// the range, to that one's child at the range, and so on, as long as there is one. The cursor
    /// stays where no child has the whole range. Refused only for want of memory, and then it
    /// stays, too.
    pub fn goto_covering_element(&mut self, range: TextRange) -> Result<(), Fault>
        ensures ok { OnOk result (GoesToCovering range self.old self.new) }
        ensures err { IfErr result (λ e. e ≡ Fault.Memory) }
        ensures unchanged { OnErr result (self.new ≡ self.old) }
    {
        let depth = self.depth();
        match self.descend(range) {
            Ok(()) => Ok(()),
            Err(refusal) => {
                self.climb_to(depth);
                Err(refusal)
            }
        }
    }

    // Goes down to the element that covers a range, as far as there is memory.
    fn descend(&mut self, range: TextRange) -> Result<(), Fault>
        ensures ok { OnOk result (Covers self.old.root range self.old.path self.new.path) }
        ensures err { IfErr result (λ e. e ≡ Fault.Memory) }
        ensures root { self.new.root ≡ self.old.root }
        ensures below { begins self.old.path self.new.path ≡ true }
    {
        while self.goto_child_at_range(range)? {}
        Ok(())
    }

    // Goes up as long as more nodes than these stand above.
    fn climb_to(&mut self, depth: usize)
        ensures root { self.new.root ≡ self.old.root }
        ensures path { self.new.path ≡ take depth self.old.path }
    {
        while self.depth() > depth {
            self.goto_parent();
        }
    }

    /// Goes down to the token with the byte at an offset of the root's text, if the element has
    /// that byte: it begins at the offset or before, and ends behind it. So between two tokens it
    /// is the one on the right, and tokens with no text are passed over. `false` where the offset
    /// is before the element's text, at its end or behind it, and then the cursor stays. Refused
    /// only for want of memory, and then it stays, too.
    pub fn goto_offset(&mut self, offset: TextSize) -> Result<bool, Fault>
        ensures ok { IfOk result (λ moved. GoesToByte offset self.old moved self.new) }
        ensures err { IfErr result (λ e. e ≡ Fault.Memory) }
        ensures unchanged { OnErr result (self.new ≡ self.old) }
    {
        let range = self.text_range();
        if range.end() <= offset {
            return Ok(false);
        }
        let byte = TextRange::at(offset, TextSize::from(1));
        if !range.contains_range(byte) {
            return Ok(false);
        }
        self.goto_covering_element(byte)?;
        Ok(true)
    }

    // How many children the element has: none if it is a token.
    fn child_count(&self) -> usize
        ensures { result ≡ child_count self.now.root self.now.path }
    {
        match self.element() {
            NodeOrToken::Node(node) => node.children().len(),
            NodeOrToken::Token(_) => 0,
        }
    }

    /// Goes to the first child. `false` where there is none. Refused only for want of memory, and
    /// then the cursor stays.
    pub fn goto_first_child(&mut self) -> Result<bool, Fault>
        ensures ok { IfOk result (λ moved.
            GoesTo (first_child_or_token self.old) self.old moved self.new) }
        ensures err { IfErr result (λ e. e ≡ Fault.Memory) }
        ensures unchanged { OnErr result (self.new ≡ self.old) }
    {
        self.goto_child_at_index(0)
    }

    /// Goes to the last child. `false` where there is none. Refused only for want of memory, and
    /// then the cursor stays.
    pub fn goto_last_child(&mut self) -> Result<bool, Fault>
        ensures ok { IfOk result (λ moved.
            GoesTo (last_child_or_token self.old) self.old moved self.new) }
        ensures err { IfErr result (λ e. e ≡ Fault.Memory) }
        ensures unchanged { OnErr result (self.new ≡ self.old) }
    {
        let last = self.child_count().saturating_sub(1);
        self.goto_child_at_index(last)
    }

    /// Goes to the next sibling. `false` of the last child, and of the root.
    pub fn goto_next_sibling(&mut self) -> bool
        ensures { GoesTo (next_sibling_or_token self.old) self.old result self.new }
    {
        let Some(frame) = self.above.last().copied() else {
            return false;
        };
        let index = frame.index + 1;
        let Some(found) = frame.node.child_ref(index) else {
            return false;
        };
        let last = self.above.len() - 1;
        self.above[last] = Frame { index, ..frame };
        self.element = found.1;
        self.start = TextRange::at(frame.start, found.0).end();
        true
    }

    /// Goes to the sibling before the element. `false` of the first child, and of the root.
    pub fn goto_previous_sibling(&mut self) -> bool
        ensures { GoesTo (prev_sibling_or_token self.old) self.old result self.new }
    {
        let Some(frame) = self.above.last().copied() else {
            return false;
        };
        if frame.index == 0 {
            return false;
        }
        let index = frame.index - 1;
        let Some(found) = frame.node.child_ref(index) else {
            return false;
        };
        let last = self.above.len() - 1;
        self.above[last] = Frame { index, ..frame };
        self.element = found.1;
        self.start = TextRange::at(frame.start, found.0).end();
        true
    }

    /// Goes to the parent. `false` of the root.
    pub fn goto_parent(&mut self) -> bool
        ensures { Goes (parent self.old) self.old result self.new }
    {
        let Some(frame) = self.above.pop() else {
            return false;
        };
        self.element = NodeOrToken::Node(frame.node);
        self.start = frame.start;
        true
    }

    /// The root of a new tree, with another element in place of the one at this cursor. One new
    /// node is made for each node above, and all other children are shared: this tree and the
    /// cursor stay as they are. The new element may be of another kind, and a token may take the
    /// place of a node or a node that of a token.
    ///
    /// `Err(Fault::TextTooLong)` where a node of the new tree would have more than 4,294,967,295
    /// bytes of text; `Err(Fault::NotANode)` where a token would take the place of the root;
    /// `Err(Fault::Memory)` for want of memory.
    pub fn replace(&self, replacement: GreenElement) -> Result<GreenNode, Fault>
        ensures root { IfOk result (λ n. Node n ≡ with_replacement self.now replacement) }
        ensures fits { IfOk result FitsNode }
        ensures rest { IfOk result (KeepsTheRest self.now replacement) }
        ensures own { term_at self.now ≡ Some replacement → IfOk result (λ n. n ≡ self.now.root) }
        ensures err { IfErr result (WhyNotReplaced self.now replacement) }
    {
        // A new element is within the limits.
        let _text_len = replacement.text_len();
        let mut depth = self.above.len();
        let mut element = replacement;
        while depth > 0 {
            depth -= 1;
            let frame = &self.above[depth];
            let node = frame.node.replace_child(frame.index, element)?;
            element = NodeOrToken::Node(node);
        }
        match element {
            NodeOrToken::Node(root) => Ok(root),
            NodeOrToken::Token(_) => Err(Fault::NotANode),
        }
    }
}

// The range, counted from an offset on.
fn range_from(range: TextRange, offset: TextSize) -> TextRange
    requires { offset ≤ range.start }
    ensures { result ≡ record { start = range.start - offset; end = range.end - offset } }
{
    let start = u32::from(range.start()) - u32::from(offset);
    let end = u32::from(range.end()) - u32::from(offset);
    TextRange::new(TextSize::from(start), TextSize::from(end))
}
