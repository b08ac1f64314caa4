//! The iterators over cursors that keep the tree.
use crate::cursor::climb::Climb;
use crate::cursor::remainder::{Remainder, Walk};
use crate::cursor::row::Row;
use crate::cursor::traversal::Traversal;
use crate::cursor::{SyntaxElement, SyntaxNode};
use rowan_green::fault::Fault;
use rowan_green::utility_types::WalkEvent;
use rowan_table::table::Table;
use std::alloc::AllocError;
use std::fmt;
use std::marker::{Model, PhantomData};
use std::rc::Rc;

/// What a walk gives, one after the other. An item is refused as a move is, and then the iterator
/// ends.
#[derive(Drop)]
pub struct Iter<T, W: Walk<T>> {
    walk: Remainder<W>,
    item: PhantomData<T>,
}

/// The nodes from one on up to the root.
pub type Ancestors = Iter<SyntaxNode, Climb>;

/// The children of a node that are nodes, from the first on.
pub type SyntaxNodeChildren = Iter<SyntaxNode, Row>;

/// A node and its siblings in one direction that are nodes, from the node itself on.
pub type Siblings = SyntaxNodeChildren;

/// The children of a node, from the first on.
pub type SyntaxElementChildren = Iter<SyntaxElement, Row>;

/// A node or token and its siblings in one direction, from itself on.
pub type SiblingsWithTokens = SyntaxElementChildren;

/// A node and the nodes below it, in the order of the tree: each before those below it.
pub type Descendants = Iter<SyntaxNode, Traversal>;

/// A node and all that is below it, in the order of the tree: each element before what is below it.
pub type DescendantsWithTokens = Iter<SyntaxElement, Traversal>;

/// A walk through a node and the nodes below it: each is entered before the nodes below it, and
/// left after.
pub type Preorder = Iter<WalkEvent<SyntaxNode>, Traversal>;

/// A walk through a node and all that is below it: each element is entered before what is below it,
/// and left after; a token is entered and left at once.
pub type PreorderWithTokens = Iter<WalkEvent<SyntaxElement>, Traversal>;

impl<T, W: Walk<T>> Model for Iter<T, W> {
    ghost use Rattle.std.specs.Coded.{coded_list, coded_result};
    ghost use Rattle.rowan_table.specs.Yields.{Rest};
    ghost use Rattle.rowan_cursor.specs.YieldsCode.{coded_fault};

    ghost Value = { Rest T };

    ghost coded = { coded_result (coded_list T.code) coded_fault };

    ghost use Rattle.rowan_cursor.specs.Walks.{rest_of, IfWalk};

    ghost view = { λ i. rest_of W.items i.walk };

    ghost invariant = { λ i. IfWalk W.fits i.walk };
}

impl<T, W: Walk<T>> Iter<T, W> {
    ghost use Rattle.std.specs.Prelude.{◌≡◌, IfOk, IfErr};

    pub(super) fn new(table: &Rc<Table>, walk: W) -> Iter<T, W>
        requires { W.fits table.now.value walk }
        ensures ok { IfOk result (λ list. list ≡ W.items table.now.value walk) }
        ensures err { IfErr result (λ e. e ≡ Fault.Memory) }
    {
        Iter {
            walk: Remainder::new::<T>(table, walk),
            item: PhantomData,
        }
    }
}

impl Preorder {
    ghost use Rattle.std.specs.Prelude.{◌≡◌};
    ghost use Rattle.rowan_table.specs.Preorder.{skip_rest};

    /// Drops what is left before the next Leave of a node that was entered. So after an Enter that
    /// node's Leave comes next, and after a Leave that of the parent. Several calls before one
    /// `next` are one. Before the first `next` and at the end nothing is dropped.
    pub fn skip_subtree(&mut self)
        ensures { self.new ≡ skip_rest self.old }
    {
        self.walk.skip_subtree();
    }
}

impl PreorderWithTokens {
    ghost use Rattle.std.specs.Prelude.{◌≡◌};
    ghost use Rattle.rowan_table.specs.Preorder.{skip_rest};

    /// Drops what is left before the next Leave of an element that was entered. So after an Enter
    /// that element's Leave comes next, and after a Leave that of the parent. Several calls before
    /// one `next` are one. Before the first `next` and at the end nothing is dropped.
    pub fn skip_subtree(&mut self)
        ensures { self.new ≡ skip_rest self.old }
    {
        self.walk.skip_subtree();
    }
}

impl<T, W: Walk<T>> Iterator for Iter<T, W> {
    type Item = Result<T, Fault>;

    ghost use Rattle.std.specs.Iterator.{at_most};
    ghost use Rattle.rowan_table.specs.Yields.{YieldsOrRefuses, count_of};

    ghost next_gives = { λ s r t. YieldsOrRefuses s r t };

    ghost remaining = { λ s. at_most (count_of s) };

    fn next(&mut self) -> Option<Result<T, Fault>> {
        self.walk.next()
    }
}

impl<T, W: Walk<T>> Clone for Iter<T, W> {
    ghost use Rattle.std.specs.Prelude.{◌≡◌};

    ghost is_clone = { λ rest copy. copy ≡ rest };

    fn clone(&self) -> Result<Iter<T, W>, AllocError> {
        Ok(Iter {
            walk: self.walk.copy::<T>()?,
            item: PhantomData,
        })
    }
}

impl<T, W: Walk<T>> fmt::Debug for Iter<T, W> {
    fn fmt<F: fmt::Write>(&self, f: &mut fmt::Formatter<F>) -> fmt::Result {
        f.write_str(W::NAME)
    }
}
