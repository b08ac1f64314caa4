//! What is still to come of an iterator over cursors. A walk goes on by numbers alone, over a table
//! that is lent to it. An iterator adds a share of the table, and makes cursors of the numbers.
ghost use Rattle.std.specs.Prelude.{◌<◌, List, IfOk, IsErr, length};
ghost use Rattle.rowan_table.specs.declared.table.Table.{Table};
ghost use Rattle.rowan_table.specs.Yields.{TakesFirst};

use rowan_green::fault::Fault;
use rowan_table::table::Table;
use std::alloc::AllocError;
use std::mem;
use std::rc::Rc;

/// A walk over the entries of a table, as one kind of iterator shows it.
pub trait Walk<T>: Copy {
    /// What the iterator shows itself as.
    const NAME: &'static str;

    ghost fits: { Table → Self → Type 0 };

    ghost items: { Table → Self → List T };

    /// Goes on by one item. Refused where the table cannot be shared once more.
    fn step(&mut self, table: &Rc<Table>) -> Result<Option<T>, AllocError>
        requires { fits table.now.value self.old }
        ensures fits { fits table.now.value self.new }
        ensures next { IfOk result (λ item.
            TakesFirst (items table.now.value self.old) item (items table.now.value self.new)) }
        ensures refused { IsErr result → 0 < length (items table.now.value self.old) };
}

/// The state of an iterator.
#[derive(Drop)]
pub(super) enum Remainder<W> {
    // A walk over a table.
    Walk(Rc<Table>, W),
    // The refusal to share the table, once.
    Refusal,
    Nothing,
}

impl<W> Remainder<W> {
    ghost use Rattle.std.specs.Prelude.{◌≡◌, IfOk};
    ghost use Rattle.rowan_cursor.specs.Walks.{rest_of, IfWalk};
    ghost use Rattle.rowan_table.specs.Yields.{YieldsOrRefuses};

    /// A whole walk. Its refusal comes first where the table cannot be shared once more.
    pub(super) fn new<T>(table: &Rc<Table>, walk: W) -> Remainder<W>
    where
        W: Walk<T>,
        requires { W.fits table.now.value walk }
        ensures fits { IfWalk W.fits result }
        ensures items { IfOk (rest_of W.items result) (λ list.
            list ≡ W.items table.now.value walk) }
    {
        match table.clone() {
            Ok(table) => Remainder::Walk(table, walk),
            Err(_) => Remainder::Refusal,
        }
    }

    /// The next item. Behind a refusal nothing is left.
    pub(super) fn next<T>(&mut self) -> Option<Result<T, Fault>>
    where
        W: Walk<T>,
        requires { IfWalk W.fits self.old }
        ensures fits { IfWalk W.fits self.new }
        ensures yields { YieldsOrRefuses (rest_of W.items self.old) result
            (rest_of W.items self.new) }
    {
        match mem::replace(self, Remainder::Nothing) {
            Remainder::Walk(table, mut walk) => match walk.step(&table) {
                Ok(Some(item)) => {
                    *self = Remainder::Walk(table, walk);
                    Some(Ok(item))
                }
                Ok(None) => None,
                Err(_) => Some(Err(Fault::Memory)),
            },
            Remainder::Refusal => Some(Err(Fault::Memory)),
            Remainder::Nothing => None,
        }
    }

    /// An equal one, which goes on by itself. Refused where the table cannot be shared once more.
    pub(super) fn copy<T>(&self) -> Result<Remainder<W>, AllocError>
    where
        W: Walk<T>,
        requires { IfWalk W.fits self.now }
        ensures fits { IfOk result (IfWalk W.fits) }
        ensures items { IfOk result (λ copy. rest_of W.items copy ≡ rest_of W.items self.now) }
    {
        match self {
            Remainder::Walk(table, walk) => Ok(Remainder::Walk(table.clone()?, *walk)),
            Remainder::Refusal => Ok(Remainder::Refusal),
            Remainder::Nothing => Ok(Remainder::Nothing),
        }
    }
}
