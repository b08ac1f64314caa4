//! Children that have no node yet.
ghost use Rattle.std.specs.Prelude.{◌≡◌, ◌≤◌, [], ◌∷◌, ◌++◌, drop, take, IfOk, OnOk, OnErr};
ghost use Rattle.std.specs.Vec.{vec_len};
ghost use Rattle.rowan_thin_rc.specs.Shape.{IsOpen, head_of, items_of, IsHeaded};

use crate::{Child, Head};
use rowan_thin_rc::{HeaderSlice, Open, ThinRc};
use std::alloc::{AllocError, Global};

/// Children that have no node yet, in a block of their own.
pub struct Loose {
    block: Open<Head, Child, Global>,
    ghost shape: { IsOpen 2 2 block },
}

impl Drop for Loose {
    fn drop(self) {
        let Loose { mut block } = self;
        while block.list.len() > 0 {
            drop(block.list.take_last());
        }
        block.free(2, 2);
    }
}

impl Loose {
    /// None, and room for so many.
    pub fn with_capacity(alloc: Global, room: usize) -> Result<Loose, AllocError>
        ensures { IfOk result (λ l. l.block.list.items ≡ []) }
    {
        match Open::with_capacity(alloc, room, 2, 2) {
            Some(block) => Ok(Loose { block }),
            None => Err(AllocError),
        }
    }

    pub fn len(&self) -> usize
        ensures { result ≡ vec_len self.now.block.list }
    {
        self.block.list.len()
    }

    /// Adds a child, if there is room for it.
    pub fn push(&mut self, child: Child) -> Result<(), AllocError>
        ensures ok { OnOk result
            (self.new.block.list.items ≡ self.old.block.list.items ++ child ∷ []) }
        ensures err { OnErr result (self.new.block.list.items ≡ self.old.block.list.items) }
    {
        if self.block.list.len() == self.block.list.capacity() {
            return Err(AllocError);
        }
        self.block.list.push_reserved(child);
        Ok(())
    }

    // The block of a node with the children from `first` on. A refused call leaves them.
    pub(crate) fn split_off(
        &mut self,
        alloc: Global,
        head: Head,
        first: usize,
    ) -> Result<ThinRc<Head, Child, Global>, AllocError>
        requires { first ≤ vec_len self.old.block.list }
        ensures ok { IfOk result (λ c. IsHeaded 2 2 c × (head_of c ≡ head)
            × (items_of c ≡ drop first self.old.block.list.items)) }
        ensures left { OnOk result
            (self.new.block.list.items ≡ take first self.old.block.list.items) }
        ensures err { OnErr result (self.new.block.list.items ≡ self.old.block.list.items) }
    {
        match HeaderSlice::from_last(alloc, head, &mut self.block.list, first, 2, 2) {
            Ok(data) => Ok(data),
            Err(_head) => Err(AllocError),
        }
    }
}
