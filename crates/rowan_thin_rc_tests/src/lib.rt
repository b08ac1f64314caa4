//! A tree whose nodes are one block each: a type that holds itself through a `ThinRc`.
#![tactic(auto)]

mod loose;

ghost use Rattle.std.specs.Prelude.{◌≡◌, ◌≤◌, drop, IfOk, OnOk, OnErr, take};
ghost use Rattle.std.specs.Vec.{vec_len};
ghost use Rattle.rowan_thin_rc_tests.specs.View.{children_view};

pub use loose::Loose;
use rowan_thin_rc::{CountBox, HeaderSlice, ThinRc};
use std::alloc::{AllocError, AllocFailed, Global};
use std::marker::Model;
use std::mem::{ManuallyDrop, size_of};

#[derive(Clone, Copy)]
pub struct Head {
    pub kind: u16,
    pub text_len: u32,
}

#[cycle(tree)]
pub struct Node {
    data: ThinRc<Head, Child, Global>,
}

#[cycle(tree)]
#[derive(Drop)]
pub enum Child {
    Node(Node),
    Leaf(u32),
}

impl Model for Node {
    ghost use Rattle.std.specs.Prelude.{ℕ, List};
    ghost use Rattle.std.specs.Coded.{coded×, coded_ℕ, coded_list};

    ghost Value = { ℕ × List ℕ };

    ghost coded = { coded× coded_ℕ (coded_list coded_ℕ) };

    ghost use Rattle.rowan_thin_rc_tests.specs.View.{node_view};
    ghost use Rattle.rowan_thin_rc.specs.Shape.{IsHeaded};

    ghost view = { λ n. node_view n.data.value };

    ghost invariant = { λ n. IsHeaded 2 2 n.data };

    ghost size = { λ v. v.0 };

    ghost use Rattle.rowan_thin_rc_tests.specs.Falls.{falls};
    ghost use Rattle.std.proofs.Common.{arith};

    ghost size_decreases = { λ n h. Prim.grind (arith, falls n.data.value) };
}

impl Node {
    // A node with the loose children from `first` on. A refused call leaves them.
    pub fn from_last(
        alloc: Global,
        head: Head,
        loose: &mut Loose,
        first: usize,
    ) -> Result<Node, AllocError>
        requires { first ≤ vec_len loose.old.block.list }
        ensures ok { let children = loose.old.block.list.items in
            IfOk result (λ n. n ≡ children_view (drop first children)) }
        ensures left { OnOk result
            (loose.new.block.list.items ≡ take first loose.old.block.list.items) }
        ensures err { OnErr result (loose.new.block.list.items ≡ loose.old.block.list.items) }
    {
        Ok(Node {
            data: loose.split_off(alloc, head, first)?,
        })
    }

    pub fn head(&self) -> Head {
        self.data.value().head
    }

    pub fn children(&self) -> &[Child]
        ensures { children_view result.now ≡ self.now }
    {
        HeaderSlice::items(&self.data, 2, 2)
    }
}

impl Clone for Node {
    ghost is_clone = { λ node copy. copy ≡ node };

    fn clone(&self) -> Result<Node, AllocError> {
        match self.data.try_clone() {
            Some(data) => Ok(Node { data }),
            None => Err(AllocError),
        }
    }
}

// A loop over a list of what is still to be dropped, so that a deep tree does not run out of stack.
impl Drop for Node {
    #[cycle(drop)]
    fn drop(self) {
        let mut rest: Vec<ManuallyDrop<Node>> = Vec::new(self.data.value().alloc);
        self.drop_into(&mut rest);
        while let Some(node) = rest.pop() {
            ManuallyDrop::into_inner(node).drop_into(&mut rest);
        }
    }
}

impl Node {
    ghost use Rattle.std.specs.Prelude.{◌<◌, ◌+◌};
    ghost use Rattle.rowan_thin_rc_tests.specs.View.{kept_size};

    // Drops the node, except for the nodes among its children, which go to the end of the list. If
    // memory for the list is refused, they are dropped at once. Leaves are dropped where they lie,
    // so a node of leaves alone asks for no memory.
    #[cycle(drop)]
    fn drop_into(self, rest: &mut Vec<ManuallyDrop<Node>>)
        ensures { kept_size rest.new.items < kept_size rest.old.items + self.0 }
    {
        let Node { data } = self;
        let Some((_head, block)) = HeaderSlice::release(data, 2, 2) else {
            return;
        };
        let mut block = block;
        while block.list.len() > 0 {
            match block.list.take_last() {
                Child::Node(node) => match rest.push(unsafe { ManuallyDrop::new_unchecked(node) }) {
                    Ok(()) => {}
                    Err(refused) => {
                        let AllocFailed { value } = refused;
                        drop(ManuallyDrop::into_inner(value));
                    }
                },
                Child::Leaf(_) => {}
            }
        }
        block.free(2, 2);
    }
}

const _: () = prove!(size_of::<Node>() == 8);

const _: () = prove!(size_of::<Child>() == 16);

const _: () = prove!(size_of::<CountBox<HeaderSlice<Head, Child, Global>>>() == 16);

#[cfg(test)]
mod tests;
