//! A head and a list of items in one block on the heap, with several owners in one thread. It is
//! rowan's `ThinArc` with a count that is not atomic. An owner is one word wide.
//!
//! - `header_slice` is what a caller needs. A block is opened, filled, resized and closed with a
//!   head, or made of a head and the last items of a list. Its owners lend the items as a slice.
//!   The last owner gets the head and the items, takes the items out, and frees the block.
//! - `count` is a value behind a count of its owners, in a block that the caller made.
//! - `block` is memory from an allocator, cut into a counted value and the items behind it.
//!
//! The raw pointers are in `count` and `block`, whose functions have proofs by hand.
#![tactic(auto)]

pub mod block;
pub mod count;
pub mod header_slice;

pub use count::{CountBox, Counted};
pub use header_slice::{HeaderSlice, Open, ThinRc};
