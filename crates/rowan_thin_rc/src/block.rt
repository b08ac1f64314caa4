//! A block of words as the allocator sees it, and its two parts: room for a counted value, and room
//! for items behind it.
ghost use Rattle.std.specs.Prelude.{◌≡◌, ℕ, ◌+◌, ◌*◌, ◌^◌, ◌<◌, ◌≤◌, List, [], length, IfSome};
ghost use Rattle.std.specs.Vec.{vec_len, vec_capacity, vec_ptr};
ghost use denote.RawPtr.{Ptr, ◌+ₚ◌};
ghost use Rattle.rowan_thin_rc.specs.Ownership.{chunk_owns, right_owns, tail_owns, tail_shares};
ghost use Rattle.rowan_thin_rc.specs.Ownership.{Cut, front_size, front_words};

use crate::count::{At, CountBox, Room};
use std::alloc::Allocator;
use std::marker::{Model, PhantomData};
use std::slice::from_raw_parts;
use std_alloc::vec::{Lodged, lodge};

/// A block of `count` words of eight bytes, with nothing in them.
pub struct Chunk<A: Allocator> {
    pub ptr: *mut u8,
    pub count: usize,
    mark: PhantomData<A>,
    pub ghost alloc: { A },
}

impl<A: Allocator> Model for Chunk<A> {
    ghost also_owns = { λ c. chunk_owns (A.dealloc_token c.alloc) c.ptr c.count };
}

/// The right to free a block. It takes no memory.
pub struct Right<A: Allocator> {
    mark: PhantomData<A>,
    pub ghost alloc: { A },
    pub ghost ptr: { Ptr },
    pub ghost count: { ℕ },
    pub ghost front: { ℕ },
}

impl<A: Allocator> Model for Right<A> {
    ghost also_owns = { λ r. right_owns (A.dealloc_token r.alloc) r.ptr r.count r.front };
}

/// Items in a block that has room for `cap` of them. A `Tail` takes no memory. It is a field of the
/// counted value before the items, so an owner of that value owns the items too.
pub struct Tail<T> {
    mark: PhantomData<T>,
    pub ghost ptr: { Ptr },
    pub ghost cap: { ℕ },
    pub ghost items: { List T },
}

impl<T> Model for Tail<T> {
    ghost also_owns = { λ t. tail_owns T.row t.ptr t.cap t.items };

    ghost also_shares = { λ t _ κ. tail_shares T.row t.ptr t.cap t.items κ };
}

impl<A: Allocator> Chunk<A> {
    /// A block of `count` words. `None` if the allocator refuses it.
    pub fn new(alloc: &A, count: usize) -> Option<Chunk<A>>
        requires { count < 2 ^ 60 }
        ensures { IfSome result (λ c. (c.alloc ≡ alloc.now) × (c.count ≡ count)) }
    {
        match alloc.allocate(count * 8, 8) {
            Ok(ptr) => Some(Chunk {
                ptr,
                count,
                mark: PhantomData,
            }),
            Err(_) => None,
        }
    }

    /// Gives the block back to its allocator.
    pub fn free(self, alloc: &A)
        requires { (self.alloc ≡ alloc.now) × (self.count < 2 ^ 60) }
    {
        let Chunk {
            ptr,
            count,
            mark: _,
        } = self;
        unsafe { alloc.deallocate(ptr, count * 8, 8) }
    }
}

/// Cuts a block: its first words are for a counted value, and the others for `cap` items.
pub fn split<F, T, A: Allocator>(chunk: Chunk<A>, cap: usize) -> (Room<F>, Tail<T>, Right<A>)
    requires { Cut F.row T.row cap chunk.count }
    ensures { (result.0.ptr ≡ chunk.ptr) × (result.1.ptr ≡ chunk.ptr +ₚ front_size F.row)
        × (result.1.cap ≡ cap) × (result.1.items ≡ []) × (result.2.alloc ≡ chunk.alloc)
        × (result.2.ptr ≡ chunk.ptr) × (result.2.count ≡ chunk.count)
        × (result.2.front ≡ front_words F.row) }
{
    let Chunk {
        ptr,
        count: _,
        mark,
    } = chunk;
    let room = Room {
        ptr: ptr as *mut CountBox<F>,
    };
    (room, Tail { mark: PhantomData }, Right { mark })
}

/// Puts the parts of a block together again. There are no items in it.
pub fn join<F, T, A: Allocator>(
    room: Room<F>,
    tail: Tail<T>,
    right: Right<A>,
    count: usize,
) -> Chunk<A>
    requires { (tail.items ≡ []) × (tail.ptr ≡ room.ptr +ₚ front_size F.row)
        × (right.ptr ≡ room.ptr) × (right.count ≡ count) × (right.front ≡ front_words F.row)
        × Cut F.row T.row tail.cap count }
    ensures { (result.alloc ≡ right.alloc) × (result.count ≡ count) }
{
    let Room { ptr } = room;
    let Tail { mark: _ } = tail;
    let Right { mark } = right;
    Chunk {
        ptr: ptr as *mut u8,
        count,
        mark,
    }
}

/// A `Vec` over the items and the room behind them. It neither grows nor frees that room.
pub fn house<F, T>(tail: Tail<T>, base: At<F>, len: usize, cap: usize) -> Vec<T, Lodged>
    requires { (tail.ptr ≡ base.ptr +ₚ front_size F.row) × (length tail.items ≡ len)
        × (tail.cap ≡ cap) × (len ≤ cap) × (0 < cap) × (cap < 2 ^ 63)
        × (front_size F.row < 2 ^ 63) }
    ensures { (result.items ≡ tail.items) × (vec_len result ≡ len) × (vec_capacity result ≡ cap)
        × (vec_ptr result ≡ tail.ptr) }
{
    let Tail { mark: _ } = tail;
    let At { ptr } = base;
    unsafe { lodge(ptr.cast_mut().add(1) as *mut T, len, cap) }
}

/// The items of such a `Vec`, where they lie.
pub fn vacate<T>(vec: Vec<T, Lodged>) -> Tail<T>
    requires { 0 < vec_capacity vec }
    ensures { (result.ptr ≡ vec_ptr vec) × (result.cap ≡ vec_capacity vec)
        × (result.items ≡ vec.items) }
{
    let _len = vec.dislodge();
    Tail { mark: PhantomData }
}

impl<T> Tail<T> {
    /// The items as a slice, where `len` is their number.
    pub fn items<F>(&self, base: At<F>, len: usize) -> &[T]
        requires { (self.now.ptr ≡ base.ptr +ₚ front_size F.row) × (length self.now.items ≡ len)
            × (len ≤ self.now.cap) × (front_size F.row < 2 ^ 63) }
        ensures { result.now ≡ self.now.items }
    {
        let At { ptr } = base;
        unsafe { from_raw_parts(ptr.add(1) as *const T, len) }
    }
}
