//! A head and a list of items in one block, and the calls that make, read and take apart a block.
//!
//! A call takes two sizes in words of eight bytes. `front` is what lies before the items: the count
//! of owners and a `HeaderSlice`. `item` is one item.
ghost use Rattle.std.specs.Prelude.{◌≡◌, ◌+◌, ◌*◌, ◌-◌, ◌^◌, ◌<◌, ◌≤◌, [], length, take, drop};
ghost use Rattle.std.specs.Prelude.{IfOk, IfErr, IfSome, OnErr, OnOk};
ghost use Rattle.std.specs.Vec.{vec_len, vec_capacity, vec_ptr};
ghost use base.Stored.{Gv};
ghost use denote.RawPtr.{◌+ₚ◌};
ghost use Rattle.rowan_thin_rc.specs.Ownership.{front_size};
ghost use Rattle.rowan_thin_rc.specs.Shape.{Fits, IsHeaded, IsOpen, IsInPlace, HasRoomFor};
ghost use Rattle.rowan_thin_rc.specs.Shape.{head_of, items_of, room_of};
ghost use Rattle.rowan_thin_rc.specs.contracts.header_slice.HeaderSlice.{the_row as slice_row};

use crate::block::{Chunk, Right, Tail, house, join, split, vacate};
use crate::count::{Counted, Room};
use std::alloc::{AllocError, Allocator};
use std::mem::swap;
use std_alloc::vec::Lodged;

/// What stands before the items: their number, and the head. `right` and `tail` take no memory, nor
/// does `alloc` if it is `Global`.
pub struct HeaderSlice<H, T, A: Allocator> {
    pub len: u32,
    pub head: H,
    pub alloc: A,
    pub right: Right<A>,
    pub tail: Tail<T>,
}

/// An owner of a head and a list of items, one word wide. It has no `Drop`: give it up by
/// `HeaderSlice::release`.
pub type ThinRc<H, T, A> = Counted<HeaderSlice<H, T, A>>;

/// A block with no head: one that is being filled, or one that its last owner gave up. It has no
/// `Drop`: close it, or take the items out and free it.
pub struct Open<H, T, A: Allocator> {
    pub room: Room<HeaderSlice<H, T, A>>,
    /// The items, where they lie in the block.
    pub list: Vec<T, Lodged>,
    pub right: Right<A>,
    pub alloc: A,
}

// How many words a block has.
fn words(front: usize, item: usize, cap: usize) -> usize
    requires { (front < 2 ^ 16) × (item < 2 ^ 16) × (cap < 2 ^ 32) }
    ensures { (result ≡ front + cap * item) × (result < 2 ^ 60) }
{
    front + cap * item
}

// Moves the elements of `from`, from `first` on, to the empty list `to` as one run of memory.
fn fill<T>(to: &mut Vec<T, Lodged>, from: &mut Vec<T, Lodged>, first: usize)
    requires { (first ≤ vec_len from.old) × HasRoomFor (vec_len from.old - first) to.old
        × (to.old.items ≡ []) }
    ensures to { to.new.items ≡ drop first from.old.items }
    ensures from { from.new.items ≡ take first from.old.items }
    ensures from_in_place { IsInPlace from.old from.new }
    ensures in_place { IsInPlace to.old to.new }
{
    if from.len() > first {
        to.append_tail(from, first);
    }
}

// Memory for the front and `cap` items, or for one item if `cap` is 0.
fn take<F, T, A: Allocator>(
    alloc: &A,
    cap: usize,
    front: usize,
    item: usize,
) -> Option<(Room<F>, Vec<T, Lodged>, Right<A>)>
    requires { Fits F.row T.row front item }
    ensures { IfSome result (λ r. (r.1.items ≡ []) × (vec_capacity r.1 ≡ room_of cap)
        × (vec_ptr r.1 ≡ r.0.ptr +ₚ front * 8) × (r.2.ptr ≡ r.0.ptr) × (r.2.front ≡ front)
        × (r.2.count ≡ front + room_of cap * item) × (r.2.alloc ≡ alloc.now)
        × (room_of cap < 2 ^ 32)) }
{
    if cap > 0xffff_ffff {
        return None;
    }
    let cap = cap.max(1);
    let count = words(front, item, cap);
    let chunk = Chunk::new(alloc, count)?;
    let (room, tail, right) = split::<F, T, A>(chunk, cap);
    let (room, at) = room.at();
    let list = house::<F, T>(tail, at, 0, cap);
    Some((room, list, right))
}

impl<H, T, A: Allocator> Open<H, T, A> {
    /// A block with room for `cap` items, or for one item if `cap` is 0. `None` if memory is
    /// refused, and if `cap` is above 4,294,967,295.
    pub fn with_capacity(alloc: A, cap: usize, front: usize, item: usize) -> Option<Open<H, T, A>>
        requires fits { Fits (slice_row H.row T.row A.row A.Allocator) T.row front item }
        ensures { IfSome result (λ b. IsOpen front item b × (b.list.items ≡ [])
            × (b.alloc ≡ alloc) × (vec_capacity b.list ≡ room_of cap)) }
    {
        let (room, list, right) = take::<HeaderSlice<H, T, A>, T, A>(&alloc, cap, front, item)?;
        Some(Open {
            room,
            list,
            right,
            alloc,
        })
    }

    /// The first owner of the block, with this head. The block has no room to spare.
    pub fn close(self, head: H, front: usize, item: usize) -> ThinRc<H, T, A>
        ghost label: { Gv }
        requires fits { Fits (slice_row H.row T.row A.row A.Allocator) T.row front item }
        requires parts { IsOpen front item self }
        requires exact { vec_capacity self.list ≡ room_of (vec_len self.list) }
        ensures { IsHeaded front item result × (head_of result ≡ head)
            × (items_of result ≡ self.list.items) × (result.label ≡ label) }
    {
        let Open {
            room,
            list,
            right,
            alloc,
        } = self;
        let len = list.len() as u32;
        let tail = vacate(list);
        Counted::from_room(
            room,
            HeaderSlice {
                len,
                head,
                alloc,
                right,
                tail,
            },
        )
    }

    /// Frees a block with no items in it.
    pub fn free(self, front: usize, item: usize)
        requires fits { Fits (slice_row H.row T.row A.row A.Allocator) T.row front item }
        requires parts { IsOpen front item self }
        requires empty { self.list.items ≡ [] }
    {
        let Open {
            room,
            list,
            right,
            alloc,
        } = self;
        let count = words(front, item, list.capacity());
        let tail = vacate(list);
        join::<HeaderSlice<H, T, A>, T, A>(room, tail, right, count).free(&alloc);
    }
}

impl<H, T, A: Allocator + Copy> Open<H, T, A> {
    /// Moves the items as one run of memory to a block with room for `cap` items, or for one item
    /// if `cap` is 0, and frees the block that they were in. It is refused when `with_capacity` is,
    /// and then nothing has changed.
    pub fn resize(&mut self, cap: usize, front: usize, item: usize) -> Result<(), AllocError>
        requires fits { Fits (slice_row H.row T.row A.row A.Allocator) T.row front item }
        requires parts { IsOpen front item self.old }
        requires room { vec_len self.old.list ≤ cap }
        ensures parts { IsOpen front item self.new }
        ensures items { self.new.list.items ≡ self.old.list.items }
        ensures ok { OnOk result (vec_capacity self.new.list ≡ room_of cap) }
        ensures err { OnErr result (self.new ≡ self.old) }
    {
        let Some(mut block) = Open::with_capacity(self.alloc, cap, front, item) else {
            return Err(AllocError);
        };
        if self.list.len() > 0 {
            block.list.append_tail(&mut self.list, 0);
        }
        swap(self, &mut block);
        block.free(front, item);
        Ok(())
    }
}

impl<H, T, A: Allocator> HeaderSlice<H, T, A> {
    /// The first owner of a block with the head and the elements of `items` from `first` on. They
    /// leave the list as one run of memory. The block has room for one item if there are none.
    ///
    /// It is refused if memory is refused, and for more than 4,294,967,295 items. The list is then
    /// as it was, and the head comes back.
    pub fn from_last(
        alloc: A,
        head: H,
        items: &mut Vec<T, Lodged>,
        first: usize,
        front: usize,
        item: usize,
    ) -> Result<ThinRc<H, T, A>, H>
        ghost label: { Gv }
        requires fits { Fits (slice_row H.row T.row A.row A.Allocator) T.row front item }
        requires first { first ≤ vec_len items.old }
        ensures ok { IfOk result (λ c. IsHeaded front item c × (head_of c ≡ head)
            × (items_of c ≡ drop first items.old.items) × (c.label ≡ label)) }
        ensures left { OnOk result (items.new.items ≡ take first items.old.items) }
        ensures in_place { IsInPlace items.old items.new }
        ensures err { OnErr result (items.new ≡ items.old) }
        ensures value_returned { IfErr result (λ h. h ≡ head) }
    {
        let n = items.len() - first;
        let Some(block) = Open::with_capacity(alloc, n, front, item) else {
            return Err(head);
        };
        let mut block = block;
        fill(&mut block.list, items, first);
        Ok(block.close(head, front, item))
    }

    /// The items, lent as long as the owner is.
    pub fn items(rc: &ThinRc<H, T, A>, front: usize, item: usize) -> &[T]
        requires fits { Fits (slice_row H.row T.row A.row A.Allocator) T.row front item }
        requires headed { IsHeaded front item rc.now }
        ensures { result.now ≡ items_of rc.now }
    {
        let value = rc.value();
        value.tail.items(rc.at(), value.len as usize)
    }

    /// Gives this owner up. The last owner gets the head, and the block with its items.
    pub fn release(rc: ThinRc<H, T, A>, front: usize, item: usize) -> Option<(H, Open<H, T, A>)>
        requires fits { Fits (slice_row H.row T.row A.row A.Allocator) T.row front item }
        requires headed { IsHeaded front item rc }
        ensures { IfSome result (λ p. (p.0 ≡ head_of rc) × IsOpen front item p.1
            × (p.1.list.items ≡ items_of rc)) }
    {
        let (value, room) = rc.release()?;
        let HeaderSlice {
            len,
            head,
            alloc,
            right,
            tail,
        } = value;
        let n = len as usize;
        let (room, at) = room.at();
        let list = house::<HeaderSlice<H, T, A>, T>(tail, at, n, n.max(1));
        Some((
            head,
            Open {
                room,
                list,
                right,
                alloc,
            },
        ))
    }
}
