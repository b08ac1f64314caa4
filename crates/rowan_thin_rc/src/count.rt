//! A value on the heap with several owners in one thread, behind a count of 32 bits.
//!
//! It differs from the kit's `Rc` in two ways. It has no second count, for weak owners. And the
//! caller makes the block, so more may lie behind the value in the same block. The functions that
//! use raw pointers have proofs by hand, since the borrow checker does not follow raw pointers.
ghost use Rattle.std.specs.Prelude.{◌≡◌, ◌≢◌, ⊤, true, false, IfSome};
ghost use base.Stored.{Gv};
ghost use Rattle.rowan_thin_rc.specs.Counting.{room_owns, counted_owns, counted_shares, coded_label};

use std::alloc::AllocError;
use std::marker::Model;

/// The start of a block: the number of its owners, and the value.
pub struct CountBox<T> {
    count: u32,
    value: T,
}

/// The address of a block. It owns nothing.
pub struct At<T> {
    pub ptr: *const CountBox<T>,
}

impl<T> Clone for At<T> {
    ghost is_clone = { λ at copy. copy ≡ at };

    ghost is_infallible = { λ _. ⊤ };

    fn clone(&self) -> Result<At<T>, AllocError> {
        Ok(*self)
    }
}

impl<T> Copy for At<T> {}

/// Memory for a count and a value, with neither in it.
pub struct Room<T> {
    pub ptr: *mut CountBox<T>,
}

impl<T> Model for Room<T> {
    ghost also_owns = { λ r. room_owns T.row r.ptr };
}

/// An owner of a value, one word wide. The type has no `Drop`: an owner is given up by `release`,
/// which gives the last one the value and the room.
pub struct Counted<T> {
    pub ptr: *const CountBox<T>,
    pub ghost value: { T },
    /// A value that the maker of the first owner chooses. All owners of a block have the same.
    pub ghost label: { Gv } by { coded_label },
}

impl<T> Model for Counted<T> {
    ghost also_owns = { λ r. counted_owns T.row r.ptr r.value r.label };

    ghost also_shares = { λ r _ κ. counted_shares T.row r.ptr r.value r.label κ };
}

impl<T> Room<T> {
    /// The room, and its address.
    pub fn at(self) -> (Room<T>, At<T>)
        ensures { (result.0.ptr ≡ self.ptr) × (result.1.ptr ≡ self.ptr) }
    {
        let Room { ptr } = self;
        (Room { ptr }, At { ptr })
    }
}

impl<T> Counted<T> {
    /// The address of the block.
    pub fn at(&self) -> At<T>
        ensures { result.ptr ≡ self.now.ptr }
    {
        At { ptr: self.ptr }
    }

    /// The first owner, which writes the value into the room.
    pub fn from_room(room: Room<T>, value: T) -> Counted<T>
        ghost label: { Gv }
        ensures { (result.value ≡ value) × (result.ptr ≡ room.ptr) × (result.label ≡ label) }
    {
        let Room { ptr } = room;
        unsafe {
            ptr.write(CountBox { count: 1, value });
        }
        Counted { ptr }
    }

    /// The value, lent as long as the owner is.
    pub fn value(&self) -> &T
        ensures { result.now ≡ self.now.value }
    {
        unsafe { &(*self.ptr).value }
    }

    /// One more owner. `None` if there are 4,294,967,295 of them already.
    pub fn try_clone(&self) -> Option<Counted<T>>
        ensures { IfSome result (λ c. c ≡ self.now) }
    {
        let ptr = self.ptr.cast_mut();
        unsafe {
            let n = (*ptr).count;
            if n == u32::MAX {
                return None;
            }
            (*ptr).count = n + 1;
        }
        Some(Counted { ptr })
    }

    /// Whether both own one block. A count is never 0 while an owner lives. So a 0 is written
    /// through one owner, and where the other reads it, both have one count. The count is then
    /// restored.
    pub fn same_block(&self, other: &Counted<T>) -> bool
        ensures same { result ≡ true → (self.now.ptr ≡ other.now.ptr)
            × (self.now.label ≡ other.now.label) }
        ensures apart { result ≡ false → self.now.ptr ≢ other.now.ptr }
    {
        let here = self.ptr.cast_mut();
        let there = other.ptr;
        unsafe {
            let kept = (*here).count;
            (*here).count = 0;
            let seen = (*there).count;
            (*here).count = kept;
            seen == 0
        }
    }

    /// Gives this owner up. The last owner gets the value, and the room that the value had.
    pub fn release(self) -> Option<(T, Room<T>)>
        ensures { IfSome result (λ p. (p.0 ≡ self.value) × (p.1.ptr ≡ self.ptr)) }
    {
        let Counted { ptr } = self;
        let ptr = ptr.cast_mut();
        unsafe {
            let n = (*ptr).count;
            if n != 1 {
                (*ptr).count = n - 1;
                return None;
            }
            let value = (&raw const (*ptr).value).read();
            Some((value, Room { ptr }))
        }
    }
}
