//! Places by their hashes: the places whose hashes have one bucket are a chain, the newest first.
ghost use Rattle.std.specs.Prelude.{◌≡◌, ◌+◌, ◌<◌, List, ℕ, [], ◌++◌, ◌∷◌, length, map, replicate};
ghost use Rattle.std.specs.Prelude.{Option, None, Some, IfOk, OnOk, OnErr};
ghost use Rattle.std.specs.List.{slice_get};
ghost use Rattle.rowan_builder.specs.Chains.{bucket, hashes_of, older_of, IsNewest, IsOnChain};
ghost use Rattle.rowan_builder.specs.Chains.{AreLinked};
ghost use Rattle.rowan_green.specs.Link.{link_limit};

use rowan_green::link::Link;
use std::alloc::{AllocError, Global};
use std::marker::Model;

// The greatest number of places. Each has a number of 32 bits, of which the greatest stands for
// none.
const MAX_PLACES: usize = u32::MAX as usize;

// The number of buckets that the first place takes. It is doubled as the places grow, so it is a
// power of two.
const FIRST_BUCKETS: usize = 16;

// A place: its hash, and the newest of the older places in its bucket. A walk along a chain needs
// both of each, so they lie side by side.
#[derive(Clone, Copy)]
pub(crate) struct ChainLink {
    pub(crate) hash: u32,
    pub(crate) older: Link,
}

#[derive(Drop)]
pub(super) struct Chains {
    alloc: Global,
    places: Vec<ChainLink>,
    // The newest place of each bucket. There are no fewer buckets than places.
    newest: Vec<Link>,
}

impl Model for Chains {
    ghost use Rattle.std.specs.Prelude.{length};
    ghost use Rattle.rowan_builder.specs.Chains.{ChainsValue, coded_chains};

    ghost Value = { ChainsValue };

    ghost coded = { coded_chains };

    ghost use Rattle.rowan_builder.specs.Chains.{hashes_of, older_of, AreChains};

    ghost view = { λ c. record {
      hashes = hashes_of c.places.items;
      count = length c.newest.items;
    } };

    ghost invariant = { λ c.
        AreChains (hashes_of c.places.items) c.newest.items (older_of c.places.items) };
}

impl Chains {
    pub(super) fn new(alloc: Global) -> Chains
        ensures { result.hashes ≡ [] }
    {
        Chains {
            alloc,
            places: Vec::new(alloc),
            newest: Vec::new(alloc),
        }
    }

    // The newest place with this hash.
    pub(super) fn newest(&self, hash: u32) -> Option<u32>
        ensures { IsNewest self.now.hashes (length self.now.hashes) hash result }
    {
        if self.newest.is_empty() {
            return None;
        }
        let first = self.newest[bucket(hash, self.newest.len())];
        place_with(hash, self.places.as_slice(), first)
    }

    // The newest of the places that are older than this one and have its hash.
    pub(super) fn older(&self, place: u32) -> Option<u32>
        requires { place < length self.now.hashes }
        ensures { (hash : ℕ) → slice_get self.now.hashes place ≡ Some hash
            → IsNewest self.now.hashes place hash result }
    {
        let here = &self.places[place as usize];
        place_with(here.hash, self.places.as_slice(), here.older)
    }

    // Adds a place with this hash, and says which. A refused call leaves the places as they were.
    pub(super) fn push(&mut self, hash: u32) -> Result<u32, AllocError>
        ensures ok { OnOk result (self.new.hashes ≡ self.old.hashes ++ hash ∷ []) }
        ensures place { IfOk result (λ n. n ≡ length self.old.hashes) }
        ensures small { IfOk result (λ n. n < link_limit) }
        ensures unchanged { OnErr result (self.new.hashes ≡ self.old.hashes) }
    {
        let place = self.places.len();
        if place >= MAX_PLACES {
            return Err(AllocError);
        }
        self.make_room()?;
        add_place(&mut self.newest, &mut self.places, hash)?;
        Ok(place as u32)
    }

    // Sees that there is a bucket for one more place. Where there is none, makes more of them and
    // links all places anew.
    fn make_room(&mut self) -> Result<(), AllocError>
        requires { length self.old.hashes < link_limit }
        ensures hashes { self.new.hashes ≡ self.old.hashes }
        ensures room { OnOk result (length self.old.hashes < self.new.count) }
    {
        let old = self.places.as_slice();
        if old.len() < self.newest.len() {
            return Ok(());
        }
        let buckets = buckets_for(old.len());
        let mut newest = no_places(self.alloc, buckets)?;
        let mut places = Vec::with_capacity(self.alloc, buckets)?;
        for place in old {
            add_place(&mut newest, &mut places, place.hash)?;
        }
        self.newest = newest;
        self.places = places;
        Ok(())
    }
}

// How many buckets there are for so many places and more: a power of two wherever the number of
// places is one.
fn buckets_for(places: usize) -> usize
    requires { places < link_limit }
    ensures { places < result }
{
    if places == 0 {
        return FIRST_BUCKETS;
    }
    places * 2
}

// Buckets that have no place.
fn no_places(alloc: Global, count: usize) -> Result<Vec<Link>, AllocError>
    ensures { IfOk result (λ v. v.items ≡ replicate count None) }
{
    let mut newest = Vec::with_capacity(alloc, count)?;
    newest.resize(count, Link::none())?;
    Ok(newest)
}

// Adds a place with this hash to its chain. A refused call changes neither list.
fn add_place(
    newest: &mut Vec<Link>,
    places: &mut Vec<ChainLink>,
    hash: u32,
) -> Result<(), AllocError>
    requires some { 0 < length newest.old.items }
    requires small { length places.old.items < link_limit }
    ensures ok { OnOk result
        (AreLinked (hashes_of places.old.items) newest.old.items (older_of places.old.items)
        → AreLinked (hashes_of places.new.items) newest.new.items (older_of places.new.items)) }
    ensures hashes { OnOk result
        (hashes_of places.new.items ≡ hashes_of places.old.items ++ hash ∷ []) }
    ensures len { length newest.new.items ≡ length newest.old.items }
    ensures newest { OnErr result (newest.new.items ≡ newest.old.items) }
    ensures places { OnErr result (places.new.items ≡ places.old.items) }
{
    let number = places.len() as u32;
    let bucket = bucket(hash, newest.len());
    let older = newest[bucket];
    places.push(ChainLink { hash, older })?;
    newest[bucket] = Link::to(number);
    Ok(())
}

// The first place with this hash on the chain that goes on here.
fn place_with(hash: u32, places: &[ChainLink], next: Link) -> Option<u32>
    requires { IsOnChain (hashes_of places.now) (older_of places.now) next }
    ensures { (newest : List (Option ℕ)) (bound : ℕ)
        → AreLinked (hashes_of places.now) newest (older_of places.now)
        → let count = length newest in
        IsNewest (map (bucket count) (hashes_of places.now)) bound (bucket count hash) next
        → IsNewest (hashes_of places.now) bound hash result }
{
    let mut next = next.number();
    while let Some(number) = next {
        let place = &places[number as usize];
        if place.hash == hash {
            return Some(number);
        }
        next = place.older.number();
    }
    None
}

fn bucket(hash: u32, count: usize) -> usize
    requires { 0 < count }
    ensures value { result ≡ bucket count hash }
    ensures within { result < count }
{
    hash as usize & (count - 1)
}
