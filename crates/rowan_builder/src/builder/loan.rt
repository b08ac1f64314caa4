//! Where a builder's cache comes from and where it goes: it is lent to the builder, or the builder
//! has its own.
ghost use Rattle.std.specs.Prelude.{◌≡◌};

use crate::node_cache::NodeCache;

/// What a builder leaves its cache to when it ends: the cache that was lent, or nothing.
pub trait CacheHome {
    ghost use Rattle.rowan_builder.specs.Cache.{CacheValue};

    /// What holds of the home after it received a cache.
    ghost receives: { Self → CacheValue → Type 0 };

    /// Takes the cache of a builder that ends.
    fn leave(&mut self, cache: NodeCache)
        ensures { receives self.new cache };
}

impl CacheHome for NodeCache {
    ghost receives = { λ home cache. home ≡ cache };

    fn leave(&mut self, cache: NodeCache) {
        *self = cache;
    }
}

/// The home of a cache that is the builder's own: nothing is left of it.
pub type OwnedCache = [NoHome; 0];

/// No value of this type is made. An array without elements of it stands anywhere, and so needs no
/// memory.
#[doc(hidden)]
#[derive(Drop)]
pub struct NoHome;

impl CacheHome for [NoHome; 0] {
    ghost receives = { λ home cache. Unit {0} };

    fn leave(&mut self, _cache: NodeCache) {}
}

/// What has a cache by value. `GreenNodeBuilder` takes it as a type parameter with one instance,
/// since only so a contract can say what its drop leaves.
#[doc(hidden)]
pub trait HoldsCache: Drop {
    ghost use Rattle.rowan_builder.specs.Cache.{CacheValue};

    /// The cache that the value has.
    ghost content: { Self → CacheValue };

    fn give_back(self) -> NodeCache
        ensures { result ≡ content self };
}
