//! The builder of green trees, and the cache that stores equal tokens and equal small nodes once.
#![tactic(auto)]

pub mod builder;
pub mod laws;
pub mod node_cache;

pub use builder::{CacheHome, Checkpoint, GreenNodeBuilder, OwnedCache, Unfinished};
pub use node_cache::NodeCache;
