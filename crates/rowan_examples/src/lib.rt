//! What a user of `rowan` writes: each module calls a part of it, and states contracts by the words
//! that `rowan` passes on. The crate lists `rowan` alone in `crates.txt`, so it shows that a user
//! needs no other crate. `README.md` has the modules in the order in which one learns.
#![tactic(auto)]

pub mod aliases;
pub mod borrowed;
pub mod builders;
pub mod cursors;
pub mod elements;
pub mod green_edits;
pub mod kinds;
pub mod laws;
pub mod pointers;
pub mod prints;
pub mod replacements;
pub mod scripts;
pub mod searches;
pub mod small_types;
pub mod supports;
pub mod texts;
pub mod walks;
pub mod wrappers;
