//! Lists of builder calls and of steps through a tree, as values. `rowan` gives `script` on.
#![tactic(auto)]

pub mod script;
