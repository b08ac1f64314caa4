//! What `rowan_grammar` wrote of two languages, run on trees.

mod sample;
mod small;
