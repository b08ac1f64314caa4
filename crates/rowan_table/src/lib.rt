//! The table of a tree, over which its cursors go: an entry for each node and token. Nothing of it
//! reaches those who use cursors.
#![tactic(auto)]

pub mod table;
