//! Cursors: places in a green tree, which know their root and the way from it. Where a call answers
//! a `Result`, its `Err` is `Fault::Memory`.
#![tactic(auto)]

pub mod cursor;
pub mod laws;
pub mod syntax_text;
