//! What programs print whose requests for memory are refused in turn: for each call a line with its
//! answer, between lines that say which case it is in and what the case does. Nothing here asks for
//! memory, so what is refused is a request of the call.
#![tactic(auto)]

mod shape;
mod transcript;

pub use shape::Shape;
pub use transcript::{Part, Phase, Stop, Transcript, ask};
