//! Lines and columns of a text, and errors printed with the lines where they stand.
#![tactic(auto)]

mod excerpt;
pub mod line_index;
mod pictures;
pub mod rendering;
pub mod syntax_error;

pub use line_index::{LineColumn, LineIndex};
pub use rendering::{Renderer, Severity, render, render_up_to};
pub use syntax_error::SyntaxError;
