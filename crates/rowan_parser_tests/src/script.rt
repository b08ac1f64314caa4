//! Tests of scripts: trees and errors of worked texts, and that no text is lost.

mod errors;
mod lines;
mod losses;
mod operators;
mod strings;
mod trees;
