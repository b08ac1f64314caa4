//! Laws of terms and words: what green trees and the calls of their builder mean, wherever they
//! stand.
#![tactic(auto)]

pub mod laws;
