//! Tests of the typed layer, of pointers, wrappers and scripts, of the s-expressions and of the
//! program that prints their trees.
#![tactic(auto)]

#[cfg(test)]
mod ast;
#[cfg(test)]
mod lang;
#[cfg(test)]
mod language;
#[cfg(test)]
mod lexer;
#[cfg(test)]
mod lines;
#[cfg(test)]
mod parser;
#[cfg(test)]
mod parts;
#[cfg(test)]
mod program;
#[cfg(test)]
pub mod scripts;
#[cfg(test)]
mod streams;
#[cfg(test)]
mod typed;
