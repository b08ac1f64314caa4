//! Tests of green trees and of the cursors over them: what the worked cases of `rowan_cases` cannot
//! say.
#![tactic(auto)]

#[cfg(test)]
mod clones;
#[cfg(test)]
mod comparisons;
#[cfg(test)]
mod display;
#[cfg(test)]
mod elements;
#[cfg(test)]
mod example;
#[cfg(test)]
mod fixture;
#[cfg(test)]
mod green;
#[cfg(test)]
mod limits;
#[cfg(test)]
mod numbers;
#[cfg(test)]
mod refs;
#[cfg(test)]
mod replacements;
#[cfg(test)]
mod searches;
#[cfg(test)]
mod table;
#[cfg(test)]
mod texts;
#[cfg(test)]
mod twins;
#[cfg(test)]
mod walks;
