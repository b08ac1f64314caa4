//! Tests of the editor, of the tree cursor and of rewritten tokens.
#![tactic(auto)]

#[cfg(test)]
mod arranging;
#[cfg(test)]
pub mod calling;
#[cfg(test)]
mod drawn;
#[cfg(test)]
mod drawn_arranging;
#[cfg(test)]
mod editor;
#[cfg(test)]
mod fixture;
#[cfg(test)]
mod formatting;
#[cfg(test)]
mod green_editor;
#[cfg(test)]
mod json;
#[cfg(test)]
mod limits;
#[cfg(test)]
mod make;
#[cfg(test)]
mod moved;
#[cfg(test)]
mod offsets;
#[cfg(test)]
mod places;
#[cfg(test)]
mod plain;
#[cfg(test)]
mod replacement;
#[cfg(test)]
mod rewriting;
#[cfg(test)]
mod syntax_editor;
#[cfg(test)]
mod walk;
