//! Keys, while they are read.
use crate::problem::ProblemKind;
use rowan_green::TextRange;

/// A part of a key, decoded.
#[derive(Drop)]
pub struct KeyPart {
    pub name: String,
    pub range: TextRange,
}

/// Where the value of an entry goes.
#[derive(Drop)]
pub struct Target {
    /// The place of the table.
    pub table: usize,
    pub last: KeyPart,
}

/// Where a step of a header or of a dotted key leads.
#[derive(Clone, Copy)]
pub enum Way {
    /// To the table at a place.
    Table(usize),
    /// Nowhere.
    Wrong(ProblemKind),
}
