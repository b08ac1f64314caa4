//! The steps from a tree that are not made as scripts.
mod edit;
mod listing;
mod pointing;
mod question;
mod reparsing;
mod slice;
mod support;
mod walk;

use crate::operand;
use anyhow::Result;
pub use edit::Edit;
pub use listing::Listing;
pub use pointing::{Carrying, PointerStep};
pub use question::Question;
pub use reparsing::ListEdit;
use rowan::{TextRange, TextSize};
pub use slice::Slice;
use std::alloc::Global;
pub use support::Support;
pub use walk::{Event, Walk, WalkCall};

/// A step from the tree of a case.
#[derive(Drop)]
pub enum Step {
    GreenChildAt(TextRange),
    GreenEdit(Edit),
    /// Lets borrowed cursors start elsewhere from now on.
    Astray,
    /// Goes down by these indexes of children, tokens counted.
    ElementAt(Vec<usize>),
    CloneSubtree,
    Listing(Listing),
    /// Keeps the current cursor in this slot.
    Save(u32),
    /// Makes the cursor in this slot current.
    Load(u32),
    /// Compares the current cursor with the one in this slot.
    Same(u32),
    /// Asks for the tokens at an offset of the root's text.
    TokenAt(TextSize),
    Walk(Walk),
    /// Makes the text of the node current.
    Text,
    /// Makes a slice of the current text current.
    Slice(Slice),
    /// Asks the current text.
    Ask(Question),
    /// Keeps the current text in this slot.
    KeepText(u32),
    /// Compares the current text with the one in this slot.
    EqText(u32),
    Pointer(PointerStep),
    Support(Support),
    /// Asks for the number that the expression reads.
    Eval,
    /// Parses the current list anew.
    ReparseList(String),
    /// Asks for the printed tree.
    DebugTree,
    /// Asks for the line of the element.
    DebugLine,
    /// Asks for the JSON value of the element.
    Json,
}

impl Step {
    /// Reads a step. Nothing where the name is that of none.
    pub fn parse(alloc: Global, name: &str, operands: &str) -> Result<Option<Step>> {
        if let Some(edit) = Edit::parse(alloc, name, operands)? {
            return Ok(Some(Step::GreenEdit(edit)));
        }
        if let Some(listing) = Listing::parse(name, operands)? {
            return Ok(Some(Step::Listing(listing)));
        }
        if let Some(step) = of_text(alloc, name, operands)? {
            return Ok(Some(step));
        }
        if let Some(step) = PointerStep::parse(name, operands)? {
            return Ok(Some(Step::Pointer(step)));
        }
        if let Some(support) = Support::parse(name, operands)? {
            return Ok(Some(Step::Support(support)));
        }
        match (name, operands) {
            ("Astray", "") => Ok(Some(Step::Astray)),
            ("CloneSubtree", "") => Ok(Some(Step::CloneSubtree)),
            ("Eval", "") => Ok(Some(Step::Eval)),
            ("DebugTree", "") => Ok(Some(Step::DebugTree)),
            ("DebugLine", "") => Ok(Some(Step::DebugLine)),
            ("Json", "") => Ok(Some(Step::Json)),
            _ => with_operand(alloc, name, operands),
        }
    }
}

/// Reads a step with an operand. Nothing where the name is that of none.
fn with_operand(alloc: Global, name: &str, operands: &str) -> Result<Option<Step>> {
    match name {
        "GreenChildAt" => operand::range(operands).map(Step::GreenChildAt).map(Some),
        "ElementAt" => operand::path(alloc, operands)
            .map(Step::ElementAt)
            .map(Some),
        "Save" => operand::number(operands).map(Step::Save).map(Some),
        "Load" => operand::number(operands).map(Step::Load).map(Some),
        "Same" => operand::number(operands).map(Step::Same).map(Some),
        "TokenAt" => operand::offset(operands).map(Step::TokenAt).map(Some),
        "ReparseList" => operand::text(alloc, operands)
            .map(Step::ReparseList)
            .map(Some),
        _ => of_walk(alloc, name, operands),
    }
}

/// Reads a walk. Nothing where the name is that of none.
fn of_walk(alloc: Global, name: &str, operands: &str) -> Result<Option<Step>> {
    let walk = match name {
        "Walk" => Walk::Nodes(walk::calls(alloc, operands)?),
        "WalkWithTokens" => Walk::WithTokens(walk::calls(alloc, operands)?),
        _ => return Ok(None),
    };
    Ok(Some(Step::Walk(walk)))
}

/// Reads a step that acts on texts. Nothing where the name is that of none.
fn of_text(alloc: Global, name: &str, operands: &str) -> Result<Option<Step>> {
    if let Some(slice) = Slice::parse(name, operands)? {
        return Ok(Some(Step::Slice(slice)));
    }
    if let Some(question) = Question::parse(alloc, name, operands)? {
        return Ok(Some(Step::Ask(question)));
    }
    Ok(Some(match (name, operands) {
        ("Text", "") => Step::Text,
        ("KeepText", _) => Step::KeepText(operand::number(operands)?),
        ("EqText", _) => Step::EqText(operand::number(operands)?),
        _ => return Ok(None),
    }))
}
