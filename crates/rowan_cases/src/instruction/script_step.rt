//! The steps of which scripts are made: moves, searches and replacements.

use crate::{operand, tree};
use anyhow::Result;
use rowan::script::Step;
use std::alloc::{AllocError, Global};

/// Reads a step. Nothing where the name is that of none.
pub fn parse(alloc: Global, name: &str, operands: &str) -> Result<Option<Step>> {
    Ok(Some(match (name, operands) {
        ("Parent", "") => Step::Parent,
        ("TreeTop", "") => Step::TreeTop,
        ("FirstChild", "") => Step::FirstChild,
        ("LastChild", "") => Step::LastChild,
        ("FirstChildOrToken", "") => Step::FirstChildOrToken,
        ("LastChildOrToken", "") => Step::LastChildOrToken,
        ("NextSibling", "") => Step::NextSibling,
        ("PrevSibling", "") => Step::PrevSibling,
        ("NextSiblingOrToken", "") => Step::NextSiblingOrToken,
        ("PrevSiblingOrToken", "") => Step::PrevSiblingOrToken,
        ("FirstToken", "") => Step::FirstToken,
        ("LastToken", "") => Step::LastToken,
        ("NextToken", "") => Step::NextToken,
        ("PrevToken", "") => Step::PrevToken,
        ("ReplaceNode", _) => Step::ReplaceNode(tree::node(alloc, operands)?),
        ("ReplaceToken", _) => Step::ReplaceToken(tree::token(alloc, operands)?),
        _ => return parse_search(name, operands),
    }))
}

/// Reads a search at an offset or at a range.
fn parse_search(name: &str, operands: &str) -> Result<Option<Step>> {
    Ok(Some(match name {
        "ChildAtRange" => Step::ChildAtRange(operand::range(operands)?),
        "Covering" => Step::Covering(operand::range(operands)?),
        "LeftTokenAt" => Step::LeftTokenAt(operand::offset(operands)?),
        "RightTokenAt" => Step::RightTokenAt(operand::offset(operands)?),
        _ => return Ok(None),
    }))
}

/// The same step once more.
pub fn copy_of(step: &Step) -> Result<Step, AllocError> {
    Ok(match step {
        Step::Parent => Step::Parent,
        Step::TreeTop => Step::TreeTop,
        Step::FirstChild => Step::FirstChild,
        Step::LastChild => Step::LastChild,
        Step::FirstChildOrToken => Step::FirstChildOrToken,
        Step::LastChildOrToken => Step::LastChildOrToken,
        Step::NextSibling => Step::NextSibling,
        Step::PrevSibling => Step::PrevSibling,
        Step::NextSiblingOrToken => Step::NextSiblingOrToken,
        Step::PrevSiblingOrToken => Step::PrevSiblingOrToken,
        Step::FirstToken => Step::FirstToken,
        Step::LastToken => Step::LastToken,
        Step::NextToken => Step::NextToken,
        Step::PrevToken => Step::PrevToken,
        Step::ChildAtRange(range) => Step::ChildAtRange(*range),
        Step::Covering(range) => Step::Covering(*range),
        Step::LeftTokenAt(offset) => Step::LeftTokenAt(*offset),
        Step::RightTokenAt(offset) => Step::RightTokenAt(*offset),
        Step::ReplaceNode(new) => Step::ReplaceNode(new.clone()?),
        Step::ReplaceToken(new) => Step::ReplaceToken(new.clone()?),
    })
}
