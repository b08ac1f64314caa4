//! The edits of green nodes.

use crate::{operand, tree};
use anyhow::Result;
use rowan::{Fault, GreenElement, GreenNode};
use std::alloc::Global;

/// An edit of the children of a green node, which have their places from 0 on.
#[derive(Drop)]
pub enum Edit {
    Replace(u32, GreenElement),
    Insert(u32, GreenElement),
    Remove(u32),
    /// Puts elements in place of the children from the first place up to the second.
    Splice(u32, u32, Vec<GreenElement>),
}

impl Edit {
    /// Reads an edit. Nothing where the name is that of none.
    pub fn parse(alloc: Global, name: &str, operands: &str) -> Result<Option<Edit>> {
        Ok(Some(match name {
            "GreenReplaceChild" => {
                let (place, child) = place_and_child(alloc, operands)?;
                Edit::Replace(place, child)
            }
            "GreenInsertChild" => {
                let (place, child) = place_and_child(alloc, operands)?;
                Edit::Insert(place, child)
            }
            "GreenRemoveChild" => Edit::Remove(operand::number(operands)?),
            "GreenSplice" => splice(alloc, operands)?,
            _ => return Ok(None),
        }))
    }

    /// The node after the edit. `None` where it has no such places; only a replacement may name a
    /// place past its children, and then changes nothing.
    pub fn make(&self, node: &GreenNode) -> Result<Option<GreenNode>, Fault> {
        let count = node.children().len();
        let edited = match self {
            Edit::Replace(place, child) => {
                node.replace_child(*place as usize, child.as_ref().to_owned()?)?
            }
            Edit::Insert(place, child) => {
                if *place as usize > count {
                    return Ok(None);
                }
                node.insert_child(*place as usize, child.as_ref().to_owned()?)?
            }
            Edit::Remove(place) => {
                if *place as usize >= count {
                    return Ok(None);
                }
                node.remove_child(*place as usize)?
            }
            Edit::Splice(start, end, children) => {
                if start > end || *end as usize > count {
                    return Ok(None);
                }
                node.splice_children(*start as usize..*end as usize, children.clone()?)?
            }
        };
        Ok(Some(edited))
    }
}

fn place_and_child(alloc: Global, operands: &str) -> Result<(u32, GreenElement)> {
    let (place, child) = operand::pair(operands)?;
    Ok((operand::number(place)?, tree::element(alloc, child)?))
}

fn splice(alloc: Global, operands: &str) -> Result<Edit> {
    let (places, children) = operand::pair(operands)?;
    let (start, end) = operand::bounds(places)?;
    Ok(Edit::Splice(start, end, tree::list(alloc, children)?))
}
