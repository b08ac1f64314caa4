//! Where new nodes go.
ghost use Rattle.std.specs.Prelude.{◌≡◌, [], IfOk};
ghost use Rattle.std.specs.List.{AllByRecursion};
ghost use Rattle.toml_edit_plan.specs.Splices.{Adds, nodes_put, others_put};

use crate::lines::{entry_splices, section_splices, table_splices};
use crate::lists::grown;
use crate::places::{Node, line_end_of};
use crate::splice::Splice;
use rowan::{Fault, GreenNode};
use std::alloc::Global;

/// Where new nodes go.
#[derive(Clone, Copy)]
pub enum Place<'tree> {
    /// Into an array or an inline table, before the element with a number, or behind the last one.
    Item(Node<'tree>, usize),
    /// Behind the last entry of a table, or of the document before its tables.
    Entry(Node<'tree>),
    /// Above a table.
    Above(Node<'tree>),
    /// Below a table.
    Below(Node<'tree>),
    /// At the end of the document, as tables. Tells whether new entries come before them there.
    End(bool),
}

/// New nodes at a place: values in arrays, entries in tables, and tables in documents.
///
/// Errors: `Memory` if an allocation failed.
pub fn added<'tree>(
    alloc: Global,
    root: Node<'tree>,
    place: Place<'tree>,
    pieces: Vec<GreenNode>,
) -> Result<Vec<Splice<'tree>>, Fault>
    ensures adds { IfOk result (λ splices. AllByRecursion Adds splices.items) }
    ensures put { IfOk result (λ splices. nodes_put splices.items ≡ pieces.items) }
    ensures beside { IfOk result (λ splices. others_put splices.items ≡ []) }
{
    let line_end = line_end_of(root);
    match place {
        Place::Item(list, at) => grown(alloc, list, at, pieces, line_end),
        Place::Entry(section) => entry_splices(alloc, root, section, pieces, line_end),
        Place::Above(section) => {
            table_splices(alloc, root, section.index(), pieces, line_end, false)
        }
        Place::Below(section) if section.next_sibling().is_some() => {
            let gap = section.index().saturating_add(1);
            table_splices(alloc, root, gap, pieces, line_end, true)
        }
        Place::Below(_) => section_splices(alloc, root, pieces, line_end, false),
        Place::End(is_behind) => section_splices(alloc, root, pieces, line_end, is_behind),
    }
}
