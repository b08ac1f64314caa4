//! Where the elements of an edited tree are, and its edits as edits of a text.
ghost use Rattle.std.specs.Prelude.{◌≡◌, ◌-◌, ◌≤◌, ◌++◌, List, Some, IfOk, IfErr, IfSome, IsNone};
ghost use Rattle.std.specs.Prelude.{OnOk, length, take, drop, slice_get};
ghost use Rattle.std.specs.Prelude.{string_bytes};
ghost use Rattle.rowan_green.specs.declared.utility_types.NodeOrToken.TheVariants.{Node};
ghost use Rattle.rowan_green.specs.Lent.{pointee};
ghost use Rattle.rowan_green.specs.Term.{node_children, joined_text, term_text};
ghost use Rattle.rowan_changes.specs.Edit.{Edit};
ghost use Rattle.rowan_changes.specs.Sites.{path_after, items_in, ArePutAt};
ghost use Rattle.rowan_changes.specs.TextEdits.{IsEdited, AreTextEdits};

use crate::changes::Edited;
use crate::edit_sites::{Placed, element_at};
use rowan_green::fault::Fault;
use rowan_green::green::{GreenElementRef, GreenNode};
use rowan_green::text::TextRange;
use rowan_green::utility_types::NodeOrToken;
use std::alloc::Global;
use std::fmt::Write;
use std::ops::Range;

/// An edit of a text, as an editor of text makes it: a range of the old text, in bytes, and the
/// text that comes in its place.
#[derive(PartialEq, Eq, Debug, Drop)]
pub struct TextEdit {
    /// The range of the old text. It is empty where text is put between two bytes.
    pub range: TextRange,
    /// The new text.
    pub text: String,
}

impl Edited {
    /// The path in the new tree of the element at a path of the old one. `None` where no element
    /// stands there, and where an edit took it away or replaced it, or something around it.
    ///
    /// An element inside of which edits were made is still there, and has them in it. What was put
    /// beside an element is outside of it. The time is that of a way down to the path, and of a
    /// binary search among the edits.
    ///
    /// Errors: `Memory` if an allocation failed.
    pub fn moved_path(&self, alloc: Global, path: &[usize]) -> Result<Option<Vec<usize>>, Fault>
        ensures ok { IfOk result (λ found. items_in found ≡ path_after self.now.sites path.now) }
        ensures err { IfErr result (λ e. e ≡ Fault.Memory) }
    {
        self.sites.moved_path(alloc, path)
    }

    /// Where the elements that an edit put in stand in the new tree. The edits are numbered from 0
    /// on in the order of their places, as the changes are; of several in one gap, the one that was
    /// added first comes first. `None` past the last edit.
    pub fn placed(&self, index: usize) -> Option<Placed<'_>>
        ensures some { IfSome result (λ p.
            ArePutAt self.now.sites.sites index p.parent.now p.children.start p.children.end) }
        ensures none { IsNone result → length self.now.sites.sites ≤ index }
    {
        self.sites.placed(index)
    }

    /// The edits as edits of the text, in the order of the text: each with its range in the old
    /// text and the text of its new elements. All ranges are those of the old text; so the edits
    /// are made from the last to the first, and give the new text.
    ///
    /// Errors: `Memory` if an allocation failed.
    pub fn text_edits(&self, alloc: Global) -> Result<Vec<TextEdit>, Fault>
        ensures ok { (es : List Edit) → IsEdited self.now.sites.root es self.now
            → IfOk result (λ edits. AreTextEdits (Node self.now.sites.root) es edits.items) }
        ensures err { IfErr result (λ e. e ≡ Fault.Memory) }
    {
        let changes = self.changes.as_slice();
        let mut edits = Vec::new(alloc);
        edits.reserve(changes.len())?;
        for (index, change) in changes.iter().enumerate() {
            let text = self.new_text(alloc, index)?;
            let range = change.range;
            edits.push(TextEdit { range, text })?;
        }
        Ok(edits)
    }

    /// The text of the elements that an edit put in. Refused only for want of memory.
    fn new_text(&self, alloc: Global, index: usize) -> Result<String, Fault>
        ensures ok { (es : List Edit) (e : Edit) → IsEdited self.now.sites.root es self.now
            → slice_get es index ≡ Some e
            → IfOk result (λ text. string_bytes text ≡ joined_text e.new) }
        ensures err { IfErr result (λ e. e ≡ Fault.Memory) }
    {
        let Some(placed) = self.sites.placed(index) else {
            return Ok(String::new(alloc));
        };
        let Some(element) = element_at(&self.green, placed.parent) else {
            return Ok(String::new(alloc));
        };
        let NodeOrToken::Node(node) = element else {
            return Ok(String::new(alloc));
        };
        text_of(alloc, node, placed.children)
    }
}

/// The text of the children of a node from one index to another. Refused only for want of memory.
fn text_of(alloc: Global, node: &GreenNode, children: Range<usize>) -> Result<String, Fault>
    ensures ok { let from = children.start in let count = children.end - children.start in
        IfOk result (λ text. string_bytes text
        ≡ joined_text (take count (drop from (node_children node.now)))) }
    ensures err { IfErr result (λ e. e ≡ Fault.Memory) }
{
    let mut text = String::new(alloc);
    for index in children.start..children.end {
        let Some(child) = node.child_ref(index) else {
            return Ok(text);
        };
        push_text(&mut text, child.1)?;
    }
    Ok(text)
}

/// Writes the text of an element behind a text. Refused only for want of memory.
fn push_text(text: &mut String, element: GreenElementRef<'_>) -> Result<(), Fault>
    ensures ok { OnOk result (string_bytes text.new
        ≡ string_bytes text.old ++ term_text (pointee element.entry)) }
    ensures err { IfErr result (λ e. e ≡ Fault.Memory) }
{
    match element {
        NodeOrToken::Node(node) => write!(text, "{node}")?,
        NodeOrToken::Token(token) => text.push_str(token.text())?,
    }
    Ok(())
}
