//! Green nodes whose children are gone through.
ghost use Rattle.std.specs.Prelude.{◌≡◌, ◌+◌, ◌<◌, ◌≤◌, [], IfSome, IsNone};
ghost use Rattle.rowan_green.specs.Fits.{byte_limit, child_limit};
ghost use Rattle.rowan_green.specs.Lent.{pointee};
ghost use Rattle.rowan_green.specs.Term.{node_len, term_len};
ghost use Rattle.rowan_print.specs.Opened.{children_left, next_start, HasNext, Passes, IsWithin};
ghost use Rattle.rowan_print.specs.Printed.{extent};

use rowan_green::green::{GreenElementRef, GreenNode};
use rowan_green::text::{TextRange, TextSize};

// A node whose children are gone through, where its text starts, and the place of the child that
// comes next. A list of such nodes leads from a root to where a loop is, since a green node does
// not know its parent.
#[derive(Clone, Copy)]
pub(crate) struct OpenNode<'a> {
    green: &'a GreenNode,
    start: TextSize,
    next: usize,
}

impl<'a> OpenNode<'a> {
    pub(crate) fn new(green: &'a GreenNode, start: TextSize) -> OpenNode<'a>
        ensures green { result.green.now ≡ green.now }
        ensures start { result.start ≡ start }
        ensures next { result.next ≡ 0 }
    {
        OpenNode {
            green,
            start,
            next: 0,
        }
    }

    pub(crate) fn green(&self) -> &'a GreenNode
        ensures { result.now ≡ self.now.green.now }
    {
        self.green
    }

    // Where the text of the node lies.
    pub(crate) fn range(&self) -> TextRange
        requires { IsWithin self.now }
        ensures { result ≡ extent self.now.start (node_len self.now.green.now) }
    {
        TextRange::at(self.start, self.green.text_len())
    }

    // The next child, and where its text starts.
    pub(crate) fn next_child(&self) -> Option<(TextSize, GreenElementRef<'a>)>
        requires { IsWithin self.now }
        ensures child { IfSome result (λ p. HasNext self.now (pointee p.1)) }
        ensures start { IfSome result (λ p. p.0 ≡ next_start self.now) }
        ensures within { IfSome result (λ p. p.0 + term_len (pointee p.1) ≤ byte_limit) }
        ensures none { IsNone result → children_left self.now ≡ [] }
    {
        let Some(found) = self.green.child_ref(self.next) else {
            return None;
        };
        let (offset, child) = found;
        let start = TextSize::from(u32::from(self.start) + u32::from(offset));
        Some((start, child))
    }

    // The same node, where the child behind the next one comes next.
    pub(crate) fn past_child(&self) -> OpenNode<'a>
        requires { self.now.next < child_limit }
        ensures { Passes self.now result }
    {
        OpenNode {
            green: self.green,
            start: self.start,
            next: self.next + 1,
        }
    }
}
