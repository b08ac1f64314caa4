//! Edits of green nodes by iterators of several types.
use crate::green::fixture::{displays, flat, leaf};
use rowan_green::{Fault, GreenElement, GreenNode};
use std::alloc::Global;
use std::iter;
use std::test::Fail;

/// A node over a token `a` and a token `b`.
fn pair(alloc: Global) -> Result<GreenNode, Fault> {
    flat(alloc, 7, &[(1, "a"), (1, "b")])
}

/// Whether an edit gives this text.
fn gives(alloc: Global, edited: Result<GreenNode, Fault>, text: &str) -> Result<bool, Fault> {
    Ok(displays(alloc, &edited?, text)?)
}

#[test]
fn one_child_is_spliced_in(rt: HostRuntime) -> Result<(), Fail> {
    let pair = pair(rt.alloc())?;
    assert!(rt; 1 <= pair.children().len());
    let edited = pair.splice_children(0..1, iter::once(leaf(rt.alloc(), 1, "x")?));
    assert!(rt; gives(rt.alloc(), edited, "xb") == Ok(true));
    Ok(())
}

#[test]
fn no_child_is_spliced_in(rt: HostRuntime) -> Result<(), Fail> {
    let pair = pair(rt.alloc())?;
    assert!(rt; 2 <= pair.children().len());
    let edited = pair.splice_children(0..2, iter::empty::<GreenElement>())?;
    assert!(rt; flat(rt.alloc(), 7, &[]) == Ok(edited));
    Ok(())
}

/// Promises many children and gives one at most.
#[derive(Drop)]
struct Boaster {
    child: Option<GreenElement>,
    promised: usize,
    is_exact: bool,
}

impl Iterator for Boaster {
    type Item = GreenElement;

    ghost use Rattle.std.specs.Prelude.{IfSome};
    ghost use Rattle.std.specs.Iterator.{at_most, UpTo};
    ghost use Rattle.std.specs.Iterator.SizeHint.{IsWithinCount};

    ghost remaining = { λ s. at_most s.promised };

    fn next(&mut self) -> Option<GreenElement> {
        self.promised = self.promised.checked_sub(1)?;
        self.child.take()
    }

    fn size_hint(&self) -> (usize, Option<usize>) {
        let most = if self.is_exact {
            Some(self.promised)
        } else {
            None
        };
        (self.promised, most)
    }
}

/// A boaster with a token of this text, or with none.
fn boaster_with(
    alloc: Global,
    given: Option<&str>,
    (promised, is_exact): (usize, bool),
) -> Result<Boaster, Fault> {
    let child = match given {
        Some(given) => Some(leaf(alloc, 1, given)?),
        None => None,
    };
    Ok(Boaster {
        child,
        promised,
        is_exact,
    })
}

/// Whether a node over the tokens `a` and `b` becomes one of this text where a boaster's child, or
/// none, is put before them.
fn boasts(
    alloc: Global,
    given: Option<&str>,
    hint: (usize, bool),
    text: &str,
) -> Result<bool, Fault> {
    let pair = pair(alloc)?;
    let boaster = boaster_with(alloc, given, hint)?;
    gives(alloc, pair.splice_children(0..0, boaster), text)
}

#[test]
fn a_promise_of_children_refuses_nothing(rt: HostRuntime) {
    for promised in [1, 2, 5_000_000_000, usize::MAX] {
        for is_exact in [false, true] {
            let hint = (promised, is_exact);
            assert!(rt; boasts(rt.alloc(), None, hint, "ab") == Ok(true));
            assert!(rt; boasts(rt.alloc(), Some("x"), hint, "xab") == Ok(true));
        }
    }
}

/// A node with a token `x` and those of these elements that are of kind 1 before its children.
fn chained(alloc: Global, node: &GreenNode, more: Vec<GreenElement>) -> Result<GreenNode, Fault> {
    let more = more.into_iter().filter(|child| child.kind().0 == 1);
    node.splice_children(0..0, iter::once(leaf(alloc, 1, "x")?).chain(more))
}

#[test]
fn children_of_a_chain_are_spliced_in(rt: HostRuntime) -> Result<(), Fail> {
    let pair = pair(rt.alloc())?;
    let more = vec![in rt.alloc(); leaf(rt.alloc(), 1, "y")?, leaf(rt.alloc(), 2, "z")?]?;
    assert!(rt; gives(rt.alloc(), chained(rt.alloc(), &pair, more), "xyab") == Ok(true));
    Ok(())
}
