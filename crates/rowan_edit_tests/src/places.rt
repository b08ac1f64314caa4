//! Where elements of an edited tree are.
use crate::fixture::{Splice, nested, spliced};
use rowan_edit::Edited;
use std::alloc::Global;
use std::test::Fail;

/// The path of an element, and that of where it goes.
type Going = (&'static [usize], Option<&'static [usize]>);

/// Whether the element at a path is where it should be.
fn goes_to(alloc: Global, edited: &Edited, going: Going) -> bool {
    let Ok(moved) = edited.moved_path(alloc, going.0) else {
        return false;
    };
    match (moved, going.1) {
        (Some(moved), Some(new)) => moved.as_slice() == new,
        (None, None) => true,
        _ => false,
    }
}

/// Text is put inside the outer list, before the inner one.
const INSIDE: [Splice; 1] = [Splice(&[1], 0, 0, &["x"])];

const GOING_INSIDE: [Going; 8] = [
    (&[], Some(&[])),
    (&[0], Some(&[0])),
    (&[1], Some(&[1])),
    (&[1, 0], Some(&[1, 1])),
    (&[1, 0, 0], Some(&[1, 1, 0])),
    (&[2], Some(&[2])),
    (&[3], None),
    (&[0, 0], None),
];

#[test]
fn paths_around_what_is_put(rt: HostRuntime) -> Result<(), Fail> {
    let alloc = rt.alloc();
    let edited = spliced(alloc, &nested(alloc)?, &INSIDE)?;
    for going in GOING_INSIDE {
        assert!(rt; goes_to(alloc, &edited, going));
    }
    Ok(())
}

/// Two words are put before the outer list, what is in the inner one is taken away, one word is put
/// behind that list in the outer one, and the last word is replaced.
const MANY: [Splice; 4] = [
    Splice(&[], 2, 3, &["y"]),
    Splice(&[1], 1, 1, &["z"]),
    Splice(&[1, 0], 0, 1, &[]),
    Splice(&[], 1, 1, &["v", "w"]),
];

const GOING_AMONG_MANY: [Going; 6] = [
    (&[], Some(&[])),
    (&[0], Some(&[0])),
    (&[1], Some(&[3])),
    (&[1, 0], Some(&[3, 0])),
    (&[1, 0, 0], None),
    (&[2], None),
];

#[test]
fn paths_among_many_edits(rt: HostRuntime) -> Result<(), Fail> {
    let alloc = rt.alloc();
    let edited = spliced(alloc, &nested(alloc)?, &MANY)?;
    for going in GOING_AMONG_MANY {
        assert!(rt; goes_to(alloc, &edited, going));
    }
    Ok(())
}
