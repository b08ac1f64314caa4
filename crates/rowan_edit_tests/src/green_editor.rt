//! Edits of a small tree by paths.
use crate::fixture::{Splice, has_text, spliced, tree};
use rowan_edit::{GreenEditor, Refusal};
use std::test::Fail;

/// The places are those of the old tree, whatever order the edits come in.
const TOGETHER: [Splice; 7] = [
    Splice(&[], 4, 4, &["!"]),
    Splice(&[1], 0, 1, &["x", "y"]),
    Splice(&[], 3, 4, &[]),
    Splice(&[1], 3, 3, &["1"]),
    Splice(&[], 1, 1, &["-"]),
    Splice(&[1], 3, 3, &["2"]),
    Splice(&[1, 1], 0, 0, &["in"]),
];

#[test]
fn edits_go_together(rt: HostRuntime) -> Result<(), Fail> {
    let alloc = rt.alloc();
    let green = tree(alloc)?;
    let new = spliced(alloc, &green, &TOGETHER)?;
    assert!(rt; has_text(alloc, &new.green, "a-xyincd12!"));
    assert!(rt; has_text(alloc, &green, "abcde"));
    Ok(())
}

/// Children of a node that are taken away, one after the other, and what the editor answers.
const TAKEN: [(&[usize], usize, usize, Result<(), Refusal>); 5] = [
    (&[1], 0, 1, Ok(())),
    (&[1], 0, 1, Err(Refusal::Conflict)),
    (&[], 0, 2, Err(Refusal::Conflict)),
    (&[0], 0, 0, Err(Refusal::NotFound)),
    (&[], 3, 5, Err(Refusal::NotFound)),
];

#[test]
fn refusals_leave_the_editor(rt: HostRuntime) -> Result<(), Fail> {
    let alloc = rt.alloc();
    let mut editor = GreenEditor::new(alloc, &tree(alloc)?)?;
    for (parent, start, end, answer) in TAKEN {
        assert!(rt; editor.splice(parent, start..end, Vec::new(alloc)) == answer);
    }
    assert!(rt; has_text(alloc, &editor.finish()?.green, "acde"));
    Ok(())
}
