//! Drawn lists of edits and of other orders of children, beside a plain model of the tree.
use crate::drawn::{Draws, Instead, Step, draw_order, draw_words, keep, list};
use crate::fixture::{old_pieces, words};
use crate::json::{Answer, Editor, Node};
use crate::plain::Plain;
use json_syntax::Json;
use rowan::{Fault, SyntaxNode};
use rowan_edit::{EditError, Edited, Refusal, SyntaxEditor};
use std::alloc::Global;
use std::test::Fail;

/// Whether a step goes together with another order of the children of the node at a path.
fn goes_with(step: Step, path: &[usize]) -> bool {
    match step.instead {
        Instead::Order(_) => step.path != path,
        Instead::Words(_) if path.starts_with(step.path) => match path.get(step.path.len()) {
            Some(index) => *index < step.first || step.last <= *index,
            None => false,
        },
        Instead::Words(_) => true,
    }
}

/// Whether an edit goes with all orders.
fn goes_with_orders(edit: Step, steps: &[Step]) -> bool {
    for step in steps {
        if let Instead::Order(_) = step.instead {
            if !goes_with(edit, step.path) {
                return false;
            }
        }
    }
    true
}

/// What is answered to an order beside other steps.
fn answer_to(order: Step, indexes: &[usize], steps: &[Step]) -> Answer {
    for index in indexes {
        if *index >= order.last {
            return Err(EditError::Refused(Refusal::NotFound));
        }
    }
    for step in steps {
        if !goes_with(*step, order.path) {
            return Err(EditError::Refused(Refusal::Conflict));
        }
    }
    Ok(())
}

/// Whether an answer is the one to a step beside others: an edit is refused for a conflict, or else
/// goes with all orders.
fn is_right(answer: Answer, step: Step, steps: &[Step]) -> bool {
    match step.instead {
        Instead::Order(indexes) => answer == answer_to(step, indexes, steps),
        Instead::Words(_) if answer == Ok(()) => goes_with_orders(step, steps),
        Instead::Words(_) => answer == Err(EditError::Refused(Refusal::Conflict)),
    }
}

/// Whether the node at a path is inside of one whose children are put into another order.
fn is_taken(path: &[usize], steps: &[Step]) -> bool {
    for step in steps {
        if let Instead::Order(_) = step.instead {
            if path.len() > step.path.len() && path.starts_with(step.path) {
                return true;
            }
        }
    }
    false
}

/// How many steps are not inside of a node whose children have another order.
fn outer(steps: &[Step]) -> usize {
    let mut count: usize = 0;
    for step in steps {
        if !is_taken(step.path, steps) {
            count = count.wrapping_add(1);
        }
    }
    count
}

fn node_at<'tree>(root: &'tree SyntaxNode<Json>, path: &[usize]) -> Option<Node<'tree>> {
    let mut node = root.as_ref();
    for index in path {
        let Some(child) = node.children_with_tokens().nth(*index) else {
            return None;
        };
        let Some(inner) = child.into_node() else {
            return None;
        };
        node = inner;
    }
    Some(node)
}

/// Draws a step, keeps it where the editor takes it, and answers whether it takes or refuses it
/// where it should.
fn try_step(
    alloc: Global,
    draws: &mut Draws,
    root: &SyntaxNode<Json>,
    editor: &mut Editor,
    steps: &mut Vec<Step>,
) -> Result<bool, EditError> {
    let drawn = match draws.below(2) {
        0 => draw_words(draws),
        _ => draw_order(draws),
    };
    let Some(step) = drawn else {
        return Ok(false);
    };
    let Some(node) = node_at(root, step.path) else {
        return Ok(false);
    };
    let answer = match step.instead {
        Instead::Words(texts) => {
            editor.splice(node, step.first..step.last, words(alloc, texts)?)
        }
        Instead::Order(indexes) => editor.replace_children(node, old_pieces(alloc, indexes)?),
    };
    let right = is_right(answer, step, steps);
    if answer == Ok(()) {
        keep(steps, step)?;
    }
    Ok(right)
}

/// What a drawn list of edits and orders makes of the tree. Refused where the editor takes a step
/// that it should refuse, or refuses one that it should take.
fn draw_all(
    alloc: Global,
    draws: &mut Draws,
    root: &SyntaxNode<Json>,
    steps: &mut Vec<Step>,
) -> Result<Edited, EditError> {
    let mut editor: Editor = SyntaxEditor::new(alloc, root.as_ref())?;
    for _ in 0..draws.below(9) {
        if try_step(alloc, draws, root, &mut editor, steps) != Ok(true) {
            return Err(EditError::Failed(Fault::NotFound));
        }
    }
    editor.finish()
}

/// Whether a drawn list of edits and orders does what the model does.
fn agrees(alloc: Global, draws: &mut Draws) -> Result<bool, EditError> {
    let root: SyntaxNode<Json> = SyntaxNode::new_root(alloc, list(alloc)?)?;
    let mut steps = Vec::new(alloc);
    match draw_all(alloc, draws, &root, &mut steps) {
        Ok(edited) => Ok(is_made(alloc, &edited, &steps) == Ok(true)),
        Err(_) => Ok(false),
    }
}

/// Whether the new tree is that of the model, and each element is where the model has it.
fn is_made(alloc: Global, edited: &Edited, steps: &[Step]) -> Result<bool, Fault> {
    let plain = Plain::made(alloc, steps)?;
    Ok(
        plain.is_shape_of(alloc, &edited.green)
            && plain.has_moved(alloc, edited)
            && edited.changes.as_slice().len() == outer(steps),
    )
}

#[test]
fn drawn_orders(rt: HostRuntime) -> Result<(), Fail> {
    let alloc = rt.alloc();
    let mut draws = Draws { state: 7 };
    for _ in 0..1000 {
        assert!(rt; agrees(alloc, &mut draws)?);
    }
    Ok(())
}
