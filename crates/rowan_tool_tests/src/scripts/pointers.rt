//! Pointers that are carried through a trace, by its reports.
ghost use Rattle.std.specs.Prelude.{◌≡◌, ℕ, ◌<◌, IfOk, IfErr, Some};
ghost use Rattle.std.specs.Option.{option_map};
ghost use Rattle.rowan_terms.specs.Replacements.{SeparateFromAll};
ghost use Rattle.rowan_green.specs.Term.{NodeTerm, node_len, Term, term_len};
ghost use Rattle.rowan_green.specs.declared.utility_types.NodeOrToken.TheVariants.{Node};
ghost use Rattle.rowan_table.specs.Cursor.{StandsAt, text_range};
ghost use Rattle.rowan_table.specs.Moves.{Element, place_of, cursor_at};
ghost use Rattle.rowan.specs.Pointer.{pointer_to, carried_in_turn};
ghost use Rattle.rowan.specs.Trace.{IsReport, element_after, new_term, replacement_of};
ghost use Rattle.rowan.specs.Trace.{replacements, root_of, tree_of, last_root, Trace};

use rowan::ast::SyntaxNodePtr;
use rowan::script::{Report, Step, trace};
use rowan::{ElementCalls, Fault, Language, SyntaxNode, TextRange, TextSize, cursor, laws};
use std::alloc::Global;

/// Makes the steps from a node, and gives their reports, and the pointer to the node carried
/// through them.
pub fn trace_with_pointer<L: Language>(
    alloc: Global,
    node: &SyntaxNode<L>,
    steps: &[Step],
) -> Result<(Vec<Report>, Option<SyntaxNodePtr<L>>), Fault>
    ensures trace { IfOk result (λ found. Trace (Node node.now) steps.now found.0.items) }
    ensures pointer { IfOk result (λ found. (n : NodeTerm)
        → StandsAt node.now n → 0 < node_len n
        → SeparateFromAll node.now.path (replacements (Node node.now) steps.now found.0.items)
        → let last = last_root (Node node.now) found.0.items in
        found.1 ≡ pointer_to L.meaning (cursor_at last node.now.path)) }
    ensures err { IfErr result (λ e. e ≡ Fault.Memory) }
{
    let start = cursor::SyntaxNode::from(node.clone()?);
    let reports = trace(alloc, &start, steps)?;
    let pointer = carry(SyntaxNodePtr::new(node), &start, steps, reports.as_slice());
    laws::pointers_outlive_traces::<L>();
    Ok((reports, pointer))
}

/// The pointer after all steps of a trace: over each replacement that the reports tell of.
pub fn carry<L: Language>(
    pointer: SyntaxNodePtr<L>,
    start: &cursor::SyntaxNode,
    steps: &[Step],
    reports: &[Report],
) -> Option<SyntaxNodePtr<L>>
    requires { Trace (Node start.now) steps.now reports.now }
    ensures { let e = Node start.now in
        result ≡ carried_in_turn (tree_of e) (replacements e steps.now reports.now) pointer }
{
    let mut pointer = pointer;
    let mut here = start.text_range();
    for (step, report) in steps.iter().zip(reports) {
        (pointer, here) = carry_over(pointer, here, step, report)?;
    }
    Some(pointer)
}

// The pointer after one step, and where the next one starts; `here` is where this one starts.
fn carry_over<L: Language>(
    pointer: SyntaxNodePtr<L>,
    here: TextRange,
    step: &Step,
    report: &Report,
) -> Option<(SyntaxNodePtr<L>, TextRange)>
    ensures { (e : Element) → IsReport e step.now report.now → here ≡ text_range (place_of e) →
        let there = text_range (place_of (element_after e report.now)) in
        let replaced = replacement_of (place_of e) (new_term step.now) report.now in
        result ≡ option_map (λ p. (p, there)) (carried_in_turn (tree_of e) replaced pointer) }
{
    match report {
        Report::Moved(element) => Some((pointer, element.text_range())),
        Report::Replaced(root) => {
            let pointer = pointer.after_edit(here, new_len(step))?;
            Some((pointer, root.text_range()))
        }
        Report::Nowhere | Report::Refused(_) => Some((pointer, here)),
    }
}

// How many bytes a replacement puts.
fn new_len(step: &Step) -> TextSize
    ensures { (u : Term) → new_term step.now ≡ Some u → result ≡ term_len u }
{
    match step {
        Step::ReplaceNode(green) => green.text_len(),
        Step::ReplaceToken(green) => green.text_len(),
        _ => TextSize::from(0),
    }
}
