//! Traces of steps through a tree.
ghost use Rattle.std.specs.Prelude.{◌≡◌, Ok, Some, None, IfOk, IfErr, OnErr, IsSome, IsSomeAnd};
ghost use Rattle.std.specs.Prelude.{slice_get};
ghost use Rattle.std.specs.List.{last_or};
ghost use Rattle.rowan_green.specs.declared.utility_types.NodeOrToken.TheVariants.{Node, Token};
ghost use Rattle.rowan_green.specs.Span.{Holds};
ghost use Rattle.rowan_table.specs.Cursor.{text_range};
ghost use Rattle.rowan_table.specs.Moves.{first_token, last_token};
ghost use Rattle.rowan_table.specs.Search.{LiesIn, IsCovering, tokens_at};
ghost use Rattle.rowan_table.specs.Replacement.{WhyNoReplacement};
ghost use Rattle.rowan_script.specs.Trace.{IsNewRoot, IsReport, destination, element_after, Trace};

use crate::script::steps::{Report, Step};
use rowan_cursor::cursor::{ElementCalls, SyntaxElement, SyntaxNode, SyntaxToken};
use rowan_green::fault::Fault;
use rowan_green::green::{GreenNode, GreenToken};
use rowan_green::text::{TextRange, TextSize};
use rowan_green::utility_types::NodeOrToken;
use std::alloc::{AllocError, Global};

/// Makes the steps from a node, in order, and gives the report of each. A step makes the call of
/// its name on the element where the steps before it led: where the latest report moved, or at the
/// root of the latest new tree. A step that leads nowhere, or is refused, ends nothing: the next
/// step starts from the same element.
///
/// The room for the reports is asked for first. Where there is none, the answer is `Memory` and no
/// step was made. It is not refused for another cause.
///
/// ```rust
/// // `root` is the root of `f(x)`: a token `f`, and a node with the tokens `(`, `x` and `)`
/// let steps = [Step::FirstToken, Step::NextToken, Step::Parent, Step::FirstChild];
/// let reports = trace(alloc, &root, steps.as_slice())?;
/// // The reports are `Moved` to `f`, to `(` and to the node, and `Nowhere`, since no child of that
/// // is a node.
/// ```
pub fn trace(alloc: Global, start: &SyntaxNode, steps: &[Step]) -> Result<Vec<Report>, Fault>
    ensures ok { IfOk result (λ reports. Trace (Node start.now) steps.now reports.items) }
    ensures err { IfErr result (λ e. e ≡ Fault.Memory) }
{
    let mut reports = Vec::with_capacity(alloc, steps.len())?;
    let mut here = SyntaxElement::from(start.clone()?);
    for step in steps {
        let report = make_step(alloc, &mut here, step);
        reports.push_reserved(report);
    }
    Ok(reports)
}

// Makes a step, and leaves `here` where it led. A step is refused, too, where the cursor cannot be
// shared once more.
fn make_step(alloc: Global, here: &mut SyntaxElement, step: &Step) -> Report
    ensures report { IsReport here.old step.now result }
    ensures led { here.new ≡ element_after here.old result }
{
    let report = report_of(alloc, here, step);
    match destination(&report) {
        Ok(Some(element)) => {
            *here = element;
            report
        }
        Ok(None) => report,
        Err(_) => refused_for_room(here, step, report),
    }
}

// The calls of an element.
fn report_of(alloc: Global, here: &SyntaxElement, step: &Step) -> Report
    ensures { IsReport here.now step.now result }
{
    match here {
        NodeOrToken::Node(node) => step_from_node(alloc, node, step),
        NodeOrToken::Token(token) => step_from_token(alloc, token, step),
    }
}

// The report where there is no room for one more cursor at what a step found.
fn refused_for_room(here: &SyntaxElement, step: &Step, report: Report) -> Report
    requires told { IsReport here.now step.now report }
    requires leads { IsSome (destination report) }
    ensures report { IsReport here.now step.now result }
    ensures refused { result ≡ Report.Refused Fault.Memory }
{
    drop(report);
    Report::Refused(Fault::Memory)
}

// Where a report leads, if anywhere.
fn destination(report: &Report) -> Result<Option<SyntaxElement>, AllocError>
    ensures ok { IfOk result (λ element. element ≡ destination report.now) }
    ensures err { OnErr result (IsSome (destination report.now)) }
{
    match report {
        Report::Moved(element) => Ok(Some(element.clone()?)),
        Report::Replaced(root) => Ok(Some(SyntaxElement::from(root.clone()?))),
        Report::Nowhere | Report::Refused(_) => Ok(None),
    }
}

// The calls of a node.
fn step_from_node(alloc: Global, node: &SyntaxNode, step: &Step) -> Report
    ensures { IsReport (Node node.now) step.now result }
{
    match step {
        Step::Parent => Report::from(node.parent()),
        Step::TreeTop => Report::from(node.tree_top().map(Some)),
        Step::FirstChild => Report::from(node.first_child()),
        Step::LastChild => Report::from(node.last_child()),
        Step::FirstChildOrToken => Report::from(node.first_child_or_token()),
        Step::LastChildOrToken => Report::from(node.last_child_or_token()),
        Step::NextSibling => Report::from(node.next_sibling()),
        Step::PrevSibling => Report::from(node.prev_sibling()),
        Step::NextSiblingOrToken => Report::from(node.next_sibling_or_token()),
        Step::PrevSiblingOrToken => Report::from(node.prev_sibling_or_token()),
        Step::FirstToken => Report::from(node.first_token()),
        Step::LastToken => Report::from(node.last_token()),
        Step::ChildAtRange(range) => Report::from(node.child_or_token_at_range(*range)),
        Step::Covering(range) => Report::from(covering_element(node, *range)),
        Step::LeftTokenAt(offset) => Report::from(left_token_at(node, *offset)),
        Step::RightTokenAt(offset) => Report::from(right_token_at(node, *offset)),
        Step::ReplaceNode(new) => replacement_report(replace_node(alloc, node, new)),
        Step::NextToken | Step::PrevToken | Step::ReplaceToken(_) => Report::Nowhere,
    }
}

// The calls of a token.
fn step_from_token(alloc: Global, token: &SyntaxToken, step: &Step) -> Report
    ensures { IsReport (Token token.now) step.now result }
{
    match step {
        Step::Parent => Report::from(token.parent()),
        Step::TreeTop => Report::from(token.tree_top().map(Some)),
        Step::NextSiblingOrToken => Report::from(token.next_sibling_or_token()),
        Step::PrevSiblingOrToken => Report::from(token.prev_sibling_or_token()),
        Step::FirstToken => Report::from(first_token(token)),
        Step::LastToken => Report::from(last_token(token)),
        Step::NextToken => Report::from(token.next_token()),
        Step::PrevToken => Report::from(token.prev_token()),
        Step::ReplaceToken(new) => replacement_report(replace_token(alloc, token, new)),
        _ => Report::Nowhere,
    }
}

// The first token of a token is the token itself.
fn first_token(token: &SyntaxToken) -> Result<Option<SyntaxToken>, Fault>
    ensures ok { IfOk result (λ found. found ≡ first_token token.now) }
    ensures err { IfErr result (λ e. e ≡ Fault.Memory) }
{
    SyntaxElement::from(token.clone()?).first_token()
}

// The last token of a token is the token itself.
fn last_token(token: &SyntaxToken) -> Result<Option<SyntaxToken>, Fault>
    ensures ok { IfOk result (λ found. found ≡ last_token token.now) }
    ensures err { IfErr result (λ e. e ≡ Fault.Memory) }
{
    SyntaxElement::from(token.clone()?).last_token()
}

// The element that covers a range, where the range lies in the node's.
fn covering_element(node: &SyntaxNode, range: TextRange) -> Result<Option<SyntaxElement>, Fault>
    ensures covered { LiesIn range (text_range node.now)
        → IfOk result (λ found. IsSomeAnd found (IsCovering range node.now)) }
    ensures outside { ¬ LiesIn range (text_range node.now) → result ≡ Ok None }
    ensures err { IfErr result (λ e. e ≡ Fault.Memory) }
{
    if !node.text_range().contains_range(range) {
        return Ok(None);
    }
    Ok(Some(node.covering_element(range)?))
}

// The token at an offset, of two the left one, where the offset is one of the node.
fn left_token_at(node: &SyntaxNode, offset: TextSize) -> Result<Option<SyntaxToken>, Fault>
    ensures touched { Holds (text_range node.now) offset
        → IfOk result (λ found. found ≡ slice_get (tokens_at offset node.now) 0) }
    ensures outside { ¬ Holds (text_range node.now) offset → result ≡ Ok None }
    ensures err { IfErr result (λ e. e ≡ Fault.Memory) }
{
    if !node.text_range().contains_inclusive(offset) {
        return Ok(None);
    }
    Ok(node.token_at_offset(offset)?.left_biased())
}

// The token at an offset, of two the right one, where the offset is one of the node.
fn right_token_at(node: &SyntaxNode, offset: TextSize) -> Result<Option<SyntaxToken>, Fault>
    ensures touched { Holds (text_range node.now) offset
        → IfOk result (λ found. found ≡ last_or None (tokens_at offset node.now)) }
    ensures outside { ¬ Holds (text_range node.now) offset → result ≡ Ok None }
    ensures err { IfErr result (λ e. e ≡ Fault.Memory) }
{
    if !node.text_range().contains_inclusive(offset) {
        return Ok(None);
    }
    Ok(node.token_at_offset(offset)?.right_biased())
}

// Puts another node in the place of a node. The kinds are looked at before the other one is shared.
fn replace_node(alloc: Global, node: &SyntaxNode, new: &GreenNode) -> Result<SyntaxNode, Fault>
    ensures ok { IfOk result (IsNewRoot (Step.ReplaceNode new.now) node.now) }
    ensures err { IfErr result (WhyNoReplacement node.now (Node new.now)) }
{
    if new.kind() != node.kind() {
        return Err(Fault::OtherKind);
    }
    let root = node.replace_with(new.clone()?)?;
    SyntaxNode::new_root(alloc, root)
}

// Puts another token in the place of a token, in the same order.
fn replace_token(alloc: Global, token: &SyntaxToken, new: &GreenToken) -> Result<SyntaxNode, Fault>
    ensures ok { IfOk result (IsNewRoot (Step.ReplaceToken new.now) token.now) }
    ensures err { IfErr result (WhyNoReplacement token.now (Token new.now)) }
{
    if new.kind() != token.kind() {
        return Err(Fault::OtherKind);
    }
    let root = token.replace_with(new.clone()?)?;
    SyntaxNode::new_root(alloc, root)
}

// The report of a replacement.
fn replacement_report(root: Result<SyntaxNode, Fault>) -> Report
    ensures ok { IfOk root (λ root. result ≡ Report.Replaced root) }
    ensures err { IfErr root (λ e. result ≡ Report.Refused e) }
{
    match root {
        Ok(root) => Report::Replaced(root),
        Err(fault) => Report::Refused(fault),
    }
}
