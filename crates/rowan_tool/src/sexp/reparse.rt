//! Lists parsed anew in the tree of a text: one of them, or some, one after the other.
ghost use Rattle.std.specs.Prelude.{◌≡◌, ◌≢◌, ◌+◌, ◌<◌, ◌≤◌, [], length, IfOk, IfErr, OnOk};
ghost use Rattle.rowan_green.specs.declared.utility_types.NodeOrToken.TheVariants.{Node};
ghost use Rattle.rowan_green.specs.Edits.{spliced};
ghost use Rattle.rowan_green.specs.Fits.{byte_limit, Fits, FitsNode};
ghost use Rattle.rowan_terms.specs.Path.{put};
ghost use Rattle.rowan_green.specs.Term.{NodeTerm, node_text};
ghost use Rattle.rowan_table.specs.Cursor.{text_range};
ghost use Rattle.rowan_tool.specs.Ancestors.{path_below, AreAncestors, IsReparseAt, WhyNoReparseAt};
ghost use Rattle.rowan_sexp.specs.Grammar.{IsParse, IsOneList};
ghost use Rattle.rowan_tool.specs.Reparse.{IsReparse, WhyNoReparse, WhyNoList, IsListAt};
ghost use Rattle.rowan_tool.specs.Reparse.{is_list_at, HasNoList, edits_of, text_after, AreEdits};
ghost use Rattle.rowan_tool.specs.Reparse.{WhyNoEdits};

use rowan::ast::AstNode;
use rowan::{Fault, GreenNode, Language, NodeOrToken, Steps, TextRange, TextSize};
use rowan_sexp::sexp::ast::List;
use rowan_sexp::sexp::balance::is_balanced;
use rowan_sexp::sexp::lang::Lang;
use rowan_sexp::sexp::parser::parse;
use std::alloc::Global;

/// The root of the tree in which a list is parsed anew: in its place stands the list that the new
/// text is, and all else is the tree that it was, shared with the old one, which stays as it is.
/// `Err(Fault::NotOneList)` where the new text is not one balanced list, which is looked at before
/// all else, by a scan that takes no memory; `Err(Fault::TextTooLong)` where the new text, or a
/// node of the new tree, would have more than 4,294,967,295 bytes; `Err(Fault::Memory)` for want of
/// memory.
///
/// Of the old tree only the nodes above the list are made anew, one for each; no text of it is
/// read.
pub fn reparse_list(alloc: Global, list: &List, new_text: &str) -> Result<GreenNode, Fault>
    ensures ok { IfOk result (IsReparse list.now new_text.now) }
    ensures text { let place = text_range list.now in IfOk result (λ n. node_text n
        ≡ spliced (node_text list.now.root) place.start place.end new_text.now) }

    // where the old tree is that of its text, so is the new one
    ensures parse { IfOk result (λ n. IsParse (node_text list.now.root) list.now.root
        → IsParse (node_text n) n) }
    ensures err { IfErr result (WhyNoReparse list.now new_text.now) }
{
    let node = list.syntax();
    let green = one_list(alloc, new_text)?;
    node.replace_with(green)
}

/// The list that a text is.
fn one_list(alloc: Global, text: &str) -> Result<GreenNode, Fault>
    ensures ok { IfOk result (IsOneList text.now) }
    ensures fits { IfOk result FitsNode }
    ensures err { IfErr result (WhyNoList text.now) }
{
    if !is_balanced(text) {
        return Err(Fault::NotOneList);
    }
    let parse = parse(alloc, text)?;
    let Some((_, child)) = parse.green().child_ref(0) else {
        unreachable!();
    };
    let NodeOrToken::Node(list) = child else {
        unreachable!();
    };
    Ok(list.clone()?)
}

/// Parses a text, and makes the edits in order, each in the tree that the one before it left: the
/// list at the range is parsed anew from the string. Ranges count bytes of the text as it is then.
/// The first edit that is refused ends it: `Err(Fault::NotFound)` where no list of the tree has the
/// range, `Err(Fault::NotOneList)` where there is one, but the string is not one balanced list, and
/// `Err(Fault::TextTooLong)` where the text would have more than 4,294,967,295 bytes, as where the
/// first text has. `Err(Fault::Memory)` for want of memory.
///
/// ```rust
/// let range = TextRange::new(TextSize::from(3), TextSize::from(11));
/// let edits = vec![in alloc; (range, String::from_str(alloc, "(* 7 (+ 1 1))")?)]?;
/// let green = sexp::reparse_all(alloc, "(+ (* 15 2) 62)", edits.as_slice())?;
/// println!(rt; "{green}")?;    // (+ (* 7 (+ 1 1)) 62)
/// ```
pub fn reparse_all(
    alloc: Global,
    text: &str,
    edits: &[(TextRange, String)],
) -> Result<GreenNode, Fault>
    ensures tree { IfOk result (IsParse (text_after text.now (edits_of edits.now))) }
    ensures text { IfOk result (λ n. node_text n ≡ text_after text.now (edits_of edits.now)) }
    ensures edits { OnOk result (AreEdits text.now (edits_of edits.now)) }
    ensures too_long { byte_limit < length text.now → result ≡ Err Fault.TextTooLong }
    ensures err { IfErr result (λ e. e ≢ Fault.Memory
        → WhyNoEdits text.now (edits_of edits.now) e) }
{
    let parse = parse(alloc, text)?;
    let mut green = parse.green().clone()?;
    for (range, new_text) in edits {
        green = reparse_at(alloc, &green, *range, new_text.as_str())?;
    }
    Ok(green)
}

/// The root of the tree in which the list at a range is parsed anew. It reads the nodes on the way
/// to the list alone, and makes one anew for each of them.
fn reparse_at(
    alloc: Global,
    green: &GreenNode,
    range: TextRange,
    new_text: &str,
) -> Result<GreenNode, Fault>
    ensures ok { IfOk result (IsReparseAt green.now range new_text.now) }
    ensures err { IfErr result (WhyNoReparseAt green.now range new_text.now) }
{
    let ancestors = list_at(alloc, green, range)?;
    let list = one_list(alloc, new_text)?;
    with_list(ancestors, list)
}

/// A node above a list, and the index of its child on the way to that list.
#[derive(Clone, Copy)]
struct Ancestor<'a> {
    node: &'a GreenNode,
    index: usize,
}

/// The nodes above the list with a range in a tree of a text, from the root on.
/// `Err(Fault::NotFound)` where there is no such list.
fn list_at<'a>(
    alloc: Global,
    green: &'a GreenNode,
    range: TextRange,
) -> Result<Vec<Ancestor<'a>>, Fault>
    ensures ok { IfOk result (λ ancestors. IsListAt green.now range
        (record { root = green.now; path = path_below ancestors.items })) }
    ensures ancestors { IfOk result (λ ancestors. AreAncestors green.now ancestors.items) }
    ensures err { IfErr result (λ e. e ≢ Fault.Memory → HasNoList green.now range e) }
{
    let mut steps = Steps::new();
    let mut ancestors = Vec::new(alloc);
    let mut node = green;
    let mut within = range;
    while !is_list_at(node, within) {
        let Some((index, start, child)) = node.child_at_range(within, &mut steps) else {
            return Err(Fault::NotFound);
        };
        let NodeOrToken::Node(child) = child else {
            return Err(Fault::NotFound);
        };
        ancestors.push(Ancestor { node, index })?;
        within = range_from(start, within);
        node = child;
    }
    Ok(ancestors)
}

/// Whether a node is a list, and the range, counted from the node's start, is that of its text.
fn is_list_at(node: &GreenNode, range: TextRange) -> bool
    ensures { result ≡ is_list_at range node.now [] }
{
    let own = TextRange::at(TextSize::from(0), node.text_len());
    own == range && List::can_cast(Lang::kind_from_raw(node.kind()))
}

/// A range, counted from an offset that is not behind its start.
fn range_from(offset: TextSize, range: TextRange) -> TextRange
    requires { offset ≤ range.start }
    ensures start { offset + result.start ≡ range.start }
    ensures end { offset + result.end ≡ range.end }
{
    let offset = u32::from(offset);
    let start = TextSize::from(u32::from(range.start()) - offset);
    let end = TextSize::from(u32::from(range.end()) - offset);
    TextRange::new(start, end)
}

/// The root of a tree with another list in place of the one below these nodes: from the innermost
/// of them up, one new node for each.
fn with_list(mut ancestors: Vec<Ancestor<'_>>, list: GreenNode) -> Result<GreenNode, Fault>
    requires { FitsNode list }
    ensures root { IfOk result (λ n. (root : NodeTerm) → AreAncestors root ancestors.entry.items
        → Node n ≡ put (Node root) (path_below ancestors.entry.items) (Node list)) }
    ensures fits { IfOk result FitsNode }
    ensures err { IfErr result (λ e. e ≢ Fault.Memory → (e ≡ Fault.TextTooLong)
        × ((root : NodeTerm) → AreAncestors root ancestors.entry.items
        → ¬ Fits (put (Node root) (path_below ancestors.entry.items) (Node list)))) }
{
    let mut green = list;
    while let Some(ancestor) = ancestors.pop() {
        green = ancestor
            .node
            .replace_child(ancestor.index, NodeOrToken::Node(green))?;
    }
    Ok(green)
}
