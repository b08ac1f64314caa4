//! Documents are edited, and looked at behind each edit.
use crate::digest::Digest;
use crate::document::{self, Phrases};
use crate::draws::{Draws, Turns};
use rowan::ast::AstNode;
use rowan::script::{Report, Step, trace};
use rowan::{
    ElementCalls, Fault, GreenToken, Language, NodeOrToken, SyntaxElement, SyntaxNode, TextRange,
    TextSize, TypedElementCalls, cursor,
};
use rowan_tool::sexp::{self, Lang, List};
use std::alloc::Global;

/// How many edits of each kind a document gets.
const EDITS: usize = 20;

/// How many sizes documents have.
const SIZES: u32 = 5;

/// The kind of a word.
const WORD: rowan::SyntaxKind = rowan::SyntaxKind(2);

/// Edits so many documents, in each of three ways.
pub fn run(
    alloc: Global,
    draws: &mut Draws,
    rounds: usize,
    digest: &mut Digest,
) -> Result<(), Fault> {
    let phrases = Phrases::new(alloc, draws)?;
    let mut sizes = Turns::new(draws, SIZES);
    for _ in 0..rounds {
        let text = document::text(alloc, draws, &phrases, sizes.next_size(10_000))?;
        let parse = sexp::parse(alloc, text.as_str())?;
        let root = parse.syntax(alloc)?;
        let mut offsets = Turns::new(draws, u32::from(parse.green().text_len()).saturating_add(1));
        replace_words(alloc, &root, &mut offsets, draws, digest)?;
        let edits = change_lists(alloc, &root, &mut offsets, draws, digest)?;
        let tree = sexp::reparse_all(alloc, text.as_str(), edits.as_slice())?;
        digest.add_text(tree.to_string(alloc)?.as_bytes());
        digest.add_tree(alloc, parse.green())?;
        digest.add_tree(alloc, &tree)?;
    }
    Ok(())
}

/// Words are replaced, by one trace. Each step starts from the tree that the one before left: of
/// that the digest gets the way to what is new, and the last one whole.
fn replace_words(
    alloc: Global,
    root: &SyntaxNode<Lang>,
    offsets: &mut Turns,
    draws: &mut Draws,
    digest: &mut Digest,
) -> Result<(), Fault> {
    let Some(root) = raw_of(root)? else {
        return Ok(());
    };
    let steps = replacements(alloc, offsets, draws)?;
    let mut place = TextSize::from(0);
    let mut last = None;
    for report in trace(alloc, &root, steps.as_slice())? {
        match report {
            Report::Replaced(root) => {
                digest.add_way_to(root.green(), place);
                last = Some(root);
            }
            Report::Moved(element) => {
                let range = ElementCalls::text_range(&element);
                digest.add_place(ElementCalls::kind(&element), range);
                place = range.start();
            }
            Report::Nowhere => digest.add(0),
            Report::Refused(_) => digest.add(1),
        }
    }
    if let Some(root) = last {
        digest.add_tree(alloc, root.green())?;
    }
    Ok(())
}

/// The cursor without the kinds of the language, in the same tree.
fn raw_of(root: &SyntaxNode<Lang>) -> Result<Option<cursor::SyntaxNode>, Fault> {
    let element: SyntaxElement<Lang> = NodeOrToken::Node(root.clone()?);
    Ok(element.into_raw().into_node())
}

/// Steps that replace tokens, at different offsets and by different words.
fn replacements(alloc: Global, offsets: &mut Turns, draws: &mut Draws) -> Result<Vec<Step>, Fault> {
    let mut steps = Vec::new(alloc);
    for number in 0..EDITS {
        let text = format!(in alloc; "word{number}-{}", draws.below(1_000))?;
        steps.push(Step::RightTokenAt(TextSize::from(offsets.next())))?;
        steps.push(Step::ReplaceToken(GreenToken::new(alloc, WORD, text.as_str())?))?;
        steps.push(Step::FirstChild)?;
    }
    Ok(steps)
}

/// Lists are changed, with a cursor at each new root. Answers what was changed, and into what.
fn change_lists(
    alloc: Global,
    root: &SyntaxNode<Lang>,
    offsets: &mut Turns,
    draws: &mut Draws,
    digest: &mut Digest,
) -> Result<Vec<(TextRange, String)>, Fault> {
    let mut edits = Vec::new(alloc);
    let mut root = root.clone()?;
    for number in 0..EDITS {
        let offset = TextSize::from(offsets.next());
        if let Some(list) = list_at(&root, offset)? {
            let range = list.syntax().text_range();
            let text = list.syntax().text()?.to_text()?;
            let text = changed(alloc, text.as_str(), number, draws)?;
            let tree = sexp::reparse_list(alloc, &list, text.as_str())?;
            root = SyntaxNode::new_root(alloc, tree)?;
            edits.push((range, text))?;
            look(&root, offset, digest)?;
        }
    }
    digest.add_tree(alloc, root.green())?;
    Ok(edits)
}

/// The innermost list around the token at an offset.
fn list_at(root: &SyntaxNode<Lang>, offset: TextSize) -> Result<Option<List>, Fault> {
    if !root.text_range().contains_inclusive(offset) {
        return Ok(None);
    }
    let Some(token) = root.token_at_offset(offset)?.right_biased() else {
        return Ok(None);
    };
    for node in token.parent_ancestors() {
        if let Some(list) = List::cast(node?) {
            return Ok(Some(list));
        }
    }
    Ok(None)
}

/// The text of a list with a word more at its end, another one for each number.
fn changed(alloc: Global, text: &str, number: usize, draws: &mut Draws) -> Result<String, Fault> {
    let drawn = draws.below(1_000);
    match text.strip_suffix(")") {
        Some(open) => Ok(format!(in alloc; "{open} new{number}-{drawn})")?),
        None => Ok(format!(in alloc; "(new{number}-{drawn})")?),
    }
}

/// What an editor asks behind an edit: where the edit is, and what stands there.
fn look(root: &SyntaxNode<Lang>, offset: TextSize, digest: &mut Digest) -> Result<(), Fault> {
    digest.add_way_to(root.green(), offset);
    let Some(list) = list_at(root, offset)? else {
        return Ok(());
    };
    for element in list.syntax().descendants_with_tokens() {
        let element = element?;
        digest.add_place(Lang::kind_to_raw(element.kind()), element.text_range());
    }
    Ok(())
}
