//! A tool looks at trees, by cursors.
use crate::digest::Digest;
use crate::document::{self, Phrases};
use crate::draws::{Draws, Seen, Turns};
use rowan::ast::{AstNode, SyntaxNodePtr};
use rowan::{
    Direction, Fault, Language, NodeCache, SyntaxNode, SyntaxToken, TextRange, TextSize,
    TypedElementCalls, WalkEvent,
};
use rowan_tool::sexp::{self, Lang, Root};
use std::alloc::Global;

/// How many searches by place are made in a tree.
const SEARCHES: u32 = 4_000;

/// How many sizes trees have.
const SIZES: u32 = 6;

/// Looks at so many trees.
pub fn run(
    alloc: Global,
    draws: &mut Draws,
    rounds: usize,
    digest: &mut Digest,
) -> Result<(), Fault> {
    let phrases = Phrases::new(alloc, draws)?;
    let mut cache = NodeCache::new(alloc);
    let mut sizes = Turns::new(draws, SIZES);
    for _ in 0..rounds {
        let text = document::text(alloc, draws, &phrases, sizes.next_size(10_000))?;
        let root = sexp::parse_with(alloc, text.as_str(), &mut cache)?.syntax(alloc)?;
        walk(&root, digest)?;
        go_through_tokens(&root, digest)?;
        go_through_definitions(&root, digest)?;
        digest.add_text(root.text()?.to_text()?.as_bytes());
        search_all(alloc, &root, draws, digest)?;
        digest.add_tree(alloc, root.green())?;
    }
    Ok(())
}

fn add(digest: &mut Digest, element: &impl TypedElementCalls<Lang>) {
    digest.add_place(Lang::kind_to_raw(element.kind()), element.text_range());
}

/// All nodes and tokens, as they are entered and left.
fn walk(root: &SyntaxNode<Lang>, digest: &mut Digest) -> Result<(), Fault> {
    for event in root.preorder_with_tokens() {
        match event? {
            WalkEvent::Enter(element) => add(digest, &element),
            WalkEvent::Leave(element) => digest.add(u64::from(Lang::kind_to_raw(element.kind()).0)),
        }
    }
    Ok(())
}

/// All tokens in order, from each to the next.
fn go_through_tokens(root: &SyntaxNode<Lang>, digest: &mut Digest) -> Result<(), Fault> {
    let mut next = root.first_token()?;
    for _ in 0..u64::MAX {
        let Some(token) = next else {
            break;
        };
        digest.add_place(Lang::kind_to_raw(token.kind()), token.text_range());
        next = token.next_token()?;
    }
    Ok(())
}

/// The definitions of the text, by their wrappers, and the text of each as far as a character.
fn go_through_definitions(root: &SyntaxNode<Lang>, digest: &mut Digest) -> Result<(), Fault> {
    let Some(root) = Root::cast(root.clone()?) else {
        return Ok(());
    };
    for sexp in root.sexps() {
        let sexp = sexp?;
        let node = sexp.syntax();
        for child in node.children() {
            let child = child?;
            digest.add_place(Lang::kind_to_raw(child.kind()), child.text_range());
        }
        if let Some(offset) = node.text()?.find_char('x') {
            digest.add_size(offset);
        }
    }
    Ok(())
}

/// Searches by place, each at another offset.
fn search_all(
    alloc: Global,
    root: &SyntaxNode<Lang>,
    draws: &mut Draws,
    digest: &mut Digest,
) -> Result<(), Fault> {
    let places = u32::from(root.text_range().len()).saturating_add(1);
    let mut offsets = Turns::new(draws, places);
    let mut tokens = Seen::new(alloc, places as usize)?;
    let mut nodes = Seen::new(alloc, places as usize)?;
    for _ in 0..SEARCHES.min(places) {
        let offset = TextSize::from(offsets.next());
        if let Some(token) = search(root, offset, draws, digest)? {
            if tokens.is_new(token.text_range().start()) {
                look_around(root, &token, &mut nodes, digest)?;
            }
        }
    }
    Ok(())
}

/// What stands at an offset, and what covers some bytes from there. Answers the token.
fn search(
    root: &SyntaxNode<Lang>,
    offset: TextSize,
    draws: &mut Draws,
    digest: &mut Digest,
) -> Result<Option<SyntaxToken<Lang>>, Fault> {
    if !root.text_range().contains_inclusive(offset) {
        return Ok(None);
    }
    let token = root.token_at_offset(offset)?.right_biased();
    let len = u32::from(root.text_range().len());
    let rest = len.saturating_sub(u32::from(offset));
    let range = TextRange::at(offset, TextSize::from((draws.below(64) as u32).min(rest)));
    if root.text_range().contains_range(range) {
        add(digest, &root.covering_element(range)?);
    }
    Ok(token)
}

/// What is before a token, and around it. The node around it is found by a pointer if it is new:
/// nodes of these texts end at different places.
fn look_around(
    root: &SyntaxNode<Lang>,
    token: &SyntaxToken<Lang>,
    nodes: &mut Seen,
    digest: &mut Digest,
) -> Result<(), Fault> {
    for sibling in token.siblings_with_tokens(Direction::Prev) {
        add(digest, &sibling?);
    }
    for node in token.parent_ancestors() {
        digest.add(node?.index() as u64);
    }
    if let Some(node) = token.parent()? {
        if nodes.is_new(node.text_range().end()) {
            if let Some(found) = SyntaxNodePtr::new(&node).try_to_node(root)? {
                digest.add_place(Lang::kind_to_raw(found.kind()), found.text_range());
            }
        }
    }
    Ok(())
}
