//! Trees of extreme shapes: very wide, very deep, and without order.
ghost use Rattle.std.specs.Prelude.{◌<◌, ◌≤◌, length};
ghost use Rattle.rowan_green.specs.Term.{node_children};

use crate::digest::Digest;
use crate::draws::{Draws, Turns};
use rowan::{
    Fault, GreenElement, GreenNode, GreenToken, Language, Steps, SyntaxElement, SyntaxKind,
    SyntaxNode, TextRange, TextSize, TypedElementCalls,
};
use rowan_tool::sexp::{self, Lang};
use std::alloc::{AllocError, Global};

const WORD: SyntaxKind = SyntaxKind(2);

const ROOT: SyntaxKind = SyntaxKind(7);

/// How many children the wide node has, at least.
const CHILDREN: usize = 50_000;

/// How many levels the deep text has, at least.
const LEVELS: usize = 20_000;

/// How many sizes wide nodes and deep texts have, up to twice the least.
const SIZES: u32 = 7;

/// How many edits and searches are made in a tree.
const TIMES: usize = 40;

/// Makes so many trees of each shape.
pub fn run(
    alloc: Global,
    draws: &mut Draws,
    rounds: usize,
    digest: &mut Digest,
) -> Result<(), Fault> {
    let mut widths = Turns::new(draws, SIZES);
    let mut depths = Turns::new(draws, SIZES);
    for _ in 0..rounds {
        let wide = wide(alloc, size_of(CHILDREN, &mut widths), draws)?;
        digest.add_tree(alloc, &wide)?;
        edit(alloc, &wide, draws, digest)?;
        search(&wide, draws, digest);
        reach(alloc, &wide, draws, digest)?;
        go_down(
            alloc,
            deep(alloc, size_of(LEVELS, &mut depths), draws)?.as_str(),
            digest,
        )?;
        mend(alloc, disordered(alloc, draws)?.as_str(), digest)?;
    }
    Ok(())
}

/// The least of some sizes, and as many sevenths of it more as the next number says.
fn size_of(least: usize, sizes: &mut Turns) -> usize {
    least.saturating_add((least / 7).saturating_mul(sizes.next() as usize))
}

fn token(alloc: Global, number: usize) -> Result<GreenElement, Fault> {
    let text = format!(in alloc; "{number}")?;
    Ok(GreenElement::from(GreenToken::new(alloc, WORD, text.as_str())?))
}

/// A node over very many tokens.
fn wide(alloc: Global, count: usize, draws: &mut Draws) -> Result<GreenNode, Fault> {
    let mut tokens = Vec::with_capacity(alloc, count)?;
    for _ in 0..count {
        tokens.push(token(alloc, draws.below(1_000_000))?)?;
    }
    GreenNode::new(alloc, ROOT, tokens)
}

/// Edits the node at places that are drawn, each time what the edit before it left: of that the
/// digest gets what is about the place, and the last one whole.
fn edit(
    alloc: Global,
    node: &GreenNode,
    draws: &mut Draws,
    digest: &mut Digest,
) -> Result<(), Fault> {
    let mut node = node.clone()?;
    for _ in 0..TIMES {
        let count = node.children().len();
        if count == 0 {
            break;
        }
        let place = draws.below(count);
        node = edit_at(alloc, &node, place, draws)?;
        digest.add_children_about(&node, place);
    }
    digest.add_tree(alloc, &node)?;
    Ok(())
}

fn edit_at(
    alloc: Global,
    node: &GreenNode,
    place: usize,
    draws: &mut Draws,
) -> Result<GreenNode, Fault>
    requires { place < length (node_children node.now) }
{
    let child = token(alloc, draws.below(1_000_000))?;
    match draws.below(4) {
        0 => node.replace_child(place, child),
        1 => node.insert_child(place, child),
        2 => node.remove_child(place),
        _ => node.splice_children(place..place.saturating_add(1), [child, token(alloc, 7)?]),
    }
}

/// Searches the child at ranges that are drawn, with another start each.
fn search(node: &GreenNode, draws: &mut Draws, digest: &mut Digest) {
    let len = u32::from(node.text_len());
    let mut starts = Turns::new(draws, len.saturating_add(1));
    let mut steps = Steps::new();
    for _ in 0..TIMES {
        let start = starts.next();
        if start > len {
            break;
        }
        let bytes = (draws.below(4) as u32).min(len - start);
        let range = TextRange::at(TextSize::from(start), TextSize::from(bytes));
        if let Some((index, offset, child)) = node.child_at_range(range, &mut steps) {
            digest.add(index as u64);
            digest.add_element(child.kind(), u32::from(offset), child.text_len());
        }
    }
}

/// Makes a cursor at the node, and goes through its children from both ends.
fn reach(
    alloc: Global,
    node: &GreenNode,
    draws: &mut Draws,
    digest: &mut Digest,
) -> Result<(), Fault> {
    let root: SyntaxNode<Lang> = SyntaxNode::new_root(alloc, node.clone()?)?;
    for child in root.children_with_tokens() {
        add(digest, &child?);
    }
    let mut places = Turns::new(draws, CHILDREN as u32);
    for _ in 0..TIMES {
        if let Some(child) = root.child_or_token_at_index(places.next() as usize)? {
            add(digest, &child);
        }
    }
    Ok(())
}

fn add(digest: &mut Digest, element: &SyntaxElement<Lang>) {
    digest.add_place(Lang::kind_to_raw(element.kind()), element.text_range());
}

/// Lists in each other, each with a word.
fn deep(alloc: Global, levels: usize, draws: &mut Draws) -> Result<String, AllocError> {
    let mut text = String::new(alloc);
    for _ in 0..levels {
        text.push_str(draws.word(["(a ", "(b ", "(c ", "(d "].as_slice()))?;
    }
    for _ in 0..levels {
        text.push_str(")")?;
    }
    Ok(text)
}

/// Replaces the token in the middle, and goes up from it.
fn go_down(alloc: Global, text: &str, digest: &mut Digest) -> Result<(), Fault> {
    let parse = sexp::parse(alloc, text)?;
    digest.add_tree(alloc, parse.green())?;
    let root = parse.syntax(alloc)?;
    let range = root.text_range();
    let offset = TextSize::from(u32::from(range.len()) / 2);
    if !range.contains_inclusive(offset) {
        return Ok(());
    }
    if let Some(token) = root.token_at_offset(offset)?.left_biased() {
        for node in token.parent_ancestors() {
            let node = node?;
            digest.add_place(Lang::kind_to_raw(node.kind()), node.text_range());
        }
        let new = GreenToken::new(alloc, token.green().kind(), "new")?;
        let tree = token.replace_with(new)?;
        digest.add_tree(alloc, &tree)?;
        digest.add(u64::from(&tree == parse.green()));
    }
    digest.add_text(root.text()?.to_text()?.as_bytes());
    Ok(())
}

/// Parentheses, words and white space without order.
fn disordered(alloc: Global, draws: &mut Draws) -> Result<String, AllocError> {
    let mut text = String::new(alloc);
    for _ in 0..CHILDREN {
        text.push_str(draws.word([
            "(", ")", ")", "a", "bc", " ", "\n", "ß", "\u{2028}",
        ].as_slice()))?;
    }
    Ok(text)
}

/// Parses such a text, and goes through all of it.
fn mend(alloc: Global, text: &str, digest: &mut Digest) -> Result<(), Fault> {
    let parse = sexp::parse(alloc, text)?;
    let root = parse.syntax(alloc)?;
    for element in root.descendants_with_tokens() {
        add(digest, &element?);
    }
    digest.add_tree(alloc, parse.green())?;
    Ok(())
}
