//! Searches around a place, as tools for code make them: what is under the cursor of an editor,
//! what a range is part of, what stands beside a node but for white space.
ghost use Rattle.std.specs.Prelude.{◌≡◌, [], IsSome, not};
ghost use Rattle.std.specs.List.{find};
ghost use Rattle.std.specs.Option.{option_map, option_map_or};
ghost use Rattle.rowan_green.specs.Span.{Holds};
ghost use Rattle.rowan_table.specs.Cursor.{text_range};
ghost use Rattle.rowan_table.specs.Moves.{Element, parent_ancestors, element_ancestors};
ghost use Rattle.rowan_table.specs.Search.{LiesIn, IsCovering, tokens_at};
ghost use Rattle.rowan_api.specs.Refs.{node_place, token_place, element_place, rest_of_ancestors};
ghost use Rattle.rowan.specs.Around.{innermost, shorter, other_siblings, other_tokens};
ghost use Rattle.rowan.specs.Around.{tokens_from};
ghost use Rattle.rowan.specs.Ast.{casts_at, has_one_of, is_token_of, means_one_of};

use super::AstNodeRef;
use super::alike::is_token_among;
pub use super::ancestors_at_offset::{AncestorsAtOffset, ancestors_at_offset};
use crate::api::{
    AncestorsRef, Language, SyntaxElementRef, SyntaxNodeRef, SyntaxTokenRef, TypedElementRefCalls,
};
use rowan_green::text::{TextRange, TextSize};
use rowan_green::utility_types::{Direction, NodeOrToken, TokenAtOffset};

/// The innermost node that casts, of those around the tokens that touch an offset of the root's
/// text, in bytes. Where the offset lies between two tokens it is the shorter of the two nodes that
/// are innermost around each; of two that are as long, the left one. `None` where none casts, and
/// where the offset does not lie in the node's range.
pub fn find_node_at_offset<'tree, N: AstNodeRef<'tree>>(
    node: SyntaxNodeRef<'tree, N::Language>,
    offset: TextSize,
) -> Option<N>
    ensures inside { let c = node_place node.entry in
        let casts = casts_at N.Language.meaning N.casts in Holds (text_range c) offset
        → option_map N.node_of result ≡ innermost casts (tokens_at offset c) }
    ensures some { IsSome result → Holds (text_range (node_place node.entry)) offset }
{
    if !node.text_range().contains_inclusive(offset) {
        return None;
    }
    match node.token_at_offset(offset) {
        TokenAtOffset::None => None,
        TokenAtOffset::Single(token) => node_around(token),
        TokenAtOffset::Between(left, right) => shorter(node_around(left), node_around(right)),
    }
}

/// The innermost node that casts and covers a range of the root's text, in bytes: of the element
/// that `covering_element` finds and the nodes above it, the first that casts. `None` where none
/// does, and where the range does not lie in the node's.
pub fn find_node_at_range<'tree, N: AstNodeRef<'tree>>(
    node: SyntaxNodeRef<'tree, N::Language>,
    range: TextRange,
) -> Option<N>
    ensures inside { let c = node_place node.entry in
        let casts = casts_at N.Language.meaning N.casts in LiesIn range (text_range c)
        → (e : Element) × IsCovering range c e
        × (option_map N.node_of result ≡ find casts (element_ancestors e)) }
    ensures some { IsSome result → LiesIn range (text_range (node_place node.entry)) }
{
    if !node.text_range().contains_range(range) {
        return None;
    }
    match node.covering_element(range) {
        NodeOrToken::Node(node) => first_that_casts(node.ancestors()),
        NodeOrToken::Token(token) => first_that_casts(token.parent_ancestors()),
    }
}

/// The nearest sibling in a direction that is a node, or a token of another kind than these: what
/// stands beside an element but for white space and comments.
pub fn non_trivia_sibling<'tree, L: Language>(
    element: SyntaxElementRef<'tree, L>,
    direction: Direction,
    trivia: &[L::Kind],
) -> Option<SyntaxElementRef<'tree, L>>
    ensures { let is_trivia = is_token_of (means_one_of L.meaning L.Kind.eq trivia.now) in
        option_map element_place result
        ≡ find (λ e. not (is_trivia e)) (other_siblings direction (element_place element.entry)) }
{
    let mut siblings = match element {
        NodeOrToken::Node(node) => node.siblings_with_tokens(direction),
        NodeOrToken::Token(token) => token.siblings_with_tokens(direction),
    };
    siblings.next();
    while let Some(sibling) = siblings.next() {
        if !is_token_among(sibling, trivia) {
            return Some(sibling);
        }
    }
    None
}

/// The first token of another kind than these, from a token on in a direction, itself included: the
/// next one that is no white space and no comment, in whatever node. `None` where all tokens up to
/// that end of the tree are of these kinds.
pub fn skip_trivia_token<'tree, L: Language>(
    token: SyntaxTokenRef<'tree, L>,
    direction: Direction,
    trivia: &[L::Kind],
) -> Option<SyntaxTokenRef<'tree, L>>
    ensures { let is_trivia = has_one_of L.meaning L.Kind.eq trivia.now in
        option_map token_place result
        ≡ find (λ t. not (is_trivia t)) (tokens_from direction (token_place token.entry)) }
{
    let mut here = token;
    while trivia.contains(&here.kind()) {
        match neighbour(here, direction) {
            Some(token) => here = token,
            None => return None,
        }
    }
    Some(here)
}

/// The next token in a direction.
fn neighbour<'tree, L: Language>(
    token: SyntaxTokenRef<'tree, L>,
    direction: Direction,
) -> Option<SyntaxTokenRef<'tree, L>>
    ensures { other_tokens direction (token_place token.entry)
        ≡ option_map_or (tokens_from direction) (option_map token_place result) [] }
{
    match direction {
        Direction::Next => token.next_token(),
        Direction::Prev => token.prev_token(),
    }
}

/// The innermost node around a token that casts.
fn node_around<'tree, N: AstNodeRef<'tree>>(token: SyntaxTokenRef<'tree, N::Language>) -> Option<N>
    ensures { let casts = casts_at N.Language.meaning N.casts in
        option_map N.node_of result ≡ find casts (parent_ancestors (token_place token.entry)) }
{
    first_that_casts(token.parent_ancestors())
}

/// The first node that casts, of one and those above it.
fn first_that_casts<'tree, N: AstNodeRef<'tree>>(
    nodes: AncestorsRef<'tree, N::Language>,
) -> Option<N>
    ensures { let casts = casts_at N.Language.meaning N.casts in
        option_map N.node_of result ≡ find casts (rest_of_ancestors nodes.entry) }
{
    let mut nodes = nodes;
    while let Some(node) = nodes.next() {
        if N::can_cast(node.kind()) {
            return N::cast(node);
        }
    }
    None
}

/// The shorter of two nodes, and of two that are as long the left one.
fn shorter<'tree, N: AstNodeRef<'tree>>(left: Option<N>, right: Option<N>) -> Option<N>
    ensures { option_map N.node_of result
        ≡ shorter (option_map N.node_of left) (option_map N.node_of right) }
{
    match (left, right) {
        (Some(first), Some(second)) => {
            if second.syntax().text_range().len() < first.syntax().text_range().len() {
                Some(second)
            } else {
                Some(first)
            }
        }
        (Some(first), None) => Some(first),
        (None, second) => second,
    }
}
