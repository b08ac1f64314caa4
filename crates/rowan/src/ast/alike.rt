//! The parts of a node that are alike: the first and the second expression of a sum, or a sign that
//! is one of several tokens. Each part is the one at an index among the children of some kinds.
ghost use Rattle.std.specs.Prelude.{◌≡◌, filter, slice_get, IfOk, IfErr};
ghost use Rattle.std.specs.List.{list_any};
ghost use Rattle.std.specs.Option.{option_map, option_and_then};
ghost use Rattle.rowan_green.specs.declared.utility_types.NodeOrToken.TheVariants.{Token};
ghost use Rattle.rowan_table.specs.Moves.{children, children_with_tokens};
ghost use Rattle.rowan_api.specs.Refs.{node_place, token_place, element_place};
ghost use Rattle.rowan.specs.Ast.{casts_at, if_casts, has_one_of, is_token_of, means_one_of};

use super::{AstNode, AstNodeRef};
use crate::api::{
    Language, SyntaxElementRef, SyntaxNode, SyntaxNodeRef, SyntaxToken, SyntaxTokenRef,
};
use crate::fault::Fault;
use rowan_green::utility_types::NodeOrToken;

/// Whether a node has one of these kinds.
fn is_among<L: Language>(node: SyntaxNodeRef<'_, L>, kinds: &[L::Kind]) -> bool
    ensures { result ≡ has_one_of L.meaning L.Kind.eq kinds.now (node_place node.entry) }
{
    kinds.contains(&node.kind())
}

/// Of the children of a borrowed node whose kind is one of these, the one at an index.
fn nth_of_kinds<'tree, L: Language>(
    parent: SyntaxNodeRef<'tree, L>,
    kinds: &[L::Kind],
    index: usize,
) -> Option<SyntaxNodeRef<'tree, L>>
    ensures { let alike = has_one_of L.meaning L.Kind.eq kinds.now in
        option_map node_place result
        ≡ slice_get (filter alike (children (node_place parent.entry))) index }
{
    let mut left = index;
    let mut nodes = parent.children();
    while let Some(node) = nodes.next() {
        if is_among(node, kinds) {
            if left == 0 {
                return Some(node);
            }
            left -= 1;
        }
    }
    None
}

/// Of the children of a borrowed node whose kind is one of these, the one at an index, in a
/// borrowed wrapper. `None` where there are not so many, and where that one does not cast.
pub fn nth_child_ref<'tree, N: AstNodeRef<'tree>>(
    parent: SyntaxNodeRef<'tree, N::Language>,
    kinds: &[<N::Language as Language>::Kind],
    index: usize,
) -> Option<N>
    ensures { let alike = has_one_of N.Language.meaning N.Language.Kind.eq kinds.now in
        let casts = casts_at N.Language.meaning N.casts in
        option_map N.node_of result ≡ option_and_then (if_casts casts)
        (slice_get (filter alike (children (node_place parent.entry))) index) }
{
    match nth_of_kinds(parent, kinds, index) {
        Some(node) => N::cast(node),
        None => None,
    }
}

/// Of the children of a node whose kind is one of these, the one at an index, in its wrapper.
/// `None` where there are not so many, and where that one does not cast. Refused with `Memory`
/// alone.
pub fn nth_child<N: AstNode>(
    parent: &SyntaxNode<N::Language>,
    kinds: &[<N::Language as Language>::Kind],
    index: usize,
) -> Result<Option<N>, Fault>
    ensures ok { let alike = has_one_of N.Language.meaning N.Language.Kind.eq kinds.now in
        let casts = casts_at N.Language.meaning N.casts in IfOk result (λ found.
        option_map N.node_of found ≡ option_and_then (if_casts casts)
        (slice_get (filter alike (children parent.now)) index)) }
    ensures err { IfErr result (λ e. e ≡ Fault.Memory) }
{
    match nth_of_kinds(parent.as_ref(), kinds, index) {
        Some(node) => Ok(N::cast(node.to_owned()?)),
        None => Ok(None),
    }
}

/// Whether an element is a token of one of these kinds.
pub(super) fn is_token_among<L: Language>(
    element: SyntaxElementRef<'_, L>,
    kinds: &[L::Kind],
) -> bool
    ensures { let means = means_one_of L.meaning L.Kind.eq kinds.now in
        result ≡ is_token_of means (element_place element.entry) }
{
    match element {
        NodeOrToken::Token(token) => kinds.contains(&token.kind()),
        NodeOrToken::Node(_) => false,
    }
}

/// Of the children of a borrowed node that are tokens of one of these kinds, the one at an index.
pub fn nth_token_ref<'tree, L: Language>(
    parent: SyntaxNodeRef<'tree, L>,
    kinds: &[L::Kind],
    index: usize,
) -> Option<SyntaxTokenRef<'tree, L>>
    ensures { let alike = is_token_of (means_one_of L.meaning L.Kind.eq kinds.now) in
        option_map Token (option_map token_place result)
        ≡ slice_get (filter alike (children_with_tokens (node_place parent.entry))) index }
{
    let mut left = index;
    let mut elements = parent.children_with_tokens();
    while let Some(element) = elements.next() {
        if is_token_among(element, kinds) {
            if left == 0 {
                return match element {
                    NodeOrToken::Token(token) => Some(token),
                    NodeOrToken::Node(_) => None,
                };
            }
            left -= 1;
        }
    }
    None
}

/// Of the children of a node that are tokens of one of these kinds, the one at an index. Refused
/// with `Memory` alone.
pub fn nth_token<L: Language>(
    parent: &SyntaxNode<L>,
    kinds: &[L::Kind],
    index: usize,
) -> Result<Option<SyntaxToken<L>>, Fault>
    ensures ok { let alike = is_token_of (means_one_of L.meaning L.Kind.eq kinds.now) in
        IfOk result (λ found. option_map Token found
        ≡ slice_get (filter alike (children_with_tokens parent.now)) index) }
    ensures err { IfErr result (λ e. e ≡ Fault.Memory) }
{
    match nth_token_ref(parent.as_ref(), kinds, index) {
        Some(token) => Ok(Some(token.to_owned()?)),
        None => Ok(None),
    }
}
