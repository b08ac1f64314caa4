//! What the calls of wrappers are made of: the children of a node that cast, and its tokens of a
//! kind. Each stands there twice, of a node and of one that is borrowed from its tree; of a
//! borrowed one only what is found shares the tree. Each is refused with `Memory` alone.
ghost use Rattle.std.specs.Prelude.{◌≡◌, IfOk, IfErr};
ghost use Rattle.std.specs.List.{find};
ghost use Rattle.std.specs.Option.{option_map};
ghost use Rattle.rowan_green.specs.declared.utility_types.NodeOrToken.TheVariants.{Token};
ghost use Rattle.rowan_table.specs.Moves.{children, children_with_tokens};
ghost use Rattle.rowan_api.specs.Refs.{node_place, token_place};
ghost use Rattle.rowan.specs.Ast.{casts_at, is_token_of, rest_of_children};
ghost use Rattle.rowan.specs.Pointer.{means_kind};

pub use super::alike::{nth_child, nth_child_ref, nth_token, nth_token_ref};
pub use super::nodes_ref::{child_ref, children_ref};
use super::{AstChildren, AstChildrenRef, AstNode};
use crate::api::{Language, SyntaxNode, SyntaxNodeRef, SyntaxToken, SyntaxTokenRef};
use crate::fault::Fault;

/// The first child that casts.
pub fn child<N: AstNode>(parent: &SyntaxNode<N::Language>) -> Result<Option<N>, Fault>
    ensures ok { let casts = casts_at N.Language.meaning N.casts in
        IfOk result (λ found. option_map N.node_of found ≡ find casts (children parent.now)) }
    ensures err { IfErr result (λ e. e ≡ Fault.Memory) }
{
    child_of(parent.as_ref())
}

/// The first child of a borrowed node that casts.
pub fn child_of<N: AstNode>(parent: SyntaxNodeRef<'_, N::Language>) -> Result<Option<N>, Fault>
    ensures ok { let casts = casts_at N.Language.meaning N.casts in IfOk result (λ found.
        option_map N.node_of found ≡ find casts (children (node_place parent.entry))) }
    ensures err { IfErr result (λ e. e ≡ Fault.Memory) }
{
    let mut nodes = parent.children();
    while let Some(node) = nodes.next() {
        if N::can_cast(node.kind()) {
            return Ok(N::cast(node.to_owned()?));
        }
    }
    Ok(None)
}

/// The children that cast, in order.
pub fn children<N: AstNode>(parent: &SyntaxNode<N::Language>) -> AstChildren<N>
    ensures ok { IfOk result (λ nodes. nodes ≡ children parent.now) }
    ensures err { IfErr result (λ e. e ≡ Fault.Memory) }
{
    AstChildren::new(parent)
}

/// The children of a borrowed node that cast, in order.
pub fn children_of<'tree, N: AstNode>(
    parent: SyntaxNodeRef<'tree, N::Language>,
) -> AstChildrenRef<'tree, N>
    ensures { rest_of_children result ≡ children (node_place parent.entry) }
{
    AstChildrenRef::new(parent)
}

/// The first child that is a token of a kind.
pub fn token<L: Language>(
    parent: &SyntaxNode<L>,
    kind: L::Kind,
) -> Result<Option<SyntaxToken<L>>, Fault>
    ensures ok { let is_meant = is_token_of (means_kind L.meaning L.Kind.eq kind) in
        IfOk result (λ found.
        option_map Token found ≡ find is_meant (children_with_tokens parent.now)) }
    ensures err { IfErr result (λ e. e ≡ Fault.Memory) }
{
    match token_of(parent.as_ref(), kind) {
        Some(token) => Ok(Some(token.to_owned()?)),
        None => Ok(None),
    }
}

/// The first child of a borrowed node that is a token of a kind.
pub fn token_of<'tree, L: Language>(
    parent: SyntaxNodeRef<'tree, L>,
    kind: L::Kind,
) -> Option<SyntaxTokenRef<'tree, L>>
    ensures { let is_meant = is_token_of (means_kind L.meaning L.Kind.eq kind) in
        option_map Token (option_map token_place result)
        ≡ find is_meant (children_with_tokens (node_place parent.entry)) }
{
    parent.first_token_of_kind(kind)
}
