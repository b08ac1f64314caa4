//! Searches by place, and the steps that they take.
ghost use Rattle.std.specs.Prelude.{◌≡◌, ◌+◌, ◌≤◌, [], ◌∷◌, not, IfOk};
ghost use Rattle.std.specs.List.{find};
ghost use Rattle.std.specs.Option.{option_map};
ghost use Rattle.rowan.specs.Around.{other_tokens};
ghost use Rattle.rowan.specs.Ast.{has_one_of};
ghost use Rattle.rowan.specs.ChildSearch.{digits};
ghost use Rattle.rowan.specs.Cursor.{text_range};
ghost use Rattle.rowan.specs.Moves.{child_count};
ghost use Rattle.rowan.specs.Refs.{token_place};
ghost use Rattle.rowan.specs.Search.{FindsChild, IsCovering, LiesIn, tokens_at};
ghost use Rattle.rowan.specs.Span.{Holds};
ghost use Rattle.rowan.specs.TokenAtOffset.{tokens_of};
ghost use Rattle.rowan.specs.Types.Direction.TheVariants.{Next};
ghost use Rattle.rowan_examples.specs.Kinds.{kind_of, same_kind};

use crate::kinds::{Kind, Lists};
use rowan::ast::algo;
use rowan::laws::tokens_follow_one_another;
use rowan::{
    Direction, Fault, Steps, SyntaxElement, SyntaxNode, SyntaxToken, SyntaxTokenRef, TextRange,
    TextSize, TokenAtOffset,
};

/// The tokens at an offset.
pub fn tokens_at(
    node: &SyntaxNode<Lists>,
    offset: TextSize,
) -> Result<TokenAtOffset<SyntaxToken<Lists>>, Fault>
    requires { Holds (text_range node.now) offset }
    ensures { IfOk result (λ tokens. tokens_of tokens ≡ tokens_at offset node.now) }
{
    node.token_at_offset(offset)
}

/// The innermost element that has all of a range.
pub fn innermost(node: &SyntaxNode<Lists>, range: TextRange) -> Result<SyntaxElement<Lists>, Fault>
    requires { LiesIn range (text_range node.now) }
    ensures { IfOk result (IsCovering range node.now) }
{
    node.covering_element(range)
}

/// The child at a range, found with few comparisons.
pub fn child_at(
    node: &SyntaxNode<Lists>,
    range: TextRange,
    steps: &mut Steps,
) -> Result<Option<SyntaxElement<Lists>>, Fault>
    ensures ok { IfOk result (FindsChild range node.now) }
    ensures steps { let count = child_count node.now.root node.now.path in
        steps.new.comparisons ≤ steps.old.comparisons + digits count }
{
    node.child_or_token_at_range_counted(range, steps)
}

/// The next token that is no space.
pub fn next_word<'tree>(token: SyntaxTokenRef<'tree, Lists>) -> Option<SyntaxTokenRef<'tree, Lists>>
    ensures { let is_space = has_one_of kind_of same_kind (Kind.Space ∷ []) in
        option_map token_place result
        ≡ find (λ t. not (is_space t)) (other_tokens Next (token_place token.entry)) }
{
    tokens_follow_one_another();
    match token.next_token() {
        Some(next) => algo::skip_trivia_token(next, Direction::Next, &[Kind::Space]),
        None => None,
    }
}
