//! Trees of events: each list of events has a tree, and its leaves have the text of the tokens.
ghost use Rattle.std.specs.Prelude.{◌≡◌, ◌+◌, ◌-◌, ◌<◌, ◌≤◌, ◌++◌, ◌∷◌, [], length, IfOk, IfErr};
ghost use Rattle.std.specs.Prelude.{ℕ, OnOk, OnErr, IsTrue, false, cond, take, drop, ltb};
ghost use Rattle.std.specs.Prelude.{take_while, string_bytes};
ghost use Rattle.std.specs.List.{list_any};
ghost use Rattle.rowan_builder.specs.Cache.{first_seen};
ghost use Rattle.rowan_builder.specs.Loan.{value_of, word_of, loan_of};
ghost use Rattle.rowan_terms.specs.Path.{tokens};
ghost use Rattle.rowan_builder.specs.Stream.{subterms, Grows, BuildsOn};
ghost use Rattle.rowan_green.specs.Term.{node_kind, node_text};
ghost use Rattle.rowan_green.specs.Word.{Open, Close, node_word};
ghost use Rattle.rowan_green.specs.declared.utility_types.NodeOrToken.TheVariants.{Node};
ghost use Rattle.rowan_events.specs.Tokens.{tokens_text, token_terms};
ghost use Rattle.rowan_parser.specs.Building.{WhyRefused, WhyNotPut, IsAhead, IsBuilding, IsBuilt};
ghost use Rattle.rowan_parser.specs.Building.{raw, to_come, AreDone};
ghost use Rattle.rowan_parser.specs.Events.{begun, is_trivia, is_pair, outside, past};
ghost use Rattle.rowan_parser.specs.Events.{begins_with};
ghost use Rattle.rowan_lines.specs.Lines.{line_ends};
ghost use Rattle.rowan_parser.specs.Outside.{outside_of};
ghost use Rattle.rowan_events.specs.Seen.{has};
ghost use Rattle.rowan_parser.specs.Events.{up_to, behind, leaves, one_leaf, closings};
ghost use Rattle.rowan_parser.specs.Events.{tree_word, join_some, Puts};
ghost use Rattle.rowan_parser.specs.Shape.{around, enters, steps, Enter};

use rowan::{Fault, GreenNode, GreenNodeBuilder, NodeCache, SyntaxKind};
use rowan_events::event::Event;
use rowan_events::lexer::Token;
use rowan_events::token_set::TokenSet;
use std::alloc::Global;

/// Which tokens a grammar does not see, and where they stand.
#[derive(Clone, Copy)]
pub struct Trivia<'a> {
    /// The kinds of these tokens, as spaces and comments.
    pub kinds: TokenSet,
    /// Kinds of nodes, each with the kinds of trivia that belong to such a node where they stand
    /// before it, as comments that document a function. The trivia before a node stand in it from
    /// the first of these on behind the last blank line. So a comment that a blank line parts from
    /// a function stays outside of it, as a licence at the head of a file. Where two lines end in
    /// one token of trivia of another kind, that is a blank line.
    pub attached: &'a [(SyntaxKind, TokenSet)],
}

/// What a tree is built of.
#[derive(Clone, Copy)]
pub struct Source<'a, 'text> {
    pub root_kind: SyntaxKind,
    pub tokens: &'a [Token<'text>],
    pub trivia: Trivia<'a>,
    pub events: &'a [Event],
}

/// How far the tree is built.
#[derive(Clone, Copy)]
pub(crate) struct Progress {
    /// How many tokens are put.
    put: usize,
    /// The number of the first token from there on that is no trivia.
    next: usize,
    /// How many nodes are open in the root.
    depth: usize,
}

/// Builds the tree of events, whatever they are. A root is opened around all. An event that closes
/// a node where none is open does nothing; what is open at the end is closed, and tokens that no
/// event took stand in the root.
///
/// Trivia stand before the node that begins behind them, unless they are attached to it, and behind
/// the node that ends before them; trivia between two parts of a node stand in it.
///
/// Errors: `TextTooLong` if the text has more than 4,294,967,295 bytes; `TooManyChildren` if a node
/// of the tree has more than 4,294,967,295 children; `Memory` if an allocation failed.
pub fn build_tree(alloc: Global, source: &Source<'_, '_>) -> Result<GreenNode, Fault>
    ensures kind { IfOk result (λ tree. node_kind tree ≡ source.now.root_kind.0) }
    ensures shape { IfOk result (λ tree. node_word tree
        ≡ tree_word source.now.root_kind.0 source.now.trivia source.now.tokens.now
        source.now.events.now) }
    ensures text { IfOk result (λ tree. node_text tree ≡ tokens_text source.now.tokens.now) }
    ensures tokens { join_some source.now.events.now ≡ false → IfOk result (λ tree.
        tokens (Node tree) ≡ token_terms source.now.tokens.now) }
    ensures err { IfErr result (WhyRefused
        (tree_word source.now.root_kind.0 source.now.trivia source.now.tokens.now
        source.now.events.now) source.now.tokens.now) }
{
    let mut cache = NodeCache::new(alloc);
    build_tree_with(alloc, source, &mut cache)
}

/// Builds the tree of events as `build_tree` does, with a cache that is lent to the builder: what
/// stands in the cache is shared, and what the tree has of tokens and of small nodes is in the
/// cache afterwards.
pub fn build_tree_with(
    alloc: Global,
    source: &Source<'_, '_>,
    cache: &mut NodeCache,
) -> Result<GreenNode, Fault>
    ensures kind { IfOk result (λ tree. node_kind tree ≡ source.now.root_kind.0) }
    ensures shape { IfOk result (λ tree. node_word tree
        ≡ tree_word source.now.root_kind.0 source.now.trivia source.now.tokens.now
        source.now.events.now) }
    ensures text { IfOk result (λ tree. node_text tree ≡ tokens_text source.now.tokens.now) }
    ensures tokens { join_some source.now.events.now ≡ false → IfOk result (λ tree.
        tokens (Node tree) ≡ token_terms source.now.tokens.now) }
    ensures err { IfErr result (WhyRefused
        (tree_word source.now.root_kind.0 source.now.trivia source.now.tokens.now
        source.now.events.now) source.now.tokens.now) }

    // What is left in the cache.
    ensures interned { IfOk result (λ tree.
        cache.new.seen ≡ first_seen cache.old.limit (cache.old.seen ++ subterms (Node tree))) }
    ensures grows { Grows cache.old cache.new }
{
    let mut builder = GreenNodeBuilder::with_cache(alloc, cache);
    replay(alloc, &mut builder, source)?;
    match builder.finish() {
        Ok(tree) => return Ok(tree),
        Err(_unfinished) => unreachable!(),
    }
}

/// Puts the root, with all events and all tokens in it.
fn replay(
    alloc: Global,
    builder: &mut GreenNodeBuilder<'_>,
    source: &Source<'_, '_>,
) -> Result<(), Fault>
    requires empty { word_of builder.old ≡ [] }
    ensures ok { OnOk result (IsBuilt source.now.root_kind.0 (word_of builder.new)) }
    ensures spells { OnOk result (word_of builder.new
        ≡ tree_word source.now.root_kind.0 source.now.trivia source.now.tokens.now
        source.now.events.now) }
    ensures err { IfErr result (WhyRefused
        (tree_word source.now.root_kind.0 source.now.trivia source.now.tokens.now
        source.now.events.now) source.now.tokens.now) }
    ensures stream { BuildsOn (value_of builder.old) (value_of builder.new) }
    ensures loan { loan_of builder.new ≡ loan_of builder.old }
{
    builder.start_node(source.root_kind)?;
    let mut progress = Progress {
        put: 0,
        next: next_seen(source, 0),
        depth: 0,
    };
    let mut kinds = Vec::new(alloc);
    let mut events = source.events;
    while let Some((event, others)) = events.split_first() {
        progress = put_event(alloc, builder, source, &mut kinds, progress, event, others)?;
        events = others;
    }
    let progress = close_all(builder, source, progress)?;
    let all_put = put_rest(builder, source, progress)?;
    builder.finish_node()
}

/// Puts what an event says, behind which these others stand. `kinds` is there to be filled, and is
/// left empty.
fn put_event(
    alloc: Global,
    builder: &mut GreenNodeBuilder<'_>,
    source: &Source<'_, '_>,
    kinds: &mut Vec<SyntaxKind>,
    progress: Progress,
    event: &Event,
    others: &[Event],
) -> Result<Progress, Fault>
    requires building { IsBuilding source.now (word_of builder.old) progress }
    requires no_kinds { kinds.old.items ≡ [] }
    ensures ok { IfOk result (IsBuilding source.now (word_of builder.new)) }
    ensures spells { IfOk result (λ p. to_come source.now (word_of builder.new) p
        (steps others.now) ≡ to_come source.now (word_of builder.old) progress
        (steps (event.now ∷ others.now))) }
    ensures no_kinds { IfOk result (λ _. kinds.new.items ≡ []) }
    ensures err { IfErr result (WhyRefused (to_come source.now (word_of builder.old) progress
        (steps (event.now ∷ others.now))) source.now.tokens.now) }
    ensures stream { BuildsOn (value_of builder.old) (value_of builder.new) }
    ensures loan { loan_of builder.new ≡ loan_of builder.old }
{
    match event {
        Event::Open(kind, outer) => {
            if *outer == 0 {
                return open_node(builder, source, progress, *kind);
            }
            find_around(kinds, others, *outer)?;
            open_nodes(builder, source, progress, kinds, *kind)
        }
        Event::Close => close_node(builder, source, progress),
        Event::Token => {
            let progress = put_trivia(builder, source, progress)?;
            put_token(builder, source, progress)
        }
        Event::Joined(kind, count) => {
            let progress = put_trivia(builder, source, progress)?;
            put_joined(alloc, builder, source, progress, *kind, *count)
        }
        Event::Around(_, _) => Ok(progress),
        Event::Nothing => Ok(progress),
    }
}

/// Fills `kinds` with the kinds of the nodes around one, from the inside out, of which the first is
/// so many events on.
#[tactic(auto, using(crate::proofs::Around::around_done))]
fn find_around(kinds: &mut Vec<SyntaxKind>, events: &[Event], mut outer: u32) -> Result<(), Fault>
    requires { kinds.old.items ≡ [] }
    ensures ok { OnOk result (raw kinds.new.items ≡ around outer events.now) }
    ensures err { IfErr result (λ e. e ≡ Fault.Memory) }
{
    let mut rest = events;
    while outer > 0 {
        let distance = outer as usize;
        if distance > rest.len() {
            return Ok(());
        }
        let (_, others) = rest.split_at(distance);
        match begun(rest[distance - 1]) {
            Some(node) => {
                kinds.push(node.0)?;
                outer = node.1;
            }
            None => return Ok(()),
        }
        rest = others;
    }
    Ok(())
}

/// The kind of the node that begins at an event, and how many events on the one around it begins.
fn begun(event: Event) -> Option<(SyntaxKind, u32)>
    ensures { result ≡ begun event }
{
    match event {
        Event::Open(kind, outer) => Some((kind, outer)),
        Event::Around(kind, outer) => Some((kind, outer)),
        Event::Close => None,
        Event::Token => None,
        Event::Joined(_, _) => None,
        Event::Nothing => None,
    }
}

/// Opens nodes of these kinds, the last one first, and in them one of this kind. No kinds are left.
#[tactic(auto, using(crate::proofs::Spelling::opening_begins))]
fn open_nodes(
    builder: &mut GreenNodeBuilder<'_>,
    source: &Source<'_, '_>,
    mut progress: Progress,
    kinds: &mut Vec<SyntaxKind>,
    kind: SyntaxKind,
) -> Result<Progress, Fault>
    requires { IsBuilding source.now (word_of builder.old) progress }
    ensures ok { IfOk result (IsBuilding source.now (word_of builder.new)) }
    ensures done { IfOk result (AreDone source.now (word_of builder.old) progress
        (enters (raw kinds.old.items) ++ Enter kind.0 ∷ []) (word_of builder.new)) }
    ensures no_kinds { IfOk result (λ _. kinds.new.items ≡ []) }
    ensures err { IfErr result (WhyNotPut source.now.tokens.now) }
    ensures stream { BuildsOn (value_of builder.old) (value_of builder.new) }
    ensures loan { loan_of builder.new ≡ loan_of builder.old }
{
    while let Some(outer) = kinds.pop() {
        progress = open_node(builder, source, progress, outer)?;
    }
    open_node(builder, source, progress, kind)
}

/// Opens a node: behind the trivia that come next, or, from the first one that is attached to it,
/// around them.
#[inline(always)]
fn open_node(
    builder: &mut GreenNodeBuilder<'_>,
    source: &Source<'_, '_>,
    progress: Progress,
    kind: SyntaxKind,
) -> Result<Progress, Fault>
    requires { IsBuilding source.now (word_of builder.old) progress }
    ensures ok { IfOk result (IsBuilding source.now (word_of builder.new)) }
    ensures done { IfOk result (AreDone source.now (word_of builder.old) progress
        (Enter kind.0 ∷ []) (word_of builder.new)) }
    ensures err { IfErr result (WhyNotPut source.now.tokens.now) }
    ensures stream { BuildsOn (value_of builder.old) (value_of builder.new) }
    ensures loan { loan_of builder.new ≡ loan_of builder.old }
{
    let progress = put_trivia_before(builder, source, progress, kind)?;
    let progress = start_node(builder, source, progress, kind)?;
    if source.trivia.attached.is_empty() {
        return Ok(progress);
    }
    put_trivia(builder, source, progress)
}

fn start_node(
    builder: &mut GreenNodeBuilder<'_>,
    source: &Source<'_, '_>,
    progress: Progress,
    kind: SyntaxKind,
) -> Result<Progress, Fault>
    requires { IsBuilding source.now (word_of builder.old) progress }
    ensures ok { IfOk result (IsBuilding source.now (word_of builder.new)) }
    ensures opens { IfOk result (λ p. word_of builder.new
        ≡ word_of builder.old ++ Open kind.0 ∷ []) }
    ensures same { IfOk result (λ p. p.put ≡ progress.put) }
    ensures more { IfOk result (λ p. p.depth ≡ progress.depth + 1) }
    ensures err { IfErr result (WhyNotPut source.now.tokens.now) }
    ensures stream { BuildsOn (value_of builder.old) (value_of builder.new) }
    ensures loan { loan_of builder.new ≡ loan_of builder.old }
{
    let Some(depth) = progress.depth.checked_add(1) else {
        return Err(Fault::Memory);
    };
    builder.start_node(kind)?;
    Ok(Progress {
        put: progress.put,
        next: progress.next,
        depth,
    })
}

/// Closes the innermost node, unless that is the root.
fn close_node(
    builder: &mut GreenNodeBuilder<'_>,
    source: &Source<'_, '_>,
    progress: Progress,
) -> Result<Progress, Fault>
    requires { IsBuilding source.now (word_of builder.old) progress }
    ensures ok { IfOk result (IsBuilding source.now (word_of builder.new)) }
    ensures closes { 0 < progress.depth
        → IfOk result (λ p. word_of builder.new ≡ word_of builder.old ++ Close ∷ []) }
    ensures none { progress.depth ≡ 0 → word_of builder.new ≡ word_of builder.old }
    ensures same { IfOk result (λ p. p.put ≡ progress.put) }
    ensures less { IfOk result (λ p. p.depth ≡ progress.depth - 1) }
    ensures err { IfErr result (WhyRefused (word_of builder.old ++ Close ∷ [])
        source.now.tokens.now) }
    ensures some { OnErr result (0 < progress.depth) }
    ensures stream { BuildsOn (value_of builder.old) (value_of builder.new) }
    ensures loan { loan_of builder.new ≡ loan_of builder.old }
{
    if progress.depth == 0 {
        return Ok(progress);
    }
    builder.finish_node()?;
    Ok(Progress {
        put: progress.put,
        next: progress.next,
        depth: progress.depth - 1,
    })
}

/// Closes all nodes but the root.
fn close_all(
    builder: &mut GreenNodeBuilder<'_>,
    source: &Source<'_, '_>,
    mut progress: Progress,
) -> Result<Progress, Fault>
    requires { IsBuilding source.now (word_of builder.old) progress }
    ensures ok { IfOk result (IsBuilding source.now (word_of builder.new)) }
    ensures closes { IfOk result (λ p. word_of builder.new
        ≡ word_of builder.old ++ closings progress.depth) }
    ensures same { IfOk result (λ p. p.put ≡ progress.put) }
    ensures none { IfOk result (λ p. p.depth ≡ 0) }
    ensures err { IfErr result (WhyRefused (word_of builder.old ++ closings progress.depth)
        source.now.tokens.now) }
    ensures stream { BuildsOn (value_of builder.old) (value_of builder.new) }
    ensures loan { loan_of builder.new ≡ loan_of builder.old }
{
    while progress.depth > 0 {
        progress = close_node(builder, source, progress)?;
    }
    Ok(progress)
}

/// Puts the next token, if there is one.
#[tactic(auto, using(crate::proofs::Passing::puts_none))]
fn put_token(
    builder: &mut GreenNodeBuilder<'_>,
    source: &Source<'_, '_>,
    progress: Progress,
) -> Result<Progress, Fault>
    requires { IsBuilding source.now (word_of builder.old) progress }
    ensures ok { IfOk result (IsBuilding source.now (word_of builder.new)) }
    ensures puts { let left = drop progress.put source.now.tokens.now in
        IfOk result (λ p. Puts source.now.tokens.now (word_of builder.old)
        (leaves (take 1 left)) (drop 1 left) (word_of builder.new) p.put) }
    ensures same { IfOk result (λ p. p.depth ≡ progress.depth) }
    ensures more { progress.put < length source.now.tokens.now
        → IfOk result (λ p. p.put ≡ progress.put + 1) }
    ensures err { IfErr result (WhyNotPut source.now.tokens.now) }
    ensures stream { BuildsOn (value_of builder.old) (value_of builder.new) }
    ensures loan { loan_of builder.new ≡ loan_of builder.old }
{
    let Some(token) = source.tokens.get(progress.put) else {
        return Ok(progress);
    };
    builder.token(token.kind, token.text)?;
    Ok(Progress {
        put: progress.put + 1,
        next: next_after(source, progress),
        depth: progress.depth,
    })
}

/// Puts so many of the next tokens that are no trivia, and what stands between them, as one leaf of
/// this kind.
fn put_joined(
    alloc: Global,
    builder: &mut GreenNodeBuilder<'_>,
    source: &Source<'_, '_>,
    progress: Progress,
    kind: SyntaxKind,
    count: u32,
) -> Result<Progress, Fault>
    requires { IsBuilding source.now (word_of builder.old) progress }
    ensures ok { IfOk result (IsBuilding source.now (word_of builder.new)) }
    ensures puts { let left = drop progress.put source.now.tokens.now in
        IfOk result (λ p. Puts source.now.tokens.now (word_of builder.old)
        (one_leaf kind.0 (up_to source.now.trivia count left))
        (behind source.now.trivia count left) (word_of builder.new) p.put) }
    ensures same { IfOk result (λ p. p.depth ≡ progress.depth) }
    ensures err { IfErr result (WhyNotPut source.now.tokens.now) }
    ensures stream { BuildsOn (value_of builder.old) (value_of builder.new) }
    ensures loan { loan_of builder.new ≡ loan_of builder.old }
{
    let (_, left) = source.tokens.split_at(progress.put);
    let (tokens, _) = left.split_at(joined_len(left, source.trivia, count));
    put_leaf(alloc, builder, kind, tokens)?;
    let put = progress.put + tokens.len();
    Ok(Progress {
        put,
        next: next_seen(source, put),
        depth: progress.depth,
    })
}

/// How many tokens a leaf has that is joined of so many that are no trivia.
fn joined_len(tokens: &[Token<'_>], trivia: Trivia<'_>, mut count: u32) -> usize
    ensures { result ≡ length (up_to trivia.entry count tokens.now) }
{
    let mut len = 0;
    for token in tokens {
        if count == 0 {
            return len;
        }
        count = count_behind(trivia, token, count);
        len += 1;
    }
    len
}

/// How many tokens that are no trivia are left of so many behind this one.
#[inline(always)]
fn count_behind(trivia: Trivia<'_>, token: &Token<'_>, count: u32) -> u32
    requires { 0 < count }
    ensures { result ≡ cond (is_trivia trivia.entry token.now) count (count - 1) }
{
    if is_trivia(trivia, token) {
        return count;
    }
    count - 1
}

/// Puts tokens as one leaf, if there are any.
fn put_leaf(
    alloc: Global,
    builder: &mut GreenNodeBuilder<'_>,
    kind: SyntaxKind,
    tokens: &[Token<'_>],
) -> Result<(), Fault>
    ensures ok { OnOk result (word_of builder.new
        ≡ word_of builder.old ++ one_leaf kind.0 tokens.now) }
    ensures err { IfErr result (WhyNotPut tokens.now) }
    ensures stream { BuildsOn (value_of builder.old) (value_of builder.new) }
    ensures loan { loan_of builder.new ≡ loan_of builder.old }
{
    let Some((token, others)) = tokens.split_first() else {
        return Ok(());
    };
    if others.is_empty() {
        return builder.token(kind, token.text);
    }
    let text = joined_text(alloc, tokens)?;
    builder.token(kind, text.as_str())
}

/// The texts of tokens, one after the other.
fn joined_text(alloc: Global, tokens: &[Token<'_>]) -> Result<String, Fault>
    ensures ok { IfOk result (λ text. string_bytes text ≡ tokens_text tokens.now) }
    ensures err { IfErr result (λ e. e ≡ Fault.Memory) }
{
    let mut text = String::new(alloc);
    for token in tokens {
        text.push_str(token.text)?;
    }
    Ok(text)
}

/// Puts the trivia that come next.
#[tactic(auto, using(crate::proofs::Passing::passing_begins, crate::proofs::Passing::passing_ends))]
fn put_trivia(
    builder: &mut GreenNodeBuilder<'_>,
    source: &Source<'_, '_>,
    mut progress: Progress,
) -> Result<Progress, Fault>
    requires { IsBuilding source.now (word_of builder.old) progress }
    ensures ok { IfOk result (IsBuilding source.now (word_of builder.new)) }
    ensures puts { let left = drop progress.put source.now.tokens.now in
        IfOk result (λ p. Puts source.now.tokens.now (word_of builder.old)
        (leaves (take_while (is_trivia source.now.trivia) left))
        (past (is_trivia source.now.trivia) left) (word_of builder.new) p.put) }
    ensures same { IfOk result (λ p. p.depth ≡ progress.depth) }
    ensures err { IfErr result (WhyNotPut source.now.tokens.now) }
    ensures stream { BuildsOn (value_of builder.old) (value_of builder.new) }
    ensures loan { loan_of builder.new ≡ loan_of builder.old }
{
    while is_trivia_next(source, progress) {
        progress = put_token(builder, source, progress)?;
    }
    Ok(progress)
}

/// Puts the trivia that come next, up to those that belong to a node of this kind.
#[inline(always)]
fn put_trivia_before(
    builder: &mut GreenNodeBuilder<'_>,
    source: &Source<'_, '_>,
    progress: Progress,
    node: SyntaxKind,
) -> Result<Progress, Fault>
    requires { IsBuilding source.now (word_of builder.old) progress }
    ensures ok { IfOk result (IsBuilding source.now (word_of builder.new)) }
    ensures puts { let left = drop progress.put source.now.tokens.now in
        IfOk result (λ p. Puts source.now.tokens.now (word_of builder.old)
        (leaves (take (outside source.now.trivia node.0 left) left))
        (drop (outside source.now.trivia node.0 left) left) (word_of builder.new) p.put) }
    ensures same { IfOk result (λ p. p.depth ≡ progress.depth) }
    ensures err { IfErr result (WhyNotPut source.now.tokens.now) }
    ensures stream { BuildsOn (value_of builder.old) (value_of builder.new) }
    ensures loan { loan_of builder.new ≡ loan_of builder.old }
{
    if source.trivia.attached.is_empty() {
        return put_trivia(builder, source, progress);
    }
    let outside = outside_len(source, progress, node);
    put_some(builder, source, progress, outside)
}

/// Puts so many of the next tokens, or as many as there are.
#[tactic(auto, using(crate::proofs::Passing::some_begin, crate::proofs::Passing::some_end))]
fn put_some(
    builder: &mut GreenNodeBuilder<'_>,
    source: &Source<'_, '_>,
    mut progress: Progress,
    mut count: usize,
) -> Result<Progress, Fault>
    requires { IsBuilding source.now (word_of builder.old) progress }
    ensures ok { IfOk result (IsBuilding source.now (word_of builder.new)) }
    ensures puts { let left = drop progress.put source.now.tokens.now in
        IfOk result (λ p. Puts source.now.tokens.now (word_of builder.old)
        (leaves (take count left)) (drop count left) (word_of builder.new) p.put) }
    ensures same { IfOk result (λ p. p.depth ≡ progress.depth) }
    ensures err { IfErr result (WhyNotPut source.now.tokens.now) }
    ensures stream { BuildsOn (value_of builder.old) (value_of builder.new) }
    ensures loan { loan_of builder.new ≡ loan_of builder.old }
{
    while count > 0 {
        progress = put_token(builder, source, progress)?;
        count -= 1;
    }
    Ok(progress)
}

/// How many of the trivia that come next stay outside of a node of this kind.
fn outside_len(source: &Source<'_, '_>, progress: Progress, node: SyntaxKind) -> usize
    requires ahead { IsAhead source.now progress.put progress.next }
    requires within { progress.put ≤ length source.now.tokens.now }
    ensures { result
        ≡ outside source.now.trivia node.0 (drop progress.put source.now.tokens.now) }
{
    let kinds = attached_kinds(source.trivia, node);
    let (_, left) = source.tokens.split_at(progress.put);
    let (run, _) = left.split_at(progress.next.saturating_sub(progress.put));
    if kinds.0 == 0 {
        return run.len();
    }
    outside_of_run(run, kinds)
}

/// The kinds of trivia that are attached to a node of this kind.
fn attached_kinds(trivia: Trivia<'_>, node: SyntaxKind) -> TokenSet
    ensures { (k : ℕ) → has result.0 k ≡ list_any (is_pair node.0 k) trivia.entry.attached.now }
{
    let mut kinds = TokenSet::EMPTY;
    let mut rest = trivia.attached;
    while let Some((pair, others)) = rest.split_first() {
        if pair.0 == node {
            kinds = kinds.union(pair.1);
        }
        rest = others;
    }
    kinds
}

/// How many of some trivia stay outside of a node behind them to which these kinds are attached: all
/// but those from the first such one on behind the last blank line.
fn outside_of_run(run: &[Token<'_>], kinds: TokenSet) -> usize
    ensures { result ≡ outside_of (λ token. has kinds.0 token.kind.0) run.now }
{
    let mut outside = run.len();
    let mut place = run.len();
    while place > 0 {
        place -= 1;
        if kinds.contains(run[place].kind) {
            outside = place;
        } else if has_blank_line(run[place].text) {
            return outside;
        }
    }
    outside
}

/// Whether two lines end in a text.
fn has_blank_line(text: &str) -> bool
    ensures { result ≡ ltb 1 (line_ends text.now) }
{
    let mut rest = text.as_bytes();
    let mut ends = 0usize;
    while let Some((byte, others)) = rest.split_first() {
        if *byte == b'\n' {
            ends += 1;
        }
        rest = others;
    }
    ends > 1
}

#[inline(always)]
fn is_trivia_next(source: &Source<'_, '_>, progress: Progress) -> bool
    requires { IsAhead source.now progress.put progress.next }
    ensures begins { result
        ≡ begins_with (is_trivia source.now.trivia) (drop progress.put source.now.tokens.now) }
    ensures there { IsTrue result → progress.put < length source.now.tokens.now }
{
    progress.put < progress.next
}

/// The number of the first token from this one on that is no trivia.
fn next_seen(source: &Source<'_, '_>, put: usize) -> usize
    requires { put ≤ length source.now.tokens.now }
    ensures { IsAhead source.now put result }
{
    let mut next = put;
    while is_trivia_at(source, next) {
        next += 1;
    }
    next
}

/// The same behind the next token, which is put.
#[inline(always)]
fn next_after(source: &Source<'_, '_>, progress: Progress) -> usize
    requires ahead { IsAhead source.now progress.put progress.next }
    requires some { progress.put < length source.now.tokens.now }
    ensures { IsAhead source.now (progress.put + 1) result }
{
    if progress.put < progress.next {
        return progress.next;
    }
    next_seen(source, progress.put + 1)
}

#[tactic(auto, using(crate::proofs::Passing::begins_there, crate::proofs::Passing::begins_nowhere))]
fn is_trivia_at(source: &Source<'_, '_>, put: usize) -> bool
    ensures begins { result
        ≡ begins_with (is_trivia source.now.trivia) (drop put source.now.tokens.now) }
    ensures there { IsTrue result → put < length source.now.tokens.now }
{
    match source.tokens.get(put) {
        Some(token) => is_trivia(source.trivia, token),
        None => false,
    }
}

#[inline(always)]
pub(crate) fn is_trivia(trivia: Trivia<'_>, token: &Token<'_>) -> bool
    ensures { result ≡ is_trivia trivia.entry token.now }
{
    trivia.kinds.contains(token.kind)
}

/// Puts all tokens that are left into the root.
#[tactic(auto, using(crate::proofs::Passing::rest_more, crate::proofs::Passing::rest_ends))]
fn put_rest(
    builder: &mut GreenNodeBuilder<'_>,
    source: &Source<'_, '_>,
    mut progress: Progress,
) -> Result<Progress, Fault>
    requires { IsBuilding source.now (word_of builder.old) progress }
    ensures ok { IfOk result (IsBuilding source.now (word_of builder.new)) }
    ensures puts { IfOk result (λ p. word_of builder.new ≡ word_of builder.old
        ++ leaves (drop progress.put source.now.tokens.now)) }
    ensures same { IfOk result (λ p. p.depth ≡ progress.depth) }
    ensures err { IfErr result (WhyNotPut source.now.tokens.now) }
    ensures stream { BuildsOn (value_of builder.old) (value_of builder.new) }
    ensures loan { loan_of builder.new ≡ loan_of builder.old }
{
    while progress.put < source.tokens.len() {
        progress = put_token(builder, source, progress)?;
    }
    Ok(progress)
}
