//! From a text to its tree, by a lexer and a grammar.
ghost use Rattle.std.specs.Prelude.{◌≡◌, ◌+◌, ◌<◌, ◌≤◌, ◌++◌, ◌∷◌, length, map};
ghost use Rattle.std.specs.Prelude.{IfOk, IfErr, OnOk, List, false};
ghost use Rattle.rowan_builder.specs.Cache.{first_seen};
ghost use Rattle.rowan_green.specs.Fits.{byte_limit};
ghost use Rattle.rowan_builder.specs.Stream.{subterms, Grows};
ghost use Rattle.rowan_green.specs.Term.{node_kind, node_text};
ghost use Rattle.rowan_green.specs.declared.utility_types.NodeOrToken.TheVariants.{Node};
ghost use Rattle.rowan_parser.specs.Parsing.{has_line_end, pieces_since, pieces, range_at};
ghost use Rattle.rowan_parser.specs.Parsing.{error_value, error_of, IsRun, WhyNotRun};
ghost use Rattle.rowan_parser.specs.Parsing.{IsParsed, WhyNotParsed, WhyNoTree};
ghost use Rattle.rowan_events.specs.Seen.{piece};
ghost use Rattle.rowan_events.specs.Tokens.{tokens_text};
ghost use Rattle.rowan_events.specs.declared.lexer.Token.{Token};

use crate::parsed::Parse;
use crate::places::{empty_at, end_behind, lexer_errors, nth_range, token_ranges};
use crate::tree::{Source, Trivia, build_tree_with, is_trivia};
use rowan::{Fault, Language, NodeCache, TextRange, TextSize};
use rowan_events::event::Event;
use rowan_events::lexer::{Lexed, Lexer, Token, lex};
use rowan_events::parser::{Complaint, Parser, SeenToken, Spot};
use rowan_events::running::{Made, run_grammar};
use rowan_lines::SyntaxError;
use std::alloc::Global;

/// What a grammar did over the tokens of a text, without a tree.
#[derive(Drop)]
pub struct Ran<'text> {
    pub tokens: Vec<Token<'text>>,
    /// What `build_tree` makes a tree of.
    pub events: Vec<Event>,
    /// What the lexer said, and then what the grammar complained of, in that order.
    pub errors: Vec<SyntaxError>,
}

/// Parses a text. The tree has every byte of it, whatever the lexer says and the grammar does: it is
/// the tree of the grammar's events over the lexer's tokens. Its errors are what the lexer said, in
/// the order of the text, and then what the grammar complained of.
///
/// Errors: `TextTooLong` if the text has more than 4,294,967,295 bytes; `TooManyChildren` if a node
/// of the tree has more than 4,294,967,295 children; `Memory` if an allocation failed.
pub fn parse<'text, L: Language, X: Lexer + Drop, G: FnOnce(&mut Parser<'text, L>)>(
    alloc: Global,
    text: &'text str,
    lexer: X,
    trivia: Trivia<'_>,
    root: L::Kind,
    grammar: G,
) -> Result<Parse, Fault>
    requires lexer { X.is_ready lexer }
    requires grammar { G.IsAlwaysCallable grammar }

    ensures text { IfOk result (λ parse. node_text parse.green ≡ text.now) }
    ensures parsed { IfOk result (λ parse.
        IsParsed (IsRun X.says lexer G.FnOnce grammar trivia.entry text.now) trivia.entry
        (L.code root) parse.errors.items parse.green) }
    ensures kind { IfOk result (λ parse. L.meaning (node_kind parse.green) ≡ root) }
    ensures err { IfErr result (WhyNotParsed
        (IsRun X.says lexer G.FnOnce grammar trivia.entry text.now) trivia.entry (L.code root)
        text.now) }
    ensures no_tree { IfErr result (WhyNoTree text.now) }
    ensures too_long { byte_limit < length text.now → result ≡ Err Fault.TextTooLong }
{
    let mut cache = NodeCache::new(alloc);
    parse_with(alloc, text, lexer, trivia, root, grammar, &mut cache)
}

/// Parses a text as `parse` does, with a cache that is lent to the builder: what stands in the
/// cache is shared, and what the tree has of tokens and of small nodes is in the cache afterwards.
/// A text past the limit leaves the cache as it was.
pub fn parse_with<'text, L: Language, X: Lexer + Drop, G: FnOnce(&mut Parser<'text, L>)>(
    alloc: Global,
    text: &'text str,
    lexer: X,
    trivia: Trivia<'_>,
    root: L::Kind,
    grammar: G,
    cache: &mut NodeCache,
) -> Result<Parse, Fault>
    requires lexer { X.is_ready lexer }
    requires grammar { G.IsAlwaysCallable grammar }

    ensures text { IfOk result (λ parse. node_text parse.green ≡ text.now) }
    ensures parsed { IfOk result (λ parse.
        IsParsed (IsRun X.says lexer G.FnOnce grammar trivia.entry text.now) trivia.entry
        (L.code root) parse.errors.items parse.green) }
    ensures kind { IfOk result (λ parse. L.meaning (node_kind parse.green) ≡ root) }
    ensures err { IfErr result (WhyNotParsed
        (IsRun X.says lexer G.FnOnce grammar trivia.entry text.now) trivia.entry (L.code root)
        text.now) }
    ensures no_tree { IfErr result (WhyNoTree text.now) }
    ensures too_long { byte_limit < length text.now → result ≡ Err Fault.TextTooLong }

    // What is left in the cache.
    ensures interned { IfOk result (λ parse. cache.new.seen
        ≡ first_seen cache.old.limit (cache.old.seen ++ subterms (Node parse.green))) }
    ensures grows { Grows cache.old cache.new }
    ensures unchanged { byte_limit < length text.now → cache.new ≡ cache.old }
{
    let ran = run(alloc, text, lexer, trivia, grammar)?;
    let Ran {
        tokens,
        events,
        errors,
    } = ran;
    let source = Source {
        root_kind: L::kind_to_raw(root),
        tokens: tokens.as_slice(),
        trivia,
        events: events.as_slice(),
    };
    let green = build_tree_with(alloc, &source, cache)?;
    Ok(Parse { green, errors })
}

/// Runs a grammar over the tokens of a text that are no trivia, and makes no tree. `parse` is this
/// and `build_tree`.
///
/// Errors: `TextTooLong` if the text has more than 4,294,967,295 bytes; `Memory` if an allocation
/// failed.
pub fn run<'text, L: Language, X: Lexer + Drop, G: FnOnce(&mut Parser<'text, L>)>(
    alloc: Global,
    text: &'text str,
    lexer: X,
    trivia: Trivia<'_>,
    grammar: G,
) -> Result<Ran<'text>, Fault>
    requires lexer { X.is_ready lexer }
    requires grammar { G.IsAlwaysCallable grammar }
    ensures ran { IfOk result (λ ran. IsRun X.says lexer G.FnOnce grammar trivia.entry text.now
        ran.tokens.items ran.events.items ran.errors.items) }
    ensures err { IfErr result (WhyNotRun text.now) }
    ensures too_long { byte_limit < length text.now → result ≡ Err Fault.TextTooLong }
{
    if text.len() > u32::MAX as usize {
        return Err(Fault::TextTooLong);
    }
    let lexed = lex(alloc, text, lexer)?;
    let Lexed {
        tokens,
        errors: complained,
    } = lexed;
    let mut errors = lexer_errors(alloc, complained.as_slice())?;
    let seen = seen_tokens(alloc, tokens.as_slice(), trivia)?;
    let made = run_grammar(alloc, seen, grammar)?;
    let Made { events, complaints } = made;
    push_errors(alloc, &mut errors, tokens.as_slice(), trivia, complaints)?;
    Ok(Ran {
        tokens,
        events,
        errors,
    })
}

/// What stands between a token and the one before it that is no trivia.
#[derive(Clone, Copy)]
struct Gap {
    /// Where the token starts, in bytes.
    start: u32,
    is_joined: bool,
    is_after_line: bool,
}

/// The tokens that are no trivia.
fn seen_tokens<'text>(
    alloc: Global,
    tokens: &[Token<'text>],
    trivia: Trivia<'_>,
) -> Result<Vec<SeenToken<'text>>, Fault>
    requires { length (tokens_text tokens.now) ≤ byte_limit }
    ensures seen { IfOk result (λ seen.
        map piece seen.items ≡ pieces trivia.entry tokens.now) }
    ensures err { IfErr result (λ e. e ≡ Fault.Memory) }
{
    let mut seen = Vec::with_capacity(alloc, tokens.len())?;
    let mut gap = Gap {
        start: 0,
        is_joined: false,
        is_after_line: false,
    };
    for token in tokens {
        let end = gap.start + token.text.len() as u32;
        gap = see(&mut seen, trivia, gap, token, end)?;
    }
    Ok(seen)
}

/// Puts a token, which ends here, behind the others, unless it is trivia, and gives what then stands
/// before the next.
#[inline(always)]
fn see<'text>(
    seen: &mut Vec<SeenToken<'text>>,
    trivia: Trivia<'_>,
    gap: Gap,
    token: &Token<'text>,
    end: u32,
) -> Result<Gap, Fault>
    requires { end ≡ gap.start + length token.now.text.now }
    ensures start { IfOk result (λ next. next.start ≡ end) }
    ensures seen { IfOk result (λ next. (others : List Token) → map piece seen.new.items
        ++ pieces_since next.start next.is_joined next.is_after_line trivia.entry others
        ≡ map piece seen.old.items
        ++ pieces_since gap.start gap.is_joined gap.is_after_line trivia.entry
        (token.now ∷ others)) }
    ensures err { IfErr result (λ e. e ≡ Fault.Memory) }
{
    if is_trivia(trivia, token) {
        return Ok(Gap {
            start: end,
            is_joined: false,
            is_after_line: gap.is_after_line || has_line_end(token.text),
        });
    }
    seen.push(SeenToken {
        kind: token.kind,
        text: token.text,
        start: gap.start,
        is_joined: gap.is_joined,
        is_after_line: gap.is_after_line,
    })?;
    Ok(Gap {
        start: end,
        is_joined: true,
        is_after_line: false,
    })
}

fn has_line_end(text: &str) -> bool
    ensures { result ≡ has_line_end text.now }
{
    text.as_bytes().contains(&10)
}

/// Puts the complaints, with their ranges, behind the other errors.
fn push_errors(
    alloc: Global,
    errors: &mut Vec<SyntaxError>,
    tokens: &[Token<'_>],
    trivia: Trivia<'_>,
    complaints: Vec<Complaint>,
) -> Result<(), Fault>
    requires { length (tokens_text tokens.now) ≤ byte_limit }
    ensures told { OnOk result (map error_value errors.new.items
        ≡ map error_value errors.old.items
        ++ map (error_of trivia.entry tokens.now) complaints.items) }
    ensures err { IfErr result (λ e. e ≡ Fault.Memory) }
{
    if complaints.is_empty() {
        return Ok(());
    }
    let ranges = token_ranges(alloc, tokens, trivia)?;
    for complaint in complaints {
        let Complaint {
            message,
            place,
            spot,
        } = complaint;
        let range = range_at(ranges.as_slice(), place, spot);
        errors.push(SyntaxError { message, range })?;
    }
    Ok(())
}

/// Where a complaint stands before which so many tokens were taken.
fn range_at(ranges: &[TextRange], place: usize, spot: Spot) -> TextRange
    ensures { result ≡ range_at ranges.now place spot }
{
    match spot {
        Spot::Here => nth_range(ranges, place),
        Spot::Behind => empty_at(end_behind(ranges, place)),
        Spot::Given(range) => range,
        Spot::Over(first, end) => {
            let end = end_behind(ranges, end);
            let start = u32::from(nth_range(ranges, first).start());
            TextRange::new(TextSize::from(start.min(u32::from(end))), end)
        }
    }
}
