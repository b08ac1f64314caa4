//! From a text to its tree, by a lexer and a grammar that is data.
ghost use Rattle.std.specs.Prelude.{◌≡◌, ◌<◌, ◌≤◌, ◌++◌, Err, map, length, IfOk, IfErr, OnOk};
ghost use Rattle.rowan_builder.specs.Cache.{first_seen};
ghost use Rattle.rowan_green.specs.Fits.{byte_limit};
ghost use Rattle.rowan_builder.specs.Stream.{subterms, Grows};
ghost use Rattle.rowan_green.specs.Term.{node_kind, node_text};
ghost use Rattle.rowan_green.specs.declared.utility_types.NodeOrToken.TheVariants.{Node};
ghost use Rattle.rowan_parser.specs.Parsing.{error_value, error_of, WhyNotRun, WhyNoTree};
ghost use Rattle.rowan_events.specs.Tokens.{tokens_text};
ghost use Rattle.rowan_predictive.specs.Parsing.{told_by, error_by, IsRead, IsParse, IsTreeBy};
ghost use Rattle.rowan_predictive.specs.View.{entries_in, rules_in};

use crate::arranging::arrange;
use crate::grammars::Grammar;
use crate::kinds::kinds_of;
use crate::messages::message_of;
use crate::rules::{Complaint, Entry};
use crate::running::Outcome;
use rowan::{Fault, NodeCache, SyntaxKind, TextRange};
use rowan_parser::{
    Event, Lexed, Lexer, Parse, Source, SyntaxError, Token, Trivia, build_tree_with, lex,
    lexer_errors, nth_range, token_ranges,
};
use std::alloc::Global;

/// What a text is parsed as.
#[derive(Clone, Copy)]
pub struct Start<'a> {
    /// The kind of the root, which stands around all.
    pub root: SyntaxKind,
    /// The number of the rule that the root derives.
    pub rule: usize,
    /// The kind of the nodes around tokens that have no place.
    pub error: SyntaxKind,
    /// The names of tokens in messages, by their raw kinds.
    pub words: &'a [&'a str],
}

/// The error of a complaint.
fn error_at(
    alloc: Global,
    entries: &[Entry],
    words: &[&str],
    ranges: &[TextRange],
    complaint: Complaint,
) -> Result<SyntaxError, Fault>
    ensures error { IfOk result (λ e.
        error_value e ≡ error_by ranges.now (told_by entries.now words.now complaint)) }
    ensures err { IfErr result (λ e. e ≡ Fault.Memory) }
{
    let message = message_of(alloc, entries, words, complaint)?;
    let range = nth_range(ranges, complaint.place);
    Ok(SyntaxError { message, range })
}

/// Puts the complaints, with their ranges, behind the other errors.
fn push_errors(
    alloc: Global,
    errors: &mut Vec<SyntaxError>,
    entries: &[Entry],
    words: &[&str],
    ranges: &[TextRange],
    complaints: &[Complaint],
) -> Result<(), Fault>
    ensures told { OnOk result (map error_value errors.new.items ≡ map error_value errors.old.items
        ++ map (λ c. error_by ranges.now (told_by entries.now words.now c)) complaints.now) }
    ensures err { IfErr result (λ e. e ≡ Fault.Memory) }
{
    for complaint in complaints {
        errors.push(error_at(alloc, entries, words, ranges, *complaint)?)?;
    }
    Ok(())
}

/// Puts the complaints behind the other errors.
fn complain(
    alloc: Global,
    errors: &mut Vec<SyntaxError>,
    entries: &[Entry],
    words: &[&str],
    tokens: &[Token<'_>],
    trivia: Trivia<'_>,
    complaints: &[Complaint],
) -> Result<(), Fault>
    requires { length (tokens_text tokens.now) ≤ byte_limit }
    ensures told { OnOk result (map error_value errors.new.items ≡ map error_value errors.old.items
        ++ map (λ c. error_of trivia.entry tokens.now (told_by entries.now words.now c))
        complaints.now) }
    ensures err { IfErr result (λ e. e ≡ Fault.Memory) }
{
    if complaints.is_empty() {
        return Ok(());
    }
    let ranges = token_ranges(alloc, tokens, trivia)?;
    push_errors(alloc, errors, entries, words, ranges.as_slice(), complaints)
}

impl Grammar {
    /// Parses a text. The tree has every byte of it, whatever the lexer says. There are no errors
    /// exactly if the lexer complains of nothing and the tokens that are no trivia derive from the
    /// start rule; the tree is then that of the derivation.
    ///
    /// Errors: `TextTooLong` if the text has more than 4,294,967,295 bytes; `TooManyChildren` if a
    /// node of the tree has more than 4,294,967,295 children; `Memory` if an allocation failed.
    pub fn parse<X: Lexer + Drop>(
        &self,
        alloc: Global,
        text: &str,
        lexer: X,
        trivia: Trivia<'_>,
        start: Start<'_>,
    ) -> Result<Parse, Fault>
        requires { X.is_ready lexer }
        ensures text { IfOk result (λ parse. node_text parse.green ≡ text.now) }
        ensures kind { IfOk result (λ parse. node_kind parse.green ≡ start.entry.root.0) }
        ensures parsed { IfOk result (λ parse. IsParse X.says lexer (entries_in self.now)
            trivia.entry start.entry text.now parse.errors.items parse.green) }
        ensures tree { IfOk result (λ parse. IsTreeBy X.says lexer (rules_in self.now)
            trivia.entry.kinds trivia.entry.attached.now start.entry.root.0 start.entry.rule
            text.now parse.errors.items parse.green) }
        ensures err { IfErr result (WhyNoTree text.now) }
        ensures too_long { byte_limit < length text.now → result ≡ Err Fault.TextTooLong }
    {
        let mut cache = NodeCache::new(alloc);
        self.parse_with(alloc, text, lexer, trivia, start, &mut cache)
    }

    /// Parses a text as `parse` does, with a cache that is lent to the builder: what stands in the
    /// cache is shared, and what the tree has of tokens and of small nodes is in the cache
    /// afterwards. A text past the limit leaves the cache as it was.
    pub fn parse_with<X: Lexer + Drop>(
        &self,
        alloc: Global,
        text: &str,
        lexer: X,
        trivia: Trivia<'_>,
        start: Start<'_>,
        cache: &mut NodeCache,
    ) -> Result<Parse, Fault>
        requires { X.is_ready lexer }
        ensures text { IfOk result (λ parse. node_text parse.green ≡ text.now) }
        ensures kind { IfOk result (λ parse. node_kind parse.green ≡ start.entry.root.0) }
        ensures parsed { IfOk result (λ parse. IsParse X.says lexer (entries_in self.now)
            trivia.entry start.entry text.now parse.errors.items parse.green) }
        ensures tree { IfOk result (λ parse. IsTreeBy X.says lexer (rules_in self.now)
            trivia.entry.kinds trivia.entry.attached.now start.entry.root.0 start.entry.rule
            text.now parse.errors.items parse.green) }
        ensures err { IfErr result (WhyNoTree text.now) }
        ensures too_long { byte_limit < length text.now → result ≡ Err Fault.TextTooLong }

        // What is left in the cache.
        ensures interned { IfOk result (λ parse. cache.new.seen
            ≡ first_seen cache.old.limit (cache.old.seen ++ subterms (Node parse.green))) }
        ensures grows { Grows cache.old cache.new }
        ensures unchanged { byte_limit < length text.now → cache.new ≡ cache.old }
    {
        let read = self.read(alloc, text, lexer, trivia, start)?;
        let Read {
            tokens,
            events,
            errors,
        } = read;
        let source = Source {
            root_kind: start.root,
            tokens: tokens.as_slice(),
            trivia,
            events: events.as_slice(),
        };
        let green = build_tree_with(alloc, &source, cache)?;
        Ok(Parse { green, errors })
    }

    /// Parses a text without its tree.
    fn read<'text, X: Lexer + Drop>(
        &self,
        alloc: Global,
        text: &'text str,
        lexer: X,
        trivia: Trivia<'_>,
        start: Start<'_>,
    ) -> Result<Read<'text>, Fault>
        requires { X.is_ready lexer }
        ensures read { IfOk result (λ read. IsRead X.says lexer (entries_in self.now)
            trivia.entry start.entry text.now read.tokens.items read.events.items
            read.errors.items) }
        ensures err { IfErr result (WhyNotRun text.now) }
        ensures too_long { byte_limit < length text.now → result ≡ Err Fault.TextTooLong }
    {
        if text.len() > u32::MAX as usize {
            return Err(Fault::TextTooLong);
        }
        let lexed = lex(alloc, text, lexer)?;
        let Lexed {
            tokens,
            errors: complained,
        } = lexed;
        let mut errors = lexer_errors(alloc, complained.as_slice())?;
        let kinds = kinds_of(alloc, tokens.as_slice(), trivia)?;
        let outcome = self.run(alloc, start.rule, kinds.as_slice())?;
        let Outcome {
            actions,
            complaints,
        } = outcome;
        complain(
            alloc,
            &mut errors,
            self.entries.as_slice(),
            start.words,
            tokens.as_slice(),
            trivia,
            complaints.as_slice(),
        )?;
        let events = arrange(alloc, start.error.0, actions.as_slice())?;
        Ok(Read {
            tokens,
            events,
            errors,
        })
    }
}

/// A text that is parsed, before there is a tree.
#[derive(Drop)]
struct Read<'text> {
    tokens: Vec<Token<'text>>,
    events: Vec<Event>,
    errors: Vec<SyntaxError>,
}
