//! From the text of a grammar to its tree.
ghost use Rattle.std.specs.Prelude.{◌≡◌, ◌<◌, length, IfOk, IfErr};
ghost use Rattle.rowan.specs.Fits.{byte_limit};
ghost use Rattle.rowan.specs.Term.{node_text};
ghost use Rattle.rowan_parser.specs.Parsing.{WhyNoTree};

use crate::lexer::next_token;
use crate::syntax::{Grammars, Kind};
use rowan::Fault;
use rowan_parser::{Parse, Parser, TokenSet, Trivia, token_set};
use std::alloc::Global;

/// How many parentheses may be open at once: each takes stack.
const MAX_DEPTH: usize = 256;

const TOO_DEEP: &str = "more than 256 parentheses are open here";

/// What a part begins with.
const STARTS: TokenSet = token_set![Kind::Word, Kind::Literal, Kind::Open];

/// Where an alternative ends.
const ENDS: TokenSet = token_set![Kind::Bar, Kind::Close];

/// Parses the text of a grammar, whatever it is. After what has no meaning it goes on at the next
/// item.
pub fn parse(alloc: Global, text: &str) -> Result<Parse, Fault>
    ensures text { IfOk result (λ parse. node_text parse.green ≡ text.now) }
    ensures err { IfErr result (WhyNoTree text.now) }
    ensures too_long { byte_limit < length text.now → result ≡ Err Fault.TextTooLong }
{
    let trivia = Trivia {
        kinds: token_set![Kind::Whitespace, Kind::Comment],
        attached: &[],
    };
    rowan_parser::parse(alloc, text, next_token, trivia, Kind::Root, items)
}

/// All items.
fn items(p: &mut Parser<Grammars>) {
    for _ in 0..p.tokens_left() {
        if p.at_end() {
            break;
        }
        item(p);
    }
}

/// A rule or a line of the head, with the comment before it.
fn item(p: &mut Parser<Grammars>) {
    let item = p.start();
    for _ in 0..p.tokens_left() {
        if !p.eat(Kind::Doc) {
            break;
        }
    }
    if p.at_end() {
        p.abandon(item);
        return;
    }
    let kind = match p.nth(1) {
        Some(Kind::Equals) if p.at(Kind::Word) => rule(p),
        Some(Kind::Word) if is_head(p.text()) => head(p),
        _ => no_item(p),
    };
    p.complete(item, kind);
}

fn rule(p: &mut Parser<Grammars>) -> Kind {
    p.bump();
    p.bump();
    choice(p, MAX_DEPTH, false);
    Kind::Rule
}

/// A line of the head: its word, the name behind it, for a token maybe its text, for a lexer its path,
/// for a set or a trait what is in it, and for attached trivia the nodes.
fn head(p: &mut Parser<Grammars>) -> Kind {
    let may_have_text = matches!(p.text(), "token" | "trivia" | "shown");
    let may_have_path = p.text() == "lexer";
    let has_parts = matches!(p.text(), "set" | "trait" | "attached");
    p.bump_as(Kind::Keyword);
    p.bump();
    if may_have_text {
        p.eat(Kind::Literal);
    }
    if may_have_path {
        path(p);
    }
    if has_parts && p.expect(Kind::Equals, "`=` is wanted here") {
        choice(p, MAX_DEPTH, false);
    }
    Kind::Head
}

/// What stands in a path behind its first name.
fn path(p: &mut Parser<Grammars>) {
    for _ in 0..p.tokens_left() {
        if !p.at(Kind::Colon) || p.nth(1) != Some(Kind::Colon) || p.nth(2) != Some(Kind::Word) {
            break;
        }
        p.bump();
        p.bump();
        p.bump();
    }
}

/// What is no item, up to the next one.
fn no_item(p: &mut Parser<Grammars>) -> Kind {
    p.error("a rule as `Name = ..` or a line of the head is wanted here");
    p.bump();
    for _ in 0..p.tokens_left() {
        if begins_item(p) {
            break;
        }
        p.bump();
    }
    Kind::Error
}

/// Whether an item begins here, or nothing is left.
fn begins_item(p: &Parser<Grammars>) -> bool {
    match (p.current(), p.nth(1)) {
        (None | Some(Kind::Doc), _) => true,
        (Some(Kind::Word), Some(Kind::Equals)) => true,
        (_, Some(Kind::Word)) => is_head(p.text()),
        _ => false,
    }
}

/// Whether a word begins a line of the head.
fn is_head(word: &str) -> bool {
    matches!(
        word,
        "language"
            | "crate"
            | "root"
            | "kinds"
            | "wrappers"
            | "owned"
            | "borrowed"
            | "parser"
            | "lexer"
            | "shown"
            | "attached"
            | "error"
            | "trivia"
            | "token"
            | "content"
            | "set"
            | "trait"
    )
}

/// Alternatives with bars between them.
#[cycle(rules)]
fn choice(p: &mut Parser<Grammars>, depth: usize, is_in_group: bool) {
    let choice = p.start();
    for _ in 0..=p.tokens_left() {
        sequence(p, depth, is_in_group);
        if !p.eat(Kind::Bar) {
            break;
        }
    }
    p.complete(choice, Kind::Choice);
}

/// Parts up to the end of the alternative.
#[cycle(rules)]
fn sequence(p: &mut Parser<Grammars>, depth: usize, is_in_group: bool) {
    let sequence = p.start();
    let mut is_part_wanted = true;
    for _ in 0..p.tokens_left() {
        if begins_item(p) {
            break;
        }
        match p.current() {
            Some(Kind::Bar) => break,
            Some(Kind::Close) if is_in_group => break,
            Some(Kind::Word | Kind::Literal | Kind::Open) => is_part_wanted = !part(p, depth),
            Some(Kind::Star | Kind::Question) if !is_part_wanted => repeats(p),
            _ => no_part(p),
        }
    }
    if is_part_wanted && p.at_any(ENDS) {
        p.error("a part is wanted before this");
    }
    p.complete(sequence, Kind::Sequence);
}

/// A part with its labels and what repeats it. Says whether there is more than labels.
#[cycle(rules)]
fn part(p: &mut Parser<Grammars>, depth: usize) -> bool {
    let part = p.start();
    labels(p);
    let is_there = p.at_any(STARTS) && !begins_item(p);
    if is_there {
        match p.current() {
            Some(Kind::Open) => group(p, depth),
            _ => p.bump(),
        }
        repeats(p);
    }
    p.complete(part, Kind::Part);
    is_there
}

fn labels(p: &mut Parser<Grammars>) {
    for _ in 0..p.tokens_left() {
        if !p.at(Kind::Word) || p.nth(1) != Some(Kind::Colon) {
            break;
        }
        let label = p.start();
        p.bump();
        p.bump();
        p.complete(label, Kind::Label);
    }
}

fn repeats(p: &mut Parser<Grammars>) {
    for _ in 0..p.tokens_left() {
        if !p.eat(Kind::Star) && !p.eat(Kind::Question) {
            break;
        }
    }
}

/// Alternatives in parentheses. The reader of the tree complains where they are not closed.
#[cycle(rules)]
fn group(p: &mut Parser<Grammars>, depth: usize) {
    let Some(depth) = depth.checked_sub(1) else {
        too_deep(p);
        return;
    };
    let group = p.start();
    p.bump();
    choice(p, depth, true);
    p.eat(Kind::Close);
    p.complete(group, Kind::Group);
}

/// A parenthesis that is nested too deep, up to where it is closed.
fn too_deep(p: &mut Parser<Grammars>) {
    p.error(TOO_DEEP);
    let error = p.start();
    let mut open = 0usize;
    for _ in 0..p.tokens_left() {
        match p.current() {
            Some(Kind::Open) => open = open.saturating_add(1),
            Some(Kind::Close) => open = open.saturating_sub(1),
            _ => {}
        }
        p.bump();
        if open == 0 || begins_item(p) {
            break;
        }
    }
    p.complete(error, Kind::Error);
}

/// A token that has no place in a rule.
fn no_part(p: &mut Parser<Grammars>) {
    let message = match p.current() {
        Some(Kind::Close) => "this parenthesis was not opened",
        Some(Kind::Star | Kind::Question) => "this has nothing to repeat",
        Some(Kind::Unclosed) => "this quote does not end in its line",
        _ => "this has no meaning in a rule",
    };
    p.error_and_bump(Kind::Error, message);
}
