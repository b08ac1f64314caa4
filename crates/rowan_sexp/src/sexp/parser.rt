//! The parser of s-expressions: no text is refused for its form, and no byte of it is lost.
ghost use Rattle.std.specs.Prelude.{◌≡◌, ◌≢◌, ℕ, ◌+◌, ◌<◌, ◌≤◌, [], ◌∷◌, ◌++◌, length, replicate};
ghost use Rattle.std.specs.Prelude.{IfOk, IfErr, OnOk, OnErr};
ghost use Rattle.rowan_builder.specs.Cache.{first_seen};
ghost use Rattle.rowan_green.specs.Fits.{byte_limit};
ghost use Rattle.rowan_builder.specs.Loan.{word_of, value_of, loan_of, text_so_far};
ghost use Rattle.rowan_builder.specs.Stream.{subterms, Grows, BuildsOn};
ghost use Rattle.rowan_green.specs.declared.utility_types.NodeOrToken.TheVariants.{Node};
ghost use Rattle.rowan_green.specs.Term.{NodeTerm, node_text, token_of};
ghost use Rattle.rowan_green.specs.Word.{Open, Leaf, Close, node_word};
ghost use Rattle.rowan_sexp.specs.Grammar.{IsParse};
ghost use Rattle.rowan_sexp.specs.Parsing.{IsInRoot, IsTree, symbols_of, open_after, Begins};
ghost use Rattle.rowan_sexp.specs.Parsing.{InternsFirst};
ghost use Rattle.rowan_sexp.specs.Sexp.{IsTextOf, number_of};

use crate::sexp::lang::SyntaxKind;
use crate::sexp::lexer::split_token;
use crate::sexp::parsed::Parse;
use rowan::{Fault, GreenNodeBuilder, NodeCache};
use std::alloc::Global;

/// Parses a text. The tree holds each byte of it: a list that is never closed runs to the end of
/// the text, and a parenthesis that closes no list stands in a node of its own. Refused with
/// `TextTooLong` for a text of more than 4,294,967,295 bytes, before anything else, and else only
/// for want of memory.
///
/// ```rust
/// let parse = sexp::parse(alloc, "(+ 1 2")?;
/// println!(rt; "{}", parse.green())?;                           // (+ 1 2
/// println!(rt; "{}", parse.syntax(alloc)?.debug_tree(alloc)?)?; // ROOT@0..6, and what is below
/// ```
pub fn parse(alloc: Global, text: &str) -> Result<Parse, Fault>
    ensures tree { IfOk result (IsParse text.now) }
    ensures text { IfOk result (λ p. node_text p ≡ text.now) }
    ensures err { IfErr result (λ e. e ≢ Fault.Memory → e ≡ Fault.TextTooLong) }
    ensures too_long { byte_limit < length text.now → result ≡ Err Fault.TextTooLong }
    ensures fits { result ≡ Err Fault.TextTooLong → byte_limit < length text.now }
{
    let mut cache = NodeCache::new(alloc);
    parse_with(alloc, text, &mut cache)
}

/// Parses a text as `parse` does, with a cache that is lent to the builder: what stands in the
/// cache is shared, and what the tree has of tokens and of small nodes is in the cache afterwards.
/// A parse that is refused for want of memory leaves the first ones of these there, up to where it
/// was refused; one of a text past the limit leaves the cache as it was.
pub fn parse_with(alloc: Global, text: &str, cache: &mut NodeCache) -> Result<Parse, Fault>
    ensures tree { IfOk result (IsParse text.now) }
    ensures text { IfOk result (λ p. node_text p ≡ text.now) }
    ensures err { IfErr result (λ e. e ≢ Fault.Memory → e ≡ Fault.TextTooLong) }
    ensures too_long { byte_limit < length text.now → result ≡ Err Fault.TextTooLong }
    ensures fits { result ≡ Err Fault.TextTooLong → byte_limit < length text.now }

    // What is left in the cache.
    ensures interned { IfOk result (λ p.
        cache.new.seen ≡ first_seen cache.old.limit (cache.old.seen ++ subterms (Node p))) }
    ensures grows { Grows cache.old cache.new }
    ensures unchanged { result ≡ Err Fault.TextTooLong → cache.new ≡ cache.old }
    ensures refused { OnErr result ((tree : NodeTerm) → IsParse text.now tree
        → InternsFirst cache.old cache.new (subterms (Node tree))) }
{
    if text.len() > u32::MAX as usize {
        return Err(Fault::TextTooLong);
    }
    let mut builder = GreenNodeBuilder::with_cache(alloc, cache);
    build(&mut builder, text)?;
    match builder.finish() {
        Ok(green) => return Ok(Parse::new(green)),
        Err(_unfinished) => unreachable!(),
    }
}

/// Builds the tree of a text, token by token.
fn build(builder: &mut GreenNodeBuilder<'_>, text: &str) -> Result<(), Fault>
    requires empty { word_of builder.old ≡ [] }
    requires room { length text.now ≤ byte_limit }

    ensures ok { OnOk result (IsTree (word_of builder.new)) }
    ensures word { OnOk result ((tree : NodeTerm) → IsParse text.now tree
        → word_of builder.new ≡ node_word tree) }
    ensures begun { OnErr result ((tree : NodeTerm) → IsParse text.now tree
        → Begins (word_of builder.new) (node_word tree)) }
    ensures text { OnOk result (text_so_far builder.new ≡ text.now) }
    ensures err { IfErr result (λ e. e ≡ Fault.Memory) }

    // The builder's cache.
    ensures stream { BuildsOn (value_of builder.old) (value_of builder.new) }
    ensures loan { loan_of builder.new ≡ loan_of builder.old }
{
    builder.start_node(SyntaxKind::ROOT.to_raw())?;
    let mut open_lists = 0;
    let mut rest = text;
    while let Some((token, others)) = split_token(rest) {
        open_lists = place(builder, open_lists, token.0, token.1)?;
        rest = others;
    }
    close_lists(builder, open_lists)?;
    close_root(builder)
}

/// Puts a token where it belongs, and answers how many lists are open then.
fn place(
    builder: &mut GreenNodeBuilder<'_>,
    open_lists: usize,
    kind: SyntaxKind,
    text: &str,
) -> Result<usize, Fault>
    requires in_root { IsInRoot (word_of builder.old) open_lists }
    requires token { IsTextOf kind text.now }
    requires room { length (text_so_far builder.old) + length text.now ≤ byte_limit }

    ensures ok { IfOk result (λ n. IsInRoot (word_of builder.new) n) }
    ensures lists { IfOk result (λ n. n ≡ open_after kind open_lists) }
    ensures word { OnOk result (word_of builder.new ≡ word_of builder.old
        ++ symbols_of kind open_lists (token_of (number_of kind) text.now)) }
    ensures begun { OnErr result (Begins (word_of builder.new) (word_of builder.old
        ++ symbols_of kind open_lists (token_of (number_of kind) text.now))) }
    ensures text { OnOk result (text_so_far builder.new ≡ text_so_far builder.old ++ text.now) }
    ensures err { IfErr result (λ e. e ≡ Fault.Memory) }

    // The builder's cache.
    ensures stream { BuildsOn (value_of builder.old) (value_of builder.new) }
    ensures loan { loan_of builder.new ≡ loan_of builder.old }
{
    match kind {
        SyntaxKind::L_PAREN => {
            builder.start_node(SyntaxKind::LIST.to_raw())?;
            builder.token(kind.to_raw(), text)?;
            Ok(open_lists + 1)
        }
        SyntaxKind::R_PAREN if open_lists > 0 => {
            builder.token(kind.to_raw(), text)?;
            builder.finish_node()?;
            Ok(open_lists - 1)
        }
        SyntaxKind::R_PAREN => {
            place_alone(builder, SyntaxKind::ERROR, kind, text)?;
            Ok(open_lists)
        }
        SyntaxKind::WORD => {
            place_alone(builder, SyntaxKind::ATOM, kind, text)?;
            Ok(open_lists)
        }
        _ => {
            builder.token(kind.to_raw(), text)?;
            Ok(open_lists)
        }
    }
}

/// Puts a node around one token.
fn place_alone(
    builder: &mut GreenNodeBuilder<'_>,
    node: SyntaxKind,
    kind: SyntaxKind,
    text: &str,
) -> Result<(), Fault>
    requires in_root { (n : ℕ) × IsInRoot (word_of builder.old) n }
    requires nonempty { 0 < length text.now }
    requires room { length (text_so_far builder.old) + length text.now ≤ byte_limit }

    ensures ok { OnOk result (word_of builder.new ≡ word_of builder.old ++ Open (number_of node)
        ∷ Leaf (record { kind = number_of kind; text = text.now }) ∷ Close ∷ []) }
    ensures begun { OnErr result (Begins (word_of builder.new) (word_of builder.old
        ++ Open (number_of node) ∷ Leaf (token_of (number_of kind) text.now) ∷ Close ∷ [])) }
    ensures text { OnOk result (text_so_far builder.new ≡ text_so_far builder.old ++ text.now) }
    ensures err { IfErr result (λ e. e ≡ Fault.Memory) }

    // The builder's cache.
    ensures stream { BuildsOn (value_of builder.old) (value_of builder.new) }
    ensures loan { loan_of builder.new ≡ loan_of builder.old }
{
    builder.start_node(node.to_raw())?;
    builder.token(kind.to_raw(), text)?;
    builder.finish_node()
}

/// Closes the open lists at the end of the text.
fn close_lists(builder: &mut GreenNodeBuilder<'_>, open_lists: usize) -> Result<(), Fault>
    requires in_root { IsInRoot (word_of builder.old) open_lists }
    requires room { length (text_so_far builder.old) ≤ byte_limit }

    ensures ok { OnOk result (IsInRoot (word_of builder.new) 0) }
    ensures word { OnOk result (word_of builder.new
        ≡ word_of builder.old ++ replicate open_lists Close) }
    ensures begun { OnErr result
        (Begins (word_of builder.new) (word_of builder.old ++ replicate open_lists Close)) }
    ensures text { text_so_far builder.new ≡ text_so_far builder.old }
    ensures err { IfErr result (λ e. e ≡ Fault.Memory) }

    // The builder's cache.
    ensures stream { BuildsOn (value_of builder.old) (value_of builder.new) }
    ensures loan { loan_of builder.new ≡ loan_of builder.old }
{
    for _list in 0..open_lists {
        builder.finish_node()?;
    }
    Ok(())
}

/// Closes the root, in which no list is open.
fn close_root(builder: &mut GreenNodeBuilder<'_>) -> Result<(), Fault>
    requires in_root { IsInRoot (word_of builder.old) 0 }
    requires room { length (text_so_far builder.old) ≤ byte_limit }

    ensures ok { OnOk result (IsTree (word_of builder.new)) }
    ensures word { OnOk result (word_of builder.new ≡ word_of builder.old ++ Close ∷ []) }
    ensures unchanged { OnErr result (word_of builder.new ≡ word_of builder.old) }
    ensures text { text_so_far builder.new ≡ text_so_far builder.old }
    ensures err { IfErr result (λ e. e ≡ Fault.Memory) }

    // The builder's cache.
    ensures stream { BuildsOn (value_of builder.old) (value_of builder.new) }
    ensures loan { loan_of builder.new ≡ loan_of builder.old }
{
    builder.finish_node()
}
