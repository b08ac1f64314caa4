// Written by rowan_grammar from settings.ungram: change that, and not this file.
//! The parser of Settings: the rules of its grammar, by which `rowan_predictive` goes.
ghost use Rattle.std.specs.Prelude.{◌≡◌, ◌<◌, [], length, IfOk, IfErr};
ghost use Rattle.rowan.specs.Fits.{byte_limit};
ghost use Rattle.rowan.specs.Term.{node_kind, node_text};
ghost use Rattle.rowan_parser.specs.Parsing.{WhyNoTree};
ghost use Rattle.rowan_predictive.specs.Causes.{WhyNoGrammar};
ghost use Rattle.rowan_predictive.specs.Parsing.{HasTree, IsTreeBy};
ghost use Rattle.rowan_predictive.specs.View.{rules_in, rules_prop};
ghost use Rattle.guide_language.specs.declared.parser.TheConstants.{RULES, SKIPPED};

use crate::kinds::Kind;
use rowan::{Fault, SyntaxKind};
use rowan_parser::{Lexer, Parse, TokenSet, Trivia, token_set};
use rowan_predictive::{Grammar, GrammarError, Rule, Start};
use std::alloc::Global;

/// The rules, which name each other by their places in this list.
const RULES: [Rule; 31] = [
    // File
    Rule::Node(14, 28),
    // Section
    Rule::Node(15, 26),
    // Header
    Rule::Node(16, 22),
    // Entry
    Rule::Node(17, 18),
    // Value
    Rule::Node(18, 15),
    // Newline
    Rule::Token(2),
    // Key
    Rule::Token(3),
    // Name
    Rule::Token(4),
    // Number
    Rule::Token(5),
    // Text
    Rule::Token(6),
    // True
    Rule::Token(7),
    // False
    Rule::Token(8),
    // Equals
    Rule::Token(9),
    // Open
    Rule::Token(10),
    // Close
    Rule::Token(11),
    // Parts of these.
    Rule::Choice(17, 16),
    Rule::Choice(10, 11),
    Rule::Choice(8, 9),
    Rule::Seq(19, 21),
    Rule::Seq(20, 4),
    Rule::Seq(6, 12),
    Rule::Optional(5),
    Rule::Seq(23, 25),
    Rule::Seq(24, 14),
    Rule::Seq(13, 7),
    Rule::Optional(5),
    Rule::Seq(2, 27),
    Rule::Star(3),
    Rule::Seq(30, 29),
    Rule::Star(1),
    Rule::Star(3),
];

/// How messages name the tokens, by their raw kinds.
const WORDS: [&str; 13] = [
    "",
    "",
    "the end of the line",
    "a key",
    "a name",
    "a number",
    "a text in quotes",
    "`true`",
    "`false`",
    "`=`",
    "`[`",
    "`]`",
    "an unknown",
];

/// The tokens that may stand anywhere.
const SKIPPED: TokenSet = token_set![Kind::Whitespace, Kind::Comment];

const TRIVIA: Trivia<'static> = Trivia {
    kinds: SKIPPED,
    attached: &[],
};

/// What a text is parsed as: a `File`.
const START: Start<'static> = Start {
    root: SyntaxKind(14),
    rule: 28,
    error: SyntaxKind(13),
    words: &WORDS,
};

/// The parser of Settings. Made once, it parses any number of texts.
#[derive(Drop)]
pub struct SettingsParser {
    grammar: Grammar,
    ghost rules: { rules_in grammar ≡ RULES } by { rules_prop grammar RULES },
}

impl SettingsParser {
    /// Finds by which tokens the rules begin and which may stand behind them.
    ///
    /// Errors: `Memory` if an allocation failed. The rules are such that nothing else is in the way.
    pub fn new(alloc: Global) -> Result<SettingsParser, GrammarError>
        ensures err { IfErr result (WhyNoGrammar RULES) }
    {
        let grammar = Grammar::new(alloc, &RULES)?;
        Ok(SettingsParser { grammar })
    }

    /// Parses a text. The tree has each byte of it, also where there are errors. There are none
    /// exactly if the lexer complains of nothing and the tokens that are not skipped derive from the
    /// rule of the root; the tree is then that of the derivation.
    ///
    /// Errors: `TextTooLong` if the text has more than 4,294,967,295 bytes; `TooManyChildren` if a
    /// node of the tree has more than 4,294,967,295 children; `Memory` if an allocation failed.
    pub fn parse(&self, alloc: Global, text: &str) -> Result<Parse, Fault>
        ensures text { IfOk result (λ parse. node_text parse.green ≡ text.now) }
        ensures kind { IfOk result (λ parse. node_kind parse.green ≡ 14) }
        ensures tree { IfOk result (λ parse.
            HasTree RULES SKIPPED [] 14 28 text.now parse.errors.items parse.green) }
        ensures err { IfErr result (WhyNoTree text.now) }
        ensures too_long { byte_limit < length text.now → result ≡ Err Fault.TextTooLong }
    {
        let lexer = crate::lexer::LINES;
        self.parse_with_lexer(alloc, text, lexer)
    }

    /// Parses a text as `parse` does, by another lexer.
    ///
    /// Errors: those of `parse`.
    pub fn parse_with_lexer<X: Lexer + Drop>(
        &self,
        alloc: Global,
        text: &str,
        lexer: X,
    ) -> Result<Parse, Fault>
        requires { X.is_ready lexer }
        ensures text { IfOk result (λ parse. node_text parse.green ≡ text.now) }
        ensures kind { IfOk result (λ parse. node_kind parse.green ≡ 14) }
        ensures tree { IfOk result (λ parse. IsTreeBy X.says lexer
            RULES SKIPPED [] 14 28 text.now parse.errors.items parse.green) }
        ensures err { IfErr result (WhyNoTree text.now) }
        ensures too_long { byte_limit < length text.now → result ≡ Err Fault.TextTooLong }
    {
        self.grammar.parse(alloc, text, lexer, TRIVIA, START)
    }
}
