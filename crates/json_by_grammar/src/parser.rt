// Written by rowan_grammar from json.ungram: change that, and not this file.
//! The parser of Json: the rules of its grammar, by which `rowan_predictive` goes.
ghost use Rattle.std.specs.Prelude.{◌≡◌, ◌<◌, [], length, IfOk, IfErr};
ghost use Rattle.rowan.specs.Fits.{byte_limit};
ghost use Rattle.rowan.specs.Term.{node_kind, node_text};
ghost use Rattle.rowan_parser.specs.Parsing.{WhyNoTree};
ghost use Rattle.rowan_predictive.specs.Causes.{WhyNoGrammar};
ghost use Rattle.rowan_predictive.specs.Parsing.{HasTree, IsTreeBy};
ghost use Rattle.rowan_predictive.specs.View.{rules_in, rules_prop};
ghost use Rattle.json_by_grammar.specs.declared.parser.TheConstants.{RULES, SKIPPED};

use crate::kinds::Kind;
use rowan::{Fault, SyntaxKind};
use rowan_parser::{Lexer, Parse, TokenSet, Trivia, token_set};
use rowan_predictive::{Grammar, GrammarError, Rule, Start};
use std::alloc::Global;

/// The rules, which name each other by their places in this list.
const RULES: [Rule; 32] = [
    // Object
    Rule::Node(12, 26),
    // Member
    Rule::Node(13, 24),
    // Array
    Rule::Node(14, 18),
    // Literal
    Rule::Node(15, 16),
    // Value
    Rule::Choice(15, 3),
    // Root
    Rule::Node(17, 4),
    // String
    Rule::Token(2),
    // Number
    Rule::Token(3),
    // Word
    Rule::Token(4),
    // LBrace
    Rule::Token(5),
    // RBrace
    Rule::Token(6),
    // LBracket
    Rule::Token(7),
    // RBracket
    Rule::Token(8),
    // Comma
    Rule::Token(9),
    // Colon
    Rule::Token(10),
    // Parts of these.
    Rule::Choice(0, 2),
    Rule::Choice(17, 8),
    Rule::Choice(6, 7),
    Rule::Seq(19, 12),
    Rule::Seq(11, 20),
    Rule::Optional(21),
    Rule::Seq(4, 22),
    Rule::Star(23),
    Rule::Seq(13, 4),
    Rule::Seq(25, 4),
    Rule::Seq(6, 14),
    Rule::Seq(27, 10),
    Rule::Seq(9, 28),
    Rule::Optional(29),
    Rule::Seq(1, 30),
    Rule::Star(31),
    Rule::Seq(13, 1),
];

/// How messages name the tokens, by their raw kinds.
const WORDS: [&str; 12] = [
    "",
    "",
    "a string",
    "a number",
    "a word",
    "`{`",
    "`}`",
    "`[`",
    "`]`",
    "`,`",
    "`:`",
    "an unknown",
];

/// The tokens that may stand anywhere.
const SKIPPED: TokenSet = token_set![Kind::Whitespace, Kind::Comment];

const TRIVIA: Trivia<'static> = Trivia {
    kinds: SKIPPED,
    attached: &[],
};

/// What a text is parsed as: a `Root`.
const START: Start<'static> = Start {
    root: SyntaxKind(17),
    rule: 4,
    error: SyntaxKind(16),
    words: &WORDS,
};

/// The parser of Json. Made once, it parses any number of texts.
#[derive(Drop)]
pub struct JsonParser {
    grammar: Grammar,
    ghost rules: { rules_in grammar ≡ RULES } by { rules_prop grammar RULES },
}

impl JsonParser {
    /// Finds by which tokens the rules begin and which may stand behind them.
    ///
    /// Errors: `Memory` if an allocation failed. The rules are such that nothing else is in the way.
    pub fn new(alloc: Global) -> Result<JsonParser, GrammarError>
        ensures err { IfErr result (WhyNoGrammar RULES) }
    {
        let grammar = Grammar::new(alloc, &RULES)?;
        Ok(JsonParser { grammar })
    }

    /// Parses a text. The tree has each byte of it, also where there are errors. There are none
    /// exactly if the lexer complains of nothing and the tokens that are not skipped derive from the
    /// rule of the root; the tree is then that of the derivation.
    ///
    /// Errors: `TextTooLong` if the text has more than 4,294,967,295 bytes; `TooManyChildren` if a
    /// node of the tree has more than 4,294,967,295 children; `Memory` if an allocation failed.
    pub fn parse(&self, alloc: Global, text: &str) -> Result<Parse, Fault>
        ensures text { IfOk result (λ parse. node_text parse.green ≡ text.now) }
        ensures kind { IfOk result (λ parse. node_kind parse.green ≡ 17) }
        ensures tree { IfOk result (λ parse.
            HasTree RULES SKIPPED [] 17 4 text.now parse.errors.items parse.green) }
        ensures err { IfErr result (WhyNoTree text.now) }
        ensures too_long { byte_limit < length text.now → result ≡ Err Fault.TextTooLong }
    {
        let lexer = crate::lexer::StrictLexer;
        self.parse_with_lexer(alloc, text, lexer)
    }

    /// Parses a text as `parse` does, by another lexer.
    ///
    /// Errors: those of `parse`.
    pub fn parse_with_lexer<X: Lexer + Drop>(
        &self,
        alloc: Global,
        text: &str,
        lexer: X,
    ) -> Result<Parse, Fault>
        requires { X.is_ready lexer }
        ensures text { IfOk result (λ parse. node_text parse.green ≡ text.now) }
        ensures kind { IfOk result (λ parse. node_kind parse.green ≡ 17) }
        ensures tree { IfOk result (λ parse. IsTreeBy X.says lexer
            RULES SKIPPED [] 17 4 text.now parse.errors.items parse.green) }
        ensures err { IfErr result (WhyNoTree text.now) }
        ensures too_long { byte_limit < length text.now → result ≡ Err Fault.TextTooLong }
    {
        self.grammar.parse(alloc, text, lexer, TRIVIA, START)
    }
}
