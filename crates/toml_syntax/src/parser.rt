// Written by rowan_grammar from toml.ungram: change that, and not this file.
//! The parser of Toml: the rules of its grammar, by which `rowan_predictive` goes.
ghost use Rattle.std.specs.Prelude.{◌≡◌, ◌<◌, length, IfOk, IfErr};
ghost use Rattle.rowan.specs.Fits.{byte_limit};
ghost use Rattle.rowan.specs.Term.{node_kind, node_text};
ghost use Rattle.rowan_parser.specs.Parsing.{WhyNoTree};
ghost use Rattle.rowan_predictive.specs.Causes.{WhyNoGrammar};
ghost use Rattle.rowan_predictive.specs.Parsing.{HasTree, IsTreeBy};
ghost use Rattle.rowan_predictive.specs.View.{rules_in, rules_prop};
ghost use Rattle.toml_syntax.specs.declared.parser.TheConstants.{ATTACHED, RULES, SKIPPED};

use crate::kinds::Kind;
use rowan::{Fault, SyntaxKind};
use rowan_parser::{Lexer, Parse, TokenSet, Trivia, token_set};
use rowan_predictive::{Grammar, GrammarError, Rule, Start};
use std::alloc::Global;

/// The rules, which name each other by their places in this list.
const RULES: [Rule; 84] = [
    // Document
    Rule::Node(26, 81),
    // Section
    Rule::Choice(2, 3),
    // Table
    Rule::Node(27, 75),
    // ArrayTable
    Rule::Node(28, 69),
    // Entry
    Rule::Node(29, 65),
    // Key
    Rule::Node(30, 62),
    // KeyPart
    Rule::Node(31, 60),
    // Value
    Rule::Choice(59, 10),
    // Scalar
    Rule::Node(32, 49),
    // Array
    Rule::Node(33, 41),
    // InlineTable
    Rule::Node(34, 33),
    // Newline
    Rule::Token(2),
    // BareKey
    Rule::Token(3),
    // BasicString
    Rule::Token(4),
    // LiteralString
    Rule::Token(5),
    // MultiLineBasicString
    Rule::Token(6),
    // MultiLineLiteralString
    Rule::Token(7),
    // Integer
    Rule::Token(8),
    // Float
    Rule::Token(9),
    // Boolean
    Rule::Token(10),
    // OffsetDateTime
    Rule::Token(11),
    // LocalDateTime
    Rule::Token(12),
    // LocalDate
    Rule::Token(13),
    // LocalTime
    Rule::Token(14),
    // Dot
    Rule::Token(15),
    // Equals
    Rule::Token(16),
    // Comma
    Rule::Token(17),
    // LBracket
    Rule::Token(18),
    // RBracket
    Rule::Token(19),
    // LBrackets
    Rule::Token(20),
    // RBrackets
    Rule::Token(21),
    // LBrace
    Rule::Token(22),
    // RBrace
    Rule::Token(23),
    // Parts of these.
    Rule::Seq(34, 32),
    Rule::Seq(31, 35),
    Rule::Optional(36),
    Rule::Seq(4, 39),
    Rule::Seq(4, 39),
    Rule::Optional(37),
    Rule::Optional(40),
    Rule::Seq(26, 38),
    Rule::Seq(42, 28),
    Rule::Seq(27, 43),
    Rule::Optional(44),
    Rule::Seq(7, 47),
    Rule::Seq(7, 47),
    Rule::Optional(45),
    Rule::Optional(48),
    Rule::Seq(26, 46),
    Rule::Choice(50, 51),
    Rule::Choice(53, 52),
    Rule::Choice(54, 23),
    Rule::Choice(56, 55),
    Rule::Choice(58, 57),
    Rule::Choice(21, 22),
    Rule::Choice(19, 20),
    Rule::Choice(17, 18),
    Rule::Choice(15, 16),
    Rule::Choice(13, 14),
    Rule::Choice(8, 9),
    Rule::Choice(61, 14),
    Rule::Choice(12, 13),
    Rule::Seq(6, 63),
    Rule::Star(64),
    Rule::Seq(24, 6),
    Rule::Seq(66, 68),
    Rule::Seq(67, 7),
    Rule::Seq(5, 25),
    Rule::Optional(11),
    Rule::Seq(70, 73),
    Rule::Seq(71, 74),
    Rule::Seq(72, 30),
    Rule::Seq(29, 5),
    Rule::Star(4),
    Rule::Optional(11),
    Rule::Seq(76, 79),
    Rule::Seq(77, 80),
    Rule::Seq(78, 28),
    Rule::Seq(27, 5),
    Rule::Star(4),
    Rule::Optional(11),
    Rule::Seq(83, 82),
    Rule::Star(1),
    Rule::Star(4),
];

/// How messages name the tokens, by their raw kinds.
const WORDS: [&str; 25] = [
    "",
    "",
    "the end of the line",
    "a key",
    "a string",
    "a string in single quotes",
    "a string of several lines",
    "a string of several lines in single quotes",
    "an integer",
    "a float",
    "`true` or `false`",
    "a date and time",
    "a local date and time",
    "a date",
    "a time",
    "`.`",
    "`=`",
    "`,`",
    "`[`",
    "`]`",
    "`[[`",
    "`]]`",
    "`{`",
    "`}`",
    "an unknown",
];

/// The tokens that may stand anywhere.
const SKIPPED: TokenSet = token_set![Kind::Whitespace, Kind::Comment];

/// Nodes, each with the trivia that belong to it where they stand before it.
const ATTACHED: [(SyntaxKind, TokenSet); 3] = [
    (SyntaxKind(29), token_set![Kind::Comment]),
    (SyntaxKind(27), token_set![Kind::Comment]),
    (SyntaxKind(28), token_set![Kind::Comment]),
];

const TRIVIA: Trivia<'static> = Trivia {
    kinds: SKIPPED,
    attached: &ATTACHED,
};

/// What a text is parsed as: a `Document`.
const START: Start<'static> = Start {
    root: SyntaxKind(26),
    rule: 81,
    error: SyntaxKind(25),
    words: &WORDS,
};

/// The parser of Toml. Made once, it parses any number of texts.
#[derive(Drop)]
pub struct TomlParser {
    grammar: Grammar,
    ghost rules: { rules_in grammar ≡ RULES } by { rules_prop grammar RULES },
}

impl TomlParser {
    /// Finds by which tokens the rules begin and which may stand behind them.
    ///
    /// Errors: `Memory` if an allocation failed. The rules are such that nothing else is in the way.
    pub fn new(alloc: Global) -> Result<TomlParser, GrammarError>
        ensures err { IfErr result (WhyNoGrammar RULES) }
    {
        let grammar = Grammar::new(alloc, &RULES)?;
        Ok(TomlParser { grammar })
    }

    /// Parses a text. The tree has each byte of it, also where there are errors. There are none
    /// exactly if the lexer complains of nothing and the tokens that are not skipped derive from the
    /// rule of the root; the tree is then that of the derivation.
    ///
    /// Errors: `TextTooLong` if the text has more than 4,294,967,295 bytes; `TooManyChildren` if a
    /// node of the tree has more than 4,294,967,295 children; `Memory` if an allocation failed.
    pub fn parse(&self, alloc: Global, text: &str) -> Result<Parse, Fault>
        ensures text { IfOk result (λ parse. node_text parse.green ≡ text.now) }
        ensures kind { IfOk result (λ parse. node_kind parse.green ≡ 26) }
        ensures tree { IfOk result (λ parse.
            HasTree RULES SKIPPED ATTACHED 26 81 text.now parse.errors.items parse.green) }
        ensures err { IfErr result (WhyNoTree text.now) }
        ensures too_long { byte_limit < length text.now → result ≡ Err Fault.TextTooLong }
    {
        let lexer = crate::lexer::START;
        self.parse_with_lexer(alloc, text, lexer)
    }

    /// Parses a text as `parse` does, by another lexer.
    ///
    /// Errors: those of `parse`.
    pub fn parse_with_lexer<X: Lexer + Drop>(
        &self,
        alloc: Global,
        text: &str,
        lexer: X,
    ) -> Result<Parse, Fault>
        requires { X.is_ready lexer }
        ensures text { IfOk result (λ parse. node_text parse.green ≡ text.now) }
        ensures kind { IfOk result (λ parse. node_kind parse.green ≡ 26) }
        ensures tree { IfOk result (λ parse. IsTreeBy X.says lexer
            RULES SKIPPED ATTACHED 26 81 text.now parse.errors.items parse.green) }
        ensures err { IfErr result (WhyNoTree text.now) }
        ensures too_long { byte_limit < length text.now → result ≡ Err Fault.TextTooLong }
    {
        self.grammar.parse(alloc, text, lexer, TRIVIA, START)
    }
}
