// Written by rowan_grammar from little.ungram: change that, and not this file.
//! The parser of Little: the rules of its grammar, by which `rowan_predictive` goes.
ghost use Rattle.std.specs.Prelude.{◌≡◌, ◌<◌, [], length, IfOk, IfErr};
ghost use Rattle.rowan.specs.Fits.{byte_limit};
ghost use Rattle.rowan.specs.Term.{node_kind, node_text};
ghost use Rattle.rowan_parser.specs.Parsing.{WhyNoTree};
ghost use Rattle.rowan_predictive.specs.Causes.{WhyNoGrammar};
ghost use Rattle.rowan_predictive.specs.Parsing.{HasTree, IsTreeBy};
ghost use Rattle.rowan_predictive.specs.View.{rules_in, rules_prop};
ghost use Rattle.little_syntax.specs.declared.parser.TheConstants.{RULES, SKIPPED};

use crate::kinds::Kind;
use rowan::{Fault, SyntaxKind};
use rowan_parser::{Lexer, Parse, TokenSet, Trivia, token_set};
use rowan_predictive::{Grammar, GrammarError, Rule, Start};
use std::alloc::Global;

/// The rules, which name each other by their places in this list.
const RULES: [Rule; 104] = [
    // Program
    Rule::Node(24, 103),
    // Statement
    Rule::Choice(100, 7),
    // Function
    Rule::Node(25, 97),
    // Parameters
    Rule::Node(26, 89),
    // LetStatement
    Rule::Node(27, 85),
    // IfStatement
    Rule::Node(28, 80),
    // Block
    Rule::Node(29, 77),
    // ExprStatement
    Rule::Node(30, 76),
    // Expr
    Rule::Chain(72),
    // Condition
    Rule::Chain(67),
    // Summand
    Rule::Chain(62),
    // Factor
    Rule::Chain(57),
    // Unary
    Rule::Choice(13, 14),
    // Prefix
    Rule::Node(35, 55),
    // Postfix
    Rule::Chain(50),
    // Arguments
    Rule::Node(37, 42),
    // Literal
    Rule::Node(38, 20),
    // Variable
    Rule::Node(39, 21),
    // Group
    Rule::Node(40, 40),
    // IfStatementElseBranch
    Rule::Choice(5, 6),
    // Number
    Rule::Token(2),
    // Name
    Rule::Token(3),
    // Let
    Rule::Token(4),
    // Fn
    Rule::Token(5),
    // If
    Rule::Token(6),
    // Else
    Rule::Token(7),
    // Open
    Rule::Token(8),
    // Close
    Rule::Token(9),
    // LBrace
    Rule::Token(10),
    // RBrace
    Rule::Token(11),
    // Comma
    Rule::Token(12),
    // Semi
    Rule::Token(13),
    // Assign
    Rule::Token(14),
    // Equal
    Rule::Token(15),
    // Less
    Rule::Token(16),
    // Plus
    Rule::Token(17),
    // Minus
    Rule::Token(18),
    // Star
    Rule::Token(19),
    // Slash
    Rule::Token(20),
    // Not
    Rule::Token(21),
    // Parts of these.
    Rule::Seq(41, 27),
    Rule::Seq(26, 8),
    Rule::Seq(43, 27),
    Rule::Seq(26, 44),
    Rule::Optional(45),
    Rule::Seq(8, 48),
    Rule::Seq(8, 48),
    Rule::Optional(46),
    Rule::Optional(49),
    Rule::Seq(30, 47),
    Rule::Seq(52, 51),
    Rule::Star(54),
    Rule::Choice(53, 18),
    Rule::Choice(16, 17),
    Rule::Wrap(36, 15),
    Rule::Seq(56, 12),
    Rule::Choice(36, 39),
    Rule::Seq(12, 58),
    Rule::Star(59),
    Rule::Wrap(34, 60),
    Rule::Seq(61, 12),
    Rule::Choice(37, 38),
    Rule::Seq(11, 63),
    Rule::Star(64),
    Rule::Wrap(33, 65),
    Rule::Seq(66, 11),
    Rule::Choice(35, 36),
    Rule::Seq(10, 68),
    Rule::Star(69),
    Rule::Wrap(32, 70),
    Rule::Seq(71, 10),
    Rule::Choice(33, 34),
    Rule::Seq(9, 73),
    Rule::Optional(74),
    Rule::Wrap(31, 75),
    Rule::Seq(32, 8),
    Rule::Seq(8, 31),
    Rule::Seq(78, 29),
    Rule::Seq(28, 79),
    Rule::Star(1),
    Rule::Seq(81, 83),
    Rule::Seq(82, 6),
    Rule::Seq(24, 8),
    Rule::Optional(84),
    Rule::Seq(25, 19),
    Rule::Seq(86, 31),
    Rule::Seq(87, 8),
    Rule::Seq(88, 32),
    Rule::Seq(22, 21),
    Rule::Seq(90, 27),
    Rule::Seq(26, 91),
    Rule::Optional(92),
    Rule::Seq(21, 95),
    Rule::Seq(21, 95),
    Rule::Optional(93),
    Rule::Optional(96),
    Rule::Seq(30, 94),
    Rule::Seq(98, 6),
    Rule::Seq(99, 3),
    Rule::Seq(23, 21),
    Rule::Choice(102, 101),
    Rule::Choice(5, 6),
    Rule::Choice(2, 4),
    Rule::Star(1),
];

/// How messages name the tokens, by their raw kinds.
const WORDS: [&str; 23] = [
    "",
    "",
    "a number",
    "a name",
    "`let`",
    "`fn`",
    "`if`",
    "`else`",
    "`(`",
    "`)`",
    "`{`",
    "`}`",
    "`,`",
    "`;`",
    "`=`",
    "`==`",
    "`<`",
    "`+`",
    "`-`",
    "`*`",
    "`/`",
    "`!`",
    "an unknown",
];

/// The tokens that may stand anywhere.
const SKIPPED: TokenSet = token_set![Kind::Whitespace, Kind::Comment];

const TRIVIA: Trivia<'static> = Trivia {
    kinds: SKIPPED,
    attached: &[],
};

/// What a text is parsed as: a `Program`.
const START: Start<'static> = Start {
    root: SyntaxKind(24),
    rule: 103,
    error: SyntaxKind(23),
    words: &WORDS,
};

/// The parser of Little. Made once, it parses any number of texts.
#[derive(Drop)]
pub struct LittleParser {
    grammar: Grammar,
    ghost rules: { rules_in grammar ≡ RULES } by { rules_prop grammar RULES },
}

impl LittleParser {
    /// Finds by which tokens the rules begin and which may stand behind them.
    ///
    /// Errors: `Memory` if an allocation failed. The rules are such that nothing else is in the way.
    pub fn new(alloc: Global) -> Result<LittleParser, GrammarError>
        ensures err { IfErr result (WhyNoGrammar RULES) }
    {
        let grammar = Grammar::new(alloc, &RULES)?;
        Ok(LittleParser { grammar })
    }

    /// Parses a text. The tree has each byte of it, also where there are errors. There are none
    /// exactly if the lexer complains of nothing and the tokens that are not skipped derive from the
    /// rule of the root; the tree is then that of the derivation.
    ///
    /// Errors: `TextTooLong` if the text has more than 4,294,967,295 bytes; `TooManyChildren` if a
    /// node of the tree has more than 4,294,967,295 children; `Memory` if an allocation failed.
    pub fn parse(&self, alloc: Global, text: &str) -> Result<Parse, Fault>
        ensures text { IfOk result (λ parse. node_text parse.green ≡ text.now) }
        ensures kind { IfOk result (λ parse. node_kind parse.green ≡ 24) }
        ensures tree { IfOk result (λ parse.
            HasTree RULES SKIPPED [] 24 103 text.now parse.errors.items parse.green) }
        ensures err { IfErr result (WhyNoTree text.now) }
        ensures too_long { byte_limit < length text.now → result ≡ Err Fault.TextTooLong }
    {
        let lexer = crate::lexer::next_token;
        self.parse_with_lexer(alloc, text, lexer)
    }

    /// Parses a text as `parse` does, by another lexer.
    ///
    /// Errors: those of `parse`.
    pub fn parse_with_lexer<X: Lexer + Drop>(
        &self,
        alloc: Global,
        text: &str,
        lexer: X,
    ) -> Result<Parse, Fault>
        requires { X.is_ready lexer }
        ensures text { IfOk result (λ parse. node_text parse.green ≡ text.now) }
        ensures kind { IfOk result (λ parse. node_kind parse.green ≡ 24) }
        ensures tree { IfOk result (λ parse. IsTreeBy X.says lexer
            RULES SKIPPED [] 24 103 text.now parse.errors.items parse.green) }
        ensures err { IfErr result (WhyNoTree text.now) }
        ensures too_long { byte_limit < length text.now → result ≡ Err Fault.TextTooLong }
    {
        self.grammar.parse(alloc, text, lexer, TRIVIA, START)
    }
}
