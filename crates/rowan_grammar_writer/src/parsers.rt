//! The parser of a language as source text: `src/parser.rt`.
use crate::files::WrittenRules;
use crate::kinds::trivia_of;
use crate::signs::plain;
use crate::texts::text_of;
use crate::writer::{ARGUMENTS, Scope, Text, WIDTH, add_signature, fill};
use rowan_grammar_model::grammar::Sort;
use rowan_grammar_model::parser_lines::Named;
use rowan_grammar_model::place::text_at;

const HEAD: &str = "\
//! The parser of $language: the rules of its grammar, by which `rowan_predictive` goes.
ghost use Rattle.std.specs.Prelude.{◌≡◌, ◌<◌,$empty length, IfOk, IfErr};
ghost use Rattle.rowan.specs.Fits.{byte_limit};
ghost use Rattle.rowan.specs.Term.{node_kind, node_text};
ghost use Rattle.rowan_parser.specs.Parsing.{WhyNoTree};
ghost use Rattle.rowan_predictive.specs.Causes.{WhyNoGrammar};
ghost use Rattle.rowan_predictive.specs.Parsing.{HasTree, IsTreeBy};
ghost use Rattle.rowan_predictive.specs.View.{rules_in, rules_prop};
ghost use Rattle.$crate.specs.declared.parser.TheConstants.{$constants};

";

const USES: &str = "\
use rowan::{Fault, SyntaxKind};
use rowan_parser::{Lexer, Parse, TokenSet, Trivia, token_set};
use rowan_predictive::{Grammar, GrammarError, Rule, Start};
use std::alloc::Global;

";

/// What stands behind the tokens that may stand anywhere.
const PARSER: &str = "
const TRIVIA: Trivia<'static> = Trivia {
    kinds: SKIPPED,
    attached: &$attached,
};

/// What a text is parsed as: a `$node`.
const START: Start<'static> = Start {
    root: SyntaxKind($root),
    rule: $start,
    error: SyntaxKind($error),
    words: &WORDS,
};

/// The parser of $language. Made once, it parses any number of texts.
#[derive(Drop)]
pub struct ${language}Parser {
    grammar: Grammar,
    ghost rules: { rules_in grammar ≡ RULES } by { rules_prop grammar RULES },
}

impl ${language}Parser {
    /// Finds by which tokens the rules begin and which may stand behind them.
    ///
    /// Errors: `Memory` if an allocation failed. The rules are such that nothing else is in the way.
$head
        ensures err { IfErr result (WhyNoGrammar RULES) }
    {
        let grammar = Grammar::new(alloc, &RULES)?;
        Ok(${language}Parser { grammar })
    }

    /// Parses a text. The tree has each byte of it, also where there are errors. There are none
    /// exactly if the lexer complains of nothing and the tokens that are not skipped derive from the
    /// rule of the root; the tree is then that of the derivation.
    ///
    /// Errors: `TextTooLong` if the text has more than 4,294,967,295 bytes; `TooManyChildren` if a
    /// node of the tree has more than 4,294,967,295 children; `Memory` if an allocation failed.
    pub fn parse(&self, alloc: Global, text: &str) -> Result<Parse, Fault>
        ensures text { IfOk result (λ parse. node_text parse.green ≡ text.now) }
        ensures kind { IfOk result (λ parse. node_kind parse.green ≡ $root) }
        ensures tree { IfOk result (λ parse.
            HasTree RULES SKIPPED $attached $root $start text.now parse.errors.items parse.green) }
        ensures err { IfErr result (WhyNoTree text.now) }
        ensures too_long { byte_limit < length text.now → result ≡ Err Fault.TextTooLong }
    {
        let lexer = $lexer;
        self.parse_with_lexer(alloc, text, lexer)
    }

    /// Parses a text as `parse` does, by another lexer.
    ///
    /// Errors: those of `parse`.
    pub fn parse_with_lexer<X: Lexer + Drop>(
        &self,
        alloc: Global,
        text: &str,
        lexer: X,
    ) -> Result<Parse, Fault>
        requires { X.is_ready lexer }
        ensures text { IfOk result (λ parse. node_text parse.green ≡ text.now) }
        ensures kind { IfOk result (λ parse. node_kind parse.green ≡ $root) }
        ensures tree { IfOk result (λ parse. IsTreeBy X.says lexer
            RULES SKIPPED $attached $root $start text.now parse.errors.items parse.green) }
        ensures err { IfErr result (WhyNoTree text.now) }
        ensures too_long { byte_limit < length text.now → result ≡ Err Fault.TextTooLong }
    {
        self.grammar.parse(alloc, text, lexer, TRIVIA, START)
    }
}
";

/// Adds the text of `src/parser.rt`: nothing where no parser is asked for.
pub fn add_parser_code(out: &mut Text, scope: &Scope<'_>) {
    match (scope.rules, &scope.grammar.parsing.lexer) {
        (Some(rules), Some(lexer)) => {
            let trivia = trivia_of(scope);
            add_head(out, scope, trivia.len() > 0);
            add_rules(out, rules);
            add_words(out, scope);
            out.add("\n/// The tokens that may stand anywhere.\n");
            out.add("const SKIPPED: TokenSet = token_set![");
            trivia.add_to(out);
            out.add("];\n");
            add_attached(out, scope);
            add_parser(out, scope, rules.start, lexer.path.as_str());
        }
        _ => {}
    }
}

/// Whether trivia belong to some nodes behind them.
fn has_attached(scope: &Scope<'_>) -> bool {
    !scope.grammar.parsing.attached.is_empty()
}

/// What stands before the rules.
fn add_head(out: &mut Text, scope: &Scope<'_>, has_trivia: bool) {
    let (constants, empty) = match has_attached(scope) {
        true => ("ATTACHED, RULES, SKIPPED", ""),
        false => ("RULES, SKIPPED", " [],"),
    };
    let values = [
        "constants",
        constants,
        "empty",
        empty,
        "language",
        scope.language,
        "crate",
        scope.crate_name,
        "module",
        scope.module,
    ];
    fill(out, HEAD, &values);
    if has_trivia {
        fill(out, "use crate::$module::Kind;\n", &values);
    }
    out.add(USES);
}

/// Adds the nodes to which trivia before them belong, if there are some, each with the trivia.
fn add_attached(out: &mut Text, scope: &Scope<'_>) {
    let lines = scope.grammar.parsing.attached.as_slice();
    if lines.is_empty() {
        return;
    }
    let mut count = 0usize;
    for line in lines.iter() {
        count = count.saturating_add(line.nodes.len());
    }
    out.add("\n/// Nodes, each with the trivia that belong to it where they stand before it.\n");
    out.add("const ATTACHED: [(SyntaxKind, TokenSet); ");
    out.add_number(count);
    out.add("] = [\n");
    for line in lines.iter() {
        for node in line.nodes.iter() {
            out.add("    (SyntaxKind(");
            out.add_number(kind_of(scope, node));
            out.add("), token_set![Kind::");
            out.add(scope.grammar.name(line.trivia.item.unwrap_or(0)));
            out.add("]),\n");
        }
    }
    out.add("];\n");
}

/// The parser: its rules are tested by `new`, and begin at this one.
fn add_parser(out: &mut Text, scope: &Scope<'_>, start: usize, lexer: &str) {
    let root = scope.number(number_of(scope, scope.root));
    let error = scope.number(number_of(scope, scope.error));
    let start = scope.number(start);
    let making = making_of(scope);
    let attached = match has_attached(scope) {
        true => "ATTACHED",
        false => "[]",
    };
    let values = [
        "attached",
        attached,
        "language",
        scope.language,
        "root",
        out.read(&root),
        "error",
        out.read(&error),
        "start",
        out.read(&start),
        "lexer",
        lexer,
        "node",
        scope.root,
        "head",
        out.read(&making),
    ];
    fill(out, PARSER, &values);
}

/// The head of `new`.
fn making_of(scope: &Scope<'_>) -> Text {
    let mut out = Text::new(scope.alloc);
    let language = ["language", scope.language];
    let gives = scope.filled("Result<${language}Parser, GrammarError>", &language);
    let gives = out.read(&gives);
    add_signature(&mut out, "    pub fn ", "new", "alloc: Global", gives);
    out
}

/// The raw kind of what a line of the head names.
fn kind_of(scope: &Scope<'_>, named: &Named) -> usize {
    let is_named = |index: &usize| named.item == Some(*index);
    scope.kinds.iter().position(is_named).unwrap_or(0)
}

/// The raw kind of what has this name.
fn number_of(scope: &Scope<'_>, name: &str) -> usize {
    let grammar = scope.grammar;
    let is_named = |index: &usize| grammar.name(*index) == name;
    scope.kinds.iter().position(is_named).unwrap_or(0)
}

/// Adds the list of the rules.
fn add_rules(out: &mut Text, rules: &WrittenRules) {
    out.add("/// The rules, which name each other by their places in this list.\n");
    out.add("const RULES: [Rule; ");
    out.add_number(rules.count);
    out.add("] = [\n");
    out.add(rules.lines.as_str());
    out.add("];\n");
}

/// Adds how messages name the tokens.
fn add_words(out: &mut Text, scope: &Scope<'_>) {
    let mut words: Vec<Text> = Vec::new(scope.alloc);
    for index in scope.kinds.iter() {
        if scope.grammar.sort(*index).is_token() && words.len() < 128 {
            if words.push(word_of(scope, *index)).is_err() {
                out.fail();
            }
        }
    }
    out.add("\n/// How messages name the tokens, by their raw kinds.\n");
    out.add("const WORDS: [&str; ");
    out.add_number(words.len());
    out.add("] = [");
    add_packed(out, words.as_slice());
    out.add("];\n");
}

/// Adds elements of a list as `rt fmt` lays them out: on one line if it takes them, else as many on
/// a line as it takes where all are short, else each on its own.
fn add_packed(out: &mut Text, words: &[Text]) {
    let mut len = 0usize;
    let mut longest = 0usize;
    for word in words.iter() {
        len = len.saturating_add(word.len()).saturating_add(2);
        longest = longest.max(word.len());
    }
    let is_one_line = len <= ARGUMENTS.saturating_add(2);
    let width = match longest {
        _ if is_one_line => usize::MAX,
        0..=10 => WIDTH,
        _ => 0,
    };
    let mut column = 0usize;
    for (index, word) in words.iter().enumerate() {
        let end = column.saturating_add(word.len()).saturating_add(2);
        if !is_one_line && (index == 0 || end > width) {
            out.add("\n    ");
            column = 4;
        } else if index > 0 {
            out.add(" ");
            column = column.saturating_add(1);
        }
        out.add_text(word);
        let is_last = index.saturating_add(1) == words.len();
        if !is_one_line || !is_last {
            out.add(",");
        }
        column = column.saturating_add(word.len()).saturating_add(1);
    }
    if !is_one_line {
        out.add("\n");
    }
}

/// How messages name a token, in quotes: by its text, by the words that the grammar has for it, or by
/// its name with an article.
fn word_of(scope: &Scope<'_>, index: usize) -> Text {
    let mut word = Text::new(scope.alloc);
    word.add("\"");
    if scope.grammar.sort(index) != Sort::Trivia {
        add_shown(&mut word, scope, index);
    }
    word.add("\"");
    word
}

fn add_shown(out: &mut Text, scope: &Scope<'_>, index: usize) {
    if let Some(range) = scope.grammar.parsing.words(index) {
        add_plain(out, scope, text_at(scope.text, range));
    } else if let Some(text) = text_of(scope, index) {
        out.add("`");
        add_plain(out, scope, text);
        out.add("`");
    } else {
        add_name(out, scope.grammar.snake(index));
    }
}

/// Adds a text of a grammar as it stands in quotes here.
fn add_plain(out: &mut Text, scope: &Scope<'_>, quoted: &str) {
    let plain = plain(scope.alloc, quoted);
    let plain = out.read(&plain);
    out.add_escaped(plain);
}

/// Adds the name of a token in words, as `an integer literal`.
fn add_name(out: &mut Text, snake: &str) {
    let is_vowel = snake.starts_with(|first: char| matches!(first, 'a' | 'e' | 'i' | 'o' | 'u'));
    out.add(if is_vowel { "an" } else { "a" });
    for word in snake.split('_') {
        if !word.is_empty() {
            out.add(" ");
            out.add(word);
        }
    }
}
