//! The calls of kinds as source text: what tells tokens that always have one text apart, words and
//! signs, and what tells those in a set.
use crate::sets::{add_set_calls, add_set_words};
use crate::signs::{add_sign_call, has_signs};
use crate::writer::{Imports, Scope, Text, fill};
use rowan_grammar_model::place::text_at;

/// The signs that stand in a macro's brackets as they are.
const SIGNS: &str = "+-*/%^!&|=<>@.,;:#?~";

const HEAD: &str = "
impl Kind {
    ghost use Rattle.std.specs.Prelude.{◌≡◌};
";

const CALLS: &str = "
    /// Whether its tokens are always one word.
    pub fn is_keyword(self) -> bool
        ensures { result ≡ is_keyword self }
    {
        match self {
$keywords            _ => false,
        }
    }

    /// Whether its tokens always have one text that is no word.
    pub fn is_punct(self) -> bool
        ensures { result ≡ is_punct self }
    {
        match self {
$signs            _ => false,
        }
    }

    /// The kind of the tokens that are always this word.
    pub fn from_keyword(text: &str) -> Option<Kind>
        ensures { result ≡ keyword_of text.now }
    {
$tests        None
    }
";

const MACRO: &str = "
/// The kind of a token by the text that it always has.
#[macro_export]
macro_rules! T {
$rules}
";

/// Whether tokens of some kind always have one text.
pub fn has_texts(scope: &Scope<'_>) -> bool {
    scope
        .kinds
        .iter()
        .any(|index| text_of(scope, *index).is_some())
}

/// Adds the calls of kinds, and the macro from texts to kinds: nothing where there are neither texts
/// nor sets.
pub fn add_calls_of_kinds(out: &mut Text, scope: &Scope<'_>) {
    let has_texts = has_texts(scope);
    if !has_texts && scope.sets.is_empty() && !has_signs(scope) {
        return;
    }
    add_head(out, scope, has_texts);
    let mut rules = Text::new(scope.alloc);
    if has_texts {
        add_text_calls(out, &mut rules, scope);
    }
    if has_signs(scope) {
        add_sign_call(out, scope);
    }
    add_set_calls(out, scope);
    out.add("}\n");
    if !rules.is_empty() {
        let rules = ["rules", out.read(&rules)];
        fill(out, MACRO, &rules);
    }
}

/// Adds the head of the calls, with the words that their contracts name.
fn add_head(out: &mut Text, scope: &Scope<'_>, has_texts: bool) {
    let mut words = Imports::new(scope, "    ghost use Rattle.$crate.specs.Kinds.{", ";");
    if has_texts {
        for word in ["is_keyword", "is_punct", "keyword_of"] {
            words.add(word);
        }
    }
    if has_signs(scope) {
        words.add("sign_of");
    }
    add_set_words(&mut words, scope);
    out.add(HEAD);
    words.finish(out);
}

/// Adds the calls that tell words and signs apart, and the rules from texts to kinds.
fn add_text_calls(out: &mut Text, rules: &mut Text, scope: &Scope<'_>) {
    let mut keywords = Text::new(scope.alloc);
    let mut signs = Text::new(scope.alloc);
    let mut tests = Text::new(scope.alloc);
    for index in scope.kinds.iter() {
        let Some(text) = text_of(scope, *index) else {
            continue;
        };
        let name = scope.grammar.name(*index);
        let arm = "            Kind::$kind => true,\n";
        if is_word(text) {
            fill(&mut keywords, arm, &["kind", name]);
            fill(&mut tests, TEST, &["text", text, "kind", name]);
        } else {
            fill(&mut signs, arm, &["kind", name]);
        }
        add_rule(rules, scope.module, text, name);
    }
    let values = [
        "keywords",
        out.read(&keywords),
        "signs",
        out.read(&signs),
        "tests",
        out.read(&tests),
    ];
    fill(out, CALLS, &values);
}

const TEST: &str = "        if text == \"$text\" {
            return Some(Kind::$kind);
        }
";

/// Adds the rule of the macro for a text. A text that is neither a word nor of signs stands there as
/// a character or as a text.
fn add_rule(rules: &mut Text, module: &str, text: &str, name: &str) {
    rules.add("    [");
    if is_word(text) || is_of_signs(text) {
        rules.add(text);
    } else {
        let quote = if text.chars().count() == 1 { '\'' } else { '"' };
        rules.add_character(quote);
        for character in text.chars() {
            if character == '"' && quote == '"' {
                rules.add("\\");
            }
            rules.add_character(character);
        }
        rules.add_character(quote);
    }
    fill(
        rules,
        "] => { ${dollar}crate::$module::Kind::$kind };\n",
        &["dollar", "$", "module", module, "kind", name],
    );
}

const IS_KEYWORD: &str = "
-- whether its tokens are always one word
abbrev pub is_keyword : Kind → Bool
";

const IS_PUNCT: &str = "\
is_keyword _ = false

-- whether its tokens always have one text that is no word
abbrev pub is_punct : Kind → Bool
";

const KEYWORD_OF: &str = "\
is_punct _ = false

-- the kind of the tokens that are always this word
abbrev pub keyword_of : List ℕ → Option Kind
keyword_of text =
";

/// Adds the definitions that the contracts of these calls name.
pub fn add_text_specs(out: &mut Text, scope: &Scope<'_>) {
    out.add(IS_KEYWORD);
    add_kinds_that(out, scope, true, "is_keyword Kind.$kind = true\n");
    out.add(IS_PUNCT);
    add_kinds_that(out, scope, false, "is_punct Kind.$kind = true\n");
    out.add(KEYWORD_OF);
    let mut count = 0usize;
    for index in scope.kinds.iter() {
        match text_of(scope, *index) {
            Some(text) if is_word(text) => {
                let name = scope.grammar.name(*index);
                out.add(if count == 0 { "    " } else { "    else (" });
                let test = "if bytes_eq text (codes \"$text\") then Some Kind.$kind\n";
                fill(out, test, &["text", text, "kind", name]);
                count = count.saturating_add(1);
            }
            _ => {}
        }
    }
    out.add(if count == 0 {
        "    None"
    } else {
        "    else None"
    });
    out.close(count);
    out.add("\n");
}

/// Adds a line for each kind whose tokens are always one word, or always one text that is none.
fn add_kinds_that(out: &mut Text, scope: &Scope<'_>, are_words: bool, line: &str) {
    for index in scope.kinds.iter() {
        match text_of(scope, *index) {
            Some(text) if is_word(text) == are_words => {
                fill(out, line, &["kind", scope.grammar.name(*index)]);
            }
            _ => {}
        }
    }
}

/// The text that the tokens of a kind always have.
pub fn text_of<'g>(scope: &Scope<'g>, index: usize) -> Option<&'g str> {
    let item = scope.grammar.items.get(index)?;
    let quoted = text_at(scope.text, item.literal?);
    quoted.strip_prefix('\'')?.strip_suffix('\'')
}

pub fn is_word(text: &str) -> bool {
    text.starts_with(|first: char| first.is_ascii_alphabetic() || first == '_')
        && text.chars().all(|character| character.is_ascii_alphanumeric() || character == '_')
}

fn is_of_signs(text: &str) -> bool {
    text.chars().all(|character| SIGNS.contains(character))
        && !text.contains("//")
        && !text.contains("/*")
}
