//! The texts that tokens always have, the longest first, for a lexer, as source text.
use crate::texts::{is_word, text_of};
use crate::writer::{ARGUMENTS, Scope, Text, fill};
use std::alloc::{AllocError, Global};

const CALL: &str = "
    /// The kind and the length, in bytes, of the longest of these texts with which a text begins:
    /// those of tokens that always have one, and no words.
    pub fn from_start(text: &str) -> Option<(Kind, usize)>
        ensures { result ≡ sign_of text.now }
    {
        let bytes = text.as_bytes();
$tests        None
    }
";

const TEST: &str = "        if bytes.starts_with(b\"$text\") {
            return Some((Kind::$kind, $len));
        }
";

/// A token that always has one text.
#[derive(Drop)]
struct Sign {
    text: Text,
    item: usize,
}

/// The tokens that always have one text, which may be a word, the longest first.
fn texts_of(scope: &Scope<'_>) -> Result<Vec<Sign>, AllocError> {
    let mut texts: Vec<Sign> = Vec::new(scope.alloc);
    for index in scope.kinds.iter() {
        if let Some(text) = text_of(scope, *index) {
            texts.push(Sign {
                text: plain(scope.alloc, text),
                item: *index,
            })?;
        }
    }
    texts.sort_by_key(|sign| usize::MAX.saturating_sub(sign.text.len()))?;
    Ok(texts)
}

/// Adds the table of the texts that tokens always have, where a parser is asked for.
pub fn add_table(out: &mut Text, scope: &Scope<'_>) {
    match texts_of(scope) {
        Ok(texts) if scope.rules.is_some() && !texts.is_empty() => add_texts(
            out,
            scope,
            texts.as_slice(),
        ),
        Ok(_) => {}
        Err(_) => out.fail(),
    }
}

fn add_texts(out: &mut Text, scope: &Scope<'_>, texts: &[Sign]) {
    let mut line = Text::new(scope.alloc);
    let mut lines = Text::new(scope.alloc);
    for text in texts.iter() {
        let pair = pair_of(scope, text);
        line.add(if line.is_empty() { "" } else { ", " });
        line.add_text(&pair);
        lines.add("    ");
        lines.add_text(&pair);
        lines.add(",\n");
    }
    out.add("\n/// The texts of tokens that always have one, the longest first.\n");
    out.add("pub const TEXTS: [(&str, Kind); ");
    out.add_number(texts.len());
    out.add("] = [");
    if line.len() <= ARGUMENTS {
        out.add_text(&line);
    } else {
        out.add("\n");
        out.add_text(&lines);
    }
    out.add("];\n");
}

/// The element of the table for one text.
fn pair_of(scope: &Scope<'_>, sign: &Sign) -> Text {
    let mut out = Text::new(scope.alloc);
    out.add("(\"");
    let text = out.read(&sign.text);
    out.add_escaped(text);
    out.add("\", Kind::");
    out.add(scope.grammar.name(sign.item));
    out.add(")");
    out
}

/// Whether the kinds have a call for signs: where a parser is asked for, and there are some.
pub fn has_signs(scope: &Scope<'_>) -> bool {
    let is_sign = |index: &usize| sign_of(scope, *index).is_some();
    scope.rules.is_some() && scope.kinds.iter().any(is_sign)
}

/// The text of a sign, as the grammar has it.
fn sign_of<'g>(scope: &Scope<'g>, index: usize) -> Option<&'g str> {
    match text_of(scope, index) {
        Some(text) if !is_word(text) && text.is_ascii() => Some(text),
        _ => None,
    }
}

/// Adds the call that finds the sign with which a text begins.
pub fn add_sign_call(out: &mut Text, scope: &Scope<'_>) {
    let mut tests = Text::new(scope.alloc);
    match texts_of(scope) {
        Ok(texts) => {
            for sign in texts.iter() {
                if sign_of(scope, sign.item).is_some() {
                    add_sign(&mut tests, scope, TEST, sign);
                }
            }
        }
        Err(_) => tests.fail(),
    }
    let tests = ["tests", out.read(&tests)];
    fill(out, CALL, &tests);
}

/// Adds a template with the values of a sign.
fn add_sign(out: &mut Text, scope: &Scope<'_>, template: &str, sign: &Sign) {
    let plain = out.read(&sign.text);
    let text = scope.escaped(plain);
    let len = scope.number(plain.len());
    let name = scope.grammar.name(sign.item);
    let values = ["text", out.read(&text), "kind", name, "len", out.read(&len)];
    fill(out, template, &values);
}

/// Adds the definition that the contract of this call names.
pub fn add_sign_specs(out: &mut Text, scope: &Scope<'_>) {
    out.add(SPECS);
    match texts_of(scope) {
        Ok(texts) => add_sign_chain(out, scope, texts.as_slice()),
        Err(_) => out.fail(),
    }
}

const SPECS: &str = "
-- the kind and the length of the longest sign with which a text begins
abbrev pub sign_of : List ℕ → Option (Kind × ℕ)
sign_of text =
";

const SPEC_TEST: &str = "\
if starts_with nat_eq text (codes \"$text\") then Some (Kind.$kind, $len)
";

fn add_sign_chain(out: &mut Text, scope: &Scope<'_>, texts: &[Sign]) {
    let mut count = 0usize;
    for sign in texts.iter() {
        if sign_of(scope, sign.item).is_some() {
            out.add(if count == 0 { "    " } else { "    else (" });
            add_sign(out, scope, SPEC_TEST, sign);
            count = count.saturating_add(1);
        }
    }
    out.add(if count == 0 {
        "    None"
    } else {
        "    else None"
    });
    out.close(count);
    out.add("\n");
}

/// A text of a grammar without its quotes, if it has some, and without the backslashes before a
/// quote or a backslash in it.
pub fn plain(alloc: Global, text: &str) -> Text {
    let inner = match text.strip_prefix('\'') {
        Some(rest) => rest.strip_suffix('\'').unwrap_or(rest),
        None => text,
    };
    let mut out = Text::new(alloc);
    let mut is_escaped = false;
    for character in inner.chars() {
        is_escaped = character == '\\' && !is_escaped;
        if !is_escaped {
            out.add_character(character);
        }
    }
    out
}
