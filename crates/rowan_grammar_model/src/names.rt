//! How names are spelled, and which are taken.
use std::alloc::{AllocError, Global};

/// How many letters a name may have, and that of a set. Longer ones could not be laid out as `rt fmt`
/// does.
const MAX_LETTERS: usize = 50;

const MAX_OF_SET: usize = 30;

/// Names that neither a kind nor a wrapper can have, since the language makes them, or what is
/// written needs them: what is written has an underscore behind them.
const TAKEN: &str = "\
    Below Cursor Fault IfErr IfOk Kind Lib M Memory NodeOf NodeOfRef Prim Self Syntax TheBound \
    TheConstants TheData TheDeep TheImpl TheInside TheLaw TheLaws TheLinks TheOpen TheOwn TheVariants \
    Token TokenOf TokenOfRef Type";

/// Names from elsewhere that the file of the kinds has.
const OF_KINDS: &str = "Language SyntaxKind TokenSet";

/// Names of constants that are written for each language: no set has them.
const OF_CONSTANTS: &str = "Trivia Root";

/// Modules that the files of a crate have besides that of the kinds.
const MODULES: &str = "lib main nodes proofs specs";

/// Words of the language and of its clauses: a call that is named so has an underscore behind its
/// name.
const WORDS: &str = "\
    abstract as async await become box break const continue crate data deriving do drop dyn else \
    ensures enum extern false final fn for gen ghost if impl in let loop macro match mod move mut \
    open override priv pub record ref requires return ruleset self static struct super trait true \
    try type typeof unsafe unsized use virtual where while yield";

/// Names of calls that each wrapper has, that a clause gives a meaning, or that the language makes: so
/// has a call that is named so.
const OF_CALLS: &str = "\
    as_ref can_cast cast clone_subtree result syntax the_data the_own the_row the_size the_type \
    to_owned";

/// Crates that what is written names.
const CRATES: &str = "core rowan std";

/// Why the language cannot have a name.
pub fn why_no_language(name: &str) -> Option<&'static str> {
    if is_in(TAKEN, name) || is_in(OF_KINDS, name) || is_outside(name) {
        return Some("is a name that the written files need");
    }
    why_no_type(name)
}

/// Why neither a kind nor a wrapper can have a name.
pub fn why_no_type(name: &str) -> Option<&'static str> {
    if !is_type_name(name) {
        return Some("is not spelled as `InlineTable`");
    }
    if name.len() > MAX_LETTERS {
        return Some("has more than 50 letters");
    }
    None
}

/// Why a set cannot have a name.
pub fn why_no_set(name: &str) -> Option<&'static str> {
    if is_in(OF_CONSTANTS, name) {
        return Some("is a name that the written files need");
    }
    if name.len() > MAX_OF_SET {
        return Some("has more than 30 letters");
    }
    why_no_type(name)
}

/// Why a trait cannot have a name.
pub fn why_no_trait(name: &str) -> Option<&'static str> {
    if is_in(TAKEN, name) || is_outside(name) {
        return Some("is a name that the written files need");
    }
    why_no_type(name)
}

/// Why the module of the kinds cannot have a name.
pub fn why_no_module(name: &str) -> Option<&'static str> {
    if is_in(WORDS, name) || is_in(CRATES, name) || is_in(MODULES, name) {
        return Some("is a name that no module of kinds can have");
    }
    if !is_call_name(name) {
        return Some("is not spelled as `toml_kinds`");
    }
    None
}

/// Why a crate cannot have a name.
pub fn why_no_crate(name: &str) -> Option<&'static str> {
    if is_word(name) || is_in(CRATES, name) {
        return Some("is a name that no crate can have");
    }
    if !is_call_name(name) {
        return Some("is not spelled as `toml_syntax`");
    }
    None
}

/// Whether what is written has an underscore behind the name of a kind.
pub fn is_taken(name: &str) -> bool {
    is_in(TAKEN, name)
}

/// Whether what is written has an underscore behind the name of a call.
pub fn is_word(name: &str) -> bool {
    is_in(WORDS, name) || is_in(OF_CALLS, name)
}

fn is_in(words: &str, name: &str) -> bool {
    words.split(' ').any(|word| word == name)
}

/// Whether a name has the form of a type's, as `InlineTable`.
fn is_type_name(name: &str) -> bool {
    name.starts_with(|first: char| first.is_ascii_uppercase()) && !name.contains('_')
}

/// Whether a name has the form of a call's, as `inline_table`.
pub fn is_call_name(name: &str) -> bool {
    name.starts_with(|first: char| first.is_ascii_lowercase())
        && !name.contains(|character: char| character.is_ascii_uppercase())
}

/// `InlineTable` as `inline_table`, and `LBrace` as `l_brace`: a word begins at a capital letter behind
/// one that is none, and at the last of several capital letters if another letter is behind it.
pub fn snake(alloc: Global, name: &str) -> Result<String, AllocError> {
    let mut out = String::new(alloc);
    let mut is_first = true;
    let mut is_inside = false;
    let mut letters = name.chars().peekable();
    for _ in 0..name.len() {
        let Some(letter) = letters.next() else {
            break;
        };
        let is_capital = letter.is_ascii_uppercase();
        let ends_capitals = matches!(letters.peek(), Some(next) if next.is_ascii_lowercase());
        if is_capital && !is_first && (is_inside || ends_capitals) {
            out.push('_')?;
        }
        is_first = false;
        is_inside = !is_capital;
        out.push(letter.to_ascii_lowercase())?;
    }
    Ok(out)
}

/// `inline_table` as `InlineTable`.
pub fn camel(alloc: Global, name: &str) -> Result<String, AllocError> {
    let mut out = String::new(alloc);
    let mut is_first = true;
    for character in name.chars() {
        if character != '_' {
            out.push(if is_first {
                character.to_ascii_uppercase()
            } else {
                character
            })?;
        }
        is_first = character == '_';
    }
    Ok(out)
}

/// Whether `src/nodes.rt` has a name from elsewhere: where a wrapper is named so, it has its path.
pub fn is_outside(name: &str) -> bool {
    path_of(name).is_some()
}

/// The path of a name from elsewhere that `src/nodes.rt` has.
pub fn path_of(name: &str) -> Option<&'static str> {
    match name {
        "AstChildren" => Some("rowan::ast::AstChildren"),
        "AstNode" => Some("rowan::ast::AstNode"),
        "AstNodeRef" => Some("rowan::ast::AstNodeRef"),
        "AstNodesRef" => Some("rowan::ast::AstNodesRef"),
        "AstToken" => Some("rowan::ast::AstToken"),
        "AstTokenRef" => Some("rowan::ast::AstTokenRef"),
        "From" => Some("std::convert::From"),
        "Model" => Some("std::marker::Model"),
        "Option" => Some("std::option::Option"),
        "Result" => Some("std::result::Result"),
        "SyntaxNode" => Some("rowan::SyntaxNode"),
        "SyntaxNodeRef" => Some("rowan::SyntaxNodeRef"),
        "SyntaxToken" => Some("rowan::SyntaxToken"),
        "SyntaxTokenRef" => Some("rowan::SyntaxTokenRef"),
        _ => None,
    }
}

/// `INLINE_TABLE` of `inline_table`, without an underscore at the end.
pub fn upper(alloc: Global, snake: &str) -> Result<String, AllocError> {
    let mut out = String::new(alloc);
    for character in snake.strip_suffix('_').unwrap_or(snake).chars() {
        out.push(character.to_ascii_uppercase())?;
    }
    Ok(out)
}

/// Many of what a word stands for: `entries` of `entry`.
pub fn plural(alloc: Global, word: &str) -> Result<String, AllocError> {
    let mut out = String::new(alloc);
    match word.strip_suffix('y') {
        Some(stem) if !stem.ends_with(is_vowel) => {
            out.push_str(stem)?;
            out.push_str("ies")?;
        }
        _ => {
            out.push_str(word)?;
            out.push_str(if hisses(word) { "es" } else { "s" })?;
        }
    }
    Ok(out)
}

fn is_vowel(character: char) -> bool {
    matches!(character, 'a' | 'e' | 'i' | 'o' | 'u')
}

fn hisses(word: &str) -> bool {
    ["s", "x", "ch", "sh"]
        .iter()
        .any(|end| word.ends_with(*end))
}
