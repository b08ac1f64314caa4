//! Trees with other tokens.
use crate::fixture::{New, are_changes, elements, has_text, moves, tree};
use json_syntax::Kind;
use rowan::{Fault, GreenElementRef, GreenNode, GreenToken, NodeOrToken, SyntaxKind};
use rowan_edit::{Rewrite, Rewritten, TokenAt, rewrite_tokens};
use std::alloc::Global;
use std::test::Fail;

/// What becomes of the tokens.
#[derive(Clone, Copy)]
pub enum Way {
    /// Words that begin behind the offset 2 are taken away, and two words and a list come in place
    /// of `b`.
    Words,
    /// All are kept.
    Keep,
    /// All are kept up to `cd`, where the closure refuses.
    Refuse,
    /// Another key comes in place of the key `"a"`, and each string stays that is a value.
    Keys,
    /// A word is taken away that stands first in its node, and one that has `e` behind it.
    Neighbours,
    /// Elements come before words.
    Lead,
}

impl Way {
    fn rewrite(self, alloc: Global, at: TokenAt<'_>) -> Result<Rewrite, Fault> {
        match self {
            Way::Words => other_words(alloc, at),
            Way::Keep => Ok(Rewrite::Keep),
            Way::Refuse if at.text() == "cd" => Err(Fault::NotFound),
            Way::Refuse => Ok(Rewrite::Keep),
            Way::Keys => renamed(alloc, at),
            Way::Neighbours => Ok(by_neighbours(at)),
            Way::Lead => led(alloc, at),
        }
    }
}

pub fn rewritten(alloc: Global, green: &GreenNode, way: Way) -> Result<Rewritten, Fault> {
    rewrite_tokens(alloc, green, &mut |at| way.rewrite(alloc, at))
}

const INSTEAD_OF_B: [New; 2] = [New::Word("x"), New::List(&["y"])];

fn other_words(alloc: Global, at: TokenAt<'_>) -> Result<Rewrite, Fault> {
    if at.text() == "b" {
        return elements(alloc, &INSTEAD_OF_B).map(Rewrite::Replace);
    }
    if u32::from(at.range().start()) > 2 {
        return Ok(Rewrite::Remove);
    }
    Ok(Rewrite::Keep)
}

#[test]
fn words_rewritten(rt: HostRuntime) -> Result<(), Fail> {
    let alloc = rt.alloc();
    let new = rewritten(alloc, &tree(alloc)?, Way::Words)?;
    assert!(rt; has_text(alloc, &new.green, "axycd"));
    // `ROOT["a" LIST["x" LIST["y"] LIST[] "cd"]]`
    assert!(rt; new.green.children().len() == 2);
    Ok(())
}

const CHANGES: [(u32, u32, u32); 3] = [(1, 2, 2), (4, 4, 0), (4, 5, 0)];

#[test]
fn changes_of_words(rt: HostRuntime) -> Result<(), Fail> {
    let alloc = rt.alloc();
    let new = rewritten(alloc, &tree(alloc)?, Way::Words)?;
    assert!(rt; are_changes(&new.changes, &CHANGES));
    assert!(rt; moves(&new.changes, ((2, 4), Some((3, 5)))));
    Ok(())
}

#[test]
fn all_kept(rt: HostRuntime) -> Result<(), Fail> {
    let green = tree(rt.alloc())?;
    let new = rewritten(rt.alloc(), &green, Way::Keep)?;
    assert!(rt; new.green == green);
    assert!(rt; new.changes.as_slice().is_empty());
    Ok(())
}

#[test]
fn refused_by_the_closure(rt: HostRuntime) -> Result<(), Fail> {
    let refused = rewritten(rt.alloc(), &tree(rt.alloc())?, Way::Refuse);
    assert!(rt; refused.err() == Some(Fault::NotFound));
    Ok(())
}

fn renamed(alloc: Global, at: TokenAt<'_>) -> Result<Rewrite, Fault> {
    if at.text() != "\"a\"" || at.parent().kind() != SyntaxKind(Kind::Member as u16) {
        return Ok(Rewrite::Keep);
    }
    let key = GreenToken::new(alloc, at.kind(), "\"key\"")?;
    let new = vec![in alloc; NodeOrToken::Token(key)]?;
    Ok(Rewrite::Replace(new))
}

#[test]
fn keys_and_not_strings(rt: HostRuntime) -> Result<(), Fail> {
    let alloc = rt.alloc();
    let old = json_syntax::parse(alloc, "{\"a\": \"a\", \"b\": {\"a\": 1}}")?;
    let new = rewritten(alloc, &old.green, Way::Keys)?;
    assert!(rt; has_text(alloc, &new.green, "{\"key\": \"a\", \"b\": {\"key\": 1}}"));
    assert!(rt; moves(&new.changes, ((6, 9), Some((8, 11)))));
    Ok(())
}

/// What comes before words: an empty list and a word before `b`, and nothing before `e`.
const LEADS: [(&str, &[New]); 4] = [
    ("a", &[New::Word("-")]),
    ("b", &[New::List(&[]), New::Word("xy")]),
    ("bcd", &[New::List(&[]), New::Word("xy")]),
    ("cd", &[New::Word("z")]),
];

pub fn led(alloc: Global, at: TokenAt<'_>) -> Result<Rewrite, Fault> {
    for (text, lead) in LEADS {
        if at.text() == text {
            return elements(alloc, lead).map(Rewrite::KeepBehind);
        }
    }
    Ok(Rewrite::KeepBehind(Vec::new(alloc)))
}

/// Whether an element is a token of this text.
fn is_word(element: Option<GreenElementRef<'_>>, text: &str) -> bool {
    match element {
        Some(NodeOrToken::Token(token)) => token.text() == text,
        _ => false,
    }
}

fn by_neighbours(at: TokenAt<'_>) -> Rewrite {
    let first = at.before().is_none() && at.index() == 0;
    if first || is_word(at.behind(), "e") {
        return Rewrite::Remove;
    }
    Rewrite::Keep
}

#[test]
fn neighbours(rt: HostRuntime) -> Result<(), Fail> {
    let alloc = rt.alloc();
    let new = rewritten(alloc, &tree(alloc)?, Way::Neighbours)?;
    // `ROOT[LIST[LIST[] "cd"] "e"]`
    assert!(rt; has_text(alloc, &new.green, "cde"));
    assert!(rt; new.green.children().len() == 2);
    Ok(())
}
