//! Printed lines beside those of a plain printer, which pushes them piece by piece: for many texts,
//! past ASCII too, on both sides of the lengths at which a text is cut. The contract leaves open
//! which characters past ASCII are printed as their codes.
use itoa::Buffer;
use rowan::{
    Fault, GreenNode, GreenNodeBuilder, Language, NodeOrToken, OwnedCache, SyntaxElement,
    SyntaxKind, SyntaxNode, SyntaxNodeRef, SyntaxTokenRef, TextRange,
};
use rowan_tool::sexp::{self, Lang};
use std::alloc::{AllocError, Global};
use std::test::Fail;

// A text of at least so many bytes is cut, at the first border from `CUT` on.
const LONG: usize = 25;

const CUT: usize = 21;

// Pushes the line of a token, as the library did before it gathered what stands beside the text.
fn push_token_line(lines: &mut String, token: SyntaxTokenRef<'_, Lang>) -> Result<(), AllocError> {
    push_headline(lines, token.kind(), token.text_range())?;
    lines.push_str(" ")?;
    push_quoted(lines, token.text())
}

// The name of the kind, and the range.
fn push_headline(
    text: &mut String,
    kind: sexp::SyntaxKind,
    range: TextRange,
) -> Result<(), AllocError> {
    text.push_str(Lang::kind_name(kind))?;
    let mut digits = Buffer::new();
    text.push_str("@")?;
    text.push_str(digits.format(u32::from(range.start())))?;
    text.push_str("..")?;
    text.push_str(digits.format(u32::from(range.end())))
}

// The text in quotes, where a long one is cut and ends in points.
fn push_quoted(text: &mut String, all: &str) -> Result<(), AllocError> {
    if all.len() < LONG {
        push_opened(text, all)?;
        text.push_str("\"")
    } else {
        let (beginning, _) = all.split_at(all.ceil_char_boundary(CUT));
        push_opened(text, beginning)?;
        text.push_str(" ...\"")
    }
}

// The text behind a quote, and no quote after it.
fn push_opened(text: &mut String, shown: &str) -> Result<(), AllocError> {
    if is_plain(shown) {
        text.push_str("\"")?;
        return text.push_str(shown);
    }
    write!(text, "{shown:?}")?;
    text.pop();
    Ok(())
}

// Whether each byte stands for itself between quotes.
fn is_plain(text: &str) -> bool {
    text.bytes().all(|byte| (b' '..=b'~').contains(&byte) && byte != b'"' && byte != b'\\')
}

/// What texts are made of: characters of one to four bytes, of which some are escaped.
const PIECES: [&str; 20] = [
    "a",
    "~",
    " ",
    "\"",
    "\\",
    "'",
    "\n",
    "\t",
    "\0",
    "\u{7f}",
    "\u{80}",
    "é",
    "ß",
    "\u{301}",
    "\u{200b}",
    "€",
    "\u{feff}",
    "\u{e000}",
    "𝄞",
    "\u{10ffff}",
];

fn kind_of(number: usize) -> SyntaxKind {
    Lang::kind_to_raw(match number % 2 {
        0 => sexp::SyntaxKind::WORD,
        _ => sexp::SyntaxKind::WHITESPACE,
    })
}

/// Puts a node of these texts, a token for each.
fn put_node(builder: &mut GreenNodeBuilder<'_, OwnedCache>, texts: &[String]) -> Result<(), Fault> {
    builder.start_node(Lang::kind_to_raw(sexp::SyntaxKind::ROOT))?;
    for (number, text) in texts.iter().enumerate() {
        builder.token(kind_of(number), text.as_str())?;
    }
    builder.finish_node()
}

/// The node of these texts.
fn node_of(alloc: Global, texts: &[String]) -> Result<GreenNode, Fault> {
    let mut builder = GreenNodeBuilder::new(alloc);
    put_node(&mut builder, texts)?;
    Ok(builder.finish()?)
}

/// Pushes the lines of a node of tokens by the plain printer.
fn push_lines(lines: &mut String, node: SyntaxNodeRef<'_, Lang>) -> Result<(), AllocError> {
    push_headline(lines, node.kind(), node.text_range())?;
    lines.push_str("\n")?;
    for element in node.children_with_tokens() {
        if let NodeOrToken::Token(token) = element {
            lines.push_str("  ")?;
            push_token_line(lines, token)?;
            lines.push_str("\n")?;
        }
    }
    Ok(())
}

/// Whether an element is a token that has, alone, the line that the plain printer gives it.
fn is_token_alike(alloc: Global, element: SyntaxElement<Lang>) -> Result<bool, Fault> {
    let Some(token) = element.into_token() else {
        return Ok(false);
    };
    let mut line = String::new(alloc);
    push_token_line(&mut line, token.as_ref())?;
    Ok(token.debug_line(alloc)?.as_str() == line.as_str())
}

/// Whether each child of a node is such a token.
fn are_tokens_alike(alloc: Global, node: &SyntaxNode<Lang>) -> bool {
    for element in node.children_with_tokens() {
        let is_alike = match element {
            Ok(element) => is_token_alike(alloc, element) == Ok(true),
            Err(_) => false,
        };
        if !is_alike {
            return false;
        }
    }
    true
}

/// Whether the lines of a node are those of the plain printer.
fn is_node_alike(alloc: Global, node: &SyntaxNode<Lang>) -> Result<bool, Fault> {
    let mut lines = String::new(alloc);
    push_lines(&mut lines, node.as_ref())?;
    Ok(node.debug_tree(alloc)?.as_str() == lines.as_str())
}

/// Whether the lines of these texts are those of the plain printer: each alone, and all below the
/// line of their node.
fn prints_alike(alloc: Global, texts: &[String]) -> Result<bool, Fault> {
    let root = SyntaxNode::<Lang>::new_root(alloc, node_of(alloc, texts)?)?;
    Ok(are_tokens_alike(alloc, &root) && is_node_alike(alloc, &root) == Ok(true))
}

/// Pushes `a`, a piece and `b`.
fn push_around(
    text: &mut String,
    before: usize,
    piece: &str,
    behind: usize,
) -> Result<(), AllocError> {
    for _ in 0..before {
        text.push_str("a")?;
    }
    text.push_str(piece)?;
    for _ in 0..behind {
        text.push_str("b")?;
    }
    Ok(())
}

/// Texts in which the lengths before a piece and behind it pass `CUT` and `LONG`.
fn texts_around(alloc: Global, piece: &str) -> Result<Vec<String>, AllocError> {
    let mut texts = Vec::new(alloc);
    for before in 14..27 {
        for behind in 0..7 {
            let mut text = String::new(alloc);
            push_around(&mut text, before, piece, behind)?;
            texts.push(text)?;
        }
    }
    Ok(texts)
}

/// Where the length of a text of `a` and what stands around one character passes `CUT` and `LONG`.
#[test]
fn prints_alike_around_the_cut(rt: HostRuntime) -> Result<(), Fail> {
    for piece in &PIECES {
        let texts = texts_around(rt.alloc(), piece)?;
        assert!(rt; prints_alike(rt.alloc(), texts.as_slice()) == Ok(true));
    }
    Ok(())
}

/// Pushes so many pieces that are drawn.
fn push_drawn(text: &mut String, state: &mut u64, count: usize) -> Result<(), AllocError> {
    for _ in 0..count {
        *state = state
            .wrapping_mul(6_364_136_223_846_793_005)
            .wrapping_add(1_442_695_040_888_963_407);
        text.push_str(PIECES[(*state >> 33) as usize % PIECES.len()])?;
    }
    Ok(())
}

/// Fifty texts of so many pieces that are drawn.
fn drawn_texts(alloc: Global, state: &mut u64, count: usize) -> Result<Vec<String>, AllocError> {
    let mut texts = Vec::new(alloc);
    for _ in 0..50 {
        let mut text = String::new(alloc);
        push_drawn(&mut text, state, count)?;
        texts.push(text)?;
    }
    Ok(texts)
}

/// Texts of up to 40 characters that are drawn.
#[test]
fn prints_alike_what_is_drawn(rt: HostRuntime) -> Result<(), Fail> {
    let mut state: u64 = 1;
    for count in 0..40 {
        let texts = drawn_texts(rt.alloc(), &mut state, count)?;
        assert!(rt; prints_alike(rt.alloc(), texts.as_slice()) == Ok(true));
    }
    Ok(())
}
