//! Texts of nodes, and slices of them.
use crate::fixture::{ATOM, Call, LIST, ROOT, root_of};
use rowan_cursor::syntax_text::SyntaxText;
use rowan_green::{Fault, TextRange, TextSize};
use std::alloc::Global;
use std::test::Fail;

/// The text of a root over these tokens.
fn text_of(alloc: Global, words: &[&'static str]) -> Result<SyntaxText, Fault> {
    with_empty_nodes(alloc, words, 0)
}

/// A text with this many empty nodes behind each word.
fn with_empty_nodes(
    alloc: Global,
    words: &[&'static str],
    empty: u32,
) -> Result<SyntaxText, Fault> {
    let mut calls = vec![in alloc; Call::Open(ROOT)]?;
    for word in words {
        calls.push(Call::Word(*word))?;
        for _ in 0..empty {
            calls.push(Call::Open(LIST))?;
            calls.push(Call::Close)?;
        }
    }
    calls.push(Call::Close)?;
    text_by(alloc, calls.as_slice())
}

/// The text of the tree that the calls build.
fn text_by(alloc: Global, calls: &[Call]) -> Result<SyntaxText, Fault> {
    root_of(alloc, calls)?.text()
}

/// A slice, where it cuts no character.
fn cut(text: &SyntaxText, start: u32, end: u32) -> Result<SyntaxText, Fault> {
    let start = TextSize::from(start);
    let end = TextSize::from(end);
    if start <= end && text.is_border(start) && text.is_border(end) {
        text.slice(start..end)
    } else {
        Err(Fault::NotFound)
    }
}

/// The chunks, each with a bar behind it.
fn chunks_of(alloc: Global, text: &SyntaxText) -> Result<String, Fault> {
    text.try_fold_chunks(
        String::new(alloc),
        |mut shown: String, chunk: &str| -> Result<String, Fault> {
            shown.push_str(chunk)?;
            shown.push('|')?;
            Ok(shown)
        },
    )
}

/// Whether a text, or a slice, has these chunks.
fn has_chunks(alloc: Global, text: Result<SyntaxText, Fault>, shown: &str) -> Result<bool, Fault> {
    Ok(chunks_of(alloc, &text?)?.as_str() == shown)
}

#[test]
fn chunks_meet_a_slice(rt: HostRuntime) -> Result<(), Fail> {
    let text = text_of(rt.alloc(), ["ab", "cd"].as_slice())?;
    for (start, end, shown) in [
        (0, 2, "ab||"),
        (1, 3, "b|c|"),
        (2, 2, "||"),
        (0, 4, "ab|cd|"),
    ] {
        assert!(rt; has_chunks(rt.alloc(), cut(&text, start, end), shown) == Ok(true));
    }
    Ok(())
}

/// The words of two texts.
type Pair = (&'static [&'static str], &'static [&'static str]);

/// Words that spell one text.
const EQUAL: [Pair; 6] = [
    (&[""], &[""]),
    (&["a"], &["a"]),
    (&["hello", "world"], &["hello", "world"]),
    (&["hellowo", "rld"], &["hell", "oworld"]),
    (&["hel", "lowo", "rld"], &["helloworld"]),
    (&["{", "abc", "}ab"], &["{", "abc", "}", "ab"]),
];

/// Words that spell two texts.
const DIFFERENT: [Pair; 6] = [
    (&["a"], &[""]),
    (&["abc"], &["def"]),
    (&["{", "abc", "}"], &["{", "123", "}"]),
    (&["{", "abc", "}", "{"], &["{", "123", "}"]),
    (&["{", "abc", "}"], &["{", "123", "}", "{"]),
    (&["hel", "lowo", "rld"], &["hello", "wurld"]),
];

/// Whether a text is equal to the string of another one.
fn spells(text: &SyntaxText, other: &SyntaxText) -> Result<bool, Fault> {
    Ok(text.eq_str(other.to_text()?.as_str()))
}

/// Whether two texts are equal, where each way to compare them gives the same answer.
fn are_equal(alloc: Global, words: Pair) -> Result<Option<bool>, Fault> {
    let first = text_of(alloc, words.0)?;
    let second = text_of(alloc, words.1)?;
    let equal = first == second;
    let is_sure = (second == first) == equal
        && spells(&first, &second) == Ok(equal)
        && spells(&second, &first) == Ok(equal);
    Ok(if is_sure { Some(equal) } else { None })
}

#[test]
fn texts_are_equal_however_they_are_cut(rt: HostRuntime) {
    for words in EQUAL {
        assert!(rt; are_equal(rt.alloc(), words) == Ok(Some(true)));
    }
    for words in DIFFERENT {
        assert!(rt; are_equal(rt.alloc(), words) == Ok(Some(false)));
    }
}

/// The part from an offset on.
fn part_from(text: &SyntaxText, start: u32) -> Result<SyntaxText, Fault> {
    let start = TextSize::from(start);
    if text.is_border(start) && text.is_border(text.len()) {
        text.slice(start..)
    } else {
        Err(Fault::NotFound)
    }
}

/// The part up to an offset.
fn part_to(text: &SyntaxText, end: u32) -> Result<SyntaxText, Fault> {
    let end = TextSize::from(end);
    if text.is_border(TextSize::from(0)) && text.is_border(end) {
        text.slice(..end)
    } else {
        Err(Fault::NotFound)
    }
}

/// The part in a range.
fn part_in(text: &SyntaxText, range: TextRange) -> Result<SyntaxText, Fault> {
    if text.is_border(range.start()) && text.is_border(range.end()) {
        text.slice(range)
    } else {
        Err(Fault::NotFound)
    }
}

/// All of it.
fn whole(text: &SyntaxText) -> Result<SyntaxText, Fault> {
    if text.is_border(TextSize::from(0)) && text.is_border(text.len()) {
        text.slice(..)
    } else {
        Err(Fault::NotFound)
    }
}

/// Whether a part has this text.
fn reads(part: Result<SyntaxText, Fault>, text: &str) -> bool {
    match part {
        Ok(part) => part.eq_str(text),
        Err(_) => false,
    }
}

/// A slice of a slice.
fn cut_twice(text: &SyntaxText, outer: (u32, u32), inner: (u32, u32)) -> Result<SyntaxText, Fault> {
    cut(&cut(text, outer.0, outer.1)?, inner.0, inner.1)
}

#[test]
fn texts_are_sliced_by_each_kind_of_range(rt: HostRuntime) -> Result<(), Fail> {
    let text = text_of(rt.alloc(), ["ab", "cd"].as_slice())?;
    assert!(rt; reads(part_from(&text, 1), "bcd") && reads(part_to(&text, 3), "abc"));
    let range = TextRange::new(TextSize::from(1), TextSize::from(3));
    assert!(rt; reads(whole(&text), "abcd") && reads(part_in(&text, range), "bc"));
    assert!(rt; reads(cut_twice(&text, (1, 4), (1, 2)), "c"));
    Ok(())
}

/// How many chunks there are, or the number of the last that is wanted, if there is one.
fn count(text: &SyntaxText, last: u32) -> Result<u32, u32> {
    text.try_fold_chunks(0, |number: u32, _chunk: &str| -> Result<u32, u32> {
        let next = number.saturating_add(1);
        if next == last { Err(next) } else { Ok(next) }
    })
}

#[test]
fn folds_end_at_a_refusal(rt: HostRuntime) -> Result<(), Fail> {
    let text = text_of(rt.alloc(), ["ab", "", "cd"].as_slice())?;
    assert!(rt; count(&text, 3) == Err(3));
    assert!(rt; count(&text, 4) == Ok(3));
    Ok(())
}

/// `ROOT[LIST[] ATOM[LIST[] ""] "a" LIST[""] "" ATOM[]]`
const EMPTY_TOKENS: [Call; 16] = [
    Call::Open(ROOT),
    Call::Open(LIST),
    Call::Close,
    Call::Open(ATOM),
    Call::Open(LIST),
    Call::Close,
    Call::Word(""),
    Call::Close,
    Call::Word("a"),
    Call::Open(LIST),
    Call::Word(""),
    Call::Close,
    Call::Word(""),
    Call::Open(ATOM),
    Call::Close,
    Call::Close,
];

#[test]
fn empty_tokens_give_empty_chunks(rt: HostRuntime) -> Result<(), Fail> {
    let text = text_by(rt.alloc(), EMPTY_TOKENS.as_slice())?;
    assert!(rt; has_chunks(rt.alloc(), cut(&text, 0, 0), "||") == Ok(true));
    assert!(rt; has_chunks(rt.alloc(), cut(&text, 1, 1), "|||") == Ok(true));
    assert!(rt; has_chunks(rt.alloc(), Ok(text), "|a|||") == Ok(true));
    Ok(())
}

/// Where a character begins in a part.
fn place_in(part: Result<SyntaxText, Fault>, character: char) -> Result<Option<TextSize>, Fault> {
    Ok(part?.find_char(character))
}

#[test]
fn characters_are_found_by_bytes(rt: HostRuntime) -> Result<(), Fail> {
    let text = text_of(rt.alloc(), ["ab", "cd"].as_slice())?;
    assert!(rt; text.find_char('d') == Some(TextSize::from(3)));
    assert!(rt; place_in(part_from(&text, 1), 'd') == Ok(Some(TextSize::from(2))));
    assert!(rt; place_in(part_to(&text, 3), 'd') == Ok(None));
    assert!(rt; text.contains_char('d') && !text.contains_char('e'));
    Ok(())
}

/// Offsets, the character that begins there, and whether the text may be cut there.
const CHARACTERS: [(u32, Option<char>, bool); 8] = [
    (0, Some('a'), true),
    (1, Some('é'), true),
    (2, None, false),
    (3, Some('日'), true),
    (4, None, false),
    (5, None, false),
    (6, None, true),
    (7, None, false),
];

#[test]
fn characters_begin_at_borders(rt: HostRuntime) -> Result<(), Fail> {
    let text = text_of(rt.alloc(), ["aé", "日"].as_slice())?;
    for (offset, character, border) in CHARACTERS {
        assert!(rt; text.char_at(TextSize::from(offset)) == character);
        assert!(rt; text.is_border(TextSize::from(offset)) == border);
    }
    assert!(rt; text.len() == TextSize::from(6) && reads(cut(&text, 1, 3), "é"));
    assert!(rt; text.find_char('日') == Some(TextSize::from(3)) && !text.contains_char('本'));
    Ok(())
}

/// Whether a text says of an offset what a string says of it.
fn is_read_alike(text: &SyntaxText, string: &str, offset: u32) -> bool {
    let place = TextSize::from(offset);
    let at = offset as usize;
    if !string.is_char_boundary(at) {
        return !text.is_border(place) && text.char_at(place) == None;
    }
    text.is_border(place) && text.char_at(place) == string[at..].chars().next()
}

/// Whether the part of a text from an offset on is that of a string, where the string may be cut.
fn is_cut_alike(text: &SyntaxText, string: &str, offset: u32) -> bool {
    let at = offset as usize;
    !string.is_char_boundary(at) || reads(part_from(text, offset), &string[at..])
}

#[test]
fn offsets_among_empty_nodes_are_those_of_the_text(rt: HostRuntime) -> Result<(), Fail> {
    let words = ["aé", "", "日", "b", "", "cd"];
    let text = with_empty_nodes(rt.alloc(), words.as_slice(), 30)?;
    let string = text.to_text()?;
    for offset in 0..10 {
        assert!(rt; is_read_alike(&text, string.as_str(), offset));
        assert!(rt; is_cut_alike(&text, string.as_str(), offset));
    }
    Ok(())
}

/// Whether a character is read, and found, at a text's start.
fn is_found_first(text: &SyntaxText, character: char) -> bool {
    let start = TextSize::from(0);
    text.char_at(start) == Some(character) && text.find_char(character) == Some(start)
}

#[test]
fn nothing_is_looked_for_behind_the_answer(rt: HostRuntime) -> Result<(), Fail> {
    let text = with_empty_nodes(rt.alloc(), ["a", "b"].as_slice(), 100_000)?;
    for _ in 0..100_000 {
        assert!(rt; is_found_first(&text, 'a') && count(&text, 1) == Err(1));
        assert!(rt; text.is_border(TextSize::from(1)));
    }
    Ok(())
}
