//! Strict JSON beside `serde_json`, and by a parser that is written from a grammar: drawn and damaged
//! texts, and texts that were chosen.
use json_by_grammar::JsonParser;
use json_syntax::{Options, parse_with_options};
use rowan::Fault;
use serde_json::Value;
use std::alloc::Global;
use std::test::Fail;

/// How deep `serde_json` reads.
const DEPTH: usize = 127;

/// Values, where `@` is a place for another one.
const LISTS: [&str; 12] = [
    "[@]",
    "[@,@]",
    "[ @ , @ , @ ]",
    "{\"a\":@}",
    "{\"a\":@,\"b\":@}",
    "{ \"\\u0061\" : @ ,\r\n\t\"\" : @ }",
    "\n[\n\t@,\n\t@\n]\n",
    "{\"a\":[@],\"a\":@}",
    "[[@],[@]]",
    "{\"é\":{\"日本\":@}}",
    " @ ",
    "[@,[],{},@]",
];

const LEAVES: [&str; 24] = [
    "null",
    "true",
    "false",
    "[]",
    "{}",
    "[ ]",
    "0",
    "-0",
    "12",
    "-305",
    "0.5",
    "-3.25",
    "1e5",
    "6.02E+3",
    "10E-7",
    "\"\"",
    "\"a b\"",
    "\"é日𝄞\"",
    "\"\\\"\\\\\\/\\b\\f\\n\\r\\t\"",
    "\"\\u00e9\\u0000\"",
    "\"\\ud834\\udd1e\"",
    "\"\\uD834\\uDD1E\\uD834\\uDD1E\"",
    "\"// [1,] /*\"",
    "\"\u{7f}\"",
];

/// What comes in place of a byte.
const BYTES: &[u8] = b"{}[],:\"\\/*-+.eE0159uUdD8cCnrtfab_ \t\n\r\x0c\x00\x01\x7f";

/// Numbers that look random, the same ones in each run.
#[derive(Drop)]
struct Draws {
    state: u64,
}

impl Draws {
    /// A number below this one, which is not 0.
    fn below(&mut self, bound: usize) -> usize {
        self.state = self
            .state
            .wrapping_mul(6_364_136_223_846_793_005)
            .wrapping_add(1_442_695_040_888_963_407);
        ((self.state >> 33) as usize)
            .checked_rem(bound)
            .unwrap_or(0)
    }

    fn text(&mut self, texts: &[&'static str]) -> &'static str {
        let index = self.below(texts.len());
        texts.get(index).copied().unwrap_or("")
    }

    /// The text with one of these in each place.
    fn fill(&mut self, alloc: Global, text: &str, texts: &[&'static str]) -> Result<String, Fault> {
        let mut filled = String::new(alloc);
        for (index, part) in text.split('@').enumerate() {
            if index > 0 {
                filled.push_str(self.text(texts))?;
            }
            filled.push_str(part)?;
        }
        Ok(filled)
    }

    /// A text of JSON.
    fn json(&mut self, alloc: Global) -> Result<String, Fault> {
        let mut text = String::from_str(alloc, "@")?;
        for _ in 0..self.below(4) {
            text = self.fill(alloc, text.as_str(), &LISTS)?;
        }
        self.fill(alloc, text.as_str(), &LEAVES)
    }

    /// The text with a byte deleted, doubled or replaced. The text as it is where that is no UTF-8.
    fn damage(&mut self, alloc: Global, text: &str) -> Result<String, Fault> {
        let at = self.below(text.len());
        let byte = BYTES.get(self.below(BYTES.len())).copied().unwrap_or(b' ');
        let way = self.below(3);
        let behind = at.saturating_add(1);
        let parts = (text.get(..at), text.get(at..behind), text.get(behind..));
        let (Some(before), Some(old), Some(after)) = parts else {
            return Ok(String::from_str(alloc, text)?);
        };
        let damaged = match way {
            0 => format!(in alloc; "{before}{after}")?,
            1 => format!(in alloc; "{before}{old}{old}{after}")?,
            _ => format!(in alloc; "{before}{}{after}", char::from(byte))?,
        };
        Ok(damaged)
    }
}

/// What the two say of a text.
#[derive(Clone, Copy, PartialEq, Eq, Debug)]
enum Answer {
    BothTake,
    BothRefuse,
    /// `serde_json` refuses a number past the range of a float, and the syntax has no such range.
    OutOfRange,
    Differ,
}

fn compare(alloc: Global, text: &str) -> Result<Answer, Fault> {
    let options = Options::strict().with_max_depth(DEPTH);
    let takes = parse_with_options(alloc, text, options)?.errors.is_empty();
    match Value::from_str(alloc, text) {
        Ok(_) if takes => Ok(Answer::BothTake),
        Ok(_) => Ok(Answer::Differ),
        Err(_) if !takes => Ok(Answer::BothRefuse),
        Err(error) => {
            let why = error.to_string(alloc)?;
            if why.as_str().contains("number out of range") {
                Ok(Answer::OutOfRange)
            } else {
                Ok(Answer::Differ)
            }
        }
    }
}

/// Whether the parser that is written from a grammar has errors where the one by hand has some, and
/// else the same tree.
fn agrees(alloc: Global, parser: &JsonParser, text: &str) -> Result<bool, Fault> {
    let wanted = parse_with_options(alloc, text, Options::strict())?;
    let parse = parser.parse(alloc, text)?;
    if wanted.errors.is_empty() {
        return Ok(parse.errors.is_empty() && parse.green == wanted.green);
    }
    Ok(!parse.errors.is_empty())
}

#[test]
fn drawn_texts_are_as_serde_json_says(rt: HostRuntime) -> Result<(), Fail> {
    let parser = JsonParser::new(rt.alloc())?;
    let mut draws = Draws { state: 1 };
    let mut taken: usize = 0;
    let mut refused: usize = 0;
    for _ in 0..2000 {
        let mut text = draws.json(rt.alloc())?;
        for _ in 0..draws.below(4) {
            text = draws.damage(rt.alloc(), text.as_str())?;
        }
        let answer = compare(rt.alloc(), text.as_str())?;
        assert!(rt; answer != Answer::Differ, "{text}");
        assert!(rt; agrees(rt.alloc(), &parser, text.as_str())?, "{text}");
        taken = taken.saturating_add(usize::from(answer == Answer::BothTake));
        refused = refused.saturating_add(usize::from(answer == Answer::BothRefuse));
    }
    assert!(rt; taken > 500 && refused > 500, "{taken} {refused}");
    Ok(())
}

/// Texts that only one rule decides.
const CHOSEN: [(&str, Answer); 18] = [
    ("", Answer::BothRefuse),
    (" \t\r\n", Answer::BothRefuse),
    ("\u{c}1", Answer::BothRefuse),
    ("\u{b}1", Answer::BothRefuse),
    ("\u{a0}1", Answer::BothRefuse),
    ("\u{feff}1", Answer::BothRefuse),
    ("1 /**/", Answer::BothRefuse),
    ("[1,]", Answer::BothRefuse),
    ("[,1]", Answer::BothRefuse),
    ("{\"a\":1,}", Answer::BothRefuse),
    ("{a:1}", Answer::BothRefuse),
    ("+1", Answer::BothRefuse),
    (".5", Answer::BothRefuse),
    ("NaN", Answer::BothRefuse),
    ("'a'", Answer::BothRefuse),
    ("1e999", Answer::OutOfRange),
    ("1e-999", Answer::BothTake),
    ("{\"a\":1,\"a\":2}", Answer::BothTake),
];

#[test]
fn chosen_texts_are_as_serde_json_says(rt: HostRuntime) -> Result<(), Fail> {
    let parser = JsonParser::new(rt.alloc())?;
    for (text, answer) in CHOSEN {
        assert!(rt; agrees(rt.alloc(), &parser, text)?, "{text}");
        let found = compare(rt.alloc(), text)?;
        assert!(rt; found == answer, "{text}: {found:?}");
    }
    Ok(())
}

/// Both read arrays in one another to the same depth, and no deeper.
#[test]
fn depths_are_as_serde_json_says(rt: HostRuntime) -> Result<(), Fail> {
    for (levels, answer) in [(127, Answer::BothTake), (128, Answer::BothRefuse)] {
        let open = "[".repeat(rt.alloc(), levels)?;
        let close = "]".repeat(rt.alloc(), levels)?;
        let text = format!(in rt.alloc(); "{open}{close}")?;
        let found = compare(rt.alloc(), text.as_str())?;
        assert!(rt; found == answer, "{levels}: {found:?}");
    }
    Ok(())
}
