use json_by_grammar::JsonParser;
use json_syntax::parse;
use rowan::Fault;
use std::alloc::Global;
use std::test::Fail;

const TEXTS: [&str; 40] = [
    "",
    "null",
    " true ",
    "-12.5e+3",
    "\"a\"",
    "\"a\\\"b\"",
    "\"é\"",
    "[]",
    "{}",
    "[1]",
    "[1, 2]",
    "[[], {}]",
    "{\"a\": 1}",
    "{\"a\": {\"b\": []}}",
    "[1,]",
    "[,]",
    "[1 2]",
    "[}",
    "{]",
    "{\"a\"}",
    "{\"a\" 1}",
    "{1: 2}",
    "{,}",
    "// note\n1",
    "1 // end",
    "/* a */ [1]",
    "[/* a */]",
    "/* open",
    "\"open",
    "\"open\n1",
    "@",
    "[@]",
    "{@}",
    "1 2",
    "]",
    "}",
    ":",
    ",",
    "{\"a\": [1, {\"b\": \"日本\"}], /* x */ \"c\": null}",
    "[\r\n\t1,\r\n\t2\r\n]",
];

/// Bytes that end a token or begin one.
const BYTES: &[u8] = b"{}[],:\"\\/1-nt \n@";

/// Whether the tree of a text has this text.
fn is_kept(alloc: Global, text: &str) -> Result<bool, Fault> {
    let parse = parse(alloc, text)?;
    Ok(parse.green.to_string(alloc)?.as_str() == text)
}

/// The same of the parser that is written from a grammar.
fn is_kept_by(alloc: Global, parser: &JsonParser, text: &str) -> Result<bool, Fault> {
    let parse = parser.parse(alloc, text)?;
    Ok(parse.green.to_string(alloc)?.as_str() == text)
}

#[test]
fn every_prefix_is_kept(rt: HostRuntime) -> Result<(), Fail> {
    let parser = JsonParser::new(rt.alloc())?;
    for text in TEXTS {
        for (end, _) in text.char_indices() {
            let prefix = text.get(..end).unwrap_or("");
            assert!(rt; is_kept(rt.alloc(), prefix)?, "{prefix}");
            assert!(rt; is_kept_by(rt.alloc(), &parser, prefix)?, "{prefix}");
        }
        assert!(rt; is_kept(rt.alloc(), text)?, "{text}");
    }
    Ok(())
}

/// The text with another byte at this place. `None` where that is no UTF-8.
fn damage(alloc: Global, text: &str, at: usize, byte: u8) -> Result<Option<String>, Fault> {
    let (Some(before), Some(after)) = (text.get(..at), text.get(at.saturating_add(1)..)) else {
        return Ok(None);
    };
    let damaged = format!(in alloc; "{before}{}{after}", char::from(byte))?;
    Ok(Some(damaged))
}

#[test]
fn every_damage_is_kept(rt: HostRuntime) -> Result<(), Fail> {
    for text in TEXTS {
        for at in 0..text.len() {
            for byte in 0..128 {
                if let Some(damaged) = damage(rt.alloc(), text, at, byte)? {
                    assert!(rt; is_kept(rt.alloc(), damaged.as_str())?, "{damaged}");
                }
            }
        }
    }
    Ok(())
}

#[test]
fn three_million_brackets_are_kept(rt: HostRuntime) -> Result<(), Fail> {
    let text = "[".repeat(rt.alloc(), 3_000_000)?;
    assert!(rt; is_kept(rt.alloc(), text.as_str())?);
    Ok(())
}

#[test]
fn damages_are_kept_by_a_written_parser(rt: HostRuntime) -> Result<(), Fail> {
    let parser = JsonParser::new(rt.alloc())?;
    for text in TEXTS {
        for at in 0..text.len() {
            for byte in BYTES {
                if let Some(damaged) = damage(rt.alloc(), text, at, *byte)? {
                    let is_kept = is_kept_by(rt.alloc(), &parser, damaged.as_str())?;
                    assert!(rt; is_kept, "{damaged}");
                }
            }
        }
    }
    Ok(())
}

#[test]
fn three_million_brackets_are_kept_by_a_written_parser(rt: HostRuntime) -> Result<(), Fail> {
    let parser = JsonParser::new(rt.alloc())?;
    let text = "[".repeat(rt.alloc(), 3_000_000)?;
    assert!(rt; is_kept_by(rt.alloc(), &parser, text.as_str())?);
    Ok(())
}
