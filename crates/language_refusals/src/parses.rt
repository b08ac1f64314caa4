//! Cases of parses by events, of their errors and of lines.

use json_syntax::{Json, Options, parse_with_options};
use little_syntax::{Little, LittleParser};
use rowan::{Fault, Language, SyntaxNode, TextSize};
use rowan_parser::{LineColumn, LineIndex, Parse, render_up_to};
use rowan_predictive::{Rule, conflicts_of};
use rowan_transcript::{Phase, Shape, Stop, Transcript, ask};
use script_syntax::Script;
use std::alloc::Global;

/// In which language a text is.
#[derive(Clone, Copy)]
enum Grammar {
    Json,
    Strict,
    Script,
    /// By a parser that was written from a grammar file, and is made for the case.
    Little,
}

/// A case: a text, which is parsed, and a place in it.
#[derive(Clone, Copy)]
struct ParseCase {
    name: &'static str,
    grammar: Grammar,
    text: &'static str,
    offset: u32,
}

const PARSES: [ParseCase; 9] = [
    ParseCase {
        name: "a parse by events",
        grammar: Grammar::Json,
        text: "{\"a\": [1, true, {}], \"b\": [\"𝄞\"]} // end",
        offset: 30,
    },
    ParseCase {
        name: "a parse by events, of an empty text",
        grammar: Grammar::Json,
        text: "",
        offset: 0,
    },
    ParseCase {
        name: "a parse by events with errors",
        grammar: Grammar::Json,
        text: "[1,,\n\t{\"é\" 2, x: tru}\n",
        offset: 9,
    },
    ParseCase {
        name: "a parse by events, of lists that are not closed",
        grammar: Grammar::Json,
        text: "[[[[[[[[[[[[[[[[[\n[[[[[[[[[[[[[[[[",
        offset: 20,
    },
    ParseCase {
        name: "a strict parse, whose lexer complains",
        grammar: Grammar::Strict,
        text: "[01, \"a\\q\", // note\n1,]",
        offset: 3,
    },
    ParseCase {
        name: "a script",
        grammar: Grammar::Script,
        text: "// licence\n\n// adds\nfn f(a: List<List<Int>>) {\n  union + 1 >> \"${a}\"\n}",
        offset: 12,
    },
    ParseCase {
        name: "a script with errors",
        grammar: Grammar::Script,
        text: "let = 1 < 2 < 3\nf((((1, \"é ${2\nlet x",
        offset: 20,
    },
    ParseCase {
        name: "a parse by rules",
        grammar: Grammar::Little,
        text: "fn add(a, b) {\n  a + b * 2; // é\n}\n",
        offset: 20,
    },
    ParseCase {
        name: "a parse by rules with errors",
        grammar: Grammar::Little,
        text: "fn (a b) { let = 1 +; } }\nlet x",
        offset: 12,
    },
];

/// Rules of which the next token does not say which is meant, and which may be empty twice.
const NO_GRAMMAR: [Rule; 5] = [
    Rule::Choice(1, 2),
    Rule::Token(3),
    Rule::Token(3),
    Rule::Star(4),
    Rule::Empty,
];

/// What a case made.
#[derive(Drop)]
struct Made<L> {
    parse: Parse,
    root: SyntaxNode<L>,
    printed: String,
}

pub fn run_parses(log: &Transcript<'_>) -> Result<(), Stop> {
    for case in PARSES {
        match case.grammar {
            Grammar::Script => run_case::<Script>(log, case)?,
            Grammar::Little => run_case::<Little>(log, case)?,
            _ => run_case::<Json>(log, case)?,
        }
    }
    run_conflicts(log)
}

fn run_conflicts(log: &Transcript<'_>) -> Result<(), Stop> {
    log.case("rules that are no grammar")?;
    log.phase(Phase::Making)?;
    let found = ask(
        log,
        "conflicts_of",
        || Ok(conflicts_of(log.alloc(), &NO_GRAMMAR)?),
    )?;
    for error in found.iter() {
        log.tell("conflict", error)?;
    }
    log.phase(Phase::Dropping)?;
    drop(found);
    Ok(())
}

fn run_case<L: Language>(log: &Transcript<'_>, case: ParseCase) -> Result<(), Stop> {
    log.case(case.name)?;
    log.phase(Phase::Making)?;
    let made: Made<L> = make(log, case)?;
    let index = ask(
        log,
        "LineIndex::new",
        || LineIndex::new(log.alloc(), case.text),
    )?;
    log.phase(Phase::Moving)?;
    tell_place(log, &index, case.offset)?;
    log.phase(Phase::Dropping)?;
    drop(index);
    drop(made);
    Ok(())
}

fn parse(alloc: Global, case: ParseCase) -> Result<Parse, Fault> {
    match case.grammar {
        Grammar::Json => json_syntax::parse(alloc, case.text),
        Grammar::Strict => parse_with_options(alloc, case.text, Options::strict()),
        Grammar::Script => script_syntax::parse(alloc, case.text),
        Grammar::Little => parse_little(alloc, case.text),
    }
}

fn parse_little(alloc: Global, text: &str) -> Result<Parse, Fault> {
    let Ok(parser) = LittleParser::new(alloc) else {
        return Err(Fault::Memory);
    };
    parser.parse(alloc, text)
}

fn make<L: Language>(log: &Transcript<'_>, case: ParseCase) -> Result<Made<L>, Stop> {
    let alloc = log.alloc();
    let parse = ask(log, "parse", || parse(alloc, case))?;
    log.tell("tree", &Shape(&parse.green))?;
    let root = ask(log, "syntax", || parse.syntax(alloc))?;
    let errors = parse.errors.as_slice();
    let printed = ask(
        log,
        "render",
        || render_up_to(alloc, errors, case.text, "a.json", 2),
    )?;
    log.show("printed", &printed)?;
    Ok(Made {
        parse,
        root,
        printed,
    })
}

fn tell_place(log: &Transcript<'_>, index: &LineIndex<'_>, offset: u32) -> Result<(), Stop> {
    let place: LineColumn = index.line_column(TextSize::from(offset));
    log.tell("line_column", &place)?;
    log.tell("to_utf16", &index.to_utf16(place))?;
    log.tell("to_characters", &index.to_characters(place))?;
    log.tell("offset", &index.offset(place))
}
