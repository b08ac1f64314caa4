//! Cases of documents of TOML: their trees, what they mean, and how one is laid out.

use rowan::{Fault, SyntaxNode};
use rowan_parser::Parse;
use rowan_transcript::{Phase, Shape, Stop, Transcript, ask};
use std::alloc::Global;
use toml_document::{Form, Problem, Reading, Values, Version, read, validate, values};
use toml_format::{FormatError, Style, formatted};
use toml_path::{Path, PathError};
use toml_syntax::{Toml, TomlParser};

/// A case: a document, and a path to one of its values. Where it has numbers with underscores, the
/// names of the calls that read numbers say so.
#[derive(Clone, Copy)]
struct Document {
    name: &'static str,
    text: &'static str,
    path: &'static str,
    has_underscores: bool,
}

const SERVERS: &str = "\
# hosts
title = \"a \\\"b\\\" \\u00e9\"
note = \"\"\"
one \\
  line\"\"\"

[servers.alpha] # the first
ip = '10.0.0.1'
ports = [ 8000, 8001,
  8002 ]
";

const DOCUMENTS: [Document; 5] = [
    Document {
        name: "tables and strings of TOML",
        text: SERVERS,
        path: "servers.alpha.ports[1]",
        has_underscores: false,
    },
    Document {
        name: "arrays of tables of TOML",
        text: "[[fruit]]\nname.first = \"apple\"\ncolours = [['red', \"green\"], []]\n\n\
            [[fruit]]\nname = { first = \"plum\", \"last one\" = 'x' }\n",
        path: "fruit[1].name.\"last one\"",
        has_underscores: false,
    },
    Document {
        name: "numbers and dates of TOML",
        text: "hex = 0xff\nsmall = -1.5e-3\nlarge = 1e400\nno = nan\nis = true\n\
            at = 1979-05-27T07:32:00.5Z\nday = 1979-05-27\nend = 07:32:00\n",
        path: "at",
        has_underscores: false,
    },
    Document {
        name: "a document of TOML with errors",
        text: "a = 1\na = \"\\q\"\n[b\nc = \n[b.d]\ne = {f = [1, }\n[a.g]\n",
        path: "b.d",
        has_underscores: false,
    },
    Document {
        name: "numbers of TOML with underscores",
        text: "count = 1_000\nratio = 1_0.5\nmask = 0xff_ff\n",
        path: "ratio",
        has_underscores: true,
    },
];

pub fn run_documents(log: &Transcript<'_>) -> Result<(), Stop> {
    log.case("a parser of TOML")?;
    log.phase(Phase::Making)?;
    let parser = ask(log, "TomlParser::new", || make_parser(log.alloc()))?;
    for document in DOCUMENTS {
        run_document(log, &parser, document)?;
    }
    run_formatted(log, &parser)?;
    log.phase(Phase::Dropping)
}

fn make_parser(alloc: Global) -> Result<TomlParser, Fault> {
    match TomlParser::new(alloc) {
        Ok(parser) => Ok(parser),
        Err(_) => Err(Fault::Memory),
    }
}

fn run_document(log: &Transcript<'_>, parser: &TomlParser, document: Document) -> Result<(), Stop> {
    log.case(document.name)?;
    log.phase(Phase::Making)?;
    let parse = ask_parse(log, parser, document.text)?;
    let root = ask(log, "syntax", || parse.syntax(log.alloc()))?;
    tell_meaning(log, &root, document)?;
    log.phase(Phase::Dropping)
}

fn ask_parse(log: &Transcript<'_>, parser: &TomlParser, text: &str) -> Result<Parse, Stop> {
    let parse = ask(log, "parse", || parser.parse(log.alloc(), text))?;
    log.tell("tree", &Shape(&parse.green))?;
    log.tell("errors", &parse.errors.len())?;
    Ok(parse)
}

/// Says what is wrong with a document beyond its syntax, and what its values are.
fn tell_meaning(
    log: &Transcript<'_>,
    root: &SyntaxNode<Toml>,
    document: Document,
) -> Result<(), Stop> {
    let problems = ask_problems(log, root, document)?;
    tell_problems(log, problems.as_slice())?;
    match ask_values(log, root, document)? {
        Ok(values) => tell_values(log, &values, document),
        Err(problems) => tell_what_is_read(log, root, document, problems.len()),
    }
}

fn ask_problems(
    log: &Transcript<'_>,
    root: &SyntaxNode<Toml>,
    document: Document,
) -> Result<Vec<Problem>, Stop> {
    let name = match document.has_underscores {
        false => "validate",
        true => "validate, with underscores",
    };
    ask(
        log,
        name,
        || Ok(validate(log.alloc(), root.as_ref(), Version::V1_0)?),
    )
}

fn tell_problems(log: &Transcript<'_>, problems: &[Problem]) -> Result<(), Stop> {
    for problem in problems {
        log.tell("problem", problem)?;
    }
    Ok(())
}

fn ask_values(
    log: &Transcript<'_>,
    root: &SyntaxNode<Toml>,
    document: Document,
) -> Result<Result<Values, Vec<Problem>>, Stop> {
    let name = match document.has_underscores {
        false => "values",
        true => "values, with underscores",
    };
    ask(
        log,
        name,
        || Ok(values(log.alloc(), root.as_ref(), Version::V1_0)?),
    )
}

/// Says what could be read of a document with so many problems.
fn tell_what_is_read(
    log: &Transcript<'_>,
    root: &SyntaxNode<Toml>,
    document: Document,
    problems: usize,
) -> Result<(), Stop> {
    log.tell("problems", &problems)?;
    let reading = ask_reading(log, root)?;
    tell_values(log, &reading.values, document)
}

fn ask_reading(log: &Transcript<'_>, root: &SyntaxNode<Toml>) -> Result<Reading, Stop> {
    ask(
        log,
        "read",
        || Ok(read(log.alloc(), root.as_ref(), Version::V1_0)?),
    )
}

/// Says what the values are as JSON, and where that of the path stands.
fn tell_values(log: &Transcript<'_>, values: &Values, document: Document) -> Result<(), Stop> {
    tell_json(log, values)?;
    let path = ask(log, "Path::parse", || make_path(log.alloc(), document.path))?;
    log.phase(Phase::Moving)?;
    tell_found(log, values, &path)
}

fn tell_json(log: &Transcript<'_>, values: &Values) -> Result<(), Stop> {
    let json = ask(
        log,
        "to_json",
        || Ok(values.root().to_json(log.alloc(), Form::Plain)?),
    )?;
    log.show("json", &json)
}

fn make_path(alloc: Global, text: &str) -> Result<Path, Fault> {
    match Path::parse(alloc, text) {
        Ok(path) => Ok(path),
        Err(PathError::Memory) => Err(Fault::Memory),
        Err(PathError::At(_, _)) => Err(Fault::NotFound),
    }
}

fn tell_found(log: &Transcript<'_>, values: &Values, path: &Path) -> Result<(), Stop> {
    match values.find(path) {
        Some(found) => log.tell("find", &(found.range(), found.made())),
        None => log.show("find", &"nothing"),
    }
}

fn run_formatted(log: &Transcript<'_>, parser: &TomlParser) -> Result<(), Stop> {
    log.case("a document of TOML, laid out")?;
    log.phase(Phase::Making)?;
    let parse = ask_parse(log, parser, SERVERS)?;
    let _laid_out = ask_formatted(log, parser, &parse)?;
    log.phase(Phase::Dropping)
}

fn ask_formatted(log: &Transcript<'_>, parser: &TomlParser, parse: &Parse) -> Result<Parse, Stop> {
    let laid_out = ask(
        log,
        "formatted, with drops",
        || fault_of(formatted(log.alloc(), parser, &parse.green, Style::default())),
    )?;
    log.tell("tree", &Shape(&laid_out.green))?;
    Ok(laid_out)
}

fn fault_of(answer: Result<Parse, FormatError>) -> Result<Parse, Fault> {
    match answer {
        Ok(parse) => Ok(parse),
        Err(FormatError::Failed(fault)) => Err(fault),
        Err(FormatError::Changed) => Err(Fault::NotFound),
    }
}
