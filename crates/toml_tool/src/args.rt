//! The command line.
use clap::{Arg, ArgAction, ArgMatches, Command, value_parser};
use std::alloc::{AllocError, Global};
use toml_document::Version;
use toml_format::Style;

const SPECS: &[&str] = &["1.0", "1.1"];

const FORMATS: &[&str] = &["text", "json"];

/// What the arguments ask for.
#[derive(Clone, Copy)]
pub(crate) struct Options<'a, 'm> {
    pub task: Task<'a>,
    pub version: Version,
    /// The files that are read; without any standard input.
    pub files: &'m [&'a str],
    /// Whether errors are printed as lines of JSON.
    pub is_json: bool,
}

/// What is done.
#[derive(Clone, Copy)]
pub(crate) enum Task<'a> {
    /// What is wrong.
    Check,
    /// The value of a key, or its text.
    Get { key: &'a str, is_raw: bool },
    /// All values as tagged JSON.
    Json,
    /// Files are formatted.
    Format(Formatting),
}

/// How files are formatted.
#[derive(Clone, Copy)]
pub(crate) struct Formatting {
    pub style: Style,
    /// Whether files that would change are named and stay as they are.
    pub is_check: bool,
    /// Whether texts with errors are formatted, too.
    pub is_forced: bool,
}

impl<'a> Options<'a, '_> {
    pub fn is_check(&self) -> bool {
        matches!(self.task, Task::Check)
    }

    /// The one file that is read, if it is not standard input.
    pub fn file(&self) -> Option<&'a str> {
        self.files.first().copied()
    }
}

/// The command line that the program has.
pub(crate) fn command<'a>(alloc: Global) -> Result<Command<'a>, AllocError> {
    Command::new(alloc, "toml_tool")
        .about("Checks documents of TOML, prints their values, and formats them")
        .subcommand_required(true)
        .arg_required_else_help(true)
        .subcommand(check(alloc)?)?
        .subcommand(get(alloc)?)?
        .subcommand(json(alloc)?)?
        .subcommand(format(alloc)?)
}

fn check<'a>(alloc: Global) -> Result<Command<'a>, AllocError> {
    let format = Arg::new(alloc, "format")
        .long("format")
        .value_parser(FORMATS)
        .default_value("text")
        .help("How errors are printed");
    Command::new(alloc, "check")
        .about("Says what is wrong")
        .arg(spec(alloc))?
        .arg(format)?
        .arg(file(alloc))
}

fn get<'a>(alloc: Global) -> Result<Command<'a>, AllocError> {
    let key = Arg::new(alloc, "key")
        .required(true)
        .action(ArgAction::Set)
        .help("A dotted key, with [N] behind a part for an element of an array");
    let raw = Arg::new(alloc, "raw")
        .long("raw")
        .action(ArgAction::SetTrue)
        .help("Prints the value as it is written");
    Command::new(alloc, "get")
        .about("Prints the value of a key")
        .arg(spec(alloc))?
        .arg(raw)?
        .arg(key)?
        .arg(file(alloc))
}

fn json<'a>(alloc: Global) -> Result<Command<'a>, AllocError> {
    Command::new(alloc, "json")
        .about("Prints all values as JSON with the type of each")
        .arg(spec(alloc))?
        .arg(file(alloc))
}

fn format<'a>(alloc: Global) -> Result<Command<'a>, AllocError> {
    let files = Arg::new(alloc, "file")
        .num_args(0..)
        .action(ArgAction::Append)
        .help("Files, or folders whose .toml files are meant; without any standard input");
    Command::new(alloc, "fmt")
        .about("Formats files, which keep all but their white space")
        .arg(flag(alloc, "check").help("Names the files that would change, and leaves them"))?
        .arg(flag(alloc, "force").help("Formats texts with errors, too"))?
        .arg(number(alloc, "width").help("How long a line with an array may be (80)"))?
        .arg(number(alloc, "indent").help("How far in the lines of an array stand (2)"))?
        .arg(flag(alloc, "no-blank-lines").help("Keeps one blank line above tables alone"))?
        .arg(spec(alloc))?
        .arg(files)
}

fn flag<'a>(alloc: Global, name: &'a str) -> Arg<'a> {
    Arg::new(alloc, name).long(name).action(ArgAction::SetTrue)
}

fn number<'a>(alloc: Global, name: &'a str) -> Arg<'a> {
    Arg::new(alloc, name)
        .long(name)
        .value_parser(value_parser!(usize))
}

fn spec<'a>(alloc: Global) -> Arg<'a> {
    Arg::new(alloc, "spec")
        .long("spec")
        .value_parser(SPECS)
        .default_value("1.0")
        .help("The version of TOML")
}

fn file<'a>(alloc: Global) -> Arg<'a> {
    Arg::new(alloc, "file")
        .action(ArgAction::Set)
        .help("The file to read; without it standard input")
}

/// What the words ask for, if they name a subcommand.
pub(crate) fn asked_for<'a, 'm>(matches: &'m ArgMatches<'a>) -> Option<Options<'a, 'm>> {
    let (name, matches) = matches.subcommand()?;
    Some(Options {
        task: task_of(name, matches)?,
        version: match matches.get_str("spec") {
            Some("1.1") => Version::V1_1,
            _ => Version::V1_0,
        },
        files: matches.get_strs("file").unwrap_or(&[]),
        is_json: matches.get_str("format") == Some("json"),
    })
}

fn task_of<'a>(name: &str, matches: &ArgMatches<'a>) -> Option<Task<'a>> {
    match name {
        "check" => Some(Task::Check),
        "get" => Some(Task::Get {
            key: matches.get_str("key")?,
            is_raw: matches.get_flag("raw"),
        }),
        "json" => Some(Task::Json),
        "fmt" => Some(Task::Format(how_to_format(matches))),
        _ => None,
    }
}

fn how_to_format(matches: &ArgMatches<'_>) -> Formatting {
    let standard = Style::default();
    Formatting {
        style: Style {
            width: matches.get_one("width").unwrap_or(standard.width),
            indent: matches.get_one("indent").unwrap_or(standard.indent),
            keeps_blank_lines: !matches.get_flag("no-blank-lines"),
        },
        is_check: matches.get_flag("check"),
        is_forced: matches.get_flag("force"),
    }
}
