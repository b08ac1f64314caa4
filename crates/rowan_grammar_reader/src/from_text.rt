//! From the text of a grammar to its items.
ghost use Rattle.std.specs.Prelude.{◌≡◌, ◌<◌, length, IfErr};
ghost use Rattle.rowan.specs.Fits.{byte_limit};
ghost use Rattle.rowan_parser.specs.Parsing.{WhyNoTree};

use crate::parser::parse;
use crate::problems::Problem;
use crate::reader::Reader;
use crate::syntax::Grammars;
use rowan::{Fault, SyntaxNode};
use rowan_grammar_model::grammar::Grammar;
use rowan_parser::{Severity, SyntaxError};
use std::alloc::{AllocError, Global};

/// A grammar as it was read, and what is wrong with its text.
#[derive(Drop)]
pub struct Reading {
    pub grammar: Grammar,
    pub problems: Vec<Problem>,
}

/// Reads the text of a grammar, whatever it is.
///
/// Errors: `TextTooLong` if the text has more than 4,294,967,295 bytes; `TooManyChildren` if a node
/// of its tree would have more children than that; `Memory` if an allocation failed.
pub fn read(alloc: Global, text: &str) -> Result<Reading, Fault>
    ensures err { IfErr result (WhyNoTree text.now) }
    ensures too_long { byte_limit < length text.now → result ≡ Err Fault.TextTooLong }
{
    let parsed = parse(alloc, text)?;
    let root: SyntaxNode<Grammars> = parsed.syntax(alloc)?;
    let mut reader = Reader::new(alloc, problems_of(alloc, parsed.errors.as_slice())?);
    reader.read(root.as_ref())?;
    let Reader {
        grammar,
        problems,
        ..
    } = reader;
    Ok(Reading { grammar, problems })
}

/// The errors of a parse as problems.
fn problems_of(alloc: Global, errors: &[SyntaxError]) -> Result<Vec<Problem>, AllocError> {
    let mut problems = Vec::new(alloc);
    for error in errors.iter() {
        problems.push(Problem {
            severity: Severity::Error,
            range: error.range,
            message: error.message.clone()?,
        })?;
    }
    Ok(problems)
}
