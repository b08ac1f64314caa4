//! What is wrong with a grammar, and how that is printed.
ghost use Rattle.std.specs.Prelude.{◌≡◌, IfErr};

use rowan::{Fault, TextRange};
use rowan_parser::{LineIndex, Renderer, Severity};
use std::alloc::{AllocError, Global};

/// How many problems of one severity are printed.
const MAX_PRINTED: usize = 20;

/// What is wrong with a grammar, and where.
#[derive(Drop)]
pub struct Problem {
    pub severity: Severity,
    pub range: TextRange,
    pub message: String,
}

/// Whether nothing may be written because of this.
pub fn is_error(problem: &Problem) -> bool {
    problem.severity == Severity::Error
}

/// Prints the problems in the order of their places: the first 20 errors and the first 20 warnings,
/// and how many more there are.
pub fn render(
    alloc: Global,
    problems: &mut Vec<Problem>,
    text: &str,
    name: &str,
) -> Result<String, Fault>
    ensures { IfErr result (λ e. e ≡ Fault.Memory) }
{
    problems.sort_by_key(|problem| u32::from(problem.range.start()))?;
    let index = LineIndex::new(alloc, text)?;
    let renderer = Renderer {
        index: &index,
        name,
    };
    let mut out = String::new(alloc);
    let mut errors = 0usize;
    let mut warnings = 0usize;
    for problem in problems.iter() {
        let severity = problem.severity;
        let count = if severity == Severity::Error {
            &mut errors
        } else {
            &mut warnings
        };
        *count = count.saturating_add(1);
        if *count <= MAX_PRINTED {
            renderer.diagnostic(&mut out, severity, problem.message.as_str(), problem.range)?;
        }
    }
    add_more(&mut out, errors, "error")?;
    add_more(&mut out, warnings, "warning")?;
    Ok(out)
}

/// How many of so many problems were not printed.
fn add_more(out: &mut String, count: usize, what: &str) -> Result<(), AllocError> {
    match count.saturating_sub(MAX_PRINTED) {
        0 => Ok(()),
        1 => writeln!(out, "1 more {what}"),
        more => writeln!(out, "{more} more {what}s"),
    }
}
