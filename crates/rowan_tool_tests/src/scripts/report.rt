//! What reports of a trace say, as constants can hold it.
use rowan::script::Report;
use rowan::{ElementCalls, Fault, TextRange};

/// The kind and the range of an element, or the range of a new root.
#[derive(Clone, Copy, PartialEq, Debug)]
pub enum Answer {
    Moved(u16, u32, u32),
    Nowhere,
    Replaced(u32, u32),
    Refused(Fault),
}

use Answer::{Moved, Nowhere, Refused, Replaced};

fn ends(range: TextRange) -> (u32, u32) {
    (u32::from(range.start()), u32::from(range.end()))
}

fn answer_of(report: &Report) -> Answer {
    match report {
        Report::Moved(element) => {
            let (start, end) = ends(element.text_range());
            Moved(element.kind().0, start, end)
        }
        Report::Nowhere => Nowhere,
        Report::Replaced(root) => {
            let (start, end) = ends(root.text_range());
            Replaced(start, end)
        }
        Report::Refused(fault) => Refused(*fault),
    }
}

/// Whether the reports say this, one after the other.
pub fn are_answered(reports: &[Report], answers: &[Answer]) -> bool {
    reports.len() == answers.len()
        && reports
            .iter()
            .zip(answers.iter())
            .all(|(report, expected)| answer_of(report) == *expected)
}
