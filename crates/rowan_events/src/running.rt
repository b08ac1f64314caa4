//! A grammar is run, and what it did is what its parser has in the end.
ghost use Rattle.std.specs.Prelude.{◌≡◌, IfOk, IfErr};
ghost use Rattle.rowan_events.specs.Running.{Makes};
ghost use Rattle.rowan_events.specs.Seen.{start_of};

use crate::event::Event;
use crate::parser::{Complaint, Parser, SeenToken};
use rowan::{Fault, Language};
use std::alloc::Global;

/// What a grammar did.
#[derive(Drop)]
#[doc(hidden)]
pub struct Made {
    pub events: Vec<Event>,
    pub complaints: Vec<Complaint>,
}

/// Runs a grammar over these tokens.
///
/// Errors: `Memory` if an allocation failed.
#[doc(hidden)]
pub fn run_grammar<'t, L: Language, G: FnOnce(&mut Parser<'t, L>)>(
    alloc: Global,
    seen: Vec<SeenToken<'t>>,
    grammar: G,
) -> Result<Made, Fault>
    requires { G.IsAlwaysCallable grammar }
    ensures made { IfOk result (λ made. Makes G.FnOnce grammar (start_of seen.entry.items)
        made.events.items made.complaints.items) }
    ensures err { IfErr result (λ fault. fault ≡ Fault.Memory) }
{
    let mut parser = Parser::new(alloc, seen)?;
    grammar(&mut parser);
    let made = parser.into_made()?;
    Ok(made)
}
