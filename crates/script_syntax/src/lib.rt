//! A small language whose statements end with their lines: each text has a tree with all of its
//! bytes, also a text with errors.
#![tactic(auto)]

mod grammar;
pub mod kinds;
mod lexer;
pub mod nodes;
mod operators;
mod pieces;
mod recovery;
mod source;
mod types;

ghost use Rattle.std.specs.Prelude.{◌≡◌, ◌<◌, length, IfOk, IfErr};
ghost use Rattle.rowan.specs.Fits.{byte_limit};
ghost use Rattle.rowan.specs.Term.{node_text};
ghost use Rattle.rowan_parser.specs.Parsing.{WhyNoTree};

use kinds::BLANK;
pub use kinds::{Kind, Script};
pub use lexer::Modes;
pub use nodes::Root as Source;
use rowan::{Fault, Language};
use rowan_parser::{Parse, Parser, TokenSet, Trivia, token_set};
use std::alloc::Global;

/// Parses a text, with brackets at most 256 deep. Else as `parse_to_depth`.
pub fn parse(alloc: Global, text: &str) -> Result<Parse, Fault>
    ensures text { IfOk result (λ parse. node_text parse.green ≡ text.now) }
    ensures err { IfErr result (WhyNoTree text.now) }
    ensures too_long { byte_limit < length text.now → result ≡ Err Fault.TextTooLong }
{
    parse_to_depth(alloc, text, 256)
}

const DOCUMENTS: TokenSet = token_set![Kind::Comment];

/// The greatest depth of brackets that a parse takes, whatever its caller asks for. Each level takes
/// stack, and so many fit into the usual stack of 8 MB.
pub const MAX_DEPTH: usize = 1024;

/// Parses a text, with brackets at most so deep, or `MAX_DEPTH` deep, which is 1,024. What stands in
/// one that is deeper is one error node. Refused as `rowan_parser::parse` is.
pub fn parse_to_depth(alloc: Global, text: &str, depth: usize) -> Result<Parse, Fault>
    ensures text { IfOk result (λ parse. node_text parse.green ≡ text.now) }
    ensures err { IfErr result (WhyNoTree text.now) }
    ensures too_long { byte_limit < length text.now → result ≡ Err Fault.TextTooLong }
{
    let trivia = Trivia {
        kinds: BLANK,
        attached: &[Kind::Function, Kind::Union].map(|kind| (Script::kind_to_raw(kind), DOCUMENTS)),
    };
    let script = |p: &mut Parser<Script>| grammar::script(p, depth.min(MAX_DEPTH));
    rowan_parser::parse(alloc, text, Modes::new(), trivia, Kind::Root, script)
}
