//! JSON, strict or with comments: each text has a tree with all of its bytes, also one with errors.
#![tactic(auto)]

mod dialect;
mod grammar;
pub mod kinds;
mod lexer;
pub mod nodes;
mod numerals;
mod scanning;
mod strings;

ghost use Rattle.std.specs.Prelude.{◌≡◌, ◌<◌, length, IfOk, IfErr};
ghost use Rattle.rowan.specs.Fits.{byte_limit};
ghost use Rattle.rowan.specs.Term.{node_text};
ghost use Rattle.rowan_parser.specs.Parsing.{WhyNoTree};

pub use dialect::{MAX_DEPTH, Options};
use kinds::BLANK;
pub use kinds::{Json, Kind};
pub use lexer::{JsonLexer, next_token};
use rowan::Fault;
use rowan_parser::{Parse, Parser, Trivia};
use std::alloc::Global;

/// Parses JSON with comments and trailing commas, with arrays and objects at most 512 deep: as
/// `parse_with_options` with `Options::default()`.
pub fn parse(alloc: Global, text: &str) -> Result<Parse, Fault>
    ensures text { IfOk result (λ parse. node_text parse.green ≡ text.now) }
    ensures err { IfErr result (WhyNoTree text.now) }
    ensures too_long { byte_limit < length text.now → result ≡ Err Fault.TextTooLong }
{
    parse_with_options(alloc, text, Options::default())
}

/// Parses as `parse` does, with arrays and objects at most so deep, or `MAX_DEPTH` deep, which is
/// 2,048: each level takes stack, and so many fit into the usual 8 MB. What is deeper stands in one
/// error node to the end of the text.
pub fn parse_to_depth(alloc: Global, text: &str, depth: usize) -> Result<Parse, Fault>
    ensures text { IfOk result (λ parse. node_text parse.green ≡ text.now) }
    ensures err { IfErr result (WhyNoTree text.now) }
    ensures too_long { byte_limit < length text.now → result ≡ Err Fault.TextTooLong }
{
    parse_with_options(alloc, text, Options::default().with_max_depth(depth))
}

/// Parses a text. The options say what has no error; what they don't allow is in the tree like the
/// rest, with an error at its token. The errors of tokens come first, in the order of the text, and
/// those of the grammar behind them.
///
/// Errors: as `rowan_parser::parse`.
pub fn parse_with_options(alloc: Global, text: &str, options: Options) -> Result<Parse, Fault>
    ensures text { IfOk result (λ parse. node_text parse.green ≡ text.now) }
    ensures err { IfErr result (WhyNoTree text.now) }
    ensures too_long { byte_limit < length text.now → result ≡ Err Fault.TextTooLong }
{
    let lexer = JsonLexer { options };
    let trivia = Trivia {
        kinds: BLANK,
        attached: &[],
    };
    let document = |p: &mut Parser<Json>| grammar::document(p, &options);
    rowan_parser::parse(alloc, text, lexer, trivia, Kind::Root, document)
}
