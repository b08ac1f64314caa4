//! Formats a tree, and sees that nothing but white space was moved.
ghost use Rattle.std.specs.Prelude.{◌≡◌, IfOk};
ghost use Rattle.toml_format.specs.Skeleton.{skeleton};

use crate::error::FormatError;
use crate::layout::Layout;
use crate::measure::measured;
use crate::skeleton::{has_skeleton_of, root_of};
use crate::style::Style;
use rowan::{Fault, GreenNode};
use rowan_edit::rewrite_tokens;
use rowan_parser::Parse;
use std::alloc::Global;
use toml_syntax::TomlParser;

/// The text of a tree, laid out and parsed anew. The new tree has the nodes of the old one, and in
/// them its tokens, but for white space and line ends: so no comment is lost, no two lines are
/// joined, and no value is another one.
///
/// An array stands in one line where that is short enough and no comment stands in it, and else with
/// a line for each element; an inline table in one line but for a comment in it. One space stands
/// around `=`, behind commas, before comments that end a line, and in the braces of an inline table.
/// No line ends with blanks. Blank lines are as the style says. All lines end as the first one, and
/// so does the last one, but where the text ends with a comment behind an entry: a line end would
/// make that part of the entry. Keys are not sorted, and no comma comes or goes.
///
/// Errors: `Failed` where the new tree would pass a limit or an allocation failed; `Changed` where
/// more than white space would change.
pub fn formatted(
    alloc: Global,
    parser: &TomlParser,
    tree: &GreenNode,
    style: Style,
) -> Result<Parse, FormatError>
    ensures { IfOk result (λ parse. skeleton parse.green ≡ skeleton tree.now) }
{
    let laid_out = laid_out(alloc, tree, style)?;
    let text = format!(in alloc; "{laid_out}")?;
    let parse = parser.parse(alloc, &text)?;
    if !has_skeleton_of(alloc, &parse.green, tree)? {
        return Err(FormatError::Changed);
    }
    Ok(parse)
}

/// A text, parsed and laid out.
///
/// Errors: as `formatted`.
pub fn format(
    alloc: Global,
    parser: &TomlParser,
    text: &str,
    style: Style,
) -> Result<Parse, FormatError> {
    let parse = parser.parse(alloc, text)?;
    formatted(alloc, parser, &parse.green, style)
}

fn laid_out(alloc: Global, tree: &GreenNode, style: Style) -> Result<GreenNode, Fault> {
    let root = root_of(alloc, tree)?;
    let measures = measured(alloc, root.as_ref())?;
    let mut layout = Layout::new(alloc, style, &measures);
    Ok(rewrite_tokens(alloc, tree, &mut |at| layout.place(alloc, at))?.green)
}
