//! The parser, the editor and the generator.
ghost use Rattle.std.specs.Prelude.{◌<◌};

use crate::trees::{self, TEXT, Tree};
use rowan::{Fault, GreenElement, GreenNode, TextSize};
use rowan_edit::{GreenEditor, Rewrite, TreeCursor, rewrite_tokens};
use rowan_parser::{LineIndex, render_up_to};
use rowan_tool::sexp;
use std::alloc::AllocError;
use std::fmt::Write;

pub fn make(call: &str, tree: &Tree) -> Result<Option<u64>, Fault> {
    let number = match call {
        "parse_lists" => parse_lists(tree),
        "parse_events" => parse_events(tree),
        "parse_errors" => parse_errors(tree),
        "parse_scripts" => parse_scripts(tree),
        "lines" => lines(tree),
        "long_line" => long_line(tree),
        "edits" => edits(tree, 1),
        "edits_mixed" => edits(tree, 7),
        "rewrite_tokens" => rewrite(tree),
        "rewrite_behind" => rewrite_behind(tree),
        "tree_cursor" => walk(tree),
        "tree_cursor_offsets" => goto_offsets(tree),
        "grammar" => grammar(tree, "\n"),
        "grammar_choice" => grammar(tree, " | "),
        "nothing" => Ok(0),
        _ => return Ok(None),
    };
    Ok(Some(number?))
}

/// A text so many times, one behind the other.
pub fn repeated(tree: &Tree, text: &str) -> Result<String, AllocError> {
    let mut all = String::new(tree.alloc);
    for _ in 0..tree.size {
        all.push_str(text)?;
    }
    Ok(all)
}

fn parse_lists(tree: &Tree) -> Result<u64, Fault> {
    let text = repeated(tree, "(word)")?;
    Ok(
        sexp::parse(tree.alloc, text.as_str())?
            .green()
            .children()
            .len() as u64,
    )
}

fn parse_events(tree: &Tree) -> Result<u64, Fault> {
    let text = format!(in tree.alloc; "[{}0]", repeated(tree, "1, ")?)?;
    let parse = json_syntax::parse(tree.alloc, text.as_str())?;
    Ok(parse.errors.len() as u64)
}

/// A text with errors, and these printed.
fn parse_errors(tree: &Tree) -> Result<u64, Fault> {
    let text = format!(in tree.alloc; "[{}0]", repeated(tree, "1 1,\n")?)?;
    let parse = json_syntax::parse(tree.alloc, text.as_str())?;
    let lines = render_up_to(
        tree.alloc,
        parse.errors.as_slice(),
        text.as_str(),
        "a",
        tree.size,
    )?;
    Ok(lines.len() as u64)
}

/// Comments above a function, brackets that are too deep, and a line with errors for each token.
fn parse_scripts(tree: &Tree) -> Result<u64, Fault> {
    let comments = repeated(tree, "// note\n")?;
    let brackets = repeated(tree, "(")?;
    let lines = repeated(tree, "let x = 1 < 2 < 3 4\n")?;
    let text = format!(in tree.alloc; "{comments}fn f() {{ {brackets}1 }}\n{lines}")?;
    let parse = script_syntax::parse(tree.alloc, text.as_str())?;
    Ok(parse.errors.len() as u64)
}

fn lines(tree: &Tree) -> Result<u64, Fault> {
    columns(tree, repeated(tree, "word\n")?.as_str())
}

fn long_line(tree: &Tree) -> Result<u64, Fault> {
    columns(tree, repeated(tree, "word ")?.as_str())
}

/// The column of each word in three units.
fn columns(tree: &Tree, text: &str) -> Result<u64, Fault> {
    let index = LineIndex::new(tree.alloc, text)?;
    let mut sum: u64 = 0;
    for number in 0..u32::try_from(tree.size).unwrap_or(u32::MAX) {
        let place = index.line_column(TextSize::from(number.saturating_mul(5)));
        if let Some(units) = index.to_utf16(place) {
            sum = sum.wrapping_add(units.column as u64);
            if let Some(back) = index.from_utf16(units) {
                sum = sum.wrapping_add(back.column as u64);
            }
        }
        if let Some(place) = index.to_characters(place) {
            sum = sum.wrapping_add(place.column as u64);
        }
    }
    Ok(sum)
}

/// Another token in place of each child of the root, in steps of so many.
fn edits(tree: &Tree, step: usize) -> Result<u64, Fault>
    requires { 0 < step }
{
    let count = tree.green.children().len();
    let mut editor = GreenEditor::new(tree.alloc, &tree.green)?;
    for first in 0..step.min(count) {
        for index in (first..count).step_by(step) {
            let new = vec![in tree.alloc; trees::token(tree.alloc, TEXT)?]?;
            match editor.splice(&[], index..index.saturating_add(1), new) {
                Ok(()) => {}
                Err(_refused) => return Err(Fault::NotFound),
            }
        }
    }
    let edited = editor.finish()?;
    Ok(edited.changes.as_slice().len() as u64)
}

fn rewrite(tree: &Tree) -> Result<u64, Fault> {
    let new = rewrite_tokens(tree.alloc, &tree.green, &mut |_at| Ok(Rewrite::Keep))?;
    Ok(u64::from(new.green == tree.green))
}

/// Keeps each token behind another one, in the tree below a chain of as many nodes, and the first
/// behind as many tokens.
fn rewrite_behind(tree: &Tree) -> Result<u64, Fault> {
    let mut chain = tree.green.clone()?;
    for _ in 0..tree.size {
        let children = vec![in tree.alloc; GreenElement::from(chain)]?;
        chain = GreenNode::new(tree.alloc, trees::ROOT, children)?;
    }
    let mut count = tree.size;
    let new = rewrite_tokens(
        tree.alloc,
        &chain,
        &mut |_at| {
            let new = trees::words(tree.alloc, count)?;
            count = 1;
            Ok(Rewrite::KeepBehind(new))
        },
    )?;
    Ok(new.changes.as_slice().len() as u64)
}

/// From place to place, in the order of the text.
fn walk(tree: &Tree) -> Result<u64, Fault> {
    let mut cursor = TreeCursor::new(tree.alloc, &tree.green);
    let mut places: u64 = 0;
    for _ in 0..u64::MAX {
        places = places.wrapping_add(1);
        if !cursor.goto_first_child()? && !cursor.goto_next_sibling() && !climb(&mut cursor) {
            break;
        }
    }
    Ok(places)
}

fn climb(cursor: &mut TreeCursor<'_>) -> bool {
    for _ in 0..u64::MAX {
        if !cursor.goto_parent() {
            return false;
        }
        if cursor.goto_next_sibling() {
            return true;
        }
    }
    false
}

/// To the token at each fourth byte, from the root.
fn goto_offsets(tree: &Tree) -> Result<u64, Fault> {
    let mut sum: u64 = 0;
    for offset in (0..u32::from(tree.green.text_len())).step_by(4) {
        let mut cursor = TreeCursor::new(tree.alloc, &tree.green);
        cursor.goto_offset(TextSize::from(offset))?;
        sum = sum.wrapping_add(cursor.depth() as u64);
    }
    Ok(sum)
}

/// A grammar with a node for each number, and a node with all of these behind one another or as one
/// choice.
fn grammar(tree: &Tree, between: &str) -> Result<u64, Fault> {
    let mut text = String::new(tree.alloc);
    text.push_str("language Test\ncrate test\nroot Document\ntoken Name\nerror Error\n")?;
    for number in 0..tree.size {
        write!(text, "N{number} = Name\n")?;
    }
    text.push_str("Document = Name")?;
    for number in 0..tree.size {
        write!(text, "{between}N{number}")?;
    }
    text.push_str("\n")?;
    let written = rowan_grammar::generate(tree.alloc, text.as_str(), "test")?;
    Ok(written.files.len() as u64)
}
