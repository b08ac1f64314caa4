//! Nodes and tokens as text: a line for each.
ghost use Rattle.std.specs.Prelude.{◌≡◌, [], ◌∷◌, ◌++◌, ◌+◌, ◌*◌, ◌<◌, ◌≤◌, ℕ, List};
ghost use Rattle.std.specs.Prelude.{codes, chars, decimal, drop, length, replicate, string_bytes};
ghost use Rattle.std.specs.Prelude.{IsAscii, IsTrue, IfOk, OnOk};
ghost use Rattle.std.specs.List.{list_all, AllByRecursion};
ghost use Rattle.std.specs.Char.{is_ascii};
ghost use Rattle.rowan_green.specs.Fits.{byte_limit};
ghost use Rattle.rowan_green.specs.Term.{node_len, token_len};
ghost use Rattle.rowan_cursor.specs.Refs.{node_place, token_place};
ghost use Rattle.rowan_print.specs.Opened.{open_size, Completes, IsWithin};
ghost use Rattle.rowan_print.specs.Printed.{raw_name, front_of, is_plain, extent};
ghost use Rattle.rowan_print.specs.Printed.{headline, node_line, Adds, IsEscape, AreEscapes};
ghost use Rattle.rowan_print.specs.Printed.{IsTextLine, IsTokenLine, AreNodeLines, IsDebugLine};

use crate::language::Language;
use crate::open_node::OpenNode;
use itoa::write_digits;
use rowan_cursor::cursor::{SyntaxNodeRef, SyntaxTokenRef};
use rowan_green::green::{GreenNode, GreenToken, SyntaxKind};
use rowan_green::text::{TextRange, TextSize};
use rowan_green::utility_types::NodeOrToken;
use std::alloc::{AllocError, Global};

// The spaces for a level.
const INDENT: usize = 2;

// The levels that one push indents, their spaces, and these behind a newline.
const LEVELS: usize = 32;

const SPACES: &str = "                                                                ";

const NEW_LINE: &str = "\n                                                                ";

// A text of at least so many bytes is cut, at the first border from `CUT` on.
const LONG: usize = 25;

const CUT: usize = 21;

// The length of the longest range, "@4294967295..4294967295".
const RANGE: usize = 23;

// The lines of a node, whose text lies at a range, and of all that is in it.
pub fn tree<L: Language>(
    alloc: Global,
    root: &GreenNode,
    range: TextRange,
) -> Result<String, AllocError>
    requires { range ≡ extent range.start (node_len root.now) }
    ensures { IfOk result (λ s.
        AreNodeLines (raw_name L.name L.meaning) range.start 0 root.now (string_bytes s)) }
{
    let start = range.start();
    let mut text = String::new(alloc);
    let mut opened = Vec::new(alloc);
    push_node::<L>(&mut text, root, start)?;
    if opened.push(OpenNode::new(root, start)).is_err() {
        return Err(AllocError);
    }
    while let Some(parent) = opened.pop() {
        push_child::<L>(&mut text, &mut opened, &parent)?;
    }
    text.push_str("\n")?;
    Ok(text)
}

// Ends the last line, and writes that of the next child of a node. The node is open still, and so
// is then the child, if it is a node. Where no child is left, nothing is written, and the node is
// open no more.
fn push_child<'a, L: Language>(
    text: &mut String,
    opened: &mut Vec<OpenNode<'a>>,
    parent: &OpenNode<'a>,
) -> Result<(), AllocError>
    requires { IsWithin parent.now }
    ensures lines { let completes = Completes (raw_name L.name L.meaning) in
        (whole : List ℕ) → OnOk result (completes (string_bytes text.new) opened.new.items whole
        → completes (string_bytes text.old) (opened.old.items ++ parent.now ∷ []) whole) }
    ensures within { AllByRecursion IsWithin opened.old.items
        → OnOk result (AllByRecursion IsWithin opened.new.items) }
    ensures smaller { OnOk result
        (open_size opened.new.items < open_size (opened.old.items ++ parent.now ∷ [])) }
{
    let Some(found) = parent.next_child() else {
        return Ok(());
    };
    let (start, child) = found;
    if opened.push(parent.past_child()).is_err() {
        return Err(AllocError);
    }
    push_new_line(text, opened.len())?;
    match child {
        NodeOrToken::Node(node) => {
            if opened.push(OpenNode::new(node, start)).is_err() {
                return Err(AllocError);
            }
            push_node::<L>(text, node, start)
        }
        NodeOrToken::Token(token) => push_token::<L>(text, token, start),
    }
}

// The line of a node whose text starts at an offset.
fn push_node<L: Language>(
    text: &mut String,
    node: &GreenNode,
    start: TextSize,
) -> Result<(), AllocError>
    requires { start + node_len node.now ≤ byte_limit }
    ensures { OnOk result (string_bytes text.new
        ≡ string_bytes text.old ++ node_line (raw_name L.name L.meaning) start node.now) }
{
    let mut room = *b"@4294967295..4294967295";
    push_headline::<L>(
        text,
        node.kind(),
        TextRange::at(start, node.text_len()),
        &mut room,
    )
}

// The line of a token whose text starts at an offset.
fn push_token<L: Language>(
    text: &mut String,
    token: &GreenToken,
    start: TextSize,
) -> Result<(), AllocError>
    requires { start + token_len token.now ≤ byte_limit }
    ensures { OnOk result (Adds (IsTokenLine (raw_name L.name L.meaning) start token.now)
        (string_bytes text.old) (string_bytes text.new)) }
{
    let range = TextRange::at(start, token.text_len());
    push_text_line::<L>(text, token.kind(), range, token.text())
}

// The line of a node.
pub fn node_line<L: Language>(alloc: Global, node: SyntaxNodeRef<'_>) -> Result<String, AllocError>
    ensures { IfOk result (λ s.
        IsDebugLine (raw_name L.name L.meaning) (node_place node.entry) (string_bytes s)) }
{
    let mut line = String::new(alloc);
    let mut room = *b"@4294967295..4294967295";
    push_headline::<L>(&mut line, node.green().kind(), node.text_range(), &mut room)?;
    Ok(line)
}

// The line of a token.
pub fn token_line<L: Language>(
    alloc: Global,
    token: SyntaxTokenRef<'_>,
) -> Result<String, AllocError>
    ensures { IfOk result (λ s.
        IsDebugLine (raw_name L.name L.meaning) (token_place token.entry) (string_bytes s)) }
{
    let mut line = String::new(alloc);
    let green = token.green();
    push_text_line::<L>(&mut line, green.kind(), token.text_range(), green.text())?;
    Ok(line)
}

// The name of the kind, the range, and what stands in the room behind that of a range. All but the
// name is one piece, since a piece costs more than its bytes.
fn push_headline<L: Language>(
    text: &mut String,
    kind: SyntaxKind,
    range: TextRange,
    room: &mut [u8],
) -> Result<(), AllocError>
    requires room { RANGE ≤ length room.old }
    requires ascii { IsTrue (list_all is_ascii (drop RANGE room.old)) }
    ensures { OnOk result (string_bytes text.new ≡ string_bytes text.old
        ++ headline (L.name (L.meaning kind.0)) range ++ drop RANGE room.old) }
{
    text.push_str(L::kind_name(L::kind_from_raw(kind)))?;
    let start = place_range(room, range);
    // The bytes are those of a text, which the check proves here.
    text.push_str(unsafe { str::from_utf8_unchecked(&room[start..]) })
}

// Writes a range so that it ends with the room of a range, and returns where it starts.
fn place_range(room: &mut [u8], range: TextRange) -> usize
    requires { RANGE ≤ length room.old }
    ensures within { result ≤ length room.new }
    ensures written { drop result room.new ≡ codes "@" ++ (decimal range.start
        ++ (codes ".." ++ (decimal range.end ++ drop RANGE room.old))) }
    ensures ascii { IsTrue (list_all is_ascii (drop RANGE room.old))
        → IsAscii (drop result room.new) }
{
    let end = write_digits(u64::from(u32::from(range.end())), room, RANGE);
    room[end - 1] = b'.';
    room[end - 2] = b'.';
    let start = write_digits(u64::from(u32::from(range.start())), room, end - 2);
    room[start - 1] = b'@';
    start - 1
}

// A newline, and the spaces of a level.
fn push_new_line(text: &mut String, level: usize) -> Result<(), AllocError>
    ensures { OnOk result (string_bytes text.new
        ≡ string_bytes text.old ++ codes "\n" ++ replicate (2 * level) 32) }
{
    let (start, _) = NEW_LINE.split_at(1 + INDENT * (level % LEVELS));
    text.push_str(start)?;
    for _ in 0..level / LEVELS {
        text.push_str(SPACES)?;
    }
    Ok(())
}

// The headline, and the text in quotes, where a long one is cut and ends in points.
fn push_text_line<L: Language>(
    text: &mut String,
    kind: SyntaxKind,
    range: TextRange,
    all: &str,
) -> Result<(), AllocError>
    ensures { OnOk result (Adds (IsTextLine (L.name (L.meaning kind.0)) range all.now)
        (string_bytes text.old) (string_bytes text.new)) }
{
    let mut room = *b"@4294967295..4294967295 \"";
    push_headline::<L>(text, kind, range, &mut room)?;
    if all.len() < LONG {
        push_escapes(text, all)?;
        text.push_str("\"")
    } else {
        push_escapes(text, front_of(all))?;
        text.push_str(" ...\"")
    }
}

// The part before the first border of characters from `CUT` on.
fn front_of(text: &str) -> &str
    requires { CUT ≤ length text.now }
    ensures { result.now ≡ front_of text.now }
{
    let (front, _) = text.split_at(text.ceil_char_boundary(CUT));
    front
}

// A text as it stands in quotes.
fn push_escapes(text: &mut String, part: &str) -> Result<(), AllocError>
    ensures { OnOk result (Adds (AreEscapes (chars part.now))
        (string_bytes text.old) (string_bytes text.new)) }
{
    if is_all_plain(part) {
        return text.push_str(part);
    }
    for character in part.chars() {
        push_escape(text, character)?;
    }
    Ok(())
}

// A character as it stands in quotes.
fn push_escape(text: &mut String, character: char) -> Result<(), AllocError>
    ensures { OnOk result (Adds (IsEscape character)
        (string_bytes text.old) (string_bytes text.new)) }
{
    if is_plain(character) {
        return text.push(character);
    }
    for escaped in character.escape_debug() {
        text.push(escaped)?;
    }
    Ok(())
}

// Whether each character stands for itself in quotes.
fn is_all_plain(text: &str) -> bool
    ensures { result ≡ list_all is_plain text.now }
{
    text.bytes().all(|byte| is_plain(char::from(byte)))
}

// Whether a character stands for itself in quotes.
fn is_plain(character: char) -> bool
    ensures { result ≡ is_plain character }
{
    (' '..='~').contains(&character) && character != '"' && character != '\\'
}
