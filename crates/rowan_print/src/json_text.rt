//! Nodes and tokens as the text of their JSON.
ghost use Rattle.std.specs.Prelude.{◌≡◌, ◌<◌, [], ◌∷◌, ◌++◌, IfOk, OnOk, string_bytes};
ghost use Rattle.std.specs.List.{AllByRecursion};
ghost use Rattle.json.specs.Print.{print};
ghost use Rattle.serde_json.specs.Written.{compact_text};
ghost use Rattle.rowan_green.specs.Term.{node_len};
ghost use Rattle.rowan_cursor.specs.Refs.{token_place};
ghost use Rattle.rowan_print.specs.Opened.{open_size, IsWithin};
ghost use Rattle.rowan_print.specs.Printed.{raw_name, extent, node_json, token_object, tree_json};
ghost use Rattle.rowan_print.specs.Spelled.{Spells, SpellsUpTo, begin_tokens, end_tokens};
ghost use Rattle.rowan_print.specs.Spelled.{kind_tokens, range_tokens, value_tokens, open_tokens};

use crate::language::Language;
use crate::open_node::OpenNode;
use json::Writer;
use rowan_cursor::cursor::SyntaxTokenRef;
use rowan_green::green::{GreenNode, GreenToken, SyntaxKind};
use rowan_green::text::TextRange;
use rowan_green::utility_types::NodeOrToken;
use std::alloc::{AllocError, Global};

// The text of the value of a node, whose text lies at a range, and of all that is in it.
pub fn tree_text<L: Language>(
    alloc: Global,
    root: &GreenNode,
    range: TextRange,
) -> Result<String, AllocError>
    requires { range ≡ extent range.start (node_len root.now) }
    ensures { IfOk result (λ s. string_bytes s
        ≡ compact_text (node_json (raw_name L.name L.meaning) range.start root.now)) }
{
    let len = u32::from(range.len());
    let mut out = Writer::new(Vec::with_capacity(alloc, len as usize)?);
    let mut opened = Vec::new(alloc);
    write_beginning(&mut out)?;
    if opened.push(OpenNode::new(root, range.start())).is_err() {
        return Err(AllocError);
    }
    while let Some(parent) = opened.pop() {
        write_child::<L>(&mut out, &mut opened, &parent)?;
    }
    Ok(text_of(out))
}

// Writes the value of the next child of a node, of a node up to those of its children. The node is
// open still, and so is then the child, if it is a node. Where no child is left it writes the end
// of the node, which is open no more.
fn write_child<'a, L: Language>(
    out: &mut Writer,
    opened: &mut Vec<OpenNode<'a>>,
    parent: &OpenNode<'a>,
) -> Result<(), AllocError>
    requires { IsWithin parent.now }
    ensures tokens { let left = open_tokens (raw_name L.name L.meaning) in
        OnOk result (SpellsUpTo out.old out.new (left (opened.old.items ++ parent.now ∷ []))
        (left opened.new.items)) }
    ensures within { AllByRecursion IsWithin opened.old.items
        → OnOk result (AllByRecursion IsWithin opened.new.items) }
    ensures smaller { OnOk result
        (open_size opened.new.items < open_size (opened.old.items ++ parent.now ∷ [])) }
{
    let Some(found) = parent.next_child() else {
        return write_end::<L>(out, parent.green().kind(), parent.range());
    };
    let (start, child) = found;
    if opened.push(parent.past_child()).is_err() {
        return Err(AllocError);
    }
    match child {
        NodeOrToken::Node(node) => {
            if opened.push(OpenNode::new(node, start)).is_err() {
                return Err(AllocError);
            }
            write_beginning(out)
        }
        NodeOrToken::Token(token) => {
            write_token::<L>(out, token, TextRange::at(start, token.text_len()))
        }
    }
}

// The text of the value of a token.
pub fn token_text<L: Language>(
    alloc: Global,
    token: SyntaxTokenRef<'_>,
) -> Result<String, AllocError>
    ensures { IfOk result (λ s.
        string_bytes s
        ≡ compact_text (tree_json (raw_name L.name L.meaning) (token_place token.entry))) }
{
    let mut out = Writer::new(Vec::new(alloc));
    write_token::<L>(&mut out, token.green(), token.text_range())?;
    Ok(text_of(out))
}

// What is written, in a buffer that held nothing before.
fn text_of(out: Writer) -> String
    requires { out.before ≡ [] }
    ensures { string_bytes result ≡ print out.tokens }
{
    // The bytes are those of a text, which the check proves here.
    unsafe { String::from_utf8_unchecked(out.into_inner()) }
}

// What stands before the values of the children of a node.
fn write_beginning(out: &mut Writer) -> Result<(), AllocError>
    ensures { OnOk result (Spells out.old out.new begin_tokens) }
{
    out.begin_object()?;
    out.key("children")?;
    out.begin_array()
}

// What stands behind the values of the children of a node.
fn write_end<L: Language>(
    out: &mut Writer,
    kind: SyntaxKind,
    range: TextRange,
) -> Result<(), AllocError>
    ensures { OnOk result
        (Spells out.old out.new (end_tokens (raw_name L.name L.meaning kind.0) range)) }
{
    out.end_array()?;
    write_kind::<L>(out, kind)?;
    write_range(out, range)
}

// The value of a token, whose text lies at a range.
fn write_token<L: Language>(
    out: &mut Writer,
    token: &GreenToken,
    range: TextRange,
) -> Result<(), AllocError>
    ensures { OnOk result (Spells out.old out.new
        (value_tokens (token_object
        (raw_name L.name L.meaning token.now.kind) range token.now.text))) }
{
    out.begin_object()?;
    write_kind::<L>(out, token.kind())?;
    out.key("text")?;
    out.string(token.text())?;
    write_range(out, range)
}

// The name of the kind.
fn write_kind<L: Language>(out: &mut Writer, kind: SyntaxKind) -> Result<(), AllocError>
    ensures { OnOk result (Spells out.old out.new (kind_tokens (L.name (L.meaning kind.0)))) }
{
    out.key("kind")?;
    out.string(L::kind_name(L::kind_from_raw(kind)))
}

// The range, and the end of the object.
fn write_range(out: &mut Writer, range: TextRange) -> Result<(), AllocError>
    ensures { OnOk result (Spells out.old out.new (range_tokens range)) }
{
    out.key("text_range")?;
    out.begin_array()?;
    out.u64(u64::from(u32::from(range.start())))?;
    out.u64(u64::from(u32::from(range.end())))?;
    out.end_array()?;
    out.end_object()
}
