//! Values that are made, each in one call that only want of memory refuses.

use crate::calls::Call;
use crate::edits::{Edit, Source};
use crate::traces::Stride;
use rowan::cursor::SyntaxNode;
use rowan::{GreenNode, GreenToken};
use rowan_tool::sexp::{Lang, Parse};
use rowan_transcript::{Shape, Stop, Transcript};
use serde_json::Value;

/// What is to be made. The tree, the token, the parse and so on is the last one that was made.
#[derive(Clone, Copy)]
pub enum Make {
    /// The tree that the calls build.
    Tree(&'static [Call]),
    /// A token of a kind and a text.
    Token(u16, &'static str),
    /// A node of a kind over all tokens.
    Node(u16),
    /// The tree after an edit.
    Edited(Edit),
    /// The root with the tree in place of the node, or with the token in place of the token, where
    /// the case stands.
    Replaced,
    /// The same, by a typed cursor.
    TypedReplaced,
    /// The same, by a borrowed cursor.
    RefReplaced,
    /// The same, by a typed cursor that is borrowed.
    TypedRefReplaced,
    /// A cursor at the root of the tree.
    Root,
    /// A cursor at the root of a copy of the node where the case stands.
    Subtree,
    /// The same, by a borrowed cursor.
    RefSubtree,
    /// A typed cursor at the root of a copy of that node.
    TypedSubtree,
    /// The same, by a borrowed cursor.
    TypedRefSubtree,
    /// The same by a wrapper, of a list.
    ListSubtree,
    /// The number of tokens of a text.
    Lexed(&'static str),
    /// The parse of a text.
    Parsed(&'static str),
    /// The parse of a text, over the cache of the case.
    ParsedOver(&'static str),
    /// The typed root of the parse.
    Syntax,
    /// The same by `root`.
    ParsedRoot,
    /// The printed tree of the typed root.
    Printed,
    /// The line of the typed element where the case stands.
    Line,
    /// Its JSON.
    Json,
    /// The text of its JSON.
    JsonText,
    /// The root with a text in place of the list where the case stands, parsed anew.
    Reparsed(&'static str),
    /// The edits of a text, each a range that is to become another text.
    ListEdits(&'static [(u32, u32, &'static str)]),
    /// The tree of a text after these edits.
    ReparsedAll(&'static str),
    /// The text of the typed root.
    Text,
    /// The text of the tree, which may have more than 128 levels.
    Shown,
    /// A copy of the text that the case reads.
    Copy,
    /// The same, by a borrowed text.
    RefCopy,
    /// The first of these calls, so many of them, as a script.
    Script(&'static [Call], usize),
    /// The steps of a trace.
    Steps(&'static [Stride]),
    /// The words of a command line.
    Words(&'static [&'static str]),
    /// Room for an output of so many bytes, so that what is written there is never refused.
    Room(usize),
    /// What the program writes for a text.
    Written(&'static str),
}

impl Make {
    /// The name of the call. That of a call which drops large values, too, ends in `with drops`,
    /// for these requests need no answer. That of a call which is to make so many requests and no
    /// more ends in their number.
    pub fn name(self) -> &'static str {
        match self {
            Make::Tree(_) => "a tree",
            Make::Token(_, _) => "GreenToken::new",
            Make::Node(_) => "GreenNode::new",
            Make::Edited(Edit::Replace(_)) => "replace_child",
            Make::Edited(Edit::Insert(_)) => "insert_child",
            Make::Edited(Edit::Remove(_)) => "remove_child",
            Make::Edited(Edit::Splice(_, _)) => "splice_children",
            Make::Edited(Edit::SpliceSome(Source::Boaster(_))) => {
                "splice_children of none, in 1 request"
            }
            Make::Edited(Edit::SpliceSome(Source::Chain(_))) => {
                "splice_children of a chain, in 3 requests"
            }
            Make::Replaced => "replace_with",
            Make::TypedReplaced => "typed replace_with",
            Make::RefReplaced => "replace_with by ref",
            Make::TypedRefReplaced => "typed replace_with by ref",
            Make::Root => "new_root",
            Make::Subtree => "clone_subtree",
            Make::RefSubtree => "clone_subtree by ref",
            Make::TypedSubtree => "typed clone_subtree",
            Make::TypedRefSubtree => "typed clone_subtree by ref",
            Make::ListSubtree => "clone_subtree of a list",
            Make::ParsedRoot => "root",
            Make::Lexed(_) => "lex",
            Make::Parsed(_) => "parse",
            Make::ParsedOver(_) => "parse_with",
            Make::Syntax => "syntax",
            Make::Printed => "debug_tree",
            Make::Line => "debug_line",
            Make::Json => "to_json",
            Make::JsonText => "to_json_string",
            Make::Reparsed(_) => "reparse_list, with drops",
            Make::ListEdits(_) => "edits",
            Make::ReparsedAll(_) => "reparse_all, with drops",
            Make::Text => "to_string",
            Make::Shown => "to_string of a tree, with a list",
            Make::Copy => "to_text",
            Make::RefCopy => "to_text by ref",
            Make::Script(_, _) => "script",
            Make::Steps(_) => "steps",
            Make::Words(_) => "arguments",
            Make::Room(_) => "room for the output",
            Make::Written(_) => "run, with drops",
        }
    }
}

/// A value that was made.
#[derive(Drop)]
pub enum Made {
    Tree(GreenNode),
    Token(GreenToken),
    Edited(GreenNode),
    Cursor(SyntaxNode),
    Parse(Parse),
    Syntax(rowan::SyntaxNode<Lang>),
    Text(String),
    Json(Value),
    /// A number of tokens or of bytes.
    Count(usize),
}

impl Made {
    /// The green tree of a tree, of an edited one and of a parse.
    pub fn green(&self) -> Option<&GreenNode> {
        match self {
            Made::Tree(tree) | Made::Edited(tree) => Some(tree),
            Made::Parse(parse) => Some(parse.green()),
            _ => None,
        }
    }

    /// Says what the value is.
    pub fn tell(&self, log: &Transcript<'_>) -> Result<(), Stop> {
        match self {
            Made::Tree(tree) => log.tell("tree", &Shape(tree)),
            Made::Token(token) => log.tell("token", &token.text()),
            Made::Edited(tree) => log.tell("edited", &Shape(tree)),
            Made::Cursor(cursor) => log.tell("cursor", cursor),
            Made::Parse(parse) => log.tell("tree", &Shape(parse.green())),
            Made::Syntax(root) => log.tell("range", &root.text_range()),
            Made::Text(text) => log.tell("text", &text.as_str()),
            Made::Json(value) => log.show("json", value),
            Made::Count(count) => log.tell("count", count),
        }
    }
}
