//! A tree as text.

use anyhow::Result;
use rowan::{Fault, GreenNode, SyntaxNode};
use rowan_tool::sexp::Lang;
use std::alloc::Global;
use std::time::{Duration, Instant};

/// What is printed, in each of many turns.
#[derive(Clone, Copy)]
pub enum Form {
    /// A line for each node and token.
    DebugTree,
    /// Compact JSON.
    Json,
    /// The same text, of a value that is made first.
    Value,
}

impl Form {
    /// The form of that name.
    pub fn from_word(word: &str) -> Option<Form> {
        match word {
            "debug_tree" => Some(Form::DebugTree),
            "json" => Some(Form::Json),
            "value" => Some(Form::Value),
            _ => None,
        }
    }

    fn text(self, alloc: Global, root: &SyntaxNode<Lang>) -> Result<String, Fault> {
        match self {
            Form::DebugTree => root.debug_tree(alloc),
            Form::Json => root.to_json_string(alloc),
            Form::Value => Ok(root.to_json(alloc)?.to_string(alloc)?),
        }
    }
}

/// Times a form of a tree whose cursor is there, and answers the time of all turns and the length of the last text. A text is
/// dropped after its time was taken.
pub fn time(
    rt: &HostRuntime,
    tree: &GreenNode,
    form: Form,
    turns: usize,
) -> Result<(Duration, usize)> {
    let root = SyntaxNode::new_root(rt.alloc(), tree.clone()?)?;
    let mut total = Duration::ZERO;
    let mut len = 0;
    for _ in 0..turns {
        let start = Instant::now(rt)?;
        let text = form.text(rt.alloc(), &root)?;
        total = total.saturating_add(start.elapsed(rt)?);
        len = text.len();
    }
    Ok((total, len))
}
