//! Edits of lists that follow one another.

use crate::answer::{Answer, Answered};
use crate::case_file::Line;
use crate::instruction::ListEdit;
use rowan::cursor::{ElementCalls, SyntaxElement, SyntaxNode};
use rowan::{Fault, NodeOrToken, TextRange};
use rowan_tool::sexp;
use std::alloc::{AllocError, Global};
use std::mem;

/// Edits that are still to be made, with their lines.
#[derive(Drop)]
pub struct ListEdits<'s> {
    alloc: Global,
    edits: Vec<(&'s Line, &'s ListEdit)>,
}

impl<'s> ListEdits<'s> {
    /// None.
    pub fn new(alloc: Global) -> ListEdits<'s> {
        ListEdits {
            alloc,
            edits: Vec::new(alloc),
        }
    }

    /// Adds an edit that is to be made.
    pub fn push(&mut self, line: &'s Line, edit: &'s ListEdit) -> Result<(), Fault> {
        self.edits.push((line, edit))?;
        Ok(())
    }

    /// Makes the edits that were added, from the text of an element's tree on, answers them, and
    /// goes to the last root. Each edit is made in one list with those before it that were not
    /// refused.
    pub fn make(
        &mut self,
        here: &mut SyntaxElement,
        answers: &mut Vec<Answered<'s>>,
    ) -> Result<(), Fault> {
        let edits = mem::replace(&mut self.edits, Vec::new(self.alloc));
        if edits.is_empty() {
            return Ok(());
        }
        let text = here.tree_top()?.text()?.to_text()?;
        let mut made = Vec::new(self.alloc);
        for (line, edit) in edits {
            made.push(copy_of(self.alloc, edit)?)?;
            let answer = match sexp::reparse_all(self.alloc, text.as_str(), made.as_slice()) {
                Ok(green) => {
                    let root = SyntaxNode::new_root(self.alloc, green)?;
                    *here = NodeOrToken::Node(root.clone()?);
                    Answer::Replaced(root)
                }
                Err(fault) => {
                    made.pop();
                    Answer::Refused(fault)
                }
            };
            answers.push(line.with_answer(answer))?;
        }
        Ok(())
    }
}

fn copy_of(alloc: Global, edit: &ListEdit) -> Result<(TextRange, String), AllocError> {
    Ok((edit.range, String::from_str(alloc, edit.text.as_str())?))
}
