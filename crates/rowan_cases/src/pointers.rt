//! The pointers of a case.

use crate::answer::Answer;
use crate::instruction::{Carrying, PointerStep};
use rowan::ast::SyntaxNodePtr;
use rowan::cursor::{ElementCalls, SyntaxElement, SyntaxNode};
use rowan::{Fault, NodeOrToken, Steps};
use rowan_tool::sexp::Lang;
use std::alloc::Global;
use std::collections::BTreeMap;

/// The pointers that are kept, by the numbers of their slots.
#[derive(Drop)]
pub struct Pointers {
    kept: BTreeMap<u32, SyntaxNodePtr<Lang>>,
}

impl Pointers {
    /// None kept.
    pub fn new(alloc: Global) -> Pointers {
        Pointers {
            kept: BTreeMap::new(alloc),
        }
    }

    /// Answers a step, where the cursor is at this element.
    pub fn answer<'a>(
        &mut self,
        here: &SyntaxElement,
        step: PointerStep,
    ) -> Result<Answer<'a>, Fault> {
        match step {
            PointerStep::Ptr(slot) => self.keep(here, slot),
            PointerStep::AfterEdit(carrying) => self.carry(carrying),
            PointerStep::Resolve(slot) => self.resolve(slot, here.tree_top()?),
            PointerStep::ResolveHere(slot) => match here {
                NodeOrToken::Node(node) => self.resolve(slot, node.clone()?),
                NodeOrToken::Token(_) => Ok(Answer::Nowhere),
            },
            PointerStep::Cast(slot, wrapper) => match self.kept.get(&slot) {
                Some(pointer) => Ok(Answer::truth(wrapper.takes(*pointer))),
                None => Ok(Answer::Nowhere),
            },
        }
    }

    fn keep<'a>(&mut self, here: &SyntaxElement, slot: u32) -> Result<Answer<'a>, Fault> {
        let NodeOrToken::Node(node) = here else {
            return Ok(Answer::Nowhere);
        };
        let pointer = SyntaxNodePtr::new(&rowan::SyntaxNode::from(node.clone()?));
        self.kept.insert(slot, pointer)?;
        Ok(Answer::Pointer(pointer))
    }

    fn carry<'a>(&mut self, carrying: Carrying) -> Result<Answer<'a>, Fault> {
        let Some(pointer) = self.kept.get(&carrying.from).copied() else {
            return Ok(Answer::Nowhere);
        };
        match pointer.after_edit(carrying.replaced, carrying.new_len) {
            Some(carried) => {
                self.kept.insert(carrying.to, carried)?;
                Ok(Answer::Pointer(carried))
            }
            None => {
                self.kept.remove(&carrying.to);
                Ok(Answer::Gone)
            }
        }
    }

    fn resolve<'a>(&self, slot: u32, root: SyntaxNode) -> Result<Answer<'a>, Fault> {
        let Some(pointer) = self.kept.get(&slot) else {
            return Ok(Answer::Nowhere);
        };
        let mut steps = Steps::new();
        let found = pointer.try_to_node_counted(&rowan::SyntaxNode::from(root), &mut steps)?;
        Ok(Answer::Resolved(
            steps.visits(),
            found.map(|node| NodeOrToken::Node(node.into())),
        ))
    }
}
