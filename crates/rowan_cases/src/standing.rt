//! The steps of a case that are made one by one, behind its building part.

use crate::answer::{Answer, Answered};
use crate::by_refs::{Start, lists, moves, texts};
use crate::case_file::Line;
use crate::element;
use crate::instruction::Step;
use crate::pointers::Pointers;
use crate::texts::Texts;
use rowan::ast::AstNode;
use rowan::cursor::{SyntaxElement, SyntaxElementRef, SyntaxNode};
use rowan::script::element_at;
use rowan::{Fault, GreenNode, NodeOrToken};
use rowan_tool::sexp::{self, List};
use std::alloc::{AllocError, Global};
use std::collections::BTreeMap;

/// Where a case stands.
#[derive(Drop)]
pub struct Standing {
    /// The current cursor.
    pub here: SyntaxElement,
    /// Where borrowed cursors start.
    pub start: Start,
    /// The cursors that are kept, by the numbers of their slots.
    kept: BTreeMap<u32, SyntaxElement>,
    texts: Texts,
    pointers: Pointers,
}

impl Standing {
    /// At the root of a tree, with nothing kept.
    pub fn new(alloc: Global, root: GreenNode) -> Result<Standing, Fault> {
        let root = SyntaxNode::new_root(alloc, root)?;
        Ok(Standing {
            here: NodeOrToken::Node(root),
            start: Start::Here,
            kept: BTreeMap::new(alloc),
            texts: Texts::new(alloc),
            pointers: Pointers::new(alloc),
        })
    }

    /// Answers the step of a line by borrowed cursors and by owned ones, and goes where the owned
    /// ones lead. Refused only for want of memory.
    pub fn answer_line<'a>(
        &mut self,
        alloc: Global,
        line: &Line,
        step: &Step,
    ) -> Result<Answered<'a>, Fault> {
        let by_refs = self.answer_by_refs(alloc, step)?;
        let answer = self.answer(alloc, step)?;
        Ok(line.with_answers(answer, by_refs))
    }

    /// What borrowed cursors answer, if they have the call.
    fn answer_by_refs(&self, alloc: Global, step: &Step) -> Result<Option<String>, Fault> {
        match step {
            Step::Same(slot) => written(self.compare_by_refs(*slot).text(alloc)),
            Step::Slice(slice) => self.texts.slice_by_ref(alloc, *slice).map(Some),
            Step::Ask(question) => self.texts.ask_by_ref(alloc, question).map(Some),
            Step::EqText(slot) => written(self.texts.compare_by_refs(*slot).text(alloc)),
            _ => read_by_refs(alloc, self.start.by(&self.here), step),
        }
    }

    /// Answers a step by owned cursors, and goes where it leads.
    fn answer<'a>(&mut self, alloc: Global, step: &Step) -> Result<Answer<'a>, Fault> {
        match step {
            Step::Astray => Ok(self.go_astray()),
            Step::GreenChildAt(range) => element::search(&self.here, *range),
            Step::GreenEdit(edit) => Ok(element::edit(&self.here, edit)),
            Step::ElementAt(path) => self.go_down(path.as_slice()),
            Step::CloneSubtree => self.clone_subtree(),
            Step::Listing(listing) => element::list(alloc, &self.here, *listing),
            Step::Save(slot) => self.save(*slot),
            Step::Load(slot) => self.load(*slot),
            Step::Same(slot) => Ok(self.compare(*slot)),
            Step::TokenAt(offset) => element::tokens_at(&self.here, *offset),
            Step::Walk(walk) => element::walk(alloc, &self.here, walk),
            Step::Text => self.texts.read(&self.here),
            Step::Slice(slice) => self.texts.slice(*slice),
            Step::Ask(question) => self.texts.ask(alloc, question),
            Step::KeepText(slot) => self.texts.keep(*slot),
            Step::EqText(slot) => Ok(self.texts.compare(*slot)),
            Step::Pointer(step) => self.pointers.answer(&self.here, *step),
            Step::Support(support) => element::support(alloc, &self.here, *support),
            Step::Eval => element::eval(&self.here),
            Step::ReparseList(text) => self.reparse(alloc, text.as_str()),
            Step::DebugTree => element::debug_tree(alloc, &self.here),
            Step::DebugLine => element::debug_line(alloc, &self.here),
            Step::Json => element::json(alloc, &self.here),
        }
    }

    fn go_astray<'a>(&mut self) -> Answer<'a> {
        self.start = Start::TreeTop;
        Answer::Astray
    }

    fn go_down<'a>(&mut self, path: &[usize]) -> Result<Answer<'a>, Fault> {
        let NodeOrToken::Node(node) = &self.here else {
            return Ok(Answer::Nowhere);
        };
        match element_at(node, path)? {
            Some(found) => self.go_to(found),
            None => Ok(Answer::Nowhere),
        }
    }

    fn clone_subtree<'a>(&mut self) -> Result<Answer<'a>, Fault> {
        let NodeOrToken::Node(node) = &self.here else {
            return Ok(Answer::Nowhere);
        };
        let root = node.clone_subtree()?;
        self.go_to(NodeOrToken::Node(root))
    }

    fn reparse<'a>(&mut self, alloc: Global, text: &str) -> Result<Answer<'a>, Fault> {
        let NodeOrToken::Node(node) = &self.here else {
            return Ok(Answer::Nowhere);
        };
        let Some(list) = List::cast(rowan::SyntaxNode::from(node.clone()?)) else {
            return Ok(Answer::Nowhere);
        };
        match sexp::reparse_list(alloc, &list, text) {
            Ok(green) => {
                let root = SyntaxNode::new_root(alloc, green)?;
                self.here = NodeOrToken::Node(root.clone()?);
                Ok(Answer::Replaced(root))
            }
            Err(fault) => Ok(Answer::Refused(fault)),
        }
    }

    fn go_to<'a>(&mut self, found: SyntaxElement) -> Result<Answer<'a>, Fault> {
        self.here = found.clone()?;
        Ok(Answer::Moved(found))
    }

    fn save<'a>(&mut self, slot: u32) -> Result<Answer<'a>, Fault> {
        let here = self.here.clone()?;
        self.kept.insert(slot, here)?;
        Ok(Answer::Saved)
    }

    fn load<'a>(&mut self, slot: u32) -> Result<Answer<'a>, Fault> {
        let Some(kept) = self.kept.get(&slot) else {
            return Ok(Answer::Nowhere);
        };
        let kept = kept.clone()?;
        self.go_to(kept)
    }

    fn compare<'a>(&self, slot: u32) -> Answer<'a> {
        match self.kept.get(&slot) {
            Some(kept) => Answer::equality(self.here == *kept),
            None => Answer::Nowhere,
        }
    }

    fn compare_by_refs<'a>(&self, slot: u32) -> Answer<'a> {
        match self.kept.get(&slot) {
            Some(kept) => { Answer::equality(self.start.by(&self.here) == Start::Here.by(kept)) }
            None => Answer::Nowhere,
        }
    }
}

/// What a step that only looks answers by borrowed cursors, if it is such a step.
fn read_by_refs(
    alloc: Global,
    from: SyntaxElementRef<'_>,
    step: &Step,
) -> Result<Option<String>, Fault> {
    match step {
        Step::ElementAt(path) => written(moves::element_at(alloc, from, path.as_slice())),
        Step::CloneSubtree => moves::clone_subtree(alloc, from).map(Some),
        Step::Listing(listing) => written(lists::list(alloc, from, *listing)),
        Step::TokenAt(offset) => written(moves::tokens(alloc, from, *offset)),
        Step::Walk(walk) => written(lists::walk(alloc, from, walk)),
        Step::Text => texts::read(alloc, from).map(Some),
        _ => Ok(None),
    }
}

/// A text that there is, where there was memory for it.
fn written(text: Result<String, AllocError>) -> Result<Option<String>, Fault> {
    Ok(Some(text?))
}
