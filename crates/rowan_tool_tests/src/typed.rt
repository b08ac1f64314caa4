//! Typed cursors beside the raw ones, over the language in which even and odd raw kinds mean one
//! kind each.
//!
//! A call that may be refused is run on the elements of a tree, and its answer is compared with
//! that of the raw call. A refused call counts as another answer, so no function here ends early
//! while it holds a cursor.
mod changes;
mod lists;
mod moves;
mod refs;
mod values;
mod walks;

use crate::language::Numbers;
use crate::parts::Part::{self, Close, Leaf, Open};
use crate::parts::tree;
use rowan::{Fault, TypedElementCalls, cursor};
use rowan_moves::{MOVES, Move};
use std::alloc::Global;
use std::test::Fail;

type Node = rowan::SyntaxNode<Numbers>;

type Token = rowan::SyntaxToken<Numbers>;

type Element = rowan::SyntaxElement<Numbers>;

/// Five nodes and five tokens, in which no raw kind comes twice.
const PARTS: [Part; 15] = [
    Open(2),
    Open(4),
    Leaf(7, "a"),
    Close,
    Leaf(8, "b"),
    Open(5),
    Leaf(10, "c"),
    Open(12),
    Leaf(11, "d"),
    Close,
    Close,
    Leaf(9, "e"),
    Open(6),
    Close,
    Close,
];

/// The raw root of the tree.
fn root_of(alloc: Global) -> Result<cursor::SyntaxNode, Fault> {
    cursor::SyntaxNode::new_root(alloc, tree(alloc, &PARTS)?)
}

/// All elements of the tree.
fn elements(alloc: Global) -> Result<Vec<cursor::SyntaxElement>, Fault> {
    root_of(alloc)?.descendants_with_tokens().try_collect(alloc)
}

/// The typed elements of raw ones.
fn typed_elements(alloc: Global, raw: &[cursor::SyntaxElement]) -> Result<Vec<Element>, Fault> {
    let mut typed = Vec::new(alloc);
    for element in raw {
        typed.push(Element::from_raw(element.clone()?))?;
    }
    Ok(typed)
}

/// Whether a typed node is the raw one.
fn is_node(typed: Node, raw: cursor::SyntaxNode) -> bool {
    cursor::SyntaxNode::from(typed) == raw
}

/// Whether a typed element is the raw one.
fn is_element(typed: Element, raw: cursor::SyntaxElement) -> bool {
    typed.into_raw() == raw
}

/// Whether a typed answer is the raw one.
fn is_found(
    typed: Result<Option<Element>, Fault>,
    raw: Result<Option<cursor::SyntaxElement>, Fault>,
) -> bool {
    match typed {
        Ok(typed) => raw == Ok(typed.map(Element::into_raw)),
        Err(_) => false,
    }
}

/// How many typed answers are the raw ones, and how many are not.
#[derive(Clone, Copy)]
struct Answers {
    same: usize,
    other: usize,
}

impl Answers {
    fn new() -> Answers {
        Answers { same: 0, other: 0 }
    }

    /// Whether there are so many answers, all the same.
    fn are_all_same(&self, count: usize) -> bool {
        self.same == count && self.other == 0
    }

    fn add(&mut self, is_same: bool) {
        if is_same {
            self.same = self.same.saturating_add(1);
        } else {
            self.other = self.other.saturating_add(1);
        }
    }
}

/// What is asked of a typed and of a raw element.
#[derive(Clone, Copy)]
enum Question {
    /// The kind, the range and the index.
    Values,
    /// The green node, the text and a copy of the subtree, or the green token, the text and
    /// what a raw copy becomes.
    OwnValues,
    Move(Move),
    /// The moves that elements have.
    MovesOfElement,
    Searches,
    ListsOfNodes,
    /// Lists of elements from a node, and from a token the siblings and the ancestors.
    ListsOfElements,
    /// What a copy of a list gives once its first child was taken.
    RestOfChildren,
    Ancestors,
    /// What the borrowed typed element shows, beside the owned one.
    Borrowed,
}

/// The questions by name, with the number of answers that each has in all.
const QUESTIONS: [(&str, Question, usize); 9] = [
    ("values", Question::Values, 10),
    ("own values", Question::OwnValues, 5 * 3 + 5 * 3),
    ("moves of elements", Question::MovesOfElement, 10 * 4),
    ("searches", Question::Searches, 5 * 6),
    ("lists of nodes", Question::ListsOfNodes, 5 * 3 + 4 + 10 + 8),
    (
        "lists of elements",
        Question::ListsOfElements,
        5 * 3 + 9 + 19 + 11 + 5 * 2 + 9 + 9,
    ),
    ("rest of children", Question::RestOfChildren, 5 + 5),
    ("ancestors", Question::Ancestors, 29),
    ("borrowed", Question::Borrowed, 10 * 3),
];

/// Adds the answers of an element to one question.
fn add_answers(
    alloc: Global,
    answers: &mut Answers,
    question: Question,
    typed: &Element,
    raw: &cursor::SyntaxElement,
) {
    match question {
        Question::Values => answers.add(values::are_same(typed, raw)),
        Question::OwnValues => values::add_own(answers, typed, raw),
        Question::Move(way) => answers.add(moves::is_same(way, typed, raw)),
        Question::MovesOfElement => moves::add_of_element(answers, typed, raw),
        Question::Searches => moves::add_searches(answers, typed, raw),
        Question::ListsOfNodes => lists::add_of_nodes(alloc, answers, typed, raw),
        Question::ListsOfElements => lists::add_of_elements(alloc, answers, typed, raw),
        Question::RestOfChildren => lists::add_rest(alloc, answers, typed, raw),
        Question::Ancestors => lists::add_ancestors(alloc, answers, typed, raw),
        Question::Borrowed => refs::add_shown(alloc, answers, typed),
    }
}

/// The answers of all elements to one question.
fn answers_of(
    alloc: Global,
    question: Question,
    typed: &[Element],
    raw: &[cursor::SyntaxElement],
) -> Answers {
    let mut answers = Answers::new();
    for (typed, raw) in typed.iter().zip(raw) {
        add_answers(alloc, &mut answers, question, typed, raw);
    }
    answers
}

/// Whether a move leads anywhere from one of these elements.
fn leads(way: Move, from: &[cursor::SyntaxElement]) -> bool {
    from.iter().any(|element| moves::leads(way, element))
}

#[test]
fn typed_answers_are_the_raw_ones(rt: HostRuntime) -> Result<(), Fail> {
    let raw = elements(rt.alloc())?;
    let typed = typed_elements(rt.alloc(), raw.as_slice())?;
    for (name, question, count) in QUESTIONS {
        let answers = answers_of(rt.alloc(), question, typed.as_slice(), raw.as_slice());
        assert!(rt; answers.are_all_same(count), "{name}");
    }
    for way in MOVES {
        let question = Question::Move(way);
        let answers = answers_of(rt.alloc(), question, typed.as_slice(), raw.as_slice());
        assert!(rt;
            answers.are_all_same(10) && leads(way, raw.as_slice()),
            "{}",
            way.name()
        );
    }
    Ok(())
}
