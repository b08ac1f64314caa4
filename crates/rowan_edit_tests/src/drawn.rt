//! Drawn lists of edits: each new tree and its text beside plain models. That of the text has the
//! old text and the ranges of the accepted edits, found by hand.
use crate::fixture::{LIST, new_word, range, tree, words};
use crate::plain::Plain;
use rowan::{Fault, GreenNode, NodeOrToken};
use rowan_edit::{Change, Changes, Edited, GreenEditor, Refusal, TextEdit};
use std::alloc::Global;
use std::test::Fail;

const TEXT: &str = "abcdefgabcde";

const TEXT_LEN: u32 = 12;

/// The path of a node of the tree, and the offsets of the borders between its children and of both
/// its ends.
type Borders = (&'static [usize], &'static [u32]);

const NODES: [Borders; 7] = [
    (&[], &[0, 5, 7, 12]),
    (&[0], &[0, 1, 4, 4, 5]),
    (&[0, 1], &[1, 2, 2, 4]),
    (&[0, 1, 1], &[2]),
    (&[2], &[7, 8, 11, 11, 12]),
    (&[2, 1], &[8, 9, 9, 11]),
    (&[2, 1, 1], &[9]),
];

/// What comes in place of children.
const WORDS: [&[&str]; 6] = [&[], &[""], &["x"], &["", "yz"], &["v", "w"], &["123"]];

/// Indexes of children. No node has a child at the last one.
const ORDERS: [&[usize]; 8] = [
    &[],
    &[0],
    &[1, 0],
    &[2, 1, 0],
    &[0, 0],
    &[2, 0, 1],
    &[3, 2, 1, 0],
    &[0, 4],
];

/// Numbers that look random, the same ones in each run.
#[derive(Drop)]
pub struct Draws {
    pub state: u64,
}

impl Draws {
    pub fn below(&mut self, bound: usize) -> usize {
        self.state = self
            .state
            .wrapping_mul(6_364_136_223_846_793_005)
            .wrapping_add(1_442_695_040_888_963_407);
        ((self.state >> 33) as usize)
            .checked_rem(bound)
            .unwrap_or(0)
    }
}

/// What a step puts in place of children of a node: words, or those of its children that stand at
/// these indexes.
#[derive(Clone, Copy)]
pub enum Instead {
    Words(&'static [&'static str]),
    Order(&'static [usize]),
}

impl Instead {
    fn texts(self) -> &'static [&'static str] {
        match self {
            Instead::Words(texts) => texts,
            Instead::Order(_) => &[],
        }
    }
}

/// A step: which children of a node give way, where it stands among others, its range in the old
/// text, and what comes there.
#[derive(Clone, Copy)]
pub struct Step {
    pub path: &'static [usize],
    pub first: usize,
    pub last: usize,
    place: usize,
    start: u32,
    end: u32,
    pub instead: Instead,
}

/// A word, or else a tree.
const CHILDREN: [Option<&str>; 3] = [None, Some("fg"), None];

/// `LIST[tree "fg" tree]`
pub fn list(alloc: Global) -> Result<GreenNode, Fault> {
    let mut children = Vec::new(alloc);
    for text in CHILDREN {
        let child = match text {
            Some(text) => new_word(alloc, text),
            None => tree(alloc).map(NodeOrToken::Node),
        };
        children.push(child?)?;
    }
    GreenNode::new(alloc, LIST, children)
}

/// The indexes on the way to a step, where it starts and where it ends, as the digits of a number:
/// steps in the order of these numbers are in that of their places.
fn place(path: &[usize], start: usize, end: usize) -> usize {
    let mut number: usize = 0;
    for depth in 0..5 {
        let digit = match path.get(depth) {
            Some(index) => index.wrapping_add(1),
            None if depth == path.len() => start.wrapping_add(1),
            None => 0,
        };
        number = number.wrapping_mul(8).wrapping_add(digit);
    }
    number.wrapping_mul(8).wrapping_add(end)
}

fn step_at(node: Borders, first: usize, last: usize, instead: Instead) -> Option<Step> {
    let (path, borders) = node;
    match (borders.get(first), borders.get(last)) {
        (Some(start), Some(end)) => Some(Step {
            path,
            first,
            last,
            place: place(path, first, last),
            start: *start,
            end: *end,
            instead,
        }),
        _ => None,
    }
}

/// Draws words in place of children of a node.
pub fn draw_words(draws: &mut Draws) -> Option<Step> {
    let Some(node) = NODES.get(draws.below(NODES.len())) else {
        return None;
    };
    let count = node.1.len();
    let first = draws.below(count);
    let last = first.wrapping_add(draws.below(count.wrapping_sub(first)));
    match WORDS.get(draws.below(WORDS.len())) {
        Some(words) => step_at(*node, first, last, Instead::Words(*words)),
        None => None,
    }
}

/// Draws another order of the children of a node.
pub fn draw_order(draws: &mut Draws) -> Option<Step> {
    let Some(node) = NODES.get(draws.below(NODES.len())) else {
        return None;
    };
    let count = node.1.len().saturating_sub(1);
    match ORDERS.get(draws.below(ORDERS.len())) {
        Some(indexes) => step_at(*node, 0, count, Instead::Order(*indexes)),
        None => None,
    }
}

/// Puts a step among others in the order of their places, behind those in the same place.
pub fn keep(kept: &mut Vec<Step>, step: Step) -> Result<(), Fault> {
    let index = kept.partition_point(|other| other.place <= step.place);
    kept.insert(index, step)?;
    Ok(())
}

/// Draws an edit, and keeps it where the editor takes it.
fn draw(
    alloc: Global,
    draws: &mut Draws,
    editor: &mut GreenEditor,
    kept: &mut Vec<Step>,
) -> Result<(), Fault> {
    let Some(edit) = draw_words(draws) else {
        return Ok(());
    };
    let new = words(alloc, edit.instead.texts())?;
    match editor.splice(edit.path, edit.first..edit.last, new) {
        Ok(()) => keep(kept, edit),
        Err(Refusal::Conflict) => Ok(()),
        Err(_) => Err(Fault::NotFound),
    }
}

/// What a drawn list of edits makes of the tree.
fn draw_all(alloc: Global, draws: &mut Draws, kept: &mut Vec<Step>) -> Result<Edited, Fault> {
    let mut editor = GreenEditor::new(alloc, &list(alloc)?)?;
    for _ in 0..draws.below(7) {
        draw(alloc, draws, &mut editor, kept)?;
    }
    editor.finish()
}

/// The bytes of a new text, and for each the offset in the old text that it came from, if any.
#[derive(Drop)]
struct Model {
    bytes: Vec<(u8, Option<u32>)>,
}

impl Model {
    fn of(alloc: Global, kept: &[Step]) -> Result<Model, Fault> {
        let mut model = Model {
            bytes: Vec::new(alloc),
        };
        model.push_all(kept)?;
        Ok(model)
    }

    fn push_all(&mut self, kept: &[Step]) -> Result<(), Fault> {
        let mut at = 0;
        for edit in kept {
            self.push_old(at, edit.start)?;
            self.push_words(edit.instead.texts())?;
            at = edit.end;
        }
        self.push_old(at, TEXT_LEN)
    }

    fn push_old(&mut self, start: u32, end: u32) -> Result<(), Fault> {
        for offset in start..end {
            let Some(byte) = TEXT.as_bytes().get(offset as usize) else {
                return Ok(());
            };
            self.bytes.push((*byte, Some(offset)))?;
        }
        Ok(())
    }

    fn push_words(&mut self, words: &[&str]) -> Result<(), Fault> {
        for word in words {
            for byte in word.as_bytes() {
                self.bytes.push((*byte, None))?;
            }
        }
        Ok(())
    }

    fn is_text(&self, text: &[u8]) -> bool {
        for (new, byte) in self.bytes.iter().zip(text) {
            if new.0 != *byte {
                return false;
            }
        }
        self.bytes.len() == text.len()
    }

    /// Where the bytes from one offset of the old text to another stand side by side, and no edit
    /// was made between them; an edit may put no bytes.
    fn found(&self, kept: &[Step], start: u32, end: u32) -> Option<usize> {
        for edit in kept {
            if start < edit.start && edit.start < end {
                return None;
            }
        }
        let mut first = 0;
        let mut next = start;
        for (at, new) in self.bytes.iter().enumerate() {
            if next < end && new.1 == Some(next) {
                if next == start {
                    first = at;
                }
                next = next.wrapping_add(1);
            } else if start < next && next < end {
                return None;
            }
        }
        if next == end { Some(first) } else { None }
    }

    /// Whether each range with bytes is moved to where its bytes are.
    fn agrees(&self, kept: &[Step], changes: &Changes) -> bool {
        for start in 0..TEXT_LEN {
            for end in start + 1..TEXT_LEN + 1 {
                let moved = changes.moved(range(start, end));
                let same = match (self.found(kept, start, end), moved) {
                    (Some(at), Some(moved)) => {
                        u32::from(moved.start()) as usize == at
                            && u32::from(moved.len()) == end.wrapping_sub(start)
                    }
                    (None, None) => true,
                    _ => false,
                };
                if !same {
                    return false;
                }
            }
        }
        true
    }
}

/// Whether a text is that of words side by side.
fn is_joined(text: &str, words: &[&str]) -> bool {
    let mut rest = text;
    for word in words {
        match rest.strip_prefix(*word) {
            Some(after) => rest = after,
            None => return false,
        }
    }
    rest.is_empty()
}

/// Whether a change and an edit of the text are those of an edit.
fn is_of(change: Change, text_edit: &TextEdit, edit: Step) -> bool {
    change.range == text_edit.range
        && u32::from(change.range.start()) == edit.start
        && u32::from(change.range.end()) == edit.end
        && u32::from(change.new_len) as usize == text_edit.text.len()
        && is_joined(text_edit.text.as_str(), edit.instead.texts())
}

fn are_of(changes: &[Change], text_edits: &[TextEdit], kept: &[Step]) -> bool {
    for (index, edit) in kept.iter().enumerate() {
        let same = match (changes.get(index), text_edits.get(index)) {
            (Some(change), Some(text_edit)) => is_of(*change, text_edit, *edit),
            _ => false,
        };
        if !same {
            return false;
        }
    }
    changes.len() == kept.len() && text_edits.len() == kept.len()
}

/// Whether each change, and each edit of the text, is that of an edit.
fn changes_agree(alloc: Global, edited: &Edited, kept: &[Step]) -> bool {
    match edited.text_edits(alloc) {
        Ok(text_edits) => are_of(edited.changes.as_slice(), text_edits.as_slice(), kept),
        Err(_) => false,
    }
}

/// Whether the new text is that of the model, and each range is where the model has it.
fn text_agrees(alloc: Global, edited: &Edited, kept: &[Step]) -> Result<bool, Fault> {
    let model = Model::of(alloc, kept)?;
    if !model.agrees(kept, &edited.changes) {
        return Ok(false);
    }
    match edited.green.to_string(alloc) {
        Ok(text) => Ok(model.is_text(text.as_bytes())),
        Err(_) => Ok(false),
    }
}

/// Whether the new tree is that of the model, and each element is where the model has it.
fn tree_agrees(alloc: Global, edited: &Edited, kept: &[Step]) -> Result<bool, Fault> {
    let plain = Plain::made(alloc, kept)?;
    Ok(
        plain.is_shape_of(alloc, &edited.green)
            && plain.has_moved(alloc, edited)
            && plain.has_placed(edited, kept.len()),
    )
}

/// Whether a drawn list of edits does what the models do.
fn agrees(alloc: Global, draws: &mut Draws) -> Result<bool, Fault> {
    let mut kept = Vec::new(alloc);
    let edited = draw_all(alloc, draws, &mut kept)?;
    Ok(
        changes_agree(alloc, &edited, &kept)
            && text_agrees(alloc, &edited, &kept) == Ok(true)
            && tree_agrees(alloc, &edited, &kept) == Ok(true),
    )
}

#[test]
fn drawn_edits(rt: HostRuntime) -> Result<(), Fail> {
    let alloc = rt.alloc();
    let mut draws = Draws { state: 1 };
    for _ in 0..1000 {
        assert!(rt; agrees(alloc, &mut draws)?);
    }
    Ok(())
}
