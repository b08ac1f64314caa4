//! Trees as tables: filling one, a walk through all of it, and random moves.

use crate::draws::Draws;
use crate::{borrowed, tree_cursors};
use anyhow::Result;
use rowan::cursor::{ElementCalls, SyntaxElement, SyntaxNode};
use rowan::{Fault, GreenNode, NodeOrToken, TextSize};
use std::alloc::{AllocError, Global};
use std::time::{Duration, Instant};

/// How many moves are made in one turn.
const MOVES: usize = 1_000_000;

/// What is timed, in each of many turns.
#[derive(Clone, Copy)]
pub enum Operation {
    /// A cursor at the root is made, and is dropped after its time was taken.
    Fill,
    /// A cursor at the root is made, one walk goes from it, and all is dropped.
    Whole,
    /// A walk goes from a root that is there.
    Walk,
    /// Moves are made from a root that is there, between nodes and tokens.
    Move,
    /// Moves are made from a root that is there, between nodes.
    Nodes,
    /// The same walk by borrowed cursors.
    WalkByRefs,
    /// All nodes and tokens by loops over the borrowed children of each node.
    LoopsByRefs,
    /// The same walk by a cursor that costs no table.
    TreeWalk,
    /// The moves between nodes and tokens by borrowed cursors.
    MoveByRefs,
    /// The moves between nodes by borrowed cursors.
    NodesByRefs,
}

impl Operation {
    /// The operation of that name.
    pub fn from_word(word: &str) -> Option<Operation> {
        match word {
            "fill" => Some(Operation::Fill),
            "whole" => Some(Operation::Whole),
            "walk" => Some(Operation::Walk),
            "move" => Some(Operation::Move),
            "nodes" => Some(Operation::Nodes),
            "tree_walk" => Some(Operation::TreeWalk),
            "walk_by_refs" => Some(Operation::WalkByRefs),
            "loops_by_refs" => Some(Operation::LoopsByRefs),
            "move_by_refs" => Some(Operation::MoveByRefs),
            "nodes_by_refs" => Some(Operation::NodesByRefs),
            _ => None,
        }
    }
}

/// What a turn went through: how many places, and where the text of the last one starts.
#[derive(Clone, Copy)]
pub struct Visited {
    pub places: u64,
    pub last: TextSize,
}

/// One of the moves that are drawn.
#[derive(Clone, Copy)]
pub enum Move {
    Parent,
    FirstChild,
    LastChild,
    Next,
    Previous,
}

impl Move {
    /// The move of a draw below 5.
    fn from_draw(draw: usize) -> Move {
        match draw {
            0 => Move::Parent,
            1 => Move::FirstChild,
            2 => Move::LastChild,
            3 => Move::Next,
            _ => Move::Previous,
        }
    }

    /// Where it leads, if anywhere.
    fn from_place(self, place: &SyntaxElement) -> Result<Option<SyntaxElement>, Fault> {
        match (self, place) {
            (Move::Parent, _) => Ok(place.parent()?.map(SyntaxElement::from)),
            (Move::FirstChild, NodeOrToken::Node(node)) => node.first_child_or_token(),
            (Move::LastChild, NodeOrToken::Node(node)) => node.last_child_or_token(),
            (Move::FirstChild | Move::LastChild, NodeOrToken::Token(_)) => Ok(None),
            (Move::Next, _) => place.next_sibling_or_token(),
            (Move::Previous, _) => place.prev_sibling_or_token(),
        }
    }
}

/// The moves of a turn.
fn drawn_moves(alloc: Global) -> Result<Vec<Move>, AllocError> {
    let mut draws = Draws::new();
    let mut moves = Vec::with_capacity(alloc, MOVES)?;
    for _ in 0..MOVES {
        moves.push(Move::from_draw(draws.below(5)))?;
    }
    Ok(moves)
}

/// Makes the moves one after the other. Where one leads nowhere the cursor stays.
fn make_moves(root: &SyntaxNode, moves: &[Move]) -> Result<Visited, Fault> {
    let mut places: u64 = 1;
    let mut place = SyntaxElement::from(root.clone()?);
    for to in moves {
        if let Some(next) = to.from_place(&place)? {
            place = next;
            places = places.wrapping_add(1);
        }
    }
    let last = place.text_range().start();
    Ok(Visited { places, last })
}

/// One of the moves between nodes that are drawn.
#[derive(Clone, Copy)]
pub enum NodeMove {
    Parent,
    NextSibling,
    FirstChild,
}

impl NodeMove {
    /// The move of a draw below 3.
    fn from_draw(draw: usize) -> NodeMove {
        match draw {
            0 => NodeMove::Parent,
            1 => NodeMove::NextSibling,
            _ => NodeMove::FirstChild,
        }
    }

    /// Where it leads, if anywhere.
    fn from_node(self, node: &SyntaxNode) -> Result<Option<SyntaxNode>, Fault> {
        match self {
            NodeMove::Parent => node.parent(),
            NodeMove::NextSibling => node.next_sibling(),
            NodeMove::FirstChild => node.first_child(),
        }
    }
}

/// The moves of a turn between nodes.
fn drawn_node_moves(alloc: Global) -> Result<Vec<NodeMove>, AllocError> {
    let mut draws = Draws::new();
    let mut moves = Vec::with_capacity(alloc, MOVES)?;
    for _ in 0..MOVES {
        moves.push(NodeMove::from_draw(draws.below(3)))?;
    }
    Ok(moves)
}

/// Makes the moves between nodes one after the other. Where one leads nowhere the cursor stays.
fn make_node_moves(root: &SyntaxNode, moves: &[NodeMove]) -> Result<Visited, Fault> {
    let mut places: u64 = 1;
    let mut node = root.clone()?;
    for to in moves {
        if let Some(next) = to.from_node(&node)? {
            node = next;
            places = places.wrapping_add(1);
        }
    }
    let last = node.text_range().start();
    Ok(Visited { places, last })
}

/// Walks from a root to each node and token, from parent to first child, and from sibling to sibling.
fn walk(root: &SyntaxNode) -> Result<Visited, Fault> {
    let mut places: u64 = 0;
    let mut place = SyntaxElement::from(root.clone()?);
    for _ in 0..u64::MAX {
        places = places.wrapping_add(1);
        match next_of(&place)? {
            Some(next) => place = next,
            None => break,
        }
    }
    let last = place.text_range().start();
    Ok(Visited { places, last })
}

/// The place behind another one in the order of the text, where a node stands before its children.
fn next_of(place: &SyntaxElement) -> Result<Option<SyntaxElement>, Fault> {
    if let NodeOrToken::Node(node) = place {
        if let Some(child) = node.first_child_or_token()? {
            return Ok(Some(child));
        }
    }
    if let Some(next) = place.next_sibling_or_token()? {
        return Ok(Some(next));
    }
    let mut above = place.parent()?;
    for _ in 0..u64::MAX {
        let Some(node) = above else {
            return Ok(None);
        };
        if let Some(next) = node.next_sibling_or_token()? {
            return Ok(Some(next));
        }
        above = node.parent()?;
    }
    Ok(None)
}

/// What a turn of an operation needs, which is made before the time is taken.
#[derive(Drop)]
enum Turn {
    Fill,
    Whole,
    TreeWalk,
    Walk(SyntaxNode),
    Move(SyntaxNode, Vec<Move>),
    Nodes(SyntaxNode, Vec<NodeMove>),
    WalkByRefs(SyntaxNode),
    LoopsByRefs(SyntaxNode),
    MoveByRefs(SyntaxNode, Vec<Move>),
    NodesByRefs(SyntaxNode, Vec<NodeMove>),
}

/// What a turn made.
#[derive(Drop)]
enum Made {
    Root(SyntaxNode),
    Visited(Visited),
}

impl Turn {
    fn new(alloc: Global, green: &GreenNode, operation: Operation) -> Result<Turn, Fault> {
        match operation {
            Operation::Fill => return Ok(Turn::Fill),
            Operation::Whole => return Ok(Turn::Whole),
            Operation::TreeWalk => return Ok(Turn::TreeWalk),
            _ => (),
        }
        let root = root_of(alloc, green)?;
        match operation {
            Operation::Move => Ok(Turn::Move(root, drawn_moves(alloc)?)),
            Operation::Nodes => Ok(Turn::Nodes(root, drawn_node_moves(alloc)?)),
            Operation::WalkByRefs => Ok(Turn::WalkByRefs(root)),
            Operation::LoopsByRefs => Ok(Turn::LoopsByRefs(root)),
            Operation::MoveByRefs => Ok(Turn::MoveByRefs(root, drawn_moves(alloc)?)),
            Operation::NodesByRefs => Ok(Turn::NodesByRefs(root, drawn_node_moves(alloc)?)),
            _ => Ok(Turn::Walk(root)),
        }
    }

    fn take(&self, alloc: Global, green: &GreenNode) -> Result<Made, Fault> {
        match self {
            Turn::Fill => Ok(Made::Root(root_of(alloc, green)?)),
            Turn::Whole => Ok(Made::Visited(walk(&root_of(alloc, green)?)?)),
            Turn::TreeWalk => Ok(Made::Visited(tree_cursors::walk(alloc, green)?)),
            Turn::Walk(root) => Ok(Made::Visited(walk(root)?)),
            Turn::Move(root, moves) => Ok(Made::Visited(make_moves(root, moves.as_slice())?)),
            Turn::Nodes(root, moves) => Ok(Made::Visited(make_node_moves(root, moves.as_slice())?)),
            Turn::WalkByRefs(root) => Ok(Made::Visited(borrowed::walk(root.as_ref()))),
            Turn::LoopsByRefs(root) => Ok(Made::Visited(borrowed::loops(root.as_ref()))),
            Turn::MoveByRefs(root, moves) => {
                Ok(Made::Visited(borrowed::make_moves(root.as_ref(), moves.as_slice())))
            }
            Turn::NodesByRefs(root, moves) => {
                Ok(Made::Visited(borrowed::make_node_moves(root.as_ref(), moves.as_slice())))
            }
        }
    }
}

/// A cursor at the root of a tree.
fn root_of(alloc: Global, green: &GreenNode) -> Result<SyntaxNode, Fault> {
    SyntaxNode::new_root(alloc, green.clone()?)
}

/// Times an operation, and answers the time of all turns and what the last one visited. What a turn makes is dropped after its
/// time was taken.
pub fn time(
    rt: &HostRuntime,
    green: &GreenNode,
    operation: Operation,
    turns: usize,
) -> Result<(Duration, Option<Visited>)> {
    let turn = Turn::new(rt.alloc(), green, operation)?;
    let mut total = Duration::ZERO;
    let mut visited = None;
    for _ in 0..turns {
        let start = Instant::now(rt)?;
        let made = turn.take(rt.alloc(), green)?;
        total = total.saturating_add(start.elapsed(rt)?);
        if let Made::Visited(places) = &made {
            visited = Some(*places);
        }
    }
    Ok((total, visited))
}
