//! The walks through a node, call by call.

use anyhow::{Result, bail};
use rowan::cursor::{SyntaxElement, SyntaxNode};
use rowan::{Fault, NodeOrToken, WalkEvent};
use std::alloc::Global;

/// A call of a walk.
#[derive(Clone, Copy)]
pub enum WalkCall {
    Next,
    SkipSubtree,
}

/// What `next` answers: `None` at the end of the walk.
pub type Event = Option<WalkEvent<SyntaxElement>>;

/// A walk by these calls. Behind them `next` is called up to the end.
#[derive(Drop)]
pub enum Walk {
    /// Through nodes alone.
    Nodes(Vec<WalkCall>),
    WithTokens(Vec<WalkCall>),
}

impl Walk {
    /// The answers of all calls of `next`, in order.
    pub fn make(&self, alloc: Global, node: &SyntaxNode) -> Result<Vec<Event>, Fault> {
        match self {
            Walk::Nodes(calls) => node_events(alloc, node, calls.as_slice()),
            Walk::WithTokens(calls) => events(alloc, node, calls.as_slice()),
        }
    }
}

/// Reads the calls of a pattern, a letter for each; `-` is the empty pattern.
pub fn calls(alloc: Global, pattern: &str) -> Result<Vec<WalkCall>> {
    let mut calls = Vec::new(alloc);
    if pattern == "-" {
        return Ok(calls);
    }
    for letter in pattern.chars() {
        calls.push(match letter {
            'n' => WalkCall::Next,
            's' => WalkCall::SkipSubtree,
            _ => bail!("`{letter}` is no call of a walk"),
        })?;
    }
    Ok(calls)
}

fn node_events(alloc: Global, node: &SyntaxNode, calls: &[WalkCall]) -> Result<Vec<Event>, Fault> {
    let mut events = Vec::new(alloc);
    let mut walk = node.preorder();
    for call in calls {
        match call {
            WalkCall::Next => {
                let event = walk.next().transpose()?;
                events.push(event.map(|event| event.map(NodeOrToken::Node)))?;
            }
            WalkCall::SkipSubtree => walk.skip_subtree(),
        }
    }
    for event in walk {
        events.push(Some(event?.map(NodeOrToken::Node)))?;
    }
    events.push(None)?;
    Ok(events)
}

fn events(alloc: Global, node: &SyntaxNode, calls: &[WalkCall]) -> Result<Vec<Event>, Fault> {
    let mut events = Vec::new(alloc);
    let mut walk = node.preorder_with_tokens();
    for call in calls {
        match call {
            WalkCall::Next => events.push(walk.next().transpose()?)?,
            WalkCall::SkipSubtree => walk.skip_subtree(),
        }
    }
    for event in walk {
        events.push(Some(event?))?;
    }
    events.push(None)?;
    Ok(events)
}
