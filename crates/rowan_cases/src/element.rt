//! What is asked of the element where a case stands.

use crate::answer::Answer;
use crate::instruction::{Edit, Listing, Support, Walk};
use rowan::ast::{AstNode, support};
use rowan::cursor::SyntaxElement;
use rowan::{Fault, NodeOrToken, Steps, SyntaxNode, SyntaxToken, TextRange, TextSize};
use rowan_tool::sexp::{Lang, Sexp};
use std::alloc::Global;

/// Searches the children of the green node.
pub fn search<'a>(element: &SyntaxElement, range: TextRange) -> Result<Answer<'a>, Fault> {
    let NodeOrToken::Node(node) = element else {
        return Ok(Answer::Nowhere);
    };
    match node.green().child_at_range(range, &mut Steps::new()) {
        Some((index, offset, child)) => Ok(Answer::Child(index, offset, child.to_owned()?)),
        None => Ok(Answer::Nowhere),
    }
}

/// Edits the green node.
pub fn edit<'a>(element: &SyntaxElement, edit: &Edit) -> Answer<'a> {
    let NodeOrToken::Node(node) = element else {
        return Answer::Nowhere;
    };
    match edit.make(node.green()) {
        Ok(Some(made)) => Answer::Green(made),
        Ok(None) => Answer::Nowhere,
        Err(fault) => Answer::Refused(fault),
    }
}

/// Lists elements around it.
pub fn list<'a>(
    alloc: Global,
    element: &SyntaxElement,
    listing: Listing,
) -> Result<Answer<'a>, Fault> {
    match listing.make(alloc, element)? {
        Some(elements) => Ok(Answer::Elements(elements)),
        None => Ok(Answer::Nowhere),
    }
}

/// Asks for the tokens at an offset.
pub fn tokens_at<'a>(element: &SyntaxElement, offset: TextSize) -> Result<Answer<'a>, Fault> {
    match element {
        NodeOrToken::Node(node) if node.text_range().contains_inclusive(offset) => {
            let tokens = node.token_at_offset(offset)?;
            Ok(Answer::Tokens(tokens.map(NodeOrToken::Token)))
        }
        _ => Ok(Answer::Nowhere),
    }
}

/// Walks through the node.
pub fn walk<'a>(alloc: Global, element: &SyntaxElement, walk: &Walk) -> Result<Answer<'a>, Fault> {
    match element {
        NodeOrToken::Node(node) => Ok(Answer::Events(walk.make(alloc, node)?)),
        NodeOrToken::Token(_) => Ok(Answer::Nowhere),
    }
}

/// Asks for children of the node.
pub fn support<'a>(
    alloc: Global,
    element: &SyntaxElement,
    support: Support,
) -> Result<Answer<'a>, Fault> {
    let NodeOrToken::Node(node) = element else {
        return Ok(Answer::Nowhere);
    };
    let parent: SyntaxNode<Lang> = SyntaxNode::from(node.clone()?);
    match support {
        Support::Child(wrapper) => Ok(element_or_nowhere(wrapper.child(&parent)?)),
        Support::Children(wrapper) => Ok(Answer::Elements(wrapper.children(alloc, &parent)?)),
        Support::Token(kind) => {
            let token = support::token(&parent, kind)?;
            Ok(element_or_nowhere(token.map(|token| NodeOrToken::Token(token.into()))))
        }
    }
}

fn element_or_nowhere<'a>(element: Option<SyntaxElement>) -> Answer<'a> {
    match element {
        Some(element) => Answer::Element(element),
        None => Answer::Nowhere,
    }
}

/// Asks for the number that an expression reads.
pub fn eval<'a>(element: &SyntaxElement) -> Result<Answer<'a>, Fault> {
    let NodeOrToken::Node(node) = element else {
        return Ok(Answer::Nowhere);
    };
    match Sexp::cast(SyntaxNode::from(node.clone()?)) {
        Some(sexp) => Ok(Answer::Value(sexp.eval()?)),
        None => Ok(Answer::Nowhere),
    }
}

/// Prints the line of the element.
pub fn debug_line<'a>(alloc: Global, element: &SyntaxElement) -> Result<Answer<'a>, Fault> {
    let line = match element {
        NodeOrToken::Node(node) => {
            let node: SyntaxNode<Lang> = SyntaxNode::from(node.clone()?);
            node.debug_line(alloc)?
        }
        NodeOrToken::Token(token) => {
            let token: SyntaxToken<Lang> = SyntaxToken::from(token.clone()?);
            token.debug_line(alloc)?
        }
    };
    Ok(Answer::Line(line))
}

/// Makes the JSON value of the element.
pub fn json<'a>(alloc: Global, element: &SyntaxElement) -> Result<Answer<'a>, Fault> {
    let value = match element {
        NodeOrToken::Node(node) => {
            let node: SyntaxNode<Lang> = SyntaxNode::from(node.clone()?);
            node.to_json(alloc)?
        }
        NodeOrToken::Token(token) => {
            let token: SyntaxToken<Lang> = SyntaxToken::from(token.clone()?);
            token.to_json(alloc)?
        }
    };
    Ok(Answer::Json(value.to_string(alloc)?))
}

/// Prints the node and all that is in it.
pub fn debug_tree<'a>(alloc: Global, element: &SyntaxElement) -> Result<Answer<'a>, Fault> {
    let NodeOrToken::Node(node) = element else {
        return Ok(Answer::Nowhere);
    };
    let node: SyntaxNode<Lang> = SyntaxNode::from(node.clone()?);
    Ok(Answer::Lines(node.debug_tree(alloc)?))
}
