//! The trees at which calls are made.
use rowan::{Fault, GreenElement, GreenNode, GreenToken, SyntaxKind, SyntaxNode};
use rowan_tool::sexp::Lang;
use std::alloc::Global;

pub const WORD: SyntaxKind = SyntaxKind(2);

const LIST: SyntaxKind = SyntaxKind(5);

const ATOM: SyntaxKind = SyntaxKind(6);

pub const ROOT: SyntaxKind = SyntaxKind(7);

/// The text of a token, unless it is empty.
pub const TEXT: &str = "word";

/// What a tree looks like.
#[derive(Clone, Copy)]
pub enum Shape {
    /// A root over nodes of one token each.
    Wide,
    /// A root over tokens.
    Flat,
    /// Lists in each other, each with a token before the next list.
    Deep,
    /// A root over a token of text, empty nodes, empty tokens, a token of text, and empty nodes.
    Empty,
    /// A root over one list of two tokens, again and again.
    Shared,
}

impl Shape {
    pub fn from_word(word: &str) -> Option<Shape> {
        match word {
            "wide" => Some(Shape::Wide),
            "flat" => Some(Shape::Flat),
            "deep" => Some(Shape::Deep),
            "empty" => Some(Shape::Empty),
            "shared" => Some(Shape::Shared),
            _ => None,
        }
    }
}

/// What a call is made at.
#[derive(Drop)]
pub struct Tree {
    pub alloc: Global,
    pub shape: Shape,
    pub size: usize,
    pub green: GreenNode,
    /// An equal tree that shares nothing with the other.
    pub twin: GreenNode,
    pub root: SyntaxNode<Lang>,
    pub twin_root: SyntaxNode<Lang>,
}

impl Tree {
    pub fn new(alloc: Global, shape: Shape, size: usize) -> Result<Tree, Fault> {
        let green = green(alloc, shape, size)?;
        let twin = self::green(alloc, shape, size)?;
        let root = SyntaxNode::new_root(alloc, green.clone()?)?;
        let twin_root = SyntaxNode::new_root(alloc, twin.clone()?)?;
        Ok(Tree {
            alloc,
            shape,
            size,
            green,
            twin,
            root,
            twin_root,
        })
    }
}

/// The tree of a shape and a size.
pub fn green(alloc: Global, shape: Shape, size: usize) -> Result<GreenNode, Fault> {
    let children = match shape {
        Shape::Wide => atoms(alloc, size)?,
        Shape::Flat => words(alloc, size)?,
        Shape::Deep => deep(alloc, size)?,
        Shape::Empty => empty(alloc, size)?,
        Shape::Shared => shared(alloc, size)?,
    };
    GreenNode::new(alloc, ROOT, children)
}

pub fn token(alloc: Global, text: &str) -> Result<GreenElement, Fault> {
    Ok(GreenElement::from(GreenToken::new(alloc, WORD, text)?))
}

fn node(
    alloc: Global,
    kind: SyntaxKind,
    children: Vec<GreenElement>,
) -> Result<GreenElement, Fault> {
    Ok(GreenElement::from(GreenNode::new(alloc, kind, children)?))
}

pub fn words(alloc: Global, size: usize) -> Result<Vec<GreenElement>, Fault> {
    let mut children = Vec::new(alloc);
    for _ in 0..size {
        children.push(token(alloc, TEXT)?)?;
    }
    Ok(children)
}

fn atoms(alloc: Global, size: usize) -> Result<Vec<GreenElement>, Fault> {
    let mut children = Vec::new(alloc);
    for _ in 0..size {
        children.push(node(alloc, ATOM, words(alloc, 1)?)?)?;
    }
    Ok(children)
}

fn deep(alloc: Global, size: usize) -> Result<Vec<GreenElement>, Fault> {
    let mut children = words(alloc, 1)?;
    for _ in 1..size {
        let list = node(alloc, LIST, children)?;
        children = words(alloc, 1)?;
        children.push(list)?;
    }
    Ok(children)
}

fn empty(alloc: Global, size: usize) -> Result<Vec<GreenElement>, Fault> {
    let mut children = words(alloc, 1)?;
    add_nodes(alloc, &mut children, size / 3)?;
    for _ in 0..size / 3 {
        children.push(token(alloc, "")?)?;
    }
    children.push(token(alloc, TEXT)?)?;
    add_nodes(alloc, &mut children, size / 3)?;
    Ok(children)
}

fn add_nodes(alloc: Global, children: &mut Vec<GreenElement>, count: usize) -> Result<(), Fault> {
    for _ in 0..count {
        children.push(node(alloc, ATOM, Vec::new(alloc))?)?;
    }
    Ok(())
}

fn shared(alloc: Global, size: usize) -> Result<Vec<GreenElement>, Fault> {
    let list = GreenNode::new(alloc, LIST, words(alloc, 2)?)?;
    let mut children = Vec::new(alloc);
    for _ in 0..size / 2 {
        children.push(GreenElement::from(list.clone()?))?;
    }
    Ok(children)
}
