//! The wrappers of the nodes of s-expressions, by their names.

use anyhow::{Result, bail};
use rowan::ast::{AstNode, SyntaxNodePtr, support};
use rowan::cursor::SyntaxElement;
use rowan::{Fault, NodeOrToken, SyntaxNode};
use rowan_tool::sexp::{Atom, Lang, List, Root, Sexp};
use std::alloc::Global;

/// A wrapper.
#[derive(Clone, Copy)]
pub enum Wrapper {
    Root,
    Atom,
    List,
    Sexp,
}

impl Wrapper {
    /// The wrapper that is called so.
    pub fn parse(word: &str) -> Result<Wrapper> {
        match word {
            "Root" => Ok(Wrapper::Root),
            "Atom" => Ok(Wrapper::Atom),
            "List" => Ok(Wrapper::List),
            "Sexp" => Ok(Wrapper::Sexp),
            _ => bail!("`{word}` is no wrapper"),
        }
    }

    /// Whether a pointer casts to one to the wrapper.
    pub fn takes(self, pointer: SyntaxNodePtr<Lang>) -> bool {
        match self {
            Wrapper::Root => pointer.cast::<Root>().is_some(),
            Wrapper::Atom => pointer.cast::<Atom>().is_some(),
            Wrapper::List => pointer.cast::<List>().is_some(),
            Wrapper::Sexp => pointer.cast::<Sexp>().is_some(),
        }
    }

    /// The first child that casts.
    pub fn child(self, parent: &SyntaxNode<Lang>) -> Result<Option<SyntaxElement>, Fault> {
        match self {
            Wrapper::Root => child::<Root>(parent),
            Wrapper::Atom => child::<Atom>(parent),
            Wrapper::List => child::<List>(parent),
            Wrapper::Sexp => child::<Sexp>(parent),
        }
    }

    /// The children that cast, in order.
    pub fn children(
        self,
        alloc: Global,
        parent: &SyntaxNode<Lang>,
    ) -> Result<Vec<SyntaxElement>, Fault> {
        match self {
            Wrapper::Root => children::<Root>(alloc, parent),
            Wrapper::Atom => children::<Atom>(alloc, parent),
            Wrapper::List => children::<List>(alloc, parent),
            Wrapper::Sexp => children::<Sexp>(alloc, parent),
        }
    }
}

fn child<N>(parent: &SyntaxNode<Lang>) -> Result<Option<SyntaxElement>, Fault>
where
    N: AstNode<Language = Lang> + Drop,
{
    match support::child::<N>(parent)? {
        Some(wrapper) => Ok(Some(node_of(&wrapper)?)),
        None => Ok(None),
    }
}

fn children<N>(alloc: Global, parent: &SyntaxNode<Lang>) -> Result<Vec<SyntaxElement>, Fault>
where
    N: AstNode<Language = Lang> + Drop,
{
    let mut nodes = Vec::new(alloc);
    for wrapper in support::children::<N>(parent) {
        nodes.push(node_of(&wrapper?)?)?;
    }
    Ok(nodes)
}

fn node_of<N: AstNode<Language = Lang>>(wrapper: &N) -> Result<SyntaxElement, Fault> {
    Ok(NodeOrToken::Node(wrapper.syntax().clone()?.into()))
}
