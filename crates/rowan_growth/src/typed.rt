//! Wrappers, pointers, printed trees, borrowed cursors that look for a kind, and traces.
use crate::trees::Tree;
use rowan::ast::{AstNode, SyntaxNodePtr, support};
use rowan::script::{Report, Step, element_at, trace};
use rowan::{Fault, SyntaxNode, cursor};
use rowan_tool::sexp::{Atom, Lang, SyntaxKind};

pub fn make(call: &str, tree: &Tree) -> Result<Option<u64>, Fault> {
    let number = match call {
        "support_child" => support_child(tree),
        "support_children" => support_children(tree),
        "support_token" => support_token(tree),
        "pointers" => pointers(tree),
        "debug_tree" => debug_tree(tree),
        "to_json_string" => to_json_string(tree),
        "first_child_by_kind" => first_child_by_kind(tree),
        "first_token_of_kind" => first_token_of_kind(tree),
        "children_by_kind" => children_by_kind(tree),
        "trace" => go_by_trace(tree),
        "element_at" => go_by_path(tree),
        _ => return Ok(None),
    };
    Ok(Some(number?))
}

fn support_child(tree: &Tree) -> Result<u64, Fault> {
    let child = support::child::<Atom>(&tree.root)?;
    Ok(u64::from(child.is_some()))
}

fn support_token(tree: &Tree) -> Result<u64, Fault> {
    let token = support::token(&tree.root, SyntaxKind::ERROR)?;
    Ok(u64::from(token.is_some()))
}

fn support_children(tree: &Tree) -> Result<u64, Fault> {
    let mut atoms: u64 = 0;
    for atom in support::children::<Atom>(&tree.root) {
        let _atom = atom?;
        atoms = atoms.wrapping_add(1);
    }
    Ok(atoms)
}

/// The node of a pointer to each node.
fn pointers(tree: &Tree) -> Result<u64, Fault> {
    let mut sum: u64 = 0;
    for node in tree.root.descendants() {
        sum = sum.wrapping_add(start_by_pointer(&tree.root, &node?)?);
    }
    Ok(sum)
}

fn start_by_pointer(root: &SyntaxNode<Lang>, node: &SyntaxNode<Lang>) -> Result<u64, Fault> {
    match SyntaxNodePtr::new(node).try_to_node(root)? {
        Some(found) => Ok(u64::from(u32::from(found.text_range().start()))),
        None => Ok(0),
    }
}

fn debug_tree(tree: &Tree) -> Result<u64, Fault> {
    let text = tree.root.debug_tree(tree.alloc)?;
    Ok(text.len() as u64)
}

fn to_json_string(tree: &Tree) -> Result<u64, Fault> {
    let text = tree.root.to_json_string(tree.alloc)?;
    Ok(text.len() as u64)
}

fn first_child_by_kind(tree: &Tree) -> Result<u64, Fault> {
    let found = tree.root.as_ref().first_child_by_kind(SyntaxKind::ERROR);
    Ok(u64::from(found.is_some()))
}

fn first_token_of_kind(tree: &Tree) -> Result<u64, Fault> {
    let found = tree.root.as_ref().first_token_of_kind(SyntaxKind::ERROR);
    Ok(u64::from(found.is_some()))
}

fn children_by_kind(tree: &Tree) -> Result<u64, Fault> {
    let mut atoms: u64 = 0;
    for _atom in tree.root.as_ref().children().by_kind(SyntaxKind::ATOM) {
        atoms = atoms.wrapping_add(1);
    }
    Ok(atoms)
}

/// From token to token.
fn go_by_trace(tree: &Tree) -> Result<u64, Fault> {
    let mut steps = vec![in tree.alloc; Step::FirstToken]?;
    for _ in 0..tree.size {
        steps.push(Step::NextToken)?;
    }
    let root = cursor::SyntaxNode::new_root(tree.alloc, tree.green.clone()?)?;
    let mut moved: u64 = 0;
    for report in trace(tree.alloc, &root, steps.as_slice())? {
        if let Report::Moved(_) = report {
            moved = moved.wrapping_add(1);
        }
    }
    Ok(moved)
}

/// By the last child of each node, as deep as that goes.
fn go_by_path(tree: &Tree) -> Result<u64, Fault> {
    let mut path = Vec::new(tree.alloc);
    for _ in 1..tree.size {
        path.push(1)?;
    }
    let root = cursor::SyntaxNode::new_root(tree.alloc, tree.green.clone()?)?;
    Ok(u64::from(element_at(&root, path.as_slice())?.is_some()))
}
