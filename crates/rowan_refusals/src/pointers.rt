//! Pointers to nodes, and wrappers of nodes. None of these calls asks for memory.

use rowan::ast::{AstChildren, AstNode, AstPtr, SyntaxNodePtr, support};
use rowan::{Steps, SyntaxNode, SyntaxNodeRef, TextRange, TextSize};
use rowan_tool::sexp::{Atom, Lang, List, Root, Sexp, SyntaxKind};
use rowan_transcript::{Stop, Transcript};

/// Says where the pointer to a node leads, and where it is once so many bytes stand in place of a
/// range of the text.
pub fn tell_pointer(
    log: &Transcript<'_>,
    node: &SyntaxNode<Lang>,
    replaced: TextRange,
    new_len: TextSize,
) -> Result<(), Stop> {
    let root = node.tree_top()?;
    let pointer = SyntaxNodePtr::new(node);
    tell_pointer_in(log, &root, node, &pointer)?;
    log.tell("after_edit", &pointer.after_edit(replaced, new_len))?;
    tell_visits(log, &root, &pointer)?;
    tell_pointer_of_ref(log, node.as_ref())
}

fn tell_pointer_in(
    log: &Transcript<'_>,
    root: &SyntaxNode<Lang>,
    node: &SyntaxNode<Lang>,
    pointer: &SyntaxNodePtr<Lang>,
) -> Result<(), Stop> {
    log.tell("pointer", pointer)?;
    log.tell("try_to_node", &pointer.try_to_node(root))?;
    log.tell("to_node", &pointer.to_node(root))?;
    log.tell("to_node from the node", &pointer.to_node(node))
}

fn tell_visits(
    log: &Transcript<'_>,
    root: &SyntaxNode<Lang>,
    pointer: &SyntaxNodePtr<Lang>,
) -> Result<(), Stop> {
    let mut steps = Steps::new();
    let found = pointer.try_to_node_counted(root, &mut steps)?;
    log.tell("visits", &(found.is_some(), steps.visits()))
}

/// Says where the pointer to a borrowed node leads.
fn tell_pointer_of_ref(log: &Transcript<'_>, node: SyntaxNodeRef<'_, Lang>) -> Result<(), Stop> {
    let root = node.tree_top();
    let pointer = SyntaxNodePtr::from_ref(node);
    log.tell("by ref", &pointer)?;
    log.tell("by ref", &pointer.try_to_node_ref(root))?;
    log.tell("by ref", &pointer.to_node_ref(node))
}

/// Says what the wrappers of a node are, what is below them, and what number the node reads.
pub fn tell_wrappers(log: &Transcript<'_>, node: &SyntaxNode<Lang>) -> Result<(), Stop> {
    tell_wrapper::<List>(log, node)?;
    tell_wrapper::<Sexp>(log, node)?;
    tell_support(log, node)?;
    if let Some(root) = Root::cast(node.clone()?) {
        tell_sexps(log, root.sexps())?;
    }
    if let Some(list) = List::cast(node.clone()?) {
        tell_sexps(log, list.sexps())?;
    }
    tell_value(log, node)
}

/// Says what number a node reads.
fn tell_value(log: &Transcript<'_>, node: &SyntaxNode<Lang>) -> Result<(), Stop> {
    match Sexp::cast(node.clone()?) {
        Some(sexp) => log.tell("eval", &sexp.eval()),
        None => Ok(()),
    }
}

fn tell_wrapper<N>(log: &Transcript<'_>, node: &SyntaxNode<Lang>) -> Result<(), Stop>
where
    N: AstNode<Language = Lang> + Drop,
{
    log.tell("can_cast", &N::can_cast(node.kind()))?;
    match N::cast(node.clone()?) {
        Some(wrapper) => {
            log.tell("cast", wrapper.syntax())?;
            tell_wrapper_pointer(log, &wrapper)
        }
        None => Ok(()),
    }
}

/// Says where the pointer to a wrapper leads, and to which other wrapper it casts.
fn tell_wrapper_pointer<N>(log: &Transcript<'_>, wrapper: &N) -> Result<(), Stop>
where
    N: AstNode<Language = Lang> + Drop,
{
    let root = wrapper.syntax().tree_top()?;
    let pointer = AstPtr::new(wrapper);
    log.tell("pointer", &pointer)?;
    tell_wrapped(log, "try_to_node", pointer.try_to_node(&root)?)?;
    tell_node_of(log, &pointer, &root)?;
    log.tell("syntax_node_ptr", &pointer.syntax_node_ptr())?;
    tell_as_others(log, pointer)
}

fn tell_node_of<N>(
    log: &Transcript<'_>,
    pointer: &AstPtr<N>,
    root: &SyntaxNode<Lang>,
) -> Result<(), Stop>
where
    N: AstNode<Language = Lang> + Drop,
{
    match pointer.to_node(root) {
        Ok(found) => log.tell("to_node", found.syntax()),
        Err(fault) => log.tell("to_node", &fault),
    }
}

fn tell_as_others<N>(log: &Transcript<'_>, pointer: AstPtr<N>) -> Result<(), Stop>
where
    N: AstNode<Language = Lang> + Drop,
{
    log.tell("equal to its clone", &(pointer.clone()? == pointer))?;
    let raw = SyntaxNodePtr::from(pointer);
    log.tell("as a pointer to an atom", &raw.cast::<Atom>())?;
    log.tell("as a pointer to an expression", &raw.cast::<Sexp>())
}

fn tell_wrapped<N: AstNode + Drop>(
    log: &Transcript<'_>,
    name: &str,
    found: Option<N>,
) -> Result<(), Stop> {
    match found {
        Some(wrapper) => log.tell(name, wrapper.syntax()),
        None => log.show(name, &"none"),
    }
}

fn tell_support(log: &Transcript<'_>, node: &SyntaxNode<Lang>) -> Result<(), Stop> {
    tell_wrapped(log, "first list", support::child::<List>(node)?)?;
    tell_sexps(log, support::children::<Sexp>(node))?;
    let blank = support::token(node, SyntaxKind::WHITESPACE)?;
    log.tell("first white space", &blank)?;
    tell_support_of_ref(log, node.as_ref())
}

fn tell_support_of_ref(log: &Transcript<'_>, node: SyntaxNodeRef<'_, Lang>) -> Result<(), Stop> {
    tell_wrapped(log, "by ref", support::child_of::<List>(node)?)?;
    for sexp in support::children_of::<Sexp>(node) {
        log.tell("by ref", sexp?.syntax())?;
    }
    log.tell("by ref", &support::token_of(node, SyntaxKind::WHITESPACE))
}

fn tell_sexps(log: &Transcript<'_>, sexps: AstChildren<Sexp>) -> Result<(), Stop> {
    for sexp in sexps {
        log.tell("expression", sexp?.syntax())?;
    }
    Ok(())
}
