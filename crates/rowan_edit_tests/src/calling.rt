//! Callers of the editors, and of the tree cursor.
ghost use Rattle.std.specs.Prelude.{◌≡◌, ◌==◌, not, Bool, [], ◌∷◌, IfOk, IfSome};
ghost use Rattle.std.specs.List.{filter};
ghost use Rattle.rowan_green.specs.declared.utility_types.NodeOrToken.TheVariants.{Node};
ghost use Rattle.rowan_terms.specs.Path.{Path, tokens};
ghost use Rattle.rowan_green.specs.Term.{TokenTerm};
ghost use Rattle.rowan_table.specs.Cursor.{Cursor};
ghost use Rattle.rowan_table.specs.Moves.{child_count};
ghost use Rattle.rowan_table.specs.Replacement.{with_replacement};
ghost use Rattle.rowan_table.specs.Search.{IsLeafOver};
ghost use Rattle.rowan_api.specs.Refs.{node_place};
ghost use Rattle.rowan_edit.specs.Edit.{Edit, edited};
ghost use Rattle.rowan_edit.specs.Rewriting.{Keeps};
ghost use Rattle.rowan_edit.specs.RewritingCalls.{AlwaysKeeps};
ghost use Rattle.rowan_edit.specs.TokenAts.{token_in};

use rowan::{Fault, GreenElement, GreenNode, GreenToken, Language, SyntaxNodeRef, TextSize};
use rowan_edit::{
    EditError, GreenEditor, Position, Rewrite, SyntaxEditor, TokenAt, TreeCursor, rewrite_tokens,
};
use rowan_edit_laws::laws;
use std::alloc::Global;

/// The tree with one more element before the first child of the root. Refused where the tree would
/// pass a limit, and else only for want of memory.
pub fn with_first(alloc: Global, root: &GreenNode, first: GreenElement) -> Result<GreenNode, Fault>
    ensures { let edit : Edit = record { parent = []; start = 0; end = 0; new = first ∷ [] } in
        IfOk result (λ n. Node n ≡ edited (Node root.now) (edit ∷ [])) }
{
    let mut editor = GreenEditor::new(alloc, root)?;
    let new = vec![in alloc; first]?;
    match editor.splice(&[], 0..0, new) {
        Ok(()) => Ok(editor.finish()?.green),
        Err(_) => Err(Fault::Memory),
    }
}

/// The tree with one more element behind the last child of a node.
pub fn with_last<L: Language>(
    alloc: Global,
    node: SyntaxNodeRef<'_, L>,
    last: GreenElement,
) -> Result<GreenNode, EditError>
    ensures { let c = node_place node.entry in
        let count = child_count c.root c.path in
        let edit : Edit = record {
          parent = c.path;
          start = count;
          end = count;
          new = last ∷ [];
        } in IfOk result (λ n. Node n ≡ edited (Node c.root) (edit ∷ [])) }
{
    let mut editor = SyntaxEditor::new(alloc, node)?;
    editor.insert(Position::last_child_of(node), last)?;
    Ok(editor.finish()?.green)
}

/// The tree with another element in place of the token with the byte at an offset. `None` where no
/// token has it.
pub fn with_token_over(
    alloc: Global,
    root: &GreenNode,
    offset: TextSize,
    new: GreenElement,
) -> Result<Option<GreenNode>, Fault>
    ensures { IfOk result (λ found. IfSome found (λ n. (p : Path) × IsLeafOver root.now offset [] p
        × let c : Cursor = record { root = root.now; path = p } in
        Node n ≡ with_replacement c new)) }
{
    let mut cursor = TreeCursor::new(alloc, root);
    if !cursor.goto_offset(offset)? {
        return Ok(None);
    }
    Ok(Some(cursor.replace(new)?))
}

/// The tree that a formatter makes. A formatter that keeps the tokens that pass a test, whatever
/// token it is shown, keeps those of the tree.
pub fn format<F: FnMut(TokenAt<'_>) -> Result<Rewrite, Fault>>(
    alloc: Global,
    root: &GreenNode,
    formatter: &mut F,
) -> Result<GreenNode, Fault>
    requires { F.IsAlwaysCallable formatter.old }
    ensures { (test : TokenTerm → Bool) → AlwaysKeeps F.FnMut test root.now
        → IfOk result (λ n. filter test (tokens (Node n)) ≡ filter test (tokens (Node root.now))) }
{
    let new = rewrite_tokens(alloc, root, formatter)?;
    laws::closures_keep_tokens::<F>();
    Ok(new.green)
}

/// The tree with a token of white space before each other token, in place of all of its kind.
pub fn spaced(alloc: Global, root: &GreenNode, space: &GreenToken) -> Result<GreenNode, Fault> {
    format(alloc, root, &mut |at| space_before(alloc, space, at))
}

/// What becomes of a token: it is kept, unless it is white space.
fn space_before(alloc: Global, space: &GreenToken, at: TokenAt<'_>) -> Result<Rewrite, Fault>
    ensures { let is_other : TokenTerm → Bool = λ t. not (t.kind == space.now.kind) in
        IfOk result (Keeps is_other (token_in at.entry)) }
{
    if at.kind() == space.kind() {
        return Ok(Rewrite::Remove);
    }
    Ok(Rewrite::KeepBehind(vec![in alloc; GreenElement::from(space.clone()?)]?))
}
