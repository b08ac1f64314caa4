//! Trees with other tokens: what formatters and renames make.
mod draft;
mod pass;
mod token_at;

ghost use Rattle.std.specs.Prelude.{◌≡◌, ◌≤◌, ◌++◌, IfOk, IfErr, OnOk};
ghost use Rattle.rowan_green.specs.Fits.{byte_limit, FitsNode};
ghost use Rattle.rowan_changes.specs.ChangesKept.{CanBeKept};
ghost use Rattle.rowan_rewrite.specs.Rewriting.{change_of, put_len};
ghost use Rattle.rowan_rewrite.specs.RewritingCalls.{IsRewritten, WhyNotRewritten};

use pass::{Left, Pass};
use rowan_changes::changes::{Change, Changes};
use rowan_changes::edit::len_of;
use rowan_green::fault::Fault;
use rowan_green::green::{GreenElement, GreenNode};
use rowan_green::text::{TextRange, TextSize};
use rowan_green::utility_types::NodeOrToken;
use std::alloc::Global;
pub use token_at::TokenAt;

/// What becomes of a token.
#[derive(Drop)]
pub enum Rewrite {
    /// It stays.
    Keep,
    /// It stays, and these nodes and tokens come before it, in this order: in front of the outermost
    /// node below the root that begins with it. A node begins with a token if that is its first
    /// child, or if its first child is a node that begins with it. Before the first token of the
    /// root they come into the root. None keep it as it is.
    KeepBehind(Vec<GreenElement>),
    /// It is taken away.
    Remove,
    /// These nodes and tokens come in its place, in this order. None take it away.
    Replace(Vec<GreenElement>),
}

/// A tree with other tokens, and what they changed in its text.
#[derive(Drop)]
pub struct Rewritten {
    /// The root of the new tree.
    pub green: GreenNode,
    /// One change for each token that was not kept, in the order of the text, and one for the
    /// elements before a token: an insertion where the token's text starts.
    pub changes: Changes,
}

/// A new tree, in which a closure has said of each token what becomes of it. All nodes stay, with
/// their kinds. The closure is called once at each token, in the order of the text, and is shown
/// the token where it stands in the old tree. It is not called at what it puts there, and not again
/// after the last token. The old tree stays as it is, and the new one shares each node in which all
/// tokens were kept, also where elements come before the node.
///
/// Errors: the first refusal that the closure answers, and it is not called again. A node whose
/// tokens are all rewritten is made before the next token is looked at, and refused as
/// `GreenNode::new` does: `TooManyChildren` past 4,294,967,295 children, `TextTooLong` past as many
/// bytes of text. `Memory` if an allocation failed.
pub fn rewrite_tokens<F: FnMut(TokenAt<'_>) -> Result<Rewrite, Fault>>(
    alloc: Global,
    root: &GreenNode,
    rewrite: &mut F,
) -> Result<Rewritten, Fault>
    requires { F.IsAlwaysCallable rewrite.old }
    ensures ok { IfOk result (IsRewritten F.FnMut rewrite.old rewrite.new root.now) }
    ensures err { IfErr result (WhyNotRewritten F.FnMut rewrite.old rewrite.new root.now) }
{
    // A tree is within the limits, and with it each offset of the text.
    let _text_len = root.text_len();
    let mut pass = Pass::new(alloc, root);
    let mut changes = Vec::new(alloc);
    let mut at = TextSize::from(0);
    loop {
        match pass.child() {
            Some(child) => match child {
                NodeOrToken::Node(node) => pass = pass.enter(alloc, node)?,
                NodeOrToken::Token(token) => {
                    let range = TextRange::at(at, token.text_len());
                    match rewrite(pass.token_at(token, at)) {
                        Ok(answer) => {
                            note(&mut changes, range, &answer)?;
                            pass = pass.answer(alloc, answer)?;
                        }
                        Err(refusal) => return Err(refusal),
                    }
                    at = range.end();
                }
            },
            None => match pass.leave(alloc)? {
                Left::ToParent(parent) => pass = parent,
                Left::Tree(green) => return with_changes(alloc, green, changes),
            },
        }
    }
}

// Notes what an answer changes at a range of the old text. Only where the new elements' texts are
// past the limit together, the new length is not theirs.
fn note(changes: &mut Vec<Change>, range: TextRange, answer: &Rewrite) -> Result<(), Fault>
    ensures ok { OnOk result (put_len answer.now ≤ byte_limit
        → changes.new.items ≡ changes.old.items ++ change_of range answer.now) }
    ensures err { IfErr result (λ e. e ≡ Fault.Memory) }
{
    let (range, new_len) = match answer {
        Rewrite::Keep => return Ok(()),
        Rewrite::KeepBehind(elements) if elements.is_empty() => return Ok(()),
        Rewrite::KeepBehind(elements) => {
            (
                TextRange::new(range.start(), range.start()),
                len_of(elements),
            )
        },
        Rewrite::Remove => (range, TextSize::from(0)),
        Rewrite::Replace(elements) => (range, len_of(elements)),
    };
    changes.push(Change { range, new_len })?;
    Ok(())
}

// The new tree with its changes.
fn with_changes(alloc: Global, green: GreenNode, changes: Vec<Change>) -> Result<Rewritten, Fault>
    requires { FitsNode green → CanBeKept changes.items }
    ensures ok { IfOk result (λ r. (r.green ≡ green) × (r.changes ≡ changes.items)
        × FitsNode green) }
    ensures err { IfErr result (λ e. e ≡ Fault.Memory) }
{
    let _text_len = green.text_len();
    let changes = Changes::new(alloc, changes)?;
    Ok(Rewritten { green, changes })
}
