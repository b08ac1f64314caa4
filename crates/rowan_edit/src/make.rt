//! New nodes and tokens.
ghost use Rattle.std.specs.Prelude.{◌≡◌, ◌<◌, length, IfOk, IfErr, IfSome, IsNone, Err};
ghost use Rattle.std.specs.Fn.{FnOnceReturnsAt};
ghost use Rattle.rowan_green.specs.declared.utility_types.NodeOrToken.TheVariants.{Node, Token};
ghost use Rattle.rowan_green.specs.Fits.{byte_limit, WhyNoNode};
ghost use Rattle.rowan_green.specs.Term.{token_of, node_of};
ghost use Rattle.rowan_green.specs.Word.{WhyNoToken};
ghost use Rattle.rowan_table.specs.Preorder.{descendants};
ghost use Rattle.rowan_api.specs.Refs.{node_place};
ghost use Rattle.rowan_changes.specs.declared.edit_error.EditError.TheVariants.{Failed};
ghost use Rattle.rowan_changes.specs.EditErrors.{IsFailure};
ghost use Rattle.rowan_edit.specs.FromText.{IsFirstOfText, WhyNoneOfText, IsFirstWanted, AreUnwanted};

use rowan::{Language, SyntaxNode, SyntaxNodeRef};
use rowan_changes::edit_error::EditError;
use rowan_green::fault::Fault;
use rowan_green::green::{GreenElement, GreenNode, GreenToken, SyntaxKind};
use rowan_green::utility_types::NodeOrToken;
use std::alloc::Global;
use std::collections::HashMap;
use std::hash::{FoldHasher, Hasher};
use std::marker::PhantomData;

/// Makes nodes and tokens of a language. A token that it made of a kind and a text is kept, and
/// shared where the same is asked for again.
#[derive(Drop)]
pub struct Make<L> {
    alloc: Global,
    /// By the hash of their kinds and texts; of those with one hash the newest.
    tokens: HashMap<u64, GreenToken>,
    language: PhantomData<L>,
}

impl<L> Make<L> {
    /// Makes nothing yet, and takes no memory.
    pub fn new(alloc: Global) -> Make<L> {
        Make {
            alloc,
            tokens: HashMap::new(alloc),
            language: PhantomData,
        }
    }

    /// The token of a raw kind and a text.
    ///
    /// Errors: `Failed(TextTooLong)` past 4,294,967,295 bytes; `Failed(Memory)` if an allocation
    /// failed.
    pub fn raw_token(&mut self, kind: SyntaxKind, text: &str) -> Result<GreenElement, EditError>
        ensures ok { IfOk result (λ e. e ≡ Token (token_of kind.0 text.now)) }
        ensures err { IfErr result (IsFailure (WhyNoToken text.now)) }
        ensures too_long { byte_limit < length text.now → result ≡ Err (Failed Fault.TextTooLong) }
    {
        if text.len() > u32::MAX as usize {
            return Err(EditError::Failed(Fault::TextTooLong));
        }
        let hash = token_hash(kind, text);
        if let Some(kept) = self.tokens.get(&hash) {
            if kept.kind() == kind && kept.text() == text {
                return Ok(NodeOrToken::Token(kept.clone()?));
            }
        }
        let token = GreenToken::new(self.alloc, kind, text)?;
        self.tokens.insert(hash, token.clone()?)?;
        Ok(NodeOrToken::Token(token))
    }

    /// The node of a raw kind and these children.
    ///
    /// Errors: `Failed(TooManyChildren)` past 4,294,967,295 of them; `Failed(TextTooLong)` past as
    /// many bytes; `Failed(Memory)` if an allocation failed.
    pub fn raw_node(
        &self,
        kind: SyntaxKind,
        children: Vec<GreenElement>,
    ) -> Result<GreenElement, EditError>
        ensures ok { IfOk result (λ e. e ≡ Node (node_of kind.0 children.items)) }
        ensures err { IfErr result (IsFailure (WhyNoNode children.items)) }
    {
        Ok(NodeOrToken::Node(node_of(self.alloc, kind, children)?))
    }
}

impl<L: Language> Make<L> {
    /// The token of a kind and a text. Errors: as `raw_token`.
    pub fn token(&mut self, kind: L::Kind, text: &str) -> Result<GreenElement, EditError>
        ensures ok { IfOk result (λ e. e ≡ Token (token_of (L.code kind) text.now)) }
        ensures err { IfErr result (IsFailure (WhyNoToken text.now)) }
        ensures too_long { byte_limit < length text.now → result ≡ Err (Failed Fault.TextTooLong) }
    {
        self.raw_token(L::kind_to_raw(kind), text)
    }

    /// The node of a kind and these children. Errors: as `raw_node`.
    pub fn node(
        &self,
        kind: L::Kind,
        children: Vec<GreenElement>,
    ) -> Result<GreenElement, EditError>
        ensures ok { IfOk result (λ e. e ≡ Node (node_of (L.code kind) children.items)) }
        ensures err { IfErr result (IsFailure (WhyNoNode children.items)) }
    {
        self.raw_node(L::kind_to_raw(kind), children)
    }

    /// The first node, from the root on and each before those below it, whose kind is wanted, in
    /// what a parser makes of a text: it gives the root of its tree, and how many errors it found.
    /// For a wrapper `wanted` is `can_cast`.
    ///
    /// Errors: `Failed` with what the parser fails with; `TextHasErrors` if it found any;
    /// `NoSuchNode` if no node's kind is wanted; `Failed(Memory)` if an allocation failed.
    pub fn from_text<P: FnOnce(&str) -> Result<(GreenNode, usize), Fault>, W: Fn(L::Kind) -> bool>(
        &self,
        text: &str,
        parse: P,
        wanted: W,
    ) -> Result<GreenElement, EditError>
        requires parse { P.IsAlwaysCallable parse }
        requires wanted { W.IsAlwaysCallable wanted }
        ensures ok { IfOk result (IsFirstOfText L.meaning (W.post wanted)
            (FnOnceReturnsAt P.FnOnce parse text.now)) }
        ensures err { IfErr result (WhyNoneOfText L.meaning (W.post wanted)
            (FnOnceReturnsAt P.FnOnce parse text.now)) }
    {
        let (green, errors) = parse(text)?;
        if errors > 0 {
            return Err(EditError::TextHasErrors);
        }
        let root: SyntaxNode<L> = SyntaxNode::new_root(self.alloc, green)?;
        let Some(found) = first_wanted(root.as_ref(), wanted) else {
            return Err(EditError::NoSuchNode);
        };
        Ok(NodeOrToken::Node(found.clone()?))
    }
}

/// The first node, from one on and each before those below it, whose kind is wanted.
fn first_wanted<'tree, L: Language, W: Fn(L::Kind) -> bool>(
    root: SyntaxNodeRef<'tree, L>,
    wanted: W,
) -> Option<&'tree GreenNode>
    requires { W.IsAlwaysCallable wanted }
    ensures some { IfSome result (λ n. IsFirstWanted L.meaning (W.post wanted)
        (descendants (node_place root.entry)) n.now) }
    ensures none { IsNone result → AreUnwanted L.meaning (W.post wanted)
        (descendants (node_place root.entry)) }
{
    for node in root.descendants() {
        if wanted(node.kind()) {
            return Some(node.green());
        }
    }
    None
}

fn node_of(alloc: Global, kind: SyntaxKind, children: Vec<GreenElement>) -> Result<GreenNode, Fault>
    ensures ok { IfOk result (λ n. n ≡ node_of kind.0 children.items) }
    ensures err { IfErr result (WhyNoNode children.items) }
{
    GreenNode::new(alloc, kind, children)
}

fn token_hash(kind: SyntaxKind, text: &str) -> u64 {
    let mut state = FoldHasher::default();
    state.write(text.as_bytes());
    state.write_u16(kind.0);
    state.finish()
}
