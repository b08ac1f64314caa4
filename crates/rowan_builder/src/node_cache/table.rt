//! The values that a cache keeps, in the order in which it was first asked for them, and how their
//! numbers are found.
ghost use Rattle.std.specs.Prelude.{◌≡◌, ◌+◌, ◌<◌, ◌≤◌, List, [], ◌++◌, ◌∷◌, length, IfOk, OnOk};
ghost use Rattle.std.specs.Prelude.{OnErr, IfSome, IsNone, Some, false};
ghost use Rattle.std.specs.List.{slice_get};
ghost use Rattle.rowan_green.specs.declared.utility_types.NodeOrToken.TheVariants.{Node, Token};
ghost use Rattle.rowan_green.specs.Lent.{pointee};
ghost use Rattle.rowan_green.specs.Term.{Term, token_of, node_of};
ghost use Rattle.rowan_green.specs.Same.{same_term};
ghost use Rattle.rowan_builder.specs.Cache.{is_among};
ghost use Rattle.rowan_terms.specs.Path.{term_children};
ghost use Rattle.rowan_builder.specs.Tables.{with_kind, token_hash, node_hash, key_hash, kept_of};
ghost use Rattle.rowan_builder.specs.Tables.{kept_term, first_number, kept_parent, with_parent};
ghost use Rattle.rowan_builder.specs.Tables.{is_node_by, StandAt, KeepsLimits};
ghost use Rattle.rowan_green.specs.Link.{link_limit};

use crate::node_cache::chains::Chains;
use rowan_green::green::{GreenElement, GreenElementRef, GreenNode, GreenToken, SyntaxKind};
use rowan_green::link::Link;
use rowan_green::utility_types::NodeOrToken;
use std::alloc::{AllocError, Global};
use std::hash::{FoldHasher, Hasher};
use std::marker::Model;
use std::mem;

// A value that a cache keeps: a token and the number of the newest node over it alone, or a node
// and where the numbers of its children begin in the table's list of these.
#[derive(Drop)]
enum Kept {
    Token { parent: Link, token: GreenToken },
    Node { first_child: u32, node: GreenNode },
}

// A cache has many values, so each takes little memory.
const _: () = prove!(mem::size_of::<Kept>() == 16);

// Values, no two of which are equal. The place of a value is its number. The children of a node
// that is kept are kept too.
#[derive(Drop)]
pub(super) struct ValueTable {
    values: Vec<Kept>,
    // The numbers of the children of each node that is kept, those of one node after those of
    // another.
    child_numbers: Vec<u32>,
    // The places of the values by their hashes.
    chains: Chains,
}

impl Model for ValueTable {
    ghost use Rattle.std.specs.Prelude.{List};
    ghost use Rattle.std.specs.Coded.{coded_list};
    ghost use Rattle.rowan_green.specs.Term.{Term};
    ghost use Rattle.rowan_green.specs.Coding.{coded_term};

    ghost Value = { List Term };

    ghost coded = { coded_list coded_term };

    ghost use Rattle.rowan_builder.specs.Tables.{kept_terms, IsIndexed};

    ghost view = { λ t. kept_terms t.values.items };

    ghost invariant = { λ t. IsIndexed t.values.items t.child_numbers.items t.chains };
}

impl ValueTable {
    pub(super) fn new(alloc: Global) -> ValueTable
        ensures { result ≡ [] }
    {
        ValueTable {
            values: Vec::new(alloc),
            child_numbers: Vec::new(alloc),
            chains: Chains::new(alloc),
        }
    }

    pub(super) fn len(&self) -> usize
        ensures { result ≡ length self.now }
    {
        self.values.len()
    }

    // The value that stands at a number.
    pub(super) fn value(&self, number: u32) -> GreenElementRef<'_>
        requires { number < length self.now }
        ensures stands { slice_get self.now number ≡ Some (pointee result) }
        ensures fits { KeepsLimits (pointee result) }
    {
        self.values[number as usize].as_ref()
    }

    // The number of the token of a kind and a text, whose hash this is.
    pub(super) fn token_number(&self, hash: u32, kind: SyntaxKind, text: &str) -> Option<u32>
        requires { hash ≡ token_hash kind.0 text.now }
        ensures some { let t = Token (token_of kind.0 text.now) in
            IfSome result (λ n. slice_get self.now n ≡ Some t) }
        ensures none { let t = Token (token_of kind.0 text.now) in
            IsNone result → is_among self.now t ≡ false }
    {
        let mut next = self.chains.newest(hash);
        while let Some(number) = next {
            let kept = &self.values[number as usize];
            if kept.is_token(kind, text) {
                return Some(number);
            }
            next = self.chains.older(number);
        }
        None
    }

    // The number of the node of a kind and of children at these numbers, whose hash this is.
    pub(super) fn node_number(&self, hash: u32, kind: SyntaxKind, numbers: &[u32]) -> Option<u32>
        requires { hash ≡ node_hash kind.0 numbers.now }
        ensures some { (ts : List Term) → StandAt self.now numbers.now ts
            → IfSome result (λ n. slice_get self.now n ≡ Some (Node (node_of kind.0 ts))) }
        ensures none { (ts : List Term) → StandAt self.now numbers.now ts
            → IsNone result → is_among self.now (Node (node_of kind.0 ts)) ≡ false }
    {
        let all = self.child_numbers.as_slice();
        let mut next = self.chains.newest(hash);
        while let Some(number) = next {
            let kept = &self.values[number as usize];
            if kept.is_node(all, kind, numbers) {
                return Some(number);
            }
            next = self.chains.older(number);
        }
        None
    }

    // The number of the newest node over the token with a number alone, if the node has this kind.
    // Most nodes over one token are found so, without a hash.
    pub(super) fn parent_number(&self, kind: SyntaxKind, child: u32) -> Option<u32>
        ensures { (ts : List Term) → StandAt self.now (child ∷ []) ts
            → IfSome result (λ n. slice_get self.now n ≡ Some (Node (node_of kind.0 ts))) }
    {
        let kept = self.values.get(child as usize)?;
        let number = kept.parent()?;
        let node = &self.values[number as usize];
        if node.as_ref().kind() == kind {
            return Some(number);
        }
        None
    }

    // Keeps a value from now on: a new one, with its hash and the numbers of its children. A
    // refused call leaves the table as it was.
    pub(super) fn keep(
        &mut self,
        hash: u32,
        element: GreenElement,
        numbers: &[u32],
    ) -> Result<u32, AllocError>
        requires fresh { is_among self.old element ≡ false }
        requires fits { KeepsLimits element }
        requires children { StandAt self.old numbers.now (term_children element) }
        requires hash { hash ≡ key_hash element numbers.now }
        ensures ok { OnOk result (self.new ≡ self.old ++ element ∷ []) }
        ensures number { IfOk result (λ n. n ≡ length self.old) }
        ensures small { IfOk result (λ n. n < link_limit) }
        ensures unchanged { OnErr result (self.new ≡ self.old) }
    {
        let Ok(first_child) = u32::try_from(self.child_numbers.len()) else {
            return Err(AllocError);
        };
        self.values.reserve(1)?;
        self.child_numbers.reserve(numbers.len())?;
        let number = self.chains.push(hash)?;
        self.child_numbers.extend_from_slice(numbers)?;
        self.values.push(Kept::new(first_child, element))?;
        if numbers.len() == 1 {
            self.values[numbers[0] as usize].set_parent(number);
        }
        Ok(number)
    }
}

impl Kept {
    fn new(first_child: u32, element: GreenElement) -> Kept
        ensures { result ≡ kept_of first_child element }
    {
        match element {
            NodeOrToken::Node(node) => Kept::Node { first_child, node },
            NodeOrToken::Token(token) => Kept::Token {
                parent: Link::none(),
                token,
            },
        }
    }

    // The number of the newest node over a token alone.
    fn parent(&self) -> Option<u32>
        ensures { result ≡ kept_parent self.now }
    {
        match self {
            Kept::Node { .. } => None,
            Kept::Token { parent, .. } => parent.number(),
        }
    }

    // A token's newest parent is the node with a number from now on.
    fn set_parent(&mut self, number: u32)
        requires { number < link_limit }
        ensures { self.new ≡ with_parent number self.old }
    {
        match self {
            Kept::Node { .. } => {}
            Kept::Token { parent, .. } => *parent = Link::to(number),
        }
    }

    fn as_ref(&self) -> GreenElementRef<'_>
        ensures { pointee result ≡ kept_term self.now }
    {
        match self {
            Kept::Node { node, .. } => NodeOrToken::Node(node),
            Kept::Token { token, .. } => NodeOrToken::Token(token),
        }
    }

    fn is_token(&self, kind: SyntaxKind, text: &str) -> bool
        ensures { result ≡ same_term (kept_term self.now) (Token (token_of kind.0 text.now)) }
    {
        match self {
            Kept::Node { .. } => false,
            Kept::Token { token, .. } => token.kind() == kind && token.text() == text,
        }
    }

    // Whether this is a node of a kind, whose children have these numbers.
    fn is_node(&self, all: &[u32], kind: SyntaxKind, numbers: &[u32]) -> bool
        requires { first_number self.now + length (term_children (kept_term self.now))
            ≤ length all.now }
        ensures { result ≡ is_node_by all.now kind.0 numbers.now self.now (kept_term self.now) }
    {
        let Kept::Node { first_child, node } = self else {
            return false;
        };
        if node.kind() != kind {
            return false;
        }
        let (_, rest) = all.split_at(*first_child as usize);
        let (own, _) = rest.split_at(node.children().len());
        own == numbers
    }
}

// The hash of a token's kind and text.
pub(super) fn token_hash(kind: SyntaxKind, text: &str) -> u32
    ensures { result ≡ token_hash kind.0 text.now }
{
    let mut state = FoldHasher::default();
    state.write(text.as_bytes());
    with_kind(kind, state.finish())
}

// The hash of a node's kind and of the numbers of its children.
pub(super) fn node_hash(kind: SyntaxKind, numbers: &[u32]) -> u32
    ensures { result ≡ node_hash kind.0 numbers.now }
{
    let mut state = FoldHasher::default();
    for number in numbers {
        state.write_u32(*number);
    }
    with_kind(kind, state.finish())
}

// The last 32 bits of a hash, with a kind in them.
fn with_kind(kind: SyntaxKind, hash: u64) -> u32
    ensures { result ≡ with_kind kind.0 hash }
{
    (hash & u64::from(u32::MAX)) as u32 ^ u32::from(kind.0)
}
