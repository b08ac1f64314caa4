//! The cache of green values: equal tokens, and equal nodes of few children, are stored once.
mod bytes;
mod chains;
mod table;

ghost use Rattle.std.specs.Prelude.{◌≡◌, ◌<◌, ◌≤◌, List, length, drop, IfOk, IfErr, IfSome, OnOk};
ghost use Rattle.std.specs.Prelude.{OnErr, true, Some};
ghost use Rattle.std.specs.List.{slice_get};
ghost use Rattle.rowan_green.specs.declared.utility_types.NodeOrToken.TheVariants.{Node, Token};
ghost use Rattle.rowan_green.specs.Term.{Term, token_of, node_of};
ghost use Rattle.rowan_green.specs.Fits.{byte_limit, AreWithin, WhyNoNode};
ghost use Rattle.rowan_green.specs.Word.{WhyNoToken};
ghost use Rattle.rowan_builder.specs.Cache.{empty_cache, first_seen, count_tokens, count_nodes};
ghost use Rattle.rowan_builder.specs.Cache.{intern, IsNumbered, AreNumbered, ListsNumbers};
ghost use Rattle.rowan_builder.specs.Cache.{gets_number};
ghost use Rattle.rowan_builder.specs.Tables.{KeepsLimits};
ghost use Rattle.rowan_green.specs.Waiting.{elements, numbers_of, HasRoom, IsSame, IsCutAt};

use bytes::ByteTokens;
use rowan_green::fault::Fault;
use rowan_green::green::{FinishedElements, GreenNode, GreenToken, Interned, SyntaxKind};
use rowan_green::utility_types::NodeOrToken;
use std::alloc::{AllocError, Global};
use std::marker::Model;
use std::mem;
use table::ValueTable;

/// The greatest number of children of a node that a cache of `NodeCache::new` keeps.
const DEFAULT_LIMIT: usize = 3;

/// Stores equal tokens once, and equal nodes of at most so many children, whose children it stores
/// too.
///
/// A contract sees a cache as its limit and the list of the terms that it keeps, in the order in
/// which it was first asked for them. The place of a term in that list is its number. No call of a
/// cache is refused; a builder that asks it may be, with
/// `Memory` where there is none, and also where the cache keeps 4,294,967,295 values and would keep
/// one more, or where the nodes that it keeps have more children than that and it would keep one
/// more.
#[derive(Drop)]
pub struct NodeCache {
    alloc: Global,
    limit: usize,
    table: ValueTable,
    // The numbers of the children of the node that is looked up: kept from one call to the next for
    // its memory.
    numbers: Vec<u32>,
    token_count: usize,
    bytes: ByteTokens,
}

impl Model for NodeCache {
    ghost use Rattle.rowan_builder.specs.Cache.{CacheValue};
    ghost use Rattle.rowan_builder.specs.CacheCoding.{coded_cache};

    ghost Value = { CacheValue };

    ghost coded = { coded_cache };

    ghost use Rattle.rowan_builder.specs.Tables.{IsCounted};
    ghost use Rattle.rowan_builder.specs.Bytes.{AreOfBytes};

    ghost view = { λ c. record { limit = c.limit; seen = c.table } };

    ghost invariant = { λ c. IsCounted c.limit c.table c.token_count
        × AreOfBytes c.table c.bytes.newest.items };
}

impl NodeCache {
    /// A cache that keeps nothing yet, for nodes of at most three children. Takes no memory.
    pub fn new(alloc: Global) -> NodeCache
        ensures { result ≡ empty_cache 3 }
    {
        NodeCache::with_limit(alloc, DEFAULT_LIMIT)
    }

    /// A cache that keeps nothing yet, for nodes of at most `limit` children. Takes no memory.
    pub fn with_limit(alloc: Global, limit: usize) -> NodeCache
        ensures { result ≡ empty_cache limit }
    {
        NodeCache {
            alloc,
            limit,
            table: ValueTable::new(alloc),
            numbers: Vec::new(alloc),
            token_count: 0,
            bytes: ByteTokens::new(alloc),
        }
    }

    // Takes what the cache keeps, for a builder to which it is lent. Until that is put back it
    // keeps nothing.
    pub(crate) fn take(&mut self) -> NodeCache
        ensures kept { result ≡ self.old }
        ensures first { first_seen self.old.limit self.old.seen ≡ self.old.seen }
    {
        let empty = NodeCache::with_limit(self.alloc, self.limit);
        mem::replace(self, empty)
    }

    /// How many tokens the cache keeps.
    pub fn token_count(&self) -> usize
        ensures count { result ≡ count_tokens self.now.seen }
        ensures first { first_seen self.now.limit self.now.seen ≡ self.now.seen }
    {
        self.token_count
    }

    /// How many nodes the cache keeps.
    pub fn node_count(&self) -> usize
        ensures { result ≡ count_nodes self.now.seen }
    {
        self.table.len() - self.token_count
    }

    // The token of a kind and a text: the one that the cache keeps, or else a new one, which it
    // keeps from now on. A refused call leaves the cache as it was.
    pub(crate) fn token(&mut self, kind: SyntaxKind, text: &str) -> Result<Interned, Fault>
        // The token, or why there is none.
        ensures ok { IfOk result (λ i. i.element ≡ Token (token_of kind.0 text.now)) }
        ensures number { IfOk result (IsNumbered self.new) }
        ensures err { IfErr result (WhyNoToken text.now) }
        ensures too_long { byte_limit < length text.now → result ≡ Err Fault.TextTooLong }

        // What the cache keeps.
        ensures kept { OnOk result (self.new ≡ intern self.old (Token (token_of kind.0 text.now))) }
        ensures unchanged { OnErr result (self.new ≡ self.old) }
    {
        if let Some(number) = self.byte_token(kind, text) {
            return Ok(share_at(&self.table, number)?);
        }
        let hash = table::token_hash(kind, text);
        if let Some(number) = self.table.token_number(hash, kind, text) {
            return Ok(share_at(&self.table, number)?);
        }
        let token = GreenToken::new(self.alloc, kind, text)?;
        let kept = NodeOrToken::Token(token.clone()?);
        self.bytes.reserve(text)?;
        let number = self.table.keep(hash, kept, &[])?;
        self.bytes.set(text, number);
        self.token_count += 1;
        Ok(Interned {
            number: Some(number),
            element: NodeOrToken::Token(token),
        })
    }

    // The number of the token of a kind and a text, where that is one byte and no newer token has
    // it as its text.
    fn byte_token(&self, kind: SyntaxKind, text: &str) -> Option<u32>
        ensures { let t = Token (token_of kind.0 text.now) in
            IfSome result (λ n. slice_get self.now.seen n ≡ Some t) }
    {
        let Some(number) = self.bytes.number(text) else {
            return None;
        };
        if self.table.value(number).kind() != kind {
            return None;
        }
        Some(number)
    }

    // The number of the node of a kind over these children, where that is one token and no newer
    // node is kept over that alone.
    fn only_parent(&self, kind: SyntaxKind, children: &[Option<u32>]) -> Option<u32>
        ensures { (ts : List Term) → AreNumbered self.now ts children.now
            → IfSome result (λ n. slice_get self.now.seen n ≡ Some (Node (node_of kind.0 ts))) }
    {
        if children.len() != 1 {
            return None;
        }
        let child = children[0]?;
        self.table.parent_number(kind, child)
    }

    // The node of a kind and the elements that wait from a place on, which it takes: the one that
    // the cache keeps, or else a new one, which it keeps from now on where it is eligible. A
    // refused call leaves the cache as it was, and all waits on.
    pub(crate) fn node(
        &mut self,
        kind: SyntaxKind,
        waiting: &mut FinishedElements,
        first: usize,
    ) -> Result<Interned, Fault>
        requires within { first ≤ length (elements waiting.old) }
        requires numbered { AreNumbered self.old (elements waiting.old) (numbers_of waiting.old) }
        requires room { HasRoom waiting.old }

        // The node, or why there is none.
        ensures ok { let ts = drop first (elements waiting.old) in
            IfOk result (λ i. i.element ≡ Node (node_of kind.0 ts)) }
        ensures within { OnOk result (AreWithin (drop first (elements waiting.old))) }
        ensures number { IfOk result (IsNumbered self.new) }
        ensures err { IfErr result (WhyNoNode (drop first (elements waiting.old))) }

        // What the cache keeps.
        ensures kept { let ts = drop first (elements waiting.old) in
            OnOk result (self.new ≡ intern self.old (Node (node_of kind.0 ts))) }
        ensures unchanged { OnErr result (self.new ≡ self.old) }

        // What waits on.
        ensures rest { OnOk result (IsCutAt first waiting.old waiting.new) }
        ensures all { OnErr result (IsSame waiting.old waiting.new) }
    {
        let children = waiting.numbers_from(first);
        if let Some(number) = self.only_parent(kind, children) {
            let found = share_at(&self.table, number)?;
            waiting.truncate(first);
            return Ok(found);
        }
        if !write_numbers(&mut self.numbers, self.limit, children)? {
            let node = waiting.make_node(kind, first)?;
            return Ok(Interned {
                number: None,
                element: NodeOrToken::Node(node),
            });
        }
        let numbers = self.numbers.as_slice();
        let hash = table::node_hash(kind, numbers);
        if let Some(number) = self.table.node_number(hash, kind, numbers) {
            let found = share_at(&self.table, number)?;
            waiting.truncate(first);
            return Ok(found);
        }
        let node = GreenNode::from_shared(self.alloc, kind, waiting.elements_from(first))?;
        let kept = NodeOrToken::Node(node.clone()?);
        let number = self.table.keep(hash, kept, self.numbers.as_slice())?;
        waiting.truncate(first);
        Ok(Interned {
            number: Some(number),
            element: NodeOrToken::Node(node),
        })
    }
}

// The value that stands at a number, which is shared.
fn share_at(table: &ValueTable, number: u32) -> Result<Interned, AllocError>
    requires { number < length table.now }
    ensures at { IfOk result (λ i. (i.number ≡ Some number)
        × (slice_get table.now number ≡ Some i.element)) }
    ensures fits { (t : Term) → slice_get table.now number ≡ Some t → KeepsLimits t }
{
    let element = table.value(number).share()?;
    Ok(Interned {
        number: Some(number),
        element,
    })
}

// Writes down the numbers of children, where there are at most `limit` and each has one.
fn write_numbers(
    numbers: &mut Vec<u32>,
    limit: usize,
    children: &[Option<u32>],
) -> Result<bool, AllocError>
    ensures kept { IfOk result (λ kept. kept ≡ gets_number limit children.now) }
    ensures numbers { IfOk result (λ kept.
        kept ≡ true → ListsNumbers children.now numbers.new.items) }
{
    numbers.clear();
    if children.len() > limit {
        return Ok(false);
    }
    for child in children {
        let Some(number) = *child else {
            return Ok(false);
        };
        numbers.push(number)?;
    }
    Ok(true)
}
