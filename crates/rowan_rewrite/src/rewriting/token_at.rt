//! A token, and where it stands in its tree.
ghost use Rattle.std.specs.Prelude.{◌+◌, ◌<◌, ◌≤◌, length};
ghost use Rattle.rowan_green.specs.Fits.{byte_limit};
ghost use Rattle.rowan_green.specs.Term.{node_children, token_len};

use rowan_green::green::{GreenElementRef, GreenNode, GreenToken, SyntaxKind};
use rowan_green::text::{TextRange, TextSize};

/// A token of a tree, and where it stands there. It is copied at will, and each call takes constant
/// time and no memory.
#[derive(Clone, Copy)]
pub struct TokenAt<'tree> {
    token: &'tree GreenToken,
    parent: &'tree GreenNode,
    index: usize,
    start: u32,
    ghost within: { index < length (node_children parent.now) },
    ghost fits: { start + token_len token.now ≤ byte_limit },
}

impl<'tree> TokenAt<'tree> {
    ghost use Rattle.std.specs.Prelude.{◌≡◌, ◌-◌, MatchOption, Some, None, slice_get};
    ghost use Rattle.rowan_green.specs.Lent.{pointee};
    ghost use Rattle.rowan_rewrite.specs.TokenAts.{token_in, parent_in, index_in, start_in};

    // The token at an index among the children of a node, whose text starts at an offset.
    pub(super) fn new(
        token: &'tree GreenToken,
        parent: &'tree GreenNode,
        index: usize,
        start: TextSize,
    ) -> TokenAt<'tree>
        requires within { index < length (node_children parent.now) }
        requires fits { start + token_len token.now ≤ byte_limit }
        ensures token { result.token.now ≡ token.now }
        ensures parent { result.parent.now ≡ parent.now }
        ensures index { result.index ≡ index }
        ensures start { result.start ≡ start }
    {
        TokenAt {
            token,
            parent,
            index,
            start: u32::from(start),
        }
    }

    /// The token.
    pub fn token(&self) -> &'tree GreenToken
        ensures { result.now ≡ token_in self.now }
    {
        self.token
    }

    /// The kind of the token.
    pub fn kind(&self) -> SyntaxKind
        ensures { result.0 ≡ (token_in self.now).kind }
    {
        self.token.kind()
    }

    /// The text of the token.
    pub fn text(&self) -> &'tree str
        ensures { result.now ≡ (token_in self.now).text }
    {
        self.token.text()
    }

    /// Where the text of the token lies in that of the tree, in bytes.
    pub fn range(&self) -> TextRange
        ensures { let start = start_in self.now in
            result ≡ record { start = start; end = start + token_len (token_in self.now) } }
    {
        TextRange::at(TextSize::from(self.start), self.token.text_len())
    }

    /// The node whose child the token is. It is a node of the old tree.
    pub fn parent(&self) -> &'tree GreenNode
        ensures { result.now ≡ parent_in self.now }
    {
        self.parent
    }

    /// The index of the token among the children of its parent.
    pub fn index(&self) -> usize
        ensures { result ≡ index_in self.now }
    {
        self.index
    }

    /// The child of the parent that stands before the token. `None` where the token is the first.
    pub fn before(&self) -> Option<GreenElementRef<'tree>>
        ensures { MatchOption result (index_in self.now ≡ 0) (λ e. (0 < index_in self.now)
            × (slice_get (node_children (parent_in self.now)) (index_in self.now - 1)
            ≡ Some (pointee e))) }
    {
        if self.index == 0 {
            return None;
        }
        let Some(found) = self.parent.child_ref(self.index - 1) else {
            return None;
        };
        Some(found.1)
    }

    /// The child of the parent that stands behind the token. `None` where the token is the last.
    pub fn behind(&self) -> Option<GreenElementRef<'tree>>
        ensures { let found = slice_get (node_children (parent_in self.now)) (index_in self.now + 1) in
            MatchOption result (found ≡ None) (λ e. found ≡ Some (pointee e)) }
    {
        // A node is within the limits, and with it each place among its children.
        let _children = self.parent.children();
        let Some(found) = self.parent.child_ref(self.index + 1) else {
            return None;
        };
        Some(found.1)
    }
}
