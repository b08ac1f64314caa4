//! Small types that all layers share.
ghost use Rattle.std.specs.Prelude.{◌≡◌, slice_get};
ghost use Rattle.std.specs.List.{last_or};
ghost use Rattle.std.specs.Option.{option_copied};

use std::{fmt, mem};

/// A node or a token, each of a type of its own.
#[derive(Clone, Copy, PartialEq, Eq, PartialOrd, Ord, Hash, Debug, Drop)]
pub enum NodeOrToken<N, T> {
    /// An inner part of a tree, which has children.
    Node(N),
    /// A leaf of a tree, which has a text of its own.
    Token(T),
}

impl<N, T> NodeOrToken<N, T> {
    ghost use Rattle.rowan_green.specs.Lent.{pointee, into_node, into_token};

    /// The node, or `None` of a token.
    pub fn into_node(self) -> Option<N>
    where
        T: Drop,
        ensures { result ≡ into_node self }
    {
        match self {
            NodeOrToken::Node(node) => Some(node),
            NodeOrToken::Token(_) => None,
        }
    }

    /// The token, or `None` of a node.
    pub fn into_token(self) -> Option<T>
    where
        N: Drop,
        ensures { result ≡ into_token self }
    {
        match self {
            NodeOrToken::Node(_) => None,
            NodeOrToken::Token(token) => Some(token),
        }
    }

    /// The node, lent, or `None` of a token.
    pub fn as_node(&self) -> Option<&N>
        ensures { option_copied result ≡ into_node self.now }
    {
        self.as_ref().into_node()
    }

    /// The token, lent, or `None` of a node.
    pub fn as_token(&self) -> Option<&T>
        ensures { option_copied result ≡ into_token self.now }
    {
        self.as_ref().into_token()
    }

    /// The node or the token, lent.
    pub fn as_ref(&self) -> NodeOrToken<&N, &T>
        ensures { pointee result ≡ self.now }
    {
        match self {
            NodeOrToken::Node(node) => NodeOrToken::Node(node),
            NodeOrToken::Token(token) => NodeOrToken::Token(token),
        }
    }
}

impl<N: fmt::Display, T: fmt::Display> fmt::Display for NodeOrToken<N, T> {
    ghost use Rattle.rowan_green.specs.Lent.{by_kind};

    ghost output = { by_kind N.output T.output };

    fn fmt<W: fmt::Write>(&self, f: &mut fmt::Formatter<W>) -> fmt::Result {
        match self {
            NodeOrToken::Node(node) => node.fmt(f),
            NodeOrToken::Token(token) => token.fmt(f),
        }
    }
}

/// The way along a list of siblings or tokens: to the next one, or back to the one before.
#[derive(Clone, Copy, PartialEq, Eq, PartialOrd, Ord, Hash, Debug)]
pub enum Direction {
    /// From left to right.
    Next,
    /// From right to left.
    Prev,
}

/// A step of a walk.
#[derive(Clone, Copy, Debug, Drop)]
pub enum WalkEvent<T> {
    /// Comes before what is below the element.
    Enter(T),
    /// Comes after what is below the element.
    Leave(T),
}

impl<T> WalkEvent<T> {
    ghost use Rattle.rowan_green.specs.WalkEvent.{event_value, SameEvent};

    /// An `Enter` of an `Enter` and a `Leave` of a `Leave`, at what `f` makes of the value.
    pub fn map<F: FnOnce(T) -> U, U>(self, f: F) -> WalkEvent<U>
        requires { F.pre f (event_value self) }
        ensures { SameEvent (F.post f) self result }
    {
        match self {
            WalkEvent::Enter(value) => WalkEvent::Enter(f(value)),
            WalkEvent::Leave(value) => WalkEvent::Leave(f(value)),
        }
    }
}

/// The tokens at an offset. As an iterator it gives them from left to right.
#[derive(Clone, Debug, Drop)]
pub enum TokenAtOffset<T> {
    /// There is no token.
    None,
    /// The offset lies in one token, or at an end of the text.
    Single(T),
    /// The offset lies between two tokens.
    Between(T, T),
}

impl<T> TokenAtOffset<T> {
    ghost use Rattle.rowan_green.specs.TokenAtOffset.{tokens_of, MapsInOrder};

    /// As many tokens, each made by `f`, the left one first.
    pub fn map<F: FnMut(T) -> U, U>(self, mut f: F) -> TokenAtOffset<U>
        requires { F.IsAlwaysCallable f }
        ensures { MapsInOrder F.step f self result }
    {
        match self {
            TokenAtOffset::None => TokenAtOffset::None,
            TokenAtOffset::Single(token) => TokenAtOffset::Single(f(token)),
            TokenAtOffset::Between(left, right) => {
                let left = f(left);
                let right = f(right);
                TokenAtOffset::Between(left, right)
            }
        }
    }

    /// The token, and of two the right one.
    pub fn right_biased(self) -> Option<T>
    where
        T: Drop,
        ensures { result ≡ last_or None (tokens_of self) }
    {
        match self {
            TokenAtOffset::None => None,
            TokenAtOffset::Single(token) => Some(token),
            TokenAtOffset::Between(_, right) => Some(right),
        }
    }

    /// The token, and of two the left one.
    pub fn left_biased(self) -> Option<T>
    where
        T: Drop,
        ensures { result ≡ slice_get (tokens_of self) 0 }
    {
        match self {
            TokenAtOffset::None => None,
            TokenAtOffset::Single(token) => Some(token),
            TokenAtOffset::Between(left, _) => Some(left),
        }
    }
}

impl<T: Drop> Iterator for TokenAtOffset<T> {
    type Item = T;

    ghost use Rattle.std.specs.Prelude.{length, IfSome, Some};
    ghost use Rattle.std.specs.Iterator.{YieldsFirst, item_count, UpTo};
    ghost use Rattle.std.specs.Iterator.SizeHint.{IsWithinCount};
    ghost use Rattle.rowan_green.specs.TokenAtOffset.{tokens_of};

    ghost next_gives = { YieldsFirst tokens_of };

    ghost remaining = { item_count tokens_of };

    fn next(&mut self) -> Option<T> {
        match mem::replace(self, TokenAtOffset::None) {
            TokenAtOffset::None => None,
            TokenAtOffset::Single(token) => Some(token),
            TokenAtOffset::Between(left, right) => {
                *self = TokenAtOffset::Single(right);
                Some(left)
            }
        }
    }

    fn size_hint(&self) -> (usize, Option<usize>)
        ensures lower { IsWithinCount result.0 (item_count tokens_of self.now) }
        ensures upper { IfSome result.1 (UpTo (item_count tokens_of self.now)) }
        ensures exact { result ≡ (length (tokens_of self.now), Some (length (tokens_of self.now))) }
    {
        (self.len(), Some(self.len()))
    }
}

impl<T: Drop> ExactSizeIterator for TokenAtOffset<T> {
    fn len(&self) -> usize {
        match self {
            TokenAtOffset::None => 0,
            TokenAtOffset::Single(_) => 1,
            TokenAtOffset::Between(_, _) => 2,
        }
    }
}
