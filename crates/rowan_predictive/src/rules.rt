//! The rules of a grammar, and what a parser does by them.
use rowan_parser::TokenSet;

/// What a rule derives. Rules are named by their numbers, tokens and nodes by their raw kinds.
#[derive(Clone, Copy)]
pub enum Rule {
    /// Nothing.
    Empty,
    /// A token of this kind, which is below 128.
    Token(u16),
    /// A node of this kind over what a rule derives.
    Node(u16, usize),
    /// What a rule derives, with nodes of `Wrap` around what stands so far in it.
    Chain(usize),
    /// A node of this kind around all that stands so far in the innermost chain, and what a rule
    /// derives.
    Wrap(u16, usize),
    /// What one rule derives, and then what the other does.
    Seq(usize, usize),
    /// What one of two rules derives.
    Choice(usize, usize),
    /// What a rule derives, or nothing.
    Optional(usize),
    /// What a rule derives, any number of times.
    Star(usize),
}

/// What is found of a rule.
#[derive(Clone, Copy)]
pub(crate) struct Facts {
    pub may_be_empty: bool,
    /// By which tokens it may begin.
    pub first: TokenSet,
    /// Which tokens may stand behind it.
    pub follow: TokenSet,
    /// How many steps are made for it at most, where the next token does not begin it.
    pub idle: u32,
    /// How many, where the next token begins it, until this is taken.
    pub busy: u32,
}

/// A rule, and what was found of it.
#[derive(Clone, Copy)]
pub(crate) struct Entry {
    pub rule: Rule,
    pub facts: Facts,
}

/// What is expected: a rule, the end of a node, or the end of a chain.
#[derive(Clone, Copy)]
pub(crate) enum Item {
    Want(usize),
    End,
    Leave,
}

/// What a parser may do where a rule is expected.
#[derive(Clone, Copy)]
pub(crate) enum Move {
    /// Take a token of this kind.
    Take(u16),
    /// Begin a node of this kind, in which the rule is expected.
    Enter(u16, usize),
    /// Begin a chain, in which the rule is expected.
    Begin(usize),
    /// Begin a node of this kind around what stands in the chain, and expect the rule in it.
    Surround(u16, usize),
    /// Expect one rule and then another.
    Both(usize, usize),
    /// Expect another rule in its place.
    Become(usize),
    /// Expect nothing.
    Pass,
}

/// One step of a derivation, or of a parser.
#[derive(Clone, Copy)]
pub enum Action {
    /// A node of this kind begins.
    Open(u16),
    /// A chain begins, which is no node.
    Mark,
    /// A node of this kind begins, around all that stands so far in the innermost chain.
    Around(u16),
    /// The innermost node ends.
    Close,
    /// The innermost chain ends.
    Done,
    /// The next token.
    Token,
    /// The next token, which has no place here.
    Skip,
}

/// At this token, or at the end, the next token does not fit what is expected.
#[derive(Clone, Copy)]
pub struct Complaint {
    /// The rule that is expected, or none where the end is.
    pub rule: Option<usize>,
    /// The number of the token, of those that are no trivia.
    pub place: usize,
}
