//! Arrays and inline tables, as far as a layout asks for them before it comes to their ends.

/// An array or an inline table.
#[derive(Clone, Copy)]
pub(crate) struct Bracket {
    /// How many characters it has where it stands in one line, its brackets included.
    pub(crate) width: usize,
    /// Whether it stands over several lines however wide it is, since a comment stands in it.
    pub(crate) has_comment: bool,
}

/// What is measured of a tree before it is laid out.
#[derive(Drop)]
pub(crate) struct Measures {
    /// The arrays and inline tables, in the order in which they begin.
    pub(crate) brackets: Vec<Bracket>,
    /// How many tokens are neither white space nor line ends.
    pub(crate) count: usize,
    /// Whether the first line of the text ends with a carriage return, too.
    pub(crate) has_returns: bool,
}
