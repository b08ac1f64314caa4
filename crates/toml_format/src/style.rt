//! How a text is laid out.

/// How a text is laid out. The default is 80 characters, two spaces, and blank lines kept.
#[derive(Clone, Copy, PartialEq, Eq, Debug)]
pub struct Style {
    /// An array whose line would be longer than so many characters stands over several lines.
    pub width: usize,
    /// How many spaces further in the elements of an array over several lines stand.
    pub indent: usize,
    /// Whether blank lines stay, one in the place of several. Else each table has one above it, and
    /// no other stays but below comments, where it says to what these belong.
    pub keeps_blank_lines: bool,
}

impl Default for Style {
    fn default() -> Style {
        Style {
            width: 80,
            indent: 2,
            keeps_blank_lines: true,
        }
    }
}
