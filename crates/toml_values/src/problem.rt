//! What may be wrong with a document whose syntax is right.
use rowan_green::TextRange;
use std::fmt;

/// The version of TOML that a document is held to.
#[derive(Clone, Copy, Debug, PartialEq, Eq, Hash)]
pub enum Version {
    V1_0,
    V1_1,
}

/// Something that is wrong.
#[derive(Clone, Copy, Debug, PartialEq, Eq, Hash)]
pub struct Problem {
    pub kind: ProblemKind,
    /// Where it stands, in bytes from the start of the text.
    pub range: TextRange,
    /// Where it stands for the first time, if it stands there twice.
    pub first: Option<TextRange>,
}

/// What is wrong.
#[derive(Clone, Copy, Debug, PartialEq, Eq, Hash)]
pub enum ProblemKind {
    /// A key that its table has already.
    DuplicateKey,
    /// A header of a table that has one already, or whose table dotted keys have made.
    DuplicateTable,
    /// A header `[a]` of what is an array of tables.
    TableOfArray,
    /// A header `[[a]]` of what is a table, or of an array that is a value.
    ArrayOfTable,
    /// A header or a dotted key through what is a value and no table.
    ThroughValue,
    /// A dotted key into a table that has a header of its own.
    IntoHeader,
    /// A dotted key into an array of tables.
    IntoArray,
    /// A header or a dotted key into an inline table or an array in brackets.
    IntoInline,
    /// A sequence after a backslash that is no escape, or none of a character.
    Escape,
    /// A control character in a string, or a carriage return without a line feed.
    ControlInString,
    /// A control character in a comment.
    ControlInComment,
    /// An underscore in a number that does not stand between two digits.
    Underscore,
    /// A number that is written otherwise than TOML does.
    Number,
    /// An integer that is less than -9,223,372,036,854,775,808 or more than
    /// 9,223,372,036,854,775,807.
    IntegerRange,
    /// A date or a time that does not exist, or that is written otherwise than TOML does.
    DateTime,
    /// Of TOML 1.1: `\e` and `\x`.
    NewEscape,
    /// Of TOML 1.1: a time without seconds.
    NoSeconds,
    /// Of TOML 1.1: a line end in an inline table.
    LineEndInTable,
    /// Of TOML 1.1: a comma behind the last entry of an inline table.
    CommaAtEnd,
}

impl ProblemKind {
    /// Whether TOML 1.1 allows it, and TOML 1.0 does not.
    pub fn is_of_1_1(self) -> bool {
        matches!(
            self,
            ProblemKind::NewEscape
                | ProblemKind::NoSeconds
                | ProblemKind::LineEndInTable
                | ProblemKind::CommaAtEnd
        )
    }

    /// What is wrong, in words.
    pub fn message(self) -> &'static str {
        match self {
            ProblemKind::DuplicateKey
            | ProblemKind::DuplicateTable
            | ProblemKind::TableOfArray
            | ProblemKind::ArrayOfTable
            | ProblemKind::ThroughValue
            | ProblemKind::IntoHeader
            | ProblemKind::IntoArray
            | ProblemKind::IntoInline => self.about_tables(),
            _ if self.is_of_1_1() => self.about_1_1(),
            _ => self.about_tokens(),
        }
    }

    fn about_tables(self) -> &'static str {
        match self {
            ProblemKind::DuplicateKey => "this key stands twice in its table",
            ProblemKind::DuplicateTable => "this table is defined twice",
            ProblemKind::TableOfArray => "this is an array of tables: write `[[..]]`",
            ProblemKind::ArrayOfTable => "this is no array of tables",
            ProblemKind::ThroughValue => "this key has a value, which is no table",
            ProblemKind::IntoHeader => "a dotted key can't add to a table that has a header",
            ProblemKind::IntoArray => "a dotted key can't add to an array of tables",
            _ => "nothing can be added to an inline table or an array",
        }
    }

    fn about_1_1(self) -> &'static str {
        match self {
            ProblemKind::NewEscape => "this escape is of TOML 1.1",
            ProblemKind::NoSeconds => "a time without seconds is of TOML 1.1",
            ProblemKind::LineEndInTable => "a line end in an inline table is of TOML 1.1",
            _ => "a comma at the end of an inline table is of TOML 1.1",
        }
    }

    fn about_tokens(self) -> &'static str {
        match self {
            ProblemKind::Escape => "this is no escape of TOML",
            ProblemKind::ControlInString => "a control character can't stand in a string",
            ProblemKind::ControlInComment => "a control character can't stand in a comment",
            ProblemKind::Underscore => "an underscore has to stand between two digits",
            ProblemKind::Number => "this is no number of TOML",
            ProblemKind::IntegerRange => "an integer has to fit into 64 bits",
            _ => "this is no date and no time of TOML",
        }
    }
}

impl fmt::Display for ProblemKind {
    fn fmt<W: fmt::Write>(&self, f: &mut fmt::Formatter<W>) -> fmt::Result {
        f.write_str(self.message())
    }
}
