//! The tokens of TOML. What a token is depends on where it stands: `1.5` is a float as a value, and
//! three tokens as a key.
use crate::kinds::{Kind, Toml};
use crate::scanning::{
    blanks_len, comment_len, key_len, line_end_len, string_at, white_len, word_len,
};
use crate::shapes::{begins_section_or_entry, kind_of_word, value_len};
use rowan::Language;
use rowan_parser::{Lexeme, Lexer};

/// How many brackets and braces may be open at once. One more is no token of TOML.
pub const MAX_DEPTH: u32 = 128;

/// Where a token stands.
#[derive(Clone, Copy, PartialEq, Eq)]
enum Place {
    /// At the start of the text, where a byte order mark may stand.
    Start,
    /// At the start of a line, outside of values.
    Line,
    /// Behind the `[` of a header.
    Header,
    /// Behind the `[[` of a header.
    ArrayHeader,
    /// In a key that is no header's.
    Key,
    /// Where a value may stand.
    Value,
    /// Behind a value, or a header.
    Behind,
}

/// The lexer of TOML.
#[derive(Clone, Copy)]
pub struct TomlLexer {
    place: Place,
    /// Of each open bracket, from the innermost one, a bit: whether it is a brace.
    braces: u128,
    /// How many brackets and braces are open.
    depth: u32,
}

/// The lexer at the start of a text.
pub const START: TomlLexer = TomlLexer {
    place: Place::Start,
    braces: 0,
    depth: 0,
};

/// The lexer at the start of a line, outside of values.
const LINE: TomlLexer = TomlLexer {
    place: Place::Line,
    braces: 0,
    depth: 0,
};

impl Lexer for TomlLexer {
    ghost is_ready = { λ _. Unit {0} };

    ghost says = { λ _ _ _ _. Unit {0} };

    fn next(&mut self, rest: &str) -> Lexeme {
        if self.place == Place::Start {
            self.place = Place::Line;
            if rest.starts_with('\u{feff}') {
                return valid(Kind::Whitespace, 3);
            }
        }
        let line_end = line_end_len(rest);
        if line_end > 0 {
            return self.line_end(rest, line_end);
        }
        match rest.bytes().next() {
            Some(b' ' | b'\t') => valid(Kind::Whitespace, blanks_len(rest)),
            Some(b'#') => valid(Kind::Comment, comment_len(rest)),
            _ => match self.place {
                Place::Start | Place::Line => self.at_line(rest),
                Place::Header => self.in_header(rest, "]", Kind::RBracket),
                Place::ArrayHeader => self.in_header(rest, "]]", Kind::RBrackets),
                Place::Key => self.in_key(rest),
                Place::Value => self.in_value(rest),
                Place::Behind => self.behind(rest),
            },
        }
    }
}

impl TomlLexer {
    /// A line end: one that ends an entry or a header, or all that is blank from it on.
    fn line_end(&mut self, rest: &str, len: usize) -> Lexeme {
        let white = white_len(rest);
        let next = rest.get(white..).unwrap_or("");
        if self.place == Place::Line || self.depth > 0 && !self.ends_before(next) {
            return valid(Kind::Whitespace, white);
        }
        *self = LINE;
        valid(Kind::Newline, len)
    }

    /// Whether what is open ends before a line: one that can't stand in it, and begins as an entry
    /// or a header. So one bracket that is missing does not make values of all keys behind it.
    fn ends_before(&self, line: &str) -> bool {
        let may_be_entry = self.is_in_braces() && self.place == Place::Key;
        begins_section_or_entry(line, may_be_entry)
    }

    fn is_in_braces(&self) -> bool {
        self.braces & 1 == 1
    }

    fn at_line(&mut self, rest: &str) -> Lexeme {
        if rest.starts_with("[[") {
            self.place = Place::ArrayHeader;
            return valid(Kind::LBrackets, 2);
        }
        if rest.starts_with('[') {
            self.place = Place::Header;
            return valid(Kind::LBracket, 1);
        }
        self.place = Place::Key;
        self.in_key(rest)
    }

    fn in_header(&mut self, rest: &str, end: &str, kind: Kind) -> Lexeme {
        if rest.starts_with(end) {
            self.place = Place::Behind;
            return valid(kind, end.len());
        }
        key_token(rest)
    }

    fn in_key(&mut self, rest: &str) -> Lexeme {
        match rest.bytes().next() {
            Some(b'=') => {
                self.place = Place::Value;
                valid(Kind::Equals, 1)
            }
            Some(b',' | b'}' | b']') if self.depth > 0 => self.in_brackets(rest),
            _ => key_token(rest),
        }
    }

    fn in_value(&mut self, rest: &str) -> Lexeme {
        match rest.bytes().next() {
            Some(b'[') => self.open(Kind::LBracket, false),
            Some(b'{') => self.open(Kind::LBrace, true),
            Some(b',' | b'}' | b']') => self.in_brackets(rest),
            Some(b'=') => valid(Kind::Equals, 1),
            _ => {
                self.place = Place::Behind;
                value_token(rest)
            }
        }
    }

    /// What stands behind a value: in brackets a comma or what closes them, and else nothing but the
    /// line's end.
    fn behind(&mut self, rest: &str) -> Lexeme {
        match rest.bytes().next() {
            Some(b',' | b'}' | b']') if self.depth > 0 => self.in_brackets(rest),
            _ if self.depth > 0 => misplaced(rest),
            _ => valid(Kind::Unknown, word_len(rest).max(1)),
        }
    }

    /// A comma or a closing bracket.
    fn in_brackets(&mut self, rest: &str) -> Lexeme {
        match rest.bytes().next() {
            Some(b'}') => self.close(Kind::RBrace, true),
            Some(b']') => self.close(Kind::RBracket, false),
            _ => {
                if self.depth > 0 && self.is_in_braces() {
                    self.place = Place::Key;
                } else {
                    self.place = Place::Value;
                }
                valid(Kind::Comma, 1)
            }
        }
    }

    fn open(&mut self, kind: Kind, is_brace: bool) -> Lexeme {
        if self.depth >= MAX_DEPTH {
            let message = "expected at most 128 open brackets";
            return lexeme(Kind::Unknown, 1, Some(message));
        }
        self.depth += 1;
        self.braces = (self.braces << 1) | u128::from(is_brace);
        self.place = match is_brace {
            true => Place::Key,
            false => Place::Value,
        };
        valid(kind, 1)
    }

    /// Closes what is innermost, if that is of this sort.
    fn close(&mut self, kind: Kind, is_brace: bool) -> Lexeme {
        if self.depth > 0 && self.is_in_braces() == is_brace {
            self.depth -= 1;
            self.braces >>= 1;
        }
        self.place = Place::Behind;
        valid(kind, 1)
    }
}

/// A token of a key.
fn key_token(rest: &str) -> Lexeme {
    if let Some(string) = string_at(rest) {
        return string;
    }
    match key_len(rest) {
        0 => sign(rest),
        len => valid(Kind::BareKey, len),
    }
}

/// A value in one token.
fn value_token(rest: &str) -> Lexeme {
    if let Some(string) = string_at(rest) {
        return string;
    }
    match value_len(rest) {
        0 => sign(rest),
        len => valid(kind_of_word(rest.get(..len).unwrap_or("")), len),
    }
}

/// What stands in brackets where a comma is wanted. It has no kind of its own: so the parser takes no
/// string for the key of an entry, and no bracket for that of a header.
fn misplaced(rest: &str) -> Lexeme {
    match string_at(rest) {
        Some(string) => Lexeme {
            kind: Toml::kind_to_raw(Kind::Unknown),
            ..string
        },
        None => valid(Kind::Unknown, value_len(rest).max(1)),
    }
}

/// A sign of TOML, where it may not stand, or a character that is none.
fn sign(rest: &str) -> Lexeme {
    let kind = match rest.bytes().next() {
        Some(b'.') => Kind::Dot,
        Some(b'=') => Kind::Equals,
        Some(b',') => Kind::Comma,
        Some(b'[') => Kind::LBracket,
        Some(b']') => Kind::RBracket,
        Some(b'{') => Kind::LBrace,
        Some(b'}') => Kind::RBrace,
        _ => Kind::Unknown,
    };
    valid(kind, 1)
}

pub(crate) fn valid(kind: Kind, len: usize) -> Lexeme {
    lexeme(kind, len, None)
}

pub(crate) fn lexeme(kind: Kind, len: usize, message: Option<&'static str>) -> Lexeme {
    Lexeme {
        kind: Toml::kind_to_raw(kind),
        len,
        message,
    }
}
