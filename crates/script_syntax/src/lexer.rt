//! The tokens of scripts. The lexer has modes: code, and the inside of a string.
ghost use Rattle.std.specs.Prelude.{⊤};

use crate::kinds::{Kind, Script};
use crate::pieces::{Piece, code_piece, ends_in_line, has_line_end, string_piece};
use rowan::Language;
use rowan_parser::{Lexeme, Lexer};

/// The mode of the lexer. It begins in code, at the start of a line.
///
/// A string ends in its line with all that it holds, so an error in it changes no other line.
#[derive(Clone, Copy)]
pub struct Modes {
    /// The braces that are open in strings, the last one as the lowest bit: 1 for `${`, which leads
    /// from a string into code, and 0 for `{`. Above all of them stands a 1.
    braces: u128,
    /// The next token is a part of a string.
    in_string: bool,
    /// The line has had nothing but white space.
    at_line_start: bool,
}

/// No brace is open in a string.
const NO_BRACES: u128 = 1;

/// From here on 127 braces are open in strings, and there is no room for another one.
const FULL: u128 = 1 << 127;

const UNCLOSED: &str = "this string does not end in its line";

const TOO_DEEP: &str = "strings are nested too deeply";

impl Modes {
    pub fn new() -> Modes {
        Modes {
            braces: NO_BRACES,
            in_string: false,
            at_line_start: true,
        }
    }

    fn string(&mut self, rest: &str) -> Piece {
        let piece = string_piece(rest);
        match piece.kind {
            Kind::HoleOpen => return self.open(piece, Kind::StringText),
            Kind::CloseQuote => self.in_string = false,
            _ => {}
        }
        piece
    }

    fn code(&mut self, rest: &str) -> Piece {
        let piece = code_piece(rest);
        match piece.kind {
            Kind::LBrace if self.braces > NO_BRACES => return self.open(piece, Kind::Unknown),
            Kind::RBrace if self.braces > NO_BRACES => return self.close(piece),
            Kind::Comment if !self.at_line_start => return piece.with_kind(Kind::Remark),
            Kind::OpenQuote => self.in_string = true,
            _ => {}
        }
        piece
    }

    /// Opens a brace. Where there is no room for it, the piece gets another kind.
    fn open(&mut self, piece: Piece, otherwise: Kind) -> Piece {
        if self.braces >= FULL {
            return piece.with_kind(otherwise).with_message(TOO_DEEP);
        }
        self.braces *= 2;
        if self.in_string {
            self.braces += 1;
            self.in_string = false;
        }
        piece
    }

    /// Closes the brace that was opened last.
    fn close(&mut self, piece: Piece) -> Piece {
        self.in_string = self.braces % 2 == 1;
        self.braces /= 2;
        if self.in_string {
            return piece.with_kind(Kind::HoleClose);
        }
        piece
    }

    /// Ends strings at the end of a line.
    fn pass(&mut self, rest: &str, piece: Piece) -> Piece {
        self.at_line_start = self.at_line_start && piece.kind == Kind::Whitespace;
        if piece.kind == Kind::Whitespace && has_line_end(rest, piece.len) {
            *self = Modes::new();
        }
        if self.in_string && ends_in_line(rest, piece.len) {
            self.in_string = false;
            return piece.with_message(UNCLOSED);
        }
        piece
    }
}

impl Lexer for Modes {
    ghost is_ready = { λ _. ⊤ };

    ghost says = { λ _ _ _ _. ⊤ };

    fn next(&mut self, rest: &str) -> Lexeme {
        let piece = if self.in_string {
            self.string(rest)
        } else {
            self.code(rest)
        };
        let piece = self.pass(rest, piece);
        Lexeme {
            kind: Script::kind_to_raw(piece.kind),
            len: piece.len,
            message: piece.message,
        }
    }
}
