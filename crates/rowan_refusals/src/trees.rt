//! The trees of the cases, each as the calls that build it.

use crate::calls::Call::{self, Finish, Mark, Start, StartAtMark, Token};

const WHITESPACE: u16 = 0;

const ADD: u16 = 1;

const MUL: u16 = 3;

const NUMBER: u16 = 5;

const OPERATION: u16 = 7;

const MATH_ROOT: u16 = 8;

const BLANK: Call = Token(WHITESPACE, " ");

/// The calls for `1 + 2 * 3 + 4`.
pub const MATH: [Call; 23] = [
    Start(MATH_ROOT),
    Mark,
    Token(NUMBER, "1"),
    BLANK,
    StartAtMark(0, OPERATION),
    Token(ADD, "+"),
    Mark,
    BLANK,
    Token(NUMBER, "2"),
    BLANK,
    StartAtMark(1, OPERATION),
    Token(MUL, "*"),
    BLANK,
    Token(NUMBER, "3"),
    Finish,
    BLANK,
    Finish,
    StartAtMark(0, OPERATION),
    Token(ADD, "+"),
    BLANK,
    Token(NUMBER, "4"),
    Finish,
    Finish,
];

pub const A: u16 = 1;

pub const B: u16 = 2;

const D: u16 = 4;

pub const X: Call = Token(9, "x");

const Y: Call = Token(9, "y");

const Z: Call = Token(9, "z");

/// A checkpoint that is past the elements, and later is not.
pub const PAST: [Call; 11] = [
    Start(D),
    Start(A),
    X,
    Y,
    Mark,
    Finish,
    StartAtMark(0, B),
    Z,
    StartAtMark(0, B),
    Finish,
    Finish,
];

/// A checkpoint that is before the open node, and a node too many that is finished.
pub const BEFORE: [Call; 6] = [Mark, X, Start(A), StartAtMark(0, B), Finish, Finish];

/// A node over `ab`, a node without children, and `cd`.
pub const AROUND_EMPTY: [Call; 6] = [
    Start(7),
    Token(2, "ab"),
    Start(5),
    Finish,
    Token(2, "cd"),
    Finish,
];

pub const WORD: u16 = 2;

const SPACE: u16 = 3;

const LIST: u16 = 5;

pub const ATOM: u16 = 6;

const ROOT: u16 = 7;

/// A list without children before a token.
pub const LIST_FIRST: [Call; 5] = [Start(ROOT), Start(LIST), Finish, Token(WORD, "a"), Finish];

/// A list without children between two tokens.
pub const LIST_BETWEEN: [Call; 6] = [
    Start(ROOT),
    Token(WORD, "a"),
    Start(LIST),
    Finish,
    Token(WORD, "b"),
    Finish,
];

/// A token, a list, a blank and an atom.
pub const AMONG_TOKENS: [Call; 10] = [
    Start(ROOT),
    Token(WORD, "a"),
    Start(LIST),
    Token(WORD, "b"),
    Finish,
    Token(SPACE, " "),
    Start(ATOM),
    Token(WORD, "c"),
    Finish,
    Finish,
];

/// A token and two lists without children.
pub const TWINS: [Call; 7] = [
    Start(ROOT),
    Token(WORD, "a"),
    Start(LIST),
    Finish,
    Start(LIST),
    Finish,
    Finish,
];

/// A token, a list without children, and an atom without children.
pub const LIST_BEFORE_ATOM: [Call; 7] = [
    Start(ROOT),
    Token(WORD, "a"),
    Start(LIST),
    Finish,
    Start(ATOM),
    Finish,
    Finish,
];

/// A list with a token, and a token.
pub const LIST_AND_TOKEN: [Call; 6] = [
    Start(ROOT),
    Start(LIST),
    Token(WORD, "a"),
    Finish,
    Token(WORD, "b"),
    Finish,
];

/// A root over `ab` and `cd`.
pub const TWO_WORDS: [Call; 4] = [Start(ROOT), Token(WORD, "ab"), Token(WORD, "cd"), Finish];

/// A root over `ab`, an empty token and `cd`.
pub const AROUND_EMPTY_TOKEN: [Call; 5] = [
    Start(ROOT),
    Token(WORD, "ab"),
    Token(WORD, ""),
    Token(WORD, "cd"),
    Finish,
];

/// A root over three parts of `helloworld`.
pub const IN_THREE: [Call; 5] = [
    Start(ROOT),
    Token(WORD, "hel"),
    Token(WORD, "lowo"),
    Token(WORD, "rld"),
    Finish,
];

/// A root over `helloworld`.
pub const IN_ONE: [Call; 3] = [Start(ROOT), Token(WORD, "helloworld"), Finish];

/// A root over a token with characters of more than one byte, and another such token.
pub const PAST_ASCII: [Call; 4] = [Start(ROOT), Token(WORD, "aé"), Token(WORD, "日"), Finish];

/// An atom over `b`.
pub const ATOM_B: [Call; 3] = [Start(ATOM), Token(WORD, "b"), Finish];

/// An atom over `7`.
pub const ATOM_SEVEN: [Call; 3] = [Start(ATOM), Token(WORD, "7"), Finish];

/// A root over an atom with `7`.
pub const ROOT_SEVEN: [Call; 5] = [Start(ROOT), Start(ATOM), Token(WORD, "7"), Finish, Finish];
