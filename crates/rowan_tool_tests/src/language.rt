//! Printed trees of a language with two kinds, of which one has many raw kinds, and of one in which
//! both have.
use crate::parts::Part::{self, Close, Leaf, Open};
use crate::parts::tree;
use rowan::{Fault, Language, SyntaxKind, SyntaxNode};
use std::alloc::Global;
use std::test::Fail;

/// A language of groups, which have the raw kind 0, and leaves, which have all others.
#[derive(Clone, Copy, PartialEq, Eq, PartialOrd, Ord, Hash, Debug)]
struct Groups;

#[derive(Clone, Copy, PartialEq, Eq, PartialOrd, Ord, Hash, Debug)]
enum Kind {
    Group,
    Leaf,
}

impl Language for Groups {
    type Kind = Kind;

    ghost use Rattle.std.specs.Prelude.{◌==◌, codes, if◌then◌else◌};
    ghost use Rattle.rowan_tool_tests.specs.declared.language.Kind.TheVariants.{Group, Leaf};

    ghost meaning = { λ raw. if raw == 0 then Group else Leaf };

    ghost name = { elim [ Group ↦ codes "GROUP" | Leaf ↦ codes "LEAF" ] };

    ghost code = { elim [ Group ↦ 0 | Leaf ↦ 1 ] };

    fn kind_from_raw(raw: SyntaxKind) -> Kind {
        match raw.0 {
            0 => Kind::Group,
            _ => Kind::Leaf,
        }
    }

    fn kind_to_raw(kind: Kind) -> SyntaxKind {
        match kind {
            Kind::Group => SyntaxKind(0),
            Kind::Leaf => SyntaxKind(1),
        }
    }

    fn kind_name(kind: Kind) -> &'static str {
        match kind {
            Kind::Group => "GROUP",
            Kind::Leaf => "LEAF",
        }
    }
}

/// Whether a tree of these parts prints these lines.
fn prints<L: Language>(alloc: Global, parts: &[Part], lines: &str) -> Result<bool, Fault> {
    let root: SyntaxNode<L> = SyntaxNode::new_root(alloc, tree(alloc, parts)?)?;
    Ok(root.debug_tree(alloc)?.as_str() == lines)
}

/// A group in a group in a group, each with leaves for its brackets but for the outermost.
const NESTED_PARTS: [Part; 11] = [
    Open(0),
    Open(0),
    Leaf(7, "("),
    Open(0),
    Leaf(7, "("),
    Leaf(7, "a"),
    Leaf(7, ")"),
    Close,
    Leaf(7, ")"),
    Close,
    Close,
];

const NESTED: &str = r#"GROUP@0..5
  GROUP@0..5
    LEAF@0..1 "("
    GROUP@1..4
      LEAF@1..2 "("
      LEAF@2..3 "a"
      LEAF@3..4 ")"
    LEAF@4..5 ")"
"#;

/// A group of one leaf, and its lines.
const QUOTED: [([Part; 3], &str); 5] = [
    (
        [Open(0), Leaf(7, ""), Close],
        "GROUP@0..0\n  LEAF@0..0 \"\"\n",
    ),
    (
        [Open(0), Leaf(7, "\"\\\n'"), Close],
        "GROUP@0..4\n  LEAF@0..4 \"\\\"\\\\\\n'\"\n",
    ),
    (
        [Open(0), Leaf(7, "aaaaaaaaaaaaaaaaaaaaéaa"), Close],
        "GROUP@0..24\n  LEAF@0..24 \"aaaaaaaaaaaaaaaaaaaaéaa\"\n",
    ),
    (
        [Open(0), Leaf(7, "aaaaaaaaaaaaaaaaaaaaéaaaaa"), Close],
        "GROUP@0..27\n  LEAF@0..27 \"aaaaaaaaaaaaaaaaaaaaé ...\"\n",
    ),
    (
        [Open(0), Leaf(7, "aaaaaaaaaaaaaaaaaaaaaaaaa"), Close],
        "GROUP@0..25\n  LEAF@0..25 \"aaaaaaaaaaaaaaaaaaaaa ...\"\n",
    ),
];

#[test]
fn quotes_and_cuts(rt: HostRuntime) -> Result<(), Fail> {
    for (parts, lines) in QUOTED {
        assert!(rt; prints::<Groups>(rt.alloc(), parts.as_slice(), lines)?);
    }
    Ok(())
}

/// Leaves beside a group in brackets.
const BESIDE: [Part; 8] = [
    Open(0),
    Open(0),
    Leaf(7, "("),
    Leaf(7, "a b"),
    Leaf(7, ")"),
    Close,
    Leaf(7, "é"),
    Close,
];

#[test]
fn shows_the_text(rt: HostRuntime) -> Result<(), Fail> {
    let green = tree(rt.alloc(), &BESIDE)?;
    let root: SyntaxNode<Groups> = SyntaxNode::new_root(rt.alloc(), green)?;
    assert!(rt; root.kind() == Kind::Group);
    assert!(rt; root.to_string(rt.alloc())?.as_str() == "(a b)é");
    Ok(())
}

/// A language in which even raw kinds mean one kind, and odd ones the other.
#[derive(Clone, Copy, PartialEq, Eq, PartialOrd, Ord, Hash, Debug)]
pub struct Numbers;

#[derive(Clone, Copy, PartialEq, Eq, PartialOrd, Ord, Hash, Debug)]
pub enum Parity {
    Even,
    Odd,
}

impl Language for Numbers {
    type Kind = Parity;

    ghost use Rattle.std.specs.Prelude.{◌==◌, ◌%◌, codes, if◌then◌else◌};
    ghost use Rattle.rowan_tool_tests.specs.declared.language.Parity.TheVariants.{Even, Odd};

    ghost meaning = { λ raw. if raw % 2 == 0 then Even else Odd };

    ghost name = { elim [ Even ↦ codes "EVEN" | Odd ↦ codes "ODD" ] };

    ghost code = { elim [ Even ↦ 0 | Odd ↦ 1 ] };

    fn kind_from_raw(raw: SyntaxKind) -> Parity {
        if raw.0 % 2 == 0 {
            Parity::Even
        } else {
            Parity::Odd
        }
    }

    fn kind_to_raw(kind: Parity) -> SyntaxKind {
        match kind {
            Parity::Even => SyntaxKind(0),
            Parity::Odd => SyntaxKind(1),
        }
    }

    fn kind_name(kind: Parity) -> &'static str {
        match kind {
            Parity::Even => "EVEN",
            Parity::Odd => "ODD",
        }
    }
}

/// A node in a node, each with tokens, where no raw kind comes twice.
const NUMBERED: [Part; 8] = [
    Open(4),
    Leaf(1, "a"),
    Leaf(65534, "b"),
    Open(3),
    Leaf(2, "c"),
    Leaf(65535, "d"),
    Close,
    Close,
];

const NUMBERED_LINES: &str = r#"EVEN@0..4
  ODD@0..1 "a"
  EVEN@1..2 "b"
  ODD@2..4
    EVEN@2..3 "c"
    ODD@3..4 "d"
"#;

/// Each element has its line, and kinds are shown as what their raw kinds mean.
#[test]
fn prints_a_line_for_each_element(rt: HostRuntime) -> Result<(), Fail> {
    assert!(rt; prints::<Groups>(rt.alloc(), &NESTED_PARTS, NESTED)?);
    assert!(rt; prints::<Numbers>(rt.alloc(), &NUMBERED, NUMBERED_LINES)?);
    Ok(())
}
