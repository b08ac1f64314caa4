//! The steps of a trace, and what they report.
use rowan_cursor::cursor::{SyntaxElement, SyntaxNode, SyntaxToken};
use rowan_green::fault::Fault;
use rowan_green::green::{GreenNode, GreenToken};
use rowan_green::text::{TextRange, TextSize};

/// A call of a cursor, as a value. Offsets and ranges are counted from the start of the tree's
/// text, in bytes.
#[derive(PartialEq, Eq, Debug, Drop)]
pub enum Step {
    /// To the parent. A root has none.
    Parent,
    /// To the root.
    TreeTop,
    /// To the first child that is a node. A token has no children.
    FirstChild,
    /// To the last child that is a node.
    LastChild,
    /// To the first child.
    FirstChildOrToken,
    /// To the last child.
    LastChildOrToken,
    /// To the next sibling that is a node, from a node.
    NextSibling,
    /// To the nearest sibling before it that is a node, from a node.
    PrevSibling,
    /// To the next sibling.
    NextSiblingOrToken,
    /// To the sibling before.
    PrevSiblingOrToken,
    /// To the first token of all that are in a node. A token stays where it is.
    FirstToken,
    /// To the last token of all that are in a node. A token stays where it is.
    LastToken,
    /// To the next token of the tree, from a token.
    NextToken,
    /// To the token of the tree before, from a token.
    PrevToken,
    /// To the child of a node at a range.
    ChildAtRange(TextRange),
    /// To the element that covers a range, from a node that has the range.
    Covering(TextRange),
    /// To the token at an offset, of two the left one, from a node whose range has the offset or
    /// ends there.
    LeftTokenAt(TextSize),
    /// To the token at an offset, of two the right one, from a node whose range has the offset or
    /// ends there.
    RightTokenAt(TextSize),
    /// Puts a green node in the place of a node, and goes to the root of the new tree. Refused with
    /// `OtherKind` where the two are of different kinds, and with `TextTooLong` where the new tree
    /// would have more than 4,294,967,295 bytes.
    ReplaceNode(GreenNode),
    /// Puts a green token in the place of a token, and is refused as `ReplaceNode` is.
    ReplaceToken(GreenToken),
}

/// What became of a step.
#[derive(PartialEq, Eq, Debug, Drop)]
pub enum Report {
    /// The element to which the step led.
    Moved(SyntaxElement),
    /// The step led nowhere: its call found nothing; or it was not made, since a node or a token
    /// has no such call, or since the step's offset or range does not lie in the node's.
    Nowhere,
    /// The root of the new tree. The tree before is as it was, and so are its cursors.
    Replaced(SyntaxNode),
    /// The call was refused, and nothing has changed.
    Refused(Fault),
}

impl From<Result<Option<SyntaxNode>, Fault>> for Report {
    ghost use Rattle.std.specs.Prelude.{◌≡◌};
    ghost use Rattle.rowan_green.specs.declared.utility_types.NodeOrToken.TheVariants.{Node};
    ghost use Rattle.rowan_script.specs.Report.{report_of};

    ghost from_gives = { λ found report. report ≡ report_of Node found };

    fn from(found: Result<Option<SyntaxNode>, Fault>) -> Report {
        match found {
            Ok(Some(node)) => Report::Moved(SyntaxElement::from(node)),
            Ok(None) => Report::Nowhere,
            Err(fault) => Report::Refused(fault),
        }
    }
}

impl From<Result<Option<SyntaxToken>, Fault>> for Report {
    ghost use Rattle.std.specs.Prelude.{◌≡◌};
    ghost use Rattle.rowan_green.specs.declared.utility_types.NodeOrToken.TheVariants.{Token};
    ghost use Rattle.rowan_script.specs.Report.{report_of};

    ghost from_gives = { λ found report. report ≡ report_of Token found };

    fn from(found: Result<Option<SyntaxToken>, Fault>) -> Report {
        match found {
            Ok(Some(token)) => Report::Moved(SyntaxElement::from(token)),
            Ok(None) => Report::Nowhere,
            Err(fault) => Report::Refused(fault),
        }
    }
}

impl From<Result<Option<SyntaxElement>, Fault>> for Report {
    ghost use Rattle.std.specs.Prelude.{◌≡◌};
    ghost use Rattle.rowan_script.specs.Report.{report_of};

    ghost from_gives = { λ found report. report ≡ report_of (λ element. element) found };

    fn from(found: Result<Option<SyntaxElement>, Fault>) -> Report {
        match found {
            Ok(Some(element)) => Report::Moved(element),
            Ok(None) => Report::Nowhere,
            Err(fault) => Report::Refused(fault),
        }
    }
}
