//! The cases of lists that are parsed anew.

use crate::cases::{MAKING, MOVING, SUM};
use crate::making::Make;
use crate::step::{Case, Step};
use rowan_moves::Move;

pub const REPARSES: [Case; 7] = [
    Case {
        name: "reparsed_inner_list",
        steps: &[
            Step::Make(Make::Parsed(SUM)),
            Step::Make(Make::Root),
            MOVING,
            Step::GoToRoot(0),
            Step::GoTo(&[0, 3]),
            Step::NotOneList("(* 7"),
            Step::NotOneList("(a) (b)"),
            MAKING,
            Step::Make(Make::Reparsed("(* 7 (+ 1 1))")),
            Step::Make(Make::Parsed("(+ (* 7 (+ 1 1)) 62)")),
            Step::Equal,
            MOVING,
            Step::GoToRoot(0),
            Step::Text,
        ],
    },
    Case {
        name: "lists_of_reparses",
        steps: &[
            Step::Make(Make::ListEdits(&[(3, 11, "()"), (3, 5, "(* 15 2)")])),
            Step::Make(Make::ReparsedAll(SUM)),
            Step::Make(Make::Parsed(SUM)),
            Step::Equal,
            Step::Make(Make::ListEdits(&[(0, 15, "(a (b))"), (3, 6, "(c (d) e)"), (6, 9, "()")])),
            Step::Make(Make::ReparsedAll(SUM)),
            Step::Make(Make::Parsed("(a (c () e))")),
            Step::Equal,
        ],
    },
    Case {
        name: "a list that becomes an empty one, and back",
        steps: &[
            Step::Make(Make::Parsed(SUM)),
            Step::Make(Make::Root),
            MOVING,
            Step::GoToRoot(0),
            Step::GoTo(&[0, 3]),
            MAKING,
            Step::Make(Make::Reparsed("()")),
            Step::Make(Make::Parsed("(+ () 62)")),
            Step::Equal,
            Step::Make(Make::Root),
            MOVING,
            Step::GoToRoot(1),
            Step::GoTo(&[0, 3]),
            MAKING,
            Step::Make(Make::Reparsed("(* 15 2)")),
            Step::Make(Make::Parsed(SUM)),
            Step::Equal,
        ],
    },
    Case {
        name: "a list in a text whose lists are not closed",
        steps: &[
            Step::Make(Make::Parsed("(a (b")),
            Step::Make(Make::Root),
            MOVING,
            Step::GoToRoot(0),
            Step::GoTo(&[0, 3]),
            MAKING,
            Step::Make(Make::Reparsed("(c)")),
            Step::Make(Make::Parsed("(a (c)")),
            Step::Equal,
        ],
    },
    Case {
        name: "white space in a list that is not closed",
        steps: &[
            Step::Make(Make::Parsed("(a ")),
            Step::Make(Make::Root),
            MOVING,
            Step::GoToRoot(0),
            Step::Go(Move::FirstChild),
            MAKING,
            Step::Make(Make::Reparsed("(b)")),
            Step::Make(Make::Parsed("(b)")),
            Step::Equal,
        ],
    },
    Case {
        name: "lists_of_reparses, of which one is refused",
        steps: &[
            Step::Make(Make::ListEdits(&[(3, 11, "()"), (12, 14, "(a)")])),
            Step::Make(Make::ReparsedAll(SUM)),
            Step::Make(Make::ListEdits(&[(3, 11, "()"), (0, 9, "(a")])),
            Step::Make(Make::ReparsedAll(SUM)),
            Step::Make(Make::ListEdits(&[(0, 15, "(a) (b)")])),
            Step::Make(Make::ReparsedAll(SUM)),
        ],
    },
    Case {
        name: "no reparses",
        steps: &[
            Step::Make(Make::ListEdits(&[])),
            Step::Make(Make::ReparsedAll(SUM)),
            Step::Make(Make::Parsed(SUM)),
            Step::Equal,
        ],
    },
];
