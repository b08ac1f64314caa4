//! The steps of the cases.

use crate::calls::{Call, Way};
use crate::making::Make;
use crate::moving::Listing;
use crate::searches::Search;
use crate::sessions::Playing;
use crate::texts::{Question, Slice};
use crate::traces::Stride;
use crate::walks::Walk;
use rowan_moves::Move;
use rowan_transcript::Phase;

/// A step of a case. The tree, the parse and so on is the last one that was made; the place is
/// where the last step went.
#[derive(Clone, Copy)]
pub enum Step {
    /// What the case does from now on.
    Phase(Phase),
    /// Builds by calls, with a cache of its own, and drops the tree.
    Build(&'static [Call]),
    /// Builds by the first calls, after which `finish` refuses the builder, and goes on with the
    /// others.
    BuildOn(&'static [Call], &'static [Call]),
    /// Builds over the cache of the case, and says what the cache keeps then.
    BuildOver(Way, &'static [Call]),
    Make(Make),
    /// Makes the first of these calls, so many of them, and then two steps.
    Session(Playing, &'static [Call], usize),
    /// Makes the steps from the place.
    Trace(&'static [Stride]),
    /// How much the cache of the case keeps.
    Counts,
    /// What the tree is.
    Tree,
    /// Whether the last two trees that were made are equal, edited ones counted.
    Equal,
    /// The same of trees with more than 128 levels, and whether they are hashed equally.
    Alike,
    /// How long the texts of the tree's children are.
    Lengths,
    /// Which child of the tree is at a range.
    ChildAt(u32, u32),
    /// Where a move from the place leads.
    Look(Move),
    /// Goes there.
    Go(Move),
    /// What is at a path of indexes of children, from the place.
    LookAt(&'static [usize]),
    /// Goes there.
    GoTo(&'static [usize]),
    /// Goes to the cursor of that number, from 0, of all that were made.
    GoToRoot(usize),
    /// The elements around the place.
    List(Listing),
    /// A walk from the place.
    Walk(Walk),
    /// What a clone of each iterator at the place gives first.
    Clones,
    /// What the iterators at the typed root give.
    Typed,
    /// Where the typed moves from the place lead.
    TypedMoves,
    /// What the place is with and without the kinds of its language.
    Conversions,
    /// Where the pointer to the place leads, and where it is once so many bytes stand in place of a
    /// range.
    Pointer(u32, u32, u32),
    /// What the wrappers of the place are.
    Wrappers,
    /// Why a text cannot take the place of the list where the case stands.
    NotOneList(&'static str),
    /// What is found at a range or an offset.
    Search(Search),
    /// What is found there from the typed place.
    TypedSearch(Search),
    /// Reads the text of the place.
    Text,
    /// Reads a slice of the text from now on.
    Slice(Slice),
    /// What the text answers.
    Ask(Question),
    /// Whether the text is that of the cursor of that number.
    SameText(usize),
    /// How the place is like the one where a move leads.
    Compare(Move),
    /// How the place is like the cursor of that number.
    CompareRoot(usize),
}

/// A case: it begins by making values, and in the end it drops all.
#[derive(Clone, Copy)]
pub struct Case {
    pub name: &'static str,
    pub steps: &'static [Step],
}
