ghost use Rattle.std.specs.Prelude.{◌≡◌, [], ⊤, map};

use crate::fault::Fault;
use crate::green::GreenElement;
use crate::green::node::GreenChild;
use std::alloc::AllocError;
use std::fmt;
use std::iter::FusedIterator;
use std::marker::Model;

/// The children of a node that are left, from both ends. An item is `Err(Fault::Memory)` where a
/// child cannot be shared once more, and then nothing is left.
#[derive(Drop)]
pub struct Children<'a> {
    rest: &'a [GreenChild],
}

impl<'a> Model for Children<'a> {
    ghost use Rattle.std.specs.Prelude.{List, map};
    ghost use Rattle.rowan_green.specs.Term.{Term};
    ghost use Rattle.rowan_green.specs.Coding.{coded_term};
    ghost use Rattle.std.specs.Coded.{coded_list};

    ghost Value = { List Term };

    ghost coded = { coded_list coded_term };

    ghost use Rattle.rowan_green.specs.View.{child_term};

    ghost view = { λ c. map child_term c.rest.now };
}

impl<'a> Children<'a> {
    ghost use Rattle.rowan_green.specs.View.{child_term};

    pub(super) fn new(rest: &'a [GreenChild]) -> Children<'a>
        ensures { result ≡ map child_term rest.now }
    {
        Children { rest }
    }

    // Leaves nothing, as after a child that cannot be shared.
    fn end(&mut self)
        ensures { self.new ≡ [] }
    {
        self.rest = &[];
    }
}

// `Iterator` answers these calls by walking, and its methods are final. These take constant time. A
// child that is skipped is not shared, so no call fails for it.
impl<'a> Children<'a> {
    ghost use Rattle.std.specs.Prelude.{◌-◌, ◌+◌, ◌<◌, ◌≤◌, List, Option, Result, Some, None, OnSome};
    ghost use Rattle.std.specs.Prelude.{MatchOption, IsTrue, length, take, drop};
    ghost use Rattle.std.specs.List.{last_or};
    ghost use Rattle.std.specs.Iterator.{SkipsThenYields, Drains};
    ghost use Rattle.std.specs.Iterator.Runs.{SomeRun, WholeRun};
    ghost use Rattle.rowan_green.specs.declared.fault.Fault.{Fault};
    ghost use Rattle.rowan_green.specs.Gives.{GivesFirst, GivesLast};
    ghost use Rattle.rowan_green.specs.Term.{Term};

    /// Skips `n` children and gives the next one, in constant time. `None` where at most `n` are
    /// left, and then nothing is left.
    pub fn nth(&mut self, n: usize) -> Option<Result<GreenElement, Fault>>
        ensures gives { GivesFirst (drop n self.old) result self.new }

        // What `Iterator::nth` says.
        ensures ran { SkipsThenYields GivesFirst self.old n result self.new }
        ensures progress { OnSome result (length self.new + n < length self.old) }
        ensures runs { SomeRun GivesFirst self.old (λ p. MatchOption result
            (IsTrue p.whole × (p.len ≤ n)) (λ x. (p.len ≡ n + 1) × (p.at n ≡ Some x))) }
    {
        let (_, rest) = self.rest.split_at(n.min(self.rest.len()));
        self.rest = rest;
        self.next()
    }

    /// Skips `n` children at the back and gives the one before them, in constant time. `None` where
    /// at most `n` are left, and then nothing is left.
    pub fn nth_back(&mut self, n: usize) -> Option<Result<GreenElement, Fault>>
        ensures gives { GivesLast (take (length self.old - n) self.old) result self.new }

        // What `DoubleEndedIterator::nth_back` says.
        ensures ran { SkipsThenYields GivesLast self.old n result self.new }
        ensures progress { OnSome result (length self.new + n < length self.old) }
        ensures runs { SomeRun GivesLast self.old (λ p. MatchOption result
            (IsTrue p.whole × (p.len ≤ n)) (λ x. (p.len ≡ n + 1) × (p.at n ≡ Some x))) }
    {
        let (rest, _) = self.rest.split_at(self.rest.len().saturating_sub(n));
        self.rest = rest;
        self.next_back()
    }

    /// The last child that is left, in constant time.
    pub fn last(mut self) -> Option<Result<GreenElement, Fault>>
        ensures gives { (rest : List Term) × GivesLast self.entry result rest }

        // What `Iterator::last` says.
        ensures ran { (xs : List (Result Term Fault)) × Drains GivesFirst self.entry xs
            × (result ≡ last_or None xs) }
        ensures runs { WholeRun GivesFirst self.entry (λ p. MatchOption result (p.len ≡ 0)
            (λ x. (0 < p.len) × (p.at (p.len - 1) ≡ Some x))) }
    {
        self.next_back()
    }

    /// How many children are left, in constant time.
    pub fn count(self) -> usize
        ensures length { result ≡ length self.entry }

        // What `Iterator::count` says.
        ensures ran { (xs : List (Result Term Fault)) × Drains GivesFirst self.entry xs
            × (result ≡ length xs) }
        ensures runs { WholeRun GivesFirst self.entry (λ p. result ≡ p.len) }
    {
        self.rest.len()
    }
}

impl<'a> Iterator for Children<'a> {
    type Item = Result<GreenElement, Fault>;

    ghost use Rattle.std.specs.Prelude.{length, IfSome, Some};
    ghost use Rattle.std.specs.Iterator.{at_most, UpTo};
    ghost use Rattle.std.specs.Iterator.SizeHint.{IsWithinCount};
    ghost use Rattle.rowan_green.specs.Gives.{GivesFirst};

    ghost next_gives = { λ s r t. GivesFirst s r t };

    ghost remaining = { λ s. at_most (length s) };

    fn next(&mut self) -> Option<Result<GreenElement, Fault>> {
        let (first, rest) = self.rest.split_first()?;
        match first.as_ref().share() {
            Ok(element) => {
                self.rest = rest;
                Some(Ok(element))
            }
            Err(refused) => {
                self.end();
                Some(Err(Fault::from(refused)))
            }
        }
    }

    fn size_hint(&self) -> (usize, Option<usize>)
        ensures lower { IsWithinCount result.0 (at_most (length self.now)) }
        ensures upper { IfSome result.1 (UpTo (at_most (length self.now))) }
        ensures exact { result ≡ (length self.now, Some (length self.now)) }
    {
        (self.rest.len(), Some(self.rest.len()))
    }
}

impl<'a> DoubleEndedIterator for Children<'a> {
    ghost use Rattle.rowan_green.specs.Gives.{GivesLast};

    ghost next_back_gives = { λ s r t. GivesLast s r t };

    fn next_back(&mut self) -> Option<Result<GreenElement, Fault>> {
        let (last, rest) = self.rest.split_last()?;
        match last.as_ref().share() {
            Ok(element) => {
                self.rest = rest;
                Some(Ok(element))
            }
            Err(refused) => {
                self.end();
                Some(Err(Fault::from(refused)))
            }
        }
    }
}

impl<'a> ExactSizeIterator for Children<'a> {
    fn len(&self) -> usize {
        self.rest.len()
    }
}

impl<'a> FusedIterator for Children<'a> {}

impl<'a> Clone for Children<'a> {
    ghost is_clone = { λ children copy. copy ≡ children };

    ghost is_infallible = { λ _. ⊤ };

    fn clone(&self) -> Result<Children<'a>, AllocError> {
        Ok(Children { rest: self.rest })
    }
}

impl<'a> fmt::Debug for Children<'a> {
    fn fmt<W: fmt::Write>(&self, f: &mut fmt::Formatter<W>) -> fmt::Result {
        let left = self.rest.len();
        write!(f, "Children({left} left)")
    }
}
