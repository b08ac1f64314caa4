//! Counters of the steps that searches take.
ghost use Rattle.std.specs.Prelude.{◌≡◌, ◌≤◌};
ghost use Rattle.rowan_green.specs.Steps.{one_more};

use std::marker::Model;

/// How many steps searches have taken. A comparison is one of a child's range with the range that
/// is searched, and a visit is one node that is looked at by itself. A counter that has reached its
/// greatest value, 2^64 - 1, stays there.
#[derive(Clone, Copy, PartialEq, Eq, Debug)]
pub struct Steps {
    comparisons: u64,
    visits: u64,
}

impl Model for Steps {
    ghost use Rattle.rowan_green.specs.Steps.{Tally};

    ghost Value = { Tally };

    ghost view = { λ s. record { comparisons = s.comparisons; visits = s.visits } };

    ghost inverse = { λ t. record { comparisons = t.comparisons; visits = t.visits } };
}

impl Steps {
    /// No steps yet.
    pub fn new() -> Steps
        ensures { result ≡ record { comparisons = 0; visits = 0 } }
    {
        Steps {
            comparisons: 0,
            visits: 0,
        }
    }

    /// How many comparisons there were.
    pub fn comparisons(&self) -> u64
        ensures { result ≡ self.now.comparisons }
    {
        self.comparisons
    }

    /// How many visits there were.
    pub fn visits(&self) -> u64
        ensures { result ≡ self.now.visits }
    {
        self.visits
    }

    /// Counts one more visit.
    pub fn visit(&mut self)
        ensures visits { self.new.visits ≡ one_more self.old.visits }
        ensures grows { self.old.visits ≤ self.new.visits }
        ensures comparisons { self.new.comparisons ≡ self.old.comparisons }
    {
        self.visits = self.visits.saturating_add(1);
    }

    /// Counts one more comparison.
    pub fn compare(&mut self)
        ensures comparisons { self.new.comparisons ≡ one_more self.old.comparisons }
        ensures grows { self.old.comparisons ≤ self.new.comparisons }
        ensures visits { self.new.visits ≡ self.old.visits }
    {
        self.comparisons = self.comparisons.saturating_add(1);
    }
}
