//! The newest run of a list of open runs, or of those that a mark covers, or none.
ghost use Rattle.std.specs.Prelude.{◌≡◌, ◌+◌, ◌<◌, ◌≤◌, ◌^◌, nat_lt, IfSome, IfNone};

use std::marker::Model;

// A run by its number, or none. Contracts see one more than the number, or 0.
#[derive(Clone, Copy)]
pub(crate) struct Newest {
    above: usize,
}

impl Model for Newest {
    ghost use Rattle.std.specs.Prelude.{ℕ};

    ghost Value = { ℕ };

    ghost view = { λ n. n.above };

    ghost inverse = { λ n. record { above = n } };
}

impl Newest {
    /// No run.
    pub(crate) fn none() -> Newest
        ensures { result ≡ 0 }
    {
        Newest { above: 0 }
    }

    /// The run of this number.
    pub(crate) fn run(number: usize) -> Newest
        requires { number + 1 < 2 ^ 64 }
        ensures { result ≡ number + 1 }
    {
        Newest { above: number + 1 }
    }

    /// The run before the one of this number, or none.
    pub(crate) fn before(number: usize) -> Newest
        ensures { result ≡ number }
    {
        Newest { above: number }
    }

    /// Whether it is the run of this number, or a newer one.
    pub(crate) fn reaches(self, number: usize) -> bool
        ensures { result ≡ nat_lt number self }
    {
        self.above > number
    }

    /// Its number, if it is newer than another.
    pub(crate) fn number_past(self, other: Newest) -> Option<usize>
        ensures number { IfSome result (λ r. self ≡ r + 1) }
        ensures past { IfSome result (λ r. other ≤ r) }
        ensures none { IfNone result (self ≤ other) }
    {
        if self.above > other.above {
            Some(self.above - 1)
        } else {
            None
        }
    }
}
