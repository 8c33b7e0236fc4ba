//! Sets of system calls by their numbers.

ghost use Rattle.std.specs.Prelude.{◌≡◌, ◌==◌, ◌||◌, ◌<◌, ℕ, true, false};
ghost use Rattle.trace_options.specs.Calls.{has_call};

use std::marker::Model;

/// How many system calls a set keeps apart: the numbers below this one. All others are in a set, or none of them.
pub const NAMED_CALLS: u64 = 128;

/// A set of system calls: any numbers below [`NAMED_CALLS`], or every number.
#[derive(Clone, Copy, Debug, PartialEq, Eq, Hash)]
pub struct CallSet {
    /// The numbers below `NAMED_CALLS`, each by its bit.
    named: u128,
    /// Whether all other numbers are in the set.
    others: bool,
}

impl Model for CallSet {
    ghost use Rattle.trace_options.specs.Calls.{Calls};

    ghost Value = { Calls };

    ghost view = { λ s. record { named = s.named; others = s.others } };

    ghost inverse = { λ c. record { named = c.named; others = c.others } };
}

impl CallSet {
    /// The set of every number, also of those from `NAMED_CALLS` on.
    pub fn all() -> CallSet
        ensures { (nr : ℕ) → has_call result nr ≡ true }
    {
        CallSet {
            named: u128::MAX,
            others: true,
        }
    }

    /// The set of no number.
    pub fn none() -> CallSet
        ensures { (nr : ℕ) → has_call result nr ≡ false }
    {
        CallSet {
            named: 0,
            others: false,
        }
    }

    /// Adds the system call `nr` to the set.
    pub fn add(&mut self, nr: u64)
        requires { nr < NAMED_CALLS }
        ensures { (other : ℕ) → has_call self.new other ≡ (other == nr || has_call self.old other) }
    {
        self.named |= 1 << nr;
    }

    /// Whether the system call `nr` is in the set.
    pub fn contains(&self, nr: u64) -> bool
        ensures { result ≡ has_call self.now nr }
    {
        if nr < NAMED_CALLS {
            self.named >> nr & 1 == 1
        } else {
            self.others
        }
    }
}
