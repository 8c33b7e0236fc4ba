//! How many outcomes end alike: each end is kept once, with the outcomes that have it.

ghost use Rattle.std.specs.Prelude.{◌≡◌, ◌+◌, ◌<◌, ◌^◌, ◌++◌, ◌∷◌, [], ℕ, List, OnOk, flat_map, length, string_bytes};
ghost use Rattle.std.specs.List.{All};
ghost use Rattle.outcome_text.specs.OutcomeEnds.{AreTallied, end_head, end_line, ends_lines};

use indexmap::IndexMap;
use std::alloc::Allocator;
use std::hash::{BuildHasherDefault, FoldHasher};
use stop_board::NoMemory;

/// Outcomes that end alike: the place of the first of them among those that are printed, from 0, and how many they are.
#[derive(Clone, Copy, Debug)]
pub(crate) struct Tally {
    pub(crate) first: usize,
    pub(crate) count: usize,
}

/// How outcomes end: each end once, in the order in which they come first, and how many outcomes there are.
#[derive(Drop)]
pub(crate) struct EndTallies<A: Allocator> {
    pub(crate) tallies: IndexMap<String<A>, Tally, BuildHasherDefault<FoldHasher>, A>,
    pub(crate) outcomes: usize,
}

impl<A: Allocator + Copy> EndTallies<A> {
    /// Those of no outcome.
    pub(crate) fn new(alloc: A) -> EndTallies<A>
        ensures { AreTallied result.tallies.entries result.outcomes [] }
    {
        EndTallies {
            tallies: IndexMap::new(alloc),
            outcomes: 0,
        }
    }

    /// Counts one more outcome, which ends so.
    pub(crate) fn add(&mut self, end: String<A>) -> Result<(), NoMemory>
        requires few { self.old.outcomes + 1 < 2 ^ 64 }
        requires tallied { (ends : List (List ℕ)) × AreTallied self.old.tallies.entries self.old.outcomes ends }
        ensures tallied { (ends : List (List ℕ)) → AreTallied self.old.tallies.entries self.old.outcomes ends →
            OnOk result (AreTallied self.new.tallies.entries self.new.outcomes (ends ++ string_bytes end ∷ [])) }
        ensures outcomes { OnOk result (self.new.outcomes ≡ self.old.outcomes + 1) }
    {
        let tally = match self.tallies.get(end.as_str()) {
            Some(tally) => Tally {
                first: tally.first,
                count: tally.count + 1,
            },
            None => Tally {
                first: self.outcomes,
                count: 1,
            },
        };
        self.tallies.insert(end, tally)?;
        self.outcomes += 1;
        Ok(())
    }

    /// Puts the ends of most outcomes first, and of those that as many have the one of the earlier outcome.
    pub(crate) fn put_most_first(&mut self) -> Result<(), NoMemory>
        ensures lines { (ends : List (List ℕ)) → AreTallied self.old.tallies.entries self.old.outcomes ends →
            OnOk result (flat_map end_line self.new.tallies.entries ≡ ends_lines ends) }
        ensures firsts { (ends : List (List ℕ)) → AreTallied self.old.tallies.entries self.old.outcomes ends →
            OnOk result (All (λ entry. entry.1.first < self.new.outcomes) self.new.tallies.entries) }
        ensures outcomes { self.new.outcomes ≡ self.old.outcomes }
    {
        self.tallies
            .sort_by(|_, one, _, other| other.count.cmp(&one.count))?;
        Ok(())
    }

    /// Writes a line for each end.
    pub(crate) fn write_lines<B: Allocator>(&self, out: &mut String<B>) -> Result<(), NoMemory>
        requires { All (λ entry. entry.1.first + 1 < 2 ^ 64) self.now.tallies.entries }
        ensures { OnOk result (string_bytes out.new
            ≡ string_bytes out.old ++ flat_map end_line self.now.tallies.entries) }
    {
        for (end, tally) in self.tallies.iter() {
            write_end_line(out, end.as_str(), tally)?;
        }
        Ok(())
    }
}

/// Writes how many outcomes end so, and the number of the first of them, from 1.
fn write_end_head<A: Allocator>(
    out: &mut String<A>,
    count: usize,
    first: usize,
) -> Result<(), NoMemory>
    requires { first + 1 < 2 ^ 64 }
    ensures { OnOk result (string_bytes out.new ≡ string_bytes out.old ++ end_head count first) }
{
    let number = first + 1;
    write!(out, "{count} outcomes, first {number}: ")?;
    Ok(())
}

/// Writes the line of the outcomes that end so.
#[tactic(auto, using(replay_files::proofs::Written::in_three))]
fn write_end_line<A: Allocator>(
    out: &mut String<A>,
    end: &str,
    tally: &Tally,
) -> Result<(), NoMemory>
    requires { tally.now.first + 1 < 2 ^ 64 }
    ensures { OnOk result (string_bytes out.new ≡ string_bytes out.old
        ++ (end_head tally.now.count tally.now.first ++ (end.now ++ 10 ∷ []))) }
{
    write_end_head(out, tally.count, tally.first)?;
    out.push_str(end)?;
    out.push_str("\n")?;
    Ok(())
}
