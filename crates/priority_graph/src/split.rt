//! For each fact, which of those that conflict with it are worse, and which block it.

ghost use Rattle.std.specs.Prelude.{◌≡◌, ◌+◌, ◌<◌, ◌^◌, ◌++◌, ◌==◌, length, not, slice_index, All, IfOk, OnOk};
ghost use Rattle.priority_graph.specs.Split.{AreParted, AreSplitEntries, entries_of, pair_entries};

use crate::numbers::{set_each, zeros};
use cq_terms::{Conflicts, FlatLists, KeyedNumber, NoMemory, Pair};
use std::alloc::Global;

/// Two lists for each fact.
#[derive(Drop)]
pub(crate) struct WorseAndBlockers {
    /// The facts that the fact is better than, ascending.
    pub(crate) worse: FlatLists,
    /// The other facts that conflict with the fact, ascending.
    pub(crate) blockers: FlatLists,
}

/// Parts the facts that conflict with each fact by whether the pair of the two is listed.
pub(crate) fn split(
    alloc: Global,
    pairs: &[Pair],
    conflicts: &Conflicts,
) -> Result<WorseAndBlockers, NoMemory>
    requires few { length pairs.now < 2 ^ 31 }
    requires named { All (λ p. (p.upper < conflicts.now.facts) × (p.lower < conflicts.now.facts)) pairs.now }

    ensures exact { IfOk result (λ s. AreParted pairs.now conflicts.now s.worse s.blockers) }
{
    let entries = listed_entries(alloc, pairs)?;
    let listed = FlatLists::grouped(alloc, conflicts.facts(), entries.as_slice())?;
    let split = split_entries(alloc, &listed, conflicts)?;
    let worse = FlatLists::grouped(alloc, conflicts.facts(), split.worse.as_slice())?;
    let blockers = FlatLists::grouped(alloc, conflicts.facts(), split.blockers.as_slice())?;
    Ok(WorseAndBlockers { worse, blockers })
}

/// Answers an entry for each pair, with the upper fact as the key.
fn listed_entries(alloc: Global, pairs: &[Pair]) -> Result<Vec<KeyedNumber>, NoMemory>
    ensures exact { IfOk result (λ entries. entries.items ≡ pair_entries pairs.now) }
{
    let mut entries = Vec::with_capacity(alloc, pairs.len())?;
    for pair in pairs {
        entries.push(KeyedNumber {
            key: pair.upper,
            value: pair.lower,
        })?;
    }
    Ok(entries)
}

/// The entries of both lists of each fact.
#[derive(Drop)]
struct SplitEntries {
    worse: Vec<KeyedNumber>,
    blockers: Vec<KeyedNumber>,
}

/// Parts the facts that conflict with each fact, in order, by whether the list of the fact has them.
fn split_entries(
    alloc: Global,
    listed: &FlatLists,
    conflicts: &Conflicts,
) -> Result<SplitEntries, NoMemory>
    requires all { length listed.now ≡ conflicts.now.facts }
    requires known { All (λ list. All (λ j. j < conflicts.now.facts) list) listed.now }

    ensures exact { IfOk result (λ s. AreSplitEntries conflicts.now listed.now conflicts.now.facts
        s.worse.items s.blockers.items) }
{
    let mut unmarked = zeros(alloc, conflicts.facts())?;
    let marks = unmarked.as_mut_slice();
    let mut entries = SplitEntries {
        worse: Vec::new(alloc),
        blockers: Vec::new(alloc),
    };
    for fact in 0..conflicts.facts() {
        set_each(marks, listed.list(fact), fact + 1);
        entries.take(marks, fact, conflicts.of(fact))?;
    }
    Ok(entries)
}

impl SplitEntries {
    /// Takes each fact that conflicts with `fact`, by whether its mark is that of `fact`.
    fn take(&mut self, marks: &[u32], fact: u32, rivals: &[u32]) -> Result<(), NoMemory>
        requires inside { All (λ j. j < length marks.now) rivals.now }
        requires fits { fact < 2 ^ 31 }

        ensures worse { OnOk result (self.new.worse.items
            ≡ self.old.worse.items ++ entries_of fact (λ j. slice_index marks.now j == fact + 1) rivals.now) }
        ensures blockers { OnOk result (self.new.blockers.items
            ≡ self.old.blockers.items ++ entries_of fact (λ j. not (slice_index marks.now j == fact + 1)) rivals.now) }
    {
        for rival in rivals {
            let entry = KeyedNumber {
                key: fact,
                value: *rival,
            };
            if marks[*rival as usize] == fact + 1 {
                self.worse.push(entry)?;
            } else {
                self.blockers.push(entry)?;
            }
        }
        Ok(())
    }
}
