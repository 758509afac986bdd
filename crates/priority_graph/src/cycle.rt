//! A cycle among the facts that no order has: each waits for another one.

ghost use Rattle.std.specs.Prelude.{◌≡◌, ◌<◌, ◌≤◌, ◌^◌, ◌++◌, length, reverse, slice_index, All, IfOk, OnOk};
ghost use Rattle.priority_graph.specs.Relations.{IsCycle};
ghost use Rattle.priority_graph.specs.Orders.{AreLists};
ghost use Rattle.priority_graph.specs.Walks.{AreClosed, AreParents, IsLeft, IsParent, IsTurned};

use crate::numbers::{set_each, zeros};
use cq_terms::{FlatLists, Ids, NoMemory};
use std::alloc::Global;

/// Answers for each fact one that is left and has it in its list, where there is one.
pub(crate) fn parents(
    alloc: Global,
    lists: &FlatLists,
    counts: &[u32],
) -> Result<Vec<u32>, NoMemory>
    requires few { length counts.now ≤ 2 ^ 31 }
    requires lists { AreLists (length counts.now) lists.now }

    ensures exact { IfOk result (λ parents. AreParents lists.now counts.now parents.items) }
{
    let mut blank = zeros(alloc, counts.len() as u32)?;
    let parents = blank.as_mut_slice();
    for (fact, count) in counts.iter().enumerate() {
        if *count != 0 {
            set_each(parents, lists.list(fact as u32), fact as u32);
        }
    }
    Ok(blank)
}

/// The facts that are left, by their counts, and a parent for each.
#[derive(Drop)]
pub(crate) struct Unplaced {
    pub(crate) counts: Vec<u32>,
    pub(crate) parents: Vec<u32>,
}

impl Unplaced {
    /// Walks from a fact that is left to its parent and on, until a fact comes again, and answers the facts from there on
    /// backwards, the least first.
    pub(crate) fn cycle_from(&self, alloc: Global, start: u32) -> Result<Ids, NoMemory>
        requires few { length self.now.counts.items ≤ 2 ^ 31 }
        requires all { length self.now.parents.items ≡ length self.now.counts.items }
        requires left { IsLeft self.now.counts.items start }
        requires closed { AreClosed self.now.counts.items self.now.parents.items }

        ensures exact { IfOk result (IsCycle (IsParent self.now.counts.items self.now.parents.items)) }
    {
        let mut places = zeros(alloc, self.counts.len() as u32)?;
        let mut path = Vec::new(alloc);
        let mut fact = start;
        'path: loop {
            let place = places[fact as usize] as usize;
            if place < path.len() && path[place] == fact {
                return least_first(alloc, &path.as_slice()[place..]);
            }
            places[fact as usize] = path.len() as u32;
            path.push(fact)?;
            fact = self.parents[fact as usize];
        }
    }
}

/// Answers the walk backwards, beginning with its least fact.
fn least_first(alloc: Global, walk: &[u32]) -> Result<Ids, NoMemory>
    requires some { 0 < length walk.now }

    ensures exact { IfOk result (IsTurned walk.now) }
{
    let cut = least_place(walk) + 1;
    let mut cycle = Ids::new(alloc);
    push_backwards(&mut cycle, &walk[..cut])?;
    push_backwards(&mut cycle, &walk[cut..])?;
    Ok(cycle)
}

/// Answers where the least number stands.
fn least_place(numbers: &[u32]) -> usize
    requires some { 0 < length numbers.now }

    ensures inside { result < length numbers.now }
    ensures least { All (λ i. slice_index numbers.now result ≤ i) numbers.now }
{
    let mut least = 0;
    for (place, number) in numbers.iter().enumerate() {
        if *number < numbers[least] {
            least = place;
        }
    }
    least
}

/// Appends the facts in the opposite order.
fn push_backwards(ids: &mut Ids, facts: &[u32]) -> Result<(), NoMemory>
    ensures exact { OnOk result (ids.new ≡ ids.old ++ reverse facts.now) }
{
    let mut left = facts.len();
    while left > 0 {
        left -= 1;
        ids.push(facts[left])?;
    }
    Ok(())
}
