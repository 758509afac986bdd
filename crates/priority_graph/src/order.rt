//! An order of facts in which each stands behind all that are better, by counts of better facts (Kahn 1962).

ghost use Rattle.std.specs.Prelude.{◌≡◌, ◌==◌, ◌<◌, ◌≤◌, ◌^◌, ◌++◌, [], length, filter, slice_index, All, IfOk, OnOk};
ghost use Rattle.cq_terms.specs.Lists.{IsAscending};
ghost use Rattle.priority_graph.specs.Orders.{AddsEach, AreLists, AreWaiting, AreZeros, IsPlaced};

use crate::numbers::{add_each, zeros};
use cq_terms::{FlatLists, NoMemory};
use std::alloc::Global;

/// An order of some facts, and for each fact how many better facts are missing from it.
#[derive(Drop)]
pub(crate) struct Placed {
    pub(crate) order: Vec<u32>,
    pub(crate) counts: Vec<u32>,
}

/// Orders the facts as far as each stands behind all that have it in their lists.
pub(crate) fn place_facts(alloc: Global, facts: u32, lists: &FlatLists) -> Result<Placed, NoMemory>
    requires few { facts ≤ 2 ^ 31 }
    requires lists { AreLists facts lists.now }

    ensures exact { IfOk result (λ p. IsPlaced facts lists.now p.order.items p.counts.items) }
{
    let mut missing = missing_counts(alloc, facts, lists)?;
    let counts = missing.as_mut_slice();
    let mut order = places_of_zero(alloc, counts)?;
    let mut next = 0;
    while next < order.len() {
        release(counts, lists.list(order[next]), &mut order)?;
        next += 1;
    }
    let counts = missing;
    Ok(Placed { order, counts })
}

/// Counts for each fact the lists that have it.
fn missing_counts(alloc: Global, facts: u32, lists: &FlatLists) -> Result<Vec<u32>, NoMemory>
    requires few { facts ≤ 2 ^ 31 }
    requires lists { AreLists facts lists.now }

    ensures exact { IfOk result (λ counts. AreWaiting facts lists.now [] facts counts.items) }
{
    let mut counts = zeros(alloc, facts)?;
    for fact in 0..facts {
        add_each(&mut counts, lists.list(fact));
    }
    Ok(counts)
}

/// Answers the places at which a zero stands, ascending.
fn places_of_zero(alloc: Global, counts: &[u32]) -> Result<Vec<u32>, NoMemory>
    requires few { length counts.now < 2 ^ 32 }

    ensures exact { IfOk result (λ places. AreZeros counts.now places.items) }
{
    let mut places = Vec::new(alloc);
    for (place, count) in counts.iter().enumerate() {
        if *count == 0 {
            places.push(place as u32)?;
        }
    }
    Ok(places)
}

/// Takes one from the count of each fact of the list, and appends those for which none is left.
fn release(counts: &mut [u32], list: &[u32], order: &mut Vec<u32>) -> Result<(), NoMemory>
    requires ascending { IsAscending list.now }
    requires inside { All (λ i. i < length counts.old) list.now }
    requires some { All (λ i. 0 < slice_index counts.old i) list.now }

    ensures counts { OnOk result (AddsEach counts.new counts.old list.now) }
    ensures order { OnOk result (order.new.items ≡ order.old.items
        ++ filter (λ i. slice_index counts.old i == 1) list.now) }
{
    for fact in list {
        let place = *fact as usize;
        counts[place] -= 1;
        if counts[place] == 0 {
            order.push(*fact)?;
        }
    }
    Ok(())
}
