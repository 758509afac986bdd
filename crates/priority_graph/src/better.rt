//! The relation "better" between facts in conflict (Bienvenu and Bourgaux 2022).

ghost use Rattle.std.specs.Prelude.{◌≡◌, ◌<◌, ◌≤◌, ◌^◌, ◌↔◌, ℕ, [], length, slice_index, All, Contains, IsTrue, IfOk, IfErr, OnOk, MatchOption};
ghost use Rattle.cq_terms.specs.Conflicts.{ConflictGraph};
ghost use Rattle.cq_terms.specs.Lists.{IsAscending};
ghost use Rattle.priority_graph.specs.Relations.{IsAcyclic, IsLinear};
ghost use Rattle.priority_graph.specs.Priority.{AreBlockers, Conflict, IsBetter, IsOver, IsPriority, Ranks};
ghost use Rattle.priority_graph.specs.Refusal.{Refuses};
ghost use Rattle.priority_graph.specs.Walks.{IsLeft};

mod direct;

use crate::PriorityRefusal;
use crate::clashes::clashes_by_size;
use crate::cycle::{Unplaced, parents};
use crate::order::place_facts;
use crate::split::split;
use cq_terms::{Conflicts, FlatLists, NoMemory, Pair, has_sorted};
use std::alloc::Global;
use std::marker::Model;

/// An acyclic priority over the conflicts of a table.
#[derive(Debug, Drop)]
pub struct Better {
    facts: u32,
    own: Vec<u32>,
    couples: Vec<(u32, u32)>,
    worse: FlatLists,
    blockers: FlatLists,
    order: Vec<u32>,
}

impl Model for Better {
    ghost use Rattle.priority_graph.specs.Priority.{Priority};
    ghost use Rattle.priority_graph.specs.Tables.{AreIndexes, pairs_from};

    ghost Value = { Priority };

    ghost view = { λ a. record {
      facts = a.facts;
      own = a.own.items;
      couples = a.couples.items;
      pairs = pairs_from 0 a.worse;
    } };

    ghost invariant = { λ a. AreIndexes (record {
      facts = a.facts;
      own = a.own.items;
      couples = a.couples.items;
      pairs = pairs_from 0 a.worse;
    }) a.worse a.blockers a.order.items };
}

/// The relation of the listed pairs whose facts conflict. Other pairs have no effect. `Cycle` comes exactly where this
/// relation has a cycle.
pub fn restrict(
    alloc: Global,
    pairs: &[Pair],
    conflicts: &Conflicts,
) -> Result<Better, PriorityRefusal>
    requires few { length pairs.now < 2 ^ 31 }
    requires named { All (λ p. (p.upper < conflicts.now.facts) × (p.lower < conflicts.now.facts)) pairs.now }

    ensures over { IfOk result (λ b. IsOver b conflicts.now) }
    ensures exact { IfOk result (λ b. (i j : ℕ) → IsBetter b i j ↔ Ranks pairs.now conflicts.now i j) }
    ensures acyclic { OnOk result (IsAcyclic (Ranks pairs.now conflicts.now)) }
    ensures cycle { IfErr result (Refuses (Ranks pairs.now conflicts.now)) }
{
    let lists = split(alloc, pairs, conflicts)?;
    let placed = place_facts(alloc, conflicts.facts(), &lists.worse)?;
    if let Some(start) = first_left(placed.counts.as_slice()) {
        let parents = parents(alloc, &lists.worse, placed.counts.as_slice())?;
        let unplaced = Unplaced {
            counts: placed.counts,
            parents,
        };
        let facts = unplaced.cycle_from(alloc, start)?;
        return Err(PriorityRefusal::Cycle { facts });
    }
    let clashes = clashes_by_size(alloc, conflicts.clashes())?;
    Ok(Better {
        facts: conflicts.facts(),
        own: clashes.own,
        couples: clashes.couples,
        worse: lists.worse,
        blockers: lists.blockers,
        order: placed.order,
    })
}

/// Answers the first fact that has a count.
fn first_left(counts: &[u32]) -> Option<u32>
    requires few { length counts.now ≤ 2 ^ 31 }

    ensures exact { MatchOption result (All (λ n. n ≡ 0) counts.now) (IsLeft counts.now) }
{
    for (fact, count) in counts.iter().enumerate() {
        if *count != 0 {
            return Some(fact as u32);
        }
    }
    None
}

impl Better {
    /// The empty relation over the conflicts.
    pub fn none(alloc: Global, conflicts: &Conflicts) -> Result<Better, NoMemory>
        ensures over { IfOk result (λ b. IsOver b conflicts.now) }
        ensures exact { IfOk result (λ b. (i j : ℕ) → ¬ IsBetter b i j) }
    {
        match restrict(alloc, &[], conflicts) {
            Ok(better) => Ok(better),
            Err(PriorityRefusal::NoMemory) => Err(NoMemory),
            Err(PriorityRefusal::Cycle { facts: _ }) => unreachable!(),
        }
    }

    /// Whether the first fact is better than the second.
    pub fn over(&self, upper: u32, lower: u32) -> bool
        requires known { upper < self.now.facts }

        ensures exact { IsTrue result ↔ IsBetter self.now upper lower }
    {
        has_sorted(self.worse(upper), lower)
    }

    /// Lends the facts that conflict with the fact and to which it isn't better, ascending.
    pub fn blockers(&self, fact: u32) -> &[u32]
        requires known { fact < self.now.facts }

        ensures exact { AreBlockers self.now fact result.now }
        ensures known { All (λ j. j < self.now.facts) result.now }
    {
        let _ = &self.facts;
        self.blockers.list(fact)
    }

    /// Lends all facts, each once, each before those that it is better than.
    pub fn linear(&self) -> &[u32]
        ensures exact { IsLinear self.now.facts (IsBetter self.now) result.now }
        ensures kept { IsPriority self.now }
    {
        self.order.as_slice()
    }

    /// Lends the facts that the fact is better than, ascending.
    pub(crate) fn worse(&self, fact: u32) -> &[u32]
        requires known { fact < self.now.facts }

        ensures ascending { IsAscending result.now }
        ensures exact { (j : ℕ) → Contains result.now j ↔ IsBetter self.now fact j }
        ensures conflicting { (j : ℕ) → IsBetter self.now fact j → Conflict self.now fact j }
        ensures known { All (λ j. j < self.now.facts) result.now }
    {
        let _ = &self.facts;
        self.worse.list(fact)
    }
}
