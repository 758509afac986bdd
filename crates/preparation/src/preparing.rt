//! The parts of an answer that come before its first line.

ghost use Rattle.std.specs.Prelude.{◌≡◌, ◌<◌, ◌≤◌, ◌+◌, ◌^◌, length, All, IfOk, IfErr, OnOk, IsTrue};
ghost use Rattle.cq_meaning.specs.ConflictGraphs.{AreConflictsOf};
ghost use Rattle.cq_meaning.specs.Repairs.{IsAcyclic};
ghost use Rattle.priority_graph.specs.Inputs.{IsPriorityOf};
ghost use Rattle.priority_graph.specs.Priority.{IsOver};
ghost use Rattle.preparation.specs.Prepared.{IsPrepared, size_of};
ghost use Rattle.preparation.specs.Refusals.{IsRefused, IsRefusedPriority, IsWithin};

use crate::{Limits, PrepareRefusal};
use cause_finder::{Candidate, causes};
use conflict_finder::{FoundConflicts, find};
use cq_steps::{Closure, closing_list_is_closure};
use cq_terms::{Conflicts, Cq, Ids, Kb, Repairs};
use fact_index::Index;
use perfect_ref::close;
use priority_graph::{Better, restrict};
use std::alloc::Global;

/// The closure of a query, the conflicts of a knowledge base with the closures of its disjointnesses, the priority between them,
/// and the candidates of the query with their causes.
#[derive(Drop)]
pub struct Prepared {
    /// The closure of the query.
    pub closure: Closure,
    /// The conflicts, and the closures of the disjointnesses.
    pub found: FoundConflicts,
    /// The priority between the conflicting facts, in the mode.
    pub better: Better,
    /// The candidates in the order of their tuples, each with its causes.
    pub candidates: Vec<Candidate>,
}

/// Prepares the answer to a query over a knowledge base. Refusals come in this order: a closure with more members than the limit,
/// more conflicts, a cycle of the priority (in mode `Pareto` alone), more supports. Each comes exactly where it should, but want
/// of memory, which may come at any time.
pub fn prepare(
    alloc: Global,
    kb: &Kb,
    query: &Cq,
    repairs: Repairs,
    limits: &Limits,
) -> Result<Prepared, PrepareRefusal>
    requires axioms_fit { length kb.now.axioms < 2 ^ 31 }
    requires facts_fit { length kb.now.facts < 2 ^ 31 }
    requires pairs_fit { length kb.now.pairs < 2 ^ 31 }
    requires atoms_fit { length query.now.body < 2 ^ 31 }
    requires conflicts_fit { limits.now.conflicts < 2 ^ 31 }

    ensures prepared { IfOk result (IsPrepared kb.now query.now repairs) }
    ensures within { OnOk result (IsWithin kb.now query.now repairs limits.now) }
    ensures refused { IfErr result (IsRefused kb.now query.now repairs limits.now) }
{
    let axioms = kb.axioms();
    let _body = query.body();
    let closure = close(alloc, query, axioms, limits.members)?;
    let index = Index::build(alloc, kb.facts())?;
    let found = find(alloc, axioms, &index, limits.members, limits.conflicts)?;
    let better = priority(alloc, kb, &found.conflicts, repairs)?;
    let candidates = causes(
        alloc,
        axioms,
        &closure,
        &index,
        &found.conflicts,
        limits.supports,
    )?;
    if !are_few(kb.facts().len(), candidates.as_slice()) {
        return Err(PrepareRefusal::NoMemory);
    }
    Ok(Prepared {
        closure,
        found,
        better,
        candidates,
    })
}

/// The priority of the mode over the conflicts.
fn priority(
    alloc: Global,
    kb: &Kb,
    conflicts: &Conflicts,
    repairs: Repairs,
) -> Result<Better, PrepareRefusal>
    requires pairs_fit { length kb.now.pairs < 2 ^ 31 }
    requires conflicts { AreConflictsOf kb.now conflicts.now }

    ensures over { IfOk result (λ b. IsOver b conflicts.now) }
    ensures exact { IfOk result (IsPriorityOf kb.now repairs) }
    ensures acyclic { OnOk result (IsAcyclic kb.now repairs) }
    ensures refused { IfErr result (IsRefusedPriority kb.now repairs) }
{
    match repairs {
        Repairs::All => Ok(Better::none(alloc, conflicts)?),
        Repairs::Pareto => Ok(restrict(alloc, kb.pairs(), conflicts)?),
    }
}

/// Whether facts and candidates together, and the facts of all causes of each candidate, are fewer than 2^31.
fn are_few(facts: usize, candidates: &[Candidate]) -> bool
    ensures together { IsTrue result → facts + length candidates.now < 2 ^ 31 }
    ensures each { IsTrue result → All (λ c. size_of c.causes < 2 ^ 31) candidates.now }
{
    for candidate in candidates {
        if !has_few(candidate.causes.as_slice()) {
            return false;
        }
    }
    facts < MOST && candidates.len() < MOST - facts
}

/// Whether the lists have fewer than 2^31 numbers together.
fn has_few(lists: &[Ids]) -> bool
    ensures exact { IsTrue result → size_of lists.now < 2 ^ 31 }
{
    let mut count = 0;
    for list in lists {
        let length = list.len();
        if length >= MOST - count {
            return false;
        }
        count += length;
    }
    true
}

/// The first number of facts that is too many.
const MOST: usize = 1 << 31;
