//! The priority of the facts, in the mode of the head.

ghost use Rattle.std.specs.Prelude.{◌≡◌, ◌⊎◌, ℕ, List, IfOk, OnOk, IsErrOf};
ghost use Rattle.cq_meaning.specs.ConflictGraphs.{AreConflictsOf};
ghost use Rattle.cq_terms.specs.declared.facts.Repairs.TheVariants as mode;
ghost use Rattle.cq_meaning.specs.Repairs.{IsAcyclic, IsBetter};
ghost use Rattle.priority_graph.specs.Inputs.{IsPriorityOf};
ghost use Rattle.priority_graph.specs.Priority.{IsOver};
ghost use Rattle.priority_graph.specs.Relations.{IsCycle};
ghost use Rattle.priority_graph.specs.declared.refusal.PriorityRefusal.TheVariants as refusal;

use cq_terms::{Conflicts, Kb, NoMemory, Repairs};
use priority_graph::{
    Better, PriorityRefusal, empty_is_all, pairs_rank_as_pareto, restrict, restricted_is_pareto,
};
use std::alloc::Global;

/// The priority of the listed pairs. `Cycle` comes exactly where it has a cycle, unless memory runs out. Memory is said to have run out
/// where there are 2^31 pairs.
pub fn ranked(alloc: Global, kb: &Kb, conflicts: &Conflicts) -> Result<Better, PriorityRefusal>
    requires of { AreConflictsOf kb.now conflicts.now }

    ensures over { IfOk result (λ b. IsOver b conflicts.now) }
    ensures exact { IfOk result (IsPriorityOf kb.now mode.Pareto) }
    ensures acyclic { OnOk result (IsAcyclic kb.now mode.Pareto) }
    ensures cycle { (facts : List ℕ) → IsErrOf result (refusal.Cycle facts)
        → IsCycle (IsBetter kb.now mode.Pareto) facts × ¬ IsAcyclic kb.now mode.Pareto }
{
    pairs_rank_as_pareto();
    restricted_is_pareto();
    let pairs = kb.pairs();
    if pairs.len() >= 2_147_483_648 {
        return Err(PriorityRefusal::NoMemory);
    }
    restrict(alloc, pairs, conflicts)
}

/// The priority in the mode.
pub fn find_priority(
    alloc: Global,
    kb: &Kb,
    conflicts: &Conflicts,
    repairs: Repairs,
) -> Result<Better, NoMemory>
    requires of { AreConflictsOf kb.now conflicts.now }
    requires acyclic { (repairs ≡ mode.All) ⊎ IsAcyclic kb.now mode.Pareto }

    ensures over { IfOk result (λ b. IsOver b conflicts.now) }
    ensures exact { IfOk result (IsPriorityOf kb.now repairs) }
{
    empty_is_all();
    match repairs {
        Repairs::All => Better::none(alloc, conflicts),
        Repairs::Pareto => match ranked(alloc, kb, conflicts) {
            Ok(better) => Ok(better),
            Err(PriorityRefusal::Cycle { facts: _ }) => unreachable!(),
            Err(PriorityRefusal::NoMemory) => Err(NoMemory),
        },
    }
}
