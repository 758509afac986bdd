//! One open answer: what its candidate rests on, and the evidence so far.

ghost use Rattle.std.specs.Prelude.{◌≡◌, ◌∷◌, [], ◌<◌, ◌-◌, length, take, All, IfOk, OnOk};
ghost use Rattle.answer_evidence.specs.Reached.{IsClosedSet, Reaches, Adds, IsScopeWith};

use crate::evidence::Evidence;
use crate::fact_set::FactSet;
use cq_terms::{Conflicts, Ids, NoMemory};
use repair_encoder::component;
use std::alloc::Global;

/// The open answer of a candidate.
#[derive(Drop)]
pub struct Opening {
    /// The variable of the candidate.
    pub selector: u32,
    /// The facts of the candidate's components, ascending, and its variable.
    pub scope: Vec<u32>,
    /// The number of the first core of the answer.
    pub first_core: u64,
    /// What its lines show so far.
    pub evidence: Evidence,
}

impl Opening {
    /// The facts of the scope.
    pub fn facts(&self) -> &[u32]
        requires some { 0 < length self.now.scope.items }

        ensures exact { result.now ≡ take (length self.now.scope.items - 1) self.now.scope.items }
    {
        let scope = self.scope.as_slice();
        &scope[..scope.len() - 1]
    }
}

/// The facts that conflicts reach from the facts of the causes, ascending, and the selector.
pub fn scope_of(
    alloc: Global,
    conflicts: &Conflicts,
    causes: &[Ids],
    selector: u32,
) -> Result<Vec<u32>, NoMemory>
    requires known { All (λ cause. All (λ f. f < conflicts.now.facts) cause) causes.now }

    ensures exact { IfOk result (λ scope. IsScopeWith conflicts.now causes.now selector scope.items) }
{
    let mut reached = FactSet::new(alloc);
    for cause in causes {
        reach_each(alloc, conflicts, cause.as_slice(), &mut reached)?;
    }
    reached.sorted_with(alloc, selector)
}

/// Puts what conflicts reach from the facts.
fn reach_each(
    alloc: Global,
    conflicts: &Conflicts,
    facts: &[u32],
    reached: &mut FactSet,
) -> Result<(), NoMemory>
    requires known { All (λ f. f < conflicts.now.facts) facts.now }
    requires closed { IsClosedSet conflicts.now reached.old }

    ensures exact { OnOk result (Reaches conflicts.now facts.now reached.old reached.new) }
{
    for fact in facts {
        reach(alloc, conflicts, *fact, reached)?;
    }
    Ok(())
}

/// Puts what conflicts reach from the fact.
fn reach(
    alloc: Global,
    conflicts: &Conflicts,
    fact: u32,
    reached: &mut FactSet,
) -> Result<(), NoMemory>
    requires known { fact < conflicts.now.facts }
    requires closed { IsClosedSet conflicts.now reached.old }

    ensures exact { OnOk result (Reaches conflicts.now (fact ∷ []) reached.old reached.new) }
{
    if reached.has(fact) {
        return Ok(());
    }
    let facts = component(alloc, conflicts, fact)?;
    put_each(facts.as_slice(), reached)?;
    Ok(())
}

/// Puts each of the facts.
fn put_each(facts: &[u32], set: &mut FactSet) -> Result<(), NoMemory>
    ensures exact { OnOk result (Adds facts.now set.old set.new) }
{
    for fact in facts {
        set.put(*fact)?;
    }
    Ok(())
}
