//! Whether facts have a direct core: they and what conflicts with them.

ghost use Rattle.std.specs.Prelude.{◌≡◌, ◌↔◌, ◌<◌, ℕ, All, Contains, IsTrue, IfOk, length, map};
ghost use Rattle.clause_meaning.specs.Literals.{variable_of};
ghost use Rattle.cq_terms.specs.Lists.{IsAscending};
ghost use Rattle.cq_meaning.specs.Conflicts.{Conflict};
ghost use Rattle.priority_graph.specs.Priority.{IsOver};
ghost use Rattle.report_rules.specs.TryRules.{HasDirectCore};
ghost use Rattle.report_text.specs.declared.line.Question.TheVariants as question;
ghost use Rattle.report_laws.specs.AtStanding.{IsEasyAt, facts_of};
ghost use Rattle.plain_finding.specs.EasyParts.{AreInTable, HasRivalCore, TellsOver};

use crate::cores::are_free;
use clause_meaning::variable_of;
use cq_terms::{Conflicts, Ids, NoMemory};
use priority_graph::Better;
use std::alloc::Global;

/// The facts of the table of which the literals speak, ascending.
fn facts_in_table(alloc: Global, facts: u32, literals: &[u32]) -> Result<Ids, NoMemory>
    ensures exact { IfOk result (AreInTable facts (facts_of literals.now)) }
{
    let mut known = Vec::new(alloc);
    for literal in literals {
        let fact = variable_of(*literal);
        if fact < facts {
            known.push(fact)?;
        }
    }
    Ids::sorted(alloc, known.as_slice())
}

/// Whether the facts have a direct core.
fn has_direct_core(conflicts: &Conflicts, better: &Better, facts: &[u32]) -> Result<bool, NoMemory>
    requires over { IsOver better.now conflicts.now }
    requires ascending { IsAscending facts.now }
    requires known { All (λ i. i < conflicts.now.facts) facts.now }

    ensures exact { IfOk result (TellsOver conflicts.now better.now
        (λ kb mode. HasDirectCore kb mode facts.now)) }
{
    if !are_free(conflicts, facts) {
        return Ok(false);
    }
    let core = better.direct(facts)?;
    Ok(core.is_some())
}

/// Whether one of the facts that conflict with the fact has a direct core.
fn has_rival_core(conflicts: &Conflicts, better: &Better, fact: u32) -> Result<bool, NoMemory>
    requires over { IsOver better.now conflicts.now }
    requires known { fact < conflicts.now.facts }

    ensures exact { IfOk result (TellsOver conflicts.now better.now
        (λ kb mode. HasRivalCore kb mode fact)) }
{
    for rival in conflicts.of(fact) {
        if has_direct_core(conflicts, better, &[*rival])? {
            return Ok(true);
        }
    }
    Ok(false)
}

/// Whether one of the facts has a rival with a direct core.
fn has_rival_core_of_one(
    conflicts: &Conflicts,
    better: &Better,
    facts: &[u32],
) -> Result<bool, NoMemory>
    requires over { IsOver better.now conflicts.now }
    requires known { All (λ i. i < conflicts.now.facts) facts.now }

    ensures exact { IfOk result (TellsOver conflicts.now better.now
        (λ kb mode. ((i : ℕ) × Contains facts.now i × HasRivalCore kb mode i))) }
{
    for fact in facts {
        if has_rival_core(conflicts, better, *fact)? {
            return Ok(true);
        }
    }
    Ok(false)
}

/// Whether the facts of the literals have a direct core.
pub fn is_easy_cause(
    alloc: Global,
    conflicts: &Conflicts,
    better: &Better,
    literals: &[u32],
) -> Result<bool, NoMemory>
    requires over { IsOver better.now conflicts.now }

    ensures exact { IfOk result (TellsOver conflicts.now better.now
        (λ kb mode. IsEasyAt kb mode question.Brave (facts_of literals.now))) }
{
    let facts = facts_in_table(alloc, conflicts.facts(), literals)?;
    has_direct_core(conflicts, better, facts.as_slice())
}

/// Whether a rival of one of the facts of the literals has a direct core.
pub fn is_easy_absence(
    alloc: Global,
    conflicts: &Conflicts,
    better: &Better,
    literals: &[u32],
) -> Result<bool, NoMemory>
    requires over { IsOver better.now conflicts.now }

    ensures exact { IfOk result (TellsOver conflicts.now better.now
        (λ kb mode. IsEasyAt kb mode question.Iar (facts_of literals.now))) }
{
    let facts = facts_in_table(alloc, conflicts.facts(), literals)?;
    has_rival_core_of_one(conflicts, better, facts.as_slice())
}
