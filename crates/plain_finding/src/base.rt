//! The base clauses: one for each fact, and one for each conflict.

ghost use Rattle.std.specs.Prelude.{◌≡◌, ◌↔◌, ◌<◌, ◌≤◌, ◌^◌, ◌++◌, [], ℕ, List, All, Contains, IfOk, OnOk, length, insert, map};
ghost use Rattle.cq_terms.specs.Conflicts.{AreClashes, AreInConflict};
ghost use Rattle.cq_terms.specs.Lists.{IsAscending};
ghost use Rattle.priority_graph.specs.Priority.{IsOver};
ghost use Rattle.repair_clauses.specs.BaseClauses.{IsFactClause, conflict_clause, present};
ghost use Rattle.report_laws.specs.LiveLists.{AreClausesBelow};
ghost use Rattle.plain_finding.specs.BaseParts.{AreClausesOf, SaysOneIsPresent, conflict_clauses};
ghost use Rattle.plain_finding.specs.Kept.{Holds};

use crate::clauses::Clauses;
use cq_terms::{Conflicts, NoMemory};
use priority_graph::Better;
use std::alloc::Global;

/// The base clauses of the table alone, over so many variables: for each conflict that one of the two is absent; for each fact that it is
/// absent where it is self-inconsistent, and else that it is present or a fact that blocks it is (Bienvenu and Bourgaux 2022).
pub fn base_clauses(
    alloc: Global,
    conflicts: &Conflicts,
    better: &Better,
    variables: u32,
) -> Result<Clauses, NoMemory>
    requires over { IsOver better.now conflicts.now }
    requires few { variables ≤ 2 ^ 31 }
    requires enough { conflicts.now.facts ≤ variables }

    ensures variables { IfOk result (λ clauses. clauses.variables ≡ variables) }
    ensures exact { IfOk result (λ clauses. (base : List (List ℕ))
        × AreClausesBelow better.now conflicts.now.facts base × Holds clauses base [] []) }
{
    let mut clauses = Clauses::new(alloc, variables)?;
    let mut clause = Vec::new(alloc);
    for fact in 0..conflicts.facts() {
        add_fact(&mut clauses, &mut clause, conflicts, better, fact)?;
    }
    clauses.settle()?;
    Ok(clauses)
}

/// Adds the base clauses of the fact: its own, and those of its conflicts with greater facts.
fn add_fact(
    clauses: &mut Clauses,
    clause: &mut Vec<u32>,
    conflicts: &Conflicts,
    better: &Better,
    fact: u32,
) -> Result<(), NoMemory>
    requires over { IsOver better.now conflicts.now }
    requires kept { AreClashes conflicts.now.facts conflicts.now.clashes }
    requires known { fact < conflicts.now.facts }
    requires enough { conflicts.now.facts ≤ clauses.old.variables }

    ensures same { OnOk result (clauses.new.variables ≡ clauses.old.variables) }
    ensures exact { OnOk result ((base : List (List ℕ)) → Holds clauses.old base [] []
        → (more : List (List ℕ)) × AreClausesOf better.now fact more × Holds clauses.new (base ++ more) [] []) }
{
    fill_fact_clause(clause, conflicts, better, fact)?;
    clauses.add_base(clause.as_slice())?;
    add_conflicts(clauses, clause, fact, conflicts.of(fact))
}

/// Adds the clauses of the fact's conflicts with those of the given facts that are greater.
fn add_conflicts(
    clauses: &mut Clauses,
    clause: &mut Vec<u32>,
    fact: u32,
    rivals: &[u32],
) -> Result<(), NoMemory>
    requires few { fact < 2 ^ 31 }
    requires few_rivals { All (λ f. f < 2 ^ 31) rivals.now }
    requires known { fact < clauses.old.variables }
    requires known_rivals { All (λ f. f < clauses.old.variables) rivals.now }

    ensures same { OnOk result (clauses.new.variables ≡ clauses.old.variables) }
    ensures exact { OnOk result ((base : List (List ℕ)) → Holds clauses.old base [] []
        → Holds clauses.new (base ++ conflict_clauses fact rivals.now) [] []) }
{
    for rival in rivals {
        if fact < *rival {
            fill_conflict_clause(clause, fact, *rival)?;
            clauses.add_base(clause.as_slice())?;
        }
    }
    Ok(())
}

/// The clause that says that one of the two facts is absent.
fn fill_conflict_clause(clause: &mut Vec<u32>, lower: u32, upper: u32) -> Result<(), NoMemory>
    requires few { lower < 2 ^ 31 }
    requires few_upper { upper < 2 ^ 31 }

    ensures exact { OnOk result (clause.new.items ≡ conflict_clause lower upper) }
{
    clause.clear();
    clause.push(2 * lower + 1)?;
    clause.push(2 * upper + 1)?;
    Ok(())
}

/// The clause of the fact alone.
fn fill_fact_clause(
    clause: &mut Vec<u32>,
    conflicts: &Conflicts,
    better: &Better,
    fact: u32,
) -> Result<(), NoMemory>
    requires over { IsOver better.now conflicts.now }
    requires kept { AreClashes conflicts.now.facts conflicts.now.clashes }
    requires known { fact < conflicts.now.facts }

    ensures exact { OnOk result (IsFactClause better.now fact clause.new.items) }
{
    clause.clear();
    if conflicts.is_own(fact) {
        clause.push(2 * fact + 1)?;
        return Ok(());
    }
    push_present_or(clause, fact, better.blockers(fact))
}

/// Appends, ascending, the literals that say that the fact or one of the others is present.
fn push_present_or(clause: &mut Vec<u32>, fact: u32, others: &[u32]) -> Result<(), NoMemory>
    requires none { clause.old.items ≡ [] }
    requires few { fact < 2 ^ 31 }
    requires few_others { All (λ f. f < 2 ^ 31) others.now }
    requires ascending { IsAscending others.now }
    requires apart { ¬ Contains others.now fact }

    ensures exact { OnOk result (SaysOneIsPresent fact others.now clause.new.items) }
{
    let (lesser, greater) = others.split_at(place_of(others, fact));
    push_present(clause, lesser)?;
    clause.push(2 * fact)?;
    push_present(clause, greater)
}

/// Appends the literals that say that the facts are present.
fn push_present(clause: &mut Vec<u32>, facts: &[u32]) -> Result<(), NoMemory>
    requires few { All (λ f. f < 2 ^ 31) facts.now }

    ensures exact { OnOk result (clause.new.items ≡ clause.old.items ++ map present facts.now) }
{
    for fact in facts {
        clause.push(2 * *fact)?;
    }
    Ok(())
}

/// Where the number belongs in the ascending list, which doesn't have it.
fn place_of(list: &[u32], number: u32) -> usize
    requires ascending { IsAscending list.now }
    requires apart { ¬ Contains list.now number }

    ensures inside { result ≤ length list.now }
    ensures ascending { IsAscending (insert list.now result number) }
{
    match list.binary_search(&number) {
        Ok(place) => place,
        Err(place) => place,
    }
}
