//! The base clauses: one for each conflict, and one for each fact.

ghost use Rattle.std.specs.Prelude.{◌≡◌, ◌≢◌, ◌↔◌, ◌<◌, ◌≤◌, ◌^◌, ◌++◌, ◌∷◌, [], ℕ, List, IfOk, OnOk, All, AllPairs, Contains, length, insert};
ghost use Rattle.cq_terms.specs.Conflicts.{AreClashes, AreInConflict};
ghost use Rattle.cq_terms.specs.Lists.{IsAscending};
ghost use Rattle.priority_graph.specs.Priority.{IsOver};
ghost use Rattle.repair_clauses.specs.BaseClauses.{IsBaseClause, IsFactClause, absent, conflict_clause};
ghost use Rattle.repair_encoder.specs.Forms.{HasForm, SaysOneIsPresent, conflict_clauses};
ghost use Rattle.repair_clauses.specs.Components.{IsClosedUnder};
ghost use Rattle.repair_encoder.specs.Twins.{PushesFact};

use crate::literals::push_present;
use crate::twins::has_lesser_twin;
use cq_terms::{Conflicts, IdLists, Ids, NoMemory};
use priority_graph::Better;
use std::alloc::Global;

/// The base clauses of the facts, which may come in any order and more than once: for each conflict that one of the two is absent;
/// for each fact that it is absent where it is self-inconsistent, and else that it is present or a fact that blocks it is (Bienvenu
/// and Bourgaux 2022).
pub fn base_clauses(
    alloc: Global,
    conflicts: &Conflicts,
    better: &Better,
    facts: &[u32],
) -> Result<IdLists, NoMemory>
    requires over { IsOver better.now conflicts.now }
    requires known { All (λ f. f < conflicts.now.facts) facts.now }
    requires closed { IsClosedUnder (AreInConflict conflicts.now.clashes) (Contains facts.now) }

    ensures once { IfOk result (AllPairs (λ c d. c ≢ d)) }
    ensures form { IfOk result (All (HasForm facts.now)) }
    ensures exact { IfOk result (λ clauses. (c : List ℕ) → Contains clauses c ↔ IsBaseClause better.now (Contains facts.now) c) }
{
    let ascending = Ids::sorted(alloc, facts)?;
    clauses_of_ascending(alloc, conflicts, better, ascending.as_slice())
}

/// The base clauses of ascending facts.
fn clauses_of_ascending(
    alloc: Global,
    conflicts: &Conflicts,
    better: &Better,
    facts: &[u32],
) -> Result<IdLists, NoMemory>
    requires over { IsOver better.now conflicts.now }
    requires known { All (λ f. f < conflicts.now.facts) facts.now }
    requires ascending { IsAscending facts.now }
    requires closed { IsClosedUnder (AreInConflict conflicts.now.clashes) (Contains facts.now) }

    ensures once { IfOk result (AllPairs (λ c d. c ≢ d)) }
    ensures form { IfOk result (All (HasForm facts.now)) }
    ensures exact { IfOk result (λ clauses. (c : List ℕ) → Contains clauses c ↔ IsBaseClause better.now (Contains facts.now) c) }
{
    // so few facts that their literals fit
    let _ = conflicts.facts();
    let mut clauses = IdLists::new(alloc);
    for fact in facts {
        push_fact(alloc, &mut clauses, conflicts, better, *fact)?;
        push_conflicts(alloc, &mut clauses, *fact, conflicts.of(*fact))?;
    }
    Ok(clauses)
}

/// Appends the clause of the fact alone, unless it is that of a lesser fact too.
fn push_fact(
    alloc: Global,
    clauses: &mut IdLists,
    conflicts: &Conflicts,
    better: &Better,
    fact: u32,
) -> Result<(), NoMemory>
    requires over { IsOver better.now conflicts.now }
    requires kept { AreClashes conflicts.now.facts conflicts.now.clashes }
    requires known { fact < conflicts.now.facts }

    ensures exact { OnOk result (PushesFact better.now fact clauses.old clauses.new) }
{
    if has_lesser_twin(better, fact) {
        return Ok(());
    }
    clauses.push(fact_clause(alloc, conflicts, better, fact)?)?;
    Ok(())
}

/// The clause of the fact alone.
fn fact_clause(
    alloc: Global,
    conflicts: &Conflicts,
    better: &Better,
    fact: u32,
) -> Result<Ids, NoMemory>
    requires over { IsOver better.now conflicts.now }
    requires kept { AreClashes conflicts.now.facts conflicts.now.clashes }
    requires known { fact < conflicts.now.facts }

    ensures exact { IfOk result (IsFactClause better.now fact) }
{
    if conflicts.is_own(fact) {
        absent_alone(alloc, fact)
    } else {
        present_or(alloc, fact, better.blockers(fact))
    }
}

/// The clause that says that the fact is absent.
fn absent_alone(alloc: Global, fact: u32) -> Result<Ids, NoMemory>
    requires few { fact < 2 ^ 31 }

    ensures exact { IfOk result (λ c. c ≡ absent fact ∷ []) }
{
    let mut clause = Ids::new(alloc);
    clause.push(2 * fact + 1)?;
    Ok(clause)
}

/// The clause that says that the fact or one of the others is present.
fn present_or(alloc: Global, fact: u32, others: &[u32]) -> Result<Ids, NoMemory>
    requires few { fact < 2 ^ 31 }
    requires few_others { All (λ f. f < 2 ^ 31) others.now }
    requires ascending { IsAscending others.now }
    requires apart { ¬ Contains others.now fact }

    ensures exact { IfOk result (SaysOneIsPresent fact others.now) }
{
    let (lesser, greater) = others.split_at(place_of(others, fact));
    let mut clause = Ids::new(alloc);
    push_present(&mut clause, lesser)?;
    clause.push(2 * fact)?;
    push_present(&mut clause, greater)?;
    Ok(clause)
}

/// Where the number belongs in the ascending list, which doesn't have it.
fn place_of(list: &[u32], number: u32) -> usize
    requires ascending { IsAscending list.now }
    requires apart { ¬ Contains list.now number }

    ensures inside { result ≤ length list.now }
    ensures ascending { IsAscending (insert list.now result number) }
{
    match list.binary_search(&number) {
        Ok(place) => place,
        Err(place) => place,
    }
}

/// Appends the clauses of the fact's conflicts with those of the given facts that are greater.
fn push_conflicts(
    alloc: Global,
    clauses: &mut IdLists,
    fact: u32,
    rivals: &[u32],
) -> Result<(), NoMemory>
    requires few { fact < 2 ^ 31 }
    requires few_rivals { All (λ f. f < 2 ^ 31) rivals.now }

    ensures exact { OnOk result (clauses.new ≡ clauses.old ++ conflict_clauses fact rivals.now) }
{
    for rival in rivals {
        if fact < *rival {
            clauses.push(one_absent(alloc, fact, *rival)?)?;
        }
    }
    Ok(())
}

/// The clause that says that one of the two facts is absent.
fn one_absent(alloc: Global, lower: u32, upper: u32) -> Result<Ids, NoMemory>
    requires few { lower < 2 ^ 31 }
    requires few_upper { upper < 2 ^ 31 }

    ensures exact { IfOk result (λ c. c ≡ conflict_clause lower upper) }
{
    let mut clause = Ids::new(alloc);
    clause.push(2 * lower + 1)?;
    clause.push(2 * upper + 1)?;
    Ok(clause)
}
