//! Small graphs of conflicts, with clauses and components worked by hand.

ghost use Rattle.std.specs.Prelude.{◌≡◌, ◌<◌, IfOk};
ghost use Rattle.priority_graph.specs.Priority.{IsOver};

use crate::graphs::{alone, between, pair, ranked};
use cq_terms::{Conflicts, IdLists, NoMemory};
use priority_graph::Better;
use repair_encoder::{base_clauses, cause_clause, component};
use std::alloc::Global;
use std::test::Fail;

/// A number that no literal of these tests has, written after each clause.
const END: u32 = 99;

#[test]
fn without_a_priority_all_that_conflict_block(rt: HostRuntime) -> Result<(), Fail> {
    let conflicts = seven_facts(rt.alloc())?;
    let better = Better::none(rt.alloc(), &conflicts)?;
    let row = clauses_of(rt.alloc(), &conflicts, &better, 2)?;
    assert_eq!(rt;
        row.as_slice(),
        [0, 2, END, 1, 3, END, 0, 2, 4, END, 3, 5, END, 2, 4, END].as_slice()
    );
    // the clause of fact 6 is that of fact 5
    let pair = clauses_of(rt.alloc(), &conflicts, &better, 6)?;
    assert_eq!(rt; pair.as_slice(), [10, 12, END, 11, 13, END].as_slice());
    Ok(())
}

#[test]
fn a_worse_fact_does_not_block(rt: HostRuntime) -> Result<(), Fail> {
    let conflicts = seven_facts(rt.alloc())?;
    let better = ranked(rt.alloc(), &[pair(0, 1), pair(1, 2)], &conflicts)?;
    let row = clauses_of(rt.alloc(), &conflicts, &better, 0)?;
    assert_eq!(rt;
        row.as_slice(),
        [0, END, 1, 3, END, 0, 2, END, 3, 5, END, 2, 4, END].as_slice()
    );
    Ok(())
}

#[test]
fn a_fact_without_conflict_has_one_clause(rt: HostRuntime) -> Result<(), Fail> {
    let conflicts = two_facts(rt.alloc())?;
    let better = Better::none(rt.alloc(), &conflicts)?;
    let own = clauses_of(rt.alloc(), &conflicts, &better, 1)?;
    assert_eq!(rt; own.as_slice(), [3, END].as_slice());
    let free = clauses_of(rt.alloc(), &conflicts, &better, 0)?;
    assert_eq!(rt; free.as_slice(), [0, END].as_slice());
    Ok(())
}

#[test]
fn repeats_and_another_order_of_the_facts_play_no_part(rt: HostRuntime) -> Result<(), Fail> {
    let conflicts = seven_facts(rt.alloc())?;
    let better = Better::none(rt.alloc(), &conflicts)?;
    let row = clauses_of_twice(rt.alloc(), &conflicts, &better, 2)?;
    assert_eq!(rt;
        row.as_slice(),
        [0, 2, END, 1, 3, END, 0, 2, 4, END, 3, 5, END, 2, 4, END].as_slice()
    );
    Ok(())
}

#[test]
fn a_component_has_what_conflicts_reach(rt: HostRuntime) -> Result<(), Fail> {
    let conflicts = seven_facts(rt.alloc())?;
    assert_eq!(rt;
        component(rt.alloc(), &conflicts, 2)?.as_slice(),
        [0, 1, 2].as_slice()
    );
    assert_eq!(rt;
        component(rt.alloc(), &conflicts, 3)?.as_slice(),
        [3].as_slice()
    );
    assert_eq!(rt;
        component(rt.alloc(), &conflicts, 6)?.as_slice(),
        [5, 6].as_slice()
    );
    Ok(())
}

#[test]
fn a_self_inconsistent_fact_is_its_own_component(rt: HostRuntime) -> Result<(), Fail> {
    let conflicts = two_facts(rt.alloc())?;
    let facts = component(rt.alloc(), &conflicts, 1)?;
    assert_eq!(rt; facts.as_slice(), [1].as_slice());
    Ok(())
}

#[test]
fn a_cause_is_excluded_by_its_selector(rt: HostRuntime) -> Result<(), Fail> {
    assert_eq!(rt;
        cause_clause(rt.alloc(), 5, &[0, 3])?.as_slice(),
        [1, 7, 11].as_slice()
    );
    assert_eq!(rt;
        cause_clause(rt.alloc(), 5, &[])?.as_slice(),
        [11].as_slice()
    );
    Ok(())
}

/// The base clauses of the component of the fact in a row.
fn clauses_of(
    alloc: Global,
    conflicts: &Conflicts,
    better: &Better,
    fact: u32,
) -> Result<Vec<u32>, NoMemory>
    requires over { IsOver better.now conflicts.now }
    requires known { fact < conflicts.now.facts }
{
    let facts = component(alloc, conflicts, fact)?;
    let clauses = base_clauses(alloc, conflicts, better, facts.as_slice())?;
    row_of(alloc, &clauses)
}

/// The same of the facts of the component written twice, one row behind the other.
fn clauses_of_twice(
    alloc: Global,
    conflicts: &Conflicts,
    better: &Better,
    fact: u32,
) -> Result<Vec<u32>, NoMemory>
    requires over { IsOver better.now conflicts.now }
    requires known { fact < conflicts.now.facts }
{
    let facts = component(alloc, conflicts, fact)?;
    let mut listed = Vec::from_slice(alloc, facts.as_slice())?;
    listed.extend_from_slice(facts.as_slice())?;
    let clauses = base_clauses(alloc, conflicts, better, listed.as_slice())?;
    row_of(alloc, &clauses)
}

/// The literals of the clauses in a row, each clause with `END` behind it.
fn row_of(alloc: Global, clauses: &IdLists) -> Result<Vec<u32>, NoMemory> {
    let mut joined = Vec::new(alloc);
    for clause in clauses.as_slice() {
        joined.extend_from_slice(clause.as_slice())?;
        joined.push(END)?;
    }
    Ok(joined)
}

/// Facts 0 and 1 conflict, 1 and 2, and 5 and 6.
fn seven_facts(alloc: Global) -> Result<Conflicts, Fail>
    ensures facts { IfOk result (λ g. g.facts ≡ 7) }
{
    let conflicts = between(alloc, 7, &[(0, 1), (1, 2), (5, 6)])?;
    Ok(conflicts)
}

/// Of two facts, 1 is self-inconsistent.
fn two_facts(alloc: Global) -> Result<Conflicts, Fail>
    ensures facts { IfOk result (λ g. g.facts ≡ 2) }
{
    let conflicts = alone(alloc, 2, 1)?;
    Ok(conflicts)
}
