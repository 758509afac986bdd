//! Small graphs of conflicts, with cores and missing facts worked by hand from the definitions.

ghost use Rattle.std.specs.Prelude.{◌≡◌, ◌<◌, All, Contains, IsTrue, IfOk};
ghost use Rattle.clause_meaning.specs.Assignments.{IsTrueIn, Satisfies};
ghost use Rattle.cq_terms.specs.Lists.{IsAscending};
ghost use Rattle.priority_graph.specs.Priority.{IsOver};
ghost use Rattle.priority_graph.specs.Split.{has};

use crate::graphs::{alone, between, pair, ranked};
use cq_terms::{Conflicts, IdLists, Ids, NoMemory};
use explainer::{core_of, missing, scope_covers_components};
use priority_graph::Better;
use repair_encoder::{base_clauses, component};
use std::alloc::Global;
use std::test::Fail;

/// A number that no fact of these tests has, written between the kept and the dropped facts.
const END: u32 = 99;

#[test]
fn a_fact_that_is_better_than_a_kept_one_brings_another(rt: HostRuntime) -> Result<(), Fail> {
    let conflicts = nine_facts(rt.alloc())?;
    let better = ranked(
        rt.alloc(),
        &[pair(2, 0), pair(3, 1), pair(5, 4), pair(7, 6)],
        &conflicts,
    )?;
    // 0 keeps 2 and 3 out, of which 2 is better and is blocked by 1
    let square = row_of(rt.alloc(), &conflicts, &better, 0, &[0, 1], &[0], &[])?;
    assert_eq!(rt; square.as_slice(), [0, 1, END, 2, 3].as_slice());
    // 4 brings 6, which blocks 5, and 6 brings 8, which blocks 7
    let path = row_of(rt.alloc(), &conflicts, &better, 4, &[4, 6, 8], &[4], &[])?;
    assert_eq!(rt; path.as_slice(), [4, 6, 8, END, 5, 7].as_slice());
    Ok(())
}

#[test]
fn a_core_keeps_no_more_than_it_needs(rt: HostRuntime) -> Result<(), Fail> {
    let conflicts = nine_facts(rt.alloc())?;
    let better = ranked(
        rt.alloc(),
        &[pair(2, 0), pair(3, 1), pair(5, 4), pair(7, 6)],
        &conflicts,
    )?;
    // 2 is better than 0, and 1 is no better than 2
    let square = row_of(rt.alloc(), &conflicts, &better, 2, &[2, 3], &[2], &[])?;
    assert_eq!(rt; square.as_slice(), [2, END, 0, 1].as_slice());
    // 8 alone blocks 7
    let path = row_of(rt.alloc(), &conflicts, &better, 7, &[4, 6, 8], &[], &[7])?;
    assert_eq!(rt; path.as_slice(), [8, END, 7].as_slice());
    Ok(())
}

#[test]
fn nothing_asked_keeps_nothing(rt: HostRuntime) -> Result<(), Fail> {
    let conflicts = nine_facts(rt.alloc())?;
    let better = Better::none(rt.alloc(), &conflicts)?;
    let core = row_of(rt.alloc(), &conflicts, &better, 0, &[0, 1], &[], &[])?;
    assert_eq!(rt; core.as_slice(), [END].as_slice());
    Ok(())
}

#[test]
fn a_self_inconsistent_fact_is_dropped_alone(rt: HostRuntime) -> Result<(), Fail> {
    let conflicts = one_fact(rt.alloc())?;
    let better = Better::none(rt.alloc(), &conflicts)?;
    let core = row_of(rt.alloc(), &conflicts, &better, 0, &[], &[], &[0])?;
    assert_eq!(rt; core.as_slice(), [END, 0].as_slice());
    Ok(())
}

#[test]
fn each_cause_has_its_least_fact_that_is_not_present(rt: HostRuntime) -> Result<(), Fail> {
    let causes = three_causes(rt.alloc())?;
    let shared = missing_of(rt.alloc(), &causes, &[0, 1])?.ok_or("none")?;
    assert_eq!(rt; shared.as_slice(), [2, 3].as_slice());
    assert!(rt; missing_of(rt.alloc(), &causes, &[0, 2, 4])?.is_none());
    let no_causes = IdLists::new(rt.alloc());
    let nothing = missing_of(rt.alloc(), &no_causes, &[0])?.ok_or("none")?;
    assert_eq!(rt; nothing.as_slice(), [].as_slice());
    Ok(())
}

/// The missing facts of the causes where these are present.
fn missing_of(alloc: Global, causes: &IdLists, present: &[u32]) -> Result<Option<Ids>, NoMemory> {
    let present = Ids::sorted(alloc, present)?;
    let facts = missing(alloc, causes, present.as_slice())?;
    Ok(facts)
}

/// The kept facts of a core, `END`, and the dropped ones; or nothing where the present facts lack one that is to be kept or have one that is
/// to be dropped, or there is no such core.
fn row_of(
    alloc: Global,
    conflicts: &Conflicts,
    better: &Better,
    fact: u32,
    present: &[u32],
    start: &[u32],
    drop: &[u32],
) -> Result<Vec<u32>, NoMemory>
    requires over { IsOver better.now conflicts.now }
    requires fact { fact < conflicts.now.facts }
{
    let sorted = Ids::sorted(alloc, present)?;
    let present = sorted.as_slice();
    if !are_within(start, present) {
        return Ok(Vec::new(alloc));
    }
    if !are_outside(drop, present) {
        return Ok(Vec::new(alloc));
    }
    let row = core_row(alloc, conflicts, better, fact, present, start, drop)?;
    Ok(row)
}

/// The same of ascending present facts; nothing where the component of the fact doesn't have all that is to be kept or dropped, or the present
/// facts don't satisfy its base clauses.
fn core_row(
    alloc: Global,
    conflicts: &Conflicts,
    better: &Better,
    fact: u32,
    present: &[u32],
    start: &[u32],
    drop: &[u32],
) -> Result<Vec<u32>, NoMemory>
    requires over { IsOver better.now conflicts.now }
    requires fact { fact < conflicts.now.facts }
    requires ascending { IsAscending present.now }
    requires inside { All (Contains present.now) start.now }
    requires outside { All (λ i. ¬ Contains present.now i) drop.now }
{
    let mut row = Vec::new(alloc);
    let facts = component(alloc, conflicts, fact)?;
    let scope = facts.as_slice();
    let clauses = base_clauses(alloc, conflicts, better, scope)?;
    let lent = clauses.as_slice();
    let _order = better.linear();
    scope_covers_components();
    if !are_within(start, scope) {
        return Ok(row);
    }
    if !are_within(drop, scope) {
        return Ok(row);
    }
    if !are_satisfied(lent, present) {
        return Ok(row);
    }
    let core = core_of(alloc, present, start, drop, conflicts, better)?;
    row.extend_from_slice(core.kept.as_slice())?;
    row.push(END)?;
    row.extend_from_slice(core.dropped.as_slice())?;
    Ok(row)
}

/// Whether all numbers are in the list.
fn are_within(numbers: &[u32], list: &[u32]) -> bool
    ensures { IsTrue result → All (Contains list.now) numbers.now }
{
    for number in numbers {
        if !list.contains(number) {
            return false;
        }
    }
    true
}

/// Whether none of the numbers is in the list.
fn are_outside(numbers: &[u32], list: &[u32]) -> bool
    ensures { IsTrue result → All (λ i. ¬ Contains list.now i) numbers.now }
{
    for number in numbers {
        if list.contains(number) {
            return false;
        }
    }
    true
}

/// Whether each clause has a literal that is true where exactly the listed facts are present.
fn are_satisfied(clauses: &[Ids], present: &[u32]) -> bool
    ensures { IsTrue result → All (Satisfies (has present.now)) clauses.now }
{
    for clause in clauses {
        if !is_satisfied(clause.as_slice(), present) {
            return false;
        }
    }
    true
}

/// Whether a literal of the clause is true where exactly the listed facts are present.
fn is_satisfied(clause: &[u32], present: &[u32]) -> bool
    ensures { IsTrue result → Satisfies (has present.now) clause.now }
{
    for literal in clause {
        if is_true(*literal, present) {
            return true;
        }
    }
    false
}

/// Whether the literal is true where exactly the listed facts are present.
fn is_true(literal: u32, present: &[u32]) -> bool
    ensures { IsTrue result → IsTrueIn (has present.now) literal }
{
    let fact = literal / 2;
    if literal % 2 == 0 {
        present.contains(&fact)
    } else {
        !present.contains(&fact)
    }
}

/// Facts 0 and 1 conflict with 2 and 3; 4 to 8 are a path.
fn nine_facts(alloc: Global) -> Result<Conflicts, Fail>
    ensures facts { IfOk result (λ g. g.facts ≡ 9) }
{
    let listed = [
        (0, 2),
        (0, 3),
        (1, 2),
        (1, 3),
        (4, 5),
        (5, 6),
        (6, 7),
        (7, 8),
    ];
    let conflicts = between(alloc, 9, &listed)?;
    Ok(conflicts)
}

/// One fact, which is self-inconsistent.
fn one_fact(alloc: Global) -> Result<Conflicts, Fail>
    ensures facts { IfOk result (λ g. g.facts ≡ 1) }
{
    let conflicts = alone(alloc, 1, 0)?;
    Ok(conflicts)
}

/// The causes 0 3, 3 4 and 2.
fn three_causes(alloc: Global) -> Result<IdLists, NoMemory> {
    let mut causes = IdLists::new(alloc);
    causes.push(Ids::from_slice(alloc, &[0, 3])?)?;
    causes.push(Ids::from_slice(alloc, &[4, 3])?)?;
    causes.push(Ids::from_slice(alloc, &[2])?)?;
    Ok(causes)
}
