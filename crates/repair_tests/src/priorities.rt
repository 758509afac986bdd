//! What no clause says: that memory is enough for small priorities and long ones, and which cycle is named.

ghost use Rattle.std.specs.Prelude.{◌≡◌, ◌<◌, ◌≤◌, ◌^◌, ◌∷◌, [], length, All, IfOk};
ghost use Rattle.cq_terms.specs.Conflicts.{couples, own_facts};

use crate::graphs::{between, cycle_of, pair, ranked};
use cq_terms::{Conflicts, Ids, NoMemory, Pair};
use priority_graph::Better;
use std::alloc::Global;
use std::test::Fail;

#[test]
fn each_fact_has_its_blockers(rt: HostRuntime) -> Result<(), Fail> {
    let better = two_over_two(rt.alloc())?;
    assert_eq!(rt; better.blockers(0), [2, 3].as_slice());
    assert_eq!(rt; better.blockers(1), [2, 3].as_slice());
    assert_eq!(rt; better.blockers(2), [1].as_slice());
    assert_eq!(rt; better.blockers(3), [0].as_slice());
    Ok(())
}

#[test]
fn one_fact_makes_no_core_where_a_better_one_is_dropped(rt: HostRuntime) -> Result<(), Fail> {
    let better = two_over_two(rt.alloc())?;
    assert!(rt; better.direct(&[0])?.is_none());
    Ok(())
}

#[test]
fn two_facts_make_a_core_where_one_of_them_blocks_each_dropped(
    rt: HostRuntime,
) -> Result<(), Fail> {
    let better = two_over_two(rt.alloc())?;
    let dropped = better.direct(&[0, 1])?.ok_or("none")?;
    assert_eq!(rt; dropped.as_slice(), [2, 3].as_slice());
    Ok(())
}

#[test]
fn without_pairs_all_that_conflict_block(rt: HostRuntime) -> Result<(), Fail> {
    let conflicts = two_against_two(rt.alloc())?;
    let better = Better::none(rt.alloc(), &conflicts)?;
    assert_eq!(rt; better.blockers(2), [0, 1].as_slice());
    assert_eq!(rt; better.over(2, 0), false);
    assert_eq!(rt; better.linear().len(), 4);
    Ok(())
}

#[test]
fn repeated_pairs_and_pairs_without_conflict_are_no_cycle(rt: HostRuntime) -> Result<(), Fail> {
    let conflicts = two_against_two(rt.alloc())?;
    let pairs = [pair(3, 0), pair(0, 1), pair(1, 0), pair(2, 2), pair(3, 0)];
    let cycle = cycle_of(rt.alloc(), &pairs, &conflicts)?;
    assert_eq!(rt; cycle.as_slice(), [].as_slice());
    Ok(())
}

#[test]
fn a_cycle_is_named_from_its_least_fact(rt: HostRuntime) -> Result<(), Fail> {
    let conflicts = two_against_two(rt.alloc())?;
    // 3 over 1, 1 over 2, 2 over 0, 0 over 3
    let pairs = [pair(3, 1), pair(1, 2), pair(2, 0), pair(0, 3)];
    let cycle = cycle_of(rt.alloc(), &pairs, &conflicts)?;
    assert_eq!(rt; cycle.as_slice(), [0, 3, 1, 2].as_slice());
    Ok(())
}

#[test]
fn a_fact_outside_a_cycle_hides_none(rt: HostRuntime) -> Result<(), Fail> {
    let conflicts = two_against_two(rt.alloc())?;
    let pairs = [pair(2, 1), pair(2, 0), pair(0, 2)];
    let cycle = cycle_of(rt.alloc(), &pairs, &conflicts)?;
    assert_eq!(rt; cycle.as_slice(), [0, 2].as_slice());
    Ok(())
}

#[test]
fn both_pairs_of_one_conflict_are_a_cycle(rt: HostRuntime) -> Result<(), Fail> {
    let conflicts = between(rt.alloc(), 2, &[(0, 1)])?;
    let cycle = cycle_of(rt.alloc(), &[pair(0, 1), pair(1, 0)], &conflicts)?;
    assert_eq!(rt; cycle.as_slice(), [0, 1].as_slice());
    Ok(())
}

#[test]
fn a_long_chain_is_ordered_from_its_best(rt: HostRuntime) -> Result<(), Fail> {
    let conflicts = ring(rt.alloc(), 3000)?;
    let pairs = steps(rt.alloc(), 3000, 2999)?;
    let better = ranked(rt.alloc(), pairs.as_slice(), &conflicts)?;
    assert_eq!(rt; better.linear(), numbers(rt.alloc(), 3000)?.as_slice());
    Ok(())
}

#[test]
fn a_long_cycle_is_named_whole(rt: HostRuntime) -> Result<(), Fail> {
    let conflicts = ring(rt.alloc(), 3000)?;
    let pairs = steps(rt.alloc(), 3000, 3000)?;
    let cycle = cycle_of(rt.alloc(), pairs.as_slice(), &conflicts)?;
    assert_eq!(rt; cycle.as_slice(), numbers(rt.alloc(), 3000)?.as_slice());
    Ok(())
}

/// Fact 2 is better than 0, and 3 better than 1.
fn two_over_two(alloc: Global) -> Result<Better, Fail>
    ensures facts { IfOk result (λ b. b.facts ≡ 4) }
    ensures own { IfOk result (λ b. b.own ≡ []) }
    ensures couples { IfOk result (λ b. b.couples ≡ (0, 2) ∷ (0, 3) ∷ (1, 2) ∷ (1, 3) ∷ []) }
{
    let conflicts = two_against_two(alloc)?;
    let better = ranked(alloc, &[pair(2, 0), pair(3, 1)], &conflicts)?;
    Ok(better)
}

/// Facts 0 and 1 conflict with 2 and 3.
fn two_against_two(alloc: Global) -> Result<Conflicts, Fail>
    ensures facts { IfOk result (λ g. g.facts ≡ 4) }
    ensures own { IfOk result (λ g. own_facts g.clashes ≡ []) }
    ensures couples { IfOk result (λ g. couples g.clashes ≡ (0, 2) ∷ (0, 3) ∷ (1, 2) ∷ (1, 3) ∷ []) }
{
    let conflicts = between(alloc, 4, &[(0, 2), (0, 3), (1, 2), (1, 3)])?;
    Ok(conflicts)
}

/// Each fact conflicts with the next, and the last with the first.
fn ring(alloc: Global, facts: u32) -> Result<Conflicts, Fail>
    requires some { 2 < facts }
    requires few { facts < 2 ^ 31 }

    ensures facts { IfOk result (λ g. g.facts ≡ facts) }
{
    let mut listed = Vec::new(alloc);
    listed.push((0, 1))?;
    listed.push((0, facts - 1))?;
    for fact in 1..facts - 1 {
        listed.push((fact, fact + 1))?;
    }
    let conflicts = between(alloc, facts, listed.as_slice())?;
    Ok(conflicts)
}

/// The first `count` pairs of each fact over the next and the last over the first.
fn steps(alloc: Global, facts: u32, count: u32) -> Result<Vec<Pair>, NoMemory>
    requires some { 0 < facts }
    requires few { count < 2 ^ 31 }
{
    let mut pairs = Vec::new(alloc);
    for fact in 0..count {
        pairs.push(pair(fact, (fact + 1) % facts))?;
    }
    Ok(pairs)
}

/// The numbers below a bound.
fn numbers(alloc: Global, bound: u32) -> Result<Vec<u32>, NoMemory> {
    let mut numbers = Vec::new(alloc);
    for number in 0..bound {
        numbers.push(number)?;
    }
    Ok(numbers)
}
