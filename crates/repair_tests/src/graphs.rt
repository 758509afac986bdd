//! Conflicts of few facts, and pairs.

ghost use Rattle.std.specs.Prelude.{◌≡◌, ◌<◌, ◌≤◌, ◌^◌, ◌∷◌, [], length, All, AllPairs, IfOk, IsTrue};
ghost use Rattle.cq_terms.specs.Conflicts.{IsBefore, couples, own_facts};
ghost use Rattle.priority_graph.specs.Priority.{IsOver};

use cq_terms::{Clash, Conflicts, Ids, NoMemory, Pair};
use priority_graph::{Better, PriorityRefusal, restrict};
use std::alloc::Global;
use std::test::Fail;

/// The conflicts of these pairs of facts alone, where they are in order.
pub(crate) fn between(alloc: Global, facts: u32, listed: &[(u32, u32)]) -> Result<Conflicts, Fail>
    requires few_facts { facts ≤ 2 ^ 31 }
    requires few { length listed.now < 2 ^ 31 }

    ensures facts { IfOk result (λ g. g.facts ≡ facts) }
    ensures own { IfOk result (λ g. own_facts g.clashes ≡ []) }
    ensures couples { IfOk result (λ g. couples g.clashes ≡ listed.now) }
{
    if !are_in_order(facts, listed) {
        return Err(Fail::from("these pairs are in another order"));
    }
    let conflicts = of_ordered(alloc, facts, listed)?;
    Ok(conflicts)
}

/// Whether each pair goes upward, below the bound, and comes behind all those before it.
fn are_in_order(facts: u32, listed: &[(u32, u32)]) -> bool
    ensures upward { IsTrue result → All (λ c. (c.0 < c.1) × (c.1 < facts)) listed.now }
    ensures ascending { IsTrue result → AllPairs IsBefore listed.now }
{
    for (place, pair) in listed.iter().enumerate() {
        if pair.0 >= pair.1 || pair.1 >= facts {
            return false;
        }
        if !are_before(&listed[..place], *pair) {
            return false;
        }
    }
    true
}

/// Whether each of the pairs comes before the last one.
fn are_before(pairs: &[(u32, u32)], last: (u32, u32)) -> bool
    ensures exact { IsTrue result → All (λ c. IsBefore c last) pairs.now }
{
    for pair in pairs {
        if !is_before(*pair, last) {
            return false;
        }
    }
    true
}

/// Whether the pair comes before the other.
fn is_before(pair: (u32, u32), other: (u32, u32)) -> bool
    ensures exact { IsTrue result → IsBefore pair other }
{
    pair.0 < other.0 || (pair.0 == other.0 && pair.1 < other.1)
}

/// The conflicts of these pairs of facts alone.
fn of_ordered(alloc: Global, facts: u32, listed: &[(u32, u32)]) -> Result<Conflicts, NoMemory>
    requires few_facts { facts ≤ 2 ^ 31 }
    requires few { length listed.now < 2 ^ 31 }
    requires upward { All (λ c. (c.0 < c.1) × (c.1 < facts)) listed.now }
    requires ascending { AllPairs IsBefore listed.now }

    ensures facts { IfOk result (λ g. g.facts ≡ facts) }
    ensures own { IfOk result (λ g. own_facts g.clashes ≡ []) }
    ensures couples { IfOk result (λ g. couples g.clashes ≡ listed.now) }
{
    let mut clashes = Vec::new(alloc);
    for (lower, upper) in listed {
        clashes.push(clash(alloc, *lower, *upper)?)?;
    }
    Conflicts::new(alloc, facts, clashes)
}

fn clash(alloc: Global, lower: u32, upper: u32) -> Result<Clash, NoMemory>
    ensures { IfOk result (λ c. c ≡ record { facts = lower ∷ upper ∷ []; «axiom» = 0; member = 0 }) }
{
    let mut facts = Ids::new(alloc);
    facts.push(lower)?;
    facts.push(upper)?;
    Ok(Clash {
        facts,
        axiom: 0,
        member: 0,
    })
}

/// One conflict, of a fact that is self-inconsistent.
pub(crate) fn alone(alloc: Global, facts: u32, fact: u32) -> Result<Conflicts, NoMemory>
    requires few_facts { facts ≤ 2 ^ 31 }
    requires known { fact < facts }

    ensures facts { IfOk result (λ g. g.facts ≡ facts) }
{
    let mut own = Ids::new(alloc);
    own.push(fact)?;
    let mut clashes = Vec::new(alloc);
    clashes.push(Clash {
        facts: own,
        axiom: 0,
        member: 0,
    })?;
    let conflicts = Conflicts::new(alloc, facts, clashes)?;
    Ok(conflicts)
}

/// The first of the facts is better than the second.
pub(crate) fn pair(upper: u32, lower: u32) -> Pair
    ensures { result ≡ record { upper = upper; lower = lower } }
{
    Pair { upper, lower }
}

/// Whether all facts of the pairs are below the bound.
fn are_known(pairs: &[Pair], facts: u32) -> bool
    ensures exact { IsTrue result → All (λ p. (p.upper < facts) × (p.lower < facts)) pairs.now }
{
    for pair in pairs {
        if !is_known(*pair, facts) {
            return false;
        }
    }
    true
}

/// Whether both facts of the pair are below the bound.
fn is_known(pair: Pair, facts: u32) -> bool
    ensures exact { IsTrue result → (pair.upper < facts) × (pair.lower < facts) }
{
    pair.upper < facts && pair.lower < facts
}

/// What `restrict` answers to a few pairs of facts of the table.
fn tried(
    alloc: Global,
    pairs: &[Pair],
    conflicts: &Conflicts,
) -> Result<Result<Better, PriorityRefusal>, Fail>
    ensures over { IfOk result (λ answer. IfOk answer (λ b. IsOver b conflicts.now)) }
{
    if !are_known(pairs, conflicts.facts()) {
        return Err(Fail::from("these pairs are of other facts"));
    }
    if pairs.len() > 1_000_000 {
        return Err(Fail::from("these pairs are too many"));
    }
    Ok(restrict(alloc, pairs, conflicts))
}

/// The priority by the pairs.
pub(crate) fn ranked(alloc: Global, pairs: &[Pair], conflicts: &Conflicts) -> Result<Better, Fail>
    ensures over { IfOk result (λ b. IsOver b conflicts.now) }
{
    let better = tried(alloc, pairs, conflicts)??;
    Ok(better)
}

/// The cycle for which the pairs are refused, and no fact where they aren't.
pub(crate) fn cycle_of(alloc: Global, pairs: &[Pair], conflicts: &Conflicts) -> Result<Ids, Fail> {
    match tried(alloc, pairs, conflicts)? {
        Ok(_) => Ok(Ids::new(alloc)),
        Err(PriorityRefusal::Cycle { facts }) => Ok(facts),
        Err(PriorityRefusal::NoMemory) => Err(Fail::from("no memory")),
    }
}
