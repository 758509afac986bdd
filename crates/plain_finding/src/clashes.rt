//! Hits as clashes.

ghost use Rattle.std.specs.Prelude.{◌≡◌, ◌++◌, ◌||◌, ◌∷◌, [], map, IfOk, OnOk};
ghost use Rattle.cq_terms.specs.Conflicts.{single, couple};
ghost use Rattle.cq_terms.specs.Lists.{IsAscending};
ghost use Rattle.priority_graph.specs.Split.{has};
ghost use Rattle.plain_finding.specs.Clashes.{own_in, couple_in, owns_in, pairs_in, wanted, own_clash, couple_clash, clashes_in};

use cq_terms::{Clash, Hit, Ids, NoMemory, has_sorted};
use std::alloc::Global;

/// The clashes of the hits without a tuple: those of one fact, and those of two of which neither is one by itself.
pub fn clashes(alloc: Global, hits: &[Hit]) -> Result<Vec<Clash>, NoMemory>
    requires ascending { IsAscending (owns_in hits.now) }

    ensures exact { IfOk result (λ clashes. clashes.items ≡ clashes_in hits.now) }
{
    let owns = own_facts(alloc, hits)?;
    let mut clashes = Vec::new(alloc);
    add_owns(alloc, &owns, &mut clashes)?;
    add_couples(alloc, &owns, hits, &mut clashes)?;
    Ok(clashes)
}

/// The single facts of the hits without a tuple.
fn own_facts(alloc: Global, hits: &[Hit]) -> Result<Vec<u32>, NoMemory>
    ensures exact { IfOk result (λ owns. owns.items ≡ owns_in hits.now) }
{
    let mut owns = Vec::new(alloc);
    for hit in hits {
        if let Some(own) = own_fact(hit) {
            owns.push(own)?;
        }
    }
    Ok(owns)
}

/// The one fact of a hit without a tuple.
fn own_fact(hit: &Hit) -> Option<u32>
    ensures exact { result ≡ own_in hit.now.tuple hit.now.image }
{
    match hit.tuple.as_slice() {
        [] => one(hit.image.as_slice()),
        _ => None,
    }
}

/// The one number of a list of one.
fn one(numbers: &[u32]) -> Option<u32>
    ensures exact { result ≡ single numbers.now }
{
    match numbers {
        [only] => Some(*only),
        _ => None,
    }
}

/// The two facts of a hit without a tuple.
fn two_facts(hit: &Hit) -> Option<(u32, u32)>
    ensures exact { result ≡ couple_in hit.now.tuple hit.now.image }
{
    match hit.tuple.as_slice() {
        [] => two(hit.image.as_slice()),
        _ => None,
    }
}

/// The two numbers of a list of two.
fn two(numbers: &[u32]) -> Option<(u32, u32)>
    ensures exact { result ≡ couple numbers.now }
{
    match numbers {
        [lower, upper] => Some((*lower, *upper)),
        _ => None,
    }
}

/// Appends a clash for each fact.
fn add_owns(alloc: Global, owns: &[u32], clashes: &mut Vec<Clash>) -> Result<(), NoMemory>
    ensures exact { OnOk result (clashes.new.items ≡ clashes.old.items ++ map own_clash owns.now) }
{
    for own in owns {
        clashes.push(clash(alloc, &[*own])?)?;
    }
    Ok(())
}

/// Appends a clash for each pair of which neither is a fact of the list.
fn add_couples(
    alloc: Global,
    owns: &[u32],
    hits: &[Hit],
    clashes: &mut Vec<Clash>,
) -> Result<(), NoMemory>
    requires ascending { IsAscending owns.now }

    ensures exact { OnOk result (clashes.new.items ≡ clashes.old.items ++ map couple_clash (pairs_in owns.now hits.now)) }
{
    for hit in hits {
        if let Some((lower, upper)) = wanted_pair(owns, hit) {
            clashes.push(clash(alloc, &[lower, upper])?)?;
        }
    }
    Ok(())
}

/// The pair of a hit, where neither of its facts stands in the list.
fn wanted_pair(owns: &[u32], hit: &Hit) -> Option<(u32, u32)>
    requires ascending { IsAscending owns.now }

    ensures exact { result ≡ wanted owns.now (couple_in hit.now.tuple hit.now.image) }
{
    let (lower, upper) = two_facts(hit)?;
    if is_either(owns, lower, upper) {
        None
    } else {
        Some((lower, upper))
    }
}

/// Whether one of the two facts stands in the list.
fn is_either(owns: &[u32], lower: u32, upper: u32) -> bool
    requires ascending { IsAscending owns.now }

    ensures exact { result ≡ (has owns.now lower || has owns.now upper) }
{
    is_in(owns, lower) || is_in(owns, upper)
}

/// Whether the fact stands in the list.
fn is_in(owns: &[u32], fact: u32) -> bool
    requires ascending { IsAscending owns.now }

    ensures exact { result ≡ has owns.now fact }
{
    has_sorted(owns, fact)
}

/// The clash of the facts.
fn clash(alloc: Global, facts: &[u32]) -> Result<Clash, NoMemory>
    ensures exact { IfOk result (λ c. c ≡ record { facts = facts.now; «axiom» = 0; member = 0 }) }
{
    Ok(Clash {
        facts: Ids::from_slice(alloc, facts)?,
        axiom: 0,
        member: 0,
    })
}
