//! What was shown, as clashes.

ghost use Rattle.std.specs.Prelude.{◌≡◌, ◌++◌, ◌∷◌, [], map, IfOk, OnOk};
ghost use Rattle.conflict_finder.specs.FirstShown.{AreOrdered, clash_of, numbers_of};

use crate::clash_facts::ClashFacts;
use crate::first_shown::{FirstShown, Source};
use cq_terms::{Clash, Ids, NoMemory};
use std::alloc::Global;

/// The clashes, in the order of the map: those of one fact, and then those of two, each ascending.
pub(crate) fn clashes(alloc: Global, shown: &FirstShown) -> Result<Vec<Clash>, NoMemory>
    ensures exact { IfOk result (λ clashes. clashes.items ≡ map clash_of shown.now.entries) }
    ensures ordered { OnOk result (AreOrdered shown.now.entries) }
{
    let mut clashes = Vec::with_capacity(alloc, shown.len())?;
    for (facts, source) in shown {
        push_clash(alloc, *facts, *source, &mut clashes)?;
    }
    Ok(clashes)
}

/// Appends the clash of the facts.
fn push_clash(
    alloc: Global,
    facts: ClashFacts,
    source: Source,
    clashes: &mut Vec<Clash>,
) -> Result<(), NoMemory>
    ensures exact { OnOk result (clashes.new.items ≡ clashes.old.items ++ clash_of (facts, source) ∷ []) }
{
    clashes.push(clash(alloc, facts, source)?)?;
    Ok(())
}

/// The clash of the facts.
fn clash(alloc: Global, facts: ClashFacts, source: Source) -> Result<Clash, NoMemory>
    ensures exact { IfOk result (λ c. c ≡ clash_of (facts, source)) }
{
    let Source {
        rule: axiom,
        member,
    } = source;
    Ok(Clash {
        facts: numbers(alloc, facts)?,
        axiom,
        member,
    })
}

/// The numbers of the facts.
fn numbers(alloc: Global, facts: ClashFacts) -> Result<Ids, NoMemory>
    ensures exact { IfOk result (λ ids. ids ≡ numbers_of facts) }
{
    match facts {
        ClashFacts::One(fact) => Ids::from_slice(alloc, &[fact]),
        ClashFacts::Two(first, second) => Ids::from_slice(alloc, &[first, second]),
    }
}
