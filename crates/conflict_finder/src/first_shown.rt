//! Facts and pairs of facts, each with the query that showed it first.

ghost use Rattle.std.specs.Prelude.{◌≡◌, OnOk, Contains};
ghost use Rattle.conflict_finder.specs.FirstShown.{AddsNew};

use crate::clash_facts::ClashFacts;
use cq_terms::NoMemory;
use std::collections::BTreeMap;

/// A query of a closure.
#[derive(Clone, Copy, Debug)]
pub(crate) struct Source {
    /// The number of the disjointness.
    pub rule: u32,
    /// The place of the query in the closure of the disjointness.
    pub member: u32,
}

/// Facts with the first queries that showed them.
pub(crate) type FirstShown = BTreeMap<ClashFacts, Source>;

/// Notes that the query showed the facts, unless an earlier one did.
pub(crate) fn note(
    shown: &mut FirstShown,
    facts: ClashFacts,
    source: Source,
) -> Result<(), NoMemory>
    ensures adds { OnOk result (AddsNew (λ k. k ≡ facts) source shown.old.entries shown.new.entries) }
{
    if !shown.contains_key(&facts) {
        shown.insert(facts, source)?;
    }
    Ok(())
}

/// Notes that the query showed each of these.
pub(crate) fn note_all(
    shown: &mut FirstShown,
    keys: &[ClashFacts],
    source: Source,
) -> Result<(), NoMemory>
    ensures adds { OnOk result (AddsNew (λ k. Contains keys.now k) source shown.old.entries shown.new.entries) }
{
    for key in keys {
        note(shown, *key, source)?;
    }
    Ok(())
}
