//! The supports of a query: the hits of all members of its closure, each once with the least member that has it.

ghost use Rattle.std.specs.Prelude.{◌≡◌, ◌<◌, ◌≤◌, ◌≢◌, ◌⊎◌, IfOk, OnOk, OnErr, length, Contains};
ghost use Rattle.std.specs.BTreeSet.{insert_key};
ghost use Rattle.std.specs.List.Sorted.{IsStrictlySortedBy};
ghost use Rattle.cq_terms.specs.Query.{Query};
ghost use Rattle.query_matching.specs.Hits.{AreHits, HasMoreHits, IsHit};
ghost use Rattle.cq_steps.specs.declared.closure.Member.{Member};
ghost use Rattle.cause_finder.specs.Supports.{AddsOnly, AreSupports, AreTooMany, Has, HasMorePairs, support_cmp};

use crate::CauseRefusal;
use crate::support::{Support, support_of};
use cq_steps::Closure;
use cq_terms::{Cq, Hit, NoMemory};
use fact_index::Index;
use join_eval::{JoinRefusal, matches};
use std::alloc::Global;
use std::collections::BTreeSet;

/// The supports, each with the least member that has it. `TooManySupports` comes exactly where there are more than `limit`,
/// unless memory runs out before.
pub(crate) fn supports_of(
    alloc: Global,
    closure: &Closure,
    index: &Index,
    limit: u64,
) -> Result<Vec<Support>, CauseRefusal>
    ensures exact { IfOk result (λ supports. AreSupports index.now closure.now supports.items) }
    ensures too_many { result ≡ Err CauseRefusal.TooManySupports → HasMorePairs index.now closure.now limit }
    ensures few { IfOk result (λ supports. length supports.items ≤ limit) }
{
    let mut found = BTreeSet::new(alloc);
    let mut place = 0;
    for member in closure.members() {
        add_member(alloc, &mut found, &member.query, place, index, limit)?;
        place += 1;
    }
    Ok(listed(alloc, found)?)
}

/// Adds the hits of a member that aren't there yet.
fn add_member(
    alloc: Global,
    found: &mut BTreeSet<Support>,
    query: &Cq,
    place: u32,
    index: &Index,
    limit: u64,
) -> Result<(), CauseRefusal>
    requires few { length found.old.keys ≤ limit }

    ensures only { AddsOnly (IsHit index.now query.now) place found.old.keys found.new.keys }
    ensures all { OnOk result ((hit : Hit) → IsHit index.now query.now hit → Has found.new.keys hit) }
    ensures few { OnOk result (length found.new.keys ≤ limit) }
    ensures too_many { result ≡ Err CauseRefusal.TooManySupports
        → HasMoreHits index.now query.now limit ⊎ AreTooMany limit found.new.keys }
{
    let hits = hits_of(alloc, query, index, limit)?;
    for hit in &hits {
        add(alloc, found, hit, place, limit)?;
    }
    Ok(())
}

/// Adds a hit, where it isn't there yet.
fn add(
    alloc: Global,
    found: &mut BTreeSet<Support>,
    hit: &Hit,
    member: u32,
    limit: u64,
) -> Result<(), CauseRefusal>
    ensures only { AddsOnly (λ h. h ≡ hit.now) member found.old.keys found.new.keys }
    ensures there { OnOk result (Has found.new.keys hit.now) }
    ensures few { OnOk result (length found.new.keys ≤ limit) }
    ensures too_many { result ≡ Err CauseRefusal.TooManySupports → AreTooMany limit found.new.keys }
{
    let support = support_of(alloc, hit, member)?;
    ordered(found);
    put(found, support)?;
    if found.len() as u64 > limit {
        return Err(CauseRefusal::TooManySupports);
    }
    Ok(())
}

/// Puts a support in. Where its pair is there, the member that came first stays.
fn put(found: &mut BTreeSet<Support>, support: Support) -> Result<(), NoMemory>
    ensures exact { OnOk result (found.new.keys ≡ insert_key support_cmp found.old.keys support) }
    ensures unchanged { OnErr result (found.new.keys ≡ found.old.keys) }
{
    found.insert(support)?;
    Ok(())
}

/// A set of supports is in order.
fn ordered(found: &BTreeSet<Support>)
    ensures exact { IsStrictlySortedBy support_cmp found.now.keys }
{
    let _count = found.len();
}

/// The hits of a member.
fn hits_of(alloc: Global, query: &Cq, index: &Index, limit: u64) -> Result<Vec<Hit>, CauseRefusal>
    ensures exact { IfOk result (λ hits. AreHits index.now query.now hits.items) }
    ensures too_many { result ≡ Err CauseRefusal.TooManySupports → HasMoreHits index.now query.now limit }
{
    match matches(alloc, query, index, limit) {
        Ok(hits) => Ok(hits),
        Err(JoinRefusal::TooManyHits) => Err(CauseRefusal::TooManySupports),
        Err(JoinRefusal::NoMemory) => Err(CauseRefusal::NoMemory),
    }
}

/// The supports as a list, in order.
fn listed(alloc: Global, found: BTreeSet<Support>) -> Result<Vec<Support>, NoMemory>
    ensures exact { IfOk result (λ supports. supports.items ≡ found.keys) }
    ensures ordered { OnOk result (IsStrictlySortedBy support_cmp found.keys) }
{
    let mut supports = Vec::with_capacity(alloc, found.len())?;
    for support in found {
        supports.push(support)?;
    }
    Ok(supports)
}
