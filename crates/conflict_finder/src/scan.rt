//! All queries of the closures in order, each with the facts that it shows.

ghost use Rattle.std.specs.Prelude.{◌≡◌, ◌<◌, ◌≤◌, ◌^◌, ℕ, [], List, length, All, AllPairs, Contains, IfOk, OnOk, Err};
ghost use Rattle.cq_meaning.specs.Entailment.{HasImage};
ghost use Rattle.cq_steps.specs.declared.closure.Member.{Member};
ghost use Rattle.conflict_finder.specs.declared.clash_facts.ClashFacts.{ClashFacts};
ghost use Rattle.conflict_finder.specs.declared.first_shown.Source.{Source};
ghost use Rattle.conflict_finder.specs.Finding.{HasMoreSets};
ghost use Rattle.conflict_finder.specs.Images.{ArePart, AreKeys, AreShort, IsShort, IsNotedOrImage};
ghost use Rattle.conflict_finder.specs.FirstShown.{numbers_of, AddsNew, AreFirst, IsEarlier, IsScanned, IsNotedOrShown, IsWanted, IsWithin};

use crate::clash_facts::ClashFacts;
use crate::first_shown::{FirstShown, Source, note_all};
use crate::images::{pair_images, single_images};
use crate::sought::Sought;
use cq_steps::{Closure, Member};
use cq_terms::Cq;
use fact_index::Index;
use join_eval::JoinRefusal;
use std::alloc::Global;

/// What is looked for: single facts of the table, or pairs of facts in the part of it that has the facts of these numbers;
/// and at most so many of both together.
#[derive(Clone, Copy)]
pub(crate) struct Pass<'a> {
    pub sought: Sought,
    pub index: &'a Index,
    pub numbers: &'a [u32],
    pub part: &'a Index,
    pub limit: u64,
}

/// Notes what the queries of all closures show, each with the first query that shows it. `TooManyHits` comes where more was
/// found than the limit.
pub(crate) fn scan(
    alloc: Global,
    pass: &Pass,
    closures: &[(u32, Closure)],
    shown: &mut FirstShown,
) -> Result<(), JoinRefusal>
    requires part { pass.now.sought ≡ Sought.Pairs → ArePart pass.now.index.now pass.now.numbers.now pass.now.part.now }
    requires short { AreShort closures.now }
    requires ascending { AllPairs (λ c d. c.0 < d.0) closures.now }
    requires first { AreFirst pass.now.index.now closures.now shown.old.entries }
    requires few { length shown.old.entries ≤ pass.now.limit }

    ensures shown { OnOk result (IsScanned pass.now.index.now closures.now pass.now.sought pass.now.numbers.now (λ m p. Unit {0})
        shown.old.entries shown.new.entries) }
    ensures few { OnOk result (length shown.new.entries ≤ pass.now.limit) }
    ensures many { result ≡ Err JoinRefusal.TooManyHits
        → HasMoreSets (IsNotedOrShown pass.now.index.now closures.now pass.now.sought pass.now.numbers.now shown.old.entries)
        pass.now.limit }
{
    for closure in closures {
        scan_members(alloc, pass, closure.0, closure.1.members(), shown)?;
    }
    Ok(())
}

/// Notes what the members of the closure of an axiom show.
fn scan_members(
    alloc: Global,
    pass: &Pass,
    rule: u32,
    members: &[Member],
    shown: &mut FirstShown,
) -> Result<(), JoinRefusal>
    requires part { pass.now.sought ≡ Sought.Pairs → ArePart pass.now.index.now pass.now.numbers.now pass.now.part.now }
    requires short { All (λ m. IsShort m.query) members.now }
    requires members_fit { length members.now < 2 ^ 32 }
    requires few { length shown.old.entries ≤ pass.now.limit }

    ensures shown { (closures : List (ℕ × List Member)) (first : List (ClashFacts × Source)) → Contains closures (rule, members.now)
        → AllPairs (λ c d. c.0 < d.0) closures
        → IsScanned pass.now.index.now closures pass.now.sought pass.now.numbers.now (IsEarlier rule 0) first shown.old.entries
        → OnOk result (IsScanned pass.now.index.now closures pass.now.sought pass.now.numbers.now
        (IsEarlier rule (length members.now)) first shown.new.entries) }
    ensures few { OnOk result (length shown.new.entries ≤ pass.now.limit) }
    ensures many { (closures : List (ℕ × List Member)) (first : List (ClashFacts × Source)) → Contains closures (rule, members.now)
        → AllPairs (λ c d. c.0 < d.0) closures
        → IsScanned pass.now.index.now closures pass.now.sought pass.now.numbers.now (IsEarlier rule 0) first shown.old.entries
        → result ≡ Err JoinRefusal.TooManyHits
        → HasMoreSets (IsNotedOrShown pass.now.index.now closures pass.now.sought pass.now.numbers.now first) pass.now.limit }
{
    let mut place: u32 = 0;
    for member in members {
        let source = Source {
            rule,
            member: place,
        };
        scan_query(alloc, pass, source, &member.query, shown)?;
        place += 1;
    }
    Ok(())
}

/// Notes what a query shows.
fn scan_query(
    alloc: Global,
    pass: &Pass,
    source: Source,
    query: &Cq,
    shown: &mut FirstShown,
) -> Result<(), JoinRefusal>
    requires part { pass.now.sought ≡ Sought.Pairs → ArePart pass.now.index.now pass.now.numbers.now pass.now.part.now }
    requires short { IsShort query.now }

    ensures adds { OnOk result (AddsNew (λ k. IsWanted pass.now.sought pass.now.numbers.now (numbers_of k)
        × HasImage pass.now.index.now query.now [] (numbers_of k)) source shown.old.entries shown.new.entries) }
    ensures few { OnOk result (length shown.new.entries ≤ pass.now.limit) }
    ensures many { result ≡ Err JoinRefusal.TooManyHits
        → HasMoreSets (IsNotedOrImage pass.now.index.now query.now (IsWithin pass.now.sought pass.now.numbers.now)
        shown.old.entries) pass.now.limit }
{
    let keys = images(alloc, pass, query)?;
    note_all(shown, &keys, source)?;
    if shown.len() as u64 > pass.limit {
        return Err(JoinRefusal::TooManyHits);
    }
    Ok(())
}

/// What the query shows.
fn images(alloc: Global, pass: &Pass, query: &Cq) -> Result<Vec<ClashFacts>, JoinRefusal>
    requires part { pass.now.sought ≡ Sought.Pairs → ArePart pass.now.index.now pass.now.numbers.now pass.now.part.now }
    requires short { IsShort query.now }

    ensures exact { IfOk result (λ keys. AreKeys (λ k. IsWanted pass.now.sought pass.now.numbers.now (numbers_of k)
        × HasImage pass.now.index.now query.now [] (numbers_of k)) keys.items) }
    ensures many { result ≡ Err JoinRefusal.TooManyHits
        → HasMoreSets (λ set. IsWithin pass.now.sought pass.now.numbers.now set
        × HasImage pass.now.index.now query.now [] set) pass.now.limit }
{
    match pass.sought {
        Sought::Singles => Ok(single_images(alloc, pass.index, query)?),
        Sought::Pairs => pair_images(alloc, pass.part, pass.numbers, query, pass.limit),
    }
}
