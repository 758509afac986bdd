//! The closures of the disjointnesses.

ghost use Rattle.std.specs.Prelude.{◌≡◌, ◌≢◌, ◌<◌, ◌^◌, ℕ, length, All, IfOk, OnOk, Err, Some};
ghost use Rattle.cq_terms.specs.Query.{Query};
ghost use Rattle.cq_meaning.specs.Rewriting.{disjointness_query};
ghost use Rattle.cq_steps.specs.Derivation.{IsDerivation};
ghost use Rattle.perfect_ref.specs.BreadthFirst.{HasMoreThan};
ghost use Rattle.conflict_finder.specs.Finding.{AreClosures, IsClosureOf, IsFirstTooLarge, NoneTooLarge};

use crate::FindRefusal;
use cq_steps::{Closure, negative_query};
use cq_terms::Axiom;
use perfect_ref::{CloseRefusal, close};
use std::alloc::Global;

/// The closures of the disjointnesses, each with the number of its axiom, by number. `Closure` comes with the first of them
/// that has more than `limit` members.
pub(crate) fn closures(
    alloc: Global,
    axioms: &[Axiom],
    limit: u32,
) -> Result<Vec<(u32, Closure)>, FindRefusal>
    requires axioms_fit { length axioms.now < 2 ^ 31 }

    ensures exact { IfOk result (λ closures. AreClosures axioms.now closures.items) }
    ensures derived { IfOk result (λ closures. All (λ c. IsDerivation c.1) closures.items) }
    ensures fit { OnOk result (NoneTooLarge axioms.now limit) }
    ensures refused { (n : ℕ) → result ≡ Err (FindRefusal.Closure n) → IsFirstTooLarge axioms.now limit n }
    ensures told { result ≢ Err FindRefusal.Conflicts }
{
    let mut closures = Vec::new(alloc);
    let mut number: u32 = 0;
    for rule in axioms {
        if let Some(closure) = closure_of(alloc, axioms, *rule, number, limit)? {
            closures.push((number, closure))?;
        }
        number += 1;
    }
    Ok(closures)
}

/// The closure of the query of an axiom, or `None` where it is an inclusion.
fn closure_of(
    alloc: Global,
    axioms: &[Axiom],
    rule: Axiom,
    number: u32,
    limit: u32,
) -> Result<Option<Closure>, FindRefusal>
    requires axioms_fit { length axioms.now < 2 ^ 31 }

    ensures exact { IfOk result (IsClosureOf axioms.now rule limit) }
    ensures refused { (n : ℕ) → result ≡ Err (FindRefusal.Closure n)
        → (n ≡ number) × ((q : Query) × (disjointness_query rule ≡ Some q) × HasMoreThan axioms.now q limit) }
    ensures told { result ≢ Err FindRefusal.Conflicts }
{
    let Some(query) = negative_query(alloc, &rule)? else {
        return Ok(None);
    };
    match close(alloc, &query, axioms, limit) {
        Ok(closure) => {
            let _ = closure.members();
            Ok(Some(closure))
        }
        Err(CloseRefusal::TooManyCqs) => Err(FindRefusal::Closure { axiom: number }),
        Err(CloseRefusal::NoMemory) => Err(FindRefusal::NoMemory),
    }
}
