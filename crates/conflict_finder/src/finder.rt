//! The conflicts of a table.

ghost use Rattle.std.specs.Prelude.{◌≡◌, ◌<◌, ◌^◌, ℕ, length, All, IfOk, OnOk, Err};
ghost use Rattle.cq_terms.specs.Conflicts.{couples, own_facts};
ghost use Rattle.cq_terms.specs.Knowledge.{kb_of};
ghost use Rattle.cq_meaning.specs.Conflicts.{AreConflicts};
ghost use Rattle.conflict_finder.specs.Finding.{AreClosures, HasMoreConflicts, IsFirstTooLarge, IsShownFirst, NoneTooLarge};

use crate::FindRefusal;
use crate::clashes::clashes;
use crate::closures::closures;
use crate::others::{facts_at, others};
use crate::scan::{Pass, scan};
use crate::sought::Sought;
use cq_steps::{Closure, closing_list_is_closure};
use cq_terms::{Axiom, Conflicts};
use fact_index::Index;
use std::alloc::Global;
use std::collections::BTreeMap;

/// The conflicts of a table, and the closures of the disjointnesses.
#[derive(Drop)]
pub struct FoundConflicts {
    /// The self-inconsistent facts and the pairs in conflict. Each clash names the least axiom and then the least member of
    /// its closure that matches with exactly its facts.
    pub conflicts: Conflicts,
    /// The closure of each disjointness, with the number of the axiom, ascending.
    pub closures: Vec<(u32, Closure)>,
}

/// The self-inconsistent facts of a table under axioms and the pairs of facts in conflict. `Closure` comes exactly where the
/// closure of a disjointness has more than `max_cqs` members, with the first such axiom; `Conflicts` exactly where none does
/// and there are more than `max_conflicts` facts and pairs.
///
/// ```
/// // No vessel is a harbour.
/// let (vessel, harbour) = (Basic::Concept(0), Basic::Concept(1));
/// let axioms = [Axiom::Disjoint {
///     left: vessel,
///     right: harbour,
/// }];
/// let found = find(alloc, &axioms, index, 1_000, 1_000)?;
/// ```
///
/// Where the facts 0 and 1 say that individual 7 is a vessel and that it is a harbour, the one clash is of both.
pub fn find(
    alloc: Global,
    axioms: &[Axiom],
    index: &Index,
    max_cqs: u32,
    max_conflicts: u64,
) -> Result<FoundConflicts, FindRefusal>
    requires axioms_fit { length axioms.now < 2 ^ 31 }
    requires limit_fits { max_conflicts < 2 ^ 31 }

    ensures closures { IfOk result (λ found. AreClosures axioms.now found.closures.items) }
    ensures facts { IfOk result (λ found. found.conflicts.facts ≡ length index.now) }
    ensures conflicts { IfOk result (λ found.
        AreConflicts (kb_of axioms.now index.now) (own_facts found.conflicts.clashes) (couples found.conflicts.clashes)) }
    ensures named { IfOk result (λ found.
        All (λ c. IsShownFirst index.now found.closures.items c.facts c.«axiom» c.member) found.conflicts.clashes) }

    // Each refusal but want of memory comes exactly where it should.
    ensures closure_refused { (n : ℕ) → result ≡ Err (FindRefusal.Closure n) → IsFirstTooLarge axioms.now max_cqs n }
    ensures conflicts_refused { result ≡ Err FindRefusal.Conflicts
        → NoneTooLarge axioms.now max_cqs × HasMoreConflicts (kb_of axioms.now index.now) max_conflicts }
    ensures within { OnOk result (NoneTooLarge axioms.now max_cqs
        × (¬ HasMoreConflicts (kb_of axioms.now index.now) max_conflicts)) }
{
    let closures = closures(alloc, axioms, max_cqs)?;
    closing_list_is_closure();
    let count = index.len();
    let mut shown = BTreeMap::new(alloc);
    let singles = Pass {
        sought: Sought::Singles,
        index,
        numbers: &[],
        part: index,
        limit: max_conflicts,
    };
    scan(alloc, &singles, &closures, &mut shown)?;
    let numbers = others(alloc, count, &shown)?;
    let part = Index::build(alloc, &facts_at(alloc, index, &numbers)?)?;
    let pairs = Pass {
        sought: Sought::Pairs,
        index,
        numbers: &numbers,
        part: &part,
        limit: max_conflicts,
    };
    scan(alloc, &pairs, &closures, &mut shown)?;
    let clashes = clashes(alloc, &shown)?;
    let conflicts = Conflicts::new(alloc, count, clashes)?;
    Ok(FoundConflicts {
        conflicts,
        closures,
    })
}
