//! The candidates of a query with their causes.

ghost use Rattle.std.specs.Prelude.{◌≡◌, IfOk, OnOk, length};
ghost use Rattle.cq_terms.specs.Knowledge.{AreDistinct, kb_of};
ghost use Rattle.cq_terms.specs.Query.{Query};
ghost use Rattle.cq_meaning.specs.ConflictGraphs.{AreConflictsOf};
ghost use Rattle.cq_steps.specs.Closing.{Closes};
ghost use Rattle.cq_steps.specs.Derivation.{IsDerivation};
ghost use Rattle.cause_finder.specs.Causes.{AreAnswers, HasMoreSupports};

use crate::gathered::supports_of;
use crate::groups::candidates_of;
use crate::{Candidate, CauseRefusal};
use cq_steps::{Closure, closing_list_is_closure};
use cq_terms::{Axiom, Conflicts};
use fact_index::Index;
use std::alloc::Global;

/// Every candidate of a query with its causes (after Bienvenu, Bourgaux and Goasdoué 2014), where the closure is that of the
/// query under the axioms, and the conflicts are those of the facts of the index. `TooManySupports` comes exactly where there
/// are more pairs of a tuple and a support of it than `limit`, unless memory runs out before. At most `limit` + 1 supports are
/// kept at a time, besides the hits of one member. A support takes 72 bytes, and an allocation of 4 bytes a number for its tuple
/// or its image where that has more than four numbers.
///
/// ```
/// let x = Term::Var(0);
/// let head = Vec::from_slice(alloc, &[x])?;
/// let body = Vec::from_slice(alloc, &[QAtom::Concept { pred: 0, at: x }])?;
/// let closure = close(alloc, &Cq::new(head, body), &axioms, 1_000)?;
/// let candidates = causes(alloc, &axioms, &closure, index, &found.conflicts, 1_000)?;
/// ```
///
/// Where `found` are the conflicts of a table whose fact 0 says that individual 7 is in concept 0, and no other fact leads there,
/// the one candidate has the tuple `[7]` and the cause `[0]`.
pub fn causes(
    alloc: Global,
    axioms: &[Axiom],
    closure: &Closure,
    index: &Index,
    conflicts: &Conflicts,
    limit: u64,
) -> Result<Vec<Candidate>, CauseRefusal>
    requires facts { conflicts.now.facts ≡ length index.now }

    ensures exact { (q : Query) → Closes axioms.now q closure.now → AreConflictsOf (kb_of axioms.now index.now) conflicts.now
        → IfOk result (λ candidates. AreAnswers axioms.now index.now q closure.now candidates.items) }

    // Too many comes where there are more than the limit, and then nothing else but want of memory.
    ensures too_many { (q : Query) → Closes axioms.now q closure.now
        → result ≡ Err CauseRefusal.TooManySupports → HasMoreSupports (kb_of axioms.now index.now) q limit }
    ensures within { (q : Query) → Closes axioms.now q closure.now
        → OnOk result (¬ HasMoreSupports (kb_of axioms.now index.now) q limit) }
{
    closing_list_is_closure();
    derived(closure);
    distinct(index);
    let supports = supports_of(alloc, closure, index, limit)?;
    Ok(candidates_of(alloc, &supports, conflicts)?)
}

/// The members of a closure are derived from earlier ones.
fn derived(closure: &Closure)
    ensures exact { IsDerivation closure.now }
{
    let _count = closure.members().len();
}

/// The facts of an index are distinct.
fn distinct(index: &Index)
    ensures exact { AreDistinct index.now }
{
    let _count = index.len();
}
