//! All conflicts, from what the queries of the blocks of the disjointnesses match with.

ghost use Rattle.std.specs.Prelude.{◌≡◌, IfOk};
ghost use Rattle.cq_meaning.specs.ConflictGraphs.{AreConflictsOf};
ghost use Rattle.plain_finding.specs.Ready.{TellConflicts};

use crate::clashes::clashes;
use cq_terms::{Conflicts, Cq, Kb, NoMemory};
use plain_match::{PlainFacts, images_plain};
use std::alloc::Global;

/// The conflicts of the table, told by the queries of all disjointnesses' blocks. Memory is said to have run out where there are more than
/// 2^31 facts or conflicts.
pub fn find_conflicts(
    alloc: Global,
    kb: &Kb,
    plain: &PlainFacts,
    queries: &[Cq],
) -> Result<Conflicts, NoMemory>
    requires plain { plain.now ≡ kb.now.facts }
    requires ready { TellConflicts kb.now queries.now }

    ensures exact { IfOk result (AreConflictsOf kb.now) }
{
    let facts = kb.facts().len();
    let hits = images_plain(alloc, queries, plain)?;
    let clashes = clashes(alloc, &hits)?;
    let count = clashes.as_slice().len();
    if facts > 2_147_483_648 || count >= 2_147_483_648 {
        return Err(NoMemory);
    }
    Conflicts::new(alloc, facts as u32, clashes)
}
