//! Literals of many facts at once.

ghost use Rattle.std.specs.Prelude.{◌≡◌, ◌<◌, ◌^◌, ◌++◌, map, All, OnOk};
ghost use Rattle.repair_clauses.specs.BaseClauses.{absent, present};

use cq_terms::{Ids, NoMemory};

/// Appends the literals that say that the facts are present.
pub(crate) fn push_present(clause: &mut Ids, facts: &[u32]) -> Result<(), NoMemory>
    requires few { All (λ f. f < 2 ^ 31) facts.now }

    ensures exact { OnOk result (clause.new ≡ clause.old ++ map present facts.now) }
{
    for fact in facts {
        clause.push(2 * *fact)?;
    }
    Ok(())
}

/// Appends the literals that say that the facts are absent.
pub(crate) fn push_absent(clause: &mut Ids, facts: &[u32]) -> Result<(), NoMemory>
    requires few { All (λ f. f < 2 ^ 31) facts.now }

    ensures exact { OnOk result (clause.new ≡ clause.old ++ map absent facts.now) }
{
    for fact in facts {
        clause.push(2 * *fact + 1)?;
    }
    Ok(())
}
