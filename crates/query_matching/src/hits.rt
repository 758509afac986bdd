//! Rows as hits.

ghost use Rattle.std.specs.Prelude.{◌≡◌, map, IfOk, OnOk};
ghost use Rattle.std.specs.List.Sorted.{IsStrictlySortedBy};
ghost use Rattle.query_matching.specs.Rows.{row_cmp, hit_of};

use crate::row::Row;
use cq_terms::{Hit, NoMemory};
use std::alloc::Global;
use std::collections::BTreeSet;

/// The rows as hits, in order.
pub fn hits_of(alloc: Global, found: BTreeSet<Row>) -> Result<Vec<Hit>, NoMemory>
    ensures exact { IfOk result (λ hits. hits.items ≡ map hit_of found.keys) }
    ensures ordered { OnOk result (IsStrictlySortedBy row_cmp found.keys) }
{
    let mut hits = Vec::with_capacity(alloc, found.len())?;
    for row in found {
        let Row { tuple, image } = row;
        hits.push(Hit { tuple, image })?;
    }
    Ok(hits)
}
