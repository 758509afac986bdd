//! Supports, compared by tuple and image alone.

ghost use Rattle.std.specs.Prelude.{◌≡◌, ◌==◌, IfOk};
ghost use Rattle.std.proofs.Common.{rules};
ghost use Rattle.std.specs.Cmp.{partial_order_from_own_ties};
ghost use Rattle.std.specs.Cmp.Rules.{comparing};
ghost use Rattle.std.specs.Cmp.Lexicographic.{slice_cmp, pointwise};
ghost use Rattle.std.specs.Ordering.{nat_cmp, on, then_cmp, as_partial_cmp, eq_of_both};
ghost use Rattle.cause_finder.specs.Supports.{support_by};

use cq_terms::{Hit, Ids, NoMemory};
use std::alloc::Global;
use std::cmp::Ordering;

/// A tuple with the image of a match, and the place of a member of the closure that has the match. Supports go by tuple and
/// then by image; two that differ in the member alone are the same support.
#[derive(Debug, Drop)]
pub(crate) struct Support {
    pub tuple: Ids,
    pub image: Ids,
    pub member: u32,
}

impl PartialEq for Support {
    ghost eq = { eq_of_both (on (λ s. s.tuple) (pointwise ◌==◌)) (on (λ s. s.image) (pointwise ◌==◌)) };

    ghost laws = { Prim.search (comparing, rules) };

    fn eq(&self, other: &Support) -> bool {
        self.tuple.as_slice() == other.tuple.as_slice()
            && self.image.as_slice() == other.image.as_slice()
    }
}

impl Eq for Support {
    ghost laws = { Prim.search (comparing, rules) };
}

impl PartialOrd for Support {
    ghost partial_cmp = { as_partial_cmp (then_cmp (on (λ s. s.tuple) (slice_cmp nat_cmp)) (on (λ s. s.image) (slice_cmp nat_cmp))) };

    ghost laws = { partial_order_from_own_ties (Prim.search (comparing, rules)) (Prim.search (comparing, rules)) };

    fn partial_cmp(&self, other: &Support) -> Option<Ordering> {
        Some(self.cmp(other))
    }
}

impl Ord for Support {
    ghost cmp = { then_cmp (on (λ s. s.tuple) (slice_cmp nat_cmp)) (on (λ s. s.image) (slice_cmp nat_cmp)) };

    ghost total = { Prim.search (comparing, rules) };

    ghost matches_partial_cmp = { Prim.search (comparing, rules) };

    ghost matches_eq = { Prim.search (comparing, rules) };

    fn cmp(&self, other: &Support) -> Ordering {
        self.tuple
            .as_slice()
            .cmp(other.tuple.as_slice())
            .then(self.image.as_slice().cmp(other.image.as_slice()))
    }
}

/// The support of a hit of the member.
pub(crate) fn support_of(alloc: Global, hit: &Hit, member: u32) -> Result<Support, NoMemory>
    ensures exact { IfOk result (λ s. s ≡ support_by member hit.now) }
{
    Ok(Support {
        tuple: Ids::from_slice(alloc, hit.tuple.as_slice())?,
        image: Ids::from_slice(alloc, hit.image.as_slice())?,
        member,
    })
}
