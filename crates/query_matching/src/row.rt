//! Pairs of a tuple and an image, compared as lists of numbers.

ghost use Rattle.std.specs.Prelude.{◌≡◌};
ghost use Rattle.std.proofs.Common.{rules};
ghost use Rattle.std.specs.Cmp.{partial_order_from_own_ties};
ghost use Rattle.std.specs.Cmp.Rules.{comparing};
ghost use Rattle.std.specs.Cmp.Lexicographic.{slice_cmp, pointwise};
ghost use Rattle.std.specs.Ordering.{nat_cmp, on, then_cmp, as_partial_cmp, eq_of_both};
ghost use Rattle.std.specs.Prelude.{◌==◌};

use cq_terms::Ids;
use std::cmp::Ordering;

/// A tuple with the image of a match. Rows go by tuple, and then by image.
#[derive(Debug, Drop)]
pub struct Row {
    pub tuple: Ids,
    pub image: Ids,
}

impl PartialEq for Row {
    ghost eq = { eq_of_both (on (λ r. r.tuple) (pointwise ◌==◌)) (on (λ r. r.image) (pointwise ◌==◌)) };

    ghost laws = { Prim.search (comparing, rules) };

    fn eq(&self, other: &Row) -> bool {
        self.tuple.as_slice() == other.tuple.as_slice()
            && self.image.as_slice() == other.image.as_slice()
    }
}

impl Eq for Row {
    ghost laws = { Prim.search (comparing, rules) };
}

impl PartialOrd for Row {
    ghost partial_cmp = { as_partial_cmp (then_cmp (on (λ r. r.tuple) (slice_cmp nat_cmp)) (on (λ r. r.image) (slice_cmp nat_cmp))) };

    ghost laws = { partial_order_from_own_ties (Prim.search (comparing, rules)) (Prim.search (comparing, rules)) };

    fn partial_cmp(&self, other: &Row) -> Option<Ordering> {
        Some(self.cmp(other))
    }
}

impl Ord for Row {
    ghost cmp = { then_cmp (on (λ r. r.tuple) (slice_cmp nat_cmp)) (on (λ r. r.image) (slice_cmp nat_cmp)) };

    ghost total = { Prim.search (comparing, rules) };

    ghost matches_partial_cmp = { Prim.search (comparing, rules) };

    ghost matches_eq = { Prim.search (comparing, rules) };

    fn cmp(&self, other: &Row) -> Ordering {
        self.tuple
            .as_slice()
            .cmp(other.tuple.as_slice())
            .then(self.image.as_slice().cmp(other.image.as_slice()))
    }
}
