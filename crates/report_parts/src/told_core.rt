//! A core that a line told.

ghost use Rattle.std.specs.Prelude.{◌≡◌};
ghost use Rattle.std.specs.List.{list_any, list_all};
ghost use Rattle.priority_graph.specs.Split.{has};
ghost use Rattle.report_laws.specs.Settling as settling;

use crate::lists::{ascend, has_number};
use cq_terms::Ids;
use std::marker::Model;

/// The lists of a core. They are searched by halves where they ascend, as those of each right line do.
#[derive(Drop)]
pub struct Core {
    kept: Ids,
    dropped: Ids,
    in_order: bool,
}

impl Model for Core {
    ghost use Rattle.std.specs.Prelude.{IsTrue};
    ghost use Rattle.cq_terms.specs.Lists.{IsAscending};
    ghost use Rattle.report_laws.specs.Standing.{Core};

    ghost Value = { Core };

    ghost view = { λ a. record { kept = a.kept; dropped = a.dropped } };

    ghost invariant = { λ a. IsTrue a.in_order → IsAscending a.kept × IsAscending a.dropped };
}

impl Core {
    /// The core of these lists.
    pub fn new(kept: Ids, dropped: Ids) -> Core
        ensures exact { result ≡ record { kept = kept; dropped = dropped } }
    {
        let in_order = ascend(kept.as_slice()) && ascend(dropped.as_slice());
        Core {
            kept,
            dropped,
            in_order,
        }
    }

    /// Whether the core keeps the fact.
    pub fn has_kept(&self, fact: u32) -> bool
        ensures exact { result ≡ has self.now.kept fact }
    {
        has_number(self.kept.as_slice(), self.in_order, fact)
    }

    /// Whether the core drops the fact.
    pub fn has_dropped(&self, fact: u32) -> bool
        ensures exact { result ≡ has self.now.dropped fact }
    {
        has_number(self.dropped.as_slice(), self.in_order, fact)
    }

    /// Whether the core keeps the whole cause.
    pub fn keeps(&self, cause: &[u32]) -> bool
        ensures exact { result ≡ settling.keeps self.now cause.now }
    {
        cause.iter().all(|fact| self.has_kept(*fact))
    }

    /// Whether the core drops a fact of the cause.
    pub fn drops(&self, cause: &[u32]) -> bool
        ensures exact { result ≡ settling.drops self.now cause.now }
    {
        cause.iter().any(|fact| self.has_dropped(*fact))
    }

    /// Whether the core keeps one of the causes.
    pub fn keeps_one(&self, causes: &[Ids]) -> bool
        ensures exact { result ≡ list_any (settling.keeps self.now) causes.now }
    {
        causes.iter().any(|cause| self.keeps(cause.as_slice()))
    }

    /// Whether the core drops a fact of each of the causes.
    pub fn drops_of_each(&self, causes: &[Ids]) -> bool
        ensures exact { result ≡ list_all (settling.drops self.now) causes.now }
    {
        causes.iter().all(|cause| self.drops(cause.as_slice()))
    }
}
