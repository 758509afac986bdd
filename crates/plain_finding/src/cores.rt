//! Whether facts are a core, over conflicts and a priority.

ghost use Rattle.std.specs.Prelude.{◌≡◌, ◌↔◌, ◌<◌, ◌⊎◌, ℕ, All, Contains, IsTrue};
ghost use Rattle.cq_terms.specs.Lists.{IsAscending};
ghost use Rattle.priority_graph.specs.Cores.{IsBlocked, IsCore};
ghost use Rattle.priority_graph.specs.Priority.{IsOver};
ghost use Rattle.plain_finding.specs.CoreParts.{DropsRivals, IsApart};

use cq_terms::{Conflicts, has_sorted};
use priority_graph::Better;
use report_parts::{are_below, ascend};

/// Whether the numbers ascend and are below the bound.
pub fn are_facts(numbers: &[u32], bound: u32) -> bool
    ensures exact { IsTrue result ↔ (IsAscending numbers.now × All (λ i. i < bound) numbers.now) }
{
    ascend(numbers) && are_below(numbers, bound)
}

/// Whether the ascending list has none of the numbers.
fn has_none(list: &[u32], numbers: &[u32]) -> bool
    requires ascending { IsAscending list.now }

    ensures exact { IsTrue result ↔ All (λ i. ¬ Contains list.now i) numbers.now }
{
    for number in numbers {
        if has_sorted(list, *number) {
            return false;
        }
    }
    true
}

/// Whether the ascending list has one of the numbers.
fn has_one(list: &[u32], numbers: &[u32]) -> bool
    requires ascending { IsAscending list.now }

    ensures exact { IsTrue result ↔ ((i : ℕ) × Contains numbers.now i × Contains list.now i) }
{
    for number in numbers {
        if has_sorted(list, *number) {
            return true;
        }
    }
    false
}

/// Whether the ascending list has all of the numbers.
fn has_all(list: &[u32], numbers: &[u32]) -> bool
    requires ascending { IsAscending list.now }

    ensures exact { IsTrue result ↔ All (Contains list.now) numbers.now }
{
    for number in numbers {
        if !has_sorted(list, *number) {
            return false;
        }
    }
    true
}

/// Whether the fact isn't self-inconsistent and conflicts with no kept one.
fn is_apart(conflicts: &Conflicts, kept: &[u32], fact: u32) -> bool
    requires ascending { IsAscending kept.now }
    requires known { fact < conflicts.now.facts }

    ensures exact { IsTrue result ↔ IsApart conflicts.now.clashes kept.now fact }
{
    !conflicts.is_own(fact) && has_none(kept, conflicts.of(fact))
}

/// Whether the facts are free of conflicts: none is self-inconsistent, and no two conflict.
pub fn are_free(conflicts: &Conflicts, kept: &[u32]) -> bool
    requires ascending { IsAscending kept.now }
    requires known { All (λ i. i < conflicts.now.facts) kept.now }

    ensures exact { IsTrue result ↔ All (IsApart conflicts.now.clashes kept.now) kept.now }
{
    for fact in kept {
        if !is_apart(conflicts, kept, *fact) {
            return false;
        }
    }
    true
}

/// Whether all that conflicts with a kept fact is dropped.
fn drop_rivals(conflicts: &Conflicts, kept: &[u32], dropped: &[u32]) -> bool
    requires ascending { IsAscending dropped.now }
    requires known { All (λ i. i < conflicts.now.facts) kept.now }

    ensures exact { IsTrue result ↔ All (DropsRivals conflicts.now.clashes dropped.now) kept.now }
{
    for fact in kept {
        if !has_all(dropped, conflicts.of(*fact)) {
            return false;
        }
    }
    true
}

/// Whether the fact is self-inconsistent or blocked by a kept one.
fn may_drop(conflicts: &Conflicts, better: &Better, kept: &[u32], fact: u32) -> bool
    requires over { IsOver better.now conflicts.now }
    requires ascending { IsAscending kept.now }
    requires known { fact < conflicts.now.facts }

    ensures exact { IsTrue result ↔ (Contains better.now.own fact ⊎ IsBlocked better.now (Contains kept.now) fact) }
{
    conflicts.is_own(fact) || has_one(kept, better.blockers(fact))
}

/// Whether each of the facts is self-inconsistent or blocked by a kept one.
fn may_drop_all(conflicts: &Conflicts, better: &Better, kept: &[u32], dropped: &[u32]) -> bool
    requires over { IsOver better.now conflicts.now }
    requires ascending { IsAscending kept.now }
    requires known { All (λ j. j < conflicts.now.facts) dropped.now }

    ensures exact { IsTrue result
        ↔ All (λ j. Contains better.now.own j ⊎ IsBlocked better.now (Contains kept.now) j) dropped.now }
{
    for fact in dropped {
        if !may_drop(conflicts, better, kept, *fact) {
            return false;
        }
    }
    true
}

/// Whether the facts, kept and dropped, are a core. The cost grows with the conflicts of these facts alone.
pub fn is_core(conflicts: &Conflicts, better: &Better, kept: &[u32], dropped: &[u32]) -> bool
    requires over { IsOver better.now conflicts.now }
    requires kept { IsAscending kept.now }
    requires dropped { IsAscending dropped.now }
    requires known { All (λ i. i < conflicts.now.facts) kept.now }
    requires known_dropped { All (λ j. j < conflicts.now.facts) dropped.now }

    ensures exact { IsTrue result ↔ IsCore better.now (Contains kept.now) (Contains dropped.now) }
{
    if !are_free(conflicts, kept) {
        return false;
    }
    drop_rivals(conflicts, kept, dropped) && may_drop_all(conflicts, better, kept, dropped)
}
