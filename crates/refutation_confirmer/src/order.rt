//! Which kind of line may come next, in a report on one query.

ghost use Rattle.std.specs.Prelude.{◌≡◌, ◌↔◌, ◌<◌, ◌≤◌, ◌⊎◌, ℕ, IsSome, IsTrue};
ghost use Rattle.cq_meaning.specs.Rewriting.{disjointness_query};
ghost use Rattle.report_rules.specs.Inputs.{OneQuery};
ghost use Rattle.report_rules.specs.Order.{MayCome, MayHaveBlock, IsBetweenAnswers, AreBlocksOver, IsLastBlock, IsNextBlock, IsNegativeAt, next_axiom};

use cq_terms::Axiom;
use report_rules::Place;
use report_text::{Line, Origin};

/// Whether the kind of line may come at the place.
pub fn may_come(axioms: &[Axiom], place: Place, line: &Line) -> bool
    ensures exact { IsTrue result ↔ MayCome OneQuery axioms.now place line.now }
{
    match line {
        Line::Head { .. } => place == Place::AtStart,
        Line::Cq { origin, .. } => may_have_block(axioms, place, *origin),
        Line::Conflict { .. } => are_blocks_over(axioms, place),
        Line::Ask { .. } => may_ask(axioms, place),
        Line::Forget { .. } | Line::End { .. } => is_between_answers(axioms, place),
        Line::Try { .. } | Line::Answer { .. } => place == Place::InAnswer,
        Line::Learn { .. } | Line::Core { .. } => place == Place::InTry,
        Line::Done { .. } => is_in_try(place),
    }
}

/// Whether the place is in a try.
fn is_in_try(place: Place) -> bool
    ensures exact { IsTrue result ↔ ((place ≡ Place.InTry) ⊎ (place ≡ Place.AfterCore)) }
{
    place == Place::InTry || place == Place::AfterCore
}

/// Whether a candidate may be asked.
fn may_ask(axioms: &[Axiom], place: Place) -> bool
    ensures exact { IsTrue result ↔ ((place ≡ Place.AfterForget) ⊎ IsBetweenAnswers OneQuery axioms.now place) }
{
    place == Place::AfterForget || is_between_answers(axioms, place)
}

/// Whether an answer may begin, or the end come.
fn is_between_answers(axioms: &[Axiom], place: Place) -> bool
    ensures exact { IsTrue result ↔ IsBetweenAnswers OneQuery axioms.now place }
{
    match place {
        Place::AfterAnswer => true,
        _ => are_blocks_over(axioms, place),
    }
}

/// Whether the blocks of the disjointnesses are over, and the conflicts have their place.
fn are_blocks_over(axioms: &[Axiom], place: Place) -> bool
    ensures exact { IsTrue result ↔ AreBlocksOver OneQuery axioms.now place }
{
    match place {
        Place::InBlock(origin) => is_last_block(axioms, origin),
        Place::InConflicts => true,
        _ => false,
    }
}

/// Whether a line of the block may come.
fn may_have_block(axioms: &[Axiom], place: Place, origin: Origin) -> bool
    ensures exact { IsTrue result ↔ MayHaveBlock OneQuery axioms.now place origin }
{
    match place {
        Place::AfterHead => origin == Origin::Query,
        Place::InBlock(earlier) => is_open_or_next(axioms, earlier, origin),
        _ => false,
    }
}

/// Whether the block is the open one, or the next behind it.
fn is_open_or_next(axioms: &[Axiom], earlier: Origin, origin: Origin) -> bool
    ensures exact { IsTrue result ↔ ((origin ≡ earlier) ⊎ IsNextBlock axioms.now earlier origin) }
{
    origin == earlier || is_next_block(axioms, earlier, origin)
}

/// Whether the second block is the next behind the first.
fn is_next_block(axioms: &[Axiom], earlier: Origin, origin: Origin) -> bool
    ensures exact { IsTrue result ↔ IsNextBlock axioms.now earlier origin }
{
    let Origin::Negative(axiom) = origin else {
        return false;
    };
    let from = least_next(earlier);
    let to = axiom as usize;
    if to < from {
        return false;
    }
    if !is_negative_at(axioms, to) {
        return false;
    }
    has_no_negative(axioms, from, to)
}

/// Whether no further disjointness has a block behind this one.
fn is_last_block(axioms: &[Axiom], origin: Origin) -> bool
    ensures exact { IsTrue result ↔ IsLastBlock axioms.now origin }
{
    has_no_negative(axioms, least_next(origin), axioms.len())
}

/// The least number that the axiom of the next block can have.
fn least_next(origin: Origin) -> usize
    ensures exact { result ≡ next_axiom origin }
{
    match origin {
        Origin::Query => 0,
        Origin::Negative(axiom) => axiom as usize + 1,
    }
}

/// Whether no axiom from the one number on and before the other is a disjointness.
fn has_no_negative(axioms: &[Axiom], from: usize, to: usize) -> bool
    ensures exact { IsTrue result ↔ ((i : ℕ) → from ≤ i → i < to → ¬ IsNegativeAt axioms.now i) }
{
    for place in from..to {
        if is_negative_at(axioms, place) {
            return false;
        }
    }
    true
}

/// Whether the axiom of the number is a disjointness.
fn is_negative_at(axioms: &[Axiom], place: usize) -> bool
    ensures exact { IsTrue result ↔ IsNegativeAt axioms.now place }
{
    if place >= axioms.len() {
        return false;
    }
    is_negative(axioms[place])
}

/// Whether the axiom is a disjointness.
fn is_negative(rule: Axiom) -> bool
    ensures exact { IsTrue result ↔ IsSome (disjointness_query rule) }
{
    matches!(rule, Axiom::Disjoint { .. } | Axiom::DisjointRole { .. })
}
