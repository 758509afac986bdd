//! The search for matches: atom by atom, each bound to one fact after another.

ghost use Rattle.std.specs.Prelude.{◌≡◌, ℕ, ◌<◌, ◌≤◌, ◌∷◌, [], length, OnOk};
ghost use Rattle.query_matching.specs.Extensions.{GoesOn, GoesOnBy, CanExtend, IsSameWalk, AddsOnly, HasAll};
ghost use Rattle.join_eval.specs.Rows.{AreTooMany};

use crate::JoinRefusal;
use crate::candidates::candidates;
use cq_terms::{QAtom, Term};
use fact_index::Index;
use query_matching::{Row, Walk, add_row, bind_atom};
use std::collections::BTreeSet;

/// What is asked: the head of a query in a table, and at most so many rows.
#[derive(Clone, Copy)]
pub(crate) struct Question<'a> {
    pub index: &'a Index,
    pub head: &'a [Term],
    pub limit: u64,
}

/// Where the search stands: what the atoms so far became, and the rows that were found.
#[derive(Drop)]
pub(crate) struct State {
    pub walk: Walk,
    pub found: BTreeSet<Row>,
}

/// Finds the rows of all matches of these atoms that agree with what is bound. After `TooManyHits` there are more rows than
/// the limit.
#[cycle(search)]
pub(crate) fn extend(
    question: &Question,
    rest: &[QAtom],
    state: &mut State,
) -> Result<(), JoinRefusal>
    requires can { CanExtend question.now.head.now rest.now state.old.walk }
    requires few { length state.old.found.keys ≤ question.now.limit }

    ensures only { AddsOnly (GoesOn question.now.index.now question.now.head.now rest.now state.old.walk)
        state.old.found.keys state.new.found.keys }
    ensures all { OnOk result (HasAll (GoesOn question.now.index.now question.now.head.now rest.now state.old.walk)
        state.new.found.keys) }
    ensures same { OnOk result (IsSameWalk state.old.walk state.new.walk) }
    ensures few { OnOk result (length state.new.found.keys ≤ question.now.limit) }
    ensures many { result ≡ Err JoinRefusal.TooManyHits → AreTooMany question.now.limit state.new.found.keys }
{
    let Some((atom, more)) = rest.split_first() else {
        return record(question, state);
    };
    for number in candidates(question.index, &state.walk.bindings, *atom) {
        extend_by(question, *atom, more, *number, state)?;
    }
    Ok(())
}

/// Finds those in which the atom is the fact of the number.
#[cycle(search)]
fn extend_by(
    question: &Question,
    atom: QAtom,
    more: &[QAtom],
    number: u32,
    state: &mut State,
) -> Result<(), JoinRefusal>
    requires named { number < length question.now.index.now }
    requires can { CanExtend question.now.head.now (atom ∷ more.now) state.old.walk }
    requires few { length state.old.found.keys ≤ question.now.limit }

    ensures only { AddsOnly (GoesOnBy question.now.index.now question.now.head.now atom more.now number state.old.walk)
        state.old.found.keys state.new.found.keys }
    ensures all { OnOk result (HasAll (GoesOnBy question.now.index.now question.now.head.now atom more.now number state.old.walk)
        state.new.found.keys) }
    ensures same { OnOk result (IsSameWalk state.old.walk state.new.walk) }
    ensures few { OnOk result (length state.new.found.keys ≤ question.now.limit) }
    ensures many { result ≡ Err JoinRefusal.TooManyHits → AreTooMany question.now.limit state.new.found.keys }
{
    let mark = state.walk.bindings.len();
    if !bind_atom(&mut state.walk.bindings, atom, question.index.fact(number))? {
        state.walk.bindings.truncate(mark);
        return Ok(());
    }
    state.walk.path.push(number)?;
    extend(question, more, state)?;
    state.walk.path.pop();
    state.walk.bindings.truncate(mark);
    Ok(())
}

/// Adds the row of a whole match.
fn record(question: &Question, state: &mut State) -> Result<(), JoinRefusal>
    requires can { CanExtend question.now.head.now [] state.old.walk }

    ensures only { AddsOnly (GoesOn question.now.index.now question.now.head.now [] state.old.walk)
        state.old.found.keys state.new.found.keys }
    ensures all { OnOk result (HasAll (GoesOn question.now.index.now question.now.head.now [] state.old.walk)
        state.new.found.keys) }
    ensures same { IsSameWalk state.old.walk state.new.walk }
    ensures few { OnOk result (length state.new.found.keys ≤ question.now.limit) }
    ensures many { result ≡ Err JoinRefusal.TooManyHits → AreTooMany question.now.limit state.new.found.keys }
{
    add_row(question.head, &state.walk, &mut state.found)?;
    if state.found.len() as u64 > question.limit {
        return Err(JoinRefusal::TooManyHits);
    }
    Ok(())
}
