//! The search for all matches of a query: atom by atom, each becomes one fact of the table after another.

ghost use Rattle.std.specs.Prelude.{◌≡◌, ℕ, ◌<◌, ◌∷◌, [], length, OnOk};
ghost use Rattle.query_matching.specs.Extensions.{GoesOn, GoesOnBy, CanExtend, IsSameWalk, AddsOnly, HasAll};

use crate::candidates::candidates;
use crate::facts::PlainFacts;
use cq_terms::{NoMemory, QAtom, Term};
use query_matching::{Row, Walk, add_row, bind_atom};
use std::collections::BTreeSet;

/// The table, and the head whose tuples are asked for.
#[derive(Clone, Copy)]
pub(crate) struct Question<'a> {
    pub facts: &'a PlainFacts,
    pub head: &'a [Term],
}

/// Where the search stands: what the atoms so far became, and the rows that were found.
#[derive(Drop)]
pub(crate) struct State {
    pub walk: Walk,
    pub found: BTreeSet<Row>,
}

/// Finds the rows of all matches in which the atoms that are left go on from what is bound.
#[cycle(search)]
pub(crate) fn extend(question: &Question, rest: &[QAtom], state: &mut State) -> Result<(), NoMemory>
    requires can { CanExtend question.now.head.now rest.now state.old.walk }

    ensures only { OnOk result (AddsOnly (GoesOn question.now.facts.now question.now.head.now rest.now state.old.walk)
        state.old.found.keys state.new.found.keys) }
    ensures all { OnOk result (HasAll (GoesOn question.now.facts.now question.now.head.now rest.now state.old.walk)
        state.new.found.keys) }
    ensures same { OnOk result (IsSameWalk state.old.walk state.new.walk) }
{
    let Some((atom, more)) = rest.split_first() else {
        return record(question, state);
    };
    for fact in candidates(question.facts, &state.walk.bindings, *atom) {
        extend_by(question, *atom, more, fact.number, state)?;
    }
    Ok(())
}

/// Finds those in which the atom becomes the fact of the number.
#[cycle(search)]
fn extend_by(
    question: &Question,
    atom: QAtom,
    more: &[QAtom],
    number: u32,
    state: &mut State,
) -> Result<(), NoMemory>
    requires named { number < length question.now.facts.now }
    requires can { CanExtend question.now.head.now (atom ∷ more.now) state.old.walk }

    ensures only { OnOk result (AddsOnly (GoesOnBy question.now.facts.now question.now.head.now atom more.now number state.old.walk)
        state.old.found.keys state.new.found.keys) }
    ensures all { OnOk result (HasAll (GoesOnBy question.now.facts.now question.now.head.now atom more.now number state.old.walk)
        state.new.found.keys) }
    ensures same { OnOk result (IsSameWalk state.old.walk state.new.walk) }
{
    let mark = state.walk.bindings.len();
    if !bind_atom(&mut state.walk.bindings, atom, question.facts.fact(number))? {
        state.walk.bindings.truncate(mark);
        return Ok(());
    }
    state.walk.path.push(number)?;
    extend(question, more, state)?;
    state.walk.path.pop();
    state.walk.bindings.truncate(mark);
    Ok(())
}

/// Adds the row of a whole match.
fn record(question: &Question, state: &mut State) -> Result<(), NoMemory>
    requires can { CanExtend question.now.head.now [] state.old.walk }

    ensures only { OnOk result (AddsOnly (GoesOn question.now.facts.now question.now.head.now [] state.old.walk)
        state.old.found.keys state.new.found.keys) }
    ensures all { OnOk result (HasAll (GoesOn question.now.facts.now question.now.head.now [] state.old.walk)
        state.new.found.keys) }
    ensures same { OnOk result (IsSameWalk state.old.walk state.new.walk) }
{
    add_row(question.head, &state.walk, &mut state.found)
}
