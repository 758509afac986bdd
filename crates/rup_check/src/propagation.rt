//! Unit propagation, by the marked literals in the order of marking: for each the clauses that have its opposite.

ghost use Rattle.std.specs.Prelude.{◌≡◌, ◌↔◌, ◌⊎◌, ◌≤◌, ◌++◌, IsTrue, OnOk, Contains, [], ℕ, List, length};
ghost use Rattle.std.specs.Bool.{OnTrue, OnFalse};
ghost use Rattle.clause_meaning.specs.Literals.{AreBelow};
ghost use Rattle.clause_meaning.specs.Refutation.{Reaches, Refutes};
ghost use Rattle.clause_meaning.specs.Resting.{AreFree, Rests, Says};
ghost use Rattle.rup_check.specs.Slots.{IsAt, HeldIn};
ghost use Rattle.rup_check.specs.Marks.{IsMarked, AreConsistent};
ghost use Rattle.rup_check.specs.Steps.{FindsBelow, GrowsBy, RestAmong, RestOrListed, RestOrListedFrom};

use crate::clauses::Clauses;
use crate::hints::{Hint, hint_for, shows_rest};
use crate::marks::{Marks, mark_all};
use crate::numbers::Numbers;
use clause_meaning::{Finding, FreeLiterals, opposite};
use cq_terms::NoMemory;

/// Looks for a literal that isn't false, and for another.
fn free_literals(marks: &Marks, clause: &[u32]) -> FreeLiterals
    requires in_range { AreBelow marks.now.variables clause.now }

    ensures { AreFree (IsMarked marks.now.literals) clause.now result }
{
    let mut free = None;
    for literal in clause {
        if !marks.has(opposite(*literal)) {
            match free {
                None => free = Some(*literal),
                Some(other) => {
                    if other != *literal {
                        return FreeLiterals::Several;
                    }
                }
            }
        }
    }
    match free {
        Some(literal) => FreeLiterals::One(literal),
        None => FreeLiterals::Nothing,
    }
}

/// Looks at one clause under the marks.
fn look_at(marks: &Marks, clause: &[u32]) -> Finding
    requires in_range { AreBelow marks.now.variables clause.now }
    requires consistent { AreConsistent marks.now.literals }

    ensures says { Says (IsMarked marks.now.literals) clause.now result }
    ensures in_range { FindsBelow marks.now.variables result }
{
    match free_literals(marks, clause) {
        FreeLiterals::Nothing => Finding::IsFalse,
        FreeLiterals::One(literal) => {
            if marks.has(literal) {
                Finding::Rests
            } else {
                Finding::Forces(literal)
            }
        }
        FreeLiterals::Several => Finding::Rests,
    }
}

/// Looks at one clause under the marks, at the places of its hint first, and renews the hint.
fn look_by_hint(marks: &Marks, clause: &[u32], hints: &mut [Hint], number: usize) -> Finding
    requires in_range { AreBelow marks.now.variables clause.now }
    requires consistent { AreConsistent marks.now.literals }

    ensures says { Says (IsMarked marks.now.literals) clause.now result }
    ensures in_range { FindsBelow marks.now.variables result }
{
    if number >= hints.len() {
        return look_at(marks, clause);
    }
    if shows_rest(marks, clause, hints[number]) {
        return Finding::Rests;
    }
    hints[number] = hint_for(marks, clause);
    look_at(marks, clause)
}

/// Looks at the live clauses of the numbers, each once, and marks what they force; `true` where one is false.
fn look_over(clauses: &Clauses, numbers: &[usize], hints: &mut [Hint], marks: &mut Marks) -> bool
    requires same_variables { marks.old.variables ≡ clauses.now.variables }
    requires consistent { AreConsistent marks.old.literals }

    ensures same_variables { marks.new.variables ≡ marks.old.variables }
    ensures grows { GrowsBy clauses.now.slots marks.old.literals marks.new.literals }
    ensures clashes { OnTrue result (Refutes (HeldIn clauses.now.slots) (IsMarked marks.old.literals)) }
    ensures rest { OnFalse result (RestAmong clauses.now.slots numbers.now marks.old.literals marks.new.literals) }
{
    for number in numbers {
        if let Some(clause) = clauses.get(*number) {
            match look_by_hint(marks, clause, hints, *number) {
                Finding::IsFalse => return true,
                Finding::Forces(literal) => marks.mark(literal),
                Finding::Rests => {}
            }
        }
    }
    false
}

/// Whether propagation from the marked literals ends in a clash. It looks at the clauses of the numbers, and then, for each literal
/// that was marked after so many, at those that have its opposite.
pub fn clashes(
    clauses: &Clauses,
    numbers: &[usize],
    hints: &mut [Hint],
    marks: &mut Marks,
    from: usize,
) -> bool
    requires same_variables { marks.old.variables ≡ clauses.now.variables }
    requires consistent { AreConsistent marks.old.literals }
    requires within { from ≤ length marks.old.literals }
    requires listed { RestOrListedFrom from clauses.now.slots numbers.now marks.old.literals }

    ensures same_variables { marks.new.variables ≡ marks.old.variables }
    ensures grows { GrowsBy clauses.now.slots marks.old.literals marks.new.literals }
    ensures exact { IsTrue result ↔ Refutes (HeldIn clauses.now.slots) (IsMarked marks.old.literals) }
{
    if look_over(clauses, numbers, hints, marks) {
        return true;
    }
    let mut done = from;
    while done < marks.len() {
        let literal = marks.literal(done);
        if look_over(clauses, clauses.with(opposite(literal)), hints, marks) {
            return true;
        }
        done += 1;
    }
    false
}

/// Whether propagation from the literals ends in a clash, where those that are marked are reached from none and the clauses of
/// other numbers rest under them. It marks literals after these.
pub fn refutes(
    clauses: &Clauses,
    numbers: &[usize],
    hints: &mut [Hint],
    marks: &mut Marks,
    assume: &[u32],
) -> bool
    requires same_variables { marks.old.variables ≡ clauses.now.variables }
    requires reached { (l : ℕ) → IsMarked marks.old.literals l → Reaches (HeldIn clauses.now.slots) (Contains []) l }
    requires consistent { AreConsistent marks.old.literals }
    requires listed { RestOrListed clauses.now.slots numbers.now marks.old.literals }
    requires assumed { AreBelow clauses.now.variables assume.now }

    ensures same_variables { marks.new.variables ≡ marks.old.variables }
    ensures more { (later : List ℕ) × (marks.new.literals ≡ marks.old.literals ++ later) }
    ensures exact { IsTrue result ↔ Refutes (HeldIn clauses.now.slots) (Contains assume.now) }
{
    let from = marks.len();
    if mark_all(marks, assume) {
        clashes(clauses, numbers, hints, marks, from)
    } else {
        true
    }
}

/// Whether a look finds that the clause rests under the marks.
fn rests(marks: &Marks, clause: &[u32]) -> bool
    requires in_range { AreBelow marks.now.variables clause.now }
    requires consistent { AreConsistent marks.now.literals }

    ensures { OnTrue result (Rests (IsMarked marks.now.literals) clause.now) }
{
    match look_at(marks, clause) {
        Finding::Rests => true,
        _ => false,
    }
}

/// Lists the number of a clause, unless the clause rests under the marks.
pub fn list_unless_rests(
    marks: &Marks,
    clause: &[u32],
    late: &mut Numbers,
    number: usize,
) -> Result<(), NoMemory>
    requires in_range { AreBelow marks.now.variables clause.now }
    requires consistent { AreConsistent marks.now.literals }

    ensures kept { (n : ℕ) → Contains late.old n → Contains late.new n }
    ensures listed { OnOk result (Contains late.new number ⊎ Rests (IsMarked marks.now.literals) clause.now) }
{
    if rests(marks, clause) {
        Ok(())
    } else {
        late.push(number)
    }
}

/// The same for the live clause of the number, where there is one.
fn list_live(
    clauses: &Clauses,
    marks: &Marks,
    late: &mut Numbers,
    number: usize,
) -> Result<(), NoMemory>
    requires same_variables { marks.now.variables ≡ clauses.now.variables }
    requires consistent { AreConsistent marks.now.literals }

    ensures kept { (n : ℕ) → Contains late.old n → Contains late.new n }
    ensures listed { OnOk result ((c : List ℕ) → IsAt clauses.now.slots number c
        → Contains late.new number ⊎ Rests (IsMarked marks.now.literals) c) }
{
    match clauses.get(number) {
        Some(clause) => list_unless_rests(marks, clause, late, number),
        None => Ok(()),
    }
}

/// Lists the numbers of the live clauses that don't rest under the marks.
pub fn list_late(clauses: &Clauses, marks: &Marks, late: &mut Numbers) -> Result<(), NoMemory>
    requires same_variables { marks.now.variables ≡ clauses.now.variables }
    requires consistent { AreConsistent marks.now.literals }

    ensures listed { OnOk result (RestOrListed clauses.now.slots late.new marks.now.literals) }
{
    for number in 0..clauses.len() {
        list_live(clauses, marks, late, number)?;
    }
    Ok(())
}
