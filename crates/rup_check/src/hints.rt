//! For each clause two places, at which a look finds at once that the clause still rests.

ghost use Rattle.std.specs.Prelude.{◌≡◌};
ghost use Rattle.std.specs.Bool.{OnTrue};
ghost use Rattle.clause_meaning.specs.Literals.{AreBelow};
ghost use Rattle.clause_meaning.specs.Resting.{Rests};
ghost use Rattle.rup_check.specs.Marks.{IsMarked, AreConsistent};

use crate::marks::Marks;
use cq_terms::NoMemory;

/// Two places in a clause. They may be any: what they show is looked at each time.
#[derive(Clone, Copy)]
pub struct Hint {
    first: usize,
    second: usize,
}

/// Makes a hint for the clause of a number, where the numbers below have one.
pub fn make_room(hints: &mut Vec<Hint>, number: usize) -> Result<(), NoMemory> {
    if hints.len() <= number {
        hints.push(Hint {
            first: 0,
            second: 1,
        })?;
    }
    Ok(())
}

/// Whether the literals at the places show that the clause rests: one is true, or they differ and neither is false.
pub fn shows_rest(marks: &Marks, clause: &[u32], hint: Hint) -> bool
    requires in_range { AreBelow marks.now.variables clause.now }
    requires consistent { AreConsistent marks.now.literals }

    ensures { OnTrue result (Rests (IsMarked marks.now.literals) clause.now) }
{
    if hint.first >= clause.len() {
        return false;
    }
    if hint.second >= clause.len() {
        return false;
    }
    let first = clause[hint.first];
    let second = clause[hint.second];
    if marks.has(first) {
        return true;
    }
    if marks.has(second) {
        return true;
    }
    if first == second {
        return false;
    }
    if marks.has_opposite(first) {
        return false;
    }
    if marks.has_opposite(second) {
        return false;
    }
    true
}

/// The places of the first literal that is true, or of the first two different ones that aren't false.
pub fn hint_for(marks: &Marks, clause: &[u32]) -> Hint
    requires in_range { AreBelow marks.now.variables clause.now }
{
    let mut place = 0;
    let mut free = None;
    for i in 0..clause.len() {
        let literal = clause[i];
        if marks.has(literal) {
            return Hint {
                first: i,
                second: i,
            };
        }
        if !marks.has_opposite(literal) {
            match free {
                None => {
                    place = i;
                    free = Some(literal);
                }
                Some(other) => {
                    if other != literal {
                        return Hint {
                            first: place,
                            second: i,
                        };
                    }
                }
            }
        }
    }
    Hint {
        first: place,
        second: place,
    }
}
