//! A look at one clause under an assignment.

ghost use Rattle.clause_meaning.specs.Literals.{AreBelow};
ghost use Rattle.clause_meaning.specs.Literals.{variable_of};
ghost use Rattle.std.specs.Prelude.{◌<◌, ◌↔◌, IsTrue};
ghost use Rattle.clause_meaning.specs.Resting.{AreFree, Says};
ghost use Rattle.cdcl_trail.specs.Assigned.{IsTrueOn};

use crate::assignment::Assignment;
use clause_meaning::{Finding, FreeLiterals, opposite, variable_of};

/// Whether the literal is true.
pub fn is_true(assigned: &Assignment, literal: u32) -> bool
    requires { variable_of literal < assigned.now.variables }
    ensures { IsTrue result ↔ IsTrueOn assigned.now.entries literal }
{
    match assigned.entry(variable_of(literal)) {
        Some(entry) => entry.literal == literal,
        None => false,
    }
}

/// Looks for a literal that isn't false, and for another.
fn free_literals(assigned: &Assignment, clause: &[u32]) -> FreeLiterals
    requires { AreBelow assigned.now.variables clause.now }
    ensures { AreFree (IsTrueOn assigned.now.entries) clause.now result }
{
    let mut free = None;
    for literal in clause {
        if !is_true(assigned, opposite(*literal)) {
            match free {
                None => free = Some(*literal),
                Some(other) => {
                    if other != *literal {
                        return FreeLiterals::Several;
                    }
                }
            }
        }
    }
    match free {
        Some(literal) => FreeLiterals::One(literal),
        None => FreeLiterals::Nothing,
    }
}

/// Whether the clause is false, or forces a literal that isn't true yet.
pub fn look_at(assigned: &Assignment, clause: &[u32]) -> Finding
    requires { AreBelow assigned.now.variables clause.now }
    ensures { Says (IsTrueOn assigned.now.entries) clause.now result }
{
    match free_literals(assigned, clause) {
        FreeLiterals::Nothing => Finding::IsFalse,
        FreeLiterals::One(literal) => {
            if is_true(assigned, literal) {
                Finding::Rests
            } else {
                Finding::Forces(literal)
            }
        }
        FreeLiterals::Several => Finding::Rests,
    }
}
