//! Every move on a query with its result.

ghost use Rattle.std.specs.Prelude.{◌≡◌, ◌+◌, ◌<◌, ◌^◌, IfOk, OnOk, length, List};
ghost use Rattle.cq_terms.specs.declared.axioms.Axiom.{Axiom};
ghost use Rattle.cq_steps.specs.declared.moves.Move.{Move};
ghost use Rattle.cq_steps.specs.Moves.{AreSuccessors, AreSuccessorsBefore, with_result};

use crate::axiom_step::apply;
use crate::moves::Move;
use crate::reduce_step::reduce;
use cq_terms::{Axiom, Cq, NoMemory};
use std::alloc::Global;

/// Appends the move where it has a result.
fn note(found: &mut Vec<(Move, Cq)>, step: Move, next: Option<Cq>) -> Result<(), NoMemory>
    ensures { OnOk result (found.new.items ≡ with_result found.old.items step next) }
{
    if let Some(query) = next {
        found.push((step, query))?;
    }
    Ok(())
}

/// Appends the axiom steps on one atom.
fn add_axiom_steps(
    alloc: Global,
    query: &Cq,
    axioms: &[Axiom],
    atom: u32,
    found: &mut Vec<(Move, Cq)>,
) -> Result<(), NoMemory>
    requires place { atom < length query.now.body }
    requires axioms_fit { length axioms.now < 2 ^ 31 }

    ensures { AreSuccessorsBefore axioms.now query.now (Move.Axiom atom 0) found.old.items
        → OnOk result (AreSuccessorsBefore axioms.now query.now (Move.Axiom (atom + 1) 0) found.new.items) }
{
    for number in 0..axioms.len() {
        let next = apply(alloc, query, atom, &axioms[number])?;
        note(
            found,
            Move::Axiom {
                atom,
                axiom: number as u32,
            },
            next,
        )?;
    }
    Ok(())
}

/// The axiom steps on all atoms.
fn axiom_steps(alloc: Global, query: &Cq, axioms: &[Axiom]) -> Result<Vec<(Move, Cq)>, NoMemory>
    requires atoms_fit { length query.now.body < 2 ^ 31 }
    requires axioms_fit { length axioms.now < 2 ^ 31 }

    ensures { IfOk result (λ found. AreSuccessorsBefore axioms.now query.now (Move.Reduce 0 0) found.items) }
{
    let mut found = Vec::new(alloc);
    let atoms = query.body().len();
    for atom in 0..atoms {
        add_axiom_steps(alloc, query, axioms, atom as u32, &mut found)?;
    }
    Ok(found)
}

/// Appends the reduce steps with one first atom.
fn add_reduce_steps(
    alloc: Global,
    query: &Cq,
    first: u32,
    found: &mut Vec<(Move, Cq)>,
) -> Result<(), NoMemory>
    requires atoms_fit { length query.now.body < 2 ^ 31 }
    requires place { first < length query.now.body }

    ensures { (axioms : List Axiom) → AreSuccessorsBefore axioms query.now (Move.Reduce first 0) found.old.items
        → OnOk result (AreSuccessorsBefore axioms query.now (Move.Reduce (first + 1) 0) found.new.items) }
{
    let atoms = query.body().len();
    for second in first as usize + 1..atoms {
        let next = reduce(alloc, query, first, second as u32)?;
        note(
            found,
            Move::Reduce {
                first,
                second: second as u32,
            },
            next,
        )?;
    }
    Ok(())
}

/// Every move on the query with its result: axiom steps by atom and then axiom, and then reduce steps by their first and
/// then their second atom. For each atom it looks once at each axiom, and takes memory only for moves that have a result.
pub fn successors(alloc: Global, query: &Cq, axioms: &[Axiom]) -> Result<Vec<(Move, Cq)>, NoMemory>
    requires atoms_fit { length query.now.body < 2 ^ 31 }
    requires axioms_fit { length axioms.now < 2 ^ 31 }

    ensures exact { IfOk result (λ found. AreSuccessors axioms.now query.now found.items) }
{
    let mut found = axiom_steps(alloc, query, axioms)?;
    let atoms = query.body().len();
    for first in 0..atoms {
        add_reduce_steps(alloc, query, first as u32, &mut found)?;
    }
    Ok(found)
}
