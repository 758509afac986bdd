//! The reduce step, which makes two atoms of a query one.

ghost use Rattle.std.specs.Prelude.{◌≡◌, ◌<◌, IfOk, length, map, slice_set};
ghost use Rattle.cq_meaning.specs.NormalForm.{map_atom, without};
ghost use Rattle.cq_meaning.specs.Rewriting.{IsReduceStepAt};
ghost use Rattle.cq_steps.specs.Steps.{IsResultOf};
ghost use Rattle.cq_steps.specs.Unifying.{term_under};

use crate::normal_form::normal_of;
use crate::unify::{Unified, unify};
use cq_terms::{Cq, NoMemory, QAtom, Term};
use std::alloc::Global;

/// What the unification makes of each term.
fn terms_under(alloc: Global, unified: &Unified, terms: &[Term]) -> Result<Vec<Term>, NoMemory>
    ensures { IfOk result (λ r. r.items ≡ map (term_under unified.now) terms.now) }
{
    let mut under = Vec::with_capacity(alloc, terms.len())?;
    for term in terms {
        under.push(unified.term(*term))?;
    }
    Ok(under)
}

/// What the unification makes of each atom.
fn atoms_under(alloc: Global, unified: &Unified, atoms: &[QAtom]) -> Result<Vec<QAtom>, NoMemory>
    ensures { IfOk result (λ r. r.items ≡ map (map_atom (term_under unified.now)) atoms.now) }
{
    let mut under = Vec::with_capacity(alloc, atoms.len())?;
    for atom in atoms {
        under.push(unified.atom(atom))?;
    }
    Ok(under)
}

/// The atoms without the one at place `drop`, and with another one at place `keep`.
fn with_one_for_two(mut atoms: Vec<QAtom>, keep: usize, drop: usize, atom: QAtom) -> Vec<QAtom>
    requires order { keep < drop }
    requires place { drop < length atoms.items }
    ensures { result.items ≡ slice_set (without atoms.items drop) keep atom }
{
    let _ = atoms.remove(drop);
    atoms[keep] = atom;
    atoms
}

/// The query that the reduce step on two atoms gives, in normal form; `None` exactly where the atoms have no unifier. It
/// takes memory only where they have one.
pub fn reduce(alloc: Global, query: &Cq, first: u32, second: u32) -> Result<Option<Cq>, NoMemory>
    requires order { first < second }
    requires place { second < length query.now.body }

    ensures exact { IfOk result (IsResultOf (IsReduceStepAt query.now first second)) }
{
    let atoms = query.body();
    let (keep, drop) = (first as usize, second as usize);
    let Some(unified) = unify(&atoms[keep], &atoms[drop]) else {
        return Ok(None);
    };
    let head = terms_under(alloc, &unified, query.head())?;
    let under = atoms_under(alloc, &unified, atoms)?;
    let body = with_one_for_two(under, keep, drop, unified.atom);
    let made = normal_of(alloc, head, &body)?;
    Ok(Some(made))
}
