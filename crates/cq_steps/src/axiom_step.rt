//! The axiom step on an atom of a query, and the query of a disjointness.

ghost use Rattle.std.specs.Prelude.{◌≡◌, ◌<◌, IfOk, length, slice_set, List, [], ◌∷◌};
ghost use Rattle.cq_meaning.specs.NormalForm.{normal};
ghost use Rattle.cq_terms.specs.declared.axioms.Axiom.{Axiom};
ghost use Rattle.cq_meaning.specs.Rewriting.{role_at, basic_at, IsAxiomStepAt, disjointness_query};
ghost use Rattle.cq_steps.specs.Steps.{IsResultOf, AreRoleTerms, IsAtomStep};

use crate::normal_form::normal_of;
use cq_terms::{Axiom, Basic, Cq, NoMemory, QAtom, Role, Term};
use std::alloc::Global;

/// The atom of a role from the first term to the second.
fn role_at(role: Role, from: Term, to: Term) -> QAtom
    ensures { result ≡ role_at role from to }
{
    let pred = role.pred;
    if role.inverse {
        QAtom::Link {
            pred,
            from: to,
            to: from,
        }
    } else {
        QAtom::Link { pred, from, to }
    }
}

/// The atom of a basic concept at a term.
fn basic_at(basic: Basic, at: Term) -> QAtom
    ensures { result ≡ basic_at basic at }
{
    match basic {
        Basic::Concept(pred) => QAtom::Concept { pred, at },
        Basic::Has(role) => role_at(role, at, Term::Any),
    }
}

/// The terms from and to which the atom asks for the role.
fn role_terms(role: Role, atom: &QAtom) -> Option<(Term, Term)>
    ensures { AreRoleTerms role atom.now result }
{
    match *atom {
        QAtom::Link { pred, from, to } if pred == role.pred => {
            Some(if role.inverse { (to, from) } else { (from, to) })
        }
        _ => None,
    }
}

/// The atom to which an inclusion of concepts takes this one.
fn concept_step(left: Basic, right: Basic, atom: &QAtom) -> Option<QAtom>
    ensures { IsAtomStep (Axiom.Sub left right) atom.now result }
{
    match (right, *atom) {
        (Basic::Concept(name), QAtom::Concept { pred, at }) if pred == name => {
            Some(basic_at(left, at))
        }
        (Basic::Has(role), _) => match role_terms(role, atom) {
            Some((from, Term::Any)) => Some(basic_at(left, from)),
            _ => None,
        },
        _ => None,
    }
}

/// The atom to which an inclusion of roles takes this one.
fn role_step(left: Role, right: Role, atom: &QAtom) -> Option<QAtom>
    ensures { IsAtomStep (Axiom.SubRole left right) atom.now result }
{
    match role_terms(right, atom) {
        Some((from, to)) => Some(role_at(left, from, to)),
        None => None,
    }
}

/// The atom to which the axiom takes this one.
fn atom_step(rule: &Axiom, atom: &QAtom) -> Option<QAtom>
    ensures { IsAtomStep rule.now atom.now result }
{
    match *rule {
        Axiom::Sub { left, right } => concept_step(left, right, atom),
        Axiom::SubRole { left, right } => role_step(left, right, atom),
        Axiom::Disjoint { .. } => None,
        Axiom::DisjointRole { .. } => None,
    }
}

/// The atoms with another one at a place.
fn with_atom(
    alloc: Global,
    atoms: &[QAtom],
    place: usize,
    atom: QAtom,
) -> Result<Vec<QAtom>, NoMemory>
    requires { place < length atoms.now }
    ensures { IfOk result (λ r. r.items ≡ slice_set atoms.now place atom) }
{
    let mut changed = Vec::from_slice(alloc, atoms)?;
    changed[place] = atom;
    Ok(changed)
}

/// The query that the axiom step on the atom gives, in normal form; `None` exactly where the axiom doesn't apply to that
/// atom. It takes memory only where the axiom applies.
pub fn apply(alloc: Global, query: &Cq, atom: u32, rule: &Axiom) -> Result<Option<Cq>, NoMemory>
    requires place { atom < length query.now.body }

    ensures exact { IfOk result (IsResultOf (IsAxiomStepAt rule.now query.now atom)) }
{
    let atoms = query.body();
    let place = atom as usize;
    let Some(new) = atom_step(rule, &atoms[place]) else {
        return Ok(None);
    };
    let head = Vec::from_slice(alloc, query.head())?;
    let body = with_atom(alloc, atoms, place, new)?;
    let made = normal_of(alloc, head, &body)?;
    Ok(Some(made))
}

/// The query in normal form that asks for the two atoms, without a head.
fn boolean_query(alloc: Global, left: QAtom, right: QAtom) -> Result<Cq, NoMemory>
    ensures { IfOk result (λ q. q ≡ normal (record { head = []; body = left ∷ right ∷ [] })) }
{
    let atoms = [left, right];
    normal_of(alloc, Vec::new(alloc), &atoms)
}

/// The query of a disjointness in normal form, which asks for what the axiom forbids; `None` exactly for an inclusion.
pub fn negative_query(alloc: Global, rule: &Axiom) -> Result<Option<Cq>, NoMemory>
    ensures exact { IfOk result (λ q. q ≡ disjointness_query rule.now) }
{
    let (zero, one) = (Term::Var(0), Term::Var(1));
    match *rule {
        Axiom::Disjoint { left, right } => {
            let query = boolean_query(alloc, basic_at(left, zero), basic_at(right, zero))?;
            Ok(Some(query))
        }
        Axiom::DisjointRole { left, right } => {
            let query = boolean_query(alloc, role_at(left, zero, one), role_at(right, zero, one))?;
            Ok(Some(query))
        }
        _ => Ok(None),
    }
}
