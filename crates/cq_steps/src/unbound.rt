//! Variables that join nothing: not in the head, and once in the body.

ghost use Rattle.std.specs.Prelude.{◌≡◌, ℕ, ◌≤◌, ◌==◌};
ghost use Rattle.cq_meaning.specs.NormalForm.{times_in_term, times_in_atom, times_in_head, times_in_body, is_unbound, unbound_to_any, map_atom};

use cq_terms::{QAtom, Term};

/// How often the variable stands in the term.
fn times_in_term(variable: u32, term: &Term) -> u8
    ensures exact { result ≡ times_in_term variable term.now }
    ensures once { result ≤ 1 }
{
    match *term {
        Term::Var(other) if other == variable => 1,
        _ => 0,
    }
}

/// How often the variable stands in the atom.
fn times_in_atom(variable: u32, atom: &QAtom) -> u8
    ensures { result ≡ times_in_atom variable atom.now }
{
    match atom {
        QAtom::Concept { at, .. } => times_in_term(variable, at),
        QAtom::Link { from, to, .. } => times_in_term(variable, from) + times_in_term(variable, to),
    }
}

/// Whether the variable stands nowhere in the head.
fn is_not_in_head(variable: u32, head: &[Term]) -> bool
    ensures { result ≡ (times_in_head variable head.now == 0) }
{
    for term in head {
        if times_in_term(variable, term) != 0 {
            return false;
        }
    }
    true
}

/// Whether the variable stands once in the body.
fn stands_once(variable: u32, body: &[QAtom]) -> bool
    ensures { result ≡ (times_in_body variable body.now == 1) }
{
    let mut seen = false;
    for atom in body {
        let times = times_in_atom(variable, atom);
        if times > 1 || (seen && times == 1) {
            return false;
        }
        seen = seen || times == 1;
    }
    seen
}

/// The term with `_` in the place of an unbound variable of the query.
fn term_without_unbound(head: &[Term], body: &[QAtom], term: &Term) -> Term
    ensures { result ≡ unbound_to_any (record { head = head.now; body = body.now }) term.now }
{
    match *term {
        Term::Var(variable) if is_not_in_head(variable, head) && stands_once(variable, body) => {
            Term::Any
        }
        other => other,
    }
}

/// The atom with `_` in the place of each unbound variable of the query.
pub fn atom_without_unbound(head: &[Term], body: &[QAtom], atom: &QAtom) -> QAtom
    ensures { result ≡ map_atom (unbound_to_any (record { head = head.now; body = body.now })) atom.now }
{
    match atom {
        QAtom::Concept { pred, at } => QAtom::Concept {
            pred: *pred,
            at: term_without_unbound(head, body, at),
        },
        QAtom::Link { pred, from, to } => QAtom::Link {
            pred: *pred,
            from: term_without_unbound(head, body, from),
            to: term_without_unbound(head, body, to),
        },
    }
}
