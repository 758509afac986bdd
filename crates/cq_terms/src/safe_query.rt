//! Whether a head and a body are those of a query: the body isn't empty, and each head term has a meaning.

ghost use Rattle.std.specs.Prelude.{◌≡◌, IsTrue};
ghost use Rattle.std.specs.List.{list_all, list_any};
ghost use Rattle.cq_terms.specs.Query.{IsSafe};
ghost use Rattle.cq_terms.specs.SafeQuery.{is_variable, stands_in, is_meant, is_safe};

use crate::query::{QAtom, Term};

/// Whether the two are the head and the body of a query.
pub(crate) fn is_safe(head: &[Term], body: &[QAtom]) -> bool
    ensures exact { result ≡ is_safe head.now body.now }
    ensures safe { IsTrue result → IsSafe (record { head = head.now; body = body.now }) }
{
    if body.is_empty() {
        return false;
    }
    are_meant(head, body)
}

/// Whether each term is an individual, or a variable of the body.
fn are_meant(head: &[Term], body: &[QAtom]) -> bool
    ensures exact { result ≡ list_all (is_meant body.now) head.now }
{
    head.iter().all(|term| is_meant(*term, body))
}

fn is_meant(term: Term, body: &[QAtom]) -> bool
    ensures exact { result ≡ is_meant body.now term }
{
    match term {
        Term::Var(number) => has_variable(body, number),
        Term::Ind(_) => true,
        Term::Any => false,
    }
}

fn has_variable(body: &[QAtom], number: u32) -> bool
    ensures exact { result ≡ list_any (stands_in number) body.now }
{
    body.iter().any(|atom| stands_in(number, atom))
}

fn stands_in(number: u32, atom: &QAtom) -> bool
    ensures exact { result ≡ stands_in number atom.now }
{
    match *atom {
        QAtom::Concept { at, .. } => is_variable(number, at),
        QAtom::Link { from, to, .. } => is_variable(number, from) || is_variable(number, to),
    }
}

fn is_variable(number: u32, term: Term) -> bool
    ensures exact { result ≡ is_variable number term }
{
    match term {
        Term::Var(other) => other == number,
        Term::Ind(_) | Term::Any => false,
    }
}
