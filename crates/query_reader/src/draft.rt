//! A text of the grammar before its last checks.

ghost use Rattle.std.specs.Prelude.{◌≡◌, ◌<◌, ◌^◌, ◌↔◌, length, All, Any, IsTrue, IfSome, IfNone, IfOk, IfErr};
ghost use Rattle.cq_terms.specs.Query.{IsMeant, StandsIn};
ghost use Rattle.query_reader.specs.Steps.{IsAccepted, IsFirstUnmeant, IsRefused};

use crate::refusal::QueryRefusal;
use cq_terms::{Cq, QAtom, Term};

/// How many atoms a body may have.
const MOST_ATOMS: usize = 12;

/// A query by numbers, before it is checked.
#[derive(Debug, Drop)]
pub(crate) struct Draft {
    /// The variables of the head.
    pub head: Vec<Term>,
    /// The first place of the head whose variable stood earlier.
    pub repeated: Option<u32>,
    /// The atoms of the body.
    pub body: Vec<QAtom>,
}

/// The query, where its body has at most 12 atoms and its head no repeated variable and none from outside the body.
pub(crate) fn checked(draft: Draft) -> Result<Cq, QueryRefusal>
    requires some { 0 < length draft.body.items }
    requires fits { length draft.head.items < 2 ^ 32 }

    ensures exact { IfOk result
        (λ query. query ≡ record { head = draft.head.items; body = draft.body.items }) }
    ensures accepted { IfOk result (λ query. IsAccepted draft) }
    ensures refused { IfErr result (λ refusal. IsRefused draft refusal) }
{
    if draft.body.len() > MOST_ATOMS {
        return Err(QueryRefusal::TooManyAtoms);
    }
    if let Some(place) = draft.repeated {
        return Err(QueryRefusal::RepeatedHead { place });
    }
    if let Some(place) = first_unmeant(draft.head.as_slice(), draft.body.as_slice()) {
        return Err(QueryRefusal::HeadNotInBody { place });
    }
    Ok(Cq::new(draft.head, draft.body))
}

/// The first place of the head whose term has no meaning in the body.
fn first_unmeant(head: &[Term], body: &[QAtom]) -> Option<u32>
    requires fits { length head.now < 2 ^ 32 }

    ensures found { IfSome result (IsFirstUnmeant body.now head.now) }
    ensures none { IfNone result (All (IsMeant body.now) head.now) }
{
    let mut place = 0;
    let mut rest = head;
    while let Some((term, later)) = rest.split_first() {
        if !is_meant(*term, body) {
            return Some(place);
        }
        place += 1;
        rest = later;
    }
    None
}

/// Whether the term is an individual, or a variable of the body.
fn is_meant(term: Term, body: &[QAtom]) -> bool
    ensures exact { IsTrue result ↔ IsMeant body.now term }
{
    match term {
        Term::Var(number) => has_variable(body, number),
        Term::Ind(_) => true,
        Term::Any => false,
    }
}

/// Whether the variable is in the body.
fn has_variable(body: &[QAtom], number: u32) -> bool
    ensures exact { IsTrue result ↔ Any (StandsIn number) body.now }
{
    for atom in body {
        if stands_in(number, atom) {
            return true;
        }
    }
    false
}

/// Whether the variable is a term of the atom.
fn stands_in(number: u32, atom: &QAtom) -> bool
    ensures exact { IsTrue result ↔ StandsIn number atom.now }
{
    match atom {
        QAtom::Concept { at, .. } => *at == Term::Var(number),
        QAtom::Link { from, to, .. } => *from == Term::Var(number) || *to == Term::Var(number),
    }
}
