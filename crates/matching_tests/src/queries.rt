//! Queries from their atoms.

use cq_terms::{Cq, QAtom, Term};
use std::alloc::Global;
use std::test::Fail;

/// The query of these atoms, with a variable of theirs as its head, or with none.
pub(crate) fn query(
    alloc: Global,
    head: Option<u32>,
    first: QAtom,
    more: &[QAtom],
) -> Result<Cq, Fail> {
    let mut body = Vec::new(alloc);
    body.push(first)?;
    body.extend_from_slice(more)?;
    let mut terms = Vec::new(alloc);
    if let Some(variable) = head {
        terms.push(Term::Var(variable))?;
    }
    let query = Cq::checked(terms, body).ok_or("no query")?;
    Ok(query)
}

/// The atom R(from, to), where R is role 7.
pub(crate) fn link(from: Term, to: Term) -> QAtom {
    QAtom::Link { pred: 7, from, to }
}

/// The atom A(at), where A is concept 7.
pub(crate) fn member(at: Term) -> QAtom {
    QAtom::Concept { pred: 7, at }
}
