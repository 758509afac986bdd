//! Queries from their two lists.

use cq_terms::{Cq, NoMemory, QAtom, Term};
use std::alloc::Global;
use std::process::Abort;

/// The query of the two lists, which have to be those of one.
pub(crate) fn query(
    rt: &impl Abort,
    alloc: Global,
    head: &[Term],
    body: &[QAtom],
) -> Result<Cq, NoMemory> {
    let head = Vec::from_slice(alloc, head)?;
    let body = Vec::from_slice(alloc, body)?;
    let Some(query) = Cq::checked(head, body) else {
        panic!(rt; "no query");
    };
    Ok(query)
}
