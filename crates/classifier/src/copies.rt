//! A copy of a query, for the lines of a report.

ghost use Rattle.std.specs.Prelude.{◌≡◌, ◌<◌, ◌^◌, All, IfOk};

use cq_terms::{Cq, NoMemory};
use std::alloc::Global;

/// A copy of the query.
pub(crate) fn copied_query(alloc: Global, query: &Cq) -> Result<Cq, NoMemory>
    ensures { IfOk result (λ copy. copy ≡ query.now) }
{
    let head = Vec::from_slice(alloc, query.head())?;
    let body = Vec::from_slice(alloc, query.body())?;
    Ok(Cq::new(head, body))
}

/// Each of the numbers is below 2^32.
pub(crate) fn fit(numbers: &[u32])
    ensures { All (λ n. n < 2 ^ 32) numbers.now }
{
    let _count = numbers.len();
}
