//! The hits of a query.

ghost use Rattle.std.specs.Prelude.{◌≡◌, ◌≤◌, length, IfOk, OnOk};
ghost use Rattle.cq_terms.specs.Knowledge.{AreDistinct};
ghost use Rattle.query_matching.specs.Hits.{AreHits, HasMoreHits};

use crate::JoinRefusal;
use crate::search::{Question, State, extend};
use cq_terms::{Cq, Hit};
use fact_index::Index;
use query_matching::{Walk, hits_of};
use std::alloc::Global;
use std::collections::BTreeSet;

/// The hits of a query in a table: each pair of a tuple and an image that some match has, once, ascending by tuple and then
/// by image. The image is the ascending list of the numbers of the facts onto which the atoms map. `TooManyHits` comes
/// exactly where there are more than `limit` hits, unless memory runs out before. At most `limit` + 1 hits are kept at a time.
pub fn matches(
    alloc: Global,
    query: &Cq,
    index: &Index,
    limit: u64,
) -> Result<Vec<Hit>, JoinRefusal>
    ensures exact { IfOk result (λ hits. AreHits index.now query.now hits.items) }

    // Too many comes where there are more than the limit, and then nothing else but want of memory.
    ensures too_many { result ≡ Err JoinRefusal.TooManyHits → HasMoreHits index.now query.now limit }
    ensures within { OnOk result (¬ HasMoreHits index.now query.now limit) }
    ensures few { IfOk result (λ hits. length hits.items ≤ limit) }
{
    let question = Question {
        index,
        head: query.head(),
        limit,
    };
    let mut state = State {
        walk: Walk::new(alloc),
        found: BTreeSet::new(alloc),
    };
    distinct(index);
    extend(&question, query.body(), &mut state)?;
    let State { found, .. } = state;
    Ok(hits_of(alloc, found)?)
}

/// The facts of an index are distinct.
fn distinct(index: &Index)
    ensures exact { AreDistinct index.now }
{
    let _count = index.len();
}
