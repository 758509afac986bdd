//! All hits of a list of queries.

ghost use Rattle.std.specs.Prelude.{IfOk};
ghost use Rattle.cq_terms.specs.Knowledge.{AreDistinct};
ghost use Rattle.query_matching.specs.Extensions.{AddsOnly, HasAll};
ghost use Rattle.query_matching.specs.Rows.{IsRowOf};
ghost use Rattle.plain_match.specs.Hits.{AreHitsOfAll};

use crate::facts::PlainFacts;
use crate::search::{Question, State, extend};
use cq_terms::{Cq, Hit, NoMemory};
use query_matching::{Row, Walk, hits_of};
use std::alloc::Global;
use std::collections::BTreeSet;

/// Each distinct pair of a tuple and an image that some match of one of the queries has, ascending by tuple and then by
/// image. The image is the ascending list of the numbers of the facts that the atoms become. `NoMemory` may come at any time.
pub fn images_plain(alloc: Global, members: &[Cq], facts: &PlainFacts) -> Result<Vec<Hit>, NoMemory>
    ensures exact { IfOk result (λ hits. AreHitsOfAll facts.now members.now hits.items) }
{
    let mut found = BTreeSet::new(alloc);
    for query in members {
        found = with_rows(alloc, query, facts, found)?;
    }
    hits_of(alloc, found)
}

/// Adds the rows of a query.
fn with_rows(
    alloc: Global,
    query: &Cq,
    facts: &PlainFacts,
    found: BTreeSet<Row>,
) -> Result<BTreeSet<Row>, NoMemory>
    ensures only { IfOk result (λ rows. AddsOnly (IsRowOf facts.now query.now) found.keys rows.keys) }
    ensures all { IfOk result (λ rows. HasAll (IsRowOf facts.now query.now) rows.keys) }
{
    let question = Question {
        facts,
        head: query.head(),
    };
    let mut state = State {
        walk: Walk::new(alloc),
        found,
    };
    distinct(facts);
    extend(&question, query.body(), &mut state)?;
    let State { found, .. } = state;
    Ok(found)
}

/// The facts of a table are distinct.
fn distinct(facts: &PlainFacts)
    ensures exact { AreDistinct facts.now }
{
    let _count = facts.len();
}
