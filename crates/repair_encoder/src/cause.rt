//! The clauses of causes.

ghost use Rattle.std.specs.Prelude.{◌≡◌, ◌<◌, ◌^◌, IfOk, All};
ghost use Rattle.clause_meaning.specs.Literals.{HaveDistinctVariables};
ghost use Rattle.cq_terms.specs.Lists.{IsAscending};
ghost use Rattle.repair_clauses.specs.CauseClauses as clauses;

use crate::literals::push_absent;
use cq_terms::{Ids, NoMemory};
use std::alloc::Global;

/// The clause that excludes a cause: the selector is absent, or a fact of the cause is.
pub fn cause_clause(alloc: Global, selector: u32, cause: &[u32]) -> Result<Ids, NoMemory>
    requires few { selector < 2 ^ 31 }
    requires ascending { IsAscending cause.now }
    requires below { All (λ f. f < selector) cause.now }

    ensures exact { IfOk result (λ c. c ≡ clauses.cause_clause selector cause.now) }
    ensures ascending { IfOk result IsAscending }
    ensures distinct { IfOk result HaveDistinctVariables }
{
    let mut clause = Ids::new(alloc);
    push_absent(&mut clause, cause)?;
    clause.push(2 * selector + 1)?;
    Ok(clause)
}
