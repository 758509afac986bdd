//! The search: it goes on until a clause is falsified, learns from it and goes on, until it ends or the budget is used up.

ghost use Rattle.std.specs.Prelude.{◌≡◌, ◌<◌, ◌≤◌, List, IfOk, OnErr};
ghost use Rattle.proof_logs.specs.Logs.{Learned, IsWhole};
ghost use Rattle.cdcl_core.specs.Solving.{AreAskable, Affords, Learns, LogEnds};
ghost use Rattle.cdcl_core.specs.Seeking.{StoreEnds, is_model_of, bare};

use crate::outcome::{Budget, Outcome, SolveFault};
use crate::seeking::Stop;
use crate::store::Store;
use proof_logs::ProofLog;

/// Looks for values that satisfy the assumptions and the clauses of the scope.
pub fn seek<L: ProofLog>(
    store: &mut Store,
    scope: &[u32],
    assume: &[u32],
    budget: &mut Budget,
    log: &mut L,
) -> Result<Outcome, SolveFault>
    requires askable { AreAskable (bare store.old) scope.now assume.now }
    requires affords { Affords (bare store.old) budget.old }
    requires whole { IsWhole (L.content log.old) }

    ensures learned { (entries : List Learned)
        × Learns (bare store.old) (bare store.new) scope.now assume.now budget.old budget.new entries
        × LogEnds (bare store.new) scope.now assume.now budget.new
        (L.content log.old) (L.content log.new) (L.faults log.old) (L.faults log.new) entries result }
    ensures ends { IfOk result (StoreEnds store.new scope.now assume.now budget.new) }
    ensures leads { L.leads log.old log.new }
{
    if !store.begin(scope) {
        return Ok(Outcome::Refuted);
    }
    let mut assumed = 0;
    loop {
        match store.advance(assume, assumed) {
            Stop::Refuted => return Ok(Outcome::Refuted),
            Stop::Model => return Ok(Outcome::Model),
            Stop::Falsified(clause, level) => {
                if budget.used == budget.limit {
                    return Ok(Outcome::Spent);
                }
                match store.learn(clause, log) {
                    Ok(()) => {}
                    Err(fault) => return Err(fault),
                }
                budget.used += 1;
                assumed = level.min(store.level());
            }
        }
    }
}

/// Whether a search ended with a model.
pub fn is_model(outcome: Outcome) -> bool
    ensures { result ≡ is_model_of outcome }
{
    match outcome {
        Outcome::Model => true,
        Outcome::Refuted => false,
        Outcome::Spent => false,
    }
}
