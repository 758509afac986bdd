//! A log in memory, seen as its clauses with their numbers, and when it fails.

ghost use Rattle.std.specs.Prelude.{◌≡◌, false, IfErr, OnOk, Some, None, IsTrue, ◌↔◌, OnErr, Err};
ghost use Rattle.proof_logs.specs.Logs.{IsWhole, Appends, Tears, RisesAt};
ghost use Rattle.proof_logs.specs.MemLogs.{empty_log, content_of, is_call, with_call, with_failure};

use crate::log_fault::LogFault;
use crate::proof_log::ProofLog;
use cq_terms::{Ids, NoMemory};
use std::alloc::Global;
use std::marker::Model;

/// A log that keeps its clauses, and can be told to fail at one call.
#[derive(Drop)]
pub struct MemLog {
    numbers: Vec<u64>,
    clauses: Vec<Ids>,
    torn: Option<TornClause>,
    calls: u64,
    fail_at: Option<u64>,
    faults: u64,
}

/// The clause on which a log failed, with its number.
#[derive(Drop)]
struct TornClause {
    number: u64,
    clause: Ids,
}

impl Model for TornClause {
    ghost use Rattle.proof_logs.specs.Logs.{Learned};

    ghost Value = { Learned };

    ghost view = { λ t. record { number = t.number; clause = t.clause } };
}

impl Model for MemLog {
    ghost use Rattle.std.specs.Prelude.{◌≡◌, length};
    ghost use Rattle.proof_logs.specs.MemLogs.{LogState};

    ghost Value = { LogState };

    ghost view = { λ l. record {
      numbers = l.numbers.items;
      clauses = l.clauses.items;
      torn = l.torn;
      calls = l.calls;
      fail_at = l.fail_at;
      faults = l.faults;
    } };

    ghost invariant = { λ l. length l.numbers.items ≡ length l.clauses.items };
}

impl MemLog {
    /// A log with no clause. Without a `fail_at` it never fails; else it fails exactly at the call of that number, from 0.
    pub fn new(alloc: Global, fail_at: Option<u64>) -> MemLog
        ensures exact { result ≡ empty_log fail_at }
    {
        MemLog {
            numbers: Vec::new(alloc),
            clauses: Vec::new(alloc),
            torn: None,
            calls: 0,
            fail_at,
            faults: 0,
        }
    }

    /// Lends the clauses, in the order in which they came.
    pub fn clauses(&self) -> &[Ids]
        ensures lent { result.now ≡ self.now.clauses }
    {
        self.clauses.as_slice()
    }

    /// Whether the next call is the one that is to fail.
    fn is_due(&self) -> bool
        ensures { result ≡ is_call self.now.calls self.now.fail_at }
    {
        match self.fail_at {
            None => false,
            Some(call) => call == self.calls,
        }
    }

    /// Keeps the clause.
    fn keep(&mut self, number: u64, clause: Ids) -> Result<(), NoMemory>
        ensures exact { OnOk result (self.new ≡ with_call self.old number clause) }
        ensures content { OnOk result (Appends (Some (content_of self.old)) (Some (content_of self.new)) number clause) }
        ensures unchanged { OnErr result (self.new ≡ self.old) }
    {
        self.numbers.reserve(1)?;
        self.clauses.push(clause)?;
        match self.numbers.push(number) {
            Ok(()) => {}
            Err(_) => unreachable!(),
        }
        self.calls = self.calls.saturating_add(1);
        Ok(())
    }

    /// Fails on the clause.
    fn fail(&mut self, number: u64, clause: Ids)
        ensures { self.new ≡ with_failure self.old number clause }
    {
        self.torn = Some(TornClause { number, clause });
        self.calls = self.calls.saturating_add(1);
        self.faults = self.faults.saturating_add(1);
    }
}

impl ProofLog for MemLog {
    ghost content = { λ log. Some (content_of log) };

    ghost faults = { λ log. log.faults };

    ghost leads = { λ _ _. Unit {0} };

    ghost leads_same = { λ _. tt };

    ghost leads_on = { λ _ _ _ _ _. tt };

    fn learned(&mut self, number: u64, clause: &[u32]) -> Result<(), LogFault>
        requires whole { IsWhole (Some (content_of self.old)) }

        ensures exact { OnOk result (Appends (Some (content_of self.old)) (Some (content_of self.new)) number clause.now) }
        ensures torn { IfErr result (Tears (Some (content_of self.old)) (Some (content_of self.new)) number clause.now) }
        ensures fault { IfErr result (RisesAt self.old.faults self.new.faults) }
        ensures no_fault { OnOk result (self.new.faults ≡ self.old.faults) }
        ensures leads { Unit {0} }

        ensures fails { result ≡ Err LogFault.Failed → IsTrue (is_call self.old.calls self.old.fail_at) }
        ensures passes { OnOk result (is_call self.old.calls self.old.fail_at ≡ false) }
        ensures kept { OnOk result (self.new ≡ with_call self.old number clause.now) }
    {
        let copy = match Ids::from_slice(*self.numbers.allocator(), clause) {
            Ok(copy) => copy,
            Err(NoMemory) => return Err(LogFault::NoMemory),
        };
        if self.is_due() {
            self.fail(number, copy);
            return Err(LogFault::Failed);
        }
        match self.keep(number, copy) {
            Ok(()) => Ok(()),
            Err(NoMemory) => Err(LogFault::NoMemory),
        }
    }
}
