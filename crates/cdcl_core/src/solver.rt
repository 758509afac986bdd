//! The solver: it is seen as its live clauses in order, the number of the next learned one, and the values of the last model.

ghost use Rattle.std.specs.Prelude.{◌≡◌, ◌≢◌, List, ◌<◌, ◌≤◌, ◌^◌, [], None, Some, length, IfOk, OnOk, OnErr, IfSome, false, Contains};
ghost use Rattle.clause_meaning.specs.Literals.{AreBelow, HaveDistinctVariables};
ghost use Rattle.cdcl_core.specs.State.{empty_solver, AddsClause, numbers_in, value_in, without_variable, without_number};
ghost use Rattle.cq_terms.specs.Lists.{IsAscending};
ghost use Rattle.proof_logs.specs.Logs.{Learned, IsWhole};
ghost use Rattle.cdcl_core.specs.Solving.{AreAskable, Affords, Learns, LogEnds, Ends, cleared};

use crate::labels::Selection;
use crate::outcome::{Budget, Outcome, SolveFault};
use crate::seek::{is_model, seek};
use crate::store::Store;
use clause_meaning::literal_of;
use cq_terms::{Longs, NoMemory};
use proof_logs::ProofLog;
use std::alloc::Global;
use std::marker::Model;

/// Clauses over a number of variables, given and learned, each learned one with a number. It is for the search of a clause-learning
/// solver (Marques-Silva and Sakallah 1999).
///
/// After a search that found a model its values are there. Each other call that changes the solver takes them away.
///
/// ```
/// // Variable 0 or variable 1 is present: their literals are 0 and 2. Where 0 is absent, which is literal 1, variable 1 is.
/// let mut solver = Solver::new(alloc, 2)?;
/// solver.add_clause(&[0, 2])?;
/// let mut log = MemLog::new(alloc, None);
/// let mut budget = Budget { limit: 5, used: 0 };
/// let outcome = solver.solve(&[0, 1], &[1], &mut budget, &mut log)?;
/// Ok(outcome == Outcome::Model && solver.value(1))
/// ```
#[derive(Drop)]
pub struct Solver {
    store: Store,
    found: bool,
}

impl Model for Solver {
    ghost use Rattle.cdcl_core.specs.State.{State};

    ghost Value = { State };

    ghost use Rattle.cdcl_core.specs.Shown.{shown, SolverIsKept};

    ghost view = { shown };

    ghost invariant = { SolverIsKept };
}

impl Solver {
    /// A solver with no clause, over at most 2^31 variables. `NoMemory` may come at any time.
    pub fn new(alloc: Global, variables: u32) -> Result<Solver, NoMemory>
        requires few { variables ≤ 2 ^ 31 }

        ensures exact { IfOk result (λ solver. solver ≡ empty_solver variables) }
    {
        Ok(Solver {
            store: Store::new(alloc, variables)?,
            found: false,
        })
    }

    /// Adds a given clause. `NoMemory` may come at any time, and then the clauses are as they were.
    pub fn add_clause(&mut self, clause: &[u32]) -> Result<(), NoMemory>
        requires some { clause.now ≢ [] }
        requires in_range { AreBelow self.old.variables clause.now }
        requires distinct { HaveDistinctVariables clause.now }

        ensures exact { OnOk result (AddsClause self.old self.new clause.now) }

        ensures unchanged { OnErr result (self.new ≡ record self.old { values = None }) }
    {
        self.found = false;
        self.store.add_given(clause)?;
        Ok(())
    }

    /// Drops each clause in which the variable occurs.
    pub fn close(&mut self, variable: u32)
        ensures exact { self.new ≡
            record self.old { live = without_variable self.old.live variable; values = None } }
    {
        self.found = false;
        self.store.drop_clauses(Selection::With(variable));
    }

    /// Drops the learned clause of a number.
    pub fn forget(&mut self, number: u64)
        requires learned { Contains (numbers_in self.old.live) number }

        ensures exact { self.new ≡
            record self.old { live = without_number self.old.live number; values = None } }
    {
        self.found = false;
        self.store.drop_clauses(Selection::Numbered(number));
    }

    /// Closes the gaps that dropped clauses left in memory.
    pub fn compact(&mut self)
        ensures exact { self.new ≡ record self.old { values = None } }
    {
        self.found = false;
        self.store.compact();
    }

    /// How many learned clauses are live.
    pub fn learned_live(&self) -> u64
        ensures exact { result ≡ length (numbers_in self.now.live) }
    {
        self.store.learned_live()
    }

    /// The numbers of the live learned clauses, ascending. `NoMemory` may come at any time.
    pub fn learned_numbers(&self) -> Result<Longs, NoMemory>
        ensures exact { IfOk result (λ numbers. numbers ≡ numbers_in self.now.live) }
        ensures ascending { IsAscending (numbers_in self.now.live) }
    {
        self.store.learned_numbers()
    }

    /// Looks for values that satisfy the assumptions and the clauses of the scope, which are the live clauses whose variables are all in
    /// it. Each clause that is learned on the way goes to the log first, and raises what is used of the budget by one.
    ///
    /// `NoMemory` may come at any time.
    pub fn solve<L: ProofLog>(
        &mut self,
        scope: &[u32],
        assume: &[u32],
        budget: &mut Budget,
        log: &mut L,
    ) -> Result<Outcome, SolveFault>
        requires askable { AreAskable self.old scope.now assume.now }
        requires affords { Affords self.old budget.old }
        requires whole { IsWhole (L.content log.old) }

        // Each learned clause was given to the log with its number, and then became live; so was the one on which a log failed.
        ensures learned { (entries : List Learned)
            × Learns (cleared self.old) (cleared self.new) scope.now assume.now budget.old budget.new entries
            × LogEnds (cleared self.new) scope.now assume.now budget.new
            (L.content log.old) (L.content log.new) (L.faults log.old) (L.faults log.new) entries result }
        ensures ends { IfOk result (Ends self.new scope.now assume.now budget.new) }

        ensures no_values { OnErr result (self.new.values ≡ None) }
        ensures leads { L.leads log.old log.new }
    {
        self.found = false;
        let outcome = seek(&mut self.store, scope, assume, budget, log)?;
        self.found = is_model(outcome);
        Ok(outcome)
    }

    /// The value of a variable in the model that was found: whether it is present. Where there is no model, no variable is.
    pub fn value(&self, variable: u32) -> bool
        ensures exact { IfSome self.now.values (λ values. result ≡ value_in values variable) }
        ensures none { self.now.values ≡ None → result ≡ false }
    {
        if !self.found {
            return false;
        }
        if variable >= self.store.variables() {
            return false;
        }
        self.store.value(variable)
    }
}
