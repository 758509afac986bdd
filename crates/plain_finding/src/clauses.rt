//! The live clauses, in a checker, kept in step with the lines.

ghost use Rattle.std.specs.Prelude.{◌≡◌, ◌↔◌, ◌<◌, ◌≤◌, ◌+◌, ◌^◌, ◌++◌, ◌∷◌, [], ℕ, List, All, Contains, IsTrue, IfOk, OnOk, OnErr, length, map, filter, not};
ghost use Rattle.cq_terms.specs.Lists.{IsAscending};
ghost use Rattle.clause_meaning.specs.Literals.{AreBelow};
ghost use Rattle.clause_meaning.specs.Refutation.{ContainsOneOf, Refutes};
ghost use Rattle.priority_graph.specs.Split.{has};
ghost use Rattle.repair_clauses.specs.CauseClauses as cause_clauses;
ghost use Rattle.rup_check.specs.State.{IsLive, with_clause};
ghost use Rattle.plain_finding.specs.Kept.{HasLive, Holds, kept_at};

use cq_terms::{Ids, NoMemory};
use rup_check::Checker;
use std::alloc::Global;
use std::marker::Model;

/// The live clauses: the base clauses, those of the open answer's causes, and the learned ones. A learned clause is known by its place
/// among the learned ones that live.
#[derive(Drop)]
pub struct Clauses {
    checker: Checker,
    variables: u32,
    next: u64,
    open: Vec<u64>,
    learned: Vec<u64>,
}

impl Model for Clauses {
    ghost use Rattle.plain_finding.specs.Kept.{Kept};

    ghost Value = { Kept };

    ghost use Rattle.plain_finding.specs.InsideClauses.{shown, IsKept};

    ghost view = { shown };

    ghost invariant = { IsKept };
}

impl Clauses {
    /// No clause yet, over so many variables.
    pub fn new(alloc: Global, variables: u32) -> Result<Clauses, NoMemory>
        requires few { variables ≤ 2 ^ 31 }

        ensures variables { IfOk result (λ clauses. clauses.variables ≡ variables) }
        ensures none { IfOk result (λ clauses. Holds clauses [] [] []) }
    {
        Ok(Clauses {
            checker: Checker::new(alloc, variables)?,
            variables,
            next: 0,
            open: Vec::new(alloc),
            learned: Vec::new(alloc),
        })
    }

    /// Whether each literal is of one of the variables.
    pub fn speaks_of(&self, clause: &[u32]) -> bool
        ensures exact { IsTrue result ↔ AreBelow self.now.variables clause.now }
    {
        clause_meaning::are_below(self.variables, clause)
    }

    /// Whether unit propagation from the literals, with the live clauses, ends in a false clause or in opposite literals.
    pub fn refutes(&mut self, assume: &[u32]) -> bool
        requires in_range { AreBelow self.old.variables assume.now }

        ensures exact { (live : List (List ℕ)) → HasLive self.old live
            → (IsTrue result ↔ Refutes (Contains live) (Contains assume.now)) }
        ensures unchanged { self.new ≡ self.old }
    {
        self.checker.refutes(assume)
    }

    /// Whether the clause has all literals of a live one.
    pub fn is_superset_of_live(&self, clause: &[u32]) -> bool
        ensures exact { (live : List (List ℕ)) → HasLive self.now live
            → (IsTrue result ↔ ContainsOneOf (Contains live) clause.now) }
    {
        self.checker.is_superset_of_live(clause)
    }

    /// Adds a base clause.
    pub fn add_base(&mut self, clause: &[u32]) -> Result<(), NoMemory>
        requires in_range { AreBelow self.old.variables clause.now }

        ensures same { OnOk result (self.new.variables ≡ self.old.variables) }
        ensures exact { OnOk result ((base causes learned : List (List ℕ)) → Holds self.old base causes learned
            → Holds self.new (base ++ clause.now ∷ []) causes learned) }
    {
        add(&mut self.checker, &mut self.next, clause)?;
        Ok(())
    }

    /// Propagates the live clauses once, for all later calls. It changes no answer.
    pub fn settle(&mut self) -> Result<(), NoMemory>
        ensures unchanged { self.new ≡ self.old }
    {
        self.checker.settle()
    }

    /// Adds the clause of a cause of the open answer.
    fn add_open(&mut self, clause: &[u32]) -> Result<(), NoMemory>
        requires in_range { AreBelow self.old.variables clause.now }

        ensures same { OnOk result (self.new.variables ≡ self.old.variables) }
        ensures exact { OnOk result ((base causes learned : List (List ℕ)) → Holds self.old base causes learned
            → Holds self.new base (causes ++ clause.now ∷ []) learned) }
    {
        let number = add(&mut self.checker, &mut self.next, clause)?;
        self.open.push(number)?;
        Ok(())
    }

    /// Adds a learned clause.
    pub fn learn(&mut self, clause: &[u32]) -> Result<(), NoMemory>
        requires in_range { AreBelow self.old.variables clause.now }

        ensures same { OnOk result (self.new.variables ≡ self.old.variables) }
        ensures exact { OnOk result ((base causes learned : List (List ℕ)) → Holds self.old base causes learned
            → Holds self.new base causes (learned ++ clause.now ∷ [])) }
    {
        let number = add(&mut self.checker, &mut self.next, clause)?;
        self.learned.push(number)?;
        Ok(())
    }

    /// Adds the clauses of the causes of a candidate, whose selector is the variable.
    pub fn open(&mut self, alloc: Global, selector: u32, causes: &[Ids]) -> Result<(), NoMemory>
        requires few { self.old.variables ≤ 2 ^ 31 }
        requires selector { selector < self.old.variables }
        requires in_range { All (All (λ f. f < self.old.variables)) causes.now }

        ensures same { OnOk result (self.new.variables ≡ self.old.variables) }
        ensures exact { OnOk result ((base learned : List (List ℕ)) → Holds self.old base [] learned
            → Holds self.new base (map (cause_clauses.cause_clause selector) causes.now) learned) }
    {
        let mut clause = Vec::new(alloc);
        for cause in causes {
            fill_cause_clause(&mut clause, selector, cause.as_slice())?;
            self.add_open(clause.as_slice())?;
        }
        Ok(())
    }

    /// Forgets the clauses of the causes.
    pub fn close(&mut self)
        ensures same { self.new.variables ≡ self.old.variables }
        ensures exact { (base causes learned : List (List ℕ)) → Holds self.old base causes learned
            → Holds self.new base [] learned }
    {
        forget_each(&mut self.checker, self.open.as_slice());
        self.open.clear();
    }

    /// Forgets the learned clauses whose mark is `false`; a mark stands at the place of each.
    pub fn keep(&mut self, alloc: Global, marks: &[bool]) -> Result<(), NoMemory>
        ensures same { OnOk result (self.new.variables ≡ self.old.variables) }
        ensures exact { OnOk result ((base causes learned : List (List ℕ)) → length learned ≡ length marks.now
            → Holds self.old base causes learned → Holds self.new base causes (kept_at marks.now learned)) }
    {
        let parted = part(alloc, marks, self.learned.as_slice())?;
        forget_each(&mut self.checker, parted.going.as_slice());
        self.learned = parted.staying;
        Ok(())
    }
}

/// Adds a clause to the checker, whose next number is `next`. A number past the last one counts as want of memory.
fn add(checker: &mut Checker, next: &mut u64, clause: &[u32]) -> Result<u64, NoMemory>
    requires in_range { AreBelow checker.old.variables clause.now }
    requires same { next.old ≡ checker.old.next }

    ensures number { IfOk result (λ number. number ≡ next.old) }
    ensures exact { OnOk result (checker.new ≡ with_clause checker.old clause.now) }
    ensures next { OnOk result (next.new ≡ next.old + 1) }
    ensures unchanged { OnErr result ((checker.new ≡ checker.old) × (next.new ≡ next.old)) }
{
    if *next >= u64::MAX - 1 {
        return Err(NoMemory);
    }
    let number = checker.add(clause)?;
    *next += 1;
    Ok(number)
}

/// Forgets the clauses of these numbers.
fn forget_each(checker: &mut Checker, numbers: &[u64])
    requires live { All (IsLive checker.old.live) numbers.now }
    requires ascending { IsAscending numbers.now }

    ensures exact { checker.new
        ≡ record checker.old { live = filter (λ e. not (has numbers.now e.number)) checker.old.live } }
{
    for number in numbers {
        checker.forget(*number);
    }
}

/// The clause of a cause: a fact of it is absent, or the selector is.
fn fill_cause_clause(clause: &mut Vec<u32>, selector: u32, cause: &[u32]) -> Result<(), NoMemory>
    requires few { selector < 2 ^ 31 }
    requires few_facts { All (λ f. f < 2 ^ 31) cause.now }

    ensures exact { OnOk result (clause.new.items ≡ cause_clauses.cause_clause selector cause.now) }
{
    clause.clear();
    for fact in cause {
        clause.push(2 * *fact + 1)?;
    }
    clause.push(2 * selector + 1)?;
    Ok(())
}

/// The numbers of clauses, by whether they stay.
#[derive(Drop)]
struct Parted {
    staying: Vec<u64>,
    going: Vec<u64>,
}

/// Parts the numbers by the marks at their places.
fn part(alloc: Global, marks: &[bool], numbers: &[u64]) -> Result<Parted, NoMemory>
    ensures staying { IfOk result (λ parted. parted.staying.items ≡ kept_at marks.now numbers.now) }
    ensures going { IfOk result (λ parted. parted.going.items ≡ kept_at (map not marks.now) numbers.now) }
{
    let mut staying = Vec::new(alloc);
    let mut going = Vec::new(alloc);
    let count = numbers.len().min(marks.len());
    for place in 0..count {
        if marks[place] {
            staying.push(numbers[place])?;
        } else {
            going.push(numbers[place])?;
        }
    }
    Ok(Parted { staying, going })
}
