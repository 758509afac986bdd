//! The checker: it is seen as its number of variables, its live clauses with their numbers, and the next number.

ghost use Rattle.std.specs.Prelude.{◌≡◌, ◌<◌, ◌≤◌, ◌+◌, ◌-◌, ◌^◌, ◌↔◌, ◌⊎◌, ℕ, List, IsTrue, IfOk, OnOk, OnErr, Contains};
ghost use Rattle.std.specs.Bool.{OnTrue, OnFalse};
ghost use Rattle.clause_meaning.specs.Literals.{AreBelow};
ghost use Rattle.clause_meaning.specs.Refutation.{Refutes, ContainsOneOf};
ghost use Rattle.clause_meaning.specs.Resting.{Rests};
ghost use Rattle.rup_check.specs.Slots.{IsAt};
ghost use Rattle.rup_check.specs.Listed.{HasTwo};
ghost use Rattle.rup_check.specs.Marks.{IsMarked, AreConsistent};
ghost use Rattle.rup_check.specs.State.{LiveIn, IsLive, without, empty_state, with_clause};

use crate::clauses::Clauses;
use crate::hints::{Hint, make_room};
use crate::marks::{Marks, cut};
use crate::numbers::Numbers;
use crate::propagation;
use cq_terms::NoMemory;
use std::alloc::Global;
use std::marker::Model;

/// A set of clauses that tells what unit propagation over them refutes. A clause follows from them by reverse unit
/// propagation where the opposites of its literals are refuted (Goldberg and Novikov 2003; Van Gelder 2008).
///
/// A literal is twice its variable where the variable is present, and one more where it is absent.
#[derive(Drop)]
pub struct Checker {
    clauses: Clauses,
    hints: Vec<Hint>,
    marks: Marks,
    settled: bool,
    early: usize,
    late: Numbers,
}

impl Model for Checker {
    ghost use Rattle.rup_check.specs.State.{State};

    ghost Value = { State };

    ghost use Rattle.rup_check.specs.Inside.{shown, IsKept};

    ghost view = { shown };

    ghost invariant = { IsKept };
}

impl Checker {
    /// A checker with no clause. It takes the room that `refutes` ever needs. `NoMemory` may come at any time.
    pub fn new(alloc: Global, variables: u32) -> Result<Checker, NoMemory>
        requires few { variables ≤ 2 ^ 31 }

        ensures exact { IfOk result (λ checker. checker ≡ empty_state variables) }
    {
        Ok(Checker {
            clauses: Clauses::new(alloc, variables)?,
            hints: Vec::new(alloc),
            marks: Marks::new(alloc, variables)?,
            settled: false,
            early: 0,
            late: Numbers::new(alloc),
        })
    }

    /// Adds a clause and answers its number, from 0 in the order of adding. The clause may be empty, and may have a literal
    /// twice. `NoMemory` may come at any time.
    pub fn add(&mut self, clause: &[u32]) -> Result<u64, NoMemory>
        requires in_range { AreBelow self.old.variables clause.now }
        requires numbered { self.old.next < 2 ^ 64 - 1 }

        ensures number { IfOk result (λ number. number ≡ self.old.next) }
        ensures exact { OnOk result (self.new ≡ with_clause self.old clause.now) }

        ensures unchanged { OnErr result (self.new ≡ self.old) }
    {
        let number = self.clauses.len();
        make_room(&mut self.hints, number)?;
        list_where(self.settled, &self.marks, clause, &mut self.late, number)?;
        self.clauses.add(clause)?;
        Ok(number as u64)
    }

    /// Whether unit propagation from the literals, with the live clauses, ends in a false clause or in opposite literals.
    /// It looks at the clauses without two different literals, or, after `settle`, at those that became known since and that don't
    /// rest by what it has propagated; and for each literal that becomes true at those that have its opposite.
    pub fn refutes(&mut self, assume: &[u32]) -> bool
        requires in_range { AreBelow self.old.variables assume.now }

        ensures exact { IsTrue result ↔ Refutes (LiveIn self.old.live) (Contains assume.now) }

        ensures unchanged { self.new ≡ self.old }
    {
        let base = self.marks.len();
        let refuted = propagation::refutes(
            &self.clauses,
            first_numbers(&self.clauses, &self.late, self.settled),
            &mut self.hints,
            &mut self.marks,
            assume,
        );
        cut(&mut self.marks, base);
        refuted
    }

    /// Propagates the live clauses once, for all later calls; it changes no answer. What it has found is lost once one of these
    /// clauses is forgotten, or where memory is wanting, until the next `settle`. `NoMemory` may come at any time.
    pub fn settle(&mut self) -> Result<(), NoMemory>
        ensures unchanged { self.new ≡ self.old }
    {
        self.late.clear();
        self.marks.clear();
        propagation::clashes(
            &self.clauses,
            self.clauses.short(),
            &mut self.hints,
            &mut self.marks,
            0,
        );
        let listed = propagation::list_late(&self.clauses, &self.marks, &mut self.late);
        if listed.is_ok() {
            self.early = self.clauses.len();
            self.settled = true;
        } else {
            self.marks.clear();
            self.early = 0;
            self.settled = false;
        }
        listed
    }

    /// Whether the clause has all literals of some live clause. It looks at the live clauses that have one of its literals,
    /// and at an empty one.
    pub fn is_superset_of_live(&self, clause: &[u32]) -> bool
        ensures exact { IsTrue result ↔ ContainsOneOf (LiveIn self.now.live) clause.now }
    {
        self.clauses.has_within(clause)
    }

    /// Drops the live clause of that number. It goes over the lists of the clauses that have one of its literals, and over those
    /// that `refutes` looks at first.
    pub fn forget(&mut self, number: u64)
        requires live { IsLive self.old.live number }

        ensures exact { self.new ≡ record self.old { live = without self.old.live number } }
    {
        let number = number as usize;
        if number < self.early {
            self.late.clear();
            self.marks.clear();
            self.early = 0;
            self.settled = false;
            self.clauses.remove(number);
            return;
        }
        self.late.remove(number);
        self.clauses.remove(number);
    }
}

/// Lends the numbers of the clauses at which propagation begins: of those that may not rest under the marks between calls.
fn first_numbers<'a>(clauses: &'a Clauses, late: &'a Numbers, settled: bool) -> &'a [usize]
    ensures late { OnTrue settled (result.now ≡ late.now) }
    ensures short { OnFalse settled ((n : ℕ) (c : List ℕ) → IsAt clauses.now.slots n c → HasTwo c ⊎ Contains result.now n) }
{
    if settled {
        late.as_slice()
    } else {
        clauses.short()
    }
}

/// Lists the number of a clause, where such are listed, unless the clause rests under the marks.
fn list_where(
    settled: bool,
    marks: &Marks,
    clause: &[u32],
    late: &mut Numbers,
    number: usize,
) -> Result<(), NoMemory>
    requires in_range { AreBelow marks.now.variables clause.now }
    requires consistent { AreConsistent marks.now.literals }

    ensures kept { (n : ℕ) → Contains late.old n → Contains late.new n }
    ensures listed { OnOk result (OnTrue settled (Contains late.new number ⊎ Rests (IsMarked marks.now.literals) clause.now)) }
{
    if settled {
        propagation::list_unless_rests(marks, clause, late, number)
    } else {
        Ok(())
    }
}
