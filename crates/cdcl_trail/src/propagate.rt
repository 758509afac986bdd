//! Propagation, by passes over all live clauses until nothing changes.

ghost use Rattle.std.specs.Prelude.{◌≡◌, IfSome, IfNone, length};
ghost use Rattle.clause_arena.specs.State.{IsLive};

use crate::trail::Trail;
use clause_arena::{Arena, ClauseRef};
use clause_meaning::Finding;

/// What a visit of one clause did.
#[derive(Clone, Copy)]
pub enum Visit {
    /// The clause is false.
    Clashes,
    /// The clause forced a literal, which is assigned now.
    Grows,
    /// Neither: it isn't false, and what it forces is true.
    Rests,
}

/// How a pass over the live clauses ended.
#[derive(Clone, Copy)]
pub enum Pass {
    /// This clause is false.
    Clashes(ClauseRef),
    /// A literal was assigned.
    Grows,
    /// No clause is false, and what each forces is true.
    Settled,
}

impl Trail {
    ghost use Rattle.cdcl_trail.specs.Fits.{Fits, Grows, IsComplete, IsFalsified};
    ghost use Rattle.cdcl_trail.specs.Passes.{Visited, Passed};

    /// Looks at a live clause, and assigns what it forces.
    fn visit_clause(&mut self, arena: &Arena, clause: ClauseRef) -> Visit
        requires fits { Fits self.old arena.now }
        requires live { IsLive arena.now clause.place }

        ensures visited { Visited self.old self.new arena.now clause result }
        ensures grows { Grows self.old self.new }
        ensures fits { Fits self.new arena.now }
    {
        let literals = arena.view(clause);
        if literals.len() < 2 {
            return Visit::Rests;
        }
        match self.look(literals) {
            Finding::IsFalse => Visit::Clashes,
            Finding::Forces(literal) => {
                self.force(literal, clause);
                Visit::Grows
            }
            Finding::Rests => Visit::Rests,
        }
    }

    /// Visits each live clause once.
    fn pass_over(&mut self, arena: &Arena) -> Pass
        requires { Fits self.old arena.now }

        ensures passed { Passed self.old self.new arena.now result }
        ensures grows { Grows self.old self.new }
        ensures fits { Fits self.new arena.now }
    {
        let mut grows = false;
        let mut at = arena.first();
        while let Some(clause) = at {
            match self.visit_clause(arena, clause) {
                Visit::Clashes => return Pass::Clashes(clause),
                Visit::Grows => grows = true,
                Visit::Rests => {}
            }
            at = arena.next(clause);
        }
        if grows { Pass::Grows } else { Pass::Settled }
    }

    /// Assigns what the clauses force until nothing changes (unit propagation, Marques-Silva and Sakallah 1999). It answers a
    /// clause that became false, and `None` where none did. A clause of one literal is passed over: `fix` is for it.
    pub fn propagate(&mut self, arena: &Arena) -> Option<ClauseRef>
        requires { Fits self.old arena.now }

        ensures falsified { IfSome result (IsFalsified self.new arena.now) }
        ensures complete { IfNone result (IsComplete self.new arena.now) }
        ensures settled { IfNone result (self.new.settled ≡ length self.new.entries) }

        ensures grows { Grows self.old self.new }
        ensures fits { Fits self.new arena.now }
    {
        loop {
            match self.pass_over(arena) {
                Pass::Clashes(clause) => return Some(clause),
                Pass::Grows => {}
                Pass::Settled => {
                    self.settle();
                    return None;
                }
            }
        }
    }
}
