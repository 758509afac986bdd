//! The arena: a slot for each clause, and a spare vector for the next one.

ghost use Rattle.std.specs.Prelude.{◌≡◌, ◌≢◌, ◌<◌, ◌≤◌, ◌+◌, [], ℕ, List, All, IfOk, OnOk, OnErr, IsOk, length};
ghost use Rattle.clause_meaning.specs.Literals.{AreBelow, HaveDistinctVariables};
ghost use Rattle.clause_arena.specs.State.{Names, IsLive, AreAscending, Holds, Renames, with_clause, without};
ghost use Rattle.clause_arena.specs.Walk.{IsFirstFrom};

use crate::clause_ref::ClauseRef;
use crate::slots::{Slot, close_gaps, filled, first_from, free, put, rank, rename};
use cq_terms::NoMemory;
use std::alloc::Global;
use std::marker::Model;
use std::mem;

/// Clauses over a number of variables, as a clause-learning solver keeps them. Each live clause has a reference, and the list
/// of live clauses is ascending by it.
///
/// The spare number is how many literals the next clause may have so that it takes no memory.
#[derive(Drop)]
pub struct Arena {
    variables: u32,
    slots: Vec<Slot>,
    spare: Vec<u32>,
    room: usize,
}

impl Model for Arena {
    ghost use Rattle.clause_arena.specs.State.{State};

    ghost Value = { State };

    ghost use Rattle.clause_arena.specs.Shown.{shown, IsKept};

    ghost view = { shown };

    ghost invariant = { IsKept };
}

impl Arena {
    /// An arena with no clause.
    pub fn new(alloc: Global, variables: u32) -> Result<Arena, NoMemory>
        ensures variables { IfOk result (λ arena. arena.variables ≡ variables) }
        ensures empty { IfOk result (λ arena. arena.live ≡ []) }
    {
        Ok(Arena {
            variables,
            slots: Vec::new(alloc),
            spare: Vec::new(alloc),
            room: 0,
        })
    }

    /// How many variables there are.
    pub fn variables(&self) -> u32
        ensures exact { result ≡ self.now.variables }
    {
        self.variables
    }

    /// Makes room, so that the next push of at most so many literals takes no memory. `NoMemory` may come at any time where the
    /// spare number is less.
    pub fn reserve(&mut self, literals: usize) -> Result<(), NoMemory>
        ensures spared { OnOk result (literals ≤ self.new.spare) }
        ensures spare { self.old.spare ≤ self.new.spare }

        ensures same_clauses { Holds self.old self.new self.old.live }
    {
        if literals <= self.room {
            return Ok(());
        }
        self.slots.reserve(1)?;
        self.spare = Vec::with_capacity(*self.slots.allocator(), literals)?;
        self.room = literals;
        Ok(())
    }

    /// Adds a clause and answers its reference. `NoMemory` may come where the clause has more literals than the spare number.
    pub fn push(&mut self, literals: &[u32]) -> Result<ClauseRef, NoMemory>
        requires some { literals.now ≢ [] }
        requires in_range { AreBelow self.old.variables literals.now }
        requires distinct { HaveDistinctVariables literals.now }

        ensures exact { IfOk result (λ clause. Holds self.old self.new (with_clause self.old.live clause.place literals.now)) }
        ensures spared { length literals.now ≤ self.old.spare → IsOk result }

        ensures unchanged { OnErr result (Holds self.old self.new self.old.live) }
    {
        if literals.len() > self.room {
            self.reserve(literals.len())?;
        }
        Ok(self.push_spare(literals))
    }

    /// Adds a clause for which there is room.
    fn push_spare(&mut self, literals: &[u32]) -> ClauseRef
        requires some { literals.now ≢ [] }
        requires in_range { AreBelow self.old.variables literals.now }
        requires distinct { HaveDistinctVariables literals.now }
        requires spared { length literals.now ≤ self.old.spare }

        ensures { Holds self.old self.new (with_clause self.old.live result.place literals.now) }
    {
        let empty = Vec::new(*self.slots.allocator());
        let spare = mem::replace(&mut self.spare, empty);
        self.room = 0;
        put(&mut self.slots, filled(spare, literals))
    }

    /// Lends the literals of a clause, in the order in which they were given.
    pub fn view(&self, clause: ClauseRef) -> &[u32]
        requires live { IsLive self.now clause.place }

        ensures named { Names self.now clause.place result.now }
        ensures only { (literals : List ℕ) → Names self.now clause.place literals → literals ≡ result.now }
        ensures some { result.now ≢ [] }
        ensures in_range { AreBelow self.now.variables result.now }
        ensures distinct { HaveDistinctVariables result.now }
    {
        self.slots[clause.place()].literals()
    }

    /// The least live reference, which is that of the first live clause.
    pub fn first(&self) -> Option<ClauseRef>
        ensures found { IsFirstFrom self.now.live 0 result }
        ensures ascending { AreAscending self.now.live }
    {
        first_from(&self.slots, 0)
    }

    /// The next live reference, which is that of the next live clause.
    pub fn next(&self, clause: ClauseRef) -> Option<ClauseRef>
        requires live { IsLive self.now clause.place }

        ensures found { IsFirstFrom self.now.live (clause.place + 1) result }
    {
        first_from(&self.slots, clause.place() + 1)
    }

    /// Drops a live clause. Its reference names nothing any more, and those of the other clauses stay.
    pub fn drop_clause(&mut self, clause: ClauseRef)
        requires live { IsLive self.old clause.place }

        ensures exact { Holds self.old self.new (without self.old.live clause.place) }
        ensures spare { self.old.spare ≤ self.new.spare }
    {
        free(&mut self.slots, clause.place());
    }

    /// Closes the gaps that dropped clauses left. Each given reference becomes the one that its clause has afterwards; of
    /// others nothing is known. It goes over all slots and references once.
    pub fn compact(&mut self, refs: &mut [ClauseRef])
        requires live { All (λ clause. IsLive self.old clause.place) refs.old }

        ensures exact { Renames self.old self.new refs.old refs.new }
        ensures spare { self.old.spare ≤ self.new.spare }
    {
        rank(&mut self.slots);
        rename(&self.slots, refs);
        close_gaps(&mut self.slots);
    }
}
