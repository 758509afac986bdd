//! The slots of clauses. A free slot has no literals, and a clause always has one.

ghost use Rattle.std.specs.Prelude.{◌≡◌, ◌<◌, ◌≤◌, ◌++◌, ◌∷◌, [], All, length, map, take, filter, vec_len, vec_capacity, slice_set};
ghost use Rattle.clause_arena.specs.State.{renumbered};
ghost use Rattle.clause_arena.specs.Walk.{IsFirstFrom};
ghost use Rattle.clause_arena.specs.Slots.{contents, held_from, is_full, full_in, full_count, AreRanked};

use crate::clause_ref::{ClauseRef, reference_of};

/// A slot: the literals of its clause, and room for the slot's new place.
#[derive(Drop)]
pub struct Slot {
    literals: Vec<u32>,
    rank: usize,
}

impl Slot {
    /// Lends the literals.
    pub fn literals(&self) -> &[u32]
        ensures { result.now ≡ self.now.literals.items }
    {
        self.literals.as_slice()
    }

    /// How many clauses it has: one, or none.
    fn clauses(&self) -> usize
        ensures { result ≡ full_in self.now.literals.items }
    {
        match self.literals.as_slice() {
            [] => 0,
            _ => 1,
        }
    }
}

/// Fills an empty vector that has the room.
pub fn filled(spare: Vec<u32>, literals: &[u32]) -> Vec<u32>
    requires empty { vec_len spare ≡ 0 }
    requires room { length literals.now ≤ vec_capacity spare }
    ensures { result.items ≡ literals.now }
{
    let mut spare = spare;
    match spare.extend_from_slice(literals) {
        Ok(()) => {}
        Err(_) => unreachable!(),
    }
    spare
}

/// Puts a clause into a new slot at the end, and answers its reference.
pub fn put(slots: &mut Vec<Slot>, literals: Vec<u32>) -> ClauseRef
    requires room { vec_len slots.old < vec_capacity slots.old }
    ensures reference { result.place ≡ length slots.old.items }
    ensures exact { contents slots.new.items ≡ contents slots.old.items ++ literals.items ∷ [] }
{
    let place = slots.len();
    match slots.push(Slot { literals, rank: 0 }) {
        Ok(()) => {}
        Err(_) => unreachable!(),
    }
    reference_of(place)
}

/// The first slot from a place on that has a clause.
pub fn first_from(slots: &[Slot], low: usize) -> Option<ClauseRef>
    ensures { IsFirstFrom (held_from 0 (contents slots.now)) low result }
{
    for place in low..slots.len() {
        if !slots[place].literals.is_empty() {
            return Some(reference_of(place));
        }
    }
    None
}

/// Takes the clause out of a slot, and gives its memory back.
pub fn free(slots: &mut Vec<Slot>, place: usize)
    requires { place < vec_len slots.old }
    ensures freed { contents slots.new.items ≡ slice_set (contents slots.old.items) place [] }
    ensures len { vec_len slots.new ≡ vec_len slots.old }
    ensures room { vec_capacity slots.new ≡ vec_capacity slots.old }
{
    let empty = Vec::new(*slots.allocator());
    slots[place].literals = empty;
}

/// Gives each slot the number of clauses before it.
pub fn rank(slots: &mut Vec<Slot>)
    ensures ranked { AreRanked slots.new.items }
    ensures same { contents slots.new.items ≡ contents slots.old.items }
    ensures len { vec_len slots.new ≡ vec_len slots.old }
    ensures room { vec_capacity slots.new ≡ vec_capacity slots.old }
{
    let mut count = 0;
    for place in 0..slots.len() {
        slots[place].rank = count;
        count += slots[place].clauses();
    }
}

/// Gives each reference the place that its clause has once the free slots are gone.
pub fn rename(slots: &[Slot], refs: &mut [ClauseRef])
    requires ranked { AreRanked slots.now }
    requires within { All (λ clause. clause.place < length slots.now) refs.old }
    ensures { refs.new ≡ map (renumbered (λ place. full_count (take place (contents slots.now)))) refs.old }
{
    for i in 0..refs.len() {
        refs[i] = reference_of(slots[refs[i].place()].rank);
    }
}

/// Takes the free slots out.
pub fn close_gaps(slots: &mut Vec<Slot>)
    ensures exact { contents slots.new.items ≡ filter is_full (contents slots.old.items) }
    ensures len { vec_len slots.new ≤ vec_len slots.old }
    ensures room { vec_capacity slots.new ≡ vec_capacity slots.old }
{
    slots.retain(|slot| !slot.literals.is_empty());
}
