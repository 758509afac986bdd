//! The assigned literals as a list, with a table by variable beside it.

ghost use Rattle.std.specs.Prelude.{◌≡◌, ◌<◌, ◌≤◌, ◌++◌, ◌∷◌, [], List, All, length, map, IfOk, IfSome, IfNone, vec_len, vec_capacity};
ghost use Rattle.clause_meaning.specs.Literals.{variable_of};
ghost use Rattle.cdcl_trail.specs.Assigned.{IsUnassigned, IsEntryOf};
ghost use Rattle.cdcl_trail.specs.Levels.{last_level, RiseFrom};
ghost use Rattle.cdcl_trail.specs.declared.trail_entry.TrailEntry.{TrailEntry};

use crate::trail_entry::TrailEntry;
use clause_meaning::variable_of;
use cq_terms::NoMemory;
use std::alloc::Global;
use std::marker::Model;

/// Assigned literals, oldest first, each variable at most once.
#[derive(Drop)]
pub struct Assignment {
    variables: u32,
    entries: Vec<TrailEntry>,
    literals: Vec<u32>,
    table: Vec<Option<TrailEntry>>,
}

impl Model for Assignment {
    ghost use Rattle.cdcl_trail.specs.Assigned.{Assigned};

    ghost Value = { Assigned };

    ghost use Rattle.cdcl_trail.specs.Table.{shown, IsKept};

    ghost view = { shown };

    ghost invariant = { IsKept };
}

impl Assignment {
    ghost use Rattle.cdcl_trail.specs.Table.{AreDistinct};

    /// No literal is assigned. It takes the room for one literal of each variable.
    pub fn new(alloc: Global, variables: u32) -> Result<Assignment, NoMemory>
        ensures variables { IfOk result (λ assigned. assigned.variables ≡ variables) }
        ensures empty { IfOk result (λ assigned. assigned.entries ≡ []) }
    {
        let room = variables as usize;
        Ok(Assignment {
            variables,
            entries: Vec::with_capacity(alloc, room)?,
            literals: Vec::with_capacity(alloc, room)?,
            table: vec![in alloc; None; room]?,
        })
    }

    /// The entry of a variable, where it is assigned.
    pub fn entry(&self, variable: u32) -> Option<TrailEntry>
        requires { variable < self.now.variables }
        ensures { IsEntryOf self.now.entries variable result }
    {
        self.table[variable as usize]
    }

    /// Lends the literals, oldest first.
    pub fn literals(&self) -> &[u32]
        ensures lent { result.now ≡ map (λ entry. entry.literal) self.now.entries }
        ensures distinct { AreDistinct self.now.entries }
    {
        self.literals.as_slice()
    }

    /// How many literals are assigned.
    pub fn len(&self) -> usize
        ensures exact { result ≡ length self.now.entries }
        ensures few { length self.now.entries ≤ self.now.variables }
    {
        self.entries.len()
    }

    /// Assigns one more literal. It takes no memory.
    pub fn put(&mut self, entry: TrailEntry)
        requires in_range { variable_of entry.literal < self.old.variables }
        requires unassigned { IsUnassigned self.old.entries (variable_of entry.literal) }
        ensures exact { self.new ≡ record self.old { entries = self.old.entries ++ entry ∷ [] } }
        ensures few { length self.new.entries ≤ self.new.variables }
    {
        let literal = entry.literal;
        self.table[variable_of(literal) as usize] = Some(entry);
        push(&mut self.entries, entry);
        push(&mut self.literals, literal);
    }

    /// Takes the newest literal away.
    pub fn take_last(&mut self) -> Option<TrailEntry>
        ensures variables { self.new.variables ≡ self.old.variables }
        ensures some { IfSome result (λ entry. self.old.entries ≡ self.new.entries ++ entry ∷ []) }
        ensures none { IfNone result ((self.old.entries ≡ []) × (self.new.entries ≡ [])) }
    {
        match self.entries.pop() {
            None => None,
            Some(entry) => {
                self.literals.pop();
                self.table[variable_of(entry.literal) as usize] = None;
                Some(entry)
            }
        }
    }

    /// The level of the newest literal, 0 where there is none.
    fn last_level(&self) -> u32
        ensures { result ≡ last_level 0 self.now.entries }
    {
        match self.entries.last() {
            Some(entry) => entry.level,
            None => 0,
        }
    }
}

/// Takes away the literals above a level.
pub fn cut(assigned: &mut Assignment, level: u32)
    requires rise { RiseFrom 0 assigned.old.entries }
    requires reached { level ≤ last_level 0 assigned.old.entries }
    ensures variables { assigned.new.variables ≡ assigned.old.variables }
    ensures cut { (gone : List TrailEntry) × (assigned.old.entries ≡ assigned.new.entries ++ gone) × All (λ e. level < e.level) gone }
    ensures last { last_level 0 assigned.new.entries ≡ level }
    ensures rise { RiseFrom 0 assigned.new.entries }
{
    while assigned.last_level() > level {
        assigned.take_last();
    }
}

/// Takes all literals away.
pub fn clear(assigned: &mut Assignment)
    ensures exact { assigned.new ≡ record assigned.old { entries = [] } }
{
    while assigned.take_last().is_some() {}
}

/// Adds an item where there is room.
fn push<T: Copy>(items: &mut Vec<T>, item: T)
    requires room { vec_len items.old < vec_capacity items.old }
    ensures exact { items.new.items ≡ items.old.items ++ item ∷ [] }
    ensures capacity { vec_capacity items.old ≤ vec_capacity items.new }
{
    match items.push(item) {
        Ok(()) => {}
        Err(_) => unreachable!(),
    }
}
