//! The self-inconsistent facts of a table and the pairs in conflict, with the facts that conflict with each fact.

ghost use Rattle.std.specs.Prelude.{◌≡◌, ◌<◌, ◌^◌, ◌↔◌, ℕ, length, IsTrue, Contains, IfOk, OnOk, All, ◌++◌};
ghost use Rattle.cq_terms.specs.Conflicts.{AreClashes, AreInConflict, IsOwn, couple, single};
ghost use Rattle.cq_terms.specs.Lists.{IsAscending};
ghost use Rattle.cq_terms.specs.ConflictTables.{AreMarks, both_ways, conflict_entries, rivals};

use crate::{Clash, FlatLists, KeyedNumber, NoMemory};
use std::alloc::Global;
use std::marker::Model;

/// The clashes of a table's facts. Looking up what conflicts with a fact takes constant time.
#[derive(Debug, Drop)]
pub struct Conflicts {
    facts: u32,
    clashes: Vec<Clash>,
    own: Vec<bool>,
    adjacent: FlatLists,
}

impl Model for Conflicts {
    ghost use Rattle.cq_terms.specs.Conflicts.{ConflictGraph};
    ghost use Rattle.cq_terms.specs.ConflictTables.{AreTables};

    ghost Value = { ConflictGraph };

    ghost view = { λ a. record { facts = a.facts; clashes = a.clashes.items } };

    ghost invariant = { λ a. AreTables a.facts a.clashes.items a.own.items a.adjacent };
}

impl Conflicts {
    /// The conflicts of a table of `facts` facts that the clashes tell.
    pub fn new(alloc: Global, facts: u32, clashes: Vec<Clash>) -> Result<Conflicts, NoMemory>
        requires kept { AreClashes facts clashes.items }

        ensures exact { IfOk result (λ c. c ≡ record { facts = facts; clashes = clashes.items }) }
    {
        let own = own_marks(alloc, facts, clashes.as_slice())?;
        let entries = entries(alloc, facts, clashes.as_slice())?;
        let adjacent = FlatLists::grouped(alloc, facts, entries.as_slice())?;
        Ok(Conflicts {
            facts,
            clashes,
            own,
            adjacent,
        })
    }

    /// Lends the facts that conflict with the fact, ascending. All these lists together have fewer than 2^32 numbers.
    pub fn of(&self, fact: u32) -> &[u32]
        requires known { fact < self.now.facts }

        ensures lent { result.now ≡ rivals self.now.clashes fact }
        ensures ascending { IsAscending result.now }
        ensures exact { (j : ℕ) → Contains result.now j ↔ AreInConflict self.now.clashes fact j }
        ensures known { All (λ j. j < self.now.facts) result.now }
        ensures few { length (conflict_entries self.now.clashes) < 2 ^ 32 }
    {
        let _ = &self.facts;
        self.adjacent.list(fact)
    }

    /// Whether the fact is self-inconsistent.
    pub fn is_own(&self, fact: u32) -> bool
        requires known { fact < self.now.facts }

        ensures exact { IsTrue result ↔ IsOwn self.now.clashes fact }
    {
        self.own[fact as usize]
    }

    /// Lends the clashes: the self-inconsistent facts first, then the pairs in conflict, each ascending.
    pub fn clashes(&self) -> &[Clash]
        ensures lent { result.now ≡ self.now.clashes }
        ensures kept { AreClashes self.now.facts self.now.clashes }
    {
        self.clashes.as_slice()
    }

    /// How many facts the table has.
    pub fn facts(&self) -> u32
        ensures exact { result ≡ self.now.facts }
        ensures kept { AreClashes self.now.facts self.now.clashes }
    {
        self.facts
    }
}

/// Marks each self-inconsistent fact.
fn own_marks(alloc: Global, facts: u32, clashes: &[Clash]) -> Result<Vec<bool>, NoMemory>
    requires kept { AreClashes facts clashes.now }

    ensures exact { IfOk result (λ marks. AreMarks facts clashes.now marks.items) }
{
    let mut marks = vec![in alloc; false; facts as usize]?;
    for clash in clashes {
        if let Some(own) = own_fact(clash) {
            marks[own as usize] = true;
        }
    }
    Ok(marks)
}

/// Answers two entries for each pair in conflict, one for each fact.
fn entries(alloc: Global, facts: u32, clashes: &[Clash]) -> Result<Vec<KeyedNumber>, NoMemory>
    requires kept { AreClashes facts clashes.now }

    ensures exact { IfOk result (λ entries. entries.items ≡ conflict_entries clashes.now) }
{
    let mut entries = Vec::new(alloc);
    for clash in clashes {
        if let Some((lower, upper)) = pair(clash) {
            push_both(&mut entries, lower, upper)?;
        }
    }
    Ok(entries)
}

/// Appends each of the two facts with the other as its key.
fn push_both(entries: &mut Vec<KeyedNumber>, lower: u32, upper: u32) -> Result<(), NoMemory>
    ensures exact { OnOk result (entries.new.items ≡ entries.old.items ++ both_ways (lower, upper)) }
{
    entries.push(KeyedNumber {
        key: lower,
        value: upper,
    })?;
    entries.push(KeyedNumber {
        key: upper,
        value: lower,
    })?;
    Ok(())
}

/// Answers the fact that is self-inconsistent by the clash.
fn own_fact(clash: &Clash) -> Option<u32>
    ensures { result ≡ single clash.now.facts }
{
    match clash.facts.as_slice() {
        [own] => Some(*own),
        _ => None,
    }
}

/// Answers the two facts that the clash has.
fn pair(clash: &Clash) -> Option<(u32, u32)>
    ensures { result ≡ couple clash.now.facts }
{
    match clash.facts.as_slice() {
        [lower, upper] => Some((*lower, *upper)),
        _ => None,
    }
}
