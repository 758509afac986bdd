//! The lists in which clauses are looked up: by each literal, those that propagation begins with, and the empty ones.

ghost use Rattle.std.specs.Prelude.{◌≡◌, ◌≢◌, ◌<◌, ◌*◌, [], ℕ, All, Contains, IsTrue, IfOk, OnOk, length, slice_index_or};
ghost use Rattle.std.specs.Bool.{OnFalse};
ghost use Rattle.rup_check.specs.Listed.{HasTwo, IsListed, KeepsOthers};

use crate::numbers::Numbers;
use cq_terms::NoMemory;
use std::alloc::Global;
use std::marker::Model;

/// Lists of clause numbers: for each literal those of the clauses that have it, those of the clauses without two different
/// literals, and those of the empty ones. A list may have further numbers.
#[derive(Drop)]
pub struct Lists {
    by_literal: Vec<Numbers>,
    short: Numbers,
    empty: Numbers,
}

impl Model for Lists {
    ghost use Rattle.rup_check.specs.Listed.{Listed};

    ghost Value = { Listed };

    ghost view = { λ l. record { by_literal = l.by_literal.items; short = l.short; empty = l.empty } };
}

impl Lists {
    /// No number in any list, and a list for each literal of so many variables.
    pub fn new(alloc: Global, variables: u32) -> Result<Lists, NoMemory>
        ensures { IfOk result (λ lists. length lists.by_literal ≡ 2 * variables) }
    {
        let literals = 2 * variables as usize;
        let mut by_literal = Vec::with_capacity(alloc, literals)?;
        for _ in 0..literals {
            by_literal.push(Numbers::new(alloc))?;
        }
        Ok(Lists {
            by_literal,
            short: Numbers::new(alloc),
            empty: Numbers::new(alloc),
        })
    }

    /// Lends the list of a literal.
    pub fn with(&self, literal: u32) -> &[usize]
        ensures { result.now ≡ slice_index_or self.now.by_literal literal [] }
    {
        match self.by_literal.get(literal as usize) {
            Some(list) => list.as_slice(),
            None => &[],
        }
    }

    /// Lends the list of the clauses that propagation begins with.
    pub fn short(&self) -> &[usize]
        ensures { result.now ≡ self.now.short }
    {
        self.short.as_slice()
    }

    /// Lends the list of the empty clauses.
    pub fn empty(&self) -> &[usize]
        ensures { result.now ≡ self.now.empty }
    {
        self.empty.as_slice()
    }

    /// Puts the number of a clause into its lists.
    pub fn enlist(&mut self, number: usize, clause: &[u32]) -> Result<(), NoMemory>
        requires within { All (λ l. l < length self.old.by_literal) clause.now }

        ensures others { KeepsOthers number self.old self.new }
        ensures listed { OnOk result (IsListed self.new number clause.now) }
    {
        put_by_literal(&mut self.by_literal, clause, number)?;
        put_where(&mut self.short, is_short(clause), number)?;
        put_where(&mut self.empty, clause.is_empty(), number)
    }

    /// Takes the number of a clause out of its lists.
    pub fn delist(&mut self, number: usize, clause: &[u32])
        requires within { All (λ l. l < length self.old.by_literal) clause.now }

        ensures others { KeepsOthers number self.old self.new }
    {
        remove_by_literal(&mut self.by_literal, clause, number);
        remove_where(&mut self.short, is_short(clause), number);
        remove_where(&mut self.empty, clause.is_empty(), number);
    }
}

/// Whether all literals of the clause are one.
fn is_short(clause: &[u32]) -> bool
    ensures two { OnFalse result (HasTwo clause.now) }
{
    for literal in clause {
        if *literal != clause[0] {
            return false;
        }
    }
    true
}

/// Adds a number to a list, where it is wanted.
fn put_where(list: &mut Numbers, wanted: bool, number: usize) -> Result<(), NoMemory>
    ensures kept { (n : ℕ) → Contains list.old n → Contains list.new n }
    ensures put { OnOk result (IsTrue wanted → Contains list.new number) }
{
    if wanted { list.push(number) } else { Ok(()) }
}

/// Takes a number out of a list, where it may stand there.
fn remove_where(list: &mut Numbers, listed: bool, number: usize)
    ensures kept { (n : ℕ) → n ≢ number → Contains list.old n → Contains list.new n }
{
    if listed {
        list.remove(number);
    }
}

/// Adds a number to the list of each literal.
fn put_by_literal(lists: &mut [Numbers], clause: &[u32], number: usize) -> Result<(), NoMemory>
    requires within { All (λ l. l < length lists.old) clause.now }

    ensures same_length { length lists.new ≡ length lists.old }
    ensures kept { (l n : ℕ) → Contains (slice_index_or lists.old l []) n → Contains (slice_index_or lists.new l []) n }
    ensures put { OnOk result ((l : ℕ) → Contains clause.now l → Contains (slice_index_or lists.new l []) number) }
{
    for literal in clause {
        lists[*literal as usize].push(number)?;
    }
    Ok(())
}

/// Takes a number out of the list of each literal.
fn remove_by_literal(lists: &mut [Numbers], clause: &[u32], number: usize)
    requires within { All (λ l. l < length lists.old) clause.now }

    ensures same_length { length lists.new ≡ length lists.old }
    ensures kept { (l n : ℕ) → n ≢ number → Contains (slice_index_or lists.old l []) n → Contains (slice_index_or lists.new l []) n }
{
    for literal in clause {
        lists[*literal as usize].remove(number);
    }
}
