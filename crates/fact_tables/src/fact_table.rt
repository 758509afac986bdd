//! A table of facts: the distinct facts, and the fact number of each record.

ghost use Rattle.std.specs.Prelude.{◌≡◌, ◌≤◌, ◌<◌, ◌-◌, ◌^◌, [], length, All, OnOk};
ghost use Rattle.cq_terms.specs.Knowledge.{AreDistinct};
ghost use Rattle.fact_tables.specs.FactRecords.{most_records};
ghost use Rattle.fact_tables.specs.FactSteps.{AddsFact};

use cq_terms::{Fact, NoMemory};
use indexmap::IndexSet;
use std::alloc::Global;
use std::marker::Model;

/// The distinct facts of a table in order of first appearance, and the fact number of each of its records. The number of a
/// fact is its place from 0.
#[derive(Debug, Drop)]
pub struct FactTable {
    facts: IndexSet<Fact>,
    records: Vec<u32>,
}

impl Model for FactTable {
    ghost use Rattle.fact_tables.specs.FactTable.{IsTable, Table};

    ghost Value = { Table };

    ghost view = { λ a. record { facts = a.facts.keys; records = a.records.items } };

    ghost invariant = { λ a. IsTable (record { facts = a.facts.keys; records = a.records.items }) };
}

impl FactTable {
    /// The table without records, which takes no memory.
    pub(crate) fn new(alloc: Global) -> Self
        ensures facts { result.facts ≡ [] }
        ensures records { result.records ≡ [] }
    {
        FactTable {
            facts: IndexSet::new(alloc),
            records: Vec::new(alloc),
        }
    }

    /// Appends a record of the fact.
    pub(crate) fn push(&mut self, fact: Fact) -> Result<(), NoMemory>
        requires room { length self.old.facts < 2 ^ 32 - 1 }
        requires few { length self.old.records < most_records }

        ensures exact { OnOk result (AddsFact fact self.old self.new) }
    {
        let (number, _) = self.facts.insert_full(fact)?;
        self.records.push(number as u32)?;
        Ok(())
    }

    /// Lends the facts, by number.
    pub fn facts(&self) -> &[Fact]
        ensures lent { result.now ≡ self.now.facts }
        ensures distinct { AreDistinct self.now.facts }
    {
        self.facts.as_slice()
    }

    /// Lends the fact number of each record, in order of records.
    pub fn records(&self) -> &[u32]
        ensures lent { result.now ≡ self.now.records }
        ensures few { length self.now.records ≤ most_records }
        ensures named { All (λ number. number < length self.now.facts) self.now.records }
    {
        self.records.as_slice()
    }
}
