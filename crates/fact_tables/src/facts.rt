//! The reader of facts: record by record, names are put and facts collected.

ghost use Rattle.std.specs.Prelude.{◌≡◌, ◌+◌, ◌≤◌, ◌<◌, ◌^◌, ◌∷◌, [], length, All, IfOk, IfErr, OnOk};
ghost use Rattle.csv.specs.Records.{fields_of};
ghost use Rattle.fact_tables.specs.FactRecords.{IsFactRecord, most_records};
ghost use Rattle.fact_tables.specs.FactSteps.{AddsRecord, IsRecordRefusal, bytes_in, named_fields};
ghost use Rattle.fact_tables.specs.Facts.{IsFactOf, IsFactRefusal, IsNumbered, ReadsFacts};
ghost use Rattle.fact_tables.specs.Numbering.{Grows, HasRoom, Keeps, PutsNames};

use crate::fact_record::{NamedFact, named_fact};
use crate::rows::Rows;
use crate::{FactRefusal, FactTable};
use cq_terms::{Fact, NoMemory, Vocab};
use csv::ByteRecord;
use std::alloc::Global;

/// How many records a table of facts may have.
const MOST_RECORDS: usize = 200_000;

/// Reads a table of facts, and puts its names into `vocab`, record by record and from left to right.
///
/// The records are those that the crate `csv` defines of the bytes after every byte order mark at the beginning: commas,
/// double quotes, any width, no header, no trimming. A record of two fields is a concept and an individual, one of three
/// fields a role and two individuals. Equal records are one fact.
///
/// A refusal other than `NoMemory` is the fault of the first record that has one: `BadWidth`, `NotUtf8`, `EmptyField`, and
/// `TooMany` for record 200,001, in this order. An error of `csv` in reading the slice counts as want of memory. After any
/// answer the names of before stand at their places, and names of this table may follow them.
pub fn read_facts(alloc: Global, bytes: &[u8], vocab: &mut Vocab) -> Result<FactTable, FactRefusal>
    requires room { HasRoom bytes.now vocab.old }

    ensures exact { IfOk result (λ table. ReadsFacts bytes.now vocab.old vocab.new table) }
    ensures numbered { IfOk result (λ table. All (IsNumbered vocab.new) table.facts) }
    ensures few { IfOk result (λ table. length table.facts ≤ length table.records) }
    ensures refused { IfErr result (λ refusal. IsFactRefusal bytes.now refusal) }

    ensures kept { Keeps vocab.old vocab.new }
    ensures grown { Grows (length bytes.now) vocab.old vocab.new }
{
    let mut rows = Rows::new(alloc, bytes);
    let mut row = ByteRecord::new(alloc);
    let mut table = FactTable::new(alloc);
    while rows.next(&mut row)? {
        take_record(&row, vocab, &mut table)?;
    }
    Ok(table)
}

/// Puts the names of a record, and its fact at the end of the table.
fn take_record(
    row: &ByteRecord,
    vocab: &mut Vocab,
    table: &mut FactTable,
) -> Result<(), FactRefusal>
    requires concepts { length vocab.old.concepts < 2 ^ 31 }
    requires roles { length vocab.old.roles < 2 ^ 31 }
    requires inds { length vocab.old.inds < 2 ^ 31 }
    requires few { length table.old.records ≤ most_records }
    requires facts { length table.old.facts ≤ length table.old.records }

    ensures exact { OnOk result
        (AddsRecord (fields_of row.now) vocab.old vocab.new table.old table.new) }
    ensures more { OnOk result (length table.old.records < most_records) }
    ensures refused { IfErr result
        (λ refusal. IsRecordRefusal (length table.old.records + 1) (fields_of row.now) refusal) }

    ensures kept { Keeps vocab.old vocab.new }
    ensures grown { Grows (bytes_in (fields_of row.now)) vocab.old vocab.new }
{
    let count = table.records().len();
    let named = named_fact(row, count as u32 + 1)?;
    if count == MOST_RECORDS {
        return Err(FactRefusal::TooMany);
    }
    let fact = put_fact(&named, vocab)?;
    table.push(fact)?;
    Ok(())
}

/// Puts the names of a record, and answers its fact over their numbers.
fn put_fact(named: &NamedFact<'_>, vocab: &mut Vocab) -> Result<Fact, NoMemory>
    requires concepts { length vocab.old.concepts < 2 ^ 31 }
    requires roles { length vocab.old.roles < 2 ^ 31 }
    requires inds { length vocab.old.inds < 2 ^ 31 }

    ensures names { OnOk result (PutsNames (named_fields named.now ∷ []) vocab.old vocab.new) }
    ensures exact { IfOk result (λ fact. IsFactOf vocab.new (named_fields named.now) fact) }

    ensures kept { Keeps vocab.old vocab.new }
    ensures grown { Grows 2 vocab.old vocab.new }
{
    match *named {
        NamedFact::Concept {
            concept,
            individual,
        } => {
            let pred = vocab.concepts.put(concept)?;
            let ind = vocab.inds.put(individual)?;
            Ok(Fact::Concept { pred, ind })
        }
        NamedFact::Link { role, from, to } => {
            let pred = vocab.roles.put(role)?;
            let from = vocab.inds.put(from)?;
            let to = vocab.inds.put(to)?;
            Ok(Fact::Link { pred, from, to })
        }
    }
}
