//! The reader of pairs: record by record, numbers of fact records become fact numbers.

ghost use Rattle.std.specs.Prelude.{◌≡◌, ◌+◌, ◌≤◌, ◌<◌, length, option_and_then, IfOk, IfErr, IfNone};
ghost use Rattle.csv.specs.Records.{field_at, fields_of};
ghost use Rattle.cq_terms.specs.Knowledge.{NameFacts};
ghost use Rattle.fact_tables.specs.FactRecords.{most_records};
ghost use Rattle.fact_tables.specs.Numbers.{capped, number_in};
ghost use Rattle.fact_tables.specs.PairRecords.{AreNumbers, IsPairOf, IsPairRecord, fact_number};
ghost use Rattle.fact_tables.specs.Pairs.{IsPairRefusal, IsRecordRefusal, ReadsPairs};

use crate::number::number_in;
use crate::rows::Rows;
use crate::{FactTable, PairRefusal};
use cq_terms::Pair;
use csv::ByteRecord;
use std::alloc::Global;

/// How many records a table of pairs may have.
const MOST_PAIRS: usize = 400_000;

/// Reads a table of pairs, and answers them by fact numbers, in order of records.
///
/// A record `i,j` says that the fact of fact record `i` is preferred to that of fact record `j`; fact records are counted
/// from 1. Blanks at either end of a field are skipped, and what stays is one or more digits, of any length. The records are
/// those of `csv`, as for facts.
///
/// A refusal other than `NoMemory` is the fault of the first record that has one: `BadWidth`, `BadNumber`, `NoSuchRecord`,
/// and `TooMany` for record 400,001, in this order. An error of `csv` in reading the slice counts as want of memory.
pub fn read_pairs(alloc: Global, bytes: &[u8], table: &FactTable) -> Result<Vec<Pair>, PairRefusal>
    ensures exact { IfOk result (λ pairs. ReadsPairs bytes.now table.now.records pairs.items) }
    ensures named { IfOk result (λ pairs. NameFacts table.now.facts pairs.items) }
    ensures refused { IfErr result (λ refusal. IsPairRefusal bytes.now table.now.records refusal) }
{
    let records = table.records();
    let mut rows = Rows::new(alloc, bytes);
    let mut row = ByteRecord::new(alloc);
    let mut pairs = Vec::new(alloc);
    while rows.next(&mut row)? {
        let pair = pair_of(&row, records, pairs.len() as u32 + 1)?;
        if pairs.len() == MOST_PAIRS {
            return Err(PairRefusal::TooMany);
        }
        pairs.push(pair)?;
    }
    Ok(pairs)
}

/// The pair of the record with this number.
fn pair_of(row: &ByteRecord, records: &[u32], number: u32) -> Result<Pair, PairRefusal>
    requires few { length records.now ≤ most_records }

    ensures right { IfOk result (λ _. IsPairRecord records.now (fields_of row.now)) }
    ensures exact { IfOk result (λ pair. IsPairOf records.now (fields_of row.now) pair) }
    ensures refused { IfErr result (λ refusal. IsRecordRefusal records.now number (fields_of row.now) refusal) }
{
    if row.len() != 2 {
        return Err(PairRefusal::BadWidth { number });
    }
    let bad_number = PairRefusal::BadNumber { number };
    let upper = number_at(row, 0).ok_or(bad_number)?;
    let lower = number_at(row, 1).ok_or(bad_number)?;
    let no_such_record = PairRefusal::NoSuchRecord { number };
    Ok(Pair {
        upper: fact_number(records, upper).ok_or(no_such_record)?,
        lower: fact_number(records, lower).ok_or(no_such_record)?,
    })
}

/// The number in the field at a place from 0. A number beyond 64 bits counts as 2^64 - 1.
fn number_at(row: &ByteRecord, place: usize) -> Option<u64>
    requires within { place < length (fields_of row.now) }

    ensures none { IfNone result (¬ (AreNumbers (fields_of row.now))) }
    ensures exact { result ≡
        capped (option_and_then number_in (field_at (fields_of row.now) place)) }
{
    number_in(row.get(place)?)
}

/// The fact number of the fact record with this number, from 1.
fn fact_number(records: &[u32], number: u64) -> Option<u32>
    ensures exact { result ≡ fact_number records.now number }
{
    let place = number.checked_sub(1)?;
    records.get(place as usize).copied()
}
