//! Rows on tables of pairs.

ghost use Rattle.std.specs.Prelude.{◌<◌, ◌^◌, length};

use cq_terms::{Pair, Vocab};
use fact_tables::{FactRefusal, FactTable, PairRefusal, read_facts, read_pairs};
use std::alloc::Global;
use std::process::Abort;
use std::test::Fail;

/// The table of three records of two facts, which have the numbers 0, 1 and 0.
fn table(alloc: Global) -> Result<FactTable, FactRefusal> {
    let table = table_of(alloc, b"A,a\nB,a\nA,a\n")?;
    Ok(table)
}

/// The table of the records.
fn table_of(alloc: Global, bytes: &[u8]) -> Result<FactTable, FactRefusal>
    requires { length bytes.now < 2 ^ 31 }
{
    let mut vocab = Vocab::new(alloc);
    let table = read_facts(alloc, bytes, &mut vocab)?;
    Ok(table)
}

/// The pairs of the text are this one.
fn is_one_pair(rt: &impl Abort, alloc: Global, text: &[u8], table: &FactTable) {
    match read_pairs(alloc, text, table) {
        Ok(pairs) => assert!(rt; pairs.as_slice() == [Pair { upper: 0, lower: 1 }].as_slice()),
        Err(_) => panic!(rt; "no pairs"),
    }
}

#[test]
fn a_pair_has_the_fact_numbers_of_its_records(rt: HostRuntime) -> Result<(), Fail> {
    let alloc = rt.alloc();
    let table = table(alloc)?;
    is_one_pair(&rt, alloc, b"1,2\n", &table);
    is_one_pair(&rt, alloc, b"3,2", &table);
    is_one_pair(&rt, alloc, b" 1\t,\t002 \r\n\n", &table);
    is_one_pair(&rt, alloc, b"\xEF\xBB\xBF\xEF\xBB\xBF\"3\",2\n", &table);
    Ok(())
}

/// The pairs of the text are refused so.
fn is_refused(
    rt: &impl Abort,
    alloc: Global,
    text: &[u8],
    table: &FactTable,
    refusal: PairRefusal,
) {
    let read = read_pairs(alloc, text, table);
    assert_eq!(rt; read.err(), Some(refusal), "of {text:?}");
}

#[test]
fn the_first_faulty_pair_is_refused(rt: HostRuntime) -> Result<(), Fail> {
    let alloc = rt.alloc();
    let table = table(alloc)?;
    let wide = PairRefusal::BadWidth { number: 2 };
    is_refused(&rt, alloc, b"1,2\n1,2,3\n", &table, wide);
    let narrow = PairRefusal::BadWidth { number: 1 };
    is_refused(&rt, alloc, b"x\n", &table, narrow);
    let bad_number = PairRefusal::BadNumber { number: 1 };
    is_refused(&rt, alloc, b"1 1,2\n", &table, bad_number);
    is_refused(&rt, alloc, b"1,\n", &table, bad_number);
    is_refused(&rt, alloc, b"9,-1\n", &table, bad_number);
    let no_record = PairRefusal::NoSuchRecord { number: 1 };
    is_refused(&rt, alloc, b"0,1\n", &table, no_record);
    is_refused(
        &rt,
        alloc,
        b"1111111111111111111111111,2\n",
        &table,
        no_record,
    );
    let no_second = PairRefusal::NoSuchRecord { number: 2 };
    is_refused(&rt, alloc, b"1,2\n\n1,4\n", &table, no_second);
    Ok(())
}
