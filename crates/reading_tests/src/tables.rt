//! What no clause says: that memory is enough for small tables, and a few of them with what they give.

ghost use Rattle.std.specs.Prelude.{◌<◌, ◌^◌, length};

use cq_terms::{Fact, Pair, Vocab};
use fact_tables::{FactRefusal, FactTable, PairRefusal, one_reading, read_facts, read_pairs};
use std::alloc::Global;
use std::process::Abort;
use std::test::Fail;

fn table_of(alloc: Global, bytes: &[u8]) -> Result<FactTable, FactRefusal>
    requires { length bytes.now < 2 ^ 31 }
{
    let mut vocab = Vocab::new(alloc);
    let table = read_facts(alloc, bytes, &mut vocab)?;
    Ok(table)
}

#[test]
fn equal_records_are_one_fact(rt: HostRuntime) -> Result<(), Fail> {
    let text = b"A,\"Lee, Ann\"\r\nB,bob\r\nA,\"Lee, Ann\"\r\n";
    let table = table_of(rt.alloc(), text)?;
    let facts = [
        Fact::Concept { pred: 0, ind: 0 },
        Fact::Concept { pred: 1, ind: 1 },
    ];
    assert_eq!(rt; table.facts(), facts.as_slice());
    assert_eq!(rt; table.records(), [0u32, 1, 0].as_slice());
    let pairs = read_pairs(rt.alloc(), b"3, 02\n", &table)?;
    assert_eq!(rt; pairs.as_slice(), [Pair { upper: 0, lower: 1 }].as_slice());
    one_reading();
    Ok(())
}

#[test]
fn faulty_records_are_refused(rt: HostRuntime) -> Result<(), Fail> {
    let narrow = table_of(rt.alloc(), b"A,a\nA\nA,\n");
    assert_eq!(rt; narrow.err(), Some(FactRefusal::BadWidth { number: 2 }));
    let empty = table_of(rt.alloc(), b"A,a\nA,\n");
    assert_eq!(rt; empty.err(), Some(FactRefusal::EmptyField { number: 2 }));
    let table = table_of(rt.alloc(), b"A,a\nB,a\n")?;
    let alloc = rt.alloc();
    let no_such_record = PairRefusal::NoSuchRecord { number: 1 };
    is_refused(&rt, alloc, b"1,3\n", &table, no_such_record);
    is_refused(
        &rt,
        alloc,
        b"0,99999999999999999999\n",
        &table,
        no_such_record,
    );
    let bad_number = PairRefusal::BadNumber { number: 1 };
    is_refused(&rt, alloc, b"1,x\n", &table, bad_number);
    Ok(())
}

/// The pairs over the table are refused so.
fn is_refused(
    rt: &impl Abort,
    alloc: Global,
    text: &[u8],
    table: &FactTable,
    refusal: PairRefusal,
) {
    let read = read_pairs(alloc, text, table);
    assert_eq!(rt; read.err(), Some(refusal), "of {text:?}");
}
