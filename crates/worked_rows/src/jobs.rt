//! The jobs `table` and `bench`: what they print, and what they refuse.

use cq_io::MemShelf;
use cqapri_cli::Status;
use memory_runs::{end_of, ended_over, put_all, tabulated};
use std::alloc::Global;
use std::process::Abort;
use std::test::Fail;

// A report without an answer, and its first two lines.
const NO_ANSWER: &str =
    r#"{"axioms":0,"budget":20000,"facts":0,"k":"head","keep":20000,"repairs":"pareto","version":1}
{"body":[["c",0,0]],"head":[0],"k":"cq","move":null,"of":"query","parent":null}
{"answers":0,"ar":0,"brave":0,"iar":0,"k":"end","undecided":0}
"#;

const NO_END: &str =
    r#"{"axioms":0,"budget":20000,"facts":0,"k":"head","keep":20000,"repairs":"pareto","version":1}
{"body":[["c",0,0]],"head":[0],"k":"cq","move":null,"of":"query","parent":null}
"#;

// Two answers and an end: `table` asks nothing else of a report.
const ANSWERS: &str =
    r#"{"ar":"undecided","brave":"yes","cores":[],"iar":"no","k":"answer","names":["Lee, Ann","a \"b\""],"tuple":[0,1]}
{"ar":"yes","brave":"yes","cores":[],"iar":"yes","k":"answer","names":["two\nlines"],"tuple":[2]}
{"answers":2,"ar":1,"brave":2,"iar":1,"k":"end","undecided":1}
"#;

const RECORDS: &str = "\"Lee, Ann\",\"a \"\"b\"\"\",yes,undecided,no\n\"two\nlines\",yes,yes,yes\n";

#[test]
fn table_prints_a_record_for_each_answer(rt: HostRuntime) -> Result<(), Fail> {
    let alloc = rt.alloc();
    assert!(rt; tabulated(alloc, NO_ANSWER.as_bytes())?.is(Status::Done, "", ""));
    assert!(rt; tabulated(alloc, ANSWERS.as_bytes())?.is(Status::Done, RECORDS, ""));
    Ok(())
}

#[test]
fn table_refuses_a_report_without_its_end(rt: HostRuntime) -> Result<(), Fail> {
    let alloc = rt.alloc();
    let told = "cqapri: report: line 3: bad line\n";
    assert!(rt; tabulated(alloc, NO_END.as_bytes())?.is(Status::Refused, "", told));
    let told = "cqapri: report: line 1: bad line\n";
    assert!(rt; tabulated(alloc, b"")?.is(Status::Refused, "", told));
    Ok(())
}

#[test]
fn table_leaves_the_first_bytes_of_its_records(rt: HostRuntime) -> Result<(), Fail> {
    let words = ["table", "--report", "r"];
    let ended = ended_over(rt.alloc(), &words, ANSWERS.as_bytes(), Some(10))?;
    assert!(rt; ended.status == Status::WriteFault);
    assert!(rt; RECORDS.as_bytes().starts_with(ended.out.written()));
    assert!(rt; ended.err.written() == b"cqapri: write fault\n".as_slice());
    Ok(())
}

/// The end of `table` of a report that isn't there, or whose fetch fails.
fn unfetched(alloc: Global, fails: bool) -> Result<bool, Fail> {
    let mut words = Vec::new(alloc);
    put_all(&mut words, &["table", "--report", "r"])?;
    let mut files = MemShelf::new(alloc);
    if fails {
        files.fail_at(0)?;
    }
    let ended = end_of(alloc, &words, &mut files, None)?;
    Ok(if fails {
        ended.is(Status::ReadFault, "", "cqapri: report: read fault\n")
    } else {
        ended.is(Status::Refused, "", "cqapri: report: not there\n")
    })
}

#[test]
fn table_names_the_report_that_is_not_fetched(rt: HostRuntime) -> Result<(), Fail> {
    assert!(rt; unfetched(rt.alloc(), false)?);
    assert!(rt; unfetched(rt.alloc(), true)?);
    Ok(())
}

/// The run with the words prints this line, and fetches nothing.
fn prints(rt: &impl Abort, alloc: Global, texts: &[&str], line: &str) {
    match ended_over(alloc, texts, b"", None) {
        Ok(ended) => assert!(rt; ended.is(Status::Done, line, ""), "of {texts:?}"),
        Err(_) => panic!(rt; "no run"),
    }
}

#[test]
fn bench_counts_the_verdicts(rt: HostRuntime) {
    let alloc = rt.alloc();
    let one = "answers 1 brave 1 ar 1 iar 1 undecided 0\n";
    prints(&rt, alloc, &["bench", "--size", "1"], one);
    let ten = "answers 8 brave 8 ar 6 iar 4 undecided 0\n";
    prints(&rt, alloc, &["bench", "--size", "0010"], ten);
}

#[test]
fn bench_leaves_the_first_bytes_of_its_line(rt: HostRuntime) -> Result<(), Fail> {
    let ended = ended_over(rt.alloc(), &["bench", "--size", "1"], b"", Some(8))?;
    assert!(rt; ended.is(Status::WriteFault, "answers ", "cqapri: write fault\n"));
    Ok(())
}
