//! The table of a report: its records, whole reports alone, and a sink that fails.

use cq_io::MemSink;
use cq_terms::NoMemory;
use std::alloc::Global;
use std::test::Fail;
use verdict_table::{TableFault, write_table};

// A tuple that is brave and neither AR nor IAR, with the evidence.
const REPORT: &str =
    r#"{"axioms":2,"budget":20000,"facts":2,"k":"head","keep":20000,"repairs":"pareto","version":1}
{"body":[["c",1,0]],"head":[0],"k":"cq","move":null,"of":"query","parent":null}
{"body":[["c",0,0]],"head":[0],"k":"cq","move":["axiom",0,0],"of":"query","parent":0}
{"body":[["c",1,0],["c",2,0]],"head":[],"k":"cq","move":null,"of":1,"parent":null}
{"body":[["c",0,0],["c",2,0]],"head":[],"k":"cq","move":["axiom",0,0],"of":1,"parent":0}
{"facts":[0,1],"k":"conflict","member":1,"of":1}
{"candidate":0,"causes":[[0]],"k":"ask","members":[1],"tuple":[0]}
{"assume":[0],"k":"try","q":"brave"}
{"dropped":[1],"k":"core","kept":[0],"n":0}
{"core":0,"how":"model","k":"done"}
{"assume":[1],"k":"try","q":"iar"}
{"dropped":[0],"k":"core","kept":[1],"n":1}
{"core":1,"how":"model","k":"done"}
{"ar":"no","brave":"yes","cores":[0,1],"iar":"no","k":"answer","names":["ann"],"tuple":[0]}
{"answers":1,"ar":0,"brave":1,"iar":0,"k":"end","undecided":0}
"#;

// A report with no candidate.
const NO_ANSWER: &str =
    r#"{"axioms":0,"budget":20000,"facts":0,"k":"head","keep":20000,"repairs":"pareto","version":1}
{"body":[["c",0,0]],"head":[0],"k":"cq","move":null,"of":"query","parent":null}
{"answers":0,"ar":0,"brave":0,"iar":0,"k":"end","undecided":0}
"#;

// Answers alone: with no name, with names that need quotes, with an empty one, and of two individuals.
const ANSWERS: &str =
    r#"{"ar":"yes","brave":"yes","cores":[],"iar":"yes","k":"answer","names":[],"tuple":[]}
{"ar":"undecided","brave":"yes","cores":[],"iar":"no","k":"answer","names":["Lee, Ann","a \"b\"","two\nlines"],"tuple":[0,1,2]}
{"ar":"no","brave":"undecided","cores":[],"iar":"no","k":"answer","names":[""],"tuple":[7]}
{"ar":"no","brave":"no","cores":[],"iar":"undecided","k":"answer","names":["a","é"],"tuple":[0,0]}
{"answers":9,"ar":9,"brave":9,"iar":9,"k":"end","undecided":9}
"#;

const ANSWERS_TABLE: &str = r#"yes,yes,yes
"Lee, Ann","a ""b""","two
lines",yes,undecided,no
,undecided,no,no
a,é,no,no,undecided
"#;

const END: &str = r#"{"answers":0,"ar":0,"brave":0,"iar":0,"k":"end","undecided":0}
"#;

/// The answer over the report, and the sink, which fails after so many bytes where a number is given.
fn table_of(
    alloc: Global,
    report: &[u8],
    fail_after: Option<u64>,
) -> Result<(Result<(), TableFault>, MemSink), NoMemory> {
    let mut out = MemSink::new(alloc, fail_after);
    out.reserve(1000)?;
    let answer = write_table(alloc, report, &mut out);
    Ok((answer, out))
}

/// Whether the report's table is written.
fn is_table(alloc: Global, report: &str, table: &str) -> Result<bool, NoMemory> {
    let (answer, out) = table_of(alloc, report.as_bytes(), None)?;
    Ok(answer.is_ok() && out.written() == table.as_bytes())
}

/// Whether the report is refused at the line, with nothing written.
fn is_bad_at(alloc: Global, report: &[u8], line: u64) -> Result<bool, NoMemory> {
    let (answer, out) = table_of(alloc, report, None)?;
    Ok(answer == Err(TableFault::BadLine { line }) && out.written().is_empty())
}

/// The same for two texts, one behind the other.
fn are_bad_at(alloc: Global, first: &str, second: &str, line: u64) -> Result<bool, NoMemory> {
    let mut report = Vec::from_slice(alloc, first.as_bytes())?;
    report.extend_from_slice(second.as_bytes())?;
    is_bad_at(alloc, report.as_slice(), line)
}

/// Whether a sink that fails after so many bytes gets these of the table.
fn is_cut_at(alloc: Global, report: &str, table: &str, count: usize) -> Result<bool, NoMemory> {
    let (answer, out) = table_of(alloc, report.as_bytes(), Some(count as u64))?;
    let first = table.as_bytes().get(..count);
    Ok(answer == Err(TableFault::Failed) && Some(out.written()) == first)
}

#[test]
fn the_worked_report_has_one_record(rt: HostRuntime) -> Result<(), Fail> {
    let same = is_table(rt.alloc(), REPORT, "ann,yes,no,no\n")?;
    assert!(rt; same);
    Ok(())
}

#[test]
fn a_report_with_no_answer_has_no_record(rt: HostRuntime) -> Result<(), Fail> {
    let same = is_table(rt.alloc(), NO_ANSWER, "")?;
    assert!(rt; same);
    Ok(())
}

#[test]
fn names_are_quoted_as_they_need_and_no_other_rule_is_tried(rt: HostRuntime) -> Result<(), Fail> {
    let same = is_table(rt.alloc(), ANSWERS, ANSWERS_TABLE)?;
    assert!(rt; same);
    Ok(())
}

#[test]
fn an_end_alone_is_a_whole_report(rt: HostRuntime) -> Result<(), Fail> {
    let same = is_table(rt.alloc(), END, "")?;
    assert!(rt; same);
    Ok(())
}

#[test]
fn a_report_without_its_end_is_refused_behind_it(rt: HostRuntime) -> Result<(), Fail> {
    let alloc = rt.alloc();
    let report = NO_ANSWER.as_bytes();
    let end = END.len();
    let refused = report.len() > end && is_bad_at(alloc, &report[..report.len() - end], 3)?;
    assert!(rt; refused);
    Ok(())
}

#[test]
fn an_empty_report_is_refused_at_its_first_line(rt: HostRuntime) -> Result<(), Fail> {
    let refused = is_bad_at(rt.alloc(), b"", 1)?;
    assert!(rt; refused);
    Ok(())
}

#[test]
fn a_line_after_the_end_is_refused(rt: HostRuntime) -> Result<(), Fail> {
    let refused = are_bad_at(rt.alloc(), REPORT, END, 16)?;
    assert!(rt; refused);
    Ok(())
}

#[test]
fn an_empty_line_after_the_end_is_refused(rt: HostRuntime) -> Result<(), Fail> {
    let refused = are_bad_at(rt.alloc(), REPORT, "\n", 16)?;
    assert!(rt; refused);
    Ok(())
}

#[test]
fn an_end_without_a_line_feed_is_refused(rt: HostRuntime) -> Result<(), Fail> {
    let report = NO_ANSWER.as_bytes();
    let refused = is_bad_at(rt.alloc(), &report[..report.len().saturating_sub(1)], 3)?;
    assert!(rt; refused);
    Ok(())
}

#[test]
fn a_blank_before_the_end_is_refused(rt: HostRuntime) -> Result<(), Fail> {
    let refused = are_bad_at(rt.alloc(), " ", END, 1)?;
    assert!(rt; refused);
    Ok(())
}

#[test]
fn an_empty_line_before_the_end_is_refused(rt: HostRuntime) -> Result<(), Fail> {
    let refused = are_bad_at(rt.alloc(), "\n", END, 1)?;
    assert!(rt; refused);
    Ok(())
}

#[test]
fn a_byte_order_mark_is_no_part_of_a_line(rt: HostRuntime) -> Result<(), Fail> {
    let refused = are_bad_at(rt.alloc(), "\u{feff}", REPORT, 1)?;
    assert!(rt; refused);
    Ok(())
}

#[test]
fn a_carriage_return_before_the_line_feed_is_refused(rt: HostRuntime) -> Result<(), Fail> {
    let alloc = rt.alloc();
    let line = END.as_bytes();
    let refused = is_bad_at(alloc, &line[..line.len().saturating_sub(1)], 1)?;
    assert!(rt; refused);
    let end = Vec::from_slice(alloc, &line[..line.len().saturating_sub(1)])?;
    let returned = has_return(end)?;
    assert!(rt; returned);
    Ok(())
}

fn has_return(mut end: Vec<u8>) -> Result<bool, NoMemory> {
    end.extend_from_slice(b"\r\n")?;
    is_bad_at(*end.allocator(), end.as_slice(), 1)
}

#[test]
fn a_deep_nest_is_refused(rt: HostRuntime) -> Result<(), Fail> {
    let alloc = rt.alloc();
    let mut nest = Vec::from_elem(alloc, b'[', 200)?;
    nest.push(b'\n')?;
    let refused = is_bad_at(alloc, nest.as_slice(), 1)?;
    assert!(rt; refused);
    Ok(())
}

#[test]
fn bytes_that_are_no_text_are_refused(rt: HostRuntime) -> Result<(), Fail> {
    let refused = is_bad_at(rt.alloc(), b"\xff\n", 1)?;
    assert!(rt; refused);
    Ok(())
}

#[test]
fn a_sink_that_fails_has_the_first_bytes(rt: HostRuntime) -> Result<(), Fail> {
    for count in 0..ANSWERS_TABLE.len() {
        let cut = is_cut_at(rt.alloc(), ANSWERS, ANSWERS_TABLE, count)?;
        assert!(rt; cut);
    }
    Ok(())
}

#[test]
fn a_sink_that_fails_behind_the_table_has_it_whole(rt: HostRuntime) -> Result<(), Fail> {
    let count = ANSWERS_TABLE.len() as u64;
    let (answer, out) = table_of(rt.alloc(), ANSWERS.as_bytes(), Some(count))?;
    assert!(rt; answer.is_ok());
    assert!(rt; out.written() == ANSWERS_TABLE.as_bytes());
    Ok(())
}
