//! Rows on reports that are confirmed.

use cqapri_cli::Status;
use memory_runs::{STAFF, Texts, confirmed};
use std::alloc::{AllocError, Global};
use std::process::Abort;
use std::test::Fail;

/// The lines of a report on one conflict.
const LINES: [&str; 15] = [
    r#"{"axioms":2,"budget":20000,"facts":2,"k":"head","keep":20000,"repairs":"pareto","version":1}"#,
    r#"{"body":[["c",1,0]],"head":[0],"k":"cq","move":null,"of":"query","parent":null}"#,
    r#"{"body":[["c",0,0]],"head":[0],"k":"cq","move":["axiom",0,0],"of":"query","parent":0}"#,
    r#"{"body":[["c",1,0],["c",2,0]],"head":[],"k":"cq","move":null,"of":1,"parent":null}"#,
    r#"{"body":[["c",0,0],["c",2,0]],"head":[],"k":"cq","move":["axiom",0,0],"of":1,"parent":0}"#,
    r#"{"facts":[0,1],"k":"conflict","member":1,"of":1}"#,
    r#"{"candidate":0,"causes":[[0]],"k":"ask","members":[1],"tuple":[0]}"#,
    r#"{"assume":[0],"k":"try","q":"brave"}"#,
    r#"{"dropped":[1],"k":"core","kept":[0],"n":0}"#,
    r#"{"core":0,"how":"model","k":"done"}"#,
    r#"{"assume":[1],"k":"try","q":"iar"}"#,
    r#"{"dropped":[0],"k":"core","kept":[1],"n":1}"#,
    r#"{"core":1,"how":"model","k":"done"}"#,
    r#"{"ar":"no","brave":"yes","cores":[0,1],"iar":"no","k":"answer","names":["ann"],"tuple":[0]}"#,
    r#"{"answers":1,"ar":0,"brave":1,"iar":0,"k":"end","undecided":0}"#,
];

/// The report, with another text in place of the line of the number, from 1, and its line feed.
fn report_with(alloc: Global, number: usize, other: &str) -> Result<String, AllocError> {
    let mut report = String::new(alloc);
    let mut at = 1;
    for line in LINES {
        if at == number {
            report.push_str(other)?;
        } else {
            report.push_str(line)?;
            report.push_str("\n")?;
        }
        at = at.saturating_add(1);
    }
    Ok(report)
}

/// Whether `confirm` of the report with another text in place of the line tells this on `out`, with the status.
fn is_told(
    alloc: Global,
    number: usize,
    other: &str,
    status: Status,
    told: &str,
) -> Result<bool, Fail> {
    let report = report_with(alloc, number, other)?;
    let ended = confirmed(alloc, &STAFF, report.as_bytes())?;
    Ok(ended.is(status, told, ""))
}

/// `confirm` of the report with another text in place of the line rejects it so.
fn rejects(rt: &impl Abort, alloc: Global, number: usize, other: &str, told: &str) {
    match is_told(alloc, number, other, Status::Open, told) {
        Ok(is_told) => assert!(rt; is_told, "of {told}"),
        Err(_) => panic!(rt; "no run"),
    }
}

#[test]
fn the_report_is_accepted(rt: HostRuntime) -> Result<(), Fail> {
    assert!(rt; is_told(rt.alloc(), 0, "", Status::Done, "accepted 1\n")?);
    Ok(())
}

#[test]
fn a_core_that_drops_too_little_is_rejected(rt: HostRuntime) {
    let core = "{\"dropped\":[],\"k\":\"core\",\"kept\":[0],\"n\":0}\n";
    rejects(&rt, rt.alloc(), 9, core, "rejected line 9: core\n");
}

#[test]
fn a_block_that_lacks_a_query_is_rejected(rt: HostRuntime) {
    rejects(&rt, rt.alloc(), 3, "", "rejected line 3: closed\n");
}

#[test]
fn a_false_verdict_is_rejected(rt: HostRuntime) {
    let answer =
        "{\"ar\":\"yes\",\"brave\":\"yes\",\"cores\":[0,1],\"iar\":\"no\",\"k\":\"answer\",\"names\":[\"ann\"],\"tuple\":[0]}\n";
    rejects(&rt, rt.alloc(), 14, answer, "rejected line 14: answer\n");
}

#[test]
fn a_report_without_its_end_is_rejected(rt: HostRuntime) {
    let alloc = rt.alloc();
    rejects(&rt, alloc, 15, "", "rejected line 15: missing\n");
    rejects(&rt, alloc, 15, LINES[14], "rejected line 15: text\n");
}

#[test]
fn a_blank_too_many_is_rejected(rt: HostRuntime) {
    let head =
        "{\"axioms\":2, \"budget\":20000,\"facts\":2,\"k\":\"head\",\"keep\":20000,\"repairs\":\"pareto\",\"version\":1}\n";
    rejects(&rt, rt.alloc(), 1, head, "rejected line 1: text\n");
}

#[test]
fn a_mark_before_the_head_is_rejected(rt: HostRuntime) {
    let head =
        "\u{FEFF}{\"axioms\":2,\"budget\":20000,\"facts\":2,\"k\":\"head\",\"keep\":20000,\"repairs\":\"pareto\",\"version\":1}\n";
    rejects(&rt, rt.alloc(), 1, head, "rejected line 1: text\n");
}

#[test]
fn an_empty_report_is_rejected(rt: HostRuntime) -> Result<(), Fail> {
    let ended = confirmed(rt.alloc(), &STAFF, b"")?;
    assert!(rt; ended.is(Status::Open, "rejected line 1: missing\n", ""));
    Ok(())
}

#[test]
fn a_report_on_other_pairs_is_judged_by_the_cycle(rt: HostRuntime) -> Result<(), Fail> {
    let alloc = rt.alloc();
    let texts = Texts {
        priority: "1,2\n2,1\n",
        ..STAFF
    };
    let report = report_with(alloc, 0, "")?;
    let ended = confirmed(alloc, &texts, report.as_bytes())?;
    let cycle = "cqapri: priority: cycle: Prof(ann), Student(ann)\n";
    assert!(rt; ended.is(Status::Refused, "", cycle));
    Ok(())
}
