//! Rows on the lines of reports.

use crate::priorities::{QUOTED, WATCHERS};
use crate::rows::{ALONE, PAIRS};
use memory_runs::{STAFF, Texts, classified};
use std::alloc::Global;
use std::process::Abort;

/// How many lines of the report begin with the text.
fn count_of(report: &[u8], start: &[u8]) -> usize {
    let mut count: usize = 0;
    for line in report.split(|byte| *byte == b'\n') {
        if line.starts_with(start) {
            count = count.saturating_add(1);
        }
    }
    count
}

/// So many lines of the report of `classify` with more words begin with the text.
fn has(
    rt: &impl Abort,
    alloc: Global,
    texts: &Texts<'_>,
    more: &[&str],
    start: &str,
    count: usize,
) {
    match classified(alloc, texts, more) {
        Ok(ended) => {
            let found = count_of(ended.out.written(), start.as_bytes());
            assert!(rt; found == count, "of {start}");
        }
        Err(_) => panic!(rt; "no run"),
    }
}

#[test]
fn the_head_has_what_the_words_set(rt: HostRuntime) {
    let head =
        r#"{"axioms":2,"budget":7,"facts":2,"k":"head","keep":9,"repairs":"all","version":1}"#;
    let more = ["--keep", "9", "--repairs", "all", "--budget", "0007"];
    has(&rt, rt.alloc(), &STAFF, &more, head, 1);
}

#[test]
fn the_head_has_pareto_where_the_words_say_so(rt: HostRuntime) {
    let head =
        r#"{"axioms":2,"budget":20000,"facts":2,"k":"head","keep":20000,"repairs":"pareto","version":1}"#;
    has(&rt, rt.alloc(), &STAFF, &["--repairs", "pareto"], head, 1);
}

#[test]
fn the_head_counts_distinct_facts(rt: HostRuntime) {
    let head = r#"{"axioms":0,"budget":20000,"facts":2,"#;
    has(&rt, rt.alloc(), &QUOTED, &[], head, 1);
}

#[test]
fn a_disjointness_has_a_block_of_its_own(rt: HostRuntime) {
    let alloc = rt.alloc();
    has(
        &rt,
        alloc,
        &ALONE,
        &[],
        r#"{"body":[["c",1,0],["r",0,null,0]],"head":[],"#,
        1,
    );
    has(
        &rt,
        alloc,
        &ALONE,
        &[],
        r#"{"body":[["r",0,null,null]],"head":[],"#,
        1,
    );
    has(
        &rt,
        alloc,
        &ALONE,
        &[],
        r#"{"body":[["c",0,null]],"head":[],"#,
        1,
    );
    has(&rt, alloc, &ALONE, &[], r#"{"body":"#, 4);
}

#[test]
fn a_fact_that_is_inconsistent_alone_is_a_conflict(rt: HostRuntime) {
    let alloc = rt.alloc();
    has(
        &rt,
        alloc,
        &ALONE,
        &[],
        r#"{"facts":[0],"k":"conflict","member":2,"of":2}"#,
        1,
    );
    has(&rt, alloc, &ALONE, &[], r#"{"facts":"#, 1);
}

#[test]
fn one_clause_is_learned_within_a_budget_of_one(rt: HostRuntime) {
    let alloc = rt.alloc();
    has(&rt, alloc, &PAIRS, &["--budget", "1"], r#"{"clause":"#, 1);
    has(&rt, alloc, &PAIRS, &["--budget", "0"], r#"{"clause":"#, 0);
}

/// How many lines of the report have a learned clause and stand behind so many answers.
fn learned_behind(report: &[u8], answers: usize) -> usize {
    let mut count: usize = 0;
    let mut told: usize = 0;
    for line in report.split(|byte| *byte == b'\n') {
        if line.starts_with(b"{\"ar\":") {
            told = told.saturating_add(1);
        }
        if told == answers && line.starts_with(b"{\"clause\":") {
            count = count.saturating_add(1);
        }
    }
    count
}

#[test]
fn a_clause_is_learned_for_the_first_answer_alone(rt: HostRuntime) {
    match classified(rt.alloc(), &WATCHERS, &[]) {
        Ok(ended) => {
            assert!(rt; learned_behind(ended.out.written(), 0) > 0);
            assert!(rt; learned_behind(ended.out.written(), 1) == 0);
        }
        Err(_) => panic!(rt; "no run"),
    }
}
