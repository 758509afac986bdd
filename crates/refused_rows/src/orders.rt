//! Rows with several faults: which of them is told.

use cqapri_cli::Status;
use memory_runs::{Ended, STAFF, Texts, end_of, shelf, words};
use std::alloc::Global;
use std::process::Abort;
use std::test::Fail;

/// Files each of which has a fault.
const FAULTY: Texts<'static> = Texts {
    ontology: "Prof <Staff\n",
    facts: "Prof\n",
    priority: "1\n",
    query: "?x <- Staff(",
};

/// Files without a fault, whose priority has a cycle.
const IN_A_CYCLE: Texts<'static> = Texts {
    priority: "1,2\n2,1\n",
    ..STAFF
};

/// Limits that the files in a cycle exceed.
const LOW: [&str; 4] = ["--max-conflicts", "0", "--max-supports", "0"];

/// The end of `classify` with more words, where the output fails at its first byte.
fn ended_on(alloc: Global, texts: &Texts<'_>, more: &[&str]) -> Result<Ended, Fail> {
    let words = words(alloc, "classify", texts, more)?;
    let mut files = shelf(alloc, texts)?;
    let ended = end_of(alloc, &words, &mut files, Some(0))?;
    Ok(ended)
}

/// `classify` with more words is refused with the status and the text, before anything is written.
fn tells(
    rt: &impl Abort,
    alloc: Global,
    texts: &Texts<'_>,
    more: &[&str],
    status: Status,
    told: &str,
) {
    match ended_on(alloc, texts, more) {
        Ok(ended) => assert!(rt; ended.is(status, "", told), "of {told}"),
        Err(_) => panic!(rt; "no run"),
    }
}

#[test]
fn the_ontology_comes_before_the_facts(rt: HostRuntime) {
    let told = "cqapri: ontology: line 1: bad line\n";
    tells(&rt, rt.alloc(), &FAULTY, &LOW, Status::Refused, told);
}

#[test]
fn the_facts_come_before_the_priority(rt: HostRuntime) {
    let texts = Texts {
        ontology: STAFF.ontology,
        ..FAULTY
    };
    let told = "cqapri: facts: record 1: bad width\n";
    tells(&rt, rt.alloc(), &texts, &LOW, Status::Refused, told);
}

#[test]
fn the_priority_comes_before_the_query(rt: HostRuntime) {
    let texts = Texts {
        priority: "1\n",
        query: "?x <- Staff(",
        ..STAFF
    };
    let told = "cqapri: priority: record 1: bad width\n";
    tells(&rt, rt.alloc(), &texts, &LOW, Status::Refused, told);
}

#[test]
fn the_query_comes_before_closures_and_cycles(rt: HostRuntime) {
    let texts = Texts {
        query: "?x <- Staff(",
        ..IN_A_CYCLE
    };
    let more = ["--max-cqs", "1"];
    let told = "cqapri: query: byte 12: bad token\n";
    tells(&rt, rt.alloc(), &texts, &more, Status::Refused, told);
}

#[test]
fn closures_come_before_conflicts(rt: HostRuntime) {
    let alloc = rt.alloc();
    let more = ["--max-cqs", "1", "--max-conflicts", "0"];
    let told = "cqapri: limit: closure\n";
    tells(&rt, alloc, &IN_A_CYCLE, &more, Status::Limit, told);
    // The closure of the query has one member, and that of the disjointness two.
    let texts = Texts {
        query: "?x <- Prof(?x)",
        ..IN_A_CYCLE
    };
    tells(&rt, alloc, &texts, &more, Status::Limit, told);
}

#[test]
fn conflicts_come_before_cycles(rt: HostRuntime) {
    let told = "cqapri: limit: conflicts\n";
    tells(&rt, rt.alloc(), &IN_A_CYCLE, &LOW, Status::Limit, told);
}

#[test]
fn cycles_come_before_supports(rt: HostRuntime) {
    let more = ["--max-supports", "0"];
    let told = "cqapri: priority: cycle: Prof(ann), Student(ann)\n";
    tells(&rt, rt.alloc(), &IN_A_CYCLE, &more, Status::Refused, told);
}

#[test]
fn supports_come_before_the_first_line(rt: HostRuntime) {
    let alloc = rt.alloc();
    let more = ["--repairs", "all", "--max-supports", "0"];
    let told = "cqapri: limit: supports\n";
    tells(&rt, alloc, &IN_A_CYCLE, &more, Status::Limit, told);
    let fault = "cqapri: write fault\n";
    let all = ["--repairs", "all"];
    tells(&rt, alloc, &IN_A_CYCLE, &all, Status::WriteFault, fault);
}

#[test]
fn faults_of_a_query_have_their_order(rt: HostRuntime) {
    let alloc = rt.alloc();
    let many = Texts {
        query: "?y ?x ?x <- A(?x),A(?x),A(?x),A(?x),A(?x),A(?x),A(?x),A(?x),A(?x),A(?x),A(?x),A(?x),A(?x)",
        ..STAFF
    };
    let atoms = "cqapri: limit: query atoms\n";
    tells(&rt, alloc, &many, &[], Status::Limit, atoms);
    let repeated = Texts {
        query: "?y ?x ?x <- A(?x)",
        ..STAFF
    };
    let place = "cqapri: query: head place 2: repeated\n";
    tells(&rt, alloc, &repeated, &[], Status::Refused, place);
}

/// The end of `confirm` on the files, with the bytes of a report where there are some.
fn judged(alloc: Global, texts: &Texts<'_>, report: Option<&[u8]>) -> Result<Ended, Fail> {
    let words = words(alloc, "confirm", texts, &["--report", "r"])?;
    let mut files = shelf(alloc, texts)?;
    if let Some(report) = report {
        files.put("r", report)?;
    }
    let ended = end_of(alloc, &words, &mut files, None)?;
    Ok(ended)
}

#[test]
fn the_query_comes_before_the_report(rt: HostRuntime) -> Result<(), Fail> {
    let texts = Texts {
        query: "?x <- Staff(",
        ..STAFF
    };
    let ended = judged(rt.alloc(), &texts, None)?;
    let told = "cqapri: query: byte 12: bad token\n";
    assert!(rt; ended.is(Status::Refused, "", told));
    Ok(())
}

#[test]
fn a_report_that_is_not_there_comes_before_a_cycle(rt: HostRuntime) -> Result<(), Fail> {
    let ended = judged(rt.alloc(), &IN_A_CYCLE, None)?;
    assert!(rt; ended.is(Status::Refused, "", "cqapri: report: not there\n"));
    Ok(())
}

#[test]
fn a_broken_head_comes_before_a_cycle(rt: HostRuntime) -> Result<(), Fail> {
    let ended = judged(rt.alloc(), &IN_A_CYCLE, Some(b"x\n"))?;
    assert!(rt; ended.is(Status::Open, "rejected line 1: text\n", ""));
    Ok(())
}
