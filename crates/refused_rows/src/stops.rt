//! Files that are missing, and shelves and writes that fail.

use cqapri_cli::Status;
use memory_runs::{Ended, STAFF, Texts, end_of, shelf, words};
use std::alloc::Global;
use std::process::Abort;
use std::test::Fail;

/// The files of a row with a priority.
const PREFERRED: Texts<'static> = Texts {
    priority: "1,2\n",
    ..STAFF
};

/// The end of the job on the files with a priority and more words, where the shelf fails at the call.
fn failed_at(alloc: Global, job: &str, more: &[&str], call: u64) -> Result<Ended, Fail> {
    let words = words(alloc, job, &PREFERRED, more)?;
    let mut files = shelf(alloc, &PREFERRED)?;
    files.put("r", b"")?;
    files.fail_at(call)?;
    let ended = end_of(alloc, &words, &mut files, None)?;
    Ok(ended)
}

/// Where the shelf fails at the call, the job ends with a read fault of this file.
fn is_fault_of(rt: &impl Abort, alloc: Global, job: &str, more: &[&str], call: u64, told: &str) {
    match failed_at(alloc, job, more, call) {
        Ok(ended) => assert!(rt; ended.is(Status::ReadFault, "", told), "of {told}"),
        Err(_) => panic!(rt; "no run"),
    }
}

#[test]
fn classify_names_the_file_that_failed(rt: HostRuntime) {
    let alloc = rt.alloc();
    is_fault_of(
        &rt,
        alloc,
        "classify",
        &[],
        0,
        "cqapri: ontology: read fault\n",
    );
    is_fault_of(
        &rt,
        alloc,
        "classify",
        &[],
        1,
        "cqapri: facts: read fault\n",
    );
    is_fault_of(
        &rt,
        alloc,
        "classify",
        &[],
        2,
        "cqapri: priority: read fault\n",
    );
    is_fault_of(
        &rt,
        alloc,
        "classify",
        &[],
        3,
        "cqapri: query: read fault\n",
    );
}

#[test]
fn confirm_names_the_file_that_failed(rt: HostRuntime) {
    let alloc = rt.alloc();
    let more = ["--report", "r"];
    is_fault_of(
        &rt,
        alloc,
        "confirm",
        &more,
        0,
        "cqapri: ontology: read fault\n",
    );
    is_fault_of(
        &rt,
        alloc,
        "confirm",
        &more,
        1,
        "cqapri: facts: read fault\n",
    );
    is_fault_of(
        &rt,
        alloc,
        "confirm",
        &more,
        2,
        "cqapri: priority: read fault\n",
    );
    is_fault_of(
        &rt,
        alloc,
        "confirm",
        &more,
        3,
        "cqapri: query: read fault\n",
    );
    is_fault_of(
        &rt,
        alloc,
        "confirm",
        &more,
        4,
        "cqapri: report: read fault\n",
    );
}

/// A fault that would come later isn't met where an earlier file is refused.
#[test]
fn the_first_refused_file_comes_before_a_later_fault(rt: HostRuntime) -> Result<(), Fail> {
    let alloc = rt.alloc();
    let texts = Texts {
        ontology: "A <B\n",
        ..PREFERRED
    };
    let words = words(alloc, "classify", &texts, &[])?;
    let mut files = shelf(alloc, &texts)?;
    files.fail_at(1)?;
    let ended = end_of(alloc, &words, &mut files, None)?;
    assert!(rt; ended.is(Status::Refused, "", "cqapri: ontology: line 1: bad line\n"));
    Ok(())
}

/// The end of the job where a file of the shelf is sought under another name.
fn without(alloc: Global, job: &str, option: &str) -> Result<Ended, Fail> {
    let mut words = Vec::new(alloc);
    for text in [
        job,
        "--ontology",
        "o",
        "--facts",
        "f",
        "--query",
        "q",
        "--priority",
        "p",
    ] {
        words.push(String::from_str(alloc, text)?)?;
    }
    if job == "confirm" {
        words.push(String::from_str(alloc, "--report")?)?;
        words.push(String::from_str(alloc, "r")?)?;
    }
    let place = words
        .iter()
        .position(|word| word.as_str() == option)
        .unwrap_or(0);
    if place + 1 < words.len() {
        words[place + 1] = String::from_str(alloc, "missing")?;
    }
    let mut files = shelf(alloc, &PREFERRED)?;
    files.put("r", b"")?;
    let ended = end_of(alloc, &words, &mut files, None)?;
    Ok(ended)
}

/// Where the file of the option isn't there, the job tells so.
fn tells_missing(rt: &impl Abort, alloc: Global, job: &str, option: &str, told: &str) {
    match without(alloc, job, option) {
        Ok(ended) => assert!(rt; ended.is(Status::Refused, "", told), "of {told}"),
        Err(_) => panic!(rt; "no run"),
    }
}

#[test]
fn a_missing_file_is_told(rt: HostRuntime) {
    let alloc = rt.alloc();
    tells_missing(
        &rt,
        alloc,
        "classify",
        "--ontology",
        "cqapri: ontology: not there\n",
    );
    tells_missing(
        &rt,
        alloc,
        "classify",
        "--facts",
        "cqapri: facts: not there\n",
    );
    tells_missing(
        &rt,
        alloc,
        "classify",
        "--priority",
        "cqapri: priority: not there\n",
    );
    tells_missing(
        &rt,
        alloc,
        "classify",
        "--query",
        "cqapri: query: not there\n",
    );
    tells_missing(
        &rt,
        alloc,
        "confirm",
        "--report",
        "cqapri: report: not there\n",
    );
}

#[test]
fn a_write_that_fails_leaves_a_part(rt: HostRuntime) -> Result<(), Fail> {
    let alloc = rt.alloc();
    let words = words(alloc, "classify", &STAFF, &[])?;
    let mut files = shelf(alloc, &STAFF)?;
    let ended = end_of(alloc, &words, &mut files, Some(100))?;
    let part =
        r#"{"axioms":2,"budget":20000,"facts":2,"k":"head","keep":20000,"repairs":"pareto","version":1}
{"body""#;
    assert!(rt; ended.is(Status::WriteFault, part, "cqapri: write fault\n"));
    Ok(())
}

#[test]
fn a_verdict_that_is_not_written_whole_is_a_write_fault(rt: HostRuntime) -> Result<(), Fail> {
    let alloc = rt.alloc();
    let words = words(alloc, "confirm", &STAFF, &["--report", "r"])?;
    let mut files = shelf(alloc, &STAFF)?;
    files.put("r", b"x")?;
    let ended = end_of(alloc, &words, &mut files, Some(15))?;
    assert!(rt;
        ended.is(
            Status::WriteFault,
            "rejected line 1",
            "cqapri: write fault\n"
        )
    );
    Ok(())
}
