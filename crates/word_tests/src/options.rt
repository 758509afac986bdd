//! Options as `clap` reads them, the ranges of their values, and the jobs with what their words name.

use cqapri_words::{Job, Refusal, job_of};
use std::alloc::Global;
use std::process::Abort;
use std::test::Fail;

/// The texts as words.
fn words_of(alloc: Global, texts: &[&str]) -> Result<Vec<String>, Fail> {
    let mut words = Vec::new(alloc);
    for text in texts {
        words.push(String::from_str(alloc, text)?)?;
    }
    Ok(words)
}

/// Whether the words are refused.
fn are_refused(alloc: Global, texts: &[&str]) -> Result<bool, Fail> {
    let words = words_of(alloc, texts)?;
    Ok(matches!(job_of(alloc, words.as_slice()), Err(Refusal::Words)))
}

/// The words are refused.
fn refuses(rt: &impl Abort, alloc: Global, texts: &[&str]) {
    match are_refused(alloc, texts) {
        Ok(are_refused) => assert!(rt; are_refused, "of {texts:?}"),
        Err(_) => panic!(rt; "no words"),
    }
}

/// Whether the words ask to classify over files of these names.
fn are_named(alloc: Global, texts: &[&str], names: &[&str; 3]) -> Result<bool, Fail> {
    let words = words_of(alloc, texts)?;
    Ok(match job_of(alloc, words.as_slice()) {
        Ok(Job::Classify(paths, _)) => {
            paths.ontology == names[0] && paths.facts == names[1] && paths.query == names[2]
        }
        _ => false,
    })
}

/// The words ask to classify over files of these names.
fn classifies(rt: &impl Abort, alloc: Global, texts: &[&str], names: &[&str; 3]) {
    match are_named(alloc, texts, names) {
        Ok(are_named) => assert!(rt; are_named, "of {texts:?}"),
        Err(_) => panic!(rt; "no words"),
    }
}

/// The report of which the words ask for the table, or the size of which they ask for a run.
fn asked(alloc: Global, texts: &[&str]) -> Result<(bool, u32), Fail> {
    let words = words_of(alloc, texts)?;
    Ok(match job_of(alloc, words.as_slice()) {
        Ok(Job::Table(report)) => (report == "r", 0),
        Ok(Job::Bench(size)) => (false, size),
        _ => (false, 0),
    })
}

#[test]
fn values_stand_behind_their_options_or_joined(rt: HostRuntime) {
    let alloc = rt.alloc();
    let names = ["o", "f", "q"];
    let apart = [
        "classify",
        "--facts",
        "f",
        "--query",
        "q",
        "--ontology",
        "o",
    ];
    classifies(&rt, alloc, &apart, &names);
    let joined = ["classify", "--ontology=o", "--query=q", "--facts=f"];
    classifies(&rt, alloc, &joined, &names);
    let mixed = [
        "classify",
        "--ontology=o",
        "--query",
        "q",
        "--facts=f",
        "--",
    ];
    classifies(&rt, alloc, &mixed, &names);
}

#[test]
fn a_file_may_have_any_name(rt: HostRuntime) {
    let alloc = rt.alloc();
    let texts = ["classify", "--ontology=", "--query=-q", "--facts=a=b"];
    classifies(&rt, alloc, &texts, &["", "a=b", "-q"]);
    let texts = ["classify", "--ontology", "", "--query", "-", "--facts", "f"];
    classifies(&rt, alloc, &texts, &["", "f", "-"]);
}

#[test]
fn other_jobs_are_refused(rt: HostRuntime) {
    let alloc = rt.alloc();
    refuses(&rt, alloc, &[]);
    refuses(&rt, alloc, &["clasify"]);
    refuses(&rt, alloc, &["--report=r"]);
    refuses(&rt, alloc, &["help"]);
}

#[test]
fn other_options_are_refused(rt: HostRuntime) {
    let alloc = rt.alloc();
    refuses(&rt, alloc, &["table", "--report=r", "--report=r"]);
    refuses(&rt, alloc, &["table", "--rep=r"]);
    refuses(&rt, alloc, &["table", "-r", "r"]);
    refuses(&rt, alloc, &["table", "--report=r", "--help"]);
    refuses(&rt, alloc, &["table", "--report=r", "--version"]);
    refuses(&rt, alloc, &["table", "--report=r", "--size=1"]);
    refuses(&rt, alloc, &["table", "--report"]);
    refuses(&rt, alloc, &["table", "--report", "-r"]);
    refuses(&rt, alloc, &["table", "--report=r", "more"]);
    refuses(&rt, alloc, &["table", "--report=r", "--", "more"]);
    refuses(&rt, alloc, &["table"]);
}

#[test]
fn sizes_are_in_range(rt: HostRuntime) -> Result<(), Fail> {
    let alloc = rt.alloc();
    refuses(&rt, alloc, &["bench", "--size=0"]);
    refuses(&rt, alloc, &["bench", "--size=20001"]);
    refuses(&rt, alloc, &["bench", "--size=+1"]);
    refuses(&rt, alloc, &["bench", "--size="]);
    let (_, size) = asked(alloc, &["bench", "--size", "020000"])?;
    assert_eq!(rt; size, 20_000);
    Ok(())
}

#[test]
fn a_table_is_that_of_its_report(rt: HostRuntime) -> Result<(), Fail> {
    let (is_of_it, _) = asked(rt.alloc(), &["table", "--report", "r"])?;
    assert!(rt; is_of_it);
    Ok(())
}
