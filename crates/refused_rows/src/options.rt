//! Words and options.

use crate::tables::decides;
use cqapri_cli::Status;
use memory_runs::{STAFF, Texts, classified, end_of, put_all, shelf};
use std::alloc::Global;
use std::process::Abort;
use std::test::Fail;

/// Whether a run with the words is refused for them. The first fetch would fail, so none was made.
fn are_refused(alloc: Global, texts: &[&str]) -> Result<bool, Fail> {
    let mut words = Vec::new(alloc);
    put_all(&mut words, texts)?;
    let mut files = shelf(alloc, &STAFF)?;
    files.fail_at(0)?;
    let ended = end_of(alloc, &words, &mut files, None)?;
    Ok(ended.is(Status::Words, "", "cqapri: words\n"))
}

/// A run with the words is refused for them.
fn refuses(rt: &impl Abort, alloc: Global, texts: &[&str]) {
    match are_refused(alloc, texts) {
        Ok(are_refused) => assert!(rt; are_refused, "of {texts:?}"),
        Err(_) => panic!(rt; "no run"),
    }
}

/// `classify` on the files of a row with more words is refused for them.
fn refuses_more(rt: &impl Abort, alloc: Global, more: &[&str]) {
    match classified(alloc, &STAFF, more) {
        Ok(ended) => assert!(rt;
            ended.is(Status::Words, "", "cqapri: words\n"),
            "of {more:?}"
        ),
        Err(_) => panic!(rt; "no run"),
    }
}

#[test]
fn other_words_are_refused(rt: HostRuntime) {
    let alloc = rt.alloc();
    refuses(&rt, alloc, &[]);
    refuses(&rt, alloc, &["clasify"]);
    refuses(&rt, alloc, &["classify", "--ontology", "o", "--facts", "f"]);
    refuses(&rt, alloc, &["confirm", "--ontology", "o", "--facts", "f"]);
}

#[test]
fn options_are_given_once_and_whole(rt: HostRuntime) {
    let alloc = rt.alloc();
    refuses_more(&rt, alloc, &["--ontology", "o"]);
    refuses_more(&rt, alloc, &["--budget"]);
    refuses_more(&rt, alloc, &["--budget", ""]);
    refuses_more(&rt, alloc, &["--priority", "-p"]);
    refuses_more(&rt, alloc, &["--report", "r"]);
    refuses_more(&rt, alloc, &["--help", "me"]);
    refuses_more(&rt, alloc, &["--help"]);
    refuses_more(&rt, alloc, &["more"]);
}

#[test]
fn confirm_takes_no_options_of_classify(rt: HostRuntime) {
    let alloc = rt.alloc();
    let files = [
        "confirm",
        "--ontology",
        "o",
        "--facts",
        "f",
        "--query",
        "q",
        "--report",
        "r",
        "--repairs",
        "all",
    ];
    refuses(&rt, alloc, &files);
}

/// The status of a run with the words.
fn status_after(alloc: Global, texts: &[&str]) -> Result<Status, Fail> {
    let mut words = Vec::new(alloc);
    put_all(&mut words, texts)?;
    let mut files = shelf(alloc, &STAFF)?;
    let ended = end_of(alloc, &words, &mut files, None)?;
    Ok(ended.status)
}

#[test]
fn options_come_in_any_order(rt: HostRuntime) -> Result<(), Fail> {
    let texts = [
        "classify",
        "--keep",
        "0",
        "--query",
        "q",
        "--facts",
        "f",
        "--budget",
        "0",
        "--ontology",
        "o",
    ];
    assert_eq!(rt; status_after(rt.alloc(), &texts)?, Status::Done);
    Ok(())
}

#[test]
fn values_are_in_their_ranges(rt: HostRuntime) {
    let alloc = rt.alloc();
    refuses_more(&rt, alloc, &["--budget", "-1"]);
    refuses_more(&rt, alloc, &["--budget", "10000001"]);
    refuses_more(&rt, alloc, &["--budget", "+1"]);
    refuses_more(&rt, alloc, &["--keep", "1 "]);
    refuses_more(&rt, alloc, &["--keep", "10000001"]);
    refuses_more(&rt, alloc, &["--repairs", "All"]);
}

#[test]
fn limits_are_in_their_ranges(rt: HostRuntime) {
    let alloc = rt.alloc();
    refuses_more(&rt, alloc, &["--max-cqs", "100001"]);
    refuses_more(&rt, alloc, &["--max-conflicts", "2000001"]);
    refuses_more(&rt, alloc, &["--max-cqs", "0"]);
    refuses_more(&rt, alloc, &["--max-supports", "1000001"]);
    refuses_more(&rt, alloc, &["--max-conflicts", "99999999999999999999999"]);
    refuses_more(&rt, alloc, &["--repairs", "some"]);
}

#[test]
fn the_ends_of_the_ranges_are_taken(rt: HostRuntime) {
    let alloc = rt.alloc();
    let table = "ann,yes,no,no\n";
    decides(&rt, alloc, &STAFF, &["--budget", "010000000"], table);
    decides(&rt, alloc, &STAFF, &["--keep", "0"], table);
    decides(&rt, alloc, &STAFF, &["--keep", "10000000"], table);
}

#[test]
fn the_ends_of_the_ranges_of_limits_are_taken(rt: HostRuntime) {
    let alloc = rt.alloc();
    let table = "ann,yes,no,no\n";
    let single = Texts {
        ontology: "",
        query: "?x <- Staff(?x)",
        ..STAFF
    };
    decides(&rt, alloc, &single, &["--max-cqs", "1"], "");
    decides(&rt, alloc, &single, &["--max-supports", "0"], "");
    decides(&rt, alloc, &single, &["--max-conflicts", "0"], "");
    decides(&rt, alloc, &STAFF, &["--max-cqs", "100000"], table);
    decides(&rt, alloc, &STAFF, &["--max-supports", "1000000"], table);
    decides(&rt, alloc, &STAFF, &["--max-conflicts", "2000000"], table);
}

/// `classify` with more words ends beyond the limit.
fn is_beyond(rt: &impl Abort, alloc: Global, texts: &Texts<'_>, more: &[&str], told: &str) {
    match classified(alloc, texts, more) {
        Ok(ended) => assert!(rt; ended.is(Status::Limit, "", told), "of {more:?}"),
        Err(_) => panic!(rt; "no run"),
    }
}

#[test]
fn one_query_more_than_the_limit_is_refused(rt: HostRuntime) {
    let alloc = rt.alloc();
    let texts = Texts {
        ontology: "A1 < A\nA2 < A\nA3 < A\n",
        facts: "A2,a\n",
        priority: "",
        query: "?x <- A(?x)\n",
    };
    decides(&rt, alloc, &texts, &["--max-cqs", "4"], "a,yes,yes,yes\n");
    let closure = "cqapri: limit: closure\n";
    is_beyond(&rt, alloc, &texts, &["--max-cqs", "3"], closure);
}

#[test]
fn one_conflict_or_support_more_than_the_limit_is_refused(rt: HostRuntime) {
    let alloc = rt.alloc();
    let table = "ann,yes,no,no\n";
    decides(&rt, alloc, &STAFF, &["--max-conflicts", "1"], table);
    let conflicts = "cqapri: limit: conflicts\n";
    is_beyond(&rt, alloc, &STAFF, &["--max-conflicts", "0"], conflicts);
    decides(&rt, alloc, &STAFF, &["--max-supports", "1"], table);
    let supports = "cqapri: limit: supports\n";
    is_beyond(&rt, alloc, &STAFF, &["--max-supports", "0"], supports);
}
