//! Rows that are refused.

use crate::tables::decides;
use cq_io::MemShelf;
use cqapri_cli::Status;
use memory_runs::{Texts, classified, end_of, shelf, words};
use std::alloc::{AllocError, Global};
use std::process::Abort;
use std::test::Fail;

const ONTOLOGY: &str = "A < B\n";

const FACTS: &str = "A,a\nA,b\n";

const QUERY: &str = "?x <- B(?x)\n";

/// The files of a row that is right.
const RIGHT: Texts<'static> = Texts {
    ontology: ONTOLOGY,
    facts: FACTS,
    priority: "",
    query: QUERY,
};

/// A run on the three files is refused with the status and the text.
fn tells(rt: &impl Abort, alloc: Global, texts: [&str; 3], status: Status, text: &str) {
    match is_told(alloc, texts, status, text) {
        Ok(is_told) => assert!(rt; is_told, "of {text}"),
        Err(_) => panic!(rt; "no run"),
    }
}

/// A run on the ontology is refused for its line.
fn bad_line(rt: &impl Abort, alloc: Global, ontology: &str, line: u32) {
    match format!(in alloc; "cqapri: ontology: line {line}: bad line\n") {
        Ok(text) => tells(rt, alloc, [ontology, FACTS, QUERY], Status::Refused, &text),
        Err(_) => panic!(rt; "no text"),
    }
}

#[test]
fn the_first_bad_line_is_told(rt: HostRuntime) {
    let alloc = rt.alloc();
    bad_line(&rt, alloc, "A < B\nA < < B\nsome < B\n", 2);
    bad_line(&rt, alloc, "A <B\n", 1);
    bad_line(&rt, alloc, "A < B # c\n", 1);
    bad_line(&rt, alloc, "\n# c\nA < some\n", 3);
    bad_line(&rt, alloc, "not < A\n", 1);
    bad_line(&rt, alloc, "A < not role\n", 1);
    bad_line(&rt, alloc, "role inv inv < P\n", 1);
    bad_line(&rt, alloc, "func P\n", 1);
    bad_line(&rt, alloc, "A < B\n\u{FEFF}A < B\n", 2);
}

/// A run on the facts is refused for a record.
fn bad_record(rt: &impl Abort, alloc: Global, facts: &str, fault: &str) {
    match format!(in alloc; "cqapri: facts: record {fault}\n") {
        Ok(text) => tells(rt, alloc, [ONTOLOGY, facts, QUERY], Status::Refused, &text),
        Err(_) => panic!(rt; "no text"),
    }
}

#[test]
fn the_first_faulty_record_is_told(rt: HostRuntime) {
    let alloc = rt.alloc();
    bad_record(&rt, alloc, "A,a\nA\nA,\n", "2: bad width");
    bad_record(&rt, alloc, "A,a\nA,\n", "2: empty field");
    bad_record(&rt, alloc, "A,\"a\nb\"\nB\n", "2: bad width");
    bad_record(&rt, alloc, "A,a,b,c\n", "1: bad width");
}

/// A run on the query is refused for its fault.
fn bad_query(rt: &impl Abort, alloc: Global, query: &str, fault: &str) {
    match format!(in alloc; "cqapri: query: {fault}\n") {
        Ok(text) => tells(rt, alloc, [ONTOLOGY, FACTS, query], Status::Refused, &text),
        Err(_) => panic!(rt; "no text"),
    }
}

#[test]
fn the_first_fault_of_a_query_is_told(rt: HostRuntime) {
    let alloc = rt.alloc();
    bad_query(&rt, alloc, "?x <- A(?x\n", "byte 11: bad token");
    bad_query(&rt, alloc, "?x <", "byte 4: bad token");
    bad_query(&rt, alloc, "?x < A(?x)", "byte 3: bad token");
    bad_query(&rt, alloc, "<- some(?x)", "byte 3: bad token");
    bad_query(&rt, alloc, "<- A('a", "byte 7: bad token");
    bad_query(&rt, alloc, "<- A(?x) B", "byte 9: bad token");
    bad_query(&rt, alloc, " \r\n", "byte 3: bad token");
    bad_query(&rt, alloc, "", "byte 0: bad token");
}

#[test]
fn the_first_faulty_head_place_is_told(rt: HostRuntime) {
    let alloc = rt.alloc();
    bad_query(&rt, alloc, "?x ?x <- A(?x)", "head place 1: repeated");
    bad_query(&rt, alloc, "?y <- A(?x)", "head place 0: not in body");
}

#[test]
fn a_query_of_an_atom_too_many_is_beyond_its_limit(rt: HostRuntime) {
    let query = "<- A(?x),A(?x),A(?x),A(?x),A(?x),A(?x),A(?x),A(?x),A(?x),A(?x),A(?x),A(?x),A(?x)";
    let text = "cqapri: limit: query atoms\n";
    tells(
        &rt,
        rt.alloc(),
        [ONTOLOGY, FACTS, query],
        Status::Limit,
        text,
    );
}

#[test]
fn a_query_of_as_many_atoms_as_its_limit_is_answered(rt: HostRuntime) {
    let texts = Texts {
        query: "<- A(?x),A(?x),A(?x),A(?x),A(?x),A(?x),A(?x),A(?x),A(?x),A(?x),A(?x),A(?x)",
        ..RIGHT
    };
    decides(&rt, rt.alloc(), &texts, &[], "yes,yes,yes\n");
}

/// A run where other bytes stand under the name ends with the status and the text.
fn ends_on(rt: &impl Abort, alloc: Global, name: &str, bytes: &[u8], status: Status, text: &str) {
    match is_told_on(alloc, name, bytes, status, text) {
        Ok(is_told) => assert!(rt; is_told, "of {text}"),
        Err(_) => panic!(rt; "no run"),
    }
}

fn is_told_on(
    alloc: Global,
    name: &str,
    bytes: &[u8],
    status: Status,
    text: &str,
) -> Result<bool, Fail> {
    let mut files = shelf(alloc, &RIGHT)?;
    files.put(name, bytes)?;
    ends_with(alloc, &mut files, status, text)
}

#[test]
fn bytes_that_are_no_text_are_told(rt: HostRuntime) {
    let alloc = rt.alloc();
    let refused = Status::Refused;
    let line = "cqapri: ontology: line 2: not UTF-8\n";
    ends_on(&rt, alloc, "o", b"A < B\nA < \xFF\n", refused, line);
    let record = "cqapri: facts: record 2: not UTF-8\n";
    ends_on(&rt, alloc, "f", b"A,a\nA,\xFF\n", refused, record);
    let width = "cqapri: facts: record 1: bad width\n";
    ends_on(&rt, alloc, "f", b"\xFF\n", refused, width);
    let token = "cqapri: query: byte 5: bad token\n";
    ends_on(&rt, alloc, "q", b"<- A(\xFF)", refused, token);
}

/// A run where the line stands under the name as often as that is beyond the limit.
fn is_too_much(rt: &impl Abort, alloc: Global, name: &str, line: &[u8], count: usize, limit: &str) {
    match is_beyond(alloc, name, line, count, limit) {
        Ok(is_beyond) => assert!(rt; is_beyond, "of {limit}"),
        Err(_) => panic!(rt; "no run"),
    }
}

fn is_beyond(
    alloc: Global,
    name: &str,
    line: &[u8],
    count: usize,
    limit: &str,
) -> Result<bool, Fail> {
    let bytes = repeated(alloc, line, count)?;
    let text = format!(in alloc; "cqapri: limit: {limit}\n")?;
    is_told_on(alloc, name, &bytes, Status::Limit, &text)
}

#[test]
fn one_more_than_a_limit_is_refused(rt: HostRuntime) {
    let alloc = rt.alloc();
    is_too_much(&rt, alloc, "o", b"A < B\n", 20_001, "axioms");
    is_too_much(&rt, alloc, "f", b"A,a\n", 200_001, "records");
    is_too_much(&rt, alloc, "p", b"1,2\n", 400_001, "pairs");
    is_too_much(&rt, alloc, "q", b" ", 65_537, "query length");
}

#[test]
fn as_many_as_a_limit_are_answered(rt: HostRuntime) -> Result<(), Fail> {
    let alloc = rt.alloc();
    let mut files = shelf(alloc, &RIGHT)?;
    files.put("o", &repeated(alloc, b"A < B\n", 20_000)?)?;
    files.put("f", &repeated(alloc, b"A,a\n", 200_000)?)?;
    let words = words(alloc, "classify", &RIGHT, &[])?;
    let ended = end_of(alloc, &words, &mut files, None)?;
    assert_eq!(rt; ended.status, Status::Done);
    assert!(rt; ended.err.written().is_empty());
    Ok(())
}

/// The line as often as that.
fn repeated(alloc: Global, line: &[u8], count: usize) -> Result<Vec<u8>, AllocError> {
    let mut text = Vec::new(alloc);
    for _ in 0..count {
        text.extend_from_slice(line)?;
    }
    Ok(text)
}

/// Whether a run on the three files ends with the status, and with the text on `err` and nothing on `out`.
fn is_told(alloc: Global, texts: [&str; 3], status: Status, told: &str) -> Result<bool, Fail> {
    let [ontology, facts, query] = texts;
    let texts = Texts {
        ontology,
        facts,
        priority: "",
        query,
    };
    let ended = classified(alloc, &texts, &[])?;
    Ok(ended.is(status, "", told))
}

/// Whether a run on the shelf ends with the status, and with the text on `err` and nothing on `out`.
fn ends_with(
    alloc: Global,
    files: &mut MemShelf,
    status: Status,
    told: &str,
) -> Result<bool, Fail> {
    let words = words(alloc, "classify", &RIGHT, &["--priority", "p"])?;
    let ended = end_of(alloc, &words, files, None)?;
    Ok(ended.is(status, "", told))
}

/// Whether a run where so many line feeds stand under the name is beyond the limit.
fn is_too_long(alloc: Global, name: &str, count: usize, told: &str) -> Result<bool, Fail> {
    let bytes = vec![in alloc; b'\n'; count]?;
    let mut files = shelf(alloc, &RIGHT)?;
    files.put(name, &bytes)?;
    ends_with(alloc, &mut files, Status::Limit, told)
}

#[test]
fn an_ontology_of_a_byte_too_many_is_beyond_its_limit(rt: HostRuntime) -> Result<(), Fail> {
    let told = "cqapri: limit: ontology length\n";
    assert!(rt; is_too_long(rt.alloc(), "o", 16_777_217, told)?);
    Ok(())
}

#[test]
fn a_priority_of_a_byte_too_many_is_beyond_its_limit(rt: HostRuntime) -> Result<(), Fail> {
    let told = "cqapri: limit: priority length\n";
    assert!(rt; is_too_long(rt.alloc(), "p", 16_777_217, told)?);
    Ok(())
}

/// A run on the priority beside right files is refused so.
fn bad_pair(rt: &impl Abort, alloc: Global, priority: &str, fault: &str) {
    match is_bad_pair(alloc, priority, fault) {
        Ok(is_bad) => assert!(rt; is_bad, "of {fault}"),
        Err(_) => panic!(rt; "no run"),
    }
}

fn is_bad_pair(alloc: Global, priority: &str, fault: &str) -> Result<bool, Fail> {
    let texts = Texts { priority, ..RIGHT };
    let told = format!(in alloc; "cqapri: priority: record {fault}\n")?;
    let ended = classified(alloc, &texts, &[])?;
    Ok(ended.is(Status::Refused, "", &told))
}

#[test]
fn the_first_faulty_pair_is_told(rt: HostRuntime) {
    let alloc = rt.alloc();
    bad_pair(&rt, alloc, "1,x\n", "1: bad number");
    bad_pair(&rt, alloc, "1,3\n", "1: no such record");
    bad_pair(&rt, alloc, "1,2\n1\n", "2: bad width");
}
