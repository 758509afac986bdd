//! Runs of the jobs on the texts of an input.

use crate::texts::Texts;
use cq_io::{MemShelf, MemSink};
use cq_terms::NoMemory;
use cqapri_cli::{Status, run};
use plain_chase::Mode;
use std::alloc::{AllocError, Global};
use std::test::Fail;

/// What a run has written, and its end.
#[derive(Drop)]
pub(crate) struct Ended {
    pub(crate) status: Status,
    pub(crate) out: MemSink,
    pub(crate) err: MemSink,
}

/// Puts texts behind the words.
fn put_words(words: &mut Vec<String>, texts: &[&str]) -> Result<(), AllocError> {
    for text in texts {
        words.push(String::from_str(*words.allocator(), text)?)?;
    }
    Ok(())
}

/// The words of the job on all files, and more.
fn words(alloc: Global, job: &str, more: &[&str]) -> Result<Vec<String>, AllocError> {
    let mut words = Vec::new(alloc);
    put_words(&mut words, &[job, "--ontology", "o", "--facts", "f"])?;
    put_words(&mut words, &["--query", "q", "--priority", "p"])?;
    put_words(&mut words, more)?;
    Ok(words)
}

/// A shelf with the texts and a report.
fn shelf(alloc: Global, texts: &Texts, report: &[u8]) -> Result<MemShelf, NoMemory> {
    let mut shelf = MemShelf::new(alloc);
    shelf.put("o", texts.ontology.as_bytes())?;
    shelf.put("f", texts.facts.as_bytes())?;
    shelf.put("p", texts.priority.as_bytes())?;
    shelf.put("q", texts.query.as_bytes())?;
    shelf.put("r", report)?;
    Ok(shelf)
}

/// A sink with room for a report.
fn sink(alloc: Global) -> Result<MemSink, NoMemory> {
    let mut sink = MemSink::new(alloc, None);
    sink.reserve(1_000_000)?;
    Ok(sink)
}

/// The end of a run with the words on the shelf.
fn end_of(alloc: Global, words: &[String], files: &mut MemShelf) -> Result<Ended, NoMemory> {
    let mut out = sink(alloc)?;
    let mut err = sink(alloc)?;
    let status = run(alloc, words, files, &mut out, &mut err);
    Ok(Ended { status, out, err })
}

/// The word for the mode.
fn mode_word(mode: Mode) -> &'static str {
    match mode {
        Mode::All => "all",
        Mode::Pareto => "pareto",
    }
}

/// The end of `classify` on the texts.
pub(crate) fn classified(alloc: Global, texts: &Texts, mode: Mode) -> Result<Ended, Fail> {
    let words = words(alloc, "classify", &["--repairs", mode_word(mode)])?;
    let mut files = shelf(alloc, texts, b"")?;
    Ok(end_of(alloc, &words, &mut files)?)
}

/// The end of `confirm` of the report on the texts.
pub(crate) fn confirmed(alloc: Global, texts: &Texts, report: &[u8]) -> Result<Ended, Fail> {
    let words = words(alloc, "confirm", &["--report", "r"])?;
    let mut files = shelf(alloc, texts, report)?;
    Ok(end_of(alloc, &words, &mut files)?)
}
