//! Runs over a shelf and sinks in memory.

use cq_io::{MemShelf, MemSink};
use cq_terms::NoMemory;
use cqapri_cli::{Status, run};
use std::alloc::{AllocError, Global};
use std::test::Fail;

/// The texts of a row: the ontology, the facts, the priority, which isn't named where it is empty, and the query.
#[derive(Clone, Copy, Debug)]
pub struct Texts<'a> {
    /// The text of the axioms.
    pub ontology: &'a str,
    /// The text of the facts.
    pub facts: &'a str,
    /// The text of the priority.
    pub priority: &'a str,
    /// The text of the query.
    pub query: &'a str,
}

/// Whoever is a professor is of the staff, which no student is; and both are one person.
pub const STAFF: Texts<'static> = Texts {
    ontology: "Prof < Staff\nStudent < not Staff\n",
    facts: "Prof,ann\nStudent,ann\n",
    priority: "",
    query: "?x <- Staff(?x)\n",
};

/// What a run has written, and its end.
#[derive(Drop)]
pub struct Ended {
    /// The status.
    pub status: Status,
    /// The output.
    pub out: MemSink,
    /// What `err` got.
    pub err: MemSink,
}

impl Ended {
    /// Whether the run ended with the status, with the texts on `out` and on `err`.
    pub fn is(&self, status: Status, out: &str, err: &str) -> bool {
        self.status == status
            && self.out.written() == out.as_bytes()
            && self.err.written() == err.as_bytes()
    }
}

/// The words of the job on the files of a row, and more.
pub fn words(
    alloc: Global,
    job: &str,
    texts: &Texts<'_>,
    more: &[&str],
) -> Result<Vec<String>, AllocError> {
    let mut words = Vec::new(alloc);
    put_all(&mut words, &[job, "--ontology", "o", "--facts", "f"])?;
    put_all(&mut words, &["--query", "q"])?;
    if !texts.priority.is_empty() {
        put_all(&mut words, &["--priority", "p"])?;
    }
    put_all(&mut words, more)?;
    Ok(words)
}

/// Puts texts behind the words.
pub fn put_all(words: &mut Vec<String>, texts: &[&str]) -> Result<(), AllocError> {
    for text in texts {
        words.push(String::from_str(*words.allocator(), text)?)?;
    }
    Ok(())
}

/// A shelf with the files of a row.
pub fn shelf(alloc: Global, texts: &Texts<'_>) -> Result<MemShelf, NoMemory> {
    let mut shelf = MemShelf::new(alloc);
    shelf.put("o", texts.ontology.as_bytes())?;
    shelf.put("f", texts.facts.as_bytes())?;
    shelf.put("p", texts.priority.as_bytes())?;
    shelf.put("q", texts.query.as_bytes())?;
    Ok(shelf)
}

/// A sink with room for what a row writes.
pub fn sink(alloc: Global, fail_after: Option<u64>) -> Result<MemSink, NoMemory> {
    let mut sink = MemSink::new(alloc, fail_after);
    sink.reserve(100_000)?;
    Ok(sink)
}

/// The end of a run with the words on the shelf.
pub fn end_of(
    alloc: Global,
    words: &[String],
    files: &mut MemShelf,
    fail_after: Option<u64>,
) -> Result<Ended, NoMemory> {
    let mut out = sink(alloc, fail_after)?;
    let mut err = sink(alloc, None)?;
    let status = run(alloc, words, files, &mut out, &mut err);
    Ok(Ended { status, out, err })
}

/// The end of `classify` on the files of a row, with more words.
pub fn classified(alloc: Global, texts: &Texts<'_>, more: &[&str]) -> Result<Ended, Fail> {
    let words = words(alloc, "classify", texts, more)?;
    let mut files = shelf(alloc, texts)?;
    let ended = end_of(alloc, &words, &mut files, None)?;
    Ok(ended)
}

/// The end of `confirm` of the report on the files of a row.
pub fn confirmed(alloc: Global, texts: &Texts<'_>, report: &[u8]) -> Result<Ended, Fail> {
    let words = words(alloc, "confirm", texts, &["--report", "r"])?;
    let mut files = shelf(alloc, texts)?;
    files.put("r", report)?;
    let ended = end_of(alloc, &words, &mut files, None)?;
    Ok(ended)
}

/// The end of a run with these words alone, over a shelf with the report `r`.
pub fn ended_over(
    alloc: Global,
    texts: &[&str],
    report: &[u8],
    fail_after: Option<u64>,
) -> Result<Ended, Fail> {
    let mut words = Vec::new(alloc);
    put_all(&mut words, texts)?;
    let mut files = MemShelf::new(alloc);
    files.put("r", report)?;
    let ended = end_of(alloc, &words, &mut files, fail_after)?;
    Ok(ended)
}

/// The end of `table` of the report.
pub fn tabulated(alloc: Global, report: &[u8]) -> Result<Ended, Fail> {
    ended_over(alloc, &["table", "--report", "r"], report, None)
}
