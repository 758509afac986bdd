//! One run of the program over sinks in memory.

use crate::example::{table_words, words};
use crate::stopped::Stopped;
use cq_io::{MemSink, Shelf};
use cq_terms::NoMemory;
use cqapri_cli::{Status, run};
use std::alloc::Global;

/// The most bytes that a run may write to either sink.
const ROOM: usize = 1_000_000;

/// What a run has written, and its end.
#[derive(Drop)]
pub(crate) struct Ended {
    pub(crate) status: Status,
    pub(crate) out: MemSink,
    pub(crate) err: MemSink,
}

/// The end of `classify` on the folder's files.
pub(crate) fn classified<S: Shelf>(
    alloc: Global,
    files: &mut S,
    folder: &str,
    has_priority: bool,
) -> Result<Ended, Stopped> {
    let words = words(alloc, "classify", folder, has_priority)?;
    let ended = end_of(alloc, &words, files)?;
    Ok(ended)
}

/// The end of `table` of the folder's stored report.
pub(crate) fn tabulated<S: Shelf>(
    alloc: Global,
    files: &mut S,
    folder: &str,
) -> Result<Ended, Stopped> {
    let words = table_words(alloc, folder)?;
    let ended = end_of(alloc, &words, files)?;
    Ok(ended)
}

/// The end of a run with the words over the files.
pub(crate) fn end_of<S: Shelf>(
    alloc: Global,
    words: &[String],
    files: &mut S,
) -> Result<Ended, NoMemory> {
    let mut out = sink(alloc)?;
    let mut err = sink(alloc)?;
    let status = run(alloc, words, files, &mut out, &mut err);
    Ok(Ended { status, out, err })
}

/// An empty sink with room for what a run writes.
fn sink(alloc: Global) -> Result<MemSink, NoMemory> {
    let mut sink = MemSink::new(alloc, None);
    sink.reserve(ROOM)?;
    Ok(sink)
}
