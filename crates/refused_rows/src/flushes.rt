//! How often the output is flushed, and when.

use cq_io::{Failed, MemSink, Sink};
use cqapri_cli::{Status, run};
use memory_runs::{STAFF, put_all, shelf, sink};
use std::alloc::Global;
use std::process::Abort;
use std::test::Fail;

// The words of each job. The report is whole, and breaks the order of lines.
const CLASSIFY: [&str; 7] = [
    "classify",
    "--ontology=o",
    "--facts",
    "f",
    "--query=q",
    "--repairs",
    "all",
];

const CONFIRM: [&str; 5] = [
    "confirm",
    "--ontology=o",
    "--facts=f",
    "--query=q",
    "--report=r",
];

const TABLE: [&str; 2] = ["table", "--report=r"];

const BENCH: [&str; 2] = ["bench", "--size=1"];

const REPORT: &str = r#"{"answers":0,"ar":0,"brave":0,"iar":0,"k":"end","undecided":0}
"#;

/// A sink that counts how often it is flushed and what is written after that, and may fail at a flush.
#[derive(Drop)]
struct Watched {
    bytes: MemSink,
    flushes: u64,
    late_writes: u64,
    fails: bool,
    faults: u64,
}

impl Watched {
    fn new(bytes: MemSink, fails: bool) -> Watched {
        Watched {
            bytes,
            flushes: 0,
            late_writes: 0,
            fails,
            faults: 0,
        }
    }
}

impl Sink for Watched {
    ghost use Rattle.cq_io.specs.MemSink.{SinkState};

    ghost written = { λ sink. ⟦<MemSink as Sink>⟧.written sink.bytes };

    ghost faults = { λ sink. sink.faults };

    fn write_all(&mut self, bytes: &[u8]) -> Result<(), Failed> {
        if self.flushes > 0 {
            self.late_writes = self.late_writes.saturating_add(1);
        }
        let written = self.bytes.write_all(bytes);
        if written.is_err() {
            self.faults = self.faults.saturating_add(1);
        }
        written
    }

    fn flush(&mut self) -> Result<(), Failed> {
        self.flushes = self.flushes.saturating_add(1);
        if self.fails {
            self.faults = self.faults.saturating_add(1);
            return Err(Failed);
        }
        Ok(())
    }
}

/// The end of a run with the words on the files of a row, over a sink that is watched.
fn run_watched(alloc: Global, texts: &[&str], fails: bool) -> Result<(Status, Watched), Fail> {
    let mut words = Vec::new(alloc);
    put_all(&mut words, texts)?;
    let mut files = shelf(alloc, &STAFF)?;
    files.put("r", REPORT.as_bytes())?;
    let mut out = Watched::new(sink(alloc, None)?, fails);
    let mut err = sink(alloc, None)?;
    let status = run(alloc, &words, &mut files, &mut out, &mut err);
    Ok((status, out))
}

/// The run ends with the status, and has flushed once, after its last write.
fn flushes_once(rt: &impl Abort, alloc: Global, texts: &[&str], fails: bool, status: Status) {
    match run_watched(alloc, texts, fails) {
        Ok((ended, out)) => {
            assert_eq!(rt; ended, status);
            assert_eq!(rt; out.flushes, 1);
            assert_eq!(rt; out.late_writes, 0);
        }
        Err(_) => panic!(rt; "no run"),
    }
}

#[test]
fn the_output_is_flushed_once_at_the_end(rt: HostRuntime) {
    let alloc = rt.alloc();
    flushes_once(&rt, alloc, &CLASSIFY, false, Status::Done);
    flushes_once(&rt, alloc, &CONFIRM, false, Status::Open);
    flushes_once(&rt, alloc, &TABLE, false, Status::Done);
    flushes_once(&rt, alloc, &BENCH, false, Status::Done);
}

#[test]
fn a_flush_that_fails_is_a_write_fault(rt: HostRuntime) {
    let alloc = rt.alloc();
    flushes_once(&rt, alloc, &CLASSIFY, true, Status::WriteFault);
    flushes_once(&rt, alloc, &CONFIRM, true, Status::WriteFault);
    flushes_once(&rt, alloc, &TABLE, true, Status::WriteFault);
    flushes_once(&rt, alloc, &BENCH, true, Status::WriteFault);
}
