//! Runs `cqapri` with the words after the program's name, over files and the standard streams.
#![tactic(auto)]

use cq_io::{FileShelf, StdSink};
use cqapri_cli::{Status, run};
use std::io::{BufWriter, ErrorKind};
use std::process::ExitCode;
use std::{env, io};

/// Ends with the number of the status that `run` answers.
fn main(rt: HostRuntime) -> ExitCode {
    ExitCode::from(status(&rt).code())
}

/// Runs the job that the words ask for. Where the words can't be had, it ends with `NoMemory` for want of memory, and
/// with `Words` for any other reason.
fn status(rt: &HostRuntime) -> Status {
    let words = match words(rt) {
        Ok(words) => words,
        Err(error) => return status_of(&error),
    };
    let Ok(buffered) = BufWriter::new(rt.alloc(), rt.stdout()) else {
        return Status::NoMemory;
    };
    let mut files = FileShelf::new(rt);
    let mut out = StdSink::new(buffered);
    let mut err = StdSink::new(rt.stderr());
    run(rt.alloc(), &words, &mut files, &mut out, &mut err)
}

/// The words after the program's name.
fn words(rt: &HostRuntime) -> io::Result<Vec<String>> {
    let mut words = Vec::new(rt.alloc());
    for word in env::args(rt)?.skip(1) {
        words.push(word)?;
    }
    Ok(words)
}

/// The status where the words can't be had.
fn status_of(error: &io::Error) -> Status {
    match error.kind() {
        ErrorKind::OutOfMemory => Status::NoMemory,
        _ => Status::Words,
    }
}
