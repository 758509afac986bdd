//! Runs `cqapri` over stored examples, and says of each whether its report and its table, or its message, are the stored ones,
//! and whether the report is accepted.
#![tactic(auto)]

mod example;
mod refused;
mod reported;
mod running;
mod stopped;

use cq_io::{FileShelf, StdSink};
use refused::refusal_of;
use reported::report_of;
use std::process::ExitCode;
use stopped::Stopped;

/// The folders of the examples that are answered.
const ANSWERED: [&str; 4] = ["staff", "vessel_register", "registry_merge", "measurements"];

/// The folders of the examples that are refused.
const REFUSED: [&str; 6] = [
    "refusals/bad_line",
    "refusals/bad_width",
    "refusals/bad_token",
    "refusals/head_not_in_body",
    "refusals/no_such_record",
    "refusals/cycle",
];

/// Ends with 0 where each example is as stored, with 1 where one isn't, and with 2 where not all could be run.
fn main(rt: HostRuntime) -> ExitCode {
    ExitCode::from(match are_as_stored(&rt) {
        Ok(true) => 0,
        Ok(false) => 1,
        Err(_) => 2,
    })
}

/// Whether each example is as stored. A line for each is printed.
fn are_as_stored(rt: &HostRuntime) -> Result<bool, Stopped> {
    let are_answered = are_all_answered(rt)?;
    let are_refused = are_all_refused(rt)?;
    Ok(are_answered && are_refused)
}

/// Whether each example that is answered is as stored. A line for each is printed.
fn are_all_answered(rt: &HostRuntime) -> Result<bool, Stopped> {
    let mut are_answered = true;
    for folder in ANSWERED {
        are_answered = is_answered(rt, folder)? && are_answered;
    }
    Ok(are_answered)
}

/// Whether each example that is refused is as stored. A line for each is printed.
fn are_all_refused(rt: &HostRuntime) -> Result<bool, Stopped> {
    let mut are_refused = true;
    for folder in REFUSED {
        are_refused = is_refused(rt, folder)? && are_refused;
    }
    Ok(are_refused)
}

/// Whether the folder's report and its table are the stored ones, and the report is accepted. Its line is printed.
fn is_answered(rt: &HostRuntime, folder: &str) -> Result<bool, Stopped> {
    let mut files = FileShelf::new(rt);
    let reported = report_of(rt.alloc(), &mut files, folder)?;
    reported.tell(rt.alloc(), folder, &mut StdSink::new(rt.stdout()))?;
    Ok(reported.is_as_stored())
}

/// Whether the folder is refused with the stored message. Its line is printed.
fn is_refused(rt: &HostRuntime, folder: &str) -> Result<bool, Stopped> {
    let mut files = FileShelf::new(rt);
    let refused = refusal_of(rt.alloc(), &mut files, folder)?;
    refused.tell(rt.alloc(), folder, &mut StdSink::new(rt.stdout()))?;
    Ok(refused.is_as_stored())
}
