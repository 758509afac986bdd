//! The job that the words ask for.

ghost use Rattle.std.specs.Prelude.{◌≡◌, Err, map, string_bytes, IfOk, IfErr};
ghost use Rattle.cq_io.specs.Faults.{TellsFault};
ghost use Rattle.cqapri_words.specs.Jobs.{HasRange, request_of};
ghost use Rattle.cqapri_words.specs.Requests.{NameNoJob};
ghost use Rattle.input_files.specs.Fetching.{is_read_fault};
ghost use Rattle.cqapri_cli.specs.Ends.{IsEnd, is_write_fault};
ghost use Rattle.cqapri_cli.specs.Jobs.{Achieves, IsAchieved, IsRefused, Leaves, Stops};

use crate::bench_job::bench;
use crate::classify_job::classify;
use crate::confirm_job::confirm_report;
use crate::table_job::tabulate;
use cq_io::{Shelf, Sink};
use cqapri_words::{Job, Refusal, Status, job_of};
use std::alloc::Global;

/// Runs the job that the words ask for.
pub(crate) fn run_words<S: Shelf, O: Sink>(
    alloc: Global,
    words: &[String],
    files: &mut S,
    out: &mut O,
) -> Result<Status, Refusal>
    ensures ended { IfOk result IsEnd }
    ensures achieved { IfOk result (IsAchieved (S.holds files.old) (S.failing files.old) (map string_bytes words.now)
        (O.written out.old) (O.written out.new)) }
    ensures refused { IfErr result (IsRefused (S.holds files.old) (S.failing files.old) (map string_bytes words.now)
        (O.written out.old) (O.written out.new)) }
    ensures no_such_job { NameNoJob (map string_bytes words.now) → result ≡ Err Refusal.Words }

    ensures read_fault { TellsFault (S.faults files.old) (S.faults files.new) (is_read_fault result) }
    ensures write_fault { TellsFault (O.faults out.old) (O.faults out.new) (is_write_fault result) }
    ensures same_files { S.holds files.new ≡ S.holds files.old }
{
    let job = job_of(alloc, words)?;
    run_job(alloc, &job, files, out)
}

/// Runs the job.
fn run_job<S: Shelf, O: Sink>(
    alloc: Global,
    job: &Job<'_>,
    files: &mut S,
    out: &mut O,
) -> Result<Status, Refusal>
    requires in_range { HasRange job.now }

    ensures ended { IfOk result IsEnd }
    ensures achieved { IfOk result (λ status. Achieves (S.holds files.old) (S.failing files.old) (O.written out.old) (O.written out.new) status
        (request_of job.now)) }
    ensures stopped { IfErr result (λ r. Stops (S.holds files.old) (S.failing files.old) r (request_of job.now)) }
    ensures left { IfErr result (λ r. Leaves (S.holds files.old) (S.failing files.old) (O.written out.old) (O.written out.new) r (request_of job.now)) }

    ensures read_fault { TellsFault (S.faults files.old) (S.faults files.new) (is_read_fault result) }
    ensures write_fault { TellsFault (O.faults out.old) (O.faults out.new) (is_write_fault result) }
    ensures same_files { S.holds files.new ≡ S.holds files.old }
{
    match job {
        Job::Classify(paths, options) => classify(alloc, paths, options, files, out),
        Job::Confirm(paths, report) => confirm_report(alloc, &paths, report, files, out),
        Job::Table(report) => tabulate(alloc, report, files, out),
        Job::Bench(size) => bench(alloc, *size, out),
    }
}
