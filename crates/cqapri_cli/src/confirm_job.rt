//! The job `confirm`.

ghost use Rattle.std.specs.Prelude.{◌≡◌, ◌<◌, ◌^◌, length, IfOk, IfErr};
ghost use Rattle.cq_io.specs.Faults.{TellsFault};
ghost use Rattle.refutation_confirmer.specs.Saying.{Says};
ghost use Rattle.cqapri_words.specs.Jobs.{names_in};
ghost use Rattle.input_files.specs.Bounds.{IsBounded};
ghost use Rattle.input_files.specs.Fetching.{is_read_fault};
ghost use Rattle.cqapri_cli.specs.Ends.{IsEnd, StopsConfirm, is_write_fault};
ghost use Rattle.cqapri_cli.specs.Leaving.{LeavesConfirm};
ghost use Rattle.cqapri_cli.specs.Verdicts.{StopsJudging, WritesVerdict, verdict_status};

use crate::verdict_writer::write_verdict;
use cq_io::{Shelf, Sink};
use cqapri_words::{Cycle, Paths, Refusal, Status};
use input_files::{Input, fetch_report, read_input};
use refutation_confirmer::{ConfirmFault, Confirmed, confirm};
use std::alloc::Global;

/// Judges the report that the words name, and writes the verdict.
pub(crate) fn confirm_report<S: Shelf, O: Sink>(
    alloc: Global,
    paths: &Paths<'_>,
    report: &str,
    files: &mut S,
    out: &mut O,
) -> Result<Status, Refusal>
    ensures ended { IfOk result IsEnd }
    ensures judged { IfOk result (WritesVerdict (S.holds files.old) (S.failing files.old) (names_in paths.now) report.now
        (O.written out.old) (O.written out.new)) }
    ensures stopped { IfErr result (StopsConfirm (S.holds files.old) (S.failing files.old) (names_in paths.now) report.now) }
    ensures left { IfErr result (LeavesConfirm (S.holds files.old) (S.failing files.old) (names_in paths.now) report.now
        (O.written out.old) (O.written out.new)) }

    ensures read_fault { TellsFault (S.faults files.old) (S.faults files.new) (is_read_fault result) }
    ensures write_fault { TellsFault (O.faults out.old) (O.faults out.new) (is_write_fault result) }
    ensures same_files { S.holds files.new ≡ S.holds files.old }
{
    let input = read_input(alloc, files, paths)?;
    let bytes = fetch_report(alloc, files, report)?;
    let verdict = judge(alloc, input, &bytes)?;
    write_verdict(out, verdict)?;
    Ok(status_of(verdict))
}

/// The verdict on the bytes of a report.
fn judge(alloc: Global, input: Input, report: &[u8]) -> Result<Confirmed, Refusal>
    requires bounded { IsBounded input.kb input.query input.vocab }
    requires small { length report.now < 2 ^ 63 }

    ensures says { IfOk result (Says input.kb input.vocab.inds input.query report.now) }
    ensures stopped { IfErr result (StopsJudging input.kb input.query input.vocab report.now) }
{
    let _pairs = input.kb.pairs();
    match confirm(alloc, &input.kb, &input.vocab, &input.query, report) {
        Ok(verdict) => Ok(verdict),
        Err(ConfirmFault::Cycle { facts }) => Err(Refusal::Cycle(Cycle::new(
            facts,
            input.kb,
            input.vocab,
        ))),
        Err(ConfirmFault::NoMemory) => Err(Refusal::NoMemory),
    }
}

/// The status of a verdict.
fn status_of(verdict: Confirmed) -> Status
    ensures exact { result ≡ verdict_status verdict }
{
    match verdict {
        Confirmed::Yes { .. } => Status::Done,
        Confirmed::No { .. } => Status::Open,
    }
}
