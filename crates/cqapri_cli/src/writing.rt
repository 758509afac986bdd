//! Writes the report on what the files say.

ghost use Rattle.std.specs.Prelude.{◌≡◌, Some, [], IfOk, IfErr};
ghost use Rattle.cq_io.specs.Faults.{TellsFault};
ghost use Rattle.preparation.specs.Prepared.{IsPrepared};
ghost use Rattle.input_files.specs.Bounds.{IsBounded};
ghost use Rattle.cqapri_words.specs.Jobs.{settings_in};
ghost use Rattle.cqapri_words.specs.Words.{AreInRange};
ghost use Rattle.cqapri_cli.specs.Counts.{AreCounts, status_after};
ghost use Rattle.cqapri_cli.specs.Ends.{IsEnd, is_write_fault};
ghost use Rattle.cqapri_cli.specs.Headline.{TellsRightReport};
ghost use Rattle.cqapri_cli.specs.Leaving.{IsOfWriting};
ghost use Rattle.cqapri_cli.specs.Limits.{IsWithinLimits};
ghost use Rattle.cqapri_cli.specs.Parts.{TellsRightLines};

use crate::preparing::Ready;
use crate::report_law::{accepted_is_right, open_is_counted, summary_is_right};
use classifier::{ClassifyFault, Plan, Summary};
use cq_io::Sink;
use cqapri_words::{Options, Refusal, Status};
use input_files::Input;
use preparation::Prepared;
use query_report::write_report;
use report_text::{LineSink, bytes_tell_their_lines, laws_of_pieces};
use std::alloc::Global;

/// Writes the report, flushes the output, and answers the status.
pub(crate) fn write_answers<O: Sink>(
    alloc: Global,
    ready: &Ready,
    options: &Options,
    out: &mut O,
) -> Result<Status, Refusal>
    requires bounded { IsBounded ready.now.input.kb ready.now.input.query ready.now.input.vocab }
    requires prepared { IsPrepared ready.now.input.kb ready.now.input.query options.now.repairs ready.now.prepared }
    requires within { IsWithinLimits ready.now.input.kb ready.now.input.query (settings_in options.now) }
    requires in_range { AreInRange (settings_in options.now) }

    ensures ended { IfOk result IsEnd }
    ensures tells { IfOk result (λ ends. O.written out.old ≡ Some []
        → TellsRightReport ready.now.input.kb ready.now.input.vocab.inds ready.now.input.query (settings_in options.now) (O.written out.new) ends) }
    ensures part { IfErr result (λ _. O.written out.old ≡ Some []
        → TellsRightLines ready.now.input.kb ready.now.input.vocab.inds ready.now.input.query (O.written out.new)) }
    ensures of_writing { IfErr result IsOfWriting }

    ensures fault { TellsFault (O.faults out.old) (O.faults out.new) (is_write_fault result) }
{
    let counts = write_lines(alloc, &ready.input, &ready.prepared, options, out)?;
    out.flush()?;
    Ok(status_after(counts.undecided))
}

/// Writes the lines of the report, and counts the verdicts.
pub(crate) fn write_lines<O: Sink>(
    alloc: Global,
    input: &Input,
    prepared: &Prepared,
    options: &Options,
    out: &mut O,
) -> Result<Summary, Refusal>
    requires bounded { IsBounded input.now.kb input.now.query input.now.vocab }
    requires prepared { IsPrepared input.now.kb input.now.query options.now.repairs prepared.now }
    requires within { IsWithinLimits input.now.kb input.now.query (settings_in options.now) }
    requires in_range { AreInRange (settings_in options.now) }

    ensures counts { IfOk result (AreCounts input.now.kb input.now.query (settings_in options.now)) }
    ensures tells { IfOk result (λ counts. O.written out.old ≡ Some []
        → TellsRightReport input.now.kb input.now.vocab.inds input.now.query (settings_in options.now) (O.written out.new)
        (status_after counts.undecided)) }
    ensures part { IfErr result (λ _. O.written out.old ≡ Some []
        → TellsRightLines input.now.kb input.now.vocab.inds input.now.query (O.written out.new)) }
    ensures of_writing { IfErr result IsOfWriting }

    ensures fault { TellsFault (O.faults out.old) (O.faults out.new) (is_write_fault result) }
{
    accepted_is_right();
    open_is_counted();
    bytes_tell_their_lines();
    laws_of_pieces();
    summary_is_right();
    let plan = plan_of(options);
    let mut report = LineSink::new(alloc, out);
    let written = write_report(
        alloc,
        &input.kb,
        &input.vocab,
        &input.query,
        prepared,
        &plan,
        &mut report,
    );
    let _out = report.into_sink();
    match written {
        Ok(counts) => Ok(counts),
        Err(ClassifyFault::Report) => Err(Refusal::WriteFault),
        Err(ClassifyFault::NoMemory) => Err(Refusal::NoMemory),
    }
}

/// The plan of the words.
fn plan_of(options: &Options) -> Plan
    ensures exact { result ≡ record {
      budget = options.now.budget;
      keep = options.now.keep;
      repairs = options.now.repairs;
    } }
{
    Plan {
        budget: options.budget,
        keep: options.keep,
        repairs: options.repairs,
    }
}

/// The status after a whole report with so many answers that have an undecided question.
fn status_after(undecided: u64) -> Status
    ensures ended { IsEnd result }
    ensures exact { result ≡ status_after undecided }
{
    if undecided == 0 {
        Status::Done
    } else {
        Status::Open
    }
}
