//! Answers a query for the counts of its verdicts alone.

ghost use Rattle.std.specs.Prelude.{◌≡◌, false, IfOk, IfErr};
ghost use Rattle.cq_io.specs.Faults.{TellsFault};
ghost use Rattle.preparation.specs.Prepared.{IsPrepared};
ghost use Rattle.input_files.specs.Bounds.{IsBounded};
ghost use Rattle.input_files.specs.Fetching.{is_read_fault};
ghost use Rattle.cqapri_words.specs.Jobs.{names_in, settings_in};
ghost use Rattle.cqapri_words.specs.Words.{AreInRange};
ghost use Rattle.cqapri_cli.specs.Counts.{AreCounts, CountsAnswers};
ghost use Rattle.cqapri_cli.specs.Ends.{StopsClassify, is_of_output};
ghost use Rattle.cqapri_cli.specs.Limits.{IsWithinLimits};

use crate::preparing::{Ready, prepare_input};
use crate::writing::write_lines;
use classifier::Summary;
use cq_io::{NullSink, Shelf};
use cqapri_words::{Options, Paths, Refusal};
use input_files::read_input;
use std::alloc::Global;

/// Answers the query of the files, and keeps the counts of the verdicts alone.
pub(crate) fn count_answers<S: Shelf>(
    alloc: Global,
    paths: &Paths<'_>,
    options: &Options,
    files: &mut S,
) -> Result<Summary, Refusal>
    requires in_range { AreInRange (settings_in options.now) }

    ensures counts { IfOk result (CountsAnswers (S.holds files.old) (S.failing files.old) (names_in paths.now) (settings_in options.now)) }
    ensures stopped { IfErr result (StopsClassify (S.holds files.old) (S.failing files.old) (names_in paths.now) (settings_in options.now)) }
    ensures no_output { IfErr result (λ r. is_of_output r ≡ false) }

    ensures read_fault { TellsFault (S.faults files.old) (S.faults files.new) (is_read_fault result) }
{
    let input = read_input(alloc, files, paths)?;
    let ready = prepare_input(alloc, input, options)?;
    count_verdicts(alloc, &ready, options)
}

/// Writes the report to nowhere, and counts its verdicts.
fn count_verdicts(alloc: Global, ready: &Ready, options: &Options) -> Result<Summary, Refusal>
    requires bounded { IsBounded ready.now.input.kb ready.now.input.query ready.now.input.vocab }
    requires prepared { IsPrepared ready.now.input.kb ready.now.input.query options.now.repairs ready.now.prepared }
    requires within { IsWithinLimits ready.now.input.kb ready.now.input.query (settings_in options.now) }
    requires in_range { AreInRange (settings_in options.now) }

    ensures counts { IfOk result (AreCounts ready.now.input.kb ready.now.input.query (settings_in options.now)) }
    ensures memory { IfErr result (λ r. r ≡ Refusal.NoMemory) }
{
    let mut nowhere = NullSink::new();
    write_lines(alloc, &ready.input, &ready.prepared, options, &mut nowhere)
}
