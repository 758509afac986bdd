//! The job `classify`.

ghost use Rattle.std.specs.Prelude.{◌≡◌, IfOk, IfErr};
ghost use Rattle.cq_io.specs.Faults.{TellsFault};
ghost use Rattle.cqapri_words.specs.Jobs.{names_in, settings_in};
ghost use Rattle.cqapri_words.specs.Words.{AreInRange};
ghost use Rattle.input_files.specs.Fetching.{is_read_fault};
ghost use Rattle.cqapri_cli.specs.Ends.{IsEnd, StopsClassify, is_write_fault};
ghost use Rattle.cqapri_cli.specs.Headline.{Answers};
ghost use Rattle.cqapri_cli.specs.Leaving.{LeavesClassify};

use crate::preparing::prepare_input;
use crate::writing::write_answers;
use cq_io::{Shelf, Sink};
use cqapri_words::{Options, Paths, Refusal, Status};
use input_files::read_input;
use std::alloc::Global;

/// Answers the query of the files that the words name by a report.
pub(crate) fn classify<S: Shelf, O: Sink>(
    alloc: Global,
    paths: &Paths<'_>,
    options: &Options,
    files: &mut S,
    out: &mut O,
) -> Result<Status, Refusal>
    requires in_range { AreInRange (settings_in options.now) }

    ensures ended { IfOk result IsEnd }
    ensures answers { IfOk result (Answers (S.holds files.old) (S.failing files.old) (names_in paths.now) (settings_in options.now)
        (O.written out.old) (O.written out.new)) }
    ensures stopped { IfErr result (StopsClassify (S.holds files.old) (S.failing files.old) (names_in paths.now) (settings_in options.now)) }
    ensures left { IfErr result (LeavesClassify (S.holds files.old) (S.failing files.old) (names_in paths.now) (settings_in options.now)
        (O.written out.old) (O.written out.new)) }

    ensures read_fault { TellsFault (S.faults files.old) (S.faults files.new) (is_read_fault result) }
    ensures write_fault { TellsFault (O.faults out.old) (O.faults out.new) (is_write_fault result) }
    ensures same_files { S.holds files.new ≡ S.holds files.old }
{
    let input = read_input(alloc, files, paths)?;
    let ready = prepare_input(alloc, input, options)?;
    write_answers(alloc, &ready, options, out)
}
