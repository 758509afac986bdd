//! The call that runs a job.

ghost use Rattle.std.specs.Prelude.{◌≡◌, ◌⊎◌, ℕ, List, map, string_bytes, IfSome};
ghost use Rattle.cq_io.specs.Faults.{Rose, TellsFault};
ghost use Rattle.cqapri_words.specs.Refusals.{Tells, status_of};
ghost use Rattle.cqapri_words.specs.Requests.{AskFor, NameNoJob, NameNothing, Request};
ghost use Rattle.cqapri_words.specs.Words.{FileNames, Settings, AreBenchWords, AreClassifyWords, AreConfirmWords, AreTableWords};
ghost use Rattle.cqapri_words.specs.declared.refusal.Refusal.{Refusal};
ghost use Rattle.cqapri_cli.specs.Bench.{PrintsCounts};
ghost use Rattle.cqapri_cli.specs.Complete.{IsComplete};
ghost use Rattle.cqapri_cli.specs.Ends.{IsEnd, WritesNothing, is_read_status, is_write_status};
ghost use Rattle.cqapri_cli.specs.Headline.{Answers};
ghost use Rattle.cqapri_cli.specs.Jobs.{Explains, LeavesFirst, LeavesNoneOrFirst};
ghost use Rattle.cqapri_cli.specs.Tables.{WritesTable};
ghost use Rattle.cqapri_cli.specs.Verdicts.{WritesVerdict};

use crate::jobs::run_words;
use crate::law::{each_end_is_one, each_table_end_is_one};
use cq_io::{Shelf, Sink};
use cqapri_words::{Status, one_meaning};
use std::alloc::Global;

/// Runs the job that the words after the program's name ask for: `classify`, `confirm`, `table` or `bench`, with its options as
/// `--x V` or `--x=V` in any order.
///
/// The files are fetched from `files` in this order, and each is read before the next is fetched: the axioms, the facts, the
/// priority where one is named, the query, the report. `classify` then refuses closures, conflicts and supports beyond their
/// limits and a priority with a cycle, and writes a report to `out`: every tuple that the whole table entails once, with its
/// verdicts and their evidence. Its status is `Done`, or `Open` where some answer has an undecided question. `confirm` writes one
/// line: `accepted N` with the number of answers where the report is accepted, and else `rejected line L: RULE` with the first
/// broken line and its first broken rule, and then its status is `Open`. `table` fetches a report alone, and writes a record of
/// CSV for each of its answers: the names, and the three verdicts. `bench` fetches nothing: it answers the generated input of a
/// size, and writes one line with the counts of the verdicts. `err` gets one line where the status is neither `Done` nor `Open`.
/// `out` is flushed once, after the last write. Facts and axioms are those of DL-Lite_R (Calvanese and others 2007), verdicts and
/// repairs those of Bienvenu, Bourgaux and Goasdoué (2014) and of Bienvenu and Bourgaux (2022).
pub fn run<S: Shelf, O: Sink, E: Sink>(
    alloc: Global,
    words: &[String],
    files: &mut S,
    out: &mut O,
    err: &mut E,
) -> Status
    // The headline of `classify`, and the same of `confirm`, `table` and `bench`.
    ensures headline { IsEnd result → (names : FileNames) (settings : Settings) → AreClassifyWords (map string_bytes words.now) names settings
        → Answers (S.holds files.old) (S.failing files.old) names settings (O.written out.old) (O.written out.new) result }
    ensures judged { IsEnd result → (names : FileNames) (report : List ℕ) → AreConfirmWords (map string_bytes words.now) names report
        → WritesVerdict (S.holds files.old) (S.failing files.old) names report (O.written out.old) (O.written out.new) result }
    ensures tabled { IsEnd result → (report : List ℕ) → AreTableWords (map string_bytes words.now) report
        → WritesTable (S.holds files.old) (S.failing files.old) report (O.written out.old) (O.written out.new) result }
    ensures counted { IsEnd result → (size : ℕ) → AreBenchWords (map string_bytes words.now) size
        → (result ≡ Status.Done) × PrintsCounts size (O.written out.old) (O.written out.new) }
    ensures complete { IfSome (S.holds files.old) (λ held. ¬ Rose (S.faults files.old) (S.faults files.new)
        → ¬ Rose (O.faults out.old) (O.faults out.new) → IsComplete held (map string_bytes words.now) result) }

    // Every other end, with the text that says why.
    ensures words { result ≡ Status.Words → NameNothing (map string_bytes words.now) }
    ensures no_job { NameNothing (map string_bytes words.now) → (result ≡ Status.Words) ⊎ (result ≡ Status.NoMemory) }
    ensures no_such_job { NameNoJob (map string_bytes words.now) → result ≡ Status.Words }
    ensures told { ¬ IsEnd result → (r : Refusal) × (status_of r ≡ result)
        × Explains (S.holds files.old) (S.failing files.old) (map string_bytes words.now) r
        × Tells r (E.written err.old) (E.written err.new) (E.faults err.old) (E.faults err.new) }
    ensures silent { IsEnd result → (E.written err.new ≡ E.written err.old) × (E.faults err.new ≡ E.faults err.old) }
    ensures read_fault { TellsFault (S.faults files.old) (S.faults files.new) (is_read_status result) }
    ensures write_fault { TellsFault (O.faults out.old) (O.faults out.new) (is_write_status result) }

    // What `out` has got then.
    ensures nothing_written { WritesNothing result → O.written out.new ≡ O.written out.old }
    ensures part { result ≡ Status.WriteFault → (request : Request) → AskFor (map string_bytes words.now) request
        → LeavesFirst (S.holds files.old) (S.failing files.old) (O.written out.old) (O.written out.new) request }
    ensures none_or_part { result ≡ Status.NoMemory → (request : Request) → AskFor (map string_bytes words.now) request
        → LeavesNoneOrFirst (S.holds files.old) (S.failing files.old) (O.written out.old) (O.written out.new) request }

    ensures same_files { S.holds files.new ≡ S.holds files.old }
{
    one_meaning();
    each_end_is_one();
    each_table_end_is_one();
    match run_words(alloc, words, files, out) {
        Ok(status) => status,
        Err(refusal) => {
            refusal.tell(err);
            refusal.status()
        }
    }
}
