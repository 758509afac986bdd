//! Writes what `confirm` says of a report.

ghost use Rattle.std.specs.Prelude.{◌≡◌, OnOk, OnErr, is_err};
ghost use Rattle.cq_io.specs.Faults.{TellsFault};
ghost use Rattle.cq_io.specs.Writing.{appended};
ghost use Rattle.cqapri_words.specs.Pieces.{AppendsFirst};
ghost use Rattle.cqapri_cli.specs.Verdicts.{verdict_text};

use cq_io::{Failed, Sink};
use cqapri_words::write_pieces;
use itoa::Buffer;
use refutation_confirmer::Confirmed;
use report_rules::Rule;

/// Writes the verdict on a report as one line, piece by piece, and flushes. It takes no memory: a number is printed into a
/// fixed array.
pub(crate) fn write_verdict<O: Sink>(out: &mut O, verdict: Confirmed) -> Result<(), Failed>
    ensures exact { OnOk result (O.written out.new ≡ appended (O.written out.old) (verdict_text verdict)) }
    ensures part { OnErr result (AppendsFirst (O.written out.old) (O.written out.new) (verdict_text verdict)) }
    ensures fault { TellsFault (O.faults out.old) (O.faults out.new) (is_err result) }
{
    write_line(out, verdict)?;
    out.flush()
}

/// Writes the line.
fn write_line<O: Sink>(out: &mut O, verdict: Confirmed) -> Result<(), Failed>
    ensures exact { OnOk result (O.written out.new ≡ appended (O.written out.old) (verdict_text verdict)) }
    ensures part { OnErr result (AppendsFirst (O.written out.old) (O.written out.new) (verdict_text verdict)) }
    ensures fault { TellsFault (O.faults out.old) (O.faults out.new) (is_err result) }
{
    match verdict {
        Confirmed::Yes { answers } => write_accepted(out, answers),
        Confirmed::No { line, rule } => write_rejected(out, line, rule),
    }
}

/// Writes that a report is accepted.
fn write_accepted<O: Sink>(out: &mut O, answers: u64) -> Result<(), Failed>
    ensures exact { OnOk result (O.written out.new ≡ appended (O.written out.old) (verdict_text (Confirmed.Yes answers))) }
    ensures part { OnErr result (AppendsFirst (O.written out.old) (O.written out.new) (verdict_text (Confirmed.Yes answers))) }
    ensures fault { TellsFault (O.faults out.old) (O.faults out.new) (is_err result) }
{
    let mut buffer = Buffer::new();
    let digits = buffer.format(answers);
    write_pieces(out, &[b"accepted ", digits.as_bytes(), b"\n"])
}

/// Writes that a report is rejected.
fn write_rejected<O: Sink>(out: &mut O, line: u64, rule: Rule) -> Result<(), Failed>
    ensures exact { OnOk result (O.written out.new ≡ appended (O.written out.old) (verdict_text (Confirmed.No line rule))) }
    ensures part { OnErr result (AppendsFirst (O.written out.old) (O.written out.new) (verdict_text (Confirmed.No line rule))) }
    ensures fault { TellsFault (O.faults out.old) (O.faults out.new) (is_err result) }
{
    let mut buffer = Buffer::new();
    let digits = buffer.format(line);
    write_pieces(
        out,
        &[
            b"rejected line ",
            digits.as_bytes(),
            b": ",
            rule.word().as_bytes(),
            b"\n",
        ],
    )
}
