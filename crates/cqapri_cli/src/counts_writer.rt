//! Writes the counts of verdicts.

ghost use Rattle.std.specs.Prelude.{◌≡◌, OnOk, OnErr, is_err};
ghost use Rattle.cq_io.specs.Faults.{TellsFault};
ghost use Rattle.cq_io.specs.Writing.{appended};
ghost use Rattle.cqapri_words.specs.Pieces.{AppendsFirst};
ghost use Rattle.cqapri_cli.specs.Bench.{counts_text};

use classifier::Summary;
use cq_io::{Failed, Sink};
use cqapri_words::write_pieces;
use itoa::Buffer;

/// Writes the counts as one line, piece by piece, and flushes. It takes no memory: a number is printed into a fixed array.
pub(crate) fn write_counts<O: Sink>(out: &mut O, counts: Summary) -> Result<(), Failed>
    ensures exact { OnOk result (O.written out.new ≡ appended (O.written out.old) (counts_text counts)) }
    ensures part { OnErr result (AppendsFirst (O.written out.old) (O.written out.new) (counts_text counts)) }
    ensures fault { TellsFault (O.faults out.old) (O.faults out.new) (is_err result) }
{
    write_line(out, counts)?;
    out.flush()
}

/// Writes the line.
fn write_line<O: Sink>(out: &mut O, counts: Summary) -> Result<(), Failed>
    ensures exact { OnOk result (O.written out.new ≡ appended (O.written out.old) (counts_text counts)) }
    ensures part { OnErr result (AppendsFirst (O.written out.old) (O.written out.new) (counts_text counts)) }
    ensures fault { TellsFault (O.faults out.old) (O.faults out.new) (is_err result) }
{
    let mut answers = Buffer::new();
    let mut brave = Buffer::new();
    let mut ar = Buffer::new();
    let mut iar = Buffer::new();
    let mut undecided = Buffer::new();
    write_pieces(
        out,
        &[
            b"answers ",
            answers.format(counts.answers).as_bytes(),
            b" brave ",
            brave.format(counts.brave).as_bytes(),
            b" ar ",
            ar.format(counts.ar).as_bytes(),
            b" iar ",
            iar.format(counts.iar).as_bytes(),
            b" undecided ",
            undecided.format(counts.undecided).as_bytes(),
            b"\n",
        ],
    )
}
