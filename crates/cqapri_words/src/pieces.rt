//! Writes a text piece by piece.

ghost use Rattle.std.specs.Prelude.{◌≡◌, OnOk, OnErr, is_err};
ghost use Rattle.std.specs.List.{flat_map};
ghost use Rattle.cq_io.specs.Faults.{TellsFault};
ghost use Rattle.cq_io.specs.Writing.{appended};
ghost use Rattle.cqapri_words.specs.Pieces.{AppendsFirst, line_text};

use cq_io::{Failed, Sink};

/// Writes the line `cqapri: ` with the three texts, piece by piece, and stops at one that fails. It takes no memory.
pub(crate) fn write_line<'a, S: Sink>(
    sink: &mut S,
    before: &'a str,
    number: &'a str,
    after: &'a str,
) -> Result<(), Failed>
    ensures exact { OnOk result (S.written sink.new ≡ appended (S.written sink.old) (line_text before.now number.now after.now)) }
    ensures part { OnErr result (AppendsFirst (S.written sink.old) (S.written sink.new) (line_text before.now number.now after.now)) }
    ensures fault { TellsFault (S.faults sink.old) (S.faults sink.new) (is_err result) }
{
    write_pieces(
        sink,
        &[
            b"cqapri: ",
            before.as_bytes(),
            number.as_bytes(),
            after.as_bytes(),
            b"\n",
        ],
    )
}

/// Writes the pieces one after another, and stops at one that fails. It takes no memory.
pub fn write_pieces<S: Sink>(sink: &mut S, pieces: &[&[u8]]) -> Result<(), Failed>
    ensures exact { OnOk result (S.written sink.new ≡ appended (S.written sink.old) (flat_map (λ piece. piece.now) pieces.now)) }
    ensures part { OnErr result (AppendsFirst (S.written sink.old) (S.written sink.new) (flat_map (λ piece. piece.now) pieces.now)) }
    ensures fault { TellsFault (S.faults sink.old) (S.faults sink.new) (is_err result) }
{
    for piece in pieces {
        sink.write_all(piece)?;
    }
    Ok(())
}
