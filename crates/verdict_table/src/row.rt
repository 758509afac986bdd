//! The record of an answer.

ghost use Rattle.std.specs.Prelude.{◌≡◌, ◌++◌, ◌∷◌, [], IfOk, OnOk, OnErr, List, ℕ, map, string_bytes};
ghost use Rattle.csv.specs.Records.{fields_of, partial_of};
ghost use Rattle.csv.specs.Writing.{default_writer, row_text};
ghost use Rattle.cq_io.specs.Faults.{TellsFault};
ghost use Rattle.cq_io.specs.Writing.{appended};
ghost use Rattle.cqapri_words.specs.Pieces.{AppendsFirst};
ghost use Rattle.report_text.specs.AnswerLine.{verdict_word};
ghost use Rattle.report_text.specs.Reports.{has_failed};
ghost use Rattle.verdict_table.specs.Tables.{row_of, verdicts};

use cq_io::Sink;
use cq_terms::{NoMemory, Texts};
use csv::{ByteRecord, WriterBuilder};
use report_text::{Line, LineFault, Verdict};
use std::alloc::{AllocError, Global};

/// Writes the record of the line where it is an answer, and nothing for another line.
pub(crate) fn write_row<O: Sink>(alloc: Global, line: &Line, out: &mut O) -> Result<(), LineFault>
    ensures exact { OnOk result (O.written out.new ≡ appended (O.written out.old) (row_of line.now)) }
    ensures part { OnErr result (AppendsFirst (O.written out.old) (O.written out.new) (row_of line.now)) }
    ensures fault { TellsFault (O.faults out.old) (O.faults out.new) (has_failed result) }
{
    let Line::Answer {
        brave,
        ar,
        iar,
        names,
        ..
    } = line
    else {
        return Ok(());
    };
    let text = row_text(alloc, names, *brave, *ar, *iar)?;
    match out.write_all(text.as_slice()) {
        Ok(()) => Ok(()),
        Err(_) => Err(LineFault::Failed),
    }
}

/// The text of the record of these names and verdicts.
fn row_text(
    alloc: Global,
    names: &Texts,
    brave: Verdict,
    ar: Verdict,
    iar: Verdict,
) -> Result<Vec<u8>, NoMemory>
    ensures exact { IfOk result (λ text. text.items ≡ row_text default_writer (names.now ++ verdicts brave ar iar)) }
{
    let mut row = ByteRecord::new(alloc);
    push_names(&mut row, names.as_slice())?;
    push_verdicts(&mut row, brave, ar, iar)?;
    text_of(alloc, &row)
}

fn push_names(row: &mut ByteRecord, names: &[String]) -> Result<(), AllocError>
    requires { partial_of row.old ≡ [] }

    ensures fields { OnOk result (fields_of row.new ≡ fields_of row.old ++ map string_bytes names.now) }
    ensures partial { OnOk result (partial_of row.new ≡ []) }
{
    for name in names {
        row.push_field(name.as_bytes())?;
    }
    Ok(())
}

fn push_verdicts(
    row: &mut ByteRecord,
    brave: Verdict,
    ar: Verdict,
    iar: Verdict,
) -> Result<(), AllocError>
    requires { partial_of row.old ≡ [] }

    ensures { OnOk result (fields_of row.new ≡ fields_of row.old ++ verdicts brave ar iar) }
{
    row.push_field(verdict_word(brave))?;
    row.push_field(verdict_word(ar))?;
    row.push_field(verdict_word(iar))?;
    Ok(())
}

fn verdict_word(verdict: Verdict) -> &'static [u8]
    ensures exact { result.now ≡ verdict_word verdict }
{
    match verdict {
        Verdict::Yes => b"yes",
        Verdict::No => b"no",
        Verdict::Undecided => b"undecided",
    }
}

/// The text of the record. A writer over memory fails only for want of memory.
fn text_of(alloc: Global, row: &ByteRecord) -> Result<Vec<u8>, NoMemory>
    ensures exact { IfOk result (λ text. text.items ≡ row_text default_writer (fields_of row.now)) }
{
    let mut writer = WriterBuilder::new().from_writer(Vec::new(alloc));
    if writer.write_byte_record(row).is_err() {
        return Err(NoMemory);
    }
    match writer.into_inner() {
        Ok(text) => Ok(text),
        Err(_) => Err(NoMemory),
    }
}
