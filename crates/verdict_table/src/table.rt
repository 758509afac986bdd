//! The call.

ghost use Rattle.std.specs.Prelude.{◌≡◌, ◌<◌, ◌^◌, ℕ, None, Some, OnOk, OnErr, IsErrOf, length};
ghost use Rattle.cq_io.specs.Faults.{TellsFault};
ghost use Rattle.cq_io.specs.Writing.{appended};
ghost use Rattle.cqapri_words.specs.Pieces.{AppendsFirst};
ghost use Rattle.report_text.specs.Reports as reports;
ghost use Rattle.verdict_table.specs.declared.fault.TableFault.TheVariants as fault;
ghost use Rattle.verdict_table.specs.Faults.{has_failed};
ghost use Rattle.verdict_table.specs.Tables.{table_text};
ghost use Rattle.verdict_table.specs.Whole.{bad_line};

use crate::TableFault;
use crate::bad_line::bad_line;
use crate::row::write_row;
use cq_io::Sink;
use report_lines::first_line;
use report_text::LineFault;
use std::alloc::Global;

/// Writes one record for each answer of the report, in order: its names, and then the verdicts brave, AR and IAR as `yes`, `no`
/// or `undecided`.
///
/// Only whole reports are taken: each line is the text of a line, and the last, and no other, is an end. No other rule is
/// tried. Where the report isn't whole nothing is written. Beside the report only one line with its record is kept at a time.
/// It doesn't flush.
pub fn write_table<O: Sink>(alloc: Global, report: &[u8], out: &mut O) -> Result<(), TableFault>
    requires small { length report.now < 2 ^ 63 }

    ensures whole { OnOk result (bad_line report.now ≡ None) }
    ensures written { OnOk result (O.written out.new ≡ appended (O.written out.old) (table_text report.now)) }
    ensures refused { (line : ℕ) → IsErrOf result (fault.BadLine line) → bad_line report.now ≡ Some line }
    ensures failed_behind { IsErrOf result fault.Failed → bad_line report.now ≡ None }
    ensures untouched { (line : ℕ) → bad_line report.now ≡ Some line
        → (O.written out.new ≡ O.written out.old) × (O.faults out.new ≡ O.faults out.old) }
    ensures part { OnErr result (AppendsFirst (O.written out.old) (O.written out.new) (table_text report.now)) }
    ensures fault { TellsFault (O.faults out.old) (O.faults out.new) (has_failed result) }
{
    if let Some(line) = bad_line(alloc, report)? {
        return Err(TableFault::BadLine { line });
    }
    write_rows(alloc, report, out)?;
    Ok(())
}

/// Writes the record of each answer up to a piece that is no line.
fn write_rows<O: Sink>(alloc: Global, report: &[u8], out: &mut O) -> Result<(), LineFault>
    ensures written { OnOk result (O.written out.new ≡ appended (O.written out.old) (table_text report.now)) }
    ensures part { OnErr result (AppendsFirst (O.written out.old) (O.written out.new) (table_text report.now)) }
    ensures fault { TellsFault (O.faults out.old) (O.faults out.new) (reports.has_failed result) }
{
    let mut rest = report;
    while !rest.is_empty() {
        let Some((line, more)) = first_line(alloc, rest)? else {
            return Ok(());
        };
        write_row(alloc, &line, out)?;
        rest = more;
    }
    Ok(())
}
