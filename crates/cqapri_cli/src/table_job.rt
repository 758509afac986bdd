//! The job `table`.

ghost use Rattle.std.specs.Prelude.{◌≡◌, ◌<◌, ◌^◌, None, length, IfOk, IfErr, OnOk};
ghost use Rattle.cq_io.specs.Faults.{TellsFault};
ghost use Rattle.cq_io.specs.Writing.{appended};
ghost use Rattle.input_files.specs.Fetching.{is_read_fault};
ghost use Rattle.verdict_table.specs.Tables.{table_text};
ghost use Rattle.verdict_table.specs.Whole.{bad_line};
ghost use Rattle.cqapri_cli.specs.Ends.{IsEnd, is_write_fault};
ghost use Rattle.cqapri_cli.specs.Tables.{LeavesPrinting, LeavesTable, StopsPrinting, StopsTable, WritesTable, refusal_of_table};

use cq_io::{Shelf, Sink};
use cqapri_words::{Fault, Refusal, Status};
use input_files::fetch_report;
use std::alloc::Global;
use verdict_table::{TableFault, write_table};

/// Prints the verdicts of the report that the words name as a table.
pub(crate) fn tabulate<S: Shelf, O: Sink>(
    alloc: Global,
    report: &str,
    files: &mut S,
    out: &mut O,
) -> Result<Status, Refusal>
    ensures ended { IfOk result IsEnd }
    ensures tabled { IfOk result (WritesTable (S.holds files.old) (S.failing files.old) report.now (O.written out.old) (O.written out.new)) }
    ensures stopped { IfErr result (StopsTable (S.holds files.old) (S.failing files.old) report.now) }
    ensures left { IfErr result (LeavesTable (S.holds files.old) (S.failing files.old) report.now (O.written out.old) (O.written out.new)) }

    ensures read_fault { TellsFault (S.faults files.old) (S.faults files.new) (is_read_fault result) }
    ensures write_fault { TellsFault (O.faults out.old) (O.faults out.new) (is_write_fault result) }
    ensures same_files { S.holds files.new ≡ S.holds files.old }
{
    let bytes = fetch_report(alloc, files, report)?;
    print_table(alloc, &bytes, out)?;
    Ok(Status::Done)
}

/// Writes the table of the bytes of a report, and flushes.
fn print_table<O: Sink>(alloc: Global, report: &[u8], out: &mut O) -> Result<(), Refusal>
    requires small { length report.now < 2 ^ 63 }

    ensures whole { OnOk result (bad_line report.now ≡ None) }
    ensures written { OnOk result (O.written out.new ≡ appended (O.written out.old) (table_text report.now)) }
    ensures stopped { IfErr result (StopsPrinting report.now) }
    ensures left { IfErr result (LeavesPrinting report.now (O.written out.old) (O.written out.new)) }
    ensures fault { TellsFault (O.faults out.old) (O.faults out.new) (is_write_fault result) }
{
    match write_table(alloc, report, out) {
        Ok(()) => Ok(out.flush()?),
        Err(fault) => Err(refusal_of(fault)),
    }
}

/// The refusal of a table that was not written whole.
fn refusal_of(fault: TableFault) -> Refusal
    ensures exact { result ≡ refusal_of_table fault }
{
    match fault {
        TableFault::BadLine { line } => Refusal::Faulty(Fault::ReportLine { line }),
        TableFault::Failed => Refusal::WriteFault,
        TableFault::NoMemory => Refusal::NoMemory,
    }
}
