//! A report over a sink: each line is written as its text and a line feed.

ghost use Rattle.std.specs.Prelude.{◌≡◌, ◌↔◌, ℕ, List, [], Option, None, Some, IfSome, IsSomeAnd, IfOk, OnOk, OnErr, string_bytes};
ghost use Rattle.cq_io.specs.Faults.{TellsFault};
ghost use Rattle.report_text.specs.declared.line.Line.{Line};
ghost use Rattle.report_text.specs.Lines.{IsWellFormed};
ghost use Rattle.report_text.specs.Reports.{has_failed, torn_after, AddsLine, StayTold};
ghost use Rattle.report_text.specs.LineBytes.{line_bytes, WritesLine, AreBytesOf, lines_told, line_kept};

use crate::printing::put_line;
use crate::{Line, LineFault, Report};
use cq_io::Sink;
use cq_terms::NoMemory;
use std::alloc::Global;
use std::mem;

/// A report over a sink, to which each line goes by one write, as its text and a line feed.
///
/// It tells its lines where the sink tells its bytes and they are those of well-formed lines, before
/// a part of the torn line's text: over a sink to which nothing was written before, they always are.
/// Its count of faults is the sink's.
#[derive(Drop)]
pub struct LineSink<'a, O> {
    alloc: Global,
    sink: &'a mut O,
    // The bytes of the last line. They are emptied for the next one, which then seldom wants memory.
    text: String,
    // The text of the torn line.
    torn: Option<String>,
}

impl<'a, O: Sink> LineSink<'a, O> {
    /// A report over the sink, with no torn line. It takes no memory.
    pub fn new(alloc: Global, sink: &'a mut O) -> LineSink<'a, O>
        ensures lines { ⟦<LineSink<'a, O> as Report>⟧.lines result
            ≡ lines_told (O.written sink.old) None }
        ensures no_lines { O.written sink.old ≡ Some []
            → ⟦<LineSink<'a, O> as Report>⟧.lines result ≡ Some [] }
        ensures torn { ⟦<LineSink<'a, O> as Report>⟧.torn result ≡ None }
        ensures faults { ⟦<LineSink<'a, O> as Report>⟧.faults result ≡ O.faults sink.old }

        ensures sink { result.sink.now ≡ sink.old }
        ensures target { result.sink.ghost_name ≡ sink.entry.ghost_name }
    {
        LineSink {
            alloc,
            sink,
            text: String::new(alloc),
            torn: None,
        }
    }

    /// Gives the sink back. A caller's proof knows what the sink has got only after this call.
    pub fn into_sink(self) -> &'a mut O
        ensures sink { result.now ≡ self.entry.sink.now }
        ensures target { result.ghost_name ≡ self.entry.sink.ghost_name }
    {
        self.sink
    }
}

impl<O: Sink> Report for LineSink<'_, O> {
    ghost lines = { λ s. lines_told (O.written s.sink.now) (line_kept s.torn) };

    ghost torn = { λ s. line_kept s.torn };

    ghost faults = { λ s. O.faults s.sink.now };

    ghost target = { λ s. s.sink.ghost_name };

    fn line(&mut self, line: &Line) -> Result<(), LineFault>
        requires form { IsWellFormed line.now }
        requires none_torn { line_kept self.old.torn ≡ None }

        ensures added { OnOk result (AddsLine
            (lines_told (O.written self.old.sink.now) (line_kept self.old.torn))
            (lines_told (O.written self.new.sink.now) (line_kept self.new.torn)) line.now) }
        ensures torn { line_kept self.new.torn ≡ torn_after result line.now }
        ensures fault { TellsFault (O.faults self.old.sink.now) (O.faults self.new.sink.now)
            (has_failed result) }

        // Also where the sink's bytes aren't those of lines.
        ensures written { WritesLine result (O.written self.old.sink.now)
            (O.written self.new.sink.now) line.now }

        ensures unchanged { OnErr result (StayTold
            (lines_told (O.written self.old.sink.now) (line_kept self.old.torn))
            (lines_told (O.written self.new.sink.now) (line_kept self.new.torn))) }
        ensures same_target { self.new.sink.ghost_name ≡ self.old.sink.ghost_name }
    {
        make_bytes_of(&mut self.text, line)?;
        match self.sink.write_all(self.text.as_bytes()) {
            Ok(()) => Ok(()),
            Err(_) => {
                self.text.pop();
                self.torn = Some(mem::replace(&mut self.text, String::new(self.alloc)));
                Err(LineFault::Failed)
            }
        }
    }
}

/// Makes the text the bytes of a line, in the memory that it has.
fn make_bytes_of(text: &mut String, line: &Line) -> Result<(), NoMemory>
    ensures exact { OnOk result (string_bytes text.new ≡ line_bytes line.now) }
{
    text.clear();
    put_line(text, line)?;
    text.push('\n')?;
    Ok(())
}

/// The lines that a sink's bytes tell are the well-formed ones whose bytes they are, before a part of
/// the torn line's text. There is one such list at most, and none where the sink doesn't tell its bytes.
pub fn bytes_tell_their_lines()
    ensures { (written : Option (List ℕ)) (torn : Option Line) (lines : List Line)
        → IfSome torn IsWellFormed
        → (lines_told written torn ≡ Some lines) ↔ IsSomeAnd written (AreBytesOf lines torn) }
{}
