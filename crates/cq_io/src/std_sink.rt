//! A sink over a stream, which tells nothing of what was written.
ghost use Rattle.std.specs.Prelude.{◌≡◌, None, OnOk, OnErr, is_err};
ghost use Rattle.std.specs.Io.KnownBytes.{Appends};
ghost use Rattle.cq_io.specs.Faults.{TellsFault};
ghost use Rattle.cq_io.specs.Pieces.{WritesPart};
ghost use Rattle.cq_io.specs.StdSink.{fault_count, stream};

use crate::{Failed, Sink};
use std::io::Write;

/// A sink over a stream, such as standard output. It tells nothing of what was written. Each error
/// of the stream is a fault, and so is a write that takes no byte of a piece that has some.
#[derive(Drop)]
pub struct StdSink<W> {
    to: W,
    faults: u64,
}

impl<W: Write + Drop> StdSink<W> {
    /// A sink that writes to the stream, whose count of faults is 0.
    pub fn new(to: W) -> StdSink<W>
        ensures stream { stream result ≡ to }
        ensures count { fault_count result ≡ 0 }
    {
        StdSink { to, faults: 0 }
    }
}

impl<W: Write + Drop> Sink for StdSink<W> {
    ghost written = { λ _. None };

    ghost faults = { fault_count };

    fn write_all(&mut self, bytes: &[u8]) -> Result<(), Failed>
        // What reached the stream, where the stream tells its bytes, as one in memory does.
        ensures sent { OnOk result
            (Appends (W.contents (stream self.old)) (W.contents (stream self.new)) bytes.now) }
        ensures sent_part { OnErr result
            (WritesPart (W.contents (stream self.old)) (W.contents (stream self.new)) bytes.now) }
        ensures fault { TellsFault (fault_count self.old) (fault_count self.new) (is_err result) }
    {
        let result = write_whole(&mut self.to, bytes);
        if result.is_err() {
            self.faults = self.faults.saturating_add(1);
        }
        result
    }

    fn flush(&mut self) -> Result<(), Failed> {
        if self.to.flush().is_err() {
            self.faults = self.faults.saturating_add(1);
            return Err(Failed);
        }
        Ok(())
    }
}

// Writes piece after piece. A stream that takes nothing of a piece has failed.
fn write_whole<W: Write>(to: &mut W, bytes: &[u8]) -> Result<(), Failed>
    ensures exact { OnOk result (Appends (W.contents to.old) (W.contents to.new) bytes.now) }
    ensures part { OnErr result (WritesPart (W.contents to.old) (W.contents to.new) bytes.now) }
{
    let mut count = 0;
    while count < bytes.len() {
        match to.write(&bytes[count..]) {
            Ok(more) if more > 0 => count += more,
            _ => return Err(Failed),
        }
    }
    Ok(())
}
