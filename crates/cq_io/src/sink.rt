//! A sink: where bytes are written, seen as the bytes so far and a count of faults.
ghost use Rattle.std.specs.Prelude.{◌≡◌, ℕ, List, Option, OnOk, OnErr, is_err};
ghost use Rattle.cq_io.specs.Faults.{TellsFault};
ghost use Rattle.cq_io.specs.Writing.{appended, AppendsPart};

/// A write or a flush failed, and the sink counted it.
#[derive(Clone, Copy, Debug, PartialEq, Eq)]
pub struct Failed;

/// Where output is written. Its calls take no memory. A sink may not tell its bytes, as one over
/// standard output.
pub trait Sink {
    /// The bytes written so far, where the sink tells them.
    ghost written: { Self → Option (List ℕ) };

    /// How often it has failed. The count never falls, and stays at 2^64 - 1 once it is reached.
    ghost faults: { Self → ℕ };

    /// Appends all the bytes. Where it fails it has appended some first ones of them, and not all
    /// where there are any. `Failed` comes only where the sink counted a fault in this call.
    fn write_all(&mut self, bytes: &[u8]) -> Result<(), Failed>
        ensures exact { OnOk result (written self.new ≡ appended (written self.old) bytes.now) }
        ensures part { OnErr result (AppendsPart (written self.old) (written self.new) bytes.now) }
        ensures fault { TellsFault (faults self.old) (faults self.new) (is_err result) };

    /// Passes on what was held back, and appends nothing, whatever it answers. `Failed` comes only
    /// where the sink counted a fault in this call.
    fn flush(&mut self) -> Result<(), Failed>
        ensures fault { TellsFault (faults self.old) (faults self.new) (is_err result) }

        ensures same_bytes { written self.new ≡ written self.old };
}
