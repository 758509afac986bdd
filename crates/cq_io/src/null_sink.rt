//! A sink that keeps nothing.
ghost use Rattle.std.specs.Prelude.{◌≡◌, None, IsOk};

use crate::{Failed, Sink};

/// A sink that keeps nothing, tells nothing and never fails.
#[derive(Clone, Copy, Debug, PartialEq, Eq)]
pub struct NullSink;

impl NullSink {
    /// A sink whose count of faults is 0, now and after each call.
    pub fn new() -> NullSink
        ensures { ⟦<NullSink as Sink>⟧.faults result ≡ 0 }
    {
        NullSink
    }
}

impl Sink for NullSink {
    ghost written = { λ _. None };

    ghost faults = { λ _. 0 };

    fn write_all(&mut self, _bytes: &[u8]) -> Result<(), Failed>
        ensures { IsOk result }
    {
        Ok(())
    }

    fn flush(&mut self) -> Result<(), Failed>
        ensures { IsOk result }
    {
        Ok(())
    }
}
