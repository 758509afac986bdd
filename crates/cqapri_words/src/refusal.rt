//! Why a job ended without its whole answer, and the text that says so.

ghost use Rattle.std.specs.Prelude.{◌≡◌, OnOk, OnErr, is_err};
ghost use Rattle.cq_io.specs.Faults.{TellsFault};
ghost use Rattle.cq_io.specs.Writing.{appended};
ghost use Rattle.cqapri_words.specs.Pieces.{AppendsFirst};
ghost use Rattle.cqapri_words.specs.Refusals.{status_of, Tells, text_of};
ghost use Rattle.cqapri_words.specs.declared.refusal.Refusal.TheVariants as refusal;

use crate::pieces::write_line;
use crate::{Cycle, Fault, File, Quantity, Status};
use cq_io::{Failed, Sink};
use cq_terms::NoMemory;
use itoa::Buffer;
use std::alloc::AllocError;

/// Why a job ended without its whole answer.
#[derive(Debug, Drop)]
pub enum Refusal {
    /// The words are none of the program's.
    Words,
    /// The file isn't there.
    NotThere(File),
    /// The text of a file has a fault.
    Faulty(Fault),
    /// A quantity is beyond its limit.
    Limit(Quantity),
    /// The priority has a cycle.
    Cycle(Cycle),
    /// The file could not be read.
    ReadFault(File),
    /// The output could not be written.
    WriteFault,
    /// Memory ran out.
    NoMemory,
}

impl From<NoMemory> for Refusal {
    ghost use Rattle.std.specs.Prelude.{◌≡◌};
    ghost use Rattle.cqapri_words.specs.declared.refusal.Refusal.TheVariants as refusal;

    ghost from_gives = { λ _ e. e ≡ refusal.NoMemory };

    fn from(_error: NoMemory) -> Refusal {
        Refusal::NoMemory
    }
}

impl From<AllocError> for Refusal {
    ghost use Rattle.std.specs.Prelude.{◌≡◌};
    ghost use Rattle.cqapri_words.specs.declared.refusal.Refusal.TheVariants as refusal;

    ghost from_gives = { λ _ e. e ≡ refusal.NoMemory };

    fn from(_error: AllocError) -> Refusal {
        Refusal::NoMemory
    }
}

impl From<Failed> for Refusal {
    ghost use Rattle.std.specs.Prelude.{◌≡◌};
    ghost use Rattle.cqapri_words.specs.declared.refusal.Refusal.TheVariants as refusal;

    ghost from_gives = { λ _ e. e ≡ refusal.WriteFault };

    fn from(_error: Failed) -> Refusal {
        Refusal::WriteFault
    }
}

impl Refusal {
    /// The status that the refusal ends with.
    pub fn status(&self) -> Status
        ensures exact { result ≡ status_of self.now }
    {
        match self {
            Refusal::Words => Status::Words,
            Refusal::NotThere(_) | Refusal::Faulty(_) | Refusal::Cycle(_) => Status::Refused,
            Refusal::Limit(_) => Status::Limit,
            Refusal::ReadFault(_) => Status::ReadFault,
            Refusal::WriteFault => Status::WriteFault,
            Refusal::NoMemory => Status::NoMemory,
        }
    }

    /// Writes the refusal's text in pieces, and stops at a piece that fails. It takes no memory: a number is printed into a
    /// fixed array.
    pub fn tell<E: Sink>(&self, err: &mut E)
        ensures told { Tells self.now (E.written err.old) (E.written err.new) (E.faults err.old) (E.faults err.new) }
    {
        let _ = self.write_text(err);
    }

    /// Writes the refusal's text, and says whether all of it was written.
    fn write_text<E: Sink>(&self, err: &mut E) -> Result<(), Failed>
        ensures exact { OnOk result (E.written err.new ≡ appended (E.written err.old) (text_of self.now)) }
        ensures part { OnErr result (AppendsFirst (E.written err.old) (E.written err.new) (text_of self.now)) }
        ensures fault { TellsFault (E.faults err.old) (E.faults err.new) (is_err result) }
    {
        match self {
            Refusal::Words => write_line(err, "words", "", ""),
            Refusal::NotThere(file) => write_line(err, file.word(), "", ": not there"),
            Refusal::Faulty(fault) => write_fault(err, *fault),
            Refusal::Limit(quantity) => write_line(err, "limit: ", "", quantity.words()),
            Refusal::Cycle(cycle) => cycle.write_line(err),
            Refusal::ReadFault(file) => write_line(err, file.word(), "", ": read fault"),
            Refusal::WriteFault => write_line(err, "write fault", "", ""),
            Refusal::NoMemory => write_line(err, "memory", "", ""),
        }
    }
}

/// Writes the text of a fault.
fn write_fault<E: Sink>(err: &mut E, fault: Fault) -> Result<(), Failed>
    ensures exact { OnOk result (E.written err.new ≡ appended (E.written err.old) (text_of (refusal.Faulty fault))) }
    ensures part { OnErr result (AppendsFirst (E.written err.old) (E.written err.new) (text_of (refusal.Faulty fault))) }
    ensures fault { TellsFault (E.faults err.old) (E.faults err.new) (is_err result) }
{
    let (before, number, after) = fault.parts();
    let mut buffer = Buffer::new();
    let digits = buffer.format(number);
    write_line(err, before, digits, after)
}
