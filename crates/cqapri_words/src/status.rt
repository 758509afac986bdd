//! How a call of `run` ended.

ghost use Rattle.std.specs.Prelude.{◌≡◌};
ghost use Rattle.cqapri_words.specs.Status.{code_of};

/// How a call of `run` ended. Its number is the exit status of the program.
#[derive(Clone, Copy, Debug, PartialEq, Eq)]
pub enum Status {
    /// All questions are decided, or the report is accepted.
    Done,
    /// Some question is undecided, or the report isn't accepted.
    Open,
    /// The words are none of the program's.
    Words,
    /// A file isn't there, isn't in form, or the priority has a cycle.
    Refused,
    /// A file could not be read.
    ReadFault,
    /// The output could not be written.
    WriteFault,
    /// A quantity is beyond its limit.
    Limit,
    /// Memory ran out.
    NoMemory,
}

impl Status {
    /// The number of the status, from 0 to 7 in the order above.
    pub fn code(self) -> u8
        ensures exact { result ≡ code_of self }
    {
        match self {
            Status::Done => 0,
            Status::Open => 1,
            Status::Words => 2,
            Status::Refused => 3,
            Status::ReadFault => 4,
            Status::WriteFault => 5,
            Status::Limit => 6,
            Status::NoMemory => 7,
        }
    }
}
