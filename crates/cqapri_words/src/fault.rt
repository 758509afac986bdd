//! What is wrong with a file, and where.

ghost use Rattle.std.specs.Prelude.{◌≡◌, ◌++◌, decimal};
ghost use Rattle.cqapri_words.specs.Faults.{fault_text};

/// What is wrong with a file, and where: the first fault of its text. Lines and records are counted from 1, bytes and
/// places from 0, each after the byte order marks at the beginning.
#[derive(Clone, Copy, Debug, PartialEq, Eq)]
pub enum Fault {
    /// A line of the ontology that isn't UTF-8.
    LineNotUtf8 { line: u32 },
    /// A line of the ontology that is no axiom.
    BadLine { line: u32 },
    /// A record of facts that has neither two nor three fields.
    BadWidth { number: u32 },
    /// A record of facts with a field that isn't UTF-8.
    RecordNotUtf8 { number: u32 },
    /// A record of facts with an empty field.
    EmptyField { number: u32 },
    /// A record of the priority that doesn't have two fields.
    PairWidth { number: u32 },
    /// A record of the priority with a field that is no number.
    BadNumber { number: u32 },
    /// A record of the priority that names no record of facts.
    NoSuchRecord { number: u32 },
    /// The byte at which the text stops to be a query.
    BadToken { at: u32 },
    /// The place in the head of the query whose variable stood earlier.
    RepeatedHead { place: u32 },
    /// The place in the head of the query whose variable isn't in the body.
    HeadNotInBody { place: u32 },
    /// The line at which a report isn't whole lines with one end at the end.
    ReportLine { line: u64 },
}

impl Fault {
    /// The text of the fault: what stands before its number, the number, and what stands after it.
    pub(crate) fn parts(self) -> (&'static str, u64, &'static str)
        ensures exact { result.0.now ++ (decimal result.1 ++ result.2.now) ≡ fault_text self }
    {
        match self {
            Fault::LineNotUtf8 { line } => ("ontology: line ", u64::from(line), ": not UTF-8"),
            Fault::BadLine { line } => ("ontology: line ", u64::from(line), ": bad line"),
            Fault::BadWidth { number } => ("facts: record ", u64::from(number), ": bad width"),
            Fault::RecordNotUtf8 { number } => ("facts: record ", u64::from(number), ": not UTF-8"),
            Fault::EmptyField { number } => ("facts: record ", u64::from(number), ": empty field"),
            Fault::PairWidth { number } => ("priority: record ", u64::from(number), ": bad width"),
            Fault::BadNumber { number } => ("priority: record ", u64::from(number), ": bad number"),
            Fault::NoSuchRecord { number } => (
                "priority: record ",
                u64::from(number),
                ": no such record",
            ),
            Fault::BadToken { at } => ("query: byte ", u64::from(at), ": bad token"),
            Fault::RepeatedHead { place } => ("query: head place ", u64::from(place), ": repeated"),
            Fault::HeadNotInBody { place } => (
                "query: head place ",
                u64::from(place),
                ": not in body",
            ),
            Fault::ReportLine { line } => ("report: line ", line, ": bad line"),
        }
    }
}
