//! The files that the words name, and the quantities that have limits.

ghost use Rattle.std.specs.Prelude.{◌≡◌, ◌<◌, ◌^◌};
ghost use Rattle.cqapri_words.specs.Files.{file_text, length_of, limit_of, quantity_text};

/// A file that the words name.
#[derive(Clone, Copy, Debug, PartialEq, Eq)]
pub enum File {
    /// The axioms.
    Ontology,
    /// The facts.
    Facts,
    /// The priority between facts.
    Priority,
    /// The query.
    Query,
    /// The report to confirm.
    Report,
}

/// A quantity of the input that has a limit.
#[derive(Clone, Copy, Debug, PartialEq, Eq)]
pub enum Quantity {
    /// The bytes of the ontology, at most 16,777,216.
    OntologyLength,
    /// The axioms, at most 20,000.
    Axioms,
    /// The bytes of the facts, at most 67,108,864.
    FactsLength,
    /// The records of facts, at most 200,000.
    Records,
    /// The bytes of the priority, at most 16,777,216.
    PriorityLength,
    /// The records of the priority, at most 400,000.
    Pairs,
    /// The bytes of the query, at most 65,536.
    QueryLength,
    /// The atoms of the query, at most 12.
    QueryAtoms,
    /// The queries of one closure, at most what the words say.
    Closure,
    /// The self-inconsistent facts and the conflicts, at most what the words say.
    Conflicts,
    /// The pairs of a tuple and a support of it, at most what the words say.
    Supports,
    /// The bytes of a report to confirm, at most 268,435,456.
    ReportLength,
}

impl File {
    /// The word for the file in texts.
    pub fn word(self) -> &'static str
        ensures exact { result.now ≡ file_text self }
    {
        match self {
            File::Ontology => "ontology",
            File::Facts => "facts",
            File::Priority => "priority",
            File::Query => "query",
            File::Report => "report",
        }
    }

    /// How many bytes the file may have.
    pub fn limit(self) -> u64
        ensures exact { result ≡ limit_of self }
        ensures small { result < 2 ^ 32 }
    {
        match self {
            File::Ontology => 16_777_216,
            File::Facts => 67_108_864,
            File::Priority => 16_777_216,
            File::Query => 65_536,
            File::Report => 268_435_456,
        }
    }

    /// The quantity that is the file's length.
    pub fn length(self) -> Quantity
        ensures exact { result ≡ length_of self }
    {
        match self {
            File::Ontology => Quantity::OntologyLength,
            File::Facts => Quantity::FactsLength,
            File::Priority => Quantity::PriorityLength,
            File::Query => Quantity::QueryLength,
            File::Report => Quantity::ReportLength,
        }
    }
}

impl Quantity {
    /// The words for the quantity in texts.
    pub fn words(self) -> &'static str
        ensures exact { result.now ≡ quantity_text self }
    {
        match self {
            Quantity::OntologyLength => "ontology length",
            Quantity::Axioms => "axioms",
            Quantity::FactsLength => "facts length",
            Quantity::Records => "records",
            Quantity::PriorityLength => "priority length",
            Quantity::Pairs => "pairs",
            Quantity::QueryLength => "query length",
            Quantity::QueryAtoms => "query atoms",
            Quantity::Closure => "closure",
            Quantity::Conflicts => "conflicts",
            Quantity::Supports => "supports",
            Quantity::ReportLength => "report length",
        }
    }
}
