//! The lines of a report, as a type.

use cq_steps::Move;
use cq_terms::{Cq, IdLists, Ids, Longs, Repairs, Texts};

/// A question on a candidate.
#[derive(Clone, Copy, Debug, PartialEq, Eq)]
pub enum Question {
    /// Whether some chosen repair entails the tuple.
    Brave,
    /// Whether the facts that all chosen repairs share entail the tuple.
    Iar,
    /// Whether each chosen repair entails the tuple.
    Ar,
}

/// What an answer says of a question.
#[derive(Clone, Copy, Debug, PartialEq, Eq)]
pub enum Verdict {
    /// The tuple is an answer.
    Yes,
    /// The tuple is no answer.
    No,
    /// The question is left open.
    Undecided,
}

/// How a try ended.
#[derive(Clone, Copy, Debug, PartialEq, Eq)]
pub enum How {
    /// A core shows that the assumptions can hold.
    Model,
    /// The clauses refute the assumptions.
    Refuted,
    /// As many clauses were learned as are allowed, and nothing is known.
    Spent,
}

/// Of which query a closure is.
#[derive(Clone, Copy, Debug, PartialEq, Eq)]
pub enum Origin {
    /// The query that was asked.
    Query,
    /// The query of a negative axiom, by the axiom's number.
    Negative(u32),
}

/// A line of a report.
#[derive(Debug, Drop)]
pub enum Line {
    /// The sizes of the input, the options, and the version of the form.
    Head {
        /// How many axioms there are.
        axioms: u32,
        /// How many clauses may be learned for a question.
        budget: u64,
        /// How many distinct facts there are.
        facts: u32,
        /// How many learned clauses are kept.
        keep: u64,
        /// Which repairs are the chosen ones.
        repairs: Repairs,
        /// Which rules the lines obey.
        version: u32,
    },
    /// A query of a closure, with the move that made it.
    Cq {
        /// Of which query the closure is.
        origin: Origin,
        /// The query.
        query: Cq,
        /// The place of the query in the closure from which the move made this one, and the move; `None` for the first.
        step: Option<(u32, Move)>,
    },
    /// A self-inconsistent fact, or two facts in conflict.
    Conflict {
        /// The numbers of the facts, one or two.
        facts: Ids,
        /// The number of the negative axiom that the facts contradict.
        axiom: u32,
        /// The place in the axiom's closure of a query that matches with the facts.
        member: u32,
    },
    /// A candidate with its causes.
    Ask {
        /// The candidate's number, from 0.
        candidate: u32,
        /// The numbers of the tuple's individuals.
        tuple: Ids,
        /// The numbers of the facts of each cause.
        causes: IdLists,
        /// For each cause the place in the query's closure of a query that matches with it.
        members: Ids,
    },
    /// What is assumed for a question on the candidate.
    Try {
        /// The question.
        question: Question,
        /// The literals that are assumed.
        assume: Ids,
    },
    /// A clause that follows from those before.
    Learn {
        /// The clause's number, from 0.
        number: u64,
        /// The literals of the clause.
        clause: Ids,
    },
    /// A core: facts that some chosen repair contains, and facts that it lacks.
    Core {
        /// The core's number, from 0.
        number: u64,
        /// The numbers of the facts that are kept.
        kept: Ids,
        /// The numbers of the facts that are dropped.
        dropped: Ids,
    },
    /// How a try ended.
    Done {
        /// How it ended.
        how: How,
        /// The number of the core that is the model, and else none.
        core: Option<u64>,
    },
    /// Learned clauses that are no longer used.
    Forget {
        /// The numbers of the clauses.
        clauses: Longs,
    },
    /// A candidate with its verdicts.
    Answer {
        /// Whether some chosen repair entails the tuple.
        brave: Verdict,
        /// Whether each chosen repair entails the tuple.
        ar: Verdict,
        /// Whether the facts that all chosen repairs share entail the tuple.
        iar: Verdict,
        /// The numbers of the cores that show the verdicts.
        cores: Longs,
        /// The names of the tuple's individuals.
        names: Texts,
        /// The numbers of the tuple's individuals.
        tuple: Ids,
    },
    /// How many answers there are, how many have each verdict yes, and how many have an undecided question.
    End {
        /// How many answer lines there are.
        answers: u64,
        /// In how many of them `brave` is yes.
        brave: u64,
        /// In how many of them `ar` is yes.
        ar: u64,
        /// In how many of them `iar` is yes.
        iar: u64,
        /// In how many of them some verdict is undecided.
        undecided: u64,
    },
}
