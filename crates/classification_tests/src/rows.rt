//! Inputs that are known.

use crate::texts::Input;
use classifier::Verdicts;
use report_text::Verdict;

/// Two registered pairs of low and high, each of which excludes the other.
pub(crate) const PAIRS: Input<'static> = Input {
    ontology: "Low < not High\nLow < Rated\nHigh < Rated\n",
    facts: "Low,u\nHigh,u\nLow,w\nHigh,w\n",
    pairs: "",
    query: "<- Rated('u'), Rated('w')",
};

/// Two watchers of one fact, which no chosen repair has.
pub(crate) const WATCHERS: Input<'static> = Input {
    ontology: "X1 < not F\nX1 < not P\nX1 < not Q\nX2 < not F\nX2 < not R\nX2 < not T\nP < not R\nP < not T\nQ < not R\nQ < not T\n",
    facts: "F,c\nX1,c\nX2,c\nP,c\nQ,c\nR,c\nT,c\nWatcher,k1\nWatcher,k2\n",
    pairs: "2,1\n3,1\n",
    query: "?x <- Watcher(?x), F('c')",
};

/// No question holds.
pub(crate) const NONE: Verdicts = Verdicts {
    brave: Verdict::No,
    ar: Verdict::No,
    iar: Verdict::No,
};

/// Some chosen repairs entail the tuple and others don't.
pub(crate) const SOME: Verdicts = Verdicts {
    brave: Verdict::Yes,
    ar: Verdict::No,
    iar: Verdict::No,
};

/// Some chosen repair entails the tuple, and whether each does is left open.
pub(crate) const SOME_OR_EACH: Verdicts = Verdicts {
    brave: Verdict::Yes,
    ar: Verdict::Undecided,
    iar: Verdict::No,
};

/// Each chosen repair entails the tuple, and what they share doesn't.
pub(crate) const EACH: Verdicts = Verdicts {
    brave: Verdict::Yes,
    ar: Verdict::Yes,
    iar: Verdict::No,
};
