//! What the inputs of a test had in them, so that a test can say that enough of it was compared.

use plain_chase::{Judged, Judgement, Outcome};

/// How many inputs and answers were of which sort.
#[derive(Clone, Copy, Debug, Default)]
pub(crate) struct Tally {
    /// Inputs of which some facts are in conflict.
    pub(crate) conflicts: usize,
    /// Inputs of which the priority has a cycle.
    pub(crate) cycles: usize,
    /// Inputs whose verdicts over the repairs that nothing improves are others than over all repairs.
    pub(crate) changed: usize,
    /// Answers over all repairs or over those that nothing improves.
    pub(crate) answers: usize,
    /// Answers that no chosen repair entails.
    pub(crate) brave_no: usize,
    /// Answers that some chosen repair entails, and not each.
    pub(crate) brave_alone: usize,
    /// Answers that each chosen repair entails, and not what they have in common.
    pub(crate) ar_alone: usize,
    /// Answers that what the chosen repairs have in common entails, on inputs with a conflict.
    pub(crate) iar_beside_conflicts: usize,
    /// Candidates that no facts entail without nulls.
    pub(crate) by_nulls: usize,
}

impl Tally {
    /// Whether each count is at least the other's.
    pub(crate) fn has(&self, least: &Tally) -> bool {
        self.has_inputs(least)
            && self.answers >= least.answers
            && self.brave_no >= least.brave_no
            && self.brave_alone >= least.brave_alone
            && self.ar_alone >= least.ar_alone
            && self.iar_beside_conflicts >= least.iar_beside_conflicts
            && self.by_nulls >= least.by_nulls
    }

    /// Whether each count of inputs is at least the other's.
    fn has_inputs(&self, least: &Tally) -> bool {
        self.conflicts >= least.conflicts
            && self.cycles >= least.cycles
            && self.changed >= least.changed
    }

    /// Counts an input by what is said over all repairs, over those that nothing improves, and of its candidates by nulls.
    pub(crate) fn count(&mut self, all: &Judgement, chosen: &Judgement, by_nulls: usize) {
        self.by_nulls = self.by_nulls.saturating_add(by_nulls);
        if all.conflicts > 0 {
            self.conflicts = self.conflicts.saturating_add(1);
        }
        self.count_outcome(all);
        self.count_outcome(chosen);
        if is_changed(&all.outcome, &chosen.outcome) {
            self.changed = self.changed.saturating_add(1);
        }
    }

    /// Counts a cycle or answers.
    fn count_outcome(&mut self, judgement: &Judgement) {
        match &judgement.outcome {
            Outcome::Cycle => self.cycles = self.cycles.saturating_add(1),
            Outcome::Answers(judged) => {
                for answer in judged {
                    self.count_answer(answer, judgement.conflicts > 0);
                }
            }
        }
    }

    /// Counts an answer.
    fn count_answer(&mut self, answer: &Judged, has_conflict: bool) {
        self.answers = self.answers.saturating_add(1);
        if !answer.brave {
            self.brave_no = self.brave_no.saturating_add(1);
        }
        if answer.brave && !answer.ar {
            self.brave_alone = self.brave_alone.saturating_add(1);
        }
        if answer.ar && !answer.iar {
            self.ar_alone = self.ar_alone.saturating_add(1);
        }
        if answer.iar && has_conflict {
            self.iar_beside_conflicts = self.iar_beside_conflicts.saturating_add(1);
        }
    }
}

/// Whether both have answers, and they differ.
fn is_changed(all: &Outcome, chosen: &Outcome) -> bool {
    match all {
        Outcome::Answers(first) => differs(first, chosen),
        Outcome::Cycle => false,
    }
}

/// Whether there are answers, and others than these.
fn differs(judged: &[Judged], chosen: &Outcome) -> bool {
    match chosen {
        Outcome::Answers(others) => others.as_slice() != judged,
        Outcome::Cycle => false,
    }
}
