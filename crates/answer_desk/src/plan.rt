//! What is asked of a classification, what it answers, and why it fails.

ghost use Rattle.std.specs.Prelude.{◌≡◌};
ghost use Rattle.report_rules.specs.Rules.{is_undecided};
ghost use Rattle.answer_desk.specs.declared.plan.ClassifyFault.TheVariants as fault;
ghost use Rattle.answer_desk.specs.Answering.{has_undecided};

use cdcl_core::SolveFault;
use cq_terms::{NoMemory, Repairs};
use report_text::{LineFault, Verdict};

/// The options of a classification.
#[derive(Clone, Copy, Debug, PartialEq, Eq)]
pub struct Plan {
    /// How many clauses may be learned for one question of one answer.
    pub budget: u64,
    /// How many learned clauses may live before some are forgotten.
    pub keep: u64,
    /// Which repairs are the chosen ones.
    pub repairs: Repairs,
}

/// The three verdicts of an answer.
#[derive(Clone, Copy, Debug, PartialEq, Eq)]
pub struct Verdicts {
    /// Whether some chosen repair entails the tuple.
    pub brave: Verdict,
    /// Whether each chosen repair entails the tuple.
    pub ar: Verdict,
    /// Whether the facts that all chosen repairs share entail the tuple.
    pub iar: Verdict,
}

impl Verdicts {
    /// Whether a verdict is undecided.
    pub fn has_undecided(&self) -> bool
        ensures { result ≡ has_undecided self.now }
    {
        is_undecided(self.brave) || (is_undecided(self.ar) || is_undecided(self.iar))
    }
}

/// Whether the verdict is left open.
fn is_undecided(verdict: Verdict) -> bool
    ensures { result ≡ is_undecided verdict }
{
    match verdict {
        Verdict::Yes => false,
        Verdict::No => false,
        Verdict::Undecided => true,
    }
}

/// Why a classification was given up.
#[derive(Clone, Copy, Debug, PartialEq, Eq)]
pub enum ClassifyFault {
    /// The report failed, and counted it.
    Report,
    /// Memory ran out.
    NoMemory,
}

impl From<NoMemory> for ClassifyFault {
    ghost from_gives = { λ _ f. f ≡ fault.NoMemory };

    fn from(_error: NoMemory) -> ClassifyFault {
        ClassifyFault::NoMemory
    }
}

impl From<LineFault> for ClassifyFault {
    ghost use Rattle.answer_desk.specs.Faults.{of_line};

    ghost from_gives = { λ e f. f ≡ of_line e };

    fn from(error: LineFault) -> ClassifyFault {
        match error {
            LineFault::Failed => ClassifyFault::Report,
            LineFault::NoMemory => ClassifyFault::NoMemory,
        }
    }
}

impl From<SolveFault> for ClassifyFault {
    ghost use Rattle.answer_desk.specs.Faults.{of_solve};

    ghost from_gives = { λ e f. f ≡ of_solve e };

    fn from(error: SolveFault) -> ClassifyFault {
        match error {
            SolveFault::Log => ClassifyFault::Report,
            SolveFault::NoMemory => ClassifyFault::NoMemory,
        }
    }
}
