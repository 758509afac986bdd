//! What a classification counts.

ghost use Rattle.std.specs.Prelude.{◌≡◌, ◌<◌, ◌≤◌, ◌-◌, ◌^◌};
ghost use Rattle.report_rules.specs.Rules.{is_yes};
ghost use Rattle.classifier.specs.WholeReports.{one_if, with_verdicts, AreAtMostAnswers};

use crate::Verdicts;
use report_text::Verdict;

/// How many answers there are, how many have each verdict yes, and how many have an undecided question.
#[derive(Clone, Copy, Debug, Default, PartialEq, Eq)]
pub struct Summary {
    /// How many answers there are.
    pub answers: u64,
    /// In how many of them brave is yes.
    pub brave: u64,
    /// In how many of them AR is yes.
    pub ar: u64,
    /// In how many of them IAR is yes.
    pub iar: u64,
    /// In how many of them some verdict is undecided.
    pub undecided: u64,
}

impl Summary {
    /// Counts an answer.
    pub(crate) fn count(&mut self, verdicts: Verdicts)
        requires few { self.old.answers < 2 ^ 64 - 1 }
        requires most { AreAtMostAnswers self.old }

        ensures exact { self.new ≡ with_verdicts self.old verdicts }
    {
        self.answers += 1;
        self.brave += one_if(is_yes(verdicts.brave));
        self.ar += one_if(is_yes(verdicts.ar));
        self.iar += one_if(is_yes(verdicts.iar));
        self.undecided += one_if(verdicts.has_undecided());
    }
}

/// Whether the verdict is yes.
fn is_yes(verdict: Verdict) -> bool
    ensures { result ≡ is_yes verdict }
{
    match verdict {
        Verdict::Yes => true,
        Verdict::No => false,
        Verdict::Undecided => false,
    }
}

/// One where it is so, and else nothing.
fn one_if(is_so: bool) -> u64
    ensures exact { result ≡ one_if is_so }
    ensures small { result ≤ 1 }
{
    if is_so { 1 } else { 0 }
}
