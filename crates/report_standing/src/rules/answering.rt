//! The rule of an `answer` line.

ghost use Rattle.std.specs.Prelude.{◌≡◌, ◌↔◌, IsTrue, Some, map, slice_get, string_bytes};
ghost use Rattle.std.specs.List.{AllZip};
ghost use Rattle.report_laws.specs.AtStanding.{AnswerAt};
ghost use Rattle.report_standing.specs.RuleParts.{NamesCores, SaysSettled};

use crate::standing::Standing;
use cq_terms::{Kb, Names};
use report_parts::{are_below_long, ascend_long, has_longs};
use report_text::{Question, Verdict};

/// Whether the text is that of the individual.
fn is_text_of(individuals: &Names, individual: u32, text: &str) -> bool
    ensures exact { IsTrue result ↔ (slice_get individuals.now individual ≡ Some text.now) }
{
    (individual as usize) < individuals.len() && individuals.text(individual) == text
}

/// Whether the texts are those of the individuals, each in its turn.
fn are_texts_of(individuals: &Names, tuple: &[u32], texts: &[String]) -> bool
    ensures exact { IsTrue result
        ↔ AllZip (λ c text. slice_get individuals.now c ≡ Some text) tuple.now (map string_bytes texts.now) }
{
    if tuple.len() != texts.len() {
        return false;
    }
    for place in 0..tuple.len() {
        if !is_text_of(individuals, tuple[place], texts[place].as_str()) {
            return false;
        }
    }
    true
}

impl Standing {
    /// Whether the ascending numbers are those of cores, and all that the tries of the answer name are among them.
    fn names_cores(&self, cores: &[u64]) -> bool
        ensures exact { IsTrue result ↔ NamesCores self.now cores.now }
    {
        if !ascend_long(cores) {
            return false;
        }
        are_below_long(cores, self.cores.len() as u64) && has_longs(cores, true, &self.named)
    }

    /// Whether the verdicts are those that the answer has to have.
    fn says_settled(
        &self,
        kb: &Kb,
        cores: &[u64],
        brave: Verdict,
        ar: Verdict,
        iar: Verdict,
    ) -> bool
        ensures exact { IsTrue result ↔ SaysSettled kb.now self.now cores.now brave ar iar }
    {
        self.is_verdict(kb, cores, Question::Brave, brave)
            && self.is_verdict(kb, cores, Question::Ar, ar)
            && self.is_verdict(kb, cores, Question::Iar, iar)
    }

    /// Whether the answer is of the candidate that was asked, with its texts, names cores of its tries and earlier ones, and has the
    /// verdicts that it has to have.
    pub fn is_right_answer(
        &self,
        kb: &Kb,
        individuals: &Names,
        brave: Verdict,
        ar: Verdict,
        iar: Verdict,
        cores: &[u64],
        names: &[String],
        tuple: &[u32],
    ) -> bool
        ensures exact { IsTrue result ↔ AnswerAt kb.now individuals.now self.now brave ar iar cores.now
            (map string_bytes names.now) tuple.now }
    {
        tuple == self.asked.tuple.as_slice()
            && are_texts_of(individuals, tuple, names)
            && self.names_cores(cores)
            && self.says_settled(kb, cores, brave, ar, iar)
    }
}
