//! The rule of an `end` line.

ghost use Rattle.std.specs.Prelude.{◌≡◌, ◌↔◌, IsTrue};
ghost use Rattle.report_laws.specs.AtStanding.{EndAt};

use crate::standing::Standing;
use plain_finding::Candidate;

impl Standing {
    /// Whether no candidate of the query is left, and its answers are counted.
    pub fn is_right_end(
        &self,
        candidates: &[Candidate],
        answers: u64,
        brave: u64,
        ar: u64,
        iar: u64,
        undecided: u64,
    ) -> bool
        ensures exact { IsTrue result ↔ EndAt candidates.now self.now answers brave ar iar undecided }
    {
        self.answers == candidates.len() as u64
            && answers == self.answers
            && brave == self.brave
            && ar == self.ar
            && iar == self.iar
            && undecided == self.undecided
    }
}
