//! Laws of the answers: what each says, and how far a report has been read.

ghost use Rattle.std.specs.Prelude.{ℕ, List};
ghost use Rattle.cq_terms.specs.Knowledge.{Knowledge};
ghost use Rattle.cq_terms.specs.Query.{Query};
ghost use Rattle.refutation_confirmer.specs.declared.confirmed.Confirmed.{Confirmed};
ghost use Rattle.refutation_confirmer.specs.Reading.{ReadingTells};
ghost use Rattle.refutation_confirmer.specs.Saying.{IsRightAnswer, Says};

/// A right answer comes exactly where it is right, and says nothing false.
pub fn right_answers_say_all()
    ensures { (kb : Knowledge) (names : List (List ℕ)) (q : Query) (report : List ℕ) (c : Confirmed)
        → IsRightAnswer kb names q report c → Says kb names q report c }
{}

/// What has been read to its end under an ended place is accepted, and what is broken at the next line is broken first there.
pub fn reading_tells()
    ensures { ReadingTells }
{}
