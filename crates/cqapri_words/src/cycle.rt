//! A cycle of the priority, with the names of its facts, seen as these facts and the names.

ghost use Rattle.std.specs.Prelude.{◌≡◌, ◌<◌, length, All, OnOk, OnErr, is_err};
ghost use Rattle.cq_io.specs.Faults.{TellsFault};
ghost use Rattle.cq_io.specs.Writing.{appended};
ghost use Rattle.cqapri_words.specs.Cycles.{IsNamedFact, cycle_line, facts_at};
ghost use Rattle.cqapri_words.specs.Pieces.{AppendsFirst};

use crate::fact_texts::write_facts;
use crate::write_pieces;
use cq_io::{Failed, Sink};
use cq_terms::{Ids, Kb, Vocab};
use std::marker::Model;

/// Facts that are each better than the next, and the last than the first, with their names.
#[derive(Debug, Drop)]
pub struct Cycle {
    numbers: Ids,
    kb: Kb,
    vocab: Vocab,
}

impl Model for Cycle {
    ghost use Rattle.std.specs.Prelude.{◌<◌, length, All};
    ghost use Rattle.cqapri_words.specs.Cycles.{IsNamedFact, NamedCycle, facts_at};

    ghost Value = { NamedCycle };

    ghost view = { λ a. record { facts = facts_at a.kb.facts a.numbers; vocab = a.vocab } };

    ghost invariant = { λ a. All (λ n. n < length a.kb.facts) a.numbers × All (IsNamedFact a.vocab) a.kb.facts };
}

impl Cycle {
    /// The cycle of the facts with these numbers, in this order. It takes no memory of its own.
    pub fn new(numbers: Ids, kb: Kb, vocab: Vocab) -> Cycle
        requires numbered { All (λ n. n < length kb.facts) numbers }
        requires named { All (IsNamedFact vocab) kb.facts }

        ensures exact { result ≡ record { facts = facts_at kb.facts numbers; vocab = vocab } }
    {
        Cycle { numbers, kb, vocab }
    }

    /// Writes the line that tells the cycle, piece by piece, and stops at one that fails. It takes no memory.
    pub(crate) fn write_line<S: Sink>(&self, sink: &mut S) -> Result<(), Failed>
        ensures exact { OnOk result (S.written sink.new ≡ appended (S.written sink.old) (cycle_line self.now)) }
        ensures part { OnErr result (AppendsFirst (S.written sink.old) (S.written sink.new) (cycle_line self.now)) }
        ensures fault { TellsFault (S.faults sink.old) (S.faults sink.new) (is_err result) }
    {
        write_pieces(sink, &[b"cqapri: priority: cycle: "])?;
        write_facts(sink, &self.vocab, self.kb.facts(), self.numbers.as_slice())?;
        write_pieces(sink, &[b"\n"])
    }
}
