//! Writes facts by their names.

ghost use Rattle.std.specs.Prelude.{◌≡◌, ◌<◌, ◌++◌, length, All, OnOk, OnErr, is_err};
ghost use Rattle.cq_io.specs.Faults.{TellsFault};
ghost use Rattle.cq_io.specs.Writing.{appended};
ghost use Rattle.cqapri_words.specs.Cycles.{IsNamedFact, fact_text, facts_at, facts_text, later_text};
ghost use Rattle.cqapri_words.specs.Pieces.{AppendsFirst};

use crate::write_pieces;
use cq_io::{Failed, Sink};
use cq_terms::{Fact, Vocab};

/// Writes the facts of these numbers, separated by a comma and a space, and stops at a piece that fails.
pub(crate) fn write_facts<S: Sink>(
    sink: &mut S,
    vocab: &Vocab,
    facts: &[Fact],
    numbers: &[u32],
) -> Result<(), Failed>
    requires numbered { All (λ n. n < length facts.now) numbers.now }
    requires named { All (IsNamedFact vocab.now) facts.now }

    ensures exact { OnOk result (S.written sink.new ≡ appended (S.written sink.old) (facts_text vocab.now (facts_at facts.now numbers.now))) }
    ensures part { OnErr result (AppendsFirst (S.written sink.old) (S.written sink.new) (facts_text vocab.now (facts_at facts.now numbers.now))) }
    ensures fault { TellsFault (S.faults sink.old) (S.faults sink.new) (is_err result) }
{
    let Some((first, later)) = numbers.split_first() else {
        return Ok(());
    };
    write_fact(sink, vocab, b"", facts[*first as usize])?;
    write_later(sink, vocab, facts, later)
}

/// Writes the facts of these numbers, a comma and a space before each.
fn write_later<S: Sink>(
    sink: &mut S,
    vocab: &Vocab,
    facts: &[Fact],
    numbers: &[u32],
) -> Result<(), Failed>
    requires numbered { All (λ n. n < length facts.now) numbers.now }
    requires named { All (IsNamedFact vocab.now) facts.now }

    ensures exact { OnOk result (S.written sink.new ≡ appended (S.written sink.old) (later_text vocab.now facts.now numbers.now)) }
    ensures part { OnErr result (AppendsFirst (S.written sink.old) (S.written sink.new) (later_text vocab.now facts.now numbers.now)) }
    ensures fault { TellsFault (S.faults sink.old) (S.faults sink.new) (is_err result) }
{
    for number in numbers {
        write_fact(sink, vocab, b", ", facts[*number as usize])?;
    }
    Ok(())
}

/// Writes the bytes and the fact, as `A(a)` or `P(a,b)`.
fn write_fact<S: Sink>(sink: &mut S, vocab: &Vocab, before: &[u8], fact: Fact) -> Result<(), Failed>
    requires named { IsNamedFact vocab.now fact }

    ensures exact { OnOk result (S.written sink.new ≡ appended (S.written sink.old) (before.now ++ fact_text vocab.now fact)) }
    ensures part { OnErr result (AppendsFirst (S.written sink.old) (S.written sink.new) (before.now ++ fact_text vocab.now fact)) }
    ensures fault { TellsFault (S.faults sink.old) (S.faults sink.new) (is_err result) }
{
    match fact {
        Fact::Concept { pred, ind } => {
            let concept = vocab.concepts.text(pred);
            let name = vocab.inds.text(ind);
            write_pieces(
                sink,
                &[before, concept.as_bytes(), b"(", name.as_bytes(), b")"],
            )
        }
        Fact::Link { pred, from, to } => {
            let role = vocab.roles.text(pred);
            let first = vocab.inds.text(from);
            let second = vocab.inds.text(to);
            write_pieces(
                sink,
                &[
                    before,
                    role.as_bytes(),
                    b"(",
                    first.as_bytes(),
                    b",",
                    second.as_bytes(),
                    b")",
                ],
            )
        }
    }
}
