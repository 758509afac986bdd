//! Prepares the answer to what the files say.

ghost use Rattle.std.specs.Prelude.{◌≡◌, All, IfOk, IfErr, OnOk};
ghost use Rattle.preparation.specs.Prepared.{IsPrepared};
ghost use Rattle.input_files.specs.Bounds.{IsBounded};
ghost use Rattle.cqapri_words.specs.Cycles.{IsNamedFact};
ghost use Rattle.cqapri_words.specs.Jobs.{settings_in};
ghost use Rattle.cqapri_words.specs.Words.{AreInRange};
ghost use Rattle.cqapri_cli.specs.Leaving.{IsOfPreparing};
ghost use Rattle.cqapri_cli.specs.Limits.{IsWithinLimits, NamesFacts, StopsPreparing, limits_of, refusal_of_preparing};

use cqapri_words::{Cycle, Options, Quantity, Refusal};
use input_files::Input;
use preparation::{Limits, PrepareRefusal, Prepared, prepare};
use std::alloc::Global;

/// What the files say, and the parts of an answer to it that come before its first line.
#[derive(Drop)]
pub(crate) struct Ready {
    /// What the files say.
    pub(crate) input: Input,
    /// What is known of it.
    pub(crate) prepared: Prepared,
}

/// Finds out what is to be known before the first line.
pub(crate) fn prepare_input(
    alloc: Global,
    input: Input,
    options: &Options,
) -> Result<Ready, Refusal>
    requires bounded { IsBounded input.kb input.query input.vocab }
    requires in_range { AreInRange (settings_in options.now) }

    ensures same { IfOk result (λ ready. ready.input ≡ input) }
    ensures prepared { IfOk result (λ ready. IsPrepared input.kb input.query options.now.repairs ready.prepared) }
    ensures within { OnOk result (IsWithinLimits input.kb input.query (settings_in options.now)) }
    ensures stopped { IfErr result (StopsPreparing input.kb input.query input.vocab (settings_in options.now)) }
    ensures of_preparing { IfErr result IsOfPreparing }
{
    let limits = limits_of(options);
    let _pairs = input.kb.pairs();
    match prepare(alloc, &input.kb, &input.query, options.repairs, &limits) {
        Ok(prepared) => Ok(Ready { input, prepared }),
        Err(why) => Err(refusal_of(why, input)),
    }
}

/// What a refusal is for the job. A cycle takes the facts and the names along.
fn refusal_of(why: PrepareRefusal, input: Input) -> Refusal
    requires named { All (IsNamedFact input.vocab) input.kb.facts }
    requires facts { NamesFacts input.kb.facts why }

    ensures exact { result ≡ refusal_of_preparing input.kb.facts input.vocab why }
    ensures of_preparing { IsOfPreparing result }
{
    match why {
        PrepareRefusal::Members => Refusal::Limit(Quantity::Closure),
        PrepareRefusal::Conflicts => Refusal::Limit(Quantity::Conflicts),
        PrepareRefusal::Cycle { facts } => {
            Refusal::Cycle(Cycle::new(facts, input.kb, input.vocab))
        }
        PrepareRefusal::Supports => Refusal::Limit(Quantity::Supports),
        PrepareRefusal::NoMemory => Refusal::NoMemory,
    }
}

/// The limits of the words.
fn limits_of(options: &Options) -> Limits
    ensures exact { result ≡ limits_of (settings_in options.now) }
{
    Limits {
        members: options.most_queries,
        conflicts: options.most_conflicts,
        supports: options.most_supports,
    }
}
