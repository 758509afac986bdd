//! Inputs that are refused before a line is written.

ghost use Rattle.std.specs.Prelude.{◌<◌, ◌^◌};

use crate::reports::LIMITS;
use crate::texts::{Input, read};
use cq_terms::Repairs;
use preparation::{Limits, PrepareRefusal, prepare};
use std::alloc::Global;
use std::test::Fail;

/// Two sources that disagree on ann, with each fact better than the other.
const CYCLE: Input<'static> = Input {
    ontology: "Prof < Staff\nStudent < not Staff\n",
    facts: "Prof,ann\nStudent,ann\n",
    pairs: "1,2\n2,1\n",
    query: "?x <- Staff(?x)",
};

/// A query whose closure has four members.
const FOUR: Input<'static> = Input {
    ontology: "A1 < A\nA2 < A\nA3 < A\n",
    facts: "A2,a\n",
    pairs: "",
    query: "?x <- A(?x)",
};

/// Why the input is refused, where it is.
fn refusal(
    alloc: Global,
    input: &Input<'_>,
    repairs: Repairs,
    limits: &Limits,
) -> Result<Option<PrepareRefusal>, Fail>
    requires few { limits.now.conflicts < 2 ^ 31 }
{
    let told = read(alloc, input)?;
    let prepared = prepare(alloc, &told.kb, &told.query, repairs, limits);
    Ok(prepared.err())
}

#[test]
fn a_cycle_is_told_by_its_facts(rt: HostRuntime) -> Result<(), Fail> {
    let refusal = refusal(rt.alloc(), &CYCLE, Repairs::Pareto, &LIMITS)?;
    match refusal {
        Some(PrepareRefusal::Cycle { facts }) => {
            assert!(rt; facts.as_slice() == [0, 1].as_slice(), "{facts:?}");
        }
        _ => assert!(rt; false, "no cycle"),
    }
    Ok(())
}

#[test]
fn over_all_repairs_a_cycle_plays_no_part(rt: HostRuntime) -> Result<(), Fail> {
    let refusal = refusal(rt.alloc(), &CYCLE, Repairs::All, &LIMITS)?;
    assert!(rt; refusal.is_none());
    Ok(())
}

/// Why the query with four members is refused under a limit of members.
fn refusal_of_members(alloc: Global, members: u32) -> Result<Option<PrepareRefusal>, Fail> {
    let limits = Limits { members, ..LIMITS };
    refusal(alloc, &FOUR, Repairs::Pareto, &limits)
}

#[test]
fn a_closure_of_four_members_passes_a_limit_of_four(rt: HostRuntime) -> Result<(), Fail> {
    let four = refusal_of_members(rt.alloc(), 4)?;
    assert!(rt; four.is_none());
    let three = refusal_of_members(rt.alloc(), 3)?;
    assert!(rt; matches!(&three, Some(PrepareRefusal::Members)));
    Ok(())
}

#[test]
fn conflicts_come_before_a_cycle(rt: HostRuntime) -> Result<(), Fail> {
    let limits = Limits {
        conflicts: 0,
        ..LIMITS
    };
    let refusal = refusal(rt.alloc(), &CYCLE, Repairs::Pareto, &limits)?;
    assert!(rt; matches!(&refusal, Some(PrepareRefusal::Conflicts)));
    Ok(())
}

/// Why the query with four members, of which one matches, is refused under a limit of supports.
fn refusal_of_supports(alloc: Global, supports: u64) -> Result<Option<PrepareRefusal>, Fail> {
    let limits = Limits { supports, ..LIMITS };
    refusal(alloc, &FOUR, Repairs::Pareto, &limits)
}

#[test]
fn a_support_passes_a_limit_of_one(rt: HostRuntime) -> Result<(), Fail> {
    let one = refusal_of_supports(rt.alloc(), 1)?;
    assert!(rt; one.is_none());
    let none = refusal_of_supports(rt.alloc(), 0)?;
    assert!(rt; matches!(&none, Some(PrepareRefusal::Supports)));
    Ok(())
}
