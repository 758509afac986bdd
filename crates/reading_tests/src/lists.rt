//! What no clause says: that memory is enough for a small table, and the lists of one.

ghost use Rattle.std.specs.Prelude.{◌≡◌, ◌∷◌, [], IfOk};

use cq_terms::{Clash, Conflicts, Ids, NoMemory};
use std::alloc::Global;
use std::test::Fail;

#[test]
fn each_fact_has_those_that_conflict_with_it(rt: HostRuntime) -> Result<(), Fail> {
    let conflicts = two_against_two(rt.alloc())?;
    assert_eq!(rt; conflicts.of(0), [2, 3].as_slice());
    assert_eq!(rt; conflicts.of(1), [2, 3].as_slice());
    assert_eq!(rt; conflicts.of(2), [0, 1].as_slice());
    assert_eq!(rt; conflicts.of(3), [0, 1].as_slice());
    assert_eq!(rt; conflicts.of(4).len(), 0);
    assert_eq!(rt; conflicts.is_own(3), false);
    assert_eq!(rt; conflicts.is_own(4), true);
    assert_eq!(rt; conflicts.clashes().len(), 5);
    assert_eq!(rt; conflicts.facts(), 5);
    Ok(())
}

/// Facts 0 and 1 conflict with 2 and 3, and fact 4 is self-inconsistent.
fn two_against_two(alloc: Global) -> Result<Conflicts, NoMemory>
    ensures { IfOk result (λ c. c.facts ≡ 5) }
{
    let mut clashes = Vec::new(alloc);
    clashes.push(clash_of_one(alloc, 4)?)?;
    clashes.push(clash_of_two(alloc, 0, 2)?)?;
    clashes.push(clash_of_two(alloc, 0, 3)?)?;
    clashes.push(clash_of_two(alloc, 1, 2)?)?;
    clashes.push(clash_of_two(alloc, 1, 3)?)?;
    Conflicts::new(alloc, 5, clashes)
}

fn clash_of_one(alloc: Global, fact: u32) -> Result<Clash, NoMemory>
    ensures { IfOk result (λ c. c ≡ record { facts = fact ∷ []; «axiom» = 0; member = 0 }) }
{
    let mut facts = Ids::new(alloc);
    facts.push(fact)?;
    Ok(Clash {
        facts,
        axiom: 0,
        member: 0,
    })
}

fn clash_of_two(alloc: Global, lower: u32, upper: u32) -> Result<Clash, NoMemory>
    ensures { IfOk result (λ c. c ≡ record { facts = lower ∷ upper ∷ []; «axiom» = 0; member = 0 }) }
{
    let mut facts = Ids::new(alloc);
    facts.push(lower)?;
    facts.push(upper)?;
    Ok(Clash {
        facts,
        axiom: 0,
        member: 0,
    })
}
