//! A clause that is dropped and one that stays, worked by hand.

ghost use Rattle.std.specs.Prelude.{◌≡◌, ◌≢◌, [], IfOk};
ghost use Rattle.clause_meaning.specs.Literals.{HaveDistinctVariables};
ghost use Rattle.clause_arena.specs.State.{Holds, with_clause};

use clause_arena::*;
use clause_meaning::are_below;
use std::process::Abort;
use std::test::Fail;

/// Adds a clause to an arena of three variables.
fn put(rt: &impl Abort, arena: &mut Arena, literals: &[u32]) -> Result<ClauseRef, Fail>
    requires three { arena.old.variables ≡ 3 }
    requires some { literals.now ≢ [] }
    requires distinct { HaveDistinctVariables literals.now }
    ensures { IfOk result (λ clause. Holds arena.old arena.new (with_clause arena.old.live clause.place literals.now)) }
{
    assert!(rt; are_below(3, literals));
    let clause = arena.push(literals)?;
    Ok(clause)
}

/// The first live clause has the reference and the literals, and there is no other.
fn expect_alone(rt: &impl Abort, arena: &Arena, clause: ClauseRef, literals: &[u32]) {
    match arena.first() {
        None => panic!(rt; "no clause"),
        Some(first) => {
            assert!(rt; first == clause);
            assert!(rt; arena.view(first) == literals);
            assert!(rt; arena.next(first).is_none());
        }
    }
}

#[test]
#[tactic(auto, using(crate::proofs::ArenasTestLemmas::distinct_three, crate::proofs::ArenasTestLemmas::distinct_two))]
fn the_second_clause_stays(rt: HostRuntime) -> Result<(), Fail> {
    let mut arena = Arena::new(rt.alloc(), 3)?;
    arena.reserve(3)?;
    let dropped = put(&rt, &mut arena, &[0, 3, 5])?;
    let kept = put(&rt, &mut arena, &[1, 2])?;
    assert!(rt; arena.first() == Some(dropped));
    assert!(rt; arena.next(dropped) == Some(kept));
    arena.drop_clause(dropped);
    let mut refs = [kept];
    expect_alone(&rt, &arena, refs[0], &[1, 2]);
    arena.compact(&mut refs);
    expect_alone(&rt, &arena, refs[0], &[1, 2]);
    Ok(())
}
