//! The counts of a clause's variables: raised when it is added, lowered when it goes.

ghost use Rattle.std.specs.Prelude.{◌≡◌, ◌<◌, ◌≤◌, ◌+◌, ◌-◌, ◌^◌, ℕ};
ghost use Rattle.clause_meaning.specs.Literals.{AreBelow, HaveDistinctVariables};
ghost use Rattle.cdcl_trail.specs.State.{count_of};
ghost use Rattle.cdcl_core.specs.Store.{tally, OnlyCounts};

use cdcl_trail::Trail;
use clause_meaning::variable_of;

/// Raises the count of each variable of a clause.
pub fn raise(trail: &mut Trail, literals: &[u32])
    requires in_range { AreBelow trail.old.variables literals.now }
    requires distinct { HaveDistinctVariables literals.now }
    requires room { (v : ℕ) → count_of trail.old v < 2 ^ 64 - 1 }

    ensures raised { (v : ℕ) → count_of trail.new v ≡ count_of trail.old v + tally v literals.now }
    ensures only { OnlyCounts trail.old trail.new }
{
    for literal in literals {
        trail.occur(variable_of(*literal));
    }
}

/// Lowers the count of each variable of a clause.
pub fn lower(trail: &mut Trail, literals: &[u32])
    requires in_range { AreBelow trail.old.variables literals.now }
    requires counted { (v : ℕ) → tally v literals.now ≤ count_of trail.old v }

    ensures lowered { (v : ℕ) → count_of trail.new v + tally v literals.now ≡ count_of trail.old v }
    ensures only { OnlyCounts trail.old trail.new }
{
    for literal in literals {
        trail.vanish(variable_of(*literal));
    }
}
