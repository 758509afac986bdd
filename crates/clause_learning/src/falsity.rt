//! On which levels literals became false.

ghost use Rattle.std.specs.Prelude.{◌≡◌, ◌≢◌, ◌⊎◌, ◌<◌, ℕ, true, false, All, Contains};
ghost use Rattle.clause_meaning.specs.Literals.{opposite_of, variable_of, AreBelow};
ghost use Rattle.cdcl_trail.specs.Assigned.{IsTrueOn};
ghost use Rattle.cdcl_trail.specs.Table.{AreDistinct};
ghost use Rattle.clause_learning.specs.Levels.{IsKnownAt, BecameFalse};
ghost use Rattle.clause_learning.specs.Resolving.{IsOpen};
ghost use Rattle.clause_learning.specs.Marking.{CountsAs};

use cdcl_trail::Trail;
use clause_meaning::variable_of;

/// The level on which a literal became false.
pub fn level_of_false(trail: &Trail, literal: u32) -> u32
    requires in_range { variable_of literal < trail.now.variables }
    requires distinct { AreDistinct trail.now.entries }
    requires refuted { IsTrueOn trail.now.entries (opposite_of literal) }

    ensures { BecameFalse trail.now.entries result literal }
{
    trail.level_of(variable_of(literal))
}

/// Whether the literal is false, and not on level 0.
pub fn is_open(trail: &Trail, literal: u32) -> bool
    requires in_range { variable_of literal < trail.now.variables }
    requires distinct { AreDistinct trail.now.entries }

    ensures fresh { result ≡ true → IsOpen trail.now.entries literal }
    ensures fixed { result ≡ false → IsTrueOn trail.now.entries (opposite_of literal)
        → IsKnownAt trail.now.entries 0 (opposite_of literal) }
{
    match trail.value(literal) {
        Some(false) => level_of_false(trail, literal) > 0,
        Some(true) => false,
        None => false,
    }
}

/// How many literals of the current level this false literal is: one or none.
pub fn count_newest(trail: &Trail, literal: u32) -> usize
    requires in_range { variable_of literal < trail.now.variables }
    requires distinct { AreDistinct trail.now.entries }
    requires refuted { IsTrueOn trail.now.entries (opposite_of literal) }

    ensures { CountsAs trail.now literal result }
{
    if level_of_false(trail, literal) == trail.level() {
        1
    } else {
        0
    }
}

/// The level on which a literal became false, 0 where it is the one that doesn't count.
fn level_unless(trail: &Trail, literal: u32, except: u32) -> u32
    requires in_range { variable_of literal < trail.now.variables }
    requires distinct { AreDistinct trail.now.entries }
    requires refuted { IsTrueOn trail.now.entries (opposite_of literal) }

    ensures known { literal ≢ except → IsKnownAt trail.now.entries result (opposite_of literal) }
    ensures reached { (result ≡ 0)
        ⊎ ((literal ≢ except) × BecameFalse trail.now.entries result literal) }
{
    if literal == except {
        return 0;
    }
    level_of_false(trail, literal)
}

/// The highest level on which a literal other than this one became false, 0 where there is no other.
pub fn highest_other(trail: &Trail, literals: &[u32], except: u32) -> u32
    requires in_range { AreBelow trail.now.variables literals.now }
    requires distinct { AreDistinct trail.now.entries }
    requires refuted { All (λ k. IsTrueOn trail.now.entries (opposite_of k)) literals.now }

    ensures known { (k : ℕ) → Contains literals.now k → k ≢ except
        → IsKnownAt trail.now.entries result (opposite_of k) }
    ensures reached { (result ≡ 0) ⊎ ((k : ℕ) × Contains literals.now k × (k ≢ except)
        × BecameFalse trail.now.entries result k) }
{
    let mut highest = 0u32;
    for literal in literals {
        highest = highest.max(level_unless(trail, *literal, except));
    }
    highest
}
