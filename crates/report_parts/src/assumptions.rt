//! What the literals say that a try assumes.

ghost use Rattle.std.specs.Prelude.{◌≡◌, ◌==◌, ◌∷◌, [], map};
ghost use Rattle.std.specs.Str.{bytes_eq};
ghost use Rattle.repair_clauses.specs.BaseClauses.{absent, present};

/// Whether the literal says that the fact is present.
pub fn is_present_of(literal: u32, fact: u32) -> bool
    ensures exact { result ≡ (literal == present fact) }
{
    literal % 2 == 0 && literal / 2 == fact
}

/// Whether the literals say, each in its turn, that the facts are present.
pub fn are_present(literals: &[u32], facts: &[u32]) -> bool
    ensures exact { result ≡ bytes_eq literals.now (map present facts.now) }
{
    if literals.len() != facts.len() {
        return false;
    }
    for place in 0..literals.len() {
        if !is_present_of(literals[place], facts[place]) {
            return false;
        }
    }
    true
}

/// Whether the one literal says that the fact is absent.
pub fn is_absent_alone(literals: &[u32], fact: u32) -> bool
    ensures exact { result ≡ bytes_eq literals.now (absent fact ∷ []) }
{
    match literals {
        [literal] => *literal % 2 == 1 && *literal / 2 == fact,
        _ => false,
    }
}

/// Whether the one literal says that the variable is present.
pub fn is_present_alone(literals: &[u32], variable: u64) -> bool
    ensures exact { result ≡ bytes_eq literals.now (present variable ∷ []) }
{
    match literals {
        [literal] => *literal % 2 == 0 && u64::from(*literal / 2) == variable,
        _ => false,
    }
}
