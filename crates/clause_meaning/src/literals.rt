//! Literals as numbers: twice the variable, and one more where it is absent.
ghost use Rattle.std.specs.Prelude.{◌≡◌, ◌<◌, ◌^◌, ◌+◌, ◌*◌, IsTrue, ◌↔◌};
ghost use Rattle.clause_meaning.specs.Literals as lits;

/// The literal that says the contrary.
#[tactic(auto, unfolding(crate::specs::Literals::opposite_of))]
pub fn opposite(literal: u32) -> u32
    ensures { result ≡ lits.opposite_of literal }
{
    if literal % 2 == 0 {
        literal + 1
    } else {
        literal - 1
    }
}

/// The variable of which the literal speaks.
#[tactic(auto, unfolding(crate::specs::Literals::variable_of))]
pub fn variable_of(literal: u32) -> u32
    ensures { result ≡ lits.variable_of literal }
{
    literal / 2
}

/// Whether the literal says that its variable is present.
#[tactic(auto, unfolding(crate::specs::Literals::is_present))]
pub fn is_present(literal: u32) -> bool
    ensures { result ≡ lits.is_present literal }
{
    literal % 2 == 0
}

/// The literal that says of a variable that it is present, or absent.
#[tactic(auto, unfolding(crate::specs::Literals::variable_of, crate::specs::Literals::is_present))]
pub fn literal_of(variable: u32, present: bool) -> u32
    requires { variable < 2 ^ 31 }
    ensures variable { lits.variable_of result ≡ variable }
    ensures present { lits.is_present result ≡ present }
{
    if present {
        2 * variable
    } else {
        2 * variable + 1
    }
}

/// Whether each literal has a variable below the number of variables.
pub fn are_below(variables: u32, literals: &[u32]) -> bool
    ensures { IsTrue result ↔ lits.AreBelow variables literals.now }
{
    literals
        .iter()
        .all(|literal| variable_of(*literal) < variables)
}
