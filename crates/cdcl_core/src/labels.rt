//! What is known of a live clause beside its literals, and which clauses go.

ghost use Rattle.std.specs.Prelude.{◌≡◌, [], length};
ghost use Rattle.cdcl_core.specs.State.{mentions, put_number};
ghost use Rattle.cdcl_core.specs.Labels.{is_taken};

use clause_meaning::variable_of;

/// The number of a learned clause, none for a given one, and whether the clause is going.
#[derive(Clone, Copy)]
pub struct Label {
    /// The number, where the clause was learned.
    pub number: Option<u64>,
    /// Whether the clause was dropped from the arena.
    pub goes: bool,
}

/// Which clauses are dropped.
#[derive(Clone, Copy)]
pub enum Selection {
    /// Those with a literal of the variable.
    With(u32),
    /// The learned clause of the number.
    Numbered(u64),
}

impl Label {
    /// How many learned clauses it stands for: one, or none.
    pub fn count(&self) -> u64
        ensures { result ≡ length (put_number self.now.number []) }
    {
        match self.number {
            Some(_) => 1,
            None => 0,
        }
    }
}

impl Selection {
    /// Whether the clause is among them.
    pub fn takes(self, number: Option<u64>, literals: &[u32]) -> bool
        ensures { result ≡ is_taken self (record { number = number; literals = literals.now }) }
    {
        match self {
            Selection::With(variable) => has_variable(literals, variable),
            Selection::Numbered(wanted) => match number {
                Some(number) => number == wanted,
                None => false,
            },
        }
    }
}

/// Whether a literal has the variable.
fn has_variable(literals: &[u32], variable: u32) -> bool
    ensures { result ≡ mentions variable literals.now }
{
    literals
        .iter()
        .any(|literal| variable_of(*literal) == variable)
}
