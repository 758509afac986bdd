//! The places of a query text, and the fault where no token that may stand at a place does.

ghost use Rattle.std.specs.Prelude.{◌≡◌, ◌≢◌, ℕ, List, [], ◌∷◌, IsTrue, IfSome, IfNone};
ghost use Rattle.query_reader.specs.Faults.{IsStuck, may_end, may_stand};
ghost use Rattle.query_reader.specs.Parts.{ends_early};
ghost use Rattle.query_reader.specs.Tokens.{Token, Stands, constant};

use crate::constant::left_inside;
use crate::token::mark_at;

/// What comes next in a query text.
#[derive(Clone, Copy, Debug, PartialEq, Eq)]
pub(crate) enum Place {
    /// A variable of the head, or the arrow.
    Head,
    /// The arrow: a variable of the head ends right here.
    BehindVariable,
    /// The name of an atom.
    AtomName,
    /// The opening parenthesis.
    Opening,
    /// The first term of an atom.
    FirstTerm,
    /// A comma, or the closing parenthesis.
    BehindFirst,
    /// The second term of an atom.
    SecondTerm,
    /// The closing parenthesis.
    Closing,
    /// A comma, or the end of the text.
    BehindAtom,
}

/// The first fault of a text.
#[derive(Clone, Copy, Debug, PartialEq, Eq)]
pub(crate) struct Fault {
    /// How many bytes are left from the fault on.
    pub left: usize,
}

impl Place {
    ghost use Rattle.query_reader.specs.Faults.{may_stand};
    ghost use Rattle.query_reader.specs.Tokens.{variable, constant, arrow};

    /// Whether a variable may stand here.
    fn takes_variable(self) -> bool
        ensures exact { result ≡ may_stand self (variable []) }
    {
        matches!(self, Place::Head | Place::FirstTerm | Place::SecondTerm)
    }

    /// Whether the arrow may stand here.
    fn takes_arrow(self) -> bool
        ensures exact { result ≡ may_stand self arrow }
    {
        matches!(self, Place::Head | Place::BehindVariable)
    }

    /// Whether a constant may stand here.
    fn takes_constant(self) -> bool
        ensures exact { result ≡ may_stand self (constant []) }
    {
        matches!(self, Place::FirstTerm | Place::SecondTerm)
    }
}

/// The fault at a place behind its gap, where no token that may stand there does.
pub(crate) fn fault_at(text: &[u8], place: Place) -> Fault
    requires none { (token : Token) (after : List ℕ) → IsTrue (may_stand place token)
        → ¬ (Stands token text.now after) }
    requires more { IsTrue (may_end place) → text.now ≢ [] }

    ensures exact { IsStuck place text.now result.left }
{
    if ends_early(text, place) {
        return Fault { left: 0 };
    }
    match opened(text, place) {
        Some(later) => Fault {
            left: left_inside(later),
        },
        None => Fault { left: text.len() },
    }
}

/// Whether the text is nothing, or a mark whose token may stand at the place.
fn ends_early(text: &[u8], place: Place) -> bool
    ensures exact { result ≡ ends_early place text.now }
{
    text.is_empty()
        || text == b"?".as_slice() && place.takes_variable()
        || text == b"<".as_slice() && place.takes_arrow()
}

/// The bytes behind the opening quote of a constant, which may stand at the place.
fn opened(text: &[u8], place: Place) -> Option<&[u8]>
    ensures found { IfSome result (λ later. text.now ≡ 39 ∷ later.now) }
    ensures takes { IfSome result (λ later. IsTrue (may_stand place (constant []))) }
    ensures none { IfNone result
        (IsTrue (may_stand place (constant [])) → (later : List ℕ) → text.now ≢ 39 ∷ later) }
{
    if place.takes_constant() {
        mark_at(text, b'\'')
    } else {
        None
    }
}
