//! References to clauses.

ghost use Rattle.std.specs.Prelude.{◌≡◌};

/// Names a live clause of an arena. It stays the name of this clause until the clause is dropped or the arena is compacted.
#[derive(Clone, Copy, Debug, PartialEq, Eq)]
pub struct ClauseRef {
    place: usize,
}

/// The reference of a slot.
pub fn reference_of(place: usize) -> ClauseRef
    ensures { result.place ≡ place }
{
    ClauseRef { place }
}

impl ClauseRef {
    /// The slot that it names.
    pub fn place(self) -> usize
        ensures { result ≡ self.place }
    {
        self.place
    }
}
