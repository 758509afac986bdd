//! What holds of the grammar.

ghost use Rattle.query_reader.specs.Faults.{FaultsAreUnique};
ghost use Rattle.query_reader.specs.Grammar.{EachTextHasOneReading};

/// No text is of two queries, none has two first faults, and none has both a reading and a fault.
pub fn laws_of_the_grammar()
    ensures reading { EachTextHasOneReading }
    ensures fault { FaultsAreUnique }
{}
