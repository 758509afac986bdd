//! What holds of the grammar and of the numbers.

ghost use Rattle.axiom_reader.specs.Numbering.{KeepsNumbers, NumbersByFirstAppearance};
ghost use Rattle.axiom_reader.specs.Reading.{EachLineGivesOneThing, EachTextHasOneReading};

/// Each line gives exactly one thing, and no text has two readings.
pub fn one_reading()
    ensures line { EachLineGivesOneThing }
    ensures text { EachTextHasOneReading }
{}

/// What is numbered is numbered by first appearance.
pub fn first_appearance()
    ensures next { NumbersByFirstAppearance }
    ensures kept { KeepsNumbers }
{}
