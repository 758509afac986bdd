//! That no table has two readings.

ghost use Rattle.std.specs.Prelude.{ℕ, List};
ghost use Rattle.fact_tables.specs.FactRecords.{FactFault, HasFault as HasFactFault, IsFactRecord, most_records};
ghost use Rattle.fact_tables.specs.PairRecords.{HasFault as HasPairFault, IsPairRecord, PairFault, most_pairs};
ghost use Rattle.fact_tables.specs.Tables.{HasOneReading};

/// A table is read, or has one first fault, and never both.
pub fn one_reading()
    ensures facts { HasOneReading FactFault IsFactRecord most_records HasFactFault }
    ensures pairs { (records : List ℕ)
        → HasOneReading PairFault (IsPairRecord records) most_pairs (HasPairFault records) }
{}
