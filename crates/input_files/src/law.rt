//! What holds of all files.

ghost use Rattle.input_files.specs.Laws.{EachEndIsOne, EachReportEndIsOne, FilesSayOneThing};

use query_reader::laws_of_the_grammar;

/// What the files say is determined by them: axioms, facts, pairs, the query and the names.
pub fn one_reading()
    ensures law { FilesSayOneThing }
{
    axiom_reader::one_reading();
    laws_of_the_grammar();
}

/// No files ask for two refusals, and files that are accepted ask for none.
pub fn one_end()
    ensures files { EachEndIsOne }
    ensures report { EachReportEndIsOne }
{
    axiom_reader::one_reading();
    fact_tables::one_reading();
    laws_of_the_grammar();
}
