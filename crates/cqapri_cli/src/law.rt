//! What holds of the ends of a job.

ghost use Rattle.cqapri_cli.specs.EndLaws.{EachEndIsOne};
ghost use Rattle.cqapri_cli.specs.TableLaws.{EachTableEndIsOne};

use input_files::{one_end, one_reading};

/// Two refusals that the same words and files ask for are the same, up to which cycle they name, and files that are served ask for none;
/// a report has one verdict, and with it none is asked for.
pub fn each_end_is_one()
    ensures { EachEndIsOne }
{
    one_reading();
    one_end();
}

/// Two refusals of a table that the same report asks for are the same, a whole report asks for none, and it is one.
pub fn each_table_end_is_one()
    ensures { EachTableEndIsOne }
{
    one_end();
}
