//! The records of a table, read one after another by the crate `csv`.

ghost use Rattle.std.specs.Prelude.{◌≡◌, ◌∷◌, [], true, false, IfOk};
ghost use Rattle.csv.specs.Records.{fields_of};
ghost use Rattle.fact_tables.specs.Tables.{records_of, skip_marks};

use cq_terms::NoMemory;
use csv::{ByteRecord, ErrorKind, Reader, ReaderBuilder};
use std::alloc::Global;
use std::marker::Model;

/// The records that are still to be read.
#[derive(Drop)]
pub(crate) struct Rows<'a> {
    reader: Reader<&'a [u8]>,
}

impl<'a> Model for Rows<'a> {
    ghost use Rattle.std.specs.Prelude.{List};
    ghost use Rattle.fact_tables.specs.Tables.{Fields};
    ghost use Rattle.fact_tables.specs.Rows.{IsTableReader, bytes_left, rows_left};

    ghost Value = { List Fields };

    ghost view = { λ a. rows_left (bytes_left a.reader) a.reader.state };

    ghost invariant = { λ a. IsTableReader a.reader };
}

impl<'a> Rows<'a> {
    /// All records of the bytes.
    pub(crate) fn new(alloc: Global, bytes: &'a [u8]) -> Self
        ensures all { result ≡ records_of bytes.now }
    {
        let reader = ReaderBuilder::new()
            .has_headers(false)
            .flexible(true)
            .from_reader(alloc, skip_marks(bytes));
        Rows { reader }
    }

    /// Reads the next record into `row`, and answers whether there was one. A failed read of the slice counts as want of
    /// memory.
    pub(crate) fn next(&mut self, row: &mut ByteRecord) -> Result<bool, NoMemory>
        ensures found { IfOk result (λ found. found ≡ true → self.old ≡ fields_of row.new ∷ self.new) }
        ensures none { IfOk result (λ found. found ≡ false → self.old ≡ []) }
    {
        match self.reader.read_byte_record(row) {
            Ok(found) => Ok(found),
            Err(error) => match error.into_kind() {
                ErrorKind::OutOfMemory | ErrorKind::Io(_) => Err(NoMemory),
                _ => unreachable!(),
            },
        }
    }
}

/// The bytes after every byte order mark at the beginning.
fn skip_marks(bytes: &[u8]) -> &[u8]
    ensures exact { result.now ≡ skip_marks bytes.now }
{
    let mut rest = bytes;
    while rest.starts_with(&[0xEF, 0xBB, 0xBF]) {
        rest = &rest[3..];
    }
    rest
}
