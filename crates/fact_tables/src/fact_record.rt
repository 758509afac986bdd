//! A fact record, taken apart into its texts.

ghost use Rattle.std.specs.Prelude.{◌≡◌, ◌<◌, ◌↔◌, Some, length, IfOk, IfErr, IfSome, IfNone, IsSome, IsTrue};
ghost use Rattle.std.specs.Str.{IsUtf8};
ghost use Rattle.csv.specs.Records.{field_at, fields_of};
ghost use Rattle.fact_tables.specs.FactRecords.{AreFilled, AreTexts, IsFactRecord};
ghost use Rattle.fact_tables.specs.FactSteps.{IsRecordRefusal, named_fields};

use crate::FactRefusal;
use csv::ByteRecord;

/// The texts of a fact record.
#[derive(Clone, Copy, Debug)]
pub(crate) enum NamedFact<'a> {
    /// The individual is in the concept.
    Concept {
        concept: &'a str,
        individual: &'a str,
    },
    /// The role leads from the first individual to the second.
    Link {
        role: &'a str,
        from: &'a str,
        to: &'a str,
    },
}

impl NamedFact<'_> {
    /// Whether no text is empty.
    fn is_filled(&self) -> bool
        ensures exact { IsTrue result ↔ AreFilled (named_fields self.now) }
    {
        match *self {
            NamedFact::Concept {
                concept,
                individual,
            } => !concept.is_empty() && !individual.is_empty(),
            NamedFact::Link { role, from, to } => {
                !role.is_empty() && !from.is_empty() && !to.is_empty()
            }
        }
    }
}

/// Takes the record of this number apart.
pub(crate) fn named_fact(row: &ByteRecord, number: u32) -> Result<NamedFact<'_>, FactRefusal>
    ensures right { IfOk result (λ _. IsFactRecord (fields_of row.now)) }
    ensures exact { IfOk result (λ named. fields_of row.now ≡ named_fields named) }
    ensures refused { IfErr result (λ refusal. IsRecordRefusal number (fields_of row.now) refusal) }
{
    let texts = match row.len() {
        2 => concept_texts(row),
        3 => link_texts(row),
        _ => return Err(FactRefusal::BadWidth { number }),
    };
    let named = texts.ok_or(FactRefusal::NotUtf8 { number })?;
    if !named.is_filled() {
        return Err(FactRefusal::EmptyField { number });
    }
    Ok(named)
}

/// The texts of a record of two fields, or `None` where one isn't UTF-8.
fn concept_texts(row: &ByteRecord) -> Option<NamedFact<'_>>
    requires width { length (fields_of row.now) ≡ 2 }

    ensures exact { IfSome result (λ named. fields_of row.now ≡ named_fields named) }
    ensures texts { IsSome result ↔ AreTexts (fields_of row.now) }
{
    Some(NamedFact::Concept {
        concept: text_at(row, 0)?,
        individual: text_at(row, 1)?,
    })
}

/// The texts of a record of three fields, or `None` where one isn't UTF-8.
fn link_texts(row: &ByteRecord) -> Option<NamedFact<'_>>
    requires width { length (fields_of row.now) ≡ 3 }

    ensures exact { IfSome result (λ named. fields_of row.now ≡ named_fields named) }
    ensures texts { IsSome result ↔ AreTexts (fields_of row.now) }
{
    Some(NamedFact::Link {
        role: text_at(row, 0)?,
        from: text_at(row, 1)?,
        to: text_at(row, 2)?,
    })
}

/// The text of the field at a place from 0, or `None` where it isn't UTF-8.
fn text_at(row: &ByteRecord, place: usize) -> Option<&str>
    requires within { place < length (fields_of row.now) }

    ensures found { IfSome result (λ text. field_at (fields_of row.now) place ≡ Some text.now) }
    ensures utf8 { IfSome result (λ text. IsUtf8 text.now) }
    ensures none { IfNone result (¬ (AreTexts (fields_of row.now))) }
{
    str::from_utf8(row.get(place)?).ok()
}
