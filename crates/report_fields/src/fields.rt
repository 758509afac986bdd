//! What lines are made of as JSON: numbers, words, and arrays of numbers and of texts.

ghost use Rattle.std.specs.Prelude.{◌≡◌, ◌++◌, ◌∷◌, [], OnOk, IfOk, option_map};
ghost use Rattle.serde_json.specs.Data.{string};
ghost use Rattle.serde_json.specs.Find.{as_array};
ghost use Rattle.serde_json.specs.View.{view, items_view};
ghost use Rattle.serde_json.specs.Written.{comma_if, compact_text};
ghost use Rattle.report_fields.specs.Fields.{number_data, needs_no_escape, stands_for_itself, numbers_data, lists_data, long_or_null_data, texts_data, long_of, long_or_null, id_of, ids_of, text_in, id_in, word_in, long_at, long_or_null_at, id_at, word_at, items_at, longs_at, ids_at, id_lists_at, texts_at};
ghost use Rattle.std.specs.Prelude.{map, string_bytes};

use cq_terms::{IdLists, Ids, Longs, NoMemory, Texts};
use itoa::Buffer;
use serde_json::Value;
use std::alloc::{AllocError, Global};

/// Appends a comma, where something stands before.
pub fn put_comma_if(out: &mut String, later: bool) -> Result<(), AllocError>
    ensures exact { OnOk result (string_bytes out.new ≡ string_bytes out.old ++ comma_if later) }
{
    if later {
        out.push(',')?;
    }
    Ok(())
}

/// Appends a number below 2^32.
pub fn put_id(out: &mut String, id: u32) -> Result<(), AllocError>
    ensures exact { OnOk result (string_bytes out.new
        ≡ string_bytes out.old ++ compact_text (number_data id)) }
{
    let mut digits = Buffer::new();
    out.push_str(digits.format(id))?;
    Ok(())
}

/// Appends a number below 2^64.
pub fn put_long(out: &mut String, long: u64) -> Result<(), AllocError>
    ensures exact { OnOk result (string_bytes out.new
        ≡ string_bytes out.old ++ compact_text (number_data long)) }
{
    let mut digits = Buffer::new();
    out.push_str(digits.format(long))?;
    Ok(())
}

/// Appends an array of numbers below 2^32.
pub fn put_ids(out: &mut String, ids: &[u32]) -> Result<(), AllocError>
    ensures exact { OnOk result (string_bytes out.new
        ≡ string_bytes out.old ++ compact_text (numbers_data ids.now)) }
{
    out.push('[')?;
    let mut later = false;
    for id in ids {
        put_comma_if(out, later)?;
        put_id(out, *id)?;
        later = true;
    }
    out.push(']')?;
    Ok(())
}

/// Appends an array of numbers below 2^64.
pub fn put_longs(out: &mut String, longs: &[u64]) -> Result<(), AllocError>
    ensures exact { OnOk result (string_bytes out.new
        ≡ string_bytes out.old ++ compact_text (numbers_data longs.now)) }
{
    out.push('[')?;
    let mut later = false;
    for long in longs {
        put_comma_if(out, later)?;
        put_long(out, *long)?;
        later = true;
    }
    out.push(']')?;
    Ok(())
}

/// Appends an array of arrays of numbers below 2^32.
pub fn put_id_lists(out: &mut String, lists: &[Ids]) -> Result<(), AllocError>
    ensures exact { OnOk result (string_bytes out.new
        ≡ string_bytes out.old ++ compact_text (lists_data lists.now)) }
{
    out.push('[')?;
    let mut later = false;
    for list in lists {
        put_comma_if(out, later)?;
        put_ids(out, list.as_slice())?;
        later = true;
    }
    out.push(']')?;
    Ok(())
}

/// Appends a number below 2^64, or null for none.
pub fn put_long_or_null(out: &mut String, long: Option<u64>) -> Result<(), AllocError>
    ensures exact { OnOk result (string_bytes out.new
        ≡ string_bytes out.old ++ compact_text (long_or_null_data long)) }
{
    match long {
        Some(long) => put_long(out, long),
        None => out.push_str("null"),
    }
}

/// Appends an array of texts.
pub fn put_texts(out: &mut String, texts: &[String]) -> Result<(), AllocError>
    ensures exact { OnOk result (string_bytes out.new
        ≡ string_bytes out.old ++ compact_text (texts_data (map string_bytes texts.now))) }
{
    out.push('[')?;
    let mut later = false;
    for text in texts {
        put_comma_if(out, later)?;
        put_text(out, text.as_str())?;
        later = true;
    }
    out.push(']')?;
    Ok(())
}

/// Appends a text between quotes, with the escapes that it needs.
fn put_text(out: &mut String, text: &str) -> Result<(), AllocError>
    ensures exact { OnOk result (string_bytes out.new
        ≡ string_bytes out.old ++ compact_text (string text.now)) }
{
    if needs_no_escape(text) {
        put_plain_text(out, text)
    } else {
        put_escaped_text(out, text)
    }
}

fn put_plain_text(out: &mut String, text: &str) -> Result<(), AllocError>
    ensures exact { OnOk result (string_bytes out.new
        ≡ string_bytes out.old ++ 34 ∷ (text.now ++ 34 ∷ [])) }
{
    out.push('"')?;
    out.push_str(text)?;
    out.push('"')?;
    Ok(())
}

fn put_escaped_text(out: &mut String, text: &str) -> Result<(), AllocError>
    ensures exact { OnOk result (string_bytes out.new
        ≡ string_bytes out.old ++ compact_text (string text.now)) }
{
    let alloc = *out.allocator();
    let value = Value::String(String::from_str(alloc, text)?);
    let quoted = value.to_string(alloc)?;
    out.push_str(quoted.as_str())?;
    Ok(())
}

/// Whether JSON has the text between quotes as it is.
fn needs_no_escape(text: &str) -> bool
    ensures exact { result ≡ needs_no_escape text.now }
{
    text.as_bytes().iter().all(|byte| stands_for_itself(*byte))
}

fn stands_for_itself(byte: u8) -> bool
    ensures exact { result ≡ stands_for_itself byte }
{
    byte >= 32 && byte != b'"' && byte != b'\\'
}

/// The value as a number below 2^64.
fn long_of(value: &Value) -> Option<u64>
    ensures exact { result ≡ long_of (view value.now) }
{
    value.as_u64()
}

/// The value as a number below 2^64, or none for null.
fn long_or_null(value: &Value) -> Option<Option<u64>>
    ensures exact { result ≡ long_or_null (view value.now) }
{
    if value.is_null() {
        Some(None)
    } else {
        Some(Some(long_of(value)?))
    }
}

/// The value as a number below 2^32.
pub fn id_of(value: &Value) -> Option<u32>
    ensures exact { result ≡ id_of (view value.now) }
{
    let number = value.as_u64()?;
    if number < 1 << 32 {
        Some(number as u32)
    } else {
        None
    }
}

/// The value as a text.
fn text_in(value: &Value) -> Option<&str>
    ensures exact { option_map (λ s. s.now) result ≡ text_in (view value.now) }
{
    match value {
        Value::String(text) => Some(text.as_str()),
        _ => None,
    }
}

/// The number below 2^32 at a place of an array.
pub fn id_in(value: &Value, place: usize) -> Option<u32>
    ensures exact { result ≡ id_in place (view value.now) }
{
    id_of(value.get(place)?)
}

/// The text at a place of an array.
pub fn word_in(value: &Value, place: usize) -> Option<&str>
    ensures exact { option_map (λ s. s.now) result ≡ word_in place (view value.now) }
{
    value.get(place)?.as_str()
}

/// The number below 2^64 under a key.
pub fn long_at(value: &Value, key: &str) -> Option<u64>
    ensures exact { result ≡ long_at key.now (view value.now) }
{
    long_of(value.get(key)?)
}

/// The number below 2^64 under a key, or none for null.
pub fn long_or_null_at(value: &Value, key: &str) -> Option<Option<u64>>
    ensures exact { result ≡ long_or_null_at key.now (view value.now) }
{
    long_or_null(value.get(key)?)
}

/// The number below 2^32 under a key.
pub fn id_at(value: &Value, key: &str) -> Option<u32>
    ensures exact { result ≡ id_at key.now (view value.now) }
{
    id_of(value.get(key)?)
}

/// The text under a key.
pub fn word_at<'a>(value: &'a Value, key: &str) -> Option<&'a str>
    ensures exact { option_map (λ s. s.now) result ≡ word_at key.now (view value.now) }
{
    value.get(key)?.as_str()
}

/// The items of the value as an array.
fn items_of(value: &Value) -> Option<&[Value]>
    ensures exact { option_map (λ items. items_view items.now) result ≡ as_array (view value.now) }
{
    Some(value.as_array()?.as_slice())
}

/// The items of the array under a key.
pub fn items_at<'a>(value: &'a Value, key: &str) -> Option<&'a [Value]>
    ensures exact { option_map (λ items. items_view items.now) result
        ≡ items_at key.now (view value.now) }
{
    let items = value.get(key)?.as_array()?;
    Some(items.as_slice())
}

/// The numbers below 2^64 in the array under a key.
pub fn longs_at(alloc: Global, value: &Value, key: &str) -> Result<Option<Longs>, NoMemory>
    ensures exact { IfOk result (λ o. o ≡ longs_at key.now (view value.now)) }
{
    let Some(items) = items_at(value, key) else {
        return Ok(None);
    };
    let mut longs = Longs::new(alloc);
    for item in items {
        match long_of(item) {
            Some(long) => longs.push(long)?,
            None => return Ok(None),
        }
    }
    Ok(Some(longs))
}

/// The numbers below 2^32 in the array under a key.
pub fn ids_at(alloc: Global, value: &Value, key: &str) -> Result<Option<Ids>, NoMemory>
    ensures exact { IfOk result (λ o. o ≡ ids_at key.now (view value.now)) }
{
    match value.get(key) {
        Some(found) => ids_of(alloc, found),
        None => Ok(None),
    }
}

/// The value as an array of numbers below 2^32.
fn ids_of(alloc: Global, value: &Value) -> Result<Option<Ids>, NoMemory>
    ensures exact { IfOk result (λ o. o ≡ ids_of (view value.now)) }
{
    let Some(items) = items_of(value) else {
        return Ok(None);
    };
    let mut ids = Ids::new(alloc);
    for item in items {
        match id_of(item) {
            Some(id) => ids.push(id)?,
            None => return Ok(None),
        }
    }
    Ok(Some(ids))
}

/// The arrays of numbers below 2^32 in the array under a key.
pub fn id_lists_at(alloc: Global, value: &Value, key: &str) -> Result<Option<IdLists>, NoMemory>
    ensures exact { IfOk result (λ o. o ≡ id_lists_at key.now (view value.now)) }
{
    let Some(items) = items_at(value, key) else {
        return Ok(None);
    };
    let mut lists = IdLists::new(alloc);
    for item in items {
        match ids_of(alloc, item)? {
            Some(list) => lists.push(list)?,
            None => return Ok(None),
        }
    }
    Ok(Some(lists))
}

/// The texts in the array under a key.
pub fn texts_at(alloc: Global, value: &Value, key: &str) -> Result<Option<Texts>, NoMemory>
    ensures exact { IfOk result (λ o. o ≡ texts_at key.now (view value.now)) }
{
    let Some(items) = items_at(value, key) else {
        return Ok(None);
    };
    let mut texts = Texts::new(alloc);
    for item in items {
        match text_in(item) {
            Some(text) => texts.push(String::from_str(alloc, text)?)?,
            None => return Ok(None),
        }
    }
    Ok(Some(texts))
}
