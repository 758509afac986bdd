//! The number that a field says.

ghost use Rattle.std.specs.Prelude.{◌≡◌, ◌-◌, ◌^◌, min, IsTrue};
ghost use Rattle.std.specs.Char.{is_ascii_digit};
ghost use Rattle.std.specs.List.{list_all};
ghost use Rattle.fact_tables.specs.Numbers.{after_blanks, before_blanks, capped, is_blank, is_number, number_in, value_of};

/// The number that a field says, or `None` where it isn't one or more digits with blanks at either end. A number beyond 64
/// bits counts as 2^64 - 1.
pub(crate) fn number_in(field: &[u8]) -> Option<u64>
    ensures exact { result ≡ capped (number_in field.now) }
{
    let digits = before_blanks(after_blanks(field));
    if is_number(digits) {
        Some(value_of(digits))
    } else {
        None
    }
}

/// Whether the bytes are one or more digits.
fn is_number(bytes: &[u8]) -> bool
    ensures exact { result ≡ is_number bytes.now }
{
    !bytes.is_empty() && are_digits(bytes)
}

/// Whether each byte is a digit.
fn are_digits(bytes: &[u8]) -> bool
    ensures exact { result ≡ list_all is_ascii_digit bytes.now }
{
    bytes.iter().all(|byte| byte.is_ascii_digit())
}

/// The number that digits say, or 2^64 - 1 where it is greater.
fn value_of(digits: &[u8]) -> u64
    requires digits { IsTrue (is_number digits.now) }

    ensures exact { result ≡ min (value_of digits.now) (2 ^ 64 - 1) }
{
    let mut value: u64 = 0;
    for digit in digits {
        value = value
            .saturating_mul(10)
            .saturating_add((*digit - b'0') as u64);
    }
    value
}

/// Whether the byte is a space or a tab.
fn is_blank(byte: u8) -> bool
    ensures exact { result ≡ is_blank byte }
{
    byte == b' ' || byte == b'\t'
}

/// The bytes after the blanks at the front.
fn after_blanks(field: &[u8]) -> &[u8]
    ensures exact { result.now ≡ after_blanks field.now }
{
    let mut rest = field;
    while let Some((first, after)) = rest.split_first() {
        if !is_blank(*first) {
            return rest;
        }
        rest = after;
    }
    rest
}

/// The bytes before the blanks at the end.
fn before_blanks(field: &[u8]) -> &[u8]
    ensures exact { result.now ≡ before_blanks field.now }
{
    let mut rest = field;
    while let Some((last, before)) = rest.split_last() {
        if !is_blank(*last) {
            return rest;
        }
        rest = before;
    }
    rest
}
