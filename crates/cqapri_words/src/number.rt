//! Numbers as texts.

ghost use Rattle.std.specs.Prelude.{◌≡◌, ◌-◌, ◌^◌, ◌<◌, min};
ghost use Rattle.std.specs.Char.{is_ascii_digit};
ghost use Rattle.std.specs.List.{list_all};
ghost use Rattle.cqapri_words.specs.Numbers.{is_number, is_number_in, number_in};

/// Whether the text is one or more digits of a number in this range.
pub(crate) fn is_number_in(text: &[u8], least: u64, most: u64) -> bool
    requires { most < 2 ^ 64 - 1 }

    ensures exact { result ≡ is_number_in least most text.now }
{
    let number = number_in(text);
    is_number(text) && least <= number && number <= most
}

/// Whether the text is one or more digits.
fn is_number(text: &[u8]) -> bool
    ensures exact { result ≡ is_number text.now }
{
    !text.is_empty() && are_digits(text)
}

/// Whether each byte is a digit.
fn are_digits(text: &[u8]) -> bool
    ensures exact { result ≡ list_all is_ascii_digit text.now }
{
    text.iter().all(|byte| byte.is_ascii_digit())
}

/// The number that digits say, or 2^64 - 1 where it is greater.
pub(crate) fn number_in(digits: &[u8]) -> u64
    ensures exact { result ≡ min (number_in digits.now) (2 ^ 64 - 1) }
{
    let mut number: u64 = 0;
    for digit in digits {
        number = number
            .saturating_mul(10)
            .saturating_add(digit.saturating_sub(b'0') as u64);
    }
    number
}
