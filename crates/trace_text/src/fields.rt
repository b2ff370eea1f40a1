// Single fields at the front of bytes, and what is behind them.
ghost use Rattle.std.specs.Prelude.{◌≡◌, ◌≤◌, ◌<◌, ◌∷◌, [], Some, None, IfSome, IfNone, IfOk};
ghost use Rattle.std.specs.Prelude.{length, take, option_map, true, false, min};
ghost use Rattle.std.specs.List.{prefix_len};
ghost use Rattle.trace_text.specs.Fields.{word, number, counted, is_digit};
ghost use Rattle.trace_text.specs.inside.Reading.{Gives, behind, front, value_of, is_numeral};

use crate::fault::Fault;

// What follows a text, where the bytes begin with it.
pub(crate) fn behind<'a>(bytes: &'a [u8], text: &[u8]) -> Option<&'a [u8]>
    ensures is { option_map (λ rest. rest.now) result ≡ behind text.now bytes.now }
    ensures shorter { IfSome result (λ rest. length rest.now ≤ length bytes.now) }
{
    bytes.strip_prefix(text)
}

// A text as one field.
pub(crate) fn literal_at<'a>(bytes: &'a [u8], text: &[u8]) -> Result<&'a [u8], Fault>
    ensures is { Gives (λ rest. (0, rest.now)) result (front (word (text.now ∷ [])) bytes.now) }
    ensures shorter { IfOk result (λ rest. length rest.now ≤ length bytes.now) }
{
    match behind(bytes, text) {
        Some(rest) => Ok(rest),
        None => Err(Fault::Wrong { left: bytes.len() }),
    }
}

// How many bytes at the front are digits.
fn digits_len(bytes: &[u8]) -> usize
    ensures { result ≡ prefix_len is_digit bytes.now }
{
    bytes
        .iter()
        .take_while(|byte| matches!(**byte, b'0'..=b'9'))
        .count()
}

// The value of digits, or 2^64 for a larger one.
fn value_of(digits: &[u8]) -> u128
    ensures { result ≡ min (value_of digits.now) 18446744073709551616 }
{
    let mut value = 0u128;
    for digit in digits {
        value = (value * 10 + u128::from(digit.saturating_sub(b'0'))).min(1 << 64);
    }
    value
}

// The number that digits are, where it has no leading zero and is from `low` to `high`.
fn numeral(digits: &[u8], low: u64, high: u64) -> Option<u64>
    ensures some { IfSome result (λ n. is_numeral low high digits.now ≡ true) }
    ensures value { IfSome result (λ n. n ≡ value_of digits.now) }
    ensures none { IfNone result (is_numeral low high digits.now ≡ false) }
{
    if let [] | [b'0', _, ..] = digits {
        return None;
    }
    let value = value_of(digits);
    if value < low as u128 || value > high as u128 {
        return None;
    }
    Some(value as u64)
}

// A number from `low` to `high`: the longest run of digits at the front.
pub(crate) fn number_at(bytes: &[u8], low: u64, high: u64) -> Result<(u64, &[u8]), Fault>
    ensures is { Gives (λ x. (x.0, x.1.now)) result (front (number low high) bytes.now) }
    ensures most { IfOk result (λ x. x.0 ≤ high) }
    ensures shorter { IfOk result (λ x. length x.1.now < length bytes.now) }
{
    let (digits, rest) = bytes.split_at(digits_len(bytes));
    let Some(number) = numeral(digits, low, high) else {
        return Err(Fault::Wrong { left: bytes.len() });
    };
    Ok((number, rest))
}

// So many bytes.
pub(crate) fn counted_at(bytes: &[u8], count: u64) -> Result<(&[u8], &[u8]), Fault>
    ensures is { Gives (λ x. (x.0.now, x.1.now)) result (front (counted count) bytes.now) }
    ensures shorter { IfOk result (λ x. length x.1.now ≤ length bytes.now) }
{
    if count > bytes.len() as u64 {
        return Err(Fault::Wrong { left: bytes.len() });
    }
    Ok(bytes.split_at(count as usize))
}
