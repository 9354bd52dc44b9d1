//! Numbers in decimal.

ghost use Rattle.std.specs.Prelude.{◌≡◌, ◌≤◌, IfSome};
ghost use Rattle.std.specs.Char.{is_ascii_digit};
ghost use Rattle.std.specs.List.{list_all};
ghost use Rattle.cluster_script.specs.Values.{between, decimal_of, has_no_leading_zero, is_decimal, number_of};

use std::str::from_utf8;

/// The number that the word writes, where it is between two bounds.
pub(crate) fn read_number(word: &[u8], low: u64, high: u64) -> Option<u64>
    ensures number { result ≡ number_of low high word.now }
    ensures range { IfSome result (λ number. (low ≤ number) × (number ≤ high)) }
{
    match decimal(word) {
        Some(number) => between(low, high, number),
        None => None,
    }
}

fn between(low: u64, high: u64, number: u64) -> Option<u64>
    ensures number { result ≡ between low high number }
    ensures range { IfSome result (λ number. (low ≤ number) × (number ≤ high)) }
{
    if low <= number && number <= high {
        return Some(number);
    }
    None
}

fn decimal(word: &[u8]) -> Option<u64>
    ensures { result ≡ decimal_of word.now }
{
    if !is_decimal(word) {
        return None;
    }
    match from_utf8(word) {
        Ok(text) => text.parse().ok(),
        Err(_) => None,
    }
}

fn is_decimal(word: &[u8]) -> bool
    ensures { result ≡ is_decimal word.now }
{
    are_digits(word) && has_no_leading_zero(word)
}

fn are_digits(word: &[u8]) -> bool
    ensures { result ≡ list_all is_ascii_digit word.now }
{
    word.iter().all(|byte| byte.is_ascii_digit())
}

/// A zero stands first only where it stands alone.
fn has_no_leading_zero(word: &[u8]) -> bool
    ensures { result ≡ has_no_leading_zero word.now }
{
    match word {
        [] => false,
        [_] => true,
        [first, ..] => *first > b'0',
    }
}
