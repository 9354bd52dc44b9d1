//! Numbers in decimal.

ghost use Rattle.std.specs.Prelude.{◌≡◌, ◌<◌, ◌^◌, ◌↔◌, ℕ, IfSome, IsTrue, Some, slice_index};
ghost use Rattle.std.specs.Fmt.{decimal};

/// The number that the word writes in decimal, without a sign or a leading zero.
pub(crate) fn number(word: &str) -> Option<u64>
    ensures found { IfSome result (λ number. (number < 2 ^ 64) × (word.now ≡ decimal number)) }
    ensures only { (number : ℕ) → number < 2 ^ 64 → word.now ≡ decimal number → result ≡ Some number }
{
    if word == "0" {
        return Some(0);
    }
    positive_number(word)
}

fn positive_number(word: &str) -> Option<u64>
    ensures found { IfSome result (λ number. (number < 2 ^ 64) × (word.now ≡ decimal number)) }
    ensures only { (number : ℕ) → 0 < number → number < 2 ^ 64 → word.now ≡ decimal number → result ≡ Some number }
{
    if !begins_above_zero(word) {
        return None;
    }
    match word.parse::<u64>() {
        Ok(number) => Some(number),
        Err(_) => None,
    }
}

/// Whether the word begins with a byte above `0`, as neither a sign nor a leading zero is.
fn begins_above_zero(word: &str) -> bool
    ensures { IsTrue result ↔ 48 < slice_index word.now 0 }
{
    match word.as_bytes() {
        [first, ..] => *first > b'0',
        [] => false,
    }
}
