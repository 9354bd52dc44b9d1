//! A text cut in two.

ghost use Rattle.std.specs.Prelude.{◌≡◌, ◌≤◌, ◌<◌, IfSome, MatchOption, length, position};
ghost use Rattle.std.specs.List.{after_first, before_first, position_or_len};
ghost use Rattle.cluster_script.specs.Words.{is_byte};

/// What stands before the first of these bytes, and what stands behind it where there is one.
pub(crate) fn cut(text: &[u8], separator: u8) -> (&[u8], Option<&[u8]>)
    ensures front { result.0.now ≡ before_first (is_byte separator) text.now }
    ensures behind { MatchOption result.1 (position_or_len (is_byte separator) text.now ≡ length text.now)
        (λ rest. (position_or_len (is_byte separator) text.now < length text.now) × (rest.now ≡ after_first (is_byte separator) text.now)) }
{
    match place_of(text, separator) {
        Some(place) => (&text[..place], Some(&text[place + 1..])),
        None => (text, None),
    }
}

fn place_of(text: &[u8], wanted: u8) -> Option<usize>
    ensures first { result ≡ position (is_byte wanted) text.now }
    ensures within { IfSome result (λ place. place < length text.now) }
{
    text.iter().position(|byte| *byte == wanted)
}
