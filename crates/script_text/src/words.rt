//! The words of a line.

ghost use Rattle.std.specs.Prelude.{◌≡◌, IfOk, string_bytes};
ghost use Rattle.std.specs.Option.{option_copied};
ghost use Rattle.script_text.specs.Lines.{hex_word, number_or_dash};

use std::alloc::{AllocError, Global};

/// Hexadecimal digits in lower case, and `-` where there is no byte.
pub(crate) fn hex_word(alloc: Global, bytes: &[u8]) -> Result<String, AllocError>
    ensures { IfOk result (λ word. string_bytes word ≡ hex_word bytes.now) }
{
    if bytes.is_empty() {
        return String::from_str(alloc, "-");
    }
    hex::encode(alloc, bytes)
}

pub(crate) fn number_or_dash(alloc: Global, number: Option<u64>) -> Result<String, AllocError>
    ensures { IfOk result (λ word. string_bytes word ≡ number_or_dash number) }
{
    match number {
        Some(number) => format!(in alloc; "{number}"),
        None => String::from_str(alloc, "-"),
    }
}
