//! Reading strings.

ghost use Rattle.std.specs.Prelude.{◌≡◌, ◌==◌, ℕ, List, IfErr, IfOk, Ok, position};
ghost use Rattle.wire_fields.specs.Reading.{Reading};
ghost use Rattle.wire_fields.specs.Numbers.{IsBytes};
ghost use Rattle.ndr_values.specs.Reading.{IsFault, Takes, TakesIn, actual_count, string, units};
ghost use Rattle.ndr_values.specs.Spelling.{Reads, Text};
ghost use Rattle.ndr_values.specs.Text.{ends_in_zero, text_of};

use crate::fault::{NdrFault, ReadFault};
use crate::reading::word;
use std::alloc::Global;
use wire_fields::{Fields, Short};

/// The units of a conformant varying string before its end.
pub fn read_string(alloc: Global, from: &mut Fields<'_>) -> Result<Vec<u16>, ReadFault>
    ensures found { IfOk result (λ text. Reads (Text text.items) from.old from.new) }
    ensures only { (text : List ℕ) (now : Reading) → Reads (Text text) from.old now → TakesIn (λ x. x.items) result (Ok (text, now)) from.new }
    ensures fault { IfErr result (λ fault. IsFault fault (string from.old)) }
{
    whole_string(alloc, from)
}

#[tactic(auto, unfolding(crate::specs::Reading::string))]
fn whole_string(alloc: Global, from: &mut Fields<'_>) -> Result<Vec<u16>, ReadFault>
    ensures read { TakesIn (λ x. x.items) result (string from.old) from.new }
    ensures bytes { IsBytes from.old.left }
{
    let count = actual(from)?;
    let sent = sent_units(alloc, from, count)?;
    if !is_ended(&sent) {
        let place = from.place();
        let before = if sent.is_empty() { 4 } else { 2 };
        return Err(ReadFault::Ndr(NdrFault::NoEnd {
            place: place.saturating_sub(before),
        }));
    }
    Ok(before_end(sent))
}

/// How many units a string has, behind its maximum and its offset.
#[tactic(auto, unfolding(crate::specs::Reading::actual_count))]
fn actual(from: &mut Fields<'_>) -> Result<u32, NdrFault>
    ensures read { Takes (λ x. x) result (actual_count from.old) from.new }
    ensures bytes { IsBytes from.old.left }
{
    let max = word(from)?;
    let offset_place = from.place();
    let offset = from.u32().map_err(|_| NdrFault::Short {
        place: offset_place,
    })?;
    let place = from.place();
    let actual = from.u32().map_err(|_| NdrFault::Short { place })?;
    if offset != 0 {
        return Err(NdrFault::BadOffset {
            place: offset_place,
        });
    }
    if max < actual {
        return Err(NdrFault::BadCount { place });
    }
    Ok(actual)
}

fn sent_units(alloc: Global, from: &mut Fields<'_>, count: u32) -> Result<Vec<u16>, ReadFault>
    ensures { TakesIn (λ x. x.items) result (units count from.old) from.new }
{
    let place = from.place();
    let mut units = Vec::new(alloc);
    'units: for _ in 0..count {
        let unit = match from.u16() {
            Ok(unit) => unit,
            Err(Short) => return Err(ReadFault::Ndr(NdrFault::Short { place })),
        };
        units.push(unit)?;
    }
    Ok(units)
}

fn is_ended(sent: &[u16]) -> bool
    ensures { result ≡ ends_in_zero sent.now }
{
    matches!(sent.last(), Some(0))
}

fn before_end(sent: Vec<u16>) -> Vec<u16>
    ensures { result.items ≡ text_of sent.items }
{
    let mut text = sent;
    if let Some(end) = first_zero(&text) {
        text.truncate(end);
    }
    text
}

fn first_zero(sent: &[u16]) -> Option<usize>
    ensures { result ≡ position (λ unit. unit == 0) sent.now }
{
    sent.iter().position(|unit| *unit == 0)
}
