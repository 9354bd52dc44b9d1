ghost use Rattle.std.specs.Prelude.{◌≡◌, ◌<◌, ◌≤◌, [], ◌∷◌, length, MatchOption, IfSome, position, count_by};
ghost use Rattle.std.specs.Option.{option_map_or};
ghost use Rattle.clus_names.specs.Parts.{parts_of, pieces_of, is_separator};
ghost use Rattle.clus_names.specs.Faults.{part_fault, first_fault};

use crate::fault::NameFault;

pub const SEPARATOR: u16 = 0x5C;

const MOST_PART_UNITS: usize = 255;

/// The first part of a path's text, and the text of what is below it. So a path is gone down part by part, without memory.
pub fn split_first_part(text: &[u16]) -> Option<(&[u16], &[u16])>
    ensures parts { MatchOption result (parts_of text.now ≡ []) (λ cut. parts_of text.now ≡ cut.0.now ∷ parts_of cut.1.now) }
    ensures shorter { IfSome result (λ cut. length cut.1.now < length text.now) }
{
    if text.is_empty() {
        return None;
    }
    match separator_at(text) {
        Some(at) => Some((&text[..at], &text[at + 1..])),
        None => Some((text, &text[text.len()..])),
    }
}

/// What stands before the first separator, and what stands behind it.
fn split_first_piece(text: &[u16]) -> (&[u16], Option<&[u16]>)
    ensures pieces { pieces_of text.now ≡ result.0.now ∷ option_map_or (λ behind. pieces_of behind.now) result.1 [] }
    ensures shorter { IfSome result.1 (λ behind. length behind.now < length text.now) }
{
    match separator_at(text) {
        Some(at) => (&text[..at], Some(&text[at + 1..])),
        None => (text, None),
    }
}

fn separator_at(text: &[u16]) -> Option<usize>
    ensures first { result ≡ position is_separator text.now }
    ensures within { IfSome result (λ at. at < length text.now) }
{
    text.iter().position(|unit| *unit == SEPARATOR)
}

pub fn count_separators(text: &[u16]) -> usize
    ensures count { result ≡ count_by is_separator text.now }
    ensures within { result ≤ length text.now }
{
    text.iter().filter(|unit| **unit == SEPARATOR).count()
}

fn part_fault(part: &[u16]) -> Option<NameFault>
    ensures { result ≡ part_fault part.now }
{
    if part.is_empty() {
        Some(NameFault::EmptyPart)
    } else if MOST_PART_UNITS < part.len() {
        Some(NameFault::PartTooLong)
    } else {
        None
    }
}

/// What is wrong with the first part at fault, from the left.
pub fn first_fault(text: &[u16]) -> Option<NameFault>
    ensures { result ≡ first_fault (pieces_of text.now) }
{
    let mut rest = text;
    'pieces: loop {
        let (piece, behind) = split_first_piece(rest);
        let fault = part_fault(piece);
        if fault.is_some() {
            return fault;
        }
        match behind {
            Some(next) => rest = next,
            None => return None,
        }
    }
}
