//! What the words of a line say.

ghost use Rattle.std.specs.Prelude.{◌≡◌, ◌≤◌, ◌<◌, ◌+◌, length, IfOk, IfSome, Ok, option_and_then};
ghost use Rattle.std.specs.List.{after_first, before_first};
ghost use Rattle.update_records.specs.Grammar.{update_of};
ghost use Rattle.update_records.specs.Validity.{IsValid};
ghost use Rattle.cluster_worlds.specs.Conditions.{IsBatch};
ghost use Rattle.cluster_script.specs.Values.{batch_in, batch_of, bytes_of, member_of, member_with, number_of, octets_of, short};
ghost use Rattle.cluster_script.specs.Words.{is_byte};

use crate::cutting::cut;
use crate::numbers::read_number;
use gum_messages::Member;
use hex::FromHexError;
use std::alloc::{AllocError, Global};
use update_records::{RecordFault, Update, decode_update};
use wire_fields::Octets;

/// The bytes that the word tells, where they are at most so many.
pub(crate) fn read_octets(
    alloc: Global,
    word: &[u8],
    limit: usize,
) -> Result<Option<Octets>, AllocError>
    ensures bytes { IfOk result (λ bytes. bytes ≡ octets_of limit word.now) }
    ensures few { IfOk result (λ bytes. IfSome bytes (λ bytes. length bytes ≤ limit)) }
{
    match read_bytes(alloc, word)? {
        Some(bytes) => Ok(short(limit, bytes)),
        None => Ok(None),
    }
}

fn short(limit: usize, bytes: Octets) -> Option<Octets>
    ensures bytes { result ≡ short limit bytes }
    ensures few { IfSome result (λ bytes. length bytes ≤ limit) }
{
    if bytes.as_slice().len() <= limit {
        return Some(bytes);
    }
    None
}

/// The bytes that pairs of hexadecimal digits tell, or none.
#[tactic(auto, unfolding(crate::specs::Values::bytes_of))]
fn read_bytes(alloc: Global, word: &[u8]) -> Result<Option<Octets>, AllocError>
    ensures { IfOk result (λ bytes. bytes ≡ bytes_of word.now) }
{
    if word == b"-".as_slice() {
        return Ok(Some(Octets::new(Vec::new(alloc))));
    }
    if word.is_empty() {
        return Ok(None);
    }
    match hex::decode(alloc, word) {
        Ok(bytes) => Ok(Some(Octets::new(bytes))),
        Err(FromHexError::OutOfMemory) => Err(AllocError),
        Err(_) => Ok(None),
    }
}

/// The batch whose encoding the word tells.
pub(crate) fn read_batch(alloc: Global, word: &[u8]) -> Result<Option<Update>, AllocError>
    ensures batch { IfOk result (λ update. update ≡ batch_of word.now) }
    ensures valid { IfOk result (λ update. IfSome update IsBatch) }
{
    match read_bytes(alloc, word)? {
        Some(bytes) => batch_spelled(alloc, bytes.as_slice()),
        None => Ok(None),
    }
}

fn batch_spelled(alloc: Global, bytes: &[u8]) -> Result<Option<Update>, AllocError>
    ensures batch { IfOk result (λ update. update ≡ batch_in (update_of bytes.now)) }
    ensures valid { IfOk result (λ update. IfSome update IsBatch) }
{
    match decode_update(alloc, bytes) {
        Ok(update) => Ok(batch_in(update)),
        Err(RecordFault::Memory) => Err(AllocError),
        Err(RecordFault::Bad { .. }) => Ok(None),
    }
}

fn batch_in(update: Update) -> Option<Update>
    requires { IsValid update }
    ensures batch { result ≡ batch_in (Ok update) }
    ensures valid { IfSome result IsBatch }
{
    match update {
        Update::Batch { changes } => Some(Update::Batch { changes }),
        _ => None,
    }
}

/// The member that the word tells, where it is above this node.
#[tactic(auto, unfolding(crate::specs::Values::member_of))]
pub(crate) fn read_member(word: &[u8], floor: u16) -> Option<Member>
    requires { floor ≤ 16 }
    ensures member { result ≡ member_of floor word.now }
    ensures above { IfSome result (λ member. (floor < member.node) × (member.node ≤ 16) × (1 ≤ member.inc)) }
{
    let (node, inc) = cut(word, b'.');
    let node = read_number(node, floor as u64 + 1, 16)?;
    let inc = read_inc(inc)?;
    Some(Member {
        node: node as u16,
        inc,
    })
}

fn read_inc(word: Option<&[u8]>) -> Option<u64>
    ensures number { result ≡ option_and_then (λ word. number_of 1 4_294_967_295 word.now) word.entry }
    ensures some { IfSome result (λ number. 1 ≤ number) }
{
    read_number(word?, 1, 4_294_967_295)
}
