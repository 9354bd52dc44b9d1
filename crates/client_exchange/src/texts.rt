//! The lines that a client prints.

ghost use Rattle.std.specs.Prelude.{◌≡◌, ◌++◌, IfOk, string_bytes};
ghost use Rattle.clusapi_stubs.specs.Results.{TargetLacksZero};
ghost use Rattle.client_exchange.specs.Texts.{data_text, fault_line, key_line, kind_text, made_line, name_line, named_value_line, shown, status_line, value_line};

use clus_names::{Units, print_units};
use std::alloc::{AllocError, Global};
use wire_fields::Octets;

#[tactic(auto, unfolding(crate::specs::Texts::status_line))]
pub(crate) fn status_line(alloc: Global, status: u32) -> Result<Octets, AllocError>
    ensures { IfOk result (λ line. line ≡ status_line status) }
{
    let text = format!(in alloc; "status {status}\n")?;
    Ok(Octets::new(text.into_bytes()))
}

#[tactic(auto, unfolding(crate::specs::Texts::fault_line))]
pub(crate) fn fault_line(alloc: Global, status: u32) -> Result<Octets, AllocError>
    ensures { IfOk result (λ line. line ≡ fault_line status) }
{
    let text = format!(in alloc; "fault {status}\n")?;
    Ok(Octets::new(text.into_bytes()))
}

#[tactic(auto, unfolding(crate::specs::Texts::made_line))]
pub(crate) fn made_line(alloc: Global, disposition: u32) -> Result<Octets, AllocError>
    ensures { IfOk result (λ line. line ≡ made_line disposition) }
{
    let text = format!(in alloc; "made {disposition}\n")?;
    Ok(Octets::new(text.into_bytes()))
}

#[tactic(auto, unfolding(crate::specs::Texts::name_line))]
pub(crate) fn name_line(
    alloc: Global,
    cluster: &Option<Units>,
    member: &Option<Units>,
) -> Result<Octets, AllocError>
    requires cluster { TargetLacksZero cluster.now }
    requires member { TargetLacksZero member.now }
    ensures { IfOk result (λ line. line ≡ name_line cluster.now member.now) }
{
    let mut text = Vec::new(alloc);
    text.extend_from_slice(b"name ")?;
    text.extend_from_slice(&shown(alloc, cluster)?)?;
    text.extend_from_slice(b" ")?;
    text.extend_from_slice(&shown(alloc, member)?)?;
    text.extend_from_slice(b"\n")?;
    Ok(Octets::new(text))
}

#[tactic(auto, unfolding(crate::specs::Texts::key_line))]
pub(crate) fn key_line(alloc: Global, name: &Option<Units>) -> Result<Octets, AllocError>
    requires { TargetLacksZero name.now }
    ensures { IfOk result (λ line. line ≡ key_line name.now) }
{
    let mut text = Vec::new(alloc);
    text.extend_from_slice(b"key ")?;
    text.extend_from_slice(&shown(alloc, name)?)?;
    text.extend_from_slice(b"\n")?;
    Ok(Octets::new(text))
}

#[tactic(auto, unfolding(crate::specs::Texts::value_line))]
pub(crate) fn value_line(alloc: Global, kind: u32, bytes: &[u8]) -> Result<Octets, AllocError>
    ensures { IfOk result (λ line. line ≡ value_line kind bytes.now) }
{
    let mut text = Vec::new(alloc);
    text.extend_from_slice(b"value")?;
    text.extend_from_slice(kind_text(alloc, kind)?.as_bytes())?;
    text.extend_from_slice(data_text(alloc, bytes)?.as_bytes())?;
    text.extend_from_slice(b"\n")?;
    Ok(Octets::new(text))
}

#[tactic(auto, unfolding(crate::specs::Texts::named_value_line))]
pub(crate) fn named_value_line(
    alloc: Global,
    name: &Option<Units>,
    kind: u32,
    bytes: &[u8],
) -> Result<Octets, AllocError>
    requires { TargetLacksZero name.now }
    ensures { IfOk result (λ line. line ≡ named_value_line name.now kind bytes.now) }
{
    let mut text = Vec::new(alloc);
    text.extend_from_slice(b"value ")?;
    text.extend_from_slice(&shown(alloc, name)?)?;
    text.extend_from_slice(kind_text(alloc, kind)?.as_bytes())?;
    text.extend_from_slice(data_text(alloc, bytes)?.as_bytes())?;
    text.extend_from_slice(b"\n")?;
    Ok(Octets::new(text))
}

/// The text of a name; that of no units where there is none.
fn shown(alloc: Global, name: &Option<Units>) -> Result<Vec<u8>, AllocError>
    requires { TargetLacksZero name.now }
    ensures { IfOk result (λ text. text.items ≡ shown name.now) }
{
    match name {
        Some(units) => print_units(alloc, units.as_slice()),
        None => print_units(alloc, &[]),
    }
}

#[tactic(auto, unfolding(crate::specs::Texts::kind_text))]
fn kind_text(alloc: Global, kind: u32) -> Result<String, AllocError>
    ensures { IfOk result (λ text. string_bytes text ≡ kind_text kind) }
{
    format!(in alloc; " {kind} ")
}

/// Hexadecimal digits, lower case, or `-` where there is no byte.
fn data_text(alloc: Global, bytes: &[u8]) -> Result<String, AllocError>
    ensures { IfOk result (λ text. string_bytes text ≡ data_text bytes.now) }
{
    if bytes.is_empty() {
        return String::from_str(alloc, "-");
    }
    hex::encode(alloc, bytes)
}
