//! The methods that update a key of the registry.

ghost use Rattle.std.specs.Prelude.{◌≡◌, IfOk, length, nat_lt, ◌==◌, option_map};
ghost use Rattle.clus_names.specs.Limits.{LacksZero};
ghost use Rattle.clus_names.specs.Parts.{parts_of};
ghost use Rattle.update_records.specs.declared.update.Update.TheVariants as update;
ghost use Rattle.registry_defs.specs.Contents.{keys_in};
ghost use Rattle.clusapi_methods.specs.declared.planned.Planned.TheVariants.{Send};
ghost use Rattle.clusapi_methods.specs.Arguments.{invalid_if, is_volatile, name_refusal, or_else, subkey_refusal};
ghost use Rattle.clusapi_methods.specs.Plans.{if_open, unless_refused};
ghost use Rattle.clusapi_methods.specs.Sizes.{FollowsBounded};

use crate::arguments::{name, subkey};
use crate::planned::Planned;
use crate::refusals::refuse;
use crate::statuses::{INVALID_PARAMETER, NOT_READY};
use clus_names::Units;
use clus_registry::Registry;
use clusapi_stubs::In;
use context_handles::Held;
use std::alloc::{AllocError, Global};
use update_records::Update;
use wire_fields::Octets;

/// A key that the next start forgets, which the registry has none of.
const REG_OPTION_VOLATILE: u32 = 1;

const MOST_DATA_BYTES: usize = 49_152;

pub(crate) fn create_key(
    alloc: Global,
    input: &In,
    held: &Held,
    below: &Units,
    options: u32,
    registry: Option<&Registry>,
) -> Result<Planned, AllocError>
    requires { LacksZero below.now }
    ensures planned { IfOk result (λ planned. planned ≡ unless_refused (or_else (subkey_refusal held.now.path below.now) (invalid_if (is_volatile options)))
        input.now (if_open (option_map (λ kept. keys_in kept.now) registry.entry)
        input.now (λ keys. Send (update.Create held.now.path held.now.birth (parts_of below.now))))) }
    ensures bounded { IfOk result FollowsBounded }
{
    let subkey = match subkey(alloc, &held.path, below)? {
        Ok(path) => path,
        Err(status) => return refuse(alloc, status, input, false),
    };
    if options & REG_OPTION_VOLATILE != 0 {
        return refuse(alloc, INVALID_PARAMETER, input, false);
    }
    if registry.is_none() {
        return refuse(alloc, NOT_READY, input, false);
    }
    Ok(Planned::Send(Update::Create {
        key: held.path.copy(alloc)?,
        birth: held.birth,
        subkey,
    }))
}

pub(crate) fn delete_key(
    alloc: Global,
    input: &In,
    held: &Held,
    below: &Units,
    registry: Option<&Registry>,
) -> Result<Planned, AllocError>
    requires { LacksZero below.now }
    ensures planned { IfOk result (λ planned. planned ≡ unless_refused (or_else (subkey_refusal held.now.path below.now) (invalid_if (length below.now == 0)))
        input.now (if_open (option_map (λ kept. keys_in kept.now) registry.entry)
        input.now (λ keys. Send (update.DeleteKey held.now.path held.now.birth (parts_of below.now))))) }
    ensures bounded { IfOk result FollowsBounded }
{
    let subkey = match subkey(alloc, &held.path, below)? {
        Ok(path) => path,
        Err(status) => return refuse(alloc, status, input, false),
    };
    if below.as_slice().is_empty() {
        return refuse(alloc, INVALID_PARAMETER, input, false);
    }
    if registry.is_none() {
        return refuse(alloc, NOT_READY, input, false);
    }
    Ok(Planned::Send(Update::DeleteKey {
        key: held.path.copy(alloc)?,
        birth: held.birth,
        subkey,
    }))
}

pub(crate) fn set_value(
    alloc: Global,
    input: &In,
    held: &Held,
    text: &Units,
    kind: u32,
    bytes: &Octets,
    registry: Option<&Registry>,
) -> Result<Planned, AllocError>
    requires { LacksZero text.now }
    ensures planned { IfOk result (λ planned. planned ≡ unless_refused (or_else (name_refusal text.now) (invalid_if (nat_lt 49152 (length bytes.now))))
        input.now (if_open (option_map (λ kept. keys_in kept.now) registry.entry)
        input.now (λ keys. Send (update.SetValue held.now.path held.now.birth text.now kind bytes.now)))) }
    ensures bounded { IfOk result FollowsBounded }
{
    let Some(name) = name(alloc, text)? else {
        return refuse(alloc, INVALID_PARAMETER, input, false);
    };
    if MOST_DATA_BYTES < bytes.as_slice().len() {
        return refuse(alloc, INVALID_PARAMETER, input, false);
    }
    if registry.is_none() {
        return refuse(alloc, NOT_READY, input, false);
    }
    Ok(Planned::Send(Update::SetValue {
        key: held.path.copy(alloc)?,
        birth: held.birth,
        name,
        kind,
        bytes: bytes.copy(alloc)?,
    }))
}

pub(crate) fn delete_value(
    alloc: Global,
    input: &In,
    held: &Held,
    text: &Units,
    registry: Option<&Registry>,
) -> Result<Planned, AllocError>
    requires { LacksZero text.now }
    ensures planned { IfOk result (λ planned. planned ≡ unless_refused (name_refusal text.now)
        input.now (if_open (option_map (λ kept. keys_in kept.now) registry.entry)
        input.now (λ keys. Send (update.DeleteValue held.now.path held.now.birth text.now)))) }
    ensures bounded { IfOk result FollowsBounded }
{
    let Some(name) = name(alloc, text)? else {
        return refuse(alloc, INVALID_PARAMETER, input, false);
    };
    if registry.is_none() {
        return refuse(alloc, NOT_READY, input, false);
    }
    Ok(Planned::Send(Update::DeleteValue {
        key: held.path.copy(alloc)?,
        birth: held.birth,
        name,
    }))
}
