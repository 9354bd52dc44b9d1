//! The methods that read a key of the registry.

ghost use Rattle.std.specs.Prelude.{◌≡◌, ◌++◌, true, IfOk, option_map};
ghost use Rattle.clus_names.specs.Folding.{folded, folded_parts};
ghost use Rattle.clus_names.specs.Limits.{LacksZero};
ghost use Rattle.clus_names.specs.Parts.{parts_of};
ghost use Rattle.registry_defs.specs.Applying.{is_born};
ghost use Rattle.registry_defs.specs.Contents.{keys_in};
ghost use Rattle.registry_defs.specs.Keys.{key_at};
ghost use Rattle.registry_defs.specs.Readings.{info_at, nth_subkey, nth_value, value_in};
ghost use Rattle.clusapi_methods.specs.declared.planned.Planned.TheVariants.{Answer};
ghost use Rattle.clusapi_methods.specs.Arguments.{name_refusal, subkey_refusal};
ghost use Rattle.clusapi_methods.specs.Plans.{if_open, opened_below, told, unless_refused};
ghost use Rattle.clusapi_methods.specs.Results.{entry_told, info_told, key_told, names_told, value_told};
ghost use Rattle.clusapi_methods.specs.Sizes.{FollowsBounded};

use crate::arguments::{joined, name, subkey};
use crate::names::{cluster_name, node_name};
use crate::planned::Planned;
use crate::refusals::refuse;
use crate::results as of;
use crate::statuses::{FILE_NOT_FOUND, INVALID_PARAMETER, KEY_DELETED, NO_MORE_ITEMS, NOT_READY};
use clus_names::Units;
use clus_registry::Registry;
use clusapi_stubs::{In, Out};
use context_handles::{Held, Kind};
use std::alloc::{AllocError, Global};

/// Whether the key of the handle is still there.
pub(crate) fn is_alive(registry: &Registry, held: &Held) -> bool
    ensures { result ≡ is_born held.now.birth (key_at (folded_parts held.now.path) (keys_in registry.now)) }
{
    match registry.find(&held.path) {
        None => false,
        Some(birth) => birth == held.birth,
    }
}

#[tactic(auto, using(crate::proofs::Told::part_text))]
pub(crate) fn enum_key(
    alloc: Global,
    input: &In,
    held: &Held,
    index: u32,
    registry: Option<&Registry>,
) -> Result<Planned, AllocError>
    ensures planned { IfOk result
        (λ planned. planned ≡ told (option_map (λ kept. keys_in kept.now) registry.entry) held.now
        input.now (λ keys. key_told input.now (nth_subkey (folded_parts held.now.path) index keys))) }
    ensures bounded { IfOk result FollowsBounded }
{
    let Some(registry) = registry else {
        return refuse(alloc, NOT_READY, input, false);
    };
    if !is_alive(registry, held) {
        return refuse(alloc, KEY_DELETED, input, true);
    }
    match registry.nth_key(&held.path, index) {
        None => refuse(alloc, NO_MORE_ITEMS, input, true),
        Some((name, written)) => Ok(Planned::Answer {
            out: of::key(alloc, name, written)?,
            reads: true,
        }),
    }
}

pub(crate) fn query_value(
    alloc: Global,
    input: &In,
    held: &Held,
    text: &Units,
    cb_data: u32,
    registry: Option<&Registry>,
) -> Result<Planned, AllocError>
    requires { LacksZero text.now }
    ensures planned { IfOk result
        (λ planned. planned ≡ unless_refused (name_refusal text.now) input.now (told (option_map (λ kept. keys_in kept.now) registry.entry) held.now
        input.now (λ keys. value_told input.now cb_data (value_in (folded_parts held.now.path) (folded text.now) keys)))) }
    ensures bounded { IfOk result FollowsBounded }
{
    let Some(name) = name(alloc, text)? else {
        return refuse(alloc, INVALID_PARAMETER, input, false);
    };
    let Some(registry) = registry else {
        return refuse(alloc, NOT_READY, input, false);
    };
    if !is_alive(registry, held) {
        return refuse(alloc, KEY_DELETED, input, true);
    }
    match registry.value(&held.path, &name) {
        None => refuse(alloc, FILE_NOT_FOUND, input, true),
        Some((kind, bytes)) => Ok(Planned::Answer {
            out: of::value(alloc, kind, bytes, cb_data)?,
            reads: true,
        }),
    }
}

#[tactic(auto, using(crate::proofs::Told::is_told))]
pub(crate) fn enum_value(
    alloc: Global,
    input: &In,
    held: &Held,
    index: u32,
    cb_data: u32,
    registry: Option<&Registry>,
) -> Result<Planned, AllocError>
    ensures planned { IfOk result
        (λ planned. planned ≡ told (option_map (λ kept. keys_in kept.now) registry.entry) held.now
        input.now (λ keys. entry_told input.now cb_data (nth_value (folded_parts held.now.path) index keys))) }
    ensures bounded { IfOk result FollowsBounded }
{
    let Some(registry) = registry else {
        return refuse(alloc, NOT_READY, input, false);
    };
    if !is_alive(registry, held) {
        return refuse(alloc, KEY_DELETED, input, true);
    }
    match registry.nth_value(&held.path, index) {
        None => refuse(alloc, NO_MORE_ITEMS, input, true),
        Some((name, kind, bytes)) => Ok(Planned::Answer {
            out: of::named_value(alloc, name, kind, bytes, cb_data)?,
            reads: true,
        }),
    }
}

pub(crate) fn query_info_key(
    alloc: Global,
    input: &In,
    held: &Held,
    registry: Option<&Registry>,
) -> Result<Planned, AllocError>
    ensures planned { IfOk result
        (λ planned. planned ≡ told (option_map (λ kept. keys_in kept.now) registry.entry) held.now
        input.now (λ keys. info_told input.now (info_at (folded_parts held.now.path) keys))) }
    ensures bounded { IfOk result FollowsBounded }
{
    let Some(registry) = registry else {
        return refuse(alloc, NOT_READY, input, false);
    };
    if !is_alive(registry, held) {
        return refuse(alloc, KEY_DELETED, input, true);
    }
    match registry.info(&held.path) {
        None => refuse(alloc, KEY_DELETED, input, true),
        Some(info) => Ok(Planned::Answer {
            out: of::info(&info),
            reads: true,
        }),
    }
}

pub(crate) fn open_key(
    alloc: Global,
    input: &In,
    held: &Held,
    below: &Units,
    registry: Option<&Registry>,
) -> Result<Planned, AllocError>
    requires { LacksZero below.now }
    ensures planned { IfOk result
        (λ planned. planned ≡ unless_refused (subkey_refusal held.now.path below.now) input.now (if_open (option_map (λ kept. keys_in kept.now) registry.entry)
        input.now (λ keys. opened_below held.now keys input.now (held.now.path ++ parts_of below.now)))) }
    ensures bounded { IfOk result FollowsBounded }
{
    let below = match subkey(alloc, &held.path, below)? {
        Ok(path) => path,
        Err(status) => return refuse(alloc, status, input, false),
    };
    let Some(registry) = registry else {
        return refuse(alloc, NOT_READY, input, false);
    };
    if !is_alive(registry, held) {
        return refuse(alloc, KEY_DELETED, input, true);
    }
    let path = joined(alloc, &held.path, &below)?;
    match registry.find(&path) {
        None => refuse(alloc, FILE_NOT_FOUND, input, true),
        Some(birth) => Ok(Planned::Open {
            opnum: 30,
            held: Held {
                kind: Kind::Key,
                path,
                birth,
            },
            reads: true,
        }),
    }
}

pub(crate) fn cluster_names(
    alloc: Global,
    input: &In,
    node: u16,
    registry: Option<&Registry>,
) -> Result<Planned, AllocError>
    ensures planned { IfOk result
        (λ planned. planned ≡ if_open (option_map (λ kept. keys_in kept.now) registry.entry) input.now (λ keys. Answer (names_told node keys) true)) }
    ensures bounded { IfOk result FollowsBounded }
{
    let Some(registry) = registry else {
        return refuse(alloc, NOT_READY, input, false);
    };
    Ok(Planned::Answer {
        out: Out::GetClusterName {
            cluster: Some(cluster_name(alloc, registry)?),
            node: Some(node_name(alloc, node)?),
            status: 0,
        },
        reads: true,
    })
}
