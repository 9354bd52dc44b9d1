//! The requests of each command.

ghost use Rattle.std.specs.Prelude.{◌≡◌, ◌≤◌, All, IfOk};
ghost use Rattle.client_commands.specs.Commands.{CommandFits};
ghost use Rattle.clusapi_stubs.specs.Inputs.{opnum_of};
ghost use Rattle.rpc_pdu.specs.Encoding.{CanSpell};
ghost use Rattle.client_exchange.specs.Requests.{RequestFits, entry_request, first_request, key_request, request_text, text_of};
ghost use Rattle.client_exchange.specs.Stages.{greatest, least};

use client_commands::Command;
use clusapi_stubs::{In, write_in};
use ndr_values::WireHandle;
use rpc_calls::cut_request;
use rpc_pdu::{Pdu, encode};
use std::alloc::{AllocError, Global};

/// All rights on a key ([MS-CMRP] 2.2.1.1).
pub(crate) const ALL_ACCESS: u32 = 0x000f_003f;
/// The most bytes of a value that are asked for.
const MOST_VALUE: u32 = 49_152;
/// The context on which the requests are made.
const CONTEXT: u16 = 0;

/// The first request of a command, on the root where it is on a key.
pub(crate) fn first_request(
    alloc: Global,
    root: WireHandle,
    command: &Command,
) -> Result<In, AllocError>
    requires { CommandFits command.now }
    ensures request { IfOk result (λ request. request ≡ first_request root command.now) }
    ensures fits { IfOk result RequestFits }
{
    match command {
        Command::Name => Ok(In::GetClusterName),
        Command::Make { path } => Ok(In::CreateKey {
            handle: root,
            subkey: path.copy(alloc)?,
            options: 0,
            sam: ALL_ACCESS,
            security: 0,
        }),
        Command::Drop { path } => Ok(In::DeleteKey {
            handle: root,
            subkey: path.copy(alloc)?,
        }),
        Command::Set { path, .. }
        | Command::Unset { path, .. }
        | Command::Get { path, .. }
        | Command::Keys { path }
        | Command::Values { path } => Ok(In::OpenKey {
            handle: root,
            subkey: path.copy(alloc)?,
            sam: ALL_ACCESS,
        }),
    }
}

/// The request on the key that the first one opened.
pub(crate) fn key_request(
    alloc: Global,
    key: WireHandle,
    command: &Command,
) -> Result<In, AllocError>
    requires { CommandFits command.now }
    ensures request { IfOk result (λ request. request ≡ key_request key command.now) }
    ensures fits { IfOk result RequestFits }
{
    match command {
        Command::Set {
            name,
            kind,
            bytes,
            ..
        } => Ok(In::SetValue {
            handle: key,
            name: name.copy(alloc)?,
            kind: *kind,
            bytes: bytes.copy(alloc)?,
            cb_data: bytes.as_slice().len() as u32,
        }),
        Command::Unset { name, .. } => Ok(In::DeleteValue {
            handle: key,
            name: name.copy(alloc)?,
        }),
        Command::Get { name, .. } => Ok(In::QueryValue {
            handle: key,
            name: name.copy(alloc)?,
            cb_data: MOST_VALUE,
        }),
        Command::Name
        | Command::Make { .. }
        | Command::Drop { .. }
        | Command::Keys { .. }
        | Command::Values { .. } => Ok(In::QueryInfoKey { handle: key }),
    }
}

/// The request for an entry of that key.
pub(crate) fn entry_request(key: WireHandle, index: u32, command: &Command) -> In
    ensures request { result ≡ entry_request key index command.now }
    ensures fits { RequestFits result }
{
    match command {
        Command::Values { .. } => In::EnumValue {
            handle: key,
            index,
            cb_data: MOST_VALUE,
        },
        Command::Name
        | Command::Make { .. }
        | Command::Drop { .. }
        | Command::Set { .. }
        | Command::Unset { .. }
        | Command::Get { .. }
        | Command::Keys { .. } => In::EnumKey { handle: key, index },
    }
}

/// The operation number of a request.
pub(crate) fn opnum(request: &In) -> u16
    ensures { result ≡ opnum_of request.now }
{
    match request {
        In::OpenCluster => 0,
        In::CloseCluster { .. } => 1,
        In::GetClusterName => 3,
        In::GetRootKey { .. } => 28,
        In::CreateKey { .. } => 29,
        In::OpenKey { .. } => 30,
        In::EnumKey { .. } => 31,
        In::SetValue { .. } => 32,
        In::DeleteValue { .. } => 33,
        In::QueryValue { .. } => 34,
        In::DeleteKey { .. } => 35,
        In::EnumValue { .. } => 36,
        In::CloseKey { .. } => 37,
        In::QueryInfoKey { .. } => 38,
    }
}

/// A request as bytes, in fragments of at most so many bytes.
#[tactic(auto, unfolding(crate::specs::Requests::request_text))]
pub(crate) fn request_text(
    alloc: Global,
    max_xmit: u16,
    call_id: u32,
    request: &In,
) -> Result<Vec<u8>, AllocError>
    requires least { least ≤ max_xmit }
    requires most { max_xmit ≤ greatest }
    requires fits { RequestFits request.now }
    ensures { IfOk result (λ bytes. bytes.items ≡ request_text max_xmit call_id request.now) }
{
    let stub = write_in(alloc, request)?;
    let pieces = cut_request(alloc, call_id, CONTEXT, opnum(request), max_xmit, &stub)?;
    encode_all(alloc, &pieces)
}

fn encode_all(alloc: Global, pdus: &[Pdu]) -> Result<Vec<u8>, AllocError>
    requires { All CanSpell pdus.now }
    ensures { IfOk result (λ bytes. bytes.items ≡ text_of pdus.now) }
{
    let mut bytes = Vec::new(alloc);
    for pdu in pdus {
        bytes.extend_from_slice(&encode(alloc, pdu)?)?;
    }
    Ok(bytes)
}
