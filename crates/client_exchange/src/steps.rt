//! What the answer to a request comes to.

ghost use Rattle.std.specs.Prelude.{◌≡◌, ◌<◌, IfOk, IfSome, take};
ghost use Rattle.client_commands.specs.Commands.{CommandFits};
ghost use Rattle.clusapi_stubs.specs.Results.{TextsLackZero};
ghost use Rattle.client_exchange.specs.Replies.{ReplyFits};
ghost use Rattle.client_exchange.specs.Stages.{StageFits};
ghost use Rattle.client_exchange.specs.Steps.{StepFits, acted, closes, entries, fails, listed, lists, replied, rests, resulted, started, status_of, step_of, succeeded};

use crate::lines::Lines;
use crate::replies::Reply;
use crate::requests::{entry_request, key_request};
use crate::stage::Stage;
use crate::texts;
use client_commands::Command;
use clusapi_stubs::{In, Out};
use ndr_values::WireHandle;
use std::alloc::{AllocError, Global};
use wire_fields::Octets;

/// What is done with the answer to a request: these lines are printed, this request is made, and its answer is awaited.
#[derive(Debug, Drop)]
pub struct Step {
    pub stage: Stage,
    pub lines: Lines,
    pub request: Option<In>,
}

/// What the answer to a request of this command comes to; none where it doesn't answer it.
#[tactic(auto, unfolding(crate::specs::Steps::step_of))]
pub(crate) fn step_of(
    alloc: Global,
    stage: Stage,
    command: &Command,
    reply: &Reply,
) -> Result<Option<Step>, AllocError>
    requires stage { StageFits stage }
    requires command { CommandFits command.now }
    requires reply { ReplyFits reply.now }
    ensures step { IfOk result (λ step. step ≡ step_of stage command.now reply.now) }
    ensures fits { IfOk result (λ step. IfSome step StepFits) }
{
    match stage {
        Stage::Closing => Ok(Some(rests(Lines::new(alloc)))),
        _ => replied(alloc, stage, command, reply),
    }
}

fn replied(
    alloc: Global,
    stage: Stage,
    command: &Command,
    reply: &Reply,
) -> Result<Option<Step>, AllocError>
    requires stage { StageFits stage }
    requires command { CommandFits command.now }
    requires reply { ReplyFits reply.now }
    ensures step { IfOk result (λ step. step ≡ replied stage command.now reply.now) }
    ensures fits { IfOk result (λ step. IfSome step StepFits) }
{
    match reply {
        Reply::Results(out) => resulted(alloc, stage, command, out),
        Reply::Fault(status) => {
            let line = texts::fault_line(alloc, *status)?;
            Ok(Some(fails(alloc, stage, line)?))
        }
    }
}

fn resulted(
    alloc: Global,
    stage: Stage,
    command: &Command,
    out: &Out,
) -> Result<Option<Step>, AllocError>
    requires stage { StageFits stage }
    requires command { CommandFits command.now }
    requires texts { TextsLackZero out.now }
    ensures step { IfOk result (λ step. step ≡ resulted stage command.now out.now) }
    ensures fits { IfOk result (λ step. IfSome step StepFits) }
{
    let status = status_of(out);
    if status != 0 {
        let line = texts::status_line(alloc, status)?;
        return Ok(Some(fails(alloc, stage, line)?));
    }
    succeeded(alloc, stage, command, out)
}

fn succeeded(
    alloc: Global,
    stage: Stage,
    command: &Command,
    out: &Out,
) -> Result<Option<Step>, AllocError>
    requires stage { StageFits stage }
    requires command { CommandFits command.now }
    requires texts { TextsLackZero out.now }
    ensures step { IfOk result (λ step. step ≡ succeeded stage command.now out.now) }
    ensures fits { IfOk result (λ step. IfSome step StepFits) }
{
    match stage {
        Stage::Acting { key } => acted(alloc, key, command, out),
        Stage::Listing { key, index, count } => listed(alloc, key, index, count, command, out),
        _ => started(alloc, command, out),
    }
}

/// The results of a command's first request.
fn started(alloc: Global, command: &Command, out: &Out) -> Result<Option<Step>, AllocError>
    requires command { CommandFits command.now }
    requires texts { TextsLackZero out.now }
    ensures step { IfOk result (λ step. step ≡ started command.now out.now) }
    ensures fits { IfOk result (λ step. IfSome step StepFits) }
{
    match out {
        Out::GetClusterName { cluster, node, .. } => {
            let line = texts::name_line(alloc, cluster, node)?;
            Ok(Some(rests(Lines::of(alloc, line)?)))
        }
        Out::CreateKey {
            disposition,
            handle,
            ..
        } => {
            let line = texts::made_line(alloc, *disposition)?;
            Ok(Some(closes(*handle, Lines::of(alloc, line)?)))
        }
        Out::DeleteKey { .. } => {
            let line = texts::status_line(alloc, 0)?;
            Ok(Some(rests(Lines::of(alloc, line)?)))
        }
        Out::OpenKey { handle, .. } => {
            Ok(Some(Step {
                stage: Stage::Acting { key: *handle },
                lines: Lines::new(alloc),
                request: Some(key_request(alloc, *handle, command)?),
            }))
        }
        _ => Ok(None),
    }
}

/// The results of a request on a key.
fn acted(
    alloc: Global,
    key: WireHandle,
    command: &Command,
    out: &Out,
) -> Result<Option<Step>, AllocError>
    ensures step { IfOk result (λ step. step ≡ acted key command.now out.now) }
    ensures fits { IfOk result (λ step. IfSome step StepFits) }
{
    match out {
        Out::SetValue { .. } | Out::DeleteValue { .. } => {
            let line = texts::status_line(alloc, 0)?;
            Ok(Some(closes(key, Lines::of(alloc, line)?)))
        }
        Out::QueryValue {
            kind,
            bytes,
            required,
            ..
        } => {
            let line = texts::value_line(alloc, *kind, front(bytes.as_slice(), *required))?;
            Ok(Some(closes(key, Lines::of(alloc, line)?)))
        }
        Out::QueryInfoKey {
            subkeys,
            values,
            ..
        } => {
            let count = entries(*subkeys, *values, command);
            Ok(Some(lists(alloc, key, 0, count, command, Lines::new(alloc))?))
        }
        _ => Ok(None),
    }
}

/// The results of a request for an entry.
fn listed(
    alloc: Global,
    key: WireHandle,
    index: u32,
    count: u32,
    command: &Command,
    out: &Out,
) -> Result<Option<Step>, AllocError>
    requires entry { index < count }
    requires texts { TextsLackZero out.now }
    ensures step { IfOk result (λ step. step ≡ listed key index count command.now out.now) }
    ensures fits { IfOk result (λ step. IfSome step StepFits) }
{
    let line = match out {
        Out::EnumKey { name, .. } => texts::key_line(alloc, name)?,
        Out::EnumValue {
            name,
            kind,
            bytes,
            ..
        } => texts::named_value_line(alloc, name, *kind, bytes.as_slice())?,
        _ => return Ok(None),
    };
    let lines = Lines::of(alloc, line)?;
    Ok(Some(lists(alloc, key, index + 1, count, command, lines)?))
}

/// Asks for the next entry, or ends the list.
fn lists(
    alloc: Global,
    key: WireHandle,
    index: u32,
    count: u32,
    command: &Command,
    mut lines: Lines,
) -> Result<Step, AllocError>
    ensures step { IfOk result (λ step. step ≡ lists key index count command.now lines) }
    ensures fits { IfOk result StepFits }
{
    if index < count {
        return Ok(Step {
            stage: Stage::Listing { key, index, count },
            lines,
            request: Some(entry_request(key, index, command)),
        });
    }
    lines.push(texts::status_line(alloc, 0)?)?;
    Ok(closes(key, lines))
}

/// How many entries are asked for.
fn entries(subkeys: u32, values: u32, command: &Command) -> u32
    ensures { result ≡ entries subkeys values command.now }
{
    match command {
        Command::Values { .. } => values,
        Command::Name
        | Command::Make { .. }
        | Command::Drop { .. }
        | Command::Set { .. }
        | Command::Unset { .. }
        | Command::Get { .. }
        | Command::Keys { .. } => subkeys,
    }
}

/// The first bytes, or all where there are fewer.
fn front(bytes: &[u8], count: u32) -> &[u8]
    ensures { result.now ≡ take count bytes.now }
{
    if bytes.len() < count as usize {
        return bytes;
    }
    &bytes[..count as usize]
}

/// A command that fails says so, and only CloseKey follows, where a key is open.
fn fails(alloc: Global, stage: Stage, line: Octets) -> Result<Step, AllocError>
    ensures step { IfOk result (λ step. step ≡ fails stage line) }
    ensures fits { IfOk result StepFits }
{
    let lines = Lines::of(alloc, line)?;
    match stage {
        Stage::Acting { key } | Stage::Listing { key, .. } => Ok(closes(key, lines)),
        _ => Ok(rests(lines)),
    }
}

fn rests(lines: Lines) -> Step
    ensures step { result ≡ rests lines }
    ensures fits { StepFits result }
{
    Step {
        stage: Stage::Resting,
        lines,
        request: None,
    }
}

fn closes(key: WireHandle, lines: Lines) -> Step
    ensures step { result ≡ closes key lines }
    ensures fits { StepFits result }
{
    Step {
        stage: Stage::Closing,
        lines,
        request: Some(In::CloseKey { handle: key }),
    }
}

fn status_of(out: &Out) -> u32
    ensures { result ≡ status_of out.now }
{
    match out {
        Out::OpenCluster { status, .. }
        | Out::CloseCluster { status, .. }
        | Out::GetClusterName { status, .. }
        | Out::GetRootKey { status, .. }
        | Out::CreateKey { status, .. }
        | Out::OpenKey { status, .. }
        | Out::EnumKey { status, .. }
        | Out::SetValue { status, .. }
        | Out::DeleteValue { status, .. }
        | Out::QueryValue { status, .. }
        | Out::DeleteKey { status, .. }
        | Out::EnumValue { status, .. }
        | Out::CloseKey { status, .. }
        | Out::QueryInfoKey { status, .. } => *status,
    }
}
