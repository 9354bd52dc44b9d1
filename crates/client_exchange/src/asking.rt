//! A client between two replies.

ghost use Rattle.std.specs.Prelude.{◌≡◌, IfOk, OnErr, OnOk};
ghost use Rattle.client_commands.specs.Commands.{CommandFits};
ghost use Rattle.client_exchange.specs.Exchange.{Answers, answered, awaiting, begun, bound, follows, replied, root_in, root_of, rooted, text_sent};
ghost use Rattle.client_exchange.specs.Replies.{accepted_size, reply_in};
ghost use Rattle.client_exchange.specs.Requests.{RequestFits, first_request};
ghost use Rattle.client_exchange.specs.Stages.{StageFits, fresh, is_resting, next_id};
ghost use Rattle.client_exchange.specs.Steps.{StepFits};

use crate::binding::{BIND_ID, GREATEST, accepted_size};
use crate::lines::Lines;
use crate::replies::{Reply, reply_in};
use crate::requests::{ALL_ACCESS, first_request, opnum, request_text};
use crate::stage::Stage;
use crate::steps::{Step, step_of};
use crate::told::Told;
use client_commands::Command;
use clusapi_stubs::{In, Out};
use ndr_values::WireHandle;
use rpc_calls::Item;
use std::alloc::{AllocError, Global};
use std::marker::Model;
use uuid::Uuid;
use wire_fields::Octets;

/// A client between two replies.
#[derive(Debug, Drop)]
pub struct Asking {
    stage: Stage,
    /// The command that was started last.
    command: Option<Command>,
    /// The handle of the root.
    root: WireHandle,
    /// The operation number of the request that was sent last.
    opnum: u16,
    /// Its call id.
    call_id: u32,
    /// The longest fragment that is sent.
    max_xmit: u16,
}

impl Model for Asking {
    ghost use Rattle.client_exchange.specs.Stages.{AskingState, IsAsking};

    ghost Value = { AskingState };

    ghost view = { λ asking. record {
      stage = asking.stage;
      command = asking.command;
      root = asking.root;
      opnum = asking.opnum;
      call_id = asking.call_id;
      max_xmit = asking.max_xmit;
    } };

    ghost invariant = { λ asking. IsAsking asking.stage asking.command asking.max_xmit };
}

impl Asking {
    /// A client that was told nothing yet. It begins its connection by the bind.
    pub fn new() -> Asking
        ensures { result ≡ fresh }
    {
        Asking {
            stage: Stage::Binding,
            command: None,
            root: WireHandle {
                attributes: 0,
                id: Uuid::from_bytes([0; 16]),
            },
            opnum: 0,
            call_id: BIND_ID,
            max_xmit: GREATEST,
        }
    }

    /// Whether a command may be started.
    pub fn is_resting(&self) -> bool
        ensures { result ≡ is_resting self.now.stage }
    {
        match self.stage {
            Stage::Resting => true,
            _ => false,
        }
    }

    /// The first request of a command.
    pub fn start(&mut self, alloc: Global, command: Command) -> Result<Vec<u8>, AllocError>
        requires { CommandFits command }
        ensures bytes { IfOk result (λ bytes. bytes.items ≡ text_sent self.old (first_request self.old.root command)) }
        ensures begun { OnOk result (self.new ≡ begun self.old command) }
        ensures err { OnErr result (self.new ≡ self.old) }
    {
        let request = first_request(alloc, self.root, &command)?;
        let bytes = self.send(alloc, Stage::Starting, &request)?;
        self.command = Some(command);
        Ok(bytes)
    }

    /// What the next item of the server's stream comes to; none where it isn't the one that is awaited.
    #[tactic(auto, unfolding(crate::specs::Exchange::answered))]
    pub fn answer(&mut self, alloc: Global, item: &Item) -> Result<Option<Told>, AllocError>
        ensures { Answers result (answered self.old item.now) self.old self.new }
    {
        match self.stage {
            Stage::Binding => self.bound(alloc, item),
            Stage::Rooting => self.rooted(alloc, item),
            _ => self.replied(alloc, item),
        }
    }

    /// The answer to the bind.
    fn bound(&mut self, alloc: Global, item: &Item) -> Result<Option<Told>, AllocError>
        ensures { Answers result (bound self.old (accepted_size item.now)) self.old self.new }
    {
        let Some(size) = accepted_size(item) else {
            return Ok(None);
        };
        let request = In::GetRootKey { sam: ALL_ACCESS };
        let bytes = request_text(alloc, size, self.next_id(), &request)?;
        self.max_xmit = size;
        self.await_answer(Stage::Rooting, &request);
        Ok(Some(Told {
            lines: Lines::new(alloc),
            sent: Some(Octets::new(bytes)),
        }))
    }

    /// The handle of the root.
    fn rooted(&mut self, alloc: Global, item: &Item) -> Result<Option<Told>, AllocError>
        ensures { Answers result (rooted self.old (reply_in self.old.opnum self.old.call_id item.now)) self.old self.new }
    {
        let Some(reply) = reply_in(alloc, self.opnum, self.call_id, item)? else {
            return Ok(None);
        };
        let Some(root) = root_in(&reply) else {
            return Ok(None);
        };
        self.root = root;
        self.stage = Stage::Resting;
        Ok(Some(Told {
            lines: Lines::new(alloc),
            sent: None,
        }))
    }

    /// The answer to a request of a command.
    fn replied(&mut self, alloc: Global, item: &Item) -> Result<Option<Told>, AllocError>
        ensures { Answers result (replied self.old (reply_in self.old.opnum self.old.call_id item.now)) self.old self.new }
    {
        let Some(reply) = reply_in(alloc, self.opnum, self.call_id, item)? else {
            return Ok(None);
        };
        let Some(command) = &self.command else {
            return Ok(None);
        };
        let Some(step) = step_of(alloc, self.stage, command, &reply)? else {
            return Ok(None);
        };
        Ok(Some(self.follow(alloc, step)?))
    }

    fn follow(&mut self, alloc: Global, step: Step) -> Result<Told, AllocError>
        requires { StepFits step }
        ensures told { IfOk result (λ told. record { next = self.new; lines = told.lines; sent = told.sent } ≡ follows self.old step) }
        ensures err { OnErr result (self.new ≡ self.old) }
    {
        let Step {
            stage,
            lines,
            request,
        } = step;
        let Some(request) = request else {
            self.stage = stage;
            return Ok(Told { lines, sent: None });
        };
        let bytes = self.send(alloc, stage, &request)?;
        Ok(Told {
            lines,
            sent: Some(Octets::new(bytes)),
        })
    }

    /// The request as bytes, after which its answer is awaited.
    fn send(&mut self, alloc: Global, stage: Stage, request: &In) -> Result<Vec<u8>, AllocError>
        requires stage { StageFits stage }
        requires fits { RequestFits request.now }
        ensures bytes { IfOk result (λ bytes. bytes.items ≡ text_sent self.old request.now) }
        ensures awaits { OnOk result (self.new ≡ awaiting self.old stage request.now) }
        ensures err { OnErr result (self.new ≡ self.old) }
    {
        let bytes = request_text(alloc, self.max_xmit, self.next_id(), request)?;
        self.await_answer(stage, request);
        Ok(bytes)
    }

    fn next_id(&self) -> u32
        ensures { result ≡ next_id self.now }
    {
        self.call_id.wrapping_add(1)
    }

    fn await_answer(&mut self, stage: Stage, request: &In)
        requires { StageFits stage }
        ensures { self.new ≡ awaiting self.old stage request.now }
    {
        self.call_id = self.next_id();
        self.opnum = opnum(request);
        self.stage = stage;
    }
}

/// The handle of the root, where the reply gives it.
fn root_in(reply: &Reply) -> Option<WireHandle>
    ensures { result ≡ root_in reply.now }
{
    match reply {
        Reply::Results(out) => root_of(out),
        Reply::Fault(_) => None,
    }
}

fn root_of(out: &Out) -> Option<WireHandle>
    ensures { result ≡ root_of out.now }
{
    let Out::GetRootKey { status, handle, .. } = out else {
        return None;
    };
    if *status != 0 {
        return None;
    }
    Some(*handle)
}
