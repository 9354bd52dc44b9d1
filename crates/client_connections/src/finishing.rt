//! The end of an update that was queued.

ghost use Rattle.std.specs.Prelude.{◌≡◌, IfOk, None};
ghost use Rattle.client_connections.specs.Clients.{client_at};
ghost use Rattle.client_connections.specs.Courses.{HasRoom};
ghost use Rattle.client_connections.specs.Finishing.{call_finished, finish, finished, finished_for, opened_on};

use crate::connections::Connections;
use crate::origin::Origin;
use crate::replies::results_text;
use clus_names::Path;
use clus_registry::Outcome;
use clusapi_methods::finished;
use cluster_rules::Effect;
use context_handles::{Held, Kind};
use std::alloc::AllocError;

/// The outcome of an update that wasn't applied here.
const NOT_APPLIED: Outcome = Outcome {
    status: 70,
    disposition: 0,
    birth: 0,
    index: 0,
};

/// What comes of an update that came to its outcome.
#[derive(Debug, Drop)]
pub struct Finished {
    /// The answer, where there is one.
    pub effect: Option<Effect>,
    /// The connection that may take items again.
    pub resumes: Option<u32>,
}

impl Connections {
    /// The update of the first that waits came to this outcome, in the record at this place; None where it wasn't applied
    /// here. It was the node's request with this number.
    pub fn finish(
        &mut self,
        req: u64,
        place: u64,
        outcome: Option<Outcome>,
    ) -> Result<Finished, AllocError>
        ensures { IfOk result (λ end. finish self.new end ≡ finished self.old.common.waiting req place outcome self.old) }
    {
        let outcome = outcome.unwrap_or(NOT_APPLIED);
        let Some(origin) = self.shared.pop() else {
            return Ok(unanswered());
        };
        self.finish_for(origin, req, place, &outcome)
    }

    fn finish_for(
        &mut self,
        origin: Origin,
        req: u64,
        place: u64,
        outcome: &Outcome,
    ) -> Result<Finished, AllocError>
        requires { HasRoom self.old.common }
        ensures { IfOk result (λ end. finish self.new end ≡ finished_for origin req place outcome.now self.old) }
    {
        match origin {
            Origin::Batch => Ok(Finished {
                effect: Some(Effect::Batched {
                    req,
                    point: Some(place),
                    status: outcome.status,
                    index: outcome.index,
                }),
                resumes: None,
            }),
            Origin::Call {
                conn,
                call_id,
                context,
                opnum,
                target,
            } => { self.finish_call(conn, call_id, context, opnum, target, place, outcome) }
        }
    }

    fn finish_call(
        &mut self,
        conn: u32,
        call_id: u32,
        context: u16,
        opnum: u16,
        target: Option<Path>,
        place: u64,
        outcome: &Outcome,
    ) -> Result<Finished, AllocError>
        requires { HasRoom self.old.common }
        ensures { IfOk result (λ end. finish self.new end ≡ call_finished conn call_id context opnum target place outcome.now (client_at conn self.old) self.old) }
    {
        match self.conns.get(&conn) {
            None => Ok(unanswered()),
            Some(client) => {
                let group = client.group();
                let max_xmit = client.max_xmit();
                let handle = self.shared.open(group, opened_on(target, outcome))?;
                let out = finished(opnum, outcome, handle);
                let bytes = results_text(self.shared.alloc, max_xmit, call_id, context, &out)?;
                Ok(Finished {
                    effect: Some(Effect::Reply {
                        conn,
                        point: Some(place),
                        bytes,
                    }),
                    resumes: Some(conn),
                })
            }
        }
    }
}

/// No one is answered.
fn unanswered() -> Finished
    ensures effect { result.effect ≡ None }
    ensures resumes { result.resumes ≡ None }
{
    Finished {
        effect: None,
        resumes: None,
    }
}

/// What a Create that was made opens a handle on.
fn opened_on(target: Option<Path>, outcome: &Outcome) -> Option<Held>
    ensures { result ≡ opened_on target outcome.now }
{
    let Some(path) = target else {
        return None;
    };
    if outcome.status != 0 {
        return None;
    }
    Some(Held {
        kind: Kind::Key,
        path,
        birth: outcome.birth,
    })
}
