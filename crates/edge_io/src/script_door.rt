ghost use Rattle.std.specs.Prelude.{◌≡◌, ◌<◌, ◌||◌, ℕ, List, [], ◌∷◌, ◌++◌, length, Some, IsErr, IfOk, IsTrue, Option, is_err, is_none, map, vec_capacity};
ghost use Rattle.std.specs.Io.{ReadsAtMost, WritesAtMost};
ghost use Rattle.causes.specs.Counts.{HasCause};
ghost use Rattle.causes.specs.Writing.{TakesSome};

use crate::fault_plan::FaultPlan;
use crate::{Door, Failed, ScriptVisit};
use std::alloc::Global;
use std::marker::Model;

/// Hands out connections with the inputs that a test lists, keeps what each was sent, and fails where
/// the test asks for it. A call that finds no memory fails too.
#[derive(Debug, Drop)]
pub struct ScriptDoor {
    alloc: Global,
    inputs: Vec<Vec<u8>>,
    present: Option<ScriptVisit>,
    ended: Vec<ScriptVisit>,
    plan: FaultPlan,
    failed_accepts: u64,
    failed_reads: u64,
    failed_writes: u64,
}

impl Model for ScriptDoor {
    ghost use Rattle.std.specs.Prelude.{◌<◌, length, map, IfSome, vec_capacity};
    ghost use Rattle.edge_io.specs.Visits.{Script};

    ghost Value = { Script };

    ghost view = { λ d. record {
      visits = record { coming = map (λ input. input.items) d.inputs.items; present = d.present; ended = d.ended.items };
      plan = d.plan;
      faults = record { accept = d.failed_accepts; read = d.failed_reads; write = d.failed_writes };
    } };

    // The present connection has room among those that were ended.
    ghost invariant = { λ d. IfSome d.present (λ _. length d.ended.items < vec_capacity d.ended) };
}

impl ScriptDoor {
    ghost use Rattle.edge_io.specs.Visits.{fresh_script};

    /// The listed calls of `accept`, `read` and `write` fail, counted together from 1.
    pub fn new(alloc: Global, inputs: Vec<Vec<u8>>, failing: Vec<u32>) -> ScriptDoor
        ensures { result ≡ fresh_script (map (λ input. input.items) inputs.items) failing.items }
    {
        ScriptDoor {
            alloc,
            inputs,
            present: None,
            ended: Vec::new(alloc),
            plan: FaultPlan::new(failing),
            failed_accepts: 0,
            failed_reads: 0,
            failed_writes: 0,
        }
    }

    /// The connections that were ended, in their order.
    pub fn ended(&self) -> &[ScriptVisit]
        ensures { result.now ≡ self.now.visits.ended }
    {
        self.ended.as_slice()
    }
}

impl Door for ScriptDoor {
    ghost use Rattle.edge_io.specs.Plan.{next_fails};
    ghost use Rattle.edge_io.specs.Visits.{Accepts, Counts, NeedsPresent, ReadsFront, at_present, hung_up, with_read, with_write};

    ghost visits = { λ d. Some d.visits };

    ghost faults = { λ d. d.faults };

    fn accept(&mut self) -> Result<bool, Failed>
        ensures told { Accepts result self.old.visits self.new.visits }
        ensures cause { HasCause self.old.faults.accept self.new.faults.accept result }
        ensures reads { self.new.faults.read ≡ self.old.faults.read }
        ensures writes { self.new.faults.write ≡ self.old.faults.write }
        ensures listed { IsTrue (next_fails self.old.plan) → IsErr result }
        ensures counts { Counts self.old.plan self.new.plan }
    {
        self.hang_up();
        if self.plan.call().is_err() || self.ended.reserve(1).is_err() {
            self.failed_accepts = self.failed_accepts.saturating_add(1);
            return Err(Failed);
        }
        if self.inputs.is_empty() {
            return Ok(false);
        }
        let input = self.inputs.remove(0);
        self.present = Some(ScriptVisit::new(self.alloc, input));
        Ok(true)
    }

    fn read(&mut self, into: &mut [u8]) -> Result<usize, Failed>
        ensures bound { ReadsAtMost result into.new }
        ensures given { ReadsFront self.old.visits.present into.new result }
        ensures told { self.new.visits ≡ at_present (with_read result) self.old.visits }
        ensures accepts { self.new.faults.accept ≡ self.old.faults.accept }
        ensures cause { HasCause self.old.faults.read self.new.faults.read result }
        ensures writes { self.new.faults.write ≡ self.old.faults.write }
        // Just the listed calls fail, and those without a connection.
        ensures listed { is_err result ≡ (next_fails self.old.plan || is_none self.old.visits.present) }
        ensures counts { Counts self.old.plan self.new.plan }
    {
        let is_listed = self.plan.call().is_err();
        if let Some(visit) = &mut self.present {
            if !is_listed {
                return Ok(visit.read(into));
            }
            visit.count_failed_read();
        }
        self.failed_reads = self.failed_reads.saturating_add(1);
        Err(Failed)
    }

    fn write(&mut self, bytes: &[u8]) -> Result<usize, Failed>
        ensures bound { WritesAtMost result bytes.now }
        ensures some { TakesSome result bytes.now }
        ensures needs { NeedsPresent self.old.visits.present result }
        ensures told { self.new.visits ≡ at_present (with_write bytes.now result) self.old.visits }
        ensures accepts { self.new.faults.accept ≡ self.old.faults.accept }
        ensures reads { self.new.faults.read ≡ self.old.faults.read }
        ensures cause { HasCause self.old.faults.write self.new.faults.write result }
        ensures listed { IsTrue (next_fails self.old.plan) → IsErr result }
        ensures counts { Counts self.old.plan self.new.plan }
        ensures count { IfOk result (λ count. count ≡ length bytes.now) }
    {
        let is_listed = self.plan.call().is_err();
        if let Some(visit) = &mut self.present {
            if !is_listed && visit.write(bytes).is_ok() {
                return Ok(bytes.len());
            }
            visit.count_failed_write();
        }
        self.failed_writes = self.failed_writes.saturating_add(1);
        Err(Failed)
    }

    fn hang_up(&mut self)
        ensures told { self.new.visits ≡ hung_up self.old.visits }
        ensures same { self.new.faults ≡ self.old.faults }
        ensures uncounted { self.new.plan ≡ self.old.plan }
    {
        if let Some(visit) = self.present.take() {
            keep(&mut self.ended, visit);
        }
    }
}

/// Appends where there is room, so it takes no memory.
fn keep(ended: &mut Vec<ScriptVisit>, visit: ScriptVisit)
    requires { length ended.old.items < vec_capacity ended.old }
    ensures { ended.new.items ≡ ended.old.items ++ visit ∷ [] }
{
    match ended.push(visit) {
        Ok(()) => {}
        Err(_) => unreachable!(),
    }
}
