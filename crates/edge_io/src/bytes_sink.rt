ghost use Rattle.std.specs.Prelude.{◌≡◌, ℕ, List, ◌++◌, [], length, Some, IsErr, IfOk, IsTrue, Option};
ghost use Rattle.std.specs.Io.{WritesAtMost};
ghost use Rattle.causes.specs.Counts.{HasCause};
ghost use Rattle.causes.specs.Writing.{TakesSome, WroteFront};

use crate::fault_plan::FaultPlan;
use crate::{Failed, Sink};
use std::alloc::Global;
use std::marker::Model;

/// Keeps what is written, with calls that fail where a test asks for it. A call that finds no memory fails too.
#[derive(Debug, Drop)]
pub struct BytesSink {
    bytes: Vec<u8>,
    plan: FaultPlan,
}

impl Model for BytesSink {
    ghost use Rattle.edge_io.specs.Supply.{Store};

    ghost Value = { Store };

    ghost view = { λ s. record { written = s.bytes.items; plan = s.plan } };
}

impl BytesSink {
    ghost use Rattle.edge_io.specs.Plan.{fresh_plan};

    /// Fails at the listed call numbers, counted from 1.
    pub fn new(alloc: Global, failing: Vec<u32>) -> BytesSink
        ensures { result ≡ record { written = []; plan = fresh_plan failing.items } }
    {
        BytesSink {
            bytes: Vec::new(alloc),
            plan: FaultPlan::new(failing),
        }
    }

    /// All that was written so far.
    pub fn written(&self) -> &[u8]
        ensures { result.now ≡ self.now.written }
    {
        self.bytes.as_slice()
    }

    /// How many calls failed so far.
    pub fn faults(&self) -> u64
        ensures { result ≡ self.now.plan.faults }
    {
        self.plan.faults()
    }
}

impl Sink for BytesSink {
    ghost use Rattle.edge_io.specs.Supply.{store_after};
    ghost use Rattle.edge_io.specs.Plan.{next_fails};

    ghost written = { λ s. Some s.written };

    ghost faults = { λ s. s.plan.faults };

    fn write(&mut self, bytes: &[u8]) -> Result<usize, Failed>
        ensures bound { WritesAtMost result bytes.now }
        ensures some { TakesSome result bytes.now }
        ensures bytes { WroteFront (Some self.old.written) (Some self.new.written) result bytes.now }
        ensures cause { HasCause self.old.plan.faults self.new.plan.faults result }

        // The listed calls fail. Where there is memory, the others take the whole piece.
        ensures listed { IsTrue (next_fails self.old.plan) → IsErr result }
        ensures count { IfOk result (λ n. n ≡ length bytes.now) }
        ensures after { self.new ≡ store_after self.old bytes.now result }
    {
        self.plan.call()?;
        if self.bytes.extend_from_slice(bytes).is_err() {
            return Err(self.plan.fault());
        }
        Ok(bytes.len())
    }
}
