ghost use Rattle.std.specs.Prelude.{◌≡◌, ℕ, ◌+◌, ◌≤◌, ◌<◌, List, ◌++◌, length, take, drop, min, Some, is_err, IfOk};
ghost use Rattle.std.specs.Io.{ReadsAtMost};
ghost use Rattle.std.specs.Io.KnownBytes.{ReadConsumes};
ghost use Rattle.causes.specs.Counts.{HasCause};

use crate::fault_plan::FaultPlan;
use crate::{Failed, Source, SureSource};
use std::marker::Model;

/// A list of bytes that comes in pieces, with calls that fail where a test asks for it.
#[derive(Debug, Drop)]
pub struct BytesSource {
    rest: SureSource,
    piece: usize,
    plan: FaultPlan,
}

impl Model for BytesSource {
    ghost use Rattle.std.specs.Prelude.{◌<◌};
    ghost use Rattle.edge_io.specs.Supply.{Supply};

    ghost Value = { Supply };

    ghost view = { λ s. record { left = s.rest; piece = s.piece; plan = s.plan } };

    ghost invariant = { λ s. 0 < s.piece };
}

impl BytesSource {
    ghost use Rattle.edge_io.specs.Plan.{fresh_plan};

    /// Gives at most `piece` bytes a call, and fails at the listed call numbers, counted from 1.
    pub fn new(bytes: Vec<u8>, piece: usize, failing: Vec<u32>) -> BytesSource
        requires { 0 < piece }
        ensures { result ≡ record { left = bytes.items; piece = piece; plan = fresh_plan failing.items } }
    {
        BytesSource {
            rest: SureSource::new(bytes),
            piece,
            plan: FaultPlan::new(failing),
        }
    }

    /// How many calls failed so far.
    pub fn faults(&self) -> u64
        ensures { result ≡ self.now.plan.faults }
    {
        self.plan.faults()
    }
}

impl Source for BytesSource {
    ghost use Rattle.edge_io.specs.Supply.{supply_after};
    ghost use Rattle.edge_io.specs.Plan.{next_fails};

    ghost left = { λ s. Some s.left };

    ghost faults = { λ s. s.plan.faults };

    fn read(&mut self, into: &mut [u8]) -> Result<usize, Failed>
        ensures bound { ReadsAtMost result into.new }
        ensures bytes { ReadConsumes (Some self.old.left) (Some self.new.left) result into.new }
        ensures cause { HasCause self.old.plan.faults self.new.plan.faults result }

        // Just the listed calls fail. The others give the front of what is left, as much as a piece and the room hold.
        ensures listed { is_err result ≡ next_fails self.old.plan }
        ensures count { IfOk result (λ n. n ≡ min self.old.piece (min (length into.old) (length self.old.left))) }
        ensures given { IfOk result (λ n. into.new ≡ take n self.old.left ++ drop n into.old) }
        ensures after { self.new ≡ supply_after self.old result }
    {
        self.plan.call()?;
        Ok(self.rest.give(self.piece, into))
    }
}
