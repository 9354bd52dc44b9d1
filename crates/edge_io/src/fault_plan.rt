ghost use Rattle.std.specs.Prelude.{◌≡◌, ◌==◌};
ghost use Rattle.std.specs.List.{list_any};

use crate::Failed;
use std::marker::Model;

/// Which calls of an object in memory fail: those whose numbers, counted from 1, are listed.
#[derive(Debug, Drop)]
pub(crate) struct FaultPlan {
    failing: Vec<u32>,
    calls: u64,
    faults: u64,
}

impl Model for FaultPlan {
    ghost use Rattle.edge_io.specs.Plan.{Plan};

    ghost Value = { Plan };

    ghost view = { λ p. record { failing = p.failing.items; calls = p.calls; faults = p.faults } };
}

impl FaultPlan {
    ghost use Rattle.std.specs.Prelude.{◌≡◌, ◌≤◌, if◌then◌else◌, is_ok, is_err};
    ghost use Rattle.causes.specs.Counts.{HasCause, Rose};
    ghost use Rattle.edge_io.specs.Plan.{fresh_plan, next_fails, after_call, after_fault};

    pub(crate) fn new(failing: Vec<u32>) -> FaultPlan
        ensures { result ≡ fresh_plan failing.items }
    {
        FaultPlan {
            failing,
            calls: 0,
            faults: 0,
        }
    }

    /// Counts a call, and fails where its number is listed.
    pub(crate) fn call(&mut self) -> Result<(), Failed>
        ensures listed { is_err result ≡ next_fails self.old }
        ensures counted { self.new ≡ (if is_ok result then after_call self.old else after_fault (after_call self.old)) }
        ensures cause { HasCause self.old.faults self.new.faults result }
    {
        self.calls = self.calls.saturating_add(1);
        if is_listed(&self.failing, self.calls) {
            return Err(self.fault());
        }
        Ok(())
    }

    /// Counts a fault.
    pub(crate) fn fault(&mut self) -> Failed
        ensures counted { self.new ≡ after_fault self.old }
        ensures later { self.old.faults ≤ self.new.faults }
        ensures rose { Rose self.old.faults self.new.faults }
    {
        self.faults = self.faults.saturating_add(1);
        Failed
    }

    pub(crate) fn faults(&self) -> u64
        ensures { result ≡ self.now.faults }
    {
        self.faults
    }
}

fn is_listed(numbers: &[u32], call: u64) -> bool
    ensures { result ≡ list_any (λ number. number == call) numbers.now }
{
    numbers.iter().any(|number| u64::from(*number) == call)
}
