//! A registry with the number of its records.

ghost use Rattle.std.specs.Prelude.{◌≡◌, ◌+◌, ◌<◌, ◌^◌, IfOk, IfSome, OnErr, OnOk};
ghost use Rattle.cluster_rules.specs.Updates.{outcome_after, replica_after};
ghost use Rattle.registry_machine.specs.Machine.{record_applied, replicated};

use clus_registry::Registry;
use registry_defs::Outcome;
use std::alloc::AllocError;
use std::marker::Model;
use update_records::Record;

/// A registry, and how many records of the update order it has applied.
#[derive(Drop)]
pub struct Replica {
    registry: Registry,
    done: u64,
}

impl Model for Replica {
    ghost use Rattle.std.specs.Prelude.{◌<◌, ◌^◌};
    ghost use Rattle.cluster_rules.specs.Nodes as nodes;
    ghost use Rattle.registry_machine.specs.Machine.{registry_machine, replicated};

    ghost Value = { nodes.Replica registry_machine };

    ghost view = { λ replica. record { registry = replicated replica.registry; done = replica.done } };

    ghost invariant = { λ replica. replica.done < 2 ^ 63 };
}

impl Replica {
    /// A registry that has applied so many records.
    pub fn new(registry: Registry, done: u64) -> Replica
        requires few { done < 2 ^ 63 }
        ensures { result ≡ record { registry = replicated registry; done = done } }
    {
        Replica { registry, done }
    }

    pub fn registry(&self) -> &Registry
        ensures { replicated result.now ≡ self.now.registry }
    {
        &self.registry
    }

    /// How many records it has applied.
    pub fn done(&self) -> u64
        ensures exact { result ≡ self.now.done }
        ensures few { result < 2 ^ 63 }
    {
        self.done
    }

    /// Applies the record that comes next, and gives what came of it.
    pub fn apply(&mut self, entry: &Record) -> Result<Outcome, AllocError>
        requires room { self.old.done + 1 < 2 ^ 63 }
        ensures applied { OnOk result (self.new ≡ record { registry = (record_applied entry.now self.old.registry).0; done = self.old.done + 1 }) }
        ensures outcome { IfOk result (λ outcome. outcome ≡ (record_applied entry.now self.old.registry).1) }
        ensures unchanged { OnErr result (self.new ≡ self.old) }
    {
        let outcome = apply_update(&mut self.registry, entry)?;
        self.done += 1;
        Ok(outcome)
    }
}

#[tactic(auto, using(registry_machine::proofs::Calls::applies_as_machine))]
fn apply_update(registry: &mut Registry, entry: &Record) -> Result<Outcome, AllocError>
    ensures applied { IfOk result (λ outcome. record_applied entry.now (replicated registry.old) ≡ (replicated registry.new, outcome)) }
    ensures unchanged { OnErr result (registry.new ≡ registry.old) }
{
    registry.apply(entry.place, entry.stamp, &entry.update)
}

/// Applies the record that comes next, where there is a registry, and gives what came of it.
pub fn apply_record(
    replica: &mut Option<Replica>,
    entry: &Record,
) -> Result<Option<Outcome>, AllocError>
    requires room { IfSome replica.old (λ r. r.done + 1 < 2 ^ 63) }
    ensures applied { OnOk result (replica.new ≡ replica_after entry.now replica.old) }
    ensures outcome { IfOk result (λ outcome. outcome ≡ outcome_after entry.now replica.old) }
    ensures unchanged { OnErr result (replica.new ≡ replica.old) }
{
    match replica {
        Some(replica) => Ok(Some(replica.apply(entry)?)),
        None => Ok(None),
    }
}
