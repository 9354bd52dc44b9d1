ghost use Rattle.cluster_rules.specs.Machines.{Machine};

/// What is replicated. No law of the machine is asked for.
pub trait AnyMachine {
    ghost machine: { Machine };
}
