//! What follows from the definitions, each law as the contract of a function that does nothing.

ghost use Rattle.cluster_rules.specs.Machines.{IsMachine};
ghost use Rattle.registry_machine.specs.Laws.{AppliesAsMachine, BeginsAsMachine, EncodesAsMachine, FailsAsMachine, ReadsAsMachine};
ghost use Rattle.registry_machine.specs.Laws.{EncodingIsBytes, OrderKeeps, OutcomeIsOfFold, ReplayIsFold};
ghost use Rattle.registry_machine.specs.Machine.{registry_machine};

/// The registry is such a machine as the protocol replicates.
pub fn registry_is_a_machine()
    ensures { IsMachine registry_machine }
{}

/// Behind each order of records that fit a registry obeys all limits, and its encoding is bytes, no more than its cap.
pub fn order_keeps_the_limits()
    ensures limits { OrderKeeps }
    ensures bytes { EncodingIsBytes }
{}

/// Records at their places make the registry that the update order makes by the definitions, and come to the same.
pub fn replay_is_the_fold()
    ensures registry { ReplayIsFold }
    ensures outcome { OutcomeIsOfFold }
{}

/// What the calls of `Registry` and of `StateBuild` make is what the machine says.
pub fn calls_do_as_the_machine()
    ensures begins { BeginsAsMachine }
    ensures apply { AppliesAsMachine }
    ensures encoded { EncodesAsMachine }
    ensures read { ReadsAsMachine }
    ensures refused { FailsAsMachine }
{}
