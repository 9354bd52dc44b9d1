//! What holds of a node from its start on.

ghost use Rattle.cluster_node.specs.Steps.{BatchSteps, BytesStep, CheckpointSteps, ClockSteps, ConnectSteps, HangUpSteps, InstallSteps, ReceiveSteps, StartStands, TickSteps};
ghost use Rattle.cluster_node.specs.Numbers.{BatchUsesNoMore, BytesUseNoMore, CheckpointUsesNoMore, ClockUsesNoMore, ConnectUsesOne, HangUpUsesNoMore, InstallUsesNoMore, ReceiveUsesNoMore, StartUsesNone, StoppedUsesNone, TickUsesNoMore};
ghost use Rattle.cluster_node.specs.Rooms.{BatchKeepsRoom, BytesKeepRoom, CheckpointKeepsRoom, ClockKeepsRoom, ConnectKeepsRoom, HangUpKeepsRoom, InstallGivesRoom, InstallKeepsRoom, ReceiveKeepsRoom, SameDiskHasRoom, StartHasRoom, StoppedHasRoom, TickKeepsRoom};
ghost use Rattle.cluster_node.specs.InStep.{BatchesInStep, ChecksInStep, ClocksInStep, ConnectsInStep, HangsUpInStep, HearsInStep, InstallsInStep, ReceivesInStep, StartsInStep, TicksInStep};

/// As many calls and batches wait as there are updates in the queue, and there is a number for each request: so a node begins, and so each event leaves it.
pub fn stays_in_step()
    ensures starts { StartsInStep }
    ensures installs { InstallsInStep }
    ensures receives { ReceivesInStep }
    ensures checks { ChecksInStep }
    ensures ticks { TicksInStep }
    ensures clocks { ClocksInStep }
    ensures connects { ConnectsInStep }
    ensures hangs_up { HangsUpInStep }
    ensures hears { HearsInStep }
    ensures batches { BatchesInStep }
{}

/// Each event of a node is a step of its incarnation, as the update order of the whole run explains it.
pub fn events_are_steps()
    ensures start { StartStands }
    ensures receive { ReceiveSteps }
    ensures install { InstallSteps }
    ensures checkpoint { CheckpointSteps }
    ensures tick { TickSteps }
    ensures clock { ClockSteps }
    ensures bytes { BytesStep }
    ensures connect { ConnectSteps }
    ensures hang_up { HangUpSteps }
    ensures batch { BatchSteps }
{}

/// A disk that has room for the log that a node writes has room for it behind each event.
pub fn keeps_room()
    ensures starts { StartHasRoom }
    ensures stopped { StoppedHasRoom }
    ensures same_disk { SameDiskHasRoom }
    ensures installs { InstallKeepsRoom }
    ensures enters { InstallGivesRoom }
    ensures receives { ReceiveKeepsRoom }
    ensures checks { CheckpointKeepsRoom }
    ensures ticks { TickKeepsRoom }
    ensures clocks { ClockKeepsRoom }
    ensures connects { ConnectKeepsRoom }
    ensures hears { BytesKeepRoom }
    ensures hangs_up { HangUpKeepsRoom }
    ensures batches { BatchKeepsRoom }
{}

/// Only a connect gives a number to a connection: a number that was never used is unused.
pub fn keeps_numbers()
    ensures starts { StartUsesNone }
    ensures stopped { StoppedUsesNone }
    ensures installs { InstallUsesNoMore }
    ensures receives { ReceiveUsesNoMore }
    ensures checks { CheckpointUsesNoMore }
    ensures ticks { TickUsesNoMore }
    ensures clocks { ClockUsesNoMore }
    ensures connects { ConnectUsesOne }
    ensures hears { BytesUseNoMore }
    ensures hangs_up { HangUpUsesNoMore }
    ensures batches { BatchUsesNoMore }
{}
