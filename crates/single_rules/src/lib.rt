//! A node that is the only member of its view, whose own messages are delivered to it until none is left: what it makes
//! of an update, and of several in turn. Its whole state is told by a few values (`Single`), so each event is an equation
//! between states. The laws hold for whatever is replicated, and say nothing of connections.
#![tactic(auto)]

mod idle;
mod logging;
mod machine;
mod opening;
mod refusals;
mod rounds;
mod steps;
mod worlds;

pub use idle::{checkpoints_at_rest, clock_at_rest, tick_at_rest};
pub use logging::{logs_as_told, logs_made};
pub use machine::AnyMachine;
pub use opening::{opens_alone, recovers_alone, takes_view_of_one};
pub use refusals::{
    asks_again, checkpoint_fails, checkpoint_fenced, grants_none, halts_fenced, halts_in_doubt,
    halts_unwritten, queues_none,
};
pub use rounds::{
    all_counted, all_outcomes_of, all_placed, keeps_order, one_update, replays, several_updates,
    stays_sound,
};
pub use steps::{
    asks_early, finishes_one, frees_next, frees_one, grants_one, submits_next, submits_one,
};
pub use worlds::happens_in_worlds;
