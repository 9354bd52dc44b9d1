//! From the disk to the update order: the quorum log on a disk, through its calls and through crashes, is the log that the
//! rules of the cluster speak of. Definitions and laws alone; they know nothing of nodes and messages.
#![tactic(auto)]

mod appending;
mod checkpointing;
mod crashing;
mod opening;
mod orders;

pub use appending::{append_is_in_doubt, appended_log_refines, doubt_weakens};
pub use checkpointing::{
    checkpoint_changes_nothing, checkpointed_log_refines, formatted_log_refines,
};
pub use crashing::{
    crash_comes_at_a_moment, crashed_log_refines, fenced_calls_change_nothing,
    present_moment_is_one, same_moment_refines,
};
pub use opening::{
    fenced_open_changes_nothing, open_claims_or_not, open_is_refused_by_the_disk,
    opened_log_refines,
};
pub use orders::{
    checkpoint_leaves_the_order, decoded_log_is_the_order, empty_log_has_no_order,
    record_extends_the_order,
};
