//! What a node that is alone leaves in its log, and so what each image of its disk holds: the records found and further ones,
//! in their order, at each moment of a run and behind it. Definitions and laws alone.
#![tactic(auto)]

mod ending;
mod opened;
mod records;

pub use ending::{run_is_cut, run_is_done};
pub use opened::{alone_opens_kept, blank_opens_kept, first_log_is_found, opened_log_is_kept};
pub use records::{checkpoint_is_kept, message_is_kept, record_is_kept, records_are_kept};
