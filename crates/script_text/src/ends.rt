//! The last line of a run, and the one line of a drill.

ghost use Rattle.std.specs.Prelude.{◌≡◌, IfOk, string_bytes};
ghost use Rattle.script_text.specs.Lines.{rest_of_line};
ghost use Rattle.script_text.specs.Ends.{count_words, drill_line, end_line};

use crate::counts::Counts;
use std::alloc::{AllocError, Global};

/// The last line of a run, with its line feed: how many records joined the update order, and how many updates were
/// acknowledged.
#[tactic(auto, unfolding(crate::specs::Ends::end_line))]
pub fn print_end(alloc: Global, order: u64, acks: u64) -> Result<String, AllocError>
    ensures { IfOk result (λ line. string_bytes line ≡ end_line order acks) }
{
    format!(in alloc; "end order {order} acks {acks}\n")
}

/// The one line of a drill, with its line feed: the number and the events that it was asked for, and what came.
#[tactic(auto, unfolding(crate::specs::Ends::drill_line))]
pub fn print_drill(
    alloc: Global,
    number: u64,
    events: u32,
    counts: &Counts,
) -> Result<String, AllocError>
    ensures { IfOk result (λ line. string_bytes line ≡ drill_line number events counts.now) }
{
    let counts = count_words(alloc, counts)?;
    format!(in alloc; "drill {number} {events}{counts}")
}

#[tactic(auto, unfolding(crate::specs::Ends::count_words))]
fn count_words(alloc: Global, counts: &Counts) -> Result<String, AllocError>
    ensures { IfOk result (λ words. string_bytes words ≡ rest_of_line (count_words counts.now)) }
{
    let Counts {
        order,
        acks,
        replies,
        closed,
    } = counts;
    format!(in alloc; " order {order} acks {acks} replies {replies} closed {closed}\n")
}
