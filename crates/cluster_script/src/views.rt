//! The line that declares a view.

ghost use Rattle.std.specs.Prelude.{◌≡◌, IfOk, IsTrue, ◌↔◌, [], ◌==◌, length};
ghost use Rattle.gum_messages.specs.Views.{Ascend};
ghost use Rattle.cluster_script.specs.Fitting.{LineFits};
ghost use Rattle.cluster_script.specs.Grammar.{view_line};
ghost use Rattle.cluster_script.specs.Reading.{members_at, reads};
ghost use Rattle.cluster_script.specs.Words.{Takes};

use crate::line::Line;
use crate::line_fault::LineFault;
use crate::words::Words;
use cluster_worlds::Event;
use gum_messages::{Member, View};
use std::alloc::Global;

#[tactic(auto, unfolding(crate::specs::Reading::reads, crate::specs::Grammar::view_line))]
pub(crate) fn view_line(alloc: Global, words: &mut Words<'_>) -> Result<Line, LineFault>
    ensures line { Takes (λ line. line) result (reads view_line words.old) words.new }
    ensures fits { IfOk result LineFits }
{
    let number = words.serial()?;
    let members = read_members(alloc, words)?;
    match View::new(number, members) {
        Some(view) => Ok(Line::Step(Event::Declare(view))),
        None => unreachable!(),
    }
}

/// Members to the line's end, each above the one before it.
fn read_members(alloc: Global, words: &mut Words<'_>) -> Result<Vec<Member>, LineFault>
    ensures members { Takes (λ members. members.items) result (members_at 0 words.old) words.new }
    ensures ascending { IfOk result (λ members. Ascend 0 members.items) }
{
    let mut members = Vec::new(alloc);
    let mut floor = 0;
    'members: while !words.is_at_end() {
        let member = match words.member(floor) {
            Ok(member) => member,
            Err(fault) => return Err(fault),
        };
        floor = member.node;
        members.push(member)?;
    }
    Ok(members)
}
