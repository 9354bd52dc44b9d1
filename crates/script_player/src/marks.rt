//! Which messages were delivered or skipped.

ghost use Rattle.std.specs.Prelude.{◌≡◌, ◌+◌, ◌≤◌, ◌<◌, [], not, length, drop, OnOk, IfSome, position};
ghost use Rattle.script_player.specs.Marks.{grown, lowest, marked, skipped};

use std::alloc::{AllocError, Global};
use std::marker::Model;

/// Of each message, whether it was delivered or skipped.
#[derive(Drop)]
pub(crate) struct Marks {
    alloc: Global,
    marks: Vec<bool>,
    /// All messages before this place are marked.
    from: usize,
}

impl Model for Marks {
    ghost use Rattle.std.specs.Prelude.{◌≤◌, Bool, List, not};
    ghost use Rattle.std.specs.List.{position_or_len};

    ghost Value = { List Bool };

    ghost view = { λ m. m.marks.items };

    ghost invariant = { λ m. m.from ≤ position_or_len not m.marks.items };
}

impl Marks {
    pub(crate) fn new(alloc: Global) -> Marks
        ensures { result ≡ [] }
    {
        Marks {
            alloc,
            marks: Vec::new(alloc),
            from: 0,
        }
    }

    /// The lowest message that isn't marked.
    pub(crate) fn lowest(&mut self) -> Option<u64>
        ensures lowest { result ≡ lowest self.old }
        ensures same { self.new ≡ self.old }
    {
        match first_unmarked(self.marks.as_slice(), self.from) {
            Some(place) => {
                self.from += place;
                Some(self.from as u64 + 1)
            }
            None => {
                self.from = self.marks.len();
                None
            }
        }
    }

    pub(crate) fn mark(&mut self, number: u64)
        ensures { self.new ≡ marked number self.old }
    {
        if number == 0 {
            return;
        }
        let place = number as usize - 1;
        if place < self.marks.len() {
            self.marks[place] = true;
        }
    }

    /// Marks so many of the lowest messages, or all where there are fewer.
    pub(crate) fn skip(&mut self, count: u32)
        ensures { self.new ≡ skipped count self.old }
    {
        'messages: for _ in 0..count {
            let Some(number) = self.lowest() else {
                return;
            };
            self.mark(number);
        }
    }

    /// So many messages were sent by now.
    #[tactic(auto, unfolding(crate::specs::Marks::grown))]
    pub(crate) fn grow(&mut self, messages: u64) -> Result<(), AllocError>
        ensures { OnOk result (self.new ≡ grown messages self.old) }
    {
        let count = (messages as usize).saturating_sub(self.marks.len());
        let more = vec![in self.alloc; false; count]?;
        self.marks.extend_from_slice(&more)
    }
}

/// How many marks from this place on stand before the first message that isn't marked.
fn first_unmarked(marks: &[bool], from: usize) -> Option<usize>
    requires within { from ≤ length marks.now }
    ensures first { result ≡ position not (drop from marks.now) }
    ensures before { IfSome result (λ place. from + place < length marks.now) }
{
    first_in(&marks[from..])
}

fn first_in(marks: &[bool]) -> Option<usize>
    ensures first { result ≡ position not marks.now }
    ensures within { IfSome result (λ place. place < length marks.now) }
{
    marks.iter().position(|mark| !*mark)
}
