ghost use Rattle.std.specs.Prelude.{◌≡◌, ◌∷◌, ◌++◌, [], IfNone, IfOk, OnErr, OnOk, option_to_list};

use std::alloc::{AllocError, Global};
use std::collections::VecDeque;
use std::marker::Model;
use wire_fields::Octets;

/// Lines to be printed, each with its line feed.
#[derive(Debug, Drop)]
pub struct Lines {
    items: VecDeque<Octets>,
}

impl Model for Lines {
    ghost use Rattle.std.specs.Prelude.{List, ℕ};

    ghost Value = { List (List ℕ) };

    ghost view = { λ lines. lines.items.items };
}

impl Lines {
    pub fn new(alloc: Global) -> Lines
        ensures { result ≡ [] }
    {
        Lines {
            items: VecDeque::new(alloc),
        }
    }

    pub(crate) fn of(alloc: Global, line: Octets) -> Result<Lines, AllocError>
        ensures { IfOk result (λ lines. lines ≡ line ∷ []) }
    {
        let mut lines = Lines::new(alloc);
        lines.push(line)?;
        Ok(lines)
    }

    pub(crate) fn push(&mut self, line: Octets) -> Result<(), AllocError>
        ensures { OnOk result (self.new ≡ self.old ++ line ∷ []) }
    {
        self.items.push_back(line)?;
        Ok(())
    }

    /// Takes the first line.
    pub fn pop(&mut self) -> Option<Octets>
        ensures lines { self.old ≡ option_to_list result ++ self.new }
        ensures none { IfNone result (self.old ≡ []) }
    {
        self.items.pop_front()
    }
}
