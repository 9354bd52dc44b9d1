//! What is still to come of a state that was read in part.

ghost use Rattle.std.specs.Prelude.{◌≡◌, [], IfOk};
ghost use Rattle.registry_states.specs.Ahead.{is_nothing};
ghost use Rattle.registry_states.specs.Turns.{course};
ghost use Rattle.registry_states.specs.declared.ahead.Next.TheVariants.{Root};

use clus_names::Units;
use std::alloc::{AllocError, Global};
use std::marker::Model;

/// A key of whose subkeys some are still to come.
#[derive(Drop)]
pub(crate) struct Level {
    /// How many are to come.
    pub left: u32,
    /// How many units of their paths' texts stand before their names.
    pub used: u16,
    /// How many levels deep they may be, each with all that stands below it.
    pub depth: u16,
    /// The name of the one before them.
    pub last: Option<Units>,
}

/// What comes next.
#[derive(Drop)]
pub(crate) enum Next {
    Root,
    /// So many values of the last key, and the count of its subkeys.
    Values { left: u32, used: u16, depth: u16 },
    /// What is left of the subkeys of a key.
    Subkeys(Level),
    Nothing,
}

/// What is to come next, and behind it the subkeys of the keys above, the lowest of which is the last.
#[derive(Drop)]
pub(crate) struct Ahead {
    pub next: Next,
    pub above: Vec<Level>,
}

impl Model for Ahead {
    ghost use Rattle.std.specs.Prelude.{reverse};
    ghost use Rattle.registry_states.specs.Ahead.{Course};

    ghost Value = { Course };

    ghost view = { λ ahead. record { next = ahead.next; above = reverse ahead.above.items } };
}

impl Level {
    fn copy(&self, alloc: Global) -> Result<Level, AllocError>
        ensures { IfOk result (λ copied. copied ≡ self.now) }
    {
        let last = match &self.last {
            None => None,
            Some(last) => Some(last.copy(alloc)?),
        };
        Ok(Level {
            left: self.left,
            used: self.used,
            depth: self.depth,
            last,
        })
    }
}

impl Next {
    fn copy(&self, alloc: Global) -> Result<Next, AllocError>
        ensures { IfOk result (λ copied. copied ≡ self.now) }
    {
        match self {
            Next::Root => Ok(Next::Root),
            Next::Values { left, used, depth } => Ok(Next::Values {
                left: *left,
                used: *used,
                depth: *depth,
            }),
            Next::Subkeys(level) => Ok(Next::Subkeys(level.copy(alloc)?)),
            Next::Nothing => Ok(Next::Nothing),
        }
    }
}

impl Ahead {
    /// Before anything was read.
    pub fn new(alloc: Global) -> Ahead
        ensures { result ≡ course Root [] }
    {
        Ahead {
            next: Next::Root,
            above: Vec::new(alloc),
        }
    }

    pub fn is_done(&self) -> bool
        ensures { result ≡ is_nothing self.now.next }
    {
        match &self.next {
            Next::Nothing => true,
            Next::Root => false,
            Next::Values { .. } => false,
            Next::Subkeys(_) => false,
        }
    }

    pub fn copy(&self, alloc: Global) -> Result<Ahead, AllocError>
        ensures { IfOk result (λ copied. copied ≡ self.now) }
    {
        Ok(Ahead {
            next: self.next.copy(alloc)?,
            above: copied(alloc, &self.above)?,
        })
    }
}

fn copied(alloc: Global, levels: &[Level]) -> Result<Vec<Level>, AllocError>
    ensures { IfOk result (λ copied. copied.items ≡ levels.now) }
{
    let mut items = Vec::new(alloc);
    'levels: for level in levels {
        items.push(level.copy(alloc)?)?;
    }
    Ok(items)
}
