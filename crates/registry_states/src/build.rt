ghost use Rattle.std.specs.Prelude.{◌≡◌, ◌+◌, ◌≤◌, [], ◌++◌, List, ℕ, length};
ghost use Rattle.registry_states.specs.Builds.{FeedIs, GivesAgain, IsFed, KeepsBad};
ghost use Rattle.registry_defs.specs.Contents.{IsCap};
ghost use Rattle.registry_defs.specs.StateGrammar.{state_of};
ghost use Rattle.registry_states.specs.States.{Decodes};
ghost use Rattle.registry_states.specs.Turns.{longest_item};

use crate::assembling::assemble;
use crate::fault::StateFault;
use crate::item::Item;
use crate::standing::Standing;
use registry_tree::Key;
use std::alloc::Global;
use std::marker::Model;

/// The root with the longest path below it: 512 names of one unit.
const MOST_LEVELS: u16 = 513;

/// Reads a state that comes in pieces, cut anywhere. Its bytes are read once, but those of an item that isn't there whole.
#[derive(Drop)]
pub struct TreeBuild {
    alloc: Global,
    cap: u32,
    /// What the pieces so far tell, of which `finish` makes the tree.
    items: Vec<Item>,
    standing: Standing,
    /// The fault that the pieces so far have, once it was found.
    fault: Option<usize>,
}

impl Model for TreeBuild {
    ghost use Rattle.registry_states.specs.Builds.{IsKept, Kept};

    ghost Value = { Kept };

    ghost use Rattle.registry_states.specs.Viewing.{kept_of};

    ghost view = { kept_of };

    ghost invariant = { λ build. IsKept (kept_of build) };
}

impl TreeBuild {
    /// Takes no memory.
    pub fn new(alloc: Global, cap: u32) -> TreeBuild
        requires range { IsCap cap }
        ensures cap { result.cap ≡ cap }
        ensures fed { IsFed result [] }
    {
        TreeBuild {
            alloc,
            cap,
            items: Vec::new(alloc),
            standing: Standing::new(alloc),
            fault: None,
        }
    }

    /// Takes in the next piece.
    pub fn feed(&mut self, piece: &[u8]) -> Result<(), StateFault>
        ensures fed { FeedIs result self.old self.new piece.now }
        ensures cap { self.new.cap ≡ self.old.cap }
        // A fault that was found is given again, whatever comes.
        ensures kept { KeepsBad result self.new }
        ensures again { GivesAgain result self.old self.new }
    {
        if let Some(place) = self.fault {
            return Err(StateFault::Bad { place });
        }
        let told = self.items.len();
        match self
            .standing
            .read_piece(self.alloc, &mut self.items, piece, self.cap as usize)
        {
            Ok(standing) => {
                self.standing = standing;
                Ok(())
            }
            Err(StateFault::Bad { place }) => {
                self.fault = Some(place);
                Err(StateFault::Bad { place })
            }
            Err(StateFault::Memory) => {
                self.items.truncate(told);
                Err(StateFault::Memory)
            }
        }
    }

    /// How many bytes were taken of an item that isn't there whole.
    pub fn pending(&self) -> u32
        ensures value { result ≡ length self.now.place.pending }
        ensures bound { result ≤ longest_item }
    {
        self.standing.pending.len() as u32
    }

    /// How many bytes were taken, with those that wait.
    pub fn taken(&self) -> u32
        ensures { result ≡ self.now.place.taken + length self.now.place.pending }
    {
        (self.standing.taken + self.standing.pending.len()) as u32
    }

    /// The root of the registry that the pieces spell.
    pub fn finish(self) -> Result<Key, StateFault>
        ensures { (stream : List ℕ) → IsFed self stream → Decodes result (state_of self.cap stream) }
    {
        let TreeBuild {
            alloc,
            cap: _,
            items,
            standing,
            fault,
        } = self;
        if let Some(place) = fault {
            return Err(StateFault::Bad { place });
        }
        if !standing.ahead.is_done() {
            return Err(StateFault::Bad {
                place: standing.cut,
            });
        }
        let mut items = items.into_iter();
        Ok(assemble(alloc, &mut items, MOST_LEVELS)?)
    }
}
