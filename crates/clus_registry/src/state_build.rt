ghost use Rattle.std.specs.Prelude.{◌≡◌, ◌≤◌, [], List, ℕ, length, IfErr, IfOk};
ghost use Rattle.registry_defs.specs.Contents.{IsCap};
ghost use Rattle.registry_defs.specs.Keys.{Keys};
ghost use Rattle.registry_defs.specs.Limits.{IsRegistry};
ghost use Rattle.registry_defs.specs.Sizes.{size};
ghost use Rattle.registry_defs.specs.Spelling.{registry_text};
ghost use Rattle.registry_states.specs.Builds.{GivesAgain, KeepsBad};
ghost use Rattle.clus_registry.specs.Builds.{FeedIs, IsFed};
ghost use Rattle.clus_registry.specs.States.{FailsOn, GivesKeys, IsReadFrom};

use crate::registry::Registry;
use registry_states::{StateFault, TreeBuild};
use std::alloc::Global;
use std::marker::Model;

/// Reads a registry's encoding that comes in pieces, cut anywhere.
#[derive(Drop)]
pub struct StateBuild {
    alloc: Global,
    cap: u32,
    tree: TreeBuild,
}

impl Model for StateBuild {
    ghost use Rattle.registry_states.specs.Builds.{Kept};
    ghost use Rattle.clus_registry.specs.Builds.{IsBegun};

    ghost Value = { Kept };

    ghost view = { λ build. build.tree };

    ghost invariant = { λ build. IsBegun build.cap build.tree };
}

impl StateBuild {
    /// Takes no memory.
    pub fn new(alloc: Global, cap: u32) -> StateBuild
        requires range { IsCap cap }
        ensures cap { result.cap ≡ cap }
        ensures fed { IsFed result [] }
    {
        StateBuild {
            alloc,
            cap,
            tree: TreeBuild::new(alloc, cap),
        }
    }

    /// Takes in the next piece.
    pub fn feed(&mut self, piece: &[u8]) -> Result<(), StateFault>
        ensures fed { FeedIs result self.old self.new piece.now }
        ensures cap { self.new.cap ≡ self.old.cap }
        // A fault that was found is given again, whatever comes.
        ensures kept { KeepsBad result self.new }
        ensures again { GivesAgain result self.old self.new }
    {
        self.tree.feed(piece)
    }

    /// How many bytes were taken that wait for the rest of a value or of the fields of a key.
    pub fn pending(&self) -> u32
        ensures value { result ≡ length self.now.place.pending }
        ensures bound { result ≤ 51208 }
    {
        self.tree.pending()
    }

    /// The registry that the pieces encode, all of their bytes.
    pub fn finish(self) -> Result<Registry, StateFault>
        // What is read is a registry within the cap, and is encoded so.
        ensures found { (stream : List ℕ) → IsFed self stream → IfOk result (λ registry. IsReadFrom self.cap stream registry) }
        // What is encoded so is read, unless memory runs out.
        ensures only { (stream : List ℕ) → IsFed self stream → (keys : Keys) → IsRegistry keys → size keys ≤ self.cap → stream ≡ registry_text keys
            → GivesKeys result keys }
        // Which field is at fault, one that is cut off among them.
        ensures fault { (stream : List ℕ) → IsFed self stream → IfErr result (FailsOn self.cap stream) }
    {
        let StateBuild { alloc, cap, tree } = self;
        let size = tree.taken();
        let root = tree.finish()?;
        Ok(Registry {
            alloc,
            root,
            size,
            cap,
        })
    }
}
