ghost use Rattle.std.specs.Prelude.{◌≡◌, ◌+◌, ◌≤◌, drop, length, take, IfErr, IfOk};
ghost use Rattle.registry_defs.specs.Contents.{IsCap, keys_in};
ghost use Rattle.registry_defs.specs.Keys.{Keys, root_alone};
ghost use Rattle.registry_defs.specs.Limits.{IsRegistry, HaveFields};
ghost use Rattle.registry_defs.specs.Nodes.{keys_of};
ghost use Rattle.registry_defs.specs.Rising.{RisingKeys};
ghost use Rattle.registry_defs.specs.Sizes.{size};
ghost use Rattle.registry_defs.specs.Spelling.{registry_text};
ghost use Rattle.clus_registry.specs.States.{FailsOn, GivesKeys, IsReadFrom};

use crate::state_build::StateBuild;
use registry_states::StateFault;
use registry_tree::Key;
use std::alloc::{AllocError, Global};
use std::marker::Model;
use wire_fields::{Endian, Put};

/// Keys with values, as the update order leaves them, in at most as many bytes as the cap says.
#[derive(Drop)]
pub struct Registry {
    pub(crate) alloc: Global,
    pub(crate) root: Key,
    /// The length of the registry's encoding, which each change keeps up.
    pub(crate) size: u32,
    pub(crate) cap: u32,
}

impl Model for Registry {
    ghost use Rattle.registry_defs.specs.Contents.{Contents, coded_contents};
    ghost use Rattle.clus_registry.specs.Kept.{contents_of, IsCounted};

    ghost Value = { Contents };

    ghost coded = { coded_contents };

    ghost view = { contents_of };

    ghost invariant = { IsCounted };
}

impl Registry {
    /// The empty registry: the root alone.
    pub fn new(alloc: Global, cap: u32) -> Result<Registry, AllocError>
        requires range { IsCap cap }
        ensures cap { IfOk result (λ registry. registry.cap ≡ cap) }
        ensures keys { IfOk result (λ registry. keys_in registry ≡ root_alone) }
    {
        Ok(Registry {
            alloc,
            root: Key::root(alloc),
            size: 16,
            cap,
        })
    }

    /// The registry that the bytes encode, all of the bytes.
    pub fn from_bytes(alloc: Global, bytes: &[u8], cap: u32) -> Result<Registry, StateFault>
        requires range { IsCap cap }
        // What is read is a registry within the cap, and is encoded so.
        ensures found { IfOk result (λ registry. IsReadFrom cap bytes.now registry) }
        // What is encoded so is read, unless memory runs out.
        ensures only { (keys : Keys) → IsRegistry keys → size keys ≤ cap → bytes.now ≡ registry_text keys → GivesKeys result keys }
        // Which field is at fault.
        ensures fault { IfErr result (FailsOn cap bytes.now) }
    {
        let mut build = StateBuild::new(alloc, cap);
        build.feed(bytes)?;
        build.finish()
    }

    /// How many bytes its encoding has, which the cap bounds.
    pub fn size(&self) -> u32
        ensures exact { result ≡ size (keys_in self.now) }
        ensures fits { result ≤ self.now.cap }
        ensures limits { IsRegistry (keys_in self.now) }
    {
        self.size
    }

    pub fn cap(&self) -> u32
        ensures exact { result ≡ self.now.cap }
        ensures range { IsCap result }
    {
        self.cap
    }

    pub fn copy(&self) -> Result<Registry, AllocError>
        ensures { IfOk result (λ copied. copied ≡ self.now) }
    {
        Ok(Registry {
            alloc: self.alloc,
            root: self.root.copy(self.alloc)?,
            size: self.size,
            cap: self.cap,
        })
    }

    /// The one encoding of the registry, which has `size` bytes.
    pub fn to_bytes(&self) -> Result<Vec<u8>, AllocError>
        ensures length { IfOk result (λ bytes. length bytes.items ≡ size (keys_in self.now)) }
        ensures encoding { IfOk result (λ bytes. bytes.items ≡ registry_text (keys_in self.now)) }
        ensures limits { IsRegistry (keys_in self.now) }
        ensures fits { size (keys_in self.now) ≤ self.now.cap }
    {
        let mut put = Put::new(self.alloc, Endian::Little);
        self.root().write(&mut put)?;
        Ok(put.into_bytes())
    }

    /// Fills a slice with the bytes of the encoding from the offset on, without taking memory.
    pub fn state_piece(&self, offset: u32, into: &mut [u8])
        requires within { offset + length into.old ≤ size (keys_in self.now) }
        ensures { into.new ≡ take (length into.old) (drop offset (registry_text (keys_in self.now))) }
    {
        self.root().write_piece(offset as usize, into);
    }

    /// The root, with all that stands below it.
    pub fn root(&self) -> &Key
        ensures keys { keys_of result.now ≡ keys_in self.now }
        ensures limits { IsRegistry (keys_in self.now) }
        ensures fits { size (keys_in self.now) ≤ self.now.cap }
        ensures length { length (registry_text (keys_of result.now)) ≡ size (keys_in self.now) }
        ensures rising { RisingKeys (keys_of result.now) }
        ensures fields { HaveFields (keys_of result.now) }
    {
        &self.root
    }
}
