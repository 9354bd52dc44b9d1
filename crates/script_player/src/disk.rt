//! The disk of a script.

ghost use Rattle.std.specs.Prelude.{◌≡◌, IfOk};
ghost use Rattle.disk_core.specs.Notes.{view_of};
ghost use Rattle.registry_defs.specs.Contents.{IsCap};
ghost use Rattle.registry_defs.specs.Keys.{root_alone};
ghost use Rattle.registry_defs.specs.Spelling.{registry_text};
ghost use Rattle.quorum_log.specs.Formats.{IsFormatted};
ghost use Rattle.quorum_log.specs.Layout as layout;

use clus_registry::EMPTY_STATE;
use disk_core::MemDisk;
use quorum_log::{format, image_size};
use std::alloc::{AllocError, Global};

/// A disk in memory with an empty log, which nobody has claimed.
pub(crate) fn new_disk(alloc: Global, cap: u32) -> Result<MemDisk, AllocError>
    requires cap { IsCap cap }
    ensures log { IfOk result (λ disk. IsFormatted cap (registry_text root_alone) (view_of disk)) }
    ensures size { IfOk result (λ disk. (view_of disk).size ≡ layout.image_size cap) }
    ensures unclaimed { IfOk result (λ disk. disk.current.held ≡ 0) }
{
    let mut disk = MemDisk::new(alloc, image_size(cap))?;
    match format(&mut disk, 0, cap, &EMPTY_STATE) {
        Ok(()) => Ok(disk),
        Err(_) => unreachable!(),
    }
}
