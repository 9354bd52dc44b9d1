//! Where reading stands between two pieces of a state.

ghost use Rattle.std.specs.Prelude.{◌≡◌, ◌+◌, ◌≤◌, [], ◌++◌, List, ℕ, length, IfOk};
ghost use Rattle.registry_states.specs.Builds.{PieceIs, Stands, bytes_behind, first_place};
ghost use Rattle.registry_states.specs.Turns.{Grew, longest_item};

use crate::ahead::Ahead;
use crate::fault::StateFault;
use crate::item::Item;
use crate::turning::read_items;
use std::alloc::{AllocError, Global};
use std::marker::Model;
use wire_fields::{Endian, Fields};

/// The items that were read so far are kept apart.
#[derive(Drop)]
pub(crate) struct Standing {
    pub ahead: Ahead,
    /// How many bytes these items have.
    pub taken: usize,
    /// The bytes behind them, of an item that isn't there whole.
    pub pending: Vec<u8>,
    /// Where the field of it stands that is cut off.
    pub cut: usize,
}

impl Model for Standing {
    ghost use Rattle.registry_states.specs.Builds.{Place};

    ghost Value = { Place };

    ghost view = { λ standing. record {
      ahead = standing.ahead;
      taken = standing.taken;
      pending = standing.pending.items;
      cut = standing.cut;
    } };
}

impl Standing {
    /// Before the first piece.
    pub fn new(alloc: Global) -> Standing
        ensures { result ≡ first_place }
    {
        Standing {
            ahead: Ahead::new(alloc),
            taken: 0,
            pending: Vec::new(alloc),
            cut: 0,
        }
    }

    /// Where reading stands behind a further piece; the items that it told are added.
    pub fn read_piece(
        &self,
        alloc: Global,
        items: &mut Vec<Item>,
        piece: &[u8],
        cap: usize,
    ) -> Result<Standing, StateFault>
        requires cap { cap ≤ 16777216 }
        requires within { self.now.taken + length self.now.pending ≤ cap }
        ensures grew { Grew items.old.items items.new.items }
        ensures piece { (stream : List ℕ) → Stands cap items.old.items self.now stream → PieceIs result cap items.new.items (stream ++ piece.now) }
        ensures within { IfOk result (λ standing. standing.taken + length standing.pending ≤ cap) }
        ensures short { IfOk result (λ standing. length standing.pending ≤ longest_item) }
    {
        // One byte past cap tells all.
        let room = cap + 1 - (self.taken + self.pending.len());
        let front = &piece[..piece.len().min(room)];
        if self.pending.is_empty() {
            return self.read_bytes(alloc, items, front, cap);
        }
        let bytes = joined(alloc, &self.pending, front)?;
        self.read_bytes(alloc, items, &bytes, cap)
    }

    /// The same, where these are all bytes behind the items.
    fn read_bytes(
        &self,
        alloc: Global,
        items: &mut Vec<Item>,
        bytes: &[u8],
        cap: usize,
    ) -> Result<Standing, StateFault>
        requires cap { cap ≤ 16777216 }
        requires within { self.now.taken + length self.now.pending ≤ cap }
        requires few { length bytes.now ≤ cap + 1 }
        ensures grew { Grew items.old.items items.new.items }
        ensures piece { (stream piece : List ℕ) → bytes.now ≡ bytes_behind cap self.now piece → Stands cap items.old.items self.now stream
            → PieceIs result cap items.new.items (stream ++ piece) }
        ensures within { IfOk result (λ standing. standing.taken + length standing.pending ≤ cap) }
        ensures short { IfOk result (λ standing. length standing.pending ≤ longest_item) }
    {
        let mut ahead = self.ahead.copy(alloc)?;
        let mut fields = Fields::behind(bytes, Endian::Little, self.taken);
        let reach = read_items(alloc, items, &mut ahead, &mut fields, cap)?;
        if cap < self.taken + bytes.len() {
            return Err(StateFault::Bad { place: reach.cut });
        }
        let pending = bytes[reach.taken - self.taken..].to_vec(alloc)?;
        Ok(Standing {
            ahead,
            taken: reach.taken,
            pending,
            cut: reach.cut,
        })
    }
}

fn joined(alloc: Global, front: &[u8], back: &[u8]) -> Result<Vec<u8>, AllocError>
    ensures { IfOk result (λ bytes. bytes.items ≡ front.now ++ back.now) }
{
    let mut bytes = front.to_vec(alloc)?;
    bytes.extend_from_slice(back)?;
    Ok(bytes)
}
