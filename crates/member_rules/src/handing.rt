//! How the locker hands out its state in pieces.

ghost use Rattle.std.specs.Prelude.{◌≡◌, ◌&&◌, not, IfOk, OnOk, length};
ghost use Rattle.view_reconcile.specs.Joining as joining;
ghost use Rattle.cluster_rules.specs.Joins.{on_need};
ghost use Rattle.member_rules.specs.Pulling.{piece_at, piece_in};
ghost use Rattle.member_rules.specs.States.{IsBeside};
ghost use Rattle.member_rules.specs.Steps.{GoesOn};

use crate::rules::Rules;
use crate::told::Told;
use gum_messages::Body;
use std::alloc::{AllocError, Global};
use view_reconcile::Reconcile;
use wire_fields::Octets;

impl Rules {
    /// A member asks for the locker's state from this offset on.
    #[tactic(auto, using(crate::proofs::Hands::hands_nothing, crate::proofs::Hands::hands_none, crate::proofs::Hands::hands_piece))]
    pub fn need(&mut self, from: u16, offset: u32) -> Result<Told, AllocError>
        ensures sends { IfOk result (λ told. GoesOn (on_need self.old from offset) self.new told) }
        ensures beside { OnOk result (IsBeside self.old self.new) }
    {
        if !self.hands_out() {
            return self.nothing();
        }
        match self.piece_at(offset)? {
            Some((total, bytes)) => self.tell(
                from,
                Body::Piece {
                    total,
                    offset,
                    bytes,
                },
            ),
            None => self.nothing(),
        }
    }
}

impl Rules {
    fn hands_out(&self) -> bool
        ensures { result ≡ (joining.locks self.now.join && not (joining.is_open self.now.join)) }
    {
        self.locks() && !self.join.is_open()
    }

    /// How long the state is, and its next bytes from an offset on. Its encoding is made once and kept, so that a piece
    /// costs its own length alone.
    #[tactic(auto, using(crate::proofs::Hands::kept_length, crate::proofs::Ways::encoded_is, crate::proofs::Ways::encoded_whole))]
    fn piece_at(&mut self, offset: u32) -> Result<Option<(u32, Octets)>, AllocError>
        ensures piece { IfOk result (λ piece. piece ≡ piece_at self.old offset) }
        ensures same { OnOk result (self.new ≡ self.old) }
    {
        let Some(replica) = &self.replica else {
            return Ok(None);
        };
        let registry = replica.registry();
        let total = registry.size();
        if let Some(encoded) = &self.encoded {
            return piece_in(self.alloc, encoded, total, offset);
        }
        let encoded = Octets::new(registry.to_bytes()?);
        let piece = piece_in(self.alloc, &encoded, total, offset)?;
        self.encoded = Some(encoded);
        Ok(piece)
    }
}

/// These bytes in a piece from the offset on.
fn piece_in(
    alloc: Global,
    encoded: &Octets,
    total: u32,
    offset: u32,
) -> Result<Option<(u32, Octets)>, AllocError>
    requires whole { total ≡ length encoded.now }
    ensures { IfOk result (λ piece. piece ≡ piece_in encoded.now offset) }
{
    let Some(count) = Reconcile::need(total, offset) else {
        return Ok(None);
    };
    let bytes = &encoded.as_slice()[offset as usize..];
    let piece = bytes[..count as usize].to_vec(alloc)?;
    Ok(Some((total, Octets::new(piece))))
}
