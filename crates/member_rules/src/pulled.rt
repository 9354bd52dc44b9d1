//! The locker's state, while it comes in pieces.

ghost use Rattle.std.specs.Prelude.{◌≡◌, ◌++◌, [], IfOk, OnErr, OnOk, option_map};
ghost use Rattle.gum_messages.specs.Messages.{IsOffered};
ghost use Rattle.registry_machine.specs.Machine.{registry_decoded, replicated};

use clus_registry::{Registry, StateBuild, StateFault};
use cluster_rules::Offering;
use http_server::Log;
use std::alloc::{AllocError, Global};
use std::marker::Model;
use wire_fields::Octets;

/// A state that was offered, of which some pieces came. Each is decoded as it comes.
///
/// A fault that is found in a piece is kept until the state is whole.
#[derive(Drop)]
pub struct Pulled {
    offer: Offering,
    build: StateBuild,
    /// The pieces so far, each with its offset. It takes no memory: only proofs read it.
    pieces: Log<Octets, u32>,
}

impl Model for Pulled {
    ghost use Rattle.member_rules.specs.Pulling.{Reads, joined_pieces};
    ghost use Rattle.member_rules.specs.States.{PulledState};

    ghost Value = { PulledState };

    ghost view = { λ pulled. record { offer = pulled.offer; bytes = joined_pieces pulled.pieces.items } };

    ghost invariant = { λ pulled. Reads pulled.offer pulled.build (joined_pieces pulled.pieces.items) };
}

impl Pulled {
    /// Nothing came yet of what was offered.
    pub fn begin(alloc: Global, offer: Offering) -> Pulled
        requires offered { IsOffered offer.count offer.cap }
        ensures { result ≡ record { offer = offer; bytes = [] } }
    {
        let build = StateBuild::new(alloc, offer.cap);
        Pulled {
            offer,
            build,
            pieces: Log::new(),
        }
    }

    /// Takes the next piece, which begins at this offset of the state.
    pub fn feed(&mut self, offset: u32, piece: &Octets) -> Result<(), AllocError>
        ensures taken { OnOk result (self.new ≡ record self.old { bytes = self.old.bytes ++ piece.now }) }
        ensures unchanged { OnErr result (self.new ≡ self.old) }
    {
        match self.build.feed(piece.as_slice()) {
            Ok(()) => {}
            Err(StateFault::Bad { .. }) => {}
            Err(StateFault::Memory) => return Err(AllocError),
        }
        self.pieces = self.pieces.and(piece, &offset);
        Ok(())
    }

    /// What was offered, and the registry that the bytes spell; none where they don't decode.
    pub fn finish(self) -> Result<(Offering, Option<Registry>), AllocError>
        ensures offer { IfOk result (λ whole. whole.0 ≡ self.offer) }
        ensures offered { IfOk result (λ whole. IsOffered whole.0.count whole.0.cap) }
        ensures registry { IfOk result (λ whole. option_map replicated whole.1 ≡ registry_decoded self.offer.cap self.bytes) }
    {
        let Pulled {
            offer,
            build,
            pieces: _,
        } = self;
        match build.finish() {
            Ok(registry) => Ok((offer, Some(registry))),
            Err(StateFault::Bad { .. }) => Ok((offer, None)),
            Err(StateFault::Memory) => Err(AllocError),
        }
    }
}
