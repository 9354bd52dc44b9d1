ghost use Rattle.std.specs.Prelude.{◌≡◌};

use crate::proposal::Proposal;
use std::marker::Model;

/// The presentation contexts of a bind, in the client's order.
#[derive(Debug, Drop)]
pub struct Proposals {
    items: Vec<Proposal>,
}

impl Model for Proposals {
    ghost use Rattle.std.specs.Prelude.{List};
    ghost use Rattle.rpc_pdu.specs.declared.proposal.Proposal.{Proposal};

    ghost Value = { List Proposal };

    ghost view = { λ a. a.items.items };
}

impl Proposals {
    pub fn new(items: Vec<Proposal>) -> Proposals
        ensures { result ≡ items.items }
    {
        Proposals { items }
    }

    pub fn as_slice(&self) -> &[Proposal]
        ensures { result.now ≡ self.now }
    {
        self.items.as_slice()
    }

    pub fn into_vec(self) -> Vec<Proposal>
        ensures { result.items ≡ self }
    {
        let Proposals { items } = self;
        items
    }
}
