ghost use Rattle.std.specs.Prelude.{◌≡◌};

use crate::verdict::Verdict;
use std::marker::Model;

/// The answers to a bind's proposals, in the order of the proposals.
#[derive(Debug, Drop)]
pub struct Verdicts {
    items: Vec<Verdict>,
}

impl Model for Verdicts {
    ghost use Rattle.std.specs.Prelude.{List};
    ghost use Rattle.rpc_pdu.specs.declared.verdict.Verdict.{Verdict};

    ghost Value = { List Verdict };

    ghost view = { λ a. a.items.items };
}

impl Verdicts {
    pub fn new(items: Vec<Verdict>) -> Verdicts
        ensures { result ≡ items.items }
    {
        Verdicts { items }
    }

    pub fn as_slice(&self) -> &[Verdict]
        ensures { result.now ≡ self.now }
    {
        self.items.as_slice()
    }

    pub fn into_vec(self) -> Vec<Verdict>
        ensures { result.items ≡ self }
    {
        let Verdicts { items } = self;
        items
    }
}
