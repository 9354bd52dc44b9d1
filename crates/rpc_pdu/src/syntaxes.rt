ghost use Rattle.std.specs.Prelude.{◌≡◌};

use crate::syntax::Syntax;
use std::marker::Model;

/// The transfer syntaxes of a proposal, in the client's order.
#[derive(Debug, Drop)]
pub struct Syntaxes {
    items: Vec<Syntax>,
}

impl Model for Syntaxes {
    ghost use Rattle.std.specs.Prelude.{List};
    ghost use Rattle.rpc_pdu.specs.declared.syntax.Syntax.{Syntax};

    ghost Value = { List Syntax };

    ghost view = { λ a. a.items.items };
}

impl Syntaxes {
    pub fn new(items: Vec<Syntax>) -> Syntaxes
        ensures { result ≡ items.items }
    {
        Syntaxes { items }
    }

    pub fn as_slice(&self) -> &[Syntax]
        ensures { result.now ≡ self.now }
    {
        self.items.as_slice()
    }

    pub fn into_vec(self) -> Vec<Syntax>
        ensures { result.items ≡ self }
    {
        let Syntaxes { items } = self;
        items
    }
}
