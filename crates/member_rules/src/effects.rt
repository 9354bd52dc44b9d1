//! Effects in their order.

ghost use Rattle.std.specs.Prelude.{◌≡◌};

use cluster_rules::Effect;
use std::marker::Model;

/// Effects, which contracts see as a list.
#[derive(Debug, Drop)]
pub struct Effects {
    items: Vec<Effect>,
}

impl Model for Effects {
    ghost use Rattle.std.specs.Prelude.{List};
    ghost use Rattle.cluster_rules.specs.declared.effect.Effect.{Effect};

    ghost Value = { List Effect };

    ghost view = { λ effects. effects.items.items };
}

impl Effects {
    pub fn new(items: Vec<Effect>) -> Effects
        ensures { result ≡ items.items }
    {
        Effects { items }
    }

    pub fn as_slice(&self) -> &[Effect]
        ensures { result.now ≡ self.now }
    {
        self.items.as_slice()
    }

    pub fn into_vec(self) -> Vec<Effect>
        ensures { result.items ≡ self }
    {
        let Effects { items } = self;
        items
    }
}
