ghost use Rattle.std.specs.Prelude.{◌≡◌};

use std::marker::Model;

/// The protocol versions that a server speaks, each a major and a minor number.
#[derive(Debug, Drop)]
pub struct Versions {
    items: Vec<(u8, u8)>,
}

impl Model for Versions {
    ghost use Rattle.std.specs.Prelude.{List, ℕ};

    ghost Value = { List (ℕ × ℕ) };

    ghost view = { λ a. a.items.items };
}

impl Versions {
    pub fn new(items: Vec<(u8, u8)>) -> Versions
        ensures { result ≡ items.items }
    {
        Versions { items }
    }

    pub fn as_slice(&self) -> &[(u8, u8)]
        ensures { result.now ≡ self.now }
    {
        self.items.as_slice()
    }

    pub fn into_vec(self) -> Vec<(u8, u8)>
        ensures { result.items ≡ self }
    {
        let Versions { items } = self;
        items
    }
}
