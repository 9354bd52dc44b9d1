ghost use Rattle.std.specs.Prelude.{◌≡◌, ◌<◌, All, IfOk, IsTrue, ◌↔◌};
ghost use Rattle.clus_names.specs.Limits.{lacks_zero};

use std::alloc::{AllocError, Global};
use std::marker::Model;

/// UTF-16 units, which contracts see as a list.
#[derive(Debug, Drop)]
pub struct Units {
    items: Vec<u16>,
}

impl Model for Units {
    ghost use Rattle.std.specs.Prelude.{ℕ, List};

    ghost Value = { List ℕ };

    ghost view = { λ units. units.items.items };
}

impl Units {
    pub fn new(items: Vec<u16>) -> Units
        ensures { result ≡ items.items }
    {
        Units { items }
    }

    pub fn as_slice(&self) -> &[u16]
        ensures { result.now ≡ self.now }
    {
        self.items.as_slice()
    }

    pub fn into_vec(self) -> Vec<u16>
        ensures { result.items ≡ self }
    {
        let Units { items } = self;
        items
    }

    pub fn copy(&self, alloc: Global) -> Result<Units, AllocError>
        ensures { IfOk result (λ copied. copied ≡ self.now) }
    {
        Ok(Units {
            items: self.items.to_vec(alloc)?,
        })
    }
}

/// The condition of `Name::new` and `Path::parse`.
pub fn lacks_zero(units: &[u16]) -> bool
    ensures { result ≡ lacks_zero units.now }
{
    units.iter().all(|unit| 0 < *unit)
}
