ghost use Rattle.std.specs.Prelude.{◌≡◌, length, IfOk, IfErr, IsTrue, ◌↔◌};
ghost use Rattle.clus_names.specs.Folding.{folded};
ghost use Rattle.clus_names.specs.Limits.{LacksZero, IsName};
ghost use Rattle.clus_names.specs.Faults.{IsTooLong};

use crate::fault::NameFault;
use crate::folding::same_folded;
use std::alloc::{AllocError, Global};
use std::marker::Model;

pub const MOST_NAME_UNITS: usize = 1023;

/// The name of a value: at most 1,023 units, none of them 0.
#[derive(Debug, Drop)]
pub struct Name {
    units: Vec<u16>,
}

impl Model for Name {
    ghost use Rattle.std.specs.Prelude.{ℕ, List};
    ghost use Rattle.clus_names.specs.Limits.{IsName};

    ghost Value = { List ℕ };

    ghost view = { λ name. name.units.items };

    ghost invariant = { λ name. IsName name.units.items };
}

impl Name {
    pub fn new(alloc: Global, units: &[u16]) -> Result<Name, NameFault>
        requires { LacksZero units.now }
        ensures found { IfOk result (λ name. (name ≡ units.now) × IsName name) }
        ensures fault { IfErr result (IsTooLong (length units.now)) }
    {
        if MOST_NAME_UNITS < units.len() {
            return Err(NameFault::TooLong);
        }
        Ok(Name {
            units: units.to_vec(alloc)?,
        })
    }

    pub fn units(&self) -> &[u16]
        ensures units { result.now ≡ self.now }
        ensures limits { IsName self.now }
    {
        self.units.as_slice()
    }

    pub fn same(&self, other: &Name) -> bool
        ensures { IsTrue result ↔ (folded self.now ≡ folded other.now) }
    {
        same_folded(&self.units, &other.units)
    }

    pub fn copy(&self, alloc: Global) -> Result<Name, AllocError>
        ensures { IfOk result (λ copied. copied ≡ self.now) }
    {
        Ok(Name {
            units: self.units.to_vec(alloc)?,
        })
    }
}
