//! Names of values and paths of keys, as UTF-16 units.
//!
//! A `Name` or a `Path` is always within its limits, so who holds one need not test it again. Two names are the same
//! where they differ in the case of ASCII letters alone.
#![tactic(auto)]

mod fault;
mod folding;
mod laws;
mod name;
mod path;
mod splitting;
mod unit_printing;
mod unit_reading;
mod units;
mod units_fault;

pub use fault::NameFault;
pub use folding::{cmp_folded, same_folded};
pub use laws::units_have_one_text;
pub use name::Name;
pub use path::Path;
pub use splitting::split_first_part;
pub use unit_printing::print_units;
pub use unit_reading::read_units;
pub use units::{Units, lacks_zero};
pub use units_fault::UnitsFault;
