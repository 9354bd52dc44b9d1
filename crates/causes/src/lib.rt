//! Words that several contracts cite: when a fault of the outside has its cause, and what a sink holds.
//! The definitions stand in `specs/`, and each function here is a law that holds them to their meaning.
#![tactic(auto)]

ghost use Rattle.std.specs.Prelude.{◌≡◌, ◌-◌, ◌^◌, ◌++◌, List, Some, ℕ, length, take};
ghost use Rattle.causes.specs.Counts.{Rose};
ghost use Rattle.causes.specs.Writing.{Wrote, WroteSome};

/// A count that stands still has not risen, but at the end of its type.
pub fn counts_stand_still(count: u64)
    ensures { Rose count count → count ≡ 2 ^ 64 - 1 }
{}

/// What a sink that tells was given in addition are just the bytes: none, where it stands still.
pub fn just_the_bytes_were_added()
    ensures { (held added bytes : List ℕ) → Wrote (Some held) (Some (held ++ added)) bytes → added ≡ bytes }
{}

/// What it was given of some bytes is a front of them.
pub fn a_front_was_added()
    ensures { (held added bytes : List ℕ) → WroteSome (Some held) (Some (held ++ added)) bytes → added ≡ take (length added) bytes }
{}
