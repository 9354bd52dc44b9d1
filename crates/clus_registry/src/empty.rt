ghost use Rattle.std.specs.Prelude.{◌≡◌};
ghost use Rattle.registry_defs.specs.Keys.{root_alone};
ghost use Rattle.registry_defs.specs.Spelling.{registry_text};

/// The encoding of the empty registry: the creation number of its root, and how many values and subkeys it has.
pub const EMPTY_STATE: [u8; 16] = [0; 16];

/// It is the encoding of the root alone.
pub fn empty_state_is_of_the_root_alone()
    ensures { EMPTY_STATE ≡ registry_text root_alone }
{}
