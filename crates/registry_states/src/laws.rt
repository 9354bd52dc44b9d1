//! What follows from the definitions, each law as the contract of a function that does nothing.

ghost use Rattle.registry_states.specs.StateLaws.{WhatIsReadIsSpelled, WhatIsSpelledIsRead};

/// What is read as a state is the one encoding of its registry.
pub fn what_is_read_is_spelled()
    ensures { WhatIsReadIsSpelled }
{}

/// The encoding of a registry is read as that registry.
pub fn what_is_spelled_is_read()
    ensures { WhatIsSpelledIsRead }
{}
