//! Laws of the definitions, each the contract of a function that does nothing.

ghost use Rattle.std.specs.Prelude.{◌≡◌, Ok};
ghost use Rattle.gum_messages.specs.Grammar.{message_of};
ghost use Rattle.gum_messages.specs.Messages.{IsMessage, Sent};
ghost use Rattle.gum_messages.specs.Spelling.{message_text};

/// The encoding of each message is read as that message.
pub fn decodes_what_is_encoded()
    ensures { (message : Sent) → IsMessage message → message_of (message_text message) ≡ Ok message }
{}
