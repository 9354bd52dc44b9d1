//! Laws of exchanges, each the contract of a function that does nothing.

ghost use Rattle.std.specs.Prelude.{◌≡◌, ◌++◌, List, ℕ};
ghost use Rattle.wire_fields.specs.Numbers.{IsBytes};
ghost use Rattle.client_commands.specs.declared.command.Command.{Command};
ghost use Rattle.rpc_client.specs.declared.ask.Ask.{Ask};
ghost use Rattle.rpc_client.specs.Exchange.{End, Exchange, fault};

/// A client's commands have one exchange with a stream, and it ends in one way.
pub fn exchanges_are_one()
    ensures { (commands : List Command) (stream : List ℕ) (given given2 : List Ask) (end end2 : End) → IsBytes stream
        → Exchange commands stream given end → Exchange commands stream given2 end2 → (given ≡ given2) × (end ≡ end2) }
{}

/// A fault of an exchange stands, at its place, whatever the server sends behind it: what was read decides it.
pub fn bad_replies_stand()
    ensures { (commands : List Command) (stream behind : List ℕ) (given : List Ask) (place : ℕ) → IsBytes stream
        → Exchange commands stream given (fault place) → Exchange commands (stream ++ behind) given (fault place) }
{}
