ghost use Rattle.std.specs.Prelude.{◌≡◌, IfOk};

use crate::body::Body;
use std::alloc::{AllocError, Global};
use std::marker::Model;

/// A message between two members of a view. An asked update is valid; an Offer counts at most
/// 9,223,372,036,854,775,807 records and has a cap of 4,096 to 16,777,216 bytes.
#[derive(Debug, Drop)]
pub struct Message {
    pub view: u32,
    pub from: u16,
    pub to: u16,
    pub body: Body,
}

impl Model for Message {
    ghost use Rattle.gum_messages.specs.Messages.{Sent, IsKept};

    ghost Value = { Sent };

    ghost view = { λ message. record { view = message.view; from = message.from; to = message.to; body = message.body } };

    ghost invariant = { λ message. IsKept message.body };
}

impl Message {
    pub fn copy(&self, alloc: Global) -> Result<Message, AllocError>
        ensures { IfOk result (λ copied. copied ≡ self.now) }
    {
        let body = self.body.copy(alloc)?;
        Ok(Message {
            view: self.view,
            from: self.from,
            to: self.to,
            body,
        })
    }
}
