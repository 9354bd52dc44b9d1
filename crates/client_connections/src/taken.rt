ghost use Rattle.std.specs.Prelude.{◌≡◌, [], None};

use cluster_rules::Effect;
use std::alloc::Global;
use update_records::Update;

/// What the items that a connection took came to.
#[derive(Debug, Drop)]
pub struct Taken {
    /// Their replies, in turn, and behind them that the connection was closed, where it was.
    pub effects: Vec<Effect>,
    /// The update that was queued, where one was.
    pub update: Option<Update>,
}

impl Taken {
    pub(crate) fn new(alloc: Global) -> Taken
        ensures effects { result.effects.items ≡ [] }
        ensures update { result.update ≡ None }
    {
        Taken {
            effects: Vec::new(alloc),
            update: None,
        }
    }
}
