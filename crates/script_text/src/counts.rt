//! How often each of four kinds of told values came.

ghost use Rattle.std.specs.Prelude.{◌≡◌, ◌<◌, ◌^◌, length};
ghost use Rattle.script_text.specs.Counting.{HasRoom, counted, nothing, with_one};

use cluster_worlds::Told;

/// Records that joined the update order, acknowledgements, replies and closed connections. No run is so long that it
/// passes what 128 bits count.
#[derive(Clone, Copy, Debug, PartialEq, Eq)]
pub struct Counts {
    pub order: u128,
    pub acks: u128,
    pub replies: u128,
    pub closed: u128,
}

impl Counts {
    pub fn new() -> Counts
        ensures { result ≡ nothing }
    {
        Counts {
            order: 0,
            acks: 0,
            replies: 0,
            closed: 0,
        }
    }

    /// Counts these told values too.
    pub fn add(&mut self, told: &[Told])
        requires room { HasRoom self.old (length told.now) }
        ensures { self.new ≡ counted self.old told.now }
    {
        'told: for one in told {
            self.add_one(one);
        }
    }

    fn add_one(&mut self, told: &Told)
        requires room { HasRoom self.old 1 }
        ensures { self.new ≡ with_one self.old told.now }
    {
        match told {
            Told::Order { .. } => self.order += 1,
            Told::Acked { .. } => self.acks += 1,
            Told::Reply { .. } => self.replies += 1,
            Told::Closed { .. } => self.closed += 1,
            Told::Sent { .. } | Told::Opened { .. } | Told::Batched { .. } | Told::Halted { .. } =>
                {}
        }
    }
}
