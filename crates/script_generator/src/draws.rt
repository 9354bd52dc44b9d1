//! What is drawn.

ghost use Rattle.std.specs.Prelude.{◌≡◌, ◌<◌};
ghost use Rattle.script_generator.specs.Draws.{next, draw};
ghost use Rattle.script_generator.specs.Draws as draws;

/// A linear congruential generator.
#[derive(Clone, Copy, Debug)]
pub(crate) struct Draws {
    pub(crate) x: u64,
}

impl Draws {
    /// A number below this one.
    pub(crate) fn draw(&mut self, below: u64) -> u64
        requires some { 0 < below }
        ensures number { result ≡ (draw below self.old.x).0 }
        ensures state { self.new.x ≡ (draw below self.old.x).1 }
        ensures within { result < below }
    {
        self.x = next(self.x);
        upper(self.x, below)
    }
}

#[tactic(auto, unfolding(crate::specs::Draws::next))]
fn next(x: u64) -> u64
    ensures { result ≡ next x }
{
    x.wrapping_mul(6_364_136_223_846_793_005)
        .wrapping_add(1_442_695_040_888_963_407)
}

#[tactic(auto, unfolding(crate::specs::Draws::below))]
fn upper(x: u64, below: u64) -> u64
    requires { 0 < below }
    ensures number { result ≡ draws.below below x }
    ensures within { result < below }
{
    (x >> 33) % below
}
