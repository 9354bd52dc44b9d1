//! The messages that a line delivers.

ghost use Rattle.std.specs.Prelude.{◌+◌, ℕ, suc, IsSome, OnOk, length};
ghost use Rattle.gum_messages.specs.Places.{at_place};
ghost use Rattle.cluster_worlds.specs.declared.event.Event.TheVariants.{Deliver};
ghost use Rattle.script_player.specs.Bounds.{AlwaysAdds, HasSteps};
ghost use Rattle.script_player.specs.Lines.{DeliversFirst, Happens, Pumps, Rests, picked};

use crate::player::Player;
use crate::stop::Stop;
use cluster_worlds::Event;

impl Player {
    /// Delivers at most so many of the messages that were neither delivered nor skipped, the lowest first.
    pub(crate) fn pump(&mut self, count: u32, text: &mut Vec<u8>) -> Result<(), Stop>
        requires room { HasSteps count self.old }
        ensures pumps { AlwaysAdds (λ y. Pumps count self.old y self.new) text.old.items result text.new.items }
        ensures room { (more : ℕ) → HasSteps (count + more) self.old → OnOk result (HasSteps more self.new) }
    {
        'messages: for _ in 0..count {
            let Some(number) = self.marks.lowest() else {
                return Ok(());
            };
            match self.deliver(number, text) {
                Ok(()) => {}
                Err(stop) => return Err(stop),
            }
        }
        Ok(())
    }

    /// Delivers the message that this number picks among all.
    pub(crate) fn pick(&mut self, pick: u32, text: &mut Vec<u8>) -> Result<(), Stop>
        requires room { HasSteps 1 self.old }
        ensures picks { AlwaysAdds (λ y. DeliversFirst Rests (picked pick (length self.old.world.pool)) self.old y self.new) text.old.items result text.new.items }
        ensures room { (more : ℕ) → HasSteps (suc more) self.old → OnOk result (HasSteps more self.new) }
    {
        let count = self.world.messages();
        if count == 0 {
            return Ok(());
        }
        self.deliver(1 + pick as u64 % count, text)
    }

    /// Delivers a message that was sent.
    fn deliver(&mut self, number: u64, text: &mut Vec<u8>) -> Result<(), Stop>
        requires sent { IsSome (at_place self.old.world.pool number) }
        requires room { HasSteps 1 self.old }
        ensures delivers { AlwaysAdds (λ y. Happens (Deliver number) self.old y self.new) text.old.items result text.new.items }
        ensures room { (more : ℕ) → HasSteps (suc more) self.old → OnOk result (HasSteps more self.new) }
    {
        self.hear(&Event::Deliver(number), text)
    }
}
