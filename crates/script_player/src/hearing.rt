//! An event of a line.

ghost use Rattle.std.specs.Prelude.{◌≡◌, ◌++◌, ◌≤◌, ℕ, suc, OnOk, length};
ghost use Rattle.cluster_script.specs.Requests.{bind_text};
ghost use Rattle.cluster_worlds.specs.Conditions.{IsEvent};
ghost use Rattle.cluster_worlds.specs.declared.event.Event.TheVariants.{Bytes};
ghost use Rattle.script_text.specs.Counting.{HasRoom};
ghost use Rattle.script_player.specs.Bounds.{HasLines, HasSteps, HearsTo, StepsTo};
ghost use Rattle.script_player.specs.Lines.{request_event};
ghost use Rattle.script_player.specs.Playing.{asked, delivered, delivered_in, noted, requests_of, text_of};

use crate::player::Player;
use crate::stop::Stop;
use cluster_script::{bind_bytes, request_bytes};
use cluster_worlds::{Event, Inner, Told};
use script_text::print_effect;
use std::alloc::{AllocError, Global};
use wire_fields::Octets;

impl Player {
    /// The bind comes on a connection.
    pub(crate) fn bind(&mut self, conn: u32, text: &mut Vec<u8>) -> Result<(), Stop>
        requires room { HasSteps 1 self.old }
        ensures hears { HearsTo (Bytes conn bind_text) self.old text.old.items result self.new text.new.items }
        ensures room { (more : ℕ) → HasSteps (suc more) self.old → OnOk result (HasSteps more self.new) }
    {
        let piece = bind_bytes(self.alloc)?;
        self.hear(&Event::Bytes { conn, piece }, text)
    }

    /// The next request comes on a connection.
    pub(crate) fn request(
        &mut self,
        conn: u32,
        opnum: u16,
        stub: &Octets,
        text: &mut Vec<u8>,
    ) -> Result<(), Stop>
        requires stub { length stub.now ≤ 5_816 }
        requires room { HasLines 1 self.old }
        ensures hears { HearsTo (request_event conn opnum stub.now self.old) (asked conn self.old) text.old.items result self.new text.new.items }
        ensures room { (more : ℕ) → HasSteps (suc more) self.old → OnOk result (HasSteps more self.new) }
    {
        let count = self.requests_of(conn);
        let piece = request_bytes(self.alloc, count + 2, opnum, stub)?;
        self.requests.insert(conn, count + 1)?;
        self.hear(&Event::Bytes { conn, piece }, text)
    }

    /// How many request lines the connection had.
    fn requests_of(&self, conn: u32) -> u32
        ensures { result ≡ requests_of conn self.now }
    {
        match self.requests.get(&conn) {
            Some(count) => *count,
            None => 0,
        }
    }

    /// An event comes, and what is told of it is printed behind the text.
    pub(crate) fn hear(&mut self, event: &Event, text: &mut Vec<u8>) -> Result<(), Stop>
        requires allowed { IsEvent event.now }
        requires room { HasSteps 1 self.old }
        ensures hears { HearsTo event.now self.old text.old.items result self.new text.new.items }
        ensures room { (more : ℕ) → HasSteps (suc more) self.old → OnOk result (HasSteps more self.new) }
    {
        let told = match self.step(event) {
            Ok(told) => told,
            Err(stop) => return Err(stop),
        };
        print_told(self.alloc, &told, text)?;
        Ok(())
    }

    /// An event comes to the world.
    fn step(&mut self, event: &Event) -> Result<Vec<Told>, Stop>
        requires allowed { IsEvent event.now }
        requires room { HasSteps 1 self.old }
        ensures steps { StepsTo event.now self.old result self.new }
        ensures room { (more : ℕ) → HasSteps (suc more) self.old → OnOk result (HasSteps more self.new) }
    {
        let told = match self.world.step(event) {
            Ok(told) => told,
            Err(fault) => return Err(Stop::from(fault)),
        };
        self.note(event, &told)?;
        Ok(told)
    }

    /// Notes an event that has come to the world, and what was told of it.
    fn note(&mut self, event: &Event, told: &[Told]) -> Result<(), AllocError>
        requires room { HasRoom self.old.counts (length told.now) }
        ensures { OnOk result (self.new ≡ noted event.now told.now self.old) }
    {
        if let Some(number) = delivered(event) {
            self.marks.mark(number);
        }
        self.counts.add(told);
        self.marks.grow(self.world.messages())
    }
}

/// The message that the event delivers, also where a node dies inside it.
fn delivered(event: &Event) -> Option<u64>
    ensures { result ≡ delivered event.now }
{
    match event {
        Event::Deliver(number) => Some(*number),
        Event::DieIn { inner, .. } => delivered_in(inner),
        _ => None,
    }
}

fn delivered_in(event: &Inner) -> Option<u64>
    ensures { result ≡ delivered_in event.now }
{
    match event {
        Inner::Deliver(number) => Some(*number),
        _ => None,
    }
}

/// Prints what is told behind the text.
fn print_told(alloc: Global, told: &[Told], text: &mut Vec<u8>) -> Result<(), AllocError>
    ensures { OnOk result (text.new.items ≡ text.old.items ++ text_of told.now) }
{
    'told: for one in told {
        let line = print_effect(alloc, one)?;
        text.extend_from_slice(&line)?;
    }
    Ok(())
}
