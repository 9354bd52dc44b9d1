//! A player of a script, from its `cap` line on.

ghost use Rattle.std.specs.Prelude.{◌≡◌, ◌≤◌, ℕ, suc, Some, IfOk, OnOk, length};
ghost use Rattle.disk_core.specs.Notes.{view_of};
ghost use Rattle.cluster_script.specs.Fitting.{LineFits};
ghost use Rattle.cluster_worlds.specs.Worlds.{first_world};
ghost use Rattle.script_player.specs.Bounds.{HasLines, PlaysTo, ShowsTo};
ghost use Rattle.script_player.specs.Playing.{first_play};

use crate::marks::Marks;
use crate::script_fault::ScriptFault;
use crate::stop::Stop;
use cluster_replay::World;
use cluster_script::Line;
use cluster_worlds::BadEvent;
use disk_core::MemDisk;
use script_text::{Counts, print_node};
use std::alloc::{AllocError, Global};
use std::collections::BTreeMap;
use std::marker::Model;

/// A world, and what the lines of a script have done to it.
#[derive(Drop)]
pub(crate) struct Player {
    pub(crate) alloc: Global,
    pub(crate) world: World<MemDisk>,
    pub(crate) marks: Marks,
    pub(crate) requests: BTreeMap<u32, u32>,
    pub(crate) counts: Counts,
}

impl Model for Player {
    ghost use Rattle.script_player.specs.Playing.{Play};

    ghost Value = { Play };

    ghost view = { λ p. record { world = p.world.world; marks = p.marks; requests = p.requests.entries; counts = p.counts } };
}

impl Player {
    pub(crate) fn new(alloc: Global, disk: MemDisk) -> Result<Player, AllocError>
        requires size { 64 ≤ (view_of disk).size }
        ensures { IfOk result (λ player. player ≡ first_play (first_world (view_of disk))) }
    {
        let world = World::new(alloc, disk)?;
        Ok(Player {
            alloc,
            world,
            marks: Marks::new(alloc),
            requests: BTreeMap::new(alloc),
            counts: Counts::new(),
        })
    }

    /// How many records the order has.
    pub(crate) fn order(&self) -> u64
        ensures { result ≡ length self.now.world.order }
    {
        self.world.order().len() as u64
    }

    /// How many updates were acknowledged.
    pub(crate) fn acks(&self) -> u64
        ensures { result ≡ length self.now.world.acks }
    {
        self.world.acks().len() as u64
    }

    /// How often values of each kind were told.
    pub(crate) fn counts(&self) -> Counts
        ensures { result ≡ self.now.counts }
    {
        self.counts
    }

    /// Plays a line, and answers what it prints.
    pub(crate) fn play(&mut self, line: &Line) -> Result<Vec<u8>, Stop>
        requires fits { LineFits line.now }
        requires room { HasLines 1 self.old }
        ensures plays { PlaysTo (Some self.old) line.now result (Some self.new) }
        ensures room { (lines : ℕ) → HasLines (suc lines) self.old → OnOk result (HasLines lines self.new) }
    {
        let mut text = Vec::new(self.alloc);
        match line {
            Line::Empty => Ok(text),
            Line::Cap(_) => Err(Stop::Bad(ScriptFault::Column(1))),
            Line::Step(event) => {
                self.hear(event, &mut text)?;
                Ok(text)
            }
            Line::Pump(count) => {
                self.pump(*count, &mut text)?;
                Ok(text)
            }
            Line::Skip(count) => {
                self.marks.skip(*count);
                Ok(text)
            }
            Line::Pick(pick) => {
                self.pick(*pick, &mut text)?;
                Ok(text)
            }
            Line::Bind(conn) => {
                self.bind(*conn, &mut text)?;
                Ok(text)
            }
            Line::Request { conn, opnum, stub } => {
                self.request(*conn, *opnum, stub, &mut text)?;
                Ok(text)
            }
            Line::Show(node) => self.show(*node),
        }
    }

    fn show(&self, node: u16) -> Result<Vec<u8>, Stop>
        ensures { ShowsTo node self.now result }
    {
        match self.world.node(node) {
            Some(shown) => Ok(print_node(self.alloc, node, shown)?),
            None => Err(Stop::Bad(ScriptFault::Event(BadEvent::NotRunning { node }))),
        }
    }
}
