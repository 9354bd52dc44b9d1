//! The events of the clients' connections.

ghost use Rattle.std.specs.Prelude.{◌≡◌, IfOk, None, OnErr, option_to_list};
ghost use Rattle.client_connections.specs.Clients.{client_at, connected};
ghost use Rattle.cluster_node.specs.Events.{Connects, Dies, HangsUp, HearsBytes};
ghost use Rattle.cluster_node.specs.States.{IsSameNode, client_in};

use crate::node::Node;
use crate::taking::hear;
use client_connections::Connections;
use cluster_member::Effects;
use cluster_rules::Effect;
use std::alloc::{AllocError, Global};

impl Node {
    /// A connection begins. Its number was never used in this incarnation.
    pub fn connect(&mut self, conn: u32) -> Result<Effects, AllocError>
        requires unused { client_in conn self.old ≡ None }
        ensures connects { IfOk result (λ effects. Connects conn self.old.running self.new.running effects) }
        ensures same { IsSameNode self.old self.new }
        ensures stops { OnErr result (self.new.running ≡ None) }
    {
        let Some(running) = &mut self.running else {
            return Ok(self.silence());
        };
        match connect(self.alloc, &mut running.clients, conn) {
            Ok(effects) => Ok(effects),
            Err(error) => {
                self.stop();
                Err(error)
            }
        }
    }

    /// A piece of a connection's stream comes. On a connection that isn't open it does nothing.
    pub fn bytes(&mut self, conn: u32, piece: &[u8]) -> Result<Effects, AllocError>
        ensures hears { IfOk result (λ effects. HearsBytes conn piece.now self.old.running self.new.running effects) }
        ensures same { IsSameNode self.old self.new }
        ensures stops { OnErr result (self.new.running ≡ None) }
    {
        let Some(running) = &mut self.running else {
            return Ok(self.silence());
        };
        match hear(&mut running.member, &mut running.clients, conn, piece) {
            Ok(effects) => Ok(Effects::new(effects)),
            Err(error) => {
                self.stop();
                Err(error)
            }
        }
    }

    /// A client hangs up. On a connection that isn't open it does nothing.
    pub fn hang_up(&mut self, conn: u32) -> Result<Effects, AllocError>
        ensures hangs_up { IfOk result (λ effects. HangsUp conn self.old.running self.new.running effects) }
        ensures same { IsSameNode self.old self.new }
        ensures stops { OnErr result (self.new.running ≡ None) }
    {
        let Some(running) = &mut self.running else {
            return Ok(self.silence());
        };
        let effect = running.clients.hang_up(conn);
        match one_at_most(self.alloc, effect) {
            Ok(effects) => Ok(effects),
            Err(error) => {
                self.stop();
                Err(error)
            }
        }
    }

    /// The node dies: each of its connections is closed, by ascending numbers.
    pub fn die(&mut self) -> Result<Effects, AllocError>
        ensures dies { IfOk result (λ effects. Dies self.old.running self.new.running effects) }
        ensures same { IsSameNode self.old self.new }
        ensures stops { self.new.running ≡ None }
    {
        let Some(running) = &mut self.running else {
            return Ok(self.silence());
        };
        let closed = running.clients.stop();
        self.stop();
        Ok(Effects::new(closed?))
    }
}

fn connect(alloc: Global, clients: &mut Connections, conn: u32) -> Result<Effects, AllocError>
    requires unused { client_at conn clients.old ≡ None }
    ensures clients { IfOk result (λ _. clients.new ≡ (connected conn clients.old).0) }
    ensures effects { IfOk result (λ effects. effects ≡ option_to_list (connected conn clients.old).1) }
{
    let effect = clients.connect(conn)?;
    one_at_most(alloc, effect)
}

fn one_at_most(alloc: Global, effect: Option<Effect>) -> Result<Effects, AllocError>
    ensures { IfOk result (λ effects. effects ≡ option_to_list effect) }
{
    let mut effects = Vec::new(alloc);
    if let Some(effect) = effect {
        effects.push(effect)?;
    }
    Ok(Effects::new(effects))
}
