//! The decisions of Global Update at one node.

ghost use Rattle.std.specs.Prelude.{◌≡◌, ◌+◌, ◌-◌, ◌<◌, IfOk, IfSome, OnErr, OnOk, None, Some, length, map, nat_eq, option_copied, slice_get, slice_set, unwrap_or};
ghost use Rattle.gum_messages.specs.Members.{inc_of, index_of};
ghost use Rattle.update_records.specs.Validity.{IsValid};
ghost use Rattle.gum_core.specs.Updating.{applied, applying, asked, asks_for, awaits, entered, finished, first_ask, fresh, granted, greatest_of, has_left, head_request, holder, is_held, last_request, locks, logged, may_log, opened, receiver, released, spread, submitted, ticked};

use crate::{Decision, Lock, Spreading};
use gum_messages::{Members, View};
use std::alloc::{AllocError, Global};
use std::collections::VecDeque;
use std::marker::Model;
use update_records::Update;

/// What a node keeps of Global Update: the queue of its own updates and how far its head has spread, and, where the
/// node is the locker, who holds the update lock.
///
/// The caller tests that a message counts, and for [`Core::apply`] that the node is ready and isn't the locker.
/// Source: Vogels et al., FTCS 1998.
#[derive(Debug, Drop)]
pub struct Core {
    alloc: Global,
    node: u16,
    members: Members,
    is_open: bool,
    passed: u64,
    queue: VecDeque<Update>,
    spreading: Option<Spreading>,
    lock: Option<Lock>,
    greatest: Vec<u64>,
}

impl Model for Core {
    ghost use Rattle.gum_core.specs.Updating.{CoreState, IsCore, core_of};

    ghost Value = { CoreState };

    ghost view = { λ c. core_of c.node c.members c.is_open c.passed c.queue.items c.spreading c.lock c.greatest.items };

    ghost invariant = { λ c. IsCore (core_of c.node c.members c.is_open c.passed c.queue.items c.spreading c.lock c.greatest.items) };
}

impl Core {
    /// A node before its first view, without requests.
    pub fn new(alloc: Global, node: u16) -> Core
        ensures { result ≡ fresh node }
    {
        Core {
            alloc,
            node,
            members: Members::new(Vec::new(alloc)),
            is_open: false,
            passed: 0,
            queue: VecDeque::new(alloc),
            spreading: None,
            lock: None,
            greatest: Vec::new(alloc),
        }
    }

    /// A view begins, and isn't open yet.
    pub fn enter(&mut self, view: &View) -> Result<(), AllocError>
        ensures entered { OnOk result (self.new ≡ entered self.old view.now) }
        ensures unchanged { OnErr result (self.new ≡ self.old) }
    {
        let members = view.members().copy(self.alloc)?;
        let greatest = vec![in self.alloc; 0; members.as_slice().len()]?;
        self.members = members;
        self.is_open = false;
        self.spreading = None;
        self.lock = None;
        self.greatest = greatest;
        Ok(())
    }

    /// An update of this node is queued. Gives its request number; requests are numbered from 1.
    pub fn submit(&mut self, update: Update) -> Result<(u64, Decision), AllocError>
        requires room { self.old.passed + length self.old.queue < last_request }
        requires valid { IsValid update }
        ensures submitted { IfOk result (λ answer. (self.new, answer) ≡ submitted self.old update) }
        ensures unchanged { OnErr result (self.new ≡ self.old) }
    {
        let waiting = self.queue.len();
        let request = self.passed + waiting as u64 + 1;
        let decision = self.ask_first(waiting);
        self.queue.push_back(update)?;
        Ok((request, decision))
    }

    /// The view opens. `settled` is the place of the head's record, where the log was found to have it.
    pub fn open(&mut self, settled: Option<u64>) -> Decision
        ensures { (self.new, result) ≡ opened self.old settled }
    {
        self.is_open = true;
        if self.queue.is_empty() {
            return Decision::Nothing;
        }
        match settled {
            None => Decision::Ask {
                req: self.passed + 1,
            },
            Some(place) => self.finish(place),
        }
    }

    /// A member asks to log its request. `done` is how many records this node has applied.
    pub fn ask(&self, from: u16, req: u64, done: u64) -> Decision
        ensures { result ≡ asked self.now from req done }
    {
        if !self.is_open || !self.locks() {
            return Decision::Nothing;
        }
        match self.lock {
            None if self.may_log(from, req, done) => Decision::Write { from, req },
            Some(lock) if lock.node == from && lock.req == req => Decision::Grant {
                to: from,
                req,
                place: lock.place,
            },
            _ => Decision::Nothing,
        }
    }

    /// The member's request was logged at this place: it holds the lock.
    pub fn logged(&mut self, from: u16, req: u64, place: u64) -> Decision
        requires member { 0 < inc_of self.old.members from }
        requires asked { asked self.old from req (place - 1) ≡ Decision.Write from req }
        ensures { (self.new, result) ≡ logged self.old from req place }
    {
        self.lock = Some(Lock {
            node: from,
            req,
            place,
        });
        let index = self.members.index_of(from);
        set(&mut self.greatest, index, req);
        Decision::Grant {
            to: from,
            req,
            place,
        }
    }

    /// The locker logged this request at this place.
    pub fn granted(&mut self, req: u64, place: u64) -> Decision
        ensures { (self.new, result) ≡ granted self.old req place }
    {
        if !self.is_open {
            return Decision::Nothing;
        }
        if self.asks_for(req) {
            return self.spread(place, 0);
        }
        if self.has_left(req) {
            return Decision::ReleaseAgain { req };
        }
        Decision::Nothing
    }

    /// The record at `place` came to a member that has applied `done` records.
    pub fn apply(&self, done: u64, place: u64) -> Decision
        ensures { result ≡ applying done place }
    {
        if place <= done {
            return Decision::Again;
        }
        if place - done == 1 {
            Decision::Take
        } else {
            Decision::Nothing
        }
    }

    /// A member has applied the record at this place.
    pub fn applied(&mut self, from: u16, place: u64) -> Decision
        ensures { (self.new, result) ≡ applied self.old from place }
    {
        match self.spreading {
            Some(spreading) if spreading.place == place && self.awaits(spreading, from) => {
                self.spread(place, spreading.at + 1)
            }
            _ => Decision::Nothing,
        }
    }

    /// The member releases the lock for this request.
    pub fn release(&mut self, from: u16, req: u64) -> Decision
        ensures { (self.new, result) ≡ released self.old from req }
    {
        if !self.locks() || !self.is_held(from, req) {
            return Decision::Nothing;
        }
        self.lock = None;
        Decision::Free
    }

    /// What the node repeats for its head.
    pub fn tick(&self) -> Decision
        ensures { result ≡ ticked self.now }
    {
        if !self.is_open || self.queue.is_empty() {
            return Decision::Nothing;
        }
        let Some(spreading) = self.spreading else {
            return Decision::Ask {
                req: self.passed + 1,
            };
        };
        match self.receiver(spreading.at) {
            Some(to) => Decision::Spread {
                to,
                place: spreading.place,
            },
            None => Decision::Nothing,
        }
    }

    /// The lock's holder, its request and the place of its record.
    pub fn held(&self) -> Option<(u16, u64, u64)>
        ensures { result ≡ holder self.now }
    {
        match self.lock {
            Some(lock) => Some((lock.node, lock.req, lock.place)),
            None => None,
        }
    }

    /// The update at the head of the queue.
    pub fn head(&self) -> Option<&Update>
        ensures head { option_copied result ≡ slice_get self.now.queue 0 }
        ensures valid { IfSome result (λ update. IsValid update.now) }
    {
        self.queue.front()
    }

    /// The request of that update.
    pub fn head_request(&self) -> Option<u64>
        ensures { result ≡ head_request self.now }
    {
        if self.queue.is_empty() {
            return None;
        }
        Some(self.passed + 1)
    }

    /// How many requests were given in this incarnation.
    pub fn requests(&self) -> u64
        ensures { result ≡ self.now.passed + length self.now.queue }
    {
        self.passed + self.queue.len() as u64
    }
}

/// The greatest place that a record may have.
const LAST_PLACE: u64 = 9_223_372_036_854_775_807;

impl Core {
    fn locks(&self) -> bool
        ensures { result ≡ locks self.now }
    {
        self.members.is_locker(self.node)
    }

    fn ask_first(&self, waiting: usize) -> Decision
        requires { waiting ≡ length self.now.queue }
        ensures { result ≡ first_ask self.now }
    {
        if self.is_open && waiting == 0 {
            Decision::Ask {
                req: self.passed + 1,
            }
        } else {
            Decision::Nothing
        }
    }

    fn may_log(&self, from: u16, req: u64, done: u64) -> bool
        ensures { result ≡ may_log self.now from req done }
    {
        self.greatest_of(from) < req && done < LAST_PLACE
    }

    fn greatest_of(&self, node: u16) -> u64
        ensures { result ≡ greatest_of self.now node }
    {
        self.greatest
            .get(self.members.index_of(node))
            .copied()
            .unwrap_or(0)
    }

    fn is_held(&self, from: u16, req: u64) -> bool
        ensures { result ≡ is_held self.now from req }
    {
        match self.lock {
            Some(lock) => lock.node == from && lock.req == req,
            None => false,
        }
    }

    fn asks_for(&self, req: u64) -> bool
        ensures { result ≡ asks_for self.now req }
    {
        !self.queue.is_empty() && req == self.passed + 1 && self.spreading.is_none()
    }

    fn has_left(&self, req: u64) -> bool
        ensures { result ≡ has_left self.now req }
    {
        req > 0 && req <= self.passed
    }

    /// The node at this index of the spreading order.
    fn receiver(&self, at: usize) -> Option<u16>
        ensures receiver { result ≡ receiver self.now at }
        ensures within { IfSome result (λ _. at < length self.now.members) }
    {
        match self.members.spreading_order().get(at) {
            Some(member) => Some(member.node),
            None => None,
        }
    }

    fn awaits(&self, spreading: Spreading, from: u16) -> bool
        ensures { result ≡ awaits self.now spreading from }
    {
        match self.receiver(spreading.at) {
            Some(to) => to == from,
            None => false,
        }
    }

    /// The head's record goes to the member at this index of the spreading order.
    fn spread(&mut self, place: u64, at: usize) -> Decision
        requires { 0 < length self.old.queue }
        ensures { (self.new, result) ≡ spread self.old place at }
    {
        match self.receiver(at) {
            None => self.finish(place),
            Some(to) => {
                self.spreading = Some(Spreading { place, at });
                Decision::Spread { to, place }
            }
        }
    }

    /// The head leaves the queue.
    fn finish(&mut self, place: u64) -> Decision
        requires { 0 < length self.old.queue }
        ensures { (self.new, result) ≡ finished self.old place }
    {
        let req = self.passed + 1;
        let next = if self.queue.len() > 1 {
            Some(req + 1)
        } else {
            None
        };
        let _ = self.queue.pop_front();
        self.passed = req;
        self.spreading = None;
        Decision::Finish { req, place, next }
    }
}

fn set(greatest: &mut Vec<u64>, index: usize, req: u64)
    ensures { greatest.new.items ≡ slice_set greatest.old.items index req }
{
    if index < greatest.len() {
        greatest[index] = req;
    }
}
