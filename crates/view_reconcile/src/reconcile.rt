//! How far a node is in its view.

ghost use Rattle.std.specs.Prelude.{◌≡◌, ◌+◌, ◌≤◌, IfOk, IsOk, MatchOption, OnErr, length, nat_eq, slice_set, true, unwrap_or};
ghost use Rattle.gum_messages.specs.Members.{inc_of, index_of, is_member};
ghost use Rattle.gum_messages.specs.Views.{no_view};
ghost use Rattle.view_reconcile.specs.Joining.{all_counted, all_ready, awaited, becomes_ready, counts_ready, fresh, has_all, installed, is_alone, is_marked, is_open, is_ready, lacks_last, locks, marked, offered, opened, piece_length, pulled, pulled_bytes, pulls_from, readied, taken, ticked, waits_for};

use crate::{Member, Stage, Step, View};
use std::alloc::{AllocError, Global};
use std::marker::Model;

/// How far a node is in its view: it follows the locker's offer until it is ready, and the view's opening.
///
/// The caller tests that a message counts, that an Offer or an OpenView comes from the locker and an Offer that came
/// as a message is at another member, and that the node which answers a Need is the locker and isn't open.
/// Source: Vogels et al., FTCS 1998.
#[derive(Debug, Drop)]
pub struct Reconcile {
    alloc: Global,
    node: u16,
    inc: u64,
    view: Option<View>,
    stage: Stage,
    ready: Vec<bool>,
}

impl Model for Reconcile {
    ghost use Rattle.std.specs.Prelude.{unwrap_or};
    ghost use Rattle.gum_messages.specs.Views.{no_view};
    ghost use Rattle.view_reconcile.specs.Joining.{ReconcileState};

    ghost Value = { ReconcileState };

    ghost view = { λ r. record { node = r.node; inc = r.inc; view = unwrap_or r.view no_view; stage = r.stage; ready = r.ready.items } };
}

impl Reconcile {
    /// A node in one of its incarnations, before its first view.
    pub fn new(alloc: Global, node: u16, inc: u64) -> Reconcile
        ensures { result ≡ fresh node inc }
    {
        Reconcile {
            alloc,
            node,
            inc,
            view: None,
            stage: Stage::Waiting,
            ready: Vec::new(alloc),
        }
    }

    /// A view was declared: true where the node takes it.
    pub fn install(&mut self, view: &View) -> Result<bool, AllocError>
        ensures installed { IfOk result (λ takes. (self.new, takes) ≡ installed self.old view.now) }
        ensures unchanged { OnErr result (self.new ≡ self.old) }
    {
        if view.number() <= self.number() || !is_member(view, self.node, self.inc) {
            return Ok(false);
        }
        let copy = view.copy(self.alloc)?;
        let ready = vec![in self.alloc; false; copy.members().as_slice().len()]?;
        self.view = Some(copy);
        self.stage = Stage::Waiting;
        self.ready = ready;
        Ok(true)
    }

    /// The locker offers its log: the number of its records, and the place of the last one where it was sent too.
    /// `done` is how many records this node has applied, none where it has no state.
    /// A member that pulls already keeps the bytes that it has. The locker itself hears its own offer. After
    /// [`Step::Ready`] and [`Step::Open`] the node is ready.
    pub fn offer(&mut self, count: u64, last: Option<u64>, done: Option<u64>) -> Step
        ensures { (self.new, result) ≡ offered self.old count last done }
    {
        if self.number() == 0 {
            return Step::Nothing;
        }
        if self.is_ready() {
            return if self.locks() {
                Step::Nothing
            } else {
                Step::Ready
            };
        }
        if has_all(done, count) {
            return self.become_ready();
        }
        if lacks_last(done, count, last) {
            self.stage = Stage::Taking;
            return Step::ApplyLast;
        }
        let got = self.pulled_bytes();
        self.pull(got)
    }

    /// The record was applied or the state was taken; `good` is false where a state couldn't be decoded.
    pub fn taken(&mut self, good: bool) -> Step
        requires { self.old.stage ≡ Stage.Taking }
        ensures { (self.new, result) ≡ taken self.old good }
    {
        if good {
            self.become_ready()
        } else {
            self.pull(0)
        }
    }

    /// How many bytes the locker sends of a state of `total` bytes from `offset` on; none past its end.
    pub fn need(total: u32, offset: u32) -> Option<u32>
        ensures { result ≡ piece_length total offset }
    {
        if offset > total {
            return None;
        }
        Some((total - offset).min(4096))
    }

    /// A piece of the locker's state came.
    pub fn piece(&mut self, total: u32, offset: u32, bytes: &[u8]) -> Result<Step, AllocError>
        ensures answered { IsOk result }
        ensures pulled { IfOk result (λ step. (self.new, step) ≡ pulled self.old total offset (length bytes.now)) }
    {
        Ok(self.pulled(total, offset, bytes.len()))
    }

    /// This member is ready.
    pub fn ready(&mut self, from: u16) -> Step
        ensures { (self.new, result) ≡ readied self.old from }
    {
        if !self.locks() {
            return Step::Nothing;
        }
        if self.is_open() {
            return Step::OpenAgain { to: from };
        }
        self.mark(from);
        if !self.all_ready() {
            return Step::Nothing;
        }
        self.stage = Stage::Open;
        Step::Open
    }

    /// The locker opened the view: true where this node opens it too.
    pub fn open(&mut self) -> bool
        ensures { (self.new, result) ≡ opened self.old }
    {
        if !self.is_ready() || self.is_open() {
            return false;
        }
        self.stage = Stage::Open;
        true
    }

    /// What the node repeats.
    pub fn tick(&self) -> Step
        ensures { result ≡ ticked self.now }
    {
        if self.locks() {
            return match self.awaited() {
                0 => Step::Nothing,
                count => Step::OfferTo { count },
            };
        }
        match self.stage {
            Stage::Pulling { taken } => Step::Pull { offset: taken },
            Stage::Ready => Step::Ready,
            _ => Step::Nothing,
        }
    }

    pub fn is_open(&self) -> bool
        ensures { result ≡ is_open self.now }
    {
        self.stage == Stage::Open
    }

    /// Whether the node has what the locker's log has; an open node is also ready.
    pub fn is_ready(&self) -> bool
        ensures { result ≡ is_ready self.now }
    {
        matches!(self.stage, Stage::Ready | Stage::Open)
    }

    /// Whether this node, as a locker that isn't open, waits for that member's Ready.
    pub fn waits_for(&self, node: u16) -> bool
        ensures { result ≡ waits_for self.now node }
    {
        self.locks() && !self.is_open() && self.incarnation(node) > 0 && !self.counts_ready(node)
    }

    /// The view that the node took last.
    pub fn view(&self) -> Option<&View>
        ensures { MatchOption result (self.now.view ≡ no_view) (λ v. self.now.view ≡ v.now) }
    {
        self.view.as_ref()
    }
}

impl Reconcile {
    /// The number of its view; 0 before the first.
    fn number(&self) -> u32
        ensures { result ≡ self.now.view.number }
    {
        match &self.view {
            Some(view) => view.number(),
            None => 0,
        }
    }

    fn members(&self) -> &[Member]
        ensures members { result.now ≡ self.now.view.members }
        ensures few { length result.now ≤ 16 }
    {
        match &self.view {
            Some(view) => view.members().as_slice(),
            None => &[],
        }
    }

    fn incarnation(&self, node: u16) -> u64
        ensures { result ≡ inc_of self.now.view.members node }
    {
        match &self.view {
            Some(view) => view.members().incarnation(node),
            None => 0,
        }
    }

    fn index_of(&self, node: u16) -> usize
        ensures { result ≡ index_of self.now.view.members node }
    {
        match &self.view {
            Some(view) => view.members().index_of(node),
            None => 0,
        }
    }

    /// Whether this node is the locker of its view.
    fn locks(&self) -> bool
        ensures { result ≡ locks self.now }
    {
        match &self.view {
            Some(view) => view.members().is_locker(self.node),
            None => false,
        }
    }

    fn is_alone(&self) -> bool
        ensures { result ≡ is_alone self.now }
    {
        match self.members() {
            [only] => only.node == self.node,
            _ => false,
        }
    }

    fn counts_ready(&self, node: u16) -> bool
        ensures { result ≡ counts_ready self.now node }
    {
        self.is_marked(node) || (node == self.node && self.is_ready())
    }

    fn is_marked(&self, node: u16) -> bool
        ensures { result ≡ is_marked self.now node }
    {
        self.ready
            .get(self.index_of(node))
            .copied()
            .unwrap_or(false)
    }

    /// How many members the node waits for.
    fn awaited(&self) -> u32
        ensures { result ≡ awaited self.now }
    {
        self.members()
            .iter()
            .filter(|member| self.waits_for(member.node))
            .count() as u32
    }

    fn all_ready(&self) -> bool
        ensures { result ≡ all_ready self.now }
    {
        self.is_ready() && self.all_counted()
    }

    fn all_counted(&self) -> bool
        ensures { result ≡ all_counted self.now }
    {
        self.members()
            .iter()
            .all(|member| self.counts_ready(member.node))
    }

    fn mark(&mut self, node: u16)
        ensures { self.new ≡ marked self.old node }
    {
        let index = self.index_of(node);
        set(&mut self.ready, index);
    }

    fn become_ready(&mut self) -> Step
        ensures { (self.new, result) ≡ becomes_ready self.old }
    {
        if self.is_alone() {
            self.stage = Stage::Open;
            return Step::Open;
        }
        self.stage = Stage::Ready;
        Step::Ready
    }

    /// How many bytes of the locker's state it has; 0 where it doesn't pull.
    fn pulled_bytes(&self) -> u32
        ensures { result ≡ unwrap_or (pulled_bytes self.now) 0 }
    {
        match self.stage {
            Stage::Pulling { taken } => taken,
            _ => 0,
        }
    }

    fn pull(&mut self, got: u32) -> Step
        ensures { (self.new, result) ≡ pulls_from self.old got }
    {
        if self.locks() {
            self.stage = Stage::Taking;
        } else {
            self.stage = Stage::Pulling { taken: got };
        }
        Step::Pull { offset: got }
    }

    fn pulled(&mut self, total: u32, offset: u32, count: usize) -> Step
        ensures { (self.new, result) ≡ pulled self.old total offset count }
    {
        let Stage::Pulling { taken } = self.stage else {
            return Step::Nothing;
        };
        if offset != taken {
            return Step::Nothing;
        }
        let missing = total.saturating_sub(taken);
        if count >= missing as usize {
            self.stage = Stage::Taking;
            return Step::Whole;
        }
        let taken = taken + count as u32;
        self.stage = Stage::Pulling { taken };
        Step::Pull { offset: taken }
    }
}

fn is_member(view: &View, node: u16, inc: u64) -> bool
    ensures { result ≡ is_member view.now.members node inc }
{
    inc > 0 && view.members().incarnation(node) == inc
}

fn has_all(done: Option<u64>, count: u64) -> bool
    ensures { result ≡ has_all done count }
{
    match done {
        Some(done) => done == count,
        None => false,
    }
}

fn lacks_last(done: Option<u64>, count: u64, last: Option<u64>) -> bool
    ensures { result ≡ lacks_last done count last }
{
    match (done, last) {
        (Some(done), Some(place)) => is_next(done, count) && place == count,
        _ => false,
    }
}

fn is_next(done: u64, count: u64) -> bool
    ensures { result ≡ nat_eq (done + 1) count }
{
    done < count && count - done == 1
}

fn set(marks: &mut Vec<bool>, index: usize)
    ensures { marks.new.items ≡ slice_set marks.old.items index true }
{
    if index < marks.len() {
        marks[index] = true;
    }
}
