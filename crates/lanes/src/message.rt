//! The messages between the stages of a lane, and from the last one to the fan: several items in one message, the ends
//! to which a stage gives its messages, the items that it has collected for its next one, and a bounded queue by which
//! buffers are returned to the stage that fills them anew.
ghost use Rattle.std.specs.Prelude.{◌≡◌, ◌++◌, List, OnOk, OnErr, ◌<◌, ◌∷◌, []};
ghost use Rattle.std.proofs.Common.{refl, ◌∙◌};
ghost use Rattle.ruled_lanes.specs.LinkEnds.{given, GivesToSame};
ghost use Rattle.ruled_lanes.specs.FanEnds.{given_at, GivesToSameLane};
ghost use Rattle.lanes.specs.Notes.{About, Note, notes, notes_of, Item, notes_of_items, GoOn};

use crate::stage::Numbered;
use crossbeam_queue::ArrayQueue;
use ruled_lanes::{Closed, Giver, LaneGiver};
use std::alloc::{AllocError, Global};
use std::mem;
use std::sync::atomic::AtomicU64;
use std::sync::{Arc, Wait};
use std::time::Duration;
use streams::Mark;

/// Items that one message carries, in order. Once they are taken out, their list goes back to the stage that gave it.
#[derive(Drop)]
pub struct Batch<T: Drop> {
    pub items: Vec<T>,
    pub(crate) home: ReturnQueue<Vec<T>>,
}

/// A message from one stage of a lane to the next, or from the last stage to the calling thread.
#[derive(Drop)]
pub enum Message<T: Drop, M: Drop> {
    /// What is known so far of one record.
    Item(T),
    /// What is known so far of several records, in order.
    Items(Batch<T>),
    /// The file with this number has ended with this mark; the last field is what else is known of that end.
    ///
    /// It is sent after all records read of the file.
    End(u32, Mark, M),
    /// No more messages follow.
    Stop,
}

/// The error that the other end of a link or of the fan was gone.
#[derive(Clone, Copy, Debug)]
pub struct Gone;

impl<T: Drop> From<Closed<T>> for Gone {
    /// The error `Gone` for a call that a link or a fan refused; drops the refused item.
    fn from(_refused: Closed<T>) -> Gone {
        Gone
    }
}

/// The end of a link, or of the fan at one lane, to which a stage gives its messages.
///
/// In proofs it has which record an item is about, and what was told so far: the notes of all messages given to it, in
/// order.
pub trait Outlet<T: Drop, M: Drop>: Drop {
    ghost about: { T → About };

    ghost told: { Self → List Note };

    ghost stays: { Self → Self → Type 0 };

    /// Sends `message`, and waits while there is no room for it. `Gone` if the other end is gone: nothing is sent, and
    /// `message` is dropped.
    fn tell<R: Wait>(&mut self, rt: &R, message: Message<T, M>) -> Result<(), Gone>
        ensures more { OnOk result (told self.new ≡ told self.old ++ notes_of about message) }
        ensures refused { OnErr result (told self.new ≡ told self.old) }
        ensures stays { stays self.old self.new };

    // What stays the same stays so over any number of calls.
    ghost stays_itself: { (x : Self) → stays x x };

    ghost stays_on: { (x y z : Self) → stays x y → stays y z → stays x z };
}

impl<T: Numbered, M: Drop> Outlet<T, M> for Giver<Message<T, M>> {
    ghost about = { T.about };

    ghost told = { λ g. notes T.about (given g) };

    ghost stays = { λ x y. GivesToSame x y };

    /// Sends `message` on the link, and waits while the link is full. `Gone` if the taker is gone: nothing is sent, and
    /// `message` is dropped.
    fn tell<R: Wait>(&mut self, rt: &R, message: Message<T, M>) -> Result<(), Gone>
        ensures more { OnOk result (notes T.about (given self.new) ≡ notes T.about (given self.old) ++ notes_of T.about message) }
        ensures refused { OnErr result (notes T.about (given self.new) ≡ notes T.about (given self.old)) }
        ensures stays { GivesToSame self.old self.new }
    {
        Ok(self.give(rt, message)?)
    }

    ghost stays_itself = { λ x. refl };

    ghost stays_on = { λ x y z p q. q ∙ p };
}

impl<T: Numbered, M: Drop> Outlet<T, M> for LaneGiver<Message<T, M>> {
    ghost about = { T.about };

    ghost told = { λ g. notes T.about (given_at g) };

    ghost stays = { λ x y. GivesToSameLane x y };

    /// Sends `message` at this lane of the fan, and waits while the fan is full. `Gone` if the gatherer is gone:
    /// nothing is sent, and `message` is dropped.
    fn tell<R: Wait>(&mut self, rt: &R, message: Message<T, M>) -> Result<(), Gone>
        ensures more { OnOk result (notes T.about (given_at self.new) ≡ notes T.about (given_at self.old) ++ notes_of T.about message) }
        ensures refused { OnErr result (notes T.about (given_at self.new) ≡ notes T.about (given_at self.old)) }
        ensures stays { GivesToSameLane self.old self.new }
    {
        Ok(self.give(rt, message)?)
    }

    ghost stays_itself = { λ x. (refl, refl) };

    ghost stays_on = { λ x y z p q. (q.0 ∙ p.0, q.1 ∙ p.1) };
}

/// The number of naps while an item is awaited.
const NAPS: u32 = 5;

/// The length of the first nap, in microseconds. Each is twice as long as the one before, so the five take 30 to 480.
const NAP: u64 = 30;

/// One end of a queue that returns buffers from one thread to another, or an end without a queue.
///
/// The items in the queue have no influence on results: they are only buffers to be reused.
#[derive(Drop)]
pub struct ReturnQueue<T: Drop> {
    queue: Option<Arc<ArrayQueue<T>>>,
}

impl<T: Drop> ReturnQueue<T> {
    /// An end without a queue, which allocates nothing: what is sent is dropped, and nothing arrives.
    pub fn none() -> ReturnQueue<T> {
        ReturnQueue { queue: None }
    }

    /// Allocates an empty queue that holds at most `room` items, and returns two ends of it, which are alike: each can
    /// send and receive. `AllocError` if there is no memory.
    pub fn new(alloc: Global, room: usize) -> Result<(ReturnQueue<T>, ReturnQueue<T>), AllocError>
        requires { 0 < room }
    {
        let queue = Arc::new(alloc, ArrayQueue::new(alloc, room)?)?;
        let other = Arc::try_clone(&queue)?;
        Ok((
            ReturnQueue { queue: Some(queue) },
            ReturnQueue { queue: Some(other) },
        ))
    }

    /// Allocates an empty queue that holds at most `room` items, and returns one end of it; `another_end` makes more
    /// ends. `AllocError` if there is no memory.
    pub fn alone(alloc: Global, room: usize) -> Result<ReturnQueue<T>, AllocError>
        requires { 0 < room }
    {
        let queue = Arc::new(alloc, ArrayQueue::new(alloc, room)?)?;
        Ok(ReturnQueue { queue: Some(queue) })
    }

    /// Another end of the same queue, for which nothing is allocated; an end without a queue if this one has none, or
    /// if the queue can have no more ends.
    pub fn another_end(&self) -> ReturnQueue<T> {
        match &self.queue {
            Some(queue) => match Arc::try_clone(queue) {
                Ok(queue) => ReturnQueue { queue: Some(queue) },
                Err(_) => ReturnQueue::none(),
            },
            None => ReturnQueue::none(),
        }
    }

    /// Puts `thing` into the queue for the other end; drops it if the queue is full or this end has none. It does not
    /// wait.
    pub fn send<R: Wait>(&self, rt: &R, thing: T) {
        if let Some(queue) = &self.queue {
            match queue.push(rt, thing) {
                Ok(()) => {}
                Err(_) => {}
            }
        }
    }

    /// Takes the oldest item off the queue and returns it; `None` at once if the queue is empty or this end has none.
    pub fn receive<R: Wait>(&self, rt: &R) -> Option<T> {
        match &self.queue {
            Some(queue) => queue.pop(rt),
            None => None,
        }
    }

    /// Takes the oldest item off the queue and returns it; if the queue is empty, naps for about a millisecond in all
    /// until one arrives. `None` if none has arrived by then, or at once if this end has no queue.
    pub fn await_item<R: Wait>(&self, rt: &R) -> Option<T> {
        let Some(queue) = &self.queue else {
            return None;
        };
        for tried in 0..NAPS {
            if let Some(item) = queue.pop(rt) {
                return Some(item);
            }
            let micros = NAP << tried;
            AtomicU64::new(0).park_timeout(rt, 0, Duration::from_micros(micros));
        }
        queue.pop(rt)
    }
}

/// The maximum number of items in a message.
pub const MOST_ITEMS: usize = 16;

/// The number of lists that a stage fills in turn.
const LISTS: usize = 4;

/// The maximum number of items in the lists of a stage: those in messages, and those being filled.
pub const MOST_IN_LISTS: usize = LISTS * MOST_ITEMS;

/// The items that a stage has collected for its next message, and empty lists of earlier messages to reuse.
///
/// A stage fills a few lists in turn, so that the records that wait in messages of several are no more than those in a
/// full link of messages of one.
#[derive(Drop)]
pub struct Filling<T: Drop> {
    alloc: Global,
    pub items: Vec<T>,
    /// The number of lists that are made so far, up to `LISTS`.
    made: usize,
    home: ReturnQueue<Vec<T>>,
}

impl<T: Drop> Filling<T> {
    /// A filling without items, and a queue by which its lists return. There is no error: if memory runs out for the
    /// queue, its lists are not reused.
    pub fn new(alloc: Global) -> Filling<T>
        ensures { result.items.items ≡ [] }
    {
        let home = match ReturnQueue::alone(alloc, LISTS) {
            Ok(home) => home,
            Err(_) => ReturnQueue::none(),
        };
        Filling {
            alloc,
            items: Vec::new(alloc),
            made: 0,
            home,
        }
    }

    /// Collects `item` for the next message; if the list is full or there is none, sends the collected items and then
    /// `item` in a message of its own to `to`, and may wait. `Gone` if the other end of `to` is gone: the items to be
    /// sent are dropped. It is no error if memory runs out for a list.
    pub fn add<M: Drop, R: Wait, O: Outlet<T, M>>(
        &mut self,
        rt: &R,
        to: &mut O,
        item: T,
    ) -> Result<(), Gone>
        ensures told { OnOk result (O.told to.new ++ notes_of_items O.about self.new.items.items
            ≡ O.told to.old ++ notes_of_items O.about self.old.items.items ++ Item (O.about item) ∷ []) }
        ensures going { GoOn (O.told to.old) → GoOn (O.told to.new) }
        ensures stays { O.stays to.old to.new }
    {
        self.make_room(rt);
        if self.items.len() < self.items.capacity() {
            self.items.push_reserved(item);
            return Ok(());
        }
        self.give(rt, to)?;
        to.tell(rt, Message::Item(item))
    }

    /// Sends the collected items to `to` in one message (a single item without a list), waits while there is no room
    /// for it, and has then collected none; sends nothing if there are none. `Gone` if the other end of `to` is gone:
    /// the items are dropped, and none is collected then either.
    pub fn give<M: Drop, R: Wait, O: Outlet<T, M>>(
        &mut self,
        rt: &R,
        to: &mut O,
    ) -> Result<(), Gone>
        ensures told { OnOk result (O.told to.new ≡ O.told to.old ++ notes_of_items O.about self.old.items.items) }
        ensures none { OnOk result (self.new.items.items ≡ []) }
        ensures going { GoOn (O.told to.old) → GoOn (O.told to.new) }
        ensures stays { O.stays to.old to.new }
    {
        if self.items.len() <= 1 {
            return match self.items.pop() {
                Some(item) => to.tell(rt, Message::Item(item)),
                None => Ok(()),
            };
        }
        let items = mem::replace(&mut self.items, Vec::new(self.alloc));
        let home = self.home.another_end();
        to.tell(rt, Message::Items(Batch { items, home }))
    }

    /// If there is no list to collect items in, gets an empty one: one that has returned, a new one, or one that
    /// returns within about a millisecond. It stays without a list if it gets none or memory runs out for it. The
    /// collected items stay.
    fn make_room<R: Wait>(&mut self, rt: &R)
        ensures { self.new.items.items ≡ self.old.items.items }
    {
        if !self.items.is_empty() || self.items.capacity() > 0 {
            return;
        }
        if let Some(mut list) = self.list_to_fill(rt) {
            list.clear();
            self.items = list;
        }
    }

    /// A list that has returned, or else a new one for `MOST_ITEMS` items while fewer than `LISTS` are made, or else
    /// one for whose return it waits about a millisecond. `None` if none returns or memory runs out; the collected
    /// items stay.
    fn list_to_fill<R: Wait>(&mut self, rt: &R) -> Option<Vec<T>>
        ensures { self.new.items.items ≡ self.old.items.items }
    {
        if let Some(list) = self.home.receive(rt) {
            return Some(list);
        }
        if self.made < LISTS {
            let Ok(list) = Vec::with_capacity(self.alloc, MOST_ITEMS) else {
                return None;
            };
            self.made += 1;
            return Some(list);
        }
        self.home.await_item(rt)
    }
}
