//! A link, a bounded single-producer single-consumer channel: its rule, over the items that it holds and the knowledge
//! of its two passes, and its two ends.
ghost use Rattle.std.specs.Prelude.{◌≡◌, [], ◌∷◌, ◌++◌, ⊤, true, false};
ghost use Rattle.ruled_lanes.specs.LinkProtocol.{log};
ghost use Rattle.crossbeam_channel.specs.Claims.{view, IsSeatAt};
ghost use Rattle.crossbeam_channel.specs.Ends.{sends_on, receives_on};

use crate::channel::{Closed, TRIES, back_off};
use crossbeam_channel::protocol::{Join, Lesson, Outcome, Protocol, Split};
use crossbeam_channel::{Pass, RuledReceiver, RuledSender, TryRecvError, TrySendError};
use std::collections::LinkedList;
use std::sync::Wait;

/// The log of an end of a link, for proofs: whether it may give or take, and what it has given and taken.
///
/// No value of this type is made.
pub struct Log<T> {
    pub gives: bool,
    pub takes: bool,
    pub given: LinkedList<T>,
    pub taken: LinkedList<T>,
}

/// The invariant of a link, for proofs: how the items that it holds relate to the logs of its two ends.
pub struct Linked;

impl<T> Protocol<T, Log<T>> for Linked {
    ghost use Rattle.std.specs.Prelude.{true, []};
    ghost use Rattle.ruled_lanes.specs.LinkProtocol.{log, Lossless};

    ghost holds = { Lossless };

    ghost first = { log true true [] [] };
}

/// The split of a link into an end that gives and an end that takes.
pub struct Roles;

impl<T> Split<Log<T>> for Roles {
    ghost use Rattle.std.specs.Prelude.{true, false, []};
    ghost use Rattle.ruled_lanes.specs.LinkProtocol.{log};

    ghost left = { λ v. log true false v.given [] };

    ghost right = { λ v. log false true [] v.taken };
}

impl<T> Join<Log<T>> for Roles {
    ghost use Rattle.std.specs.Prelude.{true, false, []};
    ghost use Rattle.ruled_lanes.specs.LinkProtocol.{log};

    ghost both = { λ v w. log true true v.given w.taken };

    ghost spent = { log false false [] [] };
}

/// The step of a give: the item is appended to those given.
pub struct Gives;

impl<T> Outcome<T, Log<T>> for Gives {
    ghost then = { λ v x w. w ≡ log v.gives v.takes (v.given ++ x ∷ []) v.taken };
}

impl<T> Lesson<T, Log<T>> for Gives {
    ghost fact = { λ v items. ⊤ };
}

/// The step of a take: the item is appended to those taken.
pub struct Takes;

impl<T> Outcome<T, Log<T>> for Takes {
    ghost then = { λ v x w. w ≡ log v.gives v.takes v.given (v.taken ++ x ∷ []) };
}

impl<T> Lesson<T, Log<T>> for Takes {
    ghost fact = { λ v items. ⊤ };
}

/// What settling a link proves: the items taken, then those still held, are the items given.
pub struct Total;

impl<T> Lesson<T, Log<T>> for Total {
    ghost fact = { λ v items. v.taken ++ items ≡ v.given };
}

/// The sending end of a link, a bounded single-producer single-consumer channel.
///
/// It cannot be copied, so it knows all that was ever given.
#[derive(Drop)]
pub struct Giver<T: Drop> {
    sender: RuledSender<T, Log<T>, Linked>,
    pass: Pass<T, Log<T>>,
    ghost seated: { IsSeatAt (sends_on sender) pass },
    ghost role: { view pass ≡ log true false (view pass).given [] },
}

/// The receiving end of a link, a bounded single-producer single-consumer channel.
///
/// It cannot be copied, so it knows all that was ever taken.
#[derive(Drop)]
pub struct Taker<T: Drop> {
    receiver: RuledReceiver<T, Log<T>, Linked>,
    pass: Pass<T, Log<T>>,
    ghost seated: { IsSeatAt (receives_on receiver) pass },
    ghost role: { view pass ≡ log false true [] (view pass).taken },
}

impl<T: Drop> Giver<T> {
    ghost use Rattle.std.specs.Prelude.{◌∷◌, ◌++◌, OnOk, OnErr, IfErr};
    ghost use Rattle.ruled_lanes.specs.HandedBack.{handed_back};
    ghost use Rattle.ruled_lanes.specs.LinkEnds.{given, GivesToSame};

    /// The giver of a link, over the sending end `sender` of the link's channel and the pass that may give.
    pub(crate) fn of(sender: RuledSender<T, Log<T>, Linked>, pass: Pass<T, Log<T>>) -> Giver<T>
        requires seated { IsSeatAt (sends_on sender) pass }
        requires role { view pass ≡ log true false (view pass).given [] }
        ensures { (result.sender ≡ sender) × (result.pass ≡ pass) }
    {
        Giver { sender, pass }
    }

    /// Sends `item` on the link; while the link is full, the thread sleeps until it is woken. `Closed` returns `item`
    /// if the taker is gone: nothing is sent.
    fn wait_and_give<R: Wait>(&mut self, rt: &R, item: T) -> Result<(), Closed<T>>
        ensures link { GivesToSame self.old self.new }
        ensures ok { OnOk result (given self.new ≡ given self.old ++ item ∷ []) }
        ensures refused { OnErr result (given self.new ≡ given self.old) }
        ensures item { IfErr result (λ closed. handed_back closed ≡ item) }
    {
        match self.sender.send_as::<Gives, R>(rt, &mut self.pass, item) {
            Ok(()) => Ok(()),
            Err(refused) => Err(Closed(refused.into_inner())),
        }
    }

    /// Sends `item` on the link, and waits while the link is full. `Closed` returns `item` if the taker is gone:
    /// nothing is sent.
    ///
    /// The item is appended in one step. The call tries again for about a millisecond, then its thread sleeps until it
    /// is woken. It allocates nothing.
    ///
    /// # Errors
    /// `Closed` returns the item, and then the items given are unchanged. No clause says when it occurs: it does if the
    /// taker is gone.
    pub fn give<R: Wait>(&mut self, rt: &R, item: T) -> Result<(), Closed<T>>
        ensures link { GivesToSame self.old self.new }
        ensures ok { OnOk result (given self.new ≡ given self.old ++ item ∷ []) }
        ensures refused { OnErr result (given self.new ≡ given self.old) }
        ensures item { IfErr result (λ closed. handed_back closed ≡ item) }
    {
        let mut held = item;
        for tried in 0..TRIES {
            match self
                .sender
                .try_send_as::<Gives, R>(rt, &mut self.pass, held)
            {
                Ok(()) => return Ok(()),
                Err(TrySendError::Full(back)) => held = back,
                Err(refused) => return Err(Closed(refused.into_inner())),
            }
            back_off(rt, tried);
        }
        self.wait_and_give(rt, held)
    }
}

impl<T: Drop> Taker<T> {
    ghost use Rattle.std.specs.Prelude.{◌∷◌, ◌++◌, IfOk, IfSome, IfNone, OnErr};
    ghost use Rattle.ruled_lanes.specs.LinkEnds.{given, taken, AreEnds, TakesFromSame, Settles};

    /// The taker of a link, over the receiving end `receiver` of the link's channel and the pass that may take.
    pub(crate) fn of(receiver: RuledReceiver<T, Log<T>, Linked>, pass: Pass<T, Log<T>>) -> Taker<T>
        requires seated { IsSeatAt (receives_on receiver) pass }
        requires role { view pass ≡ log false true [] (view pass).taken }
        ensures { (result.receiver ≡ receiver) × (result.pass ≡ pass) }
    {
        Taker { receiver, pass }
    }

    /// Removes the next item from the link and returns it; while the link is empty, the thread sleeps until it is
    /// woken. `Closed` if the giver is gone and no item is left: nothing is taken.
    fn wait_and_receive<R: Wait>(&mut self, rt: &R) -> Result<T, Closed<()>>
        ensures link { TakesFromSame self.old self.new }
        ensures ok { IfOk result (λ item. taken self.new ≡ taken self.old ++ item ∷ []) }
        ensures refused { OnErr result (taken self.new ≡ taken self.old) }
    {
        self.receiver
            .recv_as::<Takes, R>(rt, &mut self.pass)
            .map_err(|_| Closed(()))
    }

    /// Removes the next item from the link and returns it; waits while the link is empty. `Closed` if the giver is gone
    /// and no item is left: nothing is taken.
    ///
    /// The item is taken in one step. The call tries again for about a millisecond, then its thread sleeps until it is
    /// woken. It allocates nothing.
    ///
    /// # Errors
    /// After `Closed` the items taken are unchanged. No clause says when it occurs: it does if the giver is gone and
    /// all that it gave was taken.
    pub fn take<R: Wait>(&mut self, rt: &R) -> Result<T, Closed<()>>
        ensures link { TakesFromSame self.old self.new }
        ensures ok { IfOk result (λ item. taken self.new ≡ taken self.old ++ item ∷ []) }
        ensures refused { OnErr result (taken self.new ≡ taken self.old) }
    {
        for tried in 0..TRIES {
            match self.receiver.try_recv_as::<Takes, R>(rt, &mut self.pass) {
                Ok(item) => return Ok(item),
                Err(TryRecvError::Empty) => back_off(rt, tried),
                Err(TryRecvError::Disconnected) => return Err(Closed(())),
            }
        }
        self.wait_and_receive(rt)
    }

    /// Consumes the taker and `giver`, both ends of a link, and drops the items that the link still holds; returns
    /// nothing and cannot fail. It proves that no item was lost, repeated or reordered.
    ///
    /// The items given are those taken, followed by those that the link still holds. It allocates nothing, and though
    /// it is passed `rt`, it never waits.
    pub fn settle<R: Wait>(self, _rt: &R, giver: Giver<T>)
        requires ends { AreEnds giver self }
        ensures settled { Settles (taken self) (given giver) }
    {
        let Giver { sender, mut pass } = giver;
        let Taker {
            receiver: _receiver,
            pass: other,
        } = self;
        sender.absorb::<Roles>(&mut pass, other);
        sender.learn_as::<Total>(&mut pass);
    }
}
