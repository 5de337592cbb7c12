//! A fan, a bounded multi-producer single-consumer channel with one producer for each lane: its rule, over the items
//! that it holds and the knowledge of its passes, and its ends.
ghost use Rattle.std.specs.Prelude.{◌≡◌, ◌<◌, [], ◌∷◌, ◌++◌, ⊤};
ghost use Rattle.ruled_lanes.specs.FanProtocol.{fan_log, giver, given_in, Accounts, gatherer};
ghost use Rattle.crossbeam_channel.specs.Claims.{view, IsSeatAt};
ghost use Rattle.crossbeam_channel.specs.Ends.{sends_on, receives_on};
ghost use Rattle.ruled_lanes.specs.declared.channel.TheConstants.{LANES};

use crate::channel::{ALL_NAPS, Closed, TRIES, back_off, nap, napped_before};
use crossbeam_channel::protocol::{Join, Lesson, Outcome, Protocol, Split};
use crossbeam_channel::{Pass, RuledReceiver, RuledSender, TryRecvError, TrySendError};
use std::collections::LinkedList;
use std::sync::Wait;

/// The log of an end of a fan, for proofs: whether it may take, what was taken, and what it gave at each of its lanes.
///
/// An end that may take also knows how many lanes it has made. No value of this type is made.
pub struct FanLog<T> {
    pub takes: bool,
    pub made: u32,
    pub taken: LinkedList<(u32, T)>,
    pub lanes: LinkedList<(u32, LinkedList<T>)>,
}

/// The invariant of a fan, for proofs: how the items that it holds relate to the logs of its ends.
pub struct Fanned;

impl<T> Protocol<(u32, T), FanLog<T>> for Fanned {
    ghost use Rattle.std.specs.Prelude.{[]};
    ghost use Rattle.ruled_lanes.specs.FanProtocol.{gatherer, IsFanned};

    ghost holds = { IsFanned };

    ghost first = { gatherer 0 [] };
}

/// The split that makes the next lane: its new end gives there, and the other one goes on taking.
pub struct NewLane;

impl<T> Split<FanLog<T>> for NewLane {
    ghost use Rattle.std.specs.Prelude.{◌+◌, []};
    ghost use Rattle.ruled_lanes.specs.FanProtocol.{fan_log, giver};

    ghost left = { λ v. fan_log v.takes (v.made + 1) v.taken v.lanes };

    ghost right = { λ v. giver v.made [] };
}

impl<T> Join<FanLog<T>> for NewLane {
    ghost use Rattle.std.specs.Prelude.{◌++◌};
    ghost use Rattle.ruled_lanes.specs.FanProtocol.{fan_log, nobody};

    ghost both = { λ v w. fan_log v.takes v.made v.taken (w.lanes ++ v.lanes) };

    ghost spent = { nobody };
}

/// The step of a give: the item is appended to those given at the lane whose number it carries.
pub struct Gives;

impl<T> Outcome<(u32, T), FanLog<T>> for Gives {
    ghost then = { λ v x w. w ≡ giver x.0 (given_in v ++ x.1 ∷ []) };
}

impl<T> Lesson<(u32, T), FanLog<T>> for Gives {
    ghost fact = { λ v items. ⊤ };
}

/// The step of a take: the item, of one of the lanes that were made, is appended to those taken.
pub struct Takes;

impl<T> Outcome<(u32, T), FanLog<T>> for Takes {
    ghost then = { λ v x w. (x.0 < v.made) × (w ≡ fan_log v.takes v.made (v.taken ++ x ∷ []) v.lanes) };
}

impl<T> Lesson<(u32, T), FanLog<T>> for Takes {
    ghost fact = { λ v items. ⊤ };
}

/// What settling a fan proves: the items given at each lane are those taken, then those still held.
///
/// Also, no lane other than those made has any items.
pub struct EachLane;

impl<T> Lesson<(u32, T), FanLog<T>> for EachLane {
    ghost fact = { λ v items. Accounts v items };
}

/// The time charged for a take that does not wait, in microseconds.
const CALL: u64 = 10;

/// The next nap takes 1 / `PART` of the time waited so far, so an item is taken at most that much later than it was
/// given.
const PART: u64 = 8;

/// The length of the longest nap, in microseconds.
const LONGEST_NAP: u64 = 100_000;

/// A sending end of a fan, a bounded channel with a producer for each lane and one consumer.
///
/// It gives at one lane, whose number travels with each item. It cannot be copied, so it knows all that was ever given
/// at its lane.
#[derive(Drop)]
pub struct LaneGiver<T: Drop> {
    sender: RuledSender<(u32, T), FanLog<T>, Fanned>,
    pass: Pass<(u32, T), FanLog<T>>,
    lane: u32,
    ghost seated: { IsSeatAt (sends_on sender) pass },
    ghost role: { view pass ≡ giver lane (given_in (view pass)) },
    ghost known: { lane < LANES },
}

/// The receiving end of a fan, a bounded channel with a producer for each lane and one consumer.
///
/// It takes the items of all lanes. It cannot be copied, so it knows all that was ever taken.
#[derive(Drop)]
pub struct Gatherer<T: Drop> {
    receiver: RuledReceiver<(u32, T), FanLog<T>, Fanned>,
    pass: Pass<(u32, T), FanLog<T>>,
    ghost seated: { IsSeatAt (receives_on receiver) pass },
    ghost role: { view pass ≡ gatherer LANES (view pass).taken },
}

impl<T: Drop> LaneGiver<T> {
    ghost use Rattle.std.specs.Prelude.{◌∷◌, ◌++◌, [], OnOk, OnErr, IfErr};
    ghost use Rattle.ruled_lanes.specs.FanEnds.{lane_of, given_at, GivesToSameLane};
    ghost use Rattle.ruled_lanes.specs.HandedBack.{handed_back};

    /// The giver at lane `lane` of a fan, over the sending end `sender` of the fan's channel and the pass of this lane.
    pub(crate) fn of(
        sender: RuledSender<(u32, T), FanLog<T>, Fanned>,
        pass: Pass<(u32, T), FanLog<T>>,
        lane: u32,
    ) -> LaneGiver<T>
        requires seated { IsSeatAt (sends_on sender) pass }
        requires role { view pass ≡ giver lane (given_in (view pass)) }
        requires in_range { lane < LANES }
        ensures { (result.sender ≡ sender) × (result.pass ≡ pass) × (result.lane ≡ lane) }
    {
        LaneGiver { sender, pass, lane }
    }

    /// The number of the lane at which this end gives, below `LANES`.
    pub fn lane(&self) -> u32
        ensures lane { result ≡ lane_of self.now }
        ensures in_range { result < LANES }
    {
        self.lane
    }

    /// Sends `item` at the lane of this end; while the fan is full, the thread sleeps until it is woken. `Closed`
    /// returns `item` if the gatherer is gone: nothing is sent.
    fn wait_and_give<R: Wait>(&mut self, rt: &R, item: T) -> Result<(), Closed<T>>
        ensures lane { GivesToSameLane self.old self.new }
        ensures ok { OnOk result (given_at self.new ≡ given_at self.old ++ item ∷ []) }
        ensures refused { OnErr result (given_at self.new ≡ given_at self.old) }
        ensures item { IfErr result (λ closed. handed_back closed ≡ item) }
    {
        match self
            .sender
            .send_as::<Gives, R>(rt, &mut self.pass, (self.lane, item))
        {
            Ok(()) => Ok(()),
            Err(refused) => Err(Closed(refused.into_inner().1)),
        }
    }

    /// Sends `item` at the lane of this end, and waits while the fan is full. `Closed` returns `item` if the gatherer
    /// is gone: nothing is sent.
    ///
    /// The item is appended in one step. The call tries again for about a millisecond, then its thread sleeps until it
    /// is woken. It allocates nothing.
    ///
    /// # Errors
    /// `Closed` returns the item, and then the items given are unchanged. No clause says when it occurs: it does if the
    /// gatherer is gone.
    pub fn give<R: Wait>(&mut self, rt: &R, item: T) -> Result<(), Closed<T>>
        ensures lane { GivesToSameLane self.old self.new }
        ensures ok { OnOk result (given_at self.new ≡ given_at self.old ++ item ∷ []) }
        ensures refused { OnErr result (given_at self.new ≡ given_at self.old) }
        ensures item { IfErr result (λ closed. handed_back closed ≡ item) }
    {
        let mut held = item;
        for tried in 0..TRIES {
            match self
                .sender
                .try_send_as::<Gives, R>(rt, &mut self.pass, (self.lane, held))
            {
                Ok(()) => return Ok(()),
                Err(TrySendError::Full((_, back))) => held = back,
                Err(refused) => return Err(Closed(refused.into_inner().1)),
            }
            back_off(rt, tried);
        }
        self.wait_and_give(rt, held)
    }
}

impl<T: Drop> Gatherer<T> {
    ghost use Rattle.std.specs.Prelude.{◌≤◌, ◌∷◌, ◌++◌, [], ℕ, List, true, IfOk, IfSome, IfNone, OnErr, vec_len};
    ghost use Rattle.ruled_lanes.specs.FanProtocol.{Accounts};
    ghost use Rattle.ruled_lanes.specs.FanEnds.{gathered, AreGiversOf, TakesFromSameFan, SettlesFan};

    /// The gatherer of a fan, over the receiving end `receiver` of the fan's channel and the pass that may take.
    pub(crate) fn of(
        receiver: RuledReceiver<(u32, T), FanLog<T>, Fanned>,
        pass: Pass<(u32, T), FanLog<T>>,
    ) -> Gatherer<T>
        requires seated { IsSeatAt (receives_on receiver) pass }
        requires role { view pass ≡ gatherer LANES (view pass).taken }
        ensures { (result.receiver ≡ receiver) × (result.pass ≡ pass) }
    {
        Gatherer { receiver, pass }
    }

    /// Removes the next item from the fan without waiting, and returns the number of its lane and the item. `Empty` if
    /// the fan holds none, `Disconnected` if it holds none and all givers are gone; nothing is taken then.
    fn try_receive<R: Wait>(&mut self, rt: &R) -> Result<(u32, T), TryRecvError>
        ensures fan { TakesFromSameFan self.old self.new }
        ensures lane { IfOk result (λ item. item.0 < LANES) }
        ensures ok { IfOk result (λ item. gathered self.new ≡ gathered self.old ++ item ∷ []) }
        ensures refused { OnErr result (gathered self.new ≡ gathered self.old) }
    {
        self.receiver.try_recv_as::<Takes, R>(rt, &mut self.pass)
    }

    /// Removes the next item from the fan, and returns the number of its lane and the item; while the fan is empty, the
    /// thread sleeps until it is woken. `Closed` if all givers are gone and no item is left: nothing is taken.
    fn wait_and_receive<R: Wait>(&mut self, rt: &R) -> Result<(u32, T), Closed<()>>
        ensures fan { TakesFromSameFan self.old self.new }
        ensures lane { IfOk result (λ item. item.0 < LANES) }
        ensures ok { IfOk result (λ item. gathered self.new ≡ gathered self.old ++ item ∷ []) }
        ensures refused { OnErr result (gathered self.new ≡ gathered self.old) }
    {
        self.receiver
            .recv_as::<Takes, R>(rt, &mut self.pass)
            .map_err(|_| Closed(()))
    }

    /// Removes the next item from the fan, and returns the number of its lane and the item; waits while the fan is
    /// empty. `Closed` if all givers are gone and no item is left: nothing is taken.
    ///
    /// The item is taken in one step. The call tries again for about a millisecond, then its thread sleeps until it is
    /// woken. It allocates nothing.
    ///
    /// # Errors
    /// After `Closed` the items taken are unchanged. No clause says when it occurs: it does if all givers are gone and
    /// all that they gave was taken.
    pub fn take<R: Wait>(&mut self, rt: &R) -> Result<(u32, T), Closed<()>>
        ensures fan { TakesFromSameFan self.old self.new }
        ensures lane { IfOk result (λ item. item.0 < LANES) }
        ensures ok { IfOk result (λ item. gathered self.new ≡ gathered self.old ++ item ∷ []) }
        ensures refused { OnErr result (gathered self.new ≡ gathered self.old) }
    {
        for tried in 0..TRIES {
            match self.try_receive(rt) {
                Ok(item) => return Ok(item),
                Err(TryRecvError::Empty) => back_off(rt, tried),
                Err(TryRecvError::Disconnected) => return Err(Closed(())),
            }
        }
        self.wait_and_receive(rt)
    }

    /// Removes the next item from the fan, and returns its lane's number and the item; `None` if none arrives within
    /// `patience` microseconds (at least about a millisecond). Subtracts the time waited, except some before `Closed`,
    /// from `patience`, which is 0 after `None`. `Closed` if all givers are gone and no item is left: nothing is taken.
    ///
    /// The item is taken in one step. While the fan is empty, the call tries again for about a millisecond, as `take`
    /// does, then after naps, each an eighth of the time that it has waited and at most a tenth of a second; the last
    /// one may end after `patience`. The time slept is subtracted from `patience`, and ten microseconds for the call
    /// itself. It allocates nothing.
    ///
    /// # Errors
    /// `Closed` as in `take`. If it comes within the first millisecond, the time slept is not subtracted.
    pub fn take_within<R: Wait>(
        &mut self,
        rt: &R,
        patience: &mut u64,
    ) -> Result<Option<(u32, T)>, Closed<()>>
        ensures fan { TakesFromSameFan self.old self.new }
        ensures lane { IfOk result (λ taken. IfSome taken (λ item. item.0 < LANES)) }
        ensures ok { IfOk result (λ taken. IfSome taken (λ item. gathered self.new ≡ gathered self.old ++ item ∷ [])) }
        ensures none { IfOk result (λ taken. IfNone taken (gathered self.new ≡ gathered self.old)) }
        ensures refused { OnErr result (gathered self.new ≡ gathered self.old) }
        ensures patience { patience.new ≤ patience.old }
        ensures over { IfOk result (λ taken. IfNone taken (patience.new ≡ 0)) }
    {
        *patience = patience.saturating_sub(CALL);
        for tried in 0..TRIES {
            match self.try_receive(rt) {
                Ok(item) => {
                    *patience = patience.saturating_sub(napped_before(tried));
                    return Ok(Some(item));
                }
                Err(TryRecvError::Empty) => back_off(rt, tried),
                Err(TryRecvError::Disconnected) => return Err(Closed(())),
            }
        }
        *patience = patience.saturating_sub(ALL_NAPS);
        self.nap_and_receive(rt, patience)
    }

    /// Removes the next item from the fan, tried after each nap, and returns its lane's number and the item; `None` if
    /// none arrives within `patience` microseconds, at once if this is 0. Subtracts the time slept from `patience`,
    /// which is 0 after `None`. `Closed` if all givers are gone and no item is left: nothing is taken.
    fn nap_and_receive<R: Wait>(
        &mut self,
        rt: &R,
        patience: &mut u64,
    ) -> Result<Option<(u32, T)>, Closed<()>>
        ensures fan { TakesFromSameFan self.old self.new }
        ensures lane { IfOk result (λ taken. IfSome taken (λ item. item.0 < LANES)) }
        ensures ok { IfOk result (λ taken. IfSome taken (λ item. gathered self.new ≡ gathered self.old ++ item ∷ [])) }
        ensures none { IfOk result (λ taken. IfNone taken (gathered self.new ≡ gathered self.old)) }
        ensures refused { OnErr result (gathered self.new ≡ gathered self.old) }
        ensures patience { patience.new ≤ patience.old }
        ensures over { IfOk result (λ taken. IfNone taken (patience.new ≡ 0)) }
    {
        let mut waited = ALL_NAPS;
        while *patience > 0 {
            let micros = (waited / PART).clamp(1, LONGEST_NAP);
            nap(rt, micros);
            *patience = patience.saturating_sub(micros);
            waited = waited.saturating_add(micros);
            match self.try_receive(rt) {
                Ok(item) => return Ok(Some(item)),
                Err(TryRecvError::Empty) => {}
                Err(TryRecvError::Disconnected) => return Err(Closed(())),
            }
        }
        Ok(None)
    }

    /// Adds to `pass`, for proofs, what the rule implies: the items given at each lane are those taken of it, and then
    /// those that the fan still holds. It gives and takes nothing, and cannot fail.
    #[tactic(auto, using(crate::proofs::Fans::totals))]
    fn learn(
        sender: &RuledSender<(u32, T), FanLog<T>, Fanned>,
        pass: &mut Pass<(u32, T), FanLog<T>>,
    )
        requires seated { IsSeatAt (sends_on sender.now) pass.old }
        requires takes { (view pass.old).takes ≡ true }
        ensures learnt { (held : List (ℕ × T)) × Accounts (view pass.old) held }
    {
        sender.learn_as::<EachLane>(pass);
    }

    /// Consumes the gatherer and `givers`; the items that the fan still holds are dropped, but if it has other givers,
    /// only when these are gone too. Returns nothing and cannot fail. It proves that no item of the lanes of `givers`
    /// was lost, repeated or reordered.
    ///
    /// The items given at a lane are those taken from it, followed by those that the fan still holds.
    ///
    /// No item carries a number other than those of the fan's lanes. It allocates nothing, and though it is passed
    /// `rt`, it never waits.
    pub fn settle<R: Wait>(self, _rt: &R, mut givers: Vec<LaneGiver<T>>)
        requires some { 1 ≤ vec_len givers }
        requires fan { AreGiversOf self givers.items }
        ensures settled { SettlesFan (gathered self) givers.items }
    {
        let Gatherer {
            receiver: _receiver,
            mut pass,
        } = self;
        let Some(
            LaneGiver {
                sender,
                pass: last,
                ..
            },
        ) = givers.pop()
        else {
            unreachable!()
        };
        sender.absorb::<NewLane>(&mut pass, last);
        while let Some(giver) = givers.pop() {
            let LaneGiver { pass: other, .. } = giver;
            sender.absorb::<NewLane>(&mut pass, other);
        }
        Gatherer::learn(&sender, &mut pass);
    }
}
