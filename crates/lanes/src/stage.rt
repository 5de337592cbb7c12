//! The stages of a lane, which is a pipeline: the states of a record on its way through it, the kinds of lanes with the
//! items of each stage, the scratches of a lane, and the work of a stage on the records of its messages.
ghost use Rattle.std.specs.Prelude.{◌≡◌, ◌≤◌, ℕ, List, ◌++◌, [], OnOk, ◌∷◌, IfOk};
ghost use Rattle.lanes.specs.Notes.{About, notes_of_items, GoOn, notes, Stop};
ghost use Rattle.streams.specs.declared.frames.Mark.{Mark};
ghost use Rattle.ruled_lanes.specs.LinkEnds.{given, taken, TakesFromSame};
ghost use Rattle.lanes.specs.Stages.{HandedOnAll};

use crate::message::{Batch, Filling, Gone, Message, Outlet};
use crate::run::{Gate, Stage};
use common::Choice;
use planar_code::Record;
use ruled_lanes::{Giver, Taker};
use std::alloc::{AllocError, Global};
use std::sync::Wait;
use streams::SourceEnd;

/// An item of a lane: what is known of one record of a file.
pub trait Numbered: Drop + Send {
    /// Which record it is: its file, its place there, its bytes, and the choice of its outer face.
    ghost about: { Self → About };

    /// The index of the record's file, from 0.
    fn file(&self) -> u32
        ensures { result ≡ (about self.now).file };

    /// The index of the record in its file, from 0.
    fn ordinal(&self) -> u32
        ensures { result ≡ (about self.now).ordinal };
}

/// An item that waits for a stage, together with the work of that stage.
pub trait Staged: Numbered {
    /// The item after the work.
    type Next: Numbered;

    /// The buffers that the work uses and does not keep. The stage's thread reuses them for each record. Lists that
    /// later stages of its lane no longer need may return through them.
    type Scratch: Drop + Send;

    /// The stage that does the work.
    const STAGE: Stage;

    /// An empty scratch, without queues on which lists return. It allocates nothing.
    fn scratch(alloc: Global) -> Self::Scratch;

    /// Moves into `scratch` the lists that later stages of the lane have sent back, and sends back those that this
    /// stage no longer needs. It is called before each record, never waits, and has no influence on results.
    fn exchange<R: Wait>(rt: &R, scratch: &mut Self::Scratch);

    /// Does the work of this stage on the item, with the buffers of `scratch`, which it changes; returns the item for
    /// the next stage, about the same record and choice of the outer face. There is no error: if the work fails or
    /// memory runs out for it, the returned item says so.
    fn work(self, alloc: Global, scratch: &mut Self::Scratch) -> Self::Next
        ensures { Self.Next.about result ≡ Self.about self };
}

/// The scratches of the second, third and fourth stage of a lane.
#[derive(Drop)]
pub struct LaneScratch<E: Drop, S: Drop, D: Drop> {
    pub embed: E,
    pub shape: S,
    pub draw: D,
}

/// The `LaneScratch` of a lane of this kind.
pub type ScratchOf<L> = LaneScratch<
    <<L as LaneKind>::Framed as Staged>::Scratch,
    <<L as LaneKind>::Embedded as Staged>::Scratch,
    <<L as LaneKind>::Shaped as Staged>::Scratch,
>;

/// The work of the lanes of a run: the item types of the four stages, and the type of a file's end.
///
/// Each stage makes the next item from its own. All lanes share one value of this type.
pub trait LaneKind: Sync {
    /// A record that was read from its file, the item of the first stage.
    type Framed: Staged<Next = Self::Embedded>;

    /// The item that the second stage makes.
    type Embedded: Staged<Next = Self::Shaped>;

    /// The item that the third stage makes.
    type Shaped: Staged<Next = Self::Entry>;

    /// The item that the lane gives in the end.
    type Entry: Numbered;

    /// What is known of the end of a file besides its mark.
    type End: Drop + Send;

    // Which records it may be passed: of which file, and at which place there.
    ghost accepts: { ℕ → ℕ → List ℕ → Type 0 };

    // Which ends it may be passed: of which file, with how many records and which mark.
    ghost ends: { ℕ → ℕ → Mark → Type 0 };

    /// The item of the first stage for the record `rec` with place `ordinal` (from 0) in file `file`, and `choice` of
    /// its outer face.
    fn framed(&self, file: u32, ordinal: u32, rec: Record, choice: Choice) -> Self::Framed
        requires { accepts file ordinal rec }
        ensures { Self.Framed.about result ≡ record { file = file; ordinal = ordinal; bytes = rec; choice = choice } };

    /// What the message of the end of file `file` carries besides the file's number and mark; `end` has the number of
    /// its records, and its mark.
    fn end(&self, file: u32, end: SourceEnd) -> Self::End
        requires { ends file end.count end.mark };

    /// New scratches for the second, third and fourth stage of a lane whose links hold at most `capacity` messages;
    /// through them lists return to the stage that fills them. `AllocError` if there is no memory for the channels of
    /// their return.
    ///
    /// # Errors
    ///
    /// `AllocError` if there is no memory for the channels by which lists return.
    fn scratch(&self, alloc: Global, capacity: u32) -> Result<ScratchOf<Self>, AllocError>
        requires { 1 ≤ capacity };
}

/// A running stage: its lane's number, the scratch that all its records reuse, and the items of its next message.
#[derive(Drop)]
pub(crate) struct RunningStage<'g, A: Staged, R, G> {
    pub(crate) rt: &'g R,
    pub(crate) alloc: Global,
    pub(crate) gate: &'g G,
    pub(crate) lane: u32,
    pub(crate) scratch: A::Scratch,
    pub(crate) filling: Filling<A::Next>,
}

impl<A: Staged, R: Wait, G: Gate> RunningStage<'_, A, R, G> {
    /// Calls the gate, which may delay it, exchanges lists with other stages, and does the stage's work on `item` with
    /// its scratch; returns the item for the next stage. There is no error: if the work fails or memory runs out for
    /// it, the returned item says so.
    pub(crate) fn work_on(&mut self, item: A) -> A::Next
        ensures told { A.Next.about result ≡ A.about item }
        ensures same { self.new.filling.items.items ≡ self.old.filling.items.items }
    {
        self.gate.pass(self.lane, A::STAGE, item.ordinal());
        A::exchange(self.rt, &mut self.scratch);
        item.work(self.alloc, &mut self.scratch)
    }

    /// Does the stage's work on the items of `batch`, in order, sends all results to `to`, waiting while there is no
    /// room, and sends the emptied list back. `Gone`, the only error, if the other end of `to` is gone: what was not
    /// sent is dropped. If memory runs out for an item, its result says so.
    pub(crate) fn work_on_batch<M: Drop, O: Outlet<A::Next, M>>(
        &mut self,
        batch: Batch<A>,
        to: &mut O,
    ) -> Result<(), Gone>
        requires about { O.about ≡ A.Next.about }
        requires none { self.old.filling.items.items ≡ [] }
        ensures told { OnOk result (O.told to.new ≡ O.told to.old ++ notes_of_items A.about batch.items.items) }
        ensures none { OnOk result (self.new.filling.items.items ≡ []) }
        ensures going { GoOn (O.told to.old) → GoOn (O.told to.new) }
        ensures stays { O.stays to.old to.new }
    {
        let Batch { mut items, home } = batch;
        for item in items.drain(..) {
            let next = self.work_on(item);
            self.filling.add(self.rt, to, next)?;
        }
        home.send(self.rt, items);
        self.filling.give(self.rt, to)
    }
}

/// The parameters of a running stage: its lane's number, and the scratch that all its records reuse.
#[derive(Drop)]
pub struct StageWork<A: Staged> {
    pub lane: u32,
    pub scratch: A::Scratch,
}

/// Runs a middle stage of a lane on this thread until the stop, which it passes on: takes messages, does its work and
/// gives the results. Returns `taker` and `giver`, or `Gone` if the other end of one was gone, and drops both. There is
/// no other error: if memory runs out for an item, its result says so.
///
/// It gives all that `run_until_stop` gives, and then the stop.
pub fn run_stage<A: Staged, M: Drop, R: Wait, G: Gate>(
    rt: &R,
    alloc: Global,
    gate: &G,
    work: StageWork<A>,
    taker: Taker<Message<A, M>>,
    mut giver: Giver<Message<A::Next, M>>,
) -> Result<(Taker<Message<A, M>>, Giver<Message<A::Next, M>>), Gone>
    requires none_taken { taken taker ≡ [] }
    requires none_given { given giver ≡ [] }
    ensures { IfOk result (λ ends. HandedOnAll A.about A.Next.about taker giver ends.0 ends.1) }
{
    let taker = run_until_stop(rt, alloc, gate, work, taker, &mut giver)?;
    giver.tell(rt, Message::Stop)?;
    Ok((taker, giver))
}

/// Runs a stage of a lane on this thread until the stop, which it does not pass on: takes messages, does its work and
/// gives the results to `to`. Returns `taker`; drops it, with `Gone`, if the other end of it or of `to` was gone: what
/// `to` gave stays given. If memory runs out for an item, its result says so.
///
/// It gives what the stage before gives, in order: records with the work of this stage done, and ends unchanged. The
/// records of a message are given once the work is done on all of them; if there is no list for the results, each is
/// given at once. It does not give the stop: that is left to the caller. Before it works on a record it passes the gate
/// and exchanges lists with other stages; all records use one scratch.
pub fn run_until_stop<A: Staged, M: Drop, R: Wait, G: Gate, O: Outlet<A::Next, M>>(
    rt: &R,
    alloc: Global,
    gate: &G,
    work: StageWork<A>,
    mut taker: Taker<Message<A, M>>,
    to: &mut O,
) -> Result<Taker<Message<A, M>>, Gone>
    requires about { O.about ≡ A.Next.about }
    requires none_taken { taken taker ≡ [] }
    requires none_told { O.told to.old ≡ [] }
    ensures stays { O.stays to.old to.new }
    ensures goes_on { GoOn (O.told to.new) }
    ensures same_link { IfOk result (λ took. TakesFromSame taker took) }
    ensures told { IfOk result (λ took. notes A.about (taken took) ≡ O.told to.new ++ Stop ∷ []) }
{
    let StageWork { lane, scratch } = work;
    let mut running = RunningStage::<A, R, G> {
        rt,
        alloc,
        gate,
        lane,
        scratch,
        filling: Filling::new(alloc),
    };
    for _ in rt.forever() {
        match taker.take(rt)? {
            Message::Item(item) => {
                let next = running.work_on(item);
                to.tell(rt, Message::Item(next))?;
            }
            Message::Items(batch) => running.work_on_batch(batch, to)?,
            Message::End(file, mark, known) => to.tell(rt, Message::End(file, mark, known))?,
            Message::Stop => return Ok(taker),
        }
    }
    unreachable!()
}
