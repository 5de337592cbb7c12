//! The stages of a lane before they run, and starting them in threads of their own.
ghost use Rattle.std.specs.Prelude.{◌≡◌, ◌≤◌, IfOk, vec_len, [], IfSome};
ghost use Rattle.ruled_lanes.specs.declared.channel.TheConstants.{MAX_CAPACITY};
ghost use Rattle.streams.specs.declared.source.TheConstants.{PIECE};
ghost use Rattle.lanes.specs.Lanes.{IsNewLink, ReadsSeat, StartsToRead};
ghost use Rattle.ruled_lanes.specs.LinkEnds.{given, taken};
ghost use Rattle.lanes.specs.Stages.{HandedOnAll};
ghost use Rattle.lanes.specs.Accepting.{AcceptsAll};

use crate::all_lanes::LaneFault;
use crate::reading::FirstStage;
use crate::run::Shared;
use crate::stage::LaneKind;
use crate::{Gate, Gone, LaneScratch, Message, Numbered, Opener, StageWork, Staged, run_stage};
use common::Choice;
use ruled_lanes::{Giver, Seat, Taker, Tickets, link};
use std::alloc::Global;
use std::snapshot::Snapshot;
use std::sync::Wait;
use std::thread::{Promise, PromisedHandle, Scope, Threads};
use streams::piece_buffer;

/// A stage between the first and the last that does not run yet: its scratch, and its ends of two links.
#[derive(Drop)]
pub struct MiddleStage<A: Staged, M: Drop + Send> {
    pub scratch: A::Scratch,
    pub taker: Taker<Message<A, M>>,
    pub giver: Giver<Message<A::Next, M>>,
}

/// The last stage of a lane that does not run yet: its scratch, and its end of a link.
#[derive(Drop)]
pub struct LastStage<A: Staged, M: Drop + Send> {
    pub scratch: A::Scratch,
    pub taker: Taker<Message<A, M>>,
}

/// The four stages of a lane that do not run yet. A link leads from each to the next.
#[derive(Drop)]
pub struct Stages<L: LaneKind> {
    pub read: FirstStage<L::Framed, L::End>,
    pub embed: MiddleStage<L::Framed, L::End>,
    pub shape: MiddleStage<L::Embedded, L::End>,
    pub draw: LastStage<L::Shaped, L::End>,
}

/// Makes the four stages of lane `lane`, which draws files by `seat`, with empty links that hold at most `capacity`
/// messages each; starts none of them. `Memory` if there is no memory: `seat` is then dropped.
pub fn new_stages<L: LaneKind>(
    kind: &L,
    alloc: Global,
    capacity: u32,
    lane: u32,
    seat: Seat,
) -> Result<Stages<L>, LaneFault>
    requires least { 1 ≤ capacity }
    requires most { capacity ≤ MAX_CAPACITY }
    ensures seat { IfOk result (λ stages. stages.read.seat ≡ seat) }
    ensures room { IfOk result (λ stages. vec_len stages.read.buffer ≡ PIECE) }
    ensures framed { IfOk result (λ stages. IsNewLink capacity stages.read.giver stages.embed.taker) }
    ensures embedded { IfOk result (λ stages. IsNewLink capacity stages.embed.giver stages.shape.taker) }
    ensures shaped { IfOk result (λ stages. IsNewLink capacity stages.shape.giver stages.draw.taker) }
{
    let buffer = piece_buffer(alloc)?;
    let LaneScratch { embed, shape, draw } = kind.scratch(alloc, capacity)?;
    let (giver, framed) = link(alloc, capacity)?;
    let (embedded_giver, embedded) = link(alloc, capacity)?;
    let (shaped_giver, shaped) = link(alloc, capacity)?;
    let read = FirstStage {
        lane,
        seat,
        buffer,
        giver,
    };
    let embed = MiddleStage {
        scratch: embed,
        taker: framed,
        giver: embedded_giver,
    };
    let shape = MiddleStage {
        scratch: shape,
        taker: embedded,
        giver: shaped_giver,
    };
    Ok(Stages {
        read,
        embed,
        shape,
        draw: LastStage {
            scratch: draw,
            taker: shaped,
        },
    })
}

/// What the thread of a lane's first stage promises of the end and the seat that it returns.
#[derive(Drop)]
pub struct ReadPromise<A: Numbered, M: Drop + Send, O: Opener> {
    pub choice: Choice,
    pub opener: Snapshot<O>,
    pub tickets: Snapshot<Tickets>,
    pub giver: Snapshot<Giver<Message<A, M>>>,
}

impl<A: Numbered, M: Drop + Send, O: Opener> Promise<Result<(Giver<Message<A, M>>, Seat), Gone>>
    for ReadPromise<A, M, O> {
    ghost kept_by = { λ p result. IfOk result (λ ends.
        ReadsSeat A.about p.choice (O.meaning p.opener.value) p.tickets.value p.giver.value ends.0 ends.1) };
}

/// The handle of a first stage that runs in a thread of its own.
pub type StartedRead<A, M, O> = PromisedHandle<
    Result<(Giver<Message<A, M>>, Seat), Gone>,
    ReadPromise<A, M, O>,
>;

/// What the thread of a stage promises of the ends that it returns.
#[derive(Drop)]
pub struct StagePromise<A: Staged, M: Drop + Send> {
    pub taker: Snapshot<Taker<Message<A, M>>>,
    pub giver: Snapshot<Giver<Message<A::Next, M>>>,
}

impl<A: Staged, M: Drop + Send> Promise<
    Result<(Taker<Message<A, M>>, Giver<Message<A::Next, M>>), Gone>,
> for StagePromise<A, M> {
    ghost kept_by = { λ p result. IfOk result (λ ends.
        HandedOnAll A.about A.Next.about p.taker.value p.giver.value ends.0 ends.1) };
}

/// The handle of a stage that runs in a thread of its own.
pub type Started<A, M> = PromisedHandle<
    Result<(Taker<Message<A, M>>, Giver<Message<<A as Staged>::Next, M>>), Gone>,
    StagePromise<A, M>,
>;

impl<'s, R: Threads + Wait + Sync, O: Opener, G: Gate, L: LaneKind + 's> Shared<'s, R, O, G, L> {
    /// Starts the first stage of a lane in a thread of its own, and returns its handle; `None` if the thread could not
    /// be started, for example for lack of memory: `reading` is then dropped.
    pub fn start_read<'e>(
        &'s self,
        scope: &'s Scope<'s, &'e ()>,
        reading: FirstStage<L::Framed, L::End>,
    ) -> Option<StartedRead<L::Framed, L::End, O>>
        requires { StartsToRead self.now.tickets.now reading.seat (vec_len reading.buffer) reading.giver
            × AcceptsAll L.accepts L.ends (O.meaning self.now.run.now.opener.now) }
        ensures choice { IfSome result (λ started. started.promise.choice ≡ self.now.run.now.choice) }
        ensures opener { IfSome result (λ started. started.promise.opener.value ≡ self.now.run.now.opener.now) }
        ensures tickets { IfSome result (λ started. started.promise.tickets.value ≡ self.now.tickets.now) }
        ensures giver { IfSome result (λ started. started.promise.giver.value ≡ reading.giver) }
    {
        let promise = ReadPromise {
            choice: self.run.choice,
            opener: Snapshot::of(self.run.opener),
            tickets: Snapshot::of(self.tickets),
            giver: Snapshot::of(&reading.giver),
        };
        match scope.spawn_with(
            promise,
            move || -> Result<(Giver<Message<L::Framed, L::End>>, Seat), Gone>
                requires { StartsToRead self.now.tickets.now reading.seat (vec_len reading.buffer) reading.giver
                    × AcceptsAll L.accepts L.ends (O.meaning self.now.run.now.opener.now) }
            { self.run_read_stage(reading) },
        ) {
            Ok(started) => Some(started),
            Err(_) => None,
        }
    }
}

/// Starts a middle stage of lane `lane` in a thread of its own, and returns its handle; `None` if the thread could not
/// be started, for example for lack of memory: `stage` is then dropped.
pub fn start_stage<'s, 'e, R: Wait + Sync, G: Gate, A: Staged + 's, M: Drop + Send + 's>(
    scope: &'s Scope<'s, &'e ()>,
    rt: &'s R,
    alloc: Global,
    gate: &'s G,
    lane: u32,
    stage: MiddleStage<A, M>,
) -> Option<Started<A, M>>
    requires none_taken { taken stage.taker ≡ [] }
    requires none_given { given stage.giver ≡ [] }
    ensures taker { IfSome result (λ started. started.promise.taker.value ≡ stage.taker) }
    ensures giver { IfSome result (λ started. started.promise.giver.value ≡ stage.giver) }
{
    let MiddleStage {
        scratch,
        taker,
        giver,
    } = stage;
    let promise = StagePromise {
        taker: Snapshot::of(&taker),
        giver: Snapshot::of(&giver),
    };
    let work = StageWork { lane, scratch };
    match scope.spawn_with(
        promise,
        move || -> Result<(Taker<Message<A, M>>, Giver<Message<A::Next, M>>), Gone>
            requires { (taken taker ≡ []) × (given giver ≡ []) }
        { run_stage(rt, alloc, gate, work, taker, giver) },
    ) {
        Ok(started) => Some(started),
        Err(_) => None,
    }
}
