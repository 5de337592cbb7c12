//! Running all lanes of a run: the fan to which they give is created, each lane runs in a thread of its own, and the
//! calling thread joins them.
ghost use Rattle.std.specs.Prelude.{◌≡◌, ◌≤◌, ◌+◌, [], IfOk, OnOk, vec_len, ℕ, List, All, IfErr, true, ◌<◌, map};
ghost use Rattle.ruled_lanes.specs.declared.channel.TheConstants.{LANES, MAX_CAPACITY, MAX_TICKETS};
ghost use Rattle.ruled_lanes.specs.FanEnds.{gathered, capacity_of_fan, given_at};
ghost use Rattle.lanes.specs.Running.{AreNumbered, IsIdle, AreMatched, HasEnded, StartsRun, LeavesRun};
ghost use Rattle.lanes.specs.Lanes.{LeavesLane, StartsLane};
ghost use Rattle.ruled_lanes.specs.TicketProtocol.{times};
ghost use Rattle.ruled_lanes.specs.TicketSeats.{all_drawn, has_ended, IsSeatOf, IsUnused};
ghost use Rattle.lanes.specs.Notes.{Note, notes};
ghost use Rattle.lanes.specs.Files.{HasFile, AreToldWhole};
ghost use Rattle.lanes.specs.Fans.{untagged, HaveStopped};
ghost use Rattle.lanes.specs.Faults.{HoldsOnFault, IsOfLanes};
ghost use Rattle.lanes.specs.Accepting.{AcceptsFiles, AcceptsAll};

use crate::lane::Lane;
use crate::run::{Run, Shared};
use crate::stage::LaneKind;
use crate::{Consumer, Gate, Message, Numbered, Opener, RunFault, gather};
use common::Choice;
use ruled_lanes::{Closed, Gatherer, LaneGiver, Seat, Tickets, fan_in};
use std::alloc::Global;
use std::convert::Infallible;
use std::snapshot::Snapshot;
use std::sync::Wait;
use std::thread;
use std::thread::{Promise, PromisedHandle, Scope, Threads, join_promised};

/// The ends of a fan: the givers of the lanes that run, those of the other lanes, and the gatherer.
#[derive(Drop)]
pub struct Fan<E: Numbered, M: Drop + Send> {
    pub givers: Vec<LaneGiver<Message<E, M>>>,
    pub idle: Vec<LaneGiver<Message<E, M>>>,
    pub gatherer: Gatherer<Message<E, M>>,
}

/// A new empty fan that holds at most `capacity` messages: the givers of its first `lanes` lanes, which are to run,
/// those of its other lanes, both in the order of the lanes, and the gatherer. `Memory` if there is no memory for it.
pub fn new_fan<E: Numbered, M: Drop + Send>(
    alloc: Global,
    capacity: u32,
    lanes: u32,
) -> Result<Fan<E, M>, LaneFault>
    requires least { 1 ≤ capacity }
    requires most { capacity ≤ MAX_CAPACITY }
    requires few { lanes ≤ LANES }
    ensures room { IfOk result (λ fan. capacity_of_fan fan.gatherer ≡ capacity) }
    ensures count { IfOk result (λ fan. vec_len fan.givers ≡ lanes) }
    ensures lanes { IfOk result (λ fan. vec_len fan.givers + vec_len fan.idle ≡ LANES) }
    ensures givers { IfOk result (λ fan. AreNumbered (IsIdle fan.gatherer) 0 fan.givers.items) }
    ensures idle { IfOk result (λ fan. AreNumbered (IsIdle fan.gatherer) (vec_len fan.givers) fan.idle.items) }
    ensures none_gathered { IfOk result (λ fan. gathered fan.gatherer ≡ []) }
{
    let (mut givers, gatherer) = fan_in(alloc, capacity)?;
    let idle = givers.split_off(lanes as usize)?;
    Ok(Fan {
        givers,
        idle,
        gatherer,
    })
}

/// The fault of a lane, which has no consumer.
pub type LaneFault = RunFault<Infallible>;

/// The return value of a lane's thread: its end of the fan, the result of giving its stop, and its seat or its fault.
#[derive(Drop)]
pub struct LaneReturn<E: Numbered, M: Drop + Send> {
    pub giver: LaneGiver<Message<E, M>>,
    /// Only a refused give makes the error, so that no lane can omit its stop.
    pub stop: Result<(), Closed<Message<E, M>>>,
    pub seat: Result<Seat, LaneFault>,
}

/// What the thread of a lane promises of the end and the seat that it returns.
#[derive(Drop)]
pub struct LanePromise<E: Numbered, M: Drop + Send, O: Opener> {
    pub choice: Choice,
    pub opener: Snapshot<O>,
    pub tickets: Snapshot<Tickets>,
    pub giver: Snapshot<LaneGiver<Message<E, M>>>,
}

impl<E: Numbered, M: Drop + Send, O: Opener> Promise<LaneReturn<E, M>> for LanePromise<E, M, O> {
    ghost kept_by = { λ p end. LeavesLane E.about p.choice (O.meaning p.opener.value) p.tickets.value p.giver.value end.giver end.stop end.seat };
}

/// The handle of a running lane.
pub type Running<E, M, O> = PromisedHandle<LaneReturn<E, M>, LanePromise<E, M, O>>;

/// Waits until the threads of all these lanes have ended, and drops what they return. There is no error: the fault of a
/// lane is dropped too.
///
/// What a thread returns is dropped only if it is joined: a lane's end of the fan keeps the messages that are left in
/// it.
pub fn join_and_drop_lanes<E: Numbered, M: Drop + Send, R: Threads, O: Opener>(
    rt: &R,
    running: Vec<Running<E, M, O>>,
) {
    for handle in running {
        let _ended = handle.join(rt);
    }
}

/// Waits until the threads of all these lanes have ended; returns what each returns, in the order of `running`.
/// `Memory` if there is no memory for that list: the threads have then ended too, and what they return is dropped.
fn join_lanes<E: Numbered, M: Drop + Send, R: Threads, O: Opener, F: Drop>(
    rt: &R,
    running: Vec<Running<E, M, O>>,
) -> Result<Vec<LaneReturn<E, M>>, RunFault<F>>
    ensures count { IfOk result (λ ended. vec_len ended ≡ vec_len running) }
    ensures kept { IfOk result (λ ended. AreMatched (λ r end. LeavesLane E.about r.promise.choice (O.meaning r.promise.opener.value) r.promise.tickets.value
        r.promise.giver.value end.giver end.stop end.seat) running.items ended.items) }
    ensures failed { IfErr result IsOfLanes }
{
    match join_promised(rt, running) {
        Ok(ended) => Ok(ended),
        Err(refused) => {
            join_and_drop_lanes(rt, refused.value);
            Err(RunFault::Memory)
        }
    }
}

impl<R: Threads + Wait + Sync, O: Opener, G: Gate, L> Shared<'_, R, O, G, L> {
    /// Settles the fan with the givers of all lanes: of those that ran, in `ended`, and of the others, in `givers`.
    /// Returns the seats of those that ran, in order, or the fault of the first that failed (`LaneLost` if its stop was
    /// refused), or `Memory` if there is no memory for the lists; an error drops all three arguments.
    ///
    /// This proves that the messages taken of each lane are all that it gave, and that all messages of a file drawn by
    /// one seat arrived. `Memory` also if there is no memory for the lists.
    fn settle_lanes<E: Numbered, M: Drop + Send>(
        &self,
        gatherer: Gatherer<Message<E, M>>,
        ended: Vec<LaneReturn<E, M>>,
        mut givers: Vec<LaneGiver<Message<E, M>>>,
    ) -> Result<Vec<Seat>, LaneFault>
        requires some { 1 ≤ vec_len ended }
        requires lanes { vec_len ended + vec_len givers ≡ LANES }
        requires ended { AreNumbered (λ lane end. HasEnded E.about gatherer self.now.run.now.choice (O.meaning self.now.run.now.opener.now) self.now.tickets.now lane
            end.giver end.stop end.seat) 0 ended.items }
        requires idle { AreNumbered (IsIdle gatherer) (vec_len ended) givers.items }
        requires stopped { HaveStopped E.about (vec_len ended) (gathered gatherer) }
        ensures count { IfOk result (λ seats. vec_len seats ≡ vec_len ended) }
        ensures seats { IfOk result (λ seats. All (λ s. IsSeatOf self.now.tickets.now s × (has_ended s ≡ true)) seats.items) }
        ensures told { IfOk result (λ seats. (file : ℕ) → times file (all_drawn seats.items) ≡ 1
            → HasFile self.now.run.now.choice (O.meaning self.now.run.now.opener.now file) file (notes E.about (untagged (gathered gatherer)))) }
    {
        let mut seats = Vec::with_capacity(self.run.alloc, ended.len())?;
        givers.reserve(ended.len())?;
        for end in ended {
            let LaneReturn { giver, stop, seat } = end;
            stop?;
            let seat = seat?;
            seats.push_reserved(seat);
            givers.push_reserved(giver);
        }
        gatherer.settle(self.run.rt, givers);
        Ok(seats)
    }
}

/// The handles of lanes that run.
type RunningLanes<E, M, O> = Vec<Running<E, M, O>>;

/// Runs the lanes of `run`, each in threads of its own, passes their messages to `consumer` on this thread, and waits
/// until all have ended. Returns the consumer with what it took in, and replaces `ran` by the result: `Ok`, or
/// `Memory`, `LaneLost`, `Thread` or a refusal of the consumer.
///
/// The result is not returned in a pair with the consumer: what a reference in the consumer refers to would then not be
/// known.
///
/// The lanes draw the run's files as they become free, and give to one fan; this thread passes its messages on. `kind`
/// says what they do. If the run ends well, the consumer holds all of each file under the run's choice of the outer
/// face.
///
/// # Errors
///
/// `Memory`: no memory for links, the fan, tickets, buffers, or the lists of lanes. `LaneLost`: an end of a link or of
/// the fan was gone. `Thread`: a thread could not be started. Otherwise the fault is the consumer's.
pub fn run_lanes<
    'r,
    L: LaneKind,
    C: Consumer<L::Entry, L::End>,
    R: Threads + Wait + Sync,
    O: Opener,
    G: Gate,
>(
    run: &'r Run<'r, R, O, G>,
    kind: &'r L,
    consumer: C,
    ran: &mut Result<(), RunFault<C::Refusal>>,
) -> C
    requires few_files { run.now.files ≤ MAX_TICKETS }
    requires some { 0 < run.now.lanes }
    requires few { run.now.lanes ≤ LANES }
    requires empty { C.holds consumer [] }
    requires accepts { AcceptsFiles L.accepts L.ends (O.meaning run.now.opener.now) }
    ensures told { OnOk ran.new ((ns : List Note) × C.holds result ns × AreToldWhole run.now.choice (O.meaning run.now.opener.now) run.now.files ns) }
    ensures failed { IfErr ran.new (HoldsOnFault (C.gave_up result) (C.holds result)) }
    ensures stays { C.stays consumer result }
{
    let Ok((tickets, seats)) = Tickets::new(run.alloc, run.files, run.lanes) else {
        *ran = Err(RunFault::Memory);
        return consumer;
    };
    let Ok(fan) = new_fan::<L::Entry, L::End>(run.alloc, run.capacity, run.lanes) else {
        *ran = Err(RunFault::Memory);
        return consumer;
    };
    let shared = &Shared {
        run,
        tickets: &tickets,
        kind,
    };
    let (consumer, ended) = thread::scope(
        thread::scope_env(),
        run.rt,
        move |scope| -> (C, Result<Vec<Seat>, RunFault<C::Refusal>>)
            requires { StartsRun C.holds shared.now.tickets.now seats fan.givers fan.idle fan.gatherer consumer
                × AcceptsAll L.accepts L.ends (O.meaning shared.now.run.now.opener.now) }
            ensures { LeavesRun C.holds C.gave_up C.stays shared.entry.now.run.now.choice (O.meaning shared.entry.now.run.now.opener.now) shared.entry.now.tickets.now (vec_len seats) consumer result.0 result.1 }
        {
            let mut consumer = consumer;
            let ended = shared.start_and_gather(scope, seats, fan, &mut consumer);
            (consumer, ended)
        },
    );
    match ended {
        Ok(seats) => {
            tickets.close(seats);
            *ran = Ok(());
            consumer
        }
        Err(fault) => {
            *ran = Err(fault);
            consumer
        }
    }
}

impl<'s, R: Threads + Wait + Sync, O: Opener, G: Gate, L: LaneKind + 's> Shared<'s, R, O, G, L> {
    /// Runs a lane for each seat in threads of its own, passes all their messages to `consumer`, and waits until the
    /// threads have ended, also after an error. Returns the seats in the order of the lanes; `Memory`, `LaneLost`,
    /// `Thread` or a refusal of `consumer`, which then keeps what it took in.
    ///
    /// The messages of a lane end with its stop. Then the consumer holds all of each file that one seat drew.
    fn start_and_gather<'e, C: Consumer<L::Entry, L::End>>(
        &'s self,
        scope: &'s Scope<'s, &'e ()>,
        seats: Vec<Seat>,
        fan: Fan<L::Entry, L::End>,
        consumer: &mut C,
    ) -> Result<Vec<Seat>, RunFault<C::Refusal>>
        requires { StartsRun C.holds self.now.tickets.now seats fan.givers fan.idle fan.gatherer consumer.old
            × AcceptsAll L.accepts L.ends (O.meaning self.now.run.now.opener.now) }
        ensures { LeavesRun C.holds C.gave_up C.stays self.now.run.now.choice (O.meaning self.now.run.now.opener.now) self.now.tickets.now (vec_len seats) consumer.old consumer.new result }
    {
        let Fan {
            givers,
            idle,
            gatherer,
        } = fan;
        let running = match self.start_lanes(scope, seats, givers) {
            Ok(running) => running,
            Err((running, fault)) => {
                // Without the gatherer no lane waits for room in the fan.
                drop(gatherer);
                join_and_drop_lanes(self.run.rt, running);
                return Err(fault.of_any_consumer());
            }
        };
        let lanes = running.len() as u32;
        let taken = gather(self.run.rt, self.run.alloc, gatherer, lanes, consumer);
        let ended = join_lanes(self.run.rt, running);
        let gatherer = taken?;
        let ended = ended?;
        match self.settle_lanes(gatherer, ended, idle) {
            Ok(seats) => Ok(seats),
            Err(fault) => Err(fault.of_any_consumer()),
        }
    }

    /// Starts a lane in a thread of its own for each of `givers`, in order, with a seat from the end of `seats`;
    /// returns the handles of the lanes in that order. An error has the handles of the lanes started before, and
    /// `Thread` if a thread could not be started, or `Memory` if there is no memory for the list of handles.
    fn start_lanes<'e>(
        &'s self,
        scope: &'s Scope<'s, &'e ()>,
        mut seats: Vec<Seat>,
        givers: Vec<LaneGiver<Message<L::Entry, L::End>>>,
    ) -> Result<RunningLanes<L::Entry, L::End, O>, (RunningLanes<L::Entry, L::End, O>, LaneFault)>
        requires each { vec_len givers ≡ vec_len seats }
        requires seats { All (IsSeatOf self.now.tickets.now) seats.items }
        requires unused { All IsUnused seats.items }
        requires none_given { All (λ giver. given_at giver ≡ []) givers.items }
        requires accepts { AcceptsAll L.accepts L.ends (O.meaning self.now.run.now.opener.now) }
        ensures count { IfOk result (λ running. vec_len running ≡ vec_len seats) }
        ensures givers { IfOk result (λ running. map (λ r. r.promise.giver.value) running.items ≡ givers.items) }
        ensures choice { IfOk result (λ running. All (λ r. r.promise.choice ≡ self.now.run.now.choice) running.items) }
        ensures opener { IfOk result (λ running. All (λ r. r.promise.opener.value ≡ self.now.run.now.opener.now) running.items) }
        ensures tickets { IfOk result (λ running. All (λ r. r.promise.tickets.value ≡ self.now.tickets.now) running.items) }
    {
        let Ok(mut running) = Vec::with_capacity(self.run.alloc, seats.len()) else {
            return Err((Vec::new(self.run.alloc), LaneFault::Memory));
        };
        for giver in givers {
            let Some(seat) = seats.pop() else {
                unreachable!()
            };
            let promise = LanePromise {
                choice: self.run.choice,
                opener: Snapshot::of(self.run.opener),
                tickets: Snapshot::of(self.tickets),
                giver: Snapshot::of(&giver),
            };
            let lane = Lane { seat, giver };
            match scope.spawn_with(
                promise,
                move || -> LaneReturn<L::Entry, L::End>
                    requires { StartsLane self.now.tickets.now lane.seat lane.giver
                        × AcceptsAll L.accepts L.ends (O.meaning self.now.run.now.opener.now) }
                { self.run_lane(scope, lane) },
            ) {
                Ok(started) => running.push_reserved(started),
                Err(_) => return Err((running, LaneFault::Thread)),
            }
        }
        Ok(running)
    }
}
