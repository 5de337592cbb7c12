//! One lane: a pipeline of four stages. The last one runs on the lane's own thread, which starts a thread for each
//! other one and settles the links between them at the end.
ghost use Rattle.std.specs.Prelude.{◌∷◌, ◌++◌, [], IfOk};
ghost use Rattle.ruled_lanes.specs.FanEnds.{given_at, GivesToSameLane};
ghost use Rattle.lanes.specs.declared.message.Message.TheVariants.{Stop};
ghost use Rattle.lanes.specs.Notes.{notes, GoOn};
ghost use Rattle.lanes.specs.Lanes.{TellsSeat, StartsLane, LeavesLane};
ghost use Rattle.lanes.specs.Accepting.{AcceptsAll};

use crate::all_lanes::{LaneFault, LaneReturn};
use crate::run::Shared;
use crate::stage::LaneKind;
use crate::starting::{LastStage, Stages, new_stages, start_stage};
use crate::{Gate, Message, Numbered, Opener, StageWork, run_until_stop};
use ruled_lanes::{LaneGiver, Seat};
use std::sync::Wait;
use std::thread::{Scope, Threads};

/// A lane that does not run: the seat by which it draws files, and its end of the fan.
#[derive(Drop)]
pub struct Lane<E: Numbered, M: Drop + Send> {
    pub seat: Seat,
    pub giver: LaneGiver<Message<E, M>>,
}

impl<'s, R: Threads + Wait + Sync, O: Opener, G: Gate, L: LaneKind + 's> Shared<'s, R, O, G, L> {
    /// Runs a lane to its end, its last stage on this thread and the others on a thread each, for which it waits, and
    /// sends one stop in any case. Returns its end of the fan, the result of that send (`Closed` if the gatherer was
    /// gone), and its seat or its fault: `Memory`, `Thread` or `LaneLost`.
    ///
    /// The result of the last stage for each record, and the end of each file, go to the giver, and after them one
    /// stop, whatever happened in the lane; the result of that last give is returned with the giver.
    pub fn run_lane<'e>(
        &'s self,
        scope: &'s Scope<'s, &'e ()>,
        lane: Lane<L::Entry, L::End>,
    ) -> LaneReturn<L::Entry, L::End>
        requires { StartsLane self.now.tickets.now lane.seat lane.giver
            × AcceptsAll L.accepts L.ends (O.meaning self.now.run.now.opener.now) }
        ensures { LeavesLane L.Entry.about self.now.run.now.choice (O.meaning self.now.run.now.opener.now) self.now.tickets.now
            lane.giver result.giver result.stop result.seat }
    {
        let Lane { seat, mut giver } = lane;
        let seat = self.run_stages(scope, seat, &mut giver);
        let stop = giver.give(self.run.rt, Message::Stop);
        LaneReturn { giver, stop, seat }
    }

    /// Makes and runs the stages of a lane, three in threads, which it joins, and the last here, which gives to
    /// `giver`; returns the lane's seat. It gives no stop. `Memory` if memory runs out for the stages, `Thread` if a
    /// thread could not be started, `LaneLost` if an end of a link or of the fan was gone: what was given stays given.
    ///
    /// It settles the links between the stages by the ends that they returned. This proves that the last stage gave all
    /// that the first one read.
    fn run_stages<'e>(
        &'s self,
        scope: &'s Scope<'s, &'e ()>,
        seat: Seat,
        giver: &mut LaneGiver<Message<L::Entry, L::End>>,
    ) -> Result<Seat, LaneFault>
        requires { StartsLane self.now.tickets.now seat giver.old
            × AcceptsAll L.accepts L.ends (O.meaning self.now.run.now.opener.now) }
        ensures same { GivesToSameLane giver.old giver.new }
        ensures goes_on { GoOn (notes L.Entry.about (given_at giver.new)) }
        ensures told { IfOk result (λ after. TellsSeat L.Entry.about self.now.run.now.choice (O.meaning self.now.run.now.opener.now) self.now.tickets.now after
            (given_at giver.new ++ Stop ∷ [])) }
    {
        let run = self.run;
        let lane = giver.lane();
        let Stages {
            read,
            embed,
            shape,
            draw: LastStage { scratch, taker },
        } = new_stages(self.kind, run.alloc, run.capacity, lane, seat)?;
        // The first stage comes last: a lane that could not be started has drawn no file.
        let Some(embed) = start_stage(scope, run.rt, run.alloc, run.gate, lane, embed) else {
            return Err(LaneFault::Thread);
        };
        let Some(shape) = start_stage(scope, run.rt, run.alloc, run.gate, lane, shape) else {
            // Without the end of its link the started stage does not wait.
            drop(read);
            let _embedded = embed.join(run.rt);
            return Err(LaneFault::Thread);
        };
        let Some(read) = self.start_read(scope, read) else {
            let _embedded = embed.join(run.rt);
            let _shaped = shape.join(run.rt);
            return Err(LaneFault::Thread);
        };
        let work = StageWork { lane, scratch };
        let drew = run_until_stop(run.rt, run.alloc, run.gate, work, taker, giver);
        let read = read.join(run.rt);
        let embed = embed.join(run.rt);
        let shape = shape.join(run.rt);
        let (framed_giver, seat) = read?;
        let (framed, embedded_giver) = embed?;
        let (embedded, shaped_giver) = shape?;
        let shaped = drew?;
        framed.settle(run.rt, framed_giver);
        embedded.settle(run.rt, embedded_giver);
        shaped.settle(run.rt, shaped_giver);
        Ok(seat)
    }
}
