//! Stages and a gathering thread whose other ends are gone: each ends, and says so.
ghost use Rattle.std.specs.Prelude.{◌≡◌, ◌≤◌, [], IfOk};
ghost use Rattle.ruled_lanes.specs.declared.channel.TheConstants.{LANES};
ghost use Rattle.ruled_lanes.specs.LinkEnds.{taken};
ghost use Rattle.ruled_lanes.specs.FanEnds.{given_at, gathered};

use answers::{Embedded, Entry, Framed, Shaped};
use lanes::{
    Drafts, Message, OpenGate, RunFault, StageWork, Staged, gather, run_stage, run_until_stop,
};
use ruled_lanes::{Gatherer, LANES, LaneGiver, Memory, Taker, fan_in, link};
use std::alloc::Global;
use std::convert::Infallible;
use std::process::Abort;
use std::sync::Wait;
use streams::Mark;
use test_tools::same;

/// The taker of a link whose giver is gone.
fn left_alone<T: Send + Drop>(alloc: Global) -> Result<Taker<T>, Memory>
    ensures { IfOk result (λ taker. taken taker ≡ []) }
{
    let (_giver, taker) = link(alloc, 1)?;
    Ok(taker)
}

/// The result of gathering that should fail.
#[derive(Clone, Copy, Debug, PartialEq, Eq)]
enum Ended {
    Well,
    NoMemory,
    Lost,
}

/// How a run ended.
fn end_of<T: Drop>(answer: Result<T, RunFault<Infallible>>) -> Ended {
    match answer {
        Ok(_) => Ended::Well,
        Err(RunFault::LaneLost) => Ended::Lost,
        Err(_) => Ended::NoMemory,
    }
}

/// What the second stage of lane 0 works with.
fn work_of_embedding(alloc: Global) -> StageWork<Framed> {
    StageWork {
        lane: 0,
        scratch: <Framed as Staged>::scratch(alloc),
    }
}

/// A stage ends if the stage before it is gone, and drops its own end.
#[test]
fn a_stage_ends_where_the_one_before_is_gone(rt: HostRuntime) {
    let taker = left_alone::<Message<Framed, ()>>(rt.alloc()).expect(&rt, "memory");
    let (giver, mut next) = link::<Message<Embedded, ()>>(rt.alloc(), 1).expect(&rt, "memory");
    let work = work_of_embedding(rt.alloc());
    let ends = run_stage(&rt, rt.alloc(), &OpenGate, work, taker, giver);
    assert!(rt; ends.is_err());
    assert!(rt; next.take(&rt).is_err());
}

/// A stage ends if the stage after it is gone, and drops its own end.
#[test]
fn a_stage_ends_where_the_next_one_is_gone(rt: HostRuntime) {
    let (mut before, taker) = link::<Message<Framed, ()>>(rt.alloc(), 2).expect(&rt, "memory");
    let (giver, _) = link::<Message<Embedded, ()>>(rt.alloc(), 1).expect(&rt, "memory");
    assert!(rt; before.give(&rt, Message::End(0, Mark::Io, ())).is_ok());
    let work = work_of_embedding(rt.alloc());
    let ends = run_stage(&rt, rt.alloc(), &OpenGate, work, taker, giver);
    assert!(rt; ends.is_err());
    assert!(rt; before.give(&rt, Message::Stop).is_err());
}

/// How gathering ends.
fn end_of_gathering<R: AllocGlobal + Wait + Abort>(
    rt: &R,
    gatherer: Gatherer<Message<Entry, ()>>,
    lanes: u32,
) -> Ended
    requires lanes { (1 ≤ lanes) × (lanes ≤ LANES) }
    requires none_gathered { gathered gatherer ≡ [] }
{
    let mut drafts = Drafts::new(rt.alloc(), 1).expect(rt, "memory");
    end_of(gather(rt, rt.alloc(), gatherer, lanes, &mut drafts))
}

/// The last stage loses the one before it and ends, and its lane still gives its stop.
fn lose_the_stage_before<R: AllocGlobal + Wait + Abort>(
    rt: &R,
    giver: &mut LaneGiver<Message<Entry, ()>>,
)
    requires { given_at giver.old ≡ [] }
{
    let taker = left_alone::<Message<Shaped, ()>>(rt.alloc()).expect(rt, "memory");
    let work = StageWork {
        lane: 0,
        scratch: <Shaped as Staged>::scratch(rt.alloc()),
    };
    let end = run_until_stop(rt, rt.alloc(), &OpenGate, work, taker, giver);
    assert!(rt; end.is_err());
    assert!(rt; giver.give(rt, Message::Stop).is_ok());
}

/// Gathering ends well if a lane that lost a stage gives its stop.
#[test]
fn a_lane_that_lost_gives_its_stop(rt: HostRuntime) {
    let (mut givers, gatherer) = fan_in::<Message<Entry, ()>>(rt.alloc(), 4).expect(&rt, "memory");
    lose_the_stage_before(&rt, &mut givers[0]);
    same!(&rt, end_of_gathering(&rt, gatherer, 1), Ended::Well);
}

/// Gathers from this many lanes, all of whose givers are gone.
fn gathered_of_none<R: AllocGlobal + Wait + Abort>(rt: &R, lanes: u32) -> Ended
    requires { (1 ≤ lanes) × (lanes ≤ LANES) }
{
    let (_, gatherer) = fan_in::<Message<Entry, ()>>(rt.alloc(), 1).expect(rt, "memory");
    end_of_gathering(rt, gatherer, lanes)
}

/// Gathering ends with the fault of a lost lane if all lanes are gone.
#[test]
fn gathering_ends_where_all_lanes_are_gone(rt: HostRuntime) {
    same!(&rt, gathered_of_none(&rt, 1), Ended::Lost);
    same!(&rt, gathered_of_none(&rt, LANES), Ended::Lost);
}
