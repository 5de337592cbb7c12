//! Which lanes pass the gate: each stage on its own one.
ghost use Rattle.std.specs.Prelude.{false, None};
ghost use Rattle.lanes.specs.Opening.{Silent};

use collector::{Choice, Gate, OpenFault, Opener, Stage, Tap, TapFault, run_batch};
use std::alloc::Global;
use std::sync::atomic::{AtomicBool, AtomicU32, Ordering};
use std::test::Fail;
use test_tools::{same, wait_for_count};

/// How often each stage of a lane has passed the gate.
#[derive(Drop)]
struct Passed {
    read: AtomicU32,
    embed: AtomicU32,
    shape: AtomicU32,
    draw: AtomicU32,
}

impl Passed {
    /// Counts of a lane that has passed no gate.
    fn never() -> Passed {
        Passed {
            read: AtomicU32::new(0),
            embed: AtomicU32::new(0),
            shape: AtomicU32::new(0),
            draw: AtomicU32::new(0),
        }
    }

    /// How often a stage has passed its gate.
    fn of(&self, stage: Stage) -> &AtomicU32 {
        match stage {
            Stage::Read => &self.read,
            Stage::Embed => &self.embed,
            Stage::Shape => &self.shape,
            Stage::Draw => &self.draw,
        }
    }

    /// How often each stage has passed its gate, in the order of the stages.
    fn counts(&self) -> [u32; 4] {
        [
            self.read.load(Ordering::SeqCst),
            self.embed.load(Ordering::SeqCst),
            self.shape.load(Ordering::SeqCst),
            self.draw.load(Ordering::SeqCst),
        ]
    }
}

/// Holds the first stage of each of two lanes until both have read a record, and counts the calls of each lane.
#[derive(Drop)]
struct Lanes {
    first: Passed,
    second: Passed,
    ran_out: AtomicBool,
}

impl Gate for Lanes {
    fn pass(&self, lane: u32, stage: Stage, _ordinal: u32) {
        let (own, other) = match lane {
            0 => (&self.first, &self.second),
            _ => (&self.second, &self.first),
        };
        own.of(stage).fetch_add(1, Ordering::SeqCst);
        wait_for_count(&other.read, 1, &self.ran_out);
    }
}

/// The rest of a file.
#[derive(Drop)]
struct Rest {
    rest: &'static [u8],
}

impl Tap for Rest {
    ghost to_come = { λ _. None };

    ghost fails = { λ _. false };

    fn read(&mut self, buf: &mut [u8]) -> Result<usize, TapFault> {
        let count = self.rest.len().min(buf.len());
        let (given, rest) = self.rest.split_at(count);
        buf[..count].copy_from_slice(given);
        self.rest = rest;
        Ok(count)
    }
}

/// A file of one edge, and all others of two.
#[derive(Clone, Copy)]
struct Edges;

impl Opener for Edges {
    type Source = Rest;

    ghost meaning = { λ _ _. Silent };

    fn open(&self, _alloc: Global, file: u32) -> Result<Rest, OpenFault> {
        let rest: &'static [u8] = match file {
            0 => b">>planar_code<<\x02\x02\x00\x01\x00",
            _ => b">>planar_code<<\x02\x02\x00\x01\x00\x02\x02\x00\x01\x00",
        };
        Ok(Rest { rest })
    }
}

/// Two lanes have a file each, one of a graph, the other of two, and each stage passes the gate on its own lane.
#[test]
fn stages_pass_on_their_lane(rt: HostRuntime) -> Result<(), Fail> {
    let lanes = Lanes {
        first: Passed::never(),
        second: Passed::never(),
        ran_out: AtomicBool::new(false),
    };
    let run = run_batch(&rt, rt.alloc(), &Edges, 2, 2, 16, Choice::First, &lanes);
    same!(&rt, run.is_ok(), true);
    same!(&rt, lanes.ran_out.load(Ordering::SeqCst), false);
    let [graphs, _, _, _] = lanes.first.counts();
    let others = 3u32.saturating_sub(graphs);
    same!(&rt, lanes.first.counts(), [graphs; 4]);
    same!(&rt, lanes.second.counts(), [others; 4]);
    Ok(())
}
