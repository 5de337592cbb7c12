//! Runs whose four stages are held at once. The bytes and the texts come from the descriptions of the format and of the
//! report.

use crate::reported::{Files, QUICK, written};
use collector::{Choice, Gate, Stage, run_batch};
use std::sync::atomic::{AtomicBool, AtomicU32, Ordering};
use test_tools::{same, wait_for_count};

/// Holds a call of each stage, each at its own record, until all four are made.
#[derive(Drop)]
struct HoldsEach {
    calls: AtomicU32,
    ran_out: AtomicBool,
}

impl HoldsEach {
    /// A gate that no stage has come to.
    fn new() -> HoldsEach {
        HoldsEach {
            calls: AtomicU32::new(0),
            ran_out: AtomicBool::new(false),
        }
    }

    /// Waits until four calls are made, and notes if a million turns were too few.
    fn meet(&self) {
        self.calls.fetch_add(1, Ordering::SeqCst);
        wait_for_count(&self.calls, 4, &self.ran_out);
    }

    /// The number of calls made, and whether one waited too long.
    fn told(&self) -> (u32, bool) {
        let calls = self.calls.load(Ordering::SeqCst);
        (calls, self.ran_out.load(Ordering::SeqCst))
    }
}

impl Gate for HoldsEach {
    fn pass(&self, _lane: u32, stage: Stage, ordinal: u32) {
        match (stage, ordinal) {
            (Stage::Read, 3) | (Stage::Embed, 2) | (Stage::Shape, 1) | (Stage::Draw, 0) => {
                self.meet()
            }
            _ => {}
        }
    }
}

const FOUR_TRIANGLES: Files = Files {
    files: &[
        b">>planar_code<<\x03\x02\x03\x00\x03\x01\x00\x01\x02\x00\x03\x02\x03\x00\x03\x01\x00\x01\x02\x00\
        \x03\x02\x03\x00\x03\x01\x00\x01\x02\x00\x03\x02\x03\x00\x03\x01\x00\x01\x02\x00",
    ],
    fault: None,
    reads: usize::MAX,
};

const OF_FOUR_TRIANGLES: &[u8] = b"file 1\n\
    graph 1 ok n=3 m=3 f=2 bends=1 drawn=yes\n\
    graph 2 ok n=3 m=3 f=2 bends=1 drawn=yes\n\
    graph 3 ok n=3 m=3 f=2 bends=1 drawn=yes\n\
    graph 4 ok n=3 m=3 f=2 bends=1 drawn=yes\n\
    end complete graphs=4\n";

/// The stages of a lane work at once, each on its own record: no thread serves two of them.
#[test]
fn gate_holds_each(rt: HostRuntime) {
    let gate = HoldsEach::new();
    let (alloc, choice) = (rt.alloc(), Choice::First);
    let run = run_batch(&rt, alloc, &FOUR_TRIANGLES, 1, 1, 1, choice, &gate);
    same!(&rt, run.expect(&rt, "a batch").files(), 1);
    same!(&rt, gate.told(), (4, false));
}

/// The stages of a lane work at once in a run with streamed output, too.
#[test]
fn gate_holds_each_of_a_text(rt: HostRuntime) {
    let gate = HoldsEach::new();
    let room = (211, 211);
    let (ended, text) = written(&rt, &FOUR_TRIANGLES, 1, 1, QUICK, &gate, room);
    same!(&rt, ended, Ok(0));
    same!(&rt, text.text(), OF_FOUR_TRIANGLES);
    same!(&rt, gate.told(), (4, false));
}
