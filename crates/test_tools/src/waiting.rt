//! How a thread of a test waits for others.

use std::sync::atomic::{AtomicBool, AtomicU32, Ordering};
use std::thread;

/// How often each turn of a wait yields: on a shared machine a thread may be away for a million yields.
const YIELDS: u32 = 16;

/// Waits until a counter is at least `least`; sets `ran_out` if a million turns were too few.
pub fn wait_for_count(counter: &AtomicU32, least: u32, ran_out: &AtomicBool) {
    for _ in 0..1_000_000 {
        if counter.load(Ordering::SeqCst) >= least {
            return;
        }
        for _ in 0..YIELDS {
            thread::yield_now();
        }
    }
    ran_out.store(true, Ordering::SeqCst);
}
