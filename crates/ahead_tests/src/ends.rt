//! How tests look at the answers of ends, and at threads that have one.

use ruled_lanes::Closed;
use std::process::Abort;
use std::thread::{JoinHandle, Threads};
use test_tools::same;

/// The answer of a call on a link or a fan, or the value that a refused call returned.
pub(crate) fn answer<T, U>(got: Result<T, Closed<U>>) -> Result<T, U> {
    match got {
        Ok(value) => Ok(value),
        Err(closed) => Err(closed.into_inner()),
    }
}

/// Waits for a thread, and checks that its number is between these two, inclusive.
pub(crate) fn joins<R: Threads + Abort>(rt: &R, child: JoinHandle<u32>, least: u32, most: u32) {
    let number = child.join(rt);
    same!(rt, number.max(least).min(most), number);
}
