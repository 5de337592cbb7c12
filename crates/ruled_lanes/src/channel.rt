//! What links, fans and tickets share: their limits, the reasons why a call is refused, and exponential backoff
//! (Anderson 1990) before a thread sleeps until it is woken, since waking it takes longer. Also the creation of links
//! and fans.
ghost use Rattle.std.specs.Prelude.{◌<◌, ◌≡◌, ◌≤◌, [], IfOk, All, vec_len};
ghost use Rattle.ruled_lanes.specs.declared.channel.TheConstants.{TRIES};
ghost use Rattle.ruled_lanes.specs.LinkEnds.{given, taken, capacity_of, AreEnds};
ghost use Rattle.ruled_lanes.specs.FanEnds.{given_at, gathered, capacity_of_fan, AreGiversOf, StandInOrder};

use crate::fan_channel::{FanLog, Fanned, Gatherer, LaneGiver, NewLane};
use crate::link_channel::{Giver, Linked, Log, Roles, Taker};
use crossbeam_channel::bounded_with;
use std::alloc::{AllocError, Global};
use std::sync::Wait;
use std::sync::atomic::AtomicU64;
use std::time::Duration;
use std::{fmt, hint};
use thiserror::Error;

/// The number of lanes of a fan.
pub const LANES: u32 = 8;

/// The maximum number of items that a link or a fan holds.
pub const MAX_CAPACITY: u32 = 64;

/// The maximum limit of tickets: they deal at most this many numbers.
pub const MAX_TICKETS: u32 = 256;

/// The error that the other end of a channel is gone.
///
/// A refused give returns its item in it, a refused take the empty value. Only the ends of links and fans make one, so
/// whoever has one was refused.
#[derive(Clone, PartialEq, Eq, Drop, Error)]
#[error("the other end of the channel is gone")]
pub struct Closed<T>(pub(crate) T);

impl<T> Closed<T> {
    ghost use Rattle.std.specs.Prelude.{◌≡◌};
    ghost use Rattle.ruled_lanes.specs.HandedBack.{handed_back};

    /// Consumes the error and returns the item of the refused give; of a refused take, the empty value `()`.
    pub fn into_inner(self) -> T
        ensures { result ≡ handed_back self }
    {
        self.0
    }
}

impl<T> fmt::Debug for Closed<T> {
    /// Writes `Closed(..)` to `f`, without the item. `Error` if `f` refuses the text.
    fn fmt<W: fmt::Write>(&self, f: &mut fmt::Formatter<W>) -> fmt::Result {
        write!(f, "Closed(..)")
    }
}

/// The error that memory ran out for a link, a fan or tickets.
#[derive(Clone, Copy, Debug, PartialEq, Eq, Error)]
#[error("out of memory")]
pub struct Memory;

impl From<AllocError> for Memory {
    /// The error `Memory` for a failed allocation. It only converts, and cannot fail.
    fn from(_refused: AllocError) -> Memory {
        Memory
    }
}

/// The number of attempts of a call, while its channel is full or empty, before its thread sleeps until it is woken.
pub(crate) const TRIES: u32 = 13;

/// The number of first attempts after which the thread spins; after each later one it naps.
const SPINS: u32 = 8;

/// The number of spin-loop hints after each of the first attempts. Each takes 10 to 40 ns.
const HINTS: u32 = 2;

/// The length of the first nap, in microseconds. Each nap is twice as long as the one before, so the five take 30 to
/// 480.
const NAP: u64 = 30;

/// The total length of the naps after all attempts, in microseconds.
pub(crate) const ALL_NAPS: u64 = (NAP << (TRIES - SPINS)) - NAP;

/// Pauses this thread after attempt number `tried`, counted from 0 and below `TRIES`: spins after each of the first
/// `SPINS` attempts, and naps after each later one, including the last, each time twice as long. It allocates nothing.
pub(crate) fn back_off<R: Wait>(rt: &R, tried: u32)
    requires tried { tried < TRIES }
{
    if tried < SPINS {
        for _ in 0..HINTS {
            hint::spin_loop();
        }
    } else {
        nap(rt, NAP << (tried - SPINS));
    }
}

/// The total length of the naps before attempt number `tried`, counted from 0, in microseconds: 0 up to attempt
/// `SPINS`.
pub(crate) fn napped_before(tried: u32) -> u64
    requires tried { tried < TRIES }
{
    if tried <= SPINS {
        0
    } else {
        (NAP << (tried - SPINS)) - NAP
    }
}

/// Sleeps for `micros` microseconds; the thread wakes by itself, so that the other end need not wake it. It allocates
/// nothing.
pub(crate) fn nap<R: Wait>(rt: &R, micros: u64) {
    AtomicU64::new(0).park_timeout(rt, 0, Duration::from_micros(micros));
}

/// Allocates an empty link that holds at most `capacity` items, and returns its two ends: the giver and the taker.
/// `Memory` if there is no memory for them.
///
/// Nothing was given or taken.
pub fn link<T: Send + Drop>(alloc: Global, capacity: u32) -> Result<(Giver<T>, Taker<T>), Memory>
    requires capacity { (1 ≤ capacity) × (capacity ≤ MAX_CAPACITY) }
    ensures room { IfOk result (λ r. capacity_of r.0 ≡ capacity) }
    ensures ends { IfOk result (λ r. AreEnds r.0 r.1) }
    ensures unused { IfOk result (λ r. (given r.0 ≡ []) × (taken r.1 ≡ [])) }
{
    let (sender, receiver, mut pass) = bounded_with::<T, Log<T>, Linked, Global>(
        alloc,
        capacity as usize,
    )?;
    let takes = sender.another::<Roles>(&mut pass);
    Ok((Giver::of(sender, pass), Taker::of(receiver, takes)))
}

/// Allocates an empty fan that holds at most `capacity` items, and returns a giver for each of its `LANES` lanes, in
/// order, and the one gatherer. `Memory` if there is no memory for them.
///
/// Nothing was given or taken.
pub fn fan_in<T: Send + Drop>(
    alloc: Global,
    capacity: u32,
) -> Result<(Vec<LaneGiver<T>>, Gatherer<T>), Memory>
    requires capacity { (1 ≤ capacity) × (capacity ≤ MAX_CAPACITY) }
    ensures room { IfOk result (λ r. capacity_of_fan r.1 ≡ capacity) }
    ensures ends { IfOk result (λ r. AreGiversOf r.1 r.0.items) }
    ensures lanes { IfOk result (λ r. (vec_len r.0 ≡ LANES) × StandInOrder r.0.items) }
    ensures unused { IfOk result (λ r. All (λ g. given_at g ≡ []) r.0.items × (gathered r.1 ≡ [])) }
{
    let (sender, receiver, mut pass) = bounded_with::<(u32, T), FanLog<T>, Fanned, Global>(
        alloc,
        capacity as usize,
    )?;
    let mut givers = Vec::with_capacity(alloc, LANES as usize)?;
    for lane in 0..LANES {
        let own = sender.try_clone()?;
        let gives = sender.another::<NewLane>(&mut pass);
        givers.push_reserved(LaneGiver::of(own, gives, lane));
    }
    Ok((givers, Gatherer::of(receiver, pass)))
}
