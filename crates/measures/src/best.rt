//! How long the best outer face takes.

use crate::files::{plane_of, records_of};
use anyhow::{Result, ensure};
use faces::Plane;
use ortho_rep::{best_shape, certify, is_shape, least_shape};
use planar_code::Record;
use std::rt::{Clock, Files};
use std::time::{Duration, Instant};

/// What was seen of a graph or of a file: how long a least shape, the best shape, and a least shape anew for each outer
/// face took, and the fewest bends with the outer face as it is and with the best one.
#[derive(Clone, Copy)]
struct Seen {
    least: Duration,
    best: Duration,
    anew: Duration,
    first_bends: u64,
    best_bends: u64,
}

impl Seen {
    const NOTHING: Seen = Seen {
        least: Duration::ZERO,
        best: Duration::ZERO,
        anew: Duration::ZERO,
        first_bends: 0,
        best_bends: 0,
    };

    /// The sum, part by part.
    fn plus(self, other: Seen) -> Seen {
        Seen {
            least: self.least.saturating_add(other.least),
            best: self.best.saturating_add(other.best),
            anew: self.anew.saturating_add(other.anew),
            first_bends: self.first_bends.wrapping_add(other.first_bends),
            best_bends: self.best_bends.wrapping_add(other.best_bends),
        }
    }

    /// The lesser times.
    fn least(self, other: Seen) -> Seen {
        Seen {
            least: self.least.min(other.least),
            best: self.best.min(other.best),
            anew: self.anew.min(other.anew),
            ..other
        }
    }
}

/// Prints how many graphs and bends a file has, and how long its shapes took, each graph by the least of these rounds.
pub fn tell_best<R: Files + Print + AllocGlobal + Clock>(
    rt: &R,
    rounds: u32,
    name: &str,
) -> Result<()> {
    let records = records_of(rt, name)?;
    let mut sum = Seen::NOTHING;
    for record in &records {
        sum = sum.plus(seen_of(rt, rounds, record)?);
    }
    let graphs = records.len();
    print!(rt;
        "graphs={graphs} first_bends={} best_bends={}",
        sum.first_bends, sum.best_bends
    )?;
    if rounds > 0 {
        let (least, best, anew) = (sum.least, sum.best, sum.anew);
        print!(rt;
            " least={} best={} anew={}",
            least.as_nanos(),
            best.as_nanos(),
            anew.as_nanos()
        )?;
    }
    println!(rt; "")?;
    Ok(())
}

/// What is seen of a graph in these rounds.
fn seen_of<R: AllocGlobal + Clock>(rt: &R, rounds: u32, record: &Record) -> Result<Seen> {
    let mut plane = plane_of(rt.alloc(), record)?;
    let mut seen = round(rt, &mut plane)?;
    for _ in 1..rounds {
        seen = seen.least(round(rt, &mut plane)?);
    }
    Ok(seen)
}

/// Makes a face the outer one, if there is one of this number.
fn set_outer(plane: &mut Plane, face: u16) {
    if face < plane.face_count() {
        plane.set_outer(face);
    }
}

/// Finds a least shape, the best one, and one anew for each face. The outer face is then what it was.
fn round<R: AllocGlobal + Clock>(rt: &R, plane: &mut Plane) -> Result<Seen> {
    let alloc = rt.alloc();
    let outer = plane.outer();
    let start = Instant::now(rt)?;
    let (first, _prices) = least_shape(alloc, plane)?;
    let found = Instant::now(rt)?;
    let (shape, prices) = best_shape(alloc, plane)?;
    let chosen = Instant::now(rt)?;
    ensure!(is_shape(plane, &shape), "no orthogonal representation");
    ensure!(certify(plane, &shape, &prices), "the prices prove nothing");
    let begun = Instant::now(rt)?;
    for face in 0..plane.face_count() {
        set_outer(plane, face);
        let (_shape, _prices) = least_shape(alloc, plane)?;
    }
    let ended = Instant::now(rt)?;
    set_outer(plane, outer);
    Ok(Seen {
        least: found.duration_since(start),
        best: chosen.duration_since(found),
        anew: ended.duration_since(begun),
        first_bends: u64::from(first.bends()),
        best_bends: u64::from(shape.bends()),
    })
}
