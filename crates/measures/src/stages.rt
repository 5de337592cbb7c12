//! How long each stage takes, from a record to a checked drawing.

ghost use Rattle.std.specs.Prelude.{IfOk};
ghost use Rattle.compact.specs.Monotone.{AreLeastPoints};
ghost use Rattle.dissect.specs.Boxed.{IsBoxed};
ghost use Rattle.ortho_rep.specs.Representation.{IsShape};
ghost use Rattle.drawing_check.specs.Draws.{HasPoints};

use crate::files::{plane_of, records_of};
use anyhow::{Result, bail, ensure};
use compact::compact;
use dissect::{Boxes, dissect};
use drawing_check::check;
use faces::Plane;
use flow_network::FaceNet;
use min_cost_flow::solve;
use ortho_rep::{Points, Shape, certify, is_shape, least_shape};
use planar_code::Record;
use std::rt::{Clock, Files};
use std::time::{Duration, Instant};

/// What was seen of a graph or of a file: how long each stage took, how many bends the shapes have, and how many
/// searches and looks at arcs the solver made. `network` and `solve` are steps of `shape`, run by themselves.
#[derive(Clone, Copy)]
struct Seen {
    trace: Duration,
    network: Duration,
    solve: Duration,
    shape: Duration,
    dissect: Duration,
    compact: Duration,
    check: Duration,
    bends: u64,
    searches: u64,
    looks: u64,
}

impl Seen {
    const NOTHING: Seen = Seen {
        trace: Duration::ZERO,
        network: Duration::ZERO,
        solve: Duration::ZERO,
        shape: Duration::ZERO,
        dissect: Duration::ZERO,
        compact: Duration::ZERO,
        check: Duration::ZERO,
        bends: 0,
        searches: 0,
        looks: 0,
    };

    /// The sum, part by part.
    fn plus(self, other: Seen) -> Seen {
        Seen {
            trace: self.trace.saturating_add(other.trace),
            network: self.network.saturating_add(other.network),
            solve: self.solve.saturating_add(other.solve),
            shape: self.shape.saturating_add(other.shape),
            dissect: self.dissect.saturating_add(other.dissect),
            compact: self.compact.saturating_add(other.compact),
            check: self.check.saturating_add(other.check),
            bends: self.bends.wrapping_add(other.bends),
            searches: self.searches.wrapping_add(other.searches),
            looks: self.looks.wrapping_add(other.looks),
        }
    }

    /// The lesser times.
    fn least(self, other: Seen) -> Seen {
        Seen {
            trace: self.trace.min(other.trace),
            network: self.network.min(other.network),
            solve: self.solve.min(other.solve),
            shape: self.shape.min(other.shape),
            dissect: self.dissect.min(other.dissect),
            compact: self.compact.min(other.compact),
            check: self.check.min(other.check),
            ..other
        }
    }
}

/// Prints how many graphs and bends a file has, and how long the stages took, each graph by the least of these rounds.
pub fn tell_stages<R: Files + Print + AllocGlobal + Clock>(
    rt: &R,
    rounds: u32,
    name: &str,
) -> Result<()> {
    let records = records_of(rt, name)?;
    let mut sum = Seen::NOTHING;
    for record in &records {
        sum = sum.plus(seen_of(rt, rounds, record)?);
    }
    let graphs = records.len();
    print!(rt; "graphs={graphs} bends={}", sum.bends)?;
    if rounds > 0 {
        print!(rt; " searches={} looks={}", sum.searches, sum.looks)?;
        print_time(rt, "trace", sum.trace)?;
        print_time(rt, "network", sum.network)?;
        print_time(rt, "solve", sum.solve)?;
        print_time(rt, "shape", sum.shape)?;
        print_time(rt, "dissect", sum.dissect)?;
        print_time(rt, "compact", sum.compact)?;
        print_time(rt, "check", sum.check)?;
    }
    println!(rt; "")?;
    Ok(())
}

/// Prints the nanoseconds that a stage took.
fn print_time<R: Print>(rt: &R, stage: &str, time: Duration) -> Result<()> {
    let taken = time.as_nanos();
    print!(rt; " {stage}={taken}")?;
    Ok(())
}

/// What is seen of a graph in these rounds.
fn seen_of<R: AllocGlobal + Clock>(rt: &R, rounds: u32, record: &Record) -> Result<Seen> {
    let mut seen = round(rt, record)?;
    for _ in 1..rounds {
        seen = seen.least(round(rt, record)?);
    }
    Ok(seen)
}

/// The time from then to now.
fn since<R: Clock>(rt: &R, start: Instant) -> Result<Duration> {
    Ok(Instant::now(rt)?.duration_since(start))
}

/// Runs all stages once.
fn round<R: AllocGlobal + Clock>(rt: &R, record: &Record) -> Result<Seen> {
    let start = Instant::now(rt)?;
    let plane = plane_of(rt.alloc(), record)?;
    let trace = since(rt, start)?;
    let solved = solved(rt, &plane)?;
    let (shape, taken) = timed_shape(rt, &plane)?;
    let drawn = drawn(rt, &plane, &shape)?;
    Ok(Seen {
        trace,
        network: solved.network,
        solve: solved.solve,
        shape: taken,
        bends: u64::from(shape.bends()),
        searches: solved.searches,
        looks: solved.looks,
        ..drawn
    })
}

/// Builds and solves the network of a plane.
fn solved<R: AllocGlobal + Clock>(rt: &R, plane: &Plane) -> Result<Seen> {
    let start = Instant::now(rt)?;
    let net = FaceNet::build(rt.alloc(), plane)?;
    let built = Instant::now(rt)?;
    let Ok(solved) = solve(rt.alloc(), net.network()) else {
        bail!("a network was not solved");
    };
    let solve = since(rt, built)?;
    Ok(Seen {
        network: built.duration_since(start),
        solve,
        searches: u64::from(solved.searches()),
        looks: solved.looks(),
        ..Seen::NOTHING
    })
}

/// A least shape, which both tests pass, and how long it took.
fn timed_shape<R: AllocGlobal + Clock>(rt: &R, plane: &Plane) -> Result<(Shape, Duration)>
    ensures { IfOk result (λ found. IsShape plane.now found.0) }
{
    let start = Instant::now(rt)?;
    let (shape, prices) = least_shape(rt.alloc(), plane)?;
    let taken = since(rt, start)?;
    ensure!(is_shape(plane, &shape), "no orthogonal representation");
    ensure!(certify(plane, &shape, &prices), "the prices prove nothing");
    Ok((shape, taken))
}

/// Draws a shape.
fn drawn<R: AllocGlobal + Clock>(rt: &R, plane: &Plane, shape: &Shape) -> Result<Seen>
    requires { IsShape plane.now shape.now }
{
    let (boxes, dissected) = timed_boxes(rt, plane, shape)?;
    let (points, compacted) = timed_points(rt, &boxes)?;
    drop(boxes);
    Ok(Seen {
        dissect: dissected,
        compact: compacted,
        check: timed_check(rt, plane, shape, points)?,
        ..Seen::NOTHING
    })
}

/// The boxes of a shape, and how long they took.
fn timed_boxes<R: AllocGlobal + Clock>(
    rt: &R,
    plane: &Plane,
    shape: &Shape,
) -> Result<(Boxes, Duration)>
    requires { IsShape plane.now shape.now }
    ensures { IfOk result (λ found. IsBoxed plane.now shape.now found.0) }
{
    let start = Instant::now(rt)?;
    let boxes = dissect(rt.alloc(), plane, shape)?;
    Ok((boxes, since(rt, start)?))
}

/// The points of boxes, and how long they took.
fn timed_points<R: AllocGlobal + Clock>(rt: &R, boxes: &Boxes) -> Result<(Points, Duration)>
    ensures { IfOk result (λ found. AreLeastPoints boxes.now found.0) }
{
    let start = Instant::now(rt)?;
    let points = compact(rt.alloc(), boxes)?;
    Ok((points, since(rt, start)?))
}

/// How long the check of points took, which must draw the shape.
fn timed_check<R: AllocGlobal + Clock>(
    rt: &R,
    plane: &Plane,
    shape: &Shape,
    points: Points,
) -> Result<Duration>
    requires shape { IsShape plane.now shape.now }
    requires points { HasPoints plane.now points }
{
    let start = Instant::now(rt)?;
    if let Err((fault, _)) = check(rt.alloc(), plane, shape, points) {
        bail!("the points do not draw the shape: {fault}");
    }
    since(rt, start)
}
