//! How long the check of a drawing takes, by the number of its parts.

use anyhow::{Context, Result};
use drawing_check::check;
use embedding::Graph;
use faces::Plane;
use ortho_rep::{Point, Points, Shape, Turn, is_shape};
use planar_code::{Framer, HEADER};
use std::alloc::{AllocError, Global};
use std::rt::Clock;
use std::time::{Duration, Instant};

/// Draws one edge along a snake of about `parts` parts, and prints the least time of a check, in nanoseconds; no time
/// with 0 rounds.
pub fn tell_snake<R: Print + Clock + AllocGlobal>(rt: &R, rounds: u32, parts: u32) -> Result<()> {
    let least = least_time(rt, rounds, parts).context("no drawing")?;
    print!(rt; "parts={parts}")?;
    if rounds > 0 {
        print!(rt; " check={}", least.as_nanos())?;
    }
    println!(rt; "")?;
    Ok(())
}

/// The plane of one edge.
fn edge_plane(alloc: Global) -> Option<Plane> {
    let mut framer = Framer::new(alloc).ok()?;
    let mut records = Vec::new(alloc);
    framer.feed(alloc, &HEADER, &mut records).ok()?;
    framer.feed(alloc, &[2, 2, 0, 1, 0], &mut records).ok()?;
    let graph = Graph::read(alloc, &records.pop()?).ok()?;
    Plane::trace(alloc, graph).ok()
}

/// A snake of about `parts` parts, which fills strips of 50,000 rows one after another.
fn snake(alloc: Global, parts: u32) -> Result<Vec<Point>, AllocError> {
    let strips = parts / 100_000 + 1;
    let rows = parts / (2 * strips) / 2 * 2 + 1;
    let mut points = Vec::new(alloc);
    for strip in 0..strips {
        for row in 0..rows {
            let left = strip.wrapping_mul(10);
            let right = left.wrapping_add(5);
            let y = if strip % 2 == 0 { row } else { rows - 1 - row };
            let (from, to) = if row % 2 == 0 {
                (left, right)
            } else {
                (right, left)
            };
            if strip == 0 || row > 0 {
                points.push(Point { x: from, y })?;
            }
            if strip == strips - 1 || row < rows - 1 {
                points.push(Point { x: to, y })?;
            }
        }
    }
    Ok(points)
}

/// One coordinate less another.
fn difference(a: u32, b: u32) -> i64 {
    i64::from(a).wrapping_sub(i64::from(b))
}

/// The turn at `b`, on the way from `a` to `c`.
fn turn_at(a: Point, b: Point, c: Point) -> Turn {
    let one = difference(b.x, a.x).wrapping_mul(difference(c.y, b.y));
    let two = difference(b.y, a.y).wrapping_mul(difference(c.x, b.x));
    if one > two { Turn::Left } else { Turn::Right }
}

/// The shape of one edge that has these points as ends and corners.
fn edge_shape(alloc: Global, points: &[Point]) -> Option<Shape> {
    let mut turns = Vec::new(alloc);
    let mut back = Vec::new(alloc);
    for three in points.windows(3) {
        let turn = turn_at(three[0], three[1], three[2]);
        turns.push(turn).ok()?;
        let other = if turn == Turn::Left {
            Turn::Right
        } else {
            Turn::Left
        };
        back.push(other).ok()?;
    }
    back.reverse();
    let mut strings = Vec::new(alloc);
    strings.push(turns).ok()?;
    strings.push(back).ok()?;
    if !Shape::have_few_turns(&strings) {
        return None;
    }
    Some(Shape::new([4, 4].to_vec(alloc).ok()?, strings))
}

/// These points as the ends and the corners of one edge.
fn edge_points(alloc: Global, points: &[Point]) -> Option<Points> {
    let [start, corners @ .., end] = points else {
        return None;
    };
    let mut lists = Vec::new(alloc);
    lists.push(corners.to_vec(alloc).ok()?).ok()?;
    Some(Points::new([*start, *end].to_vec(alloc).ok()?, lists))
}

/// The least time of a check in these rounds, or in one; `None` if it does not draw the edge.
fn least_time<R: Clock + AllocGlobal>(rt: &R, rounds: u32, parts: u32) -> Option<Duration> {
    let plane = edge_plane(rt.alloc())?;
    let places = snake(rt.alloc(), parts).ok()?;
    let shape = edge_shape(rt.alloc(), &places)?;
    let mut least = check_time(rt, &plane, &shape, &places)?;
    for _ in 1..rounds {
        least = least.min(check_time(rt, &plane, &shape, &places)?);
    }
    Some(least)
}

/// How long one check takes of a drawing of an edge along these points.
fn check_time<R: Clock + AllocGlobal>(
    rt: &R,
    plane: &Plane,
    shape: &Shape,
    places: &[Point],
) -> Option<Duration> {
    if !is_shape(plane, shape) {
        return None;
    }
    let points = edge_points(rt.alloc(), places)?;
    if points.vertex_count() != usize::from(plane.graph().vertices())
        || points.edge_count() != usize::from(plane.graph().edges())
    {
        return None;
    }
    let start = Instant::now(rt).ok()?;
    let drawing = check(rt.alloc(), plane, shape, points);
    let time = start.elapsed(rt).ok()?;
    drawing.ok()?;
    Some(time)
}
