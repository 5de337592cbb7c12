//! Shapes with more bends than need be are drawn too.

ghost use Rattle.ortho_rep.specs.Representation.{HasDarts};

use crate::families::{ANTIPRISM, PRISM, grid, rings};
use crate::planes::{draw, shape_of, spiral_in};
use faces::Plane;
use ortho_rep::{Shape, Turn};
use std::alloc::{AllocError, Global};
use std::process::Abort;
use test_tools::records::{EDGE, OCTAHEDRON, TRIANGLE};
use test_tools::{Random, plane_in};

/// The angles of a shape.
fn angles_of(alloc: Global, plane: &Plane, shape: &Shape) -> Result<Vec<u8>, AllocError>
    requires { HasDarts plane.now shape.now }
{
    let mut angles = Vec::new(alloc);
    for dart in 0..plane.graph().darts() {
        angles.push(shape.angle(dart))?;
    }
    Ok(angles)
}

/// The strings of a shape.
fn strings_of(alloc: Global, plane: &Plane, shape: &Shape) -> Result<Vec<Vec<Turn>>, AllocError>
    requires { HasDarts plane.now shape.now }
{
    let mut strings = Vec::new(alloc);
    for dart in 0..plane.graph().darts() {
        strings.push(shape.turns(dart).to_vec(alloc)?)?;
    }
    Ok(strings)
}

/// Puts two turns at a place of a string, if it has this place and there is memory.
fn put(turns: &mut Vec<Turn>, place: usize, pair: [Turn; 2]) -> Option<()> {
    if place > turns.len() {
        return None;
    }
    turns.insert(place, pair[1]).ok()?;
    turns.insert(place, pair[0]).ok()
}

/// Puts a turn and its opposite at a random place of a random edge: into the string of one dart, and
/// backwards into that of its reverse, where they read the same.
fn add_step(random: &mut Random, plane: &Plane, strings: &mut [Vec<Turn>]) -> Option<()> {
    let graph = plane.graph();
    if graph.darts() == 0 {
        return None;
    }
    let dart = random.below(u64::from(graph.darts())) as u16;
    let pair = if random.below(2) == 0 {
        [Turn::Left, Turn::Right]
    } else {
        [Turn::Right, Turn::Left]
    };
    let turns = strings.get_mut(usize::from(dart))?;
    let count = turns.len();
    let place = random.below(count as u64 + 1) as usize;
    put(turns, place, pair)?;
    let back = strings.get_mut(usize::from(graph.reverse(dart)))?;
    put(back, count - place, pair)
}

/// The strings of a shape with one more random step.
fn strings_with_a_step(
    alloc: Global,
    plane: &Plane,
    shape: &Shape,
    random: &mut Random,
) -> Option<Vec<Vec<Turn>>>
    requires { HasDarts plane.now shape.now }
{
    let mut strings = strings_of(alloc, plane, shape).ok()?;
    add_step(random, plane, &mut strings)?;
    Some(strings)
}

/// The shape of angles and strings, which are short.
fn shape_from(rt: &impl Abort, angles: Vec<u8>, strings: Vec<Vec<Turn>>) -> Shape {
    assert!(rt; Shape::have_few_turns(&strings));
    Shape::new(angles, strings)
}

/// The shape with one more random step.
fn with_a_step(
    rt: &impl Abort,
    alloc: Global,
    plane: &Plane,
    shape: &Shape,
    random: &mut Random,
) -> Shape {
    let darts = usize::from(plane.graph().darts());
    assert!(rt; shape.angle_count() == darts && shape.string_count() == darts);
    let strings = strings_with_a_step(alloc, plane, shape, random).expect(rt, "a step");
    let angles = angles_of(alloc, plane, shape).expect(rt, "memory");
    shape_from(rt, angles, strings)
}

/// Checks that least shapes of these bytes, each with one more random step than the one before it, are drawn.
fn expect_steps(rt: &impl Abort, alloc: Global, bytes: &[u8], seed: u64) {
    let plane = plane_in(alloc, bytes).expect(rt, "a plane");
    let mut shape = shape_of(rt, alloc, &plane);
    let mut random = Random { state: seed };
    for _step in 0..20u32 {
        draw(rt, alloc, &plane, &shape);
        shape = with_a_step(rt, alloc, &plane, &shape, &mut random);
    }
}

/// Shapes with superfluous bends are drawn.
#[test]
fn steps_are_drawn(rt: HostRuntime) {
    let alloc = rt.alloc();
    for (bytes, seed) in [(EDGE, 1), (TRIANGLE, 2), (OCTAHEDRON, 3)] {
        expect_steps(&rt, alloc, bytes, seed);
    }
    for (made, seed) in [
        (grid(alloc, 4, 4), 4),
        (rings(alloc, &PRISM, 7), 5),
        (rings(alloc, &ANTIPRISM, 6), 6),
    ] {
        expect_steps(&rt, alloc, &made.expect(&rt, "memory"), seed);
    }
}

/// Spirals of up to 5,000 turns are drawn.
#[test]
fn spirals_are_drawn(rt: HostRuntime) {
    let plane = plane_in(rt.alloc(), EDGE).expect(&rt, "a plane");
    for turns in [1, 2, 3, 4, 5, 10, 100, 300, 5_000] {
        let shape = spiral_in(rt.alloc(), turns).expect(&rt, "a shape");
        draw(&rt, rt.alloc(), &plane, &shape);
    }
}
