//! Small planes by hand, and a thousand random shapes and prices against a plain reading of the rules.

ghost use Rattle.ortho_rep.specs.Representation.{HasDarts};

use faces::Plane;
use ortho_rep::{Prices, Shape, Turn, certify, is_shape, least_shape};
use std::alloc::{AllocError, Global};
use std::process::Abort;
use test_tools::records::{CUBE, EDGE, OCTAHEDRON, PATH, SQUARE, STAR, TETRAHEDRON, TRIANGLE};
use test_tools::{Case, L, ONE_BEND, R, Random, plane_in, prices_in, same, shape_in, strings_in};

/// The shape of these angles and strings, which are short.
fn shape_of(rt: &impl Abort, angles: Vec<u8>, strings: Vec<Vec<Turn>>) -> Shape {
    assert!(rt; Shape::have_few_turns(&strings));
    Shape::new(angles, strings)
}

/// The answers of both tests.
pub(crate) fn answers(plane: &Plane, shape: &Shape, prices: &Prices) -> (bool, bool) {
    (is_shape(plane, shape), certify(plane, shape, prices))
}

/// The answers of both tests for a shape with the prices of a case.
fn answers_in(rt: &impl Abort, alloc: Global, case: &Case<'_>, shape: &Shape) -> (bool, bool) {
    let plane = plane_in(alloc, case.record).expect(rt, "a plane");
    let prices = prices_in(alloc, case).expect(rt, "memory");
    answers(&plane, shape, &prices)
}

/// A case, the answers of the two tests, and its bends.
type Row = (Case<'static>, (bool, bool), u32);

/// Checks the answers of the tests and the number of bends for each case.
fn expect(rt: &impl Abort, alloc: Global, rows: &[Row]) {
    for (case, right, bends) in rows {
        let shape = shape_in(alloc, case.angles, case.strings).expect(rt, "a shape");
        let found = answers_in(rt, alloc, case, &shape);
        same!(rt, (found, shape.bends()), (*right, *bends));
    }
}

// Each edge bends once.
const THREE_BENDS: Case<'static> = Case {
    record: TRIANGLE,
    angles: &[2, 2, 2, 1, 3, 2],
    strings: &[&[R], &[L], &[R], &[L], &[R], &[L]],
    vertices: &[1, 1, 1],
    faces: &[1, 0],
};

// Three corners to the left.
const ROLLED: Case<'static> = Case {
    record: PATH,
    angles: &[1, 4, 1, 3, 1, 3, 4, 3],
    strings: &[&[], &[], &[], &[], &[], &[], &[], &[]],
    vertices: &[0, 0, 0, 0, 0],
    faces: &[0],
};

// Four bends on a single edge.
const STAIR: Case<'static> = Case {
    record: EDGE,
    angles: &[4, 4],
    strings: &[&[L, L, R, L], &[R, L, R, R]],
    vertices: &[0, 0],
    faces: &[0],
};

const LOW_VERTEX: Case<'static> = Case {
    vertices: &[0, 1, 1],
    ..ONE_BEND
};

const LACKS_A_PRICE: Case<'static> = Case {
    faces: &[1],
    ..ONE_BEND
};

const WIDE_ANGLE: Case<'static> = Case {
    angles: &[3, 2, 3, 1, 3, 1],
    ..ONE_BEND
};

const LACKS_A_STRING: Case<'static> = Case {
    strings: &[&[], &[L], &[], &[], &[R]],
    ..ONE_BEND
};

const STRAIGHT: Case<'static> = Case {
    strings: &[&[], &[]],
    ..STAIR
};

const NOT_BACKWARDS: Case<'static> = Case {
    strings: &[&[L, L, R, L], &[R, R, L, R]],
    ..STAIR
};

const ONE_SIDE_ONLY: Case<'static> = Case {
    strings: &[&[L, L, R], &[]],
    ..STAIR
};

const NARROW_ANGLE: Case<'static> = Case {
    angles: &[3, 4],
    strings: &[&[], &[]],
    ..STAIR
};

const ROWS: &[Row] = &[
    (ONE_BEND, (true, true), 1),
    (LOW_VERTEX, (true, false), 1),
    (LACKS_A_PRICE, (true, false), 1),
    (THREE_BENDS, (true, false), 3),
    (WIDE_ANGLE, (false, false), 1),
    (LACKS_A_STRING, (false, false), 1),
    (ROLLED, (true, true), 0),
    (STAIR, (true, false), 4),
    (STRAIGHT, (true, true), 0),
    (NOT_BACKWARDS, (false, false), 4),
    (ONE_SIDE_ONLY, (false, false), 1),
    (NARROW_ANGLE, (false, true), 0),
];

/// Both tests give the answers found by hand for small planes.
#[test]
fn triangles_paths_and_edges(rt: HostRuntime) {
    expect(&rt, rt.alloc(), ROWS);
}

/// The strings of a single edge that turns to the left this many times.
fn spiral(alloc: Global, count: usize) -> Result<Vec<Vec<Turn>>, AllocError> {
    let mut strings = Vec::new(alloc);
    strings.push(vec![in alloc; Turn::Left; count]?)?;
    strings.push(vec![in alloc; Turn::Right; count]?)?;
    Ok(strings)
}

/// The shape of an edge with a million turns passes the test of shapes.
#[test]
fn strings_of_a_million_turns(rt: HostRuntime) {
    let alloc = rt.alloc();
    let angles = [4, 4].to_vec(alloc).expect(&rt, "memory");
    let strings = spiral(alloc, 1_000_000).expect(&rt, "memory");
    let shape = shape_of(&rt, angles, strings);
    same!(
        &rt,
        is_shape(&plane_in(alloc, EDGE).expect(&rt, "a plane"), &shape),
        true
    );
}

/// The rules for representations, read plainly: each sum over all darts, with its sign.
fn plainly_is_shape(plane: &Plane, shape: &Shape) -> bool {
    let graph = plane.graph();
    let darts = usize::from(graph.darts());
    if shape.angle_count() != darts || shape.string_count() != darts {
        return false;
    }
    for dart in 0..graph.darts() {
        let angle = shape.angle(dart);
        if angle == 0
            || angle > 4
            || !plainly_mirrored(shape.turns(dart), shape.turns(graph.reverse(dart)))
        {
            return false;
        }
    }
    plainly_closes(plane, shape) && plainly_turns(plane, shape)
}

/// Whether the angles round each vertex sum to 4.
fn plainly_closes(plane: &Plane, shape: &Shape) -> bool
    requires { HasDarts plane.now shape.now }
{
    let graph = plane.graph();
    for vertex in 0..graph.vertices() {
        let mut sum = 0u64;
        for dart in 0..graph.darts() {
            if graph.head(dart) - 1 == vertex {
                sum = sum.wrapping_add(u64::from(shape.angle(dart)));
            }
        }
        if sum != 4 {
            return false;
        }
    }
    true
}

/// Whether the darts of each inner face turn by 4, and those of the outer face by -4.
fn plainly_turns(plane: &Plane, shape: &Shape) -> bool
    requires { HasDarts plane.now shape.now }
{
    let graph = plane.graph();
    for face in 0..plane.face_count() {
        let mut sum = 0i64;
        for dart in 0..graph.darts() {
            if plane.face_of(dart) == face {
                sum = sum.wrapping_add(2 - i64::from(shape.angle(dart)));
                for turn in shape.turns(dart) {
                    sum = sum.wrapping_add(if *turn == Turn::Left { 1 } else { -1 });
                }
            }
        }
        if sum != if face == plane.outer() { -4 } else { 4 } {
            return false;
        }
    }
    true
}

/// Whether one string of turns is the other one backwards, with left and right exchanged.
fn plainly_mirrored(turns: &[Turn], reverse: &[Turn]) -> bool {
    turns.len() == reverse.len()
        && turns
            .iter()
            .rev()
            .zip(reverse.iter())
            .all(|(one, other)| one != other)
}

/// The rules for prices, read plainly.
fn plainly_certifies(plane: &Plane, shape: &Shape, prices: &Prices) -> bool {
    let graph = plane.graph();
    let darts = usize::from(graph.darts());
    if shape.angle_count() != darts || shape.string_count() != darts {
        return false;
    }
    if prices.vertex_count() != usize::from(graph.vertices())
        || prices.face_count() != usize::from(plane.face_count())
    {
        return false;
    }
    for dart in 0..graph.darts() {
        let vertex = i64::from(prices.vertex(graph.head(dart)));
        let face = i64::from(prices.face(plane.face_of(dart)));
        let across = i64::from(prices.face(plane.face_of(graph.reverse(dart))));
        let angle = shape.angle(dart);
        let slack = 1i64.wrapping_add(face).wrapping_sub(across);
        let bends_left = shape.turns(dart).contains(&Turn::Left);
        if angle < 4 && vertex < face
            || angle > 1 && vertex > face
            || slack < 0
            || bends_left && slack != 0
        {
            return false;
        }
    }
    true
}

/// Now and then writes a random angle.
fn spoil_angle(random: &mut Random, angles: &mut [u8]) {
    let place = random.below(24) as usize;
    let angle = random.below(6) as u8;
    if let Some(old) = angles.get_mut(place) {
        *old = angle;
    }
}

/// Now and then writes a random price, which may be as large as they come.
fn spoil_price(random: &mut Random, prices: &mut [i32]) {
    let place = random.below(12) as usize;
    let price = match random.below(6) {
        0 => i32::MIN,
        1 => i32::MAX,
        2 => 0,
        3 => 1,
        4 => 2,
        _ => -1,
    };
    if place < prices.len() {
        prices[place] = price;
    }
}

/// Now and then appends a random turn to a string.
fn spoil_string(random: &mut Random, strings: &mut Vec<Vec<Turn>>) -> Result<(), AllocError> {
    let place = random.below(24) as usize;
    let turn = if random.below(2) == 0 {
        Turn::Left
    } else {
        Turn::Right
    };
    if let Some(string) = strings.get_mut(place) {
        string.push(turn)?;
    }
    Ok(())
}

/// Now and then drops the last element of a list.
fn spoil_length<T: Drop>(random: &mut Random, list: &mut Vec<T>) {
    if random.below(20) == 0 {
        let _last = list.pop();
    }
}

/// Angles like those of a case.
fn random_angles(alloc: Global, random: &mut Random, angles: &[u8]) -> Result<Vec<u8>, AllocError> {
    let mut angles = angles.to_vec(alloc)?;
    spoil_angle(random, &mut angles);
    spoil_length(random, &mut angles);
    Ok(angles)
}

/// Strings like those of a case.
fn random_strings(
    alloc: Global,
    random: &mut Random,
    strings: &[&[Turn]],
) -> Result<Vec<Vec<Turn>>, AllocError> {
    let mut strings = strings_in(alloc, strings)?;
    spoil_string(random, &mut strings)?;
    spoil_length(random, &mut strings);
    Ok(strings)
}

/// A shape like that of a case.
fn random_shape(rt: &impl Abort, alloc: Global, random: &mut Random, case: &Case<'_>) -> Shape {
    let angles = random_angles(alloc, random, case.angles).expect(rt, "memory");
    let strings = random_strings(alloc, random, case.strings).expect(rt, "memory");
    shape_of(rt, angles, strings)
}

/// Prices like those of a list.
fn random_list(alloc: Global, random: &mut Random, list: &[i32]) -> Result<Vec<i32>, AllocError> {
    let mut prices = list.to_vec(alloc)?;
    spoil_price(random, &mut prices);
    spoil_length(random, &mut prices);
    Ok(prices)
}

/// Prices like those of a case.
fn random_prices(
    alloc: Global,
    random: &mut Random,
    case: &Case<'_>,
) -> Result<Prices, AllocError> {
    let vertices = random_list(alloc, random, case.vertices)?;
    Ok(Prices::new(vertices, random_list(alloc, random, case.faces)?))
}

/// The answers of both tests for a shape and prices, which must be those of the plain reading.
fn answers_as_read(rt: &impl Abort, plane: &Plane, shape: &Shape, prices: &Prices) -> (bool, bool) {
    let got = answers(plane, shape, prices);
    let read = (
        plainly_is_shape(plane, shape),
        plainly_certifies(plane, shape, prices),
    );
    same!(rt, got, read);
    got
}

/// The answers of both tests for a random shape and random prices like those of a case.
fn random_answers(
    rt: &impl Abort,
    alloc: Global,
    random: &mut Random,
    plane: &Plane,
    case: &Case<'_>,
) -> (bool, bool) {
    let shape = random_shape(rt, alloc, random, case);
    let prices = random_prices(alloc, random, case).expect(rt, "memory");
    answers_as_read(rt, plane, &shape, &prices)
}

/// How many of 250 random shapes, with prices like those of a case, pass the test of shapes. Both tests must always
/// agree with the plain reading.
fn count_random(rt: &impl Abort, alloc: Global, seed: u64, case: &Case<'_>) -> u32 {
    let plane = plane_in(alloc, case.record).expect(rt, "a plane");
    let mut random = Random { state: seed };
    let mut shapes = 0u32;
    for _ in 0..250 {
        let (right, _) = random_answers(rt, alloc, &mut random, &plane, case);
        shapes = shapes.wrapping_add(u32::from(right));
    }
    shapes
}

/// On random shapes both tests agree with the plain reading, and some shapes pass and some do not.
#[test]
fn random_shapes(rt: HostRuntime) {
    for (seed, case) in [(1, ONE_BEND), (2, THREE_BENDS), (3, ROLLED), (4, STAIR)] {
        let shapes = count_random(&rt, rt.alloc(), seed, &case);
        assert!(rt; 50 < shapes && shapes < 240, "{shapes} shapes");
    }
}

/// The bends of a least shape, and the answers of both tests.
fn figures_of_least(rt: &impl Abort, alloc: Global, plane: &Plane) -> (u32, (bool, bool)) {
    let (shape, prices) = least_shape(alloc, plane).expect(rt, "memory");
    (shape.bends(), answers(plane, &shape, &prices))
}

/// Checks that a least shape of these bytes has this many bends, and passes both tests with its prices.
pub(crate) fn expect_least(rt: &impl Abort, alloc: Global, bytes: &[u8], bends: u32) {
    let plane = plane_in(alloc, bytes).expect(rt, "a plane");
    let found = figures_of_least(rt, alloc, &plane);
    same!(rt, found, (bends, (true, true)));
}

/// Graphs and their fewest bends.
const BENDS: [(&[u8], u32); 7] = [
    (EDGE, 0),
    (TRIANGLE, 1),
    (STAR, 0),
    (SQUARE, 0),
    (TETRAHEDRON, 4),
    (OCTAHEDRON, 12),
    (CUBE, 4),
];

/// Least shapes of known graphs have the fewest bends.
#[test]
fn fewest_bends(rt: HostRuntime) {
    for (bytes, bends) in BENDS {
        expect_least(&rt, rt.alloc(), bytes, bends);
    }
}
