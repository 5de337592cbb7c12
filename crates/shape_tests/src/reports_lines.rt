//! The triangle's line by hand, with a shape, prices and points that were worked out on paper, and the line of an end.
//! Prices that prove a shape still do so if one number is subtracted from all of them.

use drawing_check::{Drawing, check};
use faces::Plane;
use ortho_rep::{Points, Shape, certify, is_shape};
use planar_code::Ending;
use reports::{Cause, LaidGraph, end_line, laid_line};
use std::alloc::Global;
use std::process::Abort;
use streams::Mark;
use test_tools::{Case, ONE_BEND, Place, plane_in, points_in, prices_in, same, shape_in};

const DRAWN: &[u8] =
    b"{\"angles\":[3,1,3,1,3,1],\"bends\":1,\"drawn\":\"yes\",\"f\":2,\"file\":3,\"graph\":7,\"m\":3,\"n\":3,\
    \"points\":{\"corners\":[[],[[1,0]],[]],\"vertices\":[[0,0],[0,1],[1,1]]},\
    \"prices\":{\"faces\":[-2,-3],\"vertices\":[-2,-2,-2]},\"status\":\"ok\",\"turns\":[\"\",\"L\",\"\",\"\",\"R\",\"\"]}\n";

const TO_THE_CAUSE: &[u8] = b"{\"angles\":[3,1,3,1,3,1],\"bends\":1,\"drawn\":\"";

const FROM_THE_CAUSE: &[u8] = b"\",\"f\":2,\"file\":3,\"graph\":7,\"m\":3,\"n\":3,\
    \"points\":null,\
    \"prices\":{\"faces\":[-2,-3],\"vertices\":[-2,-2,-2]},\"status\":\"ok\",\"turns\":[\"\",\"L\",\"\",\"\",\"R\",\"\"]}\n";

/// The triangle whose edge from 1 to 3 bends, at these prices.
const PRICED: Case<'static> = Case {
    vertices: &[-2, -2, -2],
    faces: &[-2, -3],
    ..ONE_BEND
};

/// The places of its vertices, and of its corners.
const VERTICES: [Place; 3] = [(0, 0), (0, 1), (1, 1)];

const CORNERS: [&[Place]; 3] = [&[], &[(1, 0)], &[]];

/// The drawing of the triangle by these points.
fn drawing(alloc: Global, plane: &Plane, shape: &Shape) -> Option<Drawing> {
    let points = points_in(alloc, &VERTICES, &CORNERS).ok()?;
    let counts = usize::from(plane.graph().vertices()) == points.vertex_count()
        && usize::from(plane.graph().edges()) == points.edge_count();
    if !counts || !is_shape(plane, shape) {
        return None;
    }
    check(alloc, plane, shape, points).ok()
}

/// The line of the triangle with this drawing, as graph 7 of file 3.
fn triangle_line(
    alloc: Global,
    plane: &Plane,
    shape: &Shape,
    drawing: Result<&Points, Cause>,
) -> Option<Vec<u8>> {
    let prices = prices_in(alloc, &PRICED).ok()?;
    if !is_shape(plane, shape) || !certify(plane, shape, &prices) {
        return None;
    }
    let laid = LaidGraph {
        plane,
        shape,
        prices: &prices,
        drawing,
    };
    laid_line(alloc, 3, 7, laid).ok()
}

/// Checks that the line of the triangle without a drawing has this word in place of the drawing.
fn check_cause<R: AllocGlobal + Abort>(
    rt: &R,
    plane: &Plane,
    shape: &Shape,
    cause: Cause,
    word: &str,
) {
    let line = triangle_line(rt.alloc(), plane, shape, Err(cause)).expect(rt, "a line");
    let text = [TO_THE_CAUSE, word.as_bytes(), FROM_THE_CAUSE].concat(rt.alloc());
    same!(rt, line, text.expect(rt, "memory"));
}

/// Checks the line of the triangle with its drawing.
fn check_drawn<R: AllocGlobal + Abort>(rt: &R, plane: &Plane, shape: &Shape) {
    let drawing = drawing(rt.alloc(), plane, shape).expect(rt, "a drawing");
    let line = triangle_line(rt.alloc(), plane, shape, Ok(drawing.points())).expect(rt, "a line");
    same!(rt, line.as_slice(), DRAWN);
}

/// Causes and their words.
const CAUSES: [(Cause, &str); 5] = [
    (Cause::Wide, "wide"),
    (Cause::OutOfGrid, "outofgrid"),
    (Cause::NotAxis, "notaxis"),
    (Cause::WrongTurn, "wrongturn"),
    (Cause::Meet, "meet"),
];

/// The JSON line of a triangle is the one worked out by hand, drawn or with the cause.
#[test]
fn shows_a_triangle(rt: HostRuntime) {
    let plane = plane_in(rt.alloc(), PRICED.record).expect(&rt, "a plane");
    let shape = shape_in(rt.alloc(), PRICED.angles, PRICED.strings).expect(&rt, "a shape");
    for (cause, word) in CAUSES {
        check_cause(&rt, &plane, &shape, cause, word);
    }
    check_drawn(&rt, &plane, &shape);
}

/// The JSON line of an end has its mark, file and number of graphs.
#[test]
fn shows_an_end(rt: HostRuntime) {
    let mark = Mark::Ended(Ending::Truncated);
    let text = end_line(rt.alloc(), 64, mark, 1_000_000).expect(&rt, "memory");
    let expected = "{\"end\":\"truncated\",\"file\":64,\"graphs\":1000000}\n";
    same!(&rt, text.as_slice(), expected.as_bytes());
}
