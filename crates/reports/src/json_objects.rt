//! The parts of the object of a graph that breaks no rule, in the order of its keys, and its arrays: angles, turns,
//! prices and points.
ghost use Rattle.std.specs.Prelude.{◌≡◌, ◌++◌, OnOk, ◌∷◌, [], Ok as Drawn, ◌/◌, length, codes, decimal};
ghost use Rattle.std.specs.List.{range_with_len};
ghost use Rattle.serde_json.specs.Written.{comma_if, compact_text};
ghost use Rattle.ortho_rep.specs.Points.{corners_at};
ghost use Rattle.ortho_rep.specs.Representation.{HasDarts, bends_of};
ghost use Rattle.ortho_rep.specs.Prices.{HasPrices};
ghost use Rattle.reports.specs.LineData.{natural, integer, array_of, turns_data, point_data, corners_data, prices_data, points_data, drawn_data, points_in};
ghost use Rattle.serde_json.specs.Data.{string};
ghost use Rattle.faces.specs.Planes.{vertices, darts};
ghost use Rattle.ortho_rep.specs.Shapes.{turns_at};
ghost use Rattle.reports.specs.Adding.{member_text};

use crate::Cause;
use crate::json_text::{put_bytes, put_comma, put_integer, put_natural, put_point, put_string};
use faces::Plane;
use ortho_rep::{Point, Points, Prices, Shape};
use std::alloc::AllocError;

/// Appends a JSON array of the angles of the shape, in the order of darts, to `out`. `AllocError` if memory runs out;
/// `out` may then end in a part of the text.
pub(crate) fn put_angles(out: &mut Vec<u8>, plane: &Plane, shape: &Shape) -> Result<(), AllocError>
    requires { HasDarts plane.now shape.now }
    ensures { OnOk result (out.new.items ≡ out.old.items ++ compact_text (array_of natural shape.now.angles)) }
{
    put_bytes(out, b"[")?;
    for dart in 0..plane.graph().darts() {
        put_natural(out, dart > 0, u64::from(shape.angle(dart)))?;
    }
    put_bytes(out, b"]")
}

/// Appends a JSON array of the turns to `out`: for each dart, in order, a string of letters `L` and `R`. `AllocError`
/// if memory runs out; `out` may then end in a part of the text.
pub(crate) fn put_turns(out: &mut Vec<u8>, shape: &Shape) -> Result<(), AllocError>
    ensures { OnOk result (out.new.items ≡ out.old.items ++ compact_text (array_of turns_data shape.now.strings)) }
{
    put_bytes(out, b"[")?;
    for dart in 0..shape.string_count() as u16 {
        put_string(out, dart > 0, shape.turns(dart))?;
    }
    put_bytes(out, b"]")
}

/// Appends a JSON array of the prices of the vertices, in order, to `out`. `AllocError` if memory runs out; `out` may
/// then end in a part of the text.
pub(crate) fn put_vertex_prices(
    out: &mut Vec<u8>,
    plane: &Plane,
    prices: &Prices,
) -> Result<(), AllocError>
    requires { HasPrices plane.now prices.now }
    ensures { OnOk result (out.new.items ≡ out.old.items ++ compact_text (array_of integer prices.now.vertices)) }
{
    put_bytes(out, b"[")?;
    for place in 0..plane.graph().vertices() {
        put_integer(out, place > 0, prices.vertex(place + 1))?;
    }
    put_bytes(out, b"]")
}

/// Appends a JSON array of the prices of the faces, in order, to `out`. `AllocError` if memory runs out; `out` may then
/// end in a part of the text.
pub(crate) fn put_face_prices(
    out: &mut Vec<u8>,
    plane: &Plane,
    prices: &Prices,
) -> Result<(), AllocError>
    requires { HasPrices plane.now prices.now }
    ensures { OnOk result (out.new.items ≡ out.old.items ++ compact_text (array_of integer prices.now.faces)) }
{
    put_bytes(out, b"[")?;
    for face in 0..plane.face_count() {
        put_integer(out, face > 0, prices.face(face))?;
    }
    put_bytes(out, b"]")
}

/// Appends to `out` a JSON array with an array of corners for each of the first `edges` edges, in order; an edge
/// without a list of corners gets an empty one. `AllocError` if memory runs out; `out` may then end in a part of the
/// text.
pub(crate) fn put_corners(out: &mut Vec<u8>, points: &Points, edges: u16) -> Result<(), AllocError>
    ensures { OnOk result (out.new.items
        ≡ out.old.items ++ compact_text (array_of (corners_data points.now) (range_with_len 0 edges))) }
{
    put_bytes(out, b"[")?;
    for edge in 0..edges {
        put_edge(out, edge > 0, points, edge)?;
    }
    put_bytes(out, b"]")
}

/// Appends the corners of one edge to `out` as a JSON array, after a comma if `later`; the array is empty if `points`
/// has no list for the edge. `AllocError` if memory runs out; `out` may then end in a part of the text.
fn put_edge(out: &mut Vec<u8>, later: bool, points: &Points, edge: u16) -> Result<(), AllocError>
    ensures { OnOk result (out.new.items ≡ out.old.items ++ (comma_if later ++ compact_text (corners_data points.now edge))) }
{
    let corners = corners_of(points, edge);
    if later && corners.is_empty() {
        return put_bytes(out, b",[]");
    }
    put_comma(out, later)?;
    put_points(out, corners)
}

/// The corners of an edge, in the order of `points`; empty if `points` has no list for the edge.
fn corners_of(points: &Points, edge: u16) -> &[Point]
    ensures { result.now ≡ corners_at points.now edge }
{
    if usize::from(edge) < points.edge_count() {
        points.corners(edge)
    } else {
        &[]
    }
}

/// Appends a JSON array of these points, in order, to `out`. `AllocError` if memory runs out; `out` may then end in a
/// part of the text.
pub(crate) fn put_points(out: &mut Vec<u8>, points: &[Point]) -> Result<(), AllocError>
    ensures { OnOk result (out.new.items ≡ out.old.items ++ compact_text (array_of point_data points.now)) }
{
    put_bytes(out, b"[")?;
    let mut later = false;
    for each in points {
        put_point(out, later, *each)?;
        later = true;
    }
    put_bytes(out, b"]")
}

/// Appends `{` and the members `angles`, `bends`, `drawn` and `f` (the number of faces) of a graph's JSON object to
/// `out`. `AllocError` if memory runs out; `out` may then end in a part of the text.
pub(crate) fn put_first(
    out: &mut Vec<u8>,
    plane: &Plane,
    shape: &Shape,
    drawing: Result<&Points, Cause>,
) -> Result<(), AllocError>
    requires { HasDarts plane.now shape.now }
    ensures { OnOk result (out.new.items ≡ out.old.items
        ++ 123 ∷ (member_text (codes "angles") (array_of natural shape.now.angles)
        ++ 44 ∷ (member_text (codes "bends") (natural (bends_of (length shape.now.strings) (turns_at shape.now)))
        ++ 44 ∷ (member_text (codes "drawn") (drawn_data (points_in drawing.entry))
        ++ 44 ∷ member_text (codes "f") (natural plane.now.faces))))) }
{
    put_bytes(out, b"{\"angles\":")?;
    put_angles(out, plane, shape)?;
    put_number(out, b",\"bends\":", u64::from(shape.bends()))?;
    put_drawn(out, drawing)?;
    put_number(out, b",\"f\":", u64::from(plane.face_count()))
}

/// Appends `key` as given, with its punctuation, and then a number in decimal to `out`. `AllocError` if memory runs
/// out; `out` may then end in a part of the text.
pub(crate) fn put_number(out: &mut Vec<u8>, key: &[u8], number: u64) -> Result<(), AllocError>
    ensures { OnOk result (out.new.items ≡ out.old.items ++ (key.now ++ decimal number)) }
{
    put_bytes(out, key)?;
    put_natural(out, false, number)
}

/// Appends a comma and the member `drawn` to `out`: `yes`, or the word of the cause why there is no drawing.
/// `AllocError` if memory runs out; `out` may then end in a part of the text.
fn put_drawn(out: &mut Vec<u8>, drawing: Result<&Points, Cause>) -> Result<(), AllocError>
    ensures { OnOk result (out.new.items ≡ out.old.items ++ 44 ∷ member_text (codes "drawn") (drawn_data (points_in drawing.entry))) }
{
    match drawing {
        Ok(_) => put_bytes(out, b",\"drawn\":\"yes\""),
        Err(cause) => {
            put_bytes(out, b",\"drawn\":\"")?;
            put_bytes(out, cause.word().as_bytes())?;
            put_bytes(out, b"\"")
        }
    }
}

/// Appends a comma and the members `file` and `graph`, with these numbers, to `out`. `AllocError` if memory runs out;
/// `out` may then end in a part of the text.
pub(crate) fn put_place(out: &mut Vec<u8>, file: u32, graph: u64) -> Result<(), AllocError>
    ensures { OnOk result (out.new.items ≡ out.old.items
        ++ 44 ∷ (member_text (codes "file") (natural file) ++ 44 ∷ member_text (codes "graph") (natural graph))) }
{
    put_number(out, b",\"file\":", u64::from(file))?;
    put_number(out, b",\"graph\":", graph)
}

/// Appends a comma and the members `m` and `n`, with the numbers of edges and of vertices, to `out`. `AllocError` if
/// memory runs out; `out` may then end in a part of the text.
pub(crate) fn put_sizes(out: &mut Vec<u8>, plane: &Plane) -> Result<(), AllocError>
    ensures { OnOk result (out.new.items ≡ out.old.items
        ++ 44 ∷ (member_text (codes "m") (natural (darts plane.now / 2)) ++ 44 ∷ member_text (codes "n") (natural (vertices plane.now)))) }
{
    put_number(out, b",\"m\":", u64::from(plane.graph().edges()))?;
    put_number(out, b",\"n\":", u64::from(plane.graph().vertices()))
}

/// Appends a comma and the member `points` to `out`: the corners of the first `edges` edges and the points of the
/// vertices, or null if there is no drawing. `AllocError` if memory runs out; `out` may then end in a part of the text.
pub(crate) fn put_drawing(
    out: &mut Vec<u8>,
    edges: u16,
    drawing: Result<&Points, Cause>,
) -> Result<(), AllocError>
    ensures { OnOk result (out.new.items ≡ out.old.items ++ 44 ∷ member_text (codes "points") (points_data edges (points_in drawing.entry))) }
{
    match drawing {
        Ok(points) => put_drawn_points(out, edges, points),
        Err(_) => put_bytes(out, b",\"points\":null"),
    }
}

/// Appends a comma and the member `points` to `out`: the corners of the first `edges` edges and the points of the
/// vertices. `AllocError` if memory runs out; `out` may then end in a part of the text.
fn put_drawn_points(out: &mut Vec<u8>, edges: u16, points: &Points) -> Result<(), AllocError>
    ensures { OnOk result (out.new.items ≡ out.old.items ++ 44 ∷ member_text (codes "points") (points_data edges (Drawn points.now))) }
{
    put_bytes(out, b",\"points\":{\"corners\":")?;
    put_corners(out, points, edges)?;
    put_bytes(out, b",\"vertices\":")?;
    put_points(out, points.vertices())?;
    put_bytes(out, b"}")
}

/// Appends a comma and the member `prices`, with the prices of the faces and of the vertices, to `out`. `AllocError` if
/// memory runs out; `out` may then end in a part of the text.
pub(crate) fn put_prices(
    out: &mut Vec<u8>,
    plane: &Plane,
    prices: &Prices,
) -> Result<(), AllocError>
    requires { HasPrices plane.now prices.now }
    ensures { OnOk result (out.new.items ≡ out.old.items ++ 44 ∷ member_text (codes "prices") (prices_data prices.now)) }
{
    put_bytes(out, b",\"prices\":{\"faces\":")?;
    put_face_prices(out, plane, prices)?;
    put_bytes(out, b",\"vertices\":")?;
    put_vertex_prices(out, plane, prices)?;
    put_bytes(out, b"}")
}

/// Appends a comma, the members `status` (`ok`) and `turns` (for each dart of `shape`, in order, a string of letters
/// `L` and `R`), and the `}` that ends a graph's JSON object to `out`. `AllocError` if memory runs out; `out` may then
/// end in a part of the text.
pub(crate) fn put_last(out: &mut Vec<u8>, shape: &Shape) -> Result<(), AllocError>
    ensures { OnOk result (out.new.items ≡ out.old.items
        ++ 44 ∷ (member_text (codes "status") (string (codes "ok"))
        ++ 44 ∷ (member_text (codes "turns") (array_of turns_data shape.now.strings) ++ 125 ∷ []))) }
{
    put_bytes(out, b",\"status\":\"ok\",\"turns\":")?;
    put_turns(out, shape)?;
    put_bytes(out, b"}")
}
