//! Normalization (Tamassia 1987): the map of a plane in four directions, with a vertex at each bend. The darts of the
//! plane are the first darts of a table, in which edges have no bends yet. Each quarter turn of an orthogonal
//! representation subdivides an edge by a new vertex: along the string of the lesser dart of each edge, in walking
//! order, so that this dart and its reverse stay the last parts of the two walks along it.
ghost use Rattle.std.specs.Prelude.{◌≡◌, ◌+◌, ◌*◌, ◌<◌, ◌≤◌, IfOk, length, ◌-◌, ◌^◌, ℕ, OnErr, slice_index, slice_set, map};
ghost use Rattle.ortho_rep.specs.Edges.{lesser_darts};
ghost use Rattle.dissect.specs.DartMaps.{IsTied, IsMeeting, IsSound, reflex_turns};
ghost use Rattle.dissect.specs.Tables.{dart_map_of, room};
ghost use Rattle.dissect.specs.Steps.{IsBent, angle_of};
ghost use Rattle.faces.specs.Planes.{darts, head, reverse_dart, next, face_at, vertices};
ghost use Rattle.ortho_rep.specs.Shapes.{angle_at, turns_at};
ghost use Rattle.ortho_rep.specs.Representation.{HasDarts, IsShape};
ghost use Rattle.dissect.specs.declared.table.TheConstants.{NO_DART, RECTANGLE_ROOM};
ghost use Rattle.dissect.specs.Bare.{IsBare, IsBlank, room_of};
ghost use Rattle.dissect.specs.Directions.{AreDirections};
ghost use Rattle.dissect.specs.Paths.{HasPaths, IsConnected};
ghost use Rattle.dissect.specs.Chains.{AreChains};
ghost use Rattle.dissect.specs.Labels.{IsLabelling};
ghost use Rattle.dissect.specs.Bends.{CountsBends, KeepsDarts, KeepsFaces};

use crate::table::{DartTable, NO_DART, RECTANGLE_ROOM};
use common::{emptied, filled};
use faces::Plane;
use ortho_rep::{Shape, Turn};
use std::alloc::{AllocError, Global};

/// The angle on the left of a walk that makes this turn, in right angles: 1 for a left turn, 3 for a right turn.
fn angle_of(turn: Turn) -> u8
    ensures { result ≡ angle_of turn }
{
    match turn {
        Turn::Left => 1,
        Turn::Right => 3,
    }
}

/// Subdivides in `table` the edge of the dart `e` by a new vertex for each of these turns, in walking order; `e` stays
/// the last part of the walk. `table` must have room for two more darts for each turn, so it does not grow.
///
/// Constant time for a turn.
pub fn bend_edge(table: &mut DartTable, e: u32, turns: &[Turn])
    requires tied { IsTied (dart_map_of table.old) }
    requires meeting { IsMeeting (dart_map_of table.old) }
    requires inside { e < table.old.darts }
    requires space { table.old.darts + 2 * length turns.now ≤ room table.old }
    ensures bent { IsBent e (dart_map_of table.old) turns.now (dart_map_of table.new) }
    ensures tied { IsTied (dart_map_of table.new) }
    ensures meeting { IsMeeting (dart_map_of table.new) }
    ensures darts { table.new.darts ≡ table.old.darts + 2 * length turns.now }
    ensures room { room table.new ≡ room table.old }
{
    'turns: for turn in turns {
        let reverse_dart = table.reverse_dart[e as usize];
        let way = (table.direction[reverse_dart as usize] + 2) % 4;
        table.subdivide(e, way, angle_of(*turn));
    }
}

/// The lesser dart of each edge of `plane`, in ascending order, in the buffer of `edges`. `AllocError` if there is no
/// memory; `edges` is then gone.
pub fn lesser_darts_of(plane: &Plane, edges: Vec<u16>) -> Result<Vec<u16>, AllocError>
    ensures { IfOk result (λ edges. edges.items ≡ lesser_darts plane.now) }
{
    let graph = plane.graph();
    let mut edges = emptied(edges, usize::from(graph.edges()))?;
    for dart in graph.lesser_darts() {
        edges.push(dart)?;
    }
    Ok(edges)
}

/// The number of darts for which the table of a shape needs room. `AllocError` exactly if they are 2^32 or more: no
/// table has room for so many. It allocates nothing.
///
/// These are the plane's darts, two for each bend, four for each right turn, of which there are at most two for each
/// vertex and one for each bend, and `RECTANGLE_ROOM` for a rectangle round it. A bend is two turns here, one of each
/// dart of its edge. Linear in the darts.
///
/// # Errors
///
/// `AllocError` exactly if they are 2^32 or more: no table has room for so many.
pub fn room_for(plane: &Plane, shape: &Shape) -> Result<u32, AllocError>
    requires { HasDarts plane.now shape.now }
    ensures room { IfOk result (λ room. room ≡ room_of plane.now shape.now) }
    ensures refused { OnErr result (2 ^ 32 ≤ room_of plane.now shape.now) }
{
    let graph = plane.graph();
    let turns = shape.turn_count();
    let old = u64::from(graph.darts()) + 8 * u64::from(graph.vertices());
    match u32::try_from(old + 3 * turns + u64::from(RECTANGLE_ROOM)) {
        Ok(room) => Ok(room),
        Err(_) => Err(AllocError),
    }
}

/// A table of `darts` darts and `vertices` vertices, whose items mean nothing yet, with room for at least `places`
/// darts, in the buffers of `table`. `AllocError` if they are too short and there is no memory; `table` is then gone.
///
/// The lists are filled anew only if they are too short.
fn blank_table(
    table: DartTable,
    darts: u32,
    vertices: u32,
    places: u32,
) -> Result<DartTable, AllocError>
    requires space { darts ≤ places }
    requires few { vertices ≤ darts }
    ensures { IfOk result (IsBlank darts vertices places) }
{
    let places = places as usize;
    if places <= table.next.len() {
        return Ok(DartTable {
            next: table.next,
            prev: table.prev,
            reverse_dart: table.reverse_dart,
            head: table.head,
            before: table.before,
            direction: table.direction,
            angle: table.angle,
            darts,
            vertices,
        });
    }
    Ok(DartTable {
        next: filled(table.next, places, 0)?,
        prev: filled(table.prev, places, 0)?,
        reverse_dart: filled(table.reverse_dart, places, 0)?,
        head: filled(table.head, places, 0)?,
        before: filled(table.before, places, NO_DART)?,
        direction: filled(table.direction, places, 0)?,
        angle: filled(table.angle, places, 0)?,
        darts,
        vertices,
    })
}

/// Writes `directions`, in the order of darts from 0 on, over the first items of the list of directions in `table`,
/// which must be long enough. Nothing else of `table` changes.
fn put_directions(table: &mut DartTable, directions: &[u8])
    requires inside { length directions.now ≤ room table.old }
    ensures here { (k : ℕ) → k < length directions.now
        → slice_index table.new.direction.items k ≡ slice_index directions.now k }
    ensures darts { table.new.darts ≡ table.old.darts }
    ensures vertices { table.new.vertices ≡ table.old.vertices }
    ensures room { room table.new ≡ room table.old }
{
    table.direction[0..directions.len()].copy_from_slice(directions);
}

/// Writes to `table` the next dart, reverse, head and angle of the dart `dart` of the plane, and `NO_DART` as the dart
/// before it on its edge, and makes it the previous dart of its next. Its direction and its own previous dart are not
/// written.
fn write_dart(table: &mut DartTable, plane: &Plane, shape: &Shape, dart: u16)
    requires within { dart < darts plane.now }
    requires space { darts plane.now ≤ room table.old }
    requires shape { HasDarts plane.now shape.now }
    ensures next { table.new.next.items ≡ slice_set table.old.next.items dart (next plane.now dart) }
    ensures prev { table.new.prev.items ≡ slice_set table.old.prev.items (next plane.now dart) dart }
    ensures reverse_dart { table.new.reverse_dart.items ≡ slice_set table.old.reverse_dart.items dart (reverse_dart plane.now dart) }
    ensures head { table.new.head.items ≡ slice_set table.old.head.items dart (head plane.now dart - 1) }
    ensures direction { table.new.direction.items ≡ table.old.direction.items }
    ensures angle { table.new.angle.items
        ≡ slice_set table.old.angle.items dart (angle_at shape.now dart) }
    ensures before { table.new.before.items ≡ slice_set table.old.before.items dart NO_DART }
    ensures darts { table.new.darts ≡ table.old.darts }
    ensures vertices { table.new.vertices ≡ table.old.vertices }
    ensures room { room table.new ≡ room table.old }
{
    let graph = plane.graph();
    let place = usize::from(dart);
    let next = plane.next(dart);
    table.next[place] = u32::from(next);
    table.prev[usize::from(next)] = u32::from(dart);
    table.reverse_dart[place] = u32::from(graph.reverse(dart));
    table.head[place] = u32::from(graph.head(dart)) - 1;
    table.before[place] = NO_DART;
    table.angle[place] = shape.angle(dart);
}

/// The table of a plane's darts with these directions and the angles of the shape, but without bends, with room for at
/// least `places` darts, in the buffers of `table`. `AllocError` if there is no memory; `table` is then gone.
///
/// Linear in the darts; if the buffers are too small, an allocation for each, and time linear in their places.
pub fn bare_table(
    table: DartTable,
    plane: &Plane,
    shape: &Shape,
    directions: &[u8],
    places: u32,
) -> Result<DartTable, AllocError>
    requires shape { HasDarts plane.now shape.now }
    requires directions { length directions.now ≡ darts plane.now }
    requires space { darts plane.now ≤ places }
    ensures bare { IfOk result (λ t. IsBare plane.now (angle_at shape.now)
        (slice_index directions.now) (dart_map_of t)) }
    ensures room { IfOk result (λ t. places ≤ room t) }
{
    let graph = plane.graph();
    let darts = u32::from(graph.darts());
    let vertices = u32::from(graph.vertices());
    let mut table = blank_table(table, darts, vertices, places)?;
    put_directions(&mut table, directions);
    'darts: for dart in 0..graph.darts() {
        write_dart(&mut table, plane, shape, dart);
    }
    Ok(table)
}

/// Returns the map of a plane with a vertex at each bend, so that each edge is straight, in the buffers of `table`.
/// `directions` must be those of the shape, and `edges` the lesser darts. `AllocError` if there is no memory for the
/// table, or it needs room for 2^32 darts or more; `table` is then gone.
///
/// The table has the map's darts and vertices, with room for a rectangle round it and for cuts at all right turns.
/// `edges` has the lesser darts of the edges.
///
/// The plane's darts keep their numbers, heads, angles and faces; vertex v has the number v - 1. Each of
/// them is the last dart of its edge: `before` leads back along the edge, which turns as its string says. Each
/// dart of the map lies in the face of the plane's dart of which it is a part.
/// The directions are counted by quarter turns to the left from east. Linear in the darts and the turns. It reuses the
/// buffers of `table`, with one allocation for each array that is too small.
///
/// # Errors
///
/// `AllocError` if there is no memory for the table, or it needs room for 2^32 darts or more; the buffers of `table`
/// are then gone.
pub fn normalize_into(
    table: DartTable,
    plane: &Plane,
    shape: &Shape,
    directions: &[u8],
    edges: &[u16],
) -> Result<DartTable, AllocError>
    requires shape { IsShape plane.now shape.now }
    requires count { length directions.now ≡ darts plane.now }
    requires directions { AreDirections plane.now (angle_at shape.now) (turns_at shape.now) (slice_index directions.now) }
    requires edges { edges.now ≡ lesser_darts plane.now }
    ensures sound { IfOk result (λ t. IsSound (dart_map_of t)) }
    ensures darts { IfOk result (λ t. KeepsDarts plane.now (angle_at shape.now) (dart_map_of t)) }
    ensures directions { IfOk result (λ t. AreDirections plane.now (angle_at shape.now)
        (turns_at shape.now) (dart_map_of t).direction) }
    ensures faces { IfOk result (λ t. KeepsFaces plane.now (dart_map_of t)) }
    ensures counts { IfOk result (λ t. CountsBends plane.now (turns_at shape.now) (dart_map_of t)) }
    ensures paths { IfOk result (λ t. HasPaths (dart_map_of t) (darts plane.now) (reverse_dart plane.now)
        (λ d. map angle_of (turns_at shape.now d))) }
    ensures chains { IfOk result (λ t. AreChains (vertices plane.now) (dart_map_of t)) }
    ensures connected { IfOk result (λ t. IsConnected (dart_map_of t)) }
    ensures labelled { IfOk result (λ t. (label : ℕ → ℕ) × IsLabelling (darts plane.now) (face_at plane.now) (dart_map_of t) label) }
    ensures space { IfOk result (λ t. t.darts + 4 * reflex_turns (dart_map_of t) + RECTANGLE_ROOM ≤ room t) }
{
    // Only the proof needs this: `graph` says that the plane is one.
    let _graph = plane.graph();
    let room = room_for(plane, shape)?;
    let mut table = bare_table(table, plane, shape, directions, room)?;
    'edges: for dart in edges {
        bend_edge(&mut table, u32::from(*dart), shape.turns(*dart));
    }
    Ok(table)
}
