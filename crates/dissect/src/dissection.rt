//! The dissection of a shape into rectangles, the step before compaction (Tamassia 1987). The directions of all darts
//! are found by a graph search with a stack (Ahuja, Magnanti and Orlin, Network Flows, 1993, section 3.4). What boxes
//! keep of a plane are the paths of its edges. Buffers are reused.
ghost use Rattle.std.specs.Prelude.{◌≡◌, ◌+◌, ◌%◌, ◌<◌, ◌≤◌, [], length, replicate, vec_len, IfOk, OnOk, slice_index, ℕ, List, ◌∷◌, ◌++◌, slice_index_or};
ghost use Rattle.dissect.specs.Tables.{room, dart_map_of};
ghost use Rattle.ortho_rep.specs.declared.turn_strings.TheConstants.{MAX_TURNS};
ghost use Rattle.ortho_rep.specs.Turns.{lefts, rights};
ghost use Rattle.ortho_rep.specs.Shapes.{angle_at, turns_at};
ghost use Rattle.ortho_rep.specs.Representation.{IsShape};
ghost use Rattle.faces.specs.Planes.{darts};
ghost use Rattle.dissect.specs.Directions.{AreDirections};
ghost use Rattle.dissect.specs.declared.dissection.TheConstants.{NO_DIRECTION};
ghost use Rattle.dissect.specs.DirectionSearch.{IsGivenDirection};
ghost use Rattle.dissect.specs.Paths.{IsPath};
ghost use Rattle.dissect.specs.Boxed.{IsBoxed};
ghost use Rattle.dissect.specs.DirectionLists.{AreDirectionsOf};

use crate::boxes::Boxes;
use crate::face_list::Faces;
use crate::normalization::{lesser_darts_of, normalize_into};
use crate::refinement::refine_in;
use crate::table::{DartTable, NO_DART};
use common::{FlatLists, emptied, filled};
use faces::Plane;
use ortho_rep::{Shape, Turn, count_lefts};
use std::alloc::{AllocError, Global};
use std::mem;

/// The buffers of a dissection, reused for the next one. Their contents between two calls do not matter.
#[derive(Drop)]
pub struct Scratch {
    pub(crate) table: DartTable,
    pub(crate) search: DirectionSearch,
    pub(crate) faces: Faces,
    pub(crate) edges: Vec<u16>,
    pub(crate) darts: Vec<u32>,
    pub(crate) starts: Vec<usize>,
}

impl Scratch {
    /// An empty scratch. It allocates nothing.
    pub fn empty(alloc: Global) -> Scratch
        ensures { room result.table ≡ 0 }
    {
        Scratch {
            table: DartTable::empty(alloc),
            search: DirectionSearch::empty(alloc),
            faces: Faces::empty(alloc),
            edges: Vec::new(alloc),
            darts: Vec::new(alloc),
            starts: Vec::new(alloc),
        }
    }
}

/// Stands for no direction.
const NO_DIRECTION: u8 = 4;

/// A search for the directions of darts, whose buffers the next search reuses.
#[derive(Drop)]
pub struct DirectionSearch {
    /// The directions found so far, by dart.
    pub directions: Vec<u8>,
    // the darts with a direction from which to go on
    waiting: Vec<u16>,
}

impl DirectionSearch {
    /// A search with no darts and no directions. It allocates nothing.
    pub fn empty(alloc: Global) -> DirectionSearch
        ensures { result.directions.items ≡ [] }
    {
        DirectionSearch {
            directions: Vec::new(alloc),
            waiting: Vec::new(alloc),
        }
    }

    /// Consumes the search, and returns one in its buffers in which none of `darts` darts has a direction yet, and none
    /// waits. `AllocError` if there is no memory; the buffers are then gone.
    fn begun(self, darts: usize) -> Result<DirectionSearch, AllocError>
        ensures unset { IfOk result (λ s. s.directions.items ≡ replicate darts NO_DIRECTION) }
        ensures waiting { IfOk result (λ s. s.waiting.items ≡ []) }
    {
        Ok(DirectionSearch {
            directions: filled(self.directions, darts, NO_DIRECTION)?,
            waiting: emptied(self.waiting, darts)?,
        })
    }

    /// Gives a dart this direction, 0 to 3 quarter turns to the left from east, and pushes the dart on the stack of
    /// waiting darts; nothing changes if it has a direction already. `AllocError` if the stack needs memory and there
    /// is none; the dart then has the direction, but does not wait.
    fn reach(&mut self, dart: u16, direction: u8) -> Result<(), AllocError>
        requires { dart < vec_len self.old.directions }
        ensures { OnOk result (IsGivenDirection self.old.directions.items self.old.waiting.items dart direction
            self.new.directions.items self.new.waiting.items) }
    {
        if self.directions[usize::from(dart)] == NO_DIRECTION {
            self.directions[usize::from(dart)] = direction;
            self.waiting.push(dart)?;
        }
        Ok(())
    }
}

/// The direction of the dart that arrives next clockwise at the head of a dart with this direction and angle:
/// `direction` less `angle` quarter turns. Directions are 0 to 3 quarter turns to the left from east.
fn clockwise_direction(direction: u8, angle: u8) -> u8
    requires quarter { direction < 4 }
    requires right { angle ≤ 4 }
    ensures quarter { result < 4 }
    ensures turned { (result + angle) % 4 ≡ direction }
{
    (direction + 4 - angle) % 4
}

/// The direction in which the reverse of a dart arrives at its head, if the dart arrives in `direction` and makes these
/// turns in walking order. Directions are 0 to 3 quarter turns to the left from east.
fn reverse_direction(direction: u8, turns: &[Turn]) -> u8
    requires { length turns.now ≤ MAX_TURNS }
    ensures quarter { result < 4 }
    ensures turned { (result + 2 + lefts turns.now) % 4 ≡ (direction + rights turns.now) % 4 }
{
    let lefts = count_lefts(turns);
    let rights = turns.len() - lefts;
    // Walked the other way, a right turn is one turn to the left and a left turn is three.
    ((usize::from(direction) + 2 + rights + 3 * lefts) % 4) as u8
}

/// Finds the direction in which each dart of an orthogonal representation arrives at its head; in the result,
/// `directions[d]` is that of dart d, 0 to 3 quarter turns to the left from east. It consumes `search` and reuses its
/// buffers. `AllocError` if there is no memory; these buffers are then gone.
///
/// The direction of a dart is that in which it arrives at its head, in quarter turns to the left from east: 0 is east,
/// 1 north, 2 west and 3 south. Dart 0 arrives to the east. Linear in the darts and the turns. It reuses the buffers of
/// `search`, and allocates, a few bytes for each dart, only if they are too small.
///
/// # Errors
///
/// `AllocError` if there is no memory for the directions or for the darts that wait in the search; the buffers of
/// `search` are then gone.
pub fn directions_in(
    plane: &Plane,
    shape: &Shape,
    search: DirectionSearch,
) -> Result<DirectionSearch, AllocError>
    requires { IsShape plane.now shape.now }
    ensures count { IfOk result (λ s. length s.directions.items ≡ darts plane.now) }
    ensures first { IfOk result (λ s. slice_index s.directions.items 0 ≡ 0) }
    ensures directions { IfOk result (λ s. AreDirections plane.now (angle_at shape.now)
        (turns_at shape.now) (slice_index s.directions.items)) }
{
    let graph = plane.graph();
    let mut search = search.begun(usize::from(graph.darts()))?;
    search.reach(0, 0)?;
    while let Some(dart) = search.waiting.pop() {
        let direction = search.directions[usize::from(dart)];
        let clockwise = graph.reverse(plane.next(dart));
        search.reach(clockwise, clockwise_direction(direction, shape.angle(dart)))?;
        let reverse = graph.reverse(dart);
        search.reach(reverse, reverse_direction(direction, shape.turns(dart)))?;
    }
    Ok(search)
}

/// Appends to `darts` the darts of the path that ends with the dart `last`, in walking order, `last` included.
/// `AllocError` if there is no memory; some of them may then be appended, in the wrong order.
///
/// Linear in the darts of the path.
fn push_path(darts: &mut Vec<u32>, table: &DartTable, last: u32) -> Result<(), AllocError>
    requires path { (first : ℕ) × (rest : List ℕ) × IsPath (dart_map_of table.now) last first rest }
    ensures { OnOk result ((first : ℕ) (rest : List ℕ) → IsPath (dart_map_of table.now) last first rest
        → darts.new.items ≡ darts.old.items ++ (first ∷ rest)) }
{
    let start = darts.len();
    darts.push(last)?;
    let mut dart = last;
    'back: while table.before[dart as usize] != NO_DART {
        dart = table.before[dart as usize];
        darts.push(dart)?;
    }
    darts[start..].reverse();
    Ok(())
}

/// The paths of edges, each the list of the darts that make it up, in walking order; path k is that of the edge whose
/// last dart is item k of `edges`. They are in the buffers of `darts` and `starts`. `AllocError` if there is no memory;
/// both buffers are then gone.
///
/// Linear in the darts of the paths.
pub fn paths_of(
    table: &DartTable,
    edges: &[u16],
    darts: Vec<u32>,
    starts: Vec<usize>,
) -> Result<FlatLists<u32>, AllocError>
    requires paths { (e : ℕ) → e < length edges.now
        → (first : ℕ) × (rest : List ℕ) × IsPath (dart_map_of table.now) (slice_index edges.now e) first rest }
    ensures count { IfOk result (λ paths. length paths ≡ length edges.now) }
    ensures paths { IfOk result (λ paths. (e : ℕ) → e < length edges.now → (first : ℕ) (rest : List ℕ)
        → IsPath (dart_map_of table.now) (slice_index edges.now e) first rest → slice_index_or paths e [] ≡ first ∷ rest) }
{
    // No two paths share a dart, and none has its reverse: half of all darts are room enough.
    let mut darts = emptied(darts, table.darts as usize / 2)?;
    let mut starts = emptied(starts, edges.len() + 1)?;
    starts.push(0)?;
    'edges: for last in edges {
        push_path(&mut darts, table, u32::from(*last))?;
        starts.push(darts.len())?;
    }
    Ok(FlatLists::new(darts, starts))
}

/// The dissection of an orthogonal representation of a plane into boxes. `AllocError` if there is no memory for the
/// boxes, or if their table needs room for 2^32 darts or more.
///
/// Each dart is given a direction, each edge is subdivided at its turns, a rectangle is put round the whole and
/// connected to it at a right turn of the outer face, and each face is cut at its right turns until all are boxes
/// (after Tamassia 1987, each corner read once). For n vertices and b bends there are at most 3n + 2b + 5 vertices.
/// Linear in the boxes.
///
/// # Errors
///
/// `AllocError` if there is no memory for the boxes, or their table needs room for 2^32 darts or more (over
/// 1,431,000,000 turns in all); there is no other error.
pub fn dissect(alloc: Global, plane: &Plane, shape: &Shape) -> Result<Boxes, AllocError>
    requires { IsShape plane.now shape.now }
    ensures { IfOk result (IsBoxed plane.now shape.now) }
{
    let mut scratch = Scratch::empty(alloc);
    dissect_in(alloc, &mut scratch, plane, shape)
}

/// The dissection of an orthogonal representation into boxes, exactly as [`dissect`], but the boxes take buffers from
/// `scratch`, and `Boxes::give_back` returns those. It allocates only if the buffers are too small. `AllocError` as
/// [`dissect`]; the buffers of `scratch` may then be gone.
///
/// # Errors
///
/// `AllocError` as [`dissect`], and no other; the buffers of the scratch may be gone then.
pub fn dissect_in(
    alloc: Global,
    scratch: &mut Scratch,
    plane: &Plane,
    shape: &Shape,
) -> Result<Boxes, AllocError>
    requires { IsShape plane.now shape.now }
    ensures { IfOk result (IsBoxed plane.now shape.now) }
{
    let lent = mem::replace(&mut scratch.search, DirectionSearch::empty(alloc));
    let search = directions_in(plane, shape, lent)?;
    let boxes = dissect_along(alloc, scratch, plane, shape, &search.directions)?;
    scratch.search = search;
    Ok(boxes)
}

/// The dissection of an orthogonal representation into boxes, given the directions of its darts, as `directions_in`
/// finds them. The boxes take buffers from `scratch`, as in [`dissect_in`]. `AllocError` as [`dissect`]; the buffers of
/// `scratch` are then gone.
///
/// # Errors
///
/// `AllocError` as [`dissect`], and no other; the buffers of the scratch are then gone.
pub fn dissect_along(
    alloc: Global,
    scratch: &mut Scratch,
    plane: &Plane,
    shape: &Shape,
    directions: &[u8],
) -> Result<Boxes, AllocError>
    requires shape { IsShape plane.now shape.now }
    requires directions { AreDirectionsOf plane.now shape.now directions.now }
    ensures { IfOk result (IsBoxed plane.now shape.now) }
{
    let Scratch {
        table,
        search,
        faces,
        edges,
        darts,
        starts,
    } = mem::replace(scratch, Scratch::empty(alloc));
    let edges = lesser_darts_of(plane, edges)?;
    let mut table = normalize_into(table, plane, shape, directions, &edges)?;
    let outer = plane.least_dart(plane.outer());
    let faces = refine_in(&mut table, u32::from(outer), faces)?;
    let old = plane.graph().vertices();
    let paths = paths_of(&table, &edges, darts, starts)?;
    scratch.search = search;
    scratch.faces = faces;
    Ok(Boxes::of(table, old, edges, paths))
}
