//! Longest paths (Lengauer 1990) over segments: vertices that darts across join, by the neighbours of each vertex.
//! Segments come in a topological order: the preorder of a depth-first tree, which has of the arcs to a segment the one
//! farthest to the right. In a plane map with one source and one sink, as boxes are, an arc from a segment that comes
//! later would have to cross the path of the tree. All is inlined into the two calls of `lower_bounds_along`, so that
//! the directions of an axis are constants.
ghost use Rattle.std.specs.Prelude.{◌≡◌, ℕ, ◌*◌, ◌<◌, length, IfOk, ◌^◌, ◌≤◌};
ghost use Rattle.compact.specs.Neighbours.{AreNeighbours, HasNeighbours, neighbour, AreUnder, Grow, StayEqual, StayUnder};
ghost use Rattle.dissect.specs.Boxes.{dart_map};
ghost use Rattle.compact.specs.Monotone.{growth, across};

use crate::axis::Axis;
use common::filled;
use dissect::Boxes;
use ortho_rep::MAX_COORDINATE;
use std::alloc::AllocError;

/// The value for a missing vertex, greater than any vertex number.
pub const NO_VERTEX: u32 = u32::MAX;

/// The neighbours of each vertex of `boxes`, four items for each in turn: the vertices to which darts lead from it to
/// the east, north, west and south, `NO_VERTEX` where none does. They are in the buffer of `around`. `AllocError` if
/// there is no memory; `around` is then gone.
///
/// Linear in the darts.
pub fn neighbours_of(boxes: &Boxes, around: Vec<u32>) -> Result<Vec<u32>, AllocError>
    ensures neighbours { IfOk result (λ around. AreNeighbours (dart_map boxes.now) around.items boxes.now.vertices) }
    ensures all_neighbours { IfOk result (λ around. HasNeighbours (dart_map boxes.now) around.items boxes.now.darts) }
    ensures count { IfOk result (λ around. length around.items ≡ 4 * boxes.now.vertices) }
{
    let mut around = filled(around, 4 * boxes.vertices() as usize, NO_VERTEX)?;
    let heads = boxes.heads();
    let reverse_darts = boxes.reverse_darts();
    let directions = boxes.directions();
    for dart in 0..boxes.darts() as usize {
        let from = heads[reverse_darts[dart] as usize];
        around[4 * from as usize + usize::from(directions[dart])] = heads[dart];
    }
    Ok(around)
}

/// The neighbours of each vertex, with the numbers of the four directions as seen along an axis.
#[derive(Clone, Copy)]
pub struct Neighbours<'a> {
    /// The next vertex of each vertex in each of the four directions, out of range if there is none.
    pub around: &'a [u32],
    /// The direction along the axis.
    pub ahead: u8,
    /// The direction against it.
    pub back: u8,
    /// The direction a quarter turn to the left of `ahead`.
    pub left: u8,
    /// The direction a quarter turn to the right of `ahead`.
    pub right: u8,
}

impl<'a> Neighbours<'a> {
    /// The neighbours `around`, four for each vertex, with the numbers of the directions as seen along `axis`: 0 is
    /// east, 1 north, 2 west and 3 south. `ahead` is 0 for x and 1 for y; from it `left`, `back` and `right` follow by
    /// quarter turns to the left.
    #[inline(always)]
    pub fn along(around: &'a [u32], axis: Axis) -> Neighbours<'a>
        ensures around { result.around.now ≡ around.now }
        ensures ahead { (result.ahead < 4) × (result.ahead ≡ growth axis) }
        ensures left { (result.left < 4) × (result.left ≡ across axis) }
        ensures right { result.right < 4 }
        ensures back { result.back < 4 }
    {
        let (ahead, left, back, right) = match axis {
            Axis::X => (0, 1, 2, 3),
            Axis::Y => (1, 2, 3, 0),
        };
        Neighbours {
            around,
            ahead,
            back,
            left,
            right,
        }
    }
}

/// A stack of the first vertices of segments that are still to come. The first vertex of a segment has no neighbour to
/// its right.
///
/// Time and the coordinates depend on what it holds: where a segment comes twice, its second visit can even lower a
/// coordinate. Whatever it holds, no coordinate goes above any that grow along the arcs; only that is proved.
#[derive(Drop)]
struct SegmentStack<'a> {
    firsts: &'a mut [u32],
    count: usize,
}

impl SegmentStack<'_> {
    /// Pushes the vertex `first` if `comes` is true and the stack is not full; a full stack stays as it is, and never
    /// grows. If it is not full, the place above the top is written in any case: which vertices come cannot be
    /// predicted, so no branch depends on it.
    fn push(&mut self, first: u32, comes: bool) {
        if self.count < self.firsts.len() {
            self.firsts[self.count] = first;
            self.count += usize::from(comes);
        }
    }

    /// Removes the vertex on top of the stack and returns it. If the stack is empty, returns `NO_VERTEX`.
    fn pop(&mut self) -> u32 {
        let Some(top) = self.count.checked_sub(1) else {
            return NO_VERTEX;
        };
        self.count = top;
        self.firsts.get(top).copied().unwrap_or(NO_VERTEX)
    }
}

/// The first vertex, from `begin` to `vertices` - 1, with no neighbour to its right and none at its back, or
/// `NO_VERTEX` if there is none. In boxes, all segments are reached from the segment of that vertex.
#[inline(always)]
fn find_source(neighbours: Neighbours<'_>, begin: u32, vertices: u32) -> u32
    requires directions { (neighbours.right < 4) × (neighbours.back < 4) }
    requires count { length neighbours.around.now ≡ 4 * vertices }
{
    for vertex in begin..vertices {
        let place = 4 * vertex as usize;
        let right = neighbours.around[place + usize::from(neighbours.right)];
        if right >= vertices {
            let back = neighbours.around[place + usize::from(neighbours.back)];
            if back >= vertices {
                return vertex;
            }
        }
    }
    NO_VERTEX
}

/// The greatest of `coordinates` on a segment: that of its first vertex `first`, and of each next vertex in the
/// direction `left`, up to one with no neighbour there.
#[inline(always)]
fn greatest_on(around: &[u32], left: u8, first: u32, coordinates: &[u16]) -> u16
    requires left { left < 4 }
    requires first { first < length coordinates.now }
    requires count { length around.now ≡ 4 * length coordinates.now }
    ensures { (y : ℕ → ℕ) → StayEqual (neighbour around.now left) (length coordinates.now) y
        → AreUnder (length coordinates.now) coordinates.now y → result ≤ y first }
{
    let mut greatest = coordinates[first as usize];
    let mut vertex = first;
    for _ in 0..coordinates.len() {
        let next = around[4 * vertex as usize + usize::from(left)];
        if next as usize >= coordinates.len() {
            return greatest;
        }
        vertex = next;
        greatest = greatest.max(coordinates[vertex as usize]);
    }
    greatest
}

/// Sets the item of `coordinates` of `vertex` to `coordinate`, and that of the next vertex along the axis, if there is
/// one, to one more, but no more than 65,535, whatever it was. Pushes the next vertex on `stack`, unless that is full,
/// if it is the first of its segment.
#[inline(always)]
fn place_vertex(
    neighbours: Neighbours<'_>,
    vertex: u32,
    coordinate: u16,
    stack: &mut SegmentStack<'_>,
    coordinates: &mut [u16],
)
    requires directions { (neighbours.ahead < 4) × (neighbours.right < 4) }
    requires vertex { vertex < length coordinates.old }
    requires count { length neighbours.around.now ≡ 4 * length coordinates.old }
    ensures under { (y : ℕ → ℕ) → Grow (neighbour neighbours.entry.around.now neighbours.entry.ahead) (length coordinates.old) y
        → coordinate ≤ y vertex → AreUnder (length coordinates.old) coordinates.old y → AreUnder (length coordinates.old) coordinates.new y }
    ensures count { length coordinates.new ≡ length coordinates.old }
{
    coordinates[vertex as usize] = coordinate;
    let to = neighbours.around[4 * vertex as usize + usize::from(neighbours.ahead)];
    if to as usize >= coordinates.len() {
        return;
    }
    coordinates[to as usize] = (u32::from(coordinate) + 1).min(MAX_COORDINATE) as u16;
    let right = neighbours.around[4 * to as usize + usize::from(neighbours.right)];
    stack.push(to, right as usize >= coordinates.len());
}

/// Sets the items of `coordinates` of all vertices of the segment whose first vertex is `first` to the greatest among
/// them, and those of the next vertices along the axis to one more, but no more than 65,535. Pushes on `stack`, unless
/// that is full, the next vertices that are the first of their segments.
#[inline(always)]
fn place_segment(
    neighbours: Neighbours<'_>,
    first: u32,
    stack: &mut SegmentStack<'_>,
    coordinates: &mut [u16],
)
    requires directions { (neighbours.ahead < 4) × (neighbours.left < 4) × (neighbours.right < 4) }
    requires first { first < length coordinates.old }
    requires count { length neighbours.around.now ≡ 4 * length coordinates.old }
    ensures under { StayUnder (length coordinates.old) (neighbour neighbours.entry.around.now neighbours.entry.ahead) (neighbour neighbours.entry.around.now neighbours.entry.left) coordinates.old coordinates.new }
    ensures count { length coordinates.new ≡ length coordinates.old }
{
    let greatest = greatest_on(neighbours.around, neighbours.left, first, coordinates);
    let mut vertex = first;
    for _ in 0..coordinates.len() {
        place_vertex(neighbours, vertex, greatest, stack, coordinates);
        let next = neighbours.around[4 * vertex as usize + usize::from(neighbours.left)];
        if next as usize >= coordinates.len() {
            return;
        }
        vertex = next;
    }
}

/// Sets `coordinates`, all 0 at first, to lengths of longest paths along the axis of `neighbours`, at most 65,535, if
/// all faces are boxes. It overwrites `stack`, which has a place for each vertex and does not grow. `coordinates` stays
/// as it is if no vertex from `begin` on can be the first of all.
///
/// Segments are placed in a topological order, and wait in `stack`. The first one of all is looked for from the vertex
/// `begin` on. If all faces are boxes, it visits each segment once, in time linear in the vertices. What is proved, of
/// any faces, is that no coordinate goes above any that grow along the arcs.
#[inline(always)]
pub fn raise_to_longest_paths(
    stack: &mut [u32],
    neighbours: Neighbours<'_>,
    begin: u32,
    coordinates: &mut [u16],
)
    requires directions { (neighbours.ahead < 4) × (neighbours.left < 4) × (neighbours.right < 4) × (neighbours.back < 4) }
    requires count { length neighbours.around.now ≡ 4 * length coordinates.old }
    requires few { length coordinates.old < 2 ^ 32 }
    ensures under { StayUnder (length coordinates.old) (neighbour neighbours.entry.around.now neighbours.entry.ahead) (neighbour neighbours.entry.around.now neighbours.entry.left) coordinates.old coordinates.new }
    ensures count { length coordinates.new ≡ length coordinates.old }
{
    let source = find_source(neighbours, begin, coordinates.len() as u32);
    let mut waiting = SegmentStack {
        firsts: stack,
        count: 0,
    };
    waiting.push(source, true);
    for _ in 0..coordinates.len() {
        let first = waiting.pop();
        if first as usize >= coordinates.len() {
            break;
        }
        place_segment(neighbours, first, &mut waiting, coordinates);
    }
}
