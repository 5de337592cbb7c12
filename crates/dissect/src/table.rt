//! The table of a map's darts (half-edges), whose edges are subdivided and to which chords are added. Its lists have
//! the next dart of a face, the dart before on an edge, and the reverse.
ghost use Rattle.std.specs.Prelude.{◌≡◌, ◌≢◌, ◌+◌, ◌^◌, ◌<◌, ◌≤◌, vec_len, slice_index, slice_set};

use std::alloc::Global;

/// The value for a missing dart.
pub const NO_DART: u32 = u32::MAX;

/// The additional room, in darts, that a table needs for a rectangle round its map.
///
/// These are 8 for the sides, and 4 for each of the four right turns at its corners, as for each other right turn.
pub const RECTANGLE_ROOM: u32 = 24;

/// The darts of a map whose edges run along the axes, in flat arrays with room for more darts.
///
/// Darts and vertices are numbered from 0, directions by quarter turns to the left from east, and angles count right
/// angles.
#[derive(Drop)]
pub struct DartTable {
    /// The next dart of the face on the left.
    pub next: Vec<u32>,
    /// The previous dart of that face.
    pub prev: Vec<u32>,
    /// The dart along the same edge the other way.
    pub reverse_dart: Vec<u32>,
    /// The vertex that the dart goes to.
    pub head: Vec<u32>,
    /// The dart before it on the same edge of the plane, side of a rectangle or chord, or `NO_DART`
    /// if it is the first there.
    pub before: Vec<u32>,
    /// The direction in which it arrives.
    pub direction: Vec<u8>,
    /// The angle at its head, between it and the next dart.
    pub angle: Vec<u8>,
    pub darts: u32,
    pub vertices: u32,
    ghost prev_room: { vec_len prev ≡ vec_len next },
    ghost reverse_dart_room: { vec_len reverse_dart ≡ vec_len next },
    ghost head_room: { vec_len head ≡ vec_len next },
    ghost before_room: { vec_len before ≡ vec_len next },
    ghost direction_room: { vec_len direction ≡ vec_len next },
    ghost angle_room: { vec_len angle ≡ vec_len next },
    ghost darts_in: { darts ≤ vec_len next },
    ghost few: { vertices ≤ darts },
    ghost darts_fit: { vec_len next < 2 ^ 32 },
}

impl DartTable {
    ghost use Rattle.dissect.specs.DartMaps.{IsTied, IsSubdivided, IsChord, HasChordAngles};
    ghost use Rattle.dissect.specs.Tables.{dart_map_of, room};

    /// A table with no darts and no room. It allocates nothing.
    pub fn empty(alloc: Global) -> DartTable
        ensures { room result ≡ 0 }
    {
        DartTable {
            next: Vec::new(alloc),
            prev: Vec::new(alloc),
            reverse_dart: Vec::new(alloc),
            head: Vec::new(alloc),
            before: Vec::new(alloc),
            direction: Vec::new(alloc),
            angle: Vec::new(alloc),
            darts: 0,
            vertices: 0,
        }
    }

    /// Subdivides the edge of the dart `e` by a new vertex, at which `e` and its old reverse then start, and two new
    /// darts end. The table must have room for two more darts, so it does not grow.
    ///
    /// At the new vertex the walk along `e` arrives in the direction `way` and has the angle `left_angle` on its left.
    pub fn subdivide(&mut self, e: u32, way: u8, left_angle: u8)
        requires tied { IsTied (dart_map_of self.old) }
        requires e_in { e < self.old.darts }
        requires space { self.old.darts + 2 ≤ room self.old }
        requires quarter { way < 4 }
        requires short { left_angle ≤ 4 }
        ensures subdivide { IsSubdivided (dart_map_of self.old) e way left_angle (dart_map_of self.new) }
        ensures room { room self.new ≡ room self.old }
    {
        let first = self.darts;
        let second = first + 1;
        let vertex = self.vertices;
        let reverse_dart = self.reverse_dart[e as usize];
        put_before(&mut self.next, &mut self.prev, first, e);
        put_before(&mut self.next, &mut self.prev, second, reverse_dart);
        pair(&mut self.reverse_dart, e, second);
        pair(&mut self.reverse_dart, reverse_dart, first);
        put_before_on_edge(&mut self.before, first, e);
        put_before_on_edge(&mut self.before, second, reverse_dart);
        self.head[first as usize] = vertex;
        self.head[second as usize] = vertex;
        self.direction[first as usize] = way;
        self.direction[second as usize] = (way + 4 - left_angle) % 4;
        self.angle[first as usize] = left_angle;
        self.angle[second as usize] = 4 - left_angle;
        self.darts += 2;
        self.vertices += 1;
    }

    /// Connects the head of the dart `d` to the head of the dart `f` by a new edge of two darts, which leaves the head
    /// of `d` in the direction `way`. The table must have room for two more darts, so it does not grow.
    ///
    /// The edge lies in the angles at the two heads, and takes one right angle from each.
    pub fn chord(&mut self, d: u32, f: u32, way: u8)
        requires tied { IsTied (dart_map_of self.old) }
        requires fits { HasChordAngles (dart_map_of self.old) d f way }
        requires space { self.old.darts + 2 ≤ room self.old }
        ensures chord { IsChord (dart_map_of self.old) d f way (dart_map_of self.new) }
        ensures room { room self.new ≡ room self.old }
    {
        let there = self.darts;
        let back = there + 1;
        let after_d = self.next[d as usize];
        let after_f = self.next[f as usize];
        set_next(&mut self.next, &mut self.prev, d, there);
        set_next(&mut self.next, &mut self.prev, there, after_f);
        set_next(&mut self.next, &mut self.prev, f, back);
        set_next(&mut self.next, &mut self.prev, back, after_d);
        pair(&mut self.reverse_dart, there, back);
        self.head[there as usize] = self.head[f as usize];
        self.head[back as usize] = self.head[d as usize];
        self.before[there as usize] = NO_DART;
        self.before[back as usize] = NO_DART;
        self.direction[there as usize] = way;
        self.direction[back as usize] = (way + 2) % 4;
        self.angle[there as usize] = 1;
        self.angle[back as usize] = 1;
        self.angle[d as usize] -= 1;
        self.angle[f as usize] -= 1;
        self.darts += 2;
    }
}

/// Inserts the dart `new` before the dart `old` on its face: writes the links in `next`, the next dart of each dart,
/// and in `prev`, the previous one.
pub fn put_before(next: &mut Vec<u32>, prev: &mut Vec<u32>, new: u32, old: u32)
    requires new_next { new < vec_len next.old }
    requires new_prev { new < vec_len prev.old }
    requires old_prev { old < vec_len prev.old }
    requires ahead { slice_index prev.old.items old < vec_len next.old }
    ensures next { let ahead = slice_index prev.old.items old in
        next.new.items ≡ slice_set (slice_set next.old.items ahead new) new old }
    ensures prev { let ahead = slice_index prev.old.items old in
        prev.new.items ≡ slice_set (slice_set prev.old.items new ahead) old new }
    ensures next_room { vec_len next.new ≡ vec_len next.old }
    ensures prev_room { vec_len prev.new ≡ vec_len prev.old }
{
    let ahead = prev[old as usize];
    next[ahead as usize] = new;
    next[new as usize] = old;
    prev[new as usize] = ahead;
    prev[old as usize] = new;
}

/// Makes `b` the dart that follows `a` on its face: sets item `a` of `next` to `b`, and item `b` of `prev` to `a`.
pub fn set_next(next: &mut Vec<u32>, prev: &mut Vec<u32>, a: u32, b: u32)
    requires a_in { a < vec_len next.old }
    requires b_in { b < vec_len prev.old }
    ensures next { next.new.items ≡ slice_set next.old.items a b }
    ensures prev { prev.new.items ≡ slice_set prev.old.items b a }
    ensures next_room { vec_len next.new ≡ vec_len next.old }
    ensures prev_room { vec_len prev.new ≡ vec_len prev.old }
{
    next[a as usize] = b;
    prev[b as usize] = a;
}

/// Makes two darts each other's reverses: sets item `a` of `reverse_dart` to `b`, and item `b` to `a`.
pub fn pair(reverse_dart: &mut Vec<u32>, a: u32, b: u32)
    requires a_in { a < vec_len reverse_dart.old }
    requires b_in { b < vec_len reverse_dart.old }
    ensures reverse_dart { reverse_dart.new.items ≡ slice_set (slice_set reverse_dart.old.items a b) b a }
    ensures room { vec_len reverse_dart.new ≡ vec_len reverse_dart.old }
{
    reverse_dart[a as usize] = b;
    reverse_dart[b as usize] = a;
}

/// Inserts the dart `new` before the dart `old` on its edge: in `before`, item `new` gets the item of `old`, and item
/// `old` becomes `new`.
pub fn put_before_on_edge(before: &mut Vec<u32>, new: u32, old: u32)
    requires new_in { new < vec_len before.old }
    requires old_in { old < vec_len before.old }
    ensures before { before.new.items ≡ slice_set (slice_set before.old.items new (slice_index before.old.items old)) old new }
    ensures room { vec_len before.new ≡ vec_len before.old }
{
    before[new as usize] = before[old as usize];
    before[old as usize] = new;
}
