//! How many bends are needed at least with a face as the outer one, by how far all vertices and faces are from it: what
//! they supply in the plane's network (Tamassia 1987) crosses as many edges on its way there, and each time bends one.

ghost use Rattle.std.specs.Prelude.{◌≡◌, ◌+◌, ◌*◌, ◌^◌, ◌<◌, ◌≤◌, ℕ, IsTrue, IfOk, length, slice_index};
ghost use Rattle.common.specs.Sums.{sum_below};
ghost use Rattle.faces.specs.Planes.{darts, vertices, head, face_at, with_outer};
ghost use Rattle.ortho_rep.specs.Best.{NeedsBends};
ghost use Rattle.ortho_rep.specs.Tries.{AreBounds};
ghost use Rattle.ortho_rep.specs.Distances.{HasRoomFor, AreSmooth, AreNear, excess_of_distances};

use common::filled;
use faces::Plane;
use std::alloc::{AllocError, Global};

/// Stands for a distance that is not known yet.
const UNKNOWN: u16 = u16::MAX;

/// Faces whose distances prove nothing new, after which no more are looked at.
const MOST_USELESS: u32 = 16;

/// The distances of a plane's faces and vertices from one of its faces, counted in edges to be crossed.
#[derive(Drop)]
struct Distances {
    of_faces: Vec<u16>,
    // by vertex, numbered from 1: that of the nearest of its faces
    of_vertices: Vec<u16>,
    // of each face that was reached one dart, the nearest first
    queue: Vec<u16>,
}

/// Raises `bounds`, the lower bounds on the bends with each face as the outer one, to what distances from that face
/// prove; stops after `MOST_USELESS` faces in a row that prove nothing new. `AllocError` if there is no memory for the
/// distances; `bounds` is then unchanged.
pub(crate) fn raise_bounds(
    alloc: Global,
    plane: &Plane,
    bounds: &mut [u64],
) -> Result<(), AllocError>
    requires room { plane.now.faces ≤ length bounds.old }
    requires bounds { AreBounds plane.now bounds.old }
    ensures bounds { AreBounds plane.now bounds.new }
{
    let mut distances = Distances::new(alloc, plane)?;
    let mut next = 0;
    let mut useless = 0;
    for dart in 0..plane.graph().darts() {
        let face = plane.face_of(dart);
        // Faces are numbered in the order of their least darts.
        if face != next || useless >= MOST_USELESS {
            continue;
        }
        next += 1;
        let place = usize::from(face);
        let bound = distances.bound(plane, dart);
        if bound > bounds[place] {
            bounds[place] = bound;
            useless = 0;
        } else {
            useless += 1;
        }
    }
    Ok(())
}

impl Distances {
    /// New lists for the distances in a plane, none of which is known yet. `AllocError` if there is no memory for them.
    fn new(alloc: Global, plane: &Plane) -> Result<Distances, AllocError>
        ensures { IfOk result (HasRoomFor plane.now) }
    {
        let faces = usize::from(plane.face_count());
        let vertices = usize::from(plane.graph().vertices());
        Ok(Distances {
            of_faces: filled(Vec::new(alloc), faces, UNKNOWN)?,
            of_vertices: filled(Vec::new(alloc), vertices + 1, UNKNOWN)?,
            queue: filled(Vec::new(alloc), faces, 0)?,
        })
    }

    /// How many bends are needed at least with the face of a dart as the outer one. Overwrites all distances with those
    /// from that face, and so goes over the whole plane.
    fn bound(&mut self, plane: &Plane, dart: u16) -> u64
        requires room { HasRoomFor plane.now self.old }
        requires dart { dart < darts plane.now }
        ensures room { HasRoomFor plane.now self.new }
        ensures needs { NeedsBends (with_outer plane.now (face_at plane.now dart)) result }
    {
        measure_faces(plane, dart, &mut self.of_faces, &mut self.queue);
        measure_vertices(plane, &self.of_faces, &mut self.of_vertices);
        needed(plane, dart, &self.of_faces, &self.of_vertices)
    }
}

/// The number of bends that distances of faces (`far`) and of vertices (`near`) prove to be needed with the face of a
/// dart as the outer one; 0 if `far` cannot be distances from it.
fn needed(plane: &Plane, dart: u16, far: &[u16], near: &[u16]) -> u64
    requires dart { dart < darts plane.now }
    requires far { plane.now.faces ≤ length far.now }
    requires near { vertices plane.now < length near.now }
    requires none { slice_index near.now 0 ≡ 0 }
    requires nearest { AreNear plane.now far.now near.now }
    ensures { NeedsBends (with_outer plane.now (face_at plane.now dart)) result }
{
    // Only the proof needs this: `graph` says what ends darts have.
    let _graph = plane.graph();
    let outer = usize::from(plane.face_of(dart));
    if far[outer] > 0 {
        return 0;
    }
    if !are_smooth(plane, far) {
        return 0;
    }
    bends_by_distances(plane, far, near)
}

/// Writes to `far` the distance of each face from that of dart `start`, `UNKNOWN` if there is no way, by a
/// breadth-first search (Moore 1959) that overwrites `queue`.
fn measure_faces(plane: &Plane, start: u16, far: &mut [u16], queue: &mut [u16])
    requires start { start < darts plane.now }
    requires far { plane.now.faces ≤ length far.old }
    requires queue { plane.now.faces ≤ length queue.old }
{
    let darts = plane.graph().darts();
    let faces = usize::from(plane.face_count());
    far.fill(UNKNOWN);
    far[usize::from(plane.face_of(start))] = 0;
    queue[0] = start;
    let mut reached = 1;
    for place in 0..faces {
        let dart = queue[place];
        if place >= reached || dart >= darts {
            return;
        }
        reached = expand(plane, dart, far, queue, reached);
    }
}

/// Writes to `far` the distance of each face across an edge of the face of dart `first` that was not reached before,
/// and appends a dart of it to the first `reached` entries of `queue`, if that has a place left; returns the number of
/// faces reached then.
fn expand(plane: &Plane, first: u16, far: &mut [u16], queue: &mut [u16], reached: usize) -> usize
    requires first { first < darts plane.now }
    requires far { plane.now.faces ≤ length far.old }
{
    let from = plane.face_of(first);
    let away = far[usize::from(from)].saturating_add(1);
    let mut reached = reached;
    let mut dart = first;
    for _step in 0..plane.degree(from) {
        let across = plane.graph().reverse(dart);
        let face = usize::from(plane.face_of(across));
        if far[face] == UNKNOWN && reached < queue.len() {
            far[face] = away;
            queue[reached] = across;
            reached += 1;
        }
        dart = plane.next(dart);
    }
    reached
}

/// Writes to `near` for each vertex, numbered from 1, the distance of the nearest of its faces, `UNKNOWN` if it has
/// none, and 0 at place 0.
fn measure_vertices(plane: &Plane, far: &[u16], near: &mut [u16])
    requires far { plane.now.faces ≤ length far.now }
    requires near { vertices plane.now < length near.old }
    ensures none { slice_index near.new 0 ≡ 0 }
    ensures near { AreNear plane.now far.now near.new }
{
    near.fill(UNKNOWN);
    near[0] = 0;
    let graph = plane.graph();
    for dart in 0..graph.darts() {
        let vertex = usize::from(graph.head(dart));
        let away = far[usize::from(plane.face_of(dart))];
        near[vertex] = near[vertex].min(away);
    }
}

/// Whether the distances in `far` of the two faces of each edge differ by at most 1.
fn are_smooth(plane: &Plane, far: &[u16]) -> bool
    requires { plane.now.faces ≤ length far.now }
    ensures { IsTrue result → AreSmooth plane.now far.now }
{
    let graph = plane.graph();
    for dart in 0..graph.darts() {
        let here = far[usize::from(plane.face_of(dart))];
        let across = far[usize::from(plane.face_of(graph.reverse(dart)))];
        if u32::from(here) > u32::from(across) + 1 {
            return false;
        }
    }
    true
}

/// Four times the sum of all distances of faces (`far`) and vertices (`near`), less the sum over all darts of those of
/// its face and its head, but at least 0.
fn bends_by_distances(plane: &Plane, far: &[u16], near: &[u16]) -> u64
    requires far { plane.now.faces ≤ length far.now }
    requires near { vertices plane.now < length near.now }
    ensures { result ≡ excess_of_distances plane.now far.now near.now }
{
    let faces = usize::from(plane.face_count());
    let vertices = usize::from(plane.graph().vertices());
    let all = sum_of(far, faces) + sum_of(near, vertices + 1);
    (4 * all).saturating_sub(at_darts(plane, far, near))
}

/// The sum of the first `count` numbers of a list.
fn sum_of(list: &[u16], count: usize) -> u64
    requires within { count ≤ length list.now }
    requires few { count < 2 ^ 32 }
    ensures sum { result ≡ sum_below count (slice_index list.now) }
    ensures few { result ≤ 65535 * count }
{
    let mut sum = 0;
    for place in 0..count {
        sum += u64::from(list[place]);
    }
    sum
}

/// The sum over all darts of the distance of its face (in `far`) and that of its head (in `near`).
fn at_darts(plane: &Plane, far: &[u16], near: &[u16]) -> u64
    requires far { plane.now.faces ≤ length far.now }
    requires near { vertices plane.now < length near.now }
    ensures { result ≡ sum_below (darts plane.now) (λ d. slice_index far.now (face_at plane.now d) + slice_index near.now (head plane.now d)) }
{
    let graph = plane.graph();
    let mut sum = 0;
    for dart in 0..graph.darts() {
        let of_face = far[usize::from(plane.face_of(dart))];
        let of_head = near[usize::from(graph.head(dart))];
        sum += u64::from(of_face) + u64::from(of_head);
    }
    sum
}
