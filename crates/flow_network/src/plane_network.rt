//! The flow network of a plane for the fewest bends (Tamassia 1987): its supplies, its arcs, and the whole. Buffers are
//! reused by one call after another.
ghost use Rattle.std.specs.Prelude.{◌≡◌, ◌+◌, ◌-◌, ◌<◌, ◌≤◌, ◌==◌, ◌↔◌, if◌then◌else◌, IsTrue, ℕ, pos, negsuc, ◌-ℤ◌, ◌≤ℤ◌, IfOk, length, slice_index_or, vec_len};
ghost use Rattle.faces.specs.Planes.{darts, vertices, head, reverse_dart, face_at, degree, with_outer};
ghost use Rattle.min_cost_flow.specs.Networks.{no_arc, shifted};
ghost use Rattle.flow_network.specs.Given.{CanBeGiven, nothing_given, angle_given, turns_given, beyond_first};
ghost use Rattle.flow_network.specs.FaceNet.{vertex_degree, vertex_has_to_turn, face_has_to_turn, corner_cap, crossing_cap};
ghost use Rattle.common.specs.declared.parameters.TheConstants.{MAX_VERTICES};
ghost use Rattle.embedding.specs.declared.graphs.TheConstants.{MAX_DARTS};
ghost use Rattle.min_cost_flow.specs.Flow.{Flow};

use crate::given_shape::{Given, beyond, lefts};
use common::emptied;
use faces::Plane;
use min_cost_flow::{Arc, Cap, Network};
use std::alloc::{AllocError, Global};
use std::marker::Model;
use std::mem;

/// The buffers of a network, to be reused for the next one. Their contents between two networks do not matter.
///
/// A network takes both lists with it. If each is returned before the next one is made, none allocates for a plane with
/// no more vertices and faces and no more darts than one before it had; if one is not, the next allocates both.
#[derive(Drop)]
pub struct Scratch {
    pub(crate) supplies: Vec<i32>,
    pub(crate) arcs: Vec<Arc>,
}

impl Scratch {
    /// A scratch with empty lists. It allocates nothing.
    pub fn empty(alloc: Global) -> Scratch {
        Scratch {
            supplies: Vec::new(alloc),
            arcs: Vec::new(alloc),
        }
    }
}

/// The degree of a vertex, numbered from 1: the number of darts that arrive there.
fn degree_of(plane: &Plane, vertex: u16) -> u8
    requires some { 0 < vertex }
    requires within { vertex ≤ vertices plane.now }
    ensures { result ≡ vertex_degree plane.now vertex }
{
    plane.graph().neighbours(vertex).len() as u8
}

/// The supply of a face if nothing is given: 4 less its degree, or -4 less its degree for the outer face.
fn face_supply(plane: &Plane, face: u16) -> i32
    requires { face < plane.now.faces }
    ensures { result
        ≡ (if face == plane.now.outer then negsuc 3 else pos 4) -ℤ pos (degree plane.now face) }
{
    let turn = if face == plane.outer() { -4 } else { 4 };
    turn - i32::from(plane.degree(face))
}

/// The supply of a vertex, numbered from 1: 4 less its degree, less the right angles beyond the first of the angles
/// that are given at the heads of its arriving darts. Linear in the darts of the plane.
pub fn vertex_supply(plane: &Plane, given: &Given<'_>, vertex: u16) -> i32
    requires some { 0 < vertex }
    requires within { vertex ≤ vertices plane.now }
    ensures { result ≡ vertex_has_to_turn plane.now given.now vertex }
{
    let mut units = 4 - i32::from(degree_of(plane, vertex));
    for dart in 0..plane.graph().darts() {
        units -= beyond_at(plane, given, dart, vertex);
    }
    units
}

/// How many right angles beyond the first the angle given at the head of `dart` has; 0 if none is given, or if `vertex`
/// is not the head.
fn beyond_at(plane: &Plane, given: &Given<'_>, dart: u16, vertex: u16) -> i32
    requires { dart < darts plane.now }
    ensures value { result ≡ pos (if head plane.now dart == vertex then beyond_first (angle_given given.now dart) else 0) }
    ensures few { result ≤ℤ pos 3 }
{
    if plane.graph().head(dart) == vertex {
        beyond(given.angle(dart))
    } else {
        0
    }
}

/// Returns the supplies of the nodes of the plane's flow network, first of all vertices, then of all faces, in the
/// buffer of `old`, whose contents are lost. `AllocError` if that is too small and there is no memory; it is then gone.
///
/// Each is what the vertex or the face has to turn besides what is given. Reuses the buffer of `old`.
pub fn supplies_of(old: Vec<i32>, plane: &Plane, given: &Given<'_>) -> Result<Vec<i32>, AllocError>
    ensures nodes { IfOk result (λ s. length s.items ≡ vertices plane.now + plane.now.faces) }
    ensures at_vertex { IfOk result (λ s. (v : ℕ) → 1 ≤ v → v ≤ vertices plane.now
        → slice_index_or s.items (v - 1) (pos 0) ≡ vertex_has_to_turn plane.now given.now v) }
    ensures at_face { IfOk result (λ s. (f : ℕ) → f < plane.now.faces
        → slice_index_or s.items (vertices plane.now + f) (pos 0) ≡ face_has_to_turn plane.now given.now f) }
{
    let mut supplies = supplies_of_plane(old, plane)?;
    if given.is_nothing() {
        return Ok(supplies);
    }
    subtract_given(&mut supplies, plane, given);
    Ok(supplies)
}

/// Returns the supply of each node as if nothing were given, first of all vertices, then of all faces, in the buffer of
/// `old`, whose contents are lost. `AllocError` if that is too small and there is no memory; it is then gone.
fn supplies_of_plane(old: Vec<i32>, plane: &Plane) -> Result<Vec<i32>, AllocError>
    ensures nodes { IfOk result (λ s. length s.items ≡ vertices plane.now + plane.now.faces) }
    ensures at_vertex { IfOk result (λ s. (v : ℕ) → 1 ≤ v → v ≤ vertices plane.now
        → slice_index_or s.items (v - 1) (pos 0) ≡ pos 4 -ℤ pos (vertex_degree plane.now v)) }
    ensures at_face { IfOk result (λ s. (f : ℕ) → f < plane.now.faces
        → slice_index_or s.items (vertices plane.now + f) (pos 0)
        ≡ (if f == plane.now.outer then negsuc 3 else pos 4) -ℤ pos (degree plane.now f)) }
{
    let vertices = plane.graph().vertices();
    let nodes = usize::from(vertices) + usize::from(plane.face_count());
    let mut supplies = emptied(old, nodes)?;
    'vertices: for place in 0..vertices {
        supplies.push(4 - i32::from(degree_of(plane, place + 1)))?;
    }
    'faces: for face in 0..plane.face_count() {
        supplies.push(face_supply(plane, face))?;
    }
    Ok(supplies)
}

/// Corrects `supplies`, computed as if nothing were given: given right angles beyond the first move from the vertex to
/// the face, and each face loses the given left turns of its darts (negative ones raise its supply).
fn subtract_given(supplies: &mut [i32], plane: &Plane, given: &Given<'_>)
    requires can { CanBeGiven given.now.angles given.now.turns }
    requires nodes { length supplies.old ≡ vertices plane.now + plane.now.faces }
    requires at_vertex { (v : ℕ) → 1 ≤ v → v ≤ vertices plane.now
        → slice_index_or supplies.old (v - 1) (pos 0) ≡ pos 4 -ℤ pos (vertex_degree plane.now v) }
    requires at_face { (f : ℕ) → f < plane.now.faces
        → slice_index_or supplies.old (vertices plane.now + f) (pos 0)
        ≡ (if f == plane.now.outer then negsuc 3 else pos 4) -ℤ pos (degree plane.now f) }
    ensures nodes { length supplies.new ≡ vertices plane.now + plane.now.faces }
    ensures at_vertex { (v : ℕ) → 1 ≤ v → v ≤ vertices plane.now
        → slice_index_or supplies.new (v - 1) (pos 0) ≡ vertex_has_to_turn plane.now given.now v }
    ensures at_face { (f : ℕ) → f < plane.now.faces
        → slice_index_or supplies.new (vertices plane.now + f) (pos 0) ≡ face_has_to_turn plane.now given.now f }
{
    let graph = plane.graph();
    let first_face = usize::from(graph.vertices());
    'take: for dart in 0..graph.darts() {
        let vertex = usize::from(graph.head(dart)) - 1;
        let face = first_face + usize::from(plane.face_of(dart));
        let angle = beyond(given.angle(dart));
        supplies[vertex] -= angle;
        supplies[face] += angle - lefts(given.turns(plane, dart));
    }
}

/// The capacity of the corner arc of a dart: `AtMost(0)` if its angle is given, else `AtMost(3)`. `is_nothing` must be
/// whether `given` has two empty lists.
fn corner_cap(given: &Given<'_>, is_nothing: bool, dart: u16) -> Cap
    requires { IsTrue is_nothing ↔ (given.now ≡ nothing_given) }
    ensures { result ≡ corner_cap (angle_given given.now dart) }
{
    if is_nothing {
        return Cap::AtMost(3);
    }
    match given.angle(dart) {
        Some(_) => Cap::AtMost(0),
        None => Cap::AtMost(3),
    }
}

/// The capacity of the crossing arc of a dart: `AtMost(0)` if its turns are given, else `Any`. `is_nothing` must be
/// whether `given` has two empty lists.
fn crossing_cap(plane: &Plane, given: &Given<'_>, is_nothing: bool, dart: u16) -> Cap
    requires within { dart < darts plane.now }
    requires nothing { IsTrue is_nothing ↔ (given.now ≡ nothing_given) }
    ensures { result ≡ crossing_cap (turns_given plane.now given.now dart) }
{
    if is_nothing {
        return Cap::Any;
    }
    match given.turns(plane, dart) {
        Some(_) => Cap::AtMost(0),
        None => Cap::Any,
    }
}

/// Returns the arcs of the plane's flow network, the corner arcs of all darts, then the crossing arcs of all darts, in
/// the buffer of `old`, whose contents are lost. `AllocError` if that is too small and there is no memory; it is then
/// gone.
///
/// The arcs of what is given have capacity 0. Reuses the buffer of `old`.
pub fn arcs_of(old: Vec<Arc>, plane: &Plane, given: &Given<'_>) -> Result<Vec<Arc>, AllocError>
    ensures arcs { IfOk result (λ a. length a.items ≡ darts plane.now + darts plane.now) }
    ensures corner { IfOk result (λ a. (d : ℕ) → d < darts plane.now
        → slice_index_or a.items d no_arc
        ≡ record { from = head plane.now d - 1; to = vertices plane.now + face_at plane.now d; cap = corner_cap (angle_given given.now d); cost = 0 }) }
    ensures crossing { IfOk result (λ a. (d : ℕ) → d < darts plane.now
        → slice_index_or a.items (darts plane.now + d) no_arc
        ≡ record { from = vertices plane.now + face_at plane.now d; to = vertices plane.now + face_at plane.now (reverse_dart plane.now d); cap = crossing_cap (turns_given plane.now given.now d); cost = 1 }) }
{
    let mut arcs = resized(old, 2 * usize::from(plane.graph().darts()))?;
    write_arcs(&mut arcs, plane, given);
    Ok(arcs)
}

/// A list of `count` arcs in the buffer of `old`, all of which the caller is to overwrite. If the buffer is too small,
/// it allocates exactly `count`: `AllocError` if there is no memory, and `old` is then gone.
fn resized(old: Vec<Arc>, count: usize) -> Result<Vec<Arc>, AllocError>
    ensures { IfOk result (λ a. length a.items ≡ count) }
{
    let mut arcs = old;
    arcs.reserve_exact(count.saturating_sub(arcs.len()))?;
    let none = Arc {
        from: 0,
        to: 0,
        cap: Cap::Any,
        cost: 0,
    };
    arcs.resize(count, none)?;
    Ok(arcs)
}

/// Overwrites `arcs`, which has two places for each dart, with the corner arcs of all darts, followed by their crossing
/// arcs. The arcs of what is given get capacity 0.
fn write_arcs(arcs: &mut [Arc], plane: &Plane, given: &Given<'_>)
    requires { length arcs.old ≡ darts plane.now + darts plane.now }
    ensures arcs { length arcs.new ≡ darts plane.now + darts plane.now }
    ensures corner { (d : ℕ) → d < darts plane.now
        → slice_index_or arcs.new d no_arc
        ≡ record { from = head plane.now d - 1; to = vertices plane.now + face_at plane.now d; cap = corner_cap (angle_given given.now d); cost = 0 } }
    ensures crossing { (d : ℕ) → d < darts plane.now
        → slice_index_or arcs.new (darts plane.now + d) no_arc
        ≡ record { from = vertices plane.now + face_at plane.now d; to = vertices plane.now + face_at plane.now (reverse_dart plane.now d); cap = crossing_cap (turns_given plane.now given.now d); cost = 1 } }
{
    let graph = plane.graph();
    let first_face = u32::from(graph.vertices());
    let count = usize::from(graph.darts());
    let is_nothing = given.is_nothing();
    'write: for dart in 0..graph.darts() {
        let vertex = u32::from(graph.head(dart)) - 1;
        let face = first_face + u32::from(plane.face_of(dart));
        let across = first_face + u32::from(plane.face_of(graph.reverse(dart)));
        let corner_cap = corner_cap(given, is_nothing, dart);
        let crossing_cap = crossing_cap(plane, given, is_nothing, dart);
        let place = usize::from(dart);
        arcs[place] = Arc {
            from: vertex,
            to: face,
            cap: corner_cap,
            cost: 0,
        };
        arcs[count + place] = Arc {
            from: face,
            to: across,
            cap: crossing_cap,
            cost: 1,
        };
    }
}

/// The flow network of a plane (Tamassia 1987), whose flows give its orthogonal representations.
///
/// A unit on a corner arc is a right angle beyond the first, and a unit on a crossing arc is a bend. Of angles and
/// turns that are given the supplies have their part already, and their arcs carry nothing.
///
/// For a plane with n vertices and D darts:
///
/// | Thing | Number |
/// |---|---|
/// | node of vertex v | v - 1; it supplies 4 less its degree, less what its given angles have beyond the first |
/// | node of face f | n + f; it supplies 4 less its degree, the outer face -4 less its degree; what is given: below |
/// | corner arc of dart d | d, from its head to its face, at most 3 units, cost 0; none if its angle is given |
/// | crossing arc of dart d | D + d, from its face to the face across, no limit, cost 1; none if its turns are given |
///
/// A face supplies more by what its given angles have beyond the first, and less by its given left turns.
#[derive(Debug, Drop)]
pub struct FaceNet {
    network: Network,
    vertices: u32,
    darts: u32,
}

impl Model for FaceNet {
    ghost use Rattle.std.specs.Prelude.{◌≤◌};
    ghost use Rattle.common.specs.declared.parameters.TheConstants.{MAX_VERTICES};
    ghost use Rattle.embedding.specs.declared.graphs.TheConstants.{MAX_DARTS};
    ghost use Rattle.flow_network.specs.FaceNet.{FaceNetModel};

    ghost Value = { FaceNetModel };

    ghost view = { λ n. record { network = n.network; vertices = n.vertices; darts = n.darts } };

    ghost invariant = { λ n. (n.vertices ≤ MAX_VERTICES) × (n.darts ≤ MAX_DARTS) };
}

impl FaceNet {
    ghost use Rattle.flow_network.specs.FaceNet.{IsFaceNetOf, IsKeepingNetOf};

    /// The flow network of a plane with its current outer face, where nothing is given. `AllocError` if there is no
    /// memory for it. Linear in the darts.
    ///
    /// # Errors
    ///
    /// `AllocError` if there is no memory for it.
    pub fn build(alloc: Global, plane: &Plane) -> Result<FaceNet, AllocError>
        ensures net { IfOk result (IsFaceNetOf plane.now) }
        ensures flow { IfOk result (λ n. (y : ℕ → ℕ) × Flow n.network y) }
    {
        let mut scratch = Scratch::empty(alloc);
        FaceNet::build_keeping_in(alloc, &mut scratch, plane, &Given::nothing())
    }

    /// The flow network of a plane for the shapes that keep what is given, in the two lists of `scratch`, which it
    /// takes with it; they grow if too small. `AllocError` if there is no memory for that; the lists may then be lost.
    ///
    /// There need not be a flow, unless nothing is given. Linear in the darts. The network takes its lists with it;
    /// [`FaceNet::give_back`] returns them.
    ///
    /// # Errors
    ///
    /// `AllocError` as [`FaceNet::build`]. After a refusal lists of the scratch may be gone.
    pub fn build_keeping_in(
        alloc: Global,
        scratch: &mut Scratch,
        plane: &Plane,
        given: &Given<'_>,
    ) -> Result<FaceNet, AllocError>
        ensures net { IfOk result (IsKeepingNetOf plane.now given.now) }
        ensures flow { given.now ≡ nothing_given → IfOk result (λ n. (y : ℕ → ℕ) × Flow n.network y) }
    {
        // Only the proof needs this: `is_nothing` says how much can be given.
        let _is_nothing = given.is_nothing();
        let lent = mem::replace(&mut scratch.supplies, Vec::new(alloc));
        let supplies = supplies_of(lent, plane, given)?;
        let arcs = arcs_of(
            mem::replace(&mut scratch.arcs, Vec::new(alloc)),
            plane,
            given,
        )?;
        let vertices = u32::from(plane.graph().vertices());
        let darts = u32::from(plane.graph().darts());
        Ok(FaceNet {
            network: Network::of_lists(supplies, arcs),
            vertices,
            darts,
        })
    }

    /// The network itself, borrowed: its nodes with their supplies, and its arcs.
    pub fn network(&self) -> &Network
        ensures { result.now ≡ self.now.network }
    {
        &self.network
    }

    /// Moves the two lists of this network to `scratch`, to be reused; the lists that were there are dropped. It
    /// allocates nothing.
    pub fn give_back(self, scratch: &mut Scratch) {
        let (supplies, arcs) = self.network.into_lists();
        scratch.supplies = supplies;
        scratch.arcs = arcs;
    }

    /// Makes `face` the outer face of this network in place of that of `plane`, by moving 8 units of supply from `face`
    /// to the old one; `plane` itself keeps its outer face. If both are one face, nothing changes.
    ///
    /// Eight units more are supplied at the old one, and eight less at the new one. It allocates nothing.
    pub fn set_outer(&mut self, plane: &Plane, face: u16)
        requires net { IsFaceNetOf plane.now self.old }
        requires face { face < plane.now.faces }
        ensures net { IsFaceNetOf (with_outer plane.now face) self.new }
        ensures moved { self.new.network
            ≡ shifted self.old.network (self.old.vertices + plane.now.outer) (self.old.vertices + face) 8 }
    {
        // Only the proof needs this: `graph` says that the plane is one.
        let _graph = plane.graph();
        let from = self.face_node(plane.outer());
        let to = self.face_node(face);
        self.network.shift(from, to, 8);
    }

    /// The number of the corner arc of a dart, which is the dart's own. The arc carries its angle less one, or nothing
    /// if the angle is given.
    pub fn corner_arc(&self, dart: u16) -> u32
        ensures { result ≡ dart }
    {
        u32::from(dart)
    }

    /// The number of the crossing arc of a dart: the dart's own plus the number of all darts. The arc carries its left
    /// turns, or nothing if the turns are given.
    pub fn crossing_arc(&self, dart: u16) -> u32
        ensures { result ≡ self.now.darts + dart }
    {
        self.darts + u32::from(dart)
    }

    /// The node of a vertex; vertices are numbered from 1, nodes from 0.
    pub fn vertex_node(&self, vertex: u16) -> u32
        requires { 1 ≤ vertex }
        ensures { result ≡ vertex - 1 }
    {
        u32::from(vertex) - 1
    }

    /// The node of a face: the number of vertices plus that of the face; faces are numbered from 0.
    pub fn face_node(&self, face: u16) -> u32
        ensures { result ≡ self.now.vertices + face }
    {
        self.vertices + u32::from(face)
    }
}
