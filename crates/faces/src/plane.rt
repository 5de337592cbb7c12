//! Plane graphs (Euler's formula): connected embedded graphs with their faces, one of which is the outer face. Buffers
//! are reused by one call after another.
ghost use Rattle.std.specs.Prelude.{◌≡◌, ◌≢◌, ◌<◌, ◌≤◌, ℕ, IfOk, IfErr, Err};
ghost use Rattle.embedding.specs.Darts.{dart_count, next_of};
ghost use Rattle.embedding.specs.Faces.{HasFaces};
ghost use Rattle.embedding.specs.Rules.{KeepsBefore};
ghost use Rattle.faces.specs.declared.plane.TheConstants.{MAX_FACES};
ghost use Rattle.faces.specs.Numbering.{Numbering, Numbering-prop};
ghost use Rattle.faces.specs.Greatest.{IsFirstGreatest};

use common::MAX_VERTICES;
use embedding::Graph;
use std::alloc::Global;
use std::marker::Model;
use thiserror::Error;

/// The buffers of a plane's graph, to be reused. A plane has none of its own.
#[derive(Drop)]
pub struct Scratch {
    /// The buffers of a graph, for the next graph that is read.
    pub graph: embedding::Scratch,
}

impl Scratch {
    /// An empty scratch. It allocates nothing.
    pub fn empty(alloc: Global) -> Scratch {
        Scratch {
            graph: embedding::Scratch::empty(alloc),
        }
    }
}

/// The maximum number of faces of a plane: 2,400 edges - 1,200 vertices + 2.
pub const MAX_FACES: usize = MAX_VERTICES + 2;

/// A connected graph of maximum degree at most 4 embedded on the sphere, with its faces, one of them the outer face.
///
/// In contracts it is a `PlaneModel`. A face is walked by `next`, with the face on the left. Faces are numbered from 0
/// in the order of their least darts. No accessor allocates, and each but `least_dart` takes constant time.
#[derive(Debug, Drop)]
pub struct Plane {
    graph: Graph,
    outer: u16,
    ghost numbering: { Numbering graph } by { Numbering-prop graph },
}

impl Model for Plane {
    ghost use Rattle.faces.specs.Planes.{PlaneModel, IsPlane, model_of};

    ghost Value = { PlaneModel };

    ghost view = { λ p. model_of p.graph p.numbering.0.0 p.numbering.0.1 p.outer };

    ghost invariant = { λ p. IsPlane (model_of p.graph p.numbering.0.0 p.numbering.0.1 p.outer) };
}

/// The reason why no plane was returned. Each variant returns the graph unchanged.
#[derive(Debug, Drop, Error)]
pub enum TraceFault {
    /// The graph is not embedded in the plane: vertices minus edges plus faces is not 2.
    #[error("not a planar embedding: V - E + F is not 2")]
    Genus(Graph),
    /// Out of memory. Since a graph keeps its faces, no call returns this.
    #[error("out of memory")]
    Memory(Graph),
}

/// The number of the face with the most darts; among equals, the least number.
fn greatest_face(graph: &Graph) -> u16
    requires { KeepsBefore graph.now 8 }
    ensures { (face : ℕ → ℕ) (f : ℕ) → HasFaces (dart_count graph.now) (next_of graph.now) face f
        → IsFirstGreatest (dart_count graph.now) face f result }
{
    let mut best = 0;
    let mut most = graph.face_degree(0);
    for face in 1..graph.face_count() {
        let degree = graph.face_degree(face);
        if degree > most {
            best = face;
            most = degree;
        }
    }
    best
}

impl Plane {
    ghost use Rattle.faces.specs.Planes.{PlaneModel, IsPlane, HasGreatestOuter, HasEnds, darts, next, face_at, degree, with_outer};
    ghost use Rattle.faces.specs.Faults.{IsTraceFault};

    /// The plane of `graph`, with the face of most darts as its outer face; among equals, the one that contains the
    /// least dart. `Genus` with the graph, unchanged, exactly if its vertices minus its edges plus its faces is not 2.
    /// There is no other error.
    ///
    /// It looks once at each face and allocates nothing, since a graph keeps its faces.
    ///
    /// # Errors
    ///
    /// `Genus` returns the graph exactly if its vertices minus its edges plus its faces is not 2. `Memory` is never
    /// returned.
    pub fn trace(alloc: Global, graph: Graph) -> Result<Plane, TraceFault>
        ensures graph { IfOk result (λ p. p.lists ≡ graph) }
        ensures plane { IfOk result IsPlane }
        ensures outer { IfOk result HasGreatestOuter }
        ensures err { IfErr result (IsTraceFault graph) }
        ensures never { result ≢ Err (TraceFault.Memory graph) }
    {
        let mut scratch = Scratch::empty(alloc);
        Plane::trace_in(alloc, &mut scratch, graph)
    }

    /// The plane of `graph`, with the face of most darts as its outer face; among equals, the one that contains the
    /// least dart. `Genus` with the graph, unchanged, exactly if its vertices minus its edges plus its faces is not 2.
    /// There is no other error. `scratch` is neither read nor changed.
    ///
    /// The plane's lists, which are those of its graph, can be returned to the scratch by [`Plane::give_back`].
    ///
    /// # Errors
    ///
    /// As [`Plane::trace`].
    pub fn trace_in(alloc: Global, scratch: &mut Scratch, graph: Graph) -> Result<Plane, TraceFault>
        ensures graph { IfOk result (λ p. p.lists ≡ graph) }
        ensures plane { IfOk result IsPlane }
        ensures outer { IfOk result HasGreatestOuter }
        ensures err { IfErr result (IsTraceFault graph) }
        ensures never { result ≢ Err (TraceFault.Memory graph) }
    {
        if graph.vertices() + graph.face_count() != graph.edges() + 2 {
            return Err(TraceFault::Genus(graph));
        }
        let outer = greatest_face(&graph);
        Ok(Plane { graph, outer })
    }

    /// Drops this plane, and puts the two buffers of its graph into `scratch.graph`, for the next graph, in place of
    /// those that it has.
    pub fn give_back(self, scratch: &mut Scratch) {
        self.graph.give_back(&mut scratch.graph);
    }

    /// The graph of this plane.
    pub fn graph(&self) -> &Graph
        ensures value { result.now ≡ self.now.lists }
        ensures plane { IsPlane self.now }
        ensures ends { HasEnds self.now }
    {
        &self.graph
    }

    /// The dart that follows `dart` on its face, which is the face on the left of both.
    pub fn next(&self, dart: u16) -> u16
        requires { dart < darts self.now }
        ensures value { result ≡ next self.now dart }
        ensures inside { result < darts self.now }
        ensures stays { face_at self.now result ≡ face_at self.now dart }
    {
        self.graph.after(self.graph.reverse(dart))
    }

    /// The number of the face on the left of `dart`.
    pub fn face_of(&self, dart: u16) -> u16
        requires { dart < darts self.now }
        ensures value { result ≡ face_at self.now dart }
        ensures named { result < self.now.faces }
    {
        self.graph.face_of(dart)
    }

    /// The least dart of `face`. The time is linear in the number of that dart.
    pub fn least_dart(&self, face: u16) -> u16
        requires { face < self.now.faces }
        ensures inside { result < darts self.now }
        ensures face { face_at self.now result ≡ face }
        ensures least { (d : ℕ) → d < result → face_at self.now d ≢ face }
    {
        for dart in 0..self.graph().darts() {
            if self.face_of(dart) == face {
                return dart;
            }
        }
        unreachable!()
    }

    /// The number of faces, 1 to 1,202.
    pub fn face_count(&self) -> u16
        ensures value { result ≡ self.now.faces }
        ensures some { 0 < result }
        ensures few { result ≤ MAX_FACES }
        ensures plane { IsPlane self.now }
        ensures ends { HasEnds self.now }
    {
        self.graph.face_count()
    }

    /// The number of darts of `face`.
    pub fn degree(&self, face: u16) -> u16
        requires { face < self.now.faces }
        ensures value { result ≡ degree self.now face }
    {
        self.graph.face_degree(face)
    }

    /// The number of the outer face.
    pub fn outer(&self) -> u16
        ensures value { result ≡ self.now.outer }
        ensures named { result < self.now.faces }
    {
        self.outer
    }

    /// Makes `face` the outer face; nothing else changes. It allocates nothing.
    pub fn set_outer(&mut self, face: u16)
        requires { face < self.old.faces }
        ensures { self.new ≡ with_outer self.old face }
    {
        self.outer = face;
    }
}
