//! Points of the grid, and those of a plane's vertices and corners, in lists of their own or in one list.
ghost use Rattle.std.specs.Prelude.{◌≡◌, ◌<◌, ◌≤◌, length, IfOk, ◌++◌, vec_len, OnOk, All, ◌^◌};
ghost use Rattle.ortho_rep.specs.Points.{vertex_point, corners_at};
ghost use Rattle.ortho_rep.specs.Storage.{lists_in};
ghost use Rattle.common.specs.Slices.{slices_at, AreStarts};
ghost use Rattle.ortho_rep.specs.FlatPoints.{spans_of};

use std::alloc::AllocError;
use std::marker::Model;

/// The greatest coordinate of the grid; the least is 0.
pub const MAX_COORDINATE: u32 = 65_535;

/// A point with integer coordinates: x grows to the east, y to the north.
#[derive(Clone, Copy, Debug, PartialEq, Eq)]
pub struct Point {
    pub x: u32,
    pub y: u32,
}

/// The point of each vertex of a plane, and the corner points of each edge along its lesser dart.
///
/// In contracts it is the list of the vertex points and the list of the lists of corners.
///
/// Edges are numbered from 0 in the order of their lesser darts. The points need not draw anything: that is for the
/// check of a drawing to say. No accessor allocates, and each takes constant time.
#[derive(Debug, Drop)]
pub struct Points {
    store: PointStore,
}

#[derive(Debug, Drop)]
enum PointStore {
    InTwoLists {
        vertices: Vec<Point>,
        corners: Vec<Vec<Point>>,
    },
    Concatenated(FlatPoints),
}

impl Model for Points {
    ghost use Rattle.ortho_rep.specs.Points.{PointsModel};

    ghost Value = { PointsModel };

    ghost use Rattle.ortho_rep.specs.PointStores.{points_of};

    ghost view = { λ a. points_of a.store };
}

impl Points {
    /// The points with these lists: `vertices[v - 1]` is the point of vertex v, `corners[e]` are the corners of edge e.
    /// Nothing is checked.
    ///
    /// It allocates nothing.
    pub fn new(vertices: Vec<Point>, corners: Vec<Vec<Point>>) -> Points
        ensures { result ≡ record { vertices = vertices.items; corners = lists_in corners.items } }
    {
        Points {
            store: PointStore::InTwoLists { vertices, corners },
        }
    }

    /// The points with these lists: `vertices[v - 1]` is the point of vertex v, and edge e has the corners from place
    /// `starts[e]` to before place `starts[e + 1]` of `corners`. `AllocError` if there is no memory for them, or more
    /// than 4,294,967,295 corners; `vertices` is then gone.
    ///
    /// The point of vertex v is `vertices[v - 1]`; the corners of edge e are those of `corners` from place `starts[e]`
    /// to place `starts[e + 1]`. All points are then in the first list, which allocates only if it has no room for the
    /// corners and for a point more for each edge.
    ///
    /// # Errors
    ///
    /// `AllocError` if there is no memory for them, or there are more than 4,294,967,295 corners.
    pub fn concatenated(
        vertices: Vec<Point>,
        corners: &[Point],
        starts: &[usize],
    ) -> Result<Points, AllocError>
        requires { AreStarts starts.now corners.now }
        ensures { IfOk result (λ points. points ≡ record { vertices = vertices.items; corners = slices_at starts.now corners.now }) }
    {
        let points = FlatPoints::new(vertices, corners, starts)?;
        Ok(Points {
            store: PointStore::Concatenated(points),
        })
    }

    /// Returns the list in which these points are stored, with its contents, so that its buffer can be reused. It
    /// allocates nothing.
    ///
    /// If the points are in two lists, it returns that of the vertices.
    pub fn into_list(self) -> Vec<Point> {
        match self.store {
            PointStore::InTwoLists {
                vertices,
                corners: _,
            } => vertices,
            PointStore::Concatenated(points) => points.into_list(),
        }
    }

    /// The number of vertices that have a point.
    pub fn vertex_count(&self) -> usize
        ensures { result ≡ length self.now.vertices }
    {
        self.vertices().len()
    }

    /// The number of edges that have a list of corners.
    pub fn edge_count(&self) -> usize
        ensures { result ≡ length self.now.corners }
    {
        match &self.store {
            PointStore::InTwoLists { corners, .. } => corners.len(),
            PointStore::Concatenated(points) => points.edge_count(),
        }
    }

    /// The points of all vertices, in the order of their numbers from 1, borrowed.
    pub fn vertices(&self) -> &[Point]
        ensures { result.now ≡ self.now.vertices }
    {
        match &self.store {
            PointStore::InTwoLists { vertices, .. } => vertices.as_slice(),
            PointStore::Concatenated(points) => points.vertices(),
        }
    }

    /// The point of a vertex, numbered from 1.
    pub fn vertex(&self, vertex: u16) -> Point
        requires some { 0 < vertex }
        requires within { vertex ≤ length self.now.vertices }
        ensures { result ≡ vertex_point self.now vertex }
    {
        self.vertices()[usize::from(vertex) - 1]
    }

    /// The corner points of an edge, numbered from 0, along its lesser dart, borrowed; an empty list if it has none.
    pub fn corners(&self, edge: u16) -> &[Point]
        requires { edge < length self.now.corners }
        ensures { result.now ≡ corners_at self.now edge }
    {
        match &self.store {
            PointStore::InTwoLists { corners, .. } => corners[usize::from(edge)].as_slice(),
            PointStore::Concatenated(points) => points.corners(edge),
        }
    }
}

/// The points of the vertices, followed by the corners of all edges, and then for each edge the span of its corners.
/// A span is stored as a point too: x is the first place among all corners, y the place after the last. In contracts it
/// is the list of the vertex points and the list of the lists of corners.
#[derive(Debug, Drop)]
pub(crate) struct FlatPoints {
    points: Vec<Point>,
    vertices: usize,
    edges: usize,
}

impl Model for FlatPoints {
    ghost use Rattle.ortho_rep.specs.Points.{PointsModel};
    ghost use Rattle.ortho_rep.specs.FlatPoints.{points_in, AreConcatenated};

    ghost Value = { PointsModel };

    ghost view = { λ a. points_in a.points.items a.vertices a.edges };

    ghost invariant = { λ a. AreConcatenated a.points.items a.vertices a.edges };
}

impl FlatPoints {
    /// Makes one list of the points by appending to `vertices`; edge e has the corners from place `starts[e]` to before
    /// place `starts[e + 1]`. `AllocError` if there is no memory for it, or more than 4,294,967,295 corners; `vertices`
    /// is then gone.
    pub(crate) fn new(
        vertices: Vec<Point>,
        corners: &[Point],
        starts: &[usize],
    ) -> Result<FlatPoints, AllocError>
        requires places { AreStarts starts.now corners.now }
        ensures { IfOk result (λ made. made ≡ record { vertices = vertices.items; corners = slices_at starts.now corners.now }) }
    {
        let first = vertices.len();
        let edges = starts.len() - 1;
        if corners.len() > u32::MAX as usize {
            return Err(AllocError);
        }
        let mut points = vertices;
        points.reserve_exact(corners.len() + edges)?;
        points.extend_from_slice(corners)?;
        push_spans(&mut points, starts)?;
        Ok(FlatPoints {
            points,
            vertices: first,
            edges,
        })
    }

    /// Returns the one list, with its contents, so that its buffer can be reused.
    pub(crate) fn into_list(self) -> Vec<Point> {
        self.points
    }

    /// The points of all vertices, in the order of their numbers from 1, borrowed.
    pub(crate) fn vertices(&self) -> &[Point]
        ensures { result.now ≡ self.now.vertices }
    {
        &self.points[..self.vertices]
    }

    /// The number of edges that have a span of corners.
    pub(crate) fn edge_count(&self) -> usize
        ensures { result ≡ length self.now.corners }
    {
        self.edges
    }

    /// The corner points of an edge, numbered from 0, along its lesser dart, borrowed; an empty list if it has none.
    pub(crate) fn corners(&self, edge: u16) -> &[Point]
        requires { edge < length self.now.corners }
        ensures { result.now ≡ corners_at self.now edge }
    {
        let span = self.points[self.points.len() - self.edges + usize::from(edge)];
        let behind = &self.points[self.vertices..];
        &behind[span.x as usize..span.y as usize]
    }
}

/// Appends to `points` the span of each edge's corners, as a point. `AllocError` if `points` has to grow and there is
/// no memory; the spans that were appended before stay.
fn push_spans(points: &mut Vec<Point>, starts: &[usize]) -> Result<(), AllocError>
    requires some { 0 < length starts.now }
    requires small { All (λ place. place < 2 ^ 32) starts.now }
    ensures { OnOk result (points.new.items ≡ points.old.items ++ spans_of starts.now) }
{
    for edge in 0..starts.len() - 1 {
        points.push(Point {
            x: starts[edge] as u32,
            y: starts[edge + 1] as u32,
        })?;
    }
    Ok(())
}
