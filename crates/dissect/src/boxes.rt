//! A map in four directions whose faces are boxes, but for the outside.

ghost use Rattle.std.specs.Prelude.{◌≡◌, ◌≢◌, ◌-◌, ◌<◌, ◌≤◌, ◌^◌, length, slice_index, IfSome, IfNone};
ghost use Rattle.dissect.specs.DartMaps.{no_dart};
ghost use Rattle.geometry.specs.Directions.{quarters};
ghost use Rattle.dissect.specs.Boxes.{AreBoxes, IsEdgePath, parts_of, dart_map};

use crate::dissection::Scratch;
use crate::table::{DartTable, NO_DART};
use common::FlatLists;
use geometry::Direction;
use std::marker::Model;

/// A dissection of a plane's map: enclosed in a rectangle, and cut until each face but the outside is a box.
///
/// The map has four directions, and its edges have no bends. In contracts it is a `BoxesModel`: a map of darts, how
/// many vertices of it are the plane's, the lesser darts of the plane's edges, and their paths.
///
/// Vertices and darts are numbered from 0. The plane's vertex v is vertex v - 1; a dart of the plane has its number
/// here too, and is the last of the darts that make up its edge. Edges of the plane are numbered by their lesser darts,
/// in ascending order. No accessor allocates, and each takes constant time.
#[derive(Drop)]
pub struct Boxes {
    table: DartTable,
    old: u16,
    edges: Vec<u16>,
    paths: FlatLists<u32>,
}

impl Model for Boxes {
    ghost use Rattle.dissect.specs.Boxes.{BoxesModel, AreBoxes, parts_of};

    ghost Value = { BoxesModel };

    ghost view = { λ b. parts_of b.table b.old b.edges.items b.paths };

    ghost invariant = { λ b. AreBoxes (parts_of b.table b.old b.edges.items b.paths) };
}

impl Boxes {
    /// The boxes that `table` holds, for a plane with `old` vertices; `edges` has the lesser darts of the plane's
    /// edges, and `paths` the darts that make up each of these edges. All are moved into the boxes.
    pub(crate) fn of(table: DartTable, old: u16, edges: Vec<u16>, paths: FlatLists<u32>) -> Boxes
        requires { AreBoxes (parts_of table old edges.items paths) }
        ensures { result ≡ parts_of table old edges.items paths }
    {
        Boxes {
            table,
            old,
            edges,
            paths,
        }
    }

    /// Consumes the boxes, and moves the buffers of their lists to `scratch` in place of those of the same lists there,
    /// which are freed.
    pub fn give_back(self, scratch: &mut Scratch) {
        let (darts, starts) = self.paths.into_parts();
        scratch.table = self.table;
        scratch.edges = self.edges;
        scratch.darts = darts;
        scratch.starts = starts;
    }

    /// The number of vertices of the boxes, those of the plane included.
    pub fn vertices(&self) -> u32
        ensures value { result ≡ self.now.vertices }
        ensures boxes { AreBoxes self.now }
    {
        self.table.vertices
    }

    /// The number of darts of the boxes: two for each edge of the boxes. The plane's edges are fewer; `edges` counts
    /// those.
    pub fn darts(&self) -> u32
        ensures value { result ≡ self.now.darts }
        ensures boxes { AreBoxes self.now }
    {
        self.table.darts
    }

    /// The vertex of the boxes, numbered from 0, from which a dart starts.
    pub fn tail(&self, dart: u32) -> u32
        requires { dart < self.now.darts }
        ensures value { result ≡ (dart_map self.now).head ((dart_map self.now).reverse_dart dart) }
        ensures inside { result < self.now.vertices }
    {
        self.table.head[self.table.reverse_dart[dart as usize] as usize]
    }

    /// The vertex of the boxes, numbered from 0, at which a dart ends.
    pub fn head(&self, dart: u32) -> u32
        requires { dart < self.now.darts }
        ensures value { result ≡ (dart_map self.now).head dart }
        ensures inside { result < self.now.vertices }
    {
        self.table.head[dart as usize]
    }

    /// The number of the dart along the same edge of the boxes in the other direction.
    pub fn reverse(&self, dart: u32) -> u32
        requires { dart < self.now.darts }
        ensures value { result ≡ (dart_map self.now).reverse_dart dart }
        ensures inside { result < self.now.darts }
    {
        self.table.reverse_dart[dart as usize]
    }

    /// The number of the dart that follows this one on the walk round the face on its left.
    pub fn next(&self, dart: u32) -> u32
        requires { dart < self.now.darts }
        ensures value { result ≡ (dart_map self.now).next dart }
        ensures inside { result < self.now.darts }
    {
        self.table.next[dart as usize]
    }

    /// The direction in which a dart runs from its tail to its head; edges of the boxes are straight.
    pub fn direction(&self, dart: u32) -> Direction
        requires { dart < self.now.darts }
        ensures value { quarters result ≡ (dart_map self.now).direction dart }
        ensures boxes { AreBoxes self.now }
    {
        Direction::from_quarters(self.table.direction[dart as usize])
    }

    /// The head of each dart, a vertex of the boxes numbered from 0, at the place of the dart's number. The slice may
    /// be longer than the number of darts; the items after them mean nothing.
    pub fn heads(&self) -> &[u32]
        ensures value { result.now ≡ self.now.head }
        ensures count { self.now.darts ≤ length result.now }
        ensures boxes { AreBoxes self.now }
    {
        self.table.head.as_slice()
    }

    /// The number of the reverse of each dart, at the place of the dart's own number. The slice may be longer than the
    /// number of darts; the items after them mean nothing.
    pub fn reverse_darts(&self) -> &[u32]
        ensures value { result.now ≡ self.now.reverse_dart }
        ensures count { self.now.darts ≤ length result.now }
    {
        self.table.reverse_dart.as_slice()
    }

    /// The direction of each dart, at the place of the dart's number, in quarter turns to the left from east, 0 to 3.
    /// The slice may be longer than the number of darts; the items after them mean nothing.
    pub fn directions(&self) -> &[u8]
        ensures value { result.now ≡ self.now.direction }
        ensures count { self.now.darts ≤ length result.now }
    {
        self.table.direction.as_slice()
    }

    /// The number of the previous dart along the same edge of the plane, side, bridge or cut; `None` if the dart is the
    /// first one there.
    ///
    /// A side is one of the rectangle, and its bridge connects it to the plane.
    pub fn before(&self, dart: u32) -> Option<u32>
        requires { dart < self.now.darts }
        ensures some { IfSome result (λ front. front ≡ (dart_map self.now).before dart) }
        ensures real { IfSome result (λ front. front ≢ no_dart) }
        ensures none { IfNone result ((dart_map self.now).before dart ≡ no_dart) }
        ensures boxes { AreBoxes self.now }
    {
        let front = self.table.before[dart as usize];
        if front == NO_DART { None } else { Some(front) }
    }

    /// The number of vertices of the plane, without those that the boxes have besides.
    pub fn old_vertices(&self) -> u16
        ensures value { result ≡ self.now.old }
        ensures inside { result ≤ self.now.vertices }
    {
        self.old
    }

    /// The vertex of the boxes, numbered from 0, that is this vertex of the plane, numbered from 1: `vertex` - 1.
    pub fn old(&self, vertex: u16) -> u32
        requires from { 1 ≤ vertex }
        requires to { vertex ≤ self.now.old }
        ensures value { result ≡ vertex - 1 }
        ensures inside { result < self.now.vertices }
    {
        // Only the proof needs this field.
        let _ = &self.table;
        u32::from(vertex) - 1
    }

    /// The number of edges of the plane, not of the boxes.
    pub fn edges(&self) -> u16
        ensures value { result ≡ length self.now.edges }
        ensures boxes { AreBoxes self.now }
    {
        self.edges.len() as u16
    }

    /// The darts of the boxes, at least one, that make up this edge of the plane, numbered from 0, in walking order
    /// along its lesser dart, which is the last of them.
    pub fn path(&self, edge: u16) -> &[u32]
        requires { edge < length self.now.edges }
        ensures path { IsEdgePath self.now edge result.now }
    {
        self.paths.get(usize::from(edge))
    }
}
