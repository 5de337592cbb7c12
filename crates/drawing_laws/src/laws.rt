//! Laws of shapes and drawings, each as the contract of a function that does nothing. Prices prove exactly the least
//! shapes, of which each plane has one with few bends. Boxes cover cells, sets of boxes that are closed in one
//! direction hold the outside, and coordinates that grow along the darts of boxes exist. Drawn by such coordinates,
//! boxes lie apart, points draw the shape, and the regions are the faces.
ghost use Rattle.std.specs.Prelude.{◌↔◌, ◌≤◌, ◌+◌, ◌*◌, ℕ, ◌≡◌, ◌<◌, Bool, true, ◌⊎◌};
ghost use Rattle.faces.specs.Planes.{IsPlane, PlaneModel, vertices};
ghost use Rattle.ortho_rep.specs.Prices.{IsProof, PricesModel};
ghost use Rattle.ortho_rep.specs.Representation.{IsLeast, IsShape};
ghost use Rattle.ortho_rep.specs.Shapes.{ShapeModel};
ghost use Rattle.drawing_laws.specs.Bound.{bend_bound, bends, edges};
ghost use Rattle.dissect.specs.Boxes.{BoxesModel, dart_map, AreBoxes};
ghost use Rattle.dissect.specs.Boxed.{IsBoxed};
ghost use Rattle.dissect.specs.Monotone.{IsMonotone, AreLeastPoints, AreWithin, AreTaken};
ghost use Rattle.drawing_laws.specs.CellFaces.{AreCellLabels};
ghost use Rattle.drawing_laws.specs.Cells.{IsWithin, IsCoveredOnce};
ghost use Rattle.drawing_laws.specs.Orders.{IsClosedAcross, HasCoordinates};
ghost use Rattle.ortho_rep.specs.Points.{PointsModel, AreBelow};
ghost use Rattle.drawing_laws.specs.Least.{AreLeast, HasLeast, HasNoGap};
ghost use Rattle.drawing_check.specs.declared.drawing.CheckFault.{CheckFault};
ghost use Rattle.drawing_check.specs.declared.drawing.CheckFault.TheVariants.{Memory};
ghost use Rattle.drawing_check.specs.Draws.{Draws, AreOnAxes};
ghost use Rattle.drawing_check.specs.Faults.{IsFirstFault};
ghost use Rattle.drawing_check.specs.Paths.{paths};
ghost use Rattle.drawing_check.specs.Regions.{HasRegions, IsRegionMap};

/// Theorem: a shape of a plane has the fewest bends exactly if some prices prove it (strong duality).
///
/// `certify` uses one direction of it. No solver is needed for it.
pub fn least_is_priced()
    ensures { (p : PlaneModel) (shape : ShapeModel) → IsPlane p → IsShape p shape
        → IsLeast p shape ↔ ((t : PricesModel) × IsProof p shape t) }
{}

/// Theorem: each plane has a shape with the fewest bends.
pub fn least_shape_exists()
    ensures { (p : PlaneModel) → IsPlane p → (shape : ShapeModel) × (IsShape p shape) × (IsLeast p shape) }
{}

/// Theorem: a least shape of a plane has at most one bend for each edge and four for each inner face.
///
/// This is at most five for each edge, and never more than six for each vertex, and four. No solver is needed for it.
pub fn few_bends()
    ensures inner { (p : PlaneModel) (shape : ShapeModel) → IsPlane p → IsLeast p shape → bends p shape ≤ bend_bound p }
    ensures five { (p : PlaneModel) (shape : ShapeModel) → IsPlane p → IsLeast p shape → bends p shape ≤ 5 * edges p }
    ensures six { (p : PlaneModel) (shape : ShapeModel) → IsPlane p → IsLeast p shape → bends p shape ≤ 6 * vertices p + 4 }
{}

/// Theorem: exactly one of the boxes that dissect a shape covers each unit cell of the rectangle round them.
///
/// This holds in any coordinates that grow along their darts. The rectangle's corners are the first vertices after
/// those of the drawing.
pub fn cells_are_covered_once()
    ensures { (p : PlaneModel) (shape : ShapeModel) (b : BoxesModel) (x y : ℕ → ℕ) → (boxed : IsBoxed p shape b) → IsMonotone (dart_map b) x y
        → (i j : ℕ) → IsWithin x y (boxed.enclosed.enclosed_map.vertices + 3) (boxed.enclosed.enclosed_map.vertices + 1) i j
        → IsCoveredOnce (dart_map b) x y i j }
{}

/// Theorem: in any coordinates that grow along the darts of boxes, each unit cell lies in one face of the plane.
///
/// A cell beside a dart of the boxes lies in the face that the dart has on this side. Neighbouring cells lie in the
/// same face if no dart passes between them. Cells to the west and the south of all boxes lie in the outer face.
pub fn cells_lie_in_faces()
    ensures { (p : PlaneModel) (shape : ShapeModel) (b : BoxesModel) (x y : ℕ → ℕ) → (boxed : IsBoxed p shape b) → IsMonotone (dart_map b) x y
        → (r : ℕ → ℕ → ℕ) × AreCellLabels (dart_map b) x y boxed.enclosed.labelled.label p.outer r }
{}

/// Theorem: a nonempty set of faces of boxes that is closed under neighbours in one direction contains the outside.
///
/// The direction is one of the four. From each box further ones, each above the one before, lead to the outside, and
/// likewise below, to the left and to the right.
pub fn closed_sets_hold_the_outside()
    ensures { (b : BoxesModel) (k : ℕ) (s : ℕ → Bool) → (boxes : AreBoxes b) → k < 4 → IsClosedAcross (dart_map b) k s
        → (a : ℕ) → a < b.darts → s a ≡ true → s boxes.faces.outside ≡ true }
{}

// Coordinates that grow along the darts of boxes exist: laws, each as the contract of a function that does nothing.
//
// Take a nonempty set of boxes that has, with each box, all boxes directly above it, and suppose that it avoids the
// outside. Take in what the outside does not reach without crossing it, so that the rest is connected. Count the
// edges that touch the rest. At each vertex the angle over the north-west belongs to the rest, or one dart at most to
// the east or north runs along the set's border with the set on its left: so there are fewer of these edges than
// vertices on them and boxes off the set, taken together. But a tree on the faces of the rest, with the whole set as
// one more node, and a tree on the vertices of these edges have no edge in common, and as many at least. So **the set
// has the outside**, and likewise in the other three directions.
//
// By the same two trees on all faces and vertices, what flows along the darts and is kept at each vertex is the
// difference of one number a face. Where it flows along a cycle without darts to the west, the faces with coordinates
// above the outside's are such a set, and so are, downward, those below: there are none, so nothing flows to the
// east. Hence from the end of a dart to the east its start is not reached without going to the west. **The coordinate
// x of a vertex** is the count of darts to the east from whose ends it is reached so: it grows along darts to the
// east, and stays along those to the north. For y turn the picture by a quarter.

/// Theorem: all boxes have coordinates that grow along their darts.
///
/// This is said of any boxes, and of those that dissect a shape of a plane.
pub fn monotone_coordinates_exist()
    ensures boxes { (b : BoxesModel) → AreBoxes b → HasCoordinates b }
    ensures shape { (p : PlaneModel) (shape : ShapeModel) (b : BoxesModel) → IsBoxed p shape b → HasCoordinates b }
{}

/// Theorem: the least coordinates that grow along the darts of boxes have no gap, and are less than the number of
/// vertices.
///
/// If no vertex had some coordinate below that of another, all coordinates above it could be lowered by one and still
/// grow along the darts.
pub fn least_coordinates_have_no_gap()
    ensures x { (b : BoxesModel) (x y : ℕ → ℕ) → AreBoxes b → AreLeast b x y → HasNoGap b.vertices x }
    ensures y { (b : BoxesModel) (x y : ℕ → ℕ) → AreBoxes b → AreLeast b x y → HasNoGap b.vertices y }
    ensures few { (b : BoxesModel) (x y : ℕ → ℕ) → AreBoxes b → AreLeast b x y
        → (v : ℕ) → v < b.vertices → (x v < b.vertices) × (y v < b.vertices) }
{}

/// Theorem: if any coordinates grow along the darts of boxes, there are least ones.
pub fn least_coordinates_exist()
    ensures { (b : BoxesModel) (x y : ℕ → ℕ) → AreBoxes b → IsMonotone (dart_map b) x y → HasLeast b }
{}

/// Theorem: the coordinates of least points, of vertices and corners, are less than the number of vertices of the
/// boxes.
pub fn least_points_are_below_vertex_count()
    ensures { (b : BoxesModel) (points : PointsModel) → AreBoxes b → AreLeastPoints b points → AreBelow b.vertices points }
{}

// Boxes drawn by coordinates that grow along their darts lie apart, and points that are taken from such coordinates
// draw the shape: laws, each as the contract of a function that does nothing.
//
// Take one row of cells. A dart to the north that crosses it is on the right side of a box, or on the left side of
// the outside. In the first case the box has one dart on its left side there, which is, walked to the north, the next
// dart to the west:
//
//     outside |  box  |     box     | box | outside
//             a <---- b <---------- c <-- d
//
// The coordinates fall from step to step, so from each dart they lead to the outside; no two steps lead to one dart,
// so the darts of the row are one sequence. Hence exactly one box covers each cell of the rectangle round all of
// them.
//
// At a point look at the cell to its upper right. A dart touches it that goes past the point to the south, or to the
// east, or arrives there with an angle that reaches so far to the right. What touches the cell is of the face that
// covers it, the outside where no box does; and of one face one dart alone touches it. But at each vertex some dart
// touches its cell, and of an edge that a point lies inside one of the two darts. So two vertices at one point are
// one, no vertex lies inside an edge, and no two edges cross or overlap.

/// Theorem: points derived from any coordinates within the grid that grow along the darts of boxes draw the shape.
///
/// The boxes dissect a shape of a plane.
pub fn monotone_coordinates_draw()
    ensures { (p : PlaneModel) (shape : ShapeModel) (b : BoxesModel) (x y : ℕ → ℕ) (points : PointsModel) → IsPlane p → IsBoxed p shape b
        → IsMonotone (dart_map b) x y → AreWithin b.vertices x → AreWithin b.vertices y → AreTaken b x y points → Draws p shape points }
{}

/// Theorem: a check refuses the least points of boxes of a shape only if memory runs out: each condition of a drawing
/// holds.
pub fn least_points_pass()
    ensures { (p : PlaneModel) (shape : ShapeModel) (b : BoxesModel) (points : PointsModel) → IsPlane p → IsBoxed p shape b
        → AreLeastPoints b points → (fault : CheckFault) → IsFirstFault p shape points fault → fault ≡ Memory }
{}

// Boxes drawn by coordinates that grow along their darts have regions, and what regions are: laws, each as the
// contract of a function that does nothing.
//
// Each box lies in one face of the plane, and the outside in the outer one. A cell lies in the face of the box that
// covers it, or in the outer face where none does. Two cells side by side have a dart between them, or one box covers
// both, or none either. The dart is a part of an edge, with the faces of this edge on its sides, or a cut, with one
// face on both.

/// Theorem: the regions of points derived from coordinates that grow along the darts of boxes are the plane's faces.
///
/// The boxes dissect a shape of a plane. Each region is a face on the left of its darts, with the outer face outside.
/// Least points have regions, too.
pub fn boxes_have_regions()
    ensures taken { (p : PlaneModel) (shape : ShapeModel) (b : BoxesModel) (x y : ℕ → ℕ) (points : PointsModel) → IsPlane p → IsBoxed p shape b
        → IsMonotone (dart_map b) x y → AreTaken b x y points → HasRegions p points }
    ensures least { (p : PlaneModel) (shape : ShapeModel) (b : BoxesModel) (points : PointsModel) → IsPlane p → IsBoxed p shape b
        → AreLeastPoints b points → HasRegions p points }
{}

/// Theorem: points that have regions determine in which face each cell lies.
///
/// Each cell lies in a face, each face has a cell where parts of edges run along the axes, and whatever lies beyond the
/// greatest coordinate n is in the outer face.
pub fn regions_are_faces()
    ensures one { (p : PlaneModel) (points : PointsModel) (r s : ℕ → ℕ → ℕ) → IsRegionMap p points r → IsRegionMap p points s
        → (i j : ℕ) → r i j ≡ s i j }
    ensures named { (p : PlaneModel) (points : PointsModel) (r : ℕ → ℕ → ℕ) → IsPlane p → IsRegionMap p points r → (i j : ℕ) → r i j < p.faces }
    ensures each { (p : PlaneModel) (points : PointsModel) (r : ℕ → ℕ → ℕ) → IsPlane p → AreOnAxes (paths p points) → IsRegionMap p points r
        → (k : ℕ) → k < p.faces → (i : ℕ) × (j : ℕ) × (r i j ≡ k) }
    ensures outside { (p : PlaneModel) (points : PointsModel) (r : ℕ → ℕ → ℕ) (n : ℕ) → IsPlane p → AreBelow (n + 1) points → IsRegionMap p points r
        → (i j : ℕ) → (n < i) ⊎ (n < j) → r i j ≡ p.outer }
{}
