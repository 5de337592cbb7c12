//! Theorems about answers, reports and whole runs, each as the contract of an empty function: the limits of the program
//! by their numbers, and bounds on bends, boxes and supplies; the meaning of a laid answer, the uniqueness of the outer
//! face and of least points, the course of edges in boxes, and the regions of drawings; that points and frames can
//! always be kept; and that reports, picks and counts of the same bytes under the same choice are equal.
ghost use Rattle.std.specs.Prelude.{◌≡◌, ◌≤◌, ℕ, List, length, All, ◌+◌, ◌*◌, Result, ◌≢◌, ◌-◌, ◌<◌, ◌⊎◌, Bool, ◌++◌, Some};
ghost use Rattle.planar_code.specs.Stream.{IsRecord, lists_of};
ghost use Rattle.embedding.specs.Wide.{IsWideRecord};
ghost use Rattle.faces.specs.Planes.{PlaneModel, IsPlane, darts, vertices, HasGreatestOuter, with_outer, tail, face_at};
ghost use Rattle.min_cost_flow.specs.declared.network.TheConstants.{MAX_NODES, MAX_ARCS, MAX_SUPPLY};
ghost use Rattle.common.specs.declared.parameters.Choice.{Choice};
ghost use Rattle.ortho_rep.specs.Shapes.{ShapeModel};
ghost use Rattle.ortho_rep.specs.Points.{PointsModel};
ghost use Rattle.ortho_rep.specs.Prices.{PricesModel};
ghost use Rattle.ortho_rep.specs.Representation.{IsLeast, IsShape};
ghost use Rattle.drawing_laws.specs.Bound.{bend_bound, bends, edges};
ghost use Rattle.dissect.specs.Boxed.{IsBoxed};
ghost use Rattle.dissect.specs.Boxes.{BoxesModel, dart_map, AreBoxes};
ghost use Rattle.reports.specs.declared.answer.Cause.{Cause};
ghost use Rattle.reports.specs.Answers.{IsLaid};
ghost use Rattle.flow_network.specs.FaceNet.{FaceNetModel, IsFaceNetOf};
ghost use Rattle.min_cost_flow.specs.Round.{supply_sum};
ghost use Rattle.run_laws.specs.Supplies.{supplied_quarters, inner_triangles};
ghost use Rattle.run_laws.specs.Laid.{IsLaidPlainly};
ghost use Rattle.ortho_rep.specs.Best.{IsBest};
ghost use Rattle.run_laws.specs.Outside.{LooksOut};
ghost use Rattle.drawing_laws.specs.Parts.{IsPart, IsOneEdge};
ghost use Rattle.ortho_rep.specs.declared.grid_points.Point.{Point};
ghost use Rattle.drawing_check.specs.Draws.{HasPoints, AreOnAxes, Draws};
ghost use Rattle.drawing_check.specs.Paths.{paths};
ghost use Rattle.drawing_check.specs.Regions.{HasRegions, IsRegionMap};
ghost use Rattle.run_laws.specs.Cells.{Meets, IsLeastCorner, AreJoined};
ghost use Rattle.dissect.specs.Monotone.{AreLeastPoints};
ghost use Rattle.flow_network.specs.Given.{GivenModel, CanBeGiven};
ghost use Rattle.conditions.specs.Cut.{ShowsNone};
ghost use Rattle.run_laws.specs.Points.{ArePoints};
ghost use Rattle.run_laws.specs.Frames.{FaceSet, AreParts};
ghost use Rattle.lanes.specs.Opening.{Meaning};
ghost use Rattle.reports.specs.Books.{BookModel, IsBook};
ghost use Rattle.reports.specs.Report.{book_text};
ghost use Rattle.streams.specs.declared.frames.Form.{Form};
ghost use Rattle.collector.specs.Whole.{IsAllWritten};
ghost use Rattle.collector.specs.Headline.{IsWholeRun};
ghost use Rattle.run_laws.specs.Reports.{IsReport, AreKnownAlike, AreAllKnownAlike, HasNoMemoryWord};
ghost use Rattle.graph_facts.specs.declared.selection.Selection.{Selection};
ghost use Rattle.graph_facts.specs.declared.selection.Facts.{Facts};
ghost use Rattle.collector.specs.FactBooks.{FactBook, AreAllFactBooks};
ghost use Rattle.graph_facts.specs.Facts.{AreFacts};
ghost use Rattle.collector.specs.Picked.{chosen_in, picked_text};
ghost use Rattle.graph_facts.specs.Tables.{IsTable, TableModel, table_text};
ghost use Rattle.run_laws.specs.Picks.{HasAllFacts};

use common::MAX_VERTICES;
use embedding::{MAX_DARTS, MAX_EDGES, MAX_ENTRIES};
use faces::MAX_FACES;
use ortho_rep::{MAX_COORDINATE, MAX_TURNS};
use planar_code::{MAX_LIST, MAX_RECORDS};
use reports::MAX_FILES;
use ruled_lanes::{LANES, MAX_CAPACITY, MAX_TICKETS};

// The entries of a neighbour list, and the records of a file.
const _: () = prove!(MAX_LIST == 254);

const _: () = prove!(MAX_RECORDS == 1_000_000);

// The entries of a wide record.
const _: () = prove!(MAX_ENTRIES == 65_535);

// The vertices, edges, darts and faces of a graph that is laid out.
const _: () = prove!(MAX_VERTICES == 1_200);

const _: () = prove!(MAX_EDGES == 2_400);

const _: () = prove!(MAX_DARTS == 4_800);

const _: () = prove!(MAX_FACES == 1_202);

// The turns along a dart of a shape that is tested, and the coordinates of a drawing.
const _: () = prove!(MAX_TURNS == 1_000_000);

const _: () = prove!(MAX_COORDINATE == 65_535);

// The files of a batch and their tickets, the lanes, and the items that a channel holds.
const _: () = prove!(MAX_FILES == 256);

const _: () = prove!(MAX_TICKETS == 256);

const _: () = prove!(LANES == 8);

const _: () = prove!(MAX_CAPACITY == 64);

/// Theorem: a network has at most 2,402 nodes and 9,600 arcs, and no node supplies or demands more than 12,008 units.
pub fn network_limits()
    ensures nodes { MAX_NODES ≡ 2402 }
    ensures arcs { MAX_ARCS ≡ 9600 }
    ensures supply { MAX_SUPPLY ≡ 12008 }
{}

/// Theorem: a record has 1 to 255 lists of at most 254 entries, and at most 65,026 bytes.
pub fn record_limits()
    ensures some { (bytes : List ℕ) → IsRecord bytes → 1 ≤ length (lists_of bytes) }
    ensures vertices { (bytes : List ℕ) → IsRecord bytes → length (lists_of bytes) ≤ 255 }
    ensures entries { (bytes : List ℕ) → IsRecord bytes → All (λ entries. length entries ≤ 254) (lists_of bytes) }
    ensures bytes { (bytes : List ℕ) → IsRecord bytes → length bytes ≤ 65026 }
{}

/// Theorem: a wide record has 1 to 1,200 lists, and at most 65,535 numbers, with its count and the zero after each
/// list.
pub fn wide_record_limits()
    ensures some { (entries : List ℕ) → IsWideRecord entries → 1 ≤ length (lists_of entries) }
    ensures vertices { (entries : List ℕ) → IsWideRecord entries → length (lists_of entries) ≤ 1200 }
    ensures entries { (entries : List ℕ) → IsWideRecord entries → length entries ≤ 65535 }
{}

/// Theorem: a plane has at most 1,200 vertices, 4,800 darts and 1,202 faces.
pub fn plane_limits()
    ensures vertices { (p : PlaneModel) → IsPlane p → vertices p ≤ 1200 }
    ensures darts { (p : PlaneModel) → IsPlane p → darts p ≤ 4800 }
    ensures faces { (p : PlaneModel) → IsPlane p → p.faces ≤ 1202 }
{}

/// Theorem: the plane of a record has at most 255 vertices, 1,020 darts and 257 faces.
pub fn record_plane_limits()
    ensures vertices { (bytes : List ℕ) (p : PlaneModel) → IsRecord bytes → p.lists ≡ lists_of bytes → IsPlane p → vertices p ≤ 255 }
    ensures darts { (bytes : List ℕ) (p : PlaneModel) → IsRecord bytes → p.lists ≡ lists_of bytes → IsPlane p → darts p ≤ 1020 }
    ensures faces { (bytes : List ℕ) (p : PlaneModel) → IsRecord bytes → p.lists ≡ lists_of bytes → IsPlane p → p.faces ≤ 257 }
{}

/// Theorem: the shape of a laid answer has at most one bend for each edge and four for each inner face.
///
/// This is at most five for each edge, and never more than six for each vertex, and four: 7,204, and 1,534 for a
/// record.
pub fn laid_bends()
    ensures inner { (choice : Choice) (g : List (List ℕ)) (plane : PlaneModel) (shape : ShapeModel) (prices : PricesModel) (drawing : Result PointsModel Cause)
        → IsLaid choice g plane shape prices drawing → bends plane shape ≤ bend_bound plane }
    ensures five { (choice : Choice) (g : List (List ℕ)) (plane : PlaneModel) (shape : ShapeModel) (prices : PricesModel) (drawing : Result PointsModel Cause)
        → IsLaid choice g plane shape prices drawing → bends plane shape ≤ 5 * edges plane }
    ensures six { (choice : Choice) (g : List (List ℕ)) (plane : PlaneModel) (shape : ShapeModel) (prices : PricesModel) (drawing : Result PointsModel Cause)
        → IsLaid choice g plane shape prices drawing → bends plane shape ≤ 6 * vertices plane + 4 }
    ensures limit { (choice : Choice) (g : List (List ℕ)) (plane : PlaneModel) (shape : ShapeModel) (prices : PricesModel) (drawing : Result PointsModel Cause)
        → IsLaid choice g plane shape prices drawing → bends plane shape ≤ 7204 }
    ensures of_record { (choice : Choice) (bytes : List ℕ) (plane : PlaneModel) (shape : ShapeModel) (prices : PricesModel) (drawing : Result PointsModel Cause)
        → IsRecord bytes → IsLaid choice (lists_of bytes) plane shape prices drawing → bends plane shape ≤ 1534 }
{}

/// Theorem: the boxes that a shape with the fewest bends is cut into have at most 15n + 13 vertices, for a plane with n
/// vertices: 18,013, and 3,838 for a record.
pub fn boxes_are_few()
    ensures fifteen { (p : PlaneModel) (shape : ShapeModel) (b : BoxesModel) → IsPlane p → IsLeast p shape → IsBoxed p shape b
        → b.vertices ≤ 15 * vertices p + 13 }
    ensures limit { (p : PlaneModel) (shape : ShapeModel) (b : BoxesModel) → IsPlane p → IsLeast p shape → IsBoxed p shape b
        → b.vertices ≤ 18013 }
    ensures of_record { (bytes : List ℕ) (p : PlaneModel) (shape : ShapeModel) (b : BoxesModel) → IsRecord bytes → p.lists ≡ lists_of bytes
        → IsPlane p → IsLeast p shape → IsBoxed p shape b → b.vertices ≤ 3838 }
{}

/// Theorem: the total supply of a plane's network is the sum of 4 less each vertex's degree, plus 1 for each inner
/// triangle.
///
/// No inner face has fewer than three darts, and the outer face supplies none. A solution takes at most as many
/// searches as units are supplied.
pub fn units_supplied()
    ensures { (p : PlaneModel) (n : FaceNetModel) → IsPlane p → IsFaceNetOf p n
        → supply_sum n.network ≡ supplied_quarters p + inner_triangles p }
{}

/// Theorem: the plane of a laid answer is that of its graph with the chosen outer face, the shape has the fewest bends,
/// the prices prove so, and the points, if given, draw the shape.
///
/// The plane has the neighbour lists of the graph, which break no rule, their faces and the chosen outer face. The
/// shape is an orthogonal representation with no more bends than any other, with strings of any length, and the prices
/// prove so. The points, if given, lie on the grid, follow the axes, turn as the shape says and meet nowhere.
pub fn laid_means()
    ensures { (choice : Choice) (g : List (List ℕ)) (plane : PlaneModel) (shape : ShapeModel) (prices : PricesModel) (drawing : Result PointsModel Cause)
        → IsLaid choice g plane shape prices drawing
        → IsLaidPlainly choice g plane shape prices drawing }
{}

/// Theorem: the outer face by `Choice::First` is unique: it has the most darts, and among equals the least dart.
///
/// Two planes that differ only in the outer face, and each have that face as it, have the same outer face.
pub fn one_greatest()
    ensures { (p : PlaneModel) (other : ℕ) → IsPlane p → IsPlane (with_outer p other)
        → HasGreatestOuter p → HasGreatestOuter (with_outer p other) → p.outer ≡ other }
{}

/// Theorem: the outer face by `Choice::Best` is unique: it minimises bends, and has the least number among equals.
///
/// Two planes that differ only in the outer face, and each have that face as it, have the same outer face.
pub fn one_best()
    ensures { (p : PlaneModel) (other : ℕ) → IsPlane p → IsPlane (with_outer p other)
        → IsBest p → IsBest (with_outer p other) → p.outer ≡ other }
{}

/// Theorem: a right turn of the outer face of a shape's map looks straight at a side of the rectangle around the map.
///
/// The whole map is contained in the boxes. Whatever numbers that grow along the darts their vertices get, four of them
/// are the corners of a rectangle, and straight across from a right turn of the plane's outer face there is a vertex on
/// a side of it.
pub fn outer_face_looks_out()
    ensures { (p : PlaneModel) (shape : ShapeModel) (b : BoxesModel) → IsBoxed p shape b → LooksOut p shape b }
{}

/// Theorem: no part of the boxes belongs to two edges, and no edge passes a vertex twice or returns to its start.
///
/// This holds whichever way a part is walked. It is why the paths of a plane's darts are disjoint.
pub fn edges_share_no_part()
    ensures part { (p : PlaneModel) (shape : ShapeModel) (b : BoxesModel) → IsPlane p → IsBoxed p shape b
        → (d e a : ℕ) → d < darts p → e < darts p → IsPart (dart_map b) d a
        → IsPart (dart_map b) e a ⊎ IsPart (dart_map b) e ((dart_map b).reverse_dart a) → IsOneEdge p d e }
    ensures vertex { (p : PlaneModel) (shape : ShapeModel) (b : BoxesModel) → IsPlane p → IsBoxed p shape b
        → (d a c : ℕ) → d < darts p → IsPart (dart_map b) d a → IsPart (dart_map b) d c → (dart_map b).head a ≡ (dart_map b).head c → a ≡ c }
    ensures start { (p : PlaneModel) (shape : ShapeModel) (b : BoxesModel) → IsPlane p → IsBoxed p shape b
        → (d a : ℕ) → d < darts p → IsPart (dart_map b) d a → (dart_map b).head a ≢ tail p d - 1 }
{}

/// Theorem: edges neither cross nor touch except at their ends.
///
/// An edge reaches a vertex of the plane only at its end, and if parts of two edges reach one vertex, that is the end
/// of both. It is why darts form chains.
pub fn edges_meet_at_ends()
    ensures vertex { (p : PlaneModel) (shape : ShapeModel) (b : BoxesModel) → IsPlane p → IsBoxed p shape b
        → (d a : ℕ) → d < darts p → IsPart (dart_map b) d a → (dart_map b).head a < vertices p → a ≡ d }
    ensures meeting { (p : PlaneModel) (shape : ShapeModel) (b : BoxesModel) → IsPlane p → IsBoxed p shape b
        → (d e a c : ℕ) → d < darts p → e < darts p → IsPart (dart_map b) d a → IsPart (dart_map b) e c
        → (dart_map b).head a ≡ (dart_map b).head c → IsOneEdge p d e ⊎ ((a ≡ d) × (c ≡ e)) }
{}

/// Theorem: the least of all vertices and corners, by x and then by y, lies on the outer face of points that have
/// regions.
///
/// The parts of all paths run along the axes.
pub fn least_corner_is_outer()
    ensures { (p : PlaneModel) (points : PointsModel) (q : Point) → IsPlane p → AreOnAxes (paths p points) → HasRegions p points
        → IsLeastCorner p points q → (d : ℕ) × (d < darts p) × (face_at p d ≡ p.outer) × Meets p points d q }
{}

/// Theorem: two cells of a drawing lie in one face if and only if they are joined, so each face is one connected
/// region.
///
/// The points draw a shape of the plane, and the map gives the face of each cell.
pub fn regions_are_connected()
    ensures face { (p : PlaneModel) (points : PointsModel) (r : ℕ → ℕ → ℕ) → IsRegionMap p points r
        → (i j k l : ℕ) → AreJoined p points i j k l → r i j ≡ r k l }
    ensures joined { (p : PlaneModel) (shape : ShapeModel) (points : PointsModel) (r : ℕ → ℕ → ℕ) → IsPlane p → IsShape p shape
        → HasPoints p points → Draws p shape points → IsRegionMap p points r
        → (i j k l : ℕ) → r i j ≡ r k l → AreJoined p points i j k l }
{}

/// Theorem: two lists of least points of the same boxes are equal, since each takes the least numbers that grow along
/// the darts.
///
/// The coordinates of boxes therefore leave no choice open.
pub fn least_points_are_unique()
    ensures { (b : BoxesModel) (points others : PointsModel) → AreBoxes b → AreLeastPoints b points → AreLeastPoints b others → points ≡ others }
{}

/// Theorem: if only points are given (at some vertices all angles, which make a whole turn, and no turns), no set of
/// vertices and faces turns more than can leave it.
pub fn points_have_no_cut()
    ensures { (p : PlaneModel) (given : GivenModel) (vertices faces : List Bool) → IsPlane p → CanBeGiven given.angles given.turns → ArePoints p given → ¬ ShowsNone p given vertices faces }
{}

/// Theorem: if only points and frames (cycles of straight edges with four corners) are given, no set of vertices and
/// faces turns more than can leave it.
pub fn parts_have_no_cut()
    ensures { (p : PlaneModel) (given : GivenModel) (frames : ℕ) (inside : ℕ → FaceSet) (vertices faces : List Bool) → IsPlane p → CanBeGiven given.angles given.turns → AreParts p given frames inside → ¬ ShowsNone p given vertices faces }
{}

/// Theorem: two whole runs of the same bytes under the same choice have the same text in a report.
///
/// This holds whichever numbers their files have.
pub fn same_whole_runs()
    ensures { (choice : Choice) (file other_file : ℕ) (bytes : List ℕ) (book other : BookModel)
        → IsWholeRun choice file bytes book
        → IsWholeRun choice other_file bytes other
        → (number : ℕ)
        → book_text number book ≡ book_text number other }
{}

/// Theorem: if the text of a sink is known, the report that `write_batch` adds to it is the report of right books.
pub fn written_is_report()
    ensures { (choice : Choice) (meaning : ℕ → Meaning) (files status : ℕ) (start now : List ℕ)
        → IsAllWritten choice meaning Form.Report files (Some start) (Some now) status
        → (text : List ℕ) × (now ≡ start ++ text) × IsReport choice meaning files text }
{}

/// Theorem: two right books of files with the same known bytes have the same text in a report, unless memory ran out.
///
/// The books are under the same choice, and the word "memory" occurs in neither text. This holds whichever numbers the
/// files have.
pub fn one_book_text()
    ensures { (choice : Choice) (meaning other_meaning : Meaning) (file other_file : ℕ) (book other : BookModel)
        → IsBook choice meaning file book
        → IsBook choice other_meaning other_file other
        → AreKnownAlike meaning other_meaning
        → (number : ℕ)
        → HasNoMemoryWord (book_text number book)
        → HasNoMemoryWord (book_text number other)
        → book_text number book ≡ book_text number other }
{}

/// Theorem: two reports of files with the same known bytes are equal, unless memory ran out.
///
/// The reports are under the same choice, and the word "memory" occurs in neither. This holds whether `run_plain` or
/// `run_batch` made the books or `write_batch` wrote the text, and for any lanes, capacity and schedule.
pub fn one_report()
    ensures { (choice : Choice) (meaning other_meaning : ℕ → Meaning) (files : ℕ) (text other : List ℕ)
        → IsReport choice meaning files text
        → IsReport choice other_meaning files other
        → AreAllKnownAlike files meaning other_meaning
        → HasNoMemoryWord text
        → HasNoMemoryWord other
        → text ≡ other }
{}

/// Theorem: two `Facts` of one graph under the same choice of the outer face are equal.
pub fn one_facts()
    ensures { (choice : Choice) (g : List (List ℕ)) (facts other : Facts)
        → AreFacts choice g (Some facts) → AreFacts choice g (Some other) → facts ≡ other }
{}

/// Theorem: two picks by one selection and under one choice of the outer face, from files with the same known bytes,
/// have the same text, unless memory ran out.
///
/// This holds for any lanes, capacity and schedule.
pub fn one_picked_text()
    ensures { (selection : Selection) (choice : Choice) (meaning other_meaning : ℕ → Meaning) (files : ℕ) (books others : List FactBook)
        → AreAllFactBooks choice meaning files books
        → AreAllFactBooks choice other_meaning files others
        → AreAllKnownAlike files meaning other_meaning
        → All HasAllFacts books
        → All HasAllFacts others
        → picked_text selection books ≡ picked_text selection others }
{}

/// Theorem: two tables with the same columns, of the graphs that one selection chooses, under one choice of the outer
/// face, from files with the same known bytes, have the same text, unless memory ran out.
///
/// This holds for any lanes, capacity and schedule.
pub fn one_counted_text()
    ensures { (selection : Selection) (choice : Choice) (meaning other_meaning : ℕ → Meaning) (files : ℕ) (books others : List FactBook) (table other : TableModel)
        → AreAllFactBooks choice meaning files books
        → AreAllFactBooks choice other_meaning files others
        → AreAllKnownAlike files meaning other_meaning
        → All HasAllFacts books
        → All HasAllFacts others
        → IsTable (chosen_in selection books) table
        → IsTable (chosen_in selection others) other
        → table.columns ≡ other.columns
        → table_text table ≡ table_text other }
{}
