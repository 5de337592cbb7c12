//! Walks round the faces of a map, which are the orbits of `next` (Edmonds 1960), and the corners of all faces, listed
//! by tracing each face.
ghost use Rattle.std.specs.Prelude.{◌≡◌, ◌≢◌, ◌⊎◌, ◌+◌, ◌<◌, ◌≤◌, ℕ, [], ◌∷◌, ◌++◌, OnOk, vec_len, vec_capacity, IfOk, List};
ghost use Rattle.dissect.specs.FaceNumbers.{AreFaceNumbers, HasTurns};
ghost use Rattle.dissect.specs.Tables.{dart_map_of, room};
ghost use Rattle.dissect.specs.DartMaps.{IsTied};
ghost use Rattle.dissect.specs.Walks.{IsWalked};
ghost use Rattle.dissect.specs.Listed.{AreFlat, AreMergedFaces, AreListed};

use crate::table::DartTable;
use common::{emptied, filled};
use std::alloc::{AllocError, Global};

/// The first dart, on the walk round its face from the dart `outer` on, `outer` included, at whose head the walk turns
/// to the right: the angle there is over two right angles. The walk must turn to the right somewhere.
///
/// Linear in the darts of the face.
pub fn find_right(table: &DartTable, outer: u32) -> u32
    requires tied { IsTied (dart_map_of table.now) }
    requires inside { outer < table.now.darts }
    requires turns { (face_number : ℕ → ℕ) × HasTurns (dart_map_of table.now) face_number (face_number outer) }
    ensures inside { result < table.now.darts }
    ensures right { 2 < (dart_map_of table.now).angle result }
    ensures same { (face_number : ℕ → ℕ) → AreFaceNumbers (dart_map_of table.now) face_number → face_number result ≡ face_number outer }
{
    let mut dart = outer;
    'steps: for _ in 0..table.darts {
        if table.angle[dart as usize] > 2 {
            return dart;
        }
        dart = table.next[dart as usize];
    }
    dart
}

/// Appends `dart` to `corners`, which must have room for one more, unless `angle` is 2, which is straight. The dart is
/// appended in any case and removed again if straight, which only changes the length: a branch could not be predicted.
fn push_corner(corners: &mut Vec<u32>, dart: u32, angle: u8)
    requires { vec_len corners.old < vec_capacity corners.old }
    ensures put { ((angle ≢ 2) × (corners.new.items ≡ corners.old.items ++ (dart ∷ [])))
        ⊎ ((angle ≡ 2) × (corners.new.items ≡ corners.old.items)) }
    ensures count { vec_len corners.new ≤ vec_len corners.old + 1 }
    ensures capacity { vec_capacity corners.new ≡ vec_capacity corners.old }
{
    corners.push_reserved(dart);
    if angle == 2 {
        corners.pop();
    }
}

/// Walks once round the face of the dart `start`: sets the items of its darts in `seen` to true, and appends its
/// corners, the darts whose angle is not straight, in walking order to `corners`; `start` comes last if it is a corner.
/// `AllocError` if there is no memory for `corners`; `seen` and `corners` are then unchanged.
pub fn walk(
    table: &DartTable,
    start: u32,
    seen: &mut Vec<bool>,
    corners: &mut Vec<u32>,
) -> Result<(), AllocError>
    requires tied { IsTied (dart_map_of table.now) }
    requires inside { start < table.now.darts }
    requires size { table.now.darts ≤ vec_len seen.old }
    ensures size { vec_len seen.new ≡ vec_len seen.old }
    ensures walked { OnOk result (IsWalked (dart_map_of table.now) start seen.old.items seen.new.items corners.old.items corners.new.items) }
{
    // No face has more corners than darts; so no step asks for room.
    corners.reserve(table.darts as usize)?;
    let mut dart = start;
    'steps: for _ in 0..table.darts {
        dart = table.next[dart as usize];
        seen[dart as usize] = true;
        push_corner(corners, dart, table.angle[dart as usize]);
        if dart == start {
            return Ok(());
        }
    }
    Ok(())
}

/// The corners of faces, those of each face in walking order. Its buffers can be reused.
#[derive(Drop)]
pub struct Faces {
    /// The corners of the inner faces, one face after another, followed by those of the merged face
    /// once it is added.
    pub(crate) corners: Vec<u32>,
    /// How many corners each of these faces has.
    pub(crate) counts: Vec<u32>,
    /// The corners of the outer face.
    pub(crate) outer: Vec<u32>,
    // the darts whose faces are listed
    seen: Vec<bool>,
}

impl Faces {
    /// An empty list of faces. It allocates nothing.
    pub fn empty(alloc: Global) -> Faces
        ensures { result.corners.items ≡ [] }
    {
        Faces {
            corners: Vec::new(alloc),
            counts: Vec::new(alloc),
            outer: Vec::new(alloc),
            seen: Vec::new(alloc),
        }
    }
}

/// How many faces the map of `table` has if it is connected, by Euler's formula. Only how much room is made for them
/// rests on it.
fn face_count(table: &DartTable) -> usize {
    (table.darts / 2 + 2).saturating_sub(table.vertices) as usize
}

/// Lists the corners of all faces, in the buffers of `faces`: in `outer` those of the face of the right turn `right`,
/// which comes last; in `corners` those of the other faces, one face after another, and in `counts` how many each has.
/// `AllocError` if there is no memory; `faces` is then gone.
///
/// Linear in the darts.
pub fn list_faces(table: &DartTable, right: u32, faces: Faces) -> Result<Faces, AllocError>
    requires tied { IsTied (dart_map_of table.now) }
    requires inside { right < table.now.darts }
    requires turn { 2 < (dart_map_of table.now).angle right }
    requires turns { (face_number : ℕ → ℕ) × HasTurns (dart_map_of table.now) face_number (face_number right) }
    ensures listed { IfOk result (λ f. (inner : List (List ℕ)) × AreFlat f.corners.items f.counts.items inner
        × AreListed (dart_map_of table.now) right inner f.outer.items) }
{
    // No face has more corners than darts, nor have all of them together.
    let darts = table.darts as usize;
    let mut seen = filled(faces.seen, darts, false)?;
    let mut outer = emptied(faces.outer, darts)?;
    walk(table, right, &mut seen, &mut outer)?;
    // Each walk asks for room for all darts. The merged face has the corners of the outer face, and seven more.
    let mut corners = emptied(faces.corners, 2 * darts + 7)?;
    let mut counts = emptied(faces.counts, face_count(table))?;
    'darts: for start in 0..table.darts {
        if !seen[start as usize] && table.angle[start as usize] != 2 {
            let before = corners.len();
            walk(table, start, &mut seen, &mut corners)?;
            counts.push((corners.len() - before) as u32)?;
        }
    }
    Ok(Faces {
        corners,
        counts,
        outer,
        seen,
    })
}

/// Appends to `faces` the corners of the face into which a cut will merge the outer face and the inside of the
/// rectangle, and their number. Removes `right` from the corners in `faces.outer` if its angle is 3. `AllocError` if
/// there is no memory; `faces` may then have a part of them.
///
/// `table` has neither the rectangle nor the cut yet. The cut leads from `right` to the side `side`. After `right` the
/// walk round the merged face goes along the cut, round the inside of the rectangle and back. `right` stays one of its
/// corners unless the cut leaves it straight.
pub fn add_merged_face(
    table: &DartTable,
    right: u32,
    side: u32,
    faces: &mut Faces,
) -> Result<(), AllocError>
    requires inside { right < table.now.darts }
    requires sides { side < 4 }
    requires space { table.now.darts + 12 ≤ room table.now }
    requires listed { (inner : List (List ℕ)) × AreListed (dart_map_of table.now) right inner faces.old.outer.items }
    ensures connected { OnOk result ((inner : List (List ℕ)) → (listed : AreListed (dart_map_of table.now) right inner faces.old.outer.items)
        → AreFlat faces.old.corners.items faces.old.counts.items inner
        → AreMergedFaces (dart_map_of table.now) right side listed.front inner faces.new.corners.items faces.new.counts.items) }
{
    let n = table.darts;
    if table.angle[right as usize] == 3 {
        faces.outer.pop();
    }
    let kept = faces.outer.len() as u32;
    faces.corners.extend_from_slice(faces.outer.as_slice())?;
    faces.corners.extend_from_slice(&[
        n + 10,
        n + side,
        n + (side + 1) % 4,
        n + (side + 2) % 4,
        n + (side + 3) % 4,
        n + 8,
        n + 11,
    ])?;
    faces.counts.push(kept + 7)?;
    Ok(())
}
