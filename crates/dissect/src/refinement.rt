//! Refinement into boxes (Tamassia 1987). A rectangle is put round a map and connected to it by a cut from a right turn
//! of the outer face to the side straight across. Each face but the outside is then cut with one pass: from the place
//! on where the walk has turned left most, a stack of corners takes its corners one by one; wherever a right turn lies
//! below two left turns, a chord from the right turn to the edge after the second left turn cuts a box off. Boxes turn
//! left four times and are else straight.
ghost use Rattle.std.specs.Prelude.{◌≡◌, ◌≢◌, ℕ, ◌+◌, ◌-◌, ◌*◌, ◌^◌, ◌<◌, ◌≤◌, ◌↔◌, List, [], ◌∷◌, length, map, drop, take, ◌++◌, sum, slice_index, true, All, slice_index_or, vec_len, ◌%◌, OnErr, OnOk};
ghost use Rattle.dissect.specs.DartMaps.{IsSound, IsCut, IsCutUp, reflex_turns};
ghost use Rattle.dissect.specs.Tables.{dart_map_of, room};
ghost use Rattle.dissect.specs.Faces.{AreWaiting, slices_of, ReachesCorners};
ghost use Rattle.dissect.specs.Labels.{IsLabelling, KeepsLabels, KeepsLabelsInside};
ghost use Rattle.dissect.specs.Paths.{HasPaths};
ghost use Rattle.dissect.specs.Turning.{AreCornerAngles, HasNoHook, IsPeak};
ghost use Rattle.dissect.specs.FaceCutting.{CanCut, HasRoom, IsHookOn, IsReading, down, tops};
ghost use Rattle.dissect.specs.Surrounds.{IsSurrounded, IsEnclosed};
ghost use Rattle.dissect.specs.declared.table.TheConstants.{RECTANGLE_ROOM};
ghost use Rattle.dissect.specs.FaceNumbers.{HasTurns};

use crate::face_list::{Faces, add_merged_face, find_right, list_faces};
use crate::table::{DartTable, NO_DART};
use std::alloc::{AllocError, Global};

/// How many corners a box has.
const BOX_CORNERS: usize = 4;

/// Cuts across a face of `table` by a new edge, from the head of the dart `d`, a right turn, to a new vertex on the
/// edge of the dart that follows the dart `c`. `table` must have room for four more darts, so it does not grow.
///
/// At the head of `d`, one right angle lies between the new edge and the dart that followed `d`. Constant time.
pub fn cut_across(table: &mut DartTable, d: u32, c: u32)
    requires sound { IsSound (dart_map_of table.old) }
    requires can { CanCut (dart_map_of table.old) d c }
    requires space { table.old.darts + 4 ≤ room table.old }
    ensures cut { (way : ℕ) × IsCut (dart_map_of table.old) d ((dart_map_of table.old).next c) way (dart_map_of table.new) }
    ensures room { room table.new ≡ room table.old }
{
    let e = table.next[c as usize];
    let edge_direction = table.direction[e as usize];
    let chord_direction = (table.direction[d as usize] + 7 - table.angle[d as usize]) % 4;
    let first = table.darts;
    table.subdivide(e, edge_direction, 2);
    table.chord(d, first, chord_direction);
}

/// Whether the top three corners of the stack, the first `height` of `ring`, are two left turns above a right turn or a
/// dead end, that is, an angle of 3 or 4 in `table`; false if it has fewer than three. None of them may be straight.
fn has_hook(table: &DartTable, ring: &[u32], height: usize) -> bool
    requires high { height ≤ length ring.now }
    requires inside { All (λ a. a < room table.now) ring.now }
    requires turns { AreCornerAngles (map (dart_map_of table.now).angle (tops ring.now height)) }
    ensures { (result ≡ true) ↔ IsHookOn (dart_map_of table.now) (tops ring.now height) }
{
    if height < 3 {
        return false;
    }
    let top = table.angle[ring[height - 1] as usize];
    let below = table.angle[ring[height - 2] as usize];
    let right = table.angle[ring[height - 3] as usize];
    // A corner has one, three or four right angles, so both upper ones have one here. It is one comparison, since no
    // branch of several could be foreseen.
    right > below + top
}

/// Pushes the corner at the place `read` of `ring` on the stack, the first `height` items of `ring`, and returns the
/// new height. While the top of the stack is two left turns on a right turn, it cuts there: adds an edge to `table`,
/// which must have room, and puts it in place of the left turns, and of the right turn if that is straight now.
fn read_corner(table: &mut DartTable, ring: &mut [u32], height: usize, read: usize) -> usize
    requires more { read < length ring.old }
    requires reading { let face = down (tops ring.old height) (drop read ring.old) in
        IsReading (dart_map_of table.old) face (room table.old) (dart_map_of table.old) ring.old height read (room table.old) }
    requires waiting { (o : ℕ) × (rs : List (List ℕ)) × AreWaiting (dart_map_of table.old) o (down (tops ring.old height) (drop read ring.old) ∷ rs) }
    ensures { let face = down (tops ring.old height) (drop read ring.old) in
        IsReading (dart_map_of table.old) face (room table.old) (dart_map_of table.new) ring.new result (read + 1) (room table.new) }
{
    ring[height] = ring[read];
    let mut height = height + 1;
    'cuts: while has_hook(table, ring, height) {
        let right = ring[height - 3];
        let left = ring[height - 1];
        let chord = table.darts + 2;
        cut_across(table, right, left);
        if table.angle[right as usize] == 2 {
            ring[height - 3] = chord;
            height -= 2;
        } else {
            ring[height - 2] = chord;
            height -= 1;
        }
    }
    height
}

/// The first place in `ring`, 0 to its length, before which the walk along the corners has turned left the most in all;
/// `angle` has the angle of each dart. It tracks by how many quarter turns the walk falls short of its maximum so far.
fn peak(angle: &[u8], ring: &[u32]) -> usize
    requires inside { All (λ a. a < length angle.now) ring.now }
    requires small { All (λ a. slice_index angle.now a ≤ 4) ring.now }
    requires few { length ring.now < 2 ^ 32 }
    ensures { IsPeak (map (λ a. slice_index angle.now a) ring.now) result }
{
    let mut best: usize = 0;
    let mut behind: u64 = 0;
    'corners: for (at, dart) in ring.iter().enumerate() {
        let reach = behind + u64::from(angle[*dart as usize]);
        if reach < 2 {
            best = at + 1;
            behind = 0;
        } else {
            behind = reach - 2;
        }
    }
    best
}

/// Rotates `ring` so that the corner at the place `start` comes first; nothing changes if `start` is 0 or, as most
/// often, the length of `ring`. (`rotate_left` clears 4 KB at each call.)
fn rotate_to(ring: &mut [u32], start: usize)
    requires { start ≤ length ring.old }
    ensures after { ring.new ≡ drop start ring.old ++ take start ring.old }
{
    if start == ring.len() {
        return;
    }
    ring[..start].reverse();
    ring[start..].reverse();
    ring.reverse();
}

/// Cuts the face with the corners `ring`, in walking order, into boxes by new edges in `table`, which must have room
/// for them, so it does not grow. `ring` is overwritten: what remains there does not matter. A face of four corners is
/// a box already, and nothing changes.
///
/// Linear in the corners.
pub fn cut_face(table: &mut DartTable, ring: &mut [u32])
    requires sound { IsSound (dart_map_of table.old) }
    requires waiting { (o : ℕ) × (rs : List (List ℕ)) × AreWaiting (dart_map_of table.old) o (ring.old ∷ rs) }
    requires space { HasRoom (dart_map_of table.old) (room table.old) }
    requires few { length ring.old < 2 ^ 32 }
    ensures sound { IsSound (dart_map_of table.new) }
    ensures cut_up { IsCutUp (dart_map_of table.old) (dart_map_of table.new) }
    ensures waiting { (o : ℕ) (rs : List (List ℕ)) → AreWaiting (dart_map_of table.old) o (ring.old ∷ rs) → AreWaiting (dart_map_of table.new) o rs }
    ensures space { HasRoom (dart_map_of table.new) (room table.new) }
    ensures room { room table.new ≡ room table.old }
{
    if ring.len() == BOX_CORNERS {
        return;
    }
    let start = peak(table.angle.as_slice(), ring);
    rotate_to(ring, start);
    let mut height = 0;
    'corners: for read in 0..ring.len() {
        height = read_corner(table, ring, height, read);
    }
}

/// Cuts each face listed in `corners` into boxes, one after another, by new edges in `table`, which must have room for
/// them, so it does not grow. `corners` has the corners of each face in walking order, and `counts` how many each face
/// has. `corners` is overwritten: what remains there does not matter.
///
/// Each dart keeps the face of the plane in which it lies, and new edges divide none. Linear in the corners.
pub fn cut_faces(table: &mut DartTable, corners: &mut [u32], counts: &[u32])
    requires sound { IsSound (dart_map_of table.old) }
    requires waiting { (o : ℕ) × AreWaiting (dart_map_of table.old) o (slices_of corners.old counts.now) }
    requires space { HasRoom (dart_map_of table.old) (room table.old) }
    requires all { sum counts.now ≡ length corners.old }
    requires few { length corners.old < 2 ^ 32 }
    ensures sound { IsSound (dart_map_of table.new) }
    ensures cut_up { IsCutUp (dart_map_of table.old) (dart_map_of table.new) }
    ensures done { (o : ℕ) → AreWaiting (dart_map_of table.old) o (slices_of corners.old counts.now) → AreWaiting (dart_map_of table.new) o [] }
    ensures labelled { (n : ℕ) (reverse_dart : ℕ → ℕ) (quarters : ℕ → List ℕ) (face label : ℕ → ℕ)
        → HasPaths (dart_map_of table.old) n reverse_dart quarters → IsLabelling n face (dart_map_of table.old) label
        → KeepsLabels n face (dart_map_of table.old) label (dart_map_of table.new) }
    ensures space { HasRoom (dart_map_of table.new) (room table.new) }
    ensures room { room table.new ≡ room table.old }
{
    let mut start: usize = 0;
    'faces: for count in counts {
        let end = start + *count as usize;
        cut_face(table, &mut corners[start..end]);
        start = end;
    }
}

/// Writes `items` over the items of `list` from the place `start` on. `list` must be long enough, and keeps its length.
fn put_at<T: Copy>(list: &mut Vec<T>, start: usize, items: &[T])
    requires inside { start + length items.now ≤ vec_len list.old }
    ensures before { (d : T) (k : ℕ) → k < start → slice_index_or list.new.items k d ≡ slice_index_or list.old.items k d }
    ensures here { (d : T) (k : ℕ) → k < length items.now → slice_index_or list.new.items (start + k) d ≡ slice_index_or items.now k d }
    ensures room { vec_len list.new ≡ vec_len list.old }
{
    list[start..start + items.len()].copy_from_slice(items);
}

/// Adds to `table` a rectangle round the map, not yet connected to it: eight darts and four vertices, for which `table`
/// must have room, so it does not grow.
///
/// The rectangle's inside runs along the four new darts from `darts` on, to the east, north, west and south, and its
/// outside along their reverses, the four after these. Constant time.
pub fn surround(table: &mut DartTable)
    requires space { table.old.darts + 8 ≤ room table.old }
    ensures surrounded { IsSurrounded (dart_map_of table.old) (dart_map_of table.new) }
    ensures room { room table.new ≡ room table.old }
{
    let n = table.darts;
    let v = table.vertices;
    let start = n as usize;
    put_at(
        &mut table.next,
        start,
        &[n + 1, n + 2, n + 3, n, n + 7, n + 4, n + 5, n + 6],
    );
    put_at(
        &mut table.prev,
        start,
        &[n + 3, n, n + 1, n + 2, n + 5, n + 6, n + 7, n + 4],
    );
    put_at(
        &mut table.reverse_dart,
        start,
        &[n + 4, n + 5, n + 6, n + 7, n, n + 1, n + 2, n + 3],
    );
    put_at(
        &mut table.head,
        start,
        &[v, v + 1, v + 2, v + 3, v + 3, v, v + 1, v + 2],
    );
    put_at(&mut table.before, start, &[NO_DART; 8]);
    put_at(&mut table.direction, start, &[0, 1, 2, 3, 2, 3, 0, 1]);
    put_at(&mut table.angle, start, &[1, 1, 1, 1, 3, 3, 3, 3]);
    table.darts += 8;
    table.vertices += 4;
}

/// The side of the rectangle to which a cut from the right turn `right` goes: 0, 1, 2 or 3 for the side whose inside
/// runs to the east, north, west or south.
fn cut_side(table: &DartTable, right: u32) -> u32
    requires sound { IsSound (dart_map_of table.now) }
    requires inside { right < table.now.darts }
    ensures side { result < 4 }
    ensures faces { (result + (dart_map_of table.now).angle right) % 4 ≡ (dart_map_of table.now).direction right }
{
    u32::from(table.direction[right as usize] + 4 - table.angle[right as usize]) % 4
}

/// Puts a rectangle round the map in `table`, connects them and cuts all faces into boxes; returns the buffers of
/// `faces`, whose contents do not matter. `table` must have room, so it does not grow. `AllocError` if there is no
/// memory for the lists of faces; `table` is then unchanged, and `faces` is gone.
///
/// The rectangle is connected to a right turn of the outer face, which is that of the dart `outer`. The table needs
/// room for four darts for each right turn, and for `RECTANGLE_ROOM` more. Each dart keeps the face of the plane in
/// which it lies, new edges divide none, and the rectangle lies in that of `outer`. Linear in the darts. Faces are
/// listed in the buffers of `faces`.
///
/// # Errors
///
/// `AllocError` if there is no memory for the lists of faces; the table is then unchanged, and the buffers of `faces`
/// are gone.
pub fn refine_in(table: &mut DartTable, outer: u32, faces: Faces) -> Result<Faces, AllocError>
    requires sound { IsSound (dart_map_of table.old) }
    requires turns { (face_number : ℕ → ℕ) × HasTurns (dart_map_of table.old) face_number (face_number outer) }
    requires inside { outer < table.old.darts }
    requires space { table.old.darts + 4 * reflex_turns (dart_map_of table.old) + RECTANGLE_ROOM ≤ room table.old }
    ensures sound { OnOk result (IsSound (dart_map_of table.new)) }
    ensures enclosed { OnOk result (IsEnclosed (dart_map_of table.old) outer (dart_map_of table.new)) }
    ensures done { OnOk result ((k : ℕ) → k < 4 → AreWaiting (dart_map_of table.new) (table.old.darts + 4 + k) []) }
    ensures reaches { OnOk result (ReachesCorners (dart_map_of table.new)) }
    ensures few { OnOk result (table.new.vertices ≤ table.old.vertices + reflex_turns (dart_map_of table.old) + 4) }
    ensures labelled { OnOk result ((n : ℕ) (reverse_dart : ℕ → ℕ) (quarters : ℕ → List ℕ) (face label : ℕ → ℕ)
        → HasPaths (dart_map_of table.old) n reverse_dart quarters → IsLabelling n face (dart_map_of table.old) label
        → KeepsLabelsInside n face (dart_map_of table.old) label outer (dart_map_of table.new)) }
    ensures unchanged { OnErr result (dart_map_of table.new ≡ dart_map_of table.old) }
    ensures room { room table.new ≡ room table.old }
{
    let right = find_right(table, outer);
    let mut faces = list_faces(table, right, faces)?;
    let side = cut_side(table, right);
    add_merged_face(table, right, side, &mut faces)?;
    let corner = table.darts + (side + 3) % 4;
    surround(table);
    cut_across(table, right, corner);
    cut_faces(table, faces.corners.as_mut_slice(), faces.counts.as_slice());
    Ok(faces)
}
