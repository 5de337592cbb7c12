//! Faces traced as orbits of `next` (Edmonds 1960), numbered in the order of their least darts, with their degrees; and
//! whether a record breaks any of the eight rules, found without allocating.
ghost use Rattle.std.specs.Prelude.{◌≡◌, ◌+◌, ◌-◌, ◌*◌, ◌<◌, ◌≤◌, ℕ, length, take, drop, slice_index, IfOk, ◌↔◌, IsTrue, MatchOption};
ghost use Rattle.embedding.specs.declared.graphs.TheConstants.{MAX_DARTS};
ghost use Rattle.embedding.specs.Faces.{HasFaces, degree_in};
ghost use Rattle.embedding.specs.Walk.{IsTraced, AreRotations, HasFaceTable, at, next_in};
ghost use Rattle.common.specs.declared.parameters.TheConstants.{MAX_VERTICES};
ghost use Rattle.embedding.specs.Rules.{Breaks, KeepsBefore, FirstBroken};
ghost use Rattle.embedding.specs.declared.wide_record.TheConstants.{MAX_ENTRIES};
ghost use Rattle.planar_code.specs.Stream.{lists_of};

use crate::breaks::{Rule, first_broken};
use crate::combinatorial_map::write_rotation;
use crate::graphs::MAX_DARTS;
use crate::neighbour_lists::{
    FEW_ENTRIES, FEW_STARTS, Lists, RECORD_ENTRIES, RECORD_STARTS, SOME_ENTRIES, WIDE_STARTS,
    entry_count, find_starts, write_lists,
};
use crate::wide_record::WideRecord;
use planar_code::Record;
use std::alloc::AllocError;

/// Stands for the face of a dart that no walk has come to.
pub(crate) const UNSET: u16 = u16::MAX;

/// Walks the face of the dart `start` once round, and sets `faces` at each of its darts to `face`; the others stay.
fn walk_face(rotation: &[u16], faces: &mut [u16], start: u16, face: u16)
    requires tied { AreRotations (length faces.old) rotation.now }
    requires few { length faces.old ≤ MAX_DARTS }
    requires inside { start < length faces.old }
    requires unset { slice_index faces.old start ≡ UNSET }
    requires traced { IsTraced (length faces.old) (next_in rotation.now) (at faces.old) face start }
    ensures { IsTraced (length faces.old) (next_in rotation.now) (at faces.new) (face + 1) (start + 1) }
{
    let mut dart = start;
    loop {
        faces[usize::from(dart)] = face;
        let back = rotation[2 * usize::from(dart)];
        dart = rotation[2 * usize::from(back) + 1];
        if dart == start {
            return;
        }
    }
}

/// Numbers the faces from 0 in the order of their least darts, writes the face of each dart into `faces`, which must be
/// all `UNSET`, and returns the number of faces. Each dart is walked over once.
fn number_faces(rotation: &[u16], faces: &mut [u16]) -> u16
    requires tied { AreRotations (length faces.old) rotation.now }
    requires few { length faces.old ≤ MAX_DARTS }
    requires unset { (d : ℕ) → d < length faces.old → slice_index faces.old d ≡ UNSET }
    ensures numbered { HasFaces (length faces.old) (next_in rotation.now) (at faces.new) result }
    ensures few { result ≤ length faces.old }
{
    let mut count = 0;
    for dart in 0..faces.len() as u16 {
        if faces[usize::from(dart)] == UNSET {
            walk_face(rotation, faces, dart, count);
            count += 1;
        }
    }
    count
}

/// Sets `degrees`, which must be all 0, at each face to the number of its darts; `faces` has the face of each dart.
fn count_degrees(faces: &[u16], degrees: &mut [u16])
    requires few { length faces.now ≤ MAX_DARTS }
    requires named { (d : ℕ) → d < length faces.now → slice_index faces.now d < length degrees.old }
    requires none { (k : ℕ) → k < length degrees.old → slice_index degrees.old k ≡ 0 }
    ensures size { length degrees.new ≡ length degrees.old }
    ensures degrees { (k : ℕ) → k < length degrees.old
        → slice_index degrees.new k ≡ degree_in (length faces.now) (at faces.now) k }
{
    for face in faces {
        degrees[usize::from(*face)] += 1;
    }
}

/// Numbers the faces of `darts` darts from 0 in the order of their least darts, writes the face of each dart to the end
/// of `table`, which must be all `UNSET` there and have the rotation before it, and returns the number of faces.
fn number_faces_after(table: &mut [u16], darts: usize) -> u16
    requires tied { AreRotations darts (take (2 * darts) table.old) }
    requires few { darts ≤ MAX_DARTS }
    requires size { length table.old ≡ 3 * darts }
    requires unset { (d : ℕ) → d < darts → slice_index table.old (2 * darts + d) ≡ UNSET }
    ensures size { length table.new ≡ 3 * darts }
    ensures rotation { take (2 * darts) table.new ≡ take (2 * darts) table.old }
    ensures numbered { HasFaces darts (next_in (take (2 * darts) table.old)) (at (drop (2 * darts) table.new)) result }
    ensures few { result ≤ darts }
{
    let (rotation, faces) = table.split_at_mut(2 * darts);
    number_faces(rotation, faces)
}

/// Writes the number of darts of each face to the end of `table`, which must be all 0 there and have the rotation and
/// the faces of `darts` darts before it; that front of three numbers for each dart stays as it is.
fn count_degrees_after(table: &mut [u16], darts: usize)
    requires few { darts ≤ MAX_DARTS }
    requires size { 3 * darts ≤ length table.old }
    requires named { (d : ℕ) → d < darts
        → slice_index table.old (2 * darts + d) < length table.old - 3 * darts }
    requires none { (k : ℕ) → 3 * darts + k < length table.old → slice_index table.old (3 * darts + k) ≡ 0 }
    ensures size { length table.new ≡ length table.old }
    ensures front { take (3 * darts) table.new ≡ take (3 * darts) table.old }
    ensures degrees { (k : ℕ) → 3 * darts + k < length table.old
        → slice_index table.new (3 * darts + k) ≡ degree_in darts (λ d. slice_index table.old (2 * darts + d)) k }
{
    let (front, degrees) = table.split_at_mut(3 * darts);
    count_degrees(&front[2 * darts..], degrees);
}

/// Appends to `table`, which has the rotation of `darts` darts, the face of each dart and then the degree of each face;
/// returns the number of faces. `AllocError` if its buffer is too small and there is no memory; the faces may then be
/// appended.
pub(crate) fn add_faces(table: &mut Vec<u16>, darts: usize) -> Result<u16, AllocError>
    requires tied { AreRotations darts table.old.items }
    requires few { darts ≤ MAX_DARTS }
    ensures { IfOk result (λ count. HasFaceTable darts table.old.items count table.new.items) }
{
    table.resize(3 * darts, UNSET)?;
    let count = number_faces_after(table, darts);
    table.resize(3 * darts + usize::from(count), 0)?;
    count_degrees_after(table, darts);
    Ok(count)
}

/// The number of faces of `rotation`, which has for each of `darts` darts its reverse and the dart after it.
pub(crate) fn count_faces(rotation: &[u16], darts: usize) -> u16
    requires tied { AreRotations darts rotation.now }
    requires few { darts ≤ MAX_DARTS }
    ensures numbered { (face : ℕ → ℕ) × HasFaces darts (next_in rotation.now) face result }
    ensures few { result ≤ darts }
{
    let mut room = [UNSET; MAX_DARTS];
    let faces = &mut room[..darts];
    number_faces(rotation, faces)
}

/// How many numbers the rotation of a graph has at most: two for each dart.
const MAX_ROTATION: usize = 2 * MAX_DARTS;

/// Whether vertices minus edges plus faces is not 2 (rule 8). The lists must keep rules 1 to 7.
///
/// The test doubles both sides, since an edge is two darts.
fn breaks_genus(lists: &Lists<'_>) -> bool
    requires rules { KeepsBefore lists.now 8 }
    requires few { length lists.now ≤ MAX_VERTICES }
    ensures { IsTrue result ↔ Breaks lists.now Rule.Genus }
{
    let darts = lists.darts();
    let mut room = [0u16; MAX_ROTATION];
    let rotation = &mut room[..2 * darts];
    write_rotation(rotation, lists);
    let faces = count_faces(rotation, darts);
    2 * (usize::from(lists.count()) + usize::from(faces)) != darts + 4
}

/// The first of the eight rules that `lists` break, or `None` if they break none.
fn broken_by_lists(lists: &Lists<'_>) -> Option<Rule>
    requires { length lists.now ≤ MAX_VERTICES }
    ensures { MatchOption result (KeepsBefore lists.now 9) (λ rule. FirstBroken lists.now rule) }
{
    if let Some(rule) = first_broken(lists) {
        return Some(rule);
    }
    if breaks_genus(lists) {
        Some(Rule::Genus)
    } else {
        None
    }
}

/// The first of the eight rules that `rec` breaks, or `None` if it breaks none. It must have at most `ENTRIES` entries,
/// with the 0 of each list, and fewer than `STARTS` lists.
#[inline(never)]
fn broken_within<const ENTRIES: usize, const STARTS: usize>(rec: &Record) -> Option<Rule>
    requires fits_entries { ENTRIES < MAX_ENTRIES }
    requires fits_starts { STARTS < MAX_ENTRIES }
    requires entries { length rec.now ≤ ENTRIES + 1 }
    requires starts { length (lists_of rec.now) < STARTS }
    ensures { MatchOption result (KeepsBefore (lists_of rec.now) 9)
        (λ rule. FirstBroken (lists_of rec.now) rule) }
{
    let mut room = [0u16; ENTRIES];
    let mut starts = [0u16; STARTS];
    let entries = &mut room[..entry_count(rec)];
    let count = write_lists(rec, entries, &mut starts);
    let lists = Lists::new(entries, &starts, count);
    broken_by_lists(&lists)
}

/// The first of the eight rules that a record breaks, or `None` if it breaks none.
///
/// It allocates nothing, and takes time linear in the record's bytes. The last rule is Euler's formula, for faces
/// traced as Edmonds (1960) does.
pub fn broken_rule(rec: &Record) -> Option<Rule>
    ensures { MatchOption result (KeepsBefore (lists_of rec.now) 9)
        (λ rule. FirstBroken (lists_of rec.now) rule) }
{
    let size = entry_count(rec);
    let order = usize::from(rec.order());
    if size <= FEW_ENTRIES && order < FEW_STARTS {
        broken_within::<FEW_ENTRIES, FEW_STARTS>(rec)
    } else if size <= SOME_ENTRIES {
        broken_within::<SOME_ENTRIES, RECORD_STARTS>(rec)
    } else {
        broken_within::<RECORD_ENTRIES, RECORD_STARTS>(rec)
    }
}

/// The first of the eight rules that a wide record breaks, or `None` if it breaks none.
///
/// It allocates nothing, and takes as long as [`Graph::read_wide`](crate::Graph::read_wide).
pub fn broken_wide_rule(rec: &WideRecord) -> Option<Rule>
    ensures { MatchOption result (KeepsBefore (lists_of rec.now) 9)
        (λ rule. FirstBroken (lists_of rec.now) rule) }
{
    let mut starts = [0u16; WIDE_STARTS];
    let entries = &rec.entries()[1..];
    find_starts(entries, &mut starts);
    let lists = Lists::new(entries, &starts, rec.order());
    broken_by_lists(&lists)
}
