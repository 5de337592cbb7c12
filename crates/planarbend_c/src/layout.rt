//! What is found of a record, also of one whose layout keeps conditions, and why no shape keeps the angles and turns,
//! in lists for C.
ghost use Rattle.std.specs.Prelude.{◌≡◌, IfOk, IfErr, is_some, length, ℕ, List, OnOk};
ghost use Rattle.ortho_rep.specs.Representation.{IsLeast};
ghost use Rattle.answers.specs.Steps.{IsLeastPlane};
ghost use Rattle.planarbend_c.specs.Requests.{shape_kind};
ghost use Rattle.planarbend_c.specs.Sources.{IsOneRecord, input_lists, input_of, parsed_lists};
ghost use Rattle.planarbend_c.specs.Found.{IsAsAsked, IsDrawnIfAsked, IsFound, IsQuickIfAsked, finding_of, IsFoundKeeping};
ghost use Rattle.planarbend_c.specs.Faults.{IsFault, IsFaultOf, IsKeepingFault, IsKeepingFaultOf};
ghost use Rattle.planarbend_c.specs.Cuts.{HoldsCut, HoldsMarks, cut_contents};
ghost use Rattle.planarbend_c.specs.Left.{AreAsLong};
ghost use Rattle.common.specs.declared.parameters.Choice.{Choice};
ghost use Rattle.conditions.specs.declared.conditions.Conditions.{Conditions};
ghost use Rattle.answers.specs.Kept.{IsUnkept};
ghost use Rattle.planarbend_c.specs.declared.request.Outcome.{Outcome};

use crate::request::{Layout, Outcome, Parsed, Source, parse, shape_kind};
use answers::{RecordScratch, ShapedPlane};
use common::{Choice, DrawingKind};
use compact::CompactFault;
use conditions::{Conditions, KeepFault, Unkept};
use embedding::ReadFault;
use ortho_rep::Points;
use std::alloc::{AllocError, Global};

/// Parses `source` as one record; returns its layout with the outer face of `choice`, and a drawing of `kind` unless
/// that is `None`. `Large` if its entries of 16 bits begin with too many vertices, else `NotARecord` if it is not
/// exactly one record, `Refused` with the first rule that the record breaks, `Memory` if memory runs out.
pub(crate) fn lay_out(
    alloc: Global,
    source: &Source<'_>,
    choice: Choice,
    kind: Option<DrawingKind>,
) -> Result<Layout, Outcome>
    ensures found { IfOk result (λ layout. IsFound choice (input_lists (input_of source.now)) (finding_of layout)) }
    ensures asked { IfOk result (λ layout. IsAsAsked kind (finding_of layout)) }
    ensures is_record { IfOk result (λ _. IsOneRecord (input_of source.now)) }
    ensures fault { IfErr result (IsFaultOf IsFault (input_of source.now)) }
{
    let rec = parse(alloc, source)?;
    let mut scratch = RecordScratch::empty(alloc);
    laid_record(alloc, &mut scratch, &rec, choice, kind)
}

/// Returns the layout of a record, with a drawing of the kind `kind`, or without one if that is `None`; works in
/// `scratch`. `Refused` with the first rule that the record breaks; `Memory` if it breaks none, but memory runs out.
fn laid_record(
    alloc: Global,
    scratch: &mut RecordScratch,
    rec: &Parsed,
    choice: Choice,
    kind: Option<DrawingKind>,
) -> Result<Layout, Outcome>
    ensures found { IfOk result (λ layout. IsFound choice (parsed_lists rec.now) (finding_of layout)) }
    ensures asked { IfOk result (λ layout. IsAsAsked kind (finding_of layout)) }
    ensures fault { IfErr result (IsFault (parsed_lists rec.now)) }
{
    let laid = shaped(alloc, scratch, rec, choice, kind)?;
    let drawing = drawn(alloc, scratch, &laid, kind)?;
    Ok(Layout { laid, drawing })
}

/// Returns the plane of the record with the chosen outer face, prices and a least shape for a drawing of the kind
/// `kind`, or for a quick one if that is `None`; works in `scratch`. `Refused` with the first rule that the record
/// breaks; `Memory` if it breaks none, but memory runs out.
fn shaped(
    alloc: Global,
    scratch: &mut RecordScratch,
    rec: &Parsed,
    choice: Choice,
    kind: Option<DrawingKind>,
) -> Result<ShapedPlane, Outcome>
    ensures shaped { IfOk result (IsLeastPlane choice (parsed_lists rec.now)) }
    ensures kind { IfOk result (λ shaped_plane. shaped_plane.drawing_kind ≡ shape_kind kind) }
    ensures fault { IfErr result (IsFault (parsed_lists rec.now)) }
{
    match rec.shape(alloc, scratch, choice, shape_kind(kind)) {
        Ok(shaped_plane) => Ok(shaped_plane),
        Err(ReadFault::Rule(rule)) => Err(Outcome::Refused(rule)),
        Err(ReadFault::Memory) => Err(Outcome::Memory),
    }
}

/// Returns points that draw the shaped plane, in a drawing of the kind that its shape is for, or `None` if `kind` is
/// `None`; works in `scratch`. `Memory` if memory runs out.
fn drawn(
    alloc: Global,
    scratch: &mut RecordScratch,
    shaped_plane: &ShapedPlane,
    kind: Option<DrawingKind>,
) -> Result<Option<Points>, Outcome>
    requires { IsLeast shaped_plane.now.plane shaped_plane.now.shape }
    ensures drawn { IfOk result (IsDrawnIfAsked shaped_plane.now.plane shaped_plane.now.shape) }
    ensures quick { shaped_plane.now.drawing_kind ≡ DrawingKind.Quick
        → IfOk result (IsQuickIfAsked shaped_plane.now.plane shaped_plane.now.shape) }
    ensures asked { IfOk result (λ drawing. is_some drawing ≡ is_some kind) }
    ensures fault { IfErr result (λ fault. fault ≡ Outcome.Memory) }
{
    if kind.is_none() {
        return Ok(None);
    }
    match scratch.points(alloc, shaped_plane) {
        Ok(points) => Ok(Some(points)),
        Err(AllocError) => Err(Outcome::Memory),
    }
}

/// The output lists of a call in which no shape keeps the angles and turns: marks of a cut that proves it.
///
/// The cut is a set of vertices and faces that turn more than can leave it.
///
/// An entry is 1 for each vertex or face of the set, and otherwise 0.
#[repr(C)]
pub struct CutLists<'a> {
    pub vertices: &'a mut [u8],
    pub faces: &'a mut [u8],
    /// The number of the outer face for which the cut proves it.
    pub outer: u32,
}

/// Writes the marks of the vertices and faces of the cut of `why`, and its outer face, to `out`. Each list of `out` is
/// filled with 1 for what is in the cut and 0 in all other places, and keeps its length; marks after its end are left
/// out.
pub(crate) fn put_cut(out: &mut CutLists<'_>, why: &Unkept)
    ensures held { HoldsCut why.now (cut_contents out.new) }
    ensures long { AreAsLong (cut_contents out.old) (cut_contents out.new) }
{
    put_marks(out.vertices, &why.cut.vertices);
    put_marks(out.faces, &why.cut.faces);
    out.outer = u32::from(why.outer);
}

/// Fills `out` with 1 for each mark that is set, and 0 everywhere else, also after the last of `marks`; marks after the
/// end of `out` are left out.
fn put_marks(out: &mut [u8], marks: &[bool])
    ensures held { HoldsMarks out.new marks.now }
    ensures long { length out.new ≡ length out.old }
{
    for place in 0..out.len() {
        out[place] = u8::from(place < marks.len() && marks[place]);
    }
}

/// Parses `source` as one record and returns its layout under the conditions, with a drawing of the kind `kind`, or
/// without one if that is `None`. The error is that of `parse` or of `laid_keeping`, such as `Memory` if memory runs
/// out; if it is `NoShape`, its cut is written to `cut`, which otherwise stays unchanged.
pub(crate) fn lay_out_keeping(
    alloc: Global,
    source: &Source<'_>,
    choice: Choice,
    kind: Option<DrawingKind>,
    conditions: &Conditions<'_>,
    cut: &mut CutLists<'_>,
) -> Result<Layout, Outcome>
    ensures found { IfOk result (λ layout. IsFoundKeeping conditions.now choice (input_lists (input_of source.now)) (finding_of layout)) }
    ensures asked { IfOk result (λ layout. IsAsAsked kind (finding_of layout)) }
    ensures is_record { IfOk result (λ _. IsOneRecord (input_of source.now)) }
    ensures fault { IfErr result (IsKeepingFaultOf conditions.now choice (input_of source.now) (cut_contents cut.new)) }
    ensures laid { OnOk result (cut_contents cut.new ≡ cut_contents cut.old) }
    ensures uncut { IfErr result (λ fault. ¬ (fault ≡ Outcome.NoShape) → cut_contents cut.new ≡ cut_contents cut.old) }
    ensures long { AreAsLong (cut_contents cut.old) (cut_contents cut.new) }
{
    match parse(alloc, source) {
        Ok(rec) => laid_keeping(alloc, &rec, choice, kind, conditions, cut),
        Err(outcome) => Err(outcome),
    }
}

/// Returns the layout of a parsed record under the conditions, with a drawing of the kind `kind`, or without one if
/// that is `None`. `Refused` for a broken rule, that of `outcome_of_keep_fault` if no shape is found, `Wide` if points
/// would lie outside the grid, or `Memory`; `NoShape` alone changes `cut`, to its cut.
fn laid_keeping(
    alloc: Global,
    rec: &Parsed,
    choice: Choice,
    kind: Option<DrawingKind>,
    conditions: &Conditions<'_>,
    cut: &mut CutLists<'_>,
) -> Result<Layout, Outcome>
    ensures found { IfOk result (λ layout. IsFoundKeeping conditions.now choice (parsed_lists rec.now) (finding_of layout)) }
    ensures asked { IfOk result (λ layout. IsAsAsked kind (finding_of layout)) }
    ensures fault { IfErr result (IsKeepingFault conditions.now choice (parsed_lists rec.now) (cut_contents cut.new)) }
    ensures laid { OnOk result (cut_contents cut.new ≡ cut_contents cut.old) }
    ensures uncut { IfErr result (λ fault. ¬ (fault ≡ Outcome.NoShape) → cut_contents cut.new ≡ cut_contents cut.old) }
    ensures long { AreAsLong (cut_contents cut.old) (cut_contents cut.new) }
{
    let mut scratch = RecordScratch::empty(alloc);
    let laid = match rec.shape_keeping(alloc, &mut scratch, conditions, choice, shape_kind(kind)) {
        Ok(Ok(laid)) => laid,
        Ok(Err(fault)) => return Err(outcome_of_keep_fault(fault, cut)),
        Err(ReadFault::Rule(rule)) => return Err(Outcome::Refused(rule)),
        Err(ReadFault::Memory) => return Err(Outcome::Memory),
    };
    if kind.is_none() {
        let drawing = None;
        return Ok(Layout { laid, drawing });
    }
    match scratch.draw_keeping(alloc, &laid) {
        Ok(drawn) => {
            let drawing = Some(drawn.into_points());
            Ok(Layout { laid, drawing })
        }
        Err(CompactFault::Wide) => Err(Outcome::Wide),
        Err(CompactFault::Memory) => Err(Outcome::Memory),
    }
}

/// The outcome for `fault`: `Argument` for `NoAngle` and `TooManyTurns`, and for the others that of the same name. For
/// `NoShape`, the cut that proves it is written to `cut`, which otherwise stays unchanged.
fn outcome_of_keep_fault(fault: KeepFault, cut: &mut CutLists<'_>) -> Outcome
    ensures told { (conditions : Conditions) (choice : Choice) (g : List (List ℕ))
        → IsUnkept conditions choice g fault → IsKeepingFault conditions choice g (cut_contents cut.new) result }
    ensures uncut { ¬ (result ≡ Outcome.NoShape) → cut_contents cut.new ≡ cut_contents cut.old }
    ensures long { AreAsLong (cut_contents cut.old) (cut_contents cut.new) }
{
    match fault {
        KeepFault::NoShape(why) => {
            put_cut(cut, &why);
            Outcome::NoShape
        }
        KeepFault::NoAngle => Outcome::Argument,
        KeepFault::NoEdge => Outcome::NoEdge,
        KeepFault::Conflict => Outcome::Conflict,
        KeepFault::TooManyTurns => Outcome::Argument,
        KeepFault::NoOuter => Outcome::NoOuter,
        KeepFault::Memory => Outcome::Memory,
    }
}
