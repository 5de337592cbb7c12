//! The verdict on a record and its input: what is said of a record and its line.
ghost use Rattle.std.specs.Prelude.{◌≡◌, IfOk};
ghost use Rattle.planar_code.specs.Stream.{lists_of};
ghost use Rattle.referee.specs.Drawings.{IsDrawnBy};
ghost use Rattle.checking.specs.Verdicts.{IsVerdict, IsVerdictOnPlane, IsVerdictOnDrawing, IsFound};
ghost use Rattle.checking.specs.declared.json.LineFault.TheVariants as line;
ghost use Rattle.checking.specs.declared.line_content.DrawingInput.TheVariants as given;
ghost use Rattle.checking.specs.declared.judging.Verdict.TheVariants as verdict;

use crate::json::LineFault;
use crate::line_content::{ClaimedDrawing, DrawingInput};
use drawing_check::outside_is_outer;
use embedding::{Graph, ReadFault, Rule};
use faces::{Plane, TraceFault};
use planar_code::Record;
use referee::{Claims, FalseClaim, Fault, Judged, false_claim, fewest_in, judge_in};
use std::alloc::{AllocError, Global};

/// The verdict on a record and the line of its drawing: the first variant that applies, in this order.
#[derive(Clone, Copy, Debug, PartialEq, Eq)]
pub(crate) enum Verdict {
    /// The first rule that the record breaks.
    Refused(Rule),
    /// There is no line for the record.
    Missing,
    /// A read of the lines failed before this record's line.
    Unread,
    /// The line describes no drawing, for this reason.
    Line(LineFault),
    /// The points do not draw the record's embedding: the first condition that fails, and where.
    Drawn(Fault),
    /// A region of the drawing is not its face.
    Regions,
    /// The first claim about the drawing that does not hold.
    Claim(FalseClaim),
    /// The points draw the record's embedding with this many bends, and all claims hold.
    Ok {
        bends: u32,
        /// The least number of bends of a representation with the drawing's outer face.
        fewest: u32,
    },
    /// Memory ran out; this says nothing of the record and its line.
    Memory,
}

/// The buffers of `record_verdict`, reused for the next record. Their contents between two calls do not matter.
#[derive(Drop)]
pub(crate) struct Scratch {
    planes: faces::Scratch,
    drawings: referee::Scratch,
}

impl Scratch {
    /// An empty scratch. It allocates nothing.
    pub(crate) fn empty(alloc: Global) -> Scratch {
        Scratch {
            planes: faces::Scratch::empty(alloc),
            drawings: referee::Scratch::empty(alloc),
        }
    }
}

/// The verdict on `rec` and `input`, which its line gave: `Memory` if memory runs out, or ran out for the line;
/// otherwise the first variant of `Verdict` that applies. If `faces`, each region of the drawing must also be its face.
/// The buffers in `scratch` are reused and changed.
///
/// `Memory` if memory ran out for the line, which may then be the end of a run. `Ok` exactly if, unless memory runs
/// out, the record breaks no rule, and points are given that draw a representation of its embedding, with whatever
/// outer face, of which all claims hold and, if `faces`, each region is its face.
pub(crate) fn record_verdict(
    alloc: Global,
    scratch: &mut Scratch,
    faces: bool,
    rec: &Record,
    input: DrawingInput,
) -> Verdict
    ensures holds { IsVerdict faces (lists_of rec.now) input result }
    ensures memory { input ≡ given.Fault line.Memory → result ≡ verdict.Memory }
{
    if matches!(input, DrawingInput::Fault(LineFault::Memory)) {
        return Verdict::Memory;
    }
    let graph = match Graph::read_in(alloc, &mut scratch.planes.graph, rec) {
        Ok(graph) => graph,
        Err(ReadFault::Rule(rule)) => return Verdict::Refused(rule),
        Err(ReadFault::Memory) => return Verdict::Memory,
    };
    let mut plane = match Plane::trace_in(alloc, &mut scratch.planes, graph) {
        Ok(plane) => plane,
        Err(TraceFault::Genus(graph)) => {
            graph.give_back(&mut scratch.planes.graph);
            return Verdict::Refused(Rule::Genus);
        }
        Err(TraceFault::Memory(_)) => return Verdict::Memory,
    };
    let verdict = input_verdict(alloc, scratch, faces, &mut plane, input);
    plane.give_back(&mut scratch.planes);
    verdict
}

/// The verdict on `input` for the record of `plane`: that on its drawing, or why there is none; `Memory` if memory runs
/// out, or ran out for the line. A drawing may change the outer face of `plane`, even one that is wrong, and changes
/// the buffers in `scratch`.
fn input_verdict(
    alloc: Global,
    scratch: &mut Scratch,
    faces: bool,
    plane: &mut Plane,
    input: DrawingInput,
) -> Verdict
    ensures { IsVerdictOnPlane faces plane.old input result }
{
    match input {
        DrawingInput::Drawing(drawing) => drawing_verdict(alloc, scratch, faces, plane, drawing),
        DrawingInput::Fault(LineFault::Memory) => Verdict::Memory,
        DrawingInput::Fault(fault) => Verdict::Line(fault),
        DrawingInput::Missing => Verdict::Missing,
        DrawingInput::Unread => Verdict::Unread,
    }
}

/// The verdict on a drawing of `plane`; `Memory` if memory runs out. The outer face of `plane` becomes that of the
/// drawing; if the verdict is `Drawn` or `Memory`, it may have changed or not. The buffers in `scratch` are reused and
/// changed.
fn drawing_verdict(
    alloc: Global,
    scratch: &mut Scratch,
    faces: bool,
    plane: &mut Plane,
    drawing: ClaimedDrawing,
) -> Verdict
    ensures { IsVerdictOnDrawing faces plane.old drawing.points drawing.claims result }
{
    let ClaimedDrawing { points, claims } = drawing;
    let judged = match judge_in(alloc, &mut scratch.drawings, plane, points) {
        Ok(judged) => judged,
        Err(Fault::Memory) => return Verdict::Memory,
        Err(fault) => return Verdict::Drawn(fault),
    };
    // Only the proof needs this: `outer` says that there is such a face.
    let _outer = plane.outer();
    claims_verdict(alloc, scratch, faces, plane, &judged, &claims).unwrap_or(Verdict::Memory)
}

/// The verdict on the regions of a drawing, if `faces`, and then on its claims: `Regions`, `Claim`, or `Ok` with the
/// bends and the fewest bends. `AllocError` if memory runs out for the fewest bends, which claimed prices prove without
/// memory. The buffers in `scratch` are reused and changed.
fn claims_verdict(
    alloc: Global,
    scratch: &mut Scratch,
    faces: bool,
    plane: &Plane,
    judged: &Judged,
    claims: &Claims,
) -> Result<Verdict, AllocError>
    requires { IsDrawnBy plane.now judged.now.drawing judged.now.shape }
    ensures { IfOk result (IsFound faces plane.now judged.now.drawing judged.now.shape claims.now) }
{
    if faces && !outside_is_outer(plane, &judged.drawing) {
        return Ok(Verdict::Regions);
    }
    if let Some(claim) = false_claim(plane, &judged.shape, claims) {
        return Ok(Verdict::Claim(claim));
    }
    let bends = judged.shape.bends();
    if claims.prices.is_some() {
        return Ok(Verdict::Ok {
            bends,
            fewest: bends,
        });
    }
    let fewest = fewest_in(alloc, &mut scratch.drawings, plane)?;
    Ok(Verdict::Ok { bends, fewest })
}
