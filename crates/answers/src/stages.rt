//! A record is read into a plane; points are found for a shaped plane; and both, as one call that answers a record.

ghost use Rattle.std.specs.Prelude.{◌≡◌, ℕ, List, IfOk, MatchOption};
ghost use Rattle.reports.specs.Lengths.{IfDrawn, IsNear, IsNoLonger, IsQuick};
ghost use Rattle.answers.specs.Steps.{IsRefused, IsEmbedded, IsShaped, IsFoundFor, answer_in};
ghost use Rattle.common.specs.declared.parameters.Choice.{Choice};
ghost use Rattle.embedding.specs.Rules.{FirstBroken, KeepsBefore};
ghost use Rattle.ortho_rep.specs.Representation.{IsLeast};
ghost use Rattle.planar_code.specs.Stream.{lists_of};
ghost use Rattle.reports.specs.Answers.{Answers};
ghost use Rattle.answers.specs.DrawnAnswers.{IsDrawnIfLaid};

use crate::drawing::{DrawScratch, draw, points_of};
use crate::item::PointsFound;
use crate::shaped_plane::ShapedPlane;
use crate::shaping::{ShapeScratch, shape};
use common::{Choice, DrawingKind};
use embedding::{Graph, ReadFault, Rule, WideRecord, broken_rule, broken_wide_rule};
use faces::{Plane, TraceFault};
use planar_code::Record;
use reports::{Answer, Entry};
use std::alloc::{AllocError, Global};

/// The fault of lists for whose graph there is no memory: `Rule` with the rule in `broken`, which must be the first
/// that they break, or `Memory` if it is `None`.
fn fault_without_graph(broken: Option<Rule>) -> ReadFault
    ensures { (g : List (List ℕ))
        → MatchOption broken (KeepsBefore g 9) (λ rule. FirstBroken g rule) → IsRefused g result }
{
    match broken {
        Some(rule) => ReadFault::Rule(rule),
        None => ReadFault::Memory,
    }
}

/// Consumes a graph and returns its plane, whose outer face is the one with the most darts; `Rule(Genus)` if the graph
/// breaks that rule, and its lists then go to `scratch`. It allocates nothing.
fn trace(alloc: Global, scratch: &mut faces::Scratch, graph: Graph) -> Result<Plane, ReadFault>
    ensures { IsEmbedded graph result }
{
    match Plane::trace_in(alloc, scratch, graph) {
        Ok(plane) => Ok(plane),
        Err(TraceFault::Genus(graph)) => {
            graph.give_back(&mut scratch.graph);
            Err(ReadFault::Rule(Rule::Genus))
        }
        Err(TraceFault::Memory(_)) => unreachable!(),
    }
}

/// The plane of a record, whose outer face is the one with the most darts; `Rule` with the first rule that the record
/// breaks, or `Memory` if it breaks none, but memory runs out. The plane takes lists of `scratch` with it; after an
/// error some may be gone.
///
/// If there is no memory for the graph, the rules are tried without one, which allocates nothing.
pub(crate) fn embed(
    alloc: Global,
    scratch: &mut faces::Scratch,
    rec: &Record,
) -> Result<Plane, ReadFault>
    ensures { IsEmbedded (lists_of rec.now) result }
{
    match Graph::read_in(alloc, &mut scratch.graph, rec) {
        Ok(graph) => trace(alloc, scratch, graph),
        Err(ReadFault::Rule(rule)) => Err(ReadFault::Rule(rule)),
        Err(ReadFault::Memory) => Err(fault_without_graph(broken_rule(rec))),
    }
}

/// The plane of a wide record, exactly as `embed` of a record: `Rule` with the first rule that the record breaks, or
/// `Memory` if it breaks none, but memory runs out. The plane takes lists of `scratch` with it; after an error some may
/// be gone.
pub(crate) fn embed_wide(
    alloc: Global,
    scratch: &mut faces::Scratch,
    rec: &WideRecord,
) -> Result<Plane, ReadFault>
    ensures { IsEmbedded (lists_of rec.now) result }
{
    match Graph::read_wide_in(alloc, &mut scratch.graph, rec) {
        Ok(graph) => trace(alloc, scratch, graph),
        Err(ReadFault::Rule(broken)) => Err(ReadFault::Rule(broken)),
        Err(ReadFault::Memory) => Err(fault_without_graph(broken_wide_rule(rec))),
    }
}

/// Returns the answer to a record: `Laid` with its plane, shape, prices and drawing, or a cause in place of the
/// drawing; `Refused` with the rule that it breaks; or `NoMemory` if memory ran out, here or before. The drawing is of
/// the kind `drawing_kind` and is made in the buffers of `scratch`.
pub(crate) fn answer_with(
    alloc: Global,
    scratch: &mut DrawScratch,
    shaped_plane: Result<ShapedPlane, ReadFault>,
    drawing_kind: DrawingKind,
) -> Answer
    ensures answers { (choice : Choice) (g : List (List ℕ)) → IsShaped choice g shaped_plane → Answers choice g result }
    ensures memory { (choice : Choice) (g : List (List ℕ)) → IsShaped choice g shaped_plane
        → result ≡ Answer.NoMemory → KeepsBefore g 9 }
    ensures quick { drawing_kind ≡ DrawingKind.Quick → IfDrawn IsQuick result }
    ensures no_longer { IfDrawn IsNoLonger result }
    ensures near { IfDrawn IsNear result }
{
    let ShapedPlane {
        plane,
        shape,
        prices,
        directions,
        drawing_kind: _,
    } = match shaped_plane {
        Ok(shaped_plane) => shaped_plane,
        Err(ReadFault::Rule(rule)) => return Answer::Refused(rule),
        Err(ReadFault::Memory) => return Answer::NoMemory,
    };
    let drawn = draw(alloc, scratch, &plane, &shape, &directions, drawing_kind);
    match drawn {
        Ok(drawing) => Answer::Laid {
            plane,
            shape,
            prices,
            drawing,
        },
        Err(AllocError) => Answer::NoMemory,
    }
}

/// Returns a shaped plane, whose shape must have the fewest bends, with points that draw it in the kind `drawing_kind`;
/// a fault in place of it is returned as it is. The points are made in the buffers of `scratch`; `Memory` if memory
/// runs out, and the shaped plane is then dropped.
///
/// The points of a quick drawing are not checked: it is proved that they draw the shape.
pub fn find_points(
    alloc: Global,
    scratch: &mut DrawScratch,
    shaped_plane: Result<ShapedPlane, ReadFault>,
    drawing_kind: DrawingKind,
) -> PointsFound
    requires { IfOk shaped_plane (λ made. IsLeast made.plane made.shape) }
    ensures answers { (choice : Choice) (g : List (List ℕ)) → IsShaped choice g shaped_plane → Answers choice g (answer_in result) }
    ensures same { IsFoundFor shaped_plane result }
    ensures quick { drawing_kind ≡ DrawingKind.Quick → IfDrawn IsQuick (answer_in result) }
    ensures no_longer { IfDrawn IsNoLonger (answer_in result) }
    ensures near { IfDrawn IsNear (answer_in result) }
{
    let shaped_plane = shaped_plane?;
    match points_of(alloc, scratch, &shaped_plane, drawing_kind) {
        Ok(points) => Ok((shaped_plane, points)),
        Err(AllocError) => Err(ReadFault::Memory),
    }
}

/// Returns the entry of a record, which holds the record: its answer with a quick drawing, found by all stages, one
/// after another, on the caller's thread. The answer is `Refused` with the first rule that the record breaks, and
/// otherwise `NoMemory` if memory runs out.
///
/// The outer face is that of this choice. If the record breaks a rule, the answer names the first one, whatever memory
/// there is. Otherwise it is `NoMemory` if any call on the way runs out of memory.
pub fn answer(alloc: Global, file: u32, ordinal: u32, rec: Record, choice: Choice) -> Entry
    ensures file { result.file ≡ file }
    ensures ordinal { result.ordinal ≡ ordinal }
    ensures same { result.rec ≡ rec }
    ensures chosen { result.choice ≡ choice }
    ensures answered { Answers choice (lists_of rec) result.answer }
    ensures drawn { IsDrawnIfLaid result.answer }
    ensures quick { IfDrawn IsQuick result.answer }
    ensures near { IfDrawn IsNear result.answer }
    ensures memory { result.answer ≡ Answer.NoMemory → KeepsBefore (lists_of rec) 9 }
{
    let mut planes = faces::Scratch::empty(alloc);
    let plane = embed(alloc, &mut planes, &rec);
    let mut shape_scratch = ShapeScratch::empty(alloc);
    let mut draw_scratch = DrawScratch::empty(alloc);
    let drawing_kind = DrawingKind::Quick;
    let shaped_plane = shape(alloc, &mut shape_scratch, plane, choice, drawing_kind);
    Entry {
        file,
        ordinal,
        rec,
        choice,
        answer: answer_with(alloc, &mut draw_scratch, shaped_plane, drawing_kind),
    }
}
