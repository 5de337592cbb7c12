//! Records that are answered one after another on the caller's thread, in memory that is kept.

ghost use Rattle.std.specs.Prelude.{◌≡◌, ℕ, List, IfOk, IfErr};
ghost use Rattle.planar_code.specs.Stream.{lists_of};
ghost use Rattle.ortho_rep.specs.Prices.{IsProof};
ghost use Rattle.ortho_rep.specs.Representation.{IsLeast};
ghost use Rattle.reports.specs.declared.answer.Cause.TheVariants.{Wide};
ghost use Rattle.reports.specs.Drawn.{IsCause};
ghost use Rattle.answers.specs.Drawings.{IsDrawing};
ghost use Rattle.answers.specs.Kept.{IsKeptPlane, AreDrawnStraight, KeepsAsked};
ghost use Rattle.common.specs.declared.parameters.Choice.{Choice};
ghost use Rattle.conditions.specs.declared.conditions.Conditions.{Conditions};
ghost use Rattle.conditions.specs.Chosen.{IsKeepFault, IsKept};
ghost use Rattle.reports.specs.Lengths.{IsQuick};
ghost use Rattle.answers.specs.Steps.{IsEmbedded, IsShaped, IsTracedPlane};

use crate::drawing::{DrawScratch, draw, points_of};
use crate::shaped_plane::ShapedPlane;
use crate::shaping::{ShapeScratch, directions_of, shape};
use crate::stages::{embed, embed_wide};
use common::{Choice, DrawingKind};
use compact::CompactFault;
use conditions::{Conditions, KeepFault, shape_keeping_in};
use drawing_check::Drawing;
use embedding::{ReadFault, WideRecord};
use faces::Plane;
use ortho_rep::Points;
use planar_code::Record;
use std::alloc::{AllocError, Global};

/// The buffers of all stages, reused for the next record.
#[derive(Drop)]
pub struct RecordScratch {
    planes: faces::Scratch,
    shapes: ShapeScratch,
    drawings: DrawScratch,
}

impl RecordScratch {
    /// An empty scratch. It allocates nothing.
    pub fn empty(alloc: Global) -> RecordScratch {
        RecordScratch {
            planes: faces::Scratch::empty(alloc),
            shapes: ShapeScratch::empty(alloc),
            drawings: DrawScratch::empty(alloc),
        }
    }

    /// Reads a record into its plane, whose outer face is the one with the most darts, among equals the first; `Rule`
    /// with the first rule that the record breaks, or `Memory` if it breaks none, but memory runs out. This scratch can
    /// be used again after an error.
    ///
    /// # Errors
    ///
    /// `Rule` with the first rule that the record breaks; `Memory` if it breaks none, but memory runs out.
    pub fn embed(&mut self, alloc: Global, rec: &Record) -> Result<Plane, ReadFault>
        ensures { IsEmbedded (lists_of rec.now) result }
    {
        embed(alloc, &mut self.planes, rec)
    }

    /// Reads a wide record into its plane, exactly as [`RecordScratch::embed`] reads a record; `Rule` with the first
    /// rule that the record breaks, or `Memory` if it breaks none, but memory runs out.
    pub fn embed_wide(&mut self, alloc: Global, rec: &WideRecord) -> Result<Plane, ReadFault>
        ensures { IsEmbedded (lists_of rec.now) result }
    {
        embed_wide(alloc, &mut self.planes, rec)
    }

    /// Returns the plane with the outer face of `choice` (with `First` the one that it has), a shape of it with the
    /// fewest bends, and prices that prove this; a fault in place of the plane is returned as it is. `Memory` if memory
    /// runs out for the shape; the plane is then dropped.
    ///
    /// The shape is for this kind of drawing, which the plane names. Nothing is drawn.
    ///
    /// # Errors
    ///
    /// That of the plane; `Memory` if memory runs out for its shape.
    pub fn shape(
        &mut self,
        alloc: Global,
        plane: Result<Plane, ReadFault>,
        choice: Choice,
        drawing_kind: DrawingKind,
    ) -> Result<ShapedPlane, ReadFault>
        ensures shaped { (g : List (List ℕ)) → IsEmbedded g plane → IsShaped choice g result }
        ensures kind { IfOk result (λ shaped_plane. shaped_plane.drawing_kind ≡ drawing_kind) }
        ensures least { IfOk result (λ shaped_plane. IsLeast shaped_plane.plane shaped_plane.shape
            × IsProof shaped_plane.plane shaped_plane.shape shaped_plane.prices) }
    {
        shape(alloc, &mut self.shapes, plane, choice, drawing_kind)
    }

    /// Returns points that draw a plane whose shape must have the fewest bends, in a drawing of the kind that its shape
    /// is for; `AllocError` if memory runs out.
    ///
    /// Each least shape has a drawing. The edges of a short one are in all no longer than those of a quick one. For n
    /// vertices and b bends, coordinates are below 3n + 2b + 5.
    ///
    /// # Errors
    ///
    /// `AllocError` if memory runs out.
    pub fn points(
        &mut self,
        alloc: Global,
        shaped_plane: &ShapedPlane,
    ) -> Result<Points, AllocError>
        requires { IsLeast shaped_plane.now.plane shaped_plane.now.shape }
        ensures drawn { IfOk result (IsDrawing shaped_plane.now.plane shaped_plane.now.shape) }
        ensures quick { shaped_plane.now.drawing_kind ≡ DrawingKind.Quick
            → IfOk result (IsQuick shaped_plane.now.plane shaped_plane.now.shape) }
    {
        points_of(
            alloc,
            &mut self.drawings,
            shaped_plane,
            shaped_plane.drawing_kind,
        )
    }

    /// Consumes a plane and returns it with the chosen outer face, a shape with the fewest bends of all that keep the
    /// conditions, and prices that prove this. An error says what is wrong with the conditions, or that no shape keeps
    /// them, or is `Memory` if memory runs out; the plane is then dropped.
    ///
    /// The outer face is the chosen one of those that may be outside. `First` is the face with the most darts, and
    /// `Best` the one that minimises bends; among equals both are the one with the least number, which has the least
    /// dart. Nothing is drawn; the plane names this kind of drawing.
    ///
    /// # Errors
    ///
    /// Why the plane has no such shape; `Memory` if memory runs out.
    pub fn shape_keeping(
        &mut self,
        alloc: Global,
        mut plane: Plane,
        conditions: &Conditions<'_>,
        choice: Choice,
        drawing_kind: DrawingKind,
    ) -> Result<ShapedPlane, KeepFault>
        ensures kept { IfOk result (λ made. (g : List (List ℕ))
            → IsTracedPlane g plane → IsKeptPlane conditions.now choice g made) }
        ensures kind { IfOk result (λ made. made.drawing_kind ≡ drawing_kind) }
        ensures fault { IfErr result (IsKeepFault conditions.now choice plane) }
    {
        let scratch = &mut self.shapes;
        let shapes = &mut scratch.shapes;
        let (shape, prices) = shape_keeping_in(alloc, shapes, &mut plane, conditions, choice)?;
        // Only the proof needs this: `graph` says that the plane still is one.
        let _graph = plane.graph();
        let directions = directions_of(alloc, scratch, &plane, &shape)?;
        Ok(ShapedPlane {
            plane,
            shape,
            prices,
            directions,
            drawing_kind,
        })
    }

    /// Returns a drawing, of the kind that `kept` names, of its shape, which keeps conditions; `Wide` if the shape
    /// needs points outside the grid, `Memory` if memory runs out.
    ///
    /// It has the angles and turns that are asked for, and an edge without turns has no corners. Lengths and
    /// coordinates are as for [`RecordScratch::points`].
    ///
    /// # Errors
    ///
    /// `Wide` if the shape, which may have more bends than a least one, needs points outside the grid; `Memory` if
    /// memory runs out.
    pub fn draw_keeping(
        &mut self,
        alloc: Global,
        kept: &ShapedPlane,
    ) -> Result<Drawing, CompactFault>
        ensures drawn { IfOk result (IsDrawing kept.now.plane kept.now.shape) }
        ensures straight { IfOk result (AreDrawnStraight kept.now.plane kept.now.shape) }
        ensures kept { IfOk result (λ drawing. (conditions : Conditions) (choice : Choice)
            → IsKept conditions choice kept.now.plane kept.now.shape kept.now.prices
            → KeepsAsked conditions kept.now.plane drawing) }
        ensures quick { kept.now.drawing_kind ≡ DrawingKind.Quick
            → IfOk result (IsQuick kept.now.plane kept.now.shape) }
        ensures wide { IfErr result (λ fault. fault ≡ CompactFault.Wide → IsCause kept.now.plane kept.now.shape Wide) }
    {
        // Only the proof needs this: `graph` says that the plane is one.
        let _graph = kept.plane.graph();
        let drawn = draw(
            alloc,
            &mut self.drawings,
            &kept.plane,
            &kept.shape,
            &kept.directions,
            kept.drawing_kind,
        );
        match drawn {
            Ok(Ok(drawing)) => Ok(drawing),
            // There is no other cause.
            Ok(Err(_)) => Err(CompactFault::Wide),
            Err(AllocError) => Err(CompactFault::Memory),
        }
    }
}
