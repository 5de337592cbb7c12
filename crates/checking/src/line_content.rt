//! What a line says, a drawing or the end of a run; the lines of the drawings of records, and the lines after those.
ghost use Rattle.std.specs.Prelude.{◌≡◌, ◌≢◌, IfOk, IfErr, ℕ, Bool, Option, List};
ghost use Rattle.serde_json.specs.View.{view};
ghost use Rattle.ortho_rep.specs.Points.{PointsModel};
ghost use Rattle.referee.specs.declared.claims.Claims.{Claims};
ghost use Rattle.checking.specs.declared.json.LineFault.TheVariants.{Memory};
ghost use Rattle.checking.specs.LineContents.{HasFields, HasRanges, HasClaims, HasClaimRanges, Says, SaysNothing, IsWrongClaim, IsWrongValue, IsWrongLine};
ghost use Rattle.checking.specs.Lines.{state_in};
ghost use Rattle.checking.specs.UnderWay.{trailing_of, HasKept, KeepsNext, KeepsRest};

use crate::claims::{angles_in, bends_in, outer_in, prices_in, turns_in};
use crate::json::{LineFault, value_in};
use crate::line_reader::{LineOutcome, Lines};
use crate::points::points_in;
use ortho_rep::Points;
use referee::Claims;
use serde_json::Value;
use std::alloc::Global;
use std::sync::Wait;
use streams::{Tap, WriteFault};

/// A drawing read from a line: its points, and the claims about them.
#[derive(Debug, Drop)]
pub(crate) struct ClaimedDrawing {
    pub(crate) points: Points,
    pub(crate) claims: Claims,
}

/// The content of a line: a drawing, or the end of a run.
#[derive(Debug, Drop)]
pub(crate) enum LineContent {
    /// The line is the last one of a run.
    End,
    /// The line describes this drawing.
    Drawing(ClaimedDrawing),
}

/// The content of a line: `End` if it is a JSON object with a field `end`, otherwise the drawing that it describes.
/// `Malformed` if it is no JSON object that `value_in` accepts, `Memory` if memory runs out, otherwise the fault of its
/// first wrong field, in the order `points`, `angles`, `turns`, `prices`, `bends`, `outer`.
///
/// # Errors
///
/// `Memory` if memory runs out. Otherwise the line says neither a drawing whose numbers have their ranges nor an end:
/// `Malformed` if it is no JSON object that `value_in` accepts, and else the fault of its first wrong field, in the
/// order `points`, `angles`, `turns`, `prices`, `bends`, `outer`.
pub(crate) fn content_of(alloc: Global, line: &[u8]) -> Result<LineContent, LineFault>
    ensures ok { IfOk result (Says line.now) }
    ensures none { IfErr result (λ fault. fault ≢ Memory → SaysNothing line.now) }
    ensures fault { IfErr result (λ fault. fault ≢ Memory → IsWrongLine line.now fault) }
{
    let value = value_in(alloc, line)?;
    if value.get("end").is_some() {
        return Ok(LineContent::End);
    }
    Ok(LineContent::Drawing(drawing_in(alloc, &value)?))
}

/// The points and claims that a JSON value describes; a claim is `None` if its field is absent. `Malformed` if the
/// value is no object, `Memory` if memory runs out, otherwise the fault of its first wrong field, in the order
/// `points`, `angles`, `turns`, `prices`, `bends`, `outer`.
fn drawing_in(alloc: Global, value: &Value) -> Result<ClaimedDrawing, LineFault>
    ensures ok { IfOk result (λ said. HasFields (view value.now) said.points said.claims) }
    ensures none { IfErr result (λ fault. fault ≢ Memory → (points : PointsModel) (claims : Claims)
        → HasRanges points claims → HasFields (view value.now) points claims → ⊥) }
    ensures fault { IfErr result (λ fault. fault ≢ Memory → IsWrongValue (view value.now) fault) }
{
    if !value.is_object() {
        return Err(LineFault::Malformed);
    }
    let points = points_in(alloc, value)?;
    let claims = claims_in(alloc, value)?;
    Ok(ClaimedDrawing { points, claims })
}

/// The claims that a JSON value makes of its points, `None` for each absent field. `Memory` if memory runs out,
/// otherwise the fault of the first wrong field, in the order `angles`, `turns`, `prices`, `bends`, `outer`.
fn claims_in(alloc: Global, value: &Value) -> Result<Claims, LineFault>
    ensures ok { IfOk result (HasClaims (view value.now)) }
    ensures none { IfErr result (λ fault. fault ≢ Memory → (claims : Claims)
        → HasClaimRanges claims → HasClaims (view value.now) claims → ⊥) }
    ensures fault { IfErr result (λ fault. fault ≢ Memory → IsWrongClaim (view value.now) fault) }
{
    Ok(Claims {
        angles: angles_in(alloc, value)?,
        turns: turns_in(alloc, value)?,
        prices: prices_in(alloc, value)?,
        bends: bends_in(value)?,
        outer: outer_in(value)?,
    })
}

/// The input for a record: its drawing, or the reason why there is none.
#[derive(Debug, Drop)]
pub(crate) enum DrawingInput {
    /// The line of the record describes this drawing.
    Drawing(ClaimedDrawing),
    /// The line of the record describes no drawing, for this reason.
    Fault(LineFault),
    /// The record has no line, as there are no more.
    Missing,
    /// The record has no line, as a read of the lines failed.
    Unread,
}

/// The lines after those of the records.
#[derive(Clone, Copy, Debug)]
pub(crate) struct TrailingLines {
    /// How many they are.
    pub(crate) surplus: u64,
    /// Whether a read failed, and did not end.
    pub(crate) failed: bool,
}

/// What is read after the line of the last record.
#[derive(Clone, Copy, Debug)]
pub(crate) enum Trailing {
    /// A line that is not the end of a run.
    Line,
    /// No line, as there are no more, or as a read failed.
    End { failed: bool },
    /// Memory ran out for a line.
    OutOfMemory,
}

/// Reads the next line of `lines` that is no end of a run, and returns its drawing, or `Fault` with the reason why
/// there is none: `Malformed` if the line is too long, `Memory` if memory runs out for it (it may then be the end of a
/// run). `Missing` if there are no more lines, `Unread` if a read failed.
pub(crate) fn next_input<R: Wait, L: Tap>(
    rt: &R,
    alloc: Global,
    lines: &mut Lines<L>,
) -> DrawingInput
    ensures { (known : Option (List ℕ)) (fails : Bool) (kept : List (List ℕ))
        → HasKept L.to_come L.fails known fails lines.old kept
        → KeepsNext L.to_come L.fails known fails (state_in lines.old) lines.new kept result }
{
    for _ in rt.forever() {
        match lines.next(rt) {
            LineOutcome::Line => match content_of(alloc, lines.line()) {
                Ok(LineContent::End) => {}
                Ok(LineContent::Drawing(drawing)) => return DrawingInput::Drawing(drawing),
                Err(fault) => return DrawingInput::Fault(fault),
            },
            LineOutcome::TooLong => return DrawingInput::Fault(LineFault::Malformed),
            LineOutcome::End => return DrawingInput::Missing,
            LineOutcome::Failed => return DrawingInput::Unread,
        }
    }
    unreachable!()
}

/// Reads all lines that are left in `lines`; returns how many of them are no end of a run, and whether a read failed,
/// which is no error. `Memory`, the only error, if memory runs out for a line; the lines after it are then not read.
///
/// # Errors
///
/// `Memory` if memory runs out for a line, also for the drawing of one that is known to be no end of a run.
pub(crate) fn read_trailing<R: Wait, L: Tap>(
    rt: &R,
    alloc: Global,
    lines: &mut Lines<L>,
) -> Result<TrailingLines, WriteFault>
    ensures reads { IfOk result (λ rest. (known : Option (List ℕ)) (fails : Bool) (kept : List (List ℕ))
        → HasKept L.to_come L.fails known fails lines.old kept
        → KeepsRest L.to_come L.fails known fails (state_in lines.old) lines.new kept rest) }
    ensures memory { IfErr result (λ fault. fault ≡ WriteFault.Memory) }
{
    let mut surplus = 0u64;
    for _ in rt.forever() {
        match trailing_of(next_input(rt, alloc, lines)) {
            Trailing::Line => surplus = surplus.saturating_add(1),
            Trailing::End { failed } => return Ok(TrailingLines { surplus, failed }),
            Trailing::OutOfMemory => return Err(WriteFault::Memory),
        }
    }
    unreachable!()
}

/// What `input`, read after the line of the last record, says, and drops it: `Line` for a drawing or a fault of a line,
/// `End` if there was no line, with whether a read failed, and `OutOfMemory` if memory had run out for a line.
fn trailing_of(input: DrawingInput) -> Trailing
    ensures { result ≡ trailing_of input }
{
    match input {
        DrawingInput::Drawing(_) => Trailing::Line,
        DrawingInput::Fault(LineFault::Memory) => Trailing::OutOfMemory,
        DrawingInput::Fault(_) => Trailing::Line,
        DrawingInput::Missing => Trailing::End { failed: false },
        DrawingInput::Unread => Trailing::End { failed: true },
    }
}
