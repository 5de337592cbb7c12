//! The call that C makes.

ghost use Rattle.std.specs.Prelude.{◌≡◌, false, Some, None, is_some};
ghost use Rattle.planarbend_c.specs.declared.request.Outcome.{Outcome};
ghost use Rattle.planarbend_c.specs.Codes.{code_of};
ghost use Rattle.planarbend_c.specs.Held.{contents};
ghost use Rattle.planarbend_c.specs.Cuts.{cut_contents};
ghost use Rattle.planarbend_c.specs.Found.{AreCounts, HaveRoom, HoldFinding, IsDrawnIfAsked, finding_of};
ghost use Rattle.planarbend_c.specs.Requests.{drawing_in};
ghost use Rattle.planarbend_c.specs.Left.{AreAsLong, AreSameAfter, HaveSamePoints};
ghost use Rattle.planarbend_c.specs.Outcomes.{IsOutcome, IsTold};

use crate::layout::{CutLists, lay_out, lay_out_keeping};
use crate::lists::{
    Counts, Lists, counts_of, put_angles, put_corner_starts, put_corners, put_face_prices,
    put_points, put_turns, put_vertex_prices,
};
use crate::request::{Layout, Outcome, Request, asks_nothing, choice_of, drawing_of};
use std::alloc::Global;

/// Lays out the record of `request`, under its conditions if it has any, and returns the code of the outcome: 0 if it
/// is laid out and written, 10 if memory runs out, or another one up to 18. Writes `counts` if the record is laid out,
/// `lists` too if each has room, and `cut` only if no shape keeps the conditions; what is not written stays.
///
/// The shape has the fewest bends of all that keep the conditions. `planarbend.h` says what each number of an outer
/// face and of a drawing means. The counts are written if the record is laid out, and the lists too if each has room.
/// If no shape keeps the angles and turns, the cut is written instead.
#[unsafe(no_mangle)]
pub extern "C" fn planarbend_c_layout(
    alloc: Global,
    request: &Request<'_>,
    counts: &mut Counts,
    lists: &mut Lists<'_>,
    cut: &mut CutLists<'_>,
) -> u32
    ensures outcome { (outcome : Outcome) × (result ≡ code_of outcome)
        × IsOutcome request.now counts.new (contents lists.new) (cut_contents cut.new) outcome }
    ensures refused { ¬ (result ≡ code_of Outcome.Laid) → contents lists.new ≡ contents lists.old }
    ensures rest { AreSameAfter counts.new (contents lists.old) (contents lists.new) }
    ensures undrawn { drawing_in request.now.drawing ≡ Some None → HaveSamePoints (contents lists.old) (contents lists.new) }
    ensures uncounted { ¬ (result ≡ code_of Outcome.Laid) → ¬ (result ≡ code_of Outcome.Room) → counts.new ≡ counts.old }
    ensures uncut { ¬ (result ≡ code_of Outcome.NoShape) → cut_contents cut.new ≡ cut_contents cut.old }
    ensures cut_room { AreAsLong (cut_contents cut.old) (cut_contents cut.new) }
{
    answer(alloc, request, counts, lists, cut).code()
}

/// Lays out the record of `request` and returns the outcome: `Laid` if `counts` and `lists` are written; `Room` if
/// `counts` alone is written, since a list is too short; `NoShape` if `cut` alone is written; otherwise the reason,
/// such as `Memory` if memory runs out, and nothing is written.
fn answer(
    alloc: Global,
    request: &Request<'_>,
    counts: &mut Counts,
    lists: &mut Lists<'_>,
    cut: &mut CutLists<'_>,
) -> Outcome
    ensures outcome { IsOutcome request.now counts.new (contents lists.new) (cut_contents cut.new) result }
    ensures refused { ¬ (result ≡ Outcome.Laid) → contents lists.new ≡ contents lists.old }
    ensures rest { AreSameAfter counts.new (contents lists.old) (contents lists.new) }
    ensures undrawn { drawing_in request.now.drawing ≡ Some None → HaveSamePoints (contents lists.old) (contents lists.new) }
    ensures uncounted { ¬ (result ≡ Outcome.Laid) → ¬ (result ≡ Outcome.Room) → counts.new ≡ counts.old }
    ensures uncut { ¬ (result ≡ Outcome.NoShape) → cut_contents cut.new ≡ cut_contents cut.old }
    ensures cut_room { AreAsLong (cut_contents cut.old) (cut_contents cut.new) }
{
    let Some(choice) = choice_of(request.outer) else {
        return Outcome::Argument;
    };
    let Some(kind) = drawing_of(request.drawing) else {
        return Outcome::Argument;
    };
    let conditions = &request.conditions;
    if asks_nothing(conditions) {
        match lay_out(alloc, &request.source, choice, kind) {
            Ok(layout) => write_layout(&layout, counts, lists),
            Err(outcome) => outcome,
        }
    } else {
        match lay_out_keeping(alloc, &request.source, choice, kind, conditions, cut) {
            Ok(layout) => write_layout(&layout, counts, lists),
            Err(outcome) => outcome,
        }
    }
}

/// Writes the counts of `layout` to `counts`, and its lists to `lists` if each has room; returns `Laid`, or `Room` if
/// one has not, and `lists` then stays unchanged. Returns `Memory` and writes nothing if the number of corners takes
/// more than 32 bits.
fn write_layout(layout: &Layout, counts: &mut Counts, lists: &mut Lists<'_>) -> Outcome
    requires { IsDrawnIfAsked layout.now.laid.plane layout.now.laid.shape layout.now.drawing }
    ensures told { IsTold (finding_of layout.now) counts.new (contents lists.new) result }
    ensures refused { ¬ (result ≡ Outcome.Laid) → contents lists.new ≡ contents lists.old }
    ensures rest { AreSameAfter counts.new (contents lists.old) (contents lists.new) }
    ensures undrawn { is_some layout.now.drawing ≡ false → HaveSamePoints (contents lists.old) (contents lists.new) }
    ensures uncounted { ¬ (result ≡ Outcome.Laid) → ¬ (result ≡ Outcome.Room) → counts.new ≡ counts.old }
{
    let Some(found) = counts_of(layout) else {
        return Outcome::Memory;
    };
    *counts = found;
    if !lists.have_room(&found, layout.drawing.is_some()) {
        return Outcome::Room;
    }
    write(layout, found, lists);
    Outcome::Laid
}

/// Writes the lists of `layout`, whose counts are `counts`, to `lists`, each of which must have room or is left out
/// (length 0). Entries after those written stay, and without a drawing the lists of points and corners, too.
fn write(layout: &Layout, counts: Counts, lists: &mut Lists<'_>)
    requires drawn { IsDrawnIfAsked layout.now.laid.plane layout.now.laid.shape layout.now.drawing }
    requires counted { AreCounts (finding_of layout.now) counts }
    requires room { HaveRoom (is_some layout.now.drawing) counts (contents lists.old) }
    ensures held { HoldFinding (finding_of layout.now) (contents lists.new) }
    ensures rest { AreSameAfter counts (contents lists.old) (contents lists.new) }
    ensures undrawn { is_some layout.now.drawing ≡ false → HaveSamePoints (contents lists.old) (contents lists.new) }
{
    let plane = &layout.laid.plane;
    put_angles(lists.angles, plane, &layout.laid.shape);
    put_turns(lists.turns, plane, &layout.laid.shape);
    put_vertex_prices(lists.vertex_prices, plane, &layout.laid.prices);
    put_face_prices(lists.face_prices, plane, &layout.laid.prices);
    if let Some(points) = &layout.drawing {
        let edges = plane.graph().edges();
        put_points(lists.points, points.vertices());
        put_corner_starts(lists.corner_starts, edges, points);
        put_corners(lists.corners, edges, points);
    }
}
