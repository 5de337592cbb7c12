//! The points that a value has.
ghost use Rattle.std.specs.Prelude.{◌≡◌, ◌≢◌, List, IfOk, IfErr, All};
ghost use Rattle.serde_json.specs.View.{view};
ghost use Rattle.ortho_rep.specs.declared.grid_points.Point.{Point};
ghost use Rattle.ortho_rep.specs.Points.{PointsModel};
ghost use Rattle.ortho_rep.specs.Storage.{lists_in};
ghost use Rattle.checking.specs.Values.{point_data, list_data, lists_data, IsShort, AreShort, SaysPoints};
ghost use Rattle.checking.specs.Wrong.{IsWrongPoint, IsWrongPointList, IsWrongCorners, IsWrongPoints};
ghost use Rattle.checking.specs.declared.json.LineFault.TheVariants.{Memory};

use crate::json::{LineFault, list_in, needed_field_in, number_in};
use ortho_rep::{Point, Points};
use serde_json::Value;
use std::alloc::Global;

/// The maximum coordinate that is read.
const MAX_COORDINATE: u64 = 4_294_967_295;

/// The points in the field `points` of a JSON value: those of its `vertices`, then the lists of its `corners`. `Points`
/// if a field or list is absent, or a list or point has another form, `Number` if a coordinate is no integer from 0 to
/// 4,294,967,295, `Memory` if memory runs out; the first error counts.
///
/// # Errors
///
/// `Memory` if memory runs out. Otherwise `Points` if a field, a list or a point is missing or malformed, and `Number`
/// if a coordinate is no integer from 0 to 4,294,967,295. `vertices` is read before `corners`; the first error counts.
pub(crate) fn points_in(alloc: Global, value: &Value) -> Result<Points, LineFault>
    ensures ok { IfOk result (SaysPoints (view value.now)) }
    ensures short { IfOk result AreShort }
    ensures none { IfErr result (λ fault. fault ≢ Memory
        → (points : PointsModel) → AreShort points → SaysPoints (view value.now) points → ⊥) }
    ensures fault { IfErr result (λ fault. fault ≢ Memory → IsWrongPoints (view value.now) fault) }
{
    let field = needed_field_in(value, "points")?;
    let vertices = point_list(alloc, needed_field_in(field, "vertices")?)?;
    let corners = corner_lists(alloc, needed_field_in(field, "corners")?)?;
    Ok(Points::new(vertices, corners))
}

/// The lists of corners, one for each edge, that a JSON value holds as an array of arrays of points, in order. `Points`
/// if the value, an element or a point has another form, `Number` if a coordinate is no integer from 0 to
/// `MAX_COORDINATE`, `Memory` if memory runs out; the first error counts.
fn corner_lists(alloc: Global, value: &Value) -> Result<Vec<Vec<Point>>, LineFault>
    ensures ok { IfOk result (λ lists. view value.now ≡ lists_data (lists_in lists.items)) }
    ensures short { IfOk result (λ lists. All (All IsShort) (lists_in lists.items)) }
    ensures none { IfErr result (λ fault. fault ≢ Memory
        → (lists : List (List Point)) → All (All IsShort) lists → view value.now ≢ lists_data lists) }
    ensures fault { IfErr result (λ fault. fault ≢ Memory → IsWrongCorners (view value.now) fault) }
{
    let mut lists = Vec::new(alloc);
    let elements = list_in(value, LineFault::Points)?;
    for element in elements {
        lists.push(point_list(alloc, element)?)?;
    }
    Ok(lists)
}

/// The points that a JSON value holds as an array, in order. `Points` if it is no array or an element is no array of
/// two, `Number` if a coordinate is no integer from 0 to `MAX_COORDINATE`, `Memory` if memory runs out; the first error
/// counts.
fn point_list(alloc: Global, value: &Value) -> Result<Vec<Point>, LineFault>
    ensures ok { IfOk result (λ points. view value.now ≡ list_data points.items) }
    ensures short { IfOk result (λ points. All IsShort points.items) }
    ensures none { IfErr result (λ fault. fault ≢ Memory
        → (points : List Point) → All IsShort points → view value.now ≢ list_data points) }
    ensures fault { IfErr result (λ fault. fault ≢ Memory → IsWrongPointList (view value.now) fault) }
{
    let mut points = Vec::new(alloc);
    let elements = list_in(value, LineFault::Points)?;
    for element in elements {
        points.push(point_in(element)?)?;
    }
    Ok(points)
}

/// The point that a JSON value holds as `[x, y]`. `Points` if the value is no array of two elements, `Number` if one of
/// them is no integer from 0 to `MAX_COORDINATE`.
fn point_in(value: &Value) -> Result<Point, LineFault>
    ensures ok { IfOk result (λ point. view value.now ≡ point_data point) }
    ensures short { IfOk result IsShort }
    ensures none { IfErr result (λ _. (point : Point) → IsShort point → view value.now ≢ point_data point) }
    ensures fault { IfErr result (IsWrongPoint (view value.now)) }
{
    let coordinates = list_in(value, LineFault::Points)?;
    if coordinates.len() != 2 {
        return Err(LineFault::Points);
    }
    let x = number_in(&coordinates[0], MAX_COORDINATE)?;
    let y = number_in(&coordinates[1], MAX_COORDINATE)?;
    Ok(Point {
        x: x as u32,
        y: y as u32,
    })
}
