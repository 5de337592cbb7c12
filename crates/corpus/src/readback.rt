//! JSON lines, read back: what the line of a graph says must be an orthogonal representation of the
//! record's plane, prices that prove it least, and points that draw it.
ghost use Rattle.ortho_rep.specs.Representation.{IsShape};

use crate::figures::{Figures, figures_of};
use crate::shapes::test_shape;
use anyhow::{Context, Result, ensure};
use collector::{Answer, Batch, Entry, IoSink, write_json};
use drawing_check::{Drawing, check};
use faces::Plane;
use ortho_rep::{Point, Points, Prices, Shape, Turn};
use serde_json::Value;
use std::alloc::Global;

/// Writes a batch as JSON lines, and tests the line of each graph that breaks no rule.
pub fn test_lines(alloc: Global, batch: &Batch) -> Result<()> {
    let text = json_of(alloc, batch)?;
    test_text(alloc, batch, text.as_slice())?;
    Ok(())
}

/// Tests the line of each graph that breaks no rule in a text of JSON lines, with the planes of a batch, and returns what
/// these lines show in all.
pub fn test_text(alloc: Global, batch: &Batch, text: &[u8]) -> Result<Figures> {
    let mut figures = Figures::none();
    let mut lines = text.split(|byte| *byte == b'\n');
    for file in 0..batch.files() {
        for entry in batch.book(file).entries() {
            let line = lines.next().context("a graph without a line")?;
            figures = figures.with(test_entry(alloc, entry, line)?);
        }
        let _ = lines.next().context("a file without its last line")?;
    }
    ensure!(lines.next() == Some(&[]), "a line too many");
    Ok(figures)
}

/// The JSON lines of a batch.
fn json_of(alloc: Global, batch: &Batch) -> Result<Vec<u8>> {
    let mut sink = IoSink::new(Vec::new(alloc));
    write_json(alloc, batch, &mut sink)?;
    Ok(sink.into_writer())
}

/// Tests what a line says of a graph that breaks no rule.
fn test_entry(alloc: Global, entry: &Entry, line: &[u8]) -> Result<Figures> {
    match &entry.answer {
        Answer::Laid { plane, .. } => { test_value(alloc, plane, &Value::from_slice(alloc, line)?) }
        _ => Ok(Figures::none()),
    }
}

/// Tests what a line's value says of a plane.
fn test_value(alloc: Global, plane: &Plane, value: &Value) -> Result<Figures> {
    let shape = shape_of(alloc, value).context("a line without a shape")?;
    let prices = prices_of(alloc, value).context("a line without prices")?;
    test_shape(plane, &shape, &prices)?;
    let points = points_of(alloc, value).context("a line without points")?;
    let drawing = test_points(alloc, plane, &shape, points)?;
    Ok(figures_of(plane, &shape, drawing.points()))
}

/// Tests that points draw a shape.
fn test_points(alloc: Global, plane: &Plane, shape: &Shape, points: Points) -> Result<Drawing>
    requires { IsShape plane.now shape.now }
{
    let whole = points.vertex_count() == usize::from(plane.graph().vertices())
        && points.edge_count() == usize::from(plane.graph().edges());
    ensure!(
        whole,
        "not a point for each vertex and corners for each edge"
    );
    check(alloc, plane, shape, points)
        .ok()
        .context("no drawing")
}

/// The shape that a line gives, if any; likewise below.
fn shape_of(alloc: Global, value: &Value) -> Option<Shape> {
    let angles = angles_of(alloc, value.get("angles")?)?;
    let strings = strings_of(alloc, value.get("turns")?)?;
    if Shape::have_few_turns(&strings) {
        Some(Shape::new(angles, strings))
    } else {
        None
    }
}

/// The angles that a line gives.
fn angles_of(alloc: Global, value: &Value) -> Option<Vec<u8>> {
    let mut angles = Vec::new(alloc);
    for angle in value.as_array()? {
        angles.push(u8::try_from(angle.as_u64()?).ok()?).ok()?;
    }
    Some(angles)
}

/// The strings of turns that a line gives.
fn strings_of(alloc: Global, value: &Value) -> Option<Vec<Vec<Turn>>> {
    let mut strings = Vec::new(alloc);
    for turns in value.as_array()? {
        strings.push(turns_of(alloc, turns.as_str()?)?).ok()?;
    }
    Some(strings)
}

/// The prices that a line gives.
fn prices_of(alloc: Global, value: &Value) -> Option<Prices> {
    let prices = value.get("prices")?;
    let vertices = numbers(alloc, prices.get("vertices")?)?;
    Some(Prices::new(vertices, numbers(alloc, prices.get("faces")?)?))
}

/// The turns that a text of L and R gives.
fn turns_of(alloc: Global, text: &str) -> Option<Vec<Turn>> {
    let mut turns = Vec::new(alloc);
    for letter in text.as_bytes() {
        turns.push(turn_of(*letter)?).ok()?;
    }
    Some(turns)
}

/// The turn that a letter stands for.
fn turn_of(letter: u8) -> Option<Turn> {
    match letter {
        b'L' => Some(Turn::Left),
        b'R' => Some(Turn::Right),
        _ => None,
    }
}

/// The points that a line gives.
fn points_of(alloc: Global, value: &Value) -> Option<Points> {
    let points = value.get("points")?;
    let mut corners = Vec::new(alloc);
    for edge in points.get("corners")?.as_array()? {
        corners.push(point_list(alloc, edge)?).ok()?;
    }
    Some(Points::new(point_list(alloc, points.get("vertices")?)?, corners))
}

/// A list of points, each of two numbers.
fn point_list(alloc: Global, value: &Value) -> Option<Vec<Point>> {
    let mut points = Vec::new(alloc);
    for pair in value.as_array()? {
        points.push(point_of(pair)?).ok()?;
    }
    Some(points)
}

/// The point that a pair of whole numbers is.
fn point_of(pair: &Value) -> Option<Point> {
    match pair.as_array()?.as_slice() {
        [x, y] => Some(Point {
            x: coordinate(x)?,
            y: coordinate(y)?,
        }),
        _ => None,
    }
}

/// A coordinate: a whole number of 32 bits.
fn coordinate(value: &Value) -> Option<u32> {
    u32::try_from(value.as_u64()?).ok()
}

/// A list of whole numbers.
fn numbers(alloc: Global, value: &Value) -> Option<Vec<i32>> {
    let mut numbers = Vec::new(alloc);
    for number in value.as_array()? {
        numbers.push(i32::try_from(number.as_i64()?).ok()?).ok()?;
    }
    Some(numbers)
}
