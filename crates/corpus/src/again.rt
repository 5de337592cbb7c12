//! Graphs through the calls of each layer; a call that runs out of memory is made again. All answers of the calls are
//! printed, so that runs can be compared.

ghost use Rattle.ortho_rep.specs.Representation.{IsShape};
ghost use Rattle.drawing_check.specs.Draws.{HasPoints};

use crate::files::read_file;
use crate::shapes::test_shape;
use anyhow::{Result, bail, ensure};
use compact::{CompactFault, compact};
use dissect::{Boxes, dissect};
use drawing_check::{CheckFault, Drawing, check};
use embedding::{Graph, ReadFault};
use faces::{Plane, TraceFault};
use ortho_rep::{Points, Prices, Shape, best_shape, least_shape};
use planar_code::{Ending, Record};
use std::alloc::{AllocError, Global};
use std::rt::Files;
use test_tools::split;

/// Takes each graph of these files through the calls of each layer, with either choice of the outer face, and prints
/// what they answer. A line on standard error names each call that is made again.
pub fn ask_again<R: Files + Print + Eprint + AllocGlobal>(rt: &R, names: &[String]) -> Result<()> {
    for name in names {
        let bytes = read_file(rt, name.as_str())?;
        println!(rt; "{name}")?;
        for record in &records_again(rt, bytes.as_slice())? {
            take(rt, record)?;
        }
    }
    Ok(())
}

/// Takes a record through the calls of each layer.
fn take<R: Print + Eprint + AllocGlobal>(rt: &R, record: &Record) -> Result<()> {
    let graph = graph_again(rt, record)?;
    let mut plane = plane_again(rt, graph)?;
    print_plane(rt, &plane)?;
    draw_least(rt, &plane)?;
    draw_best(rt, &mut plane)
}

/// Says that this call is made again.
fn tell<R: Eprint>(rt: &R, call: &str) -> Result<()> {
    eprintln!(rt; "{call} again")?;
    Ok(())
}

/// The records of a file; a call that runs out of memory is repeated once.
fn records_again<R: Eprint + AllocGlobal>(rt: &R, bytes: &[u8]) -> Result<Vec<Record>> {
    let (records, ending) = match split(rt.alloc(), bytes) {
        Ok(whole) => whole,
        Err(AllocError) => {
            tell(rt, "split")?;
            split(rt.alloc(), bytes)?
        }
    };
    ensure!(ending == Ending::Complete, "not the header and records");
    Ok(records)
}

/// The graph of a record, likewise.
fn graph_again<R: Eprint + AllocGlobal>(rt: &R, record: &Record) -> Result<Graph> {
    match Graph::read(rt.alloc(), record) {
        Ok(graph) => Ok(graph),
        Err(ReadFault::Memory) => {
            tell(rt, "read")?;
            Ok(Graph::read(rt.alloc(), record)?)
        }
        Err(ReadFault::Rule(rule)) => bail!("{}", rule.word()),
    }
}

/// The plane of a graph, likewise.
fn plane_again<R: Eprint + AllocGlobal>(rt: &R, graph: Graph) -> Result<Plane> {
    match Plane::trace(rt.alloc(), graph) {
        Ok(plane) => Ok(plane),
        Err(TraceFault::Memory(graph)) => {
            tell(rt, "trace")?;
            traced(rt.alloc(), graph)
        }
        Err(TraceFault::Genus(_)) => bail!("genus"),
    }
}

/// The plane of a graph that must have one.
fn traced(alloc: Global, graph: Graph) -> Result<Plane> {
    match Plane::trace(alloc, graph) {
        Ok(plane) => Ok(plane),
        Err(_) => bail!("no plane"),
    }
}

/// Prints where each vertex leads, and the face of each dart.
fn print_plane<R: Print>(rt: &R, plane: &Plane) -> Result<()> {
    let graph = plane.graph();
    for vertex in 1..=graph.vertices() {
        print!(rt; "{:?} ", graph.neighbours(vertex))?;
    }
    for dart in 0..graph.darts() {
        print!(rt; "{} ", plane.face_of(dart))?;
    }
    println!(rt; "outer {}", plane.outer())?;
    Ok(())
}

/// Lays the plane out with its own outer face.
fn draw_least<R: Print + Eprint + AllocGlobal>(rt: &R, plane: &Plane) -> Result<()> {
    let (shape, prices) = match least_shape(rt.alloc(), plane) {
        Ok(found) => found,
        Err(AllocError) => {
            tell(rt, "least_shape")?;
            least_shape(rt.alloc(), plane)?
        }
    };
    draw(rt, plane, &shape, &prices)
}

/// Lays the plane out with the best outer face.
fn draw_best<R: Print + Eprint + AllocGlobal>(rt: &R, plane: &mut Plane) -> Result<()> {
    let outer = plane.outer();
    let (shape, prices) = match best_shape(rt.alloc(), plane) {
        Ok(found) => found,
        Err(AllocError) => {
            tell(rt, "best_shape")?;
            ensure!(plane.outer() == outer, "another outer face");
            best_shape(rt.alloc(), plane)?
        }
    };
    println!(rt; "outer {}", plane.outer())?;
    draw(rt, plane, &shape, &prices)
}

/// Draws a shape, after both tests accepted it.
fn draw<R: Print + Eprint + AllocGlobal>(
    rt: &R,
    plane: &Plane,
    shape: &Shape,
    prices: &Prices,
) -> Result<()> {
    test_shape(plane, shape, prices)?;
    print_shape(rt, plane, shape)?;
    print_prices(rt, prices)?;
    let boxes = boxes_again(rt, plane, shape)?;
    print_boxes(rt, &boxes)?;
    let points = points_again(rt, &boxes)?;
    drop(boxes);
    ensure!(
        points.vertex_count() == usize::from(plane.graph().vertices())
            && points.edge_count() == usize::from(plane.graph().edges()),
        "points are missing"
    );
    print_points(rt, drawing_again(rt, plane, shape, points)?.points())
}

/// Prints the angle and the turns of each dart.
fn print_shape<R: Print>(rt: &R, plane: &Plane, shape: &Shape) -> Result<()>
    requires { IsShape plane.now shape.now }
{
    for dart in 0..plane.graph().darts() {
        print!(rt; "{} {:?} ", shape.angle(dart), shape.turns(dart))?;
    }
    println!(rt; "bends {}", shape.bends())?;
    Ok(())
}

/// Prints the prices of vertices and faces.
fn print_prices<R: Print>(rt: &R, prices: &Prices) -> Result<()> {
    println!(rt; "{prices:?}")?;
    Ok(())
}

/// The boxes of a shape; a call that runs out of memory is repeated once.
fn boxes_again<R: Eprint + AllocGlobal>(rt: &R, plane: &Plane, shape: &Shape) -> Result<Boxes>
    requires { IsShape plane.now shape.now }
{
    match dissect(rt.alloc(), plane, shape) {
        Ok(boxes) => Ok(boxes),
        Err(AllocError) => {
            tell(rt, "dissect")?;
            Ok(dissect(rt.alloc(), plane, shape)?)
        }
    }
}

/// Prints where each dart of the boxes leads, and in which direction.
fn print_boxes<R: Print>(rt: &R, boxes: &Boxes) -> Result<()> {
    for dart in 0..boxes.darts() {
        print!(rt; "{} {:?} ", boxes.head(dart), boxes.direction(dart))?;
    }
    println!(rt; "of {}", boxes.vertices())?;
    Ok(())
}

/// The points of boxes, likewise.
fn points_again<R: Eprint + AllocGlobal>(rt: &R, boxes: &Boxes) -> Result<Points> {
    match compact(rt.alloc(), boxes) {
        Ok(points) => Ok(points),
        Err(CompactFault::Memory) => {
            tell(rt, "compact")?;
            Ok(compact(rt.alloc(), boxes)?)
        }
        Err(CompactFault::Wide) => bail!("too wide"),
    }
}

/// The drawing of these points, which come back if the check runs out of memory.
fn drawing_again<R: Eprint + AllocGlobal>(
    rt: &R,
    plane: &Plane,
    shape: &Shape,
    points: Points,
) -> Result<Drawing>
    requires shape { IsShape plane.now shape.now }
    requires points { HasPoints plane.now points }
{
    match check(rt.alloc(), plane, shape, points) {
        Ok(drawing) => Ok(drawing),
        Err((CheckFault::Memory, points)) => {
            tell(rt, "check")?;
            drawn(rt.alloc(), plane, shape, points)
        }
        Err((fault, _)) => bail!("the points do not draw the shape: {fault}"),
    }
}

/// The drawing of points that must draw the shape.
fn drawn(alloc: Global, plane: &Plane, shape: &Shape, points: Points) -> Result<Drawing>
    requires shape { IsShape plane.now shape.now }
    requires points { HasPoints plane.now points }
{
    match check(alloc, plane, shape, points) {
        Ok(drawing) => Ok(drawing),
        Err((fault, _)) => bail!("the points do not draw the shape: {fault}"),
    }
}

/// Prints the points of vertices and corners.
fn print_points<R: Print>(rt: &R, points: &Points) -> Result<()> {
    println!(rt; "{points:?}")?;
    Ok(())
}
