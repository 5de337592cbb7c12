//! The graphs of a file, up to their planes.

use crate::files::records_of;
use anyhow::{Result, bail};
use embedding::{Graph, ReadFault};
use faces::{Plane, TraceFault};
use planar_code::Record;
use std::rt::Files;

/// Prints a line for each graph of a file, as `planarbend layout` does without its bends, and one for its end.
pub fn tell_planes<R: Files + Print + AllocGlobal>(rt: &R, name: &str) -> Result<()> {
    let records = records_of(rt, name)?;
    println!(rt; "{name}")?;
    for (place, record) in records.iter().enumerate() {
        tell_plane(rt, place as u64 + 1, record)?;
    }
    let count = records.len();
    println!(rt; "end complete graphs={count}")?;
    Ok(())
}

/// Prints the line of a record: the sizes of its plane, or the rule that it breaks.
fn tell_plane<R: Print + AllocGlobal>(rt: &R, number: u64, record: &Record) -> Result<()> {
    let graph = match Graph::read(rt.alloc(), record) {
        Ok(graph) => graph,
        Err(ReadFault::Rule(rule)) => return tell_refused(rt, number, rule.word()),
        Err(ReadFault::Memory) => bail!("out of memory"),
    };
    match Plane::trace(rt.alloc(), graph) {
        Ok(plane) => tell_sizes(rt, number, &plane),
        Err(TraceFault::Genus(_)) => tell_refused(rt, number, "genus"),
        Err(TraceFault::Memory(_)) => bail!("out of memory"),
    }
}

/// Prints the rule that a graph breaks.
fn tell_refused<R: Print>(rt: &R, number: u64, rule: &str) -> Result<()> {
    println!(rt; "graph {number} refused {rule}")?;
    Ok(())
}

/// Prints the numbers of vertices, edges and faces of a plane.
fn tell_sizes<R: Print>(rt: &R, number: u64, plane: &Plane) -> Result<()> {
    let n = plane.graph().vertices();
    let m = plane.graph().edges();
    let f = plane.face_count();
    println!(rt; "graph {number} ok n={n} m={m} f={f}")?;
    Ok(())
}
