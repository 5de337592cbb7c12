//! Files, and the records and planes of their graphs.

use anyhow::{Context, Result, bail};
use embedding::Graph;
use faces::{Plane, TraceFault};
use planar_code::{Framer, Record};
use std::alloc::Global;
use std::fs;
use std::rt::Files;

/// The bytes of a file.
pub fn read_file<R: Files + AllocGlobal>(rt: &R, name: &str) -> Result<Vec<u8>> {
    fs::read(rt, name).context(format_args!("{name}"))
}

/// The records of a file.
pub fn records_of<R: Files + AllocGlobal>(rt: &R, name: &str) -> Result<Vec<Record>> {
    let bytes = read_file(rt, name)?;
    let mut framer = Framer::new(rt.alloc())?;
    let mut records = Vec::new(rt.alloc());
    match framer.feed(rt.alloc(), bytes.as_slice(), &mut records) {
        Ok(()) => Ok(records),
        Err(_) => bail!("{name}: not the header and records"),
    }
}

/// The plane of a record of a plane graph.
pub fn plane_of(alloc: Global, record: &Record) -> Result<Plane> {
    let Ok(graph) = Graph::read(alloc, record) else {
        bail!("a graph was refused");
    };
    match Plane::trace(alloc, graph) {
        Ok(plane) => Ok(plane),
        Err(TraceFault::Genus(_) | TraceFault::Memory(_)) => bail!("a graph was refused"),
    }
}
