//! Records, graphs and planes of bytes.

use embedding::{Graph, ReadFault};
use faces::Plane;
use planar_code::Record;
use std::alloc::Global;

/// Parses these bytes as one record; `None` if they are not one, or memory ran out.
pub fn record_of(alloc: Global, bytes: &[u8]) -> Option<Record> {
    Record::parse(alloc, bytes).ok()
}

/// Reads the graph of the record that these bytes are; `ReadFault::Memory` also if they are not one record.
pub fn read(alloc: Global, bytes: &[u8]) -> Result<Graph, ReadFault> {
    let record = record_of(alloc, bytes).ok_or(ReadFault::Memory)?;
    Graph::read(alloc, &record)
}

/// The plane of the record that these bytes are; `None` if they are not one of a plane, or memory ran out.
pub fn plane_in(alloc: Global, bytes: &[u8]) -> Option<Plane> {
    let graph = read(alloc, bytes).ok()?;
    Plane::trace(alloc, graph).ok()
}
