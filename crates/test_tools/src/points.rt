//! Points that are given by pairs of numbers.

use ortho_rep::{Point, Points};
use std::alloc::{AllocError, Global};

/// The x and y coordinates of a point.
pub type Place = (u32, u32);

/// Points at these places.
fn list_in(alloc: Global, places: &[Place]) -> Result<Vec<Point>, AllocError> {
    places
        .iter()
        .map(|p| Point { x: p.0, y: p.1 })
        .collect(alloc)
}

/// The `Points` with these coordinates of vertices and of the corners of each edge.
pub fn points_in(
    alloc: Global,
    vertices: &[Place],
    corners: &[&[Place]],
) -> Result<Points, AllocError> {
    let mut lists = Vec::new(alloc);
    for places in corners {
        lists.push(list_in(alloc, places)?)?;
    }
    Ok(Points::new(list_in(alloc, vertices)?, lists))
}
