//! Shapes and prices of short lists.

use crate::records::TRIANGLE;
use ortho_rep::{Prices, Shape, Turn};
use std::alloc::{AllocError, Global};

pub const L: Turn = Turn::Left;

pub const R: Turn = Turn::Right;

/// A record, the angles and strings of a shape, and prices.
#[derive(Clone, Copy)]
pub struct Case<'a> {
    pub record: &'a [u8],
    pub angles: &'a [u8],
    pub strings: &'a [&'a [Turn]],
    pub vertices: &'a [i32],
    pub faces: &'a [i32],
}

/// A triangle whose edge from 1 to 3 bends once.
pub const ONE_BEND: Case<'static> = Case {
    record: TRIANGLE,
    angles: &[3, 1, 3, 1, 3, 1],
    strings: &[&[], &[L], &[], &[], &[R], &[]],
    vertices: &[1, 1, 1],
    faces: &[1, 0],
};

/// Copies of these strings of turns.
pub fn strings_in(alloc: Global, strings: &[&[Turn]]) -> Result<Vec<Vec<Turn>>, AllocError> {
    let mut lists = Vec::new(alloc);
    for turns in strings {
        lists.push(turns.to_vec(alloc)?)?;
    }
    Ok(lists)
}

/// The shape with these angles and strings; `None` if the strings are too long or memory ran out.
pub fn shape_in(alloc: Global, angles: &[u8], strings: &[&[Turn]]) -> Option<Shape> {
    let strings = strings_in(alloc, strings).ok()?;
    let angles = angles.to_vec(alloc).ok()?;
    if Shape::have_few_turns(&strings) {
        Some(Shape::new(angles, strings))
    } else {
        None
    }
}

/// The prices of a case.
pub fn prices_in(alloc: Global, case: &Case<'_>) -> Result<Prices, AllocError> {
    let vertices = case.vertices.to_vec(alloc)?;
    Ok(Prices::new(vertices, case.faces.to_vec(alloc)?))
}
