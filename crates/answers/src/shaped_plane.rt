//! Planes with a shape.

ghost use Rattle.ortho_rep.specs.Representation.{IsShape};
ghost use Rattle.compact.specs.Monotone.{AreDirectionsOf};
ghost use Rattle.std.proofs.Props.{props};

use common::DrawingKind;
use faces::Plane;
use ortho_rep::{Prices, Shape};

/// A plane with an orthogonal representation, its prices, and the directions of its darts.
///
/// Of all representations, or of all that keep conditions, it has the fewest bends, as the prices prove: the calls of
/// `RecordScratch` that make it say so. The direction of a dart is that in which it arrives at its head there, in
/// quarter turns to the left from east.
#[derive(Drop)]
pub struct ShapedPlane {
    pub plane: Plane,
    pub shape: Shape,
    pub prices: Prices,
    pub directions: Vec<u8>,
    /// The kind of drawing that the shape is for.
    pub drawing_kind: DrawingKind,
    pub ghost shape_is: { IsShape plane shape } by { Prim.hlevel props },
    pub ghost directed: { AreDirectionsOf plane shape directions.items } by { Prim.hlevel props },
}
