//! The tests of a shape.

ghost use Rattle.std.specs.Prelude.{OnOk};
ghost use Rattle.ortho_rep.specs.Representation.{IsShape};

use anyhow::{Result, ensure};
use faces::Plane;
use ortho_rep::{Prices, Shape, certify, is_shape};

/// Tests that a shape is one of a plane, and that prices prove it least.
pub fn test_shape(plane: &Plane, shape: &Shape, prices: &Prices) -> Result<()>
    ensures { OnOk result (IsShape plane.now shape.now) }
{
    ensure!(is_shape(plane, shape), "no orthogonal representation");
    ensure!(certify(plane, shape, prices), "the prices prove nothing");
    Ok(())
}
