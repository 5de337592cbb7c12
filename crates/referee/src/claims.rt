//! What a program says of its drawing besides the points.

ghost use Rattle.std.specs.Prelude.{◌≡◌, ◌≤◌, ◌↔◌, length, IsTrue, IfNone, IfSome};
ghost use Rattle.embedding.specs.declared.graphs.TheConstants.{MAX_DARTS};
ghost use Rattle.ortho_rep.specs.Storage.{lists_in};
ghost use Rattle.ortho_rep.specs.Prices.{IsProof};
ghost use Rattle.ortho_rep.specs.Representation.{IsShape, IsLeast};
ghost use Rattle.referee.specs.Claims.{Hold, IsFirstFalse, HasAngles, HasTurns, HasBends};

use faces::Plane;
use ortho_rep::{Prices, Shape, Turn, certify};
use thiserror::Error;

/// Claims about a drawing, besides its points. `None` means that the claim is not made.
#[derive(Debug, Drop)]
pub struct Claims {
    /// The angle of each dart.
    pub angles: Option<Vec<u8>>,
    /// The turns of each dart.
    pub turns: Option<Vec<Vec<Turn>>>,
    /// Prices that prove the bends fewest.
    pub prices: Option<Prices>,
    /// The number of bends.
    pub bends: Option<u32>,
    /// The outer face.
    pub outer: Option<u16>,
}

/// The first claim that does not hold; the variants are in the order in which claims are tested.
#[derive(Clone, Copy, Debug, PartialEq, Eq, Error)]
pub enum FalseClaim {
    /// The angles are not those of the drawing.
    #[error("the claimed angles are not those of the drawing")]
    Angles,
    /// The turns are not those of the drawing.
    #[error("the claimed turns are not those of the drawing")]
    Turns,
    /// The prices do not prove that the drawing has the fewest bends.
    #[error("the claimed prices do not prove that the bends are fewest")]
    Prices,
    /// The drawing has another number of bends.
    #[error("the claimed number of bends is not that of the drawing")]
    Bends,
    /// The drawing has another outer face.
    #[error("the claimed outer face is not that of the drawing")]
    Outer,
}

/// The first claim, in the order of `FalseClaim`, that does not hold of this plane and shape; `None` if all hold.
///
/// If prices are claimed and all claims hold, the drawing has the fewest bends that its outer face allows.
pub fn false_claim(plane: &Plane, shape: &Shape, claims: &Claims) -> Option<FalseClaim>
    requires { IsShape plane.now shape.now }
    ensures hold { IfNone result (Hold plane.now shape.now claims.now) }
    ensures first { IfSome result (IsFirstFalse plane.now shape.now claims.now) }
    ensures fewest { IfNone result (IfSome claims.now.prices (λ _. IsLeast plane.now shape.now)) }
{
    // Only the proof needs this: `graph` says how many darts there are at most.
    let _graph = plane.graph();
    if !angles_hold(shape, &claims.angles) {
        return Some(FalseClaim::Angles);
    }
    if !turns_hold(shape, &claims.turns) {
        return Some(FalseClaim::Turns);
    }
    if !prices_hold(plane, shape, &claims.prices) {
        return Some(FalseClaim::Prices);
    }
    if !bends_hold(shape, claims.bends) {
        return Some(FalseClaim::Bends);
    }
    if !outer_holds(plane, claims.outer) {
        return Some(FalseClaim::Outer);
    }
    None
}

/// Whether the angles that are claimed are those of the shape; true if `claim` is `None`.
fn angles_hold(shape: &Shape, claim: &Option<Vec<u8>>) -> bool
    requires { length shape.now.angles ≤ MAX_DARTS }
    ensures { IsTrue result ↔ HasAngles shape.now claim.now }
{
    match claim {
        None => true,
        Some(angles) => are_angles(shape, angles),
    }
}

/// Whether `angles` are the shape's angles of all darts, in order; false if there are more or fewer.
fn are_angles(shape: &Shape, angles: &[u8]) -> bool
    requires { length shape.now.angles ≤ MAX_DARTS }
    ensures { IsTrue result ↔ (angles.now ≡ shape.now.angles) }
{
    if angles.len() != shape.angle_count() {
        return false;
    }
    for dart in 0..angles.len() {
        if angles[dart] != shape.angle(dart as u16) {
            return false;
        }
    }
    true
}

/// Whether the turns that are claimed are those of the shape; true if `claim` is `None`.
fn turns_hold(shape: &Shape, claim: &Option<Vec<Vec<Turn>>>) -> bool
    ensures { IsTrue result ↔ HasTurns shape.now claim.now }
{
    match claim {
        None => true,
        Some(strings) => are_turns(shape, strings),
    }
}

/// Whether `strings` are the shape's turns of all darts, in order; false if there are more or fewer.
fn are_turns(shape: &Shape, strings: &[Vec<Turn>]) -> bool
    ensures { IsTrue result ↔ (lists_in strings.now ≡ shape.now.strings) }
{
    if strings.len() != shape.string_count() {
        return false;
    }
    for dart in 0..strings.len() {
        if !same_turns(strings[dart].as_slice(), shape.turns(dart as u16)) {
            return false;
        }
    }
    true
}

/// Whether two strings have the same length and are equal, turn by turn.
fn same_turns(first: &[Turn], second: &[Turn]) -> bool
    ensures { IsTrue result ↔ (first.now ≡ second.now) }
{
    if first.len() != second.len() {
        return false;
    }
    for k in 0..first.len() {
        if first[k] != second[k] {
            return false;
        }
    }
    true
}

/// Whether the prices that are claimed prove that the shape has the fewest bends; true if `claim` is `None`.
fn prices_hold(plane: &Plane, shape: &Shape, claim: &Option<Prices>) -> bool
    requires { IsShape plane.now shape.now }
    ensures exact { IsTrue result ↔ IfSome claim.now (IsProof plane.now shape.now) }
    ensures least { IsTrue result → IfSome claim.now (λ _. IsLeast plane.now shape.now) }
{
    match claim {
        None => true,
        Some(prices) => certify(plane, shape, prices),
    }
}

/// Whether the number of bends that is claimed is that of the shape; true if `claim` is `None`.
fn bends_hold(shape: &Shape, claim: Option<u32>) -> bool
    ensures { IsTrue result ↔ HasBends shape.now claim }
{
    match claim {
        None => true,
        Some(bends) => bends == shape.bends(),
    }
}

/// Whether the outer face that is claimed is that of the plane; true if `claim` is `None`.
fn outer_holds(plane: &Plane, claim: Option<u16>) -> bool
    ensures { IsTrue result ↔ IfSome claim (λ outer. outer ≡ plane.now.outer) }
{
    match claim {
        None => true,
        Some(outer) => outer == plane.outer(),
    }
}
