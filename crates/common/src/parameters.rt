//! What a layout depends on: the limit of vertices, the choice of the outer face, and the kind of drawing.

/// The maximum number of vertices of a graph.
pub const MAX_VERTICES: usize = 1_200;

/// The rule by which the outer face of a plane is chosen.
#[derive(Clone, Copy, Debug, Default, PartialEq, Eq)]
pub enum Choice {
    /// The face with the most darts; among faces of equal degree, the one that contains the least dart.
    #[default]
    First,
    /// The face that minimises bends; among equals, the one with the least number.
    Best,
}

/// Which of the two drawings of a plane to compute; both have the fewest bends.
#[derive(Clone, Copy, Debug, PartialEq, Eq)]
pub enum DrawingKind {
    /// The drawing that is quicker to compute.
    Quick,
    /// A drawing with shorter edges: few vertices of degree 2 turn, and it is compacted by visibility.
    Short,
}
