//! Theorems about faces and their numbers, each as the contract of an empty function.

ghost use Rattle.std.specs.Prelude.{◌≡◌, ◌==◌, ◌<◌, ◌↔◌, ℕ, Bool, List, true};
ghost use Rattle.common.specs.Sums.{sum_below};
ghost use Rattle.embedding.specs.Darts.{dart_count, next_of, reverse_of};
ghost use Rattle.embedding.specs.Faces.{HasFaces};
ghost use Rattle.embedding.specs.Rules.{KeepsBefore};
ghost use Rattle.faces.specs.Faces.{IsFace, IsClosedUnder, steps};
ghost use Rattle.faces.specs.Planes.{HasEnds, IsPlane, PlaneModel, darts, degree, face_at, reverse_dart};

/// Theorem: faces partition the darts: the darts with each number are one face, and each face has a number.
pub fn faces_are_numbered()
    ensures { (n f : ℕ) (next face : ℕ → ℕ) → HasFaces n next face f
        → ((k : ℕ) → k < f → IsFace n next (λ d. face d == k))
        × ((s : ℕ → Bool) → IsFace n next s
        → (k : ℕ) × (k < f) × ((d : ℕ) → d < n → (s d ≡ true) ↔ (face d ≡ k))) }
{}

/// Theorem: the numbering of the darts by their faces is unique, and so is the number of faces.
pub fn numbering_is_unique()
    ensures { (n f g : ℕ) (next face other : ℕ → ℕ)
        → HasFaces n next face f → HasFaces n next other g
        → (f ≡ g) × ((d : ℕ) → d < n → face d ≡ other d) }
{}

/// Theorem: two darts are in the same face if and only if some number of steps by "next" leads from one to the other.
pub fn faces_are_orbits()
    ensures { (n f : ℕ) (next face : ℕ → ℕ) → HasFaces n next face f
        → ((d : ℕ) → d < n → next d < n)
        → (d e : ℕ) → d < n → e < n
        → (face d ≡ face e) ↔ ((k : ℕ) × (steps next k d ≡ e)) }
{}

/// Theorem: the degrees of all faces of a plane sum to the number of darts.
pub fn degrees_sum()
    ensures { (p : PlaneModel) → IsPlane p → sum_below p.faces (degree p) ≡ darts p }
{}

/// Theorem: any two darts of a connected graph are connected by "next" and "reverse".
///
/// A set of darts that is closed under "next" and under "reverse" and holds one dart holds them all.
pub fn darts_are_connected()
    ensures { (g : List (List ℕ)) → KeepsBefore g 8 → (s : ℕ → Bool)
        → IsClosedUnder (dart_count g) (next_of g) s → IsClosedUnder (dart_count g) (reverse_of g) s
        → (d e : ℕ) → d < dart_count g → e < dart_count g → s d ≡ true → s e ≡ true }
{}

/// Theorem: any two faces of a plane are connected in the dual graph.
///
/// A nonempty set of faces is all of them if, with the face of each dart, it contains the face across the dart.
pub fn faces_are_connected()
    ensures { (p : PlaneModel) → IsPlane p → (t : ℕ → Bool)
        → ((d : ℕ) → d < darts p → t (face_at p d) ≡ true → t (face_at p (reverse_dart p d)) ≡ true)
        → (k j : ℕ) → k < p.faces → j < p.faces → t k ≡ true → t j ≡ true }
{}

/// Theorem: the ends, reverses, next darts and faces of a plane's darts are in range.
pub fn planes_have_ends()
    ensures { (p : PlaneModel) → IsPlane p → HasEnds p }
{}
