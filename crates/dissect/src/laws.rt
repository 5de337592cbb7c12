//! Laws of cuts, of directions, and of the paths of edges, each as the contract of a function that does nothing.
ghost use Rattle.std.specs.Prelude.{◌≡◌, ◌+◌, ℕ, List, ◌≢◌, ◌<◌, ◌≤◌, ◌⊎◌, ◌-◌, ◌%◌, ◌++◌, [], ◌∷◌, length};
ghost use Rattle.dissect.specs.Faces.{ReachesCorners, Distinct};
ghost use Rattle.dissect.specs.DartMaps.{IsCutUp, IsSound, DartMap, reflex_turns, IsTied, IsSubdivided, IsCut, no_dart};
ghost use Rattle.faces.specs.Planes.{IsPlane, PlaneModel};
ghost use Rattle.ortho_rep.specs.declared.turn_strings.Turn.{Turn};
ghost use Rattle.ortho_rep.specs.Representation.{Rep};
ghost use Rattle.dissect.specs.Directions.{AreDirections};
ghost use Rattle.dissect.specs.Paths.{HasPaths, IsConnected, IsPath, turn_to};
ghost use Rattle.dissect.specs.Surrounds.{IsEnclosed};

/// Theorem: cuts keep the map sound.
pub fn cuts_stay_sound()
    ensures { (w new : DartMap) → IsSound w → IsCutUp w new → IsSound new }
{}

/// Theorem: if in a sound map the walk on from each dart reaches a corner, it still does after cuts.
pub fn cuts_reach_corners()
    ensures { (w new : DartMap) → IsSound w → IsCutUp w new → ReachesCorners w → ReachesCorners new }
{}

/// Theorem: each cut adds one vertex and removes one right turn, so their sum stays the same.
pub fn cuts_use_right_turns()
    ensures { (w new : DartMap) → IsCutUp w new → new.vertices + reflex_turns new ≡ w.vertices + reflex_turns w }
{}

/// Theorem: for each orthogonal representation of a plane there are directions of its darts.
pub fn directions_exist()
    ensures { (p : PlaneModel) (a : ℕ → ℕ) (s : ℕ → List Turn) → IsPlane p → Rep p a s
        → (h : ℕ → ℕ) × AreDirections p a s h }
{}

/// Theorem: if no dart precedes another on an edge, each dart is the path of an edge without turns.
pub fn darts_are_paths()
    ensures { (w : DartMap) (n : ℕ) (reverse_dart : ℕ → ℕ) → w.darts ≡ n
        → ((a : ℕ) → a < n → w.before a ≡ no_dart)
        → ((a : ℕ) → a < n → w.reverse_dart a ≡ reverse_dart a)
        → HasPaths w n reverse_dart (λ _. []) }
{}

/// Theorem: a subdivision that does not turn keeps the turns of each edge.
pub fn subdivisions_keep_paths()
    ensures { (w : DartMap) (e way : ℕ) (new : DartMap) (n : ℕ) (reverse_dart : ℕ → ℕ) (quarters : ℕ → List ℕ)
        → IsTied w → e < w.darts → way < 4 → IsSubdivided w e way 2 new
        → HasPaths w n reverse_dart quarters → HasPaths new n reverse_dart quarters }
{}

/// Theorem: a subdivision that turns appends a turn to the edge of `e`, and changes no other edge.
///
/// The way back gets the opposite turn as its first.
pub fn bends_turn_paths()
    ensures { (w : DartMap) (e way left_angle : ℕ) (new : DartMap) (n : ℕ) (reverse_dart : ℕ → ℕ) (quarters turned : ℕ → List ℕ)
        → IsTied w → e < n → w.darts ≤ no_dart → way < 4 → (left_angle ≡ 1) ⊎ (left_angle ≡ 3) → IsSubdivided w e way left_angle new
        → ((d : ℕ) → d < n → reverse_dart d < n) → ((d : ℕ) → d < n → reverse_dart (reverse_dart d) ≡ d) → reverse_dart e ≢ e
        → turned e ≡ quarters e ++ (left_angle ∷ [])
        → turned (reverse_dart e) ≡ (4 - left_angle) ∷ quarters (reverse_dart e)
        → ((d : ℕ) → d < n → d ≢ e → d ≢ reverse_dart e → turned d ≡ quarters d)
        → HasPaths w n reverse_dart quarters → HasPaths new n reverse_dart turned }
{}

/// Theorem: cuts keep the turns of each edge.
pub fn cuts_keep_paths()
    ensures { (w new : DartMap) (n : ℕ) (reverse_dart : ℕ → ℕ) (quarters : ℕ → List ℕ) → IsSound w → IsCutUp w new
        → HasPaths w n reverse_dart quarters → HasPaths new n reverse_dart quarters }
{}

/// Theorem: a rectangle round the map, its bridge and the cuts after it keep the turns of each edge.
pub fn rectangles_keep_paths()
    ensures { (w : DartMap) (outer : ℕ) (new : DartMap) (n : ℕ) (reverse_dart : ℕ → ℕ) (quarters : ℕ → List ℕ) → IsSound w
        → IsEnclosed w outer new
        → HasPaths w n reverse_dart quarters → HasPaths new n reverse_dart quarters }
{}

/// Theorem: a subdivision of an edge leaves a connected map connected.
pub fn subdivisions_stay_connected()
    ensures { (w : DartMap) (e way left_angle : ℕ) (new : DartMap) → IsTied w → e < w.darts → IsSubdivided w e way left_angle new
        → IsConnected w → IsConnected new }
{}

/// Theorem: cuts leave a connected map connected.
pub fn cuts_stay_connected()
    ensures { (w new : DartMap) → IsSound w → IsCutUp w new → IsConnected w → IsConnected new }
{}

/// Theorem: enclosing a connected map in a rectangle, with a bridge and cuts, leaves it connected.
pub fn rectangles_stay_connected()
    ensures { (w : DartMap) (outer : ℕ) (new : DartMap) → IsSound w → IsEnclosed w outer new → IsConnected w → IsConnected new }
{}

/// Theorem: the path to a dart is unique, has no dart twice, and has no more darts than the map.
pub fn paths_are_unique()
    ensures { (w : DartMap) (end first : ℕ) (rest : List ℕ) → w.darts ≤ no_dart → IsPath w end first rest
        → (Distinct (first ∷ rest)) × (length rest < w.darts)
        × ((other : ℕ) (others : List ℕ) → IsPath w end other others → (first ≡ other) × (rest ≡ others)) }
{}

/// Theorem: from a dart to any other the direction changes by the turn between them; so it does from one dart of a path
/// to the next one.
pub fn paths_turn()
    ensures { (w : DartMap) (a b : ℕ) → IsSound w → a < w.darts → b < w.darts
        → w.direction b ≡ (w.direction a + turn_to w a b) % 4 }
{}
