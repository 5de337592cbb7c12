//! A shape as a flow, whose units are moved, and breadth-first search (Moore 1959) for a path of reduced cost 0 from
//! one face to another, along which a unit moves.
ghost use Rattle.std.specs.Prelude.{◌≡◌, ◌<◌, ◌≤◌, IfOk, IsTrue, slice_index};
ghost use Rattle.faces.specs.Planes.{darts, head, face_at};
ghost use Rattle.ortho_rep.specs.declared.turn_strings.TheConstants.{MAX_REPEATS};
ghost use Rattle.ortho_rep.specs.Representation.{HasDarts};
ghost use Rattle.ortho_rep.specs.Prices.{HasPrices, vertex_price, face_price};
ghost use Rattle.faces.specs.declared.plane.TheConstants.{MAX_FACES};

use embedding::MAX_DARTS;
use faces::{MAX_FACES, Plane};
use ortho_rep::{DartShape, MAX_REPEATS, Prices, Shape, Turn, count_lefts};
use std::alloc::{AllocError, Global};

/// The angle of each dart, and how often it turns to the left: a corner arc carries its angle less one, and a unit
/// across an edge is a left turn. Once units were moved it may be no representation.
#[derive(Drop)]
pub(crate) struct ShapeFlow {
    angles: [u8; MAX_DARTS],
    lefts: [u16; MAX_DARTS],
}

impl ShapeFlow {
    /// The flow of no shape yet: all angles and numbers of turns are 0.
    pub(crate) fn new() -> ShapeFlow {
        ShapeFlow {
            angles: [0; MAX_DARTS],
            lefts: [0; MAX_DARTS],
        }
    }

    /// Copies the angle and the number of left turns, at most 65,535, of each dart from `shape` in place of those kept
    /// here.
    pub(crate) fn load(&mut self, plane: &Plane, shape: &Shape)
        requires { HasDarts plane.now shape.now }
    {
        for dart in 0..plane.graph().darts() {
            self.angles[usize::from(dart)] = shape.angle(dart);
            self.lefts[usize::from(dart)] = few_lefts(shape.turns(dart));
        }
    }

    /// The angle of `dart`, in right angles.
    pub(crate) fn angle(&self, dart: u16) -> u8
        requires { dart < MAX_DARTS }
        ensures { result ≡ slice_index self.now.angles dart }
    {
        self.angles[usize::from(dart)]
    }

    /// The number of left turns of `dart`, at most 65,535.
    pub(crate) fn left_turns(&self, dart: u16) -> u16
        requires { dart < MAX_DARTS }
        ensures { result ≡ slice_index self.now.lefts dart }
    {
        self.lefts[usize::from(dart)]
    }

    /// Moves a unit from the angle of dart `give` to that of dart `take`. If `take` is the reverse of `give`, it takes
    /// a left turn from `take` instead, or adds one to `give` if `take` has none. A number that cannot go lower or
    /// higher stays.
    pub(crate) fn send(&mut self, plane: &Plane, give: u16, take: u16)
        requires give { give < darts plane.now }
        requires take { take < darts plane.now }
    {
        let (from, to) = (usize::from(give), usize::from(take));
        if plane.graph().reverse(give) != take {
            self.angles[from] = self.angles[from].saturating_sub(1);
            self.angles[to] = self.angles[to].saturating_add(1);
        } else if self.lefts[to] > 0 {
            self.lefts[to] -= 1;
        } else {
            self.lefts[from] = self.lefts[from].saturating_add(1);
        }
    }

    /// Returns a new shape, which may be no representation, with these angles and turns, at most `MAX_REPEATS` a dart;
    /// `AllocError` if there is no memory for it. If both darts of an edge have left turns, each gets its own alone.
    ///
    /// # Errors
    ///
    /// `AllocError` if there is no memory for it.
    pub(crate) fn shape(&self, alloc: Global, plane: &Plane) -> Result<Shape, AllocError> {
        let darts = plane.graph().darts();
        let mut found = Vec::with_capacity(alloc, usize::from(darts))?;
        for dart in 0..darts {
            found.push(self.dart_shape(plane, dart))?;
        }
        Ok(Shape::of_darts(found))
    }

    /// The angle of `dart` and its turns, at most `MAX_REPEATS`: its left turns, or if it has none the left turns of
    /// its reverse as right turns.
    fn dart_shape(&self, plane: &Plane, dart: u16) -> DartShape
        requires { dart < darts plane.now }
        ensures { result.count ≤ MAX_REPEATS }
    {
        let reverse = plane.graph().reverse(dart);
        let lefts = self.left_turns(dart);
        let (turn, count) = if lefts > 0 {
            (Turn::Left, lefts)
        } else {
            (Turn::Right, self.left_turns(reverse))
        };
        DartShape {
            angle: self.angle(dart),
            turn,
            count: count.min(MAX_REPEATS as u16),
        }
    }
}

/// The dart that arrives next clockwise at the head of `dart`; `dart` itself if no other one arrives there.
pub(crate) fn clockwise(plane: &Plane, dart: u16) -> u16
    requires { dart < darts plane.now }
    ensures { result < darts plane.now }
{
    plane.graph().reverse(plane.next(dart))
}

/// Whether a unit may leave the angle of `dart`, or come to it, while the prices stay a proof: its vertex and its face
/// have the same price.
pub(crate) fn is_tight_angle(plane: &Plane, prices: &Prices, dart: u16) -> bool
    requires prices { HasPrices plane.now prices.now }
    requires within { dart < darts plane.now }
    ensures { IsTrue result → vertex_price prices.now (head plane.now dart) ≡ face_price prices.now (face_at plane.now dart) }
{
    prices.vertex(plane.graph().head(dart)) == prices.face(plane.face_of(dart))
}

/// The number of left turns in `turns`, but at most 65,535.
fn few_lefts(turns: &[Turn]) -> u16 {
    count_lefts(turns).min(usize::from(u16::MAX)) as u16
}

/// Stands for no dart.
const NO_DART: u16 = 65_535;

/// A path that is asked for: from the face of one dart to the face of another.
#[derive(Clone, Copy)]
pub(crate) struct PathEnds {
    pub(crate) from: u16,
    pub(crate) to: u16,
}

/// A step out of a face: the dart by which it leaves, the target of the path, and the price of the face.
#[derive(Clone, Copy)]
struct FaceStep {
    dart: u16,
    goal: u16,
    price: i32,
}

/// A breadth-first search over faces. A step leaves a face by one of its darts, and enters the next one by one of that
/// face's: by the reverse, across an edge, or by another dart that arrives at the same vertex.
#[derive(Drop)]
pub(crate) struct FaceSearch {
    // by face: where the last search that reached it was to lead, and the two darts of the step by which it did
    goals: [u16; MAX_FACES],
    gives: [u16; MAX_FACES],
    takes: [u16; MAX_FACES],
    // the darts by which faces were reached, in that order, followed by no dart
    queue: [u16; MAX_FACES],
    found: usize,
}

impl FaceSearch {
    /// A search that has reached nothing.
    pub(crate) fn new() -> FaceSearch {
        FaceSearch {
            goals: [NO_DART; MAX_FACES],
            gives: [NO_DART; MAX_FACES],
            takes: [NO_DART; MAX_FACES],
            queue: [NO_DART; MAX_FACES],
            found: 0,
        }
    }

    /// Marks all faces of `plane` as not reached, so that searches can begin in this plane.
    pub(crate) fn clear(&mut self, plane: &Plane) {
        for face in 0..plane.face_count() {
            self.goals[usize::from(face)] = NO_DART;
        }
    }

    /// Searches for a path from the face of `path.from` to that of `path.to` by steps of reduced cost 0, and returns
    /// whether there is one; its steps are kept for `send`. Between two calls of `clear`, no two searches may have the
    /// same `path.to`.
    pub(crate) fn find_path(
        &mut self,
        plane: &Plane,
        prices: &Prices,
        flow: &ShapeFlow,
        path: PathEnds,
    ) -> bool
        requires prices { HasPrices plane.now prices.now }
        requires from { path.from < darts plane.now }
        requires to { path.to < darts plane.now }
    {
        let darts = plane.graph().darts();
        let end = usize::from(plane.face_of(path.to));
        self.begin(plane, path);
        for place in 0..MAX_FACES {
            let entered = self.queue[place];
            if self.goals[end] == path.to || entered >= darts {
                break;
            }
            self.expand(plane, prices, flow, entered, path.to);
        }
        self.goals[end] == path.to
    }

    /// Begins a search: marks the face of `path.from` as reached, and queues that dart alone; the queue of the last
    /// search is emptied.
    fn begin(&mut self, plane: &Plane, path: PathEnds)
        requires { path.from < darts plane.now }
    {
        // Only the proof needs this: `graph` says that there are few faces.
        let _graph = plane.graph();
        let start = usize::from(plane.face_of(path.from));
        self.goals[start] = path.to;
        self.gives[start] = NO_DART;
        self.queue[0] = path.from;
        self.queue[1] = NO_DART;
        self.found = 1;
    }

    /// Takes each allowed step out of the face of dart `first`, in the search for dart `goal`: the faces entered are
    /// marked as reached, and queued, except those that this search has reached already.
    fn expand(&mut self, plane: &Plane, prices: &Prices, flow: &ShapeFlow, first: u16, goal: u16)
        requires prices { HasPrices plane.now prices.now }
        requires first { first < darts plane.now }
    {
        let face = plane.face_of(first);
        let price = prices.face(face);
        let mut dart = first;
        for _step in 0..plane.degree(face) {
            let step = FaceStep { dart, goal, price };
            self.step_across_edge(plane, prices, flow, step);
            self.step_at_vertex(plane, prices, flow, step);
            dart = plane.next(dart);
        }
    }

    /// Takes the step across the edge of `step.dart`, if its reduced cost is 0: the face on the other side is marked as
    /// reached, and queued, unless this search has reached it already.
    fn step_across_edge(&mut self, plane: &Plane, prices: &Prices, flow: &ShapeFlow, step: FaceStep)
        requires prices { HasPrices plane.now prices.now }
        requires dart { step.dart < darts plane.now }
    {
        let reverse = plane.graph().reverse(step.dart);
        let across = prices.face(plane.face_of(reverse));
        if flow.left_turns(reverse) > 0 || i64::from(step.price) + 1 == i64::from(across) {
            self.reach(plane, step, reverse);
        }
    }

    /// Takes each step from the angle of `step.dart` to others at the same vertex, if both are tight and no vertex of
    /// degree 2 begins to turn: the faces there are marked as reached, and queued, unless this search has reached them
    /// already.
    fn step_at_vertex(&mut self, plane: &Plane, prices: &Prices, flow: &ShapeFlow, step: FaceStep)
        requires prices { HasPrices plane.now prices.now }
        requires dart { step.dart < darts plane.now }
    {
        let graph = plane.graph();
        // An angle of 4 is that of a leaf, and one of 1 has nothing to give.
        let angle = flow.angle(step.dart);
        if angle != 2 && angle != 3 || prices.vertex(graph.head(step.dart)) != step.price {
            return;
        }
        let second = clockwise(plane, step.dart);
        let third = clockwise(plane, second);
        if angle == 2 && third == step.dart {
            return;
        }
        self.step_to_angle(plane, prices, step, second);
        self.step_to_angle(plane, prices, step, third);
    }

    /// Takes the step from the angle of `step.dart` to that of dart `take`, if that is another dart and its angle is
    /// tight: its face is marked as reached, and queued, unless this search has reached it already.
    fn step_to_angle(&mut self, plane: &Plane, prices: &Prices, step: FaceStep, take: u16)
        requires prices { HasPrices plane.now prices.now }
        requires take { take < darts plane.now }
    {
        if take != step.dart && is_tight_angle(plane, prices, take) {
            self.reach(plane, step, take);
        }
    }

    /// Marks the face of dart `take` as reached by `step`, and queues `take`; nothing changes if this search has
    /// reached the face already.
    fn reach(&mut self, plane: &Plane, step: FaceStep, take: u16)
        requires { take < darts plane.now }
    {
        // Only the proof needs this: `graph` says that there are few faces.
        let _graph = plane.graph();
        let face = usize::from(plane.face_of(take));
        // Each face is reached once, so there is always room.
        if self.goals[face] == step.goal || self.found >= MAX_FACES {
            return;
        }
        self.goals[face] = step.goal;
        self.gives[face] = step.dart;
        self.takes[face] = take;
        self.queue[self.found] = take;
        self.found += 1;
        if self.found < MAX_FACES {
            self.queue[self.found] = NO_DART;
        }
    }

    /// Moves a unit in `flow` along `path`, which must be the path that the last call of `find_path` found.
    pub(crate) fn send(&self, plane: &Plane, flow: &mut ShapeFlow, path: PathEnds)
        requires { path.to < darts plane.now }
    {
        let darts = plane.graph().darts();
        let mut entered = path.to;
        for _step in 0..MAX_FACES {
            let face = usize::from(plane.face_of(entered));
            let (give, take) = (self.gives[face], self.takes[face]);
            // No step leads to the first face.
            if give >= darts || take >= darts {
                return;
            }
            flow.send(plane, give, take);
            entered = give;
        }
    }
}
