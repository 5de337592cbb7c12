//! How a plane gets its least shape and the directions of its darts.

ghost use Rattle.std.specs.Prelude.{◌≡◌, ℕ, List, IfOk};
ghost use Rattle.ortho_rep.specs.Prices.{IsProof};
ghost use Rattle.ortho_rep.specs.Representation.{IsShape, IsLeast};
ghost use Rattle.compact.specs.Monotone.{AreDirectionsOf};
ghost use Rattle.answers.specs.Steps.{IsEmbedded, IsShaped};
ghost use Rattle.common.specs.declared.parameters.Choice.{Choice};

use crate::holder::Shell;
use crate::shaped_plane::ShapedPlane;
use common::{Choice, DrawingKind};
use compact::{DirectionSearch, directions_in};
use embedding::ReadFault;
use faces::Plane;
use lanes::ReturnQueue;
use ortho_rep::{Shape, best_shape, least_shape_in};
use std::alloc::{AllocError, Global};
use std::mem;
use std::sync::Wait;
use straightening::straighten_in;

/// The buffers of the stage that finds shapes, reused for the next plane.
#[derive(Drop)]
pub struct ShapeScratch {
    pub(crate) shapes: ortho_rep::Scratch,
    straight: straightening::Scratch,
    search: DirectionSearch,
    // directions that are done with
    directions: Vec<u8>,
    // a plane that is done with, the holder of the plane that was taken last, and the holder of the next shaped plane
    plane: Option<Plane>,
    pub(crate) plane_shell: Option<Shell<Plane>>,
    pub(crate) shell: Option<Shell<ShapedPlane>>,
    pub(crate) return_queues: ReturnQueues,
}

/// The return queues of the stage that finds shapes: holders of planes go to the stage before, and holders of shaped
/// planes come from the next one.
#[derive(Drop)]
pub(crate) struct ReturnQueues {
    pub(crate) planes: ReturnQueue<Shell<Plane>>,
    pub(crate) shaped_planes: ReturnQueue<Shell<ShapedPlane>>,
}

impl ShapeScratch {
    /// An empty scratch, without queues on which buffers return. It allocates nothing.
    pub fn empty(alloc: Global) -> ShapeScratch {
        ShapeScratch {
            shapes: ortho_rep::Scratch::empty(alloc),
            straight: straightening::Scratch::new(),
            search: DirectionSearch::empty(alloc),
            directions: Vec::new(alloc),
            plane: None,
            plane_shell: None,
            shell: None,
            return_queues: ReturnQueues {
                planes: ReturnQueue::none(),
                shaped_planes: ReturnQueue::none(),
            },
        }
    }

    /// If a holder of a shaped plane has returned, keeps it for the next one, and takes over the lists of the spent
    /// shaped plane in it, if any; those kept here so far are dropped. It never waits; if none has returned, nothing
    /// changes.
    pub(crate) fn restock<R: Wait>(&mut self, rt: &R) {
        if let Some(mut shell) = self.return_queues.shaped_planes.receive(rt) {
            if let Some(spent) = shell.unload() {
                let ShapedPlane {
                    plane,
                    shape,
                    prices,
                    directions,
                    drawing_kind: _,
                } = spent;
                shape.give_back(&mut self.shapes);
                prices.give_back(&mut self.shapes);
                self.directions = directions;
                self.plane = Some(plane);
            }
            self.shell = Some(shell);
        }
    }

    /// Sends the holder of the last plane, if it is still here, back to the stage before, with the spent plane in it
    /// that is kept here, if there is one. It never waits; without a queue, or if the queue is full, the holder is
    /// dropped.
    pub(crate) fn send_back<R: Wait>(&mut self, rt: &R) {
        if let Some(mut shell) = self.plane_shell.take() {
            if let Some(plane) = self.plane.take() {
                shell.refill(plane);
            }
            self.return_queues.planes.send(rt, shell);
        }
    }
}

/// Returns the plane with the outer face of `choice` (with `First` the one that it has), a shape with the fewest bends
/// for this kind of drawing, prices that prove this, and the directions of its darts; a fault in place of the plane is
/// returned as it is. Works in `scratch`; `Memory` if memory runs out, and the plane is then dropped.
///
/// The directions of the darts are found here, and not where the shape is drawn, since drawing takes longest of all
/// stages.
///
/// # Errors
///
/// That of the plane; `Memory` if there is no memory for its shape, and the plane is dropped then.
pub(crate) fn shape(
    alloc: Global,
    scratch: &mut ShapeScratch,
    plane: Result<Plane, ReadFault>,
    choice: Choice,
    drawing_kind: DrawingKind,
) -> Result<ShapedPlane, ReadFault>
    ensures shaped { (g : List (List ℕ)) → IsEmbedded g plane → IsShaped choice g result }
    ensures kind { IfOk result (λ shaped_plane. shaped_plane.drawing_kind ≡ drawing_kind) }
    ensures least { IfOk result (λ shaped_plane. IsLeast shaped_plane.plane shaped_plane.shape
        × IsProof shaped_plane.plane shaped_plane.shape shaped_plane.prices) }
{
    let mut plane = plane?;
    let (shape, prices) = match choice {
        Choice::First => least_shape_in(alloc, &mut scratch.shapes, &plane)?,
        Choice::Best => best_shape(alloc, &mut plane)?,
    };
    // Only the proof needs this: `graph` says that the plane still is one.
    let _graph = plane.graph();
    let shape = match drawing_kind {
        DrawingKind::Quick => shape,
        DrawingKind::Short => {
            straighten_in(alloc, &mut scratch.straight, &plane, shape, &prices)?
        }
    };
    let directions = directions_of(alloc, scratch, &plane, &shape)?;
    Ok(ShapedPlane {
        plane,
        shape,
        prices,
        directions,
        drawing_kind,
    })
}

/// Returns, by dart, the direction in which it arrives at its head when the shape is drawn: 0 east, 1 north, 2 west, 3
/// south. Works in `directions` and `search` of `scratch`, and takes one list of theirs for the result; `AllocError` if
/// memory runs out, and both are then empty.
pub(crate) fn directions_of(
    alloc: Global,
    scratch: &mut ShapeScratch,
    plane: &Plane,
    shape: &Shape,
) -> Result<Vec<u8>, AllocError>
    requires { IsShape plane.now shape.now }
    ensures { IfOk result (λ directions. AreDirectionsOf plane.now shape.now directions.items) }
{
    let spare = mem::replace(&mut scratch.directions, Vec::new(alloc));
    let lent = mem::replace(&mut scratch.search, DirectionSearch::empty(alloc));
    let mut search = directions_in(plane, shape, lent)?;
    let directions = mem::replace(&mut search.directions, spare);
    scratch.search = search;
    Ok(directions)
}
