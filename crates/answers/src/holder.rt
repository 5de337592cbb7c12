//! Values in holders that go round, as from an object pool: once the value is taken out, the holder goes back. Also
//! what the stages of a lane take memory for and do not keep.
ghost use Rattle.std.specs.Prelude.{◌≡◌, true};
ghost use Rattle.answers.specs.Slots.{is_full};
ghost use Rattle.answers.specs.Held.{IsHeld};

use crate::drawing::DrawScratch;
use crate::shaping::{ReturnQueues, ShapeScratch};
use embedding::ReadFault;
use faces::Plane;
use lanes::{LaneScratch, MOST_IN_LISTS, ReturnQueue};
use std::alloc::{AllocError, Global};
use std::boxed::Box;
use std::marker::Model;
use std::mem;
use std::sync::Wait;

/// What a holder holds.
#[derive(Drop)]
enum Slot<T: Drop> {
    /// Nothing.
    Empty,
    /// A value that goes on to the next stage.
    Full(T),
    /// A spent value, whose lists go back.
    Spent(T),
}

/// An empty holder, in which lists that are no longer needed may return to an earlier stage.
#[derive(Drop)]
pub struct Shell<T: Drop> {
    slot: Box<Slot<T>>,
}

/// A boxed value. Once it is spent, its box returns its lists to an earlier stage. In contracts it is the value.
#[derive(Drop)]
pub struct Holder<T: Drop> {
    slot: Box<Slot<T>>,
    ghost full: { is_full slot.value ≡ true },
}

impl<T: Drop> Model for Holder<T> {
    ghost use Rattle.answers.specs.Slots.{value_in};

    ghost Value = { T };

    ghost view = { λ held. value_in held.slot.value held.full };
}

impl<T: Drop> Shell<T> {
    /// A new, empty shell, which allocates one box; `AllocError` if there is no memory for it.
    pub(crate) fn new(alloc: Global) -> Result<Shell<T>, AllocError> {
        Ok(Shell {
            slot: Box::new(alloc, Slot::Empty)?,
        })
    }

    /// Puts a spent value into this shell; a value that was in it is dropped.
    pub(crate) fn refill(&mut self, spent: T) {
        *self.slot = Slot::Spent(spent);
    }

    /// Takes the spent value out of this shell and returns it; `None` if there is none. The shell is then empty.
    pub(crate) fn unload(&mut self) -> Option<T> {
        match mem::replace(&mut *self.slot, Slot::Empty) {
            Slot::Spent(spent) => Some(spent),
            Slot::Empty | Slot::Full(_) => None,
        }
    }
}

/// Puts `value` into `shell`, or into a new one if that is `None`, and returns the holder; a fault in place of `value`
/// is returned as it is, and `shell` is dropped. `Memory` if there is no memory for a new shell; the value is then
/// dropped.
///
/// # Errors
///
/// `Memory` if there is no memory for a holder.
pub(crate) fn put_in_holder<T: Drop>(
    alloc: Global,
    shell: Option<Shell<T>>,
    value: Result<T, ReadFault>,
) -> Result<Holder<T>, ReadFault>
    ensures { IsHeld value result }
{
    let value = value?;
    let Shell { mut slot } = match shell {
        Some(shell) => shell,
        None => Shell::new(alloc)?,
    };
    *slot = Slot::Full(value);
    Ok(Holder { slot })
}

/// Takes a value out of its holder and returns it, and puts the emptied holder into `shell`, where one that was there
/// is dropped; a fault in place of the holder is returned as it is, and `shell` stays unchanged.
pub(crate) fn take_from_holder<T: Drop>(
    value: Result<Holder<T>, ReadFault>,
    shell: &mut Option<Shell<T>>,
) -> Result<T, ReadFault>
    ensures { result ≡ value }
{
    let Holder { mut slot } = value?;
    match mem::replace(&mut *slot, Slot::Empty) {
        Slot::Full(full) => {
            *shell = Some(Shell { slot });
            Ok(full)
        }
        Slot::Empty | Slot::Spent(_) => unreachable!(),
    }
}

/// The buffers of the stage that makes planes, reused for the next record.
#[derive(Drop)]
pub struct EmbedScratch {
    pub(crate) planes: faces::Scratch,
    // the holder of the next plane
    pub(crate) shell: Option<Shell<Plane>>,
    spent: ReturnQueue<Shell<Plane>>,
}

impl EmbedScratch {
    /// An empty scratch, without queues on which buffers return. It allocates nothing.
    pub fn empty(alloc: Global) -> EmbedScratch {
        EmbedScratch {
            planes: faces::Scratch::empty(alloc),
            shell: None,
            spent: ReturnQueue::none(),
        }
    }

    /// If a holder has returned, keeps it for the next plane, in place of one kept so far, and moves the lists of the
    /// spent plane in it, if any, to `planes`. It never waits; if none has returned, nothing changes.
    pub(crate) fn restock<R: Wait>(&mut self, rt: &R) {
        if let Some(mut shell) = self.spent.receive(rt) {
            if let Some(plane) = shell.unload() {
                plane.give_back(&mut self.planes);
            }
            self.shell = Some(shell);
        }
    }
}

/// New scratches of the stages that read, shape and draw, in a lane whose links have room for `capacity` messages, with
/// new queues on which each stage returns buffers to the one before; `AllocError` if there is no memory for the queues.
///
/// A holder is in transit in one link, alone or in a list, in use in a stage, or on its return.
///
/// # Errors
///
/// `AllocError` if there is no memory for the channels by which holders return.
pub(crate) fn joined_scratch(
    alloc: Global,
    capacity: u32,
) -> Result<LaneScratch<EmbedScratch, ShapeScratch, DrawScratch>, AllocError> {
    let room = capacity as usize + MOST_IN_LISTS + 3;
    let (planes, spent_planes) = ReturnQueue::new(alloc, room)?;
    let (shaped_planes, spent_shaped_planes) = ReturnQueue::new(alloc, room)?;
    let mut embed = EmbedScratch::empty(alloc);
    embed.spent = spent_planes;
    let mut shape = ShapeScratch::empty(alloc);
    shape.return_queues = ReturnQueues {
        planes,
        shaped_planes: spent_shaped_planes,
    };
    let mut draw = DrawScratch::empty(alloc);
    draw.back = shaped_planes;
    Ok(LaneScratch { embed, shape, draw })
}
