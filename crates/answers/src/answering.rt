//! The lanes that answer the records of a run. The first stage after reading reads graphs and traces their faces, the
//! next one finds least shapes, and the last one draws them and makes what the lane gives.
ghost use Rattle.std.specs.Prelude.{◌≡◌};
ghost use Rattle.lanes.specs.Notes.{About};
ghost use Rattle.answers.specs.Spelt.{IsSpelt};

use crate::drawing::DrawScratch;
use crate::holder::{EmbedScratch, joined_scratch, put_in_holder, take_from_holder};
use crate::item::{Carried, Item, KeepEntries, Purpose, ShapeFound, Task, Traced};
use crate::shaping::{ShapeScratch, shape};
use crate::stages::embed;
use common::{Choice, DrawingKind};
use lanes::{LaneKind, LaneScratch, Numbered, Stage, Staged};
use planar_code::Record;
use std::alloc::{AllocError, Global};
use std::sync::Wait;
use streams::SourceEnd;

/// A record of a file that no stage has worked on yet.
pub type Framed<P = KeepEntries> = Item<P, Record, ()>;

impl<P: Purpose> Staged for Item<P, Record, ()> {
    type Next = Embedded<P>;

    type Scratch = EmbedScratch;

    const STAGE: Stage = Stage::Embed;

    /// A new, empty scratch for this stage, without queues on which buffers return. It allocates nothing.
    fn scratch(alloc: Global) -> EmbedScratch {
        EmbedScratch::empty(alloc)
    }

    /// If the next stage has sent back a holder, keeps it in `scratch` for the next plane, and moves the lists of the
    /// spent plane in it, if any, to `scratch`. It never waits.
    fn exchange<R: Wait>(rt: &R, scratch: &mut EmbedScratch) {
        scratch.restock(rt);
    }

    /// Reads the record's graph and traces its faces, and returns the item with its plane, or with the fault in place
    /// of it: the first rule that the record breaks, or else `Memory` if memory runs out. The work takes buffers and
    /// the holder out of `scratch`. The record stays in the item only if the purpose carries it.
    fn work(self, alloc: Global, scratch: &mut EmbedScratch) -> Embedded<P> {
        let plane = embed(alloc, &mut scratch.planes, &self.rec);
        Item {
            task: self.task,
            purpose: self.purpose,
            rec: P::Carried::carried(self.rec),
            state: put_in_holder(alloc, scratch.shell.take(), plane),
        }
    }
}

/// A record of a file with its plane, or the reason why it has none.
pub type Embedded<P = KeepEntries> = Item<P, <P as Purpose>::Carried, Traced>;

impl<P: Purpose> Staged for Item<P, <P as Purpose>::Carried, Traced> {
    type Next = Shaped<P>;

    type Scratch = ShapeScratch;

    const STAGE: Stage = Stage::Shape;

    /// A new, empty scratch for this stage, without queues on which buffers return. It allocates nothing.
    fn scratch(alloc: Global) -> ShapeScratch {
        ShapeScratch::empty(alloc)
    }

    /// If the next stage has sent back a holder, keeps it in `scratch` for the next shaped plane, with the lists in it;
    /// then sends the holder of the last plane, if `scratch` still has it, back to the stage before. It never waits.
    fn exchange<R: Wait>(rt: &R, scratch: &mut ShapeScratch) {
        scratch.restock(rt);
        scratch.send_back(rt);
    }

    /// Finds a shape of the plane with the fewest bends, and the directions of its darts, and returns the item with
    /// them, or with `Memory` in place of them if memory runs out; an item without a plane keeps its fault. The work
    /// uses the buffers of `scratch` and leaves the plane's holder there.
    fn work(self, alloc: Global, scratch: &mut ShapeScratch) -> Shaped<P> {
        let task = self.task;
        let plane = take_from_holder(self.state, &mut scratch.plane_shell);
        let shaped_plane = shape(alloc, scratch, plane, task.choice, task.drawing_kind);
        Item {
            task,
            purpose: self.purpose,
            rec: self.rec,
            state: put_in_holder(alloc, scratch.shell.take(), shaped_plane),
        }
    }
}

/// A record of a file and its plane with a least shape, or the reason why there is none.
pub type Shaped<P = KeepEntries> = Item<P, <P as Purpose>::Carried, ShapeFound>;

impl<P: Purpose> Staged for Item<P, <P as Purpose>::Carried, ShapeFound> {
    type Next = P::Entry;

    type Scratch = DrawScratch;

    const STAGE: Stage = Stage::Draw;

    /// A new, empty scratch for this stage, without queues on which buffers return. It allocates nothing.
    fn scratch(alloc: Global) -> DrawScratch {
        DrawScratch::empty(alloc)
    }

    /// Sends the holder of the last shaped plane, if `scratch` still has it, back to the stage before. It never waits.
    fn exchange<R: Wait>(rt: &R, scratch: &mut DrawScratch) {
        scratch.send_back(rt);
    }

    /// Returns what `Purpose::finish` makes of the record and its shaped plane, or of the fault in place of it. The
    /// holder of the shaped plane stays in `scratch`, whose buffers serve for a drawing if one is made.
    fn work(self, alloc: Global, scratch: &mut DrawScratch) -> P::Entry {
        let task = self.task;
        let shaped_plane = take_from_holder(self.state, &mut scratch.shell);
        self.purpose
            .finish(alloc, scratch, task, self.rec, shaped_plane)
    }
}

/// The `LaneKind` of lanes that answer records, for one purpose and with drawings of one kind.
#[derive(Drop)]
pub struct Answering<P: Drop> {
    pub purpose: P,
    pub drawing_kind: DrawingKind,
}

impl<P: Purpose> LaneKind for Answering<P> {
    type Framed = Framed<P>;

    type Embedded = Embedded<P>;

    type Shaped = Shaped<P>;

    type Entry = P::Entry;

    type End = P::End;

    ghost accepts = { P.accepts };

    ghost ends = { P.ends };

    /// The first item for `rec`, the record at place `ordinal` of the file `file`, to be answered with the outer face
    /// of `choice` and with this lane's kind of drawing.
    fn framed(&self, file: u32, ordinal: u32, rec: Record, choice: Choice) -> Framed<P>
        requires { P.accepts file ordinal rec }
        ensures about { ⟦<Framed<P> as Numbered>⟧.about result
            ≡ record { file = file; ordinal = ordinal; bytes = rec; choice = choice } }
        ensures purpose { result.purpose ≡ self.now.purpose }
        ensures drawing { result.task.drawing_kind ≡ self.now.drawing_kind }
    {
        lists_encode_record(&rec);
        Framed {
            task: Task {
                file,
                ordinal,
                choice,
                drawing_kind: self.drawing_kind,
            },
            purpose: self.purpose.of_record(),
            rec,
            state: (),
        }
    }

    /// Returns what the purpose knows of this end of the file `file` besides its mark.
    fn end(&self, file: u32, end: SourceEnd) -> P::End {
        P::end(file, end)
    }

    /// New scratches for the second, third and fourth stage of a lane whose links have room for `capacity` messages,
    /// joined by new queues on which holders return; `AllocError` if there is no memory for the queues.
    fn scratch(
        &self,
        alloc: Global,
        capacity: u32,
    ) -> Result<LaneScratch<EmbedScratch, ShapeScratch, DrawScratch>, AllocError> {
        joined_scratch(alloc, capacity)
    }
}

/// Theorem: the bytes of a record are the code of its lists. The call does nothing.
fn lists_encode_record(rec: &Record)
    ensures { IsSpelt rec.now }
{
    rec.bytes();
    rec.order();
}
