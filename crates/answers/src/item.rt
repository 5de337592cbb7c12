//! Records on their way through a lane: what is to be done with each, what the stages make of it, what is carried of it
//! once its graph is read, and what the lanes of a run give for it.
ghost use Rattle.std.specs.Prelude.{⊤, ◌≡◌, ℕ, List};
ghost use Rattle.planar_code.specs.Stream.{lists_of};
ghost use Rattle.lanes.specs.Notes.{About};
ghost use Rattle.answers.specs.Steps.{IsEmbedded, IsShaped};
ghost use Rattle.answers.specs.Spelt.{IsSpelt};
ghost use Rattle.answers.specs.Tasks.{about_in};
ghost use Rattle.streams.specs.declared.frames.Mark.{Mark};

use crate::drawing::DrawScratch;
use crate::holder::Holder;
use crate::shaped_plane::ShapedPlane;
use crate::stages::answer_with;
use common::{Choice, DrawingKind};
use embedding::ReadFault;
use faces::Plane;
use lanes::Numbered;
use ortho_rep::Points;
use planar_code::Record;
use reports::Entry;
use std::alloc::Global;
use std::snapshot::Snapshot;
use streams::SourceEnd;

/// The identity of a record of a run, and how it is to be answered.
#[derive(Clone, Copy, Debug)]
pub struct Task {
    /// The file, from 0.
    pub file: u32,
    /// The record's place in its file, from 0.
    pub ordinal: u32,
    /// How the outer face of its plane is chosen.
    pub choice: Choice,
    /// Which drawing is made of it.
    pub drawing_kind: DrawingKind,
}

/// What the stages have made of a record so far.
pub trait State: Drop + Send {
    /// It was made of this record.
    ghost describes: { About → Self → Type 0 };
}

/// Nothing yet.
impl State for () {
    ghost describes = { λ _ _. ⊤ };
}

/// The record's plane, or the reason why there is none.
pub type Traced = Result<Holder<Plane>, ReadFault>;

impl State for Traced {
    ghost describes = { λ about plane. IsEmbedded (lists_of about.bytes) plane };
}

/// The record's plane with a least shape, or the reason why there is none.
pub type ShapeFound = Result<Holder<ShapedPlane>, ReadFault>;

impl State for ShapeFound {
    ghost describes = { λ about shaped_plane. IsShaped about.choice (lists_of about.bytes) shaped_plane };
}

/// The record's plane with a least shape and points that draw it, or the reason why there are none.
pub type PointsFound = Result<(ShapedPlane, Points), ReadFault>;

/// What a lane keeps of a record once its graph is read: the record itself, or nothing.
pub trait Carried: Drop + Send {
    /// The record's bytes.
    ghost bytes: { Self → List ℕ };

    /// Consumes a record and returns what is carried of it once its graph is read: the record, or nothing but its bytes
    /// for proofs.
    fn carried(rec: Record) -> Self
        ensures { bytes result ≡ rec };
}

impl Carried for Record {
    ghost bytes = { λ rec. rec };

    /// Returns the record itself.
    fn carried(rec: Record) -> Record {
        rec
    }
}

impl Carried for Snapshot<Record> {
    ghost bytes = { λ rec. rec.value };

    /// Drops the record and returns a snapshot of it, which holds its bytes for proofs and nothing at run time.
    fn carried(rec: Record) -> Snapshot<Record> {
        Snapshot::of(&rec)
    }
}

/// A record of a file between two stages of a lane.
///
/// It holds which record it is, what the run is for, what is carried of the record, and what was made of it so far.
/// Its type guarantees that it was made of this record.
#[derive(Drop)]
pub struct Item<P: Purpose, R: Carried, S: State> {
    pub task: Task,
    pub purpose: P,
    pub rec: R,
    pub state: S,
    pub ghost known: { ∥ P.accepts task.file task.ordinal (R.bytes rec) × IsSpelt (R.bytes rec) ∥₁ },
    pub ghost made: { ∥ S.describes (about_in task (R.bytes rec)) state ∥₁ },
}

impl<P: Purpose, R: Carried, S: State> Numbered for Item<P, R, S> {
    ghost about = { λ i. about_in i.task (R.bytes i.rec) };

    /// The number of the record's file, from 0.
    fn file(&self) -> u32 {
        self.task.file
    }

    /// The record's place in its file, from 0.
    fn ordinal(&self) -> u32 {
        self.task.ordinal
    }
}

/// The purpose of a run: what its lanes carry of each record, and what they give for it and for the end of a file.
pub trait Purpose: Drop + Send + Sync {
    /// What is carried of a record once its graph is read.
    type Carried: Carried;

    /// What a lane gives for a record.
    type Entry: Numbered;

    /// What is known of the end of a file besides its mark.
    type End: Drop + Send;

    // Which records it may be passed: of which file, and at which place there.
    ghost accepts: { ℕ → ℕ → List ℕ → Type 0 };

    // Which ends it may be passed: of which file, with how many records and which mark.
    ghost ends: { ℕ → ℕ → Mark → Type 0 };

    /// Returns the same purpose, for the item of one record.
    fn of_record(&self) -> Self
        ensures { result ≡ self.now };

    /// Returns what is known of this end of the file `file` besides its mark.
    fn end(file: u32, end: SourceEnd) -> Self::End
        requires { ends file end.count end.mark };

    /// Returns what a lane gives for a record, made from its shaped plane or from the fault in place of it. It may draw
    /// with the buffers of `scratch`, and give back to `scratch` lists that the result does not keep.
    fn finish(
        self,
        alloc: Global,
        scratch: &mut DrawScratch,
        task: Task,
        rec: Self::Carried,
        shaped_plane: Result<ShapedPlane, ReadFault>,
    ) -> Self::Entry
        requires known { ∥ accepts task.file task.ordinal (Self.Carried.bytes rec) × IsSpelt (Self.Carried.bytes rec) ∥₁ }
        requires shaped { ∥ IsShaped task.choice (lists_of (Self.Carried.bytes rec)) shaped_plane ∥₁ }
        ensures { Self.Entry.about result ≡ about_in task (Self.Carried.bytes rec) };
}

/// The `Purpose` of runs that return books: lanes give whole entries, with their records.
#[derive(Clone, Copy, Debug)]
pub struct KeepEntries;

impl Purpose for KeepEntries {
    type Carried = Record;

    type Entry = Entry;

    type End = ();

    ghost accepts = { λ _ _ _. ⊤ };

    ghost ends = { λ _ _ _. ⊤ };

    /// Returns `KeepEntries`.
    fn of_record(&self) -> KeepEntries {
        KeepEntries
    }

    /// Returns nothing: entries need no more of a file's end than its mark.
    fn end(_file: u32, _end: SourceEnd) {}

    /// Draws the shaped plane with the buffers of `scratch`, and returns the entry of the record: the record with its
    /// answer. The answer is `Refused` if the fault in place of the shaped plane is a rule, and `NoMemory` if memory
    /// ran out, here or before.
    fn finish(
        self,
        alloc: Global,
        scratch: &mut DrawScratch,
        task: Task,
        rec: Record,
        shaped_plane: Result<ShapedPlane, ReadFault>,
    ) -> Entry {
        Entry {
            file: task.file,
            ordinal: task.ordinal,
            rec,
            choice: task.choice,
            answer: answer_with(alloc, scratch, shaped_plane, task.drawing_kind),
        }
    }
}
