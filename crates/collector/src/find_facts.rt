//! Runs whose lanes find what is known of graphs, what is found of each record, and what is lacking in what is known of
//! files.
ghost use Rattle.std.specs.Prelude.{◌≡◌, ◌≢◌, ◌↔◌, ◌⊎◌, ◌<◌, ℕ, All, None, IfErr, IfOk, IsTrue, OnOk, length, slice_index_or, [], if◌then◌else◌};
ghost use Rattle.collector.specs.Arrived.{flaws_with, none_arrived, book_so_far};
ghost use Rattle.collector.specs.FactBooks.{IsFlawless, flaws_of};
ghost use Rattle.std.proofs.Props.{props};
ghost use Rattle.planar_code.specs.Stream.{lists_of};
ghost use Rattle.lanes.specs.Opening.{IsPlacedAt, IsEndAt};
ghost use Rattle.answers.specs.Spelt.{IsSpelt};
ghost use Rattle.graph_facts.specs.Conditions.{is_chosen};
ghost use Rattle.graph_facts.specs.Facts.{AreFacts};
ghost use Rattle.common.specs.declared.parameters.Choice.{Choice};
ghost use Rattle.answers.specs.Steps.{IsShaped};
ghost use Rattle.answers.specs.Tasks.{about_in};

use answers::{Answering, DrawScratch, Purpose, ShapedPlane, Task};
use common::{Choice, DrawingKind};
use embedding::ReadFault;
use file_order::{KnownEnd, KnownFiles, known_end};
use graph_facts::{Facts, Selection};
use lanes::{Numbered, RunFault};
use planar_code::{Ending, Record};
use std::alloc::{AllocError, Global};
use std::marker::PhantomData;
use streams::{Mark, SinkFault, SourceEnd};

/// How a file ended, and for how many of its records memory ran out.
#[derive(Clone, Copy, Debug)]
pub struct Flaws {
    /// How the file ended.
    pub mark: Mark,
    /// The number of its records for which memory ran out.
    pub unanswered: u32,
    /// The place in the file of the first of them, from 0; 0 if there is none.
    pub first: u32,
}

impl Flaws {
    /// Whether the file ended complete and memory ran out for none of its records.
    pub fn is_flawless(&self) -> bool
        ensures { IsTrue result ↔ IsFlawless self.now }
    {
        matches!(self.mark, Mark::Ended(Ending::Complete)) && self.unanswered == 0
    }

    /// Counts one more record for which memory ran out, and stores `place`, its place in the file, if it is the first
    /// of them. `LaneLost` if 2^32 - 1 are counted already; then nothing changes.
    fn add_unanswered(&mut self, place: u32) -> Result<(), RunFault<SinkFault>>
        ensures more { OnOk result (self.new ≡ flaws_with self.old place None) }
        ensures astray { IfErr result (λ fault. fault ≡ RunFault.LaneLost) }
    {
        let Some(more) = self.unanswered.checked_add(1) else {
            return Err(RunFault::LaneLost);
        };
        if self.unanswered == 0 {
            self.first = place;
        }
        self.unanswered = more;
        Ok(())
    }
}

/// The exit status for files with these `flaws`: 0 if each file is flawless or there are no files, and otherwise 3.
pub fn status_of_flaws(flaws: &[Flaws]) -> u8
    ensures flawless { (result ≡ 0) ↔ All IsFlawless flaws.now }
    ensures other { (result ≡ 0) ⊎ (result ≡ 3) }
{
    if flaws.iter().all(|each| each.is_flawless()) {
        0
    } else {
        3
    }
}

/// A new list with the flaws of each of `files` files, of which nothing has arrived: the mark `Memory`, as if memory
/// had run out for the file, and no record without an answer. `AllocError` if there is no memory for the list.
pub(crate) fn unread_flaws(alloc: Global, files: u32) -> Result<Vec<Flaws>, AllocError>
    ensures count { IfOk result (λ flaws. length flaws.items ≡ files) }
    ensures none { IfOk result (λ flaws. All (λ each. each ≡ flaws_of (book_so_far none_arrived)) flaws.items) }
{
    let mut flaws = Vec::with_capacity(alloc, files as usize)?;
    for _ in 0..files {
        flaws.push(Flaws {
            mark: Mark::Ended(Ending::Memory),
            unanswered: 0,
            first: 0,
        })?;
    }
    Ok(flaws)
}

/// Counts the record at `place` of file `file` in `flaws` as one for which memory ran out if `facts` is `None`;
/// otherwise changes nothing. `LaneLost` if 2^32 - 1 records of this file are counted already; `flaws` is then as it
/// was. `file` must be less than the length of `flaws`.
///
/// # Errors
///
/// `LaneLost` if there are too many to count.
pub(crate) fn add_flaw(
    flaws: &mut Vec<Flaws>,
    file: u32,
    place: u32,
    facts: &Option<Facts>,
) -> Result<(), RunFault<SinkFault>>
    requires { file < length flaws.old.items }
    ensures count { length flaws.new.items ≡ length flaws.old.items }
    ensures here { OnOk result ((other : Flaws) → slice_index_or flaws.new.items file other
        ≡ flaws_with (slice_index_or flaws.old.items file other) place facts.now) }
    ensures others { (k : ℕ) (other : Flaws) → k ≢ file
        → slice_index_or flaws.new.items k other ≡ slice_index_or flaws.old.items k other }
    ensures astray { IfErr result (λ fault. fault ≡ RunFault.LaneLost) }
{
    match facts {
        Some(_) => Ok(()),
        None => flaws[file as usize].add_unanswered(place),
    }
}

/// Sets the mark of file `file` in `flaws` to `mark`, whatever it was; its counts and all other files stay as they are.
/// `file` must be less than the length of `flaws`.
pub(crate) fn set_mark(flaws: &mut Vec<Flaws>, file: u32, mark: Mark)
    requires { file < length flaws.old.items }
    ensures count { length flaws.new.items ≡ length flaws.old.items }
    ensures here { (other : Flaws) → slice_index_or flaws.new.items file other
        ≡ record (slice_index_or flaws.old.items file other) { mark = mark } }
    ensures others { (k : ℕ) (other : Flaws) → k ≢ file
        → slice_index_or flaws.new.items k other ≡ slice_index_or flaws.old.items k other }
{
    flaws[file as usize].mark = mark;
}

/// A record of a file, and what is known of its graph.
///
/// The type guarantees that these are the facts of the record, and that it has its place in what the file means.
#[derive(Drop)]
pub struct FoundFacts<J: KnownFiles> {
    /// The index of the file, from 0.
    pub file: u32,
    /// The index of the record in its file, from 0.
    pub ordinal: u32,
    /// The rule by which the outer face of its plane is chosen.
    pub choice: Choice,
    pub rec: Record,
    /// What is known of its graph; `None` if memory ran out for it.
    pub facts: Option<Facts>,
    pub known_files: PhantomData<J>,
    pub ghost right: { ∥ AreFacts choice (lists_of rec) facts ∥₁ },
    pub ghost rec_is: { IsSpelt rec } by { Prim.hlevel props },
    pub ghost placed: { ∥ IsPlacedAt (J.meaning file) ordinal rec ∥₁ } by { Prim.hlevel props },
}

impl<J: KnownFiles + Send + Sync> Numbered for FoundFacts<J> {
    ghost about = { λ f. record { file = f.file; ordinal = f.ordinal; bytes = f.rec; choice = f.choice } };

    /// The index of the record's file, from 0.
    fn file(&self) -> u32 {
        self.file
    }

    /// The index of the record in its file, from 0.
    fn ordinal(&self) -> u32 {
        self.ordinal
    }
}

impl<J: KnownFiles> FoundFacts<J> {
    /// The bytes of the record if `selection` chooses it, and otherwise no bytes; no bytes also if its facts are
    /// `None`.
    pub(crate) fn picked(&self, selection: &Selection) -> &[u8]
        ensures { result.now ≡ (if is_chosen selection.now self.now.facts then self.now.rec else []) }
    {
        if selection.is_chosen(&self.facts) {
            self.rec.bytes()
        } else {
            &[]
        }
    }
}

/// The value that tells `run_lanes` to run lanes which find facts of graphs and draw nothing; its drawing kind is
/// `Quick`, and is not used. No lane is started.
pub(crate) fn fact_lane_kind<J: KnownFiles>() -> Answering<FindFacts<J>> {
    Answering {
        purpose: FindFacts {
            known_files: PhantomData,
        },
        drawing_kind: DrawingKind::Quick,
    }
}

/// The `Purpose` of runs whose lanes give the facts of graphs, with their records.
///
/// The type guarantees that records have their places in what their files mean.
#[derive(Drop)]
pub struct FindFacts<J: KnownFiles> {
    pub known_files: PhantomData<J>,
}

impl<J: KnownFiles + Send + Sync> Purpose for FindFacts<J> {
    type Carried = Record;

    type Entry = FoundFacts<J>;

    type End = KnownEnd<J>;

    ghost accepts = { λ file place bytes. IsPlacedAt (J.meaning file) place bytes };

    ghost ends = { λ file count mark. IsEndAt (J.meaning file) count mark };

    /// The same purpose, for one record: a new value of this type, which has no data.
    fn of_record(&self) -> FindFacts<J> {
        FindFacts {
            known_files: PhantomData,
        }
    }

    /// The `KnownEnd` of file `file`, with the number of records and the mark of `end`.
    fn end(file: u32, end: SourceEnd) -> KnownEnd<J> {
        known_end(file, end)
    }

    /// Returns the record `rec` of `task` with its facts, which are `None` if memory ran out for its shaped plane. The
    /// lists of `shaped_plane` then go to `scratch` for reuse, or are dropped if it has no holder for them; without a
    /// shaped plane `scratch` stays as it is.
    fn finish(
        self,
        _alloc: Global,
        scratch: &mut DrawScratch,
        task: Task,
        rec: Record,
        shaped_plane: Result<ShapedPlane, ReadFault>,
    ) -> FoundFacts<J>
        requires known { ∥ IsPlacedAt (J.meaning task.file) task.ordinal rec × IsSpelt rec ∥₁ }
        requires shaped { ∥ IsShaped task.choice (lists_of rec) shaped_plane ∥₁ }
        ensures about { ⟦<FoundFacts<J> as Numbered>⟧.about result ≡ about_in task rec }
    {
        let facts = facts_found(&rec, &shaped_plane);
        if let Ok(shaped_plane) = shaped_plane {
            scratch.take_back_shaped(shaped_plane);
        }
        FoundFacts {
            file: task.file,
            ordinal: task.ordinal,
            choice: task.choice,
            rec,
            facts,
            known_files: PhantomData,
        }
    }
}

/// The facts of `rec`: those of its shaped plane, or if it breaks a rule, those of a record that breaks this rule
/// first; `None` if `shaped_plane` is the fault that memory ran out.
fn facts_found(rec: &Record, shaped_plane: &Result<ShapedPlane, ReadFault>) -> Option<Facts>
    ensures { (choice : Choice) → IsShaped choice (lists_of rec.now) shaped_plane.now
        → AreFacts choice (lists_of rec.now) result }
{
    match shaped_plane {
        Ok(shaped_plane) => Some(Facts::of_shape(&shaped_plane.plane, &shaped_plane.shape)),
        Err(ReadFault::Rule(rule)) => Some(Facts::of_refused(rec, *rule)),
        Err(ReadFault::Memory) => None,
    }
}
