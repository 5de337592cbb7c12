//! Runs that pick records, and the chosen records on their way to a sink, in the order of files.
ghost use Rattle.std.specs.Prelude.{◌≡◌, ◌+◌, ◌<◌, ◌∷◌, ◌++◌, ℕ, List, [], Option, None, false, IfOk, OnOk, OnErr, slice_index_or, ◌≤◌, IfErr};
ghost use Rattle.common.specs.declared.parameters.Choice.{Choice};
ghost use Rattle.lanes.specs.Notes.{Note, Item, End};
ghost use Rattle.lanes.specs.Opening.{Meaning};
ghost use Rattle.lanes.specs.Files.{AreToldWhole};
ghost use Rattle.file_order.specs.declared.chunks.Waiting.{Waiting};
ghost use Rattle.file_order.specs.Writing.{TellsFailure, GivesUp, HasFailedBy};
ghost use Rattle.collector.specs.Arrived.{Arrived};
ghost use Rattle.collector.specs.Picked.{IsAllPicked, IsPickBegun};
ghost use Rattle.collector.specs.PicksHolding.{ArePicksOf, IsPartOfPicked, PicksHold, PicksPartly, PicksWrite, files_of, flaws_in, IsFlushed};
ghost use Rattle.std.proofs.Common.{refl, ◌∙◌};
ghost use Rattle.ruled_lanes.specs.declared.channel.TheConstants.{LANES};
ghost use Rattle.reports.specs.declared.book.TheConstants.{MAX_FILES};
ghost use Rattle.collector.specs.PicksStops.{held_stop};

use crate::find_facts::{Flaws, FoundFacts, add_flaw, fact_lane_kind, set_mark, unread_flaws};
use crate::texts::Texts;
use common::Choice;
use file_order::{FileOrder, KnownEnd, KnownFiles, Pace};
use graph_facts::Selection;
use lanes::{Consumer, Gate, Opener, Run, RunFault, run_lanes};
use planar_code::HEADER;
use std::alloc::{AllocError, Global};
use std::marker::Brand;
use std::sync::Wait;
use std::thread::Threads;
use streams::{Mark, Sink, SinkFault};

/// The chosen records of a run, which go to a sink file after file, after the header.
#[derive(Drop)]
pub struct Picks {
    selection: Selection,
    /// The rule by which the outer faces are chosen.
    choice: Choice,
    /// The records in transit and those that are buffered.
    pub(crate) order: FileOrder,
    /// What is lacking in each file so far. The mark of a file that has not ended is `memory`.
    flaws: Vec<Flaws>,
}

impl Picks {
    /// An empty reorder buffer for the records of `files` files that `selection` chooses under `choice`. The header
    /// waits in its fixed buffer to go to the sink before them; nothing is written yet. `AllocError` if there is no
    /// memory for the fixed buffer or for lists of this many files.
    ///
    /// # Errors
    ///
    /// `AllocError` if there is no memory to keep this many files.
    pub(crate) fn new(
        alloc: Global,
        selection: Selection,
        choice: Choice,
        files: u32,
    ) -> Result<Picks, AllocError>
        ensures held { IfOk result (λ picks. (meaning : ℕ → Meaning) (start : Option (List ℕ))
            → PicksHold meaning start start picks []) }
        ensures selection { IfOk result (λ picks. picks.selection ≡ selection) }
        ensures choice { IfOk result (λ picks. picks.choice ≡ choice) }
        ensures files { IfOk result (λ picks. files_of picks ≡ files) }
    {
        let order = FileOrder::new(alloc, files, HEADER.as_slice())?;
        let flaws = unread_flaws(alloc, files)?;
        Ok(Picks {
            selection,
            choice,
            order,
            flaws,
        })
    }

    /// Takes in the record `found`: counts a flaw if it has no facts; if chosen, sends it on to `sink`, or buffers it
    /// if its file is not current. `Refused` exactly if `sink` fails, `Memory` if there is no memory to buffer it;
    /// `LaneLost`, and nothing changes, if it is not the next of its file or its choice differs.
    ///
    /// # Errors
    ///
    /// `Refused` exactly if the sink has then failed; `Memory` if there was no memory for a record that has to be
    /// buffered; `LaneLost` if no lane gives such a message.
    pub(crate) fn item<S: Sink, J: KnownFiles>(
        &mut self,
        alloc: Global,
        sink: &mut S,
        found: FoundFacts<J>,
    ) -> Result<(), RunFault<SinkFault>>
        requires stands { S.failed sink.old ≡ false }
        requires even { flaws_in self.old ≡ files_of self.old }
        ensures held { OnOk result ((start : Option (List ℕ)) (ns : List Note) → PicksHold J.meaning start (S.taken sink.old) self.old ns
            → PicksHold J.meaning start (S.taken sink.new) self.new (ns ++ Item (record { file = found.file; ordinal = found.ordinal; bytes = found.rec; choice = found.choice }) ∷ [])) }
        ensures partial { OnErr result ((start : Option (List ℕ)) (ns : List Note) → PicksHold J.meaning start (S.taken sink.old) self.old ns
            → PicksPartly J.meaning start (S.taken sink.new) self.new) }
        ensures stands { TellsFailure (S.failed sink.new) result }
        ensures same { ArePicksOf self.old self.new }
    {
        let file = found.file;
        if found.choice != self.choice || !self.order.is_next(file, found.ordinal) {
            return Err(RunFault::LaneLost);
        }
        add_flaw(&mut self.flaws, file, found.ordinal, &found.facts)?;
        let selection = self.selection;
        self.order.add(alloc, sink, file, found.picked(&selection))
    }

    /// Takes in the end of file `file` with `mark`. If it is current, moves on to the first file that has not ended,
    /// and sends what is buffered of each file reached on to `sink`. `Refused` exactly if `sink` fails; `LaneLost`, and
    /// nothing changes, if the file has ended already, is not one to come, or `known` does not fit.
    ///
    /// # Errors
    ///
    /// `Refused` exactly if the sink has then failed; `LaneLost` if no lane gives such a message. There is no other
    /// error.
    pub(crate) fn end<S: Sink, J: KnownFiles>(
        &mut self,
        alloc: Global,
        sink: &mut S,
        file: u32,
        mark: Mark,
        known: KnownEnd<J>,
    ) -> Result<(), RunFault<SinkFault>>
        requires stands { S.failed sink.old ≡ false }
        requires even { flaws_in self.old ≡ files_of self.old }
        ensures held { OnOk result ((start : Option (List ℕ)) (ns : List Note) → PicksHold J.meaning start (S.taken sink.old) self.old ns
            → PicksHold J.meaning start (S.taken sink.new) self.new (ns ++ End file mark ∷ [])) }
        ensures partial { OnErr result ((start : Option (List ℕ)) (ns : List Note) → PicksHold J.meaning start (S.taken sink.old) self.old ns
            → PicksPartly J.meaning start (S.taken sink.new) self.new) }
        ensures stands { TellsFailure (S.failed sink.new) result }
        ensures same { ArePicksOf self.old self.new }
    {
        self.order.store_mark(file, mark, known)?;
        set_mark(&mut self.flaws, file, mark);
        self.advance(alloc, sink)
    }

    /// Writes the text in the fixed buffer to `sink`, drops records of files that are not current, and returns the
    /// flaws of each file, in order. `Refused` exactly if `sink` fails, which has then taken a prefix of that text.
    ///
    /// # Errors
    ///
    /// `Refused` exactly if the sink has then failed. There is no other error.
    pub(crate) fn finish<S: Sink>(mut self, sink: &mut S) -> Result<Vec<Flaws>, RunFault<SinkFault>>
        requires { S.failed sink.old ≡ false }
        ensures written { IfOk result (λ flaws. (start : Option (List ℕ)) (choice : Choice) (known meaning : ℕ → Meaning)
            (ns : List Note) → PicksHold known start (S.taken sink.old) self ns → AreToldWhole choice meaning (files_of self) ns
            → IsAllPicked self.selection choice meaning (files_of self) start (S.taken sink.new) flaws.items) }
        ensures partial { OnErr result ((meaning : ℕ → Meaning) (start : Option (List ℕ)) (ns : List Note)
            → PicksHold meaning start (S.taken sink.old) self ns → PicksPartly meaning start (S.taken sink.new) self) }
        ensures stands { TellsFailure (S.failed sink.new) result }
    {
        self.order.flush(sink)?;
        Ok(self.flaws)
    }

    /// While the current file has ended: moves on to the next file, and sends what is buffered of it on to `sink`
    /// through the fixed buffer. `Refused` exactly if `sink` fails, which has then taken a prefix of the text;
    /// `LaneLost` if the next index does not fit in 32 bits. The flaws stay as they are.
    fn advance<S: Sink>(&mut self, alloc: Global, sink: &mut S) -> Result<(), RunFault<SinkFault>>
        requires { S.failed sink.old ≡ false }
        ensures written { OnOk result ((start : Option (List ℕ)) (arrived : ℕ → Arrived)
            → PicksWrite start (S.taken sink.old) self.old arrived → PicksWrite start (S.taken sink.new) self.new arrived) }
        ensures partial { OnErr result ((start : Option (List ℕ)) (arrived : ℕ → Arrived)
            → PicksWrite start (S.taken sink.old) self.old arrived
            → IsPartOfPicked self.old.selection start (S.taken sink.new) (files_of self.old) arrived) }
        ensures unended { OnOk result ((other : Waiting) → self.new.order.current < files_of self.new
            → (slice_index_or self.new.order.waiting self.new.order.current other).mark ≡ None) }
        ensures stands { TellsFailure (S.failed sink.new) result }
        ensures flaws { self.new.flaws ≡ self.old.flaws }
        ensures same { ArePicksOf self.old self.new }
    {
        while self.order.current_end().is_some() {
            if self.order.go_on()? {
                self.order.drain(alloc, sink)?;
            }
        }
        Ok(())
    }
}

/// Runs lanes over the files of `run`; writes the header and the records that `selection` chooses to `sink`, in order,
/// and returns the flaws of each file. After an error `sink` has a prefix: `Refused` exactly if it fails, `Memory` if
/// memory for the run runs out, `LaneLost` if a link's end is gone or a message is wrong, `Thread` if no thread starts.
///
/// Each record is written as it is decided whether it is chosen: those of the first file that has not ended go to the
/// sink, and those of later files are buffered. If the buffered records hold `waiting` bytes of memory or more, the
/// reading of later files pauses until there is room again or they become first.
///
/// # Errors
///
/// `Refused` exactly if the sink has then failed. `Memory`: no memory for links, the fan, tickets, buffers, lists of
/// lanes or buffered records. `LaneLost`: an end of a link or of the fan was gone, or a message came that no lane
/// gives. `Thread`: a thread could not be started. In each case a prefix is written of what would be, if each file may
/// end `memory`.
pub fn pick_files<R: Threads + Wait + Sync, O: Opener, G: Gate, S: Sink>(
    run: &Run<'_, R, O, G>,
    selection: Selection,
    waiting: usize,
    sink: &mut S,
) -> Result<Vec<Flaws>, RunFault<SinkFault>>
    requires stands { S.failed sink.old ≡ false }
    requires few_files { run.now.files ≤ MAX_FILES }
    requires some { 0 < run.now.lanes }
    requires few { run.now.lanes ≤ LANES }
    ensures written { IfOk result (λ flaws. IsAllPicked selection run.now.choice (O.meaning run.now.opener.now) run.now.files
        (S.taken sink.old) (S.taken sink.new) flaws.items) }
    ensures begun { OnErr result ∥ IsPickBegun selection run.now.choice (O.meaning run.now.opener.now) run.now.files
        (S.taken sink.old) (S.taken sink.new) ∥₁ }
    ensures stands { OnOk result (S.failed sink.new ≡ false) }
    ensures failed { IfErr result (HasFailedBy (S.failed sink.new)) }
{
    let pace = Pace {
        pauses: run.pauses,
        most: waiting,
    };
    pick_known::<Brand, _, _, _, _>(run, selection, pace, sink)
}

/// Writes the header and the records that `selection` chooses to `sink`, in order, and pauses files by `pace`; returns
/// the flaws of each file. After an error `sink` has a prefix: `Refused` exactly if it fails, `Memory` if memory for
/// the run runs out, `LaneLost` if a link's end is gone or a message is wrong, `Thread` if no thread starts.
fn pick_known<J: KnownFiles + Send + Sync, R: Threads + Wait + Sync, O: Opener, G: Gate, S: Sink>(
    run: &Run<'_, R, O, G>,
    selection: Selection,
    pace: Pace<'_>,
    sink: &mut S,
) -> Result<Vec<Flaws>, RunFault<SinkFault>>
    requires stands { S.failed sink.old ≡ false }
    requires few_files { run.now.files ≤ MAX_FILES }
    requires some { 0 < run.now.lanes }
    requires few { run.now.lanes ≤ LANES }
    requires same_meaning { J.meaning ≡ O.meaning run.now.opener.now }
    ensures written { IfOk result (λ flaws. IsAllPicked selection run.now.choice (O.meaning run.now.opener.now) run.now.files
        (S.taken sink.old) (S.taken sink.new) flaws.items) }
    ensures begun { OnErr result ∥ IsPickBegun selection run.now.choice (O.meaning run.now.opener.now) run.now.files
        (S.taken sink.old) (S.taken sink.new) ∥₁ }
    ensures stands { OnOk result (S.failed sink.new ≡ false) }
    ensures failed { IfErr result (HasFailedBy (S.failed sink.new)) }
{
    let picks = Picks::new(run.alloc, selection, run.choice, run.files)?;
    let texts = Texts::new(run.alloc, sink, picks, pace);
    let lanes = fact_lane_kind::<J>();
    let mut ran = Ok(());
    let texts = run_lanes(run, &lanes, texts, &mut ran);
    match ran {
        Ok(()) => texts.finish(),
        Err(fault) => {
            let_go(texts);
            Err(fault)
        }
    }
}

impl<S: Sink> Texts<'_, S, Picks> {
    /// Writes the text in the fixed buffer to the sink, and returns the flaws of each file, in order: how it ended, and
    /// for how many records memory ran out. `Refused` exactly if the sink fails, which has then taken a prefix of that
    /// text.
    ///
    /// # Errors
    ///
    /// `Refused` exactly if the sink has then failed. There is no other error.
    fn finish(self) -> Result<Vec<Flaws>, RunFault<SinkFault>>
        requires { S.failed self.sink.now ≡ false }
        ensures written { IfOk result (λ flaws. (choice : Choice) (known meaning : ℕ → Meaning) (ns : List Note)
            → PicksHold known (S.taken self.entry.start.value) (S.taken self.entry.sink.now) self.entry.lines ns
            → AreToldWhole choice meaning (files_of self.entry.lines) ns
            → IsAllPicked self.entry.lines.selection choice meaning (files_of self.entry.lines)
            (S.taken self.entry.start.value) (S.taken self.exit.0.now) flaws.items) }
        ensures partial { OnErr result ((meaning : ℕ → Meaning) (ns : List Note)
            → PicksHold meaning (S.taken self.entry.start.value) (S.taken self.entry.sink.now) self.entry.lines ns
            → PicksPartly meaning (S.taken self.entry.start.value) (S.taken self.exit.0.now) self.entry.lines) }
        ensures stands { TellsFailure (S.failed self.exit.0.now) result }
    {
        self.lines.finish(self.sink)
    }
}

/// Drops `texts` with all text that it buffers, and writes nothing: its sink stays as it is.
fn let_go<S: Sink>(texts: Texts<'_, S, Picks>)
    ensures { texts.exit.0.now ≡ texts.entry.sink.now }
{
    let Texts { .. } = texts;
}

impl<S: Sink, J: KnownFiles + Send + Sync> Consumer<FoundFacts<J>, KnownEnd<J>>
    for Texts<'_, S, Picks> {
    type Refusal = SinkFault;

    ghost holds = { λ t ns. (S.failed t.sink.now ≡ false) × PicksHold J.meaning (S.taken t.start.value) (S.taken t.sink.now) t.lines ns };

    ghost stays = { λ a b. (a.sink.ghost_name ≡ b.sink.ghost_name) × (a.start.value ≡ b.start.value) × ArePicksOf a.lines b.lines };

    ghost gave_up = { λ t fault. GivesUp (S.failed t.sink.now) fault
        × PicksPartly J.meaning (S.taken t.start.value) (S.taken t.sink.now) t.lines };

    ghost passed_on = { λ t. IsFlushed t.lines };

    /// Takes in the record `item`: if chosen, it goes on to the sink, or is buffered if its file is not current; then
    /// pauses later files or lets them go on. `Refused` exactly if the sink fails, `Memory` if there is no memory to
    /// buffer it, `LaneLost` if it is not the next of its file or its choice differs. After an error no file is paused.
    fn item(&mut self, item: FoundFacts<J>) -> Result<(), RunFault<SinkFault>> {
        let taken = self.lines.item(self.alloc, self.sink, item);
        self.lines.order.keep_pace(&self.pace, taken.is_ok());
        taken
    }

    /// Takes in the end of file `file` with `mark`; if it is current, sends what is buffered of the next files on to
    /// the sink; then pauses later files or lets them go on. `Refused` exactly if the sink fails, `LaneLost` if the
    /// file has ended already, is not one to come or `known` does not fit. After an error no file is paused.
    fn end(
        &mut self,
        file: u32,
        mark: Mark,
        known: KnownEnd<J>,
    ) -> Result<(), RunFault<SinkFault>> {
        let taken = self.lines.end(self.alloc, self.sink, file, mark, known);
        self.lines.order.keep_pace(&self.pace, taken.is_ok());
        taken
    }

    /// Whether the fixed buffer is empty. Records that are buffered for files which are not current do not count.
    fn is_flushed(&self) -> bool {
        self.lines.order.is_flushed()
    }

    /// Writes the text in the fixed buffer to the sink, not the records buffered for later files; then pauses these
    /// files or lets them go on. `Refused` exactly if the sink fails, which has then taken a prefix of that text; no
    /// file is then paused.
    fn flush(&mut self) -> Result<(), RunFault<SinkFault>> {
        let flushed = self.lines.order.flush(self.sink);
        self.lines.order.keep_pace(&self.pace, flushed.is_ok());
        flushed
    }

    ghost holds_on = { λ t ns held. (held.0, held_stop _ _ _ _ _ held.1) };

    ghost stays_itself = { λ t. (refl, refl, record { selection = refl; choice = refl; files = refl }) };

    ghost stays_on = { λ a b c p q. (p.0 ∙ q.0, p.1 ∙ q.1, record { selection = q.2.selection ∙ p.2.selection; choice = q.2.choice ∙ p.2.choice; files = q.2.files ∙ p.2.files }) };
}
