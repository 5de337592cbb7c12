//! The lines of a run on their way to a sink, in the order of files; the text of a run and the sink that receives it.
ghost use Rattle.std.specs.Prelude.{◌≡◌, ◌+◌, ◌<◌, ◌≤◌, ◌≢◌, ◌↔◌, ◌∷◌, ◌++◌, ℕ, List, [], Option, None, Some, Err, true, false, IfOk, OnOk, IsTrue, slice_index_or, OnErr, ◌⊎◌, refl};
ghost use Rattle.streams.specs.declared.frames.Mark.{Mark};
ghost use Rattle.common.specs.declared.parameters.Choice.{Choice};
ghost use Rattle.lanes.specs.Notes.{Note, Item, End};
ghost use Rattle.lanes.specs.Opening.{Meaning};
ghost use Rattle.reports.specs.declared.answer.Entry.{Entry};
ghost use Rattle.reports.specs.declared.answer.Answer.{Answer};
ghost use Rattle.file_order.specs.declared.chunks.Waiting.{Waiting};
ghost use Rattle.collector.specs.Came.{Came, HasEntryMore};
ghost use Rattle.collector.specs.Written.{IsPartialText};
ghost use Rattle.file_order.specs.FileOrder.{HasEnd};
ghost use Rattle.file_order.specs.Writing.{TellsFailure, GivesUp};
ghost use Rattle.collector.specs.Holding.{form_of, choice_of, files_of, LinesWrite, LinesHold, ArePartialLines, ArePartialLinesAt, AreLinesOf, IsFlushed};
ghost use Rattle.collector.specs.Whole.{HaveFiles, IsAllWritten};
ghost use Rattle.std.proofs.Common.{◌∙◌};
ghost use Rattle.collector.specs.Stops.{held_stop};

use crate::lines::{end_text, out_of_memory_text, preamble_line};
use crate::print_lines::Printed;
use common::Choice;
use file_order::{FileOrder, KnownEnd, KnownFiles, Pace};
use lanes::{Consumer, RunFault};
use planar_code::Ending;
use reports::Form;
use std::alloc::{AllocError, Global};
use std::snapshot::Snapshot;
use streams::{Mark, Sink, SinkFault, SourceEnd, WriteFault};

/// The lines of a run, which go to a sink file after file.
#[derive(Drop)]
pub struct Lines {
    form: Form,
    /// The rule by which the outer faces are chosen.
    choice: Choice,
    /// The texts in transit and the buffered lines.
    pub(crate) order: FileOrder,
    /// Whether each entry so far has an answer and its line, and each file that has ended is complete.
    flawless: bool,
}

impl Lines {
    /// An empty reorder buffer for the lines of `files` files in format `form`, answered under `choice`. In a report
    /// the first line of the first file waits in its fixed buffer; nothing is written yet. `AllocError` if there is no
    /// memory for the fixed buffer or for a list of this many files.
    ///
    /// The lines are in this format, and their entries are answered under this choice of the outer face.
    ///
    /// # Errors
    ///
    /// `AllocError` if there is no memory to keep this many files.
    pub fn new(alloc: Global, form: Form, choice: Choice, files: u32) -> Result<Lines, AllocError>
        ensures held { IfOk result (λ lines. (meaning : ℕ → Meaning) (start : Option (List ℕ))
            → LinesHold meaning start start lines []) }
        ensures form { IfOk result (λ lines. form_of lines ≡ form) }
        ensures choice { IfOk result (λ lines. choice_of lines ≡ choice) }
        ensures files { IfOk result (λ lines. files_of lines ≡ files) }
    {
        let preamble = preamble_line(form, 0);
        let first = if files > 0 { preamble.as_slice() } else { &[] };
        let order = FileOrder::new(alloc, files, first)?;
        Ok(Lines {
            form,
            choice,
            order,
            flawless: true,
        })
    }

    /// Takes in the line of the entry `printed`, or if it has none, one saying that memory ran out: sends it on to
    /// `sink`, or buffers it if its file is not current. `Refused` exactly if `sink` fails, `Memory` if there is no
    /// memory for it; `LaneLost`, and nothing changes, if its place, format or choice is wrong.
    ///
    /// # Errors
    ///
    /// `Refused` exactly if the sink has then failed; `Memory` if there was no memory for a line that has to be
    /// buffered or that reports a lack of memory; `LaneLost` if no lane gives such a message.
    pub(crate) fn line<S: Sink, J: KnownFiles>(
        &mut self,
        alloc: Global,
        sink: &mut S,
        printed: Printed<J>,
    ) -> Result<(), RunFault<SinkFault>>
        requires { S.failed sink.old ≡ false }
        ensures held { OnOk result ((start : Option (List ℕ)) (ns : List Note) → LinesHold J.meaning start (S.taken sink.old) self.old ns
            → LinesHold J.meaning start (S.taken sink.new) self.new (ns ++ Item (record { file = printed.file; ordinal = printed.ordinal; bytes = printed.rec.value; choice = printed.choice }) ∷ [])) }
        ensures partial { OnErr result ((start : Option (List ℕ)) (ns : List Note) → LinesHold J.meaning start (S.taken sink.old) self.old ns
            → ArePartialLinesAt J.meaning start (S.taken sink.new) self.new ns (Item (record { file = printed.file; ordinal = printed.ordinal; bytes = printed.rec.value; choice = printed.choice }))) }
        ensures stands { TellsFailure (S.failed sink.new) result }
        ensures same { AreLinesOf self.old self.new }
    {
        let Printed {
            file,
            ordinal,
            choice,
            form,
            line,
            rec: _,
            found: _,
            known_files: _,
        } = printed;
        if form != self.form || choice != self.choice || !self.order.is_next(file, ordinal) {
            return Err(RunFault::LaneLost);
        }
        match line {
            Some(line) => self.order.add(alloc, sink, file, line.as_slice()),
            None => self.add_out_of_memory_line(alloc, sink, file, ordinal),
        }
    }

    /// Takes in the end of file `file` with `mark`; if it is current, sends its last line, and the text of each file up
    /// to the first that has not ended, on to `sink`. `Refused` exactly if `sink` fails, `Memory` if a last line lacks
    /// memory; `LaneLost`, and nothing changes, if the file has ended, is not to come, or `known` does not fit.
    ///
    /// # Errors
    ///
    /// `Refused` exactly if the sink has then failed; `Memory` if there was no memory for a line; `LaneLost` if no lane
    /// gives such a message.
    pub(crate) fn end<S: Sink, J: KnownFiles>(
        &mut self,
        alloc: Global,
        sink: &mut S,
        file: u32,
        mark: Mark,
        known: KnownEnd<J>,
    ) -> Result<(), RunFault<SinkFault>>
        requires { S.failed sink.old ≡ false }
        ensures held { OnOk result ((start : Option (List ℕ)) (ns : List Note) → LinesHold J.meaning start (S.taken sink.old) self.old ns
            → LinesHold J.meaning start (S.taken sink.new) self.new (ns ++ End file mark ∷ [])) }
        ensures partial { OnErr result ((start : Option (List ℕ)) (ns : List Note) → LinesHold J.meaning start (S.taken sink.old) self.old ns
            → ArePartialLinesAt J.meaning start (S.taken sink.new) self.new ns (End file mark)) }
        ensures stands { TellsFailure (S.failed sink.new) result }
        ensures same { AreLinesOf self.old self.new }
    {
        self.order.store_mark(file, mark, known)?;
        self.flawless = is_flawless_with(self.flawless, mark);
        self.advance(alloc, sink)
    }

    /// Writes the text in the fixed buffer to `sink`, and returns the exit status of the run: 0 if each file ended
    /// complete and each entry has an answer and its line, and otherwise 3. `Write` exactly if `sink` fails, which has
    /// then taken a prefix of that text. Lines of files that are not current are dropped.
    ///
    /// # Errors
    ///
    /// `Write` exactly if the sink has then failed. There is no other error.
    pub(crate) fn finish<S: Sink>(mut self, sink: &mut S) -> Result<u8, WriteFault>
        requires { S.failed sink.old ≡ false }
        ensures written { IfOk result (λ status. (start : Option (List ℕ)) (choice : Choice) (known meaning : ℕ → Meaning)
            (ns : List Note) → LinesHold known start (S.taken sink.old) self ns → HaveFiles choice meaning (files_of self) ns
            → IsAllWritten choice meaning (form_of self) (files_of self) start (S.taken sink.new) status) }
        ensures partial { OnErr result ((meaning : ℕ → Meaning) (start : Option (List ℕ)) (ns : List Note)
            → LinesHold meaning start (S.taken sink.old) self ns → ArePartialLines meaning start (S.taken sink.new) self ns) }
        ensures other { IfOk result (λ status. status ≢ 0 → status ≡ 3) }
        ensures write { (result ≡ Err WriteFault.Write) ↔ (S.failed sink.new ≡ true) }
        ensures memory { result ≢ Err WriteFault.Memory }
    {
        match self.order.flush(sink) {
            Ok(()) => Ok(if self.flawless { 0 } else { 3 }),
            Err(_) => Err(WriteFault::Write),
        }
    }

    /// Takes in a line saying that memory ran out for entry `ordinal` of file `file`: sends it on to `sink`, or buffers
    /// it if the file is not current; the run is then not flawless. `Memory` if there is no memory to make or buffer
    /// it, `Refused` exactly if `sink` fails, `LaneLost` if the file has 2^32 - 1 entries.
    fn add_out_of_memory_line<S: Sink>(
        &mut self,
        alloc: Global,
        sink: &mut S,
        file: u32,
        ordinal: u32,
    ) -> Result<(), RunFault<SinkFault>>
        requires stands { S.failed sink.old ≡ false }
        requires from { self.old.order.current ≤ file }
        requires below { file < files_of self.old }
        ensures added { OnOk result ((start : Option (List ℕ)) (before after : ℕ → Came) (entry : Entry)
            → entry.file ≡ file → entry.ordinal ≡ ordinal → entry.answer ≡ Answer.NoMemory → HasEntryMore file entry before after
            → LinesWrite start (S.taken sink.old) self.old before → LinesWrite start (S.taken sink.new) self.new after) }
        ensures partial { OnErr result ((start : Option (List ℕ)) (before after : ℕ → Came) (entry : Entry)
            → entry.file ≡ file → entry.ordinal ≡ ordinal → entry.answer ≡ Answer.NoMemory → HasEntryMore file entry before after
            → LinesWrite start (S.taken sink.old) self.old before
            → IsPartialText self.old.form start (S.taken sink.new) (files_of self.old) before ⊎ IsPartialText self.old.form start (S.taken sink.new) (files_of self.old) after) }
        ensures stands { TellsFailure (S.failed sink.new) result }
        ensures current { self.new.order.current ≡ self.old.order.current }
        ensures lacking { OnOk result (self.new.flawless ≡ false) }
        ensures same { AreLinesOf self.old self.new }
    {
        let text = out_of_memory_text(alloc, self.form, file, ordinal)?;
        self.flawless = false;
        self.order.add(alloc, sink, file, text.as_slice())
    }

    /// While the current file has ended: sends its last line on to `sink`, moves on to the next file, and sends that
    /// file's first line and its buffered lines. `Memory` if there is no memory for a last line, `Refused` exactly if
    /// `sink` fails, `LaneLost` if the next index does not fit in 32 bits; `sink` has then taken a prefix of the text.
    fn advance<S: Sink>(&mut self, alloc: Global, sink: &mut S) -> Result<(), RunFault<SinkFault>>
        requires { S.failed sink.old ≡ false }
        ensures written { OnOk result ((start : Option (List ℕ)) (came : ℕ → Came)
            → LinesWrite start (S.taken sink.old) self.old came → LinesWrite start (S.taken sink.new) self.new came) }
        ensures partial { OnErr result ((start : Option (List ℕ)) (came : ℕ → Came)
            → LinesWrite start (S.taken sink.old) self.old came → IsPartialText self.old.form start (S.taken sink.new) (files_of self.old) came) }
        ensures unended { OnOk result ((other : Waiting) → self.new.order.current < files_of self.new
            → (slice_index_or self.new.order.waiting self.new.order.current other).mark ≡ None) }
        ensures stands { TellsFailure (S.failed sink.new) result }
        ensures flawless { self.new.flawless ≡ self.old.flawless }
        ensures same { AreLinesOf self.old self.new }
    {
        while let Some(end) = self.order.current_end() {
            let text = end_text(alloc, self.form, self.order.current(), end.mark, end.count)?;
            self.order.put(sink, text.as_slice())?;
            if self.order.go_on()? {
                let first = preamble_line(self.form, self.order.current());
                self.order.put(sink, first.as_slice())?;
                self.order.drain(alloc, sink)?;
            }
        }
        Ok(())
    }
}

/// Whether a run is flawless with one more `mark`: it was `flawless` without it, and the mark is complete.
fn is_flawless_with(flawless: bool, mark: Mark) -> bool
    ensures { IsTrue result ↔ (IsTrue flawless × (mark ≡ Mark.Ended Ending.Complete)) }
{
    flawless && matches!(mark, Mark::Ended(Ending::Complete))
}

/// A consumer of the lanes' messages that streams the text of a run to a sink.
///
/// A line of the first file that has not ended goes to the sink through a fixed buffer. Text of later files is buffered
/// in memory, until so much is buffered that their reading pauses.
#[derive(Drop)]
pub struct Texts<'s, S, W: Drop> {
    pub sink: &'s mut S,
    /// The sink as it was at the beginning. It exists only in proofs.
    pub start: Snapshot<S>,
    pub alloc: Global,
    /// The text in transit and what is buffered: `Lines`, or `Picks` of records. A type parameter, since contracts do
    /// not name a `&mut` beside a field that owns memory.
    pub lines: W,
    /// The limit on buffered text from which on the reading of later files pauses.
    pub pace: Pace<'s>,
}

impl<'s, S: Sink, W: Drop> Texts<'s, S, W> {
    /// A consumer that streams `lines` to `sink`, and pauses reading by `pace`. It keeps the reference to `sink`;
    /// nothing is written to it yet.
    pub fn new(alloc: Global, sink: &'s mut S, lines: W, pace: Pace<'s>) -> Texts<'s, S, W>
        ensures same { result.sink.ghost_name ≡ sink.entry.ghost_name }
        ensures now { result.sink.now ≡ sink.old }
        ensures start { result.start.value ≡ sink.old }
        ensures lines { result.lines ≡ lines }
    {
        let start = Snapshot::of(&*sink);
        Texts {
            sink,
            start,
            alloc,
            lines,
            pace,
        }
    }
}

impl<S: Sink> Texts<'_, S, Lines> {
    /// Writes the text in the fixed buffer to the sink, and returns the exit status of the run: 0 if each file ended
    /// complete and each entry has an answer and its line, and otherwise 3. `Write` exactly if the sink fails, which
    /// has then taken a prefix of that text.
    ///
    /// # Errors
    ///
    /// `Write` exactly if the sink has then failed. There is no other error.
    pub fn finish(self) -> Result<u8, WriteFault>
        requires { S.failed self.sink.now ≡ false }
        ensures written { IfOk result (λ status. (choice : Choice) (known meaning : ℕ → Meaning) (ns : List Note)
            → LinesHold known (S.taken self.entry.start.value) (S.taken self.entry.sink.now) self.entry.lines ns
            → HaveFiles choice meaning (files_of self.entry.lines) ns
            → IsAllWritten choice meaning (form_of self.entry.lines) (files_of self.entry.lines)
            (S.taken self.entry.start.value) (S.taken self.exit.0.now) status) }
        ensures partial { OnErr result ((meaning : ℕ → Meaning) (ns : List Note)
            → LinesHold meaning (S.taken self.entry.start.value) (S.taken self.entry.sink.now) self.entry.lines ns
            → ArePartialLines meaning (S.taken self.entry.start.value) (S.taken self.exit.0.now) self.entry.lines ns) }
        ensures other { IfOk result (λ status. status ≢ 0 → status ≡ 3) }
        ensures write { (result ≡ Err WriteFault.Write) ↔ (S.failed self.exit.0.now ≡ true) }
        ensures memory { result ≢ Err WriteFault.Memory }
    {
        self.lines.finish(self.sink)
    }
}

impl<S: Sink, J: KnownFiles + Send + Sync> Consumer<Printed<J>, KnownEnd<J>>
    for Texts<'_, S, Lines> {
    type Refusal = SinkFault;

    ghost holds = { λ t ns. (S.failed t.sink.now ≡ false) × LinesHold J.meaning (S.taken t.start.value) (S.taken t.sink.now) t.lines ns };

    ghost stays = { λ a b. (a.sink.ghost_name ≡ b.sink.ghost_name) × (a.start.value ≡ b.start.value) × AreLinesOf a.lines b.lines };

    ghost gave_up = { λ t fault. GivesUp (S.failed t.sink.now) fault
        × ((ns : List Note) × ArePartialLines J.meaning (S.taken t.start.value) (S.taken t.sink.now) t.lines ns) };

    ghost passed_on = { λ t. IsFlushed t.lines };

    /// Takes in the line of the entry `item`, or one saying that memory ran out: sends it on to the sink or buffers it;
    /// then pauses later files or lets them go on. `Refused` exactly if the sink fails, `Memory` if there is no memory
    /// to make or buffer it, `LaneLost` if its place, format or choice is wrong. After an error no file is paused.
    fn item(&mut self, item: Printed<J>) -> Result<(), RunFault<SinkFault>> {
        let taken = self.lines.line(self.alloc, self.sink, item);
        self.lines.order.keep_pace(&self.pace, taken.is_ok());
        taken
    }

    /// Takes in the end of file `file`; if it is current, sends its last line and the text of the next files on to the
    /// sink; then pauses later files or lets them go on. `Refused` exactly if the sink fails, `Memory` if a last line
    /// lacks memory, `LaneLost` if `file` has ended, is not to come or `known` is wrong. After an error none pauses.
    fn end(
        &mut self,
        file: u32,
        mark: Mark,
        known: KnownEnd<J>,
    ) -> Result<(), RunFault<SinkFault>> {
        let taken = self.lines.end(self.alloc, self.sink, file, mark, known);
        self.lines.order.keep_pace(&self.pace, taken.is_ok());
        taken
    }

    /// Whether the fixed buffer is empty. Lines that are buffered for files which are not current do not count.
    fn is_flushed(&self) -> bool {
        self.lines.order.is_flushed()
    }

    /// Writes the text in the fixed buffer to the sink, not the lines buffered for later files; then pauses these files
    /// or lets them go on. `Refused` exactly if the sink fails, which has then taken a prefix of that text; no file is
    /// then paused.
    fn flush(&mut self) -> Result<(), RunFault<SinkFault>> {
        let flushed = self.lines.order.flush(self.sink);
        self.lines.order.keep_pace(&self.pace, flushed.is_ok());
        flushed
    }

    ghost holds_on = { λ t ns held. (held.0, held_stop _ _ _ _ _ _ _ _ _ _ held.1) };

    ghost stays_itself = { λ t. (refl, refl, record { form = refl; choice = refl; files = refl }) };

    ghost stays_on = { λ a b c p q. (p.0 ∙ q.0, p.1 ∙ q.1, record { form = q.2.form ∙ p.2.form; choice = q.2.choice ∙ p.2.choice; files = q.2.files ∙ p.2.files }) };
}
