//! A whole run: all records of a file of graphs, each with its line, and a receiver that writes their verdicts as they
//! come.
ghost use Rattle.std.specs.Prelude.{◌≡◌, ◌<◌, ◌↔◌, ℕ, List, length, true, false, IfOk, OnOk, IfErr, OnErr, ◌≢◌, ◌+◌, ◌≤◌, ◌∷◌, Bool, Option, [], ⊤};
ghost use Rattle.planar_code.specs.declared.partial_record.Ending.{Ending};
ghost use Rattle.streams.specs.declared.frames.Mark.{Mark};
ghost use Rattle.streams.specs.Reading.{IsFoundIn};
ghost use Rattle.checking.specs.Runs.{IsTextOfVerdicts, IsBegunTextOfVerdicts, IsOk};
ghost use Rattle.checking.specs.UnderWay.{GoesOnBy, IsCutShortBy, IsUnderWay, IsCutShort};
ghost use Rattle.planar_code.specs.declared.TheConstants.{MAX_RECORDS};
ghost use Rattle.std.proofs.Common.{refl, ◌∙◌};
ghost use Rattle.streams.specs.declared.output.WriteFault.{WriteFault};
ghost use Rattle.checking.specs.Receiving.{goes_by_none, goes_by_both, cut_by_both};
ghost use Rattle.checking.specs.declared.judging.Verdict.TheVariants as found;

use crate::judging::{Scratch, Verdict, record_verdict};
use crate::line_content::{next_input, read_trailing};
use crate::line_reader::Lines;
use crate::verdict_lines::{push_end, push_verdict};
use planar_code::{Ending, Record};
use std::alloc::{AllocError, Global};
use std::sync::Wait;
use streams::{
    Form, Mark, Receiver, Sink, SourceEnd, Tap, TextBuffer, WriteFault, piece_buffer, read_source,
};

/// The options of a check: the output format, and whether regions are checked.
#[derive(Clone, Copy, Debug, PartialEq, Eq)]
pub struct CheckOptions {
    /// The output format.
    pub form: Form,
    /// Whether each region of a drawing must also be its face.
    pub faces: bool,
}

/// The outcome of a check whose output was written completely.
#[derive(Clone, Copy, Debug, PartialEq, Eq)]
pub struct CheckOutcome {
    /// How the file of graphs ended.
    pub mark: Mark,
    /// The exit status. 0: each verdict is `ok`, no line is left, and both files were read whole. 3: the file of graphs
    /// did not end complete, a read of the lines failed, or memory ran out for a record. 4: otherwise.
    pub status: u8,
}

/// Checks the drawings in `lines` against the records of `graphs`, writes a verdict for each record and a last line to
/// `out`, and returns the mark of `graphs` and the exit status. `Write` exactly if `out` has then failed, `Memory` if
/// memory runs out for buffers or a line after the last record; `out` has then taken a prefix of the text.
///
/// Line K that is no end of a run belongs to record K. Records are checked as they are read, one after another; those
/// of one piece, one line and one drawing are kept in memory.
///
/// If memory runs out for a line, the verdict on the record is `memory`. If that line was the end of a run, later lines
/// may be one off, each checked with the record after its own.
///
/// # Errors
///
/// `Write` exactly if the sink has then failed. `Memory` if memory runs out for the buffers, or for a line after the
/// last record. A prefix of the text was then written; if a byte of the last line was, that line has the number of
/// lines that are left.
pub fn check_files<R: AllocGlobal + Wait, G: Tap, L: Tap, S: Sink>(
    rt: &R,
    graphs: G,
    lines: L,
    options: CheckOptions,
    out: &mut S,
) -> Result<CheckOutcome, WriteFault>
    requires { S.failed out.old ≡ false }
    ensures whole { IfOk result (λ outcome. IsTextOfVerdicts options (G.to_come graphs) (G.fails graphs) (L.to_come lines)
        (L.fails lines) (S.taken out.old) (S.taken out.new) (S.failed out.new) outcome.status) }
    ensures fault { IfErr result (λ fault. (fault ≡ WriteFault.Write) ↔ (S.failed out.new ≡ true)) }
    ensures begun { OnErr result (IsBegunTextOfVerdicts options (G.to_come graphs) (G.fails graphs) (L.to_come lines)
        (L.fails lines) (S.taken out.old) (S.taken out.new)) }
{
    let alloc = rt.alloc();
    let Ok(mut buffer) = piece_buffer(alloc) else {
        return Err(WriteFault::Memory);
    };
    let Ok(mut checker) = Checker::new(alloc, lines, options) else {
        return Err(WriteFault::Memory);
    };
    let end = check_records(rt, alloc, graphs, buffer.as_mut_slice(), &mut checker, out)?;
    checker.finish(rt, end, out)
}

/// Reads the records of `graphs` through `buffer`; returns their number and the mark, which is `Memory` if memory runs
/// out for them. Their verdicts (also `Memory`) are added to the text of `checker`, which goes to `out` when nearly
/// full. `Write`, the only error, exactly if `out` has then failed; it has then taken a prefix of the text.
fn check_records<R: Wait, G: Tap, L: Tap, S: Sink>(
    rt: &R,
    alloc: Global,
    graphs: G,
    buffer: &mut [u8],
    checker: &mut Checker<L>,
    out: &mut S,
) -> Result<SourceEnd, WriteFault>
    requires room { 0 < length buffer.old }
    requires intact { S.failed out.old ≡ false }
    ensures unfailed { OnOk result (S.failed out.new ≡ false) }
    ensures goes_on { IfOk result (λ end. (records : List (List ℕ)) × ((checker.new.options ≡ checker.old.options)
        × GoesOnBy L.to_come L.fails 0 records (S.taken out.old) (S.taken out.new) checker.old checker.new)
        × (end.count ≡ length records) × IsFoundIn (G.to_come graphs) (G.fails graphs) records end.mark) }
    ensures begun { IfErr result (λ fault. (records : List (List ℕ)) × (((fault ≡ WriteFault.Write) ↔ (S.failed out.new ≡ true))
        × IsCutShortBy L.to_come L.fails 0 records (S.taken out.old) (S.taken out.new) checker.old)
        × IsFoundIn (G.to_come graphs) (G.fails graphs) records (Mark.Ended Ending.Memory)) }
{
    let mut records = CheckedRecords { rt, checker, out };
    read_source(graphs, alloc, buffer, &mut records)
}

/// The lines that are left, and the text of the verdicts so far.
#[derive(Drop)]
pub(crate) struct Checker<L> {
    alloc: Global,
    lines: Lines<L>,
    options: CheckOptions,
    scratch: Scratch,
    text: TextBuffer,
    /// Whether each verdict is `Ok`.
    all_ok: bool,
    /// Whether some verdict is `Memory`.
    wants_memory: bool,
}

impl<L: Tap> Checker<L> {
    /// A checker that has read no line and judged no record yet. `AllocError` if there is no memory for the buffers of
    /// its reader of `lines`, which is then dropped.
    ///
    /// # Errors
    ///
    /// `AllocError` if there is no memory for a line.
    pub(crate) fn new(
        alloc: Global,
        lines: L,
        options: CheckOptions,
    ) -> Result<Checker<L>, AllocError>
        ensures begins { IfOk result (λ checker. (start : Option (List ℕ))
            → IsUnderWay L.to_come L.fails (L.to_come lines) (L.fails lines) start start checker []) }
        ensures options { IfOk result (λ checker. checker.options ≡ options) }
    {
        Ok(Checker {
            alloc,
            lines: Lines::new(alloc, lines)?,
            options,
            scratch: Scratch::empty(alloc),
            text: TextBuffer::new(),
            all_ok: true,
            wants_memory: false,
        })
    }

    /// Reads a line for each of `records`, adds the verdicts (`Memory` if memory runs out) to the buffered text, in
    /// order, and empties `records`, whose first one has the index `first` in its file. The text goes to `out` when
    /// nearly full. `Write`, the only error, exactly if `out` has then failed; `records` is then unchanged.
    ///
    /// # Errors
    ///
    /// `Write` if the sink failed. There is no other error.
    pub(crate) fn write_verdicts<R: Wait, S: Sink>(
        &mut self,
        rt: &R,
        first: u32,
        records: &mut Vec<Record>,
        out: &mut S,
    ) -> Result<(), WriteFault>
        requires intact { S.failed out.old ≡ false }
        requires few { first + length records.old.items ≤ MAX_RECORDS }
        ensures unfailed { OnOk result (S.failed out.new ≡ false) }
        ensures fault { IfErr result (λ fault. (fault ≡ WriteFault.Write) ↔ (S.failed out.new ≡ true)) }
        ensures goes_on { OnOk result (GoesOnBy L.to_come L.fails first records.old.items (S.taken out.old) (S.taken out.new) self.old self.new) }
        ensures begun { OnErr result (IsCutShortBy L.to_come L.fails first records.old.items (S.taken out.old) (S.taken out.new) self.old) }
        ensures options { self.new.options ≡ self.old.options }
        ensures empties { OnOk result (records.new.items ≡ []) }
    {
        let mut place = first;
        for rec in records.iter() {
            self.write_verdict(rt, place, rec, out)?;
            place += 1;
        }
        records.clear();
        Ok(())
    }

    /// Reads the line of `rec`, the next record, whose index in its file is `place`; notes its verdict (`Memory` if
    /// memory runs out) in the run, and appends it to the buffered text, which first goes to `out` if it is nearly
    /// full. `Write`, the only error, exactly if `out` has then failed; the verdict is noted, but not appended.
    fn write_verdict<R: Wait, S: Sink>(
        &mut self,
        rt: &R,
        place: u32,
        rec: &Record,
        out: &mut S,
    ) -> Result<(), WriteFault>
        requires intact { S.failed out.old ≡ false }
        ensures unfailed { OnOk result (S.failed out.new ≡ false) }
        ensures fault { IfErr result (λ fault. (fault ≡ WriteFault.Write) ↔ (S.failed out.new ≡ true)) }
        ensures goes_on { OnOk result (GoesOnBy L.to_come L.fails place (rec.now ∷ []) (S.taken out.old) (S.taken out.new) self.old self.new) }
        ensures begun { OnErr result ((known : Option (List ℕ)) (fails : Bool) (start : Option (List ℕ)) (earlier : List (List ℕ)) (mark : Mark) (surplus : ℕ)
            → IsUnderWay L.to_come L.fails known fails start (S.taken out.old) self.old earlier
            → IsCutShort self.old.options known fails start (S.taken out.new) mark surplus earlier) }
        ensures options { self.new.options ≡ self.old.options }
    {
        let input = next_input(rt, self.alloc, &mut self.lines);
        let verdict = record_verdict(
            self.alloc,
            &mut self.scratch,
            self.options.faces,
            rec,
            input,
        );
        self.note(verdict);
        self.text.make_room(out)?;
        let number = u64::from(place) + 1;
        push_verdict(&mut self.text, self.options.form, number, verdict);
        Ok(())
    }

    /// Sets `all_ok` to false unless the verdict is `Ok`, and `wants_memory` to true if it is `Memory`.
    fn note(&mut self, verdict: Verdict)
        ensures ok { (self.new.all_ok ≡ true) ↔ ((self.old.all_ok ≡ true) × IsOk verdict) }
        ensures wants { (self.new.wants_memory ≡ false) ↔ ((self.old.wants_memory ≡ false) × (verdict ≢ found.Memory)) }
        ensures lines { self.new.lines ≡ self.old.lines }
        ensures text { self.new.text ≡ self.old.text }
        ensures options { self.new.options ≡ self.old.options }
    {
        match verdict {
            Verdict::Ok { .. } => {}
            Verdict::Memory => {
                self.all_ok = false;
                self.wants_memory = true;
            }
            _ => self.all_ok = false,
        }
    }

    /// Reads the lines after the last record, appends the last line to the buffered text, writes all of it to `out`,
    /// and returns the outcome; `end` has the number of records and the mark. `Write` exactly if `out` has then failed,
    /// with a prefix of the text; `Memory` if memory runs out for a line, and the buffered text is then not written.
    pub(crate) fn finish<R: Wait, S: Sink>(
        mut self,
        rt: &R,
        end: SourceEnd,
        out: &mut S,
    ) -> Result<CheckOutcome, WriteFault>
        requires { S.failed out.old ≡ false }
        ensures whole { IfOk result (λ outcome. (graphs : Option (List ℕ)) (cut : Bool) (known : Option (List ℕ)) (fails : Bool)
            (start : Option (List ℕ)) (records : List (List ℕ)) → end.count ≡ length records → IsFoundIn graphs cut records end.mark
            → IsUnderWay L.to_come L.fails known fails start (S.taken out.old) self records
            → IsTextOfVerdicts self.options graphs cut known fails start (S.taken out.new) (S.failed out.new) outcome.status) }
        ensures fault { IfErr result (λ fault. (fault ≡ WriteFault.Write) ↔ (S.failed out.new ≡ true)) }
        ensures begun { OnErr result ((known : Option (List ℕ)) (fails : Bool) (start : Option (List ℕ)) (records : List (List ℕ))
            → end.count ≡ length records → IsUnderWay L.to_come L.fails known fails start (S.taken out.old) self records
            → (surplus : ℕ) × IsCutShort self.options known fails start (S.taken out.new) end.mark surplus records) }
    {
        let rest = read_trailing(rt, self.alloc, &mut self.lines)?;
        self.text.make_room(out)?;
        let SourceEnd { count, mark } = end;
        push_end(
            &mut self.text,
            self.options.form,
            mark,
            u64::from(count),
            rest.surplus,
        );
        self.text.flush(out)?;
        let whole = is_whole(mark, rest.failed, self.wants_memory);
        Ok(CheckOutcome {
            mark,
            status: status_of(whole, self.all_ok, rest.surplus),
        })
    }
}

/// Whether all was read: `mark` says that the file of graphs ended complete, and neither `lines_failed` nor
/// `wants_memory` is true.
fn is_whole(mark: Mark, lines_failed: bool, wants_memory: bool) -> bool
    ensures { (result ≡ true) ↔ ((mark ≡ Mark.Ended Ending.Complete) × (lines_failed ≡ false) × (wants_memory ≡ false)) }
{
    mark == Mark::Ended(Ending::Complete) && !lines_failed && !wants_memory
}

/// The exit status of a run: 3 if not `whole`; otherwise 0 if `all_ok` and `surplus`, the number of lines that are
/// left, is 0; or else 4.
fn status_of(whole: bool, all_ok: bool, surplus: u64) -> u8
    ensures unread { (whole ≡ false) ↔ (result ≡ 3) }
    ensures well { ((whole ≡ true) × (all_ok ≡ true) × (surplus ≡ 0)) ↔ (result ≡ 0) }
    ensures other { result ≢ 0 → result ≢ 3 → result ≡ 4 }
{
    if !whole {
        3
    } else if all_ok && surplus == 0 {
        0
    } else {
        4
    }
}

/// A `Receiver` that passes the records of a file to a checker, which writes their verdicts to a sink.
#[derive(Drop)]
pub(crate) struct CheckedRecords<'r, 'c, 's, R, L, S> {
    pub(crate) rt: &'r R,
    pub(crate) checker: &'c mut Checker<L>,
    pub(crate) out: &'s mut S,
}

impl<R: Wait, L: Tap, S: Sink> Receiver for CheckedRecords<'_, '_, '_, R, L, S> {
    type Refusal = WriteFault;

    ghost ready = { λ x. S.failed x.out.now ≡ false };

    ghost received = { λ first records x y. (y.checker.now.options ≡ x.checker.now.options)
        × GoesOnBy L.to_come L.fails first records (S.taken x.out.now) (S.taken y.out.now) x.checker.now y.checker.now };

    ghost refused = { λ first records x y fault. ((fault ≡ WriteFault.Write) ↔ (S.failed y.out.now ≡ true))
        × IsCutShortBy L.to_come L.fails first records (S.taken x.out.now) (S.taken y.out.now) x.checker.now };

    ghost accepts = { λ _ _ _. ⊤ };

    ghost stays = { λ x y. (x.checker.ghost_name ≡ y.checker.ghost_name) × (x.out.ghost_name ≡ y.out.ghost_name)
        × (y.checker.now.options ≡ x.checker.now.options) };

    /// Writes the verdicts on `records` (`Memory` if memory runs out) as `Checker::write_verdicts`, and empties
    /// `records`; `first` is the index of the first one in its file. `Write`, the only error, exactly if the sink has
    /// then failed; `records` is then unchanged.
    fn receive(
        &mut self,
        _alloc: Global,
        first: u32,
        records: &mut Vec<Record>,
    ) -> Result<(), WriteFault> {
        self.checker
            .write_verdicts(self.rt, first, records, self.out)
    }

    ghost received_none = { λ x. (refl, goes_by_none L.to_come L.fails _ _) };

    ghost received_on = { λ records others x y z one two.
        (two.0 ∙ one.0, goes_by_both L.to_come L.fails records others _ _ _ _ _ _ one.1 two.1) };

    ghost refused_on = { λ records others x y z fault one two.
        (two.0, cut_by_both L.to_come L.fails records others _ _ _ _ _ one.0 one.1 two.1) };

    ghost accepts_on = { λ _ _ _ _ _ _. tt };

    ghost stays_itself = { λ x. (refl, refl, refl) };

    ghost stays_on = { λ x y z p q. (p.0 ∙ q.0, p.1 ∙ q.1, q.2 ∙ p.2) };
}
