//! The first stage of a lane. It draws files and reads them. The receiver of a file's records passes them to a sink,
//! which collects them in messages and gives these on.
ghost use Rattle.std.specs.Prelude.{◌≡◌, ℕ, List, [], ◌∷◌, ◌++◌, OnOk, ⊤, ◌<◌, length, IfOk, vec_len};
ghost use Rattle.lanes.specs.Notes.{Note, Item, notes, notes_of_items};
ghost use Rattle.std.proofs.Common.{refl, ◌∙◌};
ghost use Rattle.lanes.specs.Numbering.{KeepsRecords, keeps_none, keeps_on, AreOfSame, same_itself, same_on, accepts_same};
ghost use Rattle.streams.specs.Placing.{EachAt};
ghost use Rattle.lanes.specs.Opening.{IsPlacedAt};
ghost use Rattle.lanes.specs.Keeping.{KeepsFile};
ghost use Rattle.ruled_lanes.specs.LinkEnds.{given, GivesToSame};
ghost use Rattle.lanes.specs.Lanes.{ReadsSeat, StartsToRead, TellsFile};
ghost use Rattle.lanes.specs.Accepting.{AcceptsAll};

use crate::run::{OpenFault, Opener, Shared};
use crate::stage::LaneKind;
use crate::{Filling, Gate, Gone, MOST_ITEMS, Message, Numbered, Pauses, Stage};
use common::Choice;
use planar_code::{Ending, Record};
use ruled_lanes::{Giver, Seat};
use std::alloc::Global;
use std::sync::Wait;
use streams::{Mark, Receiver, SourceEnd, read_source};

/// A sink of a file's records, one by one, as they are read.
///
/// In proofs it has what it has kept so far, in order; what it may be passed; and which part of it stays the same from
/// one value to a later one.
pub trait RecordSink {
    /// The reason why a record was not kept.
    type Refusal: Drop;

    ghost kept: { Self → List Note };

    ghost stays: { Self → Self → Type 0 };

    // Which record it may be passed, of which file and at which place there.
    ghost accepts: { Self → ℕ → ℕ → List ℕ → Type 0 };

    /// Keeps the record `rec`, with place `ordinal` (from 0) in file `file`, and `choice` of its outer face. `Refusal`,
    /// a reason of the implementation, such as lack of memory, if it does not keep `rec`: it drops it, and the file is
    /// read no further.
    ///
    /// # Errors
    ///
    /// A reason of the implementation. The file is then read no further.
    fn keep(
        &mut self,
        alloc: Global,
        file: u32,
        ordinal: u32,
        rec: Record,
        choice: Choice,
    ) -> Result<(), Self::Refusal>
        requires { accepts self.old file ordinal rec }
        ensures kept { OnOk result (kept self.new ≡ kept self.old
            ++ Item (record { file = file; ordinal = ordinal; bytes = rec; choice = choice }) ∷ []) }
        ensures stays { stays self.old self.new };

    /// Passes on the records kept so far; called once all records are kept that one read of file `file` completed, so
    /// that none waits for the next read. It may block. `Refusal`, a reason of the implementation as of `keep`, such as
    /// lack of memory: the file is then read no further.
    ///
    /// # Errors
    ///
    /// A reason of the implementation, as of `keep`.
    fn pass_on(&mut self, file: u32) -> Result<(), Self::Refusal>
        ensures kept { OnOk result (kept self.new ≡ kept self.old) }
        ensures stays { stays self.old self.new };

    // What it may be passed once, it may be passed later.
    ghost accepts_on: { (x y : Self) (file ordinal : ℕ) (bytes : List ℕ)
        → stays x y → accepts x file ordinal bytes → accepts y file ordinal bytes };

    // What stays the same stays so over any number of calls.
    ghost stays_itself: { (x : Self) → stays x x };

    ghost stays_on: { (x y z : Self) → stays x y → stays y z → stays x z };
}

/// A `Receiver` that passes the records of a file to a sink, each with its place.
#[derive(Drop)]
pub(crate) struct FileReceiver<'k, K> {
    pub(crate) sink: &'k mut K,
    pub(crate) file: u32,
    pub(crate) choice: Choice,
}

impl<K: RecordSink> Receiver for FileReceiver<'_, K> {
    type Refusal = K::Refusal;

    ghost received = { λ first records x y. AreOfSame x.choice x.file y.choice y.file
        × KeepsRecords x.choice x.file first records (K.kept x.sink.now) (K.kept y.sink.now) };

    ghost refused = { λ _ _ _ _ _. ⊤ };

    ghost ready = { λ _. ⊤ };

    ghost accepts = { λ p first records. EachAt (K.accepts p.sink.now p.file) first records };

    ghost stays = { λ x y. (x.file ≡ y.file) × (x.sink.ghost_name ≡ y.sink.ghost_name)
        × K.stays x.sink.now y.sink.now };

    /// Takes all records out of `records`, passes them to `keep` of the sink, in order, with places from `first` on,
    /// and then calls its `pass_on`. At the first refusal returns the sink's reason, such as lack of memory: the sink
    /// has kept the records before, and the others are dropped.
    fn receive(
        &mut self,
        alloc: Global,
        first: u32,
        records: &mut Vec<Record>,
    ) -> Result<(), K::Refusal> {
        let mut ordinal = first;
        for rec in records.drain(..) {
            self.sink.keep(alloc, self.file, ordinal, rec, self.choice)?;
            ordinal += 1;
        }
        self.sink.pass_on(self.file)
    }

    ghost received_none = { λ x. (same_itself x.choice x.file, keeps_none x.choice x.file (K.kept x.sink.now)) };

    ghost received_on = { λ records others x y z p q. (same_on _ _ _ _ _ _ p.0 q.0, keeps_on _ _ _ _ _ _ _ _ _ p.0 p.1 q.1) };

    ghost refused_on = { λ _ _ _ _ _ _ _ _. tt };

    ghost accepts_on = { λ x y first records stays each. accepts_same (K.accepts x.sink.now) (K.accepts y.sink.now)
        x.file y.file stays.0 (λ f place bytes was. K.accepts_on _ _ f place bytes stays.2 was) first records each };

    ghost stays_itself = { λ x. (refl, refl, K.stays_itself _) };

    ghost stays_on = { λ x y z p q. (p.0 ∙ q.0, p.1 ∙ q.1, K.stays_on _ _ _ p.2 q.2) };
}

/// Reads file `file`, piece by piece into `buffer`, and passes its records to `sink`, in order; returns their number
/// and its mark, which is `Io` if it could not be opened or read, `Memory` if memory ran out for that. The only error
/// is a refusal of `sink`, which has then kept the records before.
///
/// It reads to the end of the file, to its failure or to the first fault in its bytes. The records are numbered from 0
/// and have this choice of the outer face.
///
/// A file that could not be opened has the mark `Io`, and one for whose opening there was no memory `Memory`; neither
/// has records. Besides what the opener and `sink` allocate, it allocates the framer's buffer, the records of one piece
/// and the list of them.
///
/// # Errors
///
/// The refusal of `sink`, if it does not keep a record or does not pass records on. It has then kept the records
/// before.
pub fn read_file<O: Opener, K: RecordSink>(
    opener: &O,
    alloc: Global,
    file: u32,
    choice: Choice,
    buffer: &mut [u8],
    sink: &mut K,
) -> Result<SourceEnd, K::Refusal>
    requires room { 0 < length buffer.old }
    requires accepted { (place : ℕ) (bytes : List ℕ) → IsPlacedAt (O.meaning opener.now file) place bytes
        → K.accepts sink.old file place bytes }
    ensures kept { IfOk result (λ end.
        KeepsFile choice (O.meaning opener.now file) file (K.kept sink.old) (K.kept sink.new) end.count end.mark) }
    ensures stays { K.stays sink.old sink.new }
{
    let source = match opener.open(alloc, file) {
        Ok(source) => source,
        Err(OpenFault::Io) => {
            return Ok(SourceEnd {
                count: 0,
                mark: Mark::Io,
            });
        }
        Err(OpenFault::Memory) => {
            return Ok(SourceEnd {
                count: 0,
                mark: Mark::Ended(Ending::Memory),
            });
        }
    };
    let mut receiver = FileReceiver { sink, file, choice };
    read_source(source, alloc, buffer, &mut receiver)
}

/// The number of bytes of records from which on a message takes no more.
const MOST_BYTES: usize = 4096;

/// A `RecordSink` that calls the gate for each record, and sends the records in messages of several.
///
/// No record waits for the next read of its file. After each read it blocks as long as the file is paused.
#[derive(Drop)]
pub struct RecordGiver<'s, R, G, L: LaneKind> {
    pub rt: &'s R,
    pub gate: &'s G,
    pub kind: &'s L,
    pub pauses: &'s Pauses,
    pub lane: u32,
    pub giver: Giver<Message<L::Framed, L::End>>,
    /// The records of the next message.
    pub filling: Filling<L::Framed>,
    /// The number of their bytes.
    pub bytes: usize,
    /// The maximum number of records in a message.
    pub most: usize,
}

impl<R: Wait, G: Gate, L: LaneKind> RecordSink for RecordGiver<'_, R, G, L> {
    type Refusal = Gone;

    ghost kept = { λ g. notes L.Framed.about (given g.giver) ++ notes_of_items L.Framed.about g.filling.items.items };

    ghost stays = { λ a b. GivesToSame a.giver b.giver };

    ghost accepts = { λ _ file ordinal bytes. L.accepts file ordinal bytes };

    /// Calls the gate and adds the record to the next message; sends that message once it is full, and waits while the
    /// link is full. `Gone` if the taker of the link is gone: the records to be sent are dropped. If memory runs out
    /// for the list of a message, the record is sent alone, without an error.
    fn keep(
        &mut self,
        _alloc: Global,
        file: u32,
        ordinal: u32,
        rec: Record,
        choice: Choice,
    ) -> Result<(), Gone> {
        self.gate.pass(self.lane, Stage::Read, ordinal);
        self.bytes = self.bytes.saturating_add(rec.bytes().len());
        let item = self.kind.framed(file, ordinal, rec, choice);
        self.filling.add(self.rt, &mut self.giver, item)?;
        if self.filling.items.len() < self.most && self.bytes < MOST_BYTES {
            return Ok(());
        }
        self.bytes = 0;
        self.filling.give(self.rt, &mut self.giver)
    }

    /// Sends the records collected so far, waiting while the link is full, and then blocks as long as file `file` is
    /// paused. `Gone` if the taker of the link is gone: these records are dropped.
    fn pass_on(&mut self, file: u32) -> Result<(), Gone>
        ensures kept { OnOk result (notes L.Framed.about (given self.new.giver) ++ notes_of_items L.Framed.about self.new.filling.items.items
            ≡ notes L.Framed.about (given self.old.giver) ++ notes_of_items L.Framed.about self.old.filling.items.items) }
        ensures none_waits { OnOk result (self.new.filling.items.items ≡ []) }
        ensures stays { GivesToSame self.old.giver self.new.giver }
    {
        self.bytes = 0;
        self.filling.give(self.rt, &mut self.giver)?;
        self.pauses.wait(self.rt, file);
        Ok(())
    }

    ghost accepts_on = { λ _ _ _ _ _ _ accepts. accepts };

    ghost stays_itself = { λ x. refl };

    ghost stays_on = { λ x y z p q. q ∙ p };
}

impl<R: Wait, G: Gate, L: LaneKind> RecordGiver<'_, R, G, L> {
    /// Sends the records collected so far in one message, waiting while the link is full; sends nothing if there are
    /// none. `Gone` if the taker of the link is gone: these records are dropped. It sends neither an end nor a stop.
    pub fn give_collected(&mut self) -> Result<(), Gone>
        ensures told { OnOk result (notes L.Framed.about (given self.new.giver)
            ≡ notes L.Framed.about (given self.old.giver) ++ notes_of_items L.Framed.about self.old.filling.items.items) }
        ensures none { OnOk result (self.new.filling.items.items ≡ []) }
        ensures same { GivesToSame self.old.giver self.new.giver }
    {
        self.bytes = 0;
        self.filling.give(self.rt, &mut self.giver)
    }
}

/// A first stage that does not run yet: its lane number, its seat, its buffer and its giver.
///
/// By the seat it draws files, of each of which a piece at a time is read into the buffer.
#[derive(Drop)]
pub struct FirstStage<A: Numbered, M: Drop + Send> {
    pub lane: u32,
    pub seat: Seat,
    pub buffer: Vec<u8>,
    pub giver: Giver<Message<A, M>>,
}

impl<R: Wait, O: Opener, G: Gate, L: LaneKind> Shared<'_, R, O, G, L> {
    /// Reads the files that its seat draws until none is left, gives the records and one end of each, and then one
    /// stop; returns its giver and its seat. `Gone`, the only error, if the taker of its link was gone: both are
    /// dropped. If a file fails or memory runs out for it, its mark says so.
    ///
    /// It draws until none is left. For each file it gives its records and one end, and after the last file one stop.
    /// `Gone` if the other end of its link was gone.
    pub fn run_read_stage(
        &self,
        reading: FirstStage<L::Framed, L::End>,
    ) -> Result<(Giver<Message<L::Framed, L::End>>, Seat), Gone>
        requires { StartsToRead self.now.tickets.now reading.seat (vec_len reading.buffer) reading.giver
            × AcceptsAll L.accepts L.ends (O.meaning self.now.run.now.opener.now) }
        ensures { IfOk result (λ ends.
            ReadsSeat L.Framed.about self.now.run.now.choice (O.meaning self.now.run.now.opener.now) self.now.tickets.now reading.giver ends.0 ends.1) }
    {
        let FirstStage {
            lane,
            mut seat,
            mut buffer,
            giver,
        } = reading;
        let mut gives = RecordGiver::<R, G, L> {
            rt: self.run.rt,
            gate: self.run.gate,
            kind: self.kind,
            pauses: self.run.pauses,
            lane,
            giver,
            filling: Filling::new(self.run.alloc),
            bytes: 0,
            most: MOST_ITEMS.min(self.run.capacity as usize),
        };
        for _ in self.run.rt.forever() {
            let Some(file) = self.tickets.draw(&mut seat) else {
                gives.giver.give(self.run.rt, Message::Stop)?;
                return Ok((gives.giver, seat));
            };
            self.read_drawn(file, buffer.as_mut_slice(), &mut gives)?;
        }
        unreachable!()
    }

    /// Reads file `file` through `buffer`, gives its records and one end to the link of `gives`, and tells the opener
    /// its mark; blocks while the file is paused, before it opens it and after each read. `Gone` if the taker is gone;
    /// `gives` may then have given a part. If memory runs out for the file, its mark says so.
    fn read_drawn(
        &self,
        file: u32,
        buffer: &mut [u8],
        gives: &mut RecordGiver<'_, R, G, L>,
    ) -> Result<(), Gone>
        requires room { 0 < length buffer.old }
        requires none { gives.old.filling.items.items ≡ [] }
        requires accepts { AcceptsAll L.accepts L.ends (O.meaning self.now.run.now.opener.now) }
        ensures told { OnOk result (TellsFile self.now.run.now.choice (O.meaning self.now.run.now.opener.now file) file
            (notes L.Framed.about (given gives.old.giver)) (notes L.Framed.about (given gives.new.giver))) }
        ensures none { OnOk result (gives.new.filling.items.items ≡ []) }
        ensures same { GivesToSame gives.old.giver gives.new.giver }
    {
        let run = self.run;
        run.pauses.wait(run.rt, file);
        let end = read_file(run.opener, run.alloc, file, run.choice, buffer, gives)?;
        gives.give_collected()?;
        let mark = end.mark;
        run.opener.ended(file, mark);
        let known = self.kind.end(file, end);
        gives.giver.give(run.rt, Message::End(file, mark, known))?;
        Ok(())
    }
}
