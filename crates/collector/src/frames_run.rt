//! Reading one source on a thread of its own, and gathering its records from the messages of that thread.
ghost use Rattle.std.specs.Prelude.{◌≡◌, ◌<◌, [], List, ℕ, ◌++◌, ⊤, vec_len, ◌≢◌, ◌≤◌, Bool, Some, IfOk, IfErr};
ghost use Rattle.std.proofs.Common.{◌∙◌, refl, sym, subst, append-nil, append_assoc};
ghost use Rattle.ruled_lanes.specs.LinkEnds.{given, GivesToSame, taken, AreEnds, TakesFromSame};
ghost use Rattle.collector.specs.ReadMessage.{GiveRecords, GivesBack, IsTold, GathersAll};
ghost use Rattle.ruled_lanes.specs.declared.channel.TheConstants.{MAX_CAPACITY};
ghost use Rattle.streams.specs.declared.frames.Mark.{Mark};
ghost use Rattle.streams.specs.Marks.{IsMarked};
ghost use Rattle.streams.specs.Reading.{IsFoundIn};
ghost use Rattle.streams.specs.declared.source.TheConstants.{PIECE};

use planar_code::Record;
use ruled_lanes::{Closed, Giver, Taker, link};
use std::alloc::Global;
use std::snapshot::Snapshot;
use std::sync::Wait;
use std::thread::{Promise, Threads};
use std::{mem, thread};
use streams::{BatchFault, Frames, Mark, Receiver, Tap, piece_buffer, read_source};

/// A message of a reader, which sends its records in order, one mark and one stop.
#[derive(Drop)]
pub enum ReadMessage {
    /// Records that follow those of the earlier messages. The type of each guarantees that its bytes are one record.
    Records(Vec<Record>),
    /// The mark of the source, sent after all its records.
    End(Mark),
    /// No more messages follow.
    Stop,
}

/// Sends the records of a source, those of one piece in one message.
#[derive(Drop)]
struct PieceGiver<'r, R> {
    rt: &'r R,
    giver: Giver<ReadMessage>,
}

impl<R: Wait> Receiver for PieceGiver<'_, R> {
    type Refusal = Closed<ReadMessage>;

    ghost received = { λ first records x y. (earlier : List (List ℕ))
        → GiveRecords earlier (given x.giver) → GiveRecords (earlier ++ records) (given y.giver) };

    ghost refused = { λ _ _ _ _ _. ⊤ };

    ghost stays = { λ x y. GivesToSame x.giver y.giver };

    ghost ready = { λ _. ⊤ };

    ghost accepts = { λ _ _ _. ⊤ };

    /// Takes all records out of `records`, which is then empty, and sends them as one message; waits while the link is
    /// full, and sends nothing if there are none. `Closed` with that message if the link's other end is gone; `records`
    /// is then empty, too. `_first` is not used.
    fn receive(
        &mut self,
        alloc: Global,
        _first: u32,
        records: &mut Vec<Record>,
    ) -> Result<(), Closed<ReadMessage>> {
        let batch = mem::replace(records, Vec::new(alloc));
        if batch.is_empty() {
            return Ok(());
        }
        self.giver.give(self.rt, ReadMessage::Records(batch))
    }

    ghost received_none = { λ x earlier give. subst (λ all. GiveRecords all (given x.giver)) (sym (append-nil earlier)) give };

    ghost received_on = { λ records others x y z first then earlier give.
        subst (λ all. GiveRecords all (given z.giver)) (append_assoc earlier records others) (then (earlier ++ records) (first earlier give)) };

    ghost refused_on = { λ _ _ _ _ _ _ _ _. tt };

    ghost accepts_on = { λ _ _ _ _ _ _. tt };

    ghost stays_itself = { λ x. refl };

    ghost stays_on = { λ x y z p q. q ∙ p };
}

/// Reads `source` through `buffer` and sends its records in order on `giver`, then its mark and one stop; returns
/// `giver`, or `None` if the other end of the link was gone and not all was sent. If reading fails or runs out of
/// memory, this is the mark. `buffer` must not be empty.
///
/// It reads to the end of the source, to its failure, or to the first fault in its bytes.
pub fn give_all<R: Wait, T: Tap>(
    rt: &R,
    alloc: Global,
    source: T,
    mut buffer: Vec<u8>,
    giver: Giver<ReadMessage>,
) -> Option<Giver<ReadMessage>>
    requires room { 0 < vec_len buffer }
    requires none { given giver ≡ [] }
    ensures { GivesBack (T.to_come source) (T.fails source) giver result }
{
    let mut gives = PieceGiver { rt, giver };
    let mark = match read_source(source, alloc, buffer.as_mut_slice(), &mut gives) {
        Ok(end) => end.mark,
        Err(_) => return None,
    };
    let mut giver = gives.giver;
    match giver.give(rt, ReadMessage::End(mark)) {
        Ok(()) => {}
        Err(_) => return None,
    }
    match giver.give(rt, ReadMessage::Stop) {
        Ok(()) => Some(giver),
        Err(_) => None,
    }
}

/// What the thread of a reader promises of the giver that it returns.
#[derive(Drop)]
struct ReadingPromise<T: Tap> {
    source: Snapshot<T>,
    giver: Snapshot<Giver<ReadMessage>>,
}

impl<T: Tap> Promise<Option<Giver<ReadMessage>>> for ReadingPromise<T> {
    ghost kept_by = { λ p result.
        GivesBack (T.to_come p.source.value) (T.fails p.source.value) p.giver.value result };
}

/// The records and the mark that were gathered from a link, and the receiving end.
#[derive(Drop)]
struct GatheredRecords {
    taker: Taker<ReadMessage>,
    records: Vec<Record>,
    mark: Option<Mark>,
}

/// Reads `source` on a thread of its own, which ends before this returns; returns its records, in order, and its mark.
/// `Memory` if memory runs out anywhere but in the framer, where it is the mark; `LaneLost` if an end of the link was
/// gone before the last message; `Thread` if no thread could be started.
///
/// At most `capacity` of its messages wait to be gathered. After the first fault in the bytes, the source is read no
/// more.
///
/// `Memory`: out of memory anywhere but in the framer, which makes it the mark of the source. `LaneLost`: an end of the
/// link was gone before the last message. `Thread`: no thread could be started.
pub fn run_frames<R: Threads + Wait + Sync, T: Tap + Send>(
    rt: &R,
    alloc: Global,
    source: T,
    capacity: u32,
) -> Result<Frames, BatchFault>
    requires least { 1 ≤ capacity }
    requires most { capacity ≤ MAX_CAPACITY }
    ensures known { IfOk result (λ found. (bytes : List ℕ) → T.to_come source ≡ Some bytes
        → IsMarked bytes (T.fails source) found.records found.mark) }

    // A source whose bytes are not known gave some bytes, and then ended or failed.
    ensures unknown { IfOk result (λ found. (bytes : List ℕ)
        × ((fails : Bool) × IsMarked bytes fails found.records found.mark)) }
    ensures one_source { IfErr result (λ fault.
        (fault ≢ BatchFault.TooManyFiles) × (fault ≢ BatchFault.BadLanes)) }
{
    let Ok((giver, taker)) = link(alloc, capacity) else {
        return Err(BatchFault::Memory);
    };
    let Ok(buffer) = piece_buffer(alloc) else {
        return Err(BatchFault::Memory);
    };
    thread::scope(
        thread::scope_env(),
        rt,
        move |scope| -> Result<Frames, BatchFault>
            requires { AreEnds giver taker × (given giver ≡ []) × (taken taker ≡ [])
                × (vec_len buffer ≡ PIECE) }
            ensures { IfOk result (λ found.
                IsFoundIn (T.to_come source) (T.fails source) found.records found.mark)
                × IfErr result (λ fault.
                (fault ≢ BatchFault.TooManyFiles) × (fault ≢ BatchFault.BadLanes)) }
        {
            let promise = ReadingPromise {
                source: Snapshot::of(&source),
                giver: Snapshot::of(&giver),
            };
            let reader = match scope.spawn_with(
                promise,
                move || -> Option<Giver<ReadMessage>>
                    requires { (given giver ≡ []) × (vec_len buffer ≡ PIECE) }
                    ensures { GivesBack (T.to_come source) (T.fails source) giver result }
                { give_all(rt, alloc, source, buffer, giver) },
            ) {
                Ok(reader) => reader,
                Err(_) => return Err(BatchFault::Thread),
            };
            let gathered = gather(rt, alloc, taker);
            let read = reader.join(rt);
            let all = gathered?;
            match read {
                Some(giver) => Ok(settle(rt, all, giver)),
                None => Err(BatchFault::LaneLost),
            }
        },
    )
}

/// Takes messages from `taker` until the stop; returns all their records, in order, the mark (the last one, `None` if
/// none came) and `taker`. `Memory` if there is no memory for the records, `LaneLost` if the giver is gone before the
/// stop; after an error `taker` is dropped, so that the giver does not wait for it.
fn gather<R: Wait>(
    rt: &R,
    alloc: Global,
    mut taker: Taker<ReadMessage>,
) -> Result<GatheredRecords, BatchFault>
    requires { taken taker ≡ [] }
    ensures link { IfOk result (λ h. TakesFromSame taker h.taker) }
    ensures all { IfOk result (λ h. GathersAll h.records.items h.mark (taken h.taker)) }
    ensures one_source { IfErr result (λ fault.
        (fault ≢ BatchFault.TooManyFiles) × (fault ≢ BatchFault.BadLanes)) }
{
    let mut records = Vec::new(alloc);
    let mut mark = None;
    for _ in rt.forever() {
        match taker.take(rt) {
            Ok(ReadMessage::Records(mut batch)) => match records.append(&mut batch) {
                Ok(()) => {}
                Err(_) => return Err(BatchFault::Memory),
            },
            Ok(ReadMessage::End(end)) => mark = Some(end),
            Ok(ReadMessage::Stop) => break,
            Err(_) => return Err(BatchFault::LaneLost),
        }
    }
    Ok(GatheredRecords {
        taker,
        records,
        mark,
    })
}

/// Consumes both ends of the link, and returns the records in `gathered`, in order, with its mark. To settle the link
/// proves that these are all that were sent, and that there is a mark.
fn settle<R: Wait>(rt: &R, gathered: GatheredRecords, giver: Giver<ReadMessage>) -> Frames
    requires ends { AreEnds giver gathered.taker }
    requires all { GathersAll gathered.records.items gathered.mark (taken gathered.taker) }
    requires told { (records : List (List ℕ)) × (mark : Mark) × IsTold records mark (given giver) }
    ensures { (records : List (List ℕ)) (mark : Mark) → IsTold records mark (given giver)
        → (result.records ≡ records) × (result.mark ≡ mark) }
{
    let GatheredRecords {
        taker,
        records,
        mark,
    } = gathered;
    taker.settle(rt, giver);
    Frames::new(records, mark.unwrap())
}
