//! Sources of bytes, one of them in memory; reading a source into records and a mark; and what is done with the records
//! as they are read.
ghost use Rattle.std.specs.Prelude.{◌≡◌, ◌<◌, ◌≤◌, ℕ, Bool, Option, List, length, take, IfOk, OnOk, OnErr, drop, Some, false, vec_len, ◌+◌, [], ◌++◌, IfErr};
ghost use Rattle.std.specs.Io.KnownBytes.{Consumes};
ghost use Rattle.streams.specs.Tap.{IsAtItsEnd, IsAtItsFailure};
ghost use Rattle.planar_code.specs.declared.TheConstants.{MAX_RECORDS};
ghost use Rattle.planar_code.specs.declared.partial_record.Ending.{Ending};
ghost use Rattle.streams.specs.declared.frames.Mark.{Mark};
ghost use Rattle.streams.specs.Reading.{IsFoundIn};
ghost use Rattle.streams.specs.Placing.{ArePlaced};
ghost use Rattle.streams.specs.declared.source.TheConstants.{PIECE};

use crate::frames::Mark;
use planar_code::{Ending, Framer, Record};
use std::alloc::{AllocError, Global};

/// The error that a read failed. It carries no data: the source gives no more bytes.
#[derive(Clone, Copy, Debug, PartialEq, Eq)]
pub struct TapFault;

/// A source of bytes, read in pieces.
///
/// In proofs a tap has the bytes that are still to come, if they are known, and whether it fails after the last of them
/// or ends. Of a real file nothing is known.
pub trait Tap: Drop {
    ghost to_come: { Self → Option (List ℕ) };

    ghost fails: { Self → Bool };

    /// Reads the next bytes into the beginning of `buf` and returns how many. If `buf` is not empty, 0 is the end of
    /// the source. `TapFault` if the source failed before it gave any; `buf` may then hold any bytes.
    fn read(&mut self, buf: &mut [u8]) -> Result<usize, TapFault>
        ensures bound { IfOk result (λ n. n ≤ length buf.new) }
        ensures given { IfOk result (λ n. Consumes (to_come self.old) (to_come self.new) (take n buf.new)) }

        ensures ended { IfOk result (λ n. n ≡ 0 → 0 < length buf.new
            → IsAtItsEnd (to_come self.old) (fails self.old)) }
        ensures failed { OnErr result (IsAtItsFailure (to_come self.old) (fails self.old)) }
        ensures stays { OnOk result (fails self.new ≡ fails self.old) };
}

/// A source of bytes in memory whose reads return at most a chosen number of bytes.
///
/// Its bytes are known, and it ends after them.
#[derive(Drop)]
pub struct MemTap {
    bytes: Vec<u8>,
    at: usize,
    most: usize,
    ghost in_range: { at ≤ vec_len bytes },
    ghost moves: { 0 < most },
}

impl MemTap {
    ghost use Rattle.streams.specs.Memory.{most_of};

    /// A source of `bytes`, from the first on; a read returns at most `most` of them.
    pub fn new(bytes: Vec<u8>, most: usize) -> MemTap
        requires { 0 < most }
        ensures tells { ⟦<MemTap as Tap>⟧.to_come result ≡ Some bytes.items }
        ensures ends { ⟦<MemTap as Tap>⟧.fails result ≡ false }
        ensures chosen { most_of result ≡ most }
    {
        MemTap { bytes, at: 0, most }
    }
}

impl Tap for MemTap {
    ghost use Rattle.streams.specs.Memory.{most_of};

    ghost to_come = { λ s. Some (drop s.at s.bytes.items) };

    ghost fails = { λ _. false };

    /// Copies the next bytes, at most as many as chosen, into the beginning of `buf` and returns how many. If `buf` is
    /// not empty, 0 is the end of the source. It never fails.
    ///
    /// The contract of every tap, and that no read returns more bytes than chosen.
    fn read(&mut self, buf: &mut [u8]) -> Result<usize, TapFault>
        ensures bound { IfOk result (λ n. n ≤ length buf.new) }
        ensures given { IfOk result (λ n. Consumes (⟦<MemTap as Tap>⟧.to_come self.old)
            (⟦<MemTap as Tap>⟧.to_come self.new) (take n buf.new)) }
        ensures ended { IfOk result (λ n. n ≡ 0 → 0 < length buf.new
            → IsAtItsEnd (⟦<MemTap as Tap>⟧.to_come self.old) (⟦<MemTap as Tap>⟧.fails self.old)) }
        ensures failed { OnErr result
            (IsAtItsFailure (⟦<MemTap as Tap>⟧.to_come self.old) (⟦<MemTap as Tap>⟧.fails self.old)) }
        ensures stays { OnOk result (⟦<MemTap as Tap>⟧.fails self.new ≡ ⟦<MemTap as Tap>⟧.fails self.old) }
        ensures most { IfOk result (λ n. n ≤ most_of self.old) }
        ensures chosen { most_of self.new ≡ most_of self.old }
    {
        let remaining = self.bytes.len() - self.at;
        let count = remaining.min(self.most).min(buf.len());
        let end = self.at + count;
        buf[..count].copy_from_slice(&self.bytes[self.at..end]);
        self.at = end;
        Ok(count)
    }
}

/// A receiver of the records of a source as they are read.
///
/// In proofs it has which records, numbered from a first one on, were received from one value to a later one, or
/// refused in part; when and which ones it may be passed; and which part of it stays the same.
pub trait Receiver {
    /// The reason why records were refused.
    type Refusal: Drop;

    ghost received: { ℕ → List (List ℕ) → Self → Self → Type 0 };

    // It was passed these records, took some of them and refused for this reason.
    ghost refused: { ℕ → List (List ℕ) → Self → Self → Self.Refusal → Type 0 };

    ghost stays: { Self → Self → Type 0 };

    // It may be passed records: it has refused none.
    ghost ready: { Self → Type 0 };

    // Which records it may be passed, of which the first has this place in the source.
    ghost accepts: { Self → ℕ → List (List ℕ) → Type 0 };

    /// Takes all records out of `records`, in order; the first of them has the place `first`, from 0, in the source.
    /// `Refusal`, a reason of the implementation, such as lack of memory, if it refuses one: some records may be taken
    /// then, and the source is read no further.
    ///
    /// # Errors
    ///
    /// A reason of the implementation. The source is then read no further.
    fn receive(
        &mut self,
        alloc: Global,
        first: u32,
        records: &mut Vec<Record>,
    ) -> Result<(), Self::Refusal>
        requires few { first + length records.old.items ≤ MAX_RECORDS }
        requires accepted { accepts self.old first records.old.items }
        requires ready { ready self.old }
        ensures received { OnOk result (received first records.old.items self.old self.new) }
        ensures ready { OnOk result (ready self.new) }
        ensures refused { IfErr result (refused first records.old.items self.old self.new) }
        ensures empties { OnOk result (records.new.items ≡ []) }
        ensures stays { stays self.old self.new };

    // Records are received list by list.
    ghost received_none: { (x : Self) → received 0 [] x x };

    ghost received_on: { (records others : List (List ℕ)) (x y z : Self)
        → received 0 records x y → received (length records) others y z → received 0 (records ++ others) x z };

    ghost refused_on: { (records others : List (List ℕ)) (x y z : Self) (refusal : Self.Refusal)
        → received 0 records x y → refused (length records) others y z refusal → refused 0 (records ++ others) x z refusal };

    // What it may be passed once, it may be passed later.
    ghost accepts_on: { (x y : Self) (first : ℕ) (records : List (List ℕ))
        → stays x y → accepts x first records → accepts y first records };

    // What stays the same stays so over any number of calls.
    ghost stays_itself: { (x : Self) → stays x x };

    ghost stays_on: { (x y z : Self) → stays x y → stays y z → stays x z };
}

/// The number of bytes requested from a source at once.
pub const PIECE: usize = 65_536;

/// A new buffer of `PIECE` bytes, all 0, into which a source is read. `AllocError` if there is no memory for it.
///
/// # Errors
///
/// `AllocError` if there is no memory for it.
pub fn piece_buffer(alloc: Global) -> Result<Vec<u8>, AllocError>
    ensures { IfOk result (λ v. vec_len v ≡ PIECE) }
{
    vec![in alloc; 0; PIECE]
}

/// The mark of a source that was read, and the number of its records.
#[derive(Clone, Copy, Debug, PartialEq, Eq)]
pub struct SourceEnd {
    /// The number of records received, at most 1,000,000.
    pub count: u32,
    /// How the source ended.
    pub mark: Mark,
}

/// Reads `source`, piece by piece into `buffer`, and passes its records, in order, to `receiver`; returns their number
/// and the mark of the source, which is `Memory` if memory ran out for the records. The only error is the refusal of
/// `receiver`, which has then received the records before.
///
/// It reads to the end of the source, to its failure or to the first fault in its bytes. The mark is `Memory` if the
/// framer ran out of memory.
///
/// # Errors
///
/// The receiver's refusal, if it refuses records. It has then received the records before them; all these are the first
/// ones of the source, as if memory had run out after them.
pub fn read_source<T: Tap, V: Receiver>(
    mut source: T,
    alloc: Global,
    buffer: &mut [u8],
    receiver: &mut V,
) -> Result<SourceEnd, V::Refusal>
    requires room { 0 < length buffer.old }
    requires accepted { (first : ℕ) (records : List (List ℕ)) → ArePlaced (T.to_come source) first records
        → V.accepts receiver.old first records }
    requires ready { V.ready receiver.old }
    ensures found { IfOk result (λ end. (records : List (List ℕ)) × V.received 0 records receiver.old receiver.new
        × (end.count ≡ length records) × IsFoundIn (T.to_come source) (T.fails source) records end.mark) }
    ensures ready { OnOk result (V.ready receiver.new) }
    ensures refused { IfErr result (λ refusal. (records : List (List ℕ)) × V.refused 0 records receiver.old receiver.new refusal
        × IsFoundIn (T.to_come source) (T.fails source) records (Mark.Ended Ending.Memory)) }
    ensures stays { V.stays receiver.old receiver.new }
{
    let Ok(mut framer) = Framer::new(alloc) else {
        let mark = Mark::Ended(Ending::Memory);
        return Ok(SourceEnd { count: 0, mark });
    };
    let mut records = Vec::new(alloc);
    let mut count = 0;
    // Counted, so that the call is proved to end. The last round is never reached: a framer that still reads has had no
    // more bytes than the header and a million records.
    for _ in 0..u64::MAX {
        let fed = match source.read(buffer) {
            Ok(0) => {
                let mark = Mark::Ended(framer.finish());
                return Ok(SourceEnd { count, mark });
            }
            Ok(size) => framer.feed(alloc, &buffer[..size], &mut records),
            Err(_) => {
                let mark = Mark::Io;
                return Ok(SourceEnd { count, mark });
            }
        };
        let next = count + records.len() as u32;
        receiver.receive(alloc, count, &mut records)?;
        count = next;
        if let Err(fault) = fed {
            let mark = Mark::Ended(Ending::from(fault));
            return Ok(SourceEnd { count, mark });
        }
    }
    unreachable!()
}
