//! An incremental parser of planar_code (the format is that of plantri by Brinkmann and McKay).

ghost use Rattle.std.specs.Prelude.{◌≡◌, ◌≢◌, ◌⊎◌, ℕ, ◌+◌, ◌<◌, ◌≤◌, List, [], ◌++◌, length, IfOk, IsOk, Err, ◌↔◌};
ghost use Rattle.planar_code.specs.declared.TheConstants.{MAX_RECORDS};
ghost use Rattle.planar_code.specs.Split.{IsSplit, MayGoOn, ending_of};
ghost use Rattle.planar_code.specs.FramerState.{FramerState, Early, After, Failed, StandsAt, HasNotFailed, Feeds, HasMore, beyond};
ghost use Rattle.planar_code.specs.Step.{FramerSteps};
ghost use Rattle.planar_code.specs.declared.partial_record.FeedFault.{FeedFault};

use crate::partial_record::{Ending, FeedFault, PartialRecord};
use crate::record::Record;
use crate::{HEADER, MAX_RECORDS};
use std::alloc::{AllocError, Global};
use std::marker::Model;

/// The part of the stream that is read next.
#[derive(Clone, Copy, Debug)]
enum Phase {
    /// The header, of which this many bytes were read.
    Header { passed: usize },
    /// Records.
    Records,
    /// Nothing: the framer stopped at this fault.
    Failed(FeedFault),
}

/// An incremental parser that splits a planar_code stream, which arrives in pieces, into records.
///
/// It keeps only the state that the stream has led to: how much of the header was read; then the number of records so
/// far and the bytes of the partial one; or the fault.
#[derive(Debug, Drop)]
pub struct Framer {
    phase: Phase,
    records: u32,
    current: PartialRecord,
}

impl Model for Framer {
    ghost use Rattle.planar_code.specs.FramerState.{FramerState};

    ghost Value = { FramerState };

    ghost use Rattle.planar_code.specs.Framer.{framer_state_of, IsFramer};

    ghost view = { framer_state_of };

    ghost invariant = { IsFramer };
}

impl Framer {
    /// A framer at the beginning of a stream, with a buffer for the longest record: 65,026 bytes. `AllocError` if there
    /// is no memory for the buffer.
    ///
    /// # Errors
    ///
    /// `AllocError` if there is no memory for the buffer.
    pub fn new(alloc: Global) -> Result<Framer, AllocError>
        ensures early { IfOk result (λ framer. framer ≡ Early []) }
        ensures stands { IfOk result (λ framer. StandsAt [] [] framer) }
    {
        Ok(Framer {
            phase: Phase::Header { passed: 0 },
            records: 0,
            current: PartialRecord::new(alloc)?,
        })
    }

    /// Reads one byte of the header, or to the end of one record or of `text`, which is not empty; returns the number
    /// of bytes read, and the record if one ended, else `None`. `Header`, `Large`, `Oversize` or `Many` at a byte that
    /// may not come, `Memory` without memory for a record; it stores no fault. It must not have failed before.
    fn step(&mut self, alloc: Global, text: &[u8]) -> Result<(usize, Option<Record>), FeedFault>
        requires some { 0 < length text.now }
        requires running { HasNotFailed self.old }
        ensures { FramerSteps self.old text.now self.new result }
    {
        match self.phase {
            Phase::Failed(fault) => Err(fault),
            Phase::Header { passed } => {
                if text[0] != HEADER[passed] {
                    return Err(FeedFault::Header);
                }
                self.phase = if passed + 1 == HEADER.len() {
                    Phase::Records
                } else {
                    Phase::Header { passed: passed + 1 }
                };
                Ok((1, None))
            }
            Phase::Records => {
                if self.records == MAX_RECORDS {
                    return Err(FeedFault::Many);
                }
                match self.current.read(alloc, text) {
                    Ok(Some((record, end))) => {
                        self.records += 1;
                        Ok((end, Some(record)))
                    }
                    Ok(None) => Ok((text.len(), None)),
                    Err(fault) => Err(fault),
                }
            }
        }
    }

    /// Reads `piece`, the next bytes of the stream, and appends each record that it completes to `out`, in order.
    /// `Header`, `Large`, `Oversize` or `Many` at a byte that may not come, `Memory` if there is no memory for a record
    /// or its place: `out` keeps the records before it, and each later call adds nothing and returns the same fault.
    ///
    /// The stream may be divided anywhere, also within the header or a record. The time is linear in the bytes: a
    /// record that lies whole in a piece is copied once, and one that is divided is copied twice. It runs out of memory
    /// only if the piece ends a record, for the record's bytes or its place in `out`.
    ///
    /// # Errors
    ///
    /// - `Header` at the first byte that differs from the header;
    /// - `Large` at byte 0 in place of a record;
    /// - `Oversize` at the 255th entry of a list;
    /// - `Many` at the first byte after record 1,000,000;
    /// - `Memory` if there is no memory for a whole record.
    ///
    /// The records before the fault stay in `out`. From then on the framer has failed: each later feed adds nothing and
    /// returns the same fault.
    pub fn feed(
        &mut self,
        alloc: Global,
        piece: &[u8],
        out: &mut Vec<Record>,
    ) -> Result<(), FeedFault>
        // The records that are added are those that the stream so far has beyond the earlier ones.
        ensures feeds { Feeds self.old piece.now out.old.items out.new.items self.new result }

        // Ok exactly if more bytes may come, and otherwise the fault of their ending.
        ensures ok_where_more_may_come { (stream : List ℕ) (records : List (List ℕ))
            → StandsAt stream records self.old
            → result ≢ Err FeedFault.Memory
            → (IsOk result ↔ MayGoOn (stream ++ piece.now)) }
        ensures fault_of_ending { (stream : List ℕ) (records : List (List ℕ)) (fault : FeedFault)
            → StandsAt stream records self.old
            → result ≡ Err fault
            → fault ≢ FeedFault.Memory
            → IsSplit (stream ++ piece.now) (records ++ beyond out.old.items out.new.items) (ending_of fault) }

        // If memory runs out, the records so far are a prefix, and a whole record is missing.
        ensures memory { (stream : List ℕ) (records : List (List ℕ))
            → StandsAt stream records self.old
            → result ≡ Err FeedFault.Memory
            → self.old ≢ Failed FeedFault.Memory
            → HasMore (stream ++ piece.now) (records ++ beyond out.old.items out.new.items) }

        // A framer that has failed stays as it is, adds nothing and repeats its fault.
        ensures repeats { (fault : FeedFault)
            → self.old ≡ Failed fault
            → (result ≡ Err fault) × (self.new ≡ self.old) × (out.new.items ≡ out.old.items) }

        // No stream has more than 1,000,000 records.
        ensures few { (stream : List ℕ) (records : List (List ℕ))
            → StandsAt stream records self.old
            → length records + length out.new.items ≤ MAX_RECORDS + length out.old.items }
    {
        if let Phase::Failed(fault) = self.phase {
            return Err(fault);
        }
        let mut text = piece;
        while !text.is_empty() {
            let (taken, next) = match self.step(alloc, text) {
                Ok(step) => step,
                Err(fault) => {
                    self.phase = Phase::Failed(fault);
                    return Err(fault);
                }
            };
            match next {
                Some(record) => {
                    if out.push(record).is_err() {
                        self.phase = Phase::Failed(FeedFault::Memory);
                        return Err(FeedFault::Memory);
                    }
                }
                None => {}
            }
            text = &text[taken..];
        }
        Ok(())
    }

    /// How the stream ends if no more bytes come: `Header` before the end of the header, `Truncated` within a record,
    /// and otherwise `Complete`; after a fault, the ending with the name of that fault.
    pub fn finish(self) -> Ending
        ensures split { (stream : List ℕ) (records : List (List ℕ))
            → StandsAt stream records self
            → IsSplit stream records result }
        ensures failed { (fault : FeedFault) → self ≡ Failed fault → result ≡ ending_of fault }
    {
        match self.phase {
            Phase::Header { .. } => Ending::Header,
            Phase::Records if self.current.is_empty() => Ending::Complete,
            Phase::Records => Ending::Truncated,
            Phase::Failed(fault) => Ending::from(fault),
        }
    }
}
