//! Files in memory, and openers that refuse or whose sources fail. The bytes come from the description of the format.
ghost use Rattle.std.specs.Prelude.{map, ⊤};
ghost use Rattle.lanes.specs.Opening.{Silent};
ghost use Rattle.lanes.specs.Notes.{Item};

use crate::reported::EDGES;
use collector::Choice;
use lanes::{MemOpener, OpenFault, Opener, RecordSink, read_file};
use planar_code::{Ending, Record};
use std::alloc::{AllocError, Global};
use std::process::Abort;
use std::sync::atomic::{AtomicU32, Ordering};
use streams::{Mark, SourceEnd, piece_buffer};
use test_tools::{Failing, same};

const CUT: &[u8] = b">>planar_code<<\x02\x02\x00\x01\x00\x02\x02\x00\x01";

const LARGE: &[u8] = b">>planar_code<<\x02\x02\x00\x01\x00\x00\x02";

/// A record and its place in the file.
#[derive(Drop)]
struct Shelved {
    file: u32,
    ordinal: u32,
    rec: Record,
    choice: Choice,
}

/// Keeps all records.
#[derive(Drop)]
struct Shelf {
    records: Vec<Shelved>,
}

impl RecordSink for Shelf {
    type Refusal = AllocError;

    ghost kept = { λ s. map (λ r. Item (record { file = r.file; ordinal = r.ordinal; bytes = r.rec; choice = r.choice })) s.records.items };

    ghost stays = { λ _ _. ⊤ };

    ghost accepts = { λ _ _ _ _. ⊤ };

    ghost accepts_on = { λ _ _ _ _ _ _ _. tt };

    ghost stays_itself = { λ _. tt };

    ghost stays_on = { λ _ _ _ _ _. tt };

    fn keep(
        &mut self,
        _alloc: Global,
        file: u32,
        ordinal: u32,
        rec: Record,
        choice: Choice,
    ) -> Result<(), AllocError> {
        self.records.push(Shelved {
            file,
            ordinal,
            rec,
            choice,
        })?;
        Ok(())
    }

    fn pass_on(&mut self, _file: u32) -> Result<(), AllocError> {
        Ok(())
    }
}

/// Opens sources of these bytes that fail at the read of this number, or runs out of memory. It counts the reads.
#[derive(Drop)]
struct Breaking {
    bytes: &'static [u8],
    fails_at: Option<u32>,
    reads: AtomicU32,
}

impl<'c> Opener for &'c Breaking {
    type Source = Failing<'c>;

    ghost meaning = { λ _ _. Silent };

    fn open(&self, _alloc: Global, _file: u32) -> Result<Failing<'c>, OpenFault> {
        let fails_at = self.fails_at.ok_or(OpenFault::Memory)?;
        Ok(Failing {
            bytes: self.bytes,
            fails_at,
            reads: &self.reads,
        })
    }
}

/// The bytes of three files: complete, cut and with too large a record.
fn files(alloc: Global) -> Result<Vec<Vec<u8>>, AllocError> {
    let mut files = Vec::new(alloc);
    for bytes in [EDGES, CUT, LARGE] {
        files.push(bytes.to_vec(alloc)?)?;
    }
    Ok(files)
}

/// The end of a file of an opener, and the number of its records that were kept.
fn shelf_of<O: Opener>(
    alloc: Global,
    opener: &O,
    file: u32,
) -> Option<(Result<SourceEnd, AllocError>, usize)> {
    let mut buffer = piece_buffer(alloc).ok()?;
    let mut shelf = Shelf {
        records: Vec::new(alloc),
    };
    let buf = buffer.as_mut_slice();
    let found = read_file(opener, alloc, file, Choice::Best, buf, &mut shelf);
    Some((found, shelf.records.len()))
}

/// Checks that the file of an opener ends with this mark and this many records, all of which are kept.
fn check_file<O: Opener, R: AllocGlobal + Abort>(
    rt: &R,
    opener: &O,
    file: u32,
    mark: Mark,
    count: u32,
) {
    let (found, kept) = shelf_of(rt.alloc(), opener, file).expect(rt, "memory");
    same!(rt, found.ok(), Some(SourceEnd { count, mark }));
    same!(rt, kept, count as usize);
}

/// Files by their numbers, with the mark and the number of records of each.
const ENDS: [(u32, Mark, u32); 4] = [
    (0, Mark::Ended(Ending::Complete), 2),
    (1, Mark::Ended(Ending::Truncated), 1),
    (2, Mark::Ended(Ending::Large), 1),
    (3, Mark::Io, 0),
];

/// Each file has its mark, and all its records are kept.
#[test]
fn keeps_the_records_of_each_file(rt: HostRuntime) {
    let files = files(rt.alloc()).expect(&rt, "memory");
    let opener = MemOpener::new(files, 2);
    for (file, mark, count) in ENDS {
        check_file(&rt, &opener, file, mark, count);
    }
}

/// Checks that a file whose source fails at this read has these records and this mark, after this many reads.
fn check_breaking<R: AllocGlobal + Abort>(
    rt: &R,
    bytes: &'static [u8],
    fails_at: Option<u32>,
    found: (Mark, u32),
    reads: u32,
) {
    let opener = Breaking {
        bytes,
        fails_at,
        reads: AtomicU32::new(0),
    };
    check_file(rt, &&opener, 7, found.0, found.1);
    same!(rt, opener.reads.load(Ordering::SeqCst), reads);
}

/// The records before a failing read are kept, and nothing is read after a fault.
/// A file is read once for each byte up to the faulty one.
#[test]
fn reads_no_more_after_a_fault(rt: HostRuntime) {
    let memory = Mark::Ended(Ending::Memory);
    check_breaking(&rt, EDGES, None, (memory, 0), 0);
    check_breaking(&rt, EDGES, Some(22), (Mark::Io, 1), 23);
    let large = Mark::Ended(Ending::Large);
    check_breaking(&rt, LARGE, Some(21), (large, 1), 21);
}

/// Whether all records of the first file were found and kept, or the mark or the error says that memory ran out after a
/// beginning of them.
fn is_allowed(found: Result<SourceEnd, AllocError>, kept: usize) -> bool {
    match found {
        Ok(end) if end.mark == Mark::Ended(Ending::Complete) => (end.count, kept) == (2, 2),
        Ok(end) => {
            let is_want = end.mark == Mark::Ended(Ending::Memory);
            is_want && kept < 2 && end.count as usize == kept
        }
        Err(AllocError) => kept < 2,
    }
}

/// With each allocation refused in turn, the mark or the error says that memory ran out, and a beginning of the records
/// is kept.
#[test]
fn names_want_of_memory(rt: HostRuntime) {
    let Ok(files) = files(rt.alloc()) else {
        return;
    };
    let opener = MemOpener::new(files, 4);
    if let Some((found, kept)) = shelf_of(rt.alloc(), &opener, 0) {
        same!(&rt, is_allowed(found, kept), true);
    }
}
