//! The records and the ending of a stream: by a framer that is fed pieces, and by a plain parser to compare it with.

ghost use Rattle.std.specs.Prelude.{◌≡◌, ◌≢◌, IfOk, OnOk, OnErr, Err};
ghost use Rattle.std.specs.List.{flat_map};
ghost use Rattle.planar_code.specs.Split.{IsSplit};
ghost use Rattle.planar_code.specs.Plain.{SplitsBody};

use planar_code::{End, Ending, FeedFault, Framer, HEADER, MAX_RECORDS, Record, record_end};
use std::alloc::{AllocError, Global};

/// Passes on a lack of memory only: any other fault is part of the ending.
fn check_memory(fed: Result<(), FeedFault>) -> Result<(), AllocError>
    ensures ok { OnOk result (fed ≢ Err FeedFault.Memory) }
    ensures err { OnErr result (fed ≡ Err FeedFault.Memory) }
{
    match fed {
        Err(FeedFault::Memory) => Err(AllocError),
        _ => Ok(()),
    }
}

/// The records and the ending of a stream that is given in pieces; they do not depend on where it is divided.
///
/// # Errors
///
/// `AllocError` if there is no memory for the framer or a record.
pub fn frame(alloc: Global, pieces: &[Vec<u8>]) -> Result<(Vec<Record>, Ending), AllocError>
    ensures split { IfOk result (λ s. IsSplit (flat_map (λ piece. piece.items) pieces.now) s.0.items s.1) }
{
    let mut framer = Framer::new(alloc)?;
    let mut records = Vec::new(alloc);
    for piece in pieces {
        check_memory(framer.feed(alloc, piece.as_slice(), &mut records))?;
    }
    Ok((records, framer.finish()))
}

/// Splits the bytes after the header into records.
fn split_body(alloc: Global, body: &[u8]) -> Result<(Vec<Record>, Ending), AllocError>
    ensures { IfOk result (λ s. SplitsBody body.now s.0.items s.1) }
{
    let mut records = Vec::new(alloc);
    let mut rest = body;
    while !rest.is_empty() {
        if records.len() == MAX_RECORDS as usize {
            return Ok((records, Ending::Many));
        }
        if rest[0] == 0 {
            return Ok((records, Ending::Large));
        }
        match record_end(rest) {
            End::After(end) => {
                let Ok(record) = Record::parse(alloc, &rest[..end]) else {
                    return Err(AllocError);
                };
                records.push(record)?;
                rest = &rest[end..];
            }
            End::Truncated => return Ok((records, Ending::Truncated)),
            End::Oversize => return Ok((records, Ending::Oversize)),
        }
    }
    Ok((records, Ending::Complete))
}

/// The records and the ending of a whole stream, by a plain reference parser.
///
/// It reads record by record, as the format is described, and shares no step with the framer, which is compared with it.
///
/// # Errors
///
/// `AllocError` if there is no memory for the records.
pub fn split(alloc: Global, stream: &[u8]) -> Result<(Vec<Record>, Ending), AllocError>
    ensures split { IfOk result (λ s. IsSplit stream.now s.0.items s.1) }
{
    match stream.strip_prefix(&HEADER) {
        Some(body) => split_body(alloc, body),
        None => Ok((Vec::new(alloc), Ending::Header)),
    }
}
