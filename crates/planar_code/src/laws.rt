//! Theorems about records and how a stream splits into them, each as the contract of an empty function.
ghost use Rattle.std.specs.Prelude.{codes, ◌≡◌, ℕ, ◌<◌, ◌≤◌, List, [], ◌++◌, length, All};
ghost use Rattle.planar_code.specs.declared.TheConstants.{MAX_RECORDS};
ghost use Rattle.planar_code.specs.declared.partial_record.Ending.{Ending};
ghost use Rattle.planar_code.specs.declared.record.ParseFault.{ParseFault};
ghost use Rattle.planar_code.specs.Stream.{IsRecord, HasLongList, lists_of};
ghost use Rattle.planar_code.specs.Split.{IsSplit, MayGoOn};
ghost use Rattle.planar_code.specs.FramerState.{FramerState, StandsAt, HasNotFailed};
ghost use Rattle.planar_code.specs.Parse.{IsParseFault};

use crate::HEADER;

/// Theorem: the header is the text `>>planar_code<<`, byte for byte.
pub fn header_text()
    ensures { HEADER ≡ codes ">>planar_code<<" }
{}

/// Theorem: a record's lists are those that its bytes encode.
pub fn record_lists()
    ensures { (bytes : List ℕ) (r : IsRecord bytes) → lists_of bytes ≡ r.lists }
{}

/// Theorem: no record is a proper prefix of another.
pub fn no_prefix()
    ensures { (bytes more : List ℕ) → IsRecord bytes → IsRecord (bytes ++ more) → more ≡ [] }
{}

/// Theorem: at most one parse fault fits given bytes; bytes that are one record have none but `Memory`.
pub fn one_fault()
    ensures { (bytes : List ℕ) (fault other : ParseFault)
        → IsParseFault bytes fault
        → IsParseFault bytes other
        → fault ≡ other }
{}

/// Theorem: a stream splits into records and an ending in at most one way.
pub fn one_split()
    ensures { (stream : List ℕ) (records others : List (List ℕ)) (end other : Ending)
        → IsSplit stream records end
        → IsSplit stream others other
        → (records ≡ others) × (end ≡ other) }
{}

/// Theorem: every stream of bytes splits into records and an ending.
pub fn some_split()
    ensures { (stream : List ℕ)
        → All (λ byte. byte < 256) stream
        → (records : List (List ℕ)) × (end : Ending) × IsSplit stream records end }
{}

/// Theorem: no stream has more than 1,000,000 records.
pub fn few_records()
    ensures { (stream : List ℕ) (records : List (List ℕ)) (end : Ending)
        → IsSplit stream records end
        → length records ≤ MAX_RECORDS }
{}

/// Theorem: the records so far are a prefix of the records of the stream, however it goes on.
pub fn records_begin()
    ensures { (state : FramerState) (stream : List ℕ) (records : List (List ℕ))
        → StandsAt stream records state
        → (more : List ℕ) (all : List (List ℕ)) (end : Ending)
        → IsSplit (stream ++ more) all end
        → (later : List (List ℕ)) × (all ≡ records ++ later) }
{}

/// Theorem: the stream of a framer that has not failed can go on with more bytes.
pub fn running_may_go_on()
    ensures { (state : FramerState) (stream : List ℕ) (records : List (List ℕ))
        → HasNotFailed state
        → StandsAt stream records state
        → MayGoOn stream }
{}

/// Theorem: a stream that ends `Oversize` contains 255 nonzero bytes in a row.
pub fn oversize_is_long()
    ensures { (stream : List ℕ) (records : List (List ℕ))
        → All (λ byte. byte < 256) stream
        → IsSplit stream records Ending.Oversize
        → HasLongList stream }
{}
