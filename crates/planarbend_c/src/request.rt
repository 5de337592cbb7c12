//! The record that a caller gives and how it is to be laid out; what comes of a call, and what is found of a record;
//! and records that are parsed.
ghost use Rattle.std.specs.Prelude.{◌≡◌, ◌↔◌, IsTrue, ◌≢◌, ◌<◌, length, IfOk, IfErr};
ghost use Rattle.planarbend_c.specs.Requests.{AsksNothing, choice_in, drawing_in, shape_kind};
ghost use Rattle.embedding.specs.Rules.{rule_number};
ghost use Rattle.planarbend_c.specs.Codes.{code_of};
ghost use Rattle.ortho_rep.specs.Prices.{HasPrices};
ghost use Rattle.std.proofs.Props.{props};
ghost use Rattle.embedding.specs.declared.wide_record.TheConstants.{MAX_ENTRIES};
ghost use Rattle.answers.specs.Kept.{IsKeptPlane, IsUnkept};
ghost use Rattle.answers.specs.Steps.{IsEmbedded, IsRefused, IsShaped};
ghost use Rattle.planarbend_c.specs.Sources.{Bytes, Entries, IsOneRecord, input_lists, input_of, parsed_lists};
ghost use Rattle.planarbend_c.specs.Faults.{IsUnparsed};

use answers::{RecordScratch, ShapedPlane};
use common::{Choice, DrawingKind, MAX_VERTICES};
use conditions::{Conditions, KeepFault};
use embedding::{MAX_ENTRIES, ReadFault, Rule, WideFault, WideRecord};
use faces::Plane;
use ortho_rep::Points;
use planar_code::{ParseFault, Record};
use std::alloc::Global;

/// What should be one record, in entries of 8 or of 16 bits.
#[repr(C)]
#[derive(Clone, Copy)]
pub struct Source<'a> {
    /// The entries, if they have 8 bits.
    pub bytes: &'a [u8],
    /// The entries, if they have 16 bits.
    pub entries: &'a [u16],
    /// Whether they have 16 bits. The other list is not read.
    pub is_wide: bool,
}

/// What a call is asked for: a record, the numbers of an outer face and of a kind of drawing, and conditions to keep.
#[repr(C)]
#[derive(Clone, Copy)]
pub struct Request<'a> {
    pub source: Source<'a>,
    pub outer: u32,
    pub drawing: u32,
    pub conditions: Conditions<'a>,
}

/// Whether `conditions` has no conditions: its three lists are empty.
pub(crate) fn asks_nothing(conditions: &Conditions<'_>) -> bool
    ensures { IsTrue result ↔ AsksNothing conditions.now }
{
    conditions.turns.is_empty() && conditions.angles.is_empty() && conditions.inner.is_empty()
}

/// The choice of the outer face with this number: 0 the face with the most darts, 1 the one that minimises bends;
/// `None` for others.
pub(crate) fn choice_of(outer: u32) -> Option<Choice>
    ensures { result ≡ choice_in outer }
{
    match outer {
        0 => Some(Choice::First),
        1 => Some(Choice::Best),
        _ => None,
    }
}

/// The kind of drawing with this number: 0 none (`Some(None)`), 1 quick, 2 short; `None` for others.
pub(crate) fn drawing_of(drawing: u32) -> Option<Option<DrawingKind>>
    ensures { result ≡ drawing_in drawing }
{
    match drawing {
        0 => Some(None),
        1 => Some(Some(DrawingKind::Quick)),
        2 => Some(Some(DrawingKind::Short)),
        _ => None,
    }
}

/// The kind of drawing that a shape is found for: `kind`, or a quick one if that is `None`.
pub(crate) fn shape_kind(kind: Option<DrawingKind>) -> DrawingKind
    ensures { result ≡ shape_kind kind }
{
    kind.unwrap_or(DrawingKind::Quick)
}

/// What comes of a call.
#[derive(Clone, Copy)]
pub(crate) enum Outcome {
    /// The record is laid out, and the lists are written.
    Laid,
    /// This is the first rule that the record breaks.
    Refused(Rule),
    /// The bytes or entries are not one record.
    NotARecord,
    /// Memory ran out, which says nothing of the record.
    Memory,
    /// The record is laid out, but some list has room for less than there is. The counts are written.
    Room,
    /// No such outer face or drawing can be asked for, no such angle, or not as many turns.
    Argument,
    /// No shape with the outer face that was asked for keeps the angles and turns.
    NoShape,
    /// Two vertices that are named are not adjacent.
    NoEdge,
    /// All faces are to stay inside.
    NoOuter,
    /// No drawing of the shape in the order of its boxes is in the grid.
    Wide,
    /// The entries begin with a number of vertices above the maximum.
    Large,
    /// Two conditions on one angle, or on one edge, differ.
    Conflict,
}

impl Outcome {
    /// The number of the outcome for C: 0 for `Laid`, 1 to 8 for `Refused`, the number of the first rule that the
    /// record breaks, and 9 to 18 for the others.
    pub(crate) fn code(self) -> u32
        ensures { result ≡ code_of self }
    {
        match self {
            Outcome::Laid => 0,
            Outcome::Refused(rule) => number_of(rule),
            Outcome::NotARecord => 9,
            Outcome::Memory => 10,
            Outcome::Room => 11,
            Outcome::Argument => 12,
            Outcome::NoShape => 13,
            Outcome::NoEdge => 14,
            Outcome::NoOuter => 15,
            Outcome::Wide => 16,
            Outcome::Large => 17,
            Outcome::Conflict => 18,
        }
    }
}

/// The number of a rule, 1 to 8, in the order in which a record must keep them.
fn number_of(rule: Rule) -> u32
    ensures { result ≡ rule_number rule }
{
    match rule {
        Rule::Range => 1,
        Rule::Loop => 2,
        Rule::Multi => 3,
        Rule::Asymmetric => 4,
        Rule::Edgeless => 5,
        Rule::Degree => 6,
        Rule::Disconnected => 7,
        Rule::Genus => 8,
    }
}

/// The plane of a record with a shape and prices, and a drawing where one was asked for.
#[derive(Drop)]
pub(crate) struct Layout {
    /// The plane with its shape, which keeps the conditions if there are some.
    pub laid: ShapedPlane,
    pub drawing: Option<Points>,
    pub ghost priced: { HasPrices laid.plane laid.prices } by { Prim.hlevel props },
}

/// A record in entries of 8 or of 16 bits.
#[derive(Drop)]
pub(crate) enum Parsed {
    Bytes(Record),
    Entries(WideRecord),
}

impl Parsed {
    /// Returns the plane of the record, as [`RecordScratch::embed`] does; works in `scratch`. `Rule` with the first
    /// rule that the record breaks; `Memory` if it breaks none, but memory runs out.
    fn embed(&self, alloc: Global, scratch: &mut RecordScratch) -> Result<Plane, ReadFault>
        ensures { IsEmbedded (parsed_lists self.now) result }
    {
        match self {
            Parsed::Bytes(rec) => scratch.embed(alloc, rec),
            Parsed::Entries(rec) => scratch.embed_wide(alloc, rec),
        }
    }

    /// Returns the plane of the record with the chosen outer face, a least shape for this kind of drawing and its
    /// prices, as [`RecordScratch::shape`] does; works in `scratch`. `Rule` with the first rule that the record breaks;
    /// `Memory` if it breaks none, but memory runs out.
    pub(crate) fn shape(
        &self,
        alloc: Global,
        scratch: &mut RecordScratch,
        choice: Choice,
        drawing_kind: DrawingKind,
    ) -> Result<ShapedPlane, ReadFault>
        ensures shaped { IsShaped choice (parsed_lists self.now) result }
        ensures kind { IfOk result (λ shaped_plane. shaped_plane.drawing_kind ≡ drawing_kind) }
    {
        let plane = self.embed(alloc, scratch);
        scratch.shape(alloc, plane, choice, drawing_kind)
    }

    /// Returns the plane of the record with a least shape that keeps the conditions, as
    /// [`RecordScratch::shape_keeping`] does, whose error is the inner one (also `Memory`); works in `scratch`. The
    /// outer error is `Rule` with the first rule that the record breaks, or `Memory` if memory runs out.
    pub(crate) fn shape_keeping(
        &self,
        alloc: Global,
        scratch: &mut RecordScratch,
        conditions: &Conditions<'_>,
        choice: Choice,
        drawing_kind: DrawingKind,
    ) -> Result<Result<ShapedPlane, KeepFault>, ReadFault>
        ensures kept { IfOk result (λ made. IfOk made (IsKeptPlane conditions.now choice (parsed_lists self.now))) }
        ensures kind { IfOk result (λ made. IfOk made (λ kept. kept.drawing_kind ≡ drawing_kind)) }
        ensures unkept { IfOk result (λ made. IfErr made (IsUnkept conditions.now choice (parsed_lists self.now))) }
        ensures refused { IfErr result (IsRefused (parsed_lists self.now)) }
    {
        let plane = self.embed(alloc, scratch)?;
        Ok(scratch.shape_keeping(alloc, plane, conditions, choice, drawing_kind))
    }
}

/// Returns a copy of `source` as a record, with entries of 8 or 16 bits; `Large` if its entries of 16 bits begin with a
/// number of vertices above the maximum, otherwise `NotARecord` if `source` is not exactly one record, `Memory` if
/// memory runs out.
pub(crate) fn parse(alloc: Global, source: &Source<'_>) -> Result<Parsed, Outcome>
    ensures lists { IfOk result (λ rec. parsed_lists rec ≡ input_lists (input_of source.now)) }
    ensures is_record { IfOk result (λ _. IsOneRecord (input_of source.now)) }
    ensures fault { IfErr result (IsUnparsed (input_of source.now)) }
{
    if source.is_wide {
        parsed_entries(alloc, source.entries)
    } else {
        parsed_bytes(alloc, source.bytes)
    }
}

/// Returns a record that owns a copy of `bytes`; `NotARecord` if they are not exactly one record, `Memory` if memory
/// runs out.
fn parsed_bytes(alloc: Global, bytes: &[u8]) -> Result<Parsed, Outcome>
    ensures lists { IfOk result (λ rec. parsed_lists rec ≡ input_lists (Bytes bytes.now)) }
    ensures is_record { IfOk result (λ _. IsOneRecord (Bytes bytes.now)) }
    ensures fault { IfErr result (IsUnparsed (Bytes bytes.now)) }
{
    match Record::parse(alloc, bytes) {
        Ok(rec) => Ok(Parsed::Bytes(rec)),
        Err(ParseFault::Memory) => Err(Outcome::Memory),
        Err(_) => Err(Outcome::NotARecord),
    }
}

/// Returns a record that owns a copy of these entries of 16 bits; `Large` if their number of vertices is above the
/// maximum, otherwise `NotARecord` if they are not exactly one record, `Memory` if memory runs out. More entries than a
/// record can have are not copied.
fn parsed_entries(alloc: Global, entries: &[u16]) -> Result<Parsed, Outcome>
    ensures lists { IfOk result (λ rec. parsed_lists rec ≡ input_lists (Entries entries.now)) }
    ensures is_record { IfOk result (λ _. IsOneRecord (Entries entries.now)) }
    ensures fault { IfErr result (IsUnparsed (Entries entries.now)) }
{
    if entries.len() > MAX_ENTRIES {
        return Err(fault_of_many(entries));
    }
    let Ok(copy) = Vec::from_slice(alloc, entries) else {
        return Err(Outcome::Memory);
    };
    match WideRecord::new(copy) {
        Ok(rec) => Ok(Parsed::Entries(rec)),
        Err(WideFault::Large) => Err(Outcome::Large),
        Err(WideFault::Record) => Err(Outcome::NotARecord),
    }
}

/// The outcome for more entries than a record can have: `Large` if the first, the number of vertices, is above the
/// maximum, otherwise `NotARecord`.
fn fault_of_many(entries: &[u16]) -> Outcome
    requires { MAX_ENTRIES < length entries.now }
    ensures fault { IsUnparsed (Entries entries.now) result }
    ensures not_memory { result ≢ Outcome.Memory }
{
    if usize::from(entries[0]) > MAX_VERTICES {
        Outcome::Large
    } else {
        Outcome::NotARecord
    }
}
