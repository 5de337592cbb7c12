//! Gathering, by the calling thread, of the messages that the lanes give; what it does with them, for example keep
//! drafts of files; and the reason why a run of lanes fails.
ghost use Rattle.std.specs.Prelude.{◌≡◌, ◌↔◌, List, [], ◌∷◌, ◌++◌, IsTrue, OnOk, IfErr, ℕ, IfOk, ⊤, vec_len, ◌⊎◌, ◌≤◌, true, false, slice_index_or};
ghost use Rattle.lanes.specs.Notes.{Note, Item, End, Stop, notes, notes_of_items};
ghost use Rattle.lanes.specs.declared.gathering.RunFault.{RunFault};
ghost use Rattle.std.proofs.Common.{refl, ◌∙◌};
ghost use Rattle.common.specs.declared.parameters.Choice.{Choice};
ghost use Rattle.lanes.specs.Opening.{Meaning};
ghost use Rattle.lanes.specs.Drafts.{AreDrafts};
ghost use Rattle.lanes.specs.Files.{AreToldWhole, AreReady};
ghost use Rattle.lanes.specs.Stops.{drafts_stop};
ghost use Rattle.ruled_lanes.specs.declared.channel.TheConstants.{LANES};
ghost use Rattle.ruled_lanes.specs.FanEnds.{gathered, TakesFromSameFan};
ghost use Rattle.lanes.specs.Fans.{untagged, HaveStopped};
ghost use Rattle.lanes.specs.Faults.{HoldsOnFault};

use crate::message::{Batch, Gone, Message};
use crate::stage::Numbered;
use ruled_lanes::{Closed, Gatherer, Memory};
use std::alloc::{AllocError, Global};
use std::convert::Infallible;
use std::sync::Wait;
use streams::{Mark, SinkFault, WriteFault};

/// The reason why a run of lanes failed, or why a consumer refused one of their messages.
#[derive(Clone, Copy, Debug, PartialEq, Eq, Drop)]
pub enum RunFault<F: Drop> {
    /// Memory ran out for links, the fan, tickets, buffers, lists of lanes, or what the consumer keeps.
    Memory,
    /// An end of a link or of the fan was gone, or the consumer received a message that no lane gives.
    LaneLost,
    /// A thread could not be started.
    Thread,
    /// The consumer failed for a reason of its own.
    Refused(F),
}

impl RunFault<Infallible> {
    ghost use Rattle.lanes.specs.Faults.{IsOfLanes};

    /// The same fault of a lane, which has no consumer, as the fault of a run with any consumer: `Memory`, `LaneLost`
    /// or `Thread`. It only converts, and cannot fail.
    pub fn of_any_consumer<F: Drop>(self) -> RunFault<F>
        ensures { IsOfLanes result }
    {
        match self {
            RunFault::Memory => RunFault::Memory,
            RunFault::LaneLost => RunFault::LaneLost,
            RunFault::Thread => RunFault::Thread,
        }
    }
}

impl<F: Drop> From<AllocError> for RunFault<F> {
    ghost use Rattle.std.specs.Prelude.{◌≡◌};
    ghost use Rattle.lanes.specs.declared.gathering.RunFault.TheVariants.{Memory};

    ghost from_gives = { λ _ fault. fault ≡ Memory };

    /// The fault `Memory` for a failed allocation. It only converts, and cannot fail.
    fn from(_refused: AllocError) -> RunFault<F> {
        RunFault::Memory
    }
}

impl From<WriteFault> for RunFault<SinkFault> {
    ghost use Rattle.std.specs.Prelude.{◌≡◌};
    ghost use Rattle.lanes.specs.Faults.{run_fault_of};

    ghost from_gives = { λ fault run_fault. run_fault ≡ run_fault_of fault };

    /// The fault of a run for text that was not written completely: `Refused` with `SinkFault` for `Write`, and
    /// `Memory` for `Memory`. It only converts, and cannot fail.
    fn from(fault: WriteFault) -> RunFault<SinkFault> {
        match fault {
            WriteFault::Write => RunFault::Refused(SinkFault),
            WriteFault::Memory => RunFault::Memory,
        }
    }
}

impl<F: Drop> From<Memory> for RunFault<F> {
    /// The fault `Memory` if memory ran out for a link, a fan or tickets. It only converts, and cannot fail.
    fn from(_refused: Memory) -> RunFault<F> {
        RunFault::Memory
    }
}

impl<T: Drop, F: Drop> From<Closed<T>> for RunFault<F> {
    ghost use Rattle.lanes.specs.Faults.{IsOfLanes};

    ghost from_gives = { λ _ fault. IsOfLanes fault };

    /// The fault `LaneLost` for a call that a link or a fan refused; drops the refused item.
    fn from(_refused: Closed<T>) -> RunFault<F> {
        RunFault::LaneLost
    }
}

impl<F: Drop> From<Gone> for RunFault<F> {
    /// The fault `LaneLost` for an end of a link or of the fan that was gone.
    fn from(_gone: Gone) -> RunFault<F> {
        RunFault::LaneLost
    }
}

/// A consumer of the messages of all lanes, one after another.
///
/// In proofs it has what it holds: the notes of the messages that it took in. It also has which part of it stays the
/// same over any number of calls, what is known of it once it refused a message, and that nothing is buffered in it.
pub trait Consumer<E: Numbered, M: Drop>: Drop {
    /// Its own reason to refuse a message, beside lack of memory and a message that no lane gives.
    type Refusal: Drop;

    ghost holds: { Self → List Note → Type 0 };

    ghost stays: { Self → Self → Type 0 };

    ghost gave_up: { Self → RunFault Self.Refusal → Type 0 };

    ghost passed_on: { Self → Type 0 };

    /// Takes in `item`, or drops it with an error: `Memory` if memory ran out, `LaneLost` if no lane gives such a
    /// message, or `Refused` with the consumer's own reason. After an error the run gathers no more messages, and the
    /// implementation determines what the consumer still holds.
    fn item(&mut self, item: E) -> Result<(), RunFault<Self::Refusal>>
        requires { (ns : List Note) × holds self.old ns }
        ensures taken { OnOk result ((ns : List Note) → holds self.old ns → holds self.new (ns ++ Item (E.about item) ∷ [])) }
        ensures gave_up { IfErr result (λ fault. gave_up self.new fault) }
        ensures stays { stays self.old self.new };

    /// Takes in the end of file `file`: its mark, and in `known` what else is known of that end. The errors are those
    /// of `item`: `Memory`, `LaneLost` or `Refused`; after one the run gathers no more messages.
    fn end(&mut self, file: u32, mark: Mark, known: M) -> Result<(), RunFault<Self::Refusal>>
        requires { (ns : List Note) × holds self.old ns }
        ensures taken { OnOk result ((ns : List Note) → holds self.old ns → holds self.new (ns ++ End file mark ∷ [])) }
        ensures gave_up { IfErr result (λ fault. gave_up self.new fault) }
        ensures stays { stays self.old self.new };

    /// Whether nothing is buffered that `flush` would pass on.
    fn is_flushed(&self) -> bool
        ensures { IsTrue result ↔ passed_on self.now };

    /// Passes on what is buffered, so that nothing is buffered any more; called if no message has arrived for some
    /// time. What it holds stays the same. The errors are those of `item`: `Memory`, `LaneLost` or `Refused`; after one
    /// the run gathers no more messages.
    fn flush(&mut self) -> Result<(), RunFault<Self::Refusal>>
        requires { (ns : List Note) × holds self.old ns }
        ensures kept { OnOk result ((ns : List Note) → holds self.old ns → holds self.new ns) }
        ensures flushed { OnOk result (passed_on self.new) }
        ensures gave_up { IfErr result (λ fault. gave_up self.new fault) }
        ensures stays { stays self.old self.new };

    // A stop says nothing about any file.
    ghost holds_on: { (x : Self) (ns : List Note) → holds x ns → holds x (ns ++ Stop ∷ []) };

    // What stays the same stays so over any number of calls.
    ghost stays_itself: { (x : Self) → stays x x };

    ghost stays_on: { (x y z : Self) → stays x y → stays y z → stays x z };
}

/// The entries of one file received so far, and its mark if it has ended.
#[derive(Drop)]
pub struct Draft<E: Drop> {
    pub entries: Vec<E>,
    pub mark: Option<Mark>,
}

/// The drafts of the first files of a run, from file 0 on. A message of any other file is dropped.
#[derive(Drop)]
pub struct Drafts<E: Numbered> {
    pub files: Vec<Draft<E>>,
}

impl<E: Numbered> Drafts<E> {
    /// A draft without entries and without a mark for each of the files 0 to `files` - 1, in order. `AllocError` if
    /// there is no memory for them.
    pub fn new(alloc: Global, files: u32) -> Result<Drafts<E>, AllocError>
        ensures count { IfOk result (λ drafts. vec_len drafts.files ≡ files) }
        ensures empty { IfOk result (λ drafts. AreDrafts E.about 0 [] drafts.files.items) }
    {
        let mut drafts = Vec::with_capacity(alloc, files as usize)?;
        for _ in 0..files {
            drafts.push(Draft {
                entries: Vec::new(alloc),
                mark: None,
            })?;
        }
        Ok(Drafts { files: drafts })
    }

    /// Consumes the drafts and returns the draft of each file, in the order of the files' numbers. It checks nothing: a
    /// draft is complete only if everything about its file was received.
    pub fn into_ready(self) -> Vec<Draft<E>>
        ensures count { vec_len result ≡ vec_len self.files }
        ensures ready { (choice : Choice) (meaning : ℕ → Meaning) (ns : List Note) → AreDrafts E.about 0 ns self.files.items
            → AreToldWhole choice meaning (vec_len self.files) ns → AreReady E.about choice meaning 0 result.items }
    {
        self.files
    }
}

impl<E: Numbered, M: Drop> Consumer<E, M> for Drafts<E> {
    type Refusal = Infallible;

    ghost holds = { λ d ns. AreDrafts E.about 0 ns d.files.items };

    ghost stays = { λ a b. vec_len b.files ≡ vec_len a.files };

    ghost gave_up = { λ _ _. ⊤ };

    ghost passed_on = { λ _. ⊤ };

    /// Appends `item` to the draft of its file; drops it and returns `Ok` if its file has no draft. `Memory`, its only
    /// error, if there is no memory to append it: `item` is dropped, and the drafts stay as they are.
    fn item(&mut self, item: E) -> Result<(), RunFault<Infallible>>
        ensures taken { OnOk result ((ns : List Note) → AreDrafts E.about 0 ns self.old.files.items
            → AreDrafts E.about 0 (ns ++ Item (E.about item) ∷ []) self.new.files.items) }
        ensures stays { vec_len self.new.files ≡ vec_len self.old.files }
    {
        let file = item.file() as usize;
        if file < self.files.len() {
            let Ok(()) = self.files[file].entries.push(item) else {
                return Err(RunFault::Memory);
            };
        }
        Ok(())
    }

    /// Stores `mark` in the draft of file `file`, in place of an earlier mark; does nothing if that file has no draft.
    /// It drops `known`, and always returns `Ok`.
    fn end(&mut self, file: u32, mark: Mark, _known: M) -> Result<(), RunFault<Infallible>>
        ensures taken { OnOk result ((ns : List Note) → AreDrafts E.about 0 ns self.old.files.items
            → AreDrafts E.about 0 (ns ++ End file mark ∷ []) self.new.files.items) }
        ensures stays { vec_len self.new.files ≡ vec_len self.old.files }
    {
        let place = file as usize;
        if place < self.files.len() {
            self.files[place].mark = Some(mark);
        }
        Ok(())
    }

    /// Always true: drafts buffer nothing that is passed on later.
    fn is_flushed(&self) -> bool {
        true
    }

    /// Does nothing and always returns `Ok`: drafts buffer nothing that is passed on later.
    fn flush(&mut self) -> Result<(), RunFault<Infallible>>
        ensures same { self.new ≡ self.old }
    {
        Ok(())
    }

    ghost holds_on = { λ d ns holds. drafts_stop E.about 0 ns d.files.items holds };

    ghost stays_itself = { λ x. refl };

    ghost stays_on = { λ x y z p q. q ∙ p };
}

/// How long something stays buffered in the consumer, in microseconds of sleep, before it is flushed although no
/// message arrives.
const PATIENCE: u64 = 250_000;

/// Sets the entry at index `lane` of `stops` to true; does nothing if `stops` has no such entry.
fn set_stopped(stops: &mut Vec<bool>, lane: u32)
    ensures count { vec_len stops.new ≡ vec_len stops.old }
    ensures noted { (k : ℕ) → slice_index_or stops.new.items k false ≡ true
        → (k ≡ lane) ⊎ (slice_index_or stops.old.items k false ≡ true) }
{
    let place = lane as usize;
    if place < stops.len() {
        stops[place] = true;
    }
}

/// Takes the next message from `gatherer`, and waits for it; returns its lane's number and it. Subtracts the time
/// waited from `patience` while `consumer` has something buffered, flushes it once 0 microseconds are left, and resets
/// `patience` if nothing is buffered. `LaneLost` if all givers are gone, or the fault of the flush, as `Memory`.
///
/// While something is buffered in the consumer, it waits at most the remaining `patience`; then the consumer flushes,
/// and it waits until a message arrives. `LaneLost`: the givers of all lanes were gone. Otherwise the fault is the
/// consumer's.
fn next_message<E: Numbered, M: Drop, C: Consumer<E, M>, R: Wait>(
    rt: &R,
    gatherer: &mut Gatherer<Message<E, M>>,
    consumer: &mut C,
    patience: &mut u64,
) -> Result<(u32, Message<E, M>), RunFault<C::Refusal>>
    requires holds { (ns : List Note) × C.holds consumer.old ns }
    ensures fan { TakesFromSameFan gatherer.old gatherer.new }
    ensures ok { IfOk result (λ item. gathered gatherer.new ≡ gathered gatherer.old ++ item ∷ []) }
    ensures kept { OnOk result ((ns : List Note) → C.holds consumer.old ns → C.holds consumer.new ns) }
    ensures failed { IfErr result (HoldsOnFault (C.gave_up consumer.new) (C.holds consumer.new)) }
    ensures stays { C.stays consumer.old consumer.new }
{
    if !consumer.is_flushed() {
        if let Some(message) = gatherer.take_within(rt, patience)? {
            return Ok(message);
        }
        consumer.flush()?;
    }
    *patience = PATIENCE;
    Ok(gatherer.take(rt)?)
}

/// Passes the items of `batch` to `consumer`, in order, and sends their emptied list back to the stage that filled it.
/// At the first refusal returns that fault of `consumer` (`Memory`, `LaneLost` or `Refused`), and drops the other items
/// and the list.
fn take_in<E: Numbered, M: Drop, C: Consumer<E, M>, R: Wait>(
    rt: &R,
    batch: Batch<E>,
    consumer: &mut C,
) -> Result<(), RunFault<C::Refusal>>
    requires { (ns : List Note) × C.holds consumer.old ns }
    ensures taken { OnOk result ((ns : List Note) → C.holds consumer.old ns → C.holds consumer.new (ns ++ notes_of_items E.about batch.items.items)) }
    ensures gave_up { IfErr result (λ fault. C.gave_up consumer.new fault) }
    ensures stays { C.stays consumer.old consumer.new }
{
    let Batch { mut items, home } = batch;
    for item in items.drain(..) {
        consumer.item(item)?;
    }
    home.send(rt, items);
    Ok(())
}

/// Passes the messages of the fan to `consumer`, as they arrive, until its first `lanes` lanes have stopped; returns
/// the gatherer. `LaneLost` if all givers were gone before, `Memory` if there is no memory for its list of lanes, or a
/// refusal of `consumer`: it then drops the gatherer, and `consumer` keeps what it took in.
///
/// The messages are passed on as they arrive, from whichever lane. If they arrive slowly, what is buffered in the
/// consumer is flushed at most about a quarter of a second later.
///
/// `LaneLost`: the givers of all lanes were gone. `Memory`: no memory for the list of lanes that have stopped.
/// Otherwise the fault is the consumer's. In each case it drops the gatherer, so that no lane waits for it.
pub fn gather<E: Numbered, M: Drop, C: Consumer<E, M>, R: Wait>(
    rt: &R,
    alloc: Global,
    mut gatherer: Gatherer<Message<E, M>>,
    lanes: u32,
    consumer: &mut C,
) -> Result<Gatherer<Message<E, M>>, RunFault<C::Refusal>>
    requires lanes { (1 ≤ lanes) × (lanes ≤ LANES) }
    requires none_gathered { gathered gatherer ≡ [] }
    requires empty { C.holds consumer.old [] }
    ensures fan { IfOk result (λ after. TakesFromSameFan gatherer after) }
    ensures stopped { IfOk result (λ after. HaveStopped E.about lanes (gathered after)) }
    ensures told { IfOk result (λ after. C.holds consumer.new (notes E.about (untagged (gathered after)))) }
    ensures failed { IfErr result (HoldsOnFault (C.gave_up consumer.new) (C.holds consumer.new)) }
    ensures stays { C.stays consumer.old consumer.new }
{
    let mut stops = Vec::from_elem(alloc, false, lanes as usize)?;
    let mut patience = PATIENCE;
    for _ in rt.forever() {
        match next_message(rt, &mut gatherer, consumer, &mut patience)? {
            (_, Message::Item(item)) => consumer.item(item)?,
            (_, Message::Items(batch)) => take_in(rt, batch, consumer)?,
            (_, Message::End(file, mark, known)) => consumer.end(file, mark, known)?,
            (lane, Message::Stop) => {
                set_stopped(&mut stops, lane);
                if !stops.contains(&false) {
                    return Ok(gatherer);
                }
            }
        }
    }
    unreachable!()
}
