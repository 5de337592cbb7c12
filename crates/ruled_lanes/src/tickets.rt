//! Tickets and seats: self-scheduling by fetch-and-add (Gottlieb, Lubachevsky and Rudolph 1983). Their rule is over
//! their one shared word and the knowledge of the seats.
ghost use Rattle.std.specs.Prelude.{◌≡◌, ◌≤◌, [], cond};
ghost use Rattle.ruled_lanes.specs.declared.channel.TheConstants.{LANES, MAX_TICKETS};

use crate::channel::{LANES, MAX_TICKETS, Memory};
use atomic_table::{Join, Play, Seat as Pass, Split, Table, TableRule};
use std::alloc::Global;
use std::collections::LinkedList;

/// The log of one or more seats, for proofs: the limit, the number of seats, and how many of them have ended.
///
/// It also has the numbers that these seats drew. No value of this type is made.
pub struct Draws {
    pub limit: u64,
    pub shares: u64,
    pub ends: u64,
    pub drawn: LinkedList<u32>,
}

/// The invariant of tickets, for proofs: how their shared word relates to the logs of the seats.
pub struct Dealt;

// The key is the limit and the number of seats.
impl TableRule<(), Draws, (u64, u64)> for Dealt {
    ghost use Rattle.std.specs.Prelude.{[]};
    ghost use Rattle.ruled_lanes.specs.TicketProtocol.{draws, IsDealt};

    ghost holds = { λ key s. IsDealt key s.words s.views };

    ghost first = { λ key. draws key.0 key.1 0 [] };
}

/// The split of one seat, which has drawn nothing yet, from several.
pub struct Shares;

impl Split<Draws> for Shares {
    ghost use Rattle.std.specs.Prelude.{◌-◌, []};
    ghost use Rattle.ruled_lanes.specs.TicketProtocol.{draws};

    ghost left = { λ v. draws v.limit (v.shares - 1) v.ends v.drawn };

    ghost right = { λ v. draws v.limit 1 0 [] };
}

// A pass takes over the seats of another.
impl Join<Draws> for Shares {
    ghost use Rattle.std.specs.Prelude.{◌+◌, ◌++◌, []};
    ghost use Rattle.ruled_lanes.specs.TicketProtocol.{draws};

    ghost both = { λ v w. draws v.limit (v.shares + w.shares) (v.ends + w.ends) (w.drawn ++ v.drawn) };

    ghost spent = { draws 0 0 0 [] };
}

/// The step of a draw: the number found is drawn if it is below the limit, and else the seat has ended.
pub struct Draw;

impl Play<(), Draws> for Draw {
    ghost use Rattle.std.specs.Prelude.{◌≡◌};
    ghost use Rattle.ruled_lanes.specs.TicketProtocol.{DrawsNext};

    ghost then = { λ s v n w. DrawsNext v.0 n w.0 × (w.1 ≡ v.1) };
}

type Word = Table<(), Draws, (u64, u64), Dealt, Global>;

/// A shared atomic counter that deals the numbers below a limit to seats, each number once.
#[derive(Drop)]
pub struct Tickets {
    table: Word,
    limit: u64,
    ghost key: { table.shared.key.0 ≡ limit },
    ghost size: { (table.shared.table_id.words ≡ 1) × (table.shared.table_id.slots ≡ 0) },
    ghost within: { (limit ≤ MAX_TICKETS) × (1 ≤ table.shared.key.1) × (table.shared.key.1 ≤ LANES) },
}

/// A handle by which one thread draws numbers from its tickets.
///
/// It cannot be copied, so it knows every number drawn by it.
#[derive(Drop)]
pub struct Seat {
    pass: Pass<(), Draws>,
    has_ended: bool,
    ghost idle: { pass.me.1 ≡ [] },
    ghost one_share: { pass.me.0.shares ≡ 1 },
    ghost ends: { pass.me.0.ends ≡ cond has_ended 1 0 },
}

impl Seat {
    ghost use Rattle.std.specs.Prelude.{false};

    /// A seat over `pass` that has drawn nothing and has not ended.
    fn of(pass: Pass<(), Draws>) -> Seat
        requires idle { pass.me.1 ≡ [] }
        requires unused { (pass.me.0.shares ≡ 1) × (pass.me.0.ends ≡ 0) }
        ensures { (result.pass ≡ pass) × (result.has_ended ≡ false) }
    {
        Seat {
            pass,
            has_ended: false,
        }
    }
}

impl Tickets {
    ghost use Rattle.std.specs.Prelude.{◌∷◌, ◌++◌, ◌+◌, ◌<◌, All, true, false, min, length, count_by, vec_len, Option, None, IfOk, IfSome, IfNone};
    ghost use Rattle.ruled_lanes.specs.TicketProtocol.{draws, HasOnceBelow};
    ghost use Rattle.ruled_lanes.specs.TicketSeats.{limit_of, lanes_of, drawn, has_ended, all_drawn, word_value, MustBeWord, SitsAt, IsSeatOf, IsUnused, IsPool};

    /// Splits `pass`, which represents all seats of the tickets, into `lanes` seats, which have drawn nothing and have
    /// not ended; returns them. `Memory` if there is no memory for the list: `pass` is then dropped.
    fn divide(
        alloc: Global,
        table: &Word,
        mut pass: Pass<(), Draws>,
        lanes: u32,
    ) -> Result<Vec<Seat>, Memory>
        requires words { 0 < table.now.shared.table_id.words }
        requires lanes { 1 ≤ lanes }
        requires pass { (pass.table_id ≡ table.now.shared.table_id) × (pass.me ≡ (draws table.now.shared.key.0 lanes 0 [], [])) }
        ensures lanes { IfOk result (λ seats. vec_len seats ≡ lanes) }
        ensures seats { IfOk result (λ seats. All (SitsAt table.now.shared.table_id table.now.shared.key.0) seats.items) }
        ensures unused { IfOk result (λ seats. All IsUnused seats.items) }
    {
        let mut seats = Vec::with_capacity(alloc, lanes as usize)?;
        for _lane in 1..lanes {
            seats.push_reserved(Seat::of(table.shared.split_seat::<Shares>(&mut pass)));
        }
        seats.push_reserved(Seat::of(pass));
        Ok(seats)
    }

    /// Consumes `seats` and joins their passes; returns the one pass that represents all these seats.
    fn pool(table: &Word, mut seats: Vec<Seat>) -> Pass<(), Draws>
        requires words { 0 < table.now.shared.table_id.words }
        requires some { 1 ≤ vec_len seats }
        requires seats { All (SitsAt table.now.shared.table_id table.now.shared.key.0) seats.items }
        ensures pass { (result.table_id ≡ table.now.shared.table_id) × (result.me.1 ≡ []) }
        ensures pooled { IsPool seats.items result.me.0 }
    {
        let Some(Seat { mut pass, .. }) = seats.pop() else {
            unreachable!()
        };
        while let Some(seat) = seats.pop() {
            let Seat { pass: other, .. } = seat;
            table.shared.join_seat::<Shares>(&mut pass, other);
        }
        pass
    }

    /// New tickets that deal the numbers 0 to `limit` - 1, and a seat for each of `lanes` lanes, which has drawn
    /// nothing and has not ended. `Memory` if there is no memory for them.
    ///
    /// Until a seat draws, the shared word is 0.
    pub fn new(alloc: Global, limit: u32, lanes: u32) -> Result<(Tickets, Vec<Seat>), Memory>
        requires limit { limit ≤ MAX_TICKETS }
        requires lanes { (1 ≤ lanes) × (lanes ≤ LANES) }
        ensures limits { IfOk result (λ r. (limit_of r.0 ≡ limit) × (lanes_of r.0 ≡ lanes)) }
        ensures seats { IfOk result (λ r. (vec_len r.1 ≡ lanes) × All (IsSeatOf r.0) r.1.items) }
        ensures unused { IfOk result (λ r. All IsUnused r.1.items) }
        ensures word { IfOk result (λ r. MustBeWord r.0 r.1.items 0) }
    {
        let key = (limit as u64, lanes as u64);
        let (table, pass) = Word::of_words(alloc, &[0], &key)?;
        let seats = Tickets::divide(alloc, &table, pass, lanes)?;
        let tickets = Tickets {
            table,
            limit: limit as u64,
        };
        Ok((tickets, seats))
    }

    /// Draws the next number for `seat` from the shared counter and returns it; `None` if all numbers below the limit
    /// are drawn, and then `seat` has ended: for an ended seat it returns `None` again and changes nothing.
    ///
    /// It is one step on the shared word. A seat that got `None` once has ended, and takes no further step. It
    /// allocates nothing and never waits.
    pub fn draw(&self, seat: &mut Seat) -> Option<u32>
        requires seat { IsSeatOf self.now seat.old }
        ensures seat { IsSeatOf self.now seat.new }
        ensures below { IfSome result (λ k. k < limit_of self.now) }
        ensures some { IfSome result (λ k. drawn seat.new ≡ drawn seat.old ++ k ∷ []) }
        ensures goes_on { IfSome result (λ k. (has_ended seat.old ≡ false) × (has_ended seat.new ≡ false)) }
        ensures none { IfNone result ((drawn seat.new ≡ drawn seat.old) × (has_ended seat.new ≡ true)) }
        ensures rests { has_ended seat.old ≡ true → (result ≡ None) × (seat.new ≡ seat.old) }
    {
        if seat.has_ended {
            return None;
        }
        let found = self.table.shared.fetch_add::<Draw>(&mut seat.pass, 0, 1);
        if found < self.limit {
            return Some(found as u32);
        }
        seat.has_ended = true;
        None
    }

    /// Consumes the tickets and all their seats; returns how many numbers were drawn plus how many seats have ended.
    ///
    /// The numbers drawn are those below both that value and the limit, each once. It allocates nothing and never
    /// waits.
    pub fn close(self, seats: Vec<Seat>) -> u32
        requires seats { (vec_len seats ≡ lanes_of self) × All (IsSeatOf self) seats.items }
        ensures each_once { HasOnceBelow (min result (limit_of self)) (all_drawn seats.items) }
        ensures word { result ≡ word_value seats.items }
        ensures ended { 0 < count_by has_ended seats.items → limit_of self ≤ result }
    {
        let Tickets { table, .. } = self;
        let pass = Tickets::pool(&table, seats);
        let closed = table.close_with(pass);
        let word = closed.word(0) as u32;
        closed.free();
        word
    }
}
