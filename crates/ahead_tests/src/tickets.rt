//! Tickets: nothing to draw, and threads that draw each number once.
ghost use Rattle.std.specs.Prelude.{◌≡◌, ◌<◌, ◌≤◌, All, vec_len};
ghost use Rattle.ruled_lanes.specs.declared.channel.TheConstants.{LANES};
ghost use Rattle.ruled_lanes.specs.TicketSeats.{IsSeatOf};

use ruled_lanes::{MAX_TICKETS, Memory, Seat, Tickets};
use std::process::Abort;
use std::sync::atomic::{AtomicU32, Ordering};
use std::test::*;
use std::thread::{Threads, for_each_mut};
use test_tools::same;

/// Draws at the seat of a number, and checks the answer.
fn draws(
    rt: &impl Abort,
    tickets: &Tickets,
    seats: &mut Vec<Seat>,
    number: usize,
    answer: Option<u32>,
)
    requires number { number < vec_len seats.old }
    requires seats { All (IsSeatOf tickets.now) seats.old.items }
    ensures count { vec_len seats.new ≡ vec_len seats.old }
    ensures seats { All (IsSeatOf tickets.now) seats.new.items }
{
    same!(rt, tickets.draw(&mut seats[number]), answer);
}

/// A refused allocation is a fault, and a second call makes the tickets. Two seats draw on one thread.
#[test]
fn refused_memory_is_told(rt: HostRuntime) {
    let (tickets, mut seats) = match Tickets::new(rt.alloc(), 3, 2) {
        Ok(made) => made,
        Err(Memory) => Tickets::new(rt.alloc(), 3, 2).expect(&rt, "memory"),
    };
    draws(&rt, &tickets, &mut seats, 0, Some(0));
    draws(&rt, &tickets, &mut seats, 1, Some(1));
    draws(&rt, &tickets, &mut seats, 0, Some(2));
    draws(&rt, &tickets, &mut seats, 0, None);
    draws(&rt, &tickets, &mut seats, 0, None);
    draws(&rt, &tickets, &mut seats, 1, None);
    same!(&rt, tickets.close(seats), 5);
}

/// No number is drawn of none.
#[test]
fn nothing_to_draw(rt: HostRuntime) {
    let (tickets, mut seats) = Tickets::new(rt.alloc(), 0, 1).expect(&rt, "memory");
    draws(&rt, &tickets, &mut seats, 0, None);
    draws(&rt, &tickets, &mut seats, 0, None);
    same!(&rt, tickets.close(seats), 1);
}

/// Draws until there is nothing left, and adds the numbers to a sum.
fn draw_all(tickets: &Tickets, seat: &mut Seat, sum: &AtomicU32)
    requires { IsSeatOf tickets.now seat.old }
    ensures { IsSeatOf tickets.now seat.new }
{
    for _ in 0..MAX_TICKETS + 1 {
        let Some(number) = tickets.draw(seat) else {
            break;
        };
        sum.fetch_add(number, Ordering::SeqCst);
    }
}

/// Draws at each of these seats, in a thread of its own, until there is nothing left, and adds the numbers to a sum.
fn draw_in_threads<R: Threads + Sync>(
    rt: &R,
    tickets: &Tickets,
    seats: &mut Vec<Seat>,
    sum: &AtomicU32,
)
    requires seats { All (IsSeatOf tickets.now) seats.old.items }
    ensures count { vec_len seats.new ≡ vec_len seats.old }
    ensures seats { All (IsSeatOf tickets.now) seats.new.items }
{
    for_each_mut(
        rt,
        seats.as_mut_slice(),
        8,
        &|_, seat| { draw_all(tickets, seat, sum) },
    );
}

/// All numbers below 256 are dealt in threads, one for each of `lanes` seats: they add up to 32,640.
fn deals<R: Abort + AllocGlobal + Threads + Sync>(rt: &R, lanes: u32, word: u32)
    requires lanes { (1 ≤ lanes) × (lanes ≤ LANES) }
{
    let (tickets, mut seats) = Tickets::new(rt.alloc(), 256, lanes).expect(rt, "memory");
    let sum = AtomicU32::new(0);
    draw_in_threads(rt, &tickets, &mut seats, &sum);
    same!(rt, tickets.close(seats), word);
    same!(rt, sum.load(Ordering::SeqCst), 32_640);
}

/// Four threads draw each number once.
#[test]
fn four_threads_draw_each_number_once(rt: HostRuntime) {
    deals(&rt, 4, 260);
}

/// Eight threads draw each number once.
#[test]
fn eight_threads_draw_each_number_once(rt: HostRuntime) {
    deals(&rt, 8, 264);
}
