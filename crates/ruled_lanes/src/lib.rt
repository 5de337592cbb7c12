//! Bounded channels whose callers can prove that nothing is lost. A link has one giver and one taker; settling it
//! proves that the items taken, followed by those still held, are the items given, in order. A fan has a giver for each
//! lane and one gatherer; settling it proves this for each lane separately. Tickets deal numbers to the seats of
//! several lanes, each number once.
#![tactic(auto)]

mod channel;
mod fan_channel;
mod link_channel;
mod tickets;

pub use channel::{Closed, LANES, MAX_CAPACITY, MAX_TICKETS, Memory, fan_in, link};
pub use fan_channel::{Gatherer, LaneGiver};
pub use link_channel::{Giver, Taker};
pub use tickets::{Seat, Tickets};
