//! What tests of all layers share: how they compare values, the bytes of known records, random numbers, a writer with
//! little room, a plain parser of streams, and a wait for other threads. It uses no other crate.
#![tactic(auto)]

mod comparing;
mod numbers;
mod planes;
mod points;
pub mod records;
mod shapes;
mod sources;
mod splitting;
mod waiting;
mod writers;

pub use comparing::compared;
pub use numbers::Random;
pub use planes::{plane_in, read, record_of};
pub use points::{Place, points_in};
pub use shapes::{Case, L, ONE_BEND, R, prices_in, shape_in, strings_in};
pub use sources::Failing;
pub use splitting::{frame, split};
pub use waiting::wait_for_count;
pub use writers::Narrow;
