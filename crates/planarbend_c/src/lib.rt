//! The call that C makes. It answers one record of planar_code and writes what it finds into lists that the caller
//! owns. It keeps nothing from call to call, starts no thread, and frees all memory that it takes before it returns.
#![tactic(auto)]

mod export;
mod layout;
mod lists;
mod request;

pub use export::planarbend_c_layout;
pub use layout::CutLists;
pub use lists::{Counts, DartTurns, GridPoint, Lists};
pub use request::{Request, Source};
