//! Tests of runs over files and of their reports: files in memory, gates that count calls or hold them up,
//! openers that count their sources, and refused allocations.
#![tactic(auto)]

#[cfg(test)]
mod json;
#[cfg(test)]
mod many;
#[cfg(test)]
mod runs;
#[cfg(test)]
mod shared;
#[cfg(test)]
mod written;
