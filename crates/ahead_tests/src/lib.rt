//! Tests of how far the parts of a run are ahead of one another. Sources make their bytes while they are read.
#![tactic(auto)]

#[cfg(test)]
mod ahead;
#[cfg(test)]
mod by_lane;
#[cfg(test)]
mod commanded;
#[cfg(test)]
mod ends;
#[cfg(test)]
mod fans;
#[cfg(test)]
mod late;
#[cfg(test)]
mod links;
#[cfg(test)]
mod memory;
#[cfg(test)]
mod tickets;
#[cfg(test)]
mod waiting;
