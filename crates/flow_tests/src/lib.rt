//! Tests of flows of least cost: networks whose least cost is known, by hand, from other solvers, and by a slow solver
//! beside them; the faults of networks; and flows that are kept while supplies move.
#![tactic(auto)]

#[cfg(test)]
mod certificates;
#[cfg(test)]
mod flows;
#[cfg(test)]
mod least;
#[cfg(test)]
mod made;
#[cfg(test)]
mod plain;
#[cfg(test)]
mod random;
#[cfg(test)]
mod warm_start;
