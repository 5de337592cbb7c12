//! Tests of `check` on files in memory. The verdicts are found by hand, as `docs/CHECK.md` defines them.
#![tactic(auto)]

#[cfg(test)]
mod drawings;
#[cfg(test)]
mod largest;
#[cfg(test)]
mod lines;
#[cfg(test)]
mod longest;
#[cfg(test)]
mod refusals;
#[cfg(test)]
mod reports;
