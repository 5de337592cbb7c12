//! Tests of runs and of their parts: files that are opened and kept, ends that are lost, stages that are held up, and runs
//! and reports whose sources, openers and writers fail.
#![tactic(auto)]

#[cfg(test)]
mod collector_ahead;
#[cfg(test)]
mod collector_failing;
#[cfg(test)]
mod collector_frames;
#[cfg(test)]
mod collector_pauses;
#[cfg(test)]
mod commands_as_made;
#[cfg(test)]
mod lanes_files;
#[cfg(test)]
mod lanes_held;
#[cfg(test)]
mod lanes_lost;
#[cfg(test)]
mod lanes_slow;
#[cfg(test)]
mod picks_rows;
#[cfg(test)]
mod picks_runs;
#[cfg(test)]
mod reported;
