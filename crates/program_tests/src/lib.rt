//! Tests of whole commands on files that they write, of what they print and of their exit status, and of
//! refused allocations.
#![tactic(auto)]

#[cfg(test)]
mod checked;
#[cfg(test)]
mod combinations;
#[cfg(test)]
mod file_lines;
#[cfg(test)]
mod frames;
#[cfg(test)]
mod layouts;
#[cfg(test)]
mod lines;
#[cfg(test)]
mod long_checks;
#[cfg(test)]
mod selected;
#[cfg(test)]
mod shared;
#[cfg(test)]
mod side_by_side;
#[cfg(test)]
mod stream_options;
