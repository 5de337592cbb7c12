//! Tests of answers to records, and of least shapes that keep edges straight, of conditions, and of the kinds of drawings
//! under them.
#![tactic(auto)]

#[cfg(test)]
mod answers_kinds;
#[cfg(test)]
mod answers_kinds_keeping;
#[cfg(test)]
mod answers_records;
#[cfg(test)]
mod conditions_sizes;
#[cfg(test)]
mod keeping;
