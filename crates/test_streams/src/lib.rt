//! Tests of what no table test can say: sinks, readers and writers that fail in mid-stream, or give and take one byte a
//! call; parts of many types that print as one text; lists and maps whose items own memory; values that are
//! read in place of others; the places of faults.
//!
//! `FailingSink` gives its text and counts its failures. The crate stands on the crates whose calls it makes, up to
//! `iloc_program`.
#![tactic(auto)]

pub mod failing;

pub use failing::FailingSink;

#[cfg(test)]
mod cleaning;
#[cfg(test)]
mod faults;
#[cfg(test)]
mod listings;
#[cfg(test)]
mod lists;
#[cfg(test)]
mod locales;
#[cfg(test)]
mod printing;
#[cfg(test)]
mod runs;
#[cfg(test)]
mod stores;
