//! Tests of the room that calls ask for: each runs out of memory at one item less than it needs, and not at what it
//! needs. Memory is granted up to a number of items; `Endless` memory refuses nothing.
//!
//! The crate stands on the crates whose calls it makes, up to `iloc_json` and `iloc_program`.
#![tactic(auto)]

#[cfg(test)]
mod comparing;
#[cfg(test)]
mod copied_lists;
#[cfg(test)]
mod copied_parts;
#[cfg(test)]
mod memory;
#[cfg(test)]
mod parsing_memory;
#[cfg(test)]
mod runs;
#[cfg(test)]
mod stored;
