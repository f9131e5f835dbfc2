//! Room for the parts of a text: 64 spans in place, and more in memory that grows.
//!
//! It promises that spans stand in the order in which they were put (`held_spans`), and that one that comes too late is put
//! where its number belongs (`IsInserted`). Nothing is lost where the room in place is full: the spans move to memory that
//! grows (`more`), and many of them are put in order by a tree (`group`). What stays in place needs no allocator.
//!
//! What may grow asks a `Memory` for room, and gives up only if room for at most one span more was refused (`refused`).
//!
//! It stands on one definition of the grammar, of what is among a list's items, and knows no text.
#![tactic(auto)]

pub mod group;
pub mod inserting;
pub mod more;
pub mod span;
pub mod spans;
