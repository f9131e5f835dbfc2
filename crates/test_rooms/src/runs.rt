//! The room that runs ask for: 65,536 bytes for what is read, and 131,072 for the first replies.

use crate::memory::up_to;
use iloc_program::{Listing, Mode, RunError, run_in, run_listed_in};
use std::alloc::Global;
use std::test::Fail;

// What is asked of a listing.
const ALL: Listing = Listing {
    places: true,
    numbers: true,
    only_refused: false,
};

// How a run over two lines ends with so much room, and how many bytes it wrote.
fn run_at(most: usize, heap: Global) -> (Result<(), RunError>, usize) {
    let mut reader = b"EN-us\nen-foo\n".as_slice();
    let mut written = Vec::new(heap);
    let done = run_in(up_to(most, heap), Mode::Locale, &mut reader, &mut written);
    (done, written.len())
}

// How their listing ends, with the number of the next line.
fn list_at(most: usize, heap: Global) -> (Result<u64, RunError>, usize) {
    let mut reader = b"EN-us\nen-foo\n".as_slice();
    let mut written = Vec::new(heap);
    let memory = up_to(most, heap);
    let done = run_listed_in(memory, Mode::Locale, ALL, 1, &mut reader, &mut written);
    (done, written.len())
}

#[test]
fn runs_ask_for_room_for_replies(rt: HostRuntime) -> Result<(), Fail> {
    let heap = rt.alloc();
    for most in [0, 65_535, 65_536, 131_071] {
        assert_eq!(rt; run_at(most, heap), (Err(RunError::OutOfMemory), 0));
        assert_eq!(rt; list_at(most, heap), (Err(RunError::OutOfMemory), 0));
    }
    assert_eq!(rt; run_at(131_072, heap), (Ok(()), 23));
    assert_eq!(rt; list_at(131_072, heap), (Ok(3), 34));
    Ok(())
}
