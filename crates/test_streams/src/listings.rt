//! Listings over readers and writers that come in single bytes, and that fail.
use crate::runs::{lines_in, reader_of, writer_of};
use iloc_program::{Listing, Mode, RunError, run_listed};
use std::alloc::Global;

// What is listed, the number of its first line, and what is written.
#[derive(Clone, Copy)]
struct Sample {
    mode: Mode,
    listing: Listing,
    first: u64,
    text: &'static str,
    listed: &'static str,
    next: u64,
}

const ALL: Listing = Listing {
    places: true,
    numbers: true,
    only_refused: false,
};

// The lines, which end in the middle of one, with places and numbers.
const EACH: Sample = Sample {
    mode: Mode::Locale,
    listing: ALL,
    first: 9,
    text: "en-us\nen-US-foo\n\nen-\\\nfr",
    listed: "en-US\n10\t! Invalid subtag\t6..9\tfoo\n11\t! The given language subtag is invalid\t0..0\t\n\
12\t! Invalid extension\t3..4\t\\\\\nfr\n",
    next: 14,
};

// The refused lines alone.
const REFUSED: Sample = Sample {
    mode: Mode::Data,
    listing: Listing {
        places: false,
        numbers: false,
        only_refused: true,
    },
    first: 0,
    text: "und-u-sd-sdd\nen-u\nde\n",
    listed: "! Invalid extension\n",
    next: 3,
};

// Whether a listing by single bytes is whole. It reads once for each byte, and once more to meet the end.
fn lists_by_bytes(alloc: Global, sample: &Sample) -> bool {
    let mut reader = reader_of(sample.text, 1, 0);
    let mut writer = writer_of(alloc, 1, 0, false);
    let (mode, listing) = (sample.mode, sample.listing);
    let done = run_listed(alloc, mode, listing, sample.first, &mut reader, &mut writer);
    let calls = sample.text.len().saturating_add(1);
    done == Ok(sample.next)
        && reader.calls == calls
        && writer.taken.as_slice() == sample.listed.as_bytes()
}

// Whether a listing whose reader fails after so many single bytes says so, reads no more, and has listed each line that
// came whole, and nothing else.
fn stops_reading(alloc: Global, sample: &Sample, came: usize) -> bool {
    let fails_at = came.saturating_add(1);
    let mut reader = reader_of(sample.text, 1, fails_at);
    let mut writer = writer_of(alloc, 100, 0, false);
    let (mode, listing) = (sample.mode, sample.listing);
    let done = run_listed(alloc, mode, listing, sample.first, &mut reader, &mut writer);
    let taken = writer.taken.as_slice();
    let lines = lines_in(sample.text.as_bytes(), came);
    done == Err(RunError::Read)
        && reader.calls == fails_at
        && lines_in(taken, taken.len()) == lines
        && sample.listed.as_bytes().starts_with(taken)
}

// Whether a listing whose writer fails, or takes no more, after so many single bytes says so, writes no more, and has
// written just the beginning.
fn stops_writing(alloc: Global, sample: &Sample, came: usize, fails: bool) -> bool {
    let stops_at = came.saturating_add(1);
    let mut reader = reader_of(sample.text, 3, 0);
    let mut writer = writer_of(alloc, 1, stops_at, fails);
    let (mode, listing) = (sample.mode, sample.listing);
    let done = run_listed(alloc, mode, listing, sample.first, &mut reader, &mut writer);
    let taken = writer.taken.as_slice();
    let is_short = taken.len() == came && sample.listed.as_bytes().starts_with(taken);
    done == Err(RunError::Write) && writer.calls == stops_at && is_short
}

#[test]
fn comes_and_goes_by_single_bytes(rt: HostRuntime) {
    assert!(rt; lists_by_bytes(rt.alloc(), &EACH));
    assert!(rt; lists_by_bytes(rt.alloc(), &REFUSED));
}

#[test]
fn stops_where_a_read_fails(rt: HostRuntime) {
    for came in 0..EACH.text.len().saturating_add(1) {
        assert!(rt; stops_reading(rt.alloc(), &EACH, came), "after {came}");
    }
}

#[test]
fn stops_where_a_write_fails(rt: HostRuntime) {
    for came in 0..EACH.listed.len() {
        assert!(rt;
            stops_writing(rt.alloc(), &EACH, came, true),
            "after {came}"
        );
        assert!(rt;
            stops_writing(rt.alloc(), &EACH, came, false),
            "after {came}"
        );
    }
}

#[test]
fn a_line_without_a_number_is_an_error(rt: HostRuntime) {
    let mut reader = reader_of("en\nde\n", 100, 0);
    let mut writer = writer_of(rt.alloc(), 100, 0, false);
    let done = run_listed(
        rt.alloc(),
        Mode::Locale,
        ALL,
        u64::MAX,
        &mut reader,
        &mut writer,
    );
    assert_eq!(rt; done, Err(RunError::Read));
}
