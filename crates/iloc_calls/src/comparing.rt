//! Compares what a text means with other bytes.
ghost use Rattle.std.specs.Prelude.{◌≡◌, MatchResult};
ghost use Rattle.std.specs.Ordering.{nat_cmp};
ghost use Rattle.std.specs.Cmp.Lexicographic.{slice_cmp};
ghost use Rattle.iloc_calls.specs.Answers.{ComparesTo, WritesOrder, OrdersTo, order_number};
ghost use Rattle.iloc_calls.specs.Numbers.{status_of};

use crate::data::read_data;
use crate::status::Status;
use iloc_langid::LanguageIdentifier;
use iloc_locale::Locale;
use iloc_normalize::Mode;
use iloc_subtags::ParseError;
use iloc_writeable::{Writeable, cmp_utf8, to_string_or_borrow};
use std::alloc::Global;
use std::cmp::Ordering;

/// The number of an order.
pub fn number(order: Ordering) -> i8
    ensures { result ≡ order_number order }
{
    match order {
        Ordering::Less => -1,
        Ordering::Equal => 0,
        Ordering::Greater => 1,
    }
}

// Compares the text of what was parsed, or says why there is none.
fn compare<T: Writeable + Drop>(read: Result<T, ParseError>, other: &[u8], order: &mut i8) -> Status
    ensures { MatchResult read
        (λ value. (result ≡ Status.Done)
        × (order.new ≡ order_number (slice_cmp nat_cmp (T.text value) other.now)))
        (λ refusal. (result ≡ status_of refusal) × (order.new ≡ order.old)) }
{
    match read {
        Ok(value) => {
            *order = number(cmp_utf8(&value, other));
            Status::Done
        }
        Err(refusal) => Status::from(refusal),
    }
}

/// Writes the byte order of the normal text against the other bytes, as -1, 0 or 1.
pub(crate) fn strict_cmp(
    alloc: Global,
    mode: Mode,
    text: &[u8],
    other: &[u8],
    order: &mut i8,
) -> Status
    ensures { ComparesTo mode text.now other.now order.old order.new result }
{
    match mode {
        Mode::Langid => compare(LanguageIdentifier::try_from_utf8(alloc, text), other, order),
        Mode::Locale => compare(Locale::try_from_utf8(alloc, text), other, order),
        Mode::Data => compare(read_data(text), other, order),
    }
}

// The order of two texts, of which the second is perhaps the bytes.
pub(crate) fn order_of<T: Writeable>(
    alloc: Global,
    first: &T,
    second: &T,
    bytes: &[u8],
) -> Result<Ordering, Status>
    ensures { MatchResult result
        (λ order. order ≡ slice_cmp nat_cmp (T.text first.now) (T.text second.now))
        (λ status. (status ≡ Status.OutOfMemory) × ¬ (bytes.now ≡ T.text second.now)) }
{
    match to_string_or_borrow(alloc, second, bytes) {
        Ok(normal) => Ok(cmp_utf8(first, normal.as_bytes())),
        Err(_) => Err(Status::OutOfMemory),
    }
}

// Compares the texts of what was parsed, or says why there is none.
fn order_read<T: Writeable + Drop>(
    alloc: Global,
    first: Result<T, ParseError>,
    second: Result<T, ParseError>,
    bytes: &[u8],
    order: &mut i8,
) -> Status
    ensures { MatchResult first
        (λ a. MatchResult second
        (λ b. WritesOrder (T.text a) (T.text b) bytes.now order.old order.new result)
        (λ refusal. (result ≡ status_of refusal) × (order.new ≡ order.old)))
        (λ refusal. (result ≡ status_of refusal) × (order.new ≡ order.old)) }
{
    let first = match first {
        Ok(value) => value,
        Err(refusal) => return Status::from(refusal),
    };
    let second = match second {
        Ok(value) => value,
        Err(refusal) => return Status::from(refusal),
    };
    match order_of(alloc, &first, &second, bytes) {
        Ok(found) => {
            *order = number(found);
            Status::Done
        }
        Err(status) => status,
    }
}

/// Writes the byte order of the normal texts of both, as -1, 0 or 1.
pub(crate) fn compare_both(
    alloc: Global,
    mode: Mode,
    text: &[u8],
    other: &[u8],
    order: &mut i8,
) -> Status
    ensures { OrdersTo mode text.now other.now order.old order.new result }
{
    match mode {
        Mode::Langid => order_read(
            alloc,
            LanguageIdentifier::try_from_utf8(alloc, text),
            LanguageIdentifier::try_from_utf8(alloc, other),
            other,
            order,
        ),
        Mode::Locale => order_read(
            alloc,
            Locale::try_from_utf8(alloc, text),
            Locale::try_from_utf8(alloc, other),
            other,
            order,
        ),
        Mode::Data => order_read(alloc, read_data(text), read_data(other), other, order),
    }
}
