//! Says whether two texts have the same meaning.
ghost use Rattle.iloc_calls.specs.Answers.{RefusedAnswers, SaysSame};
ghost use Rattle.iloc_normalize.specs.declared.Mode.TheVariants.{Langid, Locale as OfLocale, Data};

use crate::comparing::order_of;
use crate::data::read_data;
use crate::status::Status;
use iloc_langid::LanguageIdentifier;
use iloc_locale::Locale;
use iloc_normalize::Mode;
use iloc_subtags::ParseError;
use std::alloc::Global;

/// A refused text means something else, unless memory ran out when it was parsed.
pub fn tell_refused(refusal: ParseError, same: &mut u8) -> Status
    ensures { RefusedAnswers refusal same.old same.new result }
{
    match refusal {
        ParseError::OutOfMemory => Status::OutOfMemory,
        _ => {
            *same = 0;
            Status::Done
        }
    }
}

/// Writes 1 if the other bytes are an identifier that means the same as the text, and else 0.
fn same_identifiers(alloc: Global, text: &[u8], other: &[u8], same: &mut u8) -> Status
    ensures { SaysSame Langid text.now other.now same.old same.new result }
{
    let identifier = match LanguageIdentifier::try_from_utf8(alloc, text) {
        Ok(identifier) => identifier,
        Err(refusal) => return Status::from(refusal),
    };
    match LanguageIdentifier::try_from_utf8(alloc, other) {
        Ok(other) => {
            *same = u8::from(identifier.total_cmp(&other).is_eq());
            Status::Done
        }
        Err(refusal) => tell_refused(refusal, same),
    }
}

/// Writes 1 if the other bytes are a locale that means the same as the text, and else 0.
fn same_locales(alloc: Global, text: &[u8], other: &[u8], same: &mut u8) -> Status
    ensures { SaysSame OfLocale text.now other.now same.old same.new result }
{
    let locale = match Locale::try_from_utf8(alloc, text) {
        Ok(locale) => locale,
        Err(refusal) => return Status::from(refusal),
    };
    match Locale::try_from_utf8(alloc, other) {
        Ok(other) => {
            *same = u8::from(locale.total_cmp(&other).is_eq());
            Status::Done
        }
        Err(refusal) => tell_refused(refusal, same),
    }
}

/// Writes 1 if the other bytes are a data locale that means the same as the text, and else 0.
fn same_data_locales(alloc: Global, text: &[u8], other: &[u8], same: &mut u8) -> Status
    ensures { SaysSame Data text.now other.now same.old same.new result }
{
    let data = match read_data(text) {
        Ok(data) => data,
        Err(refusal) => return Status::from(refusal),
    };
    let second = match read_data(other) {
        Ok(second) => second,
        Err(_) => {
            *same = 0;
            return Status::Done;
        }
    };
    match order_of(alloc, &data, &second, other) {
        Ok(order) => {
            *same = u8::from(order.is_eq());
            Status::Done
        }
        Err(status) => status,
    }
}

/// Writes 1 if the other bytes have the meaning of the text in the mode, and else 0.
pub(crate) fn tell_same(
    alloc: Global,
    mode: Mode,
    text: &[u8],
    other: &[u8],
    same: &mut u8,
) -> Status
    ensures { SaysSame mode text.now other.now same.old same.new result }
{
    match mode {
        Mode::Langid => same_identifiers(alloc, text, other, same),
        Mode::Locale => same_locales(alloc, text, other, same),
        Mode::Data => same_data_locales(alloc, text, other, same),
    }
}
