//! Calls on whole locales.
ghost use Rattle.std.specs.Prelude.{◌≡◌, ◌↔◌, IsTrue};
ghost use Rattle.std.specs.Ordering.{nat_cmp};
ghost use Rattle.std.specs.Cmp.Lexicographic.{slice_cmp};
ghost use Rattle.iloc_spec_grammar.specs.Values.{text as text_of};
ghost use Rattle.iloc_spec_parts.specs.Orders.{locale_cmp};
ghost use Rattle.iloc_locale.specs.LocaleReading.{value_of};
ghost use Rattle.iloc_calls.specs.Answers.{order_number};
ghost use Rattle.iloc_calls.specs.Hashing.{hash_of};
ghost use Rattle.iloc_handles.specs.Finding.{IsAsked};
ghost use Rattle.iloc_handles.specs.Whole.{ParsesTo, Passes, TellsMeant};

use crate::asking::{Change, Question, ask, put_parsed};
use crate::handle::is_und;
use crate::lent::Lent;
use iloc_calls::{Status, hash_of_text, number, tell_refused};
use iloc_locale::Locale;
use std::alloc::Global;
use std::cmp::Ordering;

/// Makes the locale what the text means.
#[derive(Drop)]
pub struct FromText<'a>(pub &'a [u8]);

impl<'a> Change for FromText<'a> {
    ghost changes = { λ p. ParsesTo p.0.now };

    fn apply(&self, alloc: Global, locale: &mut Locale) -> Status {
        put_parsed(Locale::try_from_utf8(alloc, self.0), locale)
    }
}

/// What is asked of a whole locale, and answered by yes or no.
#[derive(Clone, Copy)]
pub enum Test {
    /// Whether it is `und`.
    Und,
    /// Whether its text means it.
    WellFormed,
}

impl Question for Test {
    type Answer = bool;

    ghost is_answer = { λ t M answer. IsTrue answer ↔ Passes t M };

    fn ask(&self, locale: &Locale) -> bool {
        match self {
            Test::Und => is_und(locale),
            Test::WellFormed => locale.is_well_formed(),
        }
    }
}

// The order against another locale.
#[derive(Drop)]
struct Against<'a>(&'a Locale);

impl<'a> Question for Against<'a> {
    type Answer = Ordering;

    ghost is_answer = { λ a M order. order ≡ locale_cmp M (value_of a.0.now) };

    fn ask(&self, locale: &Locale) -> Ordering {
        locale.total_cmp(self.0)
    }
}

/// The order of the locales of two handles.
pub fn order_of(alloc: Global, handle: &mut Lent, other: &mut Lent) -> Ordering
    ensures { IsAsked handle.old handle.new
        (λ it. IsAsked other.old other.new (λ that. result ≡ locale_cmp it that)) }
{
    if other.is_empty() {
        ask(alloc, handle, &Against(&Locale::unknown(alloc)))
    } else {
        ask(alloc, handle, &Against(other.locale()))
    }
}

/// Whether two locales are equal.
pub fn eq(alloc: Global, handle: &mut Lent, other: &mut Lent) -> bool
    ensures { IsAsked handle.old handle.new
        (λ it. IsAsked other.old other.new (λ that. IsTrue result ↔ (it ≡ that))) }
{
    order_of(alloc, handle, other).is_eq()
}

/// The byte order of the normal form against other bytes, as -1, 0 or 1.
#[derive(Drop)]
pub struct AgainstBytes<'a>(pub &'a [u8]);

impl<'a> Question for AgainstBytes<'a> {
    type Answer = i8;

    ghost is_answer = { λ a M order. order
        ≡ order_number (slice_cmp nat_cmp (text_of M) a.0.now) };

    fn ask(&self, locale: &Locale) -> i8 {
        number(locale.strict_cmp(self.0))
    }
}

/// Writes 1 if the text means the locale, and else 0.
pub fn tell_meant(alloc: Global, handle: &mut Lent, text: &[u8], same: &mut u8) -> Status
    ensures { IsAsked handle.old handle.new
        (λ it. TellsMeant text.now it same.old same.new result) }
{
    match Locale::try_from_utf8(alloc, text) {
        Ok(parsed) => {
            let order = ask(alloc, handle, &Against(&parsed));
            *same = u8::from(order.is_eq());
            Status::Done
        }
        Err(refusal) => tell_refused(refusal, same),
    }
}

/// The hash of the normal form, FNV-1a of its bytes.
pub struct Hashed;

impl Question for Hashed {
    type Answer = u64;

    ghost is_answer = { λ _ M hash. hash ≡ hash_of (text_of M) };

    fn ask(&self, locale: &Locale) -> u64 {
        hash_of_text(locale)
    }
}
