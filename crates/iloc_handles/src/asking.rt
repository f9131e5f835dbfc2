//! What is asked of a handle: a part that has a text, a question, or a change. Each is asked of a locale, and stands
//! for `und` where a handle has no box.
ghost use Rattle.std.specs.Prelude.{◌≡◌, ℕ, List, MatchResult, Option, None};
ghost use Rattle.iloc_spec_grammar.specs.Meaning as meaning;
ghost use Rattle.iloc_locale.specs.LocaleReading.{value_of};
ghost use Rattle.iloc_calls.specs.Answers.{Tells};
ghost use Rattle.iloc_calls.specs.Numbers.{EndsAs, status_of};
ghost use Rattle.iloc_calls.specs.declared.status.Status.{Status};
ghost use Rattle.iloc_handles.specs.Held.{IsTight};
ghost use Rattle.iloc_handles.specs.Finding.{Changes, IsAsked, IsChanged};

use crate::handle::{Handle, is_und};
use crate::lent::Lent;
use iloc_calls::Status;
use iloc_locale::Locale;
use iloc_subtags::ParseError;
use std::alloc::Global;

/// A part of a locale that has a text.
pub trait Part {
    /// The text, unless there is no such part.
    ghost text: { Self → meaning.Locale → Option (List ℕ) };

    /// Hands the text out.
    fn hand_out(&self, locale: &Locale, buffer: &mut [u8], needed: &mut usize) -> Status
        ensures { Tells (text self.now (value_of locale.now)) buffer.old buffer.new
            needed.new result };
}

/// A question about a locale.
pub trait Question {
    /// What is answered: a number, or whether something holds.
    type Answer;

    /// It is the answer.
    ghost is_answer: { Self → meaning.Locale → Self.Answer → Type 0 };

    /// Answers it.
    fn ask(&self, locale: &Locale) -> Self::Answer
        ensures { is_answer self.now (value_of locale.now) result };
}

/// A change of a locale.
pub trait Change {
    /// From the locale before to the locale after, and the status.
    ghost changes: { Self → meaning.Locale → meaning.Locale → Status → Type 0 };

    /// Makes it.
    fn apply(&self, alloc: Global, locale: &mut Locale) -> Status
        ensures { changes self.now (value_of locale.old) (value_of locale.new) result };
}

/// Puts what was parsed in its place, or tells why the text was refused.
pub(crate) fn put_parsed<T: Drop>(parsed: Result<T, ParseError>, place: &mut T) -> Status
    ensures { MatchResult parsed (λ value. (place.new ≡ value) × (result ≡ Status.Done))
        (λ refusal. (place.new ≡ place.old) × (result ≡ status_of refusal)) }
{
    match parsed {
        Ok(value) => {
            *place = value;
            Status::Done
        }
        Err(refusal) => Status::from(refusal),
    }
}

/// Hands the text of the part out.
pub fn tell<P: Part>(
    alloc: Global,
    handle: &mut Lent,
    part: &P,
    buffer: &mut [u8],
    needed: &mut usize,
) -> u32
    ensures { IsAsked handle.old handle.new
        (λ it. EndsAs (Tells (P.text part.now it) buffer.old buffer.new needed.new) result) }
{
    let status = if handle.is_empty() {
        part.hand_out(&Locale::unknown(alloc), buffer, needed)
    } else {
        part.hand_out(handle.locale(), buffer, needed)
    };
    status.number()
}

/// Answers the question.
pub fn ask<Q: Question>(alloc: Global, handle: &mut Lent, question: &Q) -> Q::Answer
    ensures { IsAsked handle.old handle.new (λ it. Q.is_answer question.now it result) }
{
    if handle.is_empty() {
        question.ask(&Locale::unknown(alloc))
    } else {
        question.ask(handle.locale())
    }
}

/// Changes the locale.
pub fn make_change<C: Change>(alloc: Global, handle: &mut Handle, change: &C) -> u32
    ensures { IsChanged (C.changes change.now) handle.old.value handle.new.value result }
{
    let Some(mut boxed) = handle.take(alloc) else {
        return change_und(alloc, handle, change).number();
    };
    let status = change.apply(alloc, boxed.as_mut());
    handle.keep(alloc, boxed);
    status.number()
}

// Changes `und`, for which the handle has no box.
fn change_und<C: Change>(alloc: Global, handle: &mut Handle, change: &C) -> Status
    requires { handle.old.value ≡ None }
    ensures changed { Changes (C.changes change.now) None handle.new.value result }
    ensures tight { IsTight handle.new.value }
{
    let mut locale = Locale::unknown(alloc);
    let status = change.apply(alloc, &mut locale);
    if is_und(&locale) {
        return status;
    }
    match Box::new(alloc, locale) {
        Ok(boxed) => {
            handle.put(alloc, boxed);
            status
        }
        Err(_) => Status::OutOfMemory,
    }
}
