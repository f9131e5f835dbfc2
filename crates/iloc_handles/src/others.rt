//! The other extensions of a locale, by their singletons.
ghost use Rattle.std.specs.Prelude.{◌≡◌, ◌==◌, ◌↔◌, ◌⊎◌, not, IsTrue, MatchResult, OnErr, OnOk};
ghost use Rattle.std.specs.FinMap.{put};
ghost use Rattle.std.specs.Option.{option_copied};
ghost use Rattle.std.specs.Ordering.{nat_cmp};
ghost use Rattle.iloc_spec_grammar.specs.Syntax.{Block, is_other_singleton};
ghost use Rattle.iloc_locale.specs.LocaleReading.{value_of};
ghost use Rattle.iloc_handles.specs.Others.{
  HasOther as IsThere,
  IsOtherText,
  RemovesOther,
  SetsOther,
  other_at,
  other_text_at,
};
ghost use Rattle.iloc_handles.specs.OtherPlaces.{how_many_less, place_of_singleton};

use crate::asking::{Change, Part, Question};
use iloc_calls::{Status, hand_out_found};
use iloc_locale::Locale;
use iloc_other::Other;
use iloc_other::singleton::take_singleton;
use iloc_subtags::{ParseError, SubtagIterator};
use std::alloc::{AllocError, Global};

// How many of the others stand before the first of this singleton.
fn place_of(others: &[Other], ext: u8) -> usize
    ensures { result ≡ place_of_singleton ext others.now }
{
    let found = others.iter().position(|other| other.get_ext_byte() == ext);
    found.unwrap_or(others.len())
}

// The extension of this singleton, in either case.
fn other_of(locale: &Locale, singleton: u8) -> Option<&Other>
    ensures { option_copied result ≡ other_at singleton (value_of locale.now) }
{
    let others = locale.extensions.other.as_slice();
    others.get(place_of(others, singleton.to_ascii_lowercase()))
}

/// Whether there is an extension of the singleton, in either case.
#[derive(Drop)]
pub struct HasOther(pub u8);

impl Question for HasOther {
    type Answer = bool;

    ghost is_answer = { λ h M answer. IsTrue answer ↔ IsThere h.0 M };

    fn ask(&self, locale: &Locale) -> bool {
        other_of(locale, self.0).is_some()
    }
}

/// The extension of the singleton, in either case.
#[derive(Drop)]
pub struct OfOther(pub u8);

impl Part for OfOther {
    ghost text = { λ o. other_text_at o.0 };

    fn hand_out(&self, locale: &Locale, buffer: &mut [u8], needed: &mut usize) -> Status {
        hand_out_found(other_of(locale, self.0), buffer, needed)
    }
}

// Whether the singleton, in lower case, is neither that of `t`, `u` nor `x`.
fn is_other(ext: u8) -> bool
    ensures { result ≡ is_other_singleton ext }
{
    ext.is_ascii_alphanumeric() && !matches!(ext, b't' | b'u' | b'x')
}

// The extension that is the text, as it may stand in a locale.
fn read_other(alloc: Global, text: &[u8]) -> Result<Other, ParseError>
    ensures { MatchResult result (λ o. IsOtherText text.now o)
        (λ e. (e ≡ ParseError.OutOfMemory)
        ⊎ ((e ≡ ParseError.InvalidExtension) × ((o : Block) → ¬ (IsOtherText text.now o)))) }
{
    let mut iter = SubtagIterator::new(text);
    let Some(ext) = take_singleton(&mut iter) else {
        return Err(ParseError::InvalidExtension);
    };
    if !is_other(ext) {
        return Err(ParseError::InvalidExtension);
    }
    let other = Other::try_from_iter(alloc, ext, &mut iter)?;
    match iter.peek() {
        Some(_) => Err(ParseError::InvalidExtension),
        None => Ok(other),
    }
}

// How many of the others stand before the first that is not less than this singleton.
fn place_to_put(others: &[Other], ext: u8) -> usize
    ensures { result ≡ how_many_less ext others.now }
{
    let above = others.iter().position(|other| ext <= other.get_ext_byte());
    above.unwrap_or(others.len())
}

// Puts the extension in the place of that of its singleton, or else where it belongs.
fn put_other(others: &mut Vec<Other>, other: Other) -> Result<(), AllocError>
    ensures ok { OnOk result (others.new.items ≡ put nat_cmp other.0 other.1 others.old.items) }
    ensures err { OnErr result (others.new.items ≡ others.old.items) }
{
    let place = place_to_put(others, other.get_ext_byte());
    if place < others.len() && others[place].get_ext_byte() == other.get_ext_byte() {
        others[place] = other;
        return Ok(());
    }
    Ok(others.insert(place, other)?)
}

/// Sets the extension of its singleton to that of the text.
#[derive(Drop)]
pub struct SetOther<'a>(pub &'a [u8]);

impl<'a> Change for SetOther<'a> {
    ghost changes = { λ s. SetsOther s.0.now };

    fn apply(&self, alloc: Global, locale: &mut Locale) -> Status {
        match read_other(alloc, self.0) {
            Ok(other) => Status::of_allocation(put_other(&mut locale.extensions.other, other)),
            Err(refusal) => Status::from(refusal),
        }
    }
}

/// Removes the extension of the singleton, in either case.
#[derive(Drop)]
pub struct RemoveOther(pub u8);

impl Change for RemoveOther {
    ghost changes = { λ r. RemovesOther r.0 };

    fn apply(&self, _alloc: Global, locale: &mut Locale) -> Status {
        if other_of(locale, self.0).is_none() {
            return Status::NotFound;
        }
        let ext = self.0.to_ascii_lowercase();
        locale.extensions.other.retain(
            move |other: &Other| -> bool
                ensures { result ≡ not (other.now.0 == ext) }
            { other.get_ext_byte() != ext },
        );
        Status::Done
    }
}
