//! The maps of a locale from keys to values: its keywords, and the fields of its transform extension.
ghost use Rattle.std.specs.Prelude.{◌≡◌, Err, Ok, length, option_map, slice_get};
ghost use Rattle.std.specs.FinMap.{find};
ghost use Rattle.std.specs.Option.{option_copied};
ghost use Rattle.iloc_spec_grammar.specs.Syntax.{word_cmp};
ghost use Rattle.iloc_subtags.specs.Judging.{Answers};
ghost use Rattle.iloc_locale.specs.LocaleReading.{value_of};
ghost use Rattle.iloc_handles.specs.Pairs.{HasSet, Map, RemovesPair, SetsPair, key_at, value_at, value_of_key, without_key};

use crate::asking::{Change, Part, Question};
use crate::subtags::word_of;
use iloc_calls::{Status, hand_out, hand_out_found, hand_out_none};
use iloc_locale::Locale;
use iloc_subtags::{ParseError, WordKind, WordOf};
use iloc_writeable::Writeable;
use std::alloc::{AllocError, Global};

/// A map of a locale from keys to values.
pub trait Pairs {
    /// The kind of the keys.
    type Kind: WordKind<2>;

    /// The values.
    type Value: Writeable;

    /// The map, and how its values are parsed.
    ghost map: { Map Self.Value };

    /// The pairs, by ascending key.
    fn pairs(locale: &Locale) -> &[(WordOf<Self::Kind, 2>, Self::Value)]
        ensures { result.now ≡ map.pairs (value_of locale.now) };

    /// The value of the key.
    fn get<'a>(locale: &'a Locale, key: &WordOf<Self::Kind, 2>) -> Option<&'a Self::Value>
        ensures { option_copied result ≡ find word_cmp key.now (map.pairs (value_of locale.now)) };

    /// The value that is the text.
    fn parse(alloc: Global, text: &[u8]) -> Result<Self::Value, ParseError>
        ensures { Answers (λ v. map.value text.now ≡ Ok v) (λ f. map.value text.now ≡ Err f)
            (map.ValueWants text.now) result };

    /// Sets the value of the key. If an allocation fails, nothing changes.
    fn set(
        locale: &mut Locale,
        alloc: Global,
        key: &WordOf<Self::Kind, 2>,
        value: Self::Value,
    ) -> Result<(), AllocError>
        ensures { HasSet map key.now value (value_of locale.old) (value_of locale.new) result };

    /// Removes the key and its value.
    fn remove(locale: &mut Locale, key: &WordOf<Self::Kind, 2>)
        ensures { value_of locale.new ≡ map.with_pairs
            (without_key key.now (map.pairs (value_of locale.old))) (value_of locale.old) };
}

/// How many pairs there are.
#[derive(Drop)]
pub struct PairCount<P>(pub P);

impl<P: Pairs> Question for PairCount<P> {
    type Answer = usize;

    ghost is_answer = { λ _ M count. count ≡ length (P.map.pairs M) };

    fn ask(&self, locale: &Locale) -> usize {
        P::pairs(locale).len()
    }
}

// The pair at the index.
#[tactic(auto, using(crate::proofs::ItemLemmas::item_at))]
fn pair_at<P: Pairs>(locale: &Locale, index: usize) -> Option<&(WordOf<P::Kind, 2>, P::Value)>
    ensures { option_copied result ≡ slice_get (P.map.pairs (value_of locale.now)) index }
{
    P::pairs(locale).get(index)
}

/// The key at the index.
#[derive(Drop)]
pub struct KeyAt<P>(pub P, pub usize);

impl<P: Pairs> Part for KeyAt<P> {
    ghost text = { λ k M. key_at k.1 (P.map.pairs M) };

    fn hand_out(&self, locale: &Locale, buffer: &mut [u8], needed: &mut usize) -> Status {
        match pair_at::<P>(locale, self.1) {
            Some(pair) => hand_out(&pair.0, buffer, needed),
            None => hand_out_none(needed),
        }
    }
}

/// The value at the index.
#[derive(Drop)]
pub struct ValueAt<P>(pub P, pub usize);

impl<P: Pairs> Part for ValueAt<P> {
    ghost text = { λ v M. option_map P.Value.text (value_at v.1 (P.map.pairs M)) };

    fn hand_out(&self, locale: &Locale, buffer: &mut [u8], needed: &mut usize) -> Status {
        match pair_at::<P>(locale, self.1) {
            Some(pair) => hand_out(&pair.1, buffer, needed),
            None => hand_out_none(needed),
        }
    }
}

/// The value of the key that is the text.
#[derive(Drop)]
pub struct ValueOf<'a, P>(pub P, pub &'a [u8]);

impl<'a, P: Pairs> Part for ValueOf<'a, P> {
    ghost text = { λ v M. option_map P.Value.text
        (value_of_key P.Kind.kind v.1.now (P.map.pairs M)) };

    fn hand_out(&self, locale: &Locale, buffer: &mut [u8], needed: &mut usize) -> Status {
        match word_of::<P::Kind, 2>(self.1) {
            Ok(key) => hand_out_found(P::get(locale, &key), buffer, needed),
            Err(_) => hand_out_none(needed),
        }
    }
}

/// Sets the value of the key, which are the two texts.
#[derive(Drop)]
pub struct SetPair<'a, P>(pub P, pub &'a [u8], pub &'a [u8]);

impl<'a, P: Pairs> Change for SetPair<'a, P> {
    ghost changes = { λ s. SetsPair P.Kind.kind P.map s.1.now s.2.now };

    fn apply(&self, alloc: Global, locale: &mut Locale) -> Status {
        let Ok(key) = word_of::<P::Kind, 2>(self.1) else {
            return Status::InvalidExtension;
        };
        match P::parse(alloc, self.2) {
            Ok(value) => Status::of_allocation(P::set(locale, alloc, &key, value)),
            Err(refusal) => Status::from(refusal),
        }
    }
}

/// Removes the key that is the text, and its value.
#[derive(Drop)]
pub struct RemovePair<'a, P>(pub P, pub &'a [u8]);

impl<'a, P: Pairs> Change for RemovePair<'a, P> {
    ghost changes = { λ r. RemovesPair P.Kind.kind P.map r.1.now };

    fn apply(&self, _alloc: Global, locale: &mut Locale) -> Status {
        match word_of::<P::Kind, 2>(self.1) {
            Ok(key) if P::get(locale, &key).is_some() => {
                P::remove(locale, &key);
                Status::Done
            }
            _ => Status::NotFound,
        }
    }
}
