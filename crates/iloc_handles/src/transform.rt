//! The transform extension of a locale, and its private extension.
ghost use Rattle.std.specs.Prelude.{◌≡◌, not};
ghost use Rattle.iloc_spec_grammar.specs.Syntax.{is_same};
ghost use Rattle.iloc_handles.specs.Transform.{SetsPrivate, SetsTransformLanguage, fields};
ghost use Rattle.iloc_locale.specs.LocaleReading.{value_of};
ghost use Rattle.iloc_handles.specs.Pairs.{HasSet};

use crate::asking::{Change, put_parsed};
use crate::pairs::Pairs;
use iloc_calls::Status;
use iloc_langid::LanguageIdentifier;
use iloc_locale::Locale;
use iloc_other::Private;
use iloc_subtags::{ParseError, TransformKey, TransformKeyKind};
use iloc_transform::Value;
use std::alloc::{AllocError, Global};

/// Sets the identifier of the transform extension to what the text means; an empty text removes it.
#[derive(Drop)]
pub struct SetTransformLanguage<'a>(pub &'a [u8]);

impl<'a> Change for SetTransformLanguage<'a> {
    ghost changes = { λ s. SetsTransformLanguage s.0.now };

    fn apply(&self, alloc: Global, locale: &mut Locale) -> Status {
        if self.0.is_empty() {
            locale.extensions.transform.lang = None;
            return Status::Done;
        }
        let identifier = LanguageIdentifier::try_from_utf8(alloc, self.0).map(|it| Some(it));
        put_parsed(identifier, &mut locale.extensions.transform.lang)
    }
}

/// The fields.
#[derive(Drop)]
pub struct OfFields;

impl Pairs for OfFields {
    type Kind = TransformKeyKind;

    type Value = Value;

    ghost map = { fields };

    fn pairs(locale: &Locale) -> &[(TransformKey, Value)] {
        locale.extensions.transform.fields.as_slice()
    }

    fn get<'a>(locale: &'a Locale, key: &TransformKey) -> Option<&'a Value> {
        locale.extensions.transform.fields.get(key)
    }

    fn parse(alloc: Global, text: &[u8]) -> Result<Value, ParseError> {
        Value::try_from_utf8(alloc, text)
    }

    fn set(
        locale: &mut Locale,
        alloc: Global,
        key: &TransformKey,
        value: Value,
    ) -> Result<(), AllocError>
        ensures { HasSet fields key.now value (value_of locale.old) (value_of locale.new) result }
    {
        locale.extensions.transform.fields.set(alloc, *key, value)?;
        Ok(())
    }

    fn remove(locale: &mut Locale, key: &TransformKey) {
        locale.extensions.transform.fields.retain_by_key(
            move |other: &TransformKey| -> bool
                ensures { result ≡ not (is_same key.entry.now other.now) }
            { !key.cmp(other).is_eq() },
        );
    }
}

/// Sets the private extension to that of the text, which begins with `x`; an empty text removes it.
#[derive(Drop)]
pub struct SetPrivate<'a>(pub &'a [u8]);

impl<'a> Change for SetPrivate<'a> {
    ghost changes = { λ s. SetsPrivate s.0.now };

    fn apply(&self, alloc: Global, locale: &mut Locale) -> Status {
        if self.0.is_empty() {
            locale.extensions.private.clear();
            return Status::Done;
        }
        let private = Private::try_from_utf8(alloc, self.0);
        put_parsed(private, &mut locale.extensions.private)
    }
}
