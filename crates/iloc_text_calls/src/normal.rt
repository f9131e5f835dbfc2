//! Normal texts of any length.
ghost use Rattle.std.specs.Prelude.{◌≡◌, ⊤, IfOk};
ghost use Rattle.iloc_spec_parts.specs.DataLocales.{data_text};
ghost use Rattle.iloc_data.specs.DataValue.{value_of};
ghost use Rattle.std.specs.Cow.{cow_str_bytes};
ghost use Rattle.iloc_spec_grammar.specs.Syntax.{languages};
ghost use Rattle.iloc_subtags.specs.Judging.{Answers, RunsOutOnlyIf};
ghost use Rattle.iloc_locale.specs.LocaleReading.{NormalizingWantsMemory};
ghost use Rattle.iloc_normalize.specs.Modes.{IsFaulty, IsNormalText};
ghost use Rattle.iloc_normalize.specs.declared.Mode.TheVariants as modes;

use iloc_data::DataLocale;
use iloc_langid::LanguageIdentifier;
use iloc_locale::Locale;
use iloc_normalize::Mode;
use iloc_subtags::ParseError;
use iloc_writeable::to_string_or_borrow;
use std::alloc::{AllocError, Global};
use std::borrow::CowStr;

/// The normal text of what the text means, or why it means nothing.
pub(crate) fn normal_text(
    alloc: Global,
    mode: Mode,
    text: &[u8],
) -> Result<CowStr<'_, Global>, ParseError>
    ensures { Answers (λ n. IsNormalText languages mode text.now (cow_str_bytes n))
        (IsFaulty languages mode text.now) ⊤ result }
{
    match mode {
        Mode::Langid => normal_identifier(alloc, text),
        Mode::Locale => normal_locale(alloc, text),
        Mode::Data => normal_data_locale(alloc, text),
    }
}

fn normal_identifier(alloc: Global, text: &[u8]) -> Result<CowStr<'_, Global>, ParseError>
    ensures { Answers (λ n. IsNormalText languages modes.Langid text.now (cow_str_bytes n))
        (IsFaulty languages modes.Langid text.now) ⊤ result }
{
    LanguageIdentifier::normalize_utf8(alloc, text)
}

/// The normal text of a locale.
pub(crate) fn normal_locale(alloc: Global, text: &[u8]) -> Result<CowStr<'_, Global>, ParseError>
    ensures reads { Answers (λ n. IsNormalText languages modes.Locale text.now (cow_str_bytes n))
        (IsFaulty languages modes.Locale text.now) ⊤ result }
    ensures memory { RunsOutOnlyIf (NormalizingWantsMemory text.now) result }
{
    Locale::normalize_utf8(alloc, text)
}

fn normal_data_locale<'a>(alloc: Global, text: &[u8]) -> Result<CowStr<'a, Global>, ParseError>
    ensures { Answers (λ n. IsNormalText languages modes.Data text.now (cow_str_bytes n))
        (IsFaulty languages modes.Data text.now) ⊤ result }
{
    match DataLocale::try_from_utf8(text) {
        Ok(data) => match printed(alloc, &data) {
            Ok(normal) => Ok(normal),
            Err(_) => Err(ParseError::OutOfMemory),
        },
        Err(refusal) => Err(refusal),
    }
}

// The text of a data locale, in memory of its own.
fn printed<'a>(alloc: Global, locale: &DataLocale) -> Result<CowStr<'a, Global>, AllocError>
    ensures { IfOk result (λ text. cow_str_bytes text ≡ data_text (value_of locale.now)) }
{
    to_string_or_borrow(alloc, locale, b"".as_slice())
}
