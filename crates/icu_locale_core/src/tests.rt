//! The crate as a user meets it: by its paths alone. What the calls answer is said by rows (`test_locale_rows`, `test_part_rows`).
use crate::data::DataLocale;
use crate::faults::{Mode, fault_of};
use crate::parser::ParseError;
use crate::subtags::{Language, Region};
use crate::{LanguageIdentifier, Locale};
use std::alloc::AllocError;
use std::test::Fail;

#[test]
fn words_and_data_locales_have_the_paths_of_the_rust_crate(rt: HostRuntime) -> Result<(), Fail> {
    assert_eq!(rt; Language::try_from_str("en")?.as_str(), "en");
    let mut locale = DataLocale::default();
    locale.language = Language::try_from_str("en")?;
    locale.region = Some(Region::try_from_str("us")?);
    assert!(rt; locale.strict_cmp(b"en-US").is_eq());
    Ok(())
}

#[test]
fn refusals_have_the_paths_of_the_rust_crate(rt: HostRuntime) {
    let refused = Locale::try_from_str(rt.alloc(), "x-foo").err();
    assert_eq!(rt; refused, Some(ParseError::InvalidLanguage));
    let refused = LanguageIdentifier::try_from_str(rt.alloc(), "en-foo").err();
    assert_eq!(rt; refused, Some(ParseError::InvalidSubtag));
}

// Writes carets below the fault of a text; returns whether it has none.
fn point_at_fault(text: &str, carets: &mut String) -> Result<bool, AllocError> {
    let Some(fault) = fault_of(Mode::Locale, text.as_bytes()) else {
        return Ok(true);
    };
    for _ in 0..fault.start {
        carets.push(' ')?;
    }
    for _ in fault.start..fault.end {
        carets.push('^')?;
    }
    if fault.start == fault.end {
        carets.push('^')?;
    }
    Ok(false)
}

#[test]
fn a_fault_has_a_place(rt: HostRuntime) -> Result<(), Fail> {
    let mut carets = String::new(rt.alloc());
    assert!(rt; point_at_fault("en-Latn-US", &mut carets)?);
    assert!(rt; !point_at_fault("en-Latn-abcd-u-ca", &mut carets)?);
    assert_eq!(rt; carets.as_str(), "        ^^^^");
    let mut carets = String::new(rt.alloc());
    assert!(rt; !point_at_fault("en-u", &mut carets)?);
    assert_eq!(rt; carets.as_str(), "    ^");
    Ok(())
}
