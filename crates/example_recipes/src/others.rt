//! JSON strings of locales, the library of the program, and old raw forms of languages.
use icu_locale_core::bench::{CarryError, carry_v1};
use icu_locale_core::json::{JsonError, JsonText};
use icu_locale_core::program::{Listing, Mode, RunError, run, run_listed};
use icu_locale_core::{Locale, ParseError};
use std::alloc::{AllocError, Global};
use std::fmt::Write;

/// The JSON string of the locale, and whether it parses back to it.
pub fn json(alloc: Global, locale: &Locale, out: &mut String) -> Result<(), ParseError> {
    match round_trip(alloc, locale, out) {
        Ok(()) => Ok(()),
        Err(JsonError::Parse(refusal)) => Err(refusal),
        Err(JsonError::NotText) => Ok(out.push_str("no string")?),
        Err(JsonError::OutOfMemory) => Err(ParseError::OutOfMemory),
    }
}

fn round_trip(alloc: Global, locale: &Locale, out: &mut String) -> Result<(), JsonError> {
    let json = locale.to_json(alloc)?;
    let text = json.to_string(alloc).map_err(|_| JsonError::OutOfMemory)?;
    let same = Locale::from_json(alloc, &json)? == *locale;
    write!(out, "{text}, read back: {same}").map_err(|_| JsonError::OutOfMemory)
}

/// What the program `locale_normal` answers to these lines.
pub fn normalize(alloc: Global, lines: &str, out: &mut String) -> Result<(), RunError> {
    let mut written = Vec::new(alloc);
    run(alloc, Mode::Locale, &mut lines.as_bytes(), &mut written)?;
    out.clear();
    out.push_str(std::str::from_utf8(written.as_slice()).unwrap_or("no text"))?;
    Ok(())
}

/// Which of these lines the program `locale_normal` refuses, why and where.
pub fn refusals(alloc: Global, lines: &str, out: &mut String) -> Result<(), RunError> {
    let refused = Listing {
        places: true,
        numbers: true,
        only_refused: true,
    };
    let mut written = Vec::new(alloc);
    run_listed(
        alloc,
        Mode::Locale,
        refused,
        1,
        &mut lines.as_bytes(),
        &mut written,
    )?;
    out.clear();
    out.push_str(std::str::from_utf8(written.as_slice()).unwrap_or("no text"))?;
    Ok(())
}

/// The length of the row of new raw forms, or why the row of old ones is refused.
pub fn carry(alloc: Global, row: &str, out: &mut String) -> Result<(), AllocError> {
    out.clear();
    match carry_v1(alloc, row.as_bytes()) {
        Ok(carried) => write!(out, "{} bytes", carried.len())?,
        Err(CarryError::OutOfMemory) => return Err(AllocError),
        Err(refusal) => refused(&refusal, out)?,
    }
    Ok(())
}

/// Says why a row is refused.
fn refused(refusal: &CarryError, out: &mut String) -> Result<(), AllocError> {
    out.push_str(refusal.words())
}
