//! Compares without printing.
use icu_locale_core::{Locale, ParseError};
use std::alloc::Global;
use std::fmt::Write;

/// Whether the locale prints the text, which allocates nothing; and whether the text means the locale.
pub fn compare(
    alloc: Global,
    locale: &Locale,
    text: &str,
    out: &mut String,
) -> Result<(), ParseError> {
    let prints = locale.strict_cmp(text.as_bytes()).is_eq();
    let means = locale.normalizing_eq(alloc, text)?;
    write!(out, "prints it: {prints}, means the same: {means}")?;
    Ok(())
}
