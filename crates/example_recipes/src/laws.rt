//! Four facts that a program derives from `icu_locale_core` alone, each by calling a law of its own.
ghost use Rattle.std.specs.Prelude.{◌≡◌, ◌⊎◌, ℕ, ◌+◌, ◌≤◌, length, IsTrue, IfOk};
ghost use Rattle.icu_locale_core.specs.Syntax.{Text, languages};
ghost use Rattle.icu_locale_core.specs.Values.{TextStep, Leads};
ghost use Rattle.icu_locale_core.specs.LocaleReading.{IsNormalizedLocale};
ghost use Rattle.icu_locale_core.specs.Preferences.{Preferences, merge, default_preferences};
ghost use Rattle.icu_locale_core.specs.ProgramAnswers.{IsOutput, output};
ghost use Rattle.icu_locale_core.specs.ProgramModes.{Mode};
ghost use Rattle.example_recipes.specs.Judged.{HasOneMeaning, HasOneFault};
ghost use Rattle.example_recipes.specs.Merging.{IsMerged};

use icu_locale_core::faults::fault_of;
use icu_locale_core::laws::grammar::{accepted_or_one_fault, language_lengths, one_meaning};
use icu_locale_core::laws::preferences::merging;
use icu_locale_core::laws::program::outputs;
use icu_locale_core::laws::rewriting::any_steps;
use icu_locale_core::preferences::LocalePreferences;
use icu_locale_core::program::{Mode, RunError, run};
use icu_locale_core::{Locale, ParseError};
use std::alloc::Global;
use std::fmt::Write;

/// How many bytes fewer the normal text has. However many steps rewrite a text, it never gets longer: so the difference
/// is no less than nothing, and a room as long as the text holds its normal text.
fn spared(text: &str, normal: &str) -> usize
    requires { IsNormalizedLocale text.now normal.now }
    ensures steps { (n : ℕ) (t u : Text) → Leads (TextStep languages) n t u
        → length u ≤ length t }
    ensures fewer { length normal.now + result ≡ length text.now }
{
    any_steps();
    text.len() - normal.len()
}

/// Each text has exactly one meaning and no fault, or exactly one fault and no meaning: so whoever reads it takes it for
/// the same locale, or refuses it for the same reason.
fn one_meaning_or_fault()
    ensures { (t : Text) → HasOneMeaning t ⊎ HasOneFault t }
{
    language_lengths();
    accepted_or_one_fault();
    one_meaning();
}

/// Whether the text is a locale, and so has one meaning; if not, it has one fault.
fn is_locale(text: &str) -> bool
    ensures yes { IsTrue result → HasOneMeaning text.now }
    ensures no { ¬ (IsTrue result) → HasOneFault text.now }
{
    one_meaning_or_fault();
    match fault_of(Mode::Locale, text.as_bytes()) {
        None => true,
        Some(_) => false,
    }
}

/// What `run` writes for the lines. Two outputs for one input are equal: so what is written can be kept, and compared
/// with what is written on another day or in another program.
fn written(alloc: Global, lines: &str) -> Result<Vec<u8>, RunError>
    ensures one { (mode : Mode) (input s t : Text) → IsOutput languages mode input s
        → IsOutput languages mode input t → s ≡ t }
    ensures this { IfOk result (λ v. v.items ≡ output languages Mode.Locale lines.now) }
{
    language_lengths();
    outputs();
    let mut written = Vec::new(alloc);
    run(alloc, Mode::Locale, &mut lines.as_bytes(), &mut written)?;
    Ok(written)
}

/// What both prefer. Of each part it is what the second says, if it says something, and else what the first says; the
/// whole of a region takes no subdivision of it away. So preferences that say nothing, or the same, change nothing.
fn merged(first: LocalePreferences, second: LocalePreferences) -> LocalePreferences
    ensures table { IsMerged first second result }
    ensures nothing { (p : Preferences) → merge p default_preferences ≡ p }
    ensures itself { (p : Preferences) → merge p p ≡ p }
    ensures onto_nothing { (p : Preferences) → merge default_preferences p ≡ p }
{
    merging();
    let mut both = first;
    both.extend(second);
    both
}

/// Says the normal text, and how many bytes fewer it has.
pub fn shorten(alloc: Global, text: &str, out: &mut String) -> Result<(), ParseError> {
    let normal = Locale::normalize(alloc, text)?;
    let fewer = spared(text, normal.as_str());
    write!(out, "{normal}, {fewer} bytes fewer")?;
    Ok(())
}

/// Says whether the text is a locale.
pub fn judge(text: &str, out: &mut String) -> Result<(), ParseError> {
    let said = if is_locale(text) {
        "one meaning"
    } else {
        "one fault"
    };
    out.push_str(said)?;
    Ok(())
}

/// Says what the program writes for the line.
pub fn write_line(alloc: Global, line: &str, out: &mut String) -> Result<(), ParseError> {
    match written(alloc, line) {
        Ok(all) => Ok(out.push_str(
            std::str::from_utf8(all.as_slice())
                .unwrap_or("?")
                .trim_end(),
        )?),
        Err(_) => Err(ParseError::OutOfMemory),
    }
}

/// What the locale and that of the text prefer.
fn both(alloc: Global, first: &Locale, second: &str) -> Result<LocalePreferences, ParseError> {
    let second = Locale::try_from_str(alloc, second)?;
    Ok(merged(
        LocalePreferences::from(first),
        LocalePreferences::from(&second),
    ))
}

/// Says the locale of what both prefer.
pub fn prefer(
    alloc: Global,
    first: &Locale,
    second: &str,
    out: &mut String,
) -> Result<(), ParseError> {
    let locale = both(alloc, first, second)?.to_locale(alloc)?;
    write!(out, "{locale}")?;
    Ok(())
}
