//! Formats hours and years as a user wants them: hour cycle, digits and calendar.
//!
//! A line of the input is `SYSTEM USER HOUR YEAR`, joined by spaces: the locale of the system, that of the user, an
//! hour from 0 to 23 and a Gregorian year. What the user's locale says of `hc`, `nu` and `ca` wins over what the
//! system's says (UTS #35, "Key And Type Definitions"); what neither says is `h23`, `latn` and `gregory`.
#![tactic(auto)]

ghost use Rattle.std.specs.Prelude.{◌≡◌, ◌%◌, ◌<◌, ◌≤◌};
ghost use Rattle.icu_locale_core.specs.LocaleReading.{value_of};
ghost use Rattle.icu_locale_core.specs.Formatters.{format_preferences, merge_format};
ghost use Rattle.icu_locale_core.specs.FormatterValues.{format_value};
ghost use Rattle.example_formatter.specs.HourCycles.{first_hour, last_hour};

use icu_locale_core::preferences::FormatPreferences;
use icu_locale_core::preferences::extensions::unicode::keywords::{CalendarAlgorithm, HourCycle};
use icu_locale_core::{Locale, ParseError};
use std::alloc::{AllocError, Global};
use std::io;

/// What both locales prefer; if both say something, the user's wins.
fn merged(system: &Locale, user: &Locale) -> FormatPreferences
    ensures { format_value result ≡ merge_format
        (format_preferences (value_of system.now)) (format_preferences (value_of user.now)) }
{
    let mut preferences = FormatPreferences::from(system);
    preferences.extend(FormatPreferences::from(user));
    preferences
}

/// What the locales of two texts prefer.
fn read(alloc: Global, system: &str, user: &str) -> Result<FormatPreferences, ParseError> {
    let system = Locale::try_from_str(alloc, system)?;
    read_user(alloc, &system, user)
}

/// What a locale and that of a text prefer.
fn read_user(alloc: Global, system: &Locale, user: &str) -> Result<FormatPreferences, ParseError> {
    let user = Locale::try_from_str(alloc, user)?;
    Ok(merged(system, &user))
}

/// The hour as it is counted, 0 to 11, 1 to 12, or 0 to 23, and the half of the day if it is counted twice.
fn counted(hour: u8, cycle: HourCycle) -> (u8, &'static str)
    requires { hour < 24 }
    ensures from { first_hour cycle ≤ result.0 }
    ensures to { result.0 ≤ last_hour cycle }
    ensures same { result.0 % 12 ≡ hour % 12 }
{
    let half = if hour < 12 { " AM" } else { " PM" };
    match cycle {
        HourCycle::H11 => (hour % 12, half),
        HourCycle::H12 | HourCycle::Clock12 => ((hour + 11) % 12 + 1, half),
        HourCycle::H23 | HourCycle::Clock24 => (hour, ""),
    }
}

/// The ten digits of the numbering system.
fn digits(asked: &FormatPreferences) -> &'static str {
    match &asked.numbering_system {
        Some(system) if system.as_inner().as_str() == "arab" => "٠١٢٣٤٥٦٧٨٩",
        Some(system) if system.as_inner().as_str() == "thai" => "๐๑๒๓๔๕๖๗๘๙",
        _ => "0123456789",
    }
}

/// The hour and the year as the preferences have them.
fn time(alloc: Global, asked: &FormatPreferences, hour: u8, year: u16) -> Result<String, AllocError>
    requires { hour < 24 }
{
    let (hour, half) = counted(hour, asked.hour_cycle.unwrap_or(HourCycle::H23));
    let year = match asked.calendar_algorithm {
        Some(CalendarAlgorithm::Buddhist) => u32::from(year) + 543,
        Some(CalendarAlgorithm::Roc) if year > 1911 => u32::from(year) - 1911,
        _ => u32::from(year),
    };
    let mut shown = String::new(alloc);
    for c in format!(in alloc; "{hour}{half} {year}")?.chars() {
        let digit = c.to_digit(10).unwrap_or(10) as usize;
        shown.push(digits(asked).chars().nth(digit).unwrap_or(c))?;
    }
    Ok(shown)
}

/// The words of a line: two locales, an hour and a year.
fn words(line: &str) -> Option<(&str, &str, u8, u16)> {
    let mut words = line.split(' ');
    let (system, user) = (words.next()?, words.next()?);
    let hour = words.next()?.parse::<u8>().ok()?;
    Some((system, user, hour, words.next()?.parse().ok()?))
}

fn main(rt: HostRuntime) -> anyhow::Result<()> {
    let alloc = rt.alloc();
    let input = io::read_to_string(alloc, rt.reader())?;
    for line in input.as_str().lines() {
        let Some((system, user, hour, year)) = words(line) else {
            println!(rt; "{line}: no hour and year")?;
            continue;
        };
        match read(alloc, system, user) {
            Ok(asked) => println!(rt; "{line}: {}", time(alloc, &asked, hour % 24, year)?)?,
            Err(error) => println!(rt; "{line}: {error}")?,
        }
    }
    Ok(())
}
