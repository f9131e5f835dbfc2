//! The parts of a locale that have a text and no index.
ghost use Rattle.std.specs.Prelude.{Some, option_map};
ghost use Rattle.iloc_calls.specs.Answers.{Tells};
ghost use Rattle.iloc_handles.specs.Identifier.{text_or_empty};
ghost use Rattle.iloc_handles.specs.Parts.{text_of_part};

use crate::asking::Part;
use iloc_calls::{Status, hand_out, hand_out_found, hand_out_none};
use iloc_data::FormatPreferences;
use iloc_locale::Locale;
use iloc_writeable::Writeable;

/// A part by its name.
#[derive(Clone, Copy)]
pub enum Named {
    /// The normal form of the whole.
    Whole,
    /// The identifier, without extensions.
    BaseName,
    /// The language.
    Language,
    /// The script; if it is absent, an empty text.
    Script,
    /// The region; if it is absent, an empty text.
    Region,
    /// The identifier of the transform extension.
    TransformLanguage,
    /// The private extension, with its `x`; an empty text if there is none.
    Private,
    /// The calendar that formatters read (`ca`).
    Calendar,
    /// The hour cycle that they read (`hc`).
    HourCycle,
    /// The numbering system that they read (`nu`).
    NumberingSystem,
}

impl Part for Named {
    ghost text = { text_of_part };

    fn hand_out(&self, locale: &Locale, buffer: &mut [u8], needed: &mut usize) -> Status {
        match self {
            Named::Whole => hand_out(locale, buffer, needed),
            Named::BaseName => hand_out(&locale.id, buffer, needed),
            Named::Language => hand_out(&locale.id.language, buffer, needed),
            Named::Script => hand_out_optional(&locale.id.script, buffer, needed),
            Named::Region => hand_out_optional(&locale.id.region, buffer, needed),
            Named::TransformLanguage => {
                hand_out_found(locale.extensions.transform.lang.as_ref(), buffer, needed)
            }
            Named::Private => hand_out(&locale.extensions.private, buffer, needed),
            Named::Calendar => match FormatPreferences::from(locale).calendar_algorithm {
                Some(calendar) => hand_out(&calendar.as_str(), buffer, needed),
                None => hand_out_none(needed),
            },
            Named::HourCycle => match FormatPreferences::from(locale).hour_cycle {
                Some(hours) => hand_out(&hours.as_str(), buffer, needed),
                None => hand_out_none(needed),
            },
            Named::NumberingSystem => match FormatPreferences::from(locale).numbering_system {
                Some(system) => hand_out(system.as_inner(), buffer, needed),
                None => hand_out_none(needed),
            },
        }
    }
}

// Hands out the text of a subtag, or an empty text if it is absent.
fn hand_out_optional<W: Writeable>(
    part: &Option<W>,
    buffer: &mut [u8],
    needed: &mut usize,
) -> Status
    ensures { Tells (Some (text_or_empty (option_map W.text part.now))) buffer.old buffer.new
        needed.new result }
{
    match part {
        Some(value) => hand_out(value, buffer, needed),
        None => hand_out(&"", buffer, needed),
    }
}
