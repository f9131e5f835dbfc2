//! Calendars.
ghost use Rattle.std.specs.Prelude.{◌≡◌, Some, None, option_map};
ghost use Rattle.iloc_spec_parts.specs.Keywords.{CalendarAlgorithm as the_keyword, variants};
ghost use Rattle.iloc_tinystr.specs.Number.{number};
ghost use Rattle.iloc_keyword_types.specs.WordTables.{word_at};
ghost use Rattle.iloc_keyword_types.specs.Hijri.{kind_place};
ghost use Rattle.iloc_keyword_types.specs.Calendars.{place, kind, value_of, enum_text};
ghost use Rattle.iloc_keyword_types.specs.CalendarLaws.{placed_at};

use crate::WordEnum;
use crate::hijri::HijriCalendarAlgorithm;

/// A calendar (`ca`).
#[derive(Clone, Copy, Debug, PartialEq, Eq, Hash)]
pub enum CalendarAlgorithm {
    /// `buddhist`.
    Buddhist,
    /// `chinese`.
    Chinese,
    /// `coptic`.
    Coptic,
    /// `dangi`.
    Dangi,
    /// `ethioaa`.
    Ethioaa,
    /// `ethiopic`.
    Ethiopic,
    /// `gregory`.
    Gregory,
    /// `hebrew`.
    Hebrew,
    /// `indian`.
    Indian,
    /// `islamic`, perhaps with a kind.
    Hijri(Option<HijriCalendarAlgorithm>),
    /// `iso8601`.
    Iso8601,
    /// `japanese`.
    Japanese,
    /// `persian`.
    Persian,
    /// `roc`.
    Roc,
}

impl CalendarAlgorithm {
    /// The text of the calendar: of a Hijri calendar of a kind, `islamic-` and the word of the kind.
    #[tactic(auto, unfolding(iloc_spec_grammar::specs::Syntax::join))]
    pub fn as_str(&self) -> &'static str
        ensures { enum_text (value_of self.now) ≡ Some result.now }
    {
        match self {
            Self::Hijri(kind) => hijri_text(*kind),
            other => other.word(),
        }
    }

    // The kind of a Hijri calendar.
    pub(crate) fn kind(&self) -> Option<HijriCalendarAlgorithm>
        ensures { option_map kind_place result ≡ kind self.now }
    {
        match self {
            Self::Hijri(kind) => *kind,
            _ => None,
        }
    }

    // Its word without its kind, as one number, the first byte lowest.
    pub(crate) fn word_number(&self) -> u64
        ensures { result ≡ number (word_at (variants the_keyword) (place self.now)) }
    {
        match self {
            Self::Buddhist => 0x7473_6968_6464_7562,
            Self::Chinese => 0x0065_7365_6e69_6863,
            Self::Coptic => 0x6369_7470_6f63,
            Self::Dangi => 0x0069_676e_6164,
            Self::Ethioaa => 0x0061_616f_6968_7465,
            Self::Ethiopic => 0x6369_706f_6968_7465,
            Self::Gregory => 0x0079_726f_6765_7267,
            Self::Hebrew => 0x7765_7262_6568,
            Self::Indian => 0x6e61_6964_6e69,
            Self::Hijri(_) => 0x0063_696d_616c_7369,
            Self::Iso8601 => 0x0031_3036_386f_7369,
            Self::Japanese => 0x6573_656e_6170_616a,
            Self::Persian => 0x006e_6169_7372_6570,
            Self::Roc => 0x0063_6f72,
        }
    }

    // The calendar without its kind.
    pub(crate) fn of_any_kind(self) -> Self
        ensures { value_of result ≡ (place self, None) }
    {
        match self {
            Self::Hijri(_) => Self::Hijri(None),
            other => other,
        }
    }
}

// The text of a Hijri calendar.
#[tactic(auto, unfolding(iloc_spec_grammar::specs::Syntax::join))]
fn hijri_text(kind: Option<HijriCalendarAlgorithm>) -> &'static str
    ensures { enum_text (9, option_map kind_place kind) ≡ Some result.now }
{
    match kind {
        None => "islamic",
        Some(HijriCalendarAlgorithm::Umalqura) => "islamic-umalqura",
        Some(HijriCalendarAlgorithm::Tbla) => "islamic-tbla",
        Some(HijriCalendarAlgorithm::Civil) => "islamic-civil",
        Some(HijriCalendarAlgorithm::Rgsa) => "islamic-rgsa",
    }
}

impl WordEnum for CalendarAlgorithm {
    ghost words = { variants the_keyword };

    ghost place = { place };

    ghost placed = { placed_at };

    fn all() -> &'static [Self] {
        &[
            Self::Buddhist,
            Self::Chinese,
            Self::Coptic,
            Self::Dangi,
            Self::Ethioaa,
            Self::Ethiopic,
            Self::Gregory,
            Self::Hebrew,
            Self::Indian,
            Self::Hijri(None),
            Self::Iso8601,
            Self::Japanese,
            Self::Persian,
            Self::Roc,
        ]
    }

    fn word(&self) -> &'static str {
        match self {
            Self::Buddhist => "buddhist",
            Self::Chinese => "chinese",
            Self::Coptic => "coptic",
            Self::Dangi => "dangi",
            Self::Ethioaa => "ethioaa",
            Self::Ethiopic => "ethiopic",
            Self::Gregory => "gregory",
            Self::Hebrew => "hebrew",
            Self::Indian => "indian",
            Self::Hijri(_) => "islamic",
            Self::Iso8601 => "iso8601",
            Self::Japanese => "japanese",
            Self::Persian => "persian",
            Self::Roc => "roc",
        }
    }
}
