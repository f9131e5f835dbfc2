//! The kinds of Hijri calendars.
ghost use Rattle.std.specs.Prelude.{◌≡◌};
ghost use Rattle.iloc_spec_parts.specs.Keywords.{hijri_kinds};
ghost use Rattle.iloc_tinystr.specs.Number.{number};
ghost use Rattle.iloc_keyword_types.specs.WordTables.{word_at};
ghost use Rattle.iloc_keyword_types.specs.Hijri.{kind_place};
ghost use Rattle.iloc_keyword_types.specs.HijriLaws.{kind_placed};

use crate::WordEnum;

/// A kind of Hijri calendar: what may follow `islamic` in the value of `ca`.
#[derive(Clone, Copy, Debug, PartialEq, Eq, Hash)]
pub enum HijriCalendarAlgorithm {
    /// `umalqura`.
    Umalqura,
    /// `tbla`.
    Tbla,
    /// `civil`.
    Civil,
    /// `rgsa`.
    Rgsa,
}

impl HijriCalendarAlgorithm {
    // Its word as one number, the first byte lowest.
    pub(crate) fn word_number(&self) -> u64
        ensures { result ≡ number (word_at hijri_kinds (kind_place self.now)) }
    {
        match self {
            Self::Umalqura => 0x6172_7571_6c61_6d75,
            Self::Tbla => 0x616c_6274,
            Self::Civil => 0x006c_6976_6963,
            Self::Rgsa => 0x6173_6772,
        }
    }
}

impl WordEnum for HijriCalendarAlgorithm {
    ghost words = { hijri_kinds };

    ghost place = { kind_place };

    ghost placed = { kind_placed };

    fn all() -> &'static [Self] {
        &[Self::Umalqura, Self::Tbla, Self::Civil, Self::Rgsa]
    }

    fn word(&self) -> &'static str {
        match self {
            Self::Umalqura => "umalqura",
            Self::Tbla => "tbla",
            Self::Civil => "civil",
            Self::Rgsa => "rgsa",
        }
    }
}
