//! The type, and its parsers.
ghost use Rattle.std.specs.Prelude.{◌≡◌, ◌↔◌, ⊤, IsTrue, IfOk};
ghost use Rattle.iloc_spec_parts.specs.Preferences.{language_priority, preferences};
ghost use Rattle.iloc_spec_grammar.specs.Syntax.{languages, two_or_three};
ghost use Rattle.iloc_spec_grammar.specs.Meaning.{Means, Fault};
ghost use Rattle.iloc_spec_parts.specs.DataLocales.{DataMeans, HasDataFault, data_text};
ghost use Rattle.iloc_subtags.specs.Judging.{Accepts, Refuses, RunsOutOnlyIf};
ghost use Rattle.iloc_data.specs.DataValue.{value_of, unknown_data};
ghost use Rattle.iloc_data.specs.Reads.{DataTextReads, IsDataAnswer};
ghost use Rattle.iloc_spec_grammar.specs.Meaning as meaning;
ghost use Rattle.iloc_spec_parts.specs.DataLocales as parts;
ghost use Rattle.iloc_data_parts.specs.PartsReading as reading;

use iloc_data_parts::DataParts;
use iloc_subtags::{Language, ParseError, Region, Script, Subtag, Variant};
use std::str::FromStr;

/// The parts of a locale by which data is looked up, as `en-US-u-sd-ustx`.
///
/// Fields can be set to what no text means. The region and the subdivision stand for one thing: the subdivision
/// if it is there and readable, and else the region as a whole.
///
/// ```text
/// let locale = DataLocale::try_from_str("en-us-u-sd-USTX")?; // en-US-u-sd-ustx, which allocates nothing
/// locale.strict_cmp(b"en-US-u-sd-ustx").is_eq(); // true
/// DataLocale::from(&Locale::try_from_str(alloc, "en-GB-u-ca-buddhist")?); // en-GB
/// ```
#[derive(Clone, Copy)]
pub struct DataLocale {
    /// The language.
    pub language: Language,
    /// The script.
    pub script: Option<Script>,
    /// The region.
    pub region: Option<Region>,
    /// The only variant.
    pub variant: Option<Variant>,
    /// The subdivision of the region, with the region, as `ustx`.
    pub subdivision: Option<Subtag>,
}

impl DataLocale {
    /// The unknown data locale, `und`.
    pub fn default() -> Self
        ensures { value_of result ≡ unknown_data }
    {
        DataLocale {
            language: Language::unknown(),
            script: None,
            region: None,
            variant: None,
            subdivision: None,
        }
    }

    /// Parses all of the text, which need not be UTF-8, in whatever case. It allocates nothing.
    ///
    /// Accepted are an identifier with at most one variant, and after it nothing, or `u`, the key `sd` and a
    /// readable subdivision; if that is of another region than the one given, the region as a whole counts.
    /// Such a text means a locale, and what is parsed is also the conversion of that.
    ///
    /// Refuses with `InvalidLanguage` if the first piece is no language. With `InvalidExtension` it refuses a
    /// singleton that is no letter or digit, a `u` that neither a key nor an attribute follows, and one keyword that
    /// is not `sd` with a readable subdivision; and with `InvalidSubtag` everything else.
    #[inline(always)]
    pub fn try_from_utf8(code_units: &[u8]) -> Result<Self, ParseError>
        ensures reads { DataTextReads code_units.now result }
        ensures accepted { (d : parts.DataLocale) → DataMeans languages code_units.now d
            → Accepts value_of ⊤ d result }
        ensures refused { (f : Fault) → HasDataFault languages code_units.now f
            → Refuses ⊤ f result }
        ensures memory { RunsOutOnlyIf ⊥ result }
        ensures back { IfOk result
            (λ d. DataMeans languages (data_text (value_of d)) (value_of d)) }
        ensures converted { IfOk result (λ d. (M : meaning.Locale)
            → Means languages code_units.now M → value_of d ≡ language_priority (preferences M)) }
        ensures meant { IfOk result (λ d. (M : meaning.Locale) × Means languages code_units.now M
            × (value_of d ≡ language_priority (preferences M))) }
        ensures narrow { (d : parts.DataLocale) → DataMeans two_or_three code_units.now d
            → Accepts value_of ⊤ d result }
    {
        read(code_units)
    }

    /// Parses all of a `str`, as `try_from_utf8` parses bytes.
    #[inline(always)]
    pub fn try_from_str(s: &str) -> Result<Self, ParseError>
        ensures reads { DataTextReads s.now result }
        ensures accepted { (d : parts.DataLocale) → DataMeans languages s.now d
            → Accepts value_of ⊤ d result }
        ensures refused { (f : Fault) → HasDataFault languages s.now f → Refuses ⊤ f result }
        ensures memory { RunsOutOnlyIf ⊥ result }
        ensures back { IfOk result
            (λ d. DataMeans languages (data_text (value_of d)) (value_of d)) }
        ensures converted { IfOk result (λ d. (M : meaning.Locale)
            → Means languages s.now M → value_of d ≡ language_priority (preferences M)) }
        ensures meant { IfOk result (λ d. (M : meaning.Locale) × Means languages s.now M
            × (value_of d ≡ language_priority (preferences M))) }
        ensures narrow { (d : parts.DataLocale) → DataMeans two_or_three s.now d
            → Accepts value_of ⊤ d result }
    {
        DataLocale::try_from_utf8(s.as_bytes())
    }

    /// Whether this is `und` and nothing else.
    pub fn is_unknown(&self) -> bool
        ensures { IsTrue result ↔ (value_of self.now ≡ unknown_data) }
    {
        self.language.is_unknown()
            && self.script.is_none()
            && self.region.is_none()
            && self.variant.is_none()
            && self.subdivision.is_none()
    }
}

/// The data locale that is made of the parts: its region, and the text of its region part as the subdivision.
pub fn made_of(parts: DataParts) -> DataLocale
    ensures { value_of result ≡ reading.value_of parts }
{
    let (region, subdivision) = match parts.part {
        Some(id) => (Some(id.region), Some(id.into_subtag())),
        None => (None, None),
    };
    DataLocale {
        language: parts.language,
        script: parts.script,
        region,
        variant: parts.variant,
        subdivision,
    }
}

// Parses all of the text.
#[inline(always)]
fn read(code_units: &[u8]) -> Result<DataLocale, ParseError>
    ensures reads { DataTextReads code_units.now result }
    ensures memory { RunsOutOnlyIf ⊥ result }
{
    match DataParts::try_from_utf8(code_units) {
        Ok(parts) => Ok(made_of(parts)),
        Err(refusal) => Err(refusal),
    }
}

/// The unknown data locale, `und`.
impl Default for DataLocale {
    ghost is_default = { λ d. value_of d ≡ unknown_data };

    fn default() -> Self {
        DataLocale::default()
    }
}

/// Parses as `try_from_str` does, with the same promises.
impl FromStr for DataLocale {
    type Err = ParseError;

    ghost from_str_gives = { IsDataAnswer };

    fn from_str(s: &str) -> Result<Self, ParseError> {
        DataLocale::try_from_str(s)
    }
}
