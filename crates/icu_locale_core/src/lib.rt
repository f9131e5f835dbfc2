//! Unicode locale identifiers such as `ar-SA-u-ca-islamic-civil`, parsed, changed, compared and printed.
//!
//! It is the Rust crate `icu_locale_core` 2.4.0 in Rattle, at that crate's paths; the syntax is that of
//! UTS #35 section 3. Each item is made in a lower crate and only passed on here.
//!
//! What it promises, by the contracts of the calls, holds unless a call runs out of memory. That is an error, and never
//! ends a program:
//!
//! - For all bytes, `Locale::try_from_utf8` accepts exactly the texts of the grammar, each with its meaning.
//!   Every other text is refused with the fault that the grammar names.
//! - The printed text of a well-formed locale parses as that locale and no other. What was parsed is well-formed.
//! - `Locale::normalize` returns the one normal text of the meaning, borrowed if the input is normal already.
//!   Normalizing twice is normalizing once. Two texts have the same normal text exactly if they mean the same. No
//!   accepted text of that meaning is shorter. At most eight rewriting steps lead there.
//! - Printing, length hints, comparison with bytes, `==`, orders and hashes are those of the definitions, for every
//!   value, also for one that was built and that no text means. Of well-formed locales `==` and `normalizing_eq` are
//!   equality of meaning.
//! - A text is parsed as a data locale exactly if the definition gives it one. This allocates nothing. Data locales are
//!   equal if they stand for the same.
//! - Preferences of a locale are parsed, extended by others and turned into data locales and a locale as the definitions
//!   say; the data locale of a locale is that of its preferences.
//! - `to_json` writes the JSON string of the printed text. It parses back to the same value, if that is well-formed.
//! - `program::run` writes the answer to all that it read; if it fails, what was written is a beginning of that. So does
//!   `program::run_listed` the entry of each line, which may say its number and where its fault stands. This holds if the
//!   contracts of reader and writer describe their bytes.
//! - `faults::fault_of` says of every refused text where its fault stands: at the first piece that no accepted text has
//!   right after the pieces before it, or at the end. It allocates nothing.
//! - Subtags allocate nothing, and short texts fit in place.
//!
//! A first example:
//!
//! ```text
//! let mut locale = Locale::try_from_str(alloc, "EN-us-u-ca-Buddhist")?;
//! locale.write_to_string(alloc)?;                           // en-US-u-ca-buddhist
//! locale.id.region = Some(Region::try_from_str("gb")?);
//! locale == Locale::try_from_str(alloc, "en-GB-u-ca-buddhist")?; // true
//! ```
//!
//! Which calls take the allocator, as the first argument:
//!
//! | Calls | Allocator |
//! |---|---|
//! | `try_from_utf8`, `try_from_str`, `try_from_locale_bytes`, `try_from_iter`, `normalize`, `normalize_utf8`, `try_from_value`, `try_from_key_value`, `from_json`, `to_json`, `read_text`, `run`, `run_listed` | taken; running out of memory is one of the refusals |
//! | `write_to_string`, `to_string_or_borrow`, `Locale::normalizing_eq`, `push`, `push_subtag`, `insert`, `try_insert`, `set`, `extend` and its kin, `union`, `new_double`, `from_iter`, `from_pairs`, `from_subtags`, `from_two_subtags`, `to_value`, `unicode_extension_value`, `to_locale`, `write_text`, `carry_v1` | taken; running out of memory is `AllocError`, or the refusal `OutOfMemory` |
//! | `Locale::unknown`, `new` of `LiteMap`, `Fields`, `Transform` and `Extensions`, `from_langid`, `from_language`, `from_script`, `from_region`, `from_parts`, `from_unicode`, `into_locale`, `Fields::clear` | taken and kept: these allocate nothing |
//! | `clone` of what may own memory | not taken: the value's own; running out of memory is `AllocError` |
//! | subtags, data locales, `try_from_utf8_with_single_variant` and its kin, `fault_of`, `expected`, `hint`, look-ups, removals, `truncate_to_parent`, `retain`, iterators, comparisons, orders, hashes, `write_to` | none: these allocate nothing |
//!
//! In the Rust crate some of these modules are private, and `tinystr`, `writeable` and `litemap` are crates.
#![tactic(auto)]

#[cfg(test)]
mod tests;
mod together;

/// What lists, copies and parsers ask for room, and what is known if it is refused. Programs pass `alloc`, the heap.
pub mod memory {
    pub use iloc_copying::{Copied, Copying, FromMemory, FromOwn};
    pub use iloc_memory::{Ample, Memory, Trees};
}

/// Short ASCII texts.
pub mod tinystr {
    pub use iloc_tinystr::TinyAsciiStr;
}

/// Printing to a sink.
pub mod writeable {
    pub use iloc_writeable::{
        IoSink, LengthHint, Sink, Writeable, cmp_utf8, held_texts, to_string_or_borrow,
        to_string_or_borrow_in, write_to_io,
    };
}

/// Lists that keep a few items in place.
pub mod shortvec {
    pub use iloc_shortvec::{ShortBoxSlice, ShortBoxSliceIntoIter, ShortWords, ShortWordsIntoIter};
}

/// A sorted map over a list of pairs.
pub mod litemap {
    pub use iloc_litemap::{CopyingStore, GrowingStore, LiteMap, Probe, Store, place};
}

/// The subtags of identifiers, and sets of variants.
pub mod subtags {
    pub use iloc_subtags::{Language, Region, Script, Subtag, Variant, Word, WordKind, WordOf};
    pub use iloc_word_list::{Variants, WordSet, is_strictly_ascending, set_hashes as hashes};

    /// The kinds of subtags by name, for code that is generic over them: each subtag is a `WordOf<Kind, N>`.
    pub mod kinds {
        pub use iloc_subtags::{
            AttributeKind, CurrencyTypeKind, LanguageKind, PrivateSubtagKind, RegionKind,
            ScriptKind, SubdivisionSuffixKind, SubtagKind, TransformKeyKind, UnicodeKeyKind,
            VariantKind,
        };
    }
}

/// The pieces of a text, and why a text is refused.
pub mod parser {
    pub use iloc_subtags::{ParseError, SubtagIterator};
}

/// Why a text is refused, and where: `fault_of(Mode::Locale, b"en--US")` is `InvalidSubtag` from byte 3 to byte 3, the
/// empty piece, since no accepted text begins with `en-` and a hyphen. It allocates nothing (docs/DEFINITIONS.md, "Where a
/// fault stands").
///
/// What may stand at the place `expected` says: `expected(Mode::Locale, b"en-foo", 3)` prints as `a script, a region, a
/// variant or an extension`. What is usually meant by a refused text `hint` says: `hint(Mode::Locale, b"en_US")` has the
/// words `use hyphens in place of underscores`. Neither allocates (docs/DEFINITIONS.md, "What may stand at a place").
pub mod faults {
    pub use iloc_expected::{Expected, PieceKind, expected};
    pub use iloc_faults::{Fault, fault_of};
    pub use iloc_hints::{Hint, hint};
    pub use iloc_normalize::Mode;
}

/// Language identifiers.
pub mod langid {
    pub use crate::together::identifiers as together;
    pub use iloc_langid::{LanguageIdentifier, equality, fallback_chain, hashes, orders};
}

/// All extensions of a locale.
pub mod extensions {
    pub use crate::together::all_extensions as together;
    pub use iloc_extensions::extension_laws::{equality, hashes, orders};
    pub use iloc_extensions::{ExtensionType, Extensions};

    /// The unicode extension: attributes and keywords.
    pub mod unicode {
        pub use crate::together::unicode_extensions as together;
        pub use iloc_keyword_types::{SubdivisionId, subdivisions_compare};
        pub use iloc_subtags::{Attribute, SubdivisionSuffix, UnicodeKey as Key};
        pub use iloc_unicode::{
            Attributes, Keywords, KeywordsIter, Unicode, equality, hashes, orders,
        };
        pub use iloc_word_list::{
            Value, equality as value_equality, hashes as value_hashes, orders as value_orders,
        };

        /// Keys by their names, as `key::ca()`.
        pub mod key {
            pub use iloc_keyword_types::known_keys::{
                ca, cf, co, cu, dx, em, fw, hc, kf, kn, lb, lw, ms, mu, nu, rg, sd, ss, tz, va,
            };
        }
    }

    /// The transform extension: an identifier and fields.
    pub mod transform {
        pub use crate::together::transform_extensions as together;
        pub use iloc_transform::field_laws::{
            equality as fields_equality, hashes as fields_hashes, orders,
        };
        pub use iloc_transform::{Fields, Key, Transform, Value, equality, few_words, hashes};
    }

    /// Extensions that are neither unicode, transform nor private.
    pub mod other {
        pub use iloc_other::{Other, equality, hashes, orders};
    }

    /// The private extension: a list of private subtags.
    pub mod private {
        pub use iloc_other::{Private, equality, hashes, orders};
        pub use iloc_subtags::PrivateSubtag as Subtag;
    }
}

/// Locales: identifiers with extensions.
pub mod locale {
    pub use crate::together::locales as together;
    pub use iloc_locale::ordered::equality as ordered_equality;
    pub use iloc_locale::parent::fallback_chain;
    pub use iloc_locale::{
        Locale, OrderedLocale, ample_memory, ample_normalizing, ample_printing, equality,
        every_locale_is_a_value, hashes, memory,
    };
}

/// Ranges of locales, by the extended filtering of RFC 4647: `zh-Hant-TW` matches `zh-TW`.
pub mod matching {
    pub use iloc_matching::matches;
}

/// Lines of other writers: `sr_RS.UTF-8@latin` is cleaned to `sr-Latn-RS`.
pub mod cleaning {
    pub use iloc_cleaning::{clean_line, without_mark};
}

/// Data locales: the parts of a locale by which data is looked up.
pub mod data {
    pub use crate::together::data_locales as together;
    pub use iloc_data::{DataLocale, fallback_chain};
}

/// What a locale prefers, and the keywords that say so.
pub mod preferences {
    pub use iloc_data::{FormatPreferences, LocalePreferences, TimePreferences};
    pub use iloc_keyword_types::PreferenceKey;

    /// Extensions that hold preferences.
    pub mod extensions {
        /// The unicode extension.
        pub mod unicode {
            /// Why the value of a keyword is refused.
            pub mod errors {
                pub use iloc_word_list::PreferencesParseError;
            }

            /// The types of keywords.
            pub mod keywords {
                pub use iloc_enum_keywords::{
                    CollationCaseFirst, CollationNumericOrdering, CollationType, CommonVariantType,
                    CurrencyFormatStyle, EmojiPresentationStyle, FirstDay, HourCycle,
                    LineBreakStyle, LineBreakWordHandling, MeasurementSystem,
                    MeasurementUnitOverride, SentenceBreakSupressions,
                };
                pub use iloc_keyword_types::{
                    CalendarAlgorithm, DictionaryBreakScriptExclusions, HijriCalendarAlgorithm,
                    NumberingSystem, RegionOverride, RegionalSubdivision, SingleKeyword,
                    TimeZoneShortId,
                };
                pub use iloc_subtags::CurrencyType;
            }
        }
    }
}

/// JSON strings of texts.
pub mod json {
    pub use iloc_json::{JsonError, JsonText, TextValue};
}

/// Preferences of formatters, as users define them, and old raw forms of languages, moved to the new ones.
pub mod bench {
    pub use iloc_data::{FormatPreferences, TimePreferences};
    pub use iloc_json::{CarryError, carry_v1, carry_v1_in};
}

/// Laws of the definitions: their orders are total, and what is fed to a hasher tells values apart.
pub mod laws {
    pub use iloc_spec_parts::orders::{hashes, orders};
    pub use iloc_spec_parts::regions::{data_hashes, data_orders};

    /// The grammar: words, meanings, faults, normal texts, and the steps that lead to them.
    pub mod grammar {
        pub use iloc_spec_grammar::{
            accepted_or_one_fault, by_example, chain, identifier_chain, identifier_or_one_fault,
            identifier_steps, identifier_texts, joins, language_lengths, maps, normal_words,
            one_identifier, one_list_of_pieces, one_meaning, printing, raw_forms,
            read_is_well_formed, reads_back, sets, steps, texts_of_parts, well_formed, wider,
            words_read,
        };
    }

    /// Other ways to say the same: by trees, block by block, and by plain programs.
    pub mod models {
        pub use iloc_extensions::turning::in_turn;
        pub use iloc_spec_grammar::models::{
            by_blocks, computed, same_faults, same_meaning, same_text, whole_readings,
        };
    }

    /// Any number of rewriting steps, and plain programs that tell whether a step leads to a text.
    pub mod rewriting {
        pub use iloc_spec_grammar::rewriting::{
            any_identifier_steps, any_steps, by_example, same_steps, tests_by_example,
            tests_of_lists, tests_of_parts, tests_of_texts,
        };
    }

    /// What the parsers of parts take of a text.
    pub mod fronts {
        pub use iloc_spec_parts::fronts::{
            block_rules, by_example, by_readers, extending, keywords_front, other_front,
            part_answers, parts, parts_by_example, private_front, transform_front, unicode_front,
            values,
        };
    }

    /// The orders of values, and what is fed to a hasher.
    pub mod ordering {
        pub use iloc_spec_parts::orders::{by_example, hashes, orders};
    }

    /// Texts of at most one variant and one keyword, and short blocks.
    pub mod small {
        pub use iloc_spec_parts::small::{
            broken_blocks, by_blocks, by_example, inline_texts, short_blocks, small_identifiers,
            small_is_inline, small_or_one_fault, small_texts, wider_small,
        };
    }

    /// Keyword types, and how preferences are merged.
    pub mod preferences {
        pub use iloc_spec_parts::preferences::{
            by_example, data_locales_of_locales, keywords, keywords_by_example, merging,
            merging_formatters, preferences_of_locales,
        };
    }

    /// Subdivisions and data locales.
    pub mod regions {
        pub use iloc_spec_parts::regions::{
            by_example, data_hashes, data_locale_or_one_fault, data_locales, data_orders,
            subdivisions, wider_data_locales,
        };
    }

    /// Where the fault of a text stands.
    pub mod faults {
        pub use iloc_expected::laws::at_a_fault;
        pub use iloc_faults::laws::one_place;
    }

    /// What a range matches.
    pub mod ranges {
        pub use iloc_matching::matching;
    }

    /// What cleaning leaves.
    pub mod cleaned {
        pub use iloc_cleaning::laws::{by_example, never_longer, unchanged};
    }

    /// What the program writes.
    pub mod program {
        pub use iloc_program::laws::{
            answers_are_lines, by_example, line_answers, lines, one_listing, outputs, plain_listing,
        };
    }
}

/// The library of the program `locale_normal`.
pub mod program {
    pub use iloc_program::{
        Listing, Mode, RunError, ending, run, run_in, run_listed, run_listed_in,
    };
}

pub use iloc_data::DataLocale;
pub use iloc_langid::LanguageIdentifier;
pub use iloc_locale::Locale;
pub use iloc_subtags::ParseError;
