//! What has a printed text and a parser.
ghost use Rattle.std.specs.Prelude.{◌≡◌, ℕ, List, Result, IfOk, OnErr, length};
ghost use Rattle.std.specs.String.{string_bytes};
ghost use Rattle.iloc_memory.specs.Refusals.{RefusedWithin};
ghost use Rattle.iloc_subtags.specs.Judging.{RunsOutOnlyIf};
ghost use Rattle.iloc_spec_grammar.specs.Syntax.{read};
ghost use Rattle.iloc_spec_grammar.specs.Values.{IsWellFormed};
ghost use Rattle.iloc_subtags.specs.declared.parse_error.ParseError.{ParseError};
ghost use Rattle.iloc_subtags.specs.declared.parse_error.ParseError.TheVariants.{OutOfMemory};
ghost use Rattle.iloc_langid.specs.Reads.{value_of as identifier_of};
ghost use Rattle.iloc_locale.specs.LocaleReading.{value_of as locale_of};
ghost use Rattle.iloc_json.specs.Answers.{IsIdentifierAnswer, IsLocaleAnswer};
ghost use Rattle.iloc_json.specs.Json.{SucceedsOr};

use iloc_langid::LanguageIdentifier;
use iloc_locale::Locale;
use iloc_memory::{Memory, string_of};
use iloc_subtags::{ParseError, WordKind, WordOf};
use iloc_writeable::Writeable;
use std::alloc::AllocError;
use std::borrow::CowStr;

/// What prints a text and is parsed from one.
pub trait TextValue: Writeable + Sized {
    /// What the parser returns.
    ghost reads: { List ℕ → Result Self ParseError → Type 0 };

    /// The text of the value is parsed as the value.
    ghost reads_back: { Self → Type 0 };

    /// The other stands for the same.
    ghost same: { Self → Self → Type 0 };

    /// Parses a text, from any memory. It runs out of it only if room for at most as many items as the text has bytes
    /// was refused.
    fn read_text<M: Memory>(memory: M, text: &str) -> Result<Self, ParseError>
        ensures reads { reads text.now result }
        ensures out_of_memory { RunsOutOnlyIf
            (RefusedWithin M.refused (length text.now)) result };

    /// Writes the text of the value, from any memory. It runs out of it only if room for at most as many bytes as the
    /// text has was refused. If the text parses back, so does the string, unless memory runs out.
    fn write_text<M: Memory>(&self, memory: M) -> Result<String, AllocError>
        ensures text { IfOk result (λ written. string_bytes written ≡ Self.text self.now) }
        ensures back { reads_back self.now → (r : Result Self ParseError)
            → reads (Self.text self.now) r → SucceedsOr OutOfMemory (same self.now) r }
        ensures out_of_memory { OnErr result
            (RefusedWithin M.refused (length (Self.text self.now))) };
}

// The printed text, in a `String` of its own.
fn printed<M: Memory, W: Writeable>(memory: M, value: &W) -> Result<String, AllocError>
    ensures text { IfOk result (λ written. string_bytes written ≡ W.text value.now) }
    ensures out_of_memory { OnErr result
        (RefusedWithin M.refused (length (W.text value.now))) }
{
    match value.write_to_string_in(memory)? {
        CowStr::Owned(text) => Ok(text),
        CowStr::Borrowed(text) => string_of(memory, text),
    }
}

impl<K: WordKind<N>, const N: usize> TextValue for WordOf<K, N> {
    ghost reads = { λ text r. r ≡ read K.kind K.refusal text };

    ghost reads_back = { λ _. Unit {0} };

    ghost same = { λ word other. other ≡ word };

    fn read_text<M: Memory>(_memory: M, text: &str) -> Result<Self, ParseError> {
        WordOf::try_from_str(text)
    }

    #[tactic(auto, using(crate::proofs::ReadBack::word_back))]
    fn write_text<M: Memory>(&self, memory: M) -> Result<String, AllocError> {
        string_of(memory, self.as_str())
    }
}

impl TextValue for LanguageIdentifier {
    ghost reads = { IsIdentifierAnswer };

    ghost reads_back = { λ _. Unit {0} };

    ghost same = { λ id other. identifier_of other ≡ identifier_of id };

    fn read_text<M: Memory>(memory: M, text: &str) -> Result<Self, ParseError> {
        LanguageIdentifier::try_from_str_in(memory, text)
    }

    #[tactic(auto, using(crate::proofs::ReadBack::identifier_back))]
    fn write_text<M: Memory>(&self, memory: M) -> Result<String, AllocError> {
        let _ = self.is_unknown();
        printed(memory, self)
    }
}

/// A locale parses back if it is well-formed.
impl TextValue for Locale {
    ghost reads = { IsLocaleAnswer };

    ghost reads_back = { λ locale. IsWellFormed (locale_of locale) };

    ghost same = { λ locale other. locale_of other ≡ locale_of locale };

    #[inline(always)]
    fn read_text<M: Memory>(memory: M, text: &str) -> Result<Self, ParseError> {
        // (a call of `try_from_str_in` would copy the locale once more)
        Locale::try_from_utf8_in(memory, text.as_bytes())
    }

    #[tactic(auto, using(crate::proofs::ReadBack::locale_back))]
    fn write_text<M: Memory>(&self, memory: M) -> Result<String, AllocError> {
        printed(memory, self)
    }
}
