//! Prints locales.
ghost use Rattle.std.specs.Prelude.{◌≡◌, IfOk, IsOkAnd, OnErr, ◌++◌, Some, length};
ghost use Rattle.std.specs.Cow.{cow_str_bytes};
ghost use Rattle.iloc_spec_grammar.specs.Values.{IsWellFormed, text, extensions_spelling};
ghost use Rattle.iloc_memory.specs.Refusals.{RefusedWithin};
ghost use Rattle.iloc_writeable.specs.Writing.{IsLent};
ghost use Rattle.iloc_locale.specs.LocaleReading.{value_of, IsLanguageAlone, MeansOnly};
ghost use Rattle.iloc_spec_grammar.specs.Syntax.{identifier_pieces};

use crate::locale::Locale;
use iloc_memory::Memory;
use iloc_writeable::{Pieces, Sink, Writeable};
use std::alloc::{AllocError, Global};
use std::borrow::CowStr;
use std::fmt;

impl Locale {
    /// Returns the printed text, borrowed exactly if the locale is a language alone.
    ///
    /// The text of a well-formed locale parses as that locale and as no other. Allocates once, unless the text is
    /// borrowed; `AllocError` if that fails, and so never for a language alone.
    pub fn write_to_string(&self, alloc: Global) -> Result<CowStr<'_, Global>, AllocError>
        ensures text { IfOk result (λ t. cow_str_bytes t ≡ text (value_of self.now)) }
        ensures back { IsWellFormed (value_of self.now)
            → IfOk result (λ t. MeansOnly (cow_str_bytes t) (value_of self.now)) }
        ensures lent { IsLanguageAlone self.now → IsOkAnd result IsLent }
        ensures owned { IfOk result (λ t. IsLent t → IsLanguageAlone self.now) }
        ensures memory { OnErr result (¬ (IsLanguageAlone self.now)) }
    {
        self.write_to_string_in(alloc)
    }

    /// As `write_to_string`, from any memory. `AllocError` comes only if room for at most as many bytes as the text has
    /// was refused.
    pub fn write_to_string_in<M: Memory>(&self, memory: M) -> Result<CowStr<'_, Global>, AllocError>
        ensures text { IfOk result (λ t. cow_str_bytes t ≡ text (value_of self.now)) }
        ensures back { IsWellFormed (value_of self.now)
            → IfOk result (λ t. MeansOnly (cow_str_bytes t) (value_of self.now)) }
        ensures lent { IsLanguageAlone self.now → IsOkAnd result IsLent }
        ensures owned { IfOk result (λ t. IsLent t → IsLanguageAlone self.now) }
        ensures memory { OnErr result (¬ (IsLanguageAlone self.now)) }
        ensures out_of_memory { OnErr result
            (RefusedWithin M.refused (length (text (value_of self.now)))) }
    {
        Writeable::write_to_string_in(self, memory)
    }
}

/// The pieces are those of the identifier, and then those of the extensions.
impl Pieces for Locale {
    ghost pieces = { λ l. identifier_pieces (value_of l).id
        ++ extensions_spelling (value_of l).extensions };

    fn has_pieces(&self) -> bool {
        true
    }

    fn write_pieces<S: Sink>(&self, sink: &mut S, first: bool) -> fmt::Result {
        (&self.id, &self.extensions).write_pieces(sink, first)
    }
}

/// Prints the normal text: the identifier, and then the extensions, joined by hyphens. It is defined for every
/// locale, well-formed or not, and borrowed if there is a language and nothing else.
impl Writeable for Locale {
    ghost text = { λ l. text (value_of l) };

    ghost lends = { IsLanguageAlone };

    #[tactic(auto, unfolding(iloc_spec_grammar::specs::Syntax::join))]
    fn write_to<S: Sink>(&self, sink: &mut S) -> fmt::Result {
        self.write_joined(sink)
    }

    #[inline(always)]
    fn writeable_borrow(&self) -> Option<&str> {
        if !self.extensions.is_empty() {
            return None;
        }
        self.id.writeable_borrow()
    }
}

/// Prints the text itself.
impl fmt::Debug for Locale {
    ghost debug_output = { λ l. Some (text (value_of l)) };

    fn fmt<W: fmt::Write>(&self, f: &mut fmt::Formatter<W>) -> fmt::Result {
        fmt::Display::fmt(self, f)
    }
}

impl fmt::Display for Locale {
    ghost output = { λ l. Some (text (value_of l)) };

    fn fmt<W: fmt::Write>(&self, f: &mut fmt::Formatter<W>) -> fmt::Result {
        self.write_to(f)
    }
}
