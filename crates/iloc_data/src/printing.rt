//! Prints data locales.
ghost use Rattle.iloc_spec_parts.specs.DataLocales.{data_pieces, data_text};
ghost use Rattle.iloc_data.specs.DataValue.{value_of};
ghost use Rattle.std.specs.Prelude.{◌≡◌, None, Some, ◌++◌, codes};

use crate::data_locale::DataLocale;
use iloc_data_parts::write_with_subdivision;
use iloc_writeable::{Pieces, Sink, Writeable};
use std::fmt;

/// The pieces are language, script, region, variant, and `u`, `sd` and the value of a subdivision that is printed.
impl Pieces for DataLocale {
    ghost pieces = { λ d. data_pieces (value_of d) };

    fn has_pieces(&self) -> bool {
        true
    }

    fn write_pieces<S: Sink>(&self, sink: &mut S, first: bool) -> fmt::Result {
        let parts = (&self.language, &self.script, &self.region, &self.variant);
        write_with_subdivision(&parts, self.printed_subdivision(), sink, first)
    }
}

/// Prints language, script, region and variant, and after them `u-sd-` and the subdivision if it is readable
/// and not a whole region, joined by hyphens. It is borrowed if there is a language and nothing else.
impl Writeable for DataLocale {
    ghost text = { λ d. data_text (value_of d) };

    ghost lends = { λ d. (d.script ≡ None) × (d.region ≡ None) × (d.variant ≡ None)
        × (d.subdivision ≡ None) };

    #[tactic(auto, unfolding(iloc_spec_grammar::specs::Syntax::join))]
    fn write_to<S: Sink>(&self, sink: &mut S) -> fmt::Result {
        self.write_joined(sink)
    }

    #[tactic(auto, unfolding(iloc_spec_grammar::specs::Syntax::join))]
    fn writeable_borrow(&self) -> Option<&str> {
        if self.script.is_none()
            && self.region.is_none()
            && self.variant.is_none()
            && self.subdivision.is_none()
        {
            return Some(self.language.as_str());
        }
        None
    }
}

/// Prints the text between `DataLocale{` and `}`.
impl fmt::Debug for DataLocale {
    ghost debug_output = { λ d. Some (codes "DataLocale{" ++ data_text (value_of d) ++ codes "}") };

    fn fmt<W: fmt::Write>(&self, f: &mut fmt::Formatter<W>) -> fmt::Result {
        write!(f, "DataLocale{{{self}}}")
    }
}

impl fmt::Display for DataLocale {
    ghost output = { λ d. Some (data_text (value_of d)) };

    fn fmt<W: fmt::Write>(&self, f: &mut fmt::Formatter<W>) -> fmt::Result {
        self.write_to(f)
    }
}
