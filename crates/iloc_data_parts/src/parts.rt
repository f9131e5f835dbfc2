//! The parts that a text names, their parser and their text.
ghost use Rattle.std.specs.Prelude.{◌≡◌};
ghost use Rattle.iloc_spec_parts.specs.DataLocales.{subdivision_keyword, data_pieces, data_text};
ghost use Rattle.iloc_data_parts.specs.PartsReading.{value_of, PartsTextReads};

use crate::printing::write_with_subdivision;
use crate::region::{is_whole, part_of};
use iloc_keyword_types::SubdivisionId;
use iloc_langid::read_small_locale;
use iloc_subtags::{Language, ParseError, Region, Script, Subtag, Variant};
use iloc_writeable::{Pieces, Sink, Writeable};
use std::fmt;

/// A language, and perhaps a script, a region or a subdivision of it, and a variant.
#[derive(Clone, Copy)]
pub struct DataParts {
    /// The language.
    pub language: Language,
    /// The script.
    pub script: Option<Script>,
    /// The subdivision of a region, or the region as a whole.
    pub part: Option<SubdivisionId>,
    /// The only variant.
    pub variant: Option<Variant>,
}

impl DataParts {
    /// Parses all of the text, which need not be UTF-8, in whatever case. It allocates nothing.
    #[inline(always)]
    pub fn try_from_utf8(code_units: &[u8]) -> Result<Self, ParseError>
        ensures { PartsTextReads code_units.now result }
    {
        let (language, script, region, variant, keyword) = read_small_locale(code_units)?;
        let part = part_of(region, keyword)?;
        Ok(DataParts {
            language,
            script,
            part,
            variant,
        })
    }

    // The region.
    fn region(&self) -> Option<Region>
        ensures { result ≡ (value_of self.now).region }
    {
        Some(self.part?.region)
    }

    // The subdivision if it is printed: it is not a whole region.
    fn printed_subdivision(&self) -> Option<Subtag>
        ensures { result ≡ subdivision_keyword (value_of self.now) }
    {
        let id = self.part?;
        let word = id.into_subtag();
        if is_whole(&id) {
            return None;
        }
        Some(word)
    }
}

/// The pieces are language, script, region, variant, and `u`, `sd` and the value of a subdivision that is printed.
impl Pieces for DataParts {
    ghost pieces = { λ p. data_pieces (value_of p) };

    fn has_pieces(&self) -> bool {
        true
    }

    fn write_pieces<S: Sink>(&self, sink: &mut S, first: bool) -> fmt::Result {
        let region = self.region();
        let parts = (&self.language, &self.script, &region, &self.variant);
        write_with_subdivision(&parts, self.printed_subdivision(), sink, first)
    }
}

/// Prints the text of the data locale that is made of the parts.
impl Writeable for DataParts {
    ghost text = { λ p. data_text (value_of p) };

    #[tactic(auto, unfolding(iloc_spec_grammar::specs::Syntax::join))]
    fn write_to<S: Sink>(&self, sink: &mut S) -> fmt::Result {
        self.write_joined(sink)
    }

    fn writeable_borrow(&self) -> Option<&str> {
        None
    }
}
