//! What the region and the subdivision of a data locale stand for together.
ghost use Rattle.std.specs.Prelude.{
  ◌≡◌,
  true,
  option_and_then,
  if◌then◌else◌,
  Some,
  None,
};
ghost use Rattle.iloc_spec_parts.specs.DataLocales as parts;
ghost use Rattle.iloc_spec_parts.specs.DataLocales.{named_subdivision, subdivision_keyword};
ghost use Rattle.iloc_data.specs.DataValue.{value_of};

use crate::data_locale::DataLocale;
use iloc_data_parts::region::{is_whole, named, whole_region};
use iloc_keyword_types::SubdivisionId;
use iloc_subtags::Subtag;

// Whether the subtag ends as the whole of a region does, after as many bytes as a region has. Such a subtag names
// nothing else.
fn ends_as_whole(word: &Subtag) -> bool
    ensures { result ≡ true → option_and_then
        (λ s. if parts.is_whole s then None else Some word.now) (named_subdivision word.now)
        ≡ None }
{
    if word.len() < 6 {
        return false;
    }
    if word.len() > 7 {
        return false;
    }
    word.as_str().as_bytes().ends_with(b"zzzz")
}

impl DataLocale {
    /// The subdivision if it is there and readable, else the region as a whole, else nothing.
    pub(crate) fn region_part(&self) -> Option<SubdivisionId>
        ensures { result ≡ parts.region_part (value_of self.now) }
    {
        let whole = self.region.map(whole_region);
        let Some(word) = self.subdivision else {
            return whole;
        };
        // (most words name the whole of the region, and need not be read)
        if let Some(id) = whole {
            if id.into_subtag() == word {
                return whole;
            }
        }
        named(&word).or(whole)
    }

    /// The subdivision if it is printed: it is readable and not a whole region.
    pub(crate) fn printed_subdivision(&self) -> Option<Subtag>
        ensures { result ≡ subdivision_keyword (value_of self.now) }
    {
        let word = self.subdivision?;
        if ends_as_whole(&word) {
            return None;
        }
        if is_whole(&named(&word)?) {
            return None;
        }
        Some(word)
    }
}
