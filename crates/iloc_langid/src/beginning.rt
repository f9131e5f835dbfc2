//! Whether a text begins with the words of an identifier.
ghost use Rattle.std.specs.Prelude.{◌↔◌, IsTrue};
ghost use Rattle.iloc_spec_grammar.specs.Syntax.{head, languages, pieces};
ghost use Rattle.iloc_spec_grammar.specs.Meaning.{IdentifierMeans};
ghost use Rattle.iloc_langid.specs.PlainReads.{IsFrontOf};
ghost use Rattle.iloc_langid.specs.Reads.{value_of};

use crate::identifier::LanguageIdentifier;
use crate::plain::take_plain;
use iloc_subtags::SubtagIterator;

/// Whether the text begins with the language, the script and the region of the identifier. Each text does whose head
/// means the identifier. It allocates nothing.
#[inline(always)]
pub fn begins_with(text: &[u8], identifier: &LanguageIdentifier) -> bool
    ensures exactly { IsTrue result ↔ IsFrontOf (pieces text.now) (value_of identifier.now) }
    ensures means { IdentifierMeans languages (head (pieces text.now)) (value_of identifier.now)
        → IsTrue result }
{
    has_front(text, identifier)
}

#[inline(always)]
fn has_front(text: &[u8], identifier: &LanguageIdentifier) -> bool
    ensures { IsTrue result ↔ IsFrontOf (pieces text.now) (value_of identifier.now) }
{
    let Some(plain) = take_plain(&mut SubtagIterator::new(text)) else {
        return false;
    };
    plain.language == identifier.language
        && plain.script == identifier.script
        && plain.region == identifier.region
}
