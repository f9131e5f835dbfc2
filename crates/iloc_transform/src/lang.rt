//! The identifier of a transform: parsed, compared, put in lower case.
ghost use Rattle.std.specs.Prelude.{◌≡◌, Ok, None, length, option_map, option_to_list};
ghost use Rattle.std.specs.List.{flat_map};
ghost use Rattle.std.specs.Option.{option_cmp, option_copied};
ghost use Rattle.std.specs.Result.{result_and};
ghost use Rattle.iloc_spec_grammar.specs.Syntax.{identifier_pieces, optional_pieces};
ghost use Rattle.iloc_spec_grammar.specs.Values.{lower_identifier};
ghost use Rattle.iloc_langid.specs.Reads.{value_of};
ghost use Rattle.iloc_spec_parts.specs.Orders.{identifier_cmp};
ghost use Rattle.iloc_memory.specs.Refusals.{RefusedWithin};
ghost use Rattle.iloc_subtags.specs.Judging.{RunsOutOnlyIf};
ghost use Rattle.iloc_subtags.specs.Left.{left};
ghost use Rattle.iloc_transform.specs.LangReading.{LangFills};

use iloc_langid::reader::fill_front;
use iloc_langid::{LanguageIdentifier, Lowercase};
use iloc_memory::Memory;
use iloc_subtags::{Language, ParseError, SubtagIterator};
use std::cmp::Ordering;

/// Parses the longest front of an identifier's subtags, if the next piece is a language; else `None`.
pub(crate) fn fill_lang<M: Memory>(
    memory: M,
    iter: &mut SubtagIterator<'_>,
    lang: &mut Option<LanguageIdentifier>,
) -> Result<(), ParseError>
    requires { lang.old ≡ None }
    ensures reads { LangFills (left iter.old) (left iter.new) (result_and result (Ok lang.new)) }
    ensures out_of_memory { RunsOutOnlyIf
        (RefusedWithin M.refused (length (left iter.old))) result }
{
    let Some(piece) = iter.peek() else {
        return Ok(());
    };
    match Language::try_from_utf8(piece) {
        Ok(_) => {
            let mut identifier = LanguageIdentifier::unknown();
            fill_front(memory, iter, &mut identifier)?;
            *lang = Some(identifier);
            Ok(())
        }
        Err(_) => Ok(()),
    }
}

/// The order of identifiers, none first.
pub(crate) fn cmp_langs(
    lang: Option<&LanguageIdentifier>,
    other: Option<&LanguageIdentifier>,
) -> Ordering
    ensures { result
        ≡ option_cmp identifier_cmp (option_map value_of (option_copied lang.entry))
        (option_map value_of (option_copied other.entry)) }
{
    match (lang, other) {
        (Some(lang), Some(other)) => lang.total_cmp(other),
        (Some(_), None) => Ordering::Greater,
        (None, Some(_)) => Ordering::Less,
        (None, None) => Ordering::Equal,
    }
}

/// The identifier as a transform prints it.
pub(crate) fn lowercase(lang: Option<&LanguageIdentifier>) -> Option<Lowercase<'_>>
    ensures { flat_map (λ l. identifier_pieces (lower_identifier (value_of l.0.now)))
        (option_to_list result)
        ≡ optional_pieces (option_map lower_identifier
        (option_map value_of (option_copied lang.entry))) }
{
    match lang {
        Some(lang) => Some(Lowercase(lang)),
        None => None,
    }
}
