//! Prints data locales.
ghost use Rattle.std.specs.Prelude.{◌≡◌, ◌++◌, Some, None, option_to_list};
ghost use Rattle.iloc_spec_parts.specs.DataLocales.{subdivision_pieces};
ghost use Rattle.iloc_writeable.specs.Pieces.{hyphened};
ghost use Rattle.iloc_writeable.specs.Writing.{Writes};

use iloc_subtags::Subtag;
use iloc_word_list::spells_true;
use iloc_writeable::{Pieces, Sink};
use std::fmt;

/// Writes the pieces of the parts, and after them `u`, `sd` and the subdivision, if there is one. A subdivision that
/// spells `true` is left out.
#[inline(always)]
pub fn write_with_subdivision<P: Pieces, S: Sink>(
    parts: &P,
    subdivision: Option<Subtag>,
    sink: &mut S,
    first: bool,
) -> fmt::Result
    ensures { Writes S.took S.failed sink.old
        (hyphened first (P.pieces parts.now ++ subdivision_pieces subdivision)) sink.new result }
{
    let Some(word) = subdivision else {
        return parts.write_pieces(sink, first);
    };
    let value = (!spells_true(&word)).then_some(word);
    (parts, &("u", "sd", value)).write_pieces(sink, first)
}
