//! Reads data locales.
ghost use Rattle.std.specs.Prelude.{◌≡◌, ◌↔◌, ◌≤◌, ◌+◌, None, IfSome, length, take};
ghost use Rattle.iloc_spec_grammar.specs.Syntax.{languages};
ghost use Rattle.iloc_spec_parts.specs.DataLocales.{DataLocale, DataMeans};
ghost use Rattle.iloc_outline.specs.Outlines.{BeginsWithLanguage};
ghost use Rattle.iloc_normalize.specs.Answered.{HasRefusal};
ghost use Rattle.iloc_normalize.specs.Data.{IsDataBehind, IsDataRead};
ghost use Rattle.iloc_normalize.specs.declared.Mode.TheVariants as modes;

use crate::subdivisions::{Keyword, SubdivisionValue, read_keyword};
use iloc_outline::identifier::{Front, read_front};
use iloc_outline::outline::begins_with_language;
use iloc_pieces::cursor::{
    Cursor, advance, cursor_in, is_alphanumeric, is_last, is_single, is_variant, next, singleton,
};
use iloc_subtags::ParseError;

/// The identifier at the beginning of a data locale.
#[derive(Clone, Copy)]
pub(crate) struct DataHead {
    /// Its language, script and region.
    pub(crate) front: Front,
    /// Where it ends, perhaps with a variant.
    pub(crate) end: usize,
}

/// What a text is as a data locale.
#[derive(Drop)]
pub(crate) enum Data {
    /// An identifier with one variant at most.
    Head(DataHead),
    /// Such an identifier, and a subdivision.
    Named(DataHead, SubdivisionValue),
    /// It is refused.
    Refused(ParseError),
}

// Reads the block that follows the head.
#[inline(always)]
fn read_block(head: DataHead, cursor: Cursor<'_>) -> Data
    ensures { IsDataBehind head cursor.entry result }
{
    if !is_single(cursor) {
        return Data::Refused(ParseError::InvalidSubtag);
    }
    if !is_alphanumeric(cursor) {
        return Data::Refused(ParseError::InvalidExtension);
    }
    if singleton(cursor) != b'u' {
        return Data::Refused(ParseError::InvalidSubtag);
    }
    if is_last(cursor) {
        return Data::Refused(ParseError::InvalidExtension);
    }
    match read_keyword(next(cursor)) {
        Keyword::Misfit => Data::Refused(ParseError::InvalidSubtag),
        Keyword::Unnamed => Data::Refused(ParseError::InvalidExtension),
        Keyword::Named(value) => Data::Named(head, value),
    }
}

/// Reads the first `len` bytes as a data locale.
#[inline(always)]
pub(crate) fn read_data(window: &[u8], len: usize) -> Data
    requires inside { len ≤ length window.now }
    requires begins { BeginsWithLanguage (take len window.now) }
    ensures { IsDataRead window.now len result }
{
    let mut cursor = cursor_in(window, len);
    let front = read_front(&mut cursor);
    let mut head = DataHead {
        front,
        end: front.end,
    };
    if front.is_all {
        return Data::Head(head);
    }
    if is_variant(cursor) {
        head.end = cursor.at + cursor.piece_length;
        if is_last(cursor) {
            return Data::Head(head);
        }
        advance(&mut cursor);
    }
    read_block(head, cursor)
}

/// Why a text is refused as a data locale; `None` if it is accepted. No text is too long, and it allocates nothing.
pub fn data_refusal(text: &[u8]) -> Option<ParseError>
    ensures accepted { (result ≡ None)
        ↔ ((d : DataLocale) × DataMeans languages text.now d) }
    ensures refused { IfSome result (HasRefusal modes.Data text.now) }
{
    if !begins_with_language(text, text.len()) {
        return Some(ParseError::InvalidLanguage);
    }
    match read_data(text, text.len()) {
        Data::Refused(error) => Some(error),
        Data::Head(_) | Data::Named(_, _) => None,
    }
}
