//! The outline of a text, as an identifier or as a locale.
ghost use Rattle.std.specs.Prelude.{◌≡◌, ◌↔◌, ◌≤◌, ◌<◌, IsTrue, length, take};
ghost use Rattle.iloc_memory.specs.Refusals.{RefusedWithin};
ghost use Rattle.iloc_spec_grammar.specs.Syntax.{pieces};
ghost use Rattle.iloc_pieces.specs.Cursor.{bytes_left};
ghost use Rattle.iloc_outline.specs.Outlines.{AreHeadRead, BeginsWithLanguage, IsFinished, IsIdentifierOutlined, IsLocaleOutlined};

use crate::blocks::{Blocks, read_blocks};
use crate::growth::Growth;
use crate::identifier::read_front;
use crate::reading::Found;
use crate::words::read_words;
use iloc_pieces::cursor::{self, Cursor, cursor_in, is_single};
use iloc_pieces::front::first_len;
use iloc_pieces::words::is_language;
use iloc_spans::span::Role;
use iloc_spans::spans::Spans;
use iloc_subtags::ParseError;

/// The first bytes of a text in lower case, but for the first letter of a script and a region of two letters. Spans follow.
#[derive(Clone, Copy)]
pub struct Outline {
    /// How many bytes of the text come first.
    pub front: usize,
    /// Where the script begins; 0 if there is none.
    pub script: usize,
    /// Where a region of two letters begins; 0 if there is none.
    pub region: usize,
}

/// What a text is.
#[derive(Drop)]
pub enum Outlined {
    /// Its normal text is that of the outline, and then of the spans.
    Normal(Outline),
    /// It is refused.
    Refused(ParseError),
    /// It has more pieces than there is room for.
    Full,
}

/// The identifier that comes first: language, script, region and variants.
#[derive(Drop)]
pub enum Head {
    /// It is all of the text.
    All(Outline),
    /// A block follows.
    Block(Outline),
    /// It is refused.
    Refused(ParseError),
    /// More variants than there is room for.
    Full,
}

/// Whether the first `len` bytes begin with a language.
#[inline(always)]
pub fn begins_with_language(window: &[u8], len: usize) -> bool
    requires { len ≤ length window.now }
    ensures { IsTrue result ↔ BeginsWithLanguage (take len window.now) }
{
    if window.len() < 16 {
        return begins_few(window, len);
    }
    is_language(window, first_len(window, len))
}

// Whether fewer than sixteen bytes begin with a language. It is a call of its own, so that longer windows pay nothing.
#[inline(never)]
fn begins_few(window: &[u8], len: usize) -> bool
    requires { len ≤ length window.now }
    ensures { IsTrue result ↔ BeginsWithLanguage (take len window.now) }
{
    cursor::is_language(cursor_in(window, len))
}

/// Reads the identifier at the beginning of a text. In `in_order` it says whether its variants are in order.
#[inline(always)]
pub fn read_head<G: Growth>(
    growth: G,
    cursor: &mut Cursor<'_>,
    spans: &mut Spans,
    in_order: &mut bool,
) -> Head
    requires first { cursor.old.at ≡ 0 }
    requires begins { BeginsWithLanguage (bytes_left cursor.old) }
    ensures read { AreHeadRead (bytes_left cursor.old) cursor.new spans.new in_order.new result }
    ensures refused { result ≡ Head.Full
        → RefusedWithin G.refused (length (pieces (bytes_left cursor.old))) }
{
    spans.clear();
    *in_order = true;
    let front = read_front(cursor);
    let outline = Outline {
        front: front.end,
        script: front.script,
        region: front.region,
    };
    if front.is_all {
        return Head::All(outline);
    }
    match read_words(growth, Role::Variant, cursor, spans, in_order) {
        Found::End => Head::All(outline),
        Found::Next => {
            if !is_single(*cursor) {
                return Head::Refused(ParseError::InvalidSubtag);
            }
            Head::Block(outline)
        }
        Found::Full => Head::Full,
        Found::Bad | Found::Repeated => Head::Refused(ParseError::InvalidSubtag),
    }
}

/// The outline of a text that is in order up to `end`: so much comes first, and no span follows. Of another text, as it is.
#[inline(always)]
pub fn finished(outline: Outline, end: usize, spans: &mut Spans, in_order: bool) -> Outline
    ensures { IsFinished outline end in_order spans.old spans.new result }
{
    if !in_order {
        return outline;
    }
    spans.clear();
    Outline {
        front: end,
        script: outline.script,
        region: outline.region,
    }
}

/// The outline of the first `len` bytes as an identifier. `Full` comes only if there are more than 64 pieces, and the room for
/// their spans does not grow, or memory was refused (`refused`).
#[inline(always)]
pub fn outline_identifier<G: Growth>(
    growth: G,
    window: &[u8],
    len: usize,
    spans: &mut Spans,
) -> Outlined
    requires inside { len ≤ length window.now }
    requires begins { BeginsWithLanguage (take len window.now) }
    ensures outlined { IsIdentifierOutlined (take len window.now) spans.new result }
    ensures refused { result ≡ Outlined.Full
        → RefusedWithin G.refused (length (pieces (take len window.now))) }
{
    let mut cursor = cursor_in(window, len);
    let mut in_order = true;
    match read_head(growth, &mut cursor, spans, &mut in_order) {
        Head::All(outline) => Outlined::Normal(finished(outline, len, spans, in_order)),
        Head::Block(_) => Outlined::Refused(ParseError::InvalidSubtag),
        Head::Refused(error) => Outlined::Refused(error),
        Head::Full => Outlined::Full,
    }
}

/// The outline of the first `len` bytes as a locale. `Full` comes as for an identifier.
#[inline(always)]
pub fn outline_locale<G: Growth>(
    growth: G,
    window: &[u8],
    len: usize,
    spans: &mut Spans,
) -> Outlined
    requires inside { len ≤ length window.now }
    requires begins { BeginsWithLanguage (take len window.now) }
    ensures outlined { IsLocaleOutlined (take len window.now) spans.new result }
    ensures refused { result ≡ Outlined.Full
        → RefusedWithin G.refused (length (pieces (take len window.now))) }
{
    let mut cursor = cursor_in(window, len);
    let mut in_order = true;
    let outline = match read_head(growth, &mut cursor, spans, &mut in_order) {
        Head::All(outline) => return Outlined::Normal(finished(outline, len, spans, in_order)),
        Head::Block(outline) => outline,
        Head::Refused(error) => return Outlined::Refused(error),
        Head::Full => return Outlined::Full,
    };
    match read_blocks(growth, &mut cursor, spans, &mut in_order) {
        Blocks::Good => Outlined::Normal(finished(outline, len, spans, in_order)),
        Blocks::Refused(error) => Outlined::Refused(error),
        Blocks::Full => Outlined::Full,
    }
}
