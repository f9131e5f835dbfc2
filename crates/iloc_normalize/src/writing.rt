//! Writes the normal text of a text, in each mode.
ghost use Rattle.std.specs.Prelude.{◌≡◌, ◌≢◌, ◌≤◌, length};
ghost use Rattle.iloc_memory.specs.Refusals.{RefusedWithin};
ghost use Rattle.iloc_spec_grammar.specs.Syntax.{Text, pieces};
ghost use Rattle.iloc_pieces.specs.Window.{text_in};
ghost use Rattle.iloc_outline.specs.Outlines.{BeginsWithLanguage};
ghost use Rattle.iloc_normalize.specs.Answered.{HasRefusal, IsLead, IsNormalWritten, refusal_of};
ghost use Rattle.iloc_normalize.specs.declared.Mode.{Mode};
ghost use Rattle.iloc_normalize.specs.declared.Mode.TheVariants as modes;

use crate::Mode;
use crate::data_writing::write_data;
use crate::leads::Lead;
use iloc_memory::Trees;
use iloc_outline::growth::{Growing, Growth, InPlace};
use iloc_outline::outline::{Outlined, outline_identifier, outline_locale};
use iloc_outline::printing::copy_outline;
use iloc_pieces::Window;
use iloc_spans::spans::Spans;
use iloc_subtags::ParseError;

/// What was written of a text. Each refusal is a variant, so that two registers hold it.
#[derive(Drop)]
pub enum Written {
    /// Its normal text, of so many bytes.
    Normal(usize),
    /// Nothing, since it begins with no language.
    InvalidLanguage,
    /// Nothing, since a subtag is invalid.
    InvalidSubtag,
    /// Nothing, since an extension is invalid.
    InvalidExtension,
    /// Nothing, since an extension comes twice.
    DuplicatedExtension,
    /// Nothing that counts.
    Nothing,
}

impl Written {
    // Nothing, for this reason.
    #[inline(always)]
    pub(crate) fn refused(error: ParseError) -> Self
        ensures written { (mode : Mode) (text room : Text) → HasRefusal mode text error
            → IsNormalWritten mode text room result }
        ensures some { (mode : Mode) (text : Text) → HasRefusal mode text error
            → result ≢ Written.Nothing }
    {
        match error {
            ParseError::InvalidLanguage => Written::InvalidLanguage,
            ParseError::InvalidSubtag => Written::InvalidSubtag,
            ParseError::InvalidExtension => Written::InvalidExtension,
            ParseError::DuplicatedExtension => Written::DuplicatedExtension,
            ParseError::OutOfMemory => Written::Nothing,
        }
    }

    /// Why the text is refused, if it is.
    #[inline(always)]
    pub fn refusal(&self) -> Option<ParseError>
        ensures { result ≡ refusal_of self.now }
    {
        match self {
            Written::InvalidLanguage => Some(ParseError::InvalidLanguage),
            Written::InvalidSubtag => Some(ParseError::InvalidSubtag),
            Written::InvalidExtension => Some(ParseError::InvalidExtension),
            Written::DuplicatedExtension => Some(ParseError::DuplicatedExtension),
            Written::Normal(_) | Written::Nothing => None,
        }
    }
}

/// Writes the normal text in the mode of a text, of which the beginning shows this (`leads`). Up to sixteen bytes more are
/// stored behind what is written. `Nothing` says that memory was refused.
#[inline(always)]
pub fn write_normal<M: Trees>(
    memory: M,
    mode: Mode,
    lead: Lead,
    text: Window<'_>,
    spans: &mut Spans,
    to: &mut [u8],
) -> Written
    requires lead { IsLead mode (text_in text) lead }
    requires room { length text.bytes.now ≤ length to.old }
    ensures written { IsNormalWritten mode (text_in text.entry) to.new result }
    ensures refused { result ≡ Written.Nothing
        → RefusedWithin M.refused (length (pieces (text_in text.entry))) }
{
    write_with(Growing { memory }, mode, lead, text, spans, to)
}

/// Writes it with room for more spans as this says.
#[inline(always)]
pub(crate) fn write_with<G: Growth>(
    growth: G,
    mode: Mode,
    lead: Lead,
    text: Window<'_>,
    spans: &mut Spans,
    to: &mut [u8],
) -> Written
    requires lead { IsLead mode (text_in text) lead }
    requires room { length text.bytes.now ≤ length to.old }
    ensures written { IsNormalWritten mode (text_in text.entry) to.new result }
    ensures refused { result ≡ Written.Nothing
        → RefusedWithin G.refused (length (pieces (text_in text.entry))) }
{
    match lead {
        Lead::Refused(error) => Written::refused(error),
        Lead::Outline => write_outlined(growth, mode, text, spans, to),
    }
}

// Writes it of a text that begins with a language.
#[inline(always)]
fn write_outlined<G: Growth>(
    growth: G,
    mode: Mode,
    text: Window<'_>,
    spans: &mut Spans,
    to: &mut [u8],
) -> Written
    requires begins { BeginsWithLanguage (text_in text) }
    requires room { length text.bytes.now ≤ length to.old }
    ensures written { IsNormalWritten mode (text_in text.entry) to.new result }
    ensures refused { result ≡ Written.Nothing
        → RefusedWithin G.refused (length (pieces (text_in text.entry))) }
{
    match mode {
        Mode::Langid => write_identifier(growth, text, spans, to),
        Mode::Locale => write_locale(growth, text, spans, to),
        Mode::Data => write_data(text, to),
    }
}

// Writes the normal text of an identifier.
#[inline(never)]
fn write_identifier<G: Growth>(
    growth: G,
    text: Window<'_>,
    spans: &mut Spans,
    to: &mut [u8],
) -> Written
    requires begins { BeginsWithLanguage (text_in text) }
    requires room { length text.bytes.now ≤ length to.old }
    ensures written { IsNormalWritten modes.Langid (text_in text.entry) to.new result }
    ensures refused { result ≡ Written.Nothing
        → RefusedWithin G.refused (length (pieces (text_in text.entry))) }
{
    match identifier_in(InPlace, text, spans, to) {
        Written::Nothing => write_long_identifier(growth, text, spans, to),
        written => written,
    }
}

// Writes it where the room in place is too small.
#[inline(never)]
fn write_long_identifier<G: Growth>(
    growth: G,
    text: Window<'_>,
    spans: &mut Spans,
    to: &mut [u8],
) -> Written
    requires begins { BeginsWithLanguage (text_in text) }
    requires room { length text.bytes.now ≤ length to.old }
    ensures written { IsNormalWritten modes.Langid (text_in text.entry) to.new result }
    ensures refused { result ≡ Written.Nothing
        → RefusedWithin G.refused (length (pieces (text_in text.entry))) }
{
    identifier_in(growth, text, spans, to)
}

// Writes it with spans in this room.
#[inline(always)]
fn identifier_in<G: Growth>(
    growth: G,
    text: Window<'_>,
    spans: &mut Spans,
    to: &mut [u8],
) -> Written
    requires begins { BeginsWithLanguage (text_in text) }
    requires room { length text.bytes.now ≤ length to.old }
    ensures written { IsNormalWritten modes.Langid (text_in text.entry) to.new result }
    ensures refused { result ≡ Written.Nothing
        → RefusedWithin G.refused (length (pieces (text_in text.entry))) }
{
    let len = text.len();
    match outline_identifier(growth, text.bytes, len, spans) {
        Outlined::Normal(outline) => {
            Written::Normal(copy_outline(text.bytes, len, &outline, spans, to))
        }
        Outlined::Refused(error) => Written::refused(error),
        Outlined::Full => Written::Nothing,
    }
}

// Writes the normal text of a locale.
#[inline(never)]
fn write_locale<G: Growth>(growth: G, text: Window<'_>, spans: &mut Spans, to: &mut [u8]) -> Written
    requires begins { BeginsWithLanguage (text_in text) }
    requires room { length text.bytes.now ≤ length to.old }
    ensures written { IsNormalWritten modes.Locale (text_in text.entry) to.new result }
    ensures refused { result ≡ Written.Nothing
        → RefusedWithin G.refused (length (pieces (text_in text.entry))) }
{
    match locale_in(InPlace, text, spans, to) {
        Written::Nothing => write_long_locale(growth, text, spans, to),
        written => written,
    }
}

// Writes it where the room in place is too small.
#[inline(never)]
fn write_long_locale<G: Growth>(
    growth: G,
    text: Window<'_>,
    spans: &mut Spans,
    to: &mut [u8],
) -> Written
    requires begins { BeginsWithLanguage (text_in text) }
    requires room { length text.bytes.now ≤ length to.old }
    ensures written { IsNormalWritten modes.Locale (text_in text.entry) to.new result }
    ensures refused { result ≡ Written.Nothing
        → RefusedWithin G.refused (length (pieces (text_in text.entry))) }
{
    locale_in(growth, text, spans, to)
}

// Writes it with spans in this room.
#[inline(always)]
fn locale_in<G: Growth>(growth: G, text: Window<'_>, spans: &mut Spans, to: &mut [u8]) -> Written
    requires begins { BeginsWithLanguage (text_in text) }
    requires room { length text.bytes.now ≤ length to.old }
    ensures written { IsNormalWritten modes.Locale (text_in text.entry) to.new result }
    ensures refused { result ≡ Written.Nothing
        → RefusedWithin G.refused (length (pieces (text_in text.entry))) }
{
    let len = text.len();
    match outline_locale(growth, text.bytes, len, spans) {
        Outlined::Normal(outline) => {
            Written::Normal(copy_outline(text.bytes, len, &outline, spans, to))
        }
        Outlined::Refused(error) => Written::refused(error),
        Outlined::Full => Written::Nothing,
    }
}
