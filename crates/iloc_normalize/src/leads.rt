//! What the beginning of a text shows: why it is refused, or that the rest has to be read.
ghost use Rattle.std.specs.Prelude.{◌≡◌, IfSome};
ghost use Rattle.iloc_pieces.specs.Front.{IsFound};
ghost use Rattle.iloc_pieces.specs.Window.{text_in};
ghost use Rattle.iloc_normalize.specs.Answered.{IsLead};
ghost use Rattle.iloc_normalize.specs.declared.Mode.{Mode};
ghost use Rattle.iloc_normalize.specs.declared.Mode.TheVariants as modes;

use crate::Mode;
use crate::data::{Data, read_data};
use iloc_outline::outline::begins_with_language;
use iloc_pieces::{Window, find_block};
use iloc_subtags::ParseError;

/// What the beginning of a text shows.
#[derive(Drop)]
pub enum Lead {
    /// Why the text is refused.
    Refused(ParseError),
    /// It begins with a language, and the rest has to be read.
    Outline,
}

/// What the first piece of one byte shows in the mode, before anything else is read. `None` says nothing: `read_lead` is
/// asked then. Callers ask both themselves: one function that did would be too large to be inlined.
#[inline(always)]
pub fn read_found(mode: Mode, text: Window<'_>) -> Option<Lead>
    ensures { IfSome result (IsLead mode (text_in text.entry)) }
{
    match mode {
        Mode::Langid => lead_of_identifier(text),
        Mode::Locale => None,
        Mode::Data => match find_block(text) {
            Some(block) => lead_of_found(text, block),
            None => None,
        },
    }
}

/// What the front of a text shows in the mode.
#[inline(always)]
pub fn read_lead(mode: Mode, text: Window<'_>) -> Lead
    ensures { IsLead mode (text_in text.entry) result }
{
    match mode {
        Mode::Data => lead_of_data(text),
        Mode::Langid | Mode::Locale => lead_of_language(text),
    }
}

/// What both say of an identifier or a locale; of a data locale, whether it begins with a language.
#[inline(always)]
pub(crate) fn lead_of_outlined(mode: Mode, text: Window<'_>) -> Lead
    ensures { IsLead mode (text_in text.entry) result }
{
    match mode {
        Mode::Langid => match lead_of_identifier(text) {
            Some(lead) => lead,
            None => lead_of_language(text),
        },
        Mode::Locale | Mode::Data => lead_of_language(text),
    }
}

// What the first piece of one byte shows of an identifier. It has no block.
#[inline(always)]
fn lead_of_identifier(text: Window<'_>) -> Option<Lead>
    ensures { IfSome result (IsLead modes.Langid (text_in text.entry)) }
{
    match find_block(text) {
        Some(_) => Some(Lead::Refused(ParseError::InvalidSubtag)),
        None => None,
    }
}

// What such a piece shows of a data locale. It has no block but that of `u`, which `read_lead` reads.
#[inline(always)]
fn lead_of_found(text: Window<'_>, block: Window<'_>) -> Option<Lead>
    requires { IsFound (text_in text) block }
    ensures { IfSome result (IsLead modes.Data (text_in text.entry)) }
{
    let singleton = block.bytes[0];
    if singleton == b'U' || singleton == b'u' {
        return None;
    }
    if singleton.is_ascii_alphanumeric() {
        return Some(Lead::Refused(ParseError::InvalidSubtag));
    }
    None
}

// Whether it begins with a language.
#[inline(always)]
fn lead_of_language(text: Window<'_>) -> Lead
    ensures { (mode : Mode) → IsLead mode (text_in text.entry) result }
{
    if begins_with_language(text.bytes, text.len()) {
        return Lead::Outline;
    }
    Lead::Refused(ParseError::InvalidLanguage)
}

// What a data locale shows, as it is read.
#[inline(always)]
fn lead_of_data(text: Window<'_>) -> Lead
    ensures { IsLead modes.Data (text_in text.entry) result }
{
    match lead_of_language(text) {
        Lead::Outline => match read_data(text.bytes, text.len()) {
            Data::Refused(error) => Lead::Refused(error),
            Data::Head(_) | Data::Named(_, _) => Lead::Outline,
        },
        refused => refused,
    }
}
