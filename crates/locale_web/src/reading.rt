//! Reads a text.
ghost use Rattle.std.specs.Prelude.{◌≡◌, ◌≤◌, MatchOption, length, take};
ghost use Rattle.iloc_normalize.specs.declared.Mode.TheVariants as modes;
ghost use Rattle.iloc_spans.specs.declared.spans.Spans.{Spans};
ghost use Rattle.locale_web.specs.Answers.{IsJudged};
ghost use Rattle.locale_web.specs.Reading.{IsPastLimits, IsReadInto};

use iloc_calls::Status;
use iloc_data_parts::DataParts;
use iloc_normalize::Mode;
use iloc_outline::growth::InPlace;
use iloc_outline::outline::{
    Outline, Outlined, begins_with_language, outline_identifier, outline_locale,
};
use iloc_spans::spans::Spans;
use iloc_subtags::ParseError;
use std::mem::forget;

// The longest text that is outlined.
const MOST: usize = 65535;

/// What a text is read as.
#[derive(Drop)]
pub(crate) enum ReadText {
    /// An outline and spans give its normal text.
    Outlined(Outline),
    /// Its normal text is the text of these parts of a data locale.
    Parts(DataParts),
    /// It is refused.
    Refused(ParseError),
    /// It is past the limits.
    Beyond,
}

/// The number of bytes of the window that are the text.
#[tactic(auto, using(std::proofs::lemmas::List::take_min))]
pub(crate) fn text_end(window: &[u8], len: usize) -> usize
    ensures within { result ≤ length window.now }
    ensures same { take result window.now ≡ take len window.now }
{
    len.min(window.len())
}

// Reads the first bytes as an identifier.
fn read_identifier(window: &[u8], len: usize, spans: &mut Spans) -> ReadText
    requires { len ≤ length window.now }
    ensures { IsReadInto modes.Langid (take len window.now) spans.new result }
{
    if len > MOST {
        return ReadText::Beyond;
    }
    if !begins_with_language(window, len) {
        return ReadText::Refused(ParseError::InvalidLanguage);
    }
    match outline_identifier(InPlace, window, len, spans) {
        Outlined::Normal(outline) => ReadText::Outlined(outline),
        Outlined::Refused(error) => ReadText::Refused(error),
        Outlined::Full => ReadText::Beyond,
    }
}

// Reads the first bytes as a locale.
fn read_locale(window: &[u8], len: usize, spans: &mut Spans) -> ReadText
    requires { len ≤ length window.now }
    ensures { IsReadInto modes.Locale (take len window.now) spans.new result }
{
    if len > MOST {
        return ReadText::Beyond;
    }
    if !begins_with_language(window, len) {
        return ReadText::Refused(ParseError::InvalidLanguage);
    }
    match outline_locale(InPlace, window, len, spans) {
        Outlined::Normal(outline) => ReadText::Outlined(outline),
        Outlined::Refused(error) => ReadText::Refused(error),
        Outlined::Full => ReadText::Beyond,
    }
}

// Parses all of the text as a data locale.
#[tactic(auto, using(crate::proofs::ReadLemmas::parts_within))]
fn read_data(text: &[u8]) -> ReadText
    ensures { (spans : Spans) → IsReadInto modes.Data text.now spans result }
{
    match DataParts::try_from_utf8(text) {
        Ok(parts) => ReadText::Parts(parts),
        Err(error) => ReadText::Refused(error),
    }
}

/// Reads the first bytes in the mode. The spans are those of its outline, if it has one.
pub(crate) fn read(mode: Mode, window: &[u8], len: usize, spans: &mut Spans) -> ReadText
    requires { len ≤ length window.now }
    ensures { IsReadInto mode (take len window.now) spans.new result }
{
    match mode {
        Mode::Langid => read_identifier(window, len, spans),
        Mode::Locale => read_locale(window, len, spans),
        Mode::Data => read_data(&window[..len]),
    }
}

/// The status of the text: it means something, or its refusal. `None` if it is past the limits. Spans in place own no
/// memory, so they are forgotten: the module has no allocator to give any back to.
pub(crate) fn judge(mode: Mode, window: &[u8], len: usize) -> Option<Status>
    ensures { MatchOption result (IsPastLimits mode (take len window.now))
        (IsJudged mode (take len window.now)) }
{
    let mut spans = Spans::new();
    let status = judge_with(mode, window, text_end(window, len), &mut spans);
    forget(spans);
    status
}

// The status of the first bytes, with room for their spans.
fn judge_with(mode: Mode, window: &[u8], len: usize, spans: &mut Spans) -> Option<Status>
    requires { len ≤ length window.now }
    ensures { MatchOption result (IsPastLimits mode (take len window.now))
        (IsJudged mode (take len window.now)) }
{
    match read(mode, window, len, spans) {
        ReadText::Outlined(_) | ReadText::Parts(_) => Some(Status::Done),
        ReadText::Refused(error) => Some(Status::from(error)),
        ReadText::Beyond => None,
    }
}
