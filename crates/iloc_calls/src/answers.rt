//! What is answered of a text.
ghost use Rattle.std.specs.Prelude.{◌≡◌, ◌↔◌, ◌+◌, ◌<◌, ◌≤◌, length, Some, MatchOption, MatchResult};
ghost use Rattle.iloc_calls.specs.declared.status.Status.{Status};
ghost use Rattle.iloc_calls.specs.Answers.{JudgedAs, Normalizes, NormalizesTo};
ghost use Rattle.iloc_calls.specs.Numbers.{EndsAs, mode_number, number_of, status_of};
ghost use Rattle.iloc_normalize.specs.declared.Mode.{Mode};
ghost use Rattle.iloc_normalize.specs.declared.Mode.TheVariants as modes;

use crate::data::read_parts;
use crate::filling::{hand_out_bytes, hand_out_fitting_plain, hand_out_within};
use crate::status::Status;
use iloc_langid::LanguageIdentifier;
use iloc_langid::reader::read_into as read_identifier;
use iloc_locale::Locale;
use iloc_normalize::answered::ROOM;
use iloc_normalize::window::{WINDOW, answer_text};
use iloc_normalize::{Answered, Mode};
use iloc_pieces::read_plain_text;
use iloc_subtags::ParseError;
use std::alloc::Global;

/// The mode of that number.
pub fn mode_of(number: u32) -> Option<Mode>
    ensures { (mode : Mode) → (result ≡ Some mode) ↔ (number ≡ mode_number mode) }
{
    match number {
        0 => Some(Mode::Langid),
        1 => Some(Mode::Locale),
        2 => Some(Mode::Data),
        _ => None,
    }
}

// How the reading ended.
fn outcome<T: Drop>(read: Result<T, ParseError>) -> Status
    ensures { MatchResult read (λ _. result ≡ Status.Done) (λ refusal. result ≡ status_of refusal) }
{
    match read {
        Ok(_) => Status::Done,
        Err(refusal) => Status::from(refusal),
    }
}

/// Whether the text means something, or why not.
pub(crate) fn judge(alloc: Global, mode: Mode, text: &[u8]) -> Status
    ensures { JudgedAs mode text.now result }
{
    match read_plain_text(text) {
        Some(_) => Status::Done,
        None => judge_other(alloc, mode, text),
    }
}

// Judges a text that is not plain.
#[inline(never)]
fn judge_other(alloc: Global, mode: Mode, text: &[u8]) -> Status
    ensures { JudgedAs mode text.now result }
{
    let mut window = [0u8; WINDOW];
    let mut room = [0u8; ROOM];
    match answer_text(mode, text, &mut window, &mut room) {
        Answered::Normal(_) => Status::Done,
        Answered::Refused(refusal) => Status::from(refusal),
        Answered::Nothing => judge_parsed(alloc, mode, text),
    }
}

// Judges a text by parsing it.
#[inline(never)]
fn judge_parsed(alloc: Global, mode: Mode, text: &[u8]) -> Status
    ensures { JudgedAs mode text.now result }
{
    match mode {
        Mode::Langid => outcome(LanguageIdentifier::try_from_utf8(alloc, text)),
        Mode::Locale => outcome(Locale::try_from_utf8(alloc, text)),
        Mode::Data => judge_data_locale(text),
    }
}

// Judges a text as a data locale.
#[tactic(auto, using(crate::proofs::AnswerLemmas::parts_judged))]
#[inline(always)]
fn judge_data_locale(text: &[u8]) -> Status
    ensures { JudgedAs modes.Data text.now result }
{
    match read_parts(text) {
        Ok(_parts) => Status::Done,
        Err(refusal) => Status::of_refusal(&refusal),
    }
}

// Hands out nothing, and says why.
fn refuse(why: Status, needed: &mut usize) -> Status
    ensures status { result ≡ why }
    ensures needed { needed.new ≡ 0 }
{
    *needed = 0;
    why
}

// Hands out nothing of a plain text of so many bytes: the number is that of no mode, or there is too little room.
// It is called cold, so that the plain path has no status but that of what is done.
#[inline(never)]
#[cold]
fn withhold(mode: u32, len: usize, needed: &mut usize) -> u32
    ensures known { mode ≤ 2
        → (result ≡ number_of Status.BufferTooSmall) × (needed.new ≡ len) }
    ensures unknown { 2 < mode
        → (result ≡ number_of Status.UnknownNumber) × (needed.new ≡ 0) }
{
    if mode > 2 {
        return refuse(Status::UnknownNumber, needed).number();
    }
    *needed = len;
    Status::BufferTooSmall.number()
}

// Hands out the normal text of a plain text, whose first and last `W` bytes are all of it. If it is not
// plain, nothing is written to the buffer.
#[inline(always)]
fn normalize_plain<const W: usize>(
    mode: u32,
    text: &[u8],
    buffer: &mut [u8],
    needed: &mut usize,
) -> Option<u32>
    requires wide { W ≤ length text.now }
    requires few { length text.now ≤ W + W }
    ensures { MatchOption result (buffer.new ≡ buffer.old)
        (Normalizes mode text.now buffer.old buffer.new needed.new) }
{
    let plain = read_plain_text(text)?;
    if mode > 2 || plain.len > buffer.len() {
        return Some(withhold(mode, plain.len, needed));
    }
    Some(hand_out_fitting_plain::<W>(&plain, buffer, needed).number())
}

// Hands out the normal text of a plain text of less than four bytes.
#[inline(always)]
fn normalize_tiny(mode: u32, text: &[u8], buffer: &mut [u8], needed: &mut usize) -> Option<u32>
    requires { length text.now < 4 }
    ensures { MatchOption result (buffer.new ≡ buffer.old)
        (Normalizes mode text.now buffer.old buffer.new needed.new) }
{
    if text.len() < 2 {
        return None;
    }
    normalize_plain::<2>(mode, text, buffer, needed)
}

// Hands out the normal text of a plain text of any length.
#[inline(always)]
fn normalize_at_once(mode: u32, text: &[u8], buffer: &mut [u8], needed: &mut usize) -> Option<u32>
    ensures { MatchOption result (buffer.new ≡ buffer.old)
        (Normalizes mode text.now buffer.old buffer.new needed.new) }
{
    let len = text.len();
    if len > 16 {
        return None;
    }
    if len > 8 {
        return normalize_plain::<8>(mode, text, buffer, needed);
    }
    if len >= 4 {
        return normalize_plain::<4>(mode, text, buffer, needed);
    }
    normalize_tiny(mode, text, buffer, needed)
}

/// Hands out the normal text of what the text means, and gives the number of the status. Which mode it is,
/// and whether it is one, is asked last: a plain text means the same in each.
#[inline(always)]
pub(crate) fn normalize(
    alloc: Global,
    mode: u32,
    text: &[u8],
    buffer: &mut [u8],
    needed: &mut usize,
) -> u32
    ensures { Normalizes mode text.now buffer.old buffer.new needed.new result }
{
    match normalize_at_once(mode, text, buffer, needed) {
        Some(number) => number,
        None => normalize_other(alloc, mode, text, buffer, needed),
    }
}

// Hands out the normal text of one that is not plain. It is called cold, so that the registers are those of the plain
// path.
#[inline(never)]
#[cold]
fn normalize_other(
    alloc: Global,
    mode: u32,
    text: &[u8],
    buffer: &mut [u8],
    needed: &mut usize,
) -> u32
    ensures { Normalizes mode text.now buffer.old buffer.new needed.new result }
{
    match mode_of(mode) {
        Some(mode) => normalize_outlined(alloc, mode, text, buffer, needed),
        None => refuse(Status::UnknownNumber, needed).number(),
    }
}

// Hands out the normal text as it is written from the bytes, without a value.
#[inline(always)]
fn normalize_outlined(
    alloc: Global,
    mode: Mode,
    text: &[u8],
    buffer: &mut [u8],
    needed: &mut usize,
) -> u32
    ensures { EndsAs (NormalizesTo mode text.now buffer.old buffer.new needed.new) result }
{
    let mut window = [0u8; WINDOW];
    let mut room = [0u8; ROOM];
    match answer_text(mode, text, &mut window, &mut room) {
        Answered::Normal(normal) => hand_out_bytes(normal, buffer, needed).number(),
        Answered::Refused(refusal) => refuse(Status::from(refusal), needed).number(),
        Answered::Nothing => normalize_parsed(alloc, mode, text, buffer, needed).number(),
    }
}

// Hands out the normal text of the value that is parsed. Each mode has a function of its own, so that no call clears
// room for what others parse.
fn normalize_parsed(
    alloc: Global,
    mode: Mode,
    text: &[u8],
    buffer: &mut [u8],
    needed: &mut usize,
) -> Status
    ensures { NormalizesTo mode text.now buffer.old buffer.new needed.new result }
{
    match mode {
        Mode::Langid => normalize_identifier(alloc, text, buffer, needed),
        Mode::Locale => normalize_locale(alloc, text, buffer, needed),
        Mode::Data => normalize_data_locale(text, buffer, needed),
    }
}

#[tactic(auto, using(crate::proofs::Bounds::identifier_fits))]
#[inline(never)]
fn normalize_identifier(alloc: Global, text: &[u8], buffer: &mut [u8], needed: &mut usize) -> Status
    ensures { NormalizesTo modes.Langid text.now buffer.old buffer.new needed.new result }
{
    let mut identifier = LanguageIdentifier::unknown();
    match read_identifier(alloc, text, &mut identifier) {
        Ok(()) => hand_out_within(&identifier, text.len(), buffer, needed),
        Err(refusal) => refuse(Status::from(refusal), needed),
    }
}

#[tactic(auto, using(crate::proofs::Bounds::locale_fits))]
#[inline(never)]
fn normalize_locale(alloc: Global, text: &[u8], buffer: &mut [u8], needed: &mut usize) -> Status
    ensures { NormalizesTo modes.Locale text.now buffer.old buffer.new needed.new result }
{
    match Locale::try_from_utf8(alloc, text) {
        Ok(locale) => hand_out_within(&locale, text.len(), buffer, needed),
        Err(refusal) => refuse(Status::from(refusal), needed),
    }
}

// What was parsed is printed as it is: a data locale would be asked for its subdivision again.
#[tactic(auto, using(crate::proofs::Bounds::parts_fit))]
#[inline(never)]
fn normalize_data_locale(text: &[u8], buffer: &mut [u8], needed: &mut usize) -> Status
    ensures { NormalizesTo modes.Data text.now buffer.old buffer.new needed.new result }
{
    match read_parts(text) {
        Ok(parts) => hand_out_within(&parts, text.len() + 4, buffer, needed),
        Err(refusal) => refuse(Status::from(refusal), needed),
    }
}
