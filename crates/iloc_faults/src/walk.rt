//! Walks over the pieces of a text until one may not come next.
ghost use Rattle.std.specs.Prelude.{◌≡◌, ◌↔◌, ◌+◌, ◌≤◌, List, None, IfSome, length, take};
ghost use Rattle.iloc_spec_grammar.specs.Syntax.{Text, IsWord, Language, first_piece, languages, pieces};
ghost use Rattle.iloc_pieces.specs.Cursor.{piece_left};
ghost use Rattle.iloc_normalize.specs.declared.Mode.TheVariants as modes;
ghost use Rattle.iloc_faults.specs.Next.{started, outcome, word_next};
ghost use Rattle.iloc_faults.specs.Places.{IsAccepted, IsFault};
ghost use Rattle.iloc_faults.specs.States.{AreVariantsRead, IsEarly, IsFaultFound, IsWalked, IsWordRead, bare};

use crate::Fault;
use crate::identifier::read_word;
use crate::repeats::Room;
use crate::state::{Part, Stage, State, may_end};
use crate::step::{refusal, step};
use iloc_normalize::{Mode, data_refusal};
use iloc_pieces::cursor::{Cursor, cursor_in, is_last, is_single, next};
use iloc_subtags::ParseError;

// Where the piece ends.
#[inline(always)]
fn end_of(at: Cursor<'_>) -> usize
    ensures { result ≡ at.entry.at + length (piece_left at.entry) }
{
    if at.piece_length < 16 {
        return at.at + at.piece_length;
    }
    let mut end = at.at;
    let stop = at.at + at.remaining;
    while end < stop && at.window[end] != b'-' {
        end += 1;
    }
    end
}

// Why the first bytes of the window are refused, which were read so up to the piece, and the place of their fault; `None` if
// they are accepted. Of a data locale the place alone counts.
#[inline(always)]
fn walk_from<R: Room>(
    room: R,
    mode: Mode,
    first: Cursor<'_>,
    before: State,
    len: usize,
) -> Option<Fault>
    requires inside { len ≤ length first.window.now }
    requires walked { IsWalked mode (take len first.window.now) first before }
    ensures good { result ≡ None
        → outcome mode started (pieces (take len first.entry.window.now)) ≡ None }
    ensures bad { IfSome result (IsFaultFound mode (take len first.entry.window.now)) }
{
    let mut at = first;
    let mut state = before;
    'pieces: loop {
        let Some(then) = step(room, mode, state, at) else {
            return Some(Fault {
                refusal: refusal(mode, state.part, at),
                start: at.at,
                end: end_of(at),
            });
        };
        state = then;
        if is_last(at) {
            break;
        }
        at = next(at);
    }
    if may_end(state.part) {
        return None;
    }
    Some(Fault {
        refusal: ParseError::InvalidExtension,
        start: len,
        end: len,
    })
}

// Nothing was read but this.
#[inline(always)]
fn read_only(part: Part) -> State
    ensures { result ≡ bare 0 part }
{
    State {
        part,
        variants: None,
        seen: 0,
    }
}

/// Why the first bytes of the window are refused as an identifier or a locale, and the place of their fault; `None` if they
/// are accepted. Of a data locale the place alone counts.
#[inline(always)]
pub fn walk<R: Room>(room: R, mode: Mode, window: &[u8], len: usize) -> Option<Fault>
    requires { len ≤ length window.now }
    ensures good { result ≡ None
        → outcome mode started (pieces (take len window.now)) ≡ None }
    ensures bad { IfSome result (IsFaultFound mode (take len window.now)) }
{
    let first = cursor_in(window, len);
    walk_from(room, mode, first, read_only(Part::Start), len)
}

/// The same of bytes that begin with a language. It is not tested again.
#[inline(always)]
pub fn walk_behind<R: Room>(room: R, mode: Mode, window: &[u8], len: usize) -> Option<Fault>
    requires inside { len ≤ length window.now }
    requires begins { IsWord (Language languages) (first_piece (pieces (take len window.now))) }
    ensures good { result ≡ None
        → outcome mode started (pieces (take len window.now)) ≡ None }
    ensures bad { IfSome result (IsFaultFound mode (take len window.now)) }
{
    let first = cursor_in(window, len);
    if is_last(first) {
        return None;
    }
    let second = next(first);
    walk_from(
        room,
        mode,
        second,
        read_only(Part::Head(Stage::Language)),
        len,
    )
}

// The next word of an identifier, if one comes. Most other pieces have one byte, which is told at once.
#[inline(always)]
fn read_next<R: Room>(
    room: R,
    stage: Stage,
    variants: Option<usize>,
    at: Cursor<'_>,
) -> Option<(Stage, Option<usize>)>
    requires before { (vs : List Text) × AreVariantsRead modes.Langid variants at vs }
    requires early { IsEarly stage variants }
    ensures { (vs : List Text) → AreVariantsRead modes.Langid variants at.entry vs
        → IsWordRead modes.Langid at.entry
        (word_next modes.Langid stage vs (piece_left at.entry)) result }
{
    if is_single(at) {
        return None;
    }
    read_word(room, Mode::Langid, stage, variants, at)
}

/// The same of an identifier. Only words may follow its language, so no block is looked for.
#[inline(always)]
pub fn words_behind<R: Room>(room: R, window: &[u8], len: usize) -> Option<Fault>
    requires inside { len ≤ length window.now }
    requires begins { IsWord (Language languages) (first_piece (pieces (take len window.now))) }
    ensures good { result ≡ None
        → outcome modes.Langid started (pieces (take len window.now)) ≡ None }
    ensures bad { IfSome result (IsFaultFound modes.Langid (take len window.now)) }
{
    let first = cursor_in(window, len);
    if is_last(first) {
        return None;
    }
    let mut at = next(first);
    let mut stage = Stage::Language;
    let mut variants = None;
    'words: loop {
        let Some((read, left)) = read_next(room, stage, variants, at) else {
            let (start, end) = (at.at, end_of(at));
            return Some(Fault {
                refusal: ParseError::InvalidSubtag,
                start,
                end,
            });
        };
        if is_last(at) {
            return None;
        }
        stage = read;
        variants = left;
        at = next(at);
    }
}

/// Where the first piece of the first bytes of the window ends.
#[inline(always)]
pub fn first_end(window: &[u8], len: usize) -> usize
    requires { len ≤ length window.now }
    ensures { result ≡ length (first_piece (pieces (take len window.now))) }
{
    end_of(cursor_in(window, len))
}

/// The same of a whole text.
pub fn walk_text<R: Room>(room: R, mode: Mode, text: &[u8]) -> Option<Fault>
    ensures good { result ≡ None → outcome mode started (pieces text.now) ≡ None }
    ensures bad { IfSome result (IsFaultFound mode text.now) }
{
    walk(room, mode, text, text.len())
}

/// Why a text is no data locale, and the place of its fault; `None` if it is one.
pub fn data_fault<R: Room>(room: R, text: &[u8]) -> Option<Fault>
    ensures accepted { (result ≡ None) ↔ IsAccepted modes.Data text.now }
    ensures refused { IfSome result (IsFault modes.Data text.now) }
{
    let refusal = data_refusal(text)?;
    match walk_text(room, Mode::Data, text) {
        Some(found) => Some(Fault {
            refusal,
            start: found.start,
            end: found.end,
        }),
        None => None,
    }
}
