//! What may come next, and why another piece is refused.
ghost use Rattle.std.specs.Prelude.{◌≡◌, ℕ, ◌^◌, List, Some, true, option_map, slice_index};
ghost use Rattle.std.specs.Char.{is_ascii_alphanumeric, to_ascii_lowercase};
ghost use Rattle.iloc_spec_grammar.specs.Syntax.{Text, is_one_byte};
ghost use Rattle.iloc_subtags.specs.Judging.{error_of};
ghost use Rattle.iloc_pieces.specs.Cursor.{piece_left};
ghost use Rattle.iloc_normalize.specs.declared.Mode.TheVariants as modes;
ghost use Rattle.iloc_faults.specs.Next as steps;
ghost use Rattle.iloc_faults.specs.Next.{begins_block, block_next, inside_next, may_begin, part_of, piece_next, subdivision_next, when};
ghost use Rattle.iloc_faults.specs.States.{IsRead, IsPieceRead, bare, bit_place, reached};

use crate::identifier::read_word;
use crate::repeats::Room;
use crate::state::{Part, Stage, State, may_end, takes_any};
use iloc_normalize::{Mode, is_sd, names_subdivision};
use iloc_pieces::cursor::{
    Cursor, is_alphanumeric, is_attribute, is_between, is_field_key, is_key, is_language,
    is_private, is_single, is_subtag, is_true, is_variant, singleton,
};
use iloc_subtags::ParseError;

// The subdivision of a data locale, or a `true` that it leaves out.
#[tactic(auto, using(iloc_pieces::proofs::CursorLemmas::short_attribute))]
fn read_subdivision(at: Cursor<'_>) -> Option<Part>
    ensures { result ≡ subdivision_next (piece_left at.entry) }
{
    if !is_attribute(at) {
        return None;
    }
    if is_true(at) {
        return Some(Part::SubdivisionKey);
    }
    let word = &at.window[at.at..at.at + at.piece_length];
    when(names_subdivision(word), Part::SubdivisionValue)
}

// The part, if this holds.
#[inline(always)]
fn when(holds: bool, part: Part) -> Option<Part>
    ensures { result ≡ when holds part }
{
    if holds { Some(part) } else { None }
}

// What was read once a piece of a block is read too.
#[inline(always)]
fn read_piece(part: Part, at: Cursor<'_>) -> Option<Part>
    ensures { result ≡ piece_next part (piece_left at.entry) }
{
    match part {
        Part::FieldKey => when(is_attribute(at), Part::FieldValue),
        Part::FieldValue => {
            if is_field_key(at) {
                return Some(Part::FieldKey);
            }
            when(is_attribute(at), Part::FieldValue)
        }
        Part::Unicode | Part::Keyword => when(is_attribute(at) || is_key(at), Part::Keyword),
        Part::Other => {
            let word = is_subtag(at);
            when(
                is_between(at),
                if word { Part::OtherWord } else { Part::Other },
            )
        }
        Part::OtherWord => when(is_between(at), Part::OtherWord),
        Part::Private | Part::PrivateWord => when(is_private(at), Part::PrivateWord),
        Part::Subdivision => when(is_sd(at), Part::SubdivisionKey),
        Part::SubdivisionKey => read_subdivision(at),
        Part::SubdivisionValue => when(is_attribute(at) && is_true(at), Part::SubdivisionValue),
        _ => None,
    }
}

// The state with this part, and no variants.
#[inline(always)]
fn plain(seen: u64, part: Option<Part>) -> Option<State>
    ensures { result ≡ option_map (bare seen) part }
{
    match part {
        Some(part) => Some(State {
            part,
            variants: None,
            seen,
        }),
        None => None,
    }
}

// What was read once a piece is read that begins no block.
#[inline(always)]
fn read_inside<R: Room>(room: R, mode: Mode, state: State, at: Cursor<'_>) -> Option<State>
    requires { (vs : List Text) × (seen : List ℕ) × IsRead mode state at vs seen }
    ensures { (vs : List Text) (seen : List ℕ) → IsRead mode state at.entry vs seen
        → IsPieceRead mode at.entry
        (inside_next mode state.part vs seen (piece_left at.entry)) result }
{
    let seen = state.seen;
    match state.part {
        Part::Start => plain(seen, when(is_language(at), Part::Head(Stage::Language))),
        Part::Head(stage) => match read_word(room, mode, stage, state.variants, at) {
            Some((stage, variants)) => Some(State {
                part: Part::Head(stage),
                variants,
                seen,
            }),
            None => None,
        },
        Part::Transform => {
            if is_field_key(at) {
                return plain(seen, Some(Part::FieldKey));
            }
            plain(seen, when(is_language(at), Part::Source(Stage::Language)))
        }
        Part::Source(stage) => {
            if is_field_key(at) {
                return plain(seen, Some(Part::FieldKey));
            }
            match read_word(room, mode, stage, state.variants, at) {
                Some((stage, variants)) => Some(State {
                    part: Part::Source(stage),
                    variants,
                    seen,
                }),
                None => None,
            }
        }
        _ => plain(seen, read_piece(state.part, at)),
    }
}

// The bit of a singleton, in lower case.
#[inline(always)]
fn bit_of(byte: u8) -> u64
    requires letter { is_ascii_alphanumeric byte ≡ true }
    requires low { to_ascii_lowercase byte ≡ byte }
    ensures { result ≡ 2 ^ bit_place byte }
{
    if byte < b'a' {
        1 << (byte - b'0')
    } else {
        1 << (byte - 87)
    }
}

// What was read with the singleton, in lower case.
#[inline(always)]
fn part_of(byte: u8) -> Part
    ensures { result ≡ part_of byte }
{
    match byte {
        b't' => Part::Transform,
        b'u' => Part::Unicode,
        b'x' => Part::Private,
        _ => Part::Other,
    }
}

// Whether a block may begin with the piece after the part: it is a letter or digit.
#[inline(always)]
fn may_begin(part: Part, at: Cursor<'_>) -> bool
    requires { is_one_byte (piece_left at) ≡ true }
    ensures { result ≡ may_begin part (slice_index (piece_left at.entry) 0) }
{
    may_end(part) && is_alphanumeric(at)
}

// What was read with the singleton of a locale too, if a block may begin with it.
#[inline(always)]
fn read_block(state: State, at: Cursor<'_>) -> Option<State>
    requires { is_one_byte (piece_left at) ≡ true }
    ensures { (vs : List Text) (seen : List ℕ) → IsRead modes.Locale state at.entry vs seen
        → IsPieceRead modes.Locale at.entry (block_next modes.Locale state.part seen
        (slice_index (piece_left at.entry) 0)) result }
{
    if !may_begin(state.part, at) {
        return None;
    }
    let byte = singleton(at);
    let bit = bit_of(byte);
    if state.seen & bit != 0 {
        return None;
    }
    Some(State {
        part: part_of(byte),
        variants: None,
        seen: state.seen | bit,
    })
}

// What was read with the singleton of a data locale too: `u` alone, after the identifier.
#[inline(always)]
fn read_data_block(state: State, at: Cursor<'_>) -> Option<State>
    requires { is_one_byte (piece_left at) ≡ true }
    ensures { (vs : List Text) (seen : List ℕ) → IsRead modes.Data state at.entry vs seen
        → IsPieceRead modes.Data at.entry (block_next modes.Data state.part seen
        (slice_index (piece_left at.entry) 0)) result }
{
    match state.part {
        Part::Head(_) if singleton(at) == b'u' => plain(state.seen, Some(Part::Subdivision)),
        _ => None,
    }
}

// What was read with the singleton too, in the mode.
#[inline(always)]
fn read_singleton(mode: Mode, state: State, at: Cursor<'_>) -> Option<State>
    requires { is_one_byte (piece_left at) ≡ true }
    ensures { (vs : List Text) (seen : List ℕ) → IsRead mode state at.entry vs seen
        → IsPieceRead mode at.entry (block_next mode state.part seen
        (slice_index (piece_left at.entry) 0)) result }
{
    match mode {
        Mode::Langid => None,
        Mode::Locale => read_block(state, at),
        Mode::Data => read_data_block(state, at),
    }
}

// Whether the piece begins a block after the part.
#[inline(always)]
fn begins_block(part: Part, at: Cursor<'_>) -> bool
    ensures { result ≡ begins_block part (piece_left at.entry) }
{
    is_single(at) && !takes_any(part)
}

/// What was read with the piece too; `None` if the piece may not come next.
#[inline(always)]
pub fn step<R: Room>(room: R, mode: Mode, state: State, at: Cursor<'_>) -> Option<State>
    requires { (vs : List Text) × (seen : List ℕ) × IsRead mode state at vs seen }
    ensures { (vs : List Text) (seen : List ℕ) → IsRead mode state at.entry vs seen
        → IsPieceRead mode at.entry
        (steps.next mode (reached state.part vs seen) (piece_left at.entry)) result }
{
    if begins_block(state.part, at) {
        return read_singleton(mode, state, at);
    }
    read_inside(room, mode, state, at)
}

/// Why the piece, which may not come next, is refused.
#[inline(always)]
pub fn refusal(mode: Mode, part: Part, at: Cursor<'_>) -> ParseError
    ensures { result ≡ error_of (steps.piece_fault mode part (piece_left at.entry)) }
{
    match mode {
        Mode::Langid => (),
        _ => {
            if begins_block(part, at) {
                if may_begin(part, at) {
                    return ParseError::DuplicatedExtension;
                }
                return ParseError::InvalidExtension;
            }
        }
    }
    match part {
        Part::Start => ParseError::InvalidLanguage,
        Part::Head(_) => ParseError::InvalidSubtag,
        Part::Source(_) if is_variant(at) => ParseError::InvalidSubtag,
        _ => ParseError::InvalidExtension,
    }
}
