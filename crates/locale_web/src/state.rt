//! What a piece is after those before it.
ghost use Rattle.std.specs.Prelude.{◌≡◌};
ghost use Rattle.iloc_pieces.specs.Cursor.{piece_left};
ghost use Rattle.locale_web.specs.Steps.{is_singleton_piece, begun, inside, step, word_kind};

use crate::kind::Kind;
use iloc_pieces::cursor::{
    Cursor, is_field_key, is_key, is_region, is_script, is_single, singleton,
};

/// Which part the next piece is in, if it begins no other.
#[derive(Clone, Copy, PartialEq, Eq)]
pub enum State {
    /// Nothing was read: a language comes.
    Start,
    /// The identifier in front.
    Head,
    /// `t` was read: a language or a key comes.
    Transform,
    /// The identifier after `t`.
    Source,
    /// The fields of `t`.
    Fields,
    /// The attributes of `u`.
    Attributes,
    /// The keywords of `u`.
    Keywords,
    /// Another extension.
    Other,
    /// What follows `x`.
    Private,
}

// What a word after a language is.
fn word_kind(at: Cursor<'_>) -> Kind
    ensures { result ≡ word_kind (piece_left at.entry) }
{
    if is_script(at) {
        return Kind::Script;
    }
    if is_region(at) {
        return Kind::Region;
    }
    Kind::Variant
}

// The part that a singleton begins, in lower case.
fn begun(byte: u8) -> State
    ensures { result ≡ begun byte }
{
    match byte {
        b't' => State::Transform,
        b'u' => State::Attributes,
        b'x' => State::Private,
        _ => State::Other,
    }
}

// Whether the piece begins a part: it has one byte, and is not private.
fn is_singleton_piece(state: State, at: Cursor<'_>) -> bool
    ensures { result ≡ is_singleton_piece state (piece_left at.entry) }
{
    match state {
        State::Private => false,
        _ => is_single(at),
    }
}

// What a piece is that begins no part, and what comes after it.
fn inside(state: State, at: Cursor<'_>) -> (Kind, State)
    ensures { result ≡ inside state (piece_left at.entry) }
{
    match state {
        State::Start => (Kind::Language, State::Head),
        State::Head => (word_kind(at), State::Head),
        State::Transform => {
            if is_field_key(at) {
                return (Kind::Field, State::Fields);
            }
            (Kind::Language, State::Source)
        }
        State::Source => {
            if is_field_key(at) {
                return (Kind::Field, State::Fields);
            }
            (word_kind(at), State::Source)
        }
        State::Fields => {
            if is_field_key(at) {
                return (Kind::Field, State::Fields);
            }
            (Kind::Value, State::Fields)
        }
        State::Attributes => {
            if is_key(at) {
                return (Kind::Key, State::Keywords);
            }
            (Kind::Attribute, State::Attributes)
        }
        State::Keywords => {
            if is_key(at) {
                return (Kind::Key, State::Keywords);
            }
            (Kind::Value, State::Keywords)
        }
        State::Other => (Kind::Other, State::Other),
        State::Private => (Kind::Private, State::Private),
    }
}

/// What the piece is, and what comes after it.
pub fn step(state: State, at: Cursor<'_>) -> (Kind, State)
    ensures { result ≡ step state (piece_left at.entry) }
{
    if is_singleton_piece(state, at) {
        return (Kind::Singleton, begun(singleton(at)));
    }
    inside(state, at)
}
