//! Where the fault of a refused text stands.
//!
//! The first pieces of a text *go on* if some accepted text begins with them. The fault stands at the first piece with
//! which the pieces no longer go on. If all of them go on, the text ends too early, and the fault stands at its end
//! (`specs/Places.antt`). Pieces count whole: the fault of `en-foo` stands at `foo`, though `en-foobar` is accepted,
//! because no accepted text has the piece `foo` right after `en`.
//!
//! `fault_of` reads the text piece by piece (`iloc_pieces`), and keeps what the next piece may be: a `State`. It
//! promises that it returns `None` exactly for accepted texts, and else the refusal of the parser and the place. It
//! allocates nothing. `fault_in` promises the same with any room for long runs of variants, in memory too. `place_in`
//! returns the place alone. The law `one_place` says that a text has one place.
//!
//! It stands on the definitions, on pieces (`iloc_pieces`), and on `iloc_normalize`: on its modes, and on what it says of a data
//! locale without building a value (`data_refusal`, `names_subdivision`).
#![tactic(auto)]

ghost use Rattle.std.specs.Prelude.{◌≡◌, ◌↔◌, ◌≤◌, None, IfSome, length};
ghost use Rattle.iloc_spec_grammar.specs.Syntax.{IsWord, Language, first_piece, languages, pieces};
ghost use Rattle.iloc_pieces.specs.Window.{text_in};
ghost use Rattle.iloc_normalize.specs.Answered.{HasRefusal};
ghost use Rattle.iloc_faults.specs.Places.{IsAccepted, IsFault, IsFaultPlace};

mod identifier;
pub mod laws;
pub mod modes;
mod repeats;
pub mod state;
pub mod step;
mod walk;

use crate::modes::InMode;
pub use crate::repeats::{InMemory, OnStack, Room};
use iloc_normalize::Mode;
use iloc_pieces::Window;
use iloc_subtags::ParseError;

/// Why a text is refused, and where.
#[derive(Clone, Debug, Drop, PartialEq, Eq)]
pub struct Fault {
    /// Why: what the parser returns.
    pub refusal: ParseError,
    /// The first byte of the piece at which the fault stands; the length of the text if that ends too early.
    pub start: usize,
    /// The end of the piece; the length of the text if that ends too early.
    pub end: usize,
}

/// Why a text is refused in the mode, and where its fault stands; `None` if the text is accepted.
///
/// The fault stands at the first piece that no accepted text has right after the pieces before it, or at the end of a text
/// that ends too early. Pieces count whole: `en-foo` has its fault at `foo`, though `en-foobar` is accepted. The refusal can
/// speak of another piece than the place: of `en-u-ca-foo-bar` as a data locale it speaks of `bar`, and the place is `ca`.
/// This library's rule.
///
/// It allocates nothing. It takes time in proportion to the text, but for variants: it sorts a run of at most 16,384, and
/// goes through a longer one once for each 16,384 of them, with 128 KB of the stack. `fault_in` can take memory for these.
///
/// ```text
/// fault_of(Mode::Locale, b"en--US") // Some(Fault { refusal: InvalidSubtag, start: 3, end: 3 })
/// fault_of(Mode::Locale, b"en-foo") // Some(Fault { refusal: InvalidSubtag, start: 3, end: 6 })
/// fault_of(Mode::Locale, b"en-u")   // Some(Fault { refusal: InvalidExtension, start: 4, end: 4 })
/// fault_of(Mode::Locale, b"en-US")  // None
/// ```
pub fn fault_of(mode: Mode, text: &[u8]) -> Option<Fault>
    ensures accepted { (result ≡ None) ↔ IsAccepted mode text.now }
    ensures refused { IfSome result (IsFault mode text.now) }
    ensures inside { IfSome result (λ f. (f.start ≤ f.end) × (f.end ≤ length text.now)) }
{
    fault_in(OnStack, mode, text)
}

/// The same as `fault_of`, with this room for long runs of variants. Whatever the room is, it returns the same.
///
/// In memory it takes time in proportion to the text, and to the sorting of its variants. It allocates only for more than
/// 16,384 variants in a row, eight bytes for each of them. If that is refused, it takes as long as on the stack.
///
/// ```text
/// fault_in(InMemory(alloc), Mode::Locale, b"en-foo") // Some(Fault { refusal: InvalidSubtag, start: 3, end: 6 })
/// ```
pub fn fault_in<R: Room>(room: R, mode: Mode, text: &[u8]) -> Option<Fault>
    ensures accepted { (result ≡ None) ↔ IsAccepted mode text.now }
    ensures refused { IfSome result (IsFault mode text.now) }
    ensures inside { IfSome result (λ f. (f.start ≤ f.end) × (f.end ≤ length text.now)) }
{
    match mode {
        Mode::Data => walk::data_fault(room, text),
        _ => walk::walk_text(room, mode, text),
    }
}

/// Where the fault of a text stands, of which sixteen bytes more can be loaded; `None` if the text is accepted. It takes
/// time and memory as `fault_in`.
///
/// ```text
/// place_in(InMemory(alloc), Mode::Locale, window) // Some((3, 6)), if its text is `en-foo`
/// ```
#[inline(always)]
pub fn place_in<R: Room>(room: R, mode: Mode, text: Window<'_>) -> Option<(usize, usize)>
    ensures accepted { (result ≡ None) ↔ IsAccepted mode (text_in text.entry) }
    ensures refused { IfSome result (λ p. IsFaultPlace mode (text_in text.entry) p.0 p.1) }
    ensures inside { IfSome result
        (λ p. (p.0 ≤ p.1) × (p.1 ≤ length (text_in text.entry))) }
{
    match walk::walk(room, mode, text.bytes, text.len()) {
        Some(found) => Some((found.start, found.end)),
        None => None,
    }
}

/// Where the fault of a text stands that has this refusal, and of which sixteen bytes more can be loaded: the same place, found
/// sooner. Only a text that begins with no language is refused for its language, so then its first piece is the place, and
/// else the first piece is not read again. It takes time and memory as `fault_in`.
///
/// ```text
/// place_of(InMemory(alloc), &Locales, window, &ParseError::InvalidSubtag) // (3, 6), if its text is `en-foo`
/// ```
#[inline(always)]
pub fn place_of<R: Room, A: InMode>(
    room: R,
    answers: &A,
    text: Window<'_>,
    refusal: &ParseError,
) -> (usize, usize)
    requires { HasRefusal A.mode (text_in text) refusal.now }
    ensures place { IsFaultPlace A.mode (text_in text.entry) result.0 result.1 }
    ensures inside { (result.0 ≤ result.1) × (result.1 ≤ length (text_in text.entry)) }
{
    match refusal {
        ParseError::InvalidLanguage => (0, walk::first_end(text.bytes, text.len())),
        _ => place_behind(room, answers, text),
    }
}

// Where the fault of a refused text stands that begins with a language. Each mode has a walk of its own, too large to be
// inlined.
#[inline(never)]
fn place_behind<R: Room, A: InMode>(room: R, answers: &A, text: Window<'_>) -> (usize, usize)
    requires refused { ¬ (IsAccepted A.mode (text_in text)) }
    requires begins { IsWord (Language languages) (first_piece (pieces (text_in text))) }
    ensures place { IsFaultPlace A.mode (text_in text.entry) result.0 result.1 }
    ensures inside { (result.0 ≤ result.1) × (result.1 ≤ length (text_in text.entry)) }
{
    match answers.walk_behind(room, text.bytes, text.len()) {
        Some(found) => (found.start, found.end),
        None => unreachable!(),
    }
}
