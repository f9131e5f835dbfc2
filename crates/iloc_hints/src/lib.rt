//! What is usually meant by a refused text that comes of a file or a system, such as `en_US`.
//!
//! `hint` looks for what UTS #35 has not: a byte order mark, blanks, the names `C`, `POSIX` and `root`, the codeset or the
//! modifier of a system's locale, underscores (`specs/Hints.antt`). It promises a hint exactly where there is one, and of a
//! rewriting that the rewritten text is accepted. It allocates nothing, and says of each hint what to do (`Hint::words`).
//!
//! It stands on the definitions of cleaning (`iloc_cleaning`), and asks `iloc_faults` whether a text is accepted.
#![tactic(auto)]

ghost use Rattle.std.specs.Prelude.{◌≡◌, ◌↔◌, Some};
ghost use Rattle.iloc_hints.specs.Hints.{HasHint};
ghost use Rattle.iloc_hints.specs.declared.hints.Hint.{Hint};

pub mod hints;
mod rewriting;
mod signs;

pub use hints::Hint;
use iloc_faults::{OnStack, Room, fault_in};
use iloc_normalize::Mode;

/// What is usually meant by the text, if it is refused in the mode and looks like one of these.
///
/// A hint is the first that fits. Rewritings are tried for texts that have at most 64 bytes before a `.` or an `@`. It
/// allocates nothing, and takes time as `fault_of` does. `hint_in` can take memory for many variants.
///
/// ```text
/// hint(Mode::Locale, b"en_US")       // Some(Hint::Underscores): use hyphens in place of underscores
/// hint(Mode::Locale, b"de_DE.UTF-8") // Some(Hint::Codeset)
/// hint(Mode::Locale, b"C")           // Some(Hint::System): use und, since this name has no language
/// hint(Mode::Locale, b"en-US")       // None: it is accepted
/// hint(Mode::Locale, b"en_!")        // None: with a hyphen it is refused too
/// ```
pub fn hint(mode: Mode, text: &[u8]) -> Option<Hint>
    ensures { (hint : Hint) → (result ≡ Some hint) ↔ HasHint mode text.now hint }
{
    hint_in(OnStack, mode, text)
}

/// The same as `hint`, with this room for long runs of variants, as `fault_in` has it. Whatever the room is, it returns the
/// same.
///
/// ```text
/// hint_in(InMemory(alloc), Mode::Locale, b"en_US") // Some(Hint::Underscores)
/// ```
pub fn hint_in<R: Room>(room: R, mode: Mode, text: &[u8]) -> Option<Hint>
    ensures { (hint : Hint) → (result ≡ Some hint) ↔ HasHint mode text.now hint }
{
    let hint = signs::sign(text)?;
    if fault_in(room, mode, text).is_none() {
        return None;
    }
    if rewriting::has_what_it_needs(mode, text, hint) {
        Some(hint)
    } else {
        None
    }
}
