//! Whether the first bytes of a window are a language.
ghost use Rattle.std.specs.Prelude.{◌≡◌, ◌≤◌, length, take};
ghost use Rattle.iloc_spec_grammar.specs.Syntax.{Language, is_word, languages, letters};

use crate::is_language_length;
use crate::run::first_letters;

// Whether the first `n` bytes are letters.
#[inline(always)]
fn are_letters(window: &[u8], n: usize) -> bool
    requires wide { 16 ≤ length window.now }
    requires few { n ≤ 16 }
    ensures { result ≡ letters (take n window.now) }
{
    n <= first_letters(window)
}

/// Whether the first `n` bytes are a language.
#[inline(always)]
pub fn is_language(window: &[u8], n: usize) -> bool
    requires wide { 16 ≤ length window.now }
    requires few { n ≤ 16 }
    ensures { result ≡ is_word (Language languages) (take n window.now) }
{
    if !is_language_length(n) {
        return false;
    }
    are_letters(window, n)
}
