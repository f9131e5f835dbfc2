//! What a text shows.
ghost use Rattle.std.specs.Prelude.{◌≡◌, ◌≤◌, length};
ghost use Rattle.std.specs.List.{list_any, position_or_len};
ghost use Rattle.iloc_cleaning.specs.Cleaning.{ends_base};
ghost use Rattle.iloc_hints.specs.Hints.{base, is_space, is_system, is_underscore, sign};

use crate::Hint;

// Whether a byte is a space, a tab, a CR or a newline.
fn has_space(text: &[u8]) -> bool
    ensures { result ≡ list_any is_space text.now }
{
    text.iter().any(|byte| (*byte == b' ' || *byte == b'\t') || (*byte == b'\r' || *byte == b'\n'))
}

// Whether a byte is a `.` or an `@`.
fn has_codeset(text: &[u8]) -> bool
    ensures { result ≡ list_any ends_base text.now }
{
    text.iter().any(|byte| *byte == b'.' || *byte == b'@')
}

// Whether a byte is an underscore.
fn has_underscore(text: &[u8]) -> bool
    ensures { result ≡ list_any is_underscore text.now }
{
    text.iter().any(|byte| *byte == b'_')
}

// Where the codeset or the modifier begins, or how long the text is if it has none.
fn base_len(text: &[u8]) -> usize
    ensures within { result ≤ length text.now }
    ensures first { result ≡ position_or_len ends_base text.now }
{
    let found = text.iter().position(|byte| *byte == b'.' || *byte == b'@');
    found.unwrap_or(text.len())
}

/// The text up to its first `.` or `@`.
pub fn base(text: &[u8]) -> &[u8]
    ensures { result.now ≡ base text.now }
{
    &text[..base_len(text)]
}

// Whether the name is that of no language.
fn is_system(name: &[u8]) -> bool
    ensures { result ≡ is_system name.now }
{
    name == b"C".as_slice() || (name == b"POSIX".as_slice() || name == b"root".as_slice())
}

/// What the text shows first.
pub fn sign(text: &[u8]) -> Option<Hint>
    ensures { result ≡ sign text.now }
{
    if text.starts_with(b"\xEF\xBB\xBF") {
        return Some(Hint::Mark);
    }
    if has_space(text) {
        return Some(Hint::Blanks);
    }
    if is_system(base(text)) {
        return Some(Hint::System);
    }
    if has_codeset(text) {
        return Some(Hint::Codeset);
    }
    if has_underscore(text) {
        return Some(Hint::Underscores);
    }
    None
}
