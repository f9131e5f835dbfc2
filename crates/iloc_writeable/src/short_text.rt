//! A text that is kept in place while it is written.
ghost use Rattle.std.specs.Prelude.{◌≡◌, [], ◌≤◌, take};
ghost use Rattle.std.specs.Str.{IsUtf8};

use crate::short::after_hyphen;
use crate::sink::Sink;
use std::fmt;

/// Keeps what is written to it in place, while there is room. It allocates nothing.
#[derive(Drop)]
pub(crate) struct ShortText {
    bytes: [u8; 64],
    len: usize,
    ghost in_range: { len ≤ 64 },
    ghost utf8: { ∥ IsUtf8 (take len bytes) ∥₁ },
}

impl ShortText {
    ghost use Rattle.iloc_writeable.specs.ShortTexts.{text_kept};

    /// No text.
    pub(crate) fn new() -> Self
        ensures { text_kept result ≡ [] }
    {
        ShortText {
            bytes: [0; 64],
            len: 0,
        }
    }

    /// What was written.
    pub(crate) fn as_str(&self) -> &str
        ensures { result.now ≡ text_kept self.now }
    {
        unsafe { str::from_utf8_unchecked(&self.bytes[..self.len]) }
    }
}

/// It fails only if a text has no room.
impl Sink for ShortText {
    ghost use Rattle.iloc_writeable.specs.ShortTexts.{text_kept, Grown};

    ghost took = { Grown };

    ghost failed = { λ _ _ _ _. Unit {0} };

    fn write_str(&mut self, text: &str) -> fmt::Result {
        let at = self.len;
        if text.len() > 64 - at {
            return Err(fmt::Error);
        }
        let end = at + text.len();
        self.bytes[at..end].copy_from_slice(text.as_bytes());
        self.len = end;
        Ok(())
    }

    // All eight bytes are copied, and those after the piece count for nothing.
    #[inline(always)]
    fn write_short_piece(&mut self, padded: [u8; 8], len: usize, first: bool) -> fmt::Result {
        let at = self.len;
        if at > 55 {
            return Err(fmt::Error);
        }
        if first {
            self.bytes[at..at + 8].copy_from_slice(&padded);
            self.len = at + len;
            return Ok(());
        }
        self.bytes[at..at + 9].copy_from_slice(&after_hyphen(&padded));
        self.len = at + 1 + len;
        Ok(())
    }

    ghost use Rattle.iloc_writeable.specs.ShortTexts.{grown_nothing, grown_both};

    ghost took_nothing = { grown_nothing };

    ghost took_then_took = { λ a b c s t p q. grown_both a b c s t p q };

    ghost took_then_failed = { λ _ _ _ _ _ _ _ _. tt };

    ghost failed_of_more = { λ _ _ _ _ _ _. tt };
}
