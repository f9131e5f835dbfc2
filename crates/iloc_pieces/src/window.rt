//! A text with room behind it.
ghost use Rattle.std.specs.Prelude.{◌≡◌, ◌-◌, ◌≤◌, length};

/// A text, and sixteen bytes behind it. They may be loaded with it, and change nothing.
#[derive(Clone, Copy)]
pub struct Window<'a> {
    /// The text, and the sixteen bytes.
    pub bytes: &'a [u8],
    // They are there.
    pub ghost room: { 16 ≤ length bytes.now },
}

impl Window<'_> {
    /// How many bytes the text has.
    #[inline(always)]
    pub fn len(self) -> usize
        ensures { result ≡ length self.entry.bytes.now - 16 }
    {
        self.bytes.len() - 16
    }
}
