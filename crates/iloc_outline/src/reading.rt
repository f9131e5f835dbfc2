//! What some pieces are.
ghost use Rattle.iloc_outline.specs.Reading.{EndsAtBlock};

use iloc_pieces::cursor::{Cursor, is_single};

/// What the pieces from one on are.
#[derive(Clone, Copy)]
pub enum Found {
    /// Good, up to the end of the text.
    End,
    /// Good, up to a piece that begins something else.
    Next,
    /// Not good.
    Bad,
    /// Variants, of which one comes twice.
    Repeated,
    /// More than there is room for.
    Full,
}

impl Found {
    /// What the pieces of a block are: a piece of one byte comes next, or the block is bad.
    #[inline(always)]
    pub fn at_block(self, next: &Cursor<'_>) -> Found
        ensures { EndsAtBlock next.now self result }
    {
        match self {
            Found::Next if !is_single(*next) => Found::Bad,
            found => found,
        }
    }
}
