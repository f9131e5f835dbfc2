//! The length of a printed text, without the text.
ghost use Rattle.std.specs.Prelude.{◌≡◌, ℕ};
ghost use Rattle.iloc_writeable.specs.Hints.{fitting, hint_of};
ghost use Rattle.iloc_writeable.specs.Counting.{Counted, counted_nothing, counted_both};

use crate::hint::LengthHint;
use crate::sink::Sink;
use std::fmt;

/// Adds up the lengths of what is written to it, and keeps none of it.
#[derive(Drop)]
pub(crate) struct Counting {
    // `None` if the sum doesn't fit.
    sum: Option<usize>,
}

impl Counting {
    /// Nothing is counted yet.
    pub(crate) fn new() -> Self
        ensures { result.sum ≡ fitting 0 }
    {
        Counting { sum: Some(0) }
    }

    /// The hint of the length so far.
    pub(crate) fn hint(&self) -> LengthHint
        ensures { (n : ℕ) → self.now.sum ≡ fitting n → result ≡ hint_of n }
    {
        LengthHint(self.sum.unwrap_or(usize::MAX), self.sum)
    }
}

impl Sink for Counting {
    ghost took = { λ a t b. Counted a.sum t b.sum };

    ghost failed = { λ _ _ _ _. ⊥ };

    fn write_str(&mut self, text: &str) -> fmt::Result {
        self.sum = match self.sum {
            Some(sum) => sum.checked_add(text.len()),
            None => None,
        };
        Ok(())
    }

    ghost took_nothing = { λ s. counted_nothing s.sum };

    ghost took_then_took = { λ a b c s t p q. counted_both a.sum b.sum c.sum s t p q };

    ghost took_then_failed = { λ a b c s t u p q. q };

    ghost failed_of_more = { λ a b t u v q. q };
}
