//! The hash of what is printed.
ghost use Rattle.std.specs.Prelude.{◌≡◌, fold, refl};
ghost use Rattle.iloc_calls.specs.Hashing.{hash_of, hash_step, hashed_both};

use iloc_writeable::{Sink, Writeable};
use std::fmt;

// The state before the first byte, and what it is multiplied by at each.
const START: u64 = 14695981039346656037;

const FACTOR: u64 = 1099511628211;

/// Hashes what is written to it, and keeps none of it.
#[derive(Drop)]
struct Hashing {
    state: u64,
}

// The state one byte further.
fn step(state: u64, byte: u8) -> u64
    ensures { result ≡ hash_step state byte }
{
    (state ^ u64::from(byte)).wrapping_mul(FACTOR)
}

// The state after all of the bytes.
fn after(state: u64, bytes: &[u8]) -> u64
    ensures { result ≡ fold hash_step state bytes.now }
{
    bytes.iter().fold(state, |state, byte| step(state, *byte))
}

impl Sink for Hashing {
    ghost took = { λ a t b. b.state ≡ fold hash_step a.state t };

    ghost failed = { λ _ _ _ _. ⊥ };

    fn write_str(&mut self, text: &str) -> fmt::Result {
        self.state = after(self.state, text.as_bytes());
        Ok(())
    }

    ghost took_nothing = { λ _. refl };

    ghost took_then_took = { λ a b c s t p q. hashed_both a.state b.state c.state s t p q };

    ghost took_then_failed = { λ a b c s t u p q. q };

    ghost failed_of_more = { λ a b t u v q. q };
}

/// The hash of the text, which is printed to nowhere.
pub fn hash_of_text<W: Writeable>(value: &W) -> u64
    ensures { result ≡ hash_of (W.text value.now) }
{
    let mut hashing = Hashing { state: START };
    match value.write_to(&mut hashing) {
        Ok(()) => hashing.state,
        Err(_) => unreachable!(),
    }
}
