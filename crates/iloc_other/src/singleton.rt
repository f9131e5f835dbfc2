//! The singleton that a part begins with.
ghost use Rattle.std.specs.Prelude.{◌≡◌};
ghost use Rattle.iloc_spec_grammar.specs.Reading.{rest_of};
ghost use Rattle.iloc_subtags.specs.Left.{left};
ghost use Rattle.iloc_other.specs.Singleton.{singleton_at};

use iloc_subtags::{SubtagIterator, take_byte};

/// Takes the next piece, and returns its byte in lower case if it has just one.
pub fn take_singleton(iter: &mut SubtagIterator<'_>) -> Option<u8>
    ensures byte { result ≡ singleton_at (left iter.old) }
    ensures rest { left iter.new ≡ rest_of (left iter.old) }
{
    let byte = take_byte(iter)?;
    Some(byte.to_ascii_lowercase())
}
