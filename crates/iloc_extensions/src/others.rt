//! The others, in order.
ghost use Rattle.std.specs.Prelude.{◌≡◌, ◌==◌, ◌+◌, false, length, OnOk, OnErr, IfErr};
ghost use Rattle.std.specs.FinMap.{put};
ghost use Rattle.std.specs.List.{list_any};
ghost use Rattle.std.specs.Ordering.{nat_cmp};
ghost use Rattle.iloc_extensions.specs.Place.{how_many_up_to};
ghost use Rattle.iloc_memory.specs.Refusals.{RefusedWithin};

use iloc_memory::{Memory, insert_at};
use iloc_other::Other;
use iloc_subtags::ParseError;

/// Whether one of the others has this singleton.
pub(crate) fn has_other(others: &[Other], ext: u8) -> bool
    ensures { result ≡ list_any (λ (c, _). c == ext) others.now }
{
    others.iter().any(|other| other.get_ext_byte() == ext)
}

// How many of the others, which ascend, stand before this singleton.
fn place_of(others: &[Other], ext: u8) -> usize
    ensures { result ≡ how_many_up_to ext others.now }
{
    let above = others.iter().position(|other| ext < other.get_ext_byte());
    above.unwrap_or(others.len())
}

/// Puts an extension among the others, which have none of its singleton.
pub(crate) fn insert_other<M: Memory>(
    memory: M,
    others: &mut Vec<Other>,
    other: Other,
) -> Result<(), ParseError>
    requires { list_any (λ (c, _). c == other.0) others.old.items ≡ false }
    ensures ok { OnOk result (others.new.items ≡ put nat_cmp other.0 other.1 others.old.items) }
    ensures err { IfErr result (λ e. e ≡ ParseError.OutOfMemory) }
    ensures out_of_memory { OnErr result
        (RefusedWithin M.refused (length others.old.items + 1)) }
{
    let place = place_of(others, other.get_ext_byte());
    Ok(insert_at(memory, others, place, other)?)
}
