//! The first cells of an array, for writing.
ghost use Rattle.std.specs.Prelude.{◌≡◌, ◌≤◌, take};
ghost use Rattle.std.specs.Borrow.{sem, Lends, Array};
ghost use Rattle.iloc_shortvec.specs.ShortList.{overwritten};

/// The first `len` of four cells. Once the borrow ends, the four are what was written and, after it, those that were there.
pub(crate) fn front_mut<T>(cells: &mut [T; 4], len: usize) -> &mut [T]
    requires { len ≤ 4 }
    ensures* writes_back { sem 𝓛 (Lends (Array T.row 4) (Array T.row 0) cells.entry result
        (overwritten cells.old)) }
    ensures value { result.now ≡ take len cells.old }
{
    &mut cells[..len]
}
