//! The number of some bytes, the first lowest.
ghost use Rattle.std.specs.Prelude.{◌≡◌, ◌≤◌, length};
ghost use Rattle.iloc_tinystr.specs.Number.{number};

/// The number of a piece of at most eight bytes.
#[tactic(auto, using(crate::proofs::Loading::wide, crate::proofs::Loading::narrow))]
#[inline(always)]
pub fn number_of(piece: &[u8]) -> u64
    requires { length piece.now ≤ 8 }
    ensures { result ≡ number piece.now }
{
    let n = piece.len();
    if n >= 4 {
        let low = u32::from_le_bytes([piece[0], piece[1], piece[2], piece[3]]);
        let high = u32::from_le_bytes([piece[n - 4], piece[n - 3], piece[n - 2], piece[n - 1]]);
        // A byte that is among both is the same in both.
        return low as u64 | (high as u64) << (8 * n - 32);
    }
    if n >= 2 {
        let low = u16::from_le_bytes([piece[0], piece[1]]);
        return low as u64 | (piece[n - 1] as u64) << (8 * n - 8);
    }
    if n == 1 { piece[0] as u64 } else { 0 }
}
