//! Raw forms of at most eight bytes: their number, and back; whether two are equal, and their order.
ghost use Rattle.std.specs.Prelude.{◌≡◌, ◌-◌, ◌≤◌, ◌++◌, length, nat_eq, replicate, take};
ghost use Rattle.std.specs.Cmp.Lexicographic.{slice_cmp, pointwise};
ghost use Rattle.std.specs.Ordering.{nat_cmp};
ghost use Rattle.iloc_tinystr.specs.Number.{number, bytes};

use std::cmp::Ordering;

// The raw form, and zeros after it.
#[tactic(auto, using(crate::proofs::RawForms::widened_is))]
#[inline(always)]
pub(crate) fn widened<const N: usize>(raw: &[u8]) -> [u8; 8]
    requires few { N ≤ 8 }
    requires size { length raw.now ≡ N }
    ensures { result ≡ raw.now ++ replicate (8 - N) 0 }
{
    let mut all = [0; 8];
    all[..N].copy_from_slice(raw);
    all
}

/// The number of a raw form.
#[tactic(auto, using(crate::proofs::RawForms::number_widened))]
#[inline(always)]
pub fn number_of_raw<const N: usize>(raw: &[u8; N]) -> u64
    requires { N ≤ 8 }
    ensures { result ≡ number raw.now }
{
    u64::from_le_bytes(widened::<N>(raw))
}

// As many of eight bytes as a raw form has.
#[inline(always)]
pub(crate) fn narrowed<const N: usize>(all: [u8; 8]) -> [u8; N]
    requires { N ≤ 8 }
    ensures { result ≡ take N all }
{
    let mut raw = [0; N];
    raw.copy_from_slice(&all[..N]);
    raw
}

/// The lowest bytes of a number, as many as the raw form has.
#[tactic(auto, using(crate::proofs::RawForms::lowest_bytes))]
#[inline(always)]
pub fn raw_of_number<const N: usize>(packed: u64) -> [u8; N]
    requires { N ≤ 8 }
    ensures { result ≡ bytes N packed }
{
    narrowed::<N>(packed.to_le_bytes())
}

/// Whether two raw forms of `N` bytes have the same bytes.
#[tactic(auto, using(crate::proofs::RawForms::number_widened, crate::proofs::RawOrder::number_eq))]
#[inline(always)]
pub fn eq_raw<const N: usize>(raw: &[u8], other: &[u8]) -> bool
    requires few { N ≤ 8 }
    requires size { length raw.now ≡ N }
    requires same_size { length other.now ≡ N }
    ensures { result ≡ pointwise nat_eq raw.now other.now }
{
    let number = u64::from_le_bytes(widened::<N>(raw));
    number == u64::from_le_bytes(widened::<N>(other))
}

/// The order of two raw forms of `N` bytes, which is that of their bytes.
#[tactic(auto, using(crate::proofs::RawOrder::raw_cmp))]
#[inline(always)]
pub fn cmp_raw<const N: usize>(raw: &[u8], other: &[u8]) -> Ordering
    requires few { N ≤ 8 }
    requires size { length raw.now ≡ N }
    requires same_size { length other.now ≡ N }
    ensures { result ≡ slice_cmp nat_cmp raw.now other.now }
{
    let number = u64::from_be_bytes(widened::<N>(raw));
    number.cmp(&u64::from_be_bytes(widened::<N>(other)))
}
