//! How many variants in a row come before one that repeats an earlier one.
//!
//! The numbers of a chunk of variants are sorted, and each later variant is looked for among them. So a run of variants
//! is gone through once for each chunk of it. A long run is one chunk if there is memory for its numbers.
ghost use Rattle.std.specs.Prelude.{◌≡◌, ℕ, ◌≤◌, ◌<◌, true, false, List, [], ◌∷◌, ◌++◌, length, map};
ghost use Rattle.std.specs.List.Sorted.{IsNonDecreasing};
ghost use Rattle.iloc_spec_grammar.specs.Syntax.{IsWord, Variant, lower};
ghost use Rattle.iloc_pieces.specs.Cursor.{piece_left};
ghost use Rattle.iloc_pieces.specs.Words.{word_number as number_of};
ghost use Rattle.iloc_faults.specs.States.{AreNew, are_same, variants_left};
ghost use Rattle.iloc_faults.specs.Numbers.{AreNumbersAt, AreDistinct, ComeBefore, same};

use iloc_memory::{Memory, lengthen};
use iloc_pieces::cursor::{Cursor, is_last, is_variant, next, word_number};
use std::alloc::Global;
use std::cmp::min;

// Variants of a run that is compared in one chunk.
const FEW: usize = 64;

// Variants of a chunk of a run of at most `MANY`. Its numbers have room on the stack of the web module, of 64 KB, whose
// texts have no more variants.
const SOME: usize = 4_096;

// Variants of a chunk of a longer run, if there is no memory for all of it.
const MANY: usize = 16_384;

/// Where the numbers of a long run of variants are kept.
pub trait Room: Copy {
    /// The same as `count_new`, of so many variants.
    fn count_many(self, first: Cursor<'_>, all: usize) -> usize
        requires some { 1 ≤ all }
        requires all { all ≡ length (variants_left first) }
        ensures { AreNew are_same [] (map lower (variants_left first.entry)) result };
}

/// On the stack, as many as there is room for.
#[derive(Clone, Copy)]
pub struct OnStack;

impl Room for OnStack {
    fn count_many(self, first: Cursor<'_>, all: usize) -> usize {
        count_by::<MANY>(first, all)
    }
}

/// In this memory. If room is refused, they are kept on the stack.
#[derive(Clone, Copy)]
pub struct InMemory<M = Global>(pub M);

impl<M: Memory> Room for InMemory<M> {
    fn count_many(self, first: Cursor<'_>, all: usize) -> usize {
        let mut words = self.0.empty();
        match lengthen(self.0, &mut words, all, 0u64) {
            Ok(()) => count_in(words.as_mut_slice(), first, all),
            Err(_) => count_by::<MANY>(first, all),
        }
    }
}

// The piece after a variant; the variant itself, if it is the last piece.
#[inline(always)]
fn after(at: Cursor<'_>) -> Cursor<'_>
    requires { IsWord Variant (piece_left at) }
    ensures { (n : ℕ) (ns : List ℕ) → AreNumbersAt at.entry (n ∷ ns) → AreNumbersAt result ns }
{
    if is_last(at) { at } else { next(at) }
}

// How many variants come one after the other.
fn count_variants(first: Cursor<'_>) -> usize
    ensures { result ≡ length (variants_left first.entry) }
{
    let mut at = first;
    let mut count = 0;
    'variants: while is_variant(at) {
        count += 1;
        if is_last(at) {
            return count;
        }
        at = next(at);
    }
    count
}

// Writes the numbers of the next variants, and returns what follows them.
fn fill<'a>(words: &mut [u64], first: Cursor<'a>) -> Cursor<'a>
    requires { (ns : List ℕ) × AreNumbersAt first ns × (length words.old ≤ length ns) }
    ensures { (ns ks : List ℕ) → AreNumbersAt first.entry (ns ++ ks) → length ns ≡ length words.new
        → (words.new ≡ ns) × AreNumbersAt result ks }
{
    let mut at = first;
    for word in words.iter_mut() {
        *word = word_number(at);
        at = after(at);
    }
    at
}

// Whether a number comes twice.
fn has_twice(sorted: &[u64]) -> bool
    requires { IsNonDecreasing sorted.now }
    ensures yes { result ≡ true → ¬ (AreDistinct sorted.now) }
    ensures no { result ≡ false → AreDistinct sorted.now }
{
    for i in 1..sorted.len() {
        if sorted[i - 1] == sorted[i] {
            return true;
        }
    }
    false
}

// How many of so many variants come before one whose number is given.
fn count_others(sorted: &[u64], first: Cursor<'_>, most: usize) -> usize
    requires sorted { IsNonDecreasing sorted.now }
    requires words { (ns : List ℕ) × AreNumbersAt first ns × (most ≤ length ns) }
    ensures { (ns : List ℕ) → AreNumbersAt first.entry ns → most ≤ length ns
        → ComeBefore sorted.now most ns result }
{
    let mut at = first;
    for count in 0..most {
        if sorted.binary_search(&word_number(at)).is_ok() {
            return count;
        }
        at = after(at);
    }
    most
}

// The same as `count_new`, by chunks of as many variants as there is room for.
fn count_in(words: &mut [u64], first: Cursor<'_>, all: usize) -> usize
    requires some { 1 ≤ length words.old }
    requires all { all ≡ length (variants_left first) }
    ensures { AreNew are_same [] (map lower (variants_left first.entry)) result }
{
    let mut at = first;
    let mut done = 0;
    let mut fresh = all;
    let mut size = words.len();
    'chunks: while done < fresh {
        let count = min(size, fresh - done);
        let chunk = &mut words[..count];
        let later = fill(chunk, at);
        chunk.sort_unstable();
        if has_twice(chunk) {
            fresh = done + count - 1;
            size = count / 2;
        } else {
            fresh = done + count + count_others(chunk, later, fresh - done - count);
            done += count;
            at = later;
        }
    }
    fresh
}

// The same by chunks of N variants, on the stack. It stands for itself, so that what calls it has no room for N numbers
// among its own locals.
#[inline(never)]
fn count_by<const N: usize>(first: Cursor<'_>, all: usize) -> usize
    requires some { 1 ≤ N }
    requires few { N ≤ 65536 }
    requires all { all ≡ length (variants_left first) }
    ensures { AreNew are_same [] (map lower (variants_left first.entry)) result }
{
    let mut words = [0u64; N];
    count_in(&mut words, first, all)
}

/// How many of the variants from the piece on come before one that repeats an earlier one, or before the end of them.
///
/// It takes time in proportion to their number and its logarithm. More than 16,384 of them are kept in the room. Most
/// variants stand alone, and are not sorted.
#[inline(never)]
pub fn count_new<R: Room>(room: R, first: Cursor<'_>) -> usize
    ensures { AreNew are_same [] (map lower (variants_left first.entry)) result }
{
    let all = count_variants(first);
    if all <= 1 {
        all
    } else if all <= FEW {
        count_by::<FEW>(first, all)
    } else if all <= MANY {
        count_by::<SOME>(first, all)
    } else {
        room.count_many(first, all)
    }
}
