//! Subtags that come in any order, to be a set in the end.
ghost use Rattle.std.specs.Prelude.{◌≡◌, ◌≤◌, ◌+◌, ◌∷◌, true, false, length, is_none, IfSome, IfOk, OnErr, IsOk, List, ℕ};
ghost use Rattle.std.specs.List.{list_any};
ghost use Rattle.iloc_spec_grammar.specs.Syntax.{is_same, word_cmp};
ghost use Rattle.iloc_spec_grammar.specs.Meaning.{set_of};
ghost use Rattle.iloc_spec_grammar.specs.Values.{StrictlyAscends};
ghost use Rattle.iloc_memory.specs.Refusals.{RefusedWithin};
ghost use Rattle.iloc_word_list.specs.TakingIn.{TakesIn};
ghost use Rattle.iloc_word_list.specs.Collected.{collected_words, IsCollected};

use crate::word_set::WordSet;
use iloc_memory::{Memory, extend_from_slice, insert_at, push};
use iloc_subtags::{WordKind, WordOf};
use std::alloc::{AllocError, Global};
use std::marker::Model;

// How the subtags are kept: four as a set. More, of which more than four differ, in the order in which they
// came, and whether that is known to be ascending.
#[derive(Drop)]
enum Collected<K: WordKind<N>, const N: usize> {
    Four(WordSet<K, N>),
    Many(Vec<WordOf<K, N>>, bool),
}

/// Four subtags and more that come one by one, in any order, to be a set in the end.
///
/// Contracts see it as the list of the subtags that it holds, in whatever order. A subtag is put behind the
/// others, and they are sorted once, unless they came in ascending order: so n subtags cost n log n.
/// `WordSet::push` would move all subtags that are above each new one.
#[derive(Drop)]
pub struct WordCollector<K: WordKind<N>, const N: usize> {
    words: Collected<K, N>,
}

impl<K: WordKind<N>, const N: usize> Model for WordCollector<K, N> {
    ghost Value = { List (List ℕ) };

    ghost view = { λ c. collected_words c.words };

    ghost invariant = { λ c. IsCollected c.words };
}

// The subtags of a set of four and one more, in order; `None` if the set has it.
fn with_word<M: Memory, K: WordKind<N>, const N: usize>(
    memory: M,
    set: &WordSet<K, N>,
    word: WordOf<K, N>,
) -> Result<Option<Vec<WordOf<K, N>>>, AllocError>
    requires { length set.now ≡ 4 }
    ensures known { IfOk result (λ more. is_none more ≡ list_any (is_same word) set.now) }
    ensures more { IfOk result
        (λ more. IfSome more (λ words. words.items ≡ set_of (word ∷ set.now))) }
    ensures err { OnErr result (list_any (is_same word) set.now ≡ false) }
    ensures out_of_memory { OnErr result (RefusedWithin M.refused (length set.now + 1)) }
{
    match set.as_slice().binary_search(&word) {
        Ok(_) => Ok(None),
        Err(at) => {
            let mut words = memory.with_capacity(5)?;
            extend_from_slice(memory, &mut words, set.as_slice())?;
            insert_at(memory, &mut words, at, word)?;
            Ok(Some(words))
        }
    }
}

// Puts a subtag at the end, unless the subtags ascend and have it: then false.
fn push_last<M: Memory, K: WordKind<N>, const N: usize>(
    memory: M,
    words: &mut Vec<WordOf<K, N>>,
    ascend: &mut bool,
    word: WordOf<K, N>,
) -> Result<bool, AllocError>
    requires { ascend.old ≡ true → StrictlyAscends word_cmp words.old.items }
    ensures ascend { ascend.new ≡ true → StrictlyAscends word_cmp words.new.items }
    ensures taken { IfOk result (TakesIn word words.old.items words.new.items) }
    ensures err { OnErr result (words.new.items ≡ words.old.items) }
    ensures out_of_memory { OnErr result
        (RefusedWithin M.refused (length words.old.items + 1)) }
{
    if *ascend {
        match words.as_slice().binary_search(&word) {
            Ok(_) => return Ok(false),
            Err(at) => *ascend = at == words.len(),
        }
    }
    push(memory, words, word)?;
    Ok(true)
}

// The set of subtags in any order.
fn sorted<K: WordKind<N>, const N: usize>(mut words: Vec<WordOf<K, N>>) -> WordSet<K, N>
    ensures { result ≡ set_of words.items }
{
    words.sort_unstable();
    words.dedup();
    WordSet::from_vec_unchecked(words)
}

impl<K: WordKind<N>, const N: usize> WordCollector<K, N> {
    /// The subtags of a set of four, the most that stand in place.
    pub fn from_set(set: WordSet<K, N>) -> Self
        requires { length set ≡ 4 }
        ensures { result ≡ set }
    {
        set.as_slice();
        WordCollector {
            words: Collected::Four(set),
        }
    }

    /// How many subtags it holds.
    pub fn len(&self) -> usize
        ensures { result ≡ length self.now }
    {
        match &self.words {
            Collected::Four(set) => set.len(),
            Collected::Many(words, _) => words.len(),
        }
    }

    /// Takes a subtag in; false if it is known to be there, and then nothing changes. It is always known
    /// among four subtags, and among more as long as they ascend. It allocates only if there are more
    /// than four different subtags then.
    pub fn push(&mut self, alloc: Global, word: WordOf<K, N>) -> Result<bool, AllocError>
        ensures taken { IfOk result (TakesIn word self.old self.new) }
        ensures err { OnErr result (self.new ≡ self.old) }
        ensures succeeds { length (set_of (word ∷ self.old)) ≤ 4 → IsOk result }
    {
        self.push_in(alloc, word)
    }

    /// As `push`, from any memory. Refusal: `AllocError`, only if room for at most all the subtags was refused.
    pub fn push_in<M: Memory>(&mut self, memory: M, word: WordOf<K, N>) -> Result<bool, AllocError>
        ensures taken { IfOk result (TakesIn word self.old self.new) }
        ensures err { OnErr result (self.new ≡ self.old) }
        ensures succeeds { length (set_of (word ∷ self.old)) ≤ 4 → IsOk result }
        ensures out_of_memory { OnErr result (RefusedWithin M.refused (length self.old + 1)) }
    {
        match &mut self.words {
            Collected::Many(words, ascend) => push_last(memory, words, ascend, word),
            Collected::Four(_) => self.push_fifth(memory, word),
        }
    }

    // Takes in what may be a fifth subtag.
    fn push_fifth<M: Memory>(&mut self, memory: M, word: WordOf<K, N>) -> Result<bool, AllocError>
        requires { length self.old ≡ 4 }
        ensures taken { IfOk result (TakesIn word self.old self.new) }
        ensures err { OnErr result (self.new ≡ self.old) }
        ensures succeeds { length (set_of (word ∷ self.old)) ≤ 4 → IsOk result }
        ensures out_of_memory { OnErr result (RefusedWithin M.refused (length self.old + 1)) }
    {
        let more = match &self.words {
            Collected::Four(set) => with_word(memory, set, word)?,
            Collected::Many(_, _) => unreachable!(),
        };
        let Some(words) = more else {
            return Ok(false);
        };
        self.words = Collected::Many(words, true);
        Ok(true)
    }

    /// The set of the subtags. It allocates nothing.
    pub fn into_set(self) -> WordSet<K, N>
        ensures { result ≡ set_of self }
    {
        match self.words {
            Collected::Four(set) => set,
            Collected::Many(words, ascend) => {
                if ascend {
                    WordSet::from_vec_unchecked(words)
                } else {
                    sorted(words)
                }
            }
        }
    }
}
