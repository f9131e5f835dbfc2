//! The ascending set of subtags of a kind.
ghost use Rattle.std.specs.Prelude.{◌≡◌, ◌<◌, ◌≤◌, ◌+◌, ◌==◌, [], ◌∷◌, ◌++◌, true, not, length, filter, IfOk, OnOk, OnErr, IsOk, List, ℕ};
ghost use Rattle.std.specs.List.{list_any, AllByRecursion};
ghost use Rattle.std.specs.Slice.{IsItemAt};
ghost use Rattle.std.specs.Slice.Iter.{iter_rest};
ghost use Rattle.iloc_spec_grammar.specs.Syntax.{is_same, word_cmp};
ghost use Rattle.iloc_memory.specs.Refusals.{RefusedWithin};
ghost use Rattle.iloc_word_list.specs.Ascending.{ascends};
ghost use Rattle.iloc_spec_grammar.specs.Meaning.{set_of};
ghost use Rattle.iloc_spec_grammar.specs.Values.{IsNormal, StrictlyAscends};

use crate::WordList;
use iloc_copying::{Copied, Copying, FromMemory};
use iloc_memory::Memory;
use iloc_subtags::{Variant, VariantKind, WordKind, WordOf};
use std::alloc::{AllocError, Global};
use std::marker::Model;
use std::mem::replace;
use std::slice::Iter;

/// A set of subtags of the kind `K`, seen by contracts as the list of their texts, which ascends strictly.
///
/// Sets are equal if they have the same subtags. They stand in the order of short lists: those of at
/// most one subtag before all larger ones, and subtag by subtag within each class.
#[derive(Drop)]
#[derive_where(PartialEq, Eq, PartialOrd, Ord, Hash)]
pub struct WordSet<K: WordKind<N>, const N: usize> {
    words: WordList<K, N>,
}

impl<K: WordKind<N>, const N: usize> Model for WordSet<K, N> {
    ghost Value = { List (List ℕ) };

    ghost view = { λ s. s.words };

    ghost invariant = { λ s. StrictlyAscends word_cmp s.words };

    ghost inverse = { λ words. record { words = words } };
}

/// The variants of an identifier, as `macos` and `posix`.
///
/// ```text
/// let mut variants = Variants::new();
/// variants.push(alloc, Variant::try_from_str("POSIX")?)?; // true
/// variants.push(alloc, Variant::try_from_str("macos")?)?; // true: macos-posix
/// variants.push(alloc, Variant::try_from_str("macos")?)?; // false: it is there
/// ```
pub type Variants = WordSet<VariantKind, 8>;

impl WordSet<VariantKind, 8> {
    /// The set of this one variant.
    pub fn from_variant(variant: Variant) -> Variants
        ensures { result ≡ variant ∷ [] }
    {
        WordSet::from_word(variant)
    }
}

impl<K: WordKind<N>, const N: usize> WordSet<K, N> {
    /// The empty set.
    pub fn new() -> Self
        ensures { result ≡ [] }
    {
        WordSet {
            words: WordList::new(),
        }
    }

    /// The set of this one subtag.
    pub fn from_word(word: WordOf<K, N>) -> Self
        ensures { result ≡ word ∷ [] }
    {
        WordSet {
            words: WordList::from_word(word),
        }
    }

    /// The set of these subtags, which have to ascend strictly: `is_strictly_ascending` is the test.
    #[tactic(auto, using(crate::proofs::SetLaws::set_ascends))]
    pub fn from_vec_unchecked(input: Vec<WordOf<K, N>>) -> Self
        requires { ascends word_cmp input.items ≡ true }
        ensures { result ≡ input.items }
    {
        WordSet {
            words: WordList::from_vec(input),
        }
    }

    /// The subtags, ascending.
    pub fn as_slice(&self) -> &[WordOf<K, N>]
        ensures value { result.now ≡ self.now }
        ensures ascending { StrictlyAscends word_cmp self.now }
        ensures normal { AllByRecursion (IsNormal K.kind) self.now }
    {
        self.words.as_slice()
    }

    /// Whether there is no subtag.
    pub fn is_empty(&self) -> bool
        ensures { result ≡ (length self.now == 0) }
    {
        self.as_slice().is_empty()
    }

    /// How many subtags there are.
    pub fn len(&self) -> usize
        ensures { result ≡ length self.now }
    {
        self.as_slice().len()
    }

    /// The subtags in order, lent one by one.
    pub fn iter(&self) -> Iter<'_, WordOf<K, N>>
        ensures { iter_rest result ≡ self.now }
    {
        self.as_slice().iter()
    }

    /// The subtag at a place; `None` from the length on.
    pub fn get(&self, index: usize) -> Option<&WordOf<K, N>>
        ensures { IsItemAt self.now index result }
    {
        self.as_slice().get(index)
    }

    /// The first subtag, if there is one.
    pub fn first(&self) -> Option<&WordOf<K, N>>
        ensures { IsItemAt self.now 0 result }
    {
        self.as_slice().first()
    }

    /// Adds a subtag; true if it is new. It allocates only if the set holds four subtags or more
    /// and the subtag is new.
    pub fn push(&mut self, alloc: Global, word: WordOf<K, N>) -> Result<bool, AllocError>
        ensures added { IfOk result (λ added. added ≡ not (list_any (is_same word) self.old)) }
        ensures ok { OnOk result (self.new ≡ set_of (word ∷ self.old)) }
        ensures err { OnErr result (self.new ≡ self.old) }
        ensures succeeds { length self.old < 4 → IsOk result }
        ensures known { list_any (is_same word) self.old ≡ true → IsOk result }
    {
        self.push_in(alloc, word)
    }

    /// As `push`, from any memory. Refusal: `AllocError`, only if room for at most all the subtags was refused.
    pub fn push_in<M: Memory>(&mut self, memory: M, word: WordOf<K, N>) -> Result<bool, AllocError>
        ensures added { IfOk result (λ added. added ≡ not (list_any (is_same word) self.old)) }
        ensures ok { OnOk result (self.new ≡ set_of (word ∷ self.old)) }
        ensures err { OnErr result (self.new ≡ self.old) }
        ensures succeeds { length self.old < 4 → IsOk result }
        ensures known { list_any (is_same word) self.old ≡ true → IsOk result }
        ensures out_of_memory { OnErr result (RefusedWithin M.refused (length self.old + 1)) }
    {
        match self.as_slice().binary_search(&word) {
            Ok(_) => Ok(false),
            Err(at) => {
                self.words.insert_in(memory, at, word)?;
                Ok(true)
            }
        }
    }

    /// Takes a subtag out; true if it was there.
    pub fn remove(&mut self, word: &WordOf<K, N>) -> bool
        ensures removed { result ≡ list_any (is_same word.now) self.old }
        ensures left { self.new ≡ filter (λ w. not (is_same word.now w)) self.old }
    {
        match self.as_slice().binary_search(word) {
            Ok(at) => {
                self.words.remove(at);
                true
            }
            Err(_) => false,
        }
    }

    /// Leaves the empty set, and returns the old one.
    pub fn clear(&mut self) -> Self
        ensures old { result ≡ self.old }
        ensures new { self.new ≡ [] }
    {
        replace(self, WordSet::new())
    }

    /// A copy, from any memory. Refusal: `AllocError`, only if room for at most all the subtags was refused.
    pub fn clone_in<M: Memory>(&self, memory: M) -> Result<Self, AllocError>
        ensures value { IfOk result (λ copy. copy ≡ self.now) }
        ensures succeeds { length self.now ≤ 4 → IsOk result }
        ensures out_of_memory { OnErr result (RefusedWithin M.refused (length self.now)) }
    {
        self.copied(FromMemory(memory))
    }

    /// Adds each subtag of the other set.
    fn add_all<M: Memory>(&mut self, memory: M, other: &Self) -> Result<(), AllocError>
        ensures ok { OnOk result (self.new ≡ set_of (self.old ++ other.now)) }
        ensures succeeds { length self.old + length other.now ≤ 4 → IsOk result }
        ensures out_of_memory { OnErr result
            (RefusedWithin M.refused (length self.old + length other.now)) }
    {
        let _ = &self.words;
        for word in other.as_slice() {
            self.push_in(memory, word.clone()?)?;
        }
        Ok(())
    }

    /// The subtags of both sets. It allocates nothing if the two have four subtags at most together.
    pub fn union(&self, alloc: Global, other: &Self) -> Result<Self, AllocError>
        ensures words { IfOk result (λ s. s ≡ set_of (self.now ++ other.now)) }
        ensures succeeds { length self.now + length other.now ≤ 4 → IsOk result }
    {
        self.union_in(alloc, other)
    }

    /// As `union`, from any memory. Refusal: `AllocError`, only if room for at most the subtags of both was refused.
    pub fn union_in<M: Memory>(&self, memory: M, other: &Self) -> Result<Self, AllocError>
        ensures words { IfOk result (λ s. s ≡ set_of (self.now ++ other.now)) }
        ensures succeeds { length self.now + length other.now ≤ 4 → IsOk result }
        ensures out_of_memory { OnErr result
            (RefusedWithin M.refused (length self.now + length other.now)) }
    {
        let mut all = self.clone_in(memory)?;
        all.add_all(memory, other)?;
        Ok(all)
    }

    /// Adds the subtags of the other set. It allocates nothing if the two have four subtags at most together;
    /// if an allocation fails, the set is as before.
    pub fn extend(&mut self, alloc: Global, other: &Self) -> Result<(), AllocError>
        ensures ok { OnOk result (self.new ≡ set_of (self.old ++ other.now)) }
        ensures err { OnErr result (self.new ≡ self.old) }
        ensures succeeds { length self.old + length other.now ≤ 4 → IsOk result }
    {
        self.extend_in(alloc, other)
    }

    /// As `extend`, from any memory. Refusal: `AllocError`, only if room for at most the subtags of both was refused.
    pub fn extend_in<M: Memory>(&mut self, memory: M, other: &Self) -> Result<(), AllocError>
        ensures ok { OnOk result (self.new ≡ set_of (self.old ++ other.now)) }
        ensures err { OnErr result (self.new ≡ self.old) }
        ensures succeeds { length self.old + length other.now ≤ 4 → IsOk result }
        ensures out_of_memory { OnErr result
            (RefusedWithin M.refused (length self.old + length other.now)) }
    {
        if self.len() <= 4 {
            if other.len() <= 4 - self.len() {
                return self.add_all(memory, other);
            }
        }
        *self = self.union_in(memory, other)?;
        Ok(())
    }
}

/// It asks for room only if there are more than four subtags.
impl<K: WordKind<N>, const N: usize> Copied for WordSet<K, N> {
    ghost size = { length };

    fn copied<C: Copying>(&self, copying: C) -> Result<Self, AllocError>
        ensures value { IfOk result (λ copy. copy ≡ self.now) }
        ensures succeeds { length self.now ≤ 4 → IsOk result }
        ensures out_of_memory { OnErr result (RefusedWithin C.Room.refused (length self.now)) }
    {
        Ok(WordSet {
            words: self.words.copied(copying)?,
        })
    }
}
