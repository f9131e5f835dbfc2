//! The list of subtags of a kind.
ghost use Rattle.std.specs.Prelude.{◌≡◌, ◌<◌, ◌≤◌, ◌+◌, [], ◌∷◌, ◌++◌, length, insert, remove, slice_get, Some, IfOk, OnOk, OnErr, IsOk, List, ℕ};
ghost use Rattle.std.specs.List.{AllByRecursion};
ghost use Rattle.std.specs.Option.{option_copied};
ghost use Rattle.iloc_spec_grammar.specs.Values.{IsNormal};
ghost use Rattle.iloc_memory.specs.Refusals.{RefusedWithin};
ghost use Rattle.iloc_shortvec.specs.ShortList.{only_of};
ghost use Rattle.std.specs.Fmt.{debug_list, debug_str};

use iloc_copying::{Copied, Copying, FromMemory, FromOwn};
use iloc_memory::Memory;
use iloc_shortvec::{ShortWords, ShortWordsIntoIter};
use iloc_subtags::{WordKind, WordOf, are_normal, is_normal};
use std::alloc::{AllocError, Global};
use std::fmt;
use std::marker::Model;

/// A list of subtags of the kind `K`, each normal, seen by contracts as the list of their texts.
///
/// Up to four subtags stand in place. Lists stand in the order of short lists: those of at most one subtag before
/// all longer ones, and subtag by subtag within each class.
#[derive(Drop)]
#[derive_where(PartialEq, Eq, PartialOrd, Ord, Hash)]
pub struct WordList<K: WordKind<N>, const N: usize> {
    words: ShortWords<WordOf<K, N>>,
}

impl<K: WordKind<N>, const N: usize> Model for WordList<K, N> {
    ghost Value = { List (List ℕ) };

    ghost view = { λ l. l.words };

    ghost invariant = { λ l. AllByRecursion (IsNormal K.kind) l.words };

    ghost inverse = { λ words. record { words = words } };
}

impl<K: WordKind<N>, const N: usize> WordList<K, N> {
    /// The empty list.
    pub fn new() -> Self
        ensures { result ≡ [] }
    {
        WordList {
            words: ShortWords::new(),
        }
    }

    /// The list of this one subtag.
    pub fn from_word(word: WordOf<K, N>) -> Self
        ensures { result ≡ word ∷ [] }
    {
        is_normal(&word);
        WordList {
            words: ShortWords::new_single(word),
        }
    }

    /// The list of these subtags, which are looked at once each.
    pub fn from_vec(words: Vec<WordOf<K, N>>) -> Self
        ensures { result ≡ words.items }
    {
        are_normal(words.as_slice());
        WordList {
            words: ShortWords::from_vec(words),
        }
    }

    /// The subtags in order.
    pub fn as_slice(&self) -> &[WordOf<K, N>]
        ensures value { result.now ≡ self.now }
        ensures normal { AllByRecursion (IsNormal K.kind) self.now }
    {
        self.words.as_slice()
    }

    /// The subtag of exactly one.
    pub fn single(&self) -> Option<&WordOf<K, N>>
        ensures { option_copied result ≡ only_of self.now }
    {
        self.words.single()
    }

    /// The subtag at a place, `None` from the length on.
    pub fn get(&self, index: usize) -> Option<&WordOf<K, N>>
        ensures { option_copied result ≡ slice_get self.now index }
    {
        self.words.get(index)
    }

    /// Puts a subtag at a place. Up to four subtags allocate nothing; if an allocation fails, nothing changes.
    pub fn insert(
        &mut self,
        alloc: Global,
        index: usize,
        word: WordOf<K, N>,
    ) -> Result<(), AllocError>
        requires { index ≤ length self.old }
        ensures ok { OnOk result (self.new ≡ insert self.old index word) }
        ensures err { OnErr result (self.new ≡ self.old) }
        ensures succeeds { length self.old < 4 → IsOk result }
    {
        self.insert_in(alloc, index, word)
    }

    /// As `insert`, from any memory. Refusal: `AllocError`, only if room for at most all the subtags was refused.
    pub fn insert_in<M: Memory>(
        &mut self,
        memory: M,
        index: usize,
        word: WordOf<K, N>,
    ) -> Result<(), AllocError>
        requires { index ≤ length self.old }
        ensures ok { OnOk result (self.new ≡ insert self.old index word) }
        ensures err { OnErr result (self.new ≡ self.old) }
        ensures succeeds { length self.old < 4 → IsOk result }
        ensures out_of_memory { OnErr result (RefusedWithin M.refused (length self.old + 1)) }
    {
        is_normal(&word);
        self.words.insert_in(memory, index, word)
    }

    /// Adds a subtag at the end. Up to four subtags allocate nothing; if an allocation fails, nothing changes.
    pub fn push(&mut self, alloc: Global, word: WordOf<K, N>) -> Result<(), AllocError>
        ensures ok { OnOk result (self.new ≡ self.old ++ word ∷ []) }
        ensures err { OnErr result (self.new ≡ self.old) }
        ensures succeeds { length self.old < 4 → IsOk result }
    {
        self.push_in(alloc, word)
    }

    /// As `push`, from any memory. Refusal: `AllocError`, only if room for at most all the subtags was refused.
    pub fn push_in<M: Memory>(&mut self, memory: M, word: WordOf<K, N>) -> Result<(), AllocError>
        ensures ok { OnOk result (self.new ≡ self.old ++ word ∷ []) }
        ensures err { OnErr result (self.new ≡ self.old) }
        ensures succeeds { length self.old < 4 → IsOk result }
        ensures out_of_memory { OnErr result (RefusedWithin M.refused (length self.old + 1)) }
    {
        is_normal(&word);
        self.words.push_in(memory, word)
    }

    /// Takes the subtag at a place out.
    pub fn remove(&mut self, index: usize) -> WordOf<K, N>
        requires { index < length self.old }
        ensures value { slice_get self.old index ≡ Some result }
        ensures rest { self.new ≡ remove self.old index }
    {
        self.words.remove(index)
    }

    /// A list of the same subtags. Up to four allocate nothing.
    pub fn clone(&self) -> Result<Self, AllocError>
        ensures value { IfOk result (λ copy. copy ≡ self.now) }
        ensures succeeds { length self.now ≤ 4 → IsOk result }
    {
        self.copied(FromOwn)
    }

    /// As `clone`, from any memory. Refusal: `AllocError`, only if room for at most all the subtags was refused.
    pub fn clone_in<M: Memory>(&self, memory: M) -> Result<Self, AllocError>
        ensures value { IfOk result (λ copy. copy ≡ self.now) }
        ensures succeeds { length self.now ≤ 4 → IsOk result }
        ensures out_of_memory { OnErr result (RefusedWithin M.refused (length self.now)) }
    {
        self.copied(FromMemory(memory))
    }
}

impl<K: WordKind<N>, const N: usize> Copied for WordList<K, N> {
    ghost size = { length };

    fn copied<C: Copying>(&self, copying: C) -> Result<Self, AllocError>
        ensures value { IfOk result (λ copy. copy ≡ self.now) }
        ensures succeeds { length self.now ≤ 4 → IsOk result }
        ensures out_of_memory { OnErr result (RefusedWithin C.Room.refused (length self.now)) }
    {
        Ok(WordList {
            words: self.words.copied(copying)?,
        })
    }
}

/// Prints the list of the subtags, each in quotes.
impl<K: WordKind<N>, const N: usize> fmt::Debug for WordList<K, N> {
    ghost debug_output = { debug_list debug_str };

    fn fmt<W: fmt::Write>(&self, f: &mut fmt::Formatter<W>) -> fmt::Result {
        fmt::Debug::fmt(&self.as_slice(), f)
    }
}

impl<K: WordKind<N>, const N: usize> IntoIterator for WordList<K, N> {
    type Item = WordOf<K, N>;

    type IntoIter = ShortWordsIntoIter<WordOf<K, N>>;

    ghost into_iter_gives = { λ list it. it ≡ list };

    fn into_iter(self) -> ShortWordsIntoIter<WordOf<K, N>> {
        self.words.into_iter()
    }
}
