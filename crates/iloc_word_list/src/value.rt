//! A list of subtags.
ghost use Rattle.std.specs.Prelude.{◌≡◌, ◌<◌, ◌≤◌, ◌↔◌, ◌+◌, ℕ, List, [], ◌∷◌, ◌++◌, length, remove, take, slice_get, OnOk, OnErr, IfOk, IsOk, IsTrue, IsSome, IfSome, true, Ok, option_to_list};
ghost use Rattle.std.specs.List.{AllByRecursion};
ghost use Rattle.std.specs.Iterator.{IsFiniteIterable, Drains};
ghost use Rattle.std.specs.Option.{option_copied};
ghost use Rattle.std.specs.Cmp.Rules.{comparing};
ghost use Rattle.std.proofs.Common.{rules};
ghost use Rattle.iloc_spec_grammar.specs.Syntax.{Text, Subtag, is_true};
ghost use Rattle.iloc_spec_grammar.specs.Values.{IsNormal};
ghost use Rattle.iloc_memory.specs.Refusals.{RefusedWithin};
ghost use Rattle.iloc_shortvec.specs.ShortList.{only_of};
ghost use Rattle.iloc_word_list.specs.Equality.{words_eq};
ghost use Rattle.iloc_word_list.specs.EqualityLaws.{words_exact, alike};
ghost use Rattle.iloc_copying.specs.Room.{RefusedAmong};
ghost use Rattle.iloc_word_list.specs.Values.{without_true, with_subtag};

use crate::word_list::WordList;
use iloc_copying::{Copied, Copying, FromMemory, FromOwn};
use iloc_memory::Memory;
use iloc_shortvec::ShortWordsIntoIter;
use iloc_subtags::{Subtag, SubtagKind, WordKind, WordOf};
use std::alloc::{AllocError, Global};
use std::marker::Model;

/// The value of a keyword: a list of subtags. The empty value stands for `true`.
#[derive(Drop, Debug, Eq, PartialOrd, Ord, Hash)]
pub struct Value {
    subtags: WordList<SubtagKind, 8>,
}

impl Model for Value {
    ghost Value = { List (List ℕ) };

    ghost view = { λ v. v.subtags };

    ghost inverse = { λ ws. record { subtags = ws } };
}

impl Value {
    /// The empty value.
    pub fn new_empty() -> Self
        ensures { result ≡ [] }
    {
        Value {
            subtags: WordList::new(),
        }
    }

    /// The subtags in order.
    pub fn as_subtags_slice(&self) -> &[Subtag]
        ensures subtags { result.now ≡ self.now }
        ensures normal { AllByRecursion (IsNormal Subtag) self.now }
    {
        self.subtags.as_slice()
    }

    /// The number of subtags.
    pub fn subtag_count(&self) -> usize
        ensures { result ≡ length self.now }
    {
        self.as_subtags_slice().len()
    }

    /// Whether there is no subtag.
    pub fn is_empty(&self) -> bool
        ensures { IsTrue result ↔ (self.now ≡ []) }
    {
        self.as_subtags_slice().is_empty()
    }

    /// The subtag of a value of exactly one.
    pub fn as_single_subtag(&self) -> Option<&Subtag>
        ensures { option_copied result ≡ only_of self.now }
    {
        self.subtags.single()
    }

    /// The subtag of a value of exactly one, by value.
    pub fn into_single_subtag(self) -> Option<Subtag>
        ensures { result ≡ only_of self }
    {
        self.as_single_subtag().copied()
    }

    /// The subtag at a place; `None` from the length on.
    pub fn get_subtag(&self, idx: usize) -> Option<&Subtag>
        ensures { option_copied result ≡ slice_get self.now idx }
    {
        self.subtags.get(idx)
    }

    /// Takes out the subtag at a place; `None` from the length on, and then nothing changes.
    pub fn remove_subtag(&mut self, idx: usize) -> Option<Subtag>
        ensures taken { result ≡ slice_get self.old idx }
        ensures rest { self.new ≡ remove self.old idx }
    {
        if idx < self.subtag_count() {
            Some(self.subtags.remove(idx))
        } else {
            None
        }
    }

    /// Adds a subtag at the end; `true` changes nothing. Up to four subtags allocate nothing.
    pub fn push_subtag(&mut self, alloc: Global, subtag: Subtag) -> Result<(), AllocError>
        ensures ok { OnOk result (self.new ≡ with_subtag self.old subtag) }
        ensures err { OnErr result (self.new ≡ self.old) }
        ensures succeeds { length self.old < 4 → IsOk result }
        ensures ignores { is_true subtag ≡ true → IsOk result }
    {
        self.push_subtag_in(alloc, subtag)
    }

    /// As `push_subtag`, from any memory. Refusal: `AllocError`, only if room for at most all the subtags was refused.
    pub fn push_subtag_in<M: Memory>(&mut self, memory: M, subtag: Subtag) -> Result<(), AllocError>
        ensures ok { OnOk result (self.new ≡ with_subtag self.old subtag) }
        ensures err { OnErr result (self.new ≡ self.old) }
        ensures succeeds { length self.old < 4 → IsOk result }
        ensures ignores { is_true subtag ≡ true → IsOk result }
        ensures out_of_memory { OnErr result (RefusedWithin M.refused (length self.old + 1)) }
    {
        if spells_true(&subtag) {
            return Ok(());
        }
        self.subtags.push_in(memory, subtag)
    }

    /// The value of at most one subtag; `true` gives the empty value.
    pub fn from_subtag(subtag: Option<Subtag>) -> Self
        ensures { result ≡ without_true (option_to_list subtag) }
    {
        match subtag {
            Some(subtag) if !spells_true(&subtag) => Value {
                subtags: WordList::from_word(subtag),
            },
            _ => Value::new_empty(),
        }
    }

    /// The value of these two subtags; `true` is kept too. It allocates nothing.
    pub fn from_two_subtags(alloc: Global, f: Subtag, s: Subtag) -> Result<Self, AllocError>
        ensures { result ≡ Ok (f ∷ s ∷ []) }
    {
        Self::from_two_subtags_in(alloc, f, s)
    }

    /// As `from_two_subtags`, from any memory. It asks for no room.
    pub fn from_two_subtags_in<M: Memory>(
        memory: M,
        f: Subtag,
        s: Subtag,
    ) -> Result<Self, AllocError>
        ensures value { result ≡ Ok (f ∷ s ∷ []) }
        ensures out_of_memory { OnErr result (RefusedWithin M.refused 2) }
    {
        let mut subtags = WordList::new();
        subtags.push_in(memory, f)?;
        subtags.push_in(memory, s)?;
        Ok(Value { subtags })
    }

    /// The value of these subtags; `true` is kept too.
    pub fn from_vec_unchecked(input: Vec<Subtag>) -> Self
        ensures { result ≡ input.items }
    {
        Value {
            subtags: WordList::from_vec(input),
        }
    }

    /// The value of the items; `true` is kept too.
    pub fn from_subtags<I: IntoIterator<Item = Subtag>>(
        alloc: Global,
        iter: I,
    ) -> Result<Self, AllocError>
    where
        I::IntoIter: Drop,
        requires { IsFiniteIterable I.into_iter_gives I.IntoIter.can_next
            I.IntoIter.remaining iter }
        ensures { IfOk result
            (λ v. (it : I.IntoIter) × I.into_iter_gives iter it
            × Drains I.IntoIter.next_gives it v) }
    {
        Self::from_subtags_in(alloc, iter)
    }

    /// As `from_subtags`, from any memory. Refusal: `AllocError`, only if room for at most the items was refused.
    pub fn from_subtags_in<M: Memory, I: IntoIterator<Item = Subtag>>(
        memory: M,
        iter: I,
    ) -> Result<Self, AllocError>
    where
        I::IntoIter: Drop,
        requires { IsFiniteIterable I.into_iter_gives I.IntoIter.can_next
            I.IntoIter.remaining iter }
        ensures value { IfOk result
            (λ v. (it : I.IntoIter) × I.into_iter_gives iter it
            × Drains I.IntoIter.next_gives it v) }
        ensures out_of_memory { OnErr result
            (RefusedAmong I.into_iter_gives I.IntoIter.next_gives M.refused iter 0) }
    {
        let mut value = Value::new_empty();
        value.extend_in(memory, iter)?;
        Ok(value)
    }

    /// Adds the items at the end; `true` is kept too. If an allocation fails, nothing changes.
    pub fn extend<I: IntoIterator<Item = Subtag>>(
        &mut self,
        alloc: Global,
        iter: I,
    ) -> Result<(), AllocError>
    where
        I::IntoIter: Drop,
        requires { IsFiniteIterable I.into_iter_gives I.IntoIter.can_next
            I.IntoIter.remaining iter }
        ensures ok { OnOk result ((it : I.IntoIter) × (xs : List Text)
            × I.into_iter_gives iter it × Drains I.IntoIter.next_gives it xs
            × (self.new ≡ self.old ++ xs)) }
        ensures err { OnErr result (self.new ≡ self.old) }
    {
        self.extend_in(alloc, iter)
    }

    /// As `extend`, from any memory. Refusal: `AllocError`, only if room for at most all the subtags was refused.
    pub fn extend_in<M: Memory, I: IntoIterator<Item = Subtag>>(
        &mut self,
        memory: M,
        iter: I,
    ) -> Result<(), AllocError>
    where
        I::IntoIter: Drop,
        requires { IsFiniteIterable I.into_iter_gives I.IntoIter.can_next
            I.IntoIter.remaining iter }
        ensures ok { OnOk result ((it : I.IntoIter) × (xs : List Text)
            × I.into_iter_gives iter it × Drains I.IntoIter.next_gives it xs
            × (self.new ≡ self.old ++ xs)) }
        ensures err { OnErr result (self.new ≡ self.old) }
        ensures out_of_memory { OnErr result (RefusedAmong I.into_iter_gives I.IntoIter.next_gives
            M.refused iter (length self.old)) }
    {
        let before = self.subtag_count();
        for subtag in iter {
            if self.subtags.push_in(memory, subtag).is_err() {
                self.cut(before);
                return Err(AllocError);
            }
        }
        Ok(())
    }

    /// A copy, from any memory. Refusal: `AllocError`, only if room for at most all the subtags was refused.
    pub fn clone_in<M: Memory>(&self, memory: M) -> Result<Self, AllocError>
        ensures value { IfOk result (λ copy. copy ≡ self.now) }
        ensures out_of_memory { OnErr result (RefusedWithin M.refused (length self.now)) }
    {
        self.copied(FromMemory(memory))
    }

    // Keeps the first subtags.
    fn cut(&mut self, count: usize)
        requires { count ≤ length self.old }
        ensures { self.new ≡ take count self.old }
    {
        while self.subtag_count() > count {
            let last = self.subtag_count() - 1;
            self.remove_subtag(last);
        }
    }
}

/// Whether the subtag is `true`.
pub fn spells_true<K: WordKind<8>>(word: &WordOf<K, 8>) -> bool
    ensures value { result ≡ is_true word.now }
    ensures normal { IsNormal K.kind word.now }
{
    word.to_piece().number() == 0x6575_7274
}

/// Equal are values of the same subtags in the same order.
impl PartialEq for Value {
    ghost eq = { words_eq };

    ghost laws = { Prim.search (comparing, rules) };

    fn eq(&self, other: &Self) -> bool
        ensures value { result ≡ words_eq self.now other.now }
        ensures equality { IsTrue result ↔ (self.now ≡ other.now) }
    {
        self.subtags == other.subtags
    }
}

#[derived]
impl Hash for Value {
    ghost respects_eq = { alike _ words_exact };
}

impl Clone for Value {
    ghost is_clone = { λ a b. b ≡ a };

    fn clone(&self) -> Result<Self, AllocError> {
        self.copied(FromOwn)
    }
}

impl Copied for Value {
    ghost size = { length };

    fn copied<C: Copying>(&self, copying: C) -> Result<Self, AllocError> {
        Ok(Value {
            subtags: self.subtags.copied(copying)?,
        })
    }
}

/// A copy of a value of exactly one subtag.
#[inline(always)]
pub fn copy_of_single(value: &Value) -> Option<Value>
    ensures copy { IfSome result (λ copy. copy ≡ value.now) }
    ensures single { IsSome result ↔ (length value.now ≡ 1) }
{
    let subtag = value.as_single_subtag()?;
    Some(Value {
        subtags: WordList::from_word(*subtag),
    })
}

impl IntoIterator for Value {
    type Item = Subtag;

    type IntoIter = ShortWordsIntoIter<Subtag>;

    ghost into_iter_gives = { λ value it. it ≡ value };

    fn into_iter(self) -> ShortWordsIntoIter<Subtag> {
        self.subtags.into_iter()
    }
}

impl Default for Value {
    ghost is_default = { λ v. v ≡ [] };

    fn default() -> Self {
        Value::new_empty()
    }
}
