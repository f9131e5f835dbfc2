//! A keyword whose value is a list of scripts.
ghost use Rattle.std.specs.Prelude.{◌≡◌, Some, IfOk, OnErr, codes, length};
ghost use Rattle.iloc_spec_grammar.specs.Syntax.{word, Script as the_kind};
ghost use Rattle.iloc_memory.specs.Refusals.{RefusedWithin};
ghost use Rattle.iloc_spec_parts.specs.Keywords.{scripts_give};
ghost use Rattle.iloc_keyword_types.specs.Reads.{ReadingRunsOut, ReadsUnder};
ghost use Rattle.iloc_keyword_types.specs.Scripts.{ReadsScripts, ScriptsRunOut};

use crate::{PreferenceKey, PreferencesParseError, key_of};
use iloc_memory::Memory;
use iloc_subtags::{Script, ScriptKind, Subtag, UnicodeKey};
use iloc_word_list::{Value, WordList};
use std::alloc::{AllocError, Global};
use std::marker::Model;

/// Scripts that are left out where words are broken by a dictionary, as `hani-hira` (`dx`).
#[derive(Drop, Debug, PartialEq, Eq, Hash)]
pub struct DictionaryBreakScriptExclusions {
    scripts: WordList<ScriptKind, 4>,
}

impl Model for DictionaryBreakScriptExclusions {
    ghost use Rattle.std.specs.Prelude.{List, ℕ};

    ghost Value = { List (List ℕ) };

    ghost view = { λ d. d.scripts };

    ghost inverse = { λ ws. record { scripts = ws } };
}

impl DictionaryBreakScriptExclusions {
    /// The scripts in order.
    pub fn as_inner(&self) -> &[Script]
        ensures { result.now ≡ self.now }
    {
        self.scripts.as_slice()
    }

    /// The scripts that the subtags of the value are, in order; a value with another subtag is refused. The empty
    /// value is the empty list. `OutOfMemory` comes only if there are more than four subtags.
    pub fn try_from_value(alloc: Global, value: &Value) -> Result<Self, PreferencesParseError>
        ensures { ReadsScripts value.now result }
    {
        Self::try_from_value_in(alloc, value)
    }

    /// As `try_from_value`, from any memory. `OutOfMemory` comes only if room for at most as many scripts as the value
    /// has subtags was refused.
    pub fn try_from_value_in<M: Memory>(
        memory: M,
        value: &Value,
    ) -> Result<Self, PreferencesParseError>
        ensures reads { ReadsScripts value.now result }
        ensures out_of_memory { ScriptsRunOut M.refused value.now result }
    {
        let subtags = value.as_subtags_slice();
        let mut scripts = WordList::new();
        for subtag in subtags {
            let Some(script) = script_of(subtag) else {
                return Err(PreferencesParseError::InvalidKeywordValue);
            };
            scripts.push_in(memory, script)?;
        }
        Ok(DictionaryBreakScriptExclusions { scripts })
    }

    /// The scripts as subtags, in order.
    pub fn to_value(&self, alloc: Global) -> Result<Value, AllocError>
        ensures { IfOk result (λ value. value ≡ scripts_give self.now) }
    {
        self.to_value_in(alloc)
    }

    /// As `to_value`, from any memory. Refusal: `AllocError`, only if room for at most all the scripts was refused.
    pub fn to_value_in<M: Memory>(&self, memory: M) -> Result<Value, AllocError>
        ensures value { IfOk result (λ value. value ≡ scripts_give self.now) }
        ensures out_of_memory { OnErr result (RefusedWithin M.refused (length self.now)) }
    {
        let scripts = self.as_inner();
        let mut subtags = memory.with_capacity(scripts.len())?;
        for script in scripts {
            subtags.push_reserved(Subtag::from(*script));
        }
        Ok(Value::from_vec_unchecked(subtags))
    }
}

// The script that the subtag is, if it is one.
fn script_of(subtag: &Subtag) -> Option<Script>
    ensures { result ≡ word the_kind subtag.now }
{
    Script::try_from_str(subtag.as_str()).ok()
}

impl Clone for DictionaryBreakScriptExclusions {
    ghost is_clone = { λ d e. e ≡ d };

    fn clone(&self) -> Result<Self, AllocError> {
        Ok(DictionaryBreakScriptExclusions {
            scripts: self.scripts.clone()?,
        })
    }
}

/// Its key, what its value is parsed as, and the value that it is turned into.
impl PreferenceKey for DictionaryBreakScriptExclusions {
    ghost own_key = { Some (codes "dx") };

    ghost reads = { λ q ws result. ReadsUnder (codes "dx") (ReadsScripts ws) q result };

    ghost gives = { λ scripts result. IfOk result (λ o. o ≡ Some (scripts_give scripts)) };

    ghost room = { λ scripts. length scripts };

    fn try_from_key_value(
        alloc: Global,
        key: &UnicodeKey,
        value: &Value,
    ) -> Result<Option<Self>, PreferencesParseError>
        ensures { ReadsUnder (codes "dx") (ReadsScripts value.now) key.now result }
    {
        Self::try_from_key_value_in(alloc, key, value)
    }

    fn try_from_key_value_in<M: Memory>(
        memory: M,
        key: &UnicodeKey,
        value: &Value,
    ) -> Result<Option<Self>, PreferencesParseError>
        ensures reads { ReadsUnder (codes "dx") (ReadsScripts value.now) key.now result }
        ensures out_of_memory { ReadingRunsOut M.refused (length value.now) result }
    {
        if *key != exclusions_key() {
            return Ok(None);
        }
        Ok(Some(DictionaryBreakScriptExclusions::try_from_value_in(memory, value)?))
    }

    fn unicode_extension_key() -> Option<UnicodeKey>
        ensures { result ≡ Some (codes "dx") }
    {
        Some(exclusions_key())
    }

    fn unicode_extension_value(&self, alloc: Global) -> Result<Option<Value>, AllocError>
        ensures { IfOk result (λ o. o ≡ Some (scripts_give self.now)) }
    {
        self.unicode_extension_value_in(alloc)
    }

    fn unicode_extension_value_in<M: Memory>(&self, memory: M) -> Result<Option<Value>, AllocError>
        ensures gives { IfOk result (λ o. o ≡ Some (scripts_give self.now)) }
        ensures out_of_memory { OnErr result (RefusedWithin M.refused (length self.now)) }
    {
        Ok(Some(self.to_value_in(memory)?))
    }
}

// The key of the list.
#[tactic(auto, unfolding(iloc_spec_grammar::specs::Syntax::is_word, iloc_spec_grammar::specs::Syntax::lower))]
fn exclusions_key() -> UnicodeKey
    ensures { result ≡ codes "dx" }
{
    key_of("dx")
}
