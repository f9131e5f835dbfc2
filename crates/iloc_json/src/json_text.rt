//! What is written as a JSON string.
ghost use Rattle.std.specs.Prelude.{◌≡◌, Result, IfOk, OnErr, length};
ghost use Rattle.serde_json.specs.Data.{string};
ghost use Rattle.serde_json.specs.View.{view};
ghost use Rattle.serde_json.specs.Find.{as_str};
ghost use Rattle.iloc_json.specs.declared.errors.JsonError.{JsonError};
ghost use Rattle.iloc_json.specs.declared.errors.JsonError.TheVariants.{OutOfMemory};
ghost use Rattle.iloc_json.specs.Json.{SucceedsOr, ReadsText, RunsOutWithin};
ghost use Rattle.iloc_memory.specs.Refusals.{RefusedWithin};

use crate::errors::JsonError;
use crate::text_value::TextValue;
use iloc_memory::Memory;
use serde_json::Value;
use std::alloc::Global;

/// What is written as the JSON string of its printed text.
pub trait JsonText: TextValue {
    /// The JSON string of the printed text. It is parsed back as this value if the text parses back, unless
    /// memory runs out.
    fn to_json(&self, alloc: Global) -> Result<Value, JsonError>
        ensures text { SucceedsOr OutOfMemory (λ v. view v ≡ string (Self.text self.now)) result }
        ensures back { IfOk result
            (λ v. Self.reads_back self.now → (r : Result Self JsonError)
            → ReadsText Self.reads (as_str (view v)) r
            → SucceedsOr OutOfMemory (Self.same self.now) r) };

    /// As `to_json`, from any memory. `OutOfMemory` comes only if room for at most as many bytes as the text has was
    /// refused.
    #[tactic(auto, using(crate::proofs::ReadBack::json_back))]
    fn to_json_in<M: Memory>(&self, memory: M) -> Result<Value, JsonError>
        ensures text { SucceedsOr OutOfMemory (λ v. view v ≡ string (Self.text self.now)) result }
        ensures back { IfOk result
            (λ v. Self.reads_back self.now → (r : Result Self JsonError)
            → ReadsText Self.reads (as_str (view v)) r
            → SucceedsOr OutOfMemory (Self.same self.now) r) }
        ensures out_of_memory { OnErr result
            (RefusedWithin M.refused (length (Self.text self.now))) }
    {
        match self.write_text(memory) {
            Ok(text) => Ok(Value::String(text)),
            Err(_) => Err(JsonError::OutOfMemory),
        }
    }

    /// What the JSON string is parsed as. Anything else than a string is `NotText`.
    fn from_json(alloc: Global, value: &Value) -> Result<Self, JsonError>
        ensures { ReadsText Self.reads (as_str (view value.now)) result };

    /// As `from_json`, from any memory. `OutOfMemory` comes only if room for at most as many items as the string has
    /// bytes was refused.
    #[inline(always)]
    fn from_json_in<M: Memory>(memory: M, value: &Value) -> Result<Self, JsonError>
        ensures reads { ReadsText Self.reads (as_str (view value.now)) result }
        ensures out_of_memory { RunsOutWithin M.refused (as_str (view value.now)) result }
    {
        let Some(text) = value.as_str() else {
            return Err(JsonError::NotText);
        };
        match Self::read_text(memory, text) {
            Ok(read) => Ok(read),
            Err(refusal) => Err(JsonError::from(refusal)),
        }
    }
}

/// All words, identifiers and locales are.
impl<T: TextValue> JsonText for T {
    fn to_json(&self, alloc: Global) -> Result<Value, JsonError> {
        self.to_json_in(alloc)
    }

    #[inline(always)]
    fn from_json(alloc: Global, value: &Value) -> Result<Self, JsonError> {
        // (a call of `from_json_in` would copy the value once more)
        let Some(string) = value.as_str() else {
            return Err(JsonError::NotText);
        };
        match Self::read_text(alloc, string) {
            Ok(read) => Ok(read),
            Err(error) => Err(JsonError::from(error)),
        }
    }
}
