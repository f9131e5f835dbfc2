//! What is written to a sink that holds its text.
ghost use Rattle.std.specs.Prelude.{◌<◌, ◌+◌, ℕ, List, ◌++◌, Result, String, Vec, length, vec_len, vec_capacity};
ghost use Rattle.std.specs.declared.alloc.Global.{Global};
ghost use Rattle.std.specs.declared.fmt.Error.{Error};
ghost use Rattle.std.specs.String.{string_bytes, string_len, string_capacity};
ghost use Rattle.iloc_writeable.specs.Writing.{Writes};
ghost use Rattle.iloc_writeable.specs.Held.{HoldsText, Adds};

use crate::sink::Sink;
use std::alloc::Allocator;

/// To a sink that holds its text exactly the text is added; if that fails, a beginning of the text was
/// added, and the sink failed at the rest.
///
/// A `String` and a `Vec` of bytes are such sinks, and fail only if they have no room for all of the text.
pub fn held_texts<S: Sink, A: Allocator>()
    ensures added { (held : S → List ℕ) → HoldsText S.took S.failed held
        → (old new : S) (text : List ℕ) (r : Result (Unit {0}) Error)
        → Writes S.took S.failed old text new r → Adds S.failed held old text new r }
    ensures strings { HoldsText ⟦<String<A> as Sink>⟧.took
        ⟦<String<A> as Sink>⟧.failed string_bytes }
    ensures strings_full { (old new : String A) (text rest : List ℕ)
        → ⟦<String<A> as Sink>⟧.failed old text rest new
        → string_capacity old < string_len old + length (text ++ rest) }
    ensures bytes { HoldsText ⟦<Vec<u8> as Sink>⟧.took ⟦<Vec<u8> as Sink>⟧.failed (λ v. v.items) }
    ensures bytes_full { (old new : Vec ℕ Global) (text rest : List ℕ)
        → ⟦<Vec<u8> as Sink>⟧.failed old text rest new
        → vec_capacity old < vec_len old + length (text ++ rest) }
{}
