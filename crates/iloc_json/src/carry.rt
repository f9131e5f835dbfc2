//! Raw forms of languages of version 1, three bytes each, converted to those of eight.
//!
//! It promises that a row of old raw forms becomes the row of the new raw forms of the same languages, one by one. Every
//! other row is refused: by its length first, and then by its first bad word. It runs out of memory only after a word of
//! the row was parsed, so at most in place of a bad word that comes later.

ghost use Rattle.std.specs.Prelude.{◌≡◌, List, IfOk, IfErr};
ghost use Rattle.iloc_spec_grammar.specs.Syntax.{Text};
ghost use Rattle.iloc_json.specs.Carrying.{IsOldRow, new_row, CannotCarry, CarryingRunsOut};

use crate::CarryError;
use iloc_memory::{Memory, extend_from_slice};
use iloc_subtags::Language;
use std::alloc::Global;

/// The row of the new raw forms of the same languages.
///
/// A length that is no multiple of three is refused first, and then the first bad word.
pub fn carry_v1(alloc: Global, row: &[u8]) -> Result<Vec<u8>, CarryError>
    ensures ok { IfOk result
        (λ v. (ws : List Text) × IsOldRow row.now ws × (v.items ≡ new_row ws)) }
    ensures err { IfErr result (λ e. CannotCarry row.now e) }
{
    carry_v1_in(alloc, row)
}

/// As `carry_v1`, from any memory. `OutOfMemory` comes only if room for at most the bytes of the new row was refused.
pub fn carry_v1_in<M: Memory>(memory: M, row: &[u8]) -> Result<Vec<u8>, CarryError>
    ensures ok { IfOk result
        (λ v. (ws : List Text) × IsOldRow row.now ws × (v.items ≡ new_row ws)) }
    ensures err { IfErr result (λ e. CannotCarry row.now e) }
    ensures out_of_memory { CarryingRunsOut M.refused row.now result }
{
    if row.len() % 3 != 0 {
        return Err(CarryError::Length);
    }
    let mut carried = memory.empty();
    let mut rest = row;
    let mut count = 0usize;
    'words: while rest.len() >= 3 {
        let Ok(language) = Language::try_from_raw_v1([rest[0], rest[1], rest[2]]) else {
            return Err(CarryError::Word(count));
        };
        let Ok(()) = extend_from_slice(memory, &mut carried, &language.into_raw()) else {
            return Err(CarryError::OutOfMemory);
        };
        rest = &rest[3..];
        count += 1;
    }
    Ok(carried)
}
