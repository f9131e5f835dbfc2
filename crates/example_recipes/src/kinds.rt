//! Code that is generic over kinds of subtags.
use icu_locale_core::ParseError;
use icu_locale_core::subtags::kinds::{LanguageKind, RegionKind, ScriptKind};
use icu_locale_core::subtags::{Subtag, WordKind, WordOf};
use icu_locale_core::tinystr::TinyAsciiStr;
use std::fmt::Write;

/// Says the subtag as one of the kind, or the refusal of the kind.
fn as_kind<K: WordKind<N>, const N: usize>(
    subtag: Subtag,
    out: &mut String,
) -> Result<(), ParseError> {
    let piece = subtag.to_piece();
    if !K::has_length(subtag.len()) || !K::accepts(piece) {
        let refusal = K::refusal();
        write!(out, "({refusal}) ")?;
        return Ok(());
    }
    let word = WordOf::<K, N>::from_piece(K::normal(piece))?;
    write!(out, "{word} ")?;
    Ok(())
}

/// Says the subtag as a language, as a script and as a region.
pub fn say(text: &str, out: &mut String) -> Result<(), ParseError> {
    let subtag = Subtag::try_from_str(text)?;
    as_kind::<LanguageKind, 8>(subtag, out)?;
    as_kind::<ScriptKind, 4>(subtag, out)?;
    as_kind::<RegionKind, 3>(subtag, out)?;
    let short: TinyAsciiStr<8> = subtag.to_tinystr();
    let same = TinyAsciiStr::<8>::from_piece(short.to_piece());
    write!(out, "{}", same.as_str())?;
    Ok(())
}
