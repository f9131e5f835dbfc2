//! Laws of the definition: what cleaning leaves as it is, and worked lines.
ghost use Rattle.std.specs.Prelude.{◌≡◌, ◌≤◌, [], ◌∷◌, ◌++◌, codes, length};
ghost use Rattle.iloc_spec_grammar.specs.Syntax.{Text};
ghost use Rattle.iloc_cleaning.specs.Cleaning.{IsClean, clean, without_mark};

/// Cleaning changes nothing of a line that is clean. So a line in the form of UTS #35 stays.
pub fn unchanged()
    ensures { (line : Text) → IsClean line → clean line ≡ line }
{}

/// Cleaning makes no line longer. So a room as long as the line is enough for what is left of it.
pub fn never_longer()
    ensures { (line : Text) → length (clean line) ≤ length line }
{}

/// Worked lines. Only one CR is left out, so what is cleaned is not always clean.
pub fn by_example()
    ensures territory { clean (codes " en_US.UTF-8" ++ 13 ∷ []) ≡ codes "en-US" }
    ensures script { clean (codes "sr_RS.UTF-8@latin") ≡ codes "sr-Latn-RS" }
    ensures variant { clean (codes "ca_ES@valencia") ≡ codes "ca-ES-valencia" }
    ensures currency { clean (codes "de_DE@euro") ≡ codes "de-DE" }
    ensures unknown { clean (codes "de_DE@phonebook") ≡ codes "de-DE@phonebook" }
    ensures system { clean (codes "C.UTF-8") ≡ codes "C" }
    ensures inner_blank { clean (codes "en US") ≡ codes "en US" }
    ensures two_returns { clean (codes "en" ++ 13 ∷ 13 ∷ []) ≡ codes "en" ++ 13 ∷ [] }
    ensures mark { without_mark (0xEF ∷ 0xBB ∷ 0xBF ∷ codes "en") ≡ codes "en" }
    ensures part { without_mark (0xEF ∷ 0xBB ∷ 0x9B ∷ []) ≡ 0xEF ∷ 0xBB ∷ 0x9B ∷ [] }
{}
