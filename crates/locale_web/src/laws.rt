//! Laws of the parts of a normal text.
ghost use Rattle.std.specs.Prelude.{◌≡◌, ◌*◌, List, length, map};
ghost use Rattle.std.specs.List.{AllByRecursion};
ghost use Rattle.iloc_spec_grammar.specs.Meaning.{Locale};
ghost use Rattle.iloc_spec_grammar.specs.Syntax.{Text, join};
ghost use Rattle.locale_web.specs.Kinds.{ArePlaced, IsOfKind, IsNormalTextOf, KindedPiece, parts_of, rows_of};

/// The parts of a normal text, with hyphens between them, are the text. Each is a word of its kind. Each row says where its
/// part stands. A row has three numbers.
#[tactic(auto, using(crate::proofs::Placing::part_laws, crate::proofs::Walking::length_rows_of))]
pub fn parts()
    ensures joined { (M : Locale) (t : Text) → IsNormalTextOf M t
        → join (map (λ (_, p). p) (parts_of M)) ≡ t }
    ensures words { (M : Locale) (t : Text) → IsNormalTextOf M t
        → AllByRecursion IsOfKind (parts_of M) }
    ensures placed { (M : Locale) (t : Text) → IsNormalTextOf M t
        → ArePlaced t (rows_of (parts_of M)) (parts_of M) }
    ensures three { (ps : List KindedPiece) → length (rows_of ps) ≡ 3 * length ps }
{}
