//! Laws of the definitions: what may stand at the place of a fault.
ghost use Rattle.std.specs.Prelude.{◌≡◌, ℕ, List, [], ◌∷◌, ◌++◌};
ghost use Rattle.iloc_spec_grammar.specs.Syntax.{Text};
ghost use Rattle.iloc_normalize.specs.declared.Mode.{Mode};
ghost use Rattle.iloc_faults.specs.Places.{GoOn, StandsAtPiece, StandsAtEnd, IsFaultPlace};
ghost use Rattle.iloc_expected.specs.Standing.{MayStand, pieces_before};
ghost use Rattle.iloc_expected.specs.declared.kinds.PieceKind.{PieceKind};

/// Something may stand at the place of a fault, and not the piece that stands there. The pieces before the place are those
/// that go on.
pub fn at_a_fault()
    ensures some { (mode : Mode) (t : Text) (start end : ℕ) → IsFaultPlace mode t start end
        → (kind : PieceKind) × MayStand mode (pieces_before t start) kind }
    ensures piece { (mode : Mode) (t : Text) (start end : ℕ) → (p : StandsAtPiece mode t start end)
        → (pieces_before t start ≡ p.before)
        × ¬ (GoOn mode (pieces_before t start ++ (p.piece ∷ []))) }
    ensures end { (mode : Mode) (t : Text) (start end : ℕ) → StandsAtEnd mode t start end
        → GoOn mode (pieces_before t start) }
{}
