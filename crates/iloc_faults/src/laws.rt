//! Laws of the definitions: the place of a fault is one.
ghost use Rattle.std.specs.Prelude.{◌≡◌, ℕ};
ghost use Rattle.iloc_spec_grammar.specs.Syntax.{Text};
ghost use Rattle.iloc_normalize.specs.declared.Mode.{Mode};
ghost use Rattle.iloc_faults.specs.Places.{IsFaultPlace};

/// Two places of one text are equal.
pub fn one_place()
    ensures { (mode : Mode) (t : Text) (start end from to : ℕ) → IsFaultPlace mode t start end
        → IsFaultPlace mode t from to → (start ≡ from) × (end ≡ to) }
{}
