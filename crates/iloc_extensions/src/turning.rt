//! A law of blocks.

ghost use Rattle.std.specs.Prelude.{List, []};
ghost use Rattle.iloc_spec_grammar.specs.Syntax.{LanguageLengths, Block};
ghost use Rattle.iloc_spec_grammar.specs.Meaning.{Extensions as Parts, BlocksMean};
ghost use Rattle.iloc_extensions.specs.Blocks.{onto};

/// Blocks mean the same from the last to the first.
pub fn in_turn()
    ensures { (T : LanguageLengths) (bs : List Block) (e : Parts) → BlocksMean T bs e
        → BlocksMean T (onto bs []) e }
{}
