//! Prints extensions.
ghost use Rattle.std.specs.Prelude.{◌≡◌, ◌++◌, List, Some, IsTrue, flat_map, option_to_list};
ghost use Rattle.iloc_spec_grammar.specs.Syntax.{Block};
ghost use Rattle.iloc_spec_grammar.specs.Values.{before_above, extensions_spelling, extensions_text, other_spelling, private_spelling, transform_spelling, unicode_spelling};
ghost use Rattle.iloc_extensions.specs.ExtensionsValue.{value_of};
ghost use Rattle.iloc_transform.specs.TransformReading as transforms;
ghost use Rattle.iloc_unicode.specs.UnicodeValue as unicodes;

use crate::extensions::Extensions;
use iloc_other::{Other, Private};
use iloc_transform::Transform;
use iloc_unicode::Unicode;
use iloc_writeable::{Pieces, Sink, Writeable};
use std::fmt;

impl Extensions {
    // Whether no part but the others has a piece.
    #[inline(always)]
    fn has_others_alone(&self) -> bool
        ensures { IsTrue result
            → flat_map other_spelling self.now.other.items ≡ extensions_spelling (value_of self.now) }
    {
        !(self.unicode.has_pieces() || self.transform.has_pieces() || self.private.has_pieces())
    }

    // The parts in the order in which they are printed, `None` for one that is empty.
    #[inline(always)]
    fn parts(
        &self,
    ) -> (
        &[Other],
        Option<&Transform>,
        Option<&Unicode>,
        &[Other],
        Option<&Private>,
    )
        ensures others { (bs : List Block)
            → before_above bs self.now.other.items ≡ result.0.now ++ (bs ++ result.3.now) }
        ensures transform { flat_map (λ m. transform_spelling (transforms.value_of m.now))
            (option_to_list result.1) ≡ transform_spelling (transforms.value_of self.now.transform) }
        ensures unicode { flat_map (λ u. unicode_spelling (unicodes.value_of u.now))
            (option_to_list result.2) ≡ unicode_spelling (unicodes.value_of self.now.unicode) }
        ensures private { flat_map (λ p. private_spelling p.now) (option_to_list result.4)
            ≡ private_spelling self.now.private }
    {
        let (before, after) = split_after_t(&self.other);
        (
            before,
            there(&self.transform),
            there(&self.unicode),
            after,
            there(&self.private),
        )
    }
}

/// The pieces are those of the others up to the first singleton above `t`, of the transform, of the
/// unicode extension, of the remaining others, and of the private extension.
impl Pieces for Extensions {
    ghost pieces = { λ e. extensions_spelling (value_of e) };

    fn has_pieces(&self) -> bool {
        self.parts().has_pieces()
    }

    // (others alone are printed without the parts)
    fn write_pieces<S: Sink>(&self, sink: &mut S, first: bool) -> fmt::Result {
        if self.has_others_alone() {
            return self.other.as_slice().write_pieces(sink, first);
        }
        self.parts().write_pieces(sink, first)
    }
}

/// Prints the pieces with a hyphen between each two.
impl Writeable for Extensions {
    ghost text = { λ e. extensions_text (value_of e) };

    #[tactic(auto, unfolding(iloc_spec_grammar::specs::Values::extensions_text, iloc_spec_grammar::specs::Syntax::join))]
    fn write_to<S: Sink>(&self, sink: &mut S) -> fmt::Result {
        self.write_joined(sink)
    }

    fn writeable_borrow(&self) -> Option<&str> {
        None
    }
}

impl fmt::Display for Extensions {
    ghost output = { λ e. Some (extensions_text (value_of e)) };

    fn fmt<W: fmt::Write>(&self, f: &mut fmt::Formatter<W>) -> fmt::Result {
        self.write_to(f)
    }
}

// The part, if it has a piece.
#[tactic(auto, using(crate::proofs::SplitLemmas::none_there))]
#[inline(always)]
fn there<P: Pieces>(part: &P) -> Option<&P>
    ensures { flat_map (λ p. P.pieces p.now) (option_to_list result) ≡ P.pieces part.now }
{
    if part.has_pieces() { Some(part) } else { None }
}

// The others up to the first singleton above `t`, and the remaining ones.
fn split_after_t(others: &[Other]) -> (&[Other], &[Other])
    ensures { (bs : List Block)
        → before_above bs others.now ≡ result.0.now ++ (bs ++ result.1.now) }
{
    let above = others.iter().position(|other| other.get_ext_byte() > b't');
    others.split_at(above.unwrap_or(others.len()))
}
