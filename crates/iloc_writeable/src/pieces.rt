//! What prints as pieces with hyphens between them.
ghost use Rattle.std.specs.Prelude.{◌≡◌, ℕ, List, [], ◌∷◌, ◌++◌, true, false, not, ◌&&◌, option_to_list, encode_utf8};
ghost use Rattle.std.specs.List.{flat_map, join_with_byte};
ghost use Rattle.iloc_writeable.specs.Writing.{Writes};
ghost use Rattle.iloc_writeable.specs.Pieces.{hyphened, is_there};

use crate::sink::Sink;
use std::fmt;

/// What prints as pieces, with a hyphen between each two.
///
/// A printer is one expression over the parts: a tuple of parts has the pieces of each in order, an `Option`
/// those of its part if there is one, a slice those of each item, a reference those of what it refers to.
/// So a slice of pairs of a key and a list prints each key and then its list.
pub trait Pieces {
    /// The pieces, in order.
    ghost pieces: { Self → List (List ℕ) };

    /// Whether there is a piece.
    fn has_pieces(&self) -> bool
        ensures { result ≡ is_there (pieces self.now) };

    /// Writes the pieces, each after a hyphen, but for one that stands first of all.
    fn write_pieces<S: Sink>(&self, sink: &mut S, first: bool) -> fmt::Result
        ensures { Writes S.took S.failed sink.old (hyphened first (pieces self.now))
            sink.new result };

    /// Writes the pieces with a hyphen between each two.
    final fn write_joined<S: Sink>(&self, sink: &mut S) -> fmt::Result
        ensures { Writes S.took S.failed sink.old (join_with_byte 45 (pieces self.now))
            sink.new result }
    {
        self.write_pieces(sink, true)
    }
}

/// Writes one piece, after a hyphen if it doesn't stand first.
pub fn write_piece<S: Sink>(sink: &mut S, piece: &str, first: bool) -> fmt::Result
    ensures { Writes S.took S.failed sink.old (hyphened first (piece.now ∷ [])) sink.new result }
{
    if first {
        return sink.write_str(piece);
    }
    sink.write_str("-")?;
    sink.write_str(piece)
}

// Whether what follows the part stands first.
fn is_first_after<P: Pieces>(part: &P, first: bool) -> bool
    ensures { result ≡ (first && not (is_there (P.pieces part.now))) }
{
    first && !part.has_pieces()
}

/// A text is one piece.
impl Pieces for &str {
    ghost pieces = { λ text. text.now ∷ [] };

    fn has_pieces(&self) -> bool {
        true
    }

    // (a singleton is one byte)
    #[inline(always)]
    fn write_pieces<S: Sink>(&self, sink: &mut S, first: bool) -> fmt::Result {
        if let [byte @ 0..128] = self.as_bytes() {
            return sink.write_short_piece([*byte, 0, 0, 0, 0, 0, 0, 0], 1, first);
        }
        write_piece(sink, self, first)
    }
}

/// A character is one piece.
impl Pieces for char {
    ghost pieces = { λ c. encode_utf8 c ∷ [] };

    fn has_pieces(&self) -> bool {
        true
    }

    fn write_pieces<S: Sink>(&self, sink: &mut S, first: bool) -> fmt::Result {
        let mut bytes = [0u8; 4];
        write_piece(sink, self.encode_utf8(&mut bytes), first)
    }
}

/// The pieces of what is referred to.
impl<P: Pieces> Pieces for &P {
    ghost pieces = { λ part. P.pieces part.now };

    fn has_pieces(&self) -> bool {
        P::has_pieces(self)
    }

    #[inline(always)]
    fn write_pieces<S: Sink>(&self, sink: &mut S, first: bool) -> fmt::Result {
        P::write_pieces(self, sink, first)
    }
}

/// The pieces of the part, if there is one.
impl<P: Pieces> Pieces for Option<P> {
    ghost pieces = { λ part. flat_map P.pieces (option_to_list part) };

    fn has_pieces(&self) -> bool {
        match self {
            Some(part) => part.has_pieces(),
            None => false,
        }
    }

    fn write_pieces<S: Sink>(&self, sink: &mut S, first: bool) -> fmt::Result {
        match self {
            Some(part) => part.write_pieces(sink, first),
            None => Ok(()),
        }
    }
}

/// The pieces of one part, and then those of the other.
impl<P: Pieces, Q: Pieces> Pieces for (P, Q) {
    ghost pieces = { λ parts. P.pieces parts.0 ++ Q.pieces parts.1 };

    fn has_pieces(&self) -> bool {
        self.0.has_pieces() || self.1.has_pieces()
    }

    #[inline(always)]
    fn write_pieces<S: Sink>(&self, sink: &mut S, first: bool) -> fmt::Result {
        let second_first = is_first_after(&self.0, first);
        self.0.write_pieces(sink, first)?;
        self.1.write_pieces(sink, second_first)
    }
}

/// The pieces of each part, in order.
impl<P: Pieces> Pieces for &[P] {
    ghost pieces = { λ parts. flat_map P.pieces parts.now };

    fn has_pieces(&self) -> bool {
        for part in *self {
            if part.has_pieces() {
                return true;
            }
        }
        false
    }

    #[inline(always)]
    fn write_pieces<S: Sink>(&self, sink: &mut S, first: bool) -> fmt::Result {
        let mut part_first = first;
        for part in *self {
            part.write_pieces(sink, part_first)?;
            part_first = is_first_after(part, part_first);
        }
        Ok(())
    }
}

/// The pieces of three parts, in order.
impl<P: Pieces, Q: Pieces, R: Pieces> Pieces for (P, Q, R) {
    ghost pieces = { λ parts. P.pieces parts.0 ++ (Q.pieces parts.1 ++ R.pieces parts.2) };

    fn has_pieces(&self) -> bool {
        (&self.0, (&self.1, &self.2)).has_pieces()
    }

    #[inline(always)]
    fn write_pieces<S: Sink>(&self, sink: &mut S, first: bool) -> fmt::Result {
        (&self.0, (&self.1, &self.2)).write_pieces(sink, first)
    }
}

/// The pieces of four parts, in order.
impl<P: Pieces, Q: Pieces, R: Pieces, T: Pieces> Pieces for (P, Q, R, T) {
    ghost pieces = { λ parts. P.pieces parts.0
        ++ (Q.pieces parts.1 ++ (R.pieces parts.2 ++ T.pieces parts.3)) };

    fn has_pieces(&self) -> bool {
        (&self.0, (&self.1, (&self.2, &self.3))).has_pieces()
    }

    #[inline(always)]
    fn write_pieces<S: Sink>(&self, sink: &mut S, first: bool) -> fmt::Result {
        (&self.0, (&self.1, (&self.2, &self.3))).write_pieces(sink, first)
    }
}

/// The pieces of five parts, in order.
impl<P: Pieces, Q: Pieces, R: Pieces, T: Pieces, U: Pieces> Pieces for (P, Q, R, T, U) {
    ghost pieces = { λ parts. P.pieces parts.0
        ++ (Q.pieces parts.1 ++ (R.pieces parts.2 ++ (T.pieces parts.3 ++ U.pieces parts.4))) };

    fn has_pieces(&self) -> bool {
        (&self.0, (&self.1, (&self.2, (&self.3, &self.4)))).has_pieces()
    }

    #[inline(always)]
    fn write_pieces<S: Sink>(&self, sink: &mut S, first: bool) -> fmt::Result {
        (&self.0, (&self.1, (&self.2, (&self.3, &self.4)))).write_pieces(sink, first)
    }
}
