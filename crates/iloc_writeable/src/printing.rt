//! Printing a value to a writer.
ghost use Rattle.std.specs.Prelude.{OnOk, OnErr, ◌≡◌};
ghost use Rattle.std.specs.Io.KnownBytes.{Appends};
ghost use Rattle.iloc_writeable.specs.Growth.{AddsBeginning, Added, Broken};
ghost use Rattle.std.proofs.Common.{refl, ◌∙◌};
ghost use Rattle.iloc_writeable.specs.GrowthLaws.{added_nothing, added_both, broken_after, broken_more};

use crate::whole::write_whole;
use crate::{Sink, Writeable};
use std::io::Write;
use std::{fmt, io};

// A sink over a lent writer. It keeps that very writer, so what that holds is known afterwards.
#[derive(Drop)]
struct Lent<'a, W> {
    writer: &'a mut W,
    error: Option<io::Error>,
}

impl<'a, W: Write> Sink for Lent<'a, W> {
    ghost took = { λ a t b. (b.writer.ghost_name ≡ a.writer.ghost_name)
        × Added (W.contents a.writer.now) a.error t (W.contents b.writer.now) b.error };

    ghost failed = { λ a t u b. (b.writer.ghost_name ≡ a.writer.ghost_name)
        × Broken (W.contents a.writer.now) t u (W.contents b.writer.now) b.error };

    fn write_str(&mut self, text: &str) -> fmt::Result {
        match write_whole(self.writer, text.as_bytes()) {
            Ok(()) => Ok(()),
            Err(error) => {
                self.error = Some(error);
                Err(fmt::Error)
            }
        }
    }

    ghost took_nothing = { λ s. (refl, added_nothing _ _) };

    ghost took_then_took = { λ a b c s t p q.
        (q.0 ∙ p.0, added_both _ _ _ _ _ _ s t p.1 q.1) };

    ghost took_then_failed = { λ a b c s t u p q.
        (q.0 ∙ p.0, broken_after _ _ _ _ _ _ s t u p.1 q.1) };

    ghost failed_of_more = { λ a b t u v q. (q.0, broken_more _ _ t u v _ q.1) };
}

/// Writes the whole text of the value to the writer, as the text comes, and flushes nothing.
///
/// The error is the writer's own, or `WriteZero` if it took no byte. The writer then took a
/// beginning of the text, and not all of it. No error is tried again, not even `Interrupted`.
pub fn write_to_io<V: Writeable, W: Write>(value: &V, writer: &mut W) -> io::Result<()>
    ensures ok { OnOk result
        (Appends (W.contents writer.old) (W.contents writer.new) (V.text value.now)) }
    ensures err { OnErr result
        (AddsBeginning (W.contents writer.old) (W.contents writer.new) (V.text value.now)) }
{
    let mut sink = Lent {
        writer,
        error: None,
    };
    let written = value.write_to(&mut sink);
    let Lent { writer: _, error } = sink;
    match (written, error) {
        (Ok(()), _) => Ok(()),
        (Err(_), Some(error)) => Err(error),
        (Err(_), None) => unreachable!(),
    }
}
