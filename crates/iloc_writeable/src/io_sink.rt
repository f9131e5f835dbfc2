//! A writer as a sink.
ghost use Rattle.std.specs.Prelude.{◌≡◌, None};
ghost use Rattle.iloc_writeable.specs.Growth.{Added, Broken};
ghost use Rattle.iloc_writeable.specs.GrowthLaws.{added_nothing, added_both, broken_after, broken_more};

use crate::Sink;
use crate::whole::write_whole;
use std::{fmt, io};

/// Writes what it is given to its writer, at once, and keeps why a write failed.
///
/// A write that fails leaves a beginning of its text with the writer, and what is written later
/// follows on that. No error is tried again, not even `Interrupted`. Of a writer that is only lent,
/// `write_to_io` says more.
#[derive(Debug, Drop)]
pub struct IoSink<W> {
    /// Where the text goes.
    pub writer: W,
    /// Why the last write that failed did: the writer's own error, or `WriteZero` if it took no
    /// byte. It stays `None` until a write fails.
    pub error: Option<io::Error>,
}

impl<W> IoSink<W> {
    /// A sink over the writer, at which no write failed yet.
    pub fn new(writer: W) -> IoSink<W>
        ensures writer { result.writer ≡ writer }
        ensures error { result.error ≡ None }
    {
        IoSink {
            writer,
            error: None,
        }
    }

    /// The writer, with what was written. The error is forgotten: read `error` before.
    pub fn into_inner(self) -> W
        ensures { result ≡ self.writer }
    {
        let IoSink { writer, error: _ } = self;
        writer
    }
}

/// It tells what its writer holds, and that it keeps why a write failed.
impl<W: io::Write> Sink for IoSink<W> {
    ghost took = { λ a t b. Added (W.contents a.writer) a.error t (W.contents b.writer) b.error };

    ghost failed = { λ a t u b. Broken (W.contents a.writer) t u (W.contents b.writer) b.error };

    fn write_str(&mut self, text: &str) -> fmt::Result {
        match write_whole(&mut self.writer, text.as_bytes()) {
            Ok(()) => Ok(()),
            Err(error) => {
                self.error = Some(error);
                Err(fmt::Error)
            }
        }
    }

    ghost took_nothing = { λ s. added_nothing _ _ };

    ghost took_then_took = { λ a b c s t p q. added_both _ _ _ _ _ _ s t p q };

    ghost took_then_failed = { λ a b c s t u p q. broken_after _ _ _ _ _ _ s t u p q };

    ghost failed_of_more = { λ a b t u v q. broken_more _ _ t u v _ q };
}
