//! Writing all of a text.
ghost use Rattle.std.specs.Prelude.{OnOk, OnErr};
ghost use Rattle.std.specs.Io.KnownBytes.{Appends};
ghost use Rattle.iloc_writeable.specs.Growth.{AddsBeginning};

use std::io;
use std::io::Write;

/// Writes all of it, by as many calls as the writer takes. A write of no bytes is an error, and no
/// error is tried again, not even `Interrupted`.
pub fn write_whole<W: Write>(writer: &mut W, bytes: &[u8]) -> io::Result<()>
    ensures ok { OnOk result (Appends (W.contents writer.old) (W.contents writer.new) bytes.now) }
    ensures err { OnErr result
        (AddsBeginning (W.contents writer.old) (W.contents writer.new) bytes.now) }
{
    let mut rest = bytes;
    'writes: while !rest.is_empty() {
        match writer.write(rest) {
            Ok(0) => return Err(io::Error::from(io::ErrorKind::WriteZero)),
            Ok(count) => rest = rest.split_at(count).1,
            Err(error) => return Err(error),
        }
    }
    Ok(())
}
