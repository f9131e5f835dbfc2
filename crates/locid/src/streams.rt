//! The streams of a run: they note the system's error, see whether a line was refused, and change the ends of lines.

ghost use Rattle.std.specs.Prelude.{◌≡◌, ◌≤◌, length, IfOk, None, if◌then◌else◌};

use std::io;
use std::io::{Read, Write};

/// Lines as they come. What it gives is what the reader below gives, unless the ends of lines are changed.
#[derive(Drop)]
pub struct Source<R> {
    pub from: R,
    /// Whether lines end with zero bytes: then each of the two bytes comes as the other.
    pub by_zero: bool,
    /// Why a read failed.
    pub error: Option<io::Error>,
}

impl<R: Read + Drop> Read for Source<R> {
    ghost remaining = { λ source. if source.by_zero then None else R.remaining source.from };

    fn read(&mut self, buf: &mut [u8]) -> io::Result<usize> {
        let given = self.from.read(buf);
        match &given {
            Ok(count) if self.by_zero => exchange(&mut buf[..*count]),
            Ok(_) => {}
            Err(error) => self.error = Some(*error),
        }
        given
    }
}

/// Takes answers. What it holds is what the writer below holds, unless the ends of lines are changed.
#[derive(Drop)]
pub struct Target<W> {
    pub to: W,
    /// Whether lines end with zero bytes: then each of the two bytes is written as the other.
    pub by_zero: bool,
    /// Whether refused lines are looked for.
    pub looks: bool,
    /// Whether one was seen. Only what is written of a refused line has an exclamation mark.
    pub is_refused: bool,
    /// Why a write failed.
    pub error: Option<io::Error>,
}

impl<W: Write + Drop> Write for Target<W> {
    ghost contents = { λ target. if target.by_zero then None else W.contents target.to };

    fn write(&mut self, buf: &[u8]) -> io::Result<usize> {
        if self.looks && buf.contains(&b'!') {
            self.is_refused = true;
        }
        let taken = if self.by_zero {
            write_exchanged(&mut self.to, buf)
        } else {
            self.to.write(buf)
        };
        if let Err(error) = &taken {
            self.error = Some(*error);
        }
        taken
    }

    fn flush(&mut self) -> io::Result<()> {
        self.to.flush()
    }
}

// How many bytes are changed at once.
const BLOCK: usize = 4096;

// Writes the first bytes, with a newline for each zero byte and the other way round.
fn write_exchanged<W: Write>(to: &mut W, buf: &[u8]) -> io::Result<usize>
    ensures { IfOk result (λ n. n ≤ length buf.now) }
{
    let mut room = [0u8; BLOCK];
    let count = buf.len().min(BLOCK);
    let block = &mut room[..count];
    block.copy_from_slice(&buf[..count]);
    exchange(block);
    to.write(block)
}

// Has a newline for each zero byte, and the other way round.
fn exchange(bytes: &mut [u8])
    ensures { length bytes.new ≡ length bytes.old }
{
    for byte in bytes {
        *byte = match *byte {
            0 => b'\n',
            b'\n' => 0,
            other => other,
        };
    }
}
