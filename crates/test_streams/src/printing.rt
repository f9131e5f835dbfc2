//! Parts of many types, and a sink that fails.
use crate::FailingSink;
use iloc_writeable::{Pieces, Sink};
use std::alloc::Global;
use std::fmt;
use std::test::Fail;

/// `a`, then `b` and `c`, then pairs, then a character; and parts that are not there.
fn parts(text: &mut String) -> fmt::Result {
    let rest = ["b", "c"];
    let pairs = [("k", Some("v")), ("l", None)];
    (None::<&str>, "a", rest.as_slice(), pairs.as_slice(), 'x').write_joined(text)?;
    (None::<&str>, &rest[..0], None::<char>, None::<char>).write_pieces(text, false)?;
    ("y", ("z", &"z"), 'z').write_pieces(text, false)?;
    text.write_char('-')?;
    text.write_char('é')
}

#[test]
fn parts_in_order(rt: HostRuntime) -> Result<(), Fail> {
    let mut text = String::new(rt.alloc());
    parts(&mut text)?;
    assert_eq!(rt; text.as_str(), "a-b-c-k-v-l-x-y-z-z-z-é");
    assert!(rt; (None::<&str>, "a").has_pieces());
    assert!(rt; !(None::<&str>, None::<char>, None::<char>).has_pieces());
    Ok(())
}

/// Two pieces, of which the first stands first, and a text.
fn short_pieces(sink: &mut String) -> fmt::Result {
    sink.write_short_piece(*b"en\0\0\0\0\0\0", 2, true)?;
    sink.write_short_piece(*b"german\0\0", 6, false)?;
    sink.write_str("-x")
}

#[test]
fn short_pieces_in_order(rt: HostRuntime) -> Result<(), Fail> {
    let mut text = String::new(rt.alloc());
    short_pieces(&mut text)?;
    assert_eq!(rt; text.as_str(), "en-german-x");
    Ok(())
}

/// Whether a sink with room for so many of the five writes fails once, at the next, and holds what came before.
fn fails(alloc: Global, writes: u64) -> bool {
    let mut sink = FailingSink::new(alloc, writes);
    let is_refused = ("en", "Latn", "US").write_joined(&mut sink).is_err();
    let held = ["", "en", "en-", "en-Latn", "en-Latn-", "en-Latn-US"];
    let wanted = held.get(writes.min(5) as usize).copied().unwrap_or("");
    let failures = if writes < 5 { 1 } else { 0 };
    is_refused == (writes < 5) && sink.failures == failures && sink.text.as_str() == wanted
}

#[test]
fn fails_at_each_write(rt: HostRuntime) {
    for writes in 0..7u64 {
        assert!(rt; fails(rt.alloc(), writes));
    }
}
