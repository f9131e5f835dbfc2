//! Faults of texts. The expected places are worked out by hand from the definition (`Places.antt` of `iloc_faults`).
use iloc_faults::fault_of;
use iloc_normalize::Mode;
use iloc_subtags::ParseError::{
    self, DuplicatedExtension, InvalidExtension, InvalidLanguage, InvalidSubtag,
};

// A text, and its fault: the refusal, and where its place begins and ends.
type Row = (&'static str, Option<Place>);

type Place = (ParseError, usize, usize);

const IDENTIFIERS: [Row; 9] = [
    ("en-Latn-US-macos", None),
    ("", Some((InvalidLanguage, 0, 0))),
    ("e-US", Some((InvalidLanguage, 0, 1))),
    ("en-", Some((InvalidSubtag, 3, 3))),
    ("en--US", Some((InvalidSubtag, 3, 3))),
    ("en-u-ca", Some((InvalidSubtag, 3, 4))),
    ("en-Latn-Latn", Some((InvalidSubtag, 8, 12))),
    ("en-macos-posix-MACOS", Some((InvalidSubtag, 15, 20))),
    (
        "en-abcdefghijklmnopqrstuvwxyz-US",
        Some((InvalidSubtag, 3, 29)),
    ),
];

const LOCALES: [Row; 14] = [
    ("en-a-!!-foo-t-en-m0-abc-u-foo-ca", None),
    ("u-ca", Some((InvalidLanguage, 0, 1))),
    ("en-", Some((InvalidSubtag, 3, 3))),
    ("en--US", Some((InvalidSubtag, 3, 3))),
    ("en-macos-macos", Some((InvalidSubtag, 9, 14))),
    ("en-t-fr-macos-macos", Some((InvalidSubtag, 14, 19))),
    ("en-t-fr-fr-fr", Some((InvalidExtension, 11, 13))),
    ("en-u", Some((InvalidExtension, 4, 4))),
    ("en-t-m0", Some((InvalidExtension, 7, 7))),
    ("en-a-!!", Some((InvalidExtension, 7, 7))),
    ("en-!", Some((InvalidExtension, 3, 4))),
    ("en-u-ca-x", Some((InvalidExtension, 9, 9))),
    ("en-a-foo-a-bar", Some((DuplicatedExtension, 9, 10))),
    // The first block is cut short before its singleton comes again.
    ("en-u-u-ca", Some((InvalidExtension, 5, 6))),
];

const DATA_LOCALES: [Row; 11] = [
    ("und-u-sd-zzzz", None),
    ("en-US-u-sd-true-ustx-true", None),
    ("en...", Some((InvalidLanguage, 0, 5))),
    ("en-", Some((InvalidSubtag, 3, 3))),
    ("en-macos-posix", Some((InvalidSubtag, 9, 14))),
    ("en-t-en", Some((InvalidSubtag, 3, 4))),
    ("en-u-foo", Some((InvalidSubtag, 5, 8))),
    ("en-u-sd-usca-x-a", Some((InvalidSubtag, 13, 14))),
    ("und-u-ca-buddhist", Some((InvalidExtension, 6, 8))),
    ("en-u-sd", Some((InvalidExtension, 7, 7))),
    ("en-TR-u-sd-true", Some((InvalidExtension, 15, 15))),
];

// The fault of a text.
fn place(mode: Mode, text: &[u8]) -> Option<Place> {
    let fault = fault_of(mode, text)?;
    Some((fault.refusal, fault.start, fault.end))
}

// The first text that is answered otherwise.
fn first_wrong(mode: Mode, rows: &[Row]) -> Option<&'static str> {
    for (text, wanted) in rows {
        if place(mode, text.as_bytes()) != *wanted {
            return Some(text);
        }
    }
    None
}

#[test]
fn identifiers(rt: HostRuntime) {
    assert_eq!(rt; first_wrong(Mode::Langid, &IDENTIFIERS), None);
}

#[test]
fn locales(rt: HostRuntime) {
    assert_eq!(rt; first_wrong(Mode::Locale, &LOCALES), None);
}

#[test]
fn data_locales(rt: HostRuntime) {
    assert_eq!(rt; first_wrong(Mode::Data, &DATA_LOCALES), None);
}

#[test]
fn a_long_text(rt: HostRuntime) {
    let mut text = [b'a'; 10_000];
    for i in 5..10_000usize {
        if i % 4 == 0 {
            text[i] = b'-';
        }
    }
    text[..5].copy_from_slice(b"en-x-");
    assert_eq!(rt; place(Mode::Locale, &text), None);
    text[9_998] = b'!';
    assert_eq!(rt;
        place(Mode::Locale, &text),
        Some((InvalidExtension, 9_997, 10_000))
    );
}
