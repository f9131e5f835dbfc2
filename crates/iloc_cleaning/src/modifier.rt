//! Modifiers of names such as `sr_RS@latin`.
ghost use Rattle.std.specs.Prelude.{◌≡◌};
ghost use Rattle.iloc_cleaning.specs.Cleaning.{modifier};

// What a modifier says.
#[derive(Clone, Copy)]
pub(crate) enum Modifier {
    // Nothing of the language: it names a currency.
    Currency,
    // A script, by a hyphen and its subtag.
    Script([u8; 5]),
    // A variant: what follows the `@`.
    Variant,
    // What is not known, or nothing at all.
    Other,
}

// What a modifier says, which begins with `@`.
pub(crate) fn read_modifier(text: &[u8]) -> Modifier
    ensures { result ≡ modifier text.now }
{
    if text == b"@euro".as_slice() {
        return Modifier::Currency;
    }
    if text == b"@latin".as_slice() {
        return Modifier::Script(*b"-Latn");
    }
    if text == b"@cyrillic".as_slice() {
        return Modifier::Script(*b"-Cyrl");
    }
    if text == b"@devanagari".as_slice() {
        return Modifier::Script(*b"-Deva");
    }
    if text == b"@valencia".as_slice() || text == b"@saaho".as_slice() {
        return Modifier::Variant;
    }
    Modifier::Other
}
