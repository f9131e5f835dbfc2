//! What is left out at the ends of a line.
ghost use Rattle.std.specs.Prelude.{◌≡◌};
ghost use Rattle.iloc_cleaning.specs.Cleaning.{without_return, without_blanks};

// The line without one CR at its end.
pub(crate) fn without_return(line: &[u8]) -> &[u8]
    ensures { result.now ≡ without_return line.now }
{
    match line.strip_suffix(b"\r") {
        Some(rest) => rest,
        None => line,
    }
}

// The text without blanks at its start and its end.
pub(crate) fn without_blanks(text: &[u8]) -> &[u8]
    ensures { result.now ≡ without_blanks text.now }
{
    let mut rest = text;
    'first: while let [b' ' | b'\t', later @ ..] = rest {
        rest = later;
    }
    'last: while let [earlier @ .., b' ' | b'\t'] = rest {
        rest = earlier;
    }
    rest
}
