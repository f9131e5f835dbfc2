//! Laws of the definitions: the answers to lines and the output for an input are those that the grammar allows; what is
//! written for an input is one text, and without options the output.
ghost use Rattle.std.specs.Prelude.{◌≡◌, ◌≢◌, ◌<◌, ℕ, All, [], ◌∷◌, ◌++◌, length, codes, map};
ghost use Rattle.iloc_spec_grammar.specs.Syntax.{Text, LanguageLengths, AreLengths, languages};
ghost use Rattle.iloc_program.specs.Lines.{IsOneLine, ReadsEnded, ReadsOpen, IsEndedOrOpen, lines_of};
ghost use Rattle.iloc_program.specs.Answers.{IsAnswer, IsOutput, line_answer, reply, output};
ghost use Rattle.iloc_normalize.specs.Modes.{IsNormalText};
ghost use Rattle.iloc_normalize.specs.declared.Mode.{Mode};
ghost use Rattle.iloc_normalize.specs.declared.Mode.TheVariants.{Langid, Locale, Data};
ghost use Rattle.iloc_program.specs.Numbered.{IsListing};
ghost use Rattle.iloc_program.specs.declared.numbered.Listing.{Listing};
ghost use Rattle.iloc_program.specs.Listing.{IsEntry, nothing_asked};

/// What is computed of a line is its one answer in the words of the grammar.
pub fn line_answers()
    ensures is { (T : LanguageLengths) → AreLengths T → (mode : Mode) (line : Text)
        → IsAnswer T mode line (line_answer T mode line) }
    ensures only { (T : LanguageLengths) → AreLengths T → (mode : Mode) (line answer : Text)
        → IsAnswer T mode line answer → answer ≡ line_answer T mode line }
{}

/// What is computed of an input is its one output.
pub fn outputs()
    ensures is { (T : LanguageLengths) → AreLengths T → (mode : Mode) (input : Text)
        → IsOutput T mode input (output T mode input) }
    ensures only { (T : LanguageLengths) → AreLengths T → (mode : Mode) (input written : Text)
        → IsOutput T mode input written → written ≡ output T mode input }
{}

/// An answer is one line, so the output has a line for each line of the input. No normal text has a `!`, with which a
/// refusal begins.
pub fn answers_are_lines()
    ensures lines { (mode : Mode) (input : Text) → lines_of (output languages mode input)
        ≡ map (line_answer languages mode) (lines_of input) }
    ensures normal { (mode : Mode) (line normal : Text) → IsNormalText languages mode line normal
        → All (λ c. c ≢ 33) normal }
{}

/// Lines are cut at each newline, and a last one without a newline counts if it isn't empty; so the output goes on line by line.
pub fn lines()
    ensures ended { ReadsEnded }
    ensures open { ReadsOpen }
    ensures all { IsEndedOrOpen }
    ensures line { (T : LanguageLengths) (mode : Mode) (line rest : Text) → IsOneLine line
        → output T mode (line ++ 10 ∷ rest) ≡ reply T mode line ++ output T mode rest }
    ensures last { (T : LanguageLengths) (mode : Mode) (line : Text) → IsOneLine line
        → 0 < length line
        → output T mode line ≡ reply T mode line }
    ensures cut { (T : LanguageLengths) (mode : Mode) (pending piece line later next : Text)
        → IsOneLine pending → IsOneLine line → piece ≡ line ++ 10 ∷ later
        → output T mode (pending ++ (piece ++ next))
        ≡ reply T mode (pending ++ line) ++ output T mode (later ++ next) }
{}

/// Worked inputs.
pub fn by_example()
    ensures locales { output languages Locale (codes "en-us" ++ (10 ∷ (10 ∷ codes "EN")))
        ≡ (codes "en-US"
        ++ 10 ∷ (codes "! The given language subtag is invalid" ++ 10 ∷ (codes "en" ++ 10 ∷ []))) }
    ensures nothing { output languages Locale [] ≡ [] }
    ensures carriage_return { output languages Langid (codes "en" ++ (13 ∷ (10 ∷ [])))
        ≡ (codes "! The given language subtag is invalid" ++ 10 ∷ []) }
    ensures identifiers { output languages Langid
        (codes "EN-latn-us-POSIX-macos" ++ 10 ∷ (codes "en-u-ca" ++ 10 ∷ []))
        ≡ (codes "en-Latn-US-macos-posix" ++ 10 ∷ (codes "! Invalid subtag" ++ 10 ∷ [])) }
    ensures extensions { output languages Locale
        (codes "en-u-ca-foo-a-bar"
        ++ 10 ∷ (codes "en-a-foo-a-bar" ++ 10 ∷ (codes "en-u" ++ 10 ∷ [])))
        ≡ (codes "en-a-bar-u-ca-foo"
        ++ 10 ∷ (codes "! Duplicated extension" ++ 10 ∷ (codes "! Invalid extension" ++ 10 ∷ []))) }
    ensures data_locales { output languages Data
        (codes "und-u-sd-sdd" ++ 10 ∷ (codes "en-u" ++ 10 ∷ []))
        ≡ (codes "und-SD-u-sd-sdd" ++ 10 ∷ (codes "! Invalid extension" ++ 10 ∷ [])) }
{}

/// Two listings of one input are equal.
pub fn one_listing()
    ensures { (mode : Mode) (l : Listing) (n : ℕ) (input s t : Text)
        → IsListing (IsEntry mode l) n input s → IsListing (IsEntry mode l) n input t → s ≡ t }
{}

/// The listing for which nothing is asked is the output of `run`.
pub fn plain_listing()
    ensures { (mode : Mode) (n : ℕ) (input written : Text)
        → IsListing (IsEntry mode nothing_asked) n input written
        → IsOutput languages mode input written }
{}
