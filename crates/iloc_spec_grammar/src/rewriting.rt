//! Rewriting by any number of steps, and plain programs that tell whether a step leads from one text to another.
//!
//! However many steps lead from a text to another, both mean the same. So two accepted texts mean the same exactly if
//! steps lead both to one text. For each relation on steps there is a function to `Bool`, and a law: the function is
//! true exactly if the relation holds, of lists, of parts, of whole written locales, and of texts.

ghost use Rattle.std.specs.Prelude.{◌≡◌, ◌↔◌, ℕ, ◌≤◌, Bool, List, length, codes, IsTrue, true, false};
ghost use Rattle.iloc_spec_grammar.specs.Syntax.{Text, LanguageLengths, Field, pieces, AreLengths, languages, SpelledIdentifier, Identifier};
ghost use Rattle.iloc_spec_grammar.specs.Tree.{Extension, Written};
ghost use Rattle.iloc_spec_grammar.specs.Meaning.{Locale, Means, IdentifierMeans};
ghost use Rattle.iloc_spec_grammar.specs.Values.{TextStep, IdentifierTextStep, Leads, LeadToOne, Reordered};
ghost use Rattle.iloc_spec_grammar.specs.Values.{Without, WithoutRepeats};
ghost use Rattle.iloc_spec_grammar.specs.TreeSteps.{TreeLessTrue, TreeRule, TreeIdentifierStep, ExtensionStep, Step, TreeTextStep, TreeIdentifierTextStep};
ghost use Rattle.iloc_spec_grammar.specs.StepTests.{DecidesEquality, is_reordered, is_without, is_without_repeats, has_less_true, is_identifier_step, is_extension_step, is_step, is_text_step, is_identifier_text_step};

/// Any number of steps keeps the meaning and does not lengthen the text; two accepted texts mean the same exactly if some number of steps leads both to one text.
pub fn any_steps()
    ensures mean { (T : LanguageLengths) → AreLengths T → (n : ℕ) (t u : Text) (M : Locale)
        → Leads (TextStep T) n t u → Means T t M → Means T u M }
    ensures shorten { (T : LanguageLengths) (n : ℕ) (t u : Text) → Leads (TextStep T) n t u
        → length u ≤ length t }
    ensures same { (T : LanguageLengths) → AreLengths T → (t u : Text) (L M : Locale) → Means T t L
        → Means T u M
        → (L ≡ M) ↔ ((n : ℕ) × LeadToOne (TextStep T) n t u) }
{}

/// Any number of steps in the case of letters and in the order of variants keeps what an identifier means.
pub fn any_identifier_steps()
    ensures mean { (T : LanguageLengths) (n : ℕ) (t u : Text) (i : Identifier)
        → Leads (IdentifierTextStep T) n t u → IdentifierMeans T (pieces t) i
        → IdentifierMeans T (pieces u) i }
    ensures long { (T : LanguageLengths) (n : ℕ) (t u : Text) → Leads (IdentifierTextStep T) n t u
        → length u ≡ length t }
    ensures same { (T : LanguageLengths) (t u : Text) (i j : Identifier)
        → IdentifierMeans T (pieces t) i
        → IdentifierMeans T (pieces u) j
        → (i ≡ j) ↔ ((n : ℕ) × LeadToOne (IdentifierTextStep T) n t u) }
{}

/// A step of a text, by its identifier and its blocks, is one of the tree that it spells.
pub fn same_steps()
    ensures texts { (T : LanguageLengths) → AreLengths T → (t u : Text) → TextStep T t u
        ↔ TreeTextStep T t u }
    ensures tree { (T : LanguageLengths) (t u : Text) → TextStep T t u → TreeTextStep T t u }
    ensures identifiers { (T : LanguageLengths) (t u : Text)
        → IdentifierTextStep T t u ↔ TreeIdentifierTextStep T t u }
{}

/// One worked example of each step, and two texts that no step joins.
pub fn by_example()
    ensures letter_case { TextStep languages (codes "EN-us") (codes "en-US") }
    ensures block_order { TextStep languages (codes "en-u-ca-foo-a-bar")
        (codes "en-a-bar-u-ca-foo") }
    ensures variant_order { TextStep languages (codes "en-posix-macos") (codes "en-macos-posix") }
    ensures attribute_order { TextStep languages (codes "en-u-foo-bar") (codes "en-u-bar-foo") }
    ensures field_order { TextStep languages (codes "en-u-hc-h12-ca-foo")
        (codes "en-u-ca-foo-hc-h12") }
    ensures repeats { TextStep languages (codes "en-u-ca-foo-ca-bar") (codes "en-u-ca-foo") }
    ensures trues { TextStep languages (codes "en-u-ca-foo-true") (codes "en-u-ca-foo") }
    ensures dropped_pieces { TextStep languages (codes "en-a-foo-!!-bar") (codes "en-a-foo-bar") }
    ensures same_key_stays_in_order { (n : ℕ)
        → Leads (TextStep languages) n (codes "en-u-ca-foo-CA-bar") (codes "en-u-CA-bar-ca-foo")
        → ⊥ }
{}

/// What a step does to a list is what the tests of lists say.
pub fn tests_of_lists<X>()
    ensures reordered { (same : X → X → Bool) → DecidesEquality same → (xs ys : List X)
        → IsTrue (is_reordered same xs ys) ↔ Reordered xs ys }
    ensures without { (same : X → X → Bool) → DecidesEquality same
        → (test : X → Bool) (xs ys : List X)
        → IsTrue (is_without same test xs ys) ↔ Without test xs ys }
    ensures without_repeats { (same : X → X → Bool) → DecidesEquality same
        → (key : X → Text) (seen : List Text) (xs ys : List X)
        → IsTrue (is_without_repeats same key seen xs ys) ↔ WithoutRepeats key seen xs ys }
{}

/// What a step does to the parts of a written locale, and to the whole, is what their tests say.
pub fn tests_of_parts()
    ensures less_true { (f g : Field) → IsTrue (has_less_true f g) ↔ TreeLessTrue f g }
    ensures identifier { (r : TreeRule) (i j : SpelledIdentifier)
        → IsTrue (is_identifier_step r i j) ↔ TreeIdentifierStep r i j }
    ensures extension { (r : TreeRule) (e f : Extension)
        → IsTrue (is_extension_step r e f) ↔ ExtensionStep r e f }
    ensures written { (v w : Written) → IsTrue (is_step v w) ↔ Step v w }
{}

/// What a step does to a text is what the tests of texts say.
pub fn tests_of_texts()
    ensures text { (T : LanguageLengths) → AreLengths T → (t u : Text)
        → IsTrue (is_text_step T t u) ↔ TextStep T t u }
    ensures identifier_text { (T : LanguageLengths) (t u : Text)
        → IsTrue (is_identifier_text_step T t u) ↔ IdentifierTextStep T t u }
{}

/// Answers for some texts. The last two are no steps: fields of one key keep their order, and two steps are not one.
pub fn tests_by_example()
    ensures block_order { is_text_step languages (codes "en-u-ca-foo-a-bar")
        (codes "en-a-bar-u-ca-foo") ≡ true }
    ensures variant_order { is_identifier_text_step languages (codes "en-posix-macos")
        (codes "en-macos-posix") ≡ true }
    ensures repeats { is_text_step languages (codes "en-u-ca-foo-ca-bar") (codes "en-u-ca-foo")
        ≡ true }
    ensures same_key_stays_in_order { is_text_step languages (codes "en-u-ca-foo-CA-bar")
        (codes "en-u-CA-bar-ca-foo") ≡ false }
    ensures two_at_once { is_text_step languages (codes "en-posix-macos-u-ca-foo-true")
        (codes "en-macos-posix-u-ca-foo") ≡ false }
{}
