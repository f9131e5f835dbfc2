//! The fallback chain: an identifier becomes its parent.
ghost use Rattle.std.specs.Prelude.{◌≡◌, ◌+◌, true, false, Some, None, if◌then◌else◌};
ghost use Rattle.iloc_langid.specs.Reads.{value_of};
ghost use Rattle.iloc_langid.specs.Parents.{but_last, parent_of, part_count};

use crate::identifier::LanguageIdentifier;
use iloc_subtags::Language;
use iloc_word_list::Variants;

impl LanguageIdentifier {
    /// Takes away the last part of the printed text: the last variant, else the region, else the script, else
    /// the language, which becomes `und`.
    ///
    /// Returns false if this was `und`, which has no parent. Then nothing changes. It allocates nothing.
    ///
    /// Asked again and again, it leads to `und`, after as many steps as there are parts: the fallback chain
    /// `en-Latn-US-posix`, `en-Latn-US`, `en-Latn`, `en`, `und`.
    ///
    /// ```text
    /// let mut identifier = LanguageIdentifier::try_from_str(alloc, "de-Latn-AT")?;
    /// while !is_translated(&identifier) && identifier.truncate_to_parent() {}
    /// // tried were de-Latn-AT, de-Latn, de and und, up to the first one that is translated
    /// ```
    pub fn truncate_to_parent(&mut self) -> bool
        ensures parent { parent_of (value_of self.old)
            ≡ (if result then Some (value_of self.new) else None) }
        ensures same { result ≡ false → value_of self.new ≡ value_of self.old }
        ensures fewer { result ≡ true
            → part_count (value_of self.old) ≡ part_count (value_of self.new) + 1 }
    {
        if pop_variant(&mut self.variants) {
            return true;
        }
        if self.region.is_some() {
            self.region = None;
            return true;
        }
        if self.script.is_some() {
            self.script = None;
            return true;
        }
        if self.language.is_unknown() {
            return false;
        }
        self.language = Language::unknown();
        true
    }
}

// Takes out the last variant; false if there is none.
fn pop_variant(variants: &mut Variants) -> bool
    ensures popped { but_last variants.old ≡ (if result then Some variants.new else None) }
    ensures same { result ≡ false → variants.new ≡ variants.old }
{
    let Some(last) = variants.as_slice().last() else {
        return false;
    };
    let last = *last;
    variants.remove(&last);
    true
}
