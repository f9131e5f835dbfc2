//! The fallback chain: a locale becomes its parent.
ghost use Rattle.std.specs.Prelude.{◌≡◌, ◌≢◌, ◌↔◌, false, suc, Some, None, if◌then◌else◌};
ghost use Rattle.iloc_spec_grammar.specs.Meaning as meaning;
ghost use Rattle.iloc_spec_grammar.specs.Meaning.{no_extensions};
ghost use Rattle.iloc_langid.specs.Parents.{part_count};
ghost use Rattle.iloc_locale.specs.LocaleParents.{IsParent, StepsTo};
ghost use Rattle.iloc_locale.specs.LocaleReading.{unknown_locale, value_of};

use crate::locale::Locale;

impl Locale {
    /// Takes away all extensions; or if there are none, the last part of the identifier: the last variant, else the
    /// region, else the script, else the language, which becomes `und`.
    ///
    /// Returns false if this was `und`, which has no parent. Then nothing changes. It allocates nothing.
    ///
    /// Asked again and again, it leads to `und`: the fallback chain `en-Latn-US-u-ca-buddhist`, `en-Latn-US`, `en-Latn`,
    /// `en`, `und`.
    ///
    /// ```text
    /// let mut locale = Locale::try_from_str(alloc, "de-AT-u-co-phonebk")?;
    /// while !has_data(&locale) && locale.truncate_to_parent() {}
    /// // tried were de-AT-u-co-phonebk, de-AT, de and und, up to the first one that has data
    /// ```
    pub fn truncate_to_parent(&mut self) -> bool
        ensures parent { IsParent (value_of self.old)
            (if result then Some (value_of self.new) else None) }
        ensures same { result ≡ false → value_of self.new ≡ value_of self.old }
    {
        if !self.extensions.is_empty() {
            self.extensions.clear();
            return true;
        }
        self.id.truncate_to_parent()
    }
}

/// Only `und` has no parent. The chain of parents ends in `und`, after as many steps as the identifier has parts, and one more
/// if there are extensions.
#[tactic(auto, using(crate::proofs::ParentLemmas::only_und, crate::proofs::ParentLemmas::plain_ends, crate::proofs::ParentLemmas::extended_ends))]
pub fn fallback_chain()
    ensures last { (M : meaning.Locale) → IsParent M None ↔ (M ≡ unknown_locale) }
    ensures plain { (M : meaning.Locale) → M.extensions ≡ no_extensions
        → StepsTo (part_count M.id) M unknown_locale }
    ensures extended { (M : meaning.Locale) → M.extensions ≢ no_extensions
        → StepsTo (suc (part_count M.id)) M unknown_locale }
{}
