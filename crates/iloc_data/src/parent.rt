//! The fallback chain: a data locale becomes its parent.
ghost use Rattle.std.specs.Prelude.{◌≡◌, ◌+◌, true, false, Some, None, option_map, if◌then◌else◌};
ghost use Rattle.iloc_data.specs.DataValue.{value_of};
ghost use Rattle.iloc_data.specs.DataParents.{with_whole_region, data_parent, data_part_count};

use crate::data_locale::DataLocale;

impl DataLocale {
    /// Takes away the last part of the printed text: the subdivision, else the variant, else the region, else
    /// the script, else the language, which becomes `und`.
    ///
    /// Returns false if this was `und`, which has no parent. Then nothing changes. It allocates nothing.
    ///
    /// Asked again and again, it leads to `und`, after as many steps as there are parts: the fallback chain
    /// `en-US-posix-u-sd-usca`, `en-US-posix`, `en-US`, `en`, `und`. Equal data locales have equal parents.
    ///
    /// ```text
    /// let mut locale = DataLocale::try_from_str("de-AT")?;
    /// while !has_data(&locale) && locale.truncate_to_parent() {}
    /// // tried were de-AT, de and und, up to the first one that has data
    /// ```
    pub fn truncate_to_parent(&mut self) -> bool
        ensures parent { data_parent (value_of self.old)
            ≡ (if result then Some (value_of self.new) else None) }
        ensures same { result ≡ false → value_of self.new ≡ value_of self.old }
        ensures fewer { result ≡ true
            → data_part_count (value_of self.old) ≡ data_part_count (value_of self.new) + 1 }
    {
        match self.parent() {
            Some(parent) => {
                *self = parent;
                true
            }
            None => false,
        }
    }

    // The parent, if there is one.
    fn parent(&self) -> Option<Self>
        ensures { option_map value_of result ≡ data_parent (value_of self.now) }
    {
        let mut parent = self.with_whole_region();
        if self.printed_subdivision().is_some() {
            return Some(parent);
        }
        if self.variant.is_some() {
            parent.variant = None;
            return Some(parent);
        }
        if parent.region.is_some() {
            parent.region = None;
            return Some(parent);
        }
        if self.script.is_some() {
            parent.script = None;
            return Some(parent);
        }
        if self.language.is_unknown() {
            return None;
        }
        Some(DataLocale::default())
    }

    // The data locale with the region that it stands for, as a whole.
    fn with_whole_region(&self) -> Self
        ensures { value_of result ≡ with_whole_region (value_of self.now) }
    {
        DataLocale {
            language: self.language,
            script: self.script,
            region: self.region_part().map(|id| id.region),
            variant: self.variant,
            subdivision: None,
        }
    }
}
