//! The texts of enums.
// Written by tools/write_keywords from tools/keywords.txt: change that table and not this file.
use crate::keyword::Shown;
use iloc_enum_keywords::{
    CollationCaseFirst, CollationNumericOrdering, CollationType, CommonVariantType,
    CurrencyFormatStyle, EmojiPresentationStyle, FirstDay, HourCycle, LineBreakStyle,
    LineBreakWordHandling, MeasurementSystem, MeasurementUnitOverride, SentenceBreakSupressions,
};
use test_page::say;

impl Shown for CollationCaseFirst {
    fn show(&self, out: &mut String) {
        say(out, self.as_str())
    }
}

impl Shown for CollationNumericOrdering {
    fn show(&self, out: &mut String) {
        say(out, self.as_str())
    }
}

impl Shown for CollationType {
    fn show(&self, out: &mut String) {
        say(out, self.as_str())
    }
}

impl Shown for CommonVariantType {
    fn show(&self, out: &mut String) {
        say(out, self.as_str())
    }
}

impl Shown for CurrencyFormatStyle {
    fn show(&self, out: &mut String) {
        say(out, self.as_str())
    }
}

impl Shown for EmojiPresentationStyle {
    fn show(&self, out: &mut String) {
        say(out, self.as_str())
    }
}

impl Shown for FirstDay {
    fn show(&self, out: &mut String) {
        say(out, self.as_str())
    }
}

impl Shown for HourCycle {
    fn show(&self, out: &mut String) {
        say(out, self.as_str())
    }
}

impl Shown for LineBreakStyle {
    fn show(&self, out: &mut String) {
        say(out, self.as_str())
    }
}

impl Shown for LineBreakWordHandling {
    fn show(&self, out: &mut String) {
        say(out, self.as_str())
    }
}

impl Shown for MeasurementSystem {
    fn show(&self, out: &mut String) {
        say(out, self.as_str())
    }
}

impl Shown for MeasurementUnitOverride {
    fn show(&self, out: &mut String) {
        say(out, self.as_str())
    }
}

impl Shown for SentenceBreakSupressions {
    fn show(&self, out: &mut String) {
        say(out, self.as_str())
    }
}
