//! Locales as keys of sorted maps and sets.
//!
//! A `Locale` has two orders and none of them is its `Ord`: that of the printed texts (`strict_cmp`), and that by
//! parts (`total_cmp`). `OrderedLocale` is a locale with the second one, which is total and ties exactly equal locales.
ghost use Rattle.std.specs.Prelude.{◌≡◌, ◌↔◌, IsTrue, refl};
ghost use Rattle.std.specs.Cmp.{eq_by_cmp_equiv, partial_equiv_from_equiv, partial_order_from_total};
ghost use Rattle.std.specs.Ordering.{eq_by_cmp, as_partial_cmp};
ghost use Rattle.iloc_locale.specs.Order.{value_of, order};
ghost use Rattle.iloc_locale.specs.OrderLaws.{order_total};

use crate::locale::Locale;
use std::cmp::Ordering;

/// A locale that is ordered as `Locale::total_cmp` does: by its identifier, then by its extensions.
#[derive(Clone, Drop)]
pub struct OrderedLocale {
    /// The locale.
    pub locale: Locale,
}

/// Equal are equal locales.
impl PartialEq for OrderedLocale {
    ghost eq = { eq_by_cmp order };

    ghost laws = { partial_equiv_from_equiv (eq_by_cmp_equiv order_total) };

    fn eq(&self, other: &Self) -> bool
        ensures { result ≡ eq_by_cmp order self.now other.now }
    {
        self.cmp(other).is_eq()
    }
}

impl Eq for OrderedLocale {
    ghost laws = { eq_by_cmp_equiv order_total };
}

impl Ord for OrderedLocale {
    ghost cmp = { order };

    ghost total = { order_total };

    ghost matches_partial_cmp = { λ _ _. refl };

    ghost matches_eq = { λ _ _. refl };

    fn cmp(&self, other: &Self) -> Ordering {
        self.locale.total_cmp(&other.locale)
    }
}

impl PartialOrd for OrderedLocale {
    ghost partial_cmp = { as_partial_cmp order };

    ghost laws = { partial_order_from_total order_total };

    fn partial_cmp(&self, other: &Self) -> Option<Ordering> {
        Some(self.cmp(other))
    }
}

/// `==` tells whether two locales stand for the same.
pub fn equality()
    ensures { (a b : OrderedLocale)
        → IsTrue (⟦<OrderedLocale as PartialEq>⟧.eq a b) ↔ (value_of a ≡ value_of b) }
{}
