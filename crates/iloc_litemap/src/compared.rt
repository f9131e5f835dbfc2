//! Maps compare and hash as the lists of their pairs.
ghost use Rattle.std.specs.Prelude.{◌≡◌, ◌&&◌};
ghost use Rattle.std.specs.Hash as fed;
ghost use Rattle.std.specs.Cmp.Lexicographic.{pointwise, lists_per, lists_equiv};

use crate::map::LiteMap;
use crate::store::Store;
use std::hash::{Hash, Hasher};

impl<K: Ord + Drop, V: PartialEq + Drop, S: Store<K, V>> PartialEq for LiteMap<K, V, S> {
    ghost use Rattle.std.specs.Cmp.{and_per, on_per};

    ghost eq = { pointwise (λ x y. K.eq x.0 y.0 && V.eq x.1 y.1) };

    ghost laws = { lists_per (and_per (on_per (λ x. x.0) K.PartialEq.laws)
        (on_per (λ x. x.1) V.PartialEq.laws)) };

    fn eq(&self, other: &Self) -> bool {
        are_equal(self.as_slice(), other.as_slice())
    }
}

// Whether these are equal pairs, one by one.
fn are_equal<K: PartialEq, V: PartialEq>(pairs: &[(K, V)], others: &[(K, V)]) -> bool
    ensures { result ≡ pointwise (λ x y. K.eq x.0 y.0 && V.eq x.1 y.1) pairs.now others.now }
{
    if pairs.len() != others.len() {
        return false;
    }
    for i in 0..pairs.len() {
        if pairs[i].0 != others[i].0 || pairs[i].1 != others[i].1 {
            return false;
        }
    }
    true
}

impl<K: Ord + Drop, V: Eq + Drop, S: Store<K, V>> Eq for LiteMap<K, V, S> {
    ghost use Rattle.std.specs.Cmp.{and_equiv, on_equiv};

    ghost laws = { lists_equiv (and_equiv (on_equiv (λ x. x.0) K.Eq.laws)
        (on_equiv (λ x. x.1) V.Eq.laws)) };
}

impl<K: Ord + Hash + Drop, V: Hash + Drop, S: Store<K, V>> Hash for LiteMap<K, V, S> {
    ghost use Rattle.std.specs.Prelude.{◌++◌};
    ghost use Rattle.std.specs.Hash.{items_Alike, and-Alike, on_Alike};

    ghost hash_input = { fed.slice (λ x. K.hash_input x.0 ++ V.hash_input x.1) };

    ghost respects_eq = { (items_Alike (and-Alike
        (on_Alike (λ x. x.0) (record { fed = K.respects_eq }))
        (on_Alike (λ x. x.1) (record { fed = V.respects_eq })))).fed };

    fn hash<H: Hasher>(&self, state: &mut H) {
        self.as_slice().hash(state);
    }
}
