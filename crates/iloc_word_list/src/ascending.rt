//! Whether a list ascends.
ghost use Rattle.std.specs.Prelude.{◌≡◌};
ghost use Rattle.iloc_word_list.specs.Ascending.{ascends};

/// Whether each item is less than the next. Lists of at most one item are in order.
///
/// It is the test for `from_vec_unchecked` of sets.
pub fn is_strictly_ascending<T: Ord>(items: &[T]) -> bool
    ensures { result ≡ ascends T.cmp items.now }
{
    let Some((first, others)) = items.split_first() else {
        return true;
    };
    let mut last = first;
    for item in others {
        if last.cmp(item).is_ge() {
            return false;
        }
        last = item;
    }
    true
}
