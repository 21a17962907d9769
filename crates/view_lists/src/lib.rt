//! Words and lemmas on lists, for rules over the views of many seats, and how an item is taken out of one.
//!
//! A rule of a shared table speaks of a list with one view a seat. A step puts a view in place of
//! another, and may add one at the end. What a proof of such a rule needs of lists stands here once.
//!
//! - `specs/Lists` has the words: `Has`, `Within`, `of_key`, `AreDistinct`.
//! - `proofs/Places` says what stands where after a change, `proofs/Members` what a list has,
//!   `proofs/Totals` what the views amount to, `proofs/Keys` what has one key, and
//!   `proofs/Distinct` that distinct items of a list are no more than it has.
//! - `take_from` takes out the item at a place.
#![tactic(auto)]

ghost use Rattle.std.specs.Prelude.{◌≡◌, ◌+◌, ◌<◌, remove, slice_index_or, vec_capacity, vec_len};

/// Takes out the item at a place. What stands behind it closes up; where nothing does, nothing is moved.
pub fn take_from<T>(list: &mut Vec<T>, at: usize) -> T
    requires { at < vec_len list.old }
    ensures value { result ≡ slice_index_or list.old.items at result }
    ensures items { list.new.items ≡ remove list.old.items at }
    ensures len { vec_len list.new + 1 ≡ vec_len list.old }
    ensures capacity { vec_capacity list.new ≡ vec_capacity list.old }
{
    if at + 1 < list.len() {
        return list.remove(at);
    }
    let Some(last) = list.pop() else {
        unreachable!()
    };
    last
}
