// Legs, and the book that they are out of.
ghost use Rattle.std.specs.Prelude.{◌≡◌, ℕ, ◌+◌, ◌*◌, ◌<◌, ◌≤◌, true, Some, find, length, slice_index_or};
ghost use Rattle.std.specs.List.{All, HoldsAt};
ghost use Rattle.token_book.specs.Account.{issued, out_of, retired, slip};
ghost use Rattle.hop_object.specs.States.{number_of_state};
ghost use Rattle.hop_object.specs.Lanes.{has_leg, legs_out, name_at, HasPosition};

use crate::answer::number_of;
use crate::call::Leg;
use crate::lane::{Lane, lane_of};
use base_phases::LaneState;
use token_book::{Book, Tokens};

// Gives a leg back to the book, and finds its lane: what is out is what the lanes say.
pub(crate) fn redeem<T>(tokens: &Tokens, book: &mut Book, lanes: &[Lane<T>], leg: Leg) -> usize
    requires tokens { book.old.table ≡ tokens.now }
    requires leg { (leg.table ≡ tokens.now) × (leg.owner ≡ book.old.owner) }
    requires placed { All HasPosition lanes.now }
    requires legs { (n : ℕ) → out_of n book.old.out ≡ legs_out n lanes.now }
    ensures book { book.new ≡ retired book.old leg }
    ensures one { leg.amount ≡ 1 }
    ensures out { 1 ≤ out_of leg.name book.old.out }
    ensures few { (n : ℕ) → out_of n book.new.out ≤ out_of n book.old.out }
    ensures place { result < length lanes.now }
    ensures leg { HoldsAt (λ l. has_leg leg.name l ≡ true) lanes.now result }
    ensures found { (l : _) → l ≡ slice_index_or lanes.now result l → find (has_leg leg.name) lanes.now ≡ Some l }
{
    let name = leg.token.name();
    tokens.retire_one(book, leg.into_token());
    lane_of(lanes, name)
}

// The leg of a lane.
#[inline(always)]
pub(crate) fn issue(tokens: &Tokens, book: &mut Book, position: u64, state: LaneState) -> Leg
    requires tokens { book.old.table ≡ tokens.now }
    requires position { position < 1000000 }
    requires few { (n : ℕ) → out_of n book.old.out ≤ 16 }
    ensures book { book.new ≡ issued book.old (name_at position state) 1 }
    ensures leg { result ≡ slip book.old (name_at position state) 1 }
{
    let name = 4 * position as u32 + number_of(state);
    Leg {
        token: tokens.issue_one(book, name),
    }
}
