// What the tests start from.
ghost use Rattle.std.specs.Prelude.{◌≡◌, length, IfOk};
ghost use Rattle.one_history.specs.Moves.{fresh};
ghost use Rattle.one_history.specs.Seats.{AreFresh};
ghost use Rattle.token_book.specs.Account.{fresh as fresh_book};

use one_history::{History, Law, ObjectSeat};
use std::alloc::Global;
use tlm_types::Memory;
use token_book::{Book, Tokens};

/// The seats of two objects.
pub(crate) fn pair<E, W: Law<E, ()>>(
    past: &History<E, (), W>,
    mut seats: Vec<ObjectSeat<E, (), W>>,
) -> (ObjectSeat<E, (), W>, ObjectSeat<E, (), W>)
    requires count { length seats.items ≡ 2 }
    requires fresh { AreFresh past.now.table past.now.frame seats.items }
    ensures first { (result.0.table ≡ past.now.table) × (result.0.knows ≡ fresh past.now.frame 0) }
    ensures second { (result.1.table ≡ past.now.table) × (result.1.knows ≡ fresh past.now.frame 1) }
{
    let Some(second) = seats.pop() else {
        unreachable!()
    };
    let Some(first) = seats.pop() else {
        unreachable!()
    };
    (first, second)
}

/// The books of two objects.
pub(crate) fn two_books(alloc: Global) -> Result<(Tokens, Book, Book), Memory>
    ensures { IfOk result (λ r. (r.1 ≡ fresh_book r.0 0) × (r.2 ≡ fresh_book r.0 1)) }
{
    let (tokens, mut books) = Tokens::new(alloc, 2)?;
    let Some(second) = books.pop() else {
        unreachable!()
    };
    let Some(first) = books.pop() else {
        unreachable!()
    };
    Ok((tokens, first, second))
}
