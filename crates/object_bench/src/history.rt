// Positions of one history, and tickets for them.
ghost use Rattle.std.specs.Prelude.{◌≡◌, ℕ, ◌+◌, ◌<◌, ◌≤◌, ◌^◌, [], ◌∷◌, length, slice_index_or, IfOk, Some};
ghost use Rattle.view_lists.specs.Lists.{Has, Within};
ghost use Rattle.one_history.specs.declared.entry.Sign.TheVariants.{Plain};
ghost use Rattle.one_history.specs.Moves.{number_of, own_of, entry, fresh};
ghost use Rattle.token_book.specs.Account.{out_of, issued};
ghost use Rattle.token_book.specs.Purse.{HasPlace, IsOf, left_of};

use crate::bench::{pair, two_books};
use one_history::{Closed, Drawn, History, Looked, NoLaw, Note, ObjectSeat, Sign};
use std::alloc::Global;
use std::thread::{Threads, join};
use tlm_types::Memory;
use token_book::{Book, Tokens, Wallet};

/// A history of numbers.
pub type Past = History<u64, (), NoLaw>;

/// The seat of an object of it.
pub type Chair = ObjectSeat<u64, (), NoLaw>;

/// A note of it.
pub type Leaf = Note<u64, (), NoLaw>;

/// The content of each entry.
pub struct Seven;

impl Drawn<u64> for Seven {
    ghost content = { 7 };
}

/// The number of each look.
pub struct Five;

impl Looked for Five {
    ghost number = { 5 };
}

// A history of two objects, with at most two entries and one, and a note that stands for one.
fn two_objects(alloc: Global, notes: u32) -> Result<(Past, Chair, Chair, Leaf), Memory>
    requires notes { 0 < notes }
    ensures planned { IfOk result (λ r. r.0.frame.planned ≡ 2 ∷ 1 ∷ []) }
    ensures first { IfOk result (λ r. (r.1.table ≡ r.0.table) × (r.1.knows ≡ fresh r.0.frame 0)) }
    ensures second { IfOk result (λ r. (r.2.table ≡ r.0.table) × (r.2.knows ≡ fresh r.0.frame 1)) }
    ensures note { IfOk result (λ r. (r.3.table ≡ r.0.table) × (r.3.knows.notes ≡ notes) × (r.3.knows.stays ≡ [])) }
{
    let (past, seats, note) = History::new(alloc, &(), &[2, 1], &[0, 0], notes)?;
    let (first, second) = pair(&past, seats);
    Ok((past, first, second, note))
}

// Draws a plain entry.
fn add(past: &Past, seat: &mut Chair) -> u64
    requires table { seat.old.table ≡ past.now.table }
    requires room { length (own_of seat.old.knows) < slice_index_or past.now.frame.planned (number_of seat.old.knows) 0 }
    ensures same { (seat.new.table ≡ past.now.table) × (seat.new.knows.frame ≡ seat.old.knows.frame) × (seat.new.knows.notes ≡ seat.old.knows.notes) × (seat.new.knows.stays ≡ seat.old.knows.stays) }
    ensures number { number_of seat.new.knows ≡ number_of seat.old.knows }
    ensures own { length (own_of seat.new.knows) ≡ length (own_of seat.old.knows) + 1 }
    ensures known { Has seat.new.knows.known (entry result (number_of seat.old.knows) Plain 7) }
{
    past.draw::<Seven>(seat, Sign::Plain)
}

/// Closes the history, and answers its length.
pub fn end(alloc: Global, past: Past, first: Chair, second: Chair) -> Result<u64, Memory>
    requires planned { length past.frame.planned ≡ 2 }
    requires first { (first.table ≡ past.table) × (first.knows.frame ≡ Some past.frame) × (number_of first.knows ≡ 0) }
    requires second { (second.table ≡ past.table) × (second.knows.frame ≡ Some past.frame) × (number_of second.knows ≡ 1) }
{
    let seats = vec![in alloc; first, second]?;
    let notes = Vec::new(alloc);
    let Closed::Done(sealed) = past.close(seats, notes) else {
        unreachable!()
    };
    Ok(sealed.len())
}

// A wallet with two places.
fn two_places(alloc: Global, tokens: &Tokens) -> Result<Wallet, Memory>
    ensures of { IfOk result (λ w. IsOf tokens.now w) }
    ensures places { IfOk result (λ w. 2 ≤ w.places) }
    ensures two { IfOk result (λ w. (o : ℕ) → HasPlace w o → Has (0 ∷ 1 ∷ []) o) }
{
    let wallet = Wallet::new(alloc, 2)?;
    Ok(wallet)
}

// Issues tickets of the book's owner, of which there are two, into the wallet.
fn stock(tokens: &Tokens, book: &mut Book, wallet: &mut Wallet, name: u32, amount: u64)
    requires book { (book.old.table ≡ tokens.now) × (out_of name book.old.out + amount < 2 ^ 64) }
    requires token { (name < 2) × (book.old.owner < 2) }
    requires of { IsOf tokens.now wallet.old }
    requires places { 2 ≤ wallet.old.places }
    requires two { (o : ℕ) → HasPlace wallet.old o → Has (0 ∷ 1 ∷ []) o }
    ensures book { book.new ≡ issued book.old name amount }
    ensures of { IsOf tokens.now wallet.new }
    ensures places { 2 ≤ wallet.new.places }
    ensures two { (o : ℕ) → HasPlace wallet.new o → Has (0 ∷ 1 ∷ []) o }
{
    let token = tokens.issue(book, name, amount);
    wallet.put(tokens, token);
}

// Pulls a ticket of the book's owner, and retires it.
fn pay(tokens: &Tokens, book: &mut Book, wallet: &mut Wallet)
    requires book { book.old.table ≡ tokens.now }
    requires of { IsOf tokens.now wallet.old }
    requires left { 0 < left_of wallet.old book.old.owner }
    ensures book { (book.new.table ≡ tokens.now) × (book.new.owner ≡ book.old.owner) }
    ensures of { IsOf tokens.now wallet.new }
{
    let ticket = wallet.pull(tokens, book.owner(), 0);
    ticket.retire(tokens, book);
}

// Whether so many tickets of each owner are left.
fn has_left(wallet: &Wallet, first: u64, second: u64) -> bool {
    wallet.left(0) == first && wallet.left(1) == second && wallet.bytes(0) == 0
}

#[test]
fn tickets_are_spent(rt: HostRuntime) {
    let Ok((tokens, mut book, mut other)) = two_books(rt.alloc()) else {
        panic!(rt; "memory");
    };
    let Ok(mut wallet) = two_places(rt.alloc(), &tokens) else {
        panic!(rt; "memory");
    };
    stock(&tokens, &mut book, &mut wallet, 0, 2);
    stock(&tokens, &mut other, &mut wallet, 0, 1);
    assert!(rt; has_left(&wallet, 2, 1));
    assert!(rt; wallet.left(0) > 0);
    pay(&tokens, &mut book, &mut wallet);
    assert!(rt; wallet.left(1) > 0);
    pay(&tokens, &mut other, &mut wallet);
    assert!(rt; has_left(&wallet, 1, 0) && wallet.left(0) > 0);
    pay(&tokens, &mut book, &mut wallet);
    assert!(rt; has_left(&wallet, 0, 0));
}

#[test]
fn positions_rise(rt: HostRuntime) {
    let Ok((past, mut first, mut second, note)) = two_objects(rt.alloc(), 1) else {
        panic!(rt; "memory");
    };
    past.join(&mut first, note);
    assert!(rt; add(&past, &mut first) == 0);
    let note = past.copy::<Five>(&mut first);
    past.join(&mut second, note);
    assert!(rt; add(&past, &mut second) == 1);
    assert!(rt; add(&past, &mut first) == 2);
    assert!(rt; end(rt.alloc(), past, first, second).expect(&rt, "memory") == 3);
}

// Takes a note in, draws, and copies a note that has seen the entry.
fn visit(past: &Past, mut seat: Chair, note: Leaf) -> (Chair, Leaf, u64)
    requires table { (seat.table ≡ past.now.table) × (note.table ≡ past.now.table) }
    requires notes { 1 ≤ note.knows.notes }
    requires outside { (seat.knows.stays ≡ []) × (note.knows.stays ≡ []) }
    requires room { length (own_of seat.knows) < slice_index_or past.now.frame.planned (number_of seat.knows) 0 }
    ensures table { (result.0.table ≡ past.now.table) × (result.1.table ≡ past.now.table) }
    ensures frame { (result.0.knows.frame ≡ seat.knows.frame) × (number_of result.0.knows ≡ number_of seat.knows) }
    ensures known { Has result.1.knows.known (entry result.2 (number_of seat.knows) Plain 7) }
{
    past.join(&mut seat, note);
    let position = add(past, &mut seat);
    let note = past.copy::<Five>(&mut seat);
    (seat, note, position)
}

// Takes a note in.
fn meet(past: &Past, mut seat: Chair, note: Leaf) -> Chair
    requires table { (seat.table ≡ past.now.table) × (note.table ≡ past.now.table) }
    ensures table { result.table ≡ past.now.table }
    ensures frame { (result.knows.frame ≡ seat.knows.frame) × (number_of result.knows ≡ number_of seat.knows) }
    ensures known { Within note.knows.known result.knows.known }
{
    past.join(&mut seat, note);
    seat
}

// Every value may be moved to another thread.
fn may_move<T: Send>(_value: &T) {}

// The history may be shared by threads.
fn may_be_shared<T: Sync>(_value: &T) {}

// Two threads draw at two objects. Then each seat takes in the other's note, and knows the other's
// entry.
fn exchange<R: Threads + Sync>(
    rt: &R,
    past: &Past,
    one: (Chair, Leaf),
    two: (Chair, Leaf),
) -> (Chair, Chair, u64, u64)
    requires tables { (one.0.table ≡ past.now.table) × (one.1.table ≡ past.now.table) × (two.0.table ≡ past.now.table) × (two.1.table ≡ past.now.table) }
    requires notes { (1 ≤ one.1.knows.notes) × (1 ≤ two.1.knows.notes) }
    requires outside { (one.0.knows.stays ≡ []) × (one.1.knows.stays ≡ []) × (two.0.knows.stays ≡ []) × (two.1.knows.stays ≡ []) }
    requires first { length (own_of one.0.knows) < slice_index_or past.now.frame.planned (number_of one.0.knows) 0 }
    requires second { length (own_of two.0.knows) < slice_index_or past.now.frame.planned (number_of two.0.knows) 0 }
    ensures table { (result.0.table ≡ past.now.table) × (result.1.table ≡ past.now.table) }
    ensures first { (result.0.knows.frame ≡ one.0.knows.frame) × (number_of result.0.knows ≡ number_of one.0.knows) }
    ensures second { (result.1.knows.frame ≡ two.0.knows.frame) × (number_of result.1.knows ≡ number_of two.0.knows) }
    ensures see { Has result.0.knows.known (entry result.3 (number_of two.0.knows) Plain 7) × Has result.1.knows.known (entry result.2 (number_of one.0.knows) Plain 7) }
{
    let (seat, note) = one;
    let (other, taken) = two;
    let (first, second) = join(rt, || visit(past, seat, note), || visit(past, other, taken));
    let (seat, note, position) = first;
    let (other, taken, place) = second;
    let seat = meet(past, seat, taken);
    let other = meet(past, other, note);
    (seat, other, position, place)
}

#[test]
fn threads_see_each_other_by_notes(rt: HostRuntime) {
    let Ok((past, first, second, mut note)) = two_objects(rt.alloc(), 2) else {
        panic!(rt; "memory");
    };
    may_be_shared(&past);
    may_move(&first);
    may_move(&note);
    let part = past.split(&mut note);
    let (first, second, one, two) = exchange(&rt, &past, (first, note), (second, part));
    assert!(rt; one.min(two) == 0 && one.max(two) == 1);
    assert!(rt; end(rt.alloc(), past, first, second).expect(&rt, "memory") == 2);
}
