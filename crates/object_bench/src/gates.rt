// A gate that is shut: while threads go through it, while one is inside, and while nobody is.
ghost use Rattle.std.specs.Prelude.{◌≡◌, ◌+◌, ◌<◌, ◌≤◌, [], ◌∷◌, length, slice_index_or, true, IfOk, IfSome, Some};
ghost use Rattle.view_lists.specs.Lists.{Has};
ghost use Rattle.one_history.specs.declared.entry.Sign.TheVariants.{Granted};
ghost use Rattle.one_history.specs.Moves.{number_of, own_of, entry, fresh};
ghost use Rattle.one_history.specs.Seats.{AreFresh};
ghost use Rattle.object_bench.specs.Gates.{IsFramed, IsChair, IsSeated, IsLeaf, IsInsideLeaf};

use crate::history::{Chair, Five, Leaf, Past, Seven};
use one_history::{Closed, Entered, History, Sign};
use std::alloc::Global;
use std::sync::Wait;
use std::thread::{Threads, join};
use tlm_types::Memory;

// The seats of three objects.
fn trio(past: &Past, mut seats: Vec<Chair>) -> (Chair, Chair, Chair)
    requires count { length seats.items ≡ 3 }
    requires fresh { AreFresh past.now.table past.now.frame seats.items }
    ensures first { (result.0.table ≡ past.now.table) × (result.0.knows ≡ fresh past.now.frame 0) }
    ensures second { (result.1.table ≡ past.now.table) × (result.1.knows ≡ fresh past.now.frame 1) }
    ensures third { (result.2.table ≡ past.now.table) × (result.2.knows ≡ fresh past.now.frame 2) }
{
    let Some(third) = seats.pop() else {
        unreachable!()
    };
    let Some(second) = seats.pop() else {
        unreachable!()
    };
    let Some(first) = seats.pop() else {
        unreachable!()
    };
    (first, second, third)
}

// A history of a keeper, which has a gate, and of two visitors, and a note that stands for three.
#[derive(Drop)]
struct Start {
    past: Past,
    keeper: Chair,
    one: Chair,
    two: Chair,
    note: Leaf,
}

fn make_start(alloc: Global) -> Result<Start, Memory>
    ensures frame { IfOk result (λ s. IsFramed s.past.frame) }
    ensures keeper { IfOk result (λ s. (s.keeper.table ≡ s.past.table) × (s.keeper.knows ≡ fresh s.past.frame 0)) }
    ensures one { IfOk result (λ s. IsChair s.past 1 s.one × (own_of s.one.knows ≡ [])) }
    ensures two { IfOk result (λ s. IsChair s.past 2 s.two × (own_of s.two.knows ≡ [])) }
    ensures note { IfOk result (λ s. (s.note.table ≡ s.past.table) × (s.note.knows.notes ≡ 3) × (s.note.knows.stays ≡ [])) }
{
    let (past, seats, note) = History::new(alloc, &(), &[3, 3, 3], &[1, 0, 0], 3)?;
    let (keeper, one, two) = trio(&past, seats);
    Ok(Start {
        past,
        keeper,
        one,
        two,
        note,
    })
}

// Closes the history, and answers its length.
fn end(alloc: Global, past: Past, keeper: Chair, one: Chair, two: Chair) -> Result<u64, Memory>
    requires frame { IsFramed past.frame }
    requires keeper { IsSeated past 0 keeper }
    requires one { IsSeated past 1 one }
    requires two { IsSeated past 2 two }
{
    let seats = vec![in alloc; keeper, one, two]?;
    let notes = Vec::new(alloc);
    let Closed::Done(sealed) = past.close(seats, notes) else {
        unreachable!()
    };
    Ok(sealed.len())
}

// Grants direct access through the gate of the keeper.
fn grant(past: &Past, seat: &mut Chair) -> u64
    requires frame { IsFramed past.now.frame }
    requires seat { (seat.old.table ≡ past.now.table) × (seat.old.knows ≡ fresh past.now.frame 0) }
    ensures seat { IsChair past.now 0 seat.new }
    ensures own { length (own_of seat.new.knows) ≡ 1 }
    ensures granted { Has seat.new.knows.known (entry result 0 (Granted 0 0 9) 7) }
    ensures seen { result < seat.new.knows.seen }
{
    let sign = Sign::Granted {
        gate: 0,
        first: 0,
        last: 9,
    };
    past.draw::<Seven>(seat, sign)
}

// Goes inside the gate, if it isn't marked.
fn go_inside(past: &Past, mut note: Leaf) -> Option<Leaf>
    requires frame { IsFramed past.now.frame }
    requires note { IsLeaf past.now note }
    ensures inside { IfSome result (λ n. IsInsideLeaf past.now n) }
{
    match past.enter(&mut note, 0) {
        Entered::Inside => Some(note),
        Entered::Marked => None,
    }
}

// Makes a direct access through the gate that the note is inside, and leaves. A note comes back that is
// inside no gate.
fn access(past: &Past, mut seat: Chair, note: Leaf) -> (Chair, Leaf)
    requires frame { IsFramed past.now.frame }
    requires seat { IsChair past.now (number_of seat.knows) seat }
    requires inside { IsInsideLeaf past.now note }
    requires room { length (own_of seat.knows) < slice_index_or past.now.frame.planned (number_of seat.knows) 0 }
    ensures seat { IsChair past.now (number_of seat.knows) result.0 }
    ensures own { length (own_of result.0.knows) ≡ length (own_of seat.knows) + 1 }
    ensures note { IsLeaf past.now result.1 }
{
    past.join(&mut seat, note);
    past.draw::<Seven>(&mut seat, Sign::Direct { gate: 0 });
    past.leave(&mut seat, 0);
    let note = past.copy::<Five>(&mut seat);
    (seat, note)
}

// Makes a direct access, if the gate isn't marked.
fn visit(past: &Past, seat: Chair, mut note: Leaf) -> (Chair, Leaf)
    requires frame { IsFramed past.now.frame }
    requires seat { IsChair past.now (number_of seat.knows) seat }
    requires note { IsLeaf past.now note }
    requires room { length (own_of seat.knows) < slice_index_or past.now.frame.planned (number_of seat.knows) 0 }
    ensures seat { IsChair past.now (number_of seat.knows) result.0 }
    ensures own { length (own_of result.0.knows) ≤ length (own_of seat.knows) + 1 }
    ensures note { IsLeaf past.now result.1 }
{
    match past.enter(&mut note, 0) {
        Entered::Inside => access(past, seat, note),
        Entered::Marked => (seat, note),
    }
}

// Three visits. Who is turned away is so from then on.
fn wander(past: &Past, seat: Chair, note: Leaf) -> Chair
    requires frame { IsFramed past.now.frame }
    requires seat { IsChair past.now (number_of seat.knows) seat }
    requires fresh { own_of seat.knows ≡ [] }
    requires room { 3 ≤ slice_index_or past.now.frame.planned (number_of seat.knows) 0 }
    requires note { IsLeaf past.now note }
    ensures seat { IsChair past.now (number_of seat.knows) result }
{
    let (seat, note) = visit(past, seat, note);
    let (seat, note) = visit(past, seat, note);
    let (seat, _note) = visit(past, seat, note);
    seat
}

// The visits of the first visitor.
fn wander_one(past: &Past, seat: Chair, note: Leaf) -> Chair
    requires frame { IsFramed past.now.frame }
    requires seat { IsChair past.now 1 seat }
    requires fresh { own_of seat.knows ≡ [] }
    requires note { IsLeaf past.now note }
    ensures seat { IsSeated past.now 1 result }
{
    wander(past, seat, note)
}

// The visits of the second visitor.
fn wander_two(past: &Past, seat: Chair, note: Leaf) -> Chair
    requires frame { IsFramed past.now.frame }
    requires seat { IsChair past.now 2 seat }
    requires fresh { own_of seat.knows ≡ [] }
    requires note { IsLeaf past.now note }
    ensures seat { IsSeated past.now 2 result }
{
    wander(past, seat, note)
}

// Both visitors go through the gate.
fn wander_both<R: Threads + Wait + Sync>(
    rt: &R,
    past: &Past,
    chair: Chair,
    leaf: Leaf,
    stool: Chair,
    slip: Leaf,
) -> (Chair, Chair)
    requires frame { IsFramed past.now.frame }
    requires one { IsChair past.now 1 chair }
    requires first { own_of chair.knows ≡ [] }
    requires leaf { IsLeaf past.now leaf }
    requires two { IsChair past.now 2 stool }
    requires second { own_of stool.knows ≡ [] }
    requires slip { IsLeaf past.now slip }
    ensures one { IsSeated past.now 1 result.0 }
    ensures two { IsSeated past.now 2 result.1 }
{
    join(
        rt,
        || wander_one(past, chair, leaf),
        || wander_two(past, stool, slip),
    )
}

// Invalidates, marks the gate, twice, waits until nobody is inside, and closes it.
fn shut<R: Wait>(rt: &R, past: &Past, mut seat: Chair, note: Leaf, granted: u64) -> Chair
    requires frame { IsFramed past.now.frame }
    requires seat { IsChair past.now 0 seat × (length (own_of seat.knows) ≡ 1) }
    requires note { IsLeaf past.now note }
    requires granted { Has seat.knows.known (entry granted 0 (Granted 0 0 9) 7) × (granted < seat.knows.seen) }
    ensures seat { IsSeated past.now 0 result }
{
    past.join(&mut seat, note);
    let _ = past.draw::<Seven>(&mut seat, Sign::Invalidated { first: 5, last: 5 });
    let mut note = past.copy::<Five>(&mut seat);
    past.mark(&mut note, 0);
    past.mark(&mut note, 0);
    past.drain(rt, &mut note, 0);
    past.join(&mut seat, note);
    let _ = past.draw::<Seven>(&mut seat, Sign::Closed { gate: 0 });
    seat
}

// One thread shuts the gate while another, which is inside, makes its access and leaves.
fn compete<R: Threads + Wait + Sync>(
    rt: &R,
    past: &Past,
    keeper: (Chair, Leaf, u64),
    visitor: (Chair, Leaf),
) -> (Chair, Chair)
    requires frame { IsFramed past.now.frame }
    requires keeper { IsChair past.now 0 keeper.0 × (length (own_of keeper.0.knows) ≡ 1) }
    requires granted { Has keeper.0.knows.known (entry keeper.2 0 (Granted 0 0 9) 7) × (keeper.2 < keeper.0.knows.seen) }
    requires note { IsLeaf past.now keeper.1 }
    requires visitor { IsChair past.now 1 visitor.0 × (own_of visitor.0.knows ≡ []) }
    requires inside { IsInsideLeaf past.now visitor.1 }
    ensures keeper { IsSeated past.now 0 result.0 }
    ensures visitor { IsSeated past.now 1 result.1 }
{
    let (seat, note, granted) = keeper;
    let (chair, leaf) = visitor;
    let (keeper, (visitor, _leaf)) = join(
        rt,
        || shut(rt, past, seat, note, granted),
        || access(past, chair, leaf),
    );
    (keeper, visitor)
}

// One thread shuts the gate while two others go through it.
fn crowd<R: Threads + Wait + Sync>(
    rt: &R,
    past: &Past,
    keeper: (Chair, Leaf, u64),
    one: (Chair, Leaf),
    two: (Chair, Leaf),
) -> (Chair, (Chair, Chair))
    requires frame { IsFramed past.now.frame }
    requires keeper { IsChair past.now 0 keeper.0 × (length (own_of keeper.0.knows) ≡ 1) }
    requires granted { Has keeper.0.knows.known (entry keeper.2 0 (Granted 0 0 9) 7) × (keeper.2 < keeper.0.knows.seen) }
    requires note { IsLeaf past.now keeper.1 }
    requires one { IsChair past.now 1 one.0 }
    requires first { own_of one.0.knows ≡ [] }
    requires leaf { IsLeaf past.now one.1 }
    requires two { IsChair past.now 2 two.0 }
    requires second { own_of two.0.knows ≡ [] }
    requires slip { IsLeaf past.now two.1 }
    ensures keeper { IsSeated past.now 0 result.0 }
    ensures one { IsSeated past.now 1 result.1.0 }
    ensures two { IsSeated past.now 2 result.1.1 }
{
    let (seat, note, granted) = keeper;
    let (chair, leaf) = one;
    let (stool, slip) = two;
    join(
        rt,
        || shut(rt, past, seat, note, granted),
        ||
            requires frame { IsFramed past.now.frame }
            requires one { IsChair past.now 1 chair }
            requires first { own_of chair.knows ≡ [] }
            requires leaf { IsLeaf past.now leaf }
            requires two { IsChair past.now 2 stool }
            requires second { own_of stool.knows ≡ [] }
            requires slip { IsLeaf past.now slip }
        { wander_both(rt, past, chair, leaf, stool, slip) },
    )
}

#[test]
fn a_gate_is_shut_while_a_thread_is_inside(rt: HostRuntime) {
    let Ok(
        Start {
            past,
            mut keeper,
            one,
            two,
            mut note,
        },
    ) = make_start(rt.alloc())
    else {
        panic!(rt; "memory");
    };
    let early = past.split(&mut note);
    let late = past.split(&mut note);
    let granted = grant(&past, &mut keeper);
    let Some(early) = go_inside(&past, early) else {
        panic!(rt; "the gate is marked too early");
    };
    let (keeper, one) = compete(&rt, &past, (keeper, note, granted), (one, early));
    assert!(rt; go_inside(&past, late).is_none());
    assert!(rt; end(rt.alloc(), past, keeper, one, two).expect(&rt, "memory") == 4);
}

#[test]
fn a_gate_is_shut_while_threads_go_through(rt: HostRuntime) {
    let Ok(
        Start {
            past,
            mut keeper,
            one,
            two,
            mut note,
        },
    ) = make_start(rt.alloc())
    else {
        panic!(rt; "memory");
    };
    let leaf = past.split(&mut note);
    let slip = past.split(&mut note);
    let granted = grant(&past, &mut keeper);
    let (keeper, (one, two)) = crowd(
        &rt,
        &past,
        (keeper, note, granted),
        (one, leaf),
        (two, slip),
    );
    let length = end(rt.alloc(), past, keeper, one, two).expect(&rt, "memory");
    assert!(rt; 3 <= length && length <= 9);
}

#[test]
fn a_gate_that_nobody_is_in_is_shut_at_once(rt: HostRuntime) {
    let Ok(
        Start {
            past,
            mut keeper,
            one,
            two,
            mut note,
        },
    ) = make_start(rt.alloc())
    else {
        panic!(rt; "memory");
    };
    let late = past.split(&mut note);
    let _other = past.split(&mut note);
    let granted = grant(&past, &mut keeper);
    let keeper = shut(&rt, &past, keeper, note, granted);
    assert!(rt; go_inside(&past, late).is_none());
    assert!(rt; end(rt.alloc(), past, keeper, one, two).expect(&rt, "memory") == 3);
}
