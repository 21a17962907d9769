// Rounds, and the board that threads share.
use std::sync::Wait;
use std::thread;
use time_board::{Advance, Board, Rounds};

// Whether the member goes on to this round.
fn goes_on(rounds: &mut Rounds, who: u32, to: u64) -> bool {
    matches!(rounds.advance(who), Advance::Advanced { round } if round == to)
}

// Whether the member may not go on yet, since this one is still in this round.
fn waits_for(rounds: &mut Rounds, who: u32, other: u32, at: u64) -> bool {
    matches!(rounds.advance(who), Advance::NotYet { behind, round } if behind == other && round == at)
}

#[test]
fn rounds_may_have_no_member(rt: HostRuntime) {
    let mut rounds = Rounds::new(rt.alloc(), 0).expect(&rt, "memory");
    assert!(rt; goes_on(&mut rounds, 0, 0));
    rounds.finish(0);
    assert!(rt; goes_on(&mut rounds, 0, 0));
}

// Each of the first 31 members goes on, and then waits for the next one.
fn go_on_in_turn(rounds: &mut Rounds, from: u64, to: u64) -> bool {
    for who in 0..31 {
        if !goes_on(rounds, who, to) || !waits_for(rounds, who, who + 1, from) {
            return false;
        }
    }
    true
}

#[test]
fn all_members_go_on_round_by_round(rt: HostRuntime) {
    let mut rounds = Rounds::new(rt.alloc(), 32).expect(&rt, "memory");
    for (from, to) in [(0, 1), (1, 2), (2, 3)] {
        assert!(rt; go_on_in_turn(&mut rounds, from, to));
        assert!(rt; goes_on(&mut rounds, 31, to));
    }
    assert!(rt; goes_on(&mut rounds, 32, 0));
}

#[test]
fn who_finishes_lets_others_pass(rt: HostRuntime) {
    let mut rounds = Rounds::new(rt.alloc(), 3).expect(&rt, "memory");
    assert!(rt; goes_on(&mut rounds, 1, 1));
    assert!(rt; waits_for(&mut rounds, 1, 0, 0));
    rounds.finish(0);
    assert!(rt; waits_for(&mut rounds, 1, 2, 0));
    assert!(rt; goes_on(&mut rounds, 0, 0));
    rounds.finish(2);
    assert!(rt; goes_on(&mut rounds, 1, 2));
    rounds.finish(1);
    assert!(rt; goes_on(&mut rounds, 1, 0));
}

// Goes on to this round, and finishes.
fn climb<R: Wait>(rt: &R, board: &Board, who: u32, last: u64) -> u64 {
    let mut reached = 0;
    for _ in rt.forever() {
        match board.advance(rt, who) {
            Advance::Advanced { round } => reached = round,
            Advance::NotYet { .. } => thread::yield_now(),
        }
        if reached >= last {
            break;
        }
    }
    board.finish(rt, who);
    reached
}

#[test]
fn threads_go_on_together(rt: HostRuntime) {
    let board = Board::new(rt.alloc(), 2).expect(&rt, "memory");
    let (first, second) = thread::join(
        &rt,
        || climb(&rt, &board, 0, 100),
        || climb(&rt, &board, 1, 40),
    );
    assert!(rt; first == 100 && second == 40);
    assert!(rt; matches!(board.advance(&rt, 0), Advance::Advanced { round: 0 }));
}
