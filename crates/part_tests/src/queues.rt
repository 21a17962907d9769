// Jobs, and the queue that threads share.
ghost use Rattle.std.specs.Prelude.{◌≡◌, ◌==◌, IfOk};
ghost use Rattle.run_queue.specs.Queue.{AreNumbered};

use run_queue::{Job, RunQueue, TakenJob};
use std::alloc::Global;
use std::process::Abort;
use std::sync::Wait;
use std::thread;
use tlm_types::Memory;

// A job that is done after so many turns.
#[derive(Drop)]
struct Countdown {
    number: u32,
    left: u32,
}

impl Job for Countdown {
    ghost use Rattle.std.specs.Prelude.{◌==◌};

    ghost number_of = { λ c. c.number };

    ghost is_done = { λ c. c.left == 0 };

    fn number(&self) -> u32 {
        self.number
    }

    fn done(&self) -> bool {
        self.left == 0
    }
}

fn make_jobs(alloc: Global, count: u32, turns: u32) -> Result<Vec<Countdown>, Memory>
    ensures { IfOk result (λ v. AreNumbered (λ c. c.number) v.items) }
{
    let mut jobs = Vec::new(alloc);
    for number in 0..count {
        jobs.push(Countdown {
            number,
            left: turns,
        })?;
    }
    Ok(jobs)
}

fn jobs_of(rt: &impl Abort, alloc: Global, count: u32, turns: u32) -> Vec<Countdown>
    ensures { AreNumbered (λ c. c.number) result.items }
{
    make_jobs(alloc, count, turns).expect(rt, "memory")
}

const fn waiting(number: u32) -> Countdown {
    Countdown { number, left: 1 }
}

const fn finished(number: u32) -> Countdown
    ensures { result.left ≡ 0 }
{
    Countdown { number, left: 0 }
}

// The number of the job that was taken, or -1 for Nothing and -2 for AllDone.
fn told(taken: TakenJob<Countdown>) -> i64 {
    match taken {
        TakenJob::Took(job) => i64::from(job.number),
        TakenJob::Nothing => -1,
        TakenJob::AllDone => -2,
    }
}

// Whether so many takes in a row all tell this.
fn all_tell<R: Wait>(rt: &R, queue: &RunQueue<Countdown>, count: u32, number: i64) -> bool {
    for _ in 0..count {
        if told(queue.take(rt)) != number {
            return false;
        }
    }
    true
}

#[test]
fn one_job_serves_four_takers(rt: HostRuntime) {
    let jobs = jobs_of(&rt, rt.alloc(), 1, 0);
    let queue = RunQueue::new(rt.alloc(), jobs, 1).expect(&rt, "memory");
    assert!(rt; told(queue.take(&rt)) == 0);
    assert!(rt; all_tell(&rt, &queue, 3, -1));
    queue.give_back(&rt, finished(0));
    assert!(rt; told(queue.take(&rt)) == 0);
    queue.finish(&rt, finished(0));
    assert!(rt; all_tell(&rt, &queue, 4, -2));
    assert!(rt; queue.into_jobs(&rt).len() == 1);
}

// A call that answers the next job: it is just taken, or another one is handed in first, with the round that was told or
// that it waits for; or that job rests, having seen so many moves, or has moved.
#[derive(Clone, Copy)]
enum Call {
    Take,
    GiveBack(u32, u64),
    Finish(u32, u64),
    Park(u32, u64),
    Rest(u32, u64, bool),
    Move(u32),
}

// The number of the job that a call answers.
fn answer<R: Wait>(rt: &R, queue: &RunQueue<Countdown>, call: Call) -> i64 {
    let taken = match call {
        Call::Take => queue.take(rt),
        Call::GiveBack(number, round) => queue.give_back_and_take(rt, waiting(number), round).0,
        Call::Finish(number, round) => queue.finish_and_take(rt, finished(number), round).0,
        Call::Park(number, round) => queue.park_and_take(rt, waiting(number), round).0,
        Call::Rest(number, seen, moved) => queue.rest_and_take(rt, waiting(number), seen, moved).0,
        Call::Move(number) => queue.move_and_take(rt, waiting(number)).0,
    };
    told(taken)
}

// So many jobs, which are taken by these calls.
fn expect_answers<R: Wait + Abort>(rt: &R, alloc: Global, count: u32, rows: &[(Call, i64)]) {
    let jobs = jobs_of(rt, alloc, count, 1);
    let queue = RunQueue::new(alloc, jobs, count).expect(rt, "memory");
    for &(call, number) in rows {
        assert!(rt; answer(rt, &queue, call) == number);
    }
}

// A job that is handed in waits, or has finished, before the next one is taken.
static HANDED_IN: [(Call, i64); 8] = [
    (Call::Take, 0),
    (Call::GiveBack(0, 0), 1),
    (Call::GiveBack(1, 0), 0),
    (Call::Take, 1),
    (Call::GiveBack(1, 0), 1),
    (Call::GiveBack(0, 0), 0),
    (Call::Finish(1, 0), -1),
    (Call::Finish(0, 0), -2),
];

// A parked job comes back into line once a later round was told, and at once where that was told before. Round 4 was
// told with the jobs themselves: it brings back nobody.
static PARKED: [(Call, i64); 10] = [
    (Call::Take, 0),
    (Call::Park(0, 4), 1),
    (Call::Park(1, 4), 2),
    (Call::GiveBack(2, 4), 2),
    (Call::GiveBack(2, 5), 0),
    (Call::Take, 1),
    (Call::Park(0, 4), 2),
    (Call::Finish(2, 5), 0),
    (Call::Park(0, 5), -1),
    (Call::Finish(1, 6), 0),
];

// A job that found nothing to do rests until another one has moved since it was taken. Where nothing else can go on,
// those that rest are taken once more. While nobody has moved, 0 rests, and 1 comes back alone; 1 has moved, and 0 stands in line
// before it. 0 has moved as well: it rests, and so does 1, which was taken after that. A move since 1 was taken was told: it
// comes back at once, and so does who moved.
static RESTING: [(Call, i64); 8] = [
    (Call::Take, 0),
    (Call::Rest(0, 0, false), 1),
    (Call::GiveBack(1, 0), 1),
    (Call::Move(1), 0),
    (Call::Rest(0, 1, true), 1),
    (Call::Rest(1, 2, false), 0),
    (Call::Take, 1),
    (Call::Rest(1, 2, false), 1),
];

#[test]
fn who_hands_in_takes_the_next(rt: HostRuntime) {
    expect_answers(&rt, rt.alloc(), 2, &HANDED_IN);
    expect_answers(&rt, rt.alloc(), 3, &PARKED);
    expect_answers(&rt, rt.alloc(), 2, &RESTING);
}

// Nobody has moved before the first look.
#[test]
fn who_takes_may_look(rt: HostRuntime) {
    let jobs = jobs_of(&rt, rt.alloc(), 1, 1);
    let queue = RunQueue::new(rt.alloc(), jobs, 1).expect(&rt, "memory");
    let (first, seen) = queue.take_and_look(&rt);
    assert!(rt; told(first) == 0 && seen == 0);
    let (woken, seen) = queue.move_and_take(&rt, waiting(0));
    assert!(rt; told(woken) == 0 && seen == 1);
}

// Takes jobs and gives each a turn, until enough have finished. Answers how many turns it gave.
fn work<R: Wait>(rt: &R, queue: &RunQueue<Countdown>) -> u64 {
    let mut turns = 0u64;
    let mut taken = queue.take(rt);
    for _ in rt.forever() {
        taken = match taken {
            TakenJob::AllDone => break,
            TakenJob::Nothing => queue.wait_and_take(rt).0,
            TakenJob::Took(job) => {
                turns = turns.saturating_add(1);
                give_turn(rt, queue, job)
            }
        };
    }
    turns
}

fn give_turn<R: Wait>(
    rt: &R,
    queue: &RunQueue<Countdown>,
    mut job: Countdown,
) -> TakenJob<Countdown> {
    if job.done() {
        queue.finish_and_take(rt, job, 0).0
    } else {
        job.left -= 1;
        queue.give_back_and_take(rt, job, 0).0
    }
}

// Whether each job stands at its number, and has no turns left.
fn all_are_done(jobs: &[Countdown]) -> bool {
    for (k, job) in jobs.iter().enumerate() {
        if job.number as usize != k || job.left != 0 {
            return false;
        }
    }
    true
}

#[test]
fn two_threads_work_until_all_are_done(rt: HostRuntime) {
    let jobs = jobs_of(&rt, rt.alloc(), 8, 50);
    let queue = RunQueue::new(rt.alloc(), jobs, 8).expect(&rt, "memory");
    let (first, second) = thread::join(&rt, || work(&rt, &queue), || work(&rt, &queue));
    assert!(rt; first.saturating_add(second) == 8 * 51);
    let jobs = queue.into_jobs(&rt);
    assert!(rt; jobs.len() == 8 && all_are_done(&jobs));
}
