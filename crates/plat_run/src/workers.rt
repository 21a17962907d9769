// The workers.
ghost use Rattle.std.specs.Prelude.{◌≡◌, ◌<◌, true, false, map, length, All};
ghost use Rattle.plat_run.specs.Actors.{is_done, number_of};

use crate::actor::Actor;
use crate::turn::JobTurn;
use outside::Pace;
use plat_net::{ManyThreads, Net, Reach, Sharing, TlmLaw};
use route_plan::Plan;
use run_queue::{Job, RunQueue, TakenJob};
use shared_object::Naming;
use std::sync::Wait;
use std::thread;
use std::thread::Threads;
use time_board::Board;
use tlm_types::ObjectNo;

/// Takes a job, gives it its share of turns, and takes the next one as it hands it in, until enough have finished, or
/// none is in line: each of the others is out with another worker, or parked or at rest until one that is out lets
/// it go on. Then a worker waits where more workers pay. Where they don't, it leaves, and it leaves after some shares in any
/// case: the caller goes on alone once all have left, and is faster.
fn work<N: Naming<Plan, TlmLaw>, S: Sharing<N>, P: Pace, R: Wait>(
    rt: &R,
    net: &Net<N, S>,
    board: &Board,
    queue: &RunQueue<Actor<N>>,
    pace: &P,
) {
    let pays = more_workers_pay(net.plan());
    let mut left = SHARES;
    let mut reach = net;
    let mut next = queue.take_and_look(rt);
    for _ in rt.forever() {
        let (taken, moves) = next;
        next = match taken {
            TakenJob::Took(job) if left == 0 => {
                queue.give_back(rt, job);
                return;
            }
            TakenJob::Took(job) => {
                left = if pays { left } else { left - 1 };
                give_turns(rt, &mut reach, board, queue, pace, job, moves)
            }
            TakenJob::Nothing if pays => queue.wait_and_take(rt),
            TakenJob::Nothing | TakenJob::AllDone => return,
        };
    }
}

// How many turns a job has at most before others that wait have theirs: the queue's lock, which is taken
// once for all of them, costs a small part of what they do.
const TURNS: u32 = 64;

// How many shares a worker gives at most where more workers don't pay.
const SHARES: u32 = 16;

// Gives a job turns until it has finished, or can't go on, or lets others go on, or has had its share. What the last
// turn has come to, and whether the job went on before.
fn give_share<N: Naming<Plan, TlmLaw>, S: Sharing<N>, B: Reach<N, S>, P: Pace, R: Wait>(
    rt: &R,
    reach: &mut B,
    board: &Board,
    pace: &P,
    job: &mut Actor<N>,
) -> (JobTurn, bool)
    ensures { number_of job.new ≡ number_of job.old }
{
    let mut moved = false;
    for _turn in 0..TURNS {
        if job.rests(reach.net()) {
            return (JobTurn::Idle, moved);
        }
        let turn = job.turn(rt, reach, board, pace);
        if job.done() || !matches!(turn, JobTurn::WentOn) {
            return (turn, moved);
        }
        moved = true;
    }
    (JobTurn::WentOn, moved)
}

// Hands in a job that went on, and takes the next one. One that is pumped lets those go on that rest.
fn hand_on<N: Naming<Plan, TlmLaw>, R: Wait>(
    rt: &R,
    queue: &RunQueue<Actor<N>>,
    job: Actor<N>,
) -> (TakenJob<Actor<N>>, u64) {
    if job.is_pumped() {
        queue.move_and_take(rt, job)
    } else {
        queue.give_back_and_take(rt, job, 0)
    }
}

// Gives a job its share of turns, hands it in, and takes the next one. Who hands in a job tells the queue which
// round all have reached, and whether it has moved, so that none stays parked or at rest that can go on.
fn give_turns<N: Naming<Plan, TlmLaw>, S: Sharing<N>, B: Reach<N, S>, P: Pace, R: Wait>(
    rt: &R,
    reach: &mut B,
    board: &Board,
    queue: &RunQueue<Actor<N>>,
    pace: &P,
    mut job: Actor<N>,
    moves: u64,
) -> (TakenJob<Actor<N>>, u64) {
    let (turn, moved) = give_share(rt, reach, board, pace, &mut job);
    if job.done() {
        let reached = board.finish_and_look(rt, job.number());
        return queue.finish_and_take(rt, job, reached);
    }
    match turn {
        JobTurn::WentOn => hand_on(rt, queue, job),
        JobTurn::Opened { round } => queue.give_back_and_take(rt, job, round),
        JobTurn::HeldBack { reached } => queue.park_and_take(rt, job, reached),
        JobTurn::Idle => queue.rest_and_take(rt, job, moves, moved),
    }
}

// An access of so many bytes takes longer than waking a worker.
const LARGE: u64 = 1024;

// Whether the entries of a memory log so many bytes each, as planned.
fn has_large_accesses(plan: &Plan, memory: u32) -> bool
    requires { memory < length plan.now.platform.memories }
{
    let entries = plan.entries(ObjectNo::Memory(memory));
    entries > 0 && plan.logged(memory) / LARGE >= entries
}

// Whether more workers pay: where some memory has large accesses. Small ones are made so fast that workers would mostly
// wait for one another, since each takes a memory's lock and draws a position of the one history.
fn more_workers_pay(plan: &Plan) -> bool {
    let memories = plan.platform().memories.as_slice().len() as u32;
    for memory in 0..memories {
        if has_large_accesses(plan, memory) {
            return true;
        }
    }
    false
}

/// Lets so many workers work at once, each in a thread of its own but for one, which is the caller's, until all have
/// left. Where a thread can't be started, the others do its work. It takes no memory but what the system takes for a
/// thread.
pub(crate) fn work_all<
    N: Naming<Plan, TlmLaw> + Send + Sync,
    P: Pace + Sync,
    R: Threads + Wait + Sync,
>(
    rt: &R,
    net: &Net<N, ManyThreads>,
    board: &Board,
    queue: &RunQueue<Actor<N>>,
    workers: u32,
    pace: &P,
) {
    thread::scope(thread::scope_env(), rt, |scope| {
        for _worker in 1..workers {
            let worker = move || work::<N, ManyThreads, P, R>(rt, net, board, queue, pace);
            if scope.spawn(worker).is_err() {
                break;
            }
        }
        work(rt, net, board, queue, pace);
    });
}

// Gives each job a turn that hasn't finished, in order, and answers whether one of the first so many needs more.
fn give_round<N: Naming<Plan, TlmLaw>, S: Sharing<N>, P: Pace, R: Wait>(
    rt: &R,
    net: &mut Net<N, S>,
    board: &Board,
    pace: &P,
    jobs: &mut [Actor<N>],
    count: u32,
) -> bool
    ensures numbers { map number_of jobs.new ≡ map number_of jobs.old }
    ensures more { result ≡ false → All (λ job. number_of job < count → is_done job ≡ true) jobs.new }
{
    let mut more = false;
    for job in jobs.iter_mut() {
        if job.visit(rt, net, board, pace, count) {
            more = true;
        }
    }
    more
}

/// Gives turns by the caller alone, in the order in which they would come off a queue, until the first so many jobs have
/// finished. No lock is taken to give a turn, and none for the access of a blocking initiator; nor is memory.
pub(crate) fn work_alone<N: Naming<Plan, TlmLaw>, S: Sharing<N>, P: Pace, R: Wait>(
    rt: &R,
    net: &mut Net<N, S>,
    board: &Board,
    pace: &P,
    jobs: &mut [Actor<N>],
    count: u32,
)
    ensures numbers { map number_of jobs.new ≡ map number_of jobs.old }
    ensures done { All (λ job. number_of job < count → is_done job ≡ true) jobs.new }
{
    for _ in rt.forever() {
        if !give_round(rt, net, board, pace, jobs, count) {
            return;
        }
    }
    unreachable!()
}
