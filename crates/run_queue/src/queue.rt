// The queue that threads share.
ghost use Rattle.std.specs.Prelude.{◌≡◌, ◌≤◌, count_by, IfOk, IsTrue, vec_len};
ghost use Rattle.run_queue.specs.Queue.{AreNumbered};

use crate::jobs::{Job, Jobs, TakenJob};
use std::alloc::Global;
use std::marker::Model;
use std::sync::{Condvar, Mutex, MutexGuard, Wait};
use tlm_types::Memory;

/// Jobs under a lock, with a bell for those who wait until one is in line. Contracts see how many there are, and how many
/// of them have to finish.
#[derive(Drop)]
pub struct RunQueue<J: Job> {
    lock: Mutex<Jobs<J>>,
    bell: Condvar,
    count: usize,
    unfinished: u32,
}

impl<J: Job> Model for RunQueue<J> {
    ghost use Rattle.run_queue.specs.Counts.{Counts};

    ghost Value = { Counts };

    ghost view = { λ q. record { jobs = q.count; unfinished = q.unfinished } };
}

impl<J: Job> RunQueue<J> {
    /// Jobs that all wait, in order, of which so many have to finish. Its only error is want of memory.
    pub fn new(alloc: Global, jobs: Vec<J>, unfinished: u32) -> Result<RunQueue<J>, Memory>
        requires { AreNumbered J.number_of jobs.items }
        ensures { IfOk result (λ q. q ≡ record { jobs = vec_len jobs; unfinished = unfinished }) }
    {
        let count = jobs.len();
        let jobs = Jobs::new(alloc, jobs, unfinished)?;
        Ok(RunQueue {
            lock: Mutex::new(jobs),
            bell: Condvar::new(),
            count,
            unfinished,
        })
    }

    /// What `Jobs::take` answers at some moment during this call, which may wait for the lock.
    pub fn take<R: Wait>(&self, rt: &R) -> TakenJob<J> {
        self.lock.lock(rt).take()
    }

    /// What `Jobs::give_back` does. It may wait for the lock.
    pub fn give_back<R: Wait>(&self, rt: &R, job: J) {
        self.lock.lock(rt).give_back(job);
    }

    /// What `Jobs::finish` does. It may wait for the lock.
    pub fn finish<R: Wait>(&self, rt: &R, job: J)
        requires { IsTrue (J.is_done job) }
    {
        self.lock.lock(rt).finish(job);
    }

    /// What `Jobs::rouse` and then `Jobs::take` do, under one lock, with how often it was told by then that a job has moved.
    /// It may wait for the lock. So do the calls below, which hand in a job before.
    pub fn take_and_look<R: Wait>(&self, rt: &R) -> (TakenJob<J>, u64) {
        self.look(self.lock.lock(rt))
    }

    /// `Jobs::bring_back` and `Jobs::give_back` before.
    pub fn give_back_and_take<R: Wait>(&self, rt: &R, job: J, reached: u64) -> (TakenJob<J>, u64) {
        let mut jobs = self.lock.lock(rt);
        jobs.bring_back(reached);
        jobs.give_back(job);
        self.look(jobs)
    }

    /// The job has moved: `Jobs::wake` and `Jobs::give_back` before.
    pub fn move_and_take<R: Wait>(&self, rt: &R, job: J) -> (TakenJob<J>, u64) {
        let mut jobs = self.lock.lock(rt);
        jobs.wake();
        jobs.give_back(job);
        self.look(jobs)
    }

    /// `Jobs::bring_back` and `Jobs::park`, both with this round, before.
    pub fn park_and_take<R: Wait>(&self, rt: &R, job: J, reached: u64) -> (TakenJob<J>, u64) {
        let mut jobs = self.lock.lock(rt);
        jobs.bring_back(reached);
        jobs.park(job, reached);
        self.look(jobs)
    }

    /// `Jobs::rest` before, with what was told when the job was taken; where the job has moved since then, `Jobs::wake`
    /// before that, which isn't counted against it.
    pub fn rest_and_take<R: Wait>(
        &self,
        rt: &R,
        job: J,
        moves: u64,
        moved: bool,
    ) -> (TakenJob<J>, u64) {
        let mut jobs = self.lock.lock(rt);
        let moves = tell_move(&mut jobs, moves, moved);
        jobs.rest(job, moves);
        self.look(jobs)
    }

    /// `Jobs::bring_back`, `Jobs::wake` and `Jobs::finish` before.
    pub fn finish_and_take<R: Wait>(&self, rt: &R, job: J, reached: u64) -> (TakenJob<J>, u64)
        requires { IsTrue (J.is_done job) }
    {
        let mut jobs = self.lock.lock(rt);
        jobs.bring_back(reached);
        jobs.wake();
        jobs.finish(job);
        self.look(jobs)
    }

    /// Waits until a job is in line or enough have finished, and does then what `take_and_look` does.
    pub fn wait_and_take<R: Wait>(&self, rt: &R) -> (TakenJob<J>, u64) {
        let jobs = self.lock.lock(rt);
        let jobs = self.bell.wait_while(rt, jobs, |jobs| jobs.is_idle());
        self.look(jobs)
    }

    // Takes the next job, and tells how often it was told by then that a job has moved. Where more is to be taken, those
    // who wait are told, once the lock is given back: they take it as soon as they are awake.
    fn look(&self, mut jobs: MutexGuard<'_, Jobs<J>>) -> (TakenJob<J>, u64) {
        jobs.rouse();
        let taken = jobs.take();
        let moves = jobs.moves();
        let is_idle = jobs.is_idle();
        MutexGuard::unlock(jobs);
        if !is_idle {
            self.bell.notify_all();
        }
        (taken, moves)
    }

    /// Each job once, in the order of their numbers; enough of them are done. It waits without end where
    /// a job is out or fewer have finished.
    pub fn into_jobs<R: Wait>(self, rt: &R) -> Vec<J>
        ensures numbered { AreNumbered J.number_of result.items }
        ensures all { vec_len result ≡ self.jobs }
        ensures enough { self.unfinished ≤ count_by J.is_done result.items }
    {
        let RunQueue {
            lock,
            bell: _,
            count,
            unfinished,
        } = self;
        gathered(rt, lock.into_inner(), count, unfinished)
    }

    /// Each job once, in the order of their numbers, whether enough of them are done or not. It waits without end
    /// where a job is out.
    pub fn into_all<R: Wait>(self, rt: &R) -> Vec<J>
        ensures numbered { AreNumbered J.number_of result.items }
        ensures all { vec_len result ≡ self.jobs }
    {
        let RunQueue {
            lock,
            bell: _,
            count,
            unfinished: _,
        } = self;
        gathered(rt, lock.into_inner(), count, 0)
    }
}

// These jobs, in the order of their numbers. It waits without end where there are not so many, one is out, or not so
// many have finished.
fn gathered<J: Job, R: Wait>(rt: &R, jobs: Jobs<J>, count: usize, finished: u32) -> Vec<J>
    ensures numbered { AreNumbered J.number_of result.items }
    ensures all { vec_len result ≡ count }
    ensures enough { finished ≤ count_by J.is_done result.items }
{
    if let Some(jobs) = jobs.into_jobs(count, finished) {
        return jobs;
    }
    for _ in rt.forever() {}
    unreachable!()
}

// Where a job has moved, the queue is told so: so many moves are known then to one who knew so many before.
fn tell_move<J: Job>(jobs: &mut Jobs<J>, moves: u64, moved: bool) -> u64 {
    if !moved {
        return moves;
    }
    jobs.wake();
    moves.saturating_add(1)
}
