// The jobs.
ghost use Rattle.std.specs.Prelude.{◌≡◌, ◌+◌, ◌<◌, ◌≤◌, ◌↔◌, ◌++◌, [], length, map, count_by, IfOk, IfSome, IsTrue, vec_len, vec_capacity};
ghost use Rattle.std.specs.List.{range_with_len};
ghost use Rattle.std.specs.VecDeque.{deque_capacity};
ghost use Rattle.run_queue.specs.Queue.{job_of, IsOut, finished_count, AreNumbered, IsLine, IfTook, UnlessTook, Takes, given_back, ended, brought_back, set_aside, laid_down, roused, woken, Gathers};
ghost use Rattle.run_queue.specs.Sound.{ArePlaced};

use std::alloc::{AllocError, Global};
use std::collections::VecDeque;
use std::marker::Model;
use std::mem;
use tlm_types::Memory;

/// What is given turns.
pub trait Job: Drop {
    ghost use Rattle.std.specs.Prelude.{ℕ, Bool};

    /// Its number.
    ghost number_of: { Self → ℕ };

    /// Whether it needs no more turns.
    ghost is_done: { Self → Bool };

    /// Its number, from 0.
    fn number(&self) -> u32
        ensures { result ≡ number_of self.now };

    /// Whether it needs no more turns.
    fn done(&self) -> bool
        ensures { result ≡ is_done self.now };
}

/// Where the job of a number is: it waits, in line, parked or at rest, is out with a worker, or has finished.
#[derive(Drop)]
pub enum JobState<J> {
    Waiting(J),
    Out,
    Finished(J),
}

impl<J> JobState<J> {
    fn into_job(self) -> Option<J>
        ensures { result ≡ job_of self }
    {
        match self {
            JobState::Waiting(job) => Some(job),
            JobState::Out => None,
            JobState::Finished(job) => Some(job),
        }
    }
}

/// What `take` answers: a job, that none waits, or that enough jobs have finished.
#[derive(Drop)]
pub enum TakenJob<J> {
    Took(J),
    Nothing,
    AllDone,
}

/// Jobs, each at the place of its number.
#[derive(Drop)]
pub struct Jobs<J: Job> {
    places: Vec<JobState<J>>,
    order: VecDeque<usize>,
    parked: VecDeque<usize>,
    reached: u64,
    resting: VecDeque<usize>,
    moves: u64,
    finished: usize,
    unfinished: u32,
    room: Vec<J>,
}

impl<J: Job> Model for Jobs<J> {
    ghost use Rattle.std.specs.Prelude.{◌≡◌, ◌≤◌, ◌++◌, [], length, vec_capacity};
    ghost use Rattle.std.specs.VecDeque.{deque_capacity};
    ghost use Rattle.run_queue.specs.Queue.{Queue, finished_count};
    ghost use Rattle.run_queue.specs.Sound.{IsSound};

    ghost Value = { Queue J };

    ghost view = { λ q. record { places = q.places.items; order = q.order.items; parked = q.parked.items; reached = q.reached; resting = q.resting.items; moves = q.moves; unfinished = q.unfinished } };

    ghost invariant = { λ q. IsSound J.number_of J.is_done q.places.items (q.order.items ++ (q.parked.items ++ q.resting.items)) × (q.finished ≡ finished_count q.places.items) × ((length q.places.items ≤ deque_capacity q.order) × (length q.places.items ≤ deque_capacity q.parked) × (length q.places.items ≤ deque_capacity q.resting)) × (q.room.items ≡ []) × (length q.places.items ≤ vec_capacity q.room) };
}

fn make_order(alloc: Global, count: usize) -> Result<VecDeque<usize>, Memory>
    ensures order { IfOk result (λ q. q.items ≡ range_with_len 0 count) }
    ensures room { IfOk result (λ q. count ≤ deque_capacity q) }
{
    let mut order = VecDeque::with_capacity(alloc, count)?;
    for number in 0..count {
        order.push_back(number)?;
    }
    Ok(order)
}

fn make_places<J: Drop>(alloc: Global, jobs: Vec<J>) -> Result<Vec<JobState<J>>, AllocError>
    ensures { IfOk result (λ v. v.items ≡ map JobState.Waiting jobs.items) }
{
    jobs.into_iter()
        .map(|job| JobState::Waiting(job))
        .collect(alloc)
}

fn is_out<J>(places: &[JobState<J>], number: usize) -> bool
    ensures { IsTrue result ↔ IsOut places.now number }
{
    matches!(places.get(number), Some(JobState::Out))
}

// Puts all numbers that wait aside behind those in line, which has room for them.
fn join(order: &mut VecDeque<usize>, parked: &mut VecDeque<usize>)
    requires fits { length order.old.items + length parked.old.items ≤ deque_capacity order.old }
    ensures order { order.new.items ≡ order.old.items ++ parked.old.items }
    ensures parked { parked.new.items ≡ [] }
    ensures room { deque_capacity order.new ≡ deque_capacity order.old }
    ensures parked_room { deque_capacity parked.new ≡ deque_capacity parked.old }
{
    for _k in 0..parked.len() {
        if let Some(number) = parked.pop_front() {
            order.push_back_reserved(number);
        }
    }
}

// All jobs, where none is out.
fn gather<J: Job>(places: Vec<JobState<J>>, mut room: Vec<J>) -> Option<Vec<J>>
    requires placed { ArePlaced J.number_of J.is_done places.items }
    requires empty { room.items ≡ [] }
    requires fits { length places.items ≤ vec_capacity room }
    ensures { IfSome result (λ v. Gathers J.number_of J.is_done places.items v.items) }
{
    for place in places {
        let job = place.into_job()?;
        room.push_reserved(job);
    }
    Some(room)
}

impl<J: Job> Jobs<J> {
    /// Jobs that all wait in line, in order, of which so many have to finish; no round above 0 has been reached, and none
    /// has moved. Its only error is want of memory.
    pub fn new(alloc: Global, jobs: Vec<J>, unfinished: u32) -> Result<Jobs<J>, Memory>
        requires { AreNumbered J.number_of jobs.items }
        ensures { IfOk result (λ q. q ≡ record {
          places = map JobState.Waiting jobs.items;
          order = range_with_len 0 (length jobs.items);
          parked = [];
          reached = 0;
          resting = [];
          moves = 0;
          unfinished = unfinished;
        }) }
    {
        let count = jobs.len();
        let room = Vec::with_capacity(alloc, count)?;
        let order = make_order(alloc, count)?;
        let parked = VecDeque::with_capacity(alloc, count)?;
        let resting = VecDeque::with_capacity(alloc, count)?;
        let places = make_places(alloc, jobs)?;
        Ok(Jobs {
            places,
            order,
            parked,
            reached: 0,
            resting,
            moves: 0,
            finished: 0,
            unfinished,
            room,
        })
    }

    /// Takes out the job that has waited longest in line.
    pub fn take(&mut self) -> TakenJob<J>
        ensures took { IfTook result (λ job. Takes J.number_of self.old self.new job) }
        ensures unchanged { UnlessTook result (self.new ≡ self.old) }

        // Each of the other two answers comes exactly where it is true.
        ensures all_done { (result ≡ TakenJob.AllDone)
            ↔ (self.old.unfinished ≤ finished_count self.old.places) }
        ensures nothing { (result ≡ TakenJob.Nothing)
            ↔ ((self.old.order ≡ []) × (finished_count self.old.places < self.old.unfinished)) }

        // Each number that waits is in line, parked or at rest, once, and no other is.
        ensures line { IsLine self.old }
    {
        if self.unfinished as usize <= self.finished {
            return TakenJob::AllDone;
        }
        let Some(number) = self.order.pop_front() else {
            return TakenJob::Nothing;
        };
        let JobState::Waiting(job) = mem::replace(&mut self.places[number], JobState::Out) else {
            unreachable!()
        };
        TakenJob::Took(job)
    }

    /// Whether `take` would answer Nothing.
    pub fn is_idle(&self) -> bool
        ensures { IsTrue result ↔ ((self.now.order ≡ []) × (finished_count self.now.places < self.now.unfinished)) }
    {
        self.order.is_empty() && self.finished < self.unfinished as usize
    }

    /// The job waits again, behind all in line. A job whose number isn't out is dropped.
    pub fn give_back(&mut self, job: J)
        ensures back { IsOut self.old.places (J.number_of job)
            → self.new ≡ given_back self.old (J.number_of job) job }
        ensures dropped { ¬ (IsOut self.old.places (J.number_of job)) → self.new ≡ self.old }
    {
        let number = job.number() as usize;
        if is_out(&self.places, number) {
            self.places[number] = JobState::Waiting(job);
            self.order.push_back_reserved(number);
        }
    }

    /// The job waits until a round above this one is reached: it is parked, and where that is known already it
    /// waits behind all in line. A job whose number isn't out is dropped.
    pub fn park(&mut self, job: J, round: u64)
        ensures parked { IsOut self.old.places (J.number_of job)
            → self.new ≡ set_aside self.old (J.number_of job) job round }
        ensures dropped { ¬ (IsOut self.old.places (J.number_of job)) → self.new ≡ self.old }
    {
        if round < self.reached {
            return self.give_back(job);
        }
        let number = job.number() as usize;
        if is_out(&self.places, number) {
            self.places[number] = JobState::Waiting(job);
            self.parked.push_back_reserved(number);
        }
    }

    /// This round has been reached. Where none at or above it was told before, all that are parked wait behind
    /// those in line.
    pub fn bring_back(&mut self, round: u64)
        ensures { self.new ≡ brought_back self.old round }
    {
        if self.reached < round {
            self.reached = round;
            join(&mut self.order, &mut self.parked);
        }
    }

    /// How often it was told that a job has moved. It stands still at the greatest number.
    pub fn moves(&self) -> u64
        ensures { result ≡ self.now.moves }
    {
        self.moves
    }

    /// The job, which found nothing to do, rests until another one has moved once more than so often. Where that is
    /// known already, it waits behind all in line. A job whose number isn't out is dropped.
    pub fn rest(&mut self, job: J, moves: u64)
        ensures resting { IsOut self.old.places (J.number_of job)
            → self.new ≡ laid_down self.old (J.number_of job) job moves }
        ensures dropped { ¬ (IsOut self.old.places (J.number_of job)) → self.new ≡ self.old }
    {
        if moves < self.moves {
            return self.give_back(job);
        }
        let number = job.number() as usize;
        if is_out(&self.places, number) {
            self.places[number] = JobState::Waiting(job);
            self.resting.push_back_reserved(number);
        }
    }

    /// A job has moved: all that rest wait behind those in line.
    pub fn wake(&mut self)
        ensures { self.new ≡ woken self.old }
    {
        self.moves = self.moves.saturating_add(1);
        join(&mut self.order, &mut self.resting);
    }

    /// Where no job is in line and none is out, all that rest wait in line once more, so that none is left lying.
    pub fn rouse(&mut self)
        ensures { self.new ≡ roused self.old }
    {
        if self.order.is_empty()
            && self.places.len() - self.finished == self.parked.len() + self.resting.len()
        {
            self.wake();
        }
    }

    /// The job, which is done, has finished. A job whose number isn't out is dropped.
    pub fn finish(&mut self, job: J)
        requires { IsTrue (J.is_done job) }
        ensures finished { IsOut self.old.places (J.number_of job)
            → self.new ≡ ended self.old (J.number_of job) job }
        ensures dropped { ¬ (IsOut self.old.places (J.number_of job)) → self.new ≡ self.old }
    {
        let number = job.number() as usize;
        if is_out(&self.places, number) {
            self.places[number] = JobState::Finished(job);
            self.finished += 1;
        }
    }

    // Each job, in the order of their numbers, where there are so many, none is out, and so many have
    // finished.
    pub(crate) fn into_jobs(self, count: usize, unfinished: u32) -> Option<Vec<J>>
        ensures numbered { IfSome result (λ v. AreNumbered J.number_of v.items) }
        ensures all { IfSome result (λ v. vec_len v ≡ count) }
        ensures enough { IfSome result (λ v. unfinished ≤ count_by J.is_done v.items) }
    {
        let Jobs {
            places,
            order: _,
            parked: _,
            reached: _,
            resting: _,
            moves: _,
            finished,
            unfinished: _,
            room,
        } = self;
        if places.len() != count || finished < unfinished as usize {
            return None;
        }
        gather(places, room)
    }
}
